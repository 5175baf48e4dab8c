// The five forms of `sticker`.
ghost use Rattle.std.specs.Prelude.{◌≡◌, Some, None, IfOk, if◌then◌else◌, option_copied};
ghost use Rattle.command_text.specs.declared.command.sticker.StickersCommand.TheVariants as commands;
ghost use Rattle.stickers.specs.Find.{passes, passing};
ghost use Rattle.stickers.specs.Name.{is_good_name};
ghost use Rattle.stickers.specs.Sticker.{value_at};
ghost use Rattle.machine_core.specs.Meaning.{answers, says};
ghost use Rattle.machine_core.specs.Stickers.{stickers_meaning, test_of, song_found, found_below};
ghost use Rattle.machine_core.specs.Work.{HasRoom, Performs, command_room};

use crate::answer::{write_found, write_found_song, write_stickers};
use crate::machine::Machine;
use crate::work::{Failure, Work};
use command_text::{CommandRefusal, StickersCommand, Text, ValueBound, write_sticker};
use song_db::Place;
use state_codec::{Op, StickerOp, Text as OpText};
use std::alloc::{AllocError, Global};
use stickers::{StickerValue, ValueTest, is_good_name};

fn test_of<'a>(bound: &'a ValueBound<'_>) -> ValueTest<'a>
    ensures { (value : _) → passes result value ≡ passes (test_of bound.now) value }
{
    match bound {
        ValueBound::Any => ValueTest::Any,
        ValueBound::Equal(value) => ValueTest::Equal(value.as_str()),
        ValueBound::Less(value) => ValueTest::Less(value.as_str()),
        ValueBound::Greater(value) => ValueTest::Greater(value.as_str()),
    }
}

// The name for an op; none where no sticker can have it.
fn op_name(alloc: Global, name: &str) -> Result<Option<OpText>, AllocError>
    ensures { IfOk result (λ made. made ≡ (if is_good_name name.now then Some name.now else None)) }
{
    if !is_good_name(name) {
        return Ok(None);
    }
    OpText::read(alloc, name)
}

impl Machine {
    #[tactic(auto, unfolding(crate::specs::Stickers::stickers_meaning))]
    pub(super) fn perform_stickers(
        &mut self,
        alloc: Global,
        command: StickersCommand<'_>,
        work: &mut Work,
    ) -> Result<(), Failure>
        requires { HasRoom command_room work.old }
        ensures { Performs (stickers_meaning command.entry self.old) self.old self.new work.old work.new result }
    {
        match command {
            StickersCommand::Delete(uri, name) => match name {
                None => self.delete_stickers(alloc, uri, work),
                Some(name) => self.delete_sticker(alloc, uri, name, work),
            },
            StickersCommand::Find(uri, name, bound) => {
                self.find_sticker(alloc, uri, name, bound, work)
            }
            StickersCommand::Get(uri, name) => self.get_sticker(uri, name, work),
            StickersCommand::List(uri) => self.list_stickers(uri, work),
            StickersCommand::Set(uri, name, value) => {
                self.set_sticker(alloc, uri, name, value, work)
            }
        }
    }

    fn get_sticker(&self, uri: Text<'_>, name: Text<'_>, work: &mut Work) -> Result<(), Failure>
        ensures { Performs (stickers_meaning (commands.Get uri.entry name.entry) self.now) self.now self.now work.old work.new result }
    {
        let uri = uri.as_str();
        let name = name.as_str();
        if !self.has_song(uri) {
            return Err(Failure::Refused(CommandRefusal::NoSuchUri));
        }
        let stickers = self.saved.stickers();
        // No sticker has a name that none can have.
        let _limits = stickers.len();
        let Ok(value) = stickers.get(uri, name) else {
            return Err(Failure::Refused(CommandRefusal::NoSuchSticker));
        };
        let mark = work.text.len();
        let written = write_sticker(&mut work.text, name, value.as_str());
        work.keep(mark, written)
    }

    fn set_sticker(
        &mut self,
        alloc: Global,
        uri: Text<'_>,
        name: Text<'_>,
        value: Text<'_>,
        work: &mut Work,
    ) -> Result<(), Failure>
        requires { HasRoom command_room work.old }
        ensures { Performs (stickers_meaning (commands.Set uri.entry name.entry value.entry) self.old)
            self.old self.new work.old work.new result }
    {
        let Some(value) = StickerValue::read(alloc, value.as_str())? else {
            return Err(Failure::Refused(CommandRefusal::BadArgument(5)));
        };
        let uri = self.song_uri(alloc, uri.as_str())?;
        let Some(name) = op_name(alloc, name.as_str())? else {
            return Err(Failure::Refused(CommandRefusal::BadStickerName));
        };
        self.edit(
            alloc,
            Op::Sticker(StickerOp::Set { uri, name, value }),
            work,
        )
    }

    // Deletes all stickers of a song.
    fn delete_stickers(
        &mut self,
        alloc: Global,
        uri: Text<'_>,
        work: &mut Work,
    ) -> Result<(), Failure>
        requires { HasRoom command_room work.old }
        ensures { Performs (stickers_meaning (commands.Delete uri.entry None) self.old) self.old self.new work.old work.new result }
    {
        let uri = self.song_uri(alloc, uri.as_str())?;
        self.edit(alloc, Op::Sticker(StickerOp::DeleteAll { uri }), work)
    }

    // Deletes the sticker of a name.
    fn delete_sticker(
        &mut self,
        alloc: Global,
        uri: Text<'_>,
        name: Text<'_>,
        work: &mut Work,
    ) -> Result<(), Failure>
        requires { HasRoom command_room work.old }
        ensures { Performs (stickers_meaning (commands.Delete uri.entry (Some name.entry)) self.old)
            self.old self.new work.old work.new result }
    {
        let uri = self.song_uri(alloc, uri.as_str())?;
        let Some(name) = op_name(alloc, name.as_str())? else {
            return Err(Failure::Refused(CommandRefusal::BadStickerName));
        };
        self.edit(alloc, Op::Sticker(StickerOp::Delete { uri, name }), work)
    }

    fn list_stickers(&self, uri: Text<'_>, work: &mut Work) -> Result<(), Failure>
        ensures { Performs (stickers_meaning (commands.List uri.entry) self.now) self.now self.now work.old work.new result }
    {
        let uri = uri.as_str();
        if !self.has_song(uri) {
            return Err(Failure::Refused(CommandRefusal::NoSuchUri));
        }
        if work.is_long() {
            return work.keep_none();
        }
        let mark = work.text.len();
        let written = write_stickers(&mut work.text, self.saved.stickers(), uri);
        work.keep(mark, written)
    }

    // The song of a path goes before the folder of that path.
    fn find_sticker(
        &self,
        alloc: Global,
        uri: Text<'_>,
        name: Text<'_>,
        bound: ValueBound<'_>,
        work: &mut Work,
    ) -> Result<(), Failure>
        requires { HasRoom command_room work.old }
        ensures { Performs (stickers_meaning (commands.Find uri.entry name.entry bound.entry) self.now)
            self.now self.now work.old work.new result }
    {
        let uri = uri.as_str();
        let name = name.as_str();
        let test = test_of(&bound);
        if self.has_song(uri) {
            return self.find_at_song(uri, name, &test, work);
        }
        self.find_below(alloc, Place::read(uri), name, &test, work)
    }

    // The value of a song's sticker, where it passes the test.
    fn value_found(&self, uri: &str, name: &str, test: &ValueTest<'_>) -> Option<&StickerValue>
        ensures { option_copied result ≡ passing test.now (value_at self.now.saved.stickers uri.now name.now) }
    {
        let stickers = self.saved.stickers();
        // No sticker has a name that none can have.
        let _limits = stickers.len();
        match stickers.find_song(uri, name, test) {
            Ok(found) => found,
            Err(_) => None,
        }
    }

    fn find_at_song(
        &self,
        uri: &str,
        name: &str,
        test: &ValueTest<'_>,
        work: &mut Work,
    ) -> Result<(), Failure>
        ensures { Performs (says (song_found uri.now name.now (passing test.now
            (value_at self.now.saved.stickers uri.now name.now))) self.now)
            self.now self.now work.old work.new result }
    {
        let found = self.value_found(uri, name, test);
        let mark = work.text.len();
        let written = write_found_song(&mut work.text, uri, name, found);
        work.keep(mark, written)
    }

    // The songs below a folder.
    fn find_below(
        &self,
        alloc: Global,
        place: Place<'_>,
        name: &str,
        test: &ValueTest<'_>,
        work: &mut Work,
    ) -> Result<(), Failure>
        requires { HasRoom command_room work.old }
        ensures { Performs (answers (found_below place.entry name.now test.now self.now) self.now)
            self.now self.now work.old work.new result }
    {
        if !self.has_folder(place) {
            return Err(Failure::Refused(CommandRefusal::NoSuchUri));
        }
        let stickers = self.saved.stickers();
        let _limits = stickers.len();
        if !is_good_name(name) {
            return Ok(());
        }
        let Ok(found) = stickers.find(alloc, place, name, test) else {
            return Err(Failure::NoMemory);
        };
        let mark = work.text.len();
        let written = write_found(&mut work.text, name, &found);
        work.keep(mark, written)
    }
}
