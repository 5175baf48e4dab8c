// The commands of the stored playlists.
ghost use Rattle.std.specs.Prelude.{◌≡◌, ◌≤◌, length, Ok, IfOk, IfErr};
ghost use Rattle.command_text.specs.Masks.{all_in_mask};
ghost use Rattle.command_text.specs.declared.command.lists.ListsCommand.TheVariants as commands;
ghost use Rattle.stored_lists.specs.Limits.{MAX_ENTRIES};
ghost use Rattle.command_text.specs.declared.range.PositionRange.TheVariants.{One};
ghost use Rattle.machine_core.specs.Lists.{lists_meaning, list_name, moves_in, moves_range, songs_named, rows_to_load};
ghost use Rattle.machine_core.specs.Named.{Finds, IsNotFound};
ghost use Rattle.machine_core.specs.Work.{HasRoom, Performs, command_room};

use crate::adding::can_count;
use crate::answer_lists::{write_list_names, write_song_infos, write_uris};
use crate::machine::Machine;
use crate::named::numbers_of;
use crate::span::{span_in, span_or_all};
use crate::work::{Failure, Work};
use command_text::{CommandRefusal, ListsCommand, PositionRange, TagMask};
use play_queue::Target;
use song_db::SongDb;
use state_codec::{ListOp, Op, OpRefusal, RowNumbers, Text};
use std::alloc::Global;
use stored_lists::{Lists, Songs, is_good_name};

mod moving;

impl Machine {
    #[tactic(auto, unfolding(crate::specs::Lists::lists_meaning))]
    pub(super) fn perform_lists(
        &mut self,
        alloc: Global,
        mask: TagMask,
        command: ListsCommand<'_>,
        work: &mut Work,
    ) -> Result<(), Failure>
        requires { HasRoom command_room work.old }
        ensures { Performs (lists_meaning mask command.entry self.old) self.old self.new work.old work.new result }
    {
        match command {
            ListsCommand::Add(name, path, to) => {
                self.add_to_list(alloc, name.as_str(), path.as_str(), to, work)
            }
            ListsCommand::Clear(name) => self.clear_list(alloc, name.as_str(), work),
            ListsCommand::Delete(name, range) => {
                self.delete_from_list(alloc, name.as_str(), range, work)
            }
            ListsCommand::Load(name, range, to) => {
                self.load_list(alloc, name.as_str(), range, to, work)
            }
            ListsCommand::Move(name, range, to) => {
                self.move_in_list(alloc, name.as_str(), range, to, work)
            }
            ListsCommand::Names => self.list_names(work),
            ListsCommand::Remove(name) => self.remove_list(alloc, name.as_str(), work),
            ListsCommand::Rename(from, to) => {
                self.rename_list(alloc, from.as_str(), to.as_str(), work)
            }
            ListsCommand::Save(name, mode) => self.save_queue(alloc, name.as_str(), mode, work),
            ListsCommand::Songs(name) => self.list_uris(name.as_str(), work),
            ListsCommand::SongsInfo(name) => self.list_songs(mask, name.as_str(), work),
        }
    }

    // `playlistadd`: a song, or all songs under a folder; a playlist that is missing is made, for no songs too.
    fn add_to_list(
        &mut self,
        alloc: Global,
        name: &str,
        path: &str,
        to: Option<u32>,
        work: &mut Work,
    ) -> Result<(), Failure>
        requires { HasRoom command_room work.old }
        ensures { Performs (lists_meaning all_in_mask (commands.Add name.now path.now to) self.old) self.old self.new work.old
            work.new result }
    {
        let name = list_name(alloc, name)?;
        let rows = self.rows_named(alloc, path)?;
        self.add_songs(alloc, name, rows, to, work)
    }

    fn clear_list(&mut self, alloc: Global, name: &str, work: &mut Work) -> Result<(), Failure>
        requires { HasRoom command_room work.old }
        ensures { Performs (lists_meaning all_in_mask (commands.Clear name.now) self.old) self.old self.new work.old work.new result }
    {
        let name = list_name(alloc, name)?;
        self.edit(alloc, Op::List(ListOp::Clear { name }), work)
    }

    fn delete_from_list(
        &mut self,
        alloc: Global,
        name: &str,
        range: PositionRange,
        work: &mut Work,
    ) -> Result<(), Failure>
        requires { HasRoom command_room work.old }
        ensures { Performs (lists_meaning all_in_mask (commands.Delete name.now range) self.old) self.old self.new work.old work.new
            result }
    {
        let songs = songs_named(self.saved.lists(), name)?;
        let span = span_in(range, songs.len() as u32)?;
        let name = list_name(alloc, name)?;
        let op = ListOp::Remove {
            name,
            start: span.start,
            end: span.end,
        };
        self.edit(alloc, Op::List(op), work)
    }

    // `load`: the songs of a playlist, or of a range of it, that still have rows.
    fn load_list(
        &mut self,
        alloc: Global,
        name: &str,
        range: Option<PositionRange>,
        to: Option<Target>,
        work: &mut Work,
    ) -> Result<(), Failure>
        requires { HasRoom command_room work.old }
        ensures { Performs (lists_meaning all_in_mask (commands.Load name.now range to) self.old) self.old self.new work.old work.new
            result }
    {
        let current = self.current_position();
        let songs = songs_named(self.saved.lists(), name)?;
        let rows = rows_to_load(alloc, self.saved.songs(), songs, range, to, current)?;
        self.add_rows(alloc, to, rows, work)
    }

    fn move_in_list(
        &mut self,
        alloc: Global,
        name: &str,
        range: PositionRange,
        to: u32,
        work: &mut Work,
    ) -> Result<(), Failure>
        requires { HasRoom command_room work.old }
        ensures { Performs (moves_in name.now range to self.old) self.old self.new work.old work.new result }
    {
        match range {
            PositionRange::One(from) => self.move_one_in_list(alloc, name, from, to, work),
            PositionRange::From(_) | PositionRange::Between(_, _) => {
                self.move_range_in_list(alloc, name, range, to, work)
            }
        }
    }

    fn move_one_in_list(
        &mut self,
        alloc: Global,
        name: &str,
        from: u32,
        to: u32,
        work: &mut Work,
    ) -> Result<(), Failure>
        requires { HasRoom command_room work.old }
        ensures { Performs (moves_in name.now (One from) to self.old) self.old self.new work.old work.new result }
    {
        let name = list_name(alloc, name)?;
        self.edit(alloc, Op::List(ListOp::Move { name, from, to }), work)
    }

    fn move_range_in_list(
        &mut self,
        alloc: Global,
        name: &str,
        range: PositionRange,
        to: u32,
        work: &mut Work,
    ) -> Result<(), Failure>
        requires { HasRoom command_room work.old }
        ensures { Performs (moves_range name.now range to self.old) self.old self.new work.old work.new result }
    {
        let songs = songs_named(self.saved.lists(), name)?;
        let length = songs.len() as u32;
        let block = span_in(range, length)?;
        let name = list_name(alloc, name)?;
        self.move_block_in_list(alloc, &name, block, to, length, work)
    }

    fn remove_list(&mut self, alloc: Global, name: &str, work: &mut Work) -> Result<(), Failure>
        requires { HasRoom command_room work.old }
        ensures { Performs (lists_meaning all_in_mask (commands.Remove name.now) self.old) self.old self.new work.old work.new result }
    {
        let name = list_name(alloc, name)?;
        self.edit(alloc, Op::List(ListOp::Drop { name }), work)
    }

    fn rename_list(
        &mut self,
        alloc: Global,
        from: &str,
        to: &str,
        work: &mut Work,
    ) -> Result<(), Failure>
        requires { HasRoom command_room work.old }
        ensures { Performs (lists_meaning all_in_mask (commands.Rename from.now to.now) self.old) self.old self.new work.old work.new
            result }
    {
        let from = list_name(alloc, from)?;
        let to = list_name(alloc, to)?;
        self.edit(alloc, Op::List(ListOp::Rename { from, to }), work)
    }

    // `listplaylists`: the names.
    fn list_names(&self, work: &mut Work) -> Result<(), Failure>
        ensures { Performs (lists_meaning all_in_mask commands.Names self.now) self.now self.now work.old work.new result }
    {
        if work.is_long() {
            return work.keep_none();
        }
        let mark = work.text.len();
        let saved = &self.saved;
        let written = write_list_names(
            &mut work.text,
            saved.profile(),
            saved.changed(),
            saved.lists(),
        );
        work.keep(mark, written)
    }

    // `listplaylist`: the URIs.
    fn list_uris(&self, name: &str, work: &mut Work) -> Result<(), Failure>
        ensures { Performs (lists_meaning all_in_mask (commands.Songs name.now) self.now) self.now self.now work.old work.new result }
    {
        let songs = songs_named(self.saved.lists(), name)?;
        if work.is_long() {
            return work.keep_none();
        }
        let mark = work.text.len();
        let written = write_uris(&mut work.text, songs.as_slice());
        work.keep(mark, written)
    }

    // `listplaylistinfo`: the lines of each song.
    fn list_songs(&self, mask: TagMask, name: &str, work: &mut Work) -> Result<(), Failure>
        ensures { Performs (lists_meaning mask (commands.SongsInfo name.now) self.now) self.now self.now work.old work.new result }
    {
        let songs = songs_named(self.saved.lists(), name)?;
        let mark = work.text.len();
        let written = write_song_infos(&mut work.text, mask, self.saved.songs(), songs.as_slice());
        work.keep(mark, written)
    }
}

// A name as an op has it, if a playlist may have it.
pub(super) fn list_name(alloc: Global, name: &str) -> Result<Text, Failure>
    ensures { Finds (list_name name.now) result }
{
    if !is_good_name(name) {
        return Err(Failure::Refused(CommandRefusal::BadPlaylistName));
    }
    match Text::read(alloc, name)? {
        Some(text) => Ok(text),
        None => unreachable!(),
    }
}

// The songs of a playlist.
pub(super) fn songs_named<'a>(lists: &'a Lists, name: &str) -> Result<&'a Songs, Failure>
    ensures songs { IfOk result (λ songs. songs_named lists.now name.now ≡ Ok songs.now) }
    ensures few { IfOk result (λ songs. length songs.now ≤ MAX_ENTRIES) }
    ensures refused { IfErr result (IsNotFound (songs_named lists.now name.now)) }
{
    let _limits = lists.len();
    match lists.get(name) {
        Ok(songs) => Ok(songs),
        Err(refusal) => Err(Failure::from(OpRefusal::Lists(refusal))),
    }
}

// The rows of the songs of a range, at a place that can be counted.
#[tactic(auto, unfolding(crate::specs::Spans::span_in))]
fn rows_to_load(
    alloc: Global,
    database: &SongDb,
    songs: &Songs,
    range: Option<PositionRange>,
    to: Option<Target>,
    current: Option<usize>,
) -> Result<RowNumbers, Failure>
    requires { length songs.now ≤ MAX_ENTRIES }
    ensures { Finds (rows_to_load database.now songs.now range to current) result }
{
    if !can_count(to, current) {
        return Err(Failure::Refused(CommandRefusal::NoCurrentSong));
    }
    let span = span_or_all(range, songs.len() as u32)?;
    match songs.as_slice().get(span.start as usize..span.end as usize) {
        Some(part) => numbers_of(alloc, database, part),
        None => numbers_of(alloc, database, &[]),
    }
}
