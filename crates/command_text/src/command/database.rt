// Reads the commands of the song database.
ghost use Rattle.std.specs.Prelude.{◌≡◌, true, Err};
ghost use Rattle.command_text.specs.Database.{scanned_place, path_argument, scan_of, tag_types_of, database_of, keeps_place};
ghost use Rattle.command_text.specs.declared.stop.Stop.TheVariants as stops;
ghost use Rattle.command_text.specs.Counts.{argument};
ghost use Rattle.command_text.specs.Masks.{change_alone, empty_mask, mask_change, named_tags, with_named};
ghost use Rattle.command_text.specs.Stops.{Reads};

use crate::argument::{argument, optional_text};
use crate::counts::{no_argument, optional};
use crate::refusal::{CommandRefusal, TagsRefusal};
use crate::stop::Stop;
use crate::tag_mask::{MaskChange, TagMask};
use crate::text::{Text, utf8};
use crate::topic::DatabaseName;
use filter_expr::{LineWord, tag_named};
use profile::Profile;
use song_db::Uri;
use std::alloc::Global;

/// A command of the database or its scans. A path may be any text, and no path is the root.
#[derive(Debug, Drop)]
pub enum DatabaseCommand<'w> {
    /// Changes which tags the client sees.
    ChangeMask(MaskChange),
    /// Lists the commands.
    Commands,
    ListAll(Option<Text<'w>>),
    ListAllInfo(Option<Text<'w>>),
    /// The names right in a folder.
    ListFiles(Option<Text<'w>>),
    ListInfo(Option<Text<'w>>),
    NotCommands,
    Stats,
    TagTypes,
    /// Reads the files at and below a place, or all, whether they changed or not.
    Rescan(Option<Uri>),
    /// Reads those of them that changed, where that can be told.
    Update(Option<Uri>),
}

/// The command of this name with these arguments.
#[tactic(auto, unfolding(crate::specs::Database::database_of))]
pub(crate) fn read<'w>(
    alloc: Global,
    profile: Profile,
    name: DatabaseName,
    words: &'w [LineWord<'_>],
) -> Result<DatabaseCommand<'w>, Stop>
    ensures exact { Reads result (database_of profile name words.now) }
    ensures memory { result ≡ Err stops.NoMemory → keeps_place name ≡ true }
{
    match name {
        DatabaseName::Commands => Ok(no_argument(DatabaseCommand::Commands, words)?),
        DatabaseName::ListAll => Ok(DatabaseCommand::ListAll(path_argument(words)?)),
        DatabaseName::ListAllInfo => Ok(DatabaseCommand::ListAllInfo(path_argument(words)?)),
        DatabaseName::ListFiles => Ok(DatabaseCommand::ListFiles(path_argument(words)?)),
        DatabaseName::ListInfo => Ok(DatabaseCommand::ListInfo(path_argument(words)?)),
        DatabaseName::NotCommands => Ok(no_argument(DatabaseCommand::NotCommands, words)?),
        DatabaseName::Stats => Ok(no_argument(DatabaseCommand::Stats, words)?),
        DatabaseName::TagTypes => Ok(tag_types(profile, words)?),
        DatabaseName::Rescan => Ok(DatabaseCommand::Rescan(scan(alloc, words)?)),
        DatabaseName::Update => Ok(DatabaseCommand::Update(scan(alloc, words)?)),
    }
}

/// The tags are listed, or in the wide profile those change that the client sees.
#[tactic(auto, unfolding(crate::specs::Database::tag_types_of))]
fn tag_types<'w>(
    profile: Profile,
    words: &[LineWord<'_>],
) -> Result<DatabaseCommand<'w>, CommandRefusal>
    ensures { result ≡ tag_types_of profile words.now }
{
    match profile {
        Profile::Named => no_argument(DatabaseCommand::TagTypes, words),
        Profile::Wide => match words {
            [] => Ok(DatabaseCommand::TagTypes),
            [what, words @ ..] => {
                Ok(DatabaseCommand::ChangeMask(mask_change(what.bytes(), words)?))
            }
        },
    }
}

/// The change that a word asks for, with the words behind it.
#[tactic(auto, unfolding(crate::specs::Masks::mask_change))]
fn mask_change(what: &[u8], words: &[LineWord<'_>]) -> Result<MaskChange, CommandRefusal>
    ensures { result ≡ mask_change what.now words.now }
{
    if what == b"clear".as_slice() {
        change_alone(MaskChange::Clear, words)
    } else if what == b"all".as_slice() {
        change_alone(MaskChange::All, words)
    } else if what == b"enable".as_slice() {
        Ok(MaskChange::Enable(named_tags(words)?))
    } else if what == b"disable".as_slice() {
        Ok(MaskChange::Disable(named_tags(words)?))
    } else {
        Err(CommandRefusal::Tags(TagsRefusal::UnknownSubCommand))
    }
}

/// A change that names no tag.
fn change_alone(change: MaskChange, words: &[LineWord<'_>]) -> Result<MaskChange, CommandRefusal>
    ensures { result ≡ change_alone change words.now }
{
    if words.is_empty() {
        Ok(change)
    } else {
        Err(CommandRefusal::Tags(TagsRefusal::TooManyArguments))
    }
}

/// The tags that words name, one at least.
fn named_tags(words: &[LineWord<'_>]) -> Result<TagMask, CommandRefusal>
    ensures { result ≡ named_tags words.now }
{
    if words.is_empty() {
        return Err(CommandRefusal::Tags(TagsRefusal::MissingArguments));
    }
    match tags_named(words) {
        Some(tags) => Ok(tags),
        None => Err(CommandRefusal::Tags(TagsRefusal::UnknownTagType)),
    }
}

/// The tags that words name, if each names one.
fn tags_named(words: &[LineWord<'_>]) -> Option<TagMask>
    ensures { result ≡ with_named empty_mask words.now }
{
    let mut mask = TagMask::empty();
    for word in words {
        match tag_named(Profile::Wide, word.bytes()) {
            None => return None,
            Some(tag) => mask = mask.with(TagMask::only(tag)),
        }
    }
    Some(mask)
}

/// A path, of which any text is one.
fn path_argument<'w>(words: &'w [LineWord<'_>]) -> Result<Option<Text<'w>>, CommandRefusal>
    ensures { result ≡ path_argument words.now }
{
    optional_text(1, optional(words)?)
}

/// The place that a scan reads, if one is given.
#[tactic(auto, unfolding(crate::specs::Database::scan_of))]
fn scan(alloc: Global, words: &[LineWord<'_>]) -> Result<Option<Uri>, Stop>
    ensures { Reads result (scan_of words.now) }
{
    match optional(words)? {
        None => Ok(None),
        Some(word) => scanned_place(alloc, word),
    }
}

/// The place that a scan reads: the empty text or `/` for all, or what has the form of a URI.
#[tactic(auto, unfolding(crate::specs::Database::scanned_place))]
fn scanned_place(alloc: Global, word: &[u8]) -> Result<Option<Uri>, Stop>
    ensures { Reads result (argument 1 (scanned_place word.now)) }
{
    if word.is_empty() || word == b"/".as_slice() {
        return Ok(None);
    }
    let Some(text) = utf8(word) else {
        return Err(Stop::Refused(CommandRefusal::BadArgument(1)));
    };
    let uri = argument(1, Uri::read(alloc, text)?)?;
    Ok(Some(uri))
}
