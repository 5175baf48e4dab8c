// Reads the commands of stored playlists.
ghost use Rattle.std.specs.Prelude.{◌≡◌};
ghost use Rattle.command_text.specs.Lists.{lists_of, one_name, load_of, rename_of, list_add_of, list_delete_of, list_move_of};
ghost use Rattle.command_text.specs.Lists.{added_arguments, moved_of, save_mode_of, save_of};
ghost use Rattle.std.specs.Option.{option_map};
ghost use Rattle.std.specs.Result.{result_map_both};

use crate::argument::{
    argument, number, optional_number, optional_range, optional_target, range, text,
};
use crate::counts::{no_argument, one, one_or_two, one_to_three, three, two, two_or_three};
use crate::named::playlist_name;
use crate::range::PositionRange;
use crate::refusal::CommandRefusal;
use crate::text::Text;
use crate::topic::ListsName;
use filter_expr::LineWord;
use play_queue::Target;
use profile::Profile;

/// A command of the stored playlists. Each name is one that a playlist may have; a URI may be any text.
#[derive(Debug, Drop)]
pub enum ListsCommand<'w> {
    /// Adds a song, or all songs under a folder, at a place, or at the end.
    Add(Text<'w>, Text<'w>, Option<u32>),
    Clear(Text<'w>),
    Delete(Text<'w>, PositionRange),
    /// Adds its songs, or those of a range, to the queue.
    Load(Text<'w>, Option<PositionRange>, Option<Target>),
    /// Moves the entries of a range to a position, counted without them.
    Move(Text<'w>, PositionRange, u32),
    /// Lists the names.
    Names,
    Remove(Text<'w>),
    Rename(Text<'w>, Text<'w>),
    /// Saves the queue, as the mode says.
    Save(Text<'w>, SaveMode),
    /// Lists its URIs.
    Songs(Text<'w>),
    /// Lists its songs.
    SongsInfo(Text<'w>),
}

/// What `save` does with the queue; its word is past the MPD protocol reference 0.23, and without one it is `Create`.
#[derive(Clone, Copy, Debug, PartialEq, Eq)]
pub enum SaveMode {
    /// Makes a playlist, whose name may not be taken.
    Create,
    /// Adds the queue to a playlist that is there.
    Append,
    /// Gives the queue to a playlist that is there, in place of its songs.
    Replace,
}

/// The command of this name with these arguments.
#[tactic(auto, unfolding(crate::specs::Lists::lists_of))]
pub(crate) fn read<'w>(
    profile: Profile,
    name: ListsName,
    words: &'w [LineWord<'_>],
) -> Result<ListsCommand<'w>, CommandRefusal>
    ensures { result ≡ lists_of profile name words.now }
{
    match name {
        ListsName::ListPlaylist => Ok(ListsCommand::Songs(one_name(words)?)),
        ListsName::ListPlaylistInfo => Ok(ListsCommand::SongsInfo(one_name(words)?)),
        ListsName::ListPlaylists => no_argument(ListsCommand::Names, words),
        ListsName::Load => load(words),
        ListsName::PlaylistAdd => add(profile, words),
        ListsName::PlaylistClear => Ok(ListsCommand::Clear(one_name(words)?)),
        ListsName::PlaylistDelete => delete(words),
        ListsName::PlaylistMove => move_entries(profile, words),
        ListsName::Remove => Ok(ListsCommand::Remove(one_name(words)?)),
        ListsName::Rename => rename(words),
        ListsName::Save => save(words),
    }
}

fn one_name<'w>(words: &'w [LineWord<'_>]) -> Result<Text<'w>, CommandRefusal>
    ensures { result ≡ one_name words.now }
{
    playlist_name(one(words)?)
}

#[tactic(auto, unfolding(crate::specs::Lists::load_of))]
fn load<'w>(words: &'w [LineWord<'_>]) -> Result<ListsCommand<'w>, CommandRefusal>
    ensures { result ≡ load_of words.now }
{
    let (name, (range, to)) = one_to_three(words)?;
    let name = playlist_name(name)?;
    let range = optional_range(2, range)?;
    Ok(ListsCommand::Load(name, range, optional_target(3, to)?))
}

#[tactic(auto, unfolding(crate::specs::Lists::rename_of))]
fn rename<'w>(words: &'w [LineWord<'_>]) -> Result<ListsCommand<'w>, CommandRefusal>
    ensures { result ≡ rename_of words.now }
{
    let (from, to) = two(words)?;
    let from = playlist_name(from)?;
    Ok(ListsCommand::Rename(from, playlist_name(to)?))
}

#[tactic(auto, unfolding(crate::specs::Lists::list_add_of))]
fn add<'w>(profile: Profile, words: &'w [LineWord<'_>]) -> Result<ListsCommand<'w>, CommandRefusal>
    ensures { result ≡ list_add_of profile words.now }
{
    let (name, (uri, to)) = added_arguments(profile, words)?;
    let name = playlist_name(name)?;
    let uri = argument(2, text(uri))?;
    Ok(ListsCommand::Add(name, uri, optional_number(3, to)?))
}

/// In the wide profile a place may stand behind the URI.
fn added_arguments<'w>(
    profile: Profile,
    words: &'w [LineWord<'_>],
) -> Result<(&'w [u8], (&'w [u8], Option<&'w [u8]>)), CommandRefusal>
    ensures { result_map_both (λ x. (x.0.now, (x.1.0.now, option_map (λ word. word.now) x.1.1))) (λ refusal. refusal) result
        ≡ added_arguments profile words.now }
{
    match profile {
        Profile::Named => {
            let (name, uri) = two(words)?;
            Ok((name, (uri, None)))
        }
        Profile::Wide => two_or_three(words),
    }
}

#[tactic(auto, unfolding(crate::specs::Lists::list_delete_of))]
fn delete<'w>(words: &'w [LineWord<'_>]) -> Result<ListsCommand<'w>, CommandRefusal>
    ensures { result ≡ list_delete_of words.now }
{
    let (name, positions) = two(words)?;
    let name = playlist_name(name)?;
    Ok(ListsCommand::Delete(name, argument(2, range(positions))?))
}

#[tactic(auto, unfolding(crate::specs::Lists::list_move_of))]
fn move_entries<'w>(
    profile: Profile,
    words: &'w [LineWord<'_>],
) -> Result<ListsCommand<'w>, CommandRefusal>
    ensures { result ≡ list_move_of profile words.now }
{
    let (name, (from, to)) = three(words)?;
    let name = playlist_name(name)?;
    let from = argument(2, moved(profile, from))?;
    Ok(ListsCommand::Move(name, from, argument(3, number(to))?))
}

/// In the wide profile a RANGE may be moved.
fn moved(profile: Profile, word: &[u8]) -> Option<PositionRange>
    ensures { result ≡ moved_of profile word.now }
{
    match profile {
        Profile::Named => Some(PositionRange::One(number(word)?)),
        Profile::Wide => range(word),
    }
}

/// `create`, `append` or `replace`.
#[tactic(auto, unfolding(crate::specs::Lists::save_mode_of))]
fn save_mode(word: &[u8]) -> Option<SaveMode>
    ensures { result ≡ save_mode_of word.now }
{
    if word == b"create".as_slice() {
        Some(SaveMode::Create)
    } else if word == b"append".as_slice() {
        Some(SaveMode::Append)
    } else if word == b"replace".as_slice() {
        Some(SaveMode::Replace)
    } else {
        None
    }
}

#[tactic(auto, unfolding(crate::specs::Lists::save_of))]
fn save<'w>(words: &'w [LineWord<'_>]) -> Result<ListsCommand<'w>, CommandRefusal>
    ensures { result ≡ save_of words.now }
{
    let (name, mode) = one_or_two(words)?;
    let name = playlist_name(name)?;
    match mode {
        None => Ok(ListsCommand::Save(name, SaveMode::Create)),
        Some(word) => Ok(ListsCommand::Save(name, argument(2, save_mode(word))?)),
    }
}
