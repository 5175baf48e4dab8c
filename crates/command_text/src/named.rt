// Reads what a client named: playlists, stickers, tags, filters and sort orders.
ghost use Rattle.std.specs.Prelude.{◌≡◌};
ghost use Rattle.command_text.specs.NameArguments.{playlist_name, sticker_name, sticker_value, told, filter_argument, tag_argument};
ghost use Rattle.command_text.specs.Stops.{Reads, Tells, TellsTag};
ghost use Rattle.filter_expr.specs.SortWord.{sort_order};

use crate::refusal::CommandRefusal;
use crate::stop::Stop;
use crate::text::{Text, utf8};
use crate::words::Word;
use filter_expr::{Filter, FilterError, LineWord, SortOrder, tag_named};
use profile::Profile;
use song_files::Tag;
use std::alloc::Global;

/// The name of a playlist.
#[tactic(auto, unfolding(crate::specs::NameArguments::playlist_name))]
pub(crate) fn playlist_name(word: &[u8]) -> Result<Text<'_>, CommandRefusal>
    ensures { result ≡ playlist_name word.now }
{
    match utf8(word) {
        Some(name) if stored_lists::is_good_name(name) => Ok(Text::new(name)),
        _ => Err(CommandRefusal::BadPlaylistName),
    }
}

/// The name of a sticker.
#[tactic(auto, unfolding(crate::specs::NameArguments::sticker_name))]
pub(crate) fn sticker_name(word: &[u8]) -> Result<Text<'_>, CommandRefusal>
    ensures { result ≡ sticker_name word.now }
{
    match utf8(word) {
        Some(name) if stickers::is_good_name(name) => Ok(Text::new(name)),
        _ => Err(CommandRefusal::BadStickerName),
    }
}

/// The value of a sticker.
#[tactic(auto, unfolding(crate::specs::NameArguments::sticker_value))]
pub(crate) fn sticker_value(word: &[u8]) -> Option<Text<'_>>
    ensures { result ≡ sticker_value word.now }
{
    match utf8(word) {
        Some(value) if stickers::is_good_value(value) => Some(Text::new(value)),
        _ => None,
    }
}

/// How a fault of a filter or of a sort order is told.
fn told(alloc: Global, error: FilterError<'_>) -> Stop
    ensures { Tells error.entry result }
{
    match error {
        FilterError::BadFilter(_) => Stop::Refused(CommandRefusal::BadFilter),
        FilterError::UnknownTag(tag) => unknown_tag(alloc, tag),
        FilterError::TooDeep(_) => Stop::Refused(CommandRefusal::FilterTooDeep),
        FilterError::NoMemory => Stop::NoMemory,
    }
}

/// The refusal of a name that no tag has, with a copy of it.
fn unknown_tag(alloc: Global, name: &[u8]) -> Stop
    ensures { TellsTag name.now result }
{
    match Word::from_bytes(alloc, name) {
        Ok(tag) => Stop::Refused(CommandRefusal::UnknownTag(tag)),
        Err(_) => Stop::NoMemory,
    }
}

/// The filter that these words spell.
#[tactic(auto, unfolding(crate::specs::NameArguments::filter_argument))]
pub(crate) fn filter_argument(
    alloc: Global,
    profile: Profile,
    words: &[LineWord<'_>],
) -> Result<Filter, Stop>
    ensures { Reads result (filter_argument profile words.now) }
{
    match Filter::parse(alloc, profile, words) {
        Ok(filter) => Ok(filter),
        Err(error) => Err(told(alloc, error)),
    }
}

/// The order that the word asks for.
pub(crate) fn sort_order(alloc: Global, profile: Profile, word: &[u8]) -> Result<SortOrder, Stop>
    ensures { Reads result (told (sort_order profile word.now)) }
{
    match SortOrder::read(profile, word) {
        Ok(order) => Ok(order),
        Err(error) => Err(told(alloc, error)),
    }
}

/// A tag that the profile has, by its name.
#[tactic(auto, unfolding(crate::specs::NameArguments::tag_argument))]
pub(crate) fn tag_argument(alloc: Global, profile: Profile, word: &[u8]) -> Result<Tag, Stop>
    ensures { Reads result (tag_argument profile word.now) }
{
    match tag_named(profile, word) {
        Some(tag) => Ok(tag),
        None => Err(unknown_tag(alloc, word)),
    }
}
