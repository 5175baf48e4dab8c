// What the commands of playback name and start.
ghost use Rattle.std.specs.Prelude.{◌≡◌, ◌<◌, length};
ghost use Rattle.player_core.specs.Commands.{named, begun, to_resume, last_or, in_front};

use crate::choice::Choice;
use crate::choosing::choose_first;
use crate::refusal::PlayerError;
use crate::round_words::WordTable;
use crate::selector::Selector;
use crate::settings::PlaySettings;
use crate::words::next_order;
use indexmap::IndexSet;
use play_queue::Entries;

// The id of the entry that is named.
pub(crate) fn named(entries: &Entries, selector: Selector) -> Result<u32, PlayerError>
    ensures { result ≡ named selector entries.now }
{
    match selector {
        Selector::Position(position) => match entries.get(position as usize) {
            Some(entry) => Ok(entry.id),
            None => Err(PlayerError::BadIndex),
        },
        Selector::Id(id) => {
            if entries.has_id(id) {
                Ok(id)
            } else {
                Err(PlayerError::NoSuchSong)
            }
        }
    }
}

// From no current song a random round begins.
pub(crate) fn begun(settings: &PlaySettings, current: Option<u32>, id: u32) -> Choice
    ensures { result ≡ begun settings.now current id }
{
    let begins = settings.options.random && current.is_none();
    Choice {
        id: Some(id),
        order: if begins {
            Some(next_order(settings.order))
        } else {
            None
        },
    }
}

pub(crate) fn to_resume(
    entries: &Entries,
    settings: &PlaySettings,
    current: Option<u32>,
    played: &IndexSet<u32>,
    words: &mut WordTable,
) -> Choice
    ensures { result ≡ to_resume settings.now entries.now current }
{
    match current {
        Some(id) => Choice {
            id: Some(id),
            order: None,
        },
        None => choose_first(entries, settings, played, words),
    }
}

// The last id of the list, or else this one.
pub(crate) fn last_left(played: &IndexSet<u32>, other: u32) -> u32
    ensures { result ≡ last_or other played.now.keys }
{
    match played.last() {
        Some(id) => *id,
        None => other,
    }
}

// The id in front of the current one; at position 0 the last one with repeat, else the current one.
pub(crate) fn in_front(entries: &Entries, repeat: bool, at: usize, current: u32) -> u32
    requires { at < length entries.now }
    ensures { result ≡ in_front repeat entries.now at current }
{
    if at > 0 {
        entries.at(at - 1).id
    } else if repeat {
        entries.at(entries.len() - 1).id
    } else {
        current
    }
}
