// The choice of the next song.
ghost use Rattle.std.specs.Prelude.{◌≡◌, ◌<◌, ◌≤◌, length, slice_index_or};
ghost use Rattle.std.specs.List.{All};
ghost use Rattle.play_queue.specs.Shown.{shown};
ghost use Rattle.play_queue.specs.declared.entry.Entry.{Entry};
ghost use Rattle.player_core.specs.RandomOrder.{goes_before};
ghost use Rattle.player_core.specs.Staying.{all_staying, staying_behind};
ghost use Rattle.player_core.specs.Choice.{least, is_left, round_again, in_row, at_random, chosen, first_chosen};
ghost use Rattle.player_core.specs.Candidates.{is_first, is_counted, counted};

use crate::block::Block;
use crate::choice::Choice;
use crate::placing::behind;
use crate::round_words::WordTable;
use crate::settings::PlaySettings;
use crate::staying::{first_staying, takes};
use crate::words::next_order;
use indexmap::IndexSet;
use play_queue::{Entries, EntryRef};
use song_db::Uri;

// An entry as it is drawn: its id, its priority, its word.
type Drawn = (u32, u8, u32);

// The words of a random round.
#[derive(Clone, Copy)]
struct Draw {
    key: [u8; 32],
    order: u64,
}

fn goes_before(one: Drawn, other: Drawn) -> bool
    ensures { result ≡ goes_before one other }
{
    other.1 < one.1
        || (one.1 == other.1 && (one.2 < other.2 || (one.2 == other.2 && one.0 < other.0)))
}

// Whether it goes before the best so far.
fn is_first(drawn: Drawn, best: Option<Drawn>) -> bool
    ensures { result ≡ is_first drawn best }
{
    match best {
        Some(other) => goes_before(drawn, other),
        None => true,
    }
}

// Whether the entry at a position goes before the best so far. It is looked at only where one of the top priority would go first.
fn goes_first(entries: &Entries, at: usize, top: u8, word: u32, best: Option<Drawn>) -> bool
    requires in_range { at < length entries.now }
    requires top { All (λ entry. entry.priority ≤ top) entries.now }
    ensures { (d : Entry) → let entry = slice_index_or entries.now at d in result ≡ is_first (entry.id, entry.priority, word) best }
{
    let id = entries.ids()[at];
    is_first((id, top, word), best) && is_first((id, entries.at(at).priority, word), best)
}

// Whether the entry is neither the current one nor played.
fn is_left(current: u32, played: &IndexSet<u32>, entry: &EntryRef<'_>) -> bool
    ensures { result ≡ is_left current played.now.keys (shown entry.now) }
{
    !(entry.id == current || played.contains(&entry.id))
}

// Whether the entry counts: all do in a new round.
fn is_counted(is_new: bool, current: u32, played: &IndexSet<u32>, entry: &EntryRef<'_>) -> bool
    ensures { result ≡ is_counted is_new current played.now.keys (shown entry.now) }
{
    is_new || is_left(current, played, entry)
}

// The id of the least, in random order, of the entries that stay: of all in a new round, else of those that
// are neither the current one nor played.
//
// An entry is looked at, and the played list, only where it may go before the best so far: mostly its id and its word alone.
fn least(
    entries: &Entries,
    block: Block,
    dropped: &[Uri],
    draw: Draw,
    is_new: bool,
    current: u32,
    played: &IndexSet<u32>,
    words: &mut WordTable,
) -> Option<u32>
    ensures { result ≡ least draw.key draw.order (counted is_new current played.now.keys (all_staying block dropped.now entries.now)) }
{
    words.turn_to(draw.key, draw.order, entries.len());
    let top = entries.top_priority();
    let ids = entries.ids();
    let mut best = None;
    for at in (0..ids.len()).rev() {
        let word = words.word(ids[at]);
        if goes_first(entries, at, top, word, best) {
            let entry = entries.at(at);
            if !takes(block, dropped, at, &entry) && is_counted(is_new, current, played, &entry) {
                best = Some((entry.id, entry.priority, word));
            }
        }
    }
    best.map(|drawn| drawn.0)
}

pub(crate) const NOTHING: Choice = Choice {
    id: None,
    order: None,
};

// The choice that begins a new random round, of all entries that stay.
fn again(
    entries: &Entries,
    settings: &PlaySettings,
    block: Block,
    dropped: &[Uri],
    played: &IndexSet<u32>,
    words: &mut WordTable,
) -> Choice
    ensures { result ≡ round_again settings.now (all_staying block dropped.now entries.now) }
{
    let order = next_order(settings.order);
    let draw = Draw {
        key: settings.key,
        order,
    };
    match least(entries, block, dropped, draw, true, 0, played, words) {
        Some(id) => Choice {
            id: Some(id),
            order: Some(order),
        },
        None => NOTHING,
    }
}

// The choice in a random round: what is left of it, else with repeat a new round.
fn at_random(
    entries: &Entries,
    settings: &PlaySettings,
    block: Block,
    dropped: &[Uri],
    current: u32,
    played: &IndexSet<u32>,
    words: &mut WordTable,
) -> Choice
    ensures { result ≡ at_random settings.now current played.now.keys (all_staying block dropped.now entries.now) }
{
    let draw = Draw {
        key: settings.key,
        order: settings.order,
    };
    match least(entries, block, dropped, draw, false, current, played, words) {
        Some(id) => Choice {
            id: Some(id),
            order: None,
        },
        None => {
            if settings.options.repeat {
                again(entries, settings, block, dropped, played, words)
            } else {
                NOTHING
            }
        }
    }
}

// The choice without random: the next entry that stays, else with repeat the first.
fn in_row(entries: &Entries, repeat: bool, block: Block, dropped: &[Uri], at: usize) -> Choice
    requires { at < length entries.now }
    ensures { result ≡ in_row repeat (staying_behind block dropped.now at entries.now) (all_staying block dropped.now entries.now) }
{
    match first_staying(entries, block, dropped, behind(entries, at)) {
        Some(id) => Choice {
            id: Some(id),
            order: None,
        },
        None => {
            if repeat {
                Choice {
                    id: first_staying(entries, block, dropped, 0),
                    order: None,
                }
            } else {
                NOTHING
            }
        }
    }
}

// The next song after the current entry, which stands at a position.
pub(crate) fn choose(
    entries: &Entries,
    settings: &PlaySettings,
    block: Block,
    dropped: &[Uri],
    played: &IndexSet<u32>,
    at: usize,
    current: u32,
    words: &mut WordTable,
) -> Choice
    requires { at < length entries.now }
    ensures { result ≡ chosen settings.now entries.now block dropped.now played.now.keys at current }
{
    if settings.options.random {
        at_random(entries, settings, block, dropped, current, played, words)
    } else {
        in_row(entries, settings.options.repeat, block, dropped, at)
    }
}

// The song that is played first.
pub(crate) fn choose_first(
    entries: &Entries,
    settings: &PlaySettings,
    played: &IndexSet<u32>,
    words: &mut WordTable,
) -> Choice
    ensures { result ≡ first_chosen settings.now entries.now }
{
    if settings.options.random {
        again(entries, settings, Block::NONE, &[], played, words)
    } else {
        Choice {
            id: first_staying(entries, Block::NONE, &[], 0),
            order: None,
        }
    }
}
