// Entries whose songs lie apart in memory, as those of a shuffled queue: which of them match nothing is told first, in the order of the songs.
ghost use Rattle.std.specs.Prelude.{◌≡◌, ℕ, ◌<◌, true, false, [], length, slice_index_or, slice_set, IfOk, OnOk};
ghost use Rattle.play_queue.specs.Shown.{shown};
ghost use Rattle.song_db.specs.Row.{row_at};
ghost use Rattle.machine_core.specs.EntryRows.{AreRuledOut};
ghost use Rattle.machine_core.specs.Finding.{entry_row};

use command_text::NoMemory;
use filter_expr::{Case, Filter};
use play_queue::{Entries, EntryRef};
use song_db::SongDb;
use std::alloc::Global;

// A key has room for so many positions.
const POSITIONS: u64 = 65_536;

// Marks of entries that match nothing; none where the entries stand about as they were added, as their songs then lie in order.
pub(super) fn ruled_out(
    alloc: Global,
    songs: &SongDb,
    entries: &Entries,
    case: Case,
    filter: &Filter,
) -> Result<Vec<bool>, NoMemory>
    ensures { IfOk result (λ marks. AreRuledOut case filter.now songs.now entries.now marks.items) }
{
    let mut marks = Vec::new(alloc);
    if !are_apart(entries.ids()) {
        return Ok(marks);
    }
    marks.resize(entries.len(), false)?;
    let keys = by_id(alloc, entries.ids())?;
    rule_out(alloc, songs, entries, case, filter, &keys, &mut marks)?;
    Ok(marks)
}

// Whether more than one entry in four stands behind one that was added later.
fn are_apart(ids: &[u32]) -> bool {
    let mut falls: usize = 0;
    let mut last: u32 = 0;
    for id in ids {
        if *id < last {
            falls = falls.saturating_add(1);
        }
        last = *id;
    }
    falls > ids.len() / 4
}

// The positions of the entries as these were added, each in a key with its id. No clause needs them all: what isn't ruled out is looked at.
fn by_id(alloc: Global, ids: &[u32]) -> Result<Vec<u64>, NoMemory> {
    let mut keys = Vec::with_capacity(alloc, ids.len())?;
    for at in 0..ids.len() {
        keys.push(u64::from(ids[at]) * POSITIONS + at as u64 % POSITIONS)?;
    }
    keys.sort_unstable();
    Ok(keys)
}

// Marks the entries of these keys that match nothing.
fn rule_out(
    alloc: Global,
    songs: &SongDb,
    entries: &Entries,
    case: Case,
    filter: &Filter,
    keys: &[u64],
    marks: &mut [bool],
) -> Result<(), NoMemory>
    requires { AreRuledOut case filter.now songs.now entries.now marks.old }
    ensures { OnOk result (AreRuledOut case filter.now songs.now entries.now marks.new) }
{
    for key in keys {
        let at = (*key % POSITIONS) as usize;
        rule_out_one(alloc, songs, entries, case, filter, at, marks)?;
    }
    Ok(())
}

// Marks the entry at a position, if there is one and it matches nothing.
fn rule_out_one(
    alloc: Global,
    songs: &SongDb,
    entries: &Entries,
    case: Case,
    filter: &Filter,
    at: usize,
    marks: &mut [bool],
) -> Result<(), NoMemory>
    requires { AreRuledOut case filter.now songs.now entries.now marks.old }
    ensures { OnOk result (AreRuledOut case filter.now songs.now entries.now marks.new) }
{
    if at >= entries.len() {
        return Ok(());
    }
    if at >= marks.len() {
        return Ok(());
    }
    let entry = entries.at(at);
    let matched = matches(alloc, songs, case, filter, entry)?;
    if matched {
        return Ok(());
    }
    mark(marks, at);
    Ok(())
}

// Whether the song of an entry has a row that matches.
fn matches(
    alloc: Global,
    songs: &SongDb,
    case: Case,
    filter: &Filter,
    entry: EntryRef<'_>,
) -> Result<bool, NoMemory>
    ensures { IfOk result (λ matched. matched ≡ false
        → (at : ℕ) → entry_row case filter.now at (shown entry.entry) (row_at songs.now (shown entry.entry).uri) ≡ []) }
{
    match songs.row_of(entry.uri) {
        Ok(row) => Ok(filter.matches(alloc, row, case)?),
        Err(_) => Ok(false),
    }
}

// Whether the entry at a position is marked.
pub(super) fn is_marked(marks: &[bool], at: usize) -> bool
    ensures { result ≡ true → (at < length marks.now) × (slice_index_or marks.now at false ≡ true) }
{
    at < marks.len() && marks[at]
}

fn mark(marks: &mut [bool], at: usize)
    requires { at < length marks.old }
    ensures { marks.new ≡ slice_set marks.old at true }
{
    marks[at] = true;
}
