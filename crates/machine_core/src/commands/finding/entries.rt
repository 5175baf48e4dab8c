// The entries of the queue that a search finds.
ghost use Rattle.std.specs.Prelude.{◌≡◌, ◌++◌, map, IfOk, OnOk};
ghost use Rattle.std.specs.List.{flat_map};
ghost use Rattle.command_text.specs.Answer.{Adds};
ghost use Rattle.filter_expr.specs.Order.{is_before, row_cmp, sorted};
ghost use Rattle.play_queue.specs.Shown.{shown};
ghost use Rattle.song_db.specs.Row.{row_at};
ghost use Rattle.machine_core.specs.EntryRows.{row_of_entry};
ghost use Rattle.machine_core.specs.Finding.{entries_in_order, entry_row, entry_row_lines, entry_rows, in_window};

use super::apart::{is_marked, ruled_out};
use super::end_of;
use command_text::{NoMemory, Search, TagMask, Window, write_entry};
use filter_expr::{Case, Filter, SortOrder};
use play_queue::{Entries, EntryRef};
use song_db::{SongDb, SongRow};
use std::alloc::Global;
use std::cmp::Ordering;

// An entry at its position, with the row of its song.
#[derive(Clone, Copy)]
pub(super) struct FoundEntry<'a> {
    position: usize,
    entry: EntryRef<'a>,
    row: &'a SongRow,
}

// The entries that match, in the order that a search asks for, or as the queue has them.
pub(super) fn ordered_entries<'a>(
    alloc: Global,
    songs: &'a SongDb,
    entries: &'a Entries,
    search: &Search,
) -> Result<Vec<FoundEntry<'a>>, NoMemory>
    ensures { IfOk result (λ found. map row_of_entry found.items
        ≡ entries_in_order search.now.sort (entry_rows search.now.case search.now.filter songs.now 0 entries.now)) }
{
    match search.sort {
        Some(order) => sorted_entries(alloc, songs, entries, search, order),
        None => matching_entries(alloc, songs, entries, search.case, &search.filter),
    }
}

// The entries that match, in an order of their songs; those that tie stay as the queue has them.
fn sorted_entries<'a>(
    alloc: Global,
    songs: &'a SongDb,
    entries: &'a Entries,
    search: &Search,
    order: SortOrder,
) -> Result<Vec<FoundEntry<'a>>, NoMemory>
    ensures { IfOk result (λ found. map row_of_entry found.items ≡ sorted (λ a b. is_before order a.row b.row)
        (entry_rows search.now.case search.now.filter songs.now 0 entries.now)) }
{
    let mut found = matching_entries(alloc, songs, entries, search.case, &search.filter)?;
    sort_entries(alloc, &mut found, order)?;
    Ok(found)
}

// Sorts entries by their songs.
fn sort_entries(
    alloc: Global,
    found: &mut [FoundEntry<'_>],
    order: SortOrder,
) -> Result<(), NoMemory>
    ensures { OnOk result (found.new ≡ sorted (λ a b. is_before order a.row.now b.row.now) found.old) }
{
    found.sort_by(
        alloc,
        |left: &FoundEntry<'_>, right: &FoundEntry<'_>| -> Ordering
            ensures { result ≡ row_cmp order left.now.row.now right.now.row.now }
        { order.compare(left.row, right.row) },
    )?;
    Ok(())
}

// The entries that match, as the queue has them.
fn matching_entries<'a>(
    alloc: Global,
    songs: &'a SongDb,
    entries: &'a Entries,
    case: Case,
    filter: &Filter,
) -> Result<Vec<FoundEntry<'a>>, NoMemory>
    ensures { IfOk result (λ found. map row_of_entry found.items ≡ entry_rows case filter.now songs.now 0 entries.now) }
{
    let marks = ruled_out(alloc, songs, entries, case, filter)?;
    let mut found = Vec::new(alloc);
    for position in 0..entries.len() {
        if is_marked(&marks, position) {
            continue;
        }
        let entry = entries.at(position);
        push_match(alloc, songs, case, filter, position, entry, &mut found)?;
    }
    Ok(found)
}

// Takes an entry, if it matches.
fn push_match<'a>(
    alloc: Global,
    songs: &'a SongDb,
    case: Case,
    filter: &Filter,
    position: usize,
    entry: EntryRef<'a>,
    found: &mut Vec<FoundEntry<'a>>,
) -> Result<(), NoMemory>
    ensures { OnOk result (map row_of_entry found.new.items ≡ map row_of_entry found.old.items
        ++ entry_row case filter.now position (shown entry.entry) (row_at songs.now (shown entry.entry).uri)) }
{
    let Ok(row) = songs.row_of(entry.uri) else {
        return Ok(());
    };
    if !filter.matches(alloc, row, case)? {
        return Ok(());
    }
    found.push(FoundEntry {
        position,
        entry,
        row,
    })?;
    Ok(())
}

// The entries in a window, if one is asked for.
pub(super) fn entries_in_window<'r, 'a>(
    found: &'r [FoundEntry<'a>],
    part: Option<Window>,
) -> &'r [FoundEntry<'a>]
    ensures { result.now ≡ in_window part found.now }
{
    let Some(part) = part else {
        return found;
    };
    let start = part.start as usize;
    let end = end_of(part).unwrap_or(found.len()).min(found.len());
    if start < end { &found[start..end] } else { &[] }
}

// Adds the lines of entries.
pub(super) fn write_entry_rows(
    out: &mut Vec<u8>,
    mask: TagMask,
    found: &[FoundEntry<'_>],
) -> Result<(), NoMemory>
    ensures { Adds (flat_map (entry_row_lines mask) (map row_of_entry found.now)) result out.old out.new }
{
    for entry in found {
        write_entry(out, mask, entry.row, entry.position, &entry.entry)?;
    }
    Ok(())
}
