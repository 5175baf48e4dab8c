// What is found, gathered where it can't be written at once: to be sorted, or for the numbers of its rows.
ghost use Rattle.std.specs.Prelude.{◌≡◌, ◌≤◌, ◌++◌, length, map, slice_get, None, IfOk, OnOk, option_to_list};
ghost use Rattle.std.specs.List.{filter_map};
ghost use Rattle.song_db.specs.Limits.{MAX_ROWS};
ghost use Rattle.song_db.specs.Replaced.{IsRising};
ghost use Rattle.song_db.specs.Row.{row_uri};
ghost use Rattle.profile.specs.declared.profile.Profile.TheVariants.{Named};
ghost use Rattle.song_db.specs.Told.{told_order};
ghost use Rattle.filter_expr.specs.Order.{is_before, sorted};
ghost use Rattle.machine_core.specs.Finding.{found, in_order, matching, numbers_in, part_of};
ghost use Rattle.machine_core.specs.Ordered.{rows_told};

use super::part::Part;
use super::windowed;
use crate::named::push_number;
use command_text::{NoMemory, Search};
use filter_expr::{Case, Filter, SortOrder, sort_rows};
use profile::Profile;
use song_db::{SongDb, SongRow};
use std::alloc::Global;

// The rows that match, by URI.
pub(super) fn matching_rows<'a>(
    alloc: Global,
    songs: &'a SongDb,
    case: Case,
    filter: &Filter,
) -> Result<Vec<&'a SongRow>, NoMemory>
    ensures found { IfOk result (λ found. map (λ row. row.now) found.items ≡ matching case filter.now songs.now) }
    ensures few { IfOk result (λ found. length found.items ≤ length songs.now) }
{
    let numbers = filter.select(alloc, songs, case)?;
    rows_at(alloc, songs.rows(), &numbers)
}

// The rows with these numbers.
fn rows_at<'a>(
    alloc: Global,
    rows: &'a [SongRow],
    numbers: &[u32],
) -> Result<Vec<&'a SongRow>, NoMemory>
    ensures { IfOk result (λ found. map (λ row. row.now) found.items ≡ filter_map (slice_get rows.now) numbers.now) }
{
    let mut found = Vec::with_capacity(alloc, numbers.len())?;
    for number in numbers {
        push_row(&mut found, rows, *number as usize)?;
    }
    Ok(found)
}

// Takes the row with a number, if there is one.
fn push_row<'a>(
    found: &mut Vec<&'a SongRow>,
    rows: &'a [SongRow],
    number: usize,
) -> Result<(), NoMemory>
    ensures { OnOk result (map (λ row. row.now) found.new.items
        ≡ map (λ row. row.now) found.old.items ++ option_to_list (slice_get rows.now number)) }
{
    match rows.get(number) {
        Some(row) => found.push(row)?,
        None => {}
    }
    Ok(())
}

// The rows that match, as they are told under the wide profile.
fn told_matching<'a>(
    alloc: Global,
    songs: &'a SongDb,
    case: Case,
    filter: &Filter,
) -> Result<Vec<&'a SongRow>, NoMemory>
    ensures found { IfOk result (λ found. map (λ row. row.now) found.items ≡ matching case filter.now (told_order songs.now)) }
    ensures few { IfOk result (λ found. length found.items ≤ length songs.now) }
{
    if filter.are_few(songs, case) {
        return few_told(alloc, songs, case, filter);
    }
    matching_among(alloc, songs.told_rows(), case, filter)
}

// The same of few: each is looked for among those before it.
fn few_told<'a>(
    alloc: Global,
    songs: &'a SongDb,
    case: Case,
    filter: &Filter,
) -> Result<Vec<&'a SongRow>, NoMemory>
    ensures found { IfOk result (λ found. map (λ row. row.now) found.items ≡ matching case filter.now (told_order songs.now)) }
    ensures few { IfOk result (λ found. length found.items ≤ length songs.now) }
{
    let found = matching_rows(alloc, songs, case, filter)?;
    let Ok(told) = songs.in_told_order(alloc, &found) else {
        return Err(NoMemory);
    };
    Ok(told)
}

// Those of these rows that match.
fn matching_among<'a>(
    alloc: Global,
    rows: &'a [SongRow],
    case: Case,
    filter: &Filter,
) -> Result<Vec<&'a SongRow>, NoMemory>
    ensures found { IfOk result (λ found. map (λ row. row.now) found.items ≡ matching case filter.now rows.now) }
    ensures few { IfOk result (λ found. length found.items ≤ length rows.now) }
{
    let mut found = Vec::new(alloc);
    for row in rows {
        if !filter.matches(alloc, row, case)? {
            continue;
        }
        found.push(row)?;
    }
    Ok(found)
}

// The rows that match, as a profile tells them.
fn rows_told<'a>(
    alloc: Global,
    profile: Profile,
    songs: &'a SongDb,
    case: Case,
    filter: &Filter,
) -> Result<Vec<&'a SongRow>, NoMemory>
    ensures found { IfOk result (λ found. map (λ row. row.now) found.items ≡ matching case filter.now (rows_told profile songs.now)) }
    ensures few { IfOk result (λ found. length found.items ≤ length songs.now) }
{
    match profile {
        Profile::Named => matching_rows(alloc, songs, case, filter),
        Profile::Wide => told_matching(alloc, songs, case, filter),
    }
}

// The rows that match, in an order; those that tie stay as they are told.
fn sorted_rows<'a>(
    alloc: Global,
    profile: Profile,
    songs: &'a SongDb,
    search: &Search,
    order: SortOrder,
) -> Result<Vec<&'a SongRow>, NoMemory>
    ensures found { IfOk result (λ found. map (λ row. row.now) found.items ≡ sorted (is_before order)
        (matching search.now.case search.now.filter (rows_told profile songs.now))) }
    ensures few { IfOk result (λ found. length found.items ≤ length songs.now) }
{
    let mut found = rows_told(alloc, profile, songs, search.case, &search.filter)?;
    sort_rows(alloc, &mut found, order)?;
    Ok(found)
}

// The rows that match, in the order that a search asks for, or as they are told.
pub(super) fn ordered_rows<'a>(
    alloc: Global,
    profile: Profile,
    songs: &'a SongDb,
    search: &Search,
) -> Result<Vec<&'a SongRow>, NoMemory>
    ensures found { IfOk result (λ found. map (λ row. row.now) found.items ≡ in_order search.now.sort
        (matching search.now.case search.now.filter (rows_told profile songs.now))) }
    ensures few { IfOk result (λ found. length found.items ≤ length songs.now) }
{
    match search.sort {
        Some(order) => sorted_rows(alloc, profile, songs, search, order),
        None => rows_told(alloc, profile, songs, search.case, &search.filter),
    }
}

// The numbers of all rows that match.
fn all_numbers(
    alloc: Global,
    songs: &SongDb,
    case: Case,
    filter: &Filter,
) -> Result<Vec<u32>, NoMemory>
    ensures numbers { IfOk result (λ numbers. numbers.items ≡ numbers_in songs.now (matching case filter.now songs.now)) }
    ensures few { IfOk result (λ numbers. length numbers.items ≤ MAX_ROWS) }
{
    let _limit = songs.len();
    filter.select(alloc, songs, case)
}

// The numbers of the rows that match, and of these a part. The rows behind the part aren't looked at.
pub(super) fn matching_numbers(
    alloc: Global,
    rows: &[SongRow],
    case: Case,
    filter: &Filter,
    part: Part,
) -> Result<Vec<u32>, NoMemory>
    requires few { length rows.now ≤ MAX_ROWS }
    requires rising { IsRising row_uri rows.now }
    ensures numbers { IfOk result (λ numbers. numbers.items ≡ numbers_in rows.now (part_of part (matching case filter.now rows.now))) }
    ensures few { IfOk result (λ numbers. length numbers.items ≤ MAX_ROWS) }
{
    let mut part = part;
    let mut numbers = Vec::new(alloc);
    for number in 0..rows.len() {
        if part.is_over() {
            return Ok(numbers);
        }
        if !filter.matches(alloc, &rows[number], case)? {
            continue;
        }
        if !part.takes() {
            continue;
        }
        numbers.push(number as u32)?;
    }
    Ok(numbers)
}

// The numbers of what a search finds that stays by URI.
pub(super) fn numbers_by_uri(
    alloc: Global,
    songs: &SongDb,
    search: &Search,
) -> Result<Vec<u32>, NoMemory>
    requires { search.now.sort ≡ None }
    ensures numbers { IfOk result (λ numbers. numbers.items ≡ numbers_in songs.now (found Named search.now songs.now)) }
    ensures few { IfOk result (λ numbers. length numbers.items ≤ MAX_ROWS) }
{
    match search.window {
        None => all_numbers(alloc, songs, search.case, &search.filter),
        Some(_) => numbers_in_window(alloc, songs, search),
    }
}

// The same of a part of what is found.
fn numbers_in_window(alloc: Global, songs: &SongDb, search: &Search) -> Result<Vec<u32>, NoMemory>
    requires { search.now.sort ≡ None }
    ensures numbers { IfOk result (λ numbers. numbers.items ≡ numbers_in songs.now (found Named search.now songs.now)) }
    ensures few { IfOk result (λ numbers. length numbers.items ≤ MAX_ROWS) }
{
    match search.case {
        Case::Exact => numbers_selected(alloc, songs, search),
        Case::Folded => {
            let rows = songs.rows();
            let part = Part::of_window(search.window, rows.len());
            matching_numbers(alloc, rows, search.case, &search.filter, part)
        }
    }
}

// The same where the case counts: the rows are gathered first, as few may have to be looked at.
fn numbers_selected(alloc: Global, songs: &SongDb, search: &Search) -> Result<Vec<u32>, NoMemory>
    requires { search.now.sort ≡ None }
    ensures numbers { IfOk result (λ numbers. numbers.items ≡ numbers_in songs.now (found Named search.now songs.now)) }
    ensures few { IfOk result (λ numbers. length numbers.items ≤ MAX_ROWS) }
{
    let _limit = songs.len();
    let found = matching_rows(alloc, songs, search.case, &search.filter)?;
    numbers_of(alloc, songs, windowed(&found, search.window))
}

// The numbers of rows among the songs.
pub(super) fn numbers_of(
    alloc: Global,
    songs: &SongDb,
    rows: &[&SongRow],
) -> Result<Vec<u32>, NoMemory>
    ensures numbers { IfOk result (λ numbers. numbers.items ≡ numbers_in songs.now (map (λ row. row.now) rows.now)) }
    ensures few { IfOk result (λ numbers. length numbers.items ≤ length rows.now) }
{
    let mut numbers = Vec::new(alloc);
    for row in rows {
        push_number(songs, row.uri(), &mut numbers)?;
    }
    Ok(numbers)
}
