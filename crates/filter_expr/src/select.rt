// The numbers of the songs that a filter denotes.
ghost use Rattle.std.specs.Prelude.{◌≡◌, ◌<◌, ◌≤◌, true, length, filter, IfOk};
ghost use Rattle.std.specs.List.{All};
ghost use Rattle.song_db.specs.Limits.{MAX_ROWS};
ghost use Rattle.song_db.specs.Row.{Row};
ghost use Rattle.song_db.specs.Valued.{has_value, numbers_of};
ghost use Rattle.filter_expr.specs.Meaning.{is_match};
ghost use Rattle.filter_expr.specs.Numbered.{passes_at};
ghost use Rattle.filter_expr.specs.Tree.{tree_of};
ghost use Rattle.filter_expr.specs.declared.case.Case.TheVariants.{Exact};

use crate::case::Case;
use crate::expression::Expression;
use crate::filter::Filter;
use crate::value::TestValue;
use no_memory::NoMemory;
use song_db::{SongDb, SongRow};
use song_files::Tag;
use std::alloc::Global;

/// Those of all rows.
pub(crate) fn select_of_all(
    alloc: Global,
    rows: &[SongRow],
    filter: &Filter,
    case: Case,
) -> Result<Vec<u32>, NoMemory>
    requires { length rows.now ≤ MAX_ROWS }
    ensures { IfOk result (λ numbers. numbers.items ≡ numbers_of (is_match case filter.now) rows.now) }
{
    let mut numbers = Vec::new(alloc);
    for number in 0..rows.len() {
        if filter.matches(alloc, &rows[number], case)? {
            numbers.push(number as u32)?;
        }
    }
    Ok(numbers)
}

#[tactic(auto, using(crate::proofs::Chosen::chosen_of, crate::proofs::Chosen::all_within))]
/// Those of the rows with a value of a tag, which each song that is denoted has.
pub(crate) fn select_with(
    alloc: Global,
    songs: &SongDb,
    root: &Expression,
    tag: Tag,
    value: &TestValue,
) -> Result<Vec<u32>, NoMemory>
    requires { (row : Row) → is_match Exact (tree_of root.now) row ≡ true → has_value tag value.now row ≡ true }
    ensures { IfOk result (λ numbers. numbers.items ≡ numbers_of (is_match Exact (tree_of root.now)) songs.now) }
{
    let Ok(candidates) = songs.rows_with(alloc, tag, value.text()) else {
        return Err(NoMemory);
    };
    matching_of(alloc, songs.rows(), root, &candidates)
}

// Those that the expression denotes of the rows with these numbers.
fn matching_of(
    alloc: Global,
    rows: &[SongRow],
    root: &Expression,
    candidates: &[u32],
) -> Result<Vec<u32>, NoMemory>
    requires { All (λ number. number < length rows.now) candidates.now }
    ensures { IfOk result (λ numbers. numbers.items ≡ filter (passes_at (is_match Exact (tree_of root.now)) rows.now) candidates.now) }
{
    let mut numbers = Vec::new(alloc);
    for number in candidates {
        if root.matches_exact(&rows[*number as usize]) {
            numbers.push(*number)?;
        }
    }
    Ok(numbers)
}
