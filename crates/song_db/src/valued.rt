// The rows with a value of a tag.
ghost use Rattle.std.specs.Prelude.{◌≡◌, ◌≤◌, Bool, count_by, filter, length, IfOk};
ghost use Rattle.song_db.specs.Limits.{MAX_ROWS};
ghost use Rattle.song_db.specs.Replaced.{IsRising};
ghost use Rattle.song_db.specs.Row.{Row, row_uri};
ghost use Rattle.song_db.specs.Valued.{has_value, numbers_of, rows_with};
ghost use Rattle.song_db.specs.ValueIndex.{IsIndexed};

use crate::near::position_near;
use crate::row::SongRow;
use crate::value_index::ValueIndex;
use song_files::Tag;
use std::alloc::{AllocError, Global};
use std::iter::Iterator;

// Their numbers, rising: from the index, or where there is none, from a look at each row.
pub(crate) fn rows_with(
    alloc: Global,
    rows: &[SongRow],
    index: &Option<ValueIndex>,
    tag: Tag,
    value: &str,
) -> Result<Vec<u32>, AllocError>
    requires few { length rows.now ≤ MAX_ROWS }
    requires rising { IsRising row_uri rows.now }
    requires indexed { IsIndexed rows.now index.now }
    ensures { IfOk result (λ numbers. numbers.items ≡ rows_with rows.now tag value.now) }
{
    match index {
        Some(index) => numbers_of(alloc, rows, index.rows(tag, value)),
        None => scanned_rows(alloc, rows, tag, value),
    }
}

// How many they are.
pub(crate) fn count_with(
    rows: &[SongRow],
    index: &Option<ValueIndex>,
    tag: Tag,
    value: &str,
) -> usize
    requires { IsIndexed rows.now index.now }
    ensures { result ≡ count_by (has_value tag value.now) rows.now }
{
    match index {
        Some(index) => index.rows(tag, value).len(),
        None => rows.iter().filter(|row| row.has_value(tag, value)).count(),
    }
}

// The numbers of some of the rows, which stand in their order. Each is looked for behind the one before.
fn numbers_of(alloc: Global, rows: &[SongRow], some: &[SongRow]) -> Result<Vec<u32>, AllocError>
    requires few { length rows.now ≤ MAX_ROWS }
    requires rising { IsRising row_uri rows.now }
    ensures { (passes : Row → Bool) → some.now ≡ filter passes rows.now →
        IfOk result (λ numbers. numbers.items ≡ numbers_of passes rows.now) }
{
    let mut numbers = Vec::with_capacity(alloc, some.len())?;
    let mut near = 0;
    for row in some {
        if let Some(number) = position_near(rows, row.uri(), near) {
            numbers.push(number as u32)?;
            near = number + 1;
        }
    }
    Ok(numbers)
}

// The numbers of the rows with a value, each of which is looked at.
fn scanned_rows(
    alloc: Global,
    rows: &[SongRow],
    tag: Tag,
    value: &str,
) -> Result<Vec<u32>, AllocError>
    requires { length rows.now ≤ MAX_ROWS }
    ensures { IfOk result (λ numbers. numbers.items ≡ rows_with rows.now tag value.now) }
{
    let mut numbers = Vec::new(alloc);
    for number in 0..rows.len() {
        if rows[number].has_value(tag, value) {
            numbers.push(number as u32)?;
        }
    }
    Ok(numbers)
}
