// Rows that rise by URI: where one stands, by a binary search, and their copy.
ghost use Rattle.std.specs.Prelude.{◌≡◌, ◌<◌, ◌≤◌, length, slice_get, option_and_then, None, IfSome, IfOk, IfErr};
ghost use Rattle.std.specs.List.Sorted.{IsPartitionPoint};
ghost use Rattle.std.specs.Ordering.{nat_cmp, is_lt};
ghost use Rattle.std.specs.Cmp.Lexicographic.{slice_cmp};
ghost use Rattle.song_db.specs.Last.{ends_before};
ghost use Rattle.song_db.specs.Query.{number_at};
ghost use Rattle.song_db.specs.Row.{row_uri, row_at};
ghost use Rattle.song_db.specs.Replaced.{IsRising, IsBefore, IsNotBefore, IsPlaceOf, IsPlaceFor};

use crate::row::SongRow;
use std::alloc::{AllocError, Global};

// The place of the first row whose URI isn't below the given one, by a binary search.
pub(crate) fn split_point(rows: &[SongRow], uri: &str) -> usize
    requires { IsRising row_uri rows.now }
    ensures bound { result ≤ length rows.now }
    ensures split { IsPartitionPoint (IsBefore row_uri uri.now) (IsNotBefore row_uri uri.now) rows.now result }
{
    rows.partition_point(
        |row: &SongRow| -> bool
            ensures { result ≡ is_lt (slice_cmp nat_cmp row.now.uri uri.entry.now) }
        { row.uri() < uri },
    )
}

// The place of the row of a URI.
pub(crate) fn position(rows: &[SongRow], uri: &str) -> Option<usize>
    requires { IsRising row_uri rows.now }
    ensures number { result ≡ number_at rows.now uri.now }
    ensures bound { IfSome result (λ at. at < length rows.now) }
    ensures row { option_and_then (slice_get rows.now) result ≡ row_at rows.now uri.now }
{
    let at = split_point(rows, uri);
    own_place(rows, uri, at)
}

// The same, at the place of the first row whose URI isn't below the given one.
pub(crate) fn own_place(rows: &[SongRow], uri: &str, at: usize) -> Option<usize>
    requires rising { IsRising row_uri rows.now }
    requires split { IsPartitionPoint (IsBefore row_uri uri.now) (IsNotBefore row_uri uri.now) rows.now at }
    ensures number { result ≡ number_at rows.now uri.now }
    ensures bound { IfSome result (λ at. at < length rows.now) }
    ensures row { option_and_then (slice_get rows.now) result ≡ row_at rows.now uri.now }
{
    if at < rows.len() && rows[at].uri() == uri {
        return Some(at);
    }
    None
}

// The place of the row of a URI, or the place that it would have.
pub(crate) fn place(rows: &[SongRow], uri: &str) -> Result<usize, usize>
    requires { IsRising row_uri rows.now }
    ensures there { IfOk result (IsPlaceOf row_uri uri.now rows.now) }
    ensures row { IfOk result (λ at. slice_get rows.now at ≡ row_at rows.now uri.now) }
    ensures absent { IfErr result (IsPlaceFor row_uri uri.now rows.now) }
    ensures no_row { IfErr result (λ at. None ≡ row_at rows.now uri.now) }
{
    let at = split_point(rows, uri);
    if at < rows.len() && rows[at].uri() == uri {
        return Ok(at);
    }
    Err(at)
}

// Whether the last row stands before a URI.
pub(crate) fn ends_before(rows: &[SongRow], uri: &str) -> bool
    ensures { result ≡ ends_before rows.now uri.now }
{
    match rows.last() {
        None => true,
        Some(last) => last.uri() < uri,
    }
}

// The same rows once more.
pub(crate) fn clone_rows(alloc: Global, rows: &[SongRow]) -> Result<Vec<SongRow>, AllocError>
    ensures { IfOk result (λ copies. copies.items ≡ rows.now) }
{
    let mut copies = Vec::with_capacity(alloc, rows.len())?;
    for row in rows {
        copies.push(row.try_clone()?)?;
    }
    Ok(copies)
}
