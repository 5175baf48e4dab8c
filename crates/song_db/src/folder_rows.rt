// The rows below a folder, which stand together.
ghost use Rattle.std.specs.Prelude.{◌≡◌, ◌-◌, ◌≤◌, [], ◌∷◌, ◌++◌, length, take, drop, filter};
ghost use Rattle.std.specs.List.Sorted.{IsPartitionPoint};
ghost use Rattle.std.specs.Ordering.{nat_cmp, is_lt};
ghost use Rattle.std.specs.Cmp.Lexicographic.{slice_cmp};
ghost use Rattle.song_db.specs.Place.{is_below};
ghost use Rattle.song_db.specs.Replaced.{IsRising, IsBefore, IsNotBefore};
ghost use Rattle.song_db.specs.Row.{row_uri};

use crate::row::SongRow;
use std::cmp::Ordering;

// The rows below a folder. They stand together: their URIs are those from the folder and a slash on, up to the folder
// and the byte after a slash.
pub(crate) fn rows_below<'a>(rows: &'a [SongRow], folder: &str) -> &'a [SongRow]
    requires { IsRising row_uri rows.now }
    ensures { result.now ≡ filter (λ row. is_below folder.now row.uri) rows.now }
{
    let (start, end) = run_below(rows, folder);
    &rows[start..end]
}

// The number of the first row below a folder, and that behind the last one.
pub(crate) fn run_below(rows: &[SongRow], folder: &str) -> (usize, usize)
    requires { IsRising row_uri rows.now }
    ensures rise { result.0 ≤ result.1 }
    ensures within { result.1 ≤ length rows.now }
    ensures run { take (result.1 - result.0) (drop result.0 rows.now) ≡ filter (λ row. is_below folder.now row.uri) rows.now }
{
    let start = folder_point(rows, folder, b'/');
    let end = end_below(rows, folder);
    (start, end)
}

// The number of the first row behind all that stand below a folder.
pub(crate) fn end_below(rows: &[SongRow], folder: &str) -> usize
    requires { IsRising row_uri rows.now }
    ensures bound { result ≤ length rows.now }
    ensures split { IsPartitionPoint (IsBefore row_uri (folder.now ++ 48 ∷ [])) (IsNotBefore row_uri (folder.now ++ 48
        ∷ [])) rows.now result }
{
    folder_point(rows, folder, b'/' + 1)
}

// The place of the first row that isn't before the folder followed by a byte.
fn folder_point(rows: &[SongRow], folder: &str, next: u8) -> usize
    requires { IsRising row_uri rows.now }
    ensures bound { result ≤ length rows.now }
    ensures split { IsPartitionPoint (IsBefore row_uri (folder.now ++ next ∷ [])) (IsNotBefore row_uri (folder.now ++ next
        ∷ [])) rows.now result }
{
    rows.partition_point(
        |row: &SongRow| -> bool
            ensures { result ≡ is_lt (slice_cmp nat_cmp row.now.uri (folder.entry.now ++ next ∷ [])) }
        { is_before(row.uri().as_bytes(), folder.as_bytes(), next) },
    )
}

// Whether a path stands before the folder followed by a byte.
pub(crate) fn is_before(path: &[u8], folder: &[u8], next: u8) -> bool
    ensures { result ≡ is_lt (slice_cmp nat_cmp path.now (folder.now ++ next ∷ [])) }
{
    if path.len() <= folder.len() {
        return path.cmp(&folder[..path.len()]).is_le();
    }
    match path[..folder.len()].cmp(folder) {
        Ordering::Less => true,
        Ordering::Equal => path[folder.len()] < next,
        Ordering::Greater => false,
    }
}
