// The walk over the folders and songs below a place, by the bytes of their paths.
ghost use Rattle.std.specs.Prelude.{◌≡◌, ◌<◌, ◌≤◌, ◌++◌, ◌∷◌, [], ◌==◌, length, take, slice_index, IsTrue, MatchOption};
ghost use Rattle.std.specs.Prelude.{Some, None, option_copied, if◌then◌else◌};
ghost use Rattle.std.specs.Iterator.{at_most};
ghost use Rattle.std.specs.List.{list_any, common_prefix_len};
ghost use Rattle.std.specs.List.Sorted.{IsPartitionPoint};
ghost use Rattle.std.specs.Map.Iter.{TakesFirst};
ghost use Rattle.std.specs.Ordering.{nat_cmp, is_lt};
ghost use Rattle.std.specs.Cmp.Lexicographic.{slice_cmp};
ghost use Rattle.song_db.specs.Place.{is_below, is_under};
ghost use Rattle.song_db.specs.Replaced.{IsRising, IsBefore, IsNotBefore};
ghost use Rattle.song_db.specs.Row.{row_uri};
ghost use Rattle.song_db.specs.Walk.{item_of, is_folder_under, opened, shared, shared_first, walk_from};

use crate::folder_rows::is_before;
use crate::place::{Place, is_below};
use crate::row::SongRow;
use std::iter::Iterator;
use std::marker::Model;

/// What a walk comes upon.
#[derive(Clone, Copy, Debug)]
pub enum Listed<'a> {
    /// A folder, by its path.
    Folder(&'a str),
    Song(&'a SongRow),
}

/// The folders and songs below a place, at all depths, by the bytes of their paths; a folder comes before a song of the same path.
///
/// It takes no memory and passes over the songs once: a folder is found at the first song whose path begins with its path, by a look
/// at that path. Only where that goes on with a byte that stands before a slash, and the next one begins so too, as `a.wav` before
/// `a/b.wav`, there is a binary search for a song below it.
#[derive(Debug, Drop)]
pub struct Walk<'a> {
    place: Place<'a>,
    // The songs that are left.
    rows: &'a [SongRow],
    // The beginnings of the first one's path up to this many bytes are done.
    done: usize,
    // So many bytes of the first one's path are of the second one's, too.
    common: usize,
}

impl<'a> Model for Walk<'a> {
    ghost use Rattle.std.specs.Prelude.{◌≡◌, List};
    ghost use Rattle.song_db.specs.Replaced.{IsRising};
    ghost use Rattle.song_db.specs.Row.{row_uri};
    ghost use Rattle.song_db.specs.Walk.{Item, shared_first, walk_from};

    ghost Value = { List Item };

    ghost view = { λ w. walk_from w.place w.done w.rows.now };

    ghost invariant = { λ w. IsRising row_uri w.rows.now × (w.common ≡ shared_first w.rows.now) };
}

impl<'a> Walk<'a> {
    // What stands below a place, of which these are the rows.
    pub(crate) fn new(place: Place<'a>, rows: &'a [SongRow]) -> Self
        requires { IsRising row_uri rows.now }
        ensures { result ≡ walk_from place.entry 0 rows.entry.now }
    {
        Walk {
            place,
            rows,
            done: 0,
            common: shared_first(rows),
        }
    }
}

impl<'a> Iterator for Walk<'a> {
    type Item = Listed<'a>;

    ghost next_gives = { TakesFirst item_of };

    ghost remaining = { λ s. at_most (length s) };

    fn next(&mut self) -> Option<Listed<'a>> {
        let (row, rest) = self.rows.split_first()?;
        if let Some((folder, length)) = next_folder(self.place, row, rest, self.done, self.common) {
            self.done = length;
            return Some(Listed::Folder(folder));
        }
        self.done = self.common;
        self.common = shared_first(rest);
        self.rows = rest;
        Some(Listed::Song(row))
    }
}

// The next folder that the first song opens, and how many bytes its path has.
fn next_folder<'a>(
    place: Place<'_>,
    row: &'a SongRow,
    rest: &'a [SongRow],
    done: usize,
    common: usize,
) -> Option<(&'a str, usize)>
    requires rising { IsRising row_uri (row.now ∷ rest.now) }
    requires common { common ≡ shared row.now.uri rest.now }
    ensures { MatchOption result (opened place.entry done (row.now ∷ rest.now) ≡ []) (λ next. opened place.entry done (row.now ∷
        rest.now) ≡ next.0.now ∷ opened place.entry next.1 (row.now ∷ rest.now)) }
{
    for before in done..row.uri().len() {
        let end = before + 1;
        if let Some(folder) = folder_at(place, row, rest, end, common) {
            return Some((folder, end));
        }
    }
    None
}

// What the first song's path begins with up to an end, where it is a folder below the place.
fn folder_at<'a>(
    place: Place<'_>,
    row: &'a SongRow,
    rest: &'a [SongRow],
    end: usize,
    common: usize,
) -> Option<&'a str>
    requires rising { IsRising row_uri (row.now ∷ rest.now) }
    requires within { end ≤ length row.now.uri }
    requires common { common ≡ shared row.now.uri rest.now }
    ensures { option_copied result ≡ (if is_folder_under place.entry (row.now ∷ rest.now) (take end row.now.uri) then Some (take end
        row.now.uri) else None) }
{
    let folder = folder_of(row, rest, end, common)?;
    if place.is_over(folder) {
        return Some(folder);
    }
    None
}

// The same, below the place or not. `common` bytes of the path are of the next one, too.
fn folder_of<'a>(
    row: &'a SongRow,
    rest: &'a [SongRow],
    end: usize,
    common: usize,
) -> Option<&'a str>
    requires rising { IsRising row_uri (row.now ∷ rest.now) }
    requires within { end ≤ length row.now.uri }
    requires common { common ≡ shared row.now.uri rest.now }
    ensures { option_copied result ≡ (if list_any (λ r. is_below (take end row.now.uri) r.uri) (row.now ∷ rest.now) then Some (take
        end row.now.uri) else None) }
{
    let path = row.uri();
    if ends_a_part(path.as_bytes(), end) {
        return Some(&path[..end]);
    }
    if common < end {
        return None;
    }
    if goes_on_behind(path.as_bytes(), end) {
        return None;
    }
    folder_among(rest, &path.as_bytes()[..end])
}

// Whether a path goes on with a slash behind an end.
pub(crate) fn ends_a_part(path: &[u8], end: usize) -> bool
    requires { end ≤ length path.now }
    ensures part { result ≡ is_below (take end path.now) path.now }
    ensures slash { IsTrue result → end < length path.now × (slice_index path.now end ≡ 47) }
{
    if end == path.len() {
        return false;
    }
    path[end] == b'/'
}

// Whether a path goes on with a byte behind a slash, so that what begins like it and goes on with a slash comes before it.
fn goes_on_behind(path: &[u8], end: usize) -> bool
    ensures { IsTrue result → end < length path.now × 47 < slice_index path.now end }
{
    end < path.len() && b'/' < path[end]
}

// A folder, as the path of a row below it begins.
fn folder_among<'a>(rows: &'a [SongRow], folder: &[u8]) -> Option<&'a str>
    requires { IsRising row_uri rows.now }
    ensures { option_copied result ≡ (if list_any (λ row. is_below folder.now row.uri) rows.now then Some folder.now else None) }
{
    let at = slash_point(rows, folder);
    if at == rows.len() {
        return None;
    }
    let path = rows[at].uri();
    if is_below(folder, path.as_bytes()) {
        return Some(&path[..folder.len()]);
    }
    None
}

// The place of the first row that isn't before the folder and a slash.
fn slash_point(rows: &[SongRow], folder: &[u8]) -> usize
    requires { IsRising row_uri rows.now }
    ensures bound { result ≤ length rows.now }
    ensures split { IsPartitionPoint (IsBefore row_uri (folder.now ++ 47 ∷ [])) (IsNotBefore row_uri (folder.now ++ 47
        ∷ [])) rows.now result }
{
    rows.partition_point(
        |row: &SongRow| -> bool
            ensures { result ≡ is_lt (slice_cmp nat_cmp row.now.uri (folder.entry.now ++ 47 ∷ [])) }
        { is_before(row.uri().as_bytes(), folder, b'/') },
    )
}

// How many bytes of the first path the second one begins with.
fn shared_first(rows: &[SongRow]) -> usize
    ensures { result ≡ shared_first rows.now }
{
    match rows.split_first() {
        None => 0,
        Some((row, rest)) => shared(row.uri(), rest),
    }
}

// How many bytes of a path the next row begins with.
fn shared(path: &str, rest: &[SongRow]) -> usize
    ensures { result ≡ shared path.now rest.now }
{
    match rest.first() {
        None => 0,
        Some(next) => common_length(path.as_bytes(), next.uri().as_bytes()),
    }
}

// How many bytes two paths have in common from their first ones on.
fn common_length(path: &[u8], other: &[u8]) -> usize
    ensures { result ≡ common_prefix_len (λ a b. a == b) path.now other.now }
{
    let end = path.len().min(other.len());
    for at in 0..end {
        if path[at] != other[at] {
            return at;
        }
    }
    end
}
