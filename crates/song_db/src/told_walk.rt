// The walk over the folders and songs below a place, in the order in which they are told.
ghost use Rattle.std.specs.Prelude.{◌≡◌, ◌≤◌, ◌∷◌, [], length, take, Some, None, option_copied, MatchOption, if◌then◌else◌};
ghost use Rattle.std.specs.Iterator.{at_most};
ghost use Rattle.std.specs.Map.Iter.{TakesFirst};
ghost use Rattle.song_db.specs.ToldWalk.{is_new, opened_behind, walk_behind, told_from};
ghost use Rattle.song_db.specs.Walk.{item_of};

use crate::place::{Place, is_below};
use crate::row::SongRow;
use crate::walk::{Listed, ends_a_part};
use std::iter::Iterator;
use std::marker::Model;

/// The folders and songs below a place, at all depths, as they are told: the songs of a folder, and then each folder in it with all that
/// stands there. It takes no memory, and passes over the songs once.
#[derive(Debug, Drop)]
pub struct ToldWalk<'a> {
    place: Place<'a>,
    // The songs that are left.
    rows: &'a [SongRow],
    // The path of the song before.
    before: &'a str,
    // The folders of the first one's path up to this many bytes are done.
    done: usize,
}

impl<'a> Model for ToldWalk<'a> {
    ghost use Rattle.std.specs.Prelude.{List};
    ghost use Rattle.song_db.specs.ToldWalk.{walk_behind};
    ghost use Rattle.song_db.specs.Walk.{Item};

    ghost Value = { List Item };

    ghost view = { λ w. walk_behind w.place w.before.now w.done w.rows.now };
}

impl<'a> ToldWalk<'a> {
    // What stands below a place, of which these are the rows.
    pub(crate) fn new(place: Place<'a>, rows: &'a [SongRow]) -> Self
        ensures { result ≡ told_from place.entry [] rows.entry.now }
    {
        ToldWalk {
            place,
            rows,
            before: "",
            done: 0,
        }
    }
}

impl<'a> Iterator for ToldWalk<'a> {
    type Item = Listed<'a>;

    ghost next_gives = { TakesFirst item_of };

    ghost remaining = { λ s. at_most (length s) };

    fn next(&mut self) -> Option<Listed<'a>> {
        let (row, rest) = self.rows.split_first()?;
        if let Some((folder, end)) = next_folder(self.place, row.uri(), self.before, self.done) {
            self.done = end;
            return Some(Listed::Folder(folder));
        }
        self.before = row.uri();
        self.done = 0;
        self.rows = rest;
        Some(Listed::Song(row))
    }
}

// The next folder that a path stands in behind so many bytes, and that is new; and where its path ends.
fn next_folder<'a>(
    place: Place<'_>,
    path: &'a str,
    before: &str,
    done: usize,
) -> Option<(&'a str, usize)>
    ensures { MatchOption result (opened_behind place.entry before.now done path.entry.now ≡ [])
        (λ next. opened_behind place.entry before.now done path.entry.now
        ≡ next.0.now ∷ opened_behind place.entry before.now next.1 path.entry.now) }
{
    for at in done..path.len() {
        let end = at + 1;
        if let Some(folder) = folder_at(place, path, before, end) {
            return Some((folder, end));
        }
    }
    None
}

// What a path begins with up to an end, where it is a new folder.
fn folder_at<'a>(place: Place<'_>, path: &'a str, before: &str, end: usize) -> Option<&'a str>
    requires { end ≤ length path.now }
    ensures { option_copied result ≡ (if is_new place.entry before.now path.now (take end path.now) then Some (take end path.now) else None) }
{
    if !ends_a_part(path.as_bytes(), end) {
        return None;
    }
    let folder = &path[..end];
    if place.is_over(folder) && !is_below(folder.as_bytes(), before.as_bytes()) {
        return Some(folder);
    }
    None
}
