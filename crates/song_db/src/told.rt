// Which of two songs is told first.
ghost use Rattle.std.specs.Prelude.{◌≡◌, ◌<◌, ◌∷◌, ◌++◌, [], length, option_copied, IfSome, MatchOption};
ghost use Rattle.std.specs.Cmp.Lexicographic.{slice_cmp};
ghost use Rattle.std.specs.Ordering.{nat_cmp, is_lt};
ghost use Rattle.song_db.specs.Lent.{rest_parts};
ghost use Rattle.song_db.specs.Told.{album_key, folder_key, folder_end, number_key, song_key, told_key, told_cmp};
ghost use Rattle.song_db.specs.Uri.{parts};

use crate::letters::compare_texts;
use crate::row::SongRow;
use song_files::Tag;
use song_head::number_in;
use std::cmp::Ordering;

// By the albums: no album is before all others.
fn compare_albums(left: Option<&str>, right: Option<&str>) -> Ordering
    ensures { result ≡ slice_cmp nat_cmp (album_key (option_copied left.entry)) (album_key (option_copied right.entry)) }
{
    match (left, right) {
        (None, None) => Ordering::Equal,
        (None, Some(_)) => Ordering::Less,
        (Some(_), None) => Ordering::Greater,
        (Some(left), Some(right)) => compare_texts(left, right),
    }
}

// By the numbers that the texts of a tag begin with.
fn compare_numbers(left: &SongRow, right: &SongRow, tag: Tag) -> Ordering
    ensures { result ≡ nat_cmp (number_key tag left.now) (number_key tag right.now) }
{
    number_in(left.tag(tag)).cmp(&number_in(right.tag(tag)))
}

// Of two songs of one folder, by album, disc, track and name.
fn compare_songs(left: &SongRow, right: &SongRow, left_name: &str, right_name: &str) -> Ordering
    ensures { result ≡ slice_cmp nat_cmp (song_key left.now left_name.now) (song_key right.now right_name.now) }
{
    let order = compare_albums(left.tag(Tag::Album), right.tag(Tag::Album));
    if !order.is_eq() {
        return order;
    }
    let order = compare_numbers(left, right, Tag::Disc);
    if !order.is_eq() {
        return order;
    }
    let order = compare_numbers(left, right, Tag::Track);
    if !order.is_eq() {
        return order;
    }
    compare_texts(left_name, right_name)
}

// The first part of a path and what stands behind its slash, if there is one.
fn split_part(path: &str) -> Option<(&str, &str)>
    ensures parts { MatchOption result (parts path.now ≡ path.now ∷ []) (λ x. parts path.now ≡ x.0.now ∷ parts x.1.now) }
    ensures less { IfSome result (λ x. length x.1.now < length path.now) }
{
    path.split_once('/')
}

// Which of two songs is told first.
pub(crate) fn compare_told(left: &SongRow, right: &SongRow) -> Ordering
    ensures { result ≡ told_cmp left.now right.now }
{
    let mut left_path = left.uri();
    let mut right_path = right.uri();
    'parts: while let Some((left_folder, left_rest)) = split_part(left_path) {
        let Some((right_folder, right_rest)) = split_part(right_path) else {
            return Ordering::Greater;
        };
        let order = compare_texts(left_folder, right_folder);
        if !order.is_eq() {
            return order;
        }
        left_path = left_rest;
        right_path = right_rest;
    }
    match split_part(right_path) {
        Some(_) => Ordering::Less,
        None => compare_songs(left, right, left_path, right_path),
    }
}

// Whether a song is told before all those below a folder; or, where its own are asked for too, before all that are told behind them.
pub(crate) fn is_before_folder(row: &SongRow, folder: &str, own: bool) -> bool
    ensures { result ≡ is_lt (slice_cmp nat_cmp (told_key row.now) (folder_key folder.now ++ folder_end own)) }
{
    let mut path = row.uri();
    let mut folder_path = folder;
    'parts: while let Some((part, rest)) = split_part(path) {
        let (first, more) = first_part(folder_path);
        let order = compare_texts(part, first);
        if !order.is_eq() {
            return order.is_lt();
        }
        let Some(more) = more else {
            return own;
        };
        path = rest;
        folder_path = more;
    }
    true
}

// The first part of a folder's path, and what stands behind its slash.
fn first_part(path: &str) -> (&str, Option<&str>)
    ensures { parts path.now ≡ result.0.now ∷ rest_parts result.1 }
{
    match split_part(path) {
        Some((part, rest)) => (part, Some(rest)),
        None => (path, None),
    }
}
