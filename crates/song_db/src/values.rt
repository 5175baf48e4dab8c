// The distinct values of a tag, and the folders and songs right in a place.
ghost use Rattle.std.specs.Prelude.{◌≡◌, ◌==◌, true, List, [], ◌∷◌, length, map, filter};
ghost use Rattle.std.specs.Prelude.{IsTrue, IfOk, OnOk, IfSome, option_copied};
ghost use Rattle.std.specs.List.{filter_map, position};
ghost use Rattle.song_files.specs.Tags.{texts_of};
ghost use Rattle.song_files.specs.declared.tag.Tag.TheVariants.{Artist, Album};
ghost use Rattle.song_db.specs.Place.{is_below};
ghost use Rattle.song_db.specs.Replaced.{IsRising};
ghost use Rattle.song_db.specs.Row.{Row, row_uri};
ghost use Rattle.song_db.specs.Query.{skipped, folder_of, is_right_in, with_texts, distinct_of, values_of};
ghost use Rattle.song_db.specs.ValueIndex.{IsIndex, IsIndexed};

use crate::folder_rows::end_below;
use crate::place::Place;
use crate::row::SongRow;
use crate::texts::Texts;
use crate::value_index::ValueIndex;
use song_files::Tag;
use std::alloc::{AllocError, Global};

// The values of a tag: from the index, or where there is none, sorted once.
pub(crate) fn values_of<'a>(
    alloc: Global,
    rows: &'a [SongRow],
    index: &'a Option<ValueIndex>,
    tag: Tag,
) -> Result<Texts<'a>, AllocError>
    requires { IsIndexed rows.now index.now }
    ensures { IfOk result (λ values. values ≡ values_of rows.now tag) }
{
    match index {
        Some(index) => indexed_values(alloc, index, tag),
        None => sorted_values(alloc, rows, tag),
    }
}

// The values of a tag that stand in an index.
fn indexed_values(alloc: Global, index: &ValueIndex, tag: Tag) -> Result<Texts<'_>, AllocError>
    ensures { (rows : List Row) → IsIndex rows index.now → IfOk result (λ values. values ≡ values_of rows tag) }
{
    match index.values(tag) {
        Some(values) => values.texts(alloc),
        None => Ok(Texts::new(alloc)),
    }
}

// The values of a tag, which are sorted once.
fn sorted_values(alloc: Global, rows: &[SongRow], tag: Tag) -> Result<Texts<'_>, AllocError>
    ensures { IfOk result (λ values. values ≡ values_of rows.now tag) }
{
    let mut values = Vec::new(alloc);
    for row in rows {
        push_values(&mut values, row, tag)?;
    }
    Texts::of(alloc, values)
}

/// The distinct values of a tag among these rows, which are sorted once, rising by their bytes. Refused memory leaves nothing of them.
pub fn values_among<'a>(
    alloc: Global,
    rows: &[&'a SongRow],
    tag: Tag,
) -> Result<Texts<'a>, AllocError>
    ensures { IfOk result (λ values. values ≡ values_of (map (λ row. row.now) rows.now) tag) }
{
    let mut values = Vec::new(alloc);
    for row in rows {
        push_values(&mut values, *row, tag)?;
    }
    Texts::of(alloc, values)
}

// Takes a row's values of a tag, but one that is the last one taken.
fn push_values<'a>(values: &mut Vec<&'a str>, row: &'a SongRow, tag: Tag) -> Result<(), AllocError>
    ensures { OnOk result (distinct_of (map (λ value. value.now) values.new.items)
        ≡ with_texts (distinct_of (map (λ value. value.now) values.old.items)) (texts_of row.now.tags tag)) }
{
    let tags = row.tags();
    for at in 0..tags.len() {
        let (own, text) = tags.at(at);
        if own == tag {
            push_text(values, text)?;
        }
    }
    Ok(())
}

// Takes a text, but one that is the last one taken.
fn push_text<'a>(values: &mut Vec<&'a str>, text: &'a str) -> Result<(), AllocError>
    ensures { OnOk result (distinct_of (map (λ value. value.now) values.new.items)
        ≡ with_texts (distinct_of (map (λ value. value.now) values.old.items)) (text.entry.now ∷ [])) }
{
    if ends_with(values, text) {
        return Ok(());
    }
    values.push(text)?;
    Ok(())
}

// Whether a text is the last one, so that taking it once more changes nothing.
fn ends_with(texts: &[&str], text: &str) -> bool
    ensures { IsTrue result → (with_texts (distinct_of (map (λ t. t.now) texts.now)) (text.now
        ∷ []) ≡ distinct_of (map (λ t. t.now) texts.now)) }
{
    match texts.last() {
        None => false,
        Some(last) => *last == text,
    }
}

/// How many artists and albums there are, each counted once.
#[derive(Clone, Copy, Debug)]
pub struct ValueCounts {
    pub artists: usize,
    pub albums: usize,
}

// How many artists and albums the rows have.
pub(crate) fn value_counts(
    alloc: Global,
    rows: &[SongRow],
    index: &Option<ValueIndex>,
) -> Result<ValueCounts, AllocError>
    requires { IsIndexed rows.now index.now }
    ensures artists { IfOk result (λ counts. counts.artists ≡ length (values_of rows.now Artist)) }
    ensures albums { IfOk result (λ counts. counts.albums ≡ length (values_of rows.now Album)) }
{
    Ok(ValueCounts {
        artists: count_values(alloc, rows, index, Tag::Artist)?,
        albums: count_values(alloc, rows, index, Tag::Album)?,
    })
}

// How many values of a tag there are: from the index, or where there is none, counted anew.
fn count_values(
    alloc: Global,
    rows: &[SongRow],
    index: &Option<ValueIndex>,
    tag: Tag,
) -> Result<usize, AllocError>
    requires { IsIndexed rows.now index.now }
    ensures { IfOk result (λ count. count ≡ length (values_of rows.now tag)) }
{
    match index {
        Some(index) => Ok(count_indexed(index, tag)),
        None => Ok(sorted_values(alloc, rows, tag)?.len()),
    }
}

// How many values of a tag stand in an index.
fn count_indexed(index: &ValueIndex, tag: Tag) -> usize
    ensures { (rows : List Row) → IsIndex rows index.now → result ≡ length (values_of rows tag) }
{
    match index.values(tag) {
        Some(values) => values.len(),
        None => 0,
    }
}

// The folders directly in a place that the rows stand below. The rows below a folder are passed by with a search.
pub(crate) fn folders_of<'a>(
    alloc: Global,
    rows: &'a [SongRow],
    place: Place<'_>,
) -> Result<Texts<'a>, AllocError>
    requires { IsRising row_uri rows.now }
    ensures { IfOk result (λ folders. folders ≡ distinct_of (filter_map (λ row. folder_of place.entry row.uri) rows.now)) }
{
    let mut folders = Texts::new(alloc);
    let mut at = 0;
    'rows: while at < rows.len() {
        at = match folder_of(place, rows[at].uri()) {
            Some(folder) => {
                folders.insert(folder)?;
                end_below(rows, folder)
            }
            None => at + 1,
        };
    }
    Ok(folders)
}

// The songs right in a place among the rows below it. The rows below its folders are passed by with a search.
pub(crate) fn songs_of<'a>(
    alloc: Global,
    rows: &'a [SongRow],
    place: Place<'_>,
) -> Result<Vec<&'a SongRow>, AllocError>
    requires { IsRising row_uri rows.now }
    ensures { IfOk result (λ songs. map (λ song. song.now) songs.items ≡ filter (λ row. is_right_in place.entry row.uri) rows.now) }
{
    let mut songs = Vec::new(alloc);
    let mut at = 0;
    'rows: while at < rows.len() {
        let row = &rows[at];
        at = match folder_of(place, row.uri()) {
            Some(folder) => end_below(rows, folder),
            None => {
                songs.push(row)?;
                at + 1
            }
        };
    }
    Ok(songs)
}

// The folder directly in a place that a path stands below.
pub(crate) fn folder_of<'a>(place: Place<'_>, path: &'a str) -> Option<&'a str>
    ensures folder { option_copied result ≡ folder_of place.entry path.now }
    ensures below { IfSome result (λ folder. is_below folder.now path.now ≡ true) }
{
    let skip = skipped(place);
    if path.len() < skip {
        return None;
    }
    match first_slash(&path.as_bytes()[skip..]) {
        Some(end) => Some(&path[..skip + end]),
        None => None,
    }
}

fn first_slash(path: &[u8]) -> Option<usize>
    ensures { result ≡ position (λ b. b == 47) path.now }
{
    path.iter().position(|b| *b == b'/')
}

fn skipped(place: Place<'_>) -> usize
    ensures { result ≡ skipped place.entry }
{
    match place {
        Place::Root => 0,
        Place::At(folder) => folder.len() + 1,
    }
}
