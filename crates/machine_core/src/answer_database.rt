// The lines of the commands of the database, one after the other.
ghost use Rattle.std.specs.Prelude.{◌≡◌, [], ◌++◌, flat_map, if◌then◌else◌, option_copied};
ghost use Rattle.command_text.specs.Answer.{Adds};
ghost use Rattle.command_text.specs.AnswerNames.{directory_line, tag_type_line};
ghost use Rattle.command_text.specs.AnswerSongs.{named_file_lines, song_lines};
ghost use Rattle.profile.specs.declared.profile.Profile.TheVariants.{Wide};
ghost use Rattle.song_db.specs.ToldWalk.{is_text, told_folders_in, told_songs_in};
ghost use Rattle.song_db.specs.Walk.{item_of};
ghost use Rattle.song_files.specs.TagSet.{has_tag, tags_in};
ghost use Rattle.machine_core.specs.Database.{detail_lines, folder_line, item_lines, name_in, shown_type};

use command_text::{
    NoMemory, TagMask, write_directory, write_file, write_named_file, write_pair, write_song,
    write_tag_type,
};
use song_db::{Listed, Place, SongRow, ToldWalk, Walk};
use song_files::{TAG_COUNT, Tag, TagSet};

/// How much is told of a song.
#[derive(Clone, Copy, Debug)]
pub enum Detail {
    /// Its path alone.
    Paths,
    /// All that is known of it and its client sees.
    Songs(TagMask),
}

// Adds the names of a set's tags that the client sees.
pub(crate) fn write_tag_types(
    out: &mut Vec<u8>,
    mask: TagMask,
    tags: TagSet,
) -> Result<(), NoMemory>
    ensures { Adds (flat_map (shown_type mask) (tags_in tags)) result out.old out.new }
{
    for number in 0..TAG_COUNT {
        write_if_in(out, mask, tags, Tag::at(number))?;
    }
    Ok(())
}

// Adds the name of a tag, if the set has it.
fn write_if_in(out: &mut Vec<u8>, mask: TagMask, tags: TagSet, tag: Tag) -> Result<(), NoMemory>
    ensures { Adds (if has_tag tags tag then shown_type mask tag else []) result out.old out.new }
{
    if tags.contains(tag) {
        write_shown_type(out, mask, tag)
    } else {
        Ok(())
    }
}

// Adds the name of a tag, if the client sees it.
fn write_shown_type(out: &mut Vec<u8>, mask: TagMask, tag: Tag) -> Result<(), NoMemory>
    ensures { Adds (shown_type mask tag) result out.old out.new }
{
    if mask.contains(tag) {
        write_tag_type(out, tag)
    } else {
        Ok(())
    }
}

// Adds a song.
pub(crate) fn write_detail(out: &mut Vec<u8>, row: &SongRow, detail: Detail) -> Result<(), NoMemory>
    ensures { Adds (detail_lines detail row.now) result out.old out.new }
{
    match detail {
        Detail::Paths => write_file(out, row.uri()),
        Detail::Songs(mask) => write_song(out, mask, row),
    }
}

fn write_item(out: &mut Vec<u8>, item: Listed<'_>, detail: Detail) -> Result<(), NoMemory>
    ensures { Adds (item_lines detail (item_of item.entry)) result out.old out.new }
{
    match item {
        Listed::Folder(path) => write_directory(out, path),
        Listed::Song(row) => write_detail(out, row, detail),
    }
}

// Adds what a walk comes upon, as it walks.
pub(crate) fn write_walk(out: &mut Vec<u8>, walk: Walk<'_>, detail: Detail) -> Result<(), NoMemory>
    ensures { Adds (flat_map (item_lines detail) walk.entry) result out.old out.new }
{
    for item in walk {
        write_item(out, item, detail)?;
    }
    Ok(())
}

// Adds the line of a folder itself, where it is told.
fn write_folder(out: &mut Vec<u8>, place: Place<'_>) -> Result<(), NoMemory>
    ensures { Adds (folder_line Wide place.entry) result out.old out.new }
{
    match place {
        Place::Root => Ok(()),
        Place::At(folder) => write_directory(out, folder),
    }
}

// The same of the walk by what is told first.
fn write_told_walk(out: &mut Vec<u8>, walk: ToldWalk<'_>, detail: Detail) -> Result<(), NoMemory>
    ensures { Adds (flat_map (item_lines detail) walk.entry) result out.old out.new }
{
    for item in walk {
        write_item(out, item, detail)?;
    }
    Ok(())
}

// Adds a place and all that is below it, as it is told.
pub(crate) fn write_below(
    out: &mut Vec<u8>,
    place: Place<'_>,
    walk: ToldWalk<'_>,
    detail: Detail,
) -> Result<(), NoMemory>
    ensures { Adds (folder_line Wide place.entry ++ flat_map (item_lines detail) walk.entry) result out.old out.new }
{
    write_folder(out, place)?;
    write_told_walk(out, walk, detail)
}

// Adds the songs right in a place, of those under it.
fn write_songs_in(
    out: &mut Vec<u8>,
    mask: TagMask,
    rows: &[SongRow],
    place: Place<'_>,
) -> Result<(), NoMemory>
    ensures { Adds (flat_map (song_lines mask) (told_songs_in place.entry rows.now)) result out.old out.new }
{
    for row in rows {
        if place.folder_of(row.uri()).is_some() {
            continue;
        }
        write_song(out, mask, row)?;
    }
    Ok(())
}

// Whether a folder is the one before.
fn is_text(folder: &str, before: Option<&str>) -> bool
    ensures { result ≡ is_text folder.now (option_copied before.entry) }
{
    match before {
        Some(other) => folder == other,
        None => false,
    }
}

// Adds the folders right in a place that songs under it stand in.
fn write_folders_in(out: &mut Vec<u8>, rows: &[SongRow], place: Place<'_>) -> Result<(), NoMemory>
    ensures { Adds (flat_map directory_line (told_folders_in place.entry rows.now)) result out.old out.new }
{
    let mut before: Option<&str> = None;
    for row in rows {
        let Some(folder) = place.folder_of(row.uri()) else {
            continue;
        };
        if is_text(folder, before) {
            continue;
        }
        write_directory(out, folder)?;
        before = Some(folder);
    }
    Ok(())
}

// A path without the folder that it stands in.
fn name_in<'a>(place: Place<'_>, path: &'a str) -> &'a [u8]
    ensures { result.now ≡ name_in place.entry path.now }
{
    let path = path.as_bytes();
    match place {
        Place::Root => path,
        Place::At(folder) => &path[path.len().min(folder.len() + 1)..],
    }
}

// Adds the files of the songs right in a place by their names, of those under it.
fn write_file_names(out: &mut Vec<u8>, rows: &[SongRow], place: Place<'_>) -> Result<(), NoMemory>
    ensures { Adds (flat_map (λ row. named_file_lines (name_in place.entry row.uri) row) (told_songs_in place.entry rows.now))
        result out.old out.new }
{
    for row in rows {
        let uri = row.uri();
        if place.folder_of(uri).is_some() {
            continue;
        }
        write_named_file(out, name_in(place, uri), row)?;
    }
    Ok(())
}

// Adds the folders right in a place by their names, of those that songs under it stand in.
fn write_folder_names(out: &mut Vec<u8>, rows: &[SongRow], place: Place<'_>) -> Result<(), NoMemory>
    ensures { Adds (flat_map (λ folder. directory_line (name_in place.entry folder)) (told_folders_in place.entry rows.now))
        result out.old out.new }
{
    let mut last: Option<&str> = None;
    for row in rows {
        let Some(folder) = place.folder_of(row.uri()) else {
            continue;
        };
        if is_text(folder, last) {
            continue;
        }
        write_pair(out, "directory", name_in(place, folder))?;
        last = Some(folder);
    }
    Ok(())
}

// Adds what stands right in a place by its names, of the songs under it.
pub(crate) fn write_names_in(
    out: &mut Vec<u8>,
    rows: &[SongRow],
    place: Place<'_>,
) -> Result<(), NoMemory>
    ensures { Adds (flat_map (λ row. named_file_lines (name_in place.entry row.uri) row) (told_songs_in place.entry rows.now)
        ++ flat_map (λ folder. directory_line (name_in place.entry folder)) (told_folders_in place.entry rows.now))
        result out.old out.new }
{
    write_file_names(out, rows, place)?;
    write_folder_names(out, rows, place)
}

// Adds the songs right in a place and then the folders, of the songs under it.
pub(crate) fn write_told_content(
    out: &mut Vec<u8>,
    mask: TagMask,
    rows: &[SongRow],
    place: Place<'_>,
) -> Result<(), NoMemory>
    ensures { Adds (flat_map (song_lines mask) (told_songs_in place.entry rows.now) ++ flat_map directory_line (told_folders_in
        place.entry rows.now)) result out.old out.new }
{
    write_songs_in(out, mask, rows, place)?;
    write_folders_in(out, rows, place)
}
