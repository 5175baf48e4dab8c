// What stands under the name of a song, and the change that is made of it.
ghost use Rattle.std.specs.Prelude.{◌≡◌, ◌<◌, ◌++◌, vec_len, vec_capacity, Ok, Err, Some, None, IfOk, IsOkUnless};
ghost use Rattle.song_db.specs.Found.{found_of, IsFoundAt, IsKnown, IsOf, IsSongIn, IsSureAt, changes_of, still_droppable};
ghost use Rattle.song_db.specs.Music.{is_stamp, music_of, song_in};
ghost use Rattle.song_db.specs.SameFolder.{IsSameFolder};
ghost use Rattle.song_db.specs.Row.{kept_stamp};
ghost use Rattle.song_files.specs.Folder.{stamp_at};
ghost use Rattle.song_files.specs.Listing.{IsStampAt};

use crate::change::RowChange;
use crate::refusal::SongDbError;
use crate::row::{SongRow, is_same_stamp};
use crate::rules::LibraryRules;
use crate::scan::droppable::Droppable;
use crate::uri::Uri;
use song_files::{FileStamp, Folder, FolderFault, Source};
use song_head::read_song;
use std::alloc::Global;
use wave_pcm::{WaveError, WaveInfo};

// What stands under the name of a song.
#[derive(Debug, Drop)]
pub(crate) enum Found {
    // A song that was read.
    Song(SongRow),
    // It hasn't changed, or nobody knows: the row of the URI is kept, if there is one.
    Kept(Uri),
    NoSong,
}

// What is known of a file without opening it: what a listing told, or, where it told nothing, what a look does.
fn stamp_of<F: Folder>(
    alloc: Global,
    folder: &mut F,
    uri: &Uri,
    listed: Option<FileStamp>,
) -> Result<Option<FileStamp>, FolderFault>
    ensures stamp { F.honest folder.old → IsStampAt (F.files folder.old) uri.now listed →
        IfOk result (λ stamp. stamp ≡ stamp_at (F.files folder.old) uri.now) }
    ensures steady { F.steady folder.old → IsOkUnless result FolderFault.NoMemory × F.steady folder.new }
    ensures honest { F.honest folder.old → F.honest folder.new }
    ensures files { F.honest folder.old → F.files folder.new ≡ F.files folder.old }
{
    match listed {
        Some(stamp) => Ok(Some(stamp)),
        None => folder.look(alloc, uri.as_str()),
    }
}

// Looks for a song at a path. A file that has the stamp with which it is known isn't opened.
pub(crate) fn found_at<F: Folder>(
    alloc: Global,
    folder: &mut F,
    rules: LibraryRules,
    droppable: &Droppable,
    uri: Uri,
    listed: Option<FileStamp>,
) -> Result<Found, SongDbError>
    ensures of { IfOk result (IsOf uri) }
    ensures found { F.honest folder.old → IsStampAt (F.files folder.old) uri listed →
        IfOk result (IsFoundAt (music_of rules droppable.now.known (F.files folder.old)) uri) }
    ensures sure { F.honest folder.old → F.steady folder.old → IsStampAt (F.files folder.old) uri listed →
        IfOk result (IsSureAt (music_of rules droppable.now.known (F.files folder.old)) uri) }
    ensures folder { IsSameFolder F.honest F.steady F.files folder.old folder.new }
    ensures only { IsOkUnless result SongDbError.NoMemory }
{
    if !rules.keeps_stamps {
        let opened = folder.open(alloc, uri.as_str());
        return found_in(alloc, rules, uri, None, opened);
    }
    match stamp_of(alloc, folder, &uri, listed) {
        Ok(None) => Ok(Found::NoSong),
        Ok(Some(stamp)) => {
            if is_stamp(droppable.stamp(uri.as_str()), stamp) {
                return Ok(Found::Kept(uri));
            }
            let opened = folder.open(alloc, uri.as_str());
            found_in(alloc, rules, uri, Some(stamp), opened)
        }
        Err(FolderFault::Source) => Ok(Found::Kept(uri)),
        Err(FolderFault::NoMemory) => Err(SongDbError::NoMemory),
    }
}

// Whether there is a stamp, and it is this.
fn is_stamp(stamp: Option<FileStamp>, other: FileStamp) -> bool
    ensures { result ≡ is_stamp stamp (Some other) }
{
    stamp.is_some() && is_same_stamp(stamp, Some(other))
}

// What the reading of a head tells: only a failing source says nothing of the file.
fn found_of(
    alloc: Global,
    uri: Uri,
    stamp: Option<FileStamp>,
    head: Result<WaveInfo, WaveError>,
) -> Result<Found, SongDbError>
    ensures found { IfOk result (λ found. found_of uri stamp head ≡ Ok found) }
    ensures only { IsOkUnless result SongDbError.NoMemory }
{
    match head {
        Ok(info) => match SongRow::new(alloc, uri, info, stamp)? {
            Some(row) => Ok(Found::Song(row)),
            None => Ok(Found::NoSong),
        },
        Err(WaveError::NoMemory) => Err(SongDbError::NoMemory),
        Err(WaveError::ReadFault) => Ok(Found::Kept(uri)),
        Err(_) => Ok(Found::NoSong),
    }
}

// What the opening of a file tells.
fn found_in<S: Source + Drop>(
    alloc: Global,
    rules: LibraryRules,
    uri: Uri,
    stamp: Option<FileStamp>,
    opened: Result<Option<S>, FolderFault>,
) -> Result<Found, SongDbError>
    ensures fault { opened ≡ Err FolderFault.Source → result ≡ Ok (Found.Kept uri) }
    ensures none { opened ≡ Ok None → result ≡ Ok Found.NoSong }
    ensures memory { opened ≡ Err FolderFault.NoMemory → result ≡ Err SongDbError.NoMemory }
    ensures of { IfOk result (IsOf uri) }
    ensures song { (source : S) → opened ≡ Ok (Some source) → S.honest source → kept_stamp rules stamp ≡ stamp →
        IfOk result (IsSongIn (song_in rules stamp uri (S.bytes source))) }
    ensures known { (source : S) → opened ≡ Ok (Some source) → S.honest source → S.steady source → IfOk result IsKnown }
    ensures only { IsOkUnless result SongDbError.NoMemory }
{
    match opened {
        Ok(Some(mut source)) => {
            let head = read_song(alloc, &mut source, rules.reading);
            found_of(alloc, uri, stamp, head)
        }
        Ok(None) => Ok(Found::NoSong),
        Err(FolderFault::Source) => Ok(Found::Kept(uri)),
        Err(FolderFault::NoMemory) => Err(SongDbError::NoMemory),
    }
}

// Makes the change of what was found, which has room, and keeps its row.
pub(crate) fn settle(droppable: &mut Droppable, changes: &mut Vec<RowChange>, found: Found)
    requires { vec_len changes.old < vec_capacity changes.old }
    ensures changes { changes.new.items ≡ changes.old.items ++ changes_of found }
    ensures capacity { vec_capacity changes.new ≡ vec_capacity changes.old }
    ensures known { droppable.new.known ≡ droppable.old.known }
    ensures left { droppable.new.left ≡ still_droppable found droppable.old.left }
{
    match found {
        Found::Song(row) => {
            droppable.keep(row.uri());
            changes.push_reserved(RowChange::Put(row));
        }
        Found::Kept(uri) => droppable.keep(uri.as_str()),
        Found::NoSong => {}
    }
}
