// The picture that is meant, looked for in a folder.
ghost use Rattle.std.specs.Prelude.{◌≡◌, Some, None, IfOk, IfSome, IsOkUnless, MatchOption};
ghost use Rattle.song_files.specs.Folder.{bytes_at};
ghost use Rattle.song_files.specs.Listing.{IsListing};
ghost use Rattle.song_db.specs.SameFolder.{IsSameFolder};
ghost use Rattle.picture_reader.specs.Open.{IsFound, IsSteady};
ghost use Rattle.picture_reader.specs.Pictures.{plain_at, IsAlbumPicture, IsPictureOf};

use crate::folder_path::{folder_of, path_in};
use crate::open_picture::OpenPicture;
use crate::opening::{open_inside, open_plain};
use covers::{CoverError, PictureKind, album_picture};
use song_files::{Folder, FolderEntry};
use std::alloc::Global;

// Opens a file.
fn open_file<F: Folder>(
    alloc: Global,
    folder: &mut F,
    path: &str,
) -> Result<Option<F::File>, CoverError>
    ensures opened { F.honest folder.old → IfOk result (λ file. MatchOption file (bytes_at (F.files folder.old) path.now ≡ None)
        (λ source. (bytes_at (F.files folder.old) path.now ≡ Some (F.File.bytes source)) × F.File.honest source)) }
    ensures steady { F.steady folder.old → IsOkUnless result CoverError.NoMemory × IfOk result (λ file. IfSome file F.File.steady) }
    ensures folder { IsSameFolder F.honest F.steady F.files folder.old folder.new }
{
    Ok(folder.open(alloc, path)?)
}

// What stands in a folder; nothing where there is no such folder.
fn list_folder<F: Folder>(
    alloc: Global,
    folder: &mut F,
    path: &str,
) -> Result<Vec<FolderEntry>, CoverError>
    ensures listed { F.honest folder.old → IfOk result (λ entries. IsListing (F.files folder.old) path.now entries.items) }
    ensures steady { F.steady folder.old → IsOkUnless result CoverError.NoMemory }
    ensures folder { IsSameFolder F.honest F.steady F.files folder.old folder.new }
{
    match folder.list(alloc, path)? {
        Some(entries) => Ok(entries),
        None => Ok(Vec::new(alloc)),
    }
}

// The picture inside a song's file.
fn find_inside<F: Folder>(
    alloc: Global,
    folder: &mut F,
    uri: &str,
) -> Result<Option<OpenPicture<F::File>>, CoverError>
    ensures found { F.honest folder.old →
        IfOk result (IsFound F.File.bytes F.File.honest (IsPictureOf (F.files folder.old) PictureKind.Inside uri.now)) }
    ensures steady { F.honest folder.old → F.steady folder.old →
        IsOkUnless result CoverError.NoMemory × IfOk result (IsSteady F.File.steady) }
    ensures folder { IsSameFolder F.honest F.steady F.files folder.old folder.new }
{
    match open_file(alloc, folder, uri)? {
        Some(source) => open_inside(alloc, source),
        None => Ok(None),
    }
}

// The file at a path as a picture.
fn find_plain<F: Folder>(
    alloc: Global,
    folder: &mut F,
    path: &str,
) -> Result<Option<OpenPicture<F::File>>, CoverError>
    ensures found { F.honest folder.old → IfOk result (IsFound F.File.bytes F.File.honest
        (λ picture. picture ≡ plain_at (F.files folder.old) path.now)) }
    ensures steady { F.honest folder.old → F.steady folder.old →
        IsOkUnless result CoverError.NoMemory × IfOk result (IsSteady F.File.steady) }
    ensures folder { IsSameFolder F.honest F.steady F.files folder.old folder.new }
{
    match open_file(alloc, folder, path)? {
        Some(source) => Ok(open_plain(alloc, source)),
        None => Ok(None),
    }
}

// The picture of the album in a folder.
fn find_album<F: Folder>(
    alloc: Global,
    folder: &mut F,
    path: &str,
) -> Result<Option<OpenPicture<F::File>>, CoverError>
    ensures found { F.honest folder.old →
        IfOk result (IsFound F.File.bytes F.File.honest (IsAlbumPicture (F.files folder.old) path.now)) }
    ensures steady { F.honest folder.old → F.steady folder.old →
        IsOkUnless result CoverError.NoMemory × IfOk result (IsSteady F.File.steady) }
    ensures folder { IsSameFolder F.honest F.steady F.files folder.old folder.new }
{
    let entries = list_folder(alloc, folder, path)?;
    let Some(entry) = album_picture(&entries) else {
        return Ok(None);
    };
    let picture = path_in(alloc, path, entry.name.as_str())?;
    find_plain(alloc, folder, picture.as_str())
}

/// The picture that is meant, opened; `None` where there is none.
pub(crate) fn find_picture<F: Folder>(
    alloc: Global,
    folder: &mut F,
    kind: PictureKind,
    uri: &str,
) -> Result<Option<OpenPicture<F::File>>, CoverError>
    ensures found { F.honest folder.old →
        IfOk result (IsFound F.File.bytes F.File.honest (IsPictureOf (F.files folder.old) kind uri.now)) }
    ensures steady { F.honest folder.old → F.steady folder.old →
        IsOkUnless result CoverError.NoMemory × IfOk result (IsSteady F.File.steady) }
    ensures folder { IsSameFolder F.honest F.steady F.files folder.old folder.new }
{
    match kind {
        PictureKind::Album => find_album(alloc, folder, folder_of(uri)),
        PictureKind::Inside => find_inside(alloc, folder, uri),
    }
}
