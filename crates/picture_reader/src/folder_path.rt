// The folder that a song stands in, and what stands in it.
ghost use Rattle.std.specs.Prelude.{◌≡◌, IfOk, string_bytes};
ghost use Rattle.song_files.specs.Listing.{path_in};
ghost use Rattle.picture_reader.specs.Pictures.{folder_of};

use std::alloc::{AllocError, Global};

/// What stands before the last slash of a path; the root where there is none.
pub(crate) fn folder_of(path: &str) -> &str
    ensures { result.now ≡ folder_of path.now }
{
    match path.rsplit_once('/') {
        Some((folder, _)) => folder,
        None => "",
    }
}

/// The path of what stands in a folder under a name.
pub(crate) fn path_in(alloc: Global, folder: &str, name: &str) -> Result<String, AllocError>
    ensures { IfOk result (λ path. string_bytes path ≡ path_in folder.now name.now) }
{
    if folder.is_empty() {
        return String::from_str(alloc, name);
    }
    let mut path = String::from_str(alloc, folder)?;
    path.push_str("/")?;
    path.push_str(name)?;
    Ok(path)
}
