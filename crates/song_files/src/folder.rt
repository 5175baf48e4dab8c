// What a folder lists and opens.
ghost use Rattle.std.specs.Prelude.{◌≡◌, List, None, Some, IfOk, IfSome, IsOkUnless, MatchOption};
ghost use Rattle.song_files.specs.Folder.{File, bytes_at, stamp_at};
ghost use Rattle.song_files.specs.Listing.{AreStamped, IsListing, IsNoFile, entries_of};
ghost use Rattle.song_files.specs.declared.folder.FolderFault.TheVariants.{NoMemory};

use crate::Source;
use std::alloc::{AllocError, AllocFailed, Global};
use std::error::Error;
use std::fmt;

/// A folder could not be listed, or a file not opened.
#[derive(Clone, Copy, Debug, PartialEq, Eq)]
pub enum FolderFault {
    /// The folder or the file could not be read, or a name in the folder isn't UTF-8, where such names aren't listed.
    Source,
    NoMemory,
}

impl fmt::Display for FolderFault {
    fn fmt<W: fmt::Write>(&self, f: &mut fmt::Formatter<W>) -> fmt::Result {
        match self {
            FolderFault::Source => f.write_str("the folder could not be read"),
            FolderFault::NoMemory => f.write_str("out of memory"),
        }
    }
}

impl Error for FolderFault {}

impl From<AllocError> for FolderFault {
    ghost from_gives = { λ _ e. e ≡ NoMemory };

    fn from(_error: AllocError) -> Self {
        FolderFault::NoMemory
    }
}

impl<T: Drop> From<AllocFailed<T>> for FolderFault {
    ghost from_gives = { λ _ e. e ≡ NoMemory };

    fn from(_error: AllocFailed<T>) -> Self {
        FolderFault::NoMemory
    }
}

/// What stands directly in a folder.
#[derive(Debug, Drop)]
pub struct FolderEntry {
    /// Without a slash.
    pub name: String,
    pub is_folder: bool,
    /// What was known of a file as it was listed, as a look would have told it; `None` of a folder, and where the listing doesn't tell it.
    pub stamp: Option<FileStamp>,
}

/// What is known of a file without opening it.
#[derive(Clone, Copy, Debug, PartialEq, Eq)]
pub struct FileStamp {
    /// When it was last changed, in seconds since the beginning of 1970; 0 where that isn't known.
    pub modified: u64,
    /// How many bytes it has.
    pub length: u64,
}

/// Files in folders, under paths with slashes between their parts. The empty path is the root.
pub trait Folder {
    /// An opened file.
    type File: Source + Drop;

    /// The files that there are.
    ghost files: { Self → List File };

    /// The folder tells its files and keeps them, and an opened file tells its bytes. It may fail all the same.
    ghost honest: { Self → Type 0 };

    /// The folder never fails, and neither does a file that it opens.
    ghost steady: { Self → Type 0 };

    /// What stands directly in a folder, in no particular order, with what is known of its files; `None` where there is no such folder.
    fn list(&mut self, alloc: Global, path: &str) -> Result<Option<Vec<FolderEntry>>, FolderFault>
        ensures listed { honest self.old → IfOk result (λ listing. IsListing (files self.old) path.now (entries_of listing)) }
        ensures stamps { honest self.old → IfOk result (λ listing. AreStamped (files self.old) path.now (entries_of listing)) }
        ensures no_file { honest self.old → IfOk result (IsNoFile (files self.old) path.now) }
        ensures steady { steady self.old → IsOkUnless result NoMemory × steady self.new }
        ensures honest { honest self.old → honest self.new }
        ensures files { honest self.old → files self.new ≡ files self.old };

    /// What is known of a file without opening it; `None` where there is no such file.
    fn look(&mut self, alloc: Global, path: &str) -> Result<Option<FileStamp>, FolderFault>
        ensures stamp { honest self.old → IfOk result (λ stamp. stamp ≡ stamp_at (files self.old) path.now) }
        ensures steady { steady self.old → IsOkUnless result NoMemory × steady self.new }
        ensures honest { honest self.old → honest self.new }
        ensures files { honest self.old → files self.new ≡ files self.old };

    /// Opens a file; `None` where there is no such file.
    fn open(&mut self, alloc: Global, path: &str) -> Result<Option<Self::File>, FolderFault>
        ensures opened { honest self.old →
            IfOk result (λ file. MatchOption file (bytes_at (files self.old) path.now ≡ None)
            (λ source. (bytes_at (files self.old) path.now ≡ Some (Self.File.bytes source)) × Self.File.honest source)) }
        ensures unfailing { steady self.old → IfOk result (λ file. IfSome file Self.File.steady) }
        ensures steady { steady self.old → IsOkUnless result NoMemory × steady self.new }
        ensures honest { honest self.old → honest self.new }
        ensures files { honest self.old → files self.new ≡ files self.old };
}
