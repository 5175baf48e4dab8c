// Folders of files in memory.
ghost use Rattle.std.specs.Prelude.{◌≡◌, [], ◌∷◌, ◌++◌, OnOk, OnErr, option_copied};
ghost use Rattle.song_files.specs.Added.{IsAdded, IsStamped, told_of};
ghost use Rattle.song_files.specs.Folder.{File, file_at, file_of, stamp_at, stamp_of};
ghost use Rattle.song_files.specs.Listing.{behind, first_part, has_slash, AreApart};

use crate::{FileStamp, Folder, FolderEntry, FolderFault, MemSource};
use std::alloc::{AllocError, Global};
use std::marker::Model;

// A file in memory.
#[derive(Debug, Drop)]
struct MemFile<'a> {
    path: String,
    bytes: &'a [u8],
    stamp: FileStamp,
}

impl<'a> Model for MemFile<'a> {
    ghost use Rattle.std.specs.Prelude.{string_bytes};
    ghost use Rattle.song_files.specs.Folder.{File};

    ghost Value = { File };

    ghost view = { λ f. record { path = string_bytes f.path; bytes = f.bytes.now; stamp = f.stamp } };
}

/// Files in memory. A folder is there where a file stands below it; the root always is.
#[derive(Debug, Drop)]
pub struct MemFolder<'a> {
    files: Vec<MemFile<'a>>,
}

impl<'a> Model for MemFolder<'a> {
    ghost use Rattle.std.specs.Prelude.{List};
    ghost use Rattle.song_files.specs.Folder.{File};

    ghost Value = { List File };

    ghost view = { λ f. f.files.items };
}

impl<'a> MemFolder<'a> {
    /// No file. It takes no memory yet.
    pub fn new(alloc: Global) -> Self
        ensures { result ≡ [] }
    {
        MemFolder {
            files: Vec::new(alloc),
        }
    }

    /// Adds a file of an unknown time; where there is one at the path already, that stays the one which is looked at and opened.
    pub fn add(&mut self, alloc: Global, path: &str, bytes: &'a [u8]) -> Result<(), AllocError>
        ensures ok { OnOk result (self.new ≡ self.old ++ file_of path.now bytes.now (stamp_of 0 bytes.now) ∷ []) }
        ensures err { OnErr result (self.new ≡ self.old) }
    {
        let stamp = FileStamp {
            modified: 0,
            length: bytes.len() as u64,
        };
        self.add_stamped(alloc, path, bytes, stamp)
    }

    /// The same, with what is to be told of the file.
    pub fn add_stamped(
        &mut self,
        alloc: Global,
        path: &str,
        bytes: &'a [u8],
        stamp: FileStamp,
    ) -> Result<(), AllocError>
        ensures ok { OnOk result (self.new ≡ self.old ++ file_of path.now bytes.now stamp ∷ []) }
        ensures err { OnErr result (self.new ≡ self.old) }
    {
        let path = String::from_str(alloc, path)?;
        self.files.push(MemFile { path, bytes, stamp })?;
        Ok(())
    }

    // What is told of the file at a path.
    fn stamp_at(&self, path: &str) -> Option<FileStamp>
        ensures { result ≡ stamp_at self.now path.now }
    {
        match self.file_at(path) {
            Some(file) => Some(file.stamp),
            None => None,
        }
    }

    // The file that is looked at and opened.
    fn file_at(&self, path: &str) -> Option<&MemFile<'a>>
        ensures { option_copied result ≡ file_at self.now path.now }
    {
        for file in &self.files {
            if file.path.as_str() == path {
                return Some(file);
            }
        }
        None
    }
}

impl<'a> Folder for MemFolder<'a> {
    type File = MemSource<'a>;

    ghost files = { λ f. f };

    ghost honest = { AreApart };

    ghost steady = { λ _. Unit {0} };

    fn list(&mut self, alloc: Global, path: &str) -> Result<Option<Vec<FolderEntry>>, FolderFault> {
        let mut entries = Vec::new(alloc);
        for file in &self.files {
            let own = file.path.as_str();
            if let Some(rest) = rest_below(path, own) {
                let stamp = self.stamp_at(own);
                add_entry(alloc, &mut entries, rest, stamp)?;
            }
        }
        if entries.is_empty() && !path.is_empty() {
            return Ok(None);
        }
        Ok(Some(entries))
    }

    fn look(&mut self, _alloc: Global, path: &str) -> Result<Option<FileStamp>, FolderFault> {
        Ok(self.stamp_at(path))
    }

    fn open(&mut self, _alloc: Global, path: &str) -> Result<Option<MemSource<'a>>, FolderFault> {
        match self.file_at(path) {
            Some(file) => Ok(Some(MemSource::new(file.bytes))),
            None => Ok(None),
        }
    }
}

// What a path has behind a folder and a slash, if it stands below it.
pub(crate) fn rest_below<'a>(folder: &str, path: &'a str) -> Option<&'a str>
    ensures { option_copied result ≡ behind folder.now path.now }
{
    if folder.is_empty() {
        return Some(path);
    }
    path.strip_prefix(folder)?.strip_prefix("/")
}

// Adds the first part of a path, unless it is there or empty; with what is told of the file, where it is one.
fn add_entry(
    alloc: Global,
    entries: &mut Vec<FolderEntry>,
    path: &str,
    told: Option<FileStamp>,
) -> Result<(), AllocError>
    ensures added { OnOk result (IsAdded entries.old.items entries.new.items (first_part path.now) (has_slash path.now)) }
    ensures stamp { OnOk result (IsStamped entries.old.items entries.new.items (first_part path.now) (has_slash path.now) told) }
{
    let (name, is_folder) = first_name(path);
    if name.is_empty() {
        return Ok(());
    }
    for entry in entries.iter() {
        if entry.name.as_str() == name && entry.is_folder == is_folder {
            return Ok(());
        }
    }
    let name = String::from_str(alloc, name)?;
    let stamp = told_of(is_folder, told);
    entries.push(FolderEntry {
        name,
        is_folder,
        stamp,
    })?;
    Ok(())
}

// What is told of a file, and nothing of a folder.
fn told_of(is_folder: bool, told: Option<FileStamp>) -> Option<FileStamp>
    ensures { result ≡ told_of is_folder told }
{
    if is_folder { None } else { told }
}

// The first part of a path, and whether more follows.
fn first_name(path: &str) -> (&str, bool)
    ensures name { result.0.now ≡ first_part path.now }
    ensures kind { result.1 ≡ has_slash path.now }
{
    match path.split_once('/') {
        Some((name, _)) => (name, true),
        None => (path, false),
    }
}
