// A folder over real files.
ghost use Rattle.std.specs.Prelude.{[]};

use crate::file_source::FileSource;
use crate::known_files::KnownFiles;
use crate::odd_names::odd_names;
use crate::{FileStamp, Folder, FolderEntry, FolderFault};
use std::alloc::{AllocError, Global};
use std::fs::{self, Metadata};
use std::io::{self, ErrorKind};
use std::os::unix::fs::MetadataExt;
use std::path::{AsPath, Path};

/// The files below a folder of the operating system. Links are followed, but a link to a folder that it stands in can't
/// be listed, since it would go on for ever. What is neither a folder nor a plain file isn't listed, can't be opened,
/// and counts as no file.
///
/// Where the folder itself isn't there, or a link leads nowhere, as to a disk that was taken out, every listing and
/// opening below it is a fault. So is a listing that meets a name behind which nothing stands any more, if what is listed
/// doesn't stand at its path any more either, or is another folder by then. All else that isn't there counts as gone:
/// a name of a folder that is still the same, what stood below a folder that was moved away before it was listed, and
/// what stood on a disk whose mount point is there without it.
///
/// No contract can say what a folder holds, so its honesty is a premise that no code supplies.
#[derive(Drop)]
pub struct FileFolder<'a> {
    rt: &'a HostRuntime,
    root: String,
    // What the last listing had as files: they needn't be looked at again.
    known: Option<KnownFiles>,
    // Whether names that are no UTF-8 are listed.
    lists_odd: bool,
}

impl<'a> FileFolder<'a> {
    /// The files below `root`, or below the present folder where that is empty; its own path is empty.
    pub fn new(rt: &'a HostRuntime, root: String) -> Self {
        FileFolder {
            rt,
            root,
            known: None,
            lists_odd: false,
        }
    }

    /// The same, in which a name that is no UTF-8 costs that file alone, and not its folder: it is listed escaped, behind `ODD`.
    pub fn with_odd_names(rt: &'a HostRuntime, root: String) -> Self {
        FileFolder {
            rt,
            root,
            known: None,
            lists_odd: true,
        }
    }

    fn root(&self) -> &str {
        if self.root.is_empty() {
            return ".";
        }
        self.root.as_str()
    }

    // Where the operating system has what stands under a path.
    fn place(&self, alloc: Global, path: &str) -> Result<String, FolderFault> {
        let root = self.root();
        let len = root.len().saturating_add(path.len()).saturating_add(1);
        let mut place = String::with_capacity(alloc, len)?;
        place.push_str(root)?;
        if !path.is_empty() {
            place.push_str("/")?;
            place.push_str(path)?;
        }
        Ok(place)
    }

    // Whether a folder is one of those that it stands in.
    fn stands_in(&self, alloc: Global, path: &str, folder: &Metadata) -> io::Result<bool> {
        let mut over = String::from_str(alloc, self.root())?;
        for part in path.split('/') {
            if is_same(&fs::metadata(self.rt, over.as_str())?, folder) {
                return Ok(true);
            }
            over.push_str("/")?;
            over.push_str(part)?;
        }
        Ok(false)
    }

    // Whether the last listing had this as a file.
    fn is_known(&self, path: &str) -> bool {
        match &self.known {
            Some(known) => known.has(path),
            None => false,
        }
    }

    // What a refusal of the operating system says of a path: nothing stands there, unless the way to it is cut off.
    fn refused<T>(
        &self,
        alloc: Global,
        path: &str,
        error: &io::Error,
    ) -> Result<Option<T>, FolderFault> {
        if !is_absent(error) || path.is_empty() {
            return Err(fault_of(error));
        }
        match self.is_cut_off(alloc, path) {
            Ok(false) => Ok(None),
            Ok(true) => Err(FolderFault::Source),
            Err(other) => Err(fault_of(&other)),
        }
    }

    // Whether a link on the way to a path leads nowhere, or the folder itself isn't there, or is no folder. That one is looked at last:
    // without it no link would have been found.
    fn is_cut_off(&self, alloc: Global, path: &str) -> io::Result<bool> {
        let mut over = String::from_str(alloc, self.root())?;
        for part in path.split('/') {
            over.push_str("/")?;
            over.push_str(part)?;
            if fs::metadata(self.rt, over.as_str()).is_err() && is_there(self.rt, over.as_str())? {
                return Ok(true);
            }
        }
        Ok(!is_folder(self.rt, self.root()))
    }

    // A file, if one stands there. What isn't known to be a file is looked at first: the opening of a pipe would wait for its other end.
    fn open_file(&self, alloc: Global, path: &str, place: &str) -> io::Result<Option<FileSource>> {
        if self.is_known(path) {
            return FileSource::open_known(self.rt, alloc, place);
        }
        if !fs::metadata(self.rt, place)?.is_file() {
            return Ok(None);
        }
        FileSource::open(self.rt, alloc, place)
    }

    // What is to be listed, unless it is a link upwards.
    fn folder_at(&self, alloc: Global, path: &str, place: &str) -> io::Result<Metadata> {
        let found = fs::symlink_metadata(self.rt, place)?;
        if !found.is_symlink() {
            return Ok(found);
        }
        let folder = fs::metadata(self.rt, place)?;
        if !path.is_empty() && self.stands_in(alloc, path, &folder)? {
            return Err(io::Error::other("a link to a folder that it stands in"));
        }
        Ok(folder)
    }

    // What stands in a folder, unless it is a link upwards.
    fn entries(&self, alloc: Global, path: &str, place: &str) -> io::Result<Vec<FolderEntry>> {
        let folder = self.folder_at(alloc, path, place)?;
        entries_of(self.rt, alloc, place, &folder, self.lists_odd)
    }
}

impl Folder for FileFolder<'_> {
    type File = FileSource;

    ghost files = { λ _. [] };

    ghost honest = { λ _. ⊥ };

    ghost steady = { λ _. ⊥ };

    fn list(&mut self, alloc: Global, path: &str) -> Result<Option<Vec<FolderEntry>>, FolderFault> {
        self.known = None;
        let place = self.place(alloc, path)?;
        match self.entries(alloc, path, place.as_str()) {
            Ok(entries) => {
                self.known = Some(KnownFiles::of(alloc, path, &entries)?);
                Ok(Some(entries))
            }
            Err(error) => self.refused(alloc, path, &error),
        }
    }

    fn look(&mut self, alloc: Global, path: &str) -> Result<Option<FileStamp>, FolderFault> {
        let place = self.place(alloc, path)?;
        match fs::metadata(self.rt, place.as_str()) {
            Ok(found) => Ok(stamp_of(&found)),
            Err(error) => self.refused(alloc, path, &error),
        }
    }

    fn open(&mut self, alloc: Global, path: &str) -> Result<Option<FileSource>, FolderFault> {
        let place = self.place(alloc, path)?;
        match self.open_file(alloc, path, place.as_str()) {
            Ok(file) => Ok(file),
            Err(error) => self.refused(alloc, path, &error),
        }
    }
}

// What is known of a plain file. A time before 1970 counts as unknown.
fn stamp_of(found: &Metadata) -> Option<FileStamp> {
    if !found.is_file() {
        return None;
    }
    Some(FileStamp {
        modified: u64::try_from(found.mtime()).unwrap_or(0),
        length: found.len(),
    })
}

// What stands in a folder, which was this one before. A name that isn't UTF-8 is an error, or is listed behind the others.
fn entries_of(
    rt: &HostRuntime,
    alloc: Global,
    place: &str,
    folder: &Metadata,
    lists_odd: bool,
) -> io::Result<Vec<FolderEntry>> {
    let mut entries = Vec::new(alloc);
    let mut has_odd = false;
    for found in fs::read_dir(rt, place)? {
        let found = match found {
            Err(error) if lists_odd && error.kind() == ErrorKind::InvalidFilename => {
                has_odd = true;
                continue;
            }
            found => found?,
        };
        let kind = match kind_of(rt, found.path()) {
            Err(error) if is_absent(&error) => kind_of_removed(rt, place, folder)?,
            kind => kind?,
        };
        push_entries(alloc, &mut entries, found.file_name(), kind)?;
    }
    if has_odd {
        for name in odd_names(rt, alloc, place)? {
            entries.push(FolderEntry {
                name,
                is_folder: false,
                stamp: None,
            })?;
        }
    }
    Ok(entries)
}

// What stands under a name that was read.
enum Kind {
    Folder,
    File(Option<FileStamp>),
    // Neither a folder nor a file, or nothing any more.
    Neither,
    // A link that leads nowhere.
    Unknown,
}

// Enters a name. A link that leads nowhere may have led to a folder or to a file: so it is looked for as both, which is a fault, and what is
// known of it is kept.
fn push_entries(
    alloc: Global,
    entries: &mut Vec<FolderEntry>,
    name: &str,
    kind: Kind,
) -> io::Result<()> {
    match kind {
        Kind::Folder => push_entry(alloc, entries, name, true, None)?,
        Kind::File(stamp) => push_entry(alloc, entries, name, false, stamp)?,
        Kind::Neither => {}
        Kind::Unknown => {
            push_entry(alloc, entries, name, true, None)?;
            push_entry(alloc, entries, name, false, None)?;
        }
    }
    Ok(())
}

fn push_entry(
    alloc: Global,
    entries: &mut Vec<FolderEntry>,
    name: &str,
    is_folder: bool,
    stamp: Option<FileStamp>,
) -> Result<(), AllocError> {
    let name = String::from_str(alloc, name)?;
    entries.push(FolderEntry {
        name,
        is_folder,
        stamp,
    })?;
    Ok(())
}

// What stands there. What came, or came back, between both looks counts as a link that leads nowhere.
fn kind_of(rt: &HostRuntime, place: Path<'_>) -> io::Result<Kind> {
    match fs::metadata(rt, place) {
        Ok(found) if found.is_dir() => Ok(Kind::Folder),
        Ok(found) if found.is_file() => Ok(Kind::File(stamp_of(&found))),
        Ok(_) => Ok(Kind::Neither),
        Err(_) if is_there(rt, place)? => Ok(Kind::Unknown),
        Err(error) => Err(error),
    }
}

// Nothing for a name that vanished since it was read, if the folder that was listed still stands at its place: it was removed. Else that
// isn't known of any name.
fn kind_of_removed(rt: &HostRuntime, place: &str, folder: &Metadata) -> io::Result<Kind> {
    match fs::metadata(rt, place) {
        Ok(found) if is_same(&found, folder) => Ok(Kind::Neither),
        Err(error) if !is_absent(&error) => Err(error),
        _ => Err(io::Error::other("the folder went away while it was listed")),
    }
}

fn is_folder(rt: &HostRuntime, place: &str) -> bool {
    match fs::metadata(rt, place) {
        Ok(found) => found.is_dir(),
        Err(_) => false,
    }
}

// Whether something stands there, be it a link that leads nowhere.
fn is_there<P: AsPath>(rt: &HostRuntime, place: P) -> io::Result<bool> {
    match fs::symlink_metadata(rt, place) {
        Ok(_) => Ok(true),
        Err(error) if is_absent(&error) => Ok(false),
        Err(error) => Err(error),
    }
}

fn is_same(folder: &Metadata, other: &Metadata) -> bool {
    folder.dev() == other.dev() && folder.ino() == other.ino()
}

fn is_absent(error: &io::Error) -> bool {
    error.kind() == ErrorKind::NotFound || error.kind() == ErrorKind::NotADirectory
}

fn fault_of(error: &io::Error) -> FolderFault {
    if error.kind() == ErrorKind::OutOfMemory {
        return FolderFault::NoMemory;
    }
    FolderFault::Source
}
