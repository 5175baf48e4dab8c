// The folder of the songs.
ghost use Rattle.std.specs.Prelude.{[]};

use crate::calls::{CalledSource, Calls};
use crate::error_lines::{ErrorLines, put_line};
use crate::music_lines::MusicLines;
use profile::Profile;
use song_files::{FileFolder, FileStamp, Folder, FolderEntry, FolderFault};
use std::alloc::{AllocError, Global};
use std::fs::{self, File};
use std::io;

/// The songs of the configuration, in a folder of the operating system. What can't be read is told on standard error, at the
/// moment at which it is met.
///
/// As of the folder that it reads, no contract says what it holds.
#[derive(Drop)]
pub struct Music<'a> {
    rt: &'a HostRuntime,
    root: String,
    files: FileFolder<'a>,
    // None where nothing is told.
    lines: Option<MusicLines<'a>>,
    calls: Calls,
    // What could not be listed last, unless something was opened since.
    unlisted: Option<String>,
}

impl<'a> Music<'a> {
    /// The songs below this path. Without `lines` a line waits until it is taken. Calls of the system for them, and for what is opened of
    /// them, are counted. In the wide profile names that are no UTF-8 are listed.
    pub fn new(
        rt: &'a HostRuntime,
        profile: Profile,
        root: &str,
        lines: Option<ErrorLines>,
        calls: Calls,
    ) -> Result<Self, AllocError> {
        let root = String::from_str(rt.alloc(), root)?;
        Music::over(rt, profile, root, Some(MusicLines::new(rt, lines)), calls)
    }

    /// The same, of which nothing is told.
    pub fn silent(rt: &'a HostRuntime, root: &str, calls: Calls) -> Result<Self, AllocError> {
        let root = String::from_str(rt.alloc(), root)?;
        Music::over(rt, Profile::Wide, root, None, calls)
    }

    fn over(
        rt: &'a HostRuntime,
        profile: Profile,
        root: String,
        lines: Option<MusicLines<'a>>,
        calls: Calls,
    ) -> Result<Self, AllocError> {
        let below = String::from_str(rt.alloc(), root.as_str())?;
        let files = match profile {
            Profile::Named => FileFolder::new(rt, below),
            Profile::Wide => FileFolder::with_odd_names(rt, below),
        };
        Ok(Music {
            rt,
            root,
            files,
            lines,
            calls,
            unlisted: None,
        })
    }

    // Whether what can't be read has a line.
    fn takes_line(&mut self) -> bool {
        match &mut self.lines {
            Some(lines) => lines.takes_line(),
            None => false,
        }
    }

    // Where the operating system has what stands under a path.
    fn place(&self, alloc: Global, path: &str) -> Result<String, AllocError> {
        let root = if self.root.is_empty() {
            "."
        } else {
            self.root.as_str()
        };
        if path.is_empty() {
            String::from_str(alloc, root)
        } else {
            format!(in alloc; "{root}/{path}")
        }
    }

    // Whether something else than a file stands at a path: the opening of a pipe would wait for its other end.
    fn is_no_file(&self, alloc: Global, path: &str) -> Result<bool, AllocError> {
        let place = self.place(alloc, path)?;
        self.calls.turn();
        let found = fs::metadata(self.rt, place.as_str());
        self.calls.turn();
        Ok(match found {
            Ok(found) => !found.is_file(),
            Err(_) => false,
        })
    }

    // Says what can't be read, and why. Where the system has no error of its own, a link leads upwards, or something changed.
    fn print(&self, place: &str, error: Option<io::Error>) {
        match error {
            Some(error) => put_line(
                self.rt,
                format_args!(
                    "music: {place}: can't be read: {error}; the songs known there are kept"
                ),
            ),
            None => put_line(
                self.rt,
                format_args!(
                    "music: {place}: can't be read: it leads upwards, or changed meanwhile; the songs known there are kept"
                ),
            ),
        }
    }

    // Says what can't be listed. For want of memory nothing is said.
    fn tell_folder(&mut self, alloc: Global, path: &str) {
        self.unlisted = String::from_str(alloc, path).ok();
        if self.takes_line() {
            if let Ok(place) = self.place(alloc, path) {
                let error = error_of_folder(self.rt, place.as_str());
                self.print(place.as_str(), error);
            }
        }
    }

    // Whether a path was told as a folder's right before: what a link that leads nowhere may have led to is looked for as a folder, and
    // then as a file.
    fn is_told(&self, path: &str) -> bool {
        match &self.unlisted {
            Some(unlisted) => unlisted.as_str() == path,
            None => false,
        }
    }

    // Says what can't be opened. For want of memory nothing is said.
    fn tell_file(&mut self, alloc: Global, path: &str) {
        if !self.is_told(path) && self.takes_line() {
            if let Ok(place) = self.place(alloc, path) {
                let error = error_of_file(self.rt, place.as_str());
                self.print(place.as_str(), error);
            }
        }
    }
}

impl Folder for Music<'_> {
    type File = CalledSource;

    ghost files = { λ _. [] };

    ghost honest = { λ _. ⊥ };

    ghost steady = { λ _. ⊥ };

    fn list(&mut self, alloc: Global, path: &str) -> Result<Option<Vec<FolderEntry>>, FolderFault> {
        self.unlisted = None;
        self.calls.turn();
        let listed = self.files.list(alloc, path);
        self.calls.turn();
        if matches!(listed, Err(FolderFault::Source)) {
            self.tell_folder(alloc, path);
        }
        listed
    }

    fn look(&mut self, alloc: Global, path: &str) -> Result<Option<FileStamp>, FolderFault> {
        self.calls.turn();
        let looked = self.files.look(alloc, path);
        self.calls.turn();
        if matches!(looked, Err(FolderFault::Source)) {
            self.tell_file(alloc, path);
        }
        looked
    }

    fn open(&mut self, alloc: Global, path: &str) -> Result<Option<CalledSource>, FolderFault> {
        // What a listing had as a file may be another thing by now.
        if self.is_no_file(alloc, path)? {
            return Ok(None);
        }
        self.calls.turn();
        let opened = self.files.open(alloc, path);
        self.calls.turn();
        if matches!(opened, Err(FolderFault::Source)) {
            self.tell_file(alloc, path);
        }
        self.unlisted = None;
        match opened? {
            Some(file) => Ok(Some(CalledSource::new(file, self.calls.again()?))),
            None => Ok(None),
        }
    }
}

// What the system says of a folder that can't be listed, or of the first name in it that is none; none where it says nothing.
fn error_of_folder(rt: &HostRuntime, place: &str) -> Option<io::Error> {
    match fs::read_dir(rt, place) {
        Ok(entries) => {
            for entry in entries {
                if let Err(error) = entry {
                    return Some(error);
                }
            }
            None
        }
        Err(error) => Some(error),
    }
}

// What the system says of a file that can't be opened; none where it says nothing. Nothing else is opened: a pipe would wait for its other
// end.
fn error_of_file(rt: &HostRuntime, place: &str) -> Option<io::Error> {
    match fs::metadata(rt, place) {
        Ok(found) if found.is_file() => File::open(rt, place).err(),
        Ok(_) => None,
        Err(error) => Some(error),
    }
}
