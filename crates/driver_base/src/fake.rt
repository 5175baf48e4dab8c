//! A file whose writes and cuts fail, in place of one of the system.
use crate::calls::call_file;
use crate::fault::Fault;
use crate::printer::Printer;
use crate::words::{first_word, number};
use std::alloc::Allocator;
use std::cell::Cell;
use std::fs::{Metadata, OpenFile, OpenOptions};
use std::io;
use std::io::{Read, Seek, SeekFrom, Write};
use std::os::unix::fs::FileExt;
use std::rt::Files;

/// A file of four bytes whose writes and cuts fail.
#[derive(Drop)]
struct BrokenFile {
    /// Whether its length was asked for.
    is_measured: Cell<bool>,
    /// The length that it gives from then on, if any.
    later: Option<u64>,
    /// Whether reads and syncs go well.
    is_read: bool,
    /// Whether the next sync fails.
    fails_once: Cell<bool>,
}

/// Files of which each is such a one.
#[derive(Clone, Copy)]
struct BrokenFiles {
    later: Option<u64>,
    is_read: bool,
    fails_once: bool,
}

fn broken() -> io::Error {
    io::ErrorKind::Other.into()
}

impl FileExt for BrokenFile {
    fn read_at(&self, buf: &mut [u8], _offset: u64) -> io::Result<usize> {
        if !self.is_read {
            return Err(broken());
        }
        Ok(buf.len())
    }

    fn write_at(&self, _buf: &[u8], _offset: u64) -> io::Result<usize> {
        Err(broken())
    }
}

impl OpenFile for BrokenFile {
    fn metadata(&self) -> io::Result<Metadata> {
        if !self.is_measured.replace(true) {
            return Ok(Metadata::of_file(4));
        }
        match self.later {
            Some(len) => Ok(Metadata::of_file(len)),
            None => Err(broken()),
        }
    }

    fn set_len(&self, _size: u64) -> io::Result<()> {
        Err(broken())
    }

    // A folder is synced so.
    fn sync_all(&self) -> io::Result<()> {
        Ok(())
    }

    fn sync_data(&self) -> io::Result<()> {
        if self.fails_once.replace(false) || !self.is_read {
            Err(broken())
        } else {
            Ok(())
        }
    }
}

impl Read for BrokenFile {
    fn read(&mut self, _buf: &mut [u8]) -> io::Result<usize> {
        Err(broken())
    }
}

impl Write for BrokenFile {
    fn write(&mut self, _buf: &[u8]) -> io::Result<usize> {
        Err(broken())
    }

    fn flush(&mut self) -> io::Result<()> {
        Err(broken())
    }
}

impl Seek for BrokenFile {
    fn seek(&mut self, _to: SeekFrom) -> io::Result<u64> {
        Err(broken())
    }
}

impl Files for BrokenFiles {
    type File = BrokenFile;

    type Dir = BrokenFile;

    fn open_file(&self, _how: &OpenOptions, _path: &str) -> io::Result<BrokenFile> {
        Ok(BrokenFile {
            is_measured: Cell::new(false),
            later: self.later,
            is_read: self.is_read,
            fails_once: Cell::new(self.fails_once),
        })
    }

    fn open_dir(&self, _path: &str) -> io::Result<BrokenFile> {
        Err(broken())
    }

    fn metadata(&self, _path: &str) -> io::Result<Metadata> {
        Err(broken())
    }

    fn symlink_metadata(&self, _path: &str) -> io::Result<Metadata> {
        Err(broken())
    }

    fn copy(&self, _from: &str, _to: &str) -> io::Result<u64> {
        Err(broken())
    }

    fn rename(&self, _from: &str, _to: &str) -> io::Result<()> {
        Err(broken())
    }

    fn remove_file(&self, _path: &str) -> io::Result<()> {
        Err(broken())
    }

    fn create_dir(&self, _path: &str) -> io::Result<()> {
        Err(broken())
    }

    fn remove_dir(&self, _path: &str) -> io::Result<()> {
        Err(broken())
    }

    fn remove_dir_all<B: Allocator>(&self, _alloc: B, _path: &str) -> io::Result<()> {
        Err(broken())
    }
}

/// The files that `LENGTH HOW` asks for, and the words behind that. Behind a failed call the file's length is LENGTH, or nobody knows it,
/// `none`; reads and syncs go well, `sound`, or fail, `broken`, or the first sync fails, `once`.
fn read_how<'a>(words: &'a str) -> Result<(BrokenFiles, &'a str), Fault> {
    let (later, rest) = first_word(words);
    let (how, rest) = first_word(rest);
    let later = match later {
        "none" => None,
        _ => Some(number(later)?),
    };
    let files = BrokenFiles {
        later,
        is_read: how != "broken",
        fails_once: how == "once",
    };
    Ok((files, rest))
}

/// Makes calls of a file whose writes and cuts fail.
pub fn call_fake(printer: &mut Printer, words: &str) -> Result<(), Fault> {
    let (files, rest) = read_how(words)?;
    call_file(&files, printer, "broken", rest)
}
