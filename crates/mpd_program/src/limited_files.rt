// Files that grow no further than the system lets this process write.
ghost use Rattle.std.specs.Prelude.{◌≡◌, ◌-◌, ◌<◌, ◌≤◌, ◌↔◌, min, IfOk, IsErr};
ghost use Rattle.std.specs.Io.{ReadsAtMost, WritesAtMost};

use crate::process_limits::longest_file;
use disk_model::FileDisk;
use std::alloc::Allocator;
use std::fs::{File, Files, Metadata, OpenFile, OpenOptions};
use std::io::{self, Read, Seek, SeekFrom, Write};
use std::os::unix::fs::FileExt;

/// What the system says of a file that would become longer than it may (EFBIG).
const TOO_LARGE: i32 = 27;

/// How many of so many bytes fit behind an offset in a file that may have so many; refused where none does.
pub(crate) fn room_at(limit: u64, at: u64, len: usize) -> io::Result<usize>
    ensures room { IfOk result (λ count. count ≡ min len (limit - at)) }
    ensures none { IsErr result ↔ ((limit ≤ at) × (0 < len)) }
{
    let room = limit.saturating_sub(at);
    if room == 0 && len > 0 {
        return Err(io::Error::from_raw_os_error(TOO_LARGE));
    }
    Ok((len as u64).min(room) as usize)
}

/// A file that may have so many bytes at most. What would pass that is refused as the system refuses it; but the system, asked for it, would
/// first end the process by a signal (SIGXFSZ), which nobody here can ignore.
#[derive(Drop)]
pub(crate) struct LimitedFile {
    file: File,
    limit: u64,
}

/// A file of the journal.
pub(crate) type JournalDisk = FileDisk<LimitedFile>;

impl FileExt for LimitedFile {
    fn read_at(&self, buf: &mut [u8], offset: u64) -> io::Result<usize>
        ensures { ReadsAtMost result buf.new }
    {
        self.file.read_at(buf, offset)
    }

    fn write_at(&self, buf: &[u8], offset: u64) -> io::Result<usize>
        ensures { WritesAtMost result buf.now }
    {
        let count = room_at(self.limit, offset, buf.len())?;
        self.file.write_at(&buf[..count], offset)
    }
}

impl OpenFile for LimitedFile {
    fn metadata(&self) -> io::Result<Metadata> {
        self.file.metadata()
    }

    fn set_len(&self, size: u64) -> io::Result<()> {
        if size > self.limit && size > self.file.metadata()?.len() {
            return Err(io::Error::from_raw_os_error(TOO_LARGE));
        }
        self.file.set_len(size)
    }

    fn sync_all(&self) -> io::Result<()> {
        self.file.sync_all()
    }

    fn sync_data(&self) -> io::Result<()> {
        self.file.sync_data()
    }
}

impl Read for LimitedFile {
    fn read(&mut self, buf: &mut [u8]) -> io::Result<usize> {
        self.file.read(buf)
    }
}

impl Write for LimitedFile {
    fn write(&mut self, bytes: &[u8]) -> io::Result<usize> {
        let at = self.file.stream_position()?;
        let count = room_at(self.limit, at, bytes.len())?;
        self.file.write(&bytes[..count])
    }

    fn flush(&mut self) -> io::Result<()> {
        self.file.flush()
    }
}

impl Seek for LimitedFile {
    fn seek(&mut self, to: SeekFrom) -> io::Result<u64> {
        self.file.seek(to)
    }
}

/// The files of the system, each of which may have so many bytes as the process may write when this is made.
#[derive(Drop)]
pub(crate) struct LimitedFiles<'a> {
    rt: &'a HostRuntime,
    limit: u64,
}

impl<'a> LimitedFiles<'a> {
    pub(crate) fn new(rt: &'a HostRuntime) -> Self {
        LimitedFiles {
            rt,
            limit: longest_file(rt).unwrap_or(u64::MAX),
        }
    }
}

impl Files for LimitedFiles<'_> {
    type File = LimitedFile;

    type Dir = <HostRuntime as Files>::Dir;

    fn open_file(&self, how: &OpenOptions, path: &str) -> io::Result<LimitedFile> {
        Ok(LimitedFile {
            file: how.open(self.rt, path)?,
            limit: self.limit,
        })
    }

    fn open_dir(&self, path: &str) -> io::Result<<HostRuntime as Files>::Dir> {
        self.rt.open_dir(path)
    }

    fn metadata(&self, path: &str) -> io::Result<Metadata> {
        self.rt.metadata(path)
    }

    fn symlink_metadata(&self, path: &str) -> io::Result<Metadata> {
        self.rt.symlink_metadata(path)
    }

    fn copy(&self, from: &str, to: &str) -> io::Result<u64> {
        self.rt.copy(from, to)
    }

    fn rename(&self, from: &str, to: &str) -> io::Result<()> {
        self.rt.rename(from, to)
    }

    fn remove_file(&self, path: &str) -> io::Result<()> {
        self.rt.remove_file(path)
    }

    fn create_dir(&self, path: &str) -> io::Result<()> {
        self.rt.create_dir(path)
    }

    fn remove_dir(&self, path: &str) -> io::Result<()> {
        self.rt.remove_dir(path)
    }

    fn remove_dir_all<B: Allocator>(&self, alloc: B, path: &str) -> io::Result<()> {
        self.rt.remove_dir_all(alloc, path)
    }
}
