// A source over a real file.
ghost use Rattle.std.specs.Prelude.{◌≡◌, ◌≤◌, [], length, IfOk};

use crate::{Source, SourceFault};
use std::alloc::{AllocError, Global};
use std::fs::File;
use std::io::{self, ErrorKind, Seek, SeekFrom};
use std::os::unix::fs::FileExt;

/// How many bytes are read at once where fewer are asked for.
const WINDOW_LEN: usize = 4_096;

/// A file of the operating system, of the length that it had when it was opened. Small reads go through a window of 4
/// KiB, so that the head of a file is one read or two.
///
/// No contract can say what a file holds, so its honesty is a premise that no code supplies.
#[derive(Drop)]
pub struct FileSource {
    file: File,
    len: u64,
    // What was read last, and the place of its first byte.
    window: Vec<u8>,
    filled: usize,
    start: u64,
}

impl FileSource {
    /// Opens a file for reading; `None` where what stands there is no plain file. The opening of a pipe waits for its other end.
    pub fn open(rt: &HostRuntime, alloc: Global, path: &str) -> io::Result<Option<FileSource>> {
        let file = File::open(rt, path)?;
        let metadata = file.metadata()?;
        if !metadata.is_file() {
            return Ok(None);
        }
        Ok(Some(FileSource::over(alloc, file, metadata.len())?))
    }

    /// The same of what was a plain file a moment ago. It is asked for its length alone, which a pipe hasn't.
    pub(crate) fn open_known(
        rt: &HostRuntime,
        alloc: Global,
        path: &str,
    ) -> io::Result<Option<FileSource>> {
        let mut file = File::open(rt, path)?;
        match file.seek(SeekFrom::End(0)) {
            Ok(len) => Ok(Some(FileSource::over(alloc, file, len)?)),
            Err(error) if error.kind() == ErrorKind::NotSeekable => Ok(None),
            Err(error) => Err(error),
        }
    }

    // A source over an opened file of a length.
    fn over(alloc: Global, file: File, len: u64) -> Result<FileSource, AllocError> {
        let window = vec![in alloc; 0u8; WINDOW_LEN]?;
        Ok(FileSource {
            file,
            len,
            window,
            filled: 0,
            start: 0,
        })
    }

    // What the window has from an offset on.
    fn windowed(&self, at: u64) -> &[u8] {
        let filled = &self.window[..self.filled.min(self.window.len())];
        match at.checked_sub(self.start) {
            Some(skip) if skip < filled.len() as u64 => &filled[skip as usize..],
            _ => &[],
        }
    }

    // Reads the window anew, from an offset on.
    fn refill(&mut self, at: u64) -> Result<(), SourceFault> {
        self.filled = 0;
        self.start = at;
        match self.file.read_at(&mut self.window, at) {
            Ok(count) => {
                self.filled = count;
                Ok(())
            }
            Err(_) => Err(SourceFault),
        }
    }
}

impl Source for FileSource {
    ghost bytes = { λ _. [] };

    ghost honest = { λ _. ⊥ };

    ghost faults = { λ _. 0 };

    ghost steady = { λ _. ⊥ };

    ghost none_failed = { λ source steady. absurd steady };

    fn len(&self) -> u64 {
        self.len
    }

    fn read_at(&mut self, at: u64, buffer: &mut [u8]) -> Result<usize, SourceFault> {
        let room = self.len.saturating_sub(at);
        let count = room.min(buffer.len() as u64) as usize;
        if count >= WINDOW_LEN {
            return match self.file.read_at(&mut buffer[..count], at) {
                Ok(count) => Ok(count),
                Err(_) => Err(SourceFault),
            };
        }
        if count > 0 && self.windowed(at).is_empty() {
            self.refill(at)?;
        }
        Ok(copy_front(self.windowed(at), &mut buffer[..count]))
    }
}

// Copies as many bytes as there are and fit, and says how many.
fn copy_front(bytes: &[u8], buffer: &mut [u8]) -> usize
    ensures { result ≤ length buffer.old }
{
    let count = bytes.len().min(buffer.len());
    buffer[..count].copy_from_slice(&bytes[..count]);
    count
}
