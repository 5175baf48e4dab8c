// Where the sound goes.
ghost use Rattle.std.specs.Prelude.{◌≤◌, IfOk};
ghost use Rattle.std.specs.Io.{WritesAtMost};

use crate::calls::Calls;
use crate::error_lines::keep_from_waiting;
use crate::file_lock::{lock, lock_pipe};
use crate::limited_files::room_at;
use crate::process_limits::longest_file;
use crate::readiness::{Readiness, STEP};
use crate::stop_flag::StopFlag;
use std::fs::{self, File, OpenOptions};
use std::io::{self, ErrorKind, Printer, Write};
use std::os::fd::{AsRawFd, RawFd};
use std::os::unix::fs::{FileTypeExt, OpenOptionsExt};

/// The descriptor of standard output.
const STANDARD_OUTPUT: RawFd = 1;

/// By which path it is looked at.
const ITS_PATH: &str = "/proc/self/fd/1";

/// How many bytes go into one write: a pipe that is reported ready takes so many without blocking (pipe(7)).
const MAX_WRITE: usize = 4_096;

/// Where the sound goes: a file, a named pipe, a device or standard output.
///
/// A write waits until the output takes bytes, but at most 50 milliseconds after the flag was set, and fails then. A regular file
/// takes any number of bytes at once.
#[derive(Drop)]
pub struct Output<'a> {
    rt: &'a HostRuntime,
    target: Target<'a>,
    // None where the system has nothing to wait for, as for a regular file.
    readiness: Option<Readiness>,
    // How many bytes a regular file may have.
    limit: u64,
    stop: StopFlag,
    // The waits for a reader, where they are counted.
    waits: Option<Calls>,
}

// What is written to.
#[derive(Drop)]
enum Target<'a> {
    Standard(Printer<'a, HostRuntime>),
    File(File),
}

// Opens what stands at a path, for reading and writing. Only a regular file and a named pipe are locked.
fn open_file(rt: &HostRuntime, path: &str) -> io::Result<File> {
    let file = OpenOptions::new()
        .read(true)
        .write(true)
        .create(true)
        .mode(0o600)
        .open(rt, path)?;
    let found = file.metadata()?;
    if found.is_file() {
        let _is_known = lock(&file)?;
    } else if found.file_type().is_fifo() {
        lock_pipe(&file)?;
    }
    Ok(file)
}

impl<'a> Output<'a> {
    /// Opens the output at this path, or standard output at `-`. A named pipe is opened for reading too, so that it needs no reader
    /// yet. A regular file is made, for its owner alone, where there is none, and keeps its bytes until `clear`. Both are locked, so that
    /// a file is no journal file of a daemon, this one under another name or another, and neither is another daemon's output: `WouldBlock`
    /// where somebody has locked it.
    pub fn open(rt: &'a HostRuntime, path: &str, stop: StopFlag) -> io::Result<Output<'a>> {
        let (target, fd) = if path == "-" {
            (Target::Standard(io::writer(rt)), STANDARD_OUTPUT)
        } else {
            let file = open_file(rt, path)?;
            let fd = file.as_raw_fd();
            (Target::File(file), fd)
        };
        let readiness = Readiness::of(rt, fd)?;
        if let (Target::File(file), Some(_)) = (&target, &readiness) {
            // Where the system refuses it, a write may wait for a reader.
            let _kept = keep_from_waiting(file);
        }
        Ok(Output {
            rt,
            target,
            readiness,
            limit: longest_file(rt).unwrap_or(u64::MAX),
            stop,
            waits: None,
        })
    }

    /// Whether it is a regular file, which takes any number of bytes at once, and nothing else, as standard output.
    pub fn is_regular_file(&self) -> bool {
        match &self.target {
            Target::Standard(_) => false,
            Target::File(file) => match file.metadata() {
                Ok(found) => found.is_file(),
                Err(_) => false,
            },
        }
    }

    /// Drops what a regular file held. What is no such file is left as it is.
    pub fn clear(&self) -> io::Result<()> {
        match &self.target {
            Target::File(file) if self.is_regular_file() => file.set_len(0),
            _ => Ok(()),
        }
    }

    /// Counts its waits for a reader from now on.
    pub fn count(&mut self, waits: Calls) {
        self.waits = Some(waits);
    }

    // A wait begins or ends.
    fn turn(&self) {
        if let Some(waits) = &self.waits {
            waits.turn();
        }
    }

    // Waits until the output takes bytes.
    fn wait(&mut self) -> io::Result<()> {
        self.turn();
        let waited = self.wait_for_it();
        self.turn();
        waited
    }

    fn wait_for_it(&mut self) -> io::Result<()> {
        // The flag is looked at between two waits.
        for _ in 0..u64::MAX {
            if self.stop.is_set() {
                break;
            }
            let Some(readiness) = &mut self.readiness else {
                return Ok(());
            };
            if readiness.wait(STEP)? {
                return Ok(());
            }
        }
        Err(ErrorKind::Other.into())
    }

    // How many bytes a regular file has already; none of anything else.
    fn length(&self) -> io::Result<Option<u64>> {
        let found = match &self.target {
            Target::Standard(_) => fs::metadata(self.rt, ITS_PATH)?,
            Target::File(file) => file.metadata()?,
        };
        Ok(if found.is_file() {
            Some(found.len())
        } else {
            None
        })
    }

    // How many of so many bytes are written at once: as many as a pipe takes that is ready, and as a regular file may become longer. The
    // system would end the process where it became longer than that.
    fn room(&self, len: usize) -> io::Result<usize>
        ensures { IfOk result (λ count. count ≤ len) }
    {
        let len = len.min(MAX_WRITE);
        match self.length() {
            Ok(Some(length)) => Ok(room_at(self.limit, length, len)?),
            // What can't be looked at has no limit that is known.
            Ok(None) | Err(_) => Ok(len),
        }
    }

    // Writes a front of these bytes.
    fn put(&mut self, bytes: &[u8]) -> io::Result<usize>
        ensures { WritesAtMost result bytes.now }
    {
        let count = self.room(bytes.len())?;
        let piece = &bytes[..count];
        match &mut self.target {
            Target::Standard(printer) => printer.write(piece),
            Target::File(file) => file.write(piece),
        }
    }
}

impl Write for Output<'_> {
    fn write(&mut self, bytes: &[u8]) -> io::Result<usize> {
        // What others have written since may have filled the pipe again.
        for _ in 0..u64::MAX {
            self.wait()?;
            match self.put(bytes) {
                Err(error) if error.kind() == ErrorKind::WouldBlock => {}
                written => return written,
            }
        }
        Err(ErrorKind::Other.into())
    }

    fn flush(&mut self) -> io::Result<()> {
        Ok(())
    }
}
