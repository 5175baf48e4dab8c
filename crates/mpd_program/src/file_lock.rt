// The lock on a file that one program at a time writes.
use os::RangeLock;
use std::fs::{File, OpenOptions, TryLockError};
use std::io::{self, ErrorKind};
use std::os::fd::AsRawFd;
use std::os::unix::fs::OpenOptionsExt;

/// A lock on a journal file, by which one program at a time has it open. It ends with the value, or with the process.
#[derive(Drop)]
pub struct FileLock {
    _file: File,
    is_known: bool,
}

impl FileLock {
    /// Locks the file at this path, which is made, empty and for its owner alone, where it is missing. It refuses `WouldBlock` where
    /// another program has locked it, or this one under another name, and each other error of the system as it is, but that of a file
    /// system that knows no locks.
    ///
    /// The file is opened for writing too: over a network (NFS) only so can it be locked.
    pub fn take(rt: &HostRuntime, path: &str) -> io::Result<FileLock> {
        let file = OpenOptions::new()
            .read(true)
            .write(true)
            .create(true)
            .mode(0o600)
            .open(rt, path)?;
        let is_known = lock(&file)?;
        Ok(FileLock {
            _file: file,
            is_known,
        })
    }

    /// Whether the file system knows locks: where it doesn't, nothing keeps another program away.
    pub fn is_known(&self) -> bool {
        self.is_known
    }
}

/// Locks a file for as long as it stays open, and says whether its file system knows locks. Refused as `FileLock::take` says.
pub fn lock(file: &File) -> io::Result<bool> {
    match file.try_lock() {
        Ok(()) => Ok(true),
        Err(TryLockError::WouldBlock) => Err(ErrorKind::WouldBlock.into()),
        Err(TryLockError::Error(error)) if error.kind() == ErrorKind::Unsupported => Ok(false),
        Err(TryLockError::Error(error)) => Err(error),
    }
}

/// Locks a named pipe that is open for writing, for as long as it stays open: `WouldBlock` where another has locked it so. It is another
/// lock than that of `lock`, by which `contrib/sound` keeps other readers from it. Where the system has no such lock, nothing keeps another
/// daemon away.
pub fn lock_pipe(file: &File) -> io::Result<()> {
    if os::try_lock_range(file.as_raw_fd(), RangeLock::Exclusive, 0, 1) == 0 {
        return Ok(());
    }
    let error = io::Error::from_raw_os_error(os::errno());
    if error.kind() == ErrorKind::WouldBlock {
        return Err(error);
    }
    Ok(())
}
