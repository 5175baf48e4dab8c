// The sockets that clients connect to.
use crate::file_lock::lock;
use mio::net::{TcpListener, UnixListener, UnixStream};
use std::fs::{self, File};
use std::io::{self, ErrorKind};
use std::net::SocketAddr;
use std::os::unix::fs::FileTypeExt;
use std::path::Path;
use std::thread;
use std::time::Duration;

/// How often a lock that another program has is tried, and how many milliseconds lie between.
const TRIES: u32 = 100;

const PAUSE: u64 = 10;

/// Listens on an address and port, such as `127.0.0.1:6600` or `[::1]:6600`.
pub fn listen_on_address(rt: &HostRuntime, address: SocketAddr) -> io::Result<TcpListener> {
    TcpListener::bind(rt, address)
}

/// Listens on a socket at this path, with the mode that the process's umask leaves. A socket there that nobody listens on is replaced; one
/// that the process may not connect to can't be asked, and is refused with words of its own.
///
/// Its folder is locked meanwhile, so that of two daemons that begin at once neither removes the other's socket. What else has it locked
/// keeps nobody from listening: after a second it is done without the lock.
pub fn listen_on_path(rt: &HostRuntime, path: &str) -> io::Result<UnixListener> {
    let _locked = lock_folder(rt, path);
    match UnixListener::bind(rt, path) {
        Err(error) if error.kind() == ErrorKind::AddrInUse => {
            if !is_stale(rt, path)? {
                return Err(error);
            }
            fs::remove_file(rt, path)?;
            UnixListener::bind(rt, path)
        }
        bound => bound,
    }
}

// The folder in which a path stands, locked as long as the value lives; none where another program has it locked for a second, where no
// folder is there that can be opened, or the file system knows no locks.
fn lock_folder(rt: &HostRuntime, path: &str) -> Option<File> {
    let folder = match Path::new(path).parent() {
        Some(parent) if !parent.as_str().is_empty() => parent.as_str(),
        _ => ".",
    };
    // The opening of a pipe would wait for its other end.
    if !fs::metadata(rt, folder).ok()?.is_dir() {
        return None;
    }
    let file = File::open(rt, folder).ok()?;
    for _ in 0..TRIES {
        match lock(&file) {
            Ok(_) => return Some(file),
            Err(error) if error.kind() != ErrorKind::WouldBlock => return None,
            Err(_) => thread::sleep(rt, Duration::from_millis(PAUSE)),
        }
    }
    None
}

// Whether a socket lies at this path that nobody listens on. (A connection to a file that is no socket is refused too.)
fn is_stale(rt: &HostRuntime, path: &str) -> io::Result<bool> {
    match fs::symlink_metadata(rt, path) {
        Ok(found) if found.file_type().is_socket() => match UnixStream::connect(rt, path) {
            Ok(_) => Ok(false),
            Err(error) if error.kind() == ErrorKind::PermissionDenied => Err(io::Error::other(
                "another user's socket is there: remove it if no daemon has it",
            )),
            Err(error) => Ok(error.kind() == ErrorKind::ConnectionRefused),
        },
        _ => Ok(false),
    }
}
