// Whether what a descriptor leads to takes bytes.
use mio::unix::SourceFd;
use mio::{Events, Interest, Poll, Token};
use std::io::{self, ErrorKind};
use std::os::fd::RawFd;
use std::time::Duration;

/// How many milliseconds a wait lasts at most between two looks at a flag.
pub const STEP: u64 = 50;

/// Whether a descriptor takes bytes. A pipe that is ready takes 4,096 of them without blocking (pipe(7)).
#[derive(Drop)]
pub struct Readiness {
    fd: RawFd,
    poll: Poll,
    events: Events,
}

impl Readiness {
    /// The readiness of a descriptor; none where the system refuses to watch it, as it does a regular file, which is always ready.
    pub fn of(rt: &HostRuntime, fd: RawFd) -> io::Result<Option<Readiness>> {
        let poll = Poll::new(rt)?;
        match poll
            .registry()
            .register(&mut SourceFd(&fd), Token(0), Interest::WRITABLE)
        {
            Ok(()) => {}
            Err(error) if error.kind() == ErrorKind::PermissionDenied => return Ok(None),
            Err(error) => return Err(error),
        }
        Ok(Some(Readiness {
            fd,
            poll,
            events: Events::with_capacity(rt.alloc(), 1)?,
        }))
    }

    /// Waits, for at most so many milliseconds, until the descriptor takes bytes or can take none any more, and says whether it came
    /// to that.
    pub fn wait(&mut self, limit: u64) -> io::Result<bool> {
        self.poll
            .registry()
            .reregister(&mut SourceFd(&self.fd), Token(0), Interest::WRITABLE)?;
        self.poll
            .poll(&mut self.events, Some(Duration::from_millis(limit)))?;
        Ok(!self.events.is_empty())
    }
}
