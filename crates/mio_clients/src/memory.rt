//! Streams, a listener and readiness in memory.
ghost use Rattle.std.specs.Prelude.{◌≡◌, ◌≢◌, Some, true, IfErr};

use crate::listener::Listener;
use crate::ready::{Interest, Ready, Token};
use crate::stream::Stream;
use client_session::Session;
use daemon_core::ClockTime;
use std::alloc::{AllocError, Global};
use std::collections::VecDeque;
use std::io::{self, ErrorKind, Read, Write};
use std::time::Duration;

/// A stream of two halves: what is read, and what is written.
#[derive(Debug, Drop)]
pub struct MemStream<R, W> {
    pub input: R,
    pub output: W,
    /// A call has failed.
    pub failed: bool,
    /// It is as one that came over a network.
    pub remote: bool,
}

impl<R, W> MemStream<R, W> {
    pub fn new(input: R, output: W) -> Self {
        MemStream {
            input,
            output,
            failed: false,
            remote: false,
        }
    }
}

// Whether an error says that a stream has failed.
pub(crate) fn is_fault(kind: ErrorKind) -> bool
    ensures { kind ≢ ErrorKind.WouldBlock → kind ≢ ErrorKind.Interrupted → result ≡ true }
{
    !matches!(kind, ErrorKind::WouldBlock | ErrorKind::Interrupted)
}

impl<R: Read + Drop, W: Write + Drop> Stream for MemStream<R, W> {
    ghost remaining = { λ s. R.remaining s.input };

    ghost contents = { λ s. W.contents s.output };

    ghost failed = { λ s. s.failed };

    ghost remote = { λ s. s.remote };

    fn is_remote(&self) -> bool {
        self.remote
    }

    fn read(&mut self, buf: &mut [u8]) -> io::Result<usize> {
        match self.input.read(buf) {
            Ok(count) => Ok(count),
            Err(error) => {
                self.failed = is_fault(error.kind());
                Err(error)
            }
        }
    }

    fn send(&mut self, session: &mut Session) -> io::Result<usize> {
        match session.send_some(&mut self.output) {
            Ok(count) => Ok(count),
            Err(error) => {
                self.failed = is_fault(error.kind());
                Err(error)
            }
        }
    }
}

/// Clients that wait to connect, and a clock that is set by hand.
#[derive(Drop)]
pub struct MemListener<S> {
    waiting: VecDeque<S>,
    now: u64,
    yielded: Option<(u64, u64)>,
}

impl<S> MemListener<S> {
    pub fn new(alloc: Global) -> Self {
        MemListener {
            waiting: VecDeque::new(alloc),
            now: 0,
            yielded: None,
        }
    }
}

impl<S: Drop> MemListener<S> {
    /// Has so many milliseconds pass.
    pub fn pass_time(&mut self, milliseconds: u64) {
        self.now = self.now.saturating_add(milliseconds);
    }

    /// The client that gave way last since this was asked, and for how many milliseconds it had sent nothing.
    pub fn take_yielded(&mut self) -> Option<(u64, u64)> {
        self.yielded.take()
    }

    /// Has a client wait.
    pub fn connect(&mut self, stream: S) -> Result<(), AllocError> {
        self.waiting.push_back(stream)?;
        Ok(())
    }
}

impl<S: Drop> Listener<S> for MemListener<S> {
    ghost time_told = { λ l. Some l.now };

    fn accept(&mut self) -> io::Result<S> {
        match self.waiting.pop_front() {
            Some(stream) => Ok(stream),
            None => Err(io::Error::from(ErrorKind::WouldBlock)),
        }
    }

    fn now(&mut self) -> u64 {
        self.now
    }

    fn clock(&mut self) -> Option<ClockTime> {
        None
    }

    fn gave_way(&mut self, client: u64, silence: u64) {
        self.yielded = Some((client, silence));
    }
}

/// Tells in each turn that all is ready, which any stream may be told to be.
#[derive(Debug, Drop)]
pub struct MemReady {
    // How many keys there were, the next to be told of, and whether the listener was.
    keys: usize,
    next: usize,
    told: bool,
}

impl MemReady {
    pub fn new() -> Self {
        MemReady {
            keys: 0,
            next: 0,
            told: true,
        }
    }
}

impl<S: Stream> Ready<S> for MemReady {
    fn register(&mut self, _stream: &mut S, key: usize) -> io::Result<()> {
        self.keys = self.keys.max(key.saturating_add(1));
        Ok(())
    }

    fn watch(&mut self, _stream: &mut S, _key: usize, _interest: Interest) -> io::Result<()> {
        Ok(())
    }

    fn deregister(&mut self, _stream: &mut S) -> io::Result<()> {
        Ok(())
    }

    fn wait(&mut self, _limit: Duration) -> io::Result<()> {
        self.next = 0;
        self.told = false;
        Ok(())
    }

    fn next(&mut self) -> Option<Token> {
        if !self.told {
            self.told = true;
            return Some(Token::Listener);
        }
        if self.next >= self.keys {
            return None;
        }
        let key = self.next;
        self.next = key.saturating_add(1);
        Some(Token::Client(key))
    }
}
