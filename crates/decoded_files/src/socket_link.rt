// A connection over a Unix socket.
ghost use Rattle.std.specs.Prelude.{◌≤◌, ℕ, [], length, None, IfOk};

use crate::{DecoderLink, LinkFault};
use mio::net::UnixStream as Connecting;
use std::io::{self, ErrorKind, Read, Write};
use std::net::Shutdown;
use std::os::unix::net::UnixStream;
use std::thread;
use std::time::{Duration, Instant};

/// How many milliseconds a request and its answer may take together.
const MOST_WAIT: u64 = 2_000;

/// How often a decoder whose queue of connections is full is tried, and how many milliseconds lie between.
const TRIES: u32 = 200;

const PAUSE: u64 = 10;

/// A connection to a decoder that listens at a Unix socket.
///
/// No contract can say what comes over it, so the decoder's honesty is a premise that no code supplies.
#[derive(Drop)]
pub struct SocketLink<'a> {
    rt: &'a HostRuntime,
    stream: UnixStream,
    // When the request was begun.
    begun: Option<Instant>,
}

impl<'a> SocketLink<'a> {
    /// Connects to the decoder whose socket lies at this path. One whose queue of connections is full is tried again.
    pub fn connect(rt: &'a HostRuntime, socket: &str) -> io::Result<Self> {
        for _ in 0..TRIES {
            match Connecting::connect(rt, socket) {
                Ok(stream) => {
                    let stream = UnixStream::from(stream);
                    stream.set_nonblocking(false)?;
                    return Ok(SocketLink {
                        rt,
                        stream,
                        begun: None,
                    });
                }
                Err(error) if error.kind() == ErrorKind::WouldBlock => {
                    thread::sleep(rt, Duration::from_millis(PAUSE));
                }
                Err(error) => return Err(error),
            }
        }
        Err(io::Error::from(ErrorKind::TimedOut))
    }

    // How long the request may still take.
    fn time_left(&self) -> Result<Duration, LinkFault> {
        let Some(begun) = self.begun else {
            return Err(LinkFault::Ended);
        };
        let Ok(taken) = begun.elapsed(self.rt) else {
            return Err(LinkFault::Ended);
        };
        match Duration::from_millis(MOST_WAIT).checked_sub(taken) {
            Some(left) if !left.is_zero() => Ok(left),
            _ => Err(LinkFault::Silent),
        }
    }

    // Sends some bytes, and says how many.
    fn send_some(&mut self, bytes: &[u8]) -> Result<usize, LinkFault>
        ensures { IfOk result (λ n. n ≤ length bytes.now) }
    {
        let left = self.time_left()?;
        if self.stream.set_write_timeout(Some(left)).is_err() {
            return Err(LinkFault::Ended);
        }
        counted(self.stream.write(bytes))
    }

    // Receives some bytes, and says how many.
    fn receive_some(&mut self, buffer: &mut [u8]) -> Result<usize, LinkFault>
        ensures { IfOk result (λ n. n ≤ length buffer.old) }
    {
        let left = self.time_left()?;
        if self.stream.set_read_timeout(Some(left)).is_err() {
            return Err(LinkFault::Ended);
        }
        counted(self.stream.read(buffer))
    }
}

// How many bytes a call took or gave: none where a signal came between; an end is a fault.
fn counted(done: io::Result<usize>) -> Result<usize, LinkFault>
    ensures { (most : ℕ) → IfOk done (λ n. n ≤ most) → IfOk result (λ n. n ≤ most) }
{
    match done {
        Ok(0) => Err(LinkFault::Ended),
        Ok(count) => Ok(count),
        Err(error) if error.kind() == ErrorKind::Interrupted => Ok(0),
        Err(error) if error.kind() == ErrorKind::WouldBlock => Err(LinkFault::Silent),
        Err(_) => Err(LinkFault::Ended),
    }
}

impl DecoderLink for SocketLink<'_> {
    ghost told = { λ _ _. None };

    ghost opened = { λ _. None };

    ghost coming = { λ _. [] };

    ghost honest = { λ _. ⊥ };

    fn send(&mut self, request: &[u8]) -> Result<(), LinkFault> {
        self.begun = Instant::now(self.rt).ok();
        let mut sent = 0;
        'sent: for _ in 0..u64::MAX {
            if sent == request.len() {
                return Ok(());
            }
            sent += self.send_some(&request[sent..])?;
        }
        Err(LinkFault::Silent)
    }

    fn receive(&mut self, buffer: &mut [u8]) -> Result<(), LinkFault> {
        let mut received = 0;
        'received: for _ in 0..u64::MAX {
            if received == buffer.len() {
                return Ok(());
            }
            received += self.receive_some(&mut buffer[received..])?;
        }
        Err(LinkFault::Silent)
    }

    fn close(&mut self) {
        let _ended = self.stream.shutdown(Shutdown::Both);
    }
}
