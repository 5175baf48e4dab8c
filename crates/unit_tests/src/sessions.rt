// `client_session`: a stream that fails, and the text of a refusal.
use crate::assertions::{equal, same_bytes, same_text};
use client_session::{Session, SessionError};
use std::io::{self, Write};
use std::process::Abort;
use std::test::Fail;

/// A stream that takes up to three bytes with each write, and fails at the write of this number.
#[derive(Drop)]
struct SlowStream {
    taken: Vec<u8>,
    writes: usize,
    failing: usize,
}

impl Write for SlowStream {
    fn write(&mut self, buf: &[u8]) -> io::Result<usize> {
        self.writes = self.writes.saturating_add(1);
        if self.writes == self.failing {
            return Err(io::ErrorKind::WouldBlock.into());
        }
        let count = buf.len().min(3);
        self.taken.extend_from_slice(&buf[..count])?;
        Ok(count)
    }

    fn flush(&mut self) -> io::Result<()> {
        Ok(())
    }
}

// The next functions have no contract: the prover then reads the long ones of the session here alone, and in no test.

fn queue(session: &mut Session, bytes: &[u8]) -> Result<(), SessionError> {
    session.queue(bytes)
}

/// Sends some, and tells whether that failed.
fn fails_to_send(session: &mut Session, stream: &mut SlowStream) -> bool {
    session.send_some(stream).is_err()
}

/// How many of six sends fail; then all is queued still.
fn failures(rt: &impl Abort, session: &mut Session, stream: &mut SlowStream) -> usize {
    let mut count = 0usize;
    for _ in 0..6 {
        let before = session.queued_len();
        if fails_to_send(session, stream) {
            equal(rt, session.queued_len(), before);
            count = count.saturating_add(1);
        }
    }
    count
}

/// The session sends all over this stream. One send fails, or none where the stream fails at no write.
fn sends_all(
    rt: &impl Abort,
    session: &mut Session,
    stream: &mut SlowStream,
) -> Result<(), SessionError> {
    queue(session, b"OK MP")?;
    let first = failures(rt, session, stream);
    queue(session, b"D 0.23.0\nOK\n")?;
    let second = failures(rt, session, stream);
    let count = first.saturating_add(second);
    equal(rt, count, usize::from(stream.failing != 0));
    same_bytes(rt, stream.taken.as_slice(), b"OK MPD 0.23.0\nOK\n");
    Ok(())
}

#[test]
fn slow_stream_takes_all(rt: HostRuntime) -> Result<(), Fail> {
    for failing in 0..7 {
        let mut stream = SlowStream {
            taken: Vec::with_capacity(rt.alloc(), 17)?,
            writes: 0,
            failing,
        };
        let mut session = Session::new(rt.alloc());
        sends_all(&rt, &mut session, &mut stream)?;
    }
    Ok(())
}

#[test]
fn printed_refusal(rt: HostRuntime) -> Result<(), Fail> {
    let text = format!(in rt.alloc(); "{}", SessionError::OutputTooLong)?;
    same_text(&rt, text.as_str(), "output too long");
    Ok(())
}
