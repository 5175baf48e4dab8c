// A client's stream, of which nothing is read where it is none of a client of MPD.
ghost use Rattle.std.specs.Prelude.{◌≡◌, ◌≢◌, ◌⊎◌, ◌<◌, ◌||◌, [], length, false, true, IfErr, IsErr};
ghost use Rattle.std.specs.Io.{ReadsAtMost};
ghost use Rattle.std.specs.Io.KnownBytes.{Keeps, ReadConsumes, prepend_known};
ghost use Rattle.std.specs.IoError.{error_kind};
ghost use Rattle.http_guard.specs.Guarded.{known_behind_guard, IsKnownShutOut, IsShutOut};

use crate::first_line::{Verdict, judge};
use bytes::BytesMut;
use client_session::Session;
use mio_clients::Stream;
use std::alloc::Global;
use std::io::{self, ErrorKind, Read};

/// Whether a stream is let in.
#[derive(Clone, Copy, Debug, PartialEq, Eq)]
pub(crate) enum Passage {
    /// That isn't known yet: its first line has not ended.
    Looking,
    /// It is let in.
    Open,
    /// It is shut out.
    Shut,
}

/// A stream whose reads give what the stream below gives, unless it begins as a request of HTTP does, or with a control character: then
/// they give nothing, and fail.
///
/// The bytes of the first line are held back until it is known: until it ends, begins with a method, or is too long for a line.
#[derive(Drop)]
pub struct Guarded<S> {
    pub(crate) stream: S,
    // What was read below and is not given yet.
    held: BytesMut,
    passage: Passage,
    // A read has failed by itself, and not by the stream below.
    has_failed: bool,
}

impl<S> Guarded<S> {
    /// A stream of which nothing was read yet.
    pub fn new(alloc: Global, stream: S) -> Self
        ensures stream { result.stream ≡ stream }
        ensures held { result.held.items ≡ [] }
        ensures passage { result.passage ≡ Passage.Looking }
    {
        Guarded {
            stream,
            held: BytesMut::new(alloc),
            passage: Passage::Looking,
            has_failed: false,
        }
    }

    // A read that fails by itself.
    fn failed(&mut self, kind: ErrorKind) -> io::Error
        ensures told { self.new ≡ record self.old { has_failed = true } }
        ensures kind { error_kind result ≡ kind }
    {
        self.has_failed = true;
        io::Error::from(kind)
    }
}

impl<S: Stream> Guarded<S> {
    // Gives what is held, or else what the stream below gives.
    fn give(&mut self, buf: &mut [u8]) -> io::Result<usize>
        requires { self.old.passage ≡ Passage.Open }
        ensures bound { ReadsAtMost result buf.new }
        ensures bytes { ReadConsumes (prepend_known self.old.held.items (S.remaining self.old.stream))
            (prepend_known self.new.held.items (S.remaining self.new.stream)) result buf.new }
        ensures passage { self.new.passage ≡ Passage.Open }
        ensures own { self.new.has_failed ≡ self.old.has_failed }
        ensures unwritten { Keeps (S.contents self.old.stream) (S.contents self.new.stream) }
        ensures fault { IfErr result (λ e. error_kind e ≢ ErrorKind.WouldBlock → error_kind e ≢ ErrorKind.Interrupted →
            S.failed self.new.stream ≡ true) }
    {
        if self.held.is_empty() {
            return self.stream.read(buf);
        }
        let mut held = self.held.as_slice();
        let count = held.len().min(buf.len());
        let _read = held.read(buf);
        self.held.advance(count);
        Ok(count)
    }

    // Lets the stream in, and gives what is held.
    fn open(&mut self, buf: &mut [u8]) -> io::Result<usize>
        ensures bound { ReadsAtMost result buf.new }
        ensures bytes { ReadConsumes (prepend_known self.old.held.items (S.remaining self.old.stream))
            (prepend_known self.new.held.items (S.remaining self.new.stream)) result buf.new }
        ensures passage { self.new.passage ≡ Passage.Open }
        ensures own { self.new.has_failed ≡ self.old.has_failed }
        ensures unwritten { Keeps (S.contents self.old.stream) (S.contents self.new.stream) }
        ensures fault { IfErr result (λ e. error_kind e ≢ ErrorKind.WouldBlock → error_kind e ≢ ErrorKind.Interrupted →
            S.failed self.new.stream ≡ true) }
    {
        self.passage = Passage::Open;
        self.give(buf)
    }

    // Reads on in the first line. Where that doesn't tell yet, the caller reads again.
    fn look(&mut self, buf: &mut [u8]) -> io::Result<usize>
        requires looking { self.old.passage ≡ Passage.Looking }
        requires room { 0 < length buf.old }
        ensures bound { ReadsAtMost result buf.new }
        ensures bytes { ReadConsumes (known_behind_guard self.old.passage self.old.held.items (S.remaining self.old.stream))
            (known_behind_guard self.new.passage self.new.held.items (S.remaining self.new.stream)) result buf.new }
        ensures shut { IsKnownShutOut self.old.held.items (S.remaining self.old.stream) → IsErr result }
        ensures own { IfErr result (λ e. self.old.has_failed ≡ false → self.new.has_failed ≡ true →
            (error_kind e ≡ ErrorKind.OutOfMemory) ⊎ (self.new.passage ≡ Passage.Shut)) }
        ensures unwritten { Keeps (S.contents self.old.stream) (S.contents self.new.stream) }
        ensures fault { IfErr result (λ e. error_kind e ≢ ErrorKind.WouldBlock → error_kind e ≢ ErrorKind.Interrupted →
            self.new.has_failed || S.failed self.new.stream ≡ true) }
    {
        if self.held.reserve(buf.len()).is_err() {
            return Err(self.failed(ErrorKind::OutOfMemory));
        }
        let count = self.stream.read(buf)?;
        match self.held.extend_from_slice(&buf[..count]) {
            Ok(()) => {}
            Err(_) => unreachable!(),
        }
        match judge(self.held.as_slice()) {
            Verdict::ShutOut => {
                self.passage = Passage::Shut;
                Err(self.failed(ErrorKind::InvalidData))
            }
            Verdict::LetIn => self.open(buf),
            // The stream is at its end, and what it holds ends no line.
            Verdict::Unknown if count == 0 => self.open(buf),
            Verdict::Unknown => Err(io::Error::from(ErrorKind::Interrupted)),
        }
    }
}

impl<S: Stream> Stream for Guarded<S> {
    ghost use Rattle.std.specs.Prelude.{◌||◌};
    ghost use Rattle.http_guard.specs.Guarded.{known_behind_guard};

    ghost remaining = { λ g. known_behind_guard g.passage g.held.items (S.remaining g.stream) };

    ghost contents = { λ g. S.contents g.stream };

    ghost failed = { λ g. g.has_failed || S.failed g.stream };

    ghost remote = { λ g. S.remote g.stream };

    fn is_remote(&self) -> bool {
        self.stream.is_remote()
    }

    /// A read of a stream of HTTP into a buffer with room gives no byte and no end: it fails, or is to be made again.
    fn read(&mut self, buf: &mut [u8]) -> io::Result<usize>
        ensures bound { ReadsAtMost result buf.new }
        ensures bytes { ReadConsumes (known_behind_guard self.old.passage self.old.held.items (S.remaining self.old.stream))
            (known_behind_guard self.new.passage self.new.held.items (S.remaining self.new.stream)) result buf.new }
        ensures shut { IsShutOut self.old.passage self.old.held.items (S.remaining self.old.stream) → 0 < length buf.old → IsErr result }
        // It fails by itself only of a stream that is shut out, or where memory is refused.
        ensures own { IfErr result (λ e. self.old.has_failed ≡ false → self.new.has_failed ≡ true →
            (error_kind e ≡ ErrorKind.OutOfMemory) ⊎ (self.new.passage ≡ Passage.Shut)) }
        ensures unwritten { Keeps (S.contents self.old.stream) (S.contents self.new.stream) }
        ensures fault { IfErr result (λ e. error_kind e ≢ ErrorKind.WouldBlock → error_kind e ≢ ErrorKind.Interrupted →
            self.new.has_failed || S.failed self.new.stream ≡ true) }
    {
        match self.passage {
            Passage::Open => self.give(buf),
            Passage::Shut => Err(self.failed(ErrorKind::InvalidData)),
            Passage::Looking if buf.is_empty() => Ok(0),
            Passage::Looking => self.look(buf),
        }
    }

    fn send(&mut self, session: &mut Session) -> io::Result<usize> {
        self.stream.send(session)
    }
}
