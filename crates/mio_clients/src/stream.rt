// What a client's connection can do.
ghost use Rattle.std.specs.Prelude.{◌≡◌, ◌≢◌, ℕ, ◌≤◌, List, [], length, drop, Option, None, Bool, true, false, Ok, IfOk, IfErr, OnErr};
ghost use Rattle.std.specs.Io.{ReadsAtMost};
ghost use Rattle.std.specs.Io.KnownBytes.{Keeps, ReadConsumes, append_known};
ghost use Rattle.std.specs.IoError.{error_kind};

use client_session::Session;
use std::io::{self, ErrorKind};

/// A client's connection. No call waits: where it would, it answers `WouldBlock`.
///
/// A call that answers another error than `WouldBlock` or `Interrupted` has failed, and the client is let go of.
pub trait Stream: Drop {
    // The bytes that reads will give from here on, and those that it took, where they are known.
    ghost remaining: { Self → Option (List ℕ) } = { λ _. None };

    ghost contents: { Self → Option (List ℕ) } = { λ _. None };
    // Whether a call has failed.
    ghost failed: { Self → Bool };
    // Whether it came over a network.
    ghost remote: { Self → Bool } = { λ _. false };

    /// Whether it came over a network: its client may be gone without a word.
    fn is_remote(&self) -> bool
        ensures { result ≡ remote self.now };

    /// Reads into the buffer, as `std::io::Read::read` does: 0 where the client sends nothing more. It writes nothing.
    fn read(&mut self, buf: &mut [u8]) -> io::Result<usize>
        ensures bound { ReadsAtMost result buf.new }
        ensures bytes { ReadConsumes (remaining self.old) (remaining self.new) result buf.new }
        ensures unwritten { Keeps (contents self.old) (contents self.new) }
        ensures fault { IfErr result (λ e. error_kind e ≢ ErrorKind.WouldBlock → error_kind e ≢ ErrorKind.Interrupted →
            failed self.new ≡ true) };

    /// Sends what it takes of the queued bytes by one write, as `Session::send_some` does. It reads nothing.
    fn send(&mut self, session: &mut Session) -> io::Result<usize>
        ensures in_order { Keeps (append_known (contents self.old) session.old.queued)
            (append_known (contents self.new) session.new.queued) }
        ensures sent { IfOk result (λ n. (n ≤ length session.old.queued)
            × (session.new ≡ record session.old { queued = drop n session.old.queued })) }
        ensures nothing { session.old.queued ≡ [] → result ≡ Ok 0 }
        ensures err { OnErr result (session.new ≡ session.old) }
        ensures unread { Keeps (remaining self.old) (remaining self.new) }
        ensures fault { IfErr result (λ e. error_kind e ≢ ErrorKind.WouldBlock → error_kind e ≢ ErrorKind.Interrupted →
            failed self.new ≡ true) };
}
