// Where clients connect.
ghost use Rattle.std.specs.Prelude.{◌≡◌, ℕ, Option, None, IfSome};

use daemon_core::ClockTime;
use std::io;

/// Where clients connect.
pub trait Listener<S>: Drop {
    // The time that it told last, where that is known.
    ghost time_told: { Self → Option ℕ } = { λ _. None };

    /// The next connection; `WouldBlock` where none waits.
    fn accept(&mut self) -> io::Result<S>;

    /// The time, in milliseconds since some moment: it is asked once in a turn of the loop, behind the wait, and never goes back.
    fn now(&mut self) -> u64
        ensures told { IfSome (time_told self.new) (λ time. result ≡ time) };

    /// What a clock tells of the daemon, where the daemon goes by one: it is asked once in a second of `now`, and again where that was
    /// refused.
    fn clock(&mut self) -> Option<ClockTime>;

    /// Is told that the client of this number gave way to another, after it was silent for so many milliseconds.
    fn gave_way(&mut self, client: u64, silence: u64);
}
