// What a clock tells, and when the database was last updated by it.
ghost use Rattle.std.specs.Prelude.{◌≡◌};
ghost use Rattle.machine_core.specs.Database.{updated_at};
ghost use Rattle.machine_core.specs.State.{told_time, untold};

use crate::machine::Machine;

/// What a clock tells of the daemon. Before one has told anything, all is 0.
#[derive(Clone, Copy, Debug, PartialEq, Eq)]
pub struct ClockTime {
    /// When the daemon began: seconds since the beginning of 1970, Universal Time.
    pub began: u64,
    /// For how many seconds it has run, by a clock that nobody sets.
    pub uptime: u64,
    /// The time of day: seconds since the beginning of 1970, Universal Time.
    pub now: u64,
    /// Whether nobody has read the output for ten seconds, though there is something to play.
    pub is_unread: bool,
}

impl ClockTime {
    /// No clock has told anything.
    pub fn untold() -> ClockTime
        ensures { result ≡ untold }
    {
        ClockTime {
            began: 0,
            uptime: 0,
            now: 0,
            is_unread: false,
        }
    }
}

impl Machine {
    /// A clock tells the time. Nothing that is saved changes.
    pub fn set_clock(&mut self, time: ClockTime)
        ensures { self.new ≡ told_time time self.old }
    {
        self.clock = time;
    }

    /// What a clock told last.
    pub fn clock(&self) -> ClockTime
        ensures { result ≡ self.now.clock }
    {
        self.clock
    }

    // When the database was last updated.
    pub(crate) fn updated_at(&self) -> u64
        ensures { result ≡ updated_at self.now }
    {
        if self.job.number == 0 {
            self.clock.began
        } else {
            self.job.read
        }
    }
}
