//! How the program ends.
ghost use Rattle.std.specs.Prelude.{◌≡◌, ◌↔◌, IsTrue};
ghost use Rattle.mpd_program.specs.Exit.{exit_code, IsSilent};

use crate::console::Status;
use std::alloc::AllocError;
use std::fmt;
use std::io::{Error, ErrorKind};

/// How the program ends.
#[derive(Clone, Copy, Debug, PartialEq, Eq)]
pub enum Exit {
    /// The words of the command line are not those of a task.
    BadArguments,
    /// The configuration can't be read, or is none.
    BadConfiguration,
    /// A listening socket, the loop's readiness or a thread can't be had.
    CannotListen,
    /// The files of a journal that was looked at are no whole journal.
    NotWhole,
    /// The task was begun, and ended so.
    Ended(Status),
}

impl Exit {
    /// Memory was refused before the task was begun: the journal is refused with the number 7.
    pub const NO_MEMORY: Exit = Exit::Ended(Status::JournalRefused(7));

    /// The exit status.
    pub fn code(self) -> u8
        ensures { result ≡ exit_code self }
    {
        match self {
            Exit::BadArguments | Exit::BadConfiguration | Exit::CannotListen => 1,
            Exit::NotWhole => 4,
            Exit::Ended(status) => status.code(),
        }
    }

    /// Whether the program ends without a line on standard error.
    pub fn is_silent(self) -> bool
        ensures { IsTrue result ↔ IsSilent self }
    {
        self == Exit::Ended(Status::Done)
    }

    /// How the program ends where the system refused a call: by want of memory, or else so.
    pub fn unless_memory(self, error: &Error) -> Exit {
        if error.kind() == ErrorKind::OutOfMemory {
            Exit::NO_MEMORY
        } else {
            self
        }
    }
}

/// Memory was refused before the task was begun.
impl From<AllocError> for Exit {
    ghost use Rattle.std.specs.Prelude.{◌≡◌};
    ghost use Rattle.mpd_program.specs.Exit.{no_memory};

    ghost from_gives = { λ _ e. e ≡ no_memory };

    fn from(_error: AllocError) -> Self {
        Exit::NO_MEMORY
    }
}

/// The line on standard error.
impl fmt::Display for Exit {
    fn fmt<W: fmt::Write>(&self, f: &mut fmt::Formatter<W>) -> fmt::Result {
        match self {
            Exit::BadArguments => f.write_str("bad arguments"),
            Exit::BadConfiguration => f.write_str("bad configuration"),
            Exit::CannotListen => f.write_str("cannot listen"),
            Exit::NotWhole => f.write_str("journal not whole"),
            Exit::Ended(status) => status.fmt(f),
        }
    }
}
