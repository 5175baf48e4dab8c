// Why a session was closed.
ghost use Rattle.std.specs.Prelude.{◌≡◌};
ghost use Rattle.client_session.specs.Refusal.{number_of};
ghost use Rattle.client_session.specs.declared.refusal.SessionError.TheVariants.{NoMemory};

use std::alloc::{AllocError, AllocFailed};
use thiserror::Error;

/// Why a session was closed. From then on it takes and sends nothing more.
#[derive(Clone, Copy, Debug, PartialEq, Eq, Error)]
pub enum SessionError {
    /// Memory for the input, for a request or for the output was refused.
    #[error("out of memory")]
    NoMemory,
    /// A line has more than `LINE_LIMIT` bytes before its newline.
    #[error("line too long")]
    LineTooLong,
    /// A command list has more than `COMMAND_LIMIT` commands, or more than `LIST_LIMIT` bytes.
    #[error("command list too long")]
    ListTooLong,
    /// More than `OUTPUT_LIMIT` bytes would be queued.
    #[error("output too long")]
    OutputTooLong,
}

impl SessionError {
    /// The number of the refusal: 7, 39, 40 or 41.
    pub fn number(self) -> u8
        ensures { result ≡ number_of self }
    {
        match self {
            SessionError::NoMemory => 7,
            SessionError::LineTooLong => 39,
            SessionError::ListTooLong => 40,
            SessionError::OutputTooLong => 41,
        }
    }
}

impl From<AllocError> for SessionError {
    ghost from_gives = { λ _ e. e ≡ NoMemory };

    fn from(_error: AllocError) -> Self {
        SessionError::NoMemory
    }
}

impl<T: Drop> From<AllocFailed<T>> for SessionError {
    ghost from_gives = { λ _ e. e ≡ NoMemory };

    fn from(_error: AllocFailed<T>) -> Self {
        SessionError::NoMemory
    }
}
