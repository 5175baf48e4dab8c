// The errors of the database, with the numbers of its refusals.
ghost use Rattle.std.specs.Prelude.{◌≡◌};
ghost use Rattle.song_db.specs.Refusal.{number_of};
ghost use Rattle.song_db.specs.declared.refusal.SongDbError.TheVariants.{NoMemory};
ghost use Rattle.song_db.specs.declared.refusal.PushError.TheVariants.{NoMemory as OutOfMemory};

use std::alloc::{AllocError, AllocFailed};
use thiserror::Error;

/// Why a call of `SongDb` was refused. What it was called on stays as it was.
#[derive(Clone, Copy, Debug, PartialEq, Eq, Error)]
pub enum SongDbError {
    /// No song has the URI, or no song stands below it.
    #[error("no such file or directory")]
    NoSuchUri,
    /// The limit on rows would be passed.
    #[error("too many songs")]
    DbFull,
    #[error("out of memory")]
    NoMemory,
}

impl SongDbError {
    /// The number of the refusal: 17, 18 or 7.
    pub fn number(self) -> u8
        ensures { result ≡ number_of self }
    {
        match self {
            SongDbError::NoSuchUri => 17,
            SongDbError::DbFull => 18,
            SongDbError::NoMemory => 7,
        }
    }
}

impl From<AllocError> for SongDbError {
    ghost from_gives = { λ _ e. e ≡ NoMemory };

    fn from(_error: AllocError) -> Self {
        SongDbError::NoMemory
    }
}

impl<T: Drop> From<AllocFailed<T>> for SongDbError {
    ghost from_gives = { λ _ e. e ≡ NoMemory };

    fn from(_error: AllocFailed<T>) -> Self {
        SongDbError::NoMemory
    }
}

/// Why `SongDb::push_last` was refused. The songs stay as they were.
#[derive(Clone, Copy, Debug, PartialEq, Eq, Error)]
pub enum PushError {
    /// The URI doesn't stand behind that of the last row.
    #[error("the rows don't rise")]
    NotRising,
    /// The limit on rows would be passed.
    #[error("too many songs")]
    Full,
    #[error("out of memory")]
    NoMemory,
}

impl From<AllocError> for PushError {
    ghost from_gives = { λ _ e. e ≡ OutOfMemory };

    fn from(_error: AllocError) -> Self {
        PushError::NoMemory
    }
}

impl<T: Drop> From<AllocFailed<T>> for PushError {
    ghost from_gives = { λ _ e. e ≡ OutOfMemory };

    fn from(_error: AllocFailed<T>) -> Self {
        PushError::NoMemory
    }
}
