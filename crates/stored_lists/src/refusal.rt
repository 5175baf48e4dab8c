// Why calls of this crate are refused.
ghost use Rattle.std.specs.Prelude.{◌≡◌};
ghost use Rattle.stored_lists.specs.Refusal.{number_of};
ghost use Rattle.stored_lists.specs.declared.refusal.ListsError.TheVariants.{NoMemory};
ghost use Rattle.stored_lists.specs.declared.refusal.PartError.{PartError};

use std::alloc::{AllocError, AllocFailed};
use thiserror::Error;

/// Why a call of `Lists` was refused. What it was called on stays as it was.
#[derive(Clone, Copy, Debug, PartialEq, Eq, Error)]
pub enum ListsError {
    /// A position is past the end of the playlist, or a range ends before it begins.
    #[error("bad song index")]
    BadIndex,
    /// The name is empty, too long, or has a `/` or a control character.
    #[error("bad playlist name")]
    BadName,
    #[error("no such playlist")]
    NoSuchList,
    #[error("playlist already exists")]
    ListExists,
    /// The limit on playlists or on entries would be passed.
    #[error("too many playlists or entries")]
    ListsFull,
    #[error("out of memory")]
    NoMemory,
}

impl ListsError {
    /// The number of the refusal: 22, 26 to 29, or 7.
    pub fn number(self) -> u8
        ensures { result ≡ number_of self }
    {
        match self {
            ListsError::BadIndex => 22,
            ListsError::BadName => 26,
            ListsError::NoSuchList => 27,
            ListsError::ListExists => 28,
            ListsError::ListsFull => 29,
            ListsError::NoMemory => 7,
        }
    }
}

impl From<AllocError> for ListsError {
    ghost from_gives = { λ _ e. e ≡ NoMemory };

    fn from(_error: AllocError) -> Self {
        ListsError::NoMemory
    }
}

impl<T: Drop> From<AllocFailed<T>> for ListsError {
    ghost from_gives = { λ _ e. e ≡ NoMemory };

    fn from(_error: AllocFailed<T>) -> Self {
        ListsError::NoMemory
    }
}

/// Why `Lists::push_last` was refused. The playlists stay as they were.
#[derive(Clone, Copy, Debug, PartialEq, Eq, Error)]
pub enum PartError {
    /// The name is empty, too long, or has a `/` or a control character.
    #[error("bad playlist name")]
    BadName,
    /// The name isn't above the names of all other playlists.
    #[error("playlists out of order")]
    NotRising,
    #[error("too many playlists")]
    TooManyLists,
    /// All playlists together would have too many entries.
    #[error("too many entries")]
    TooManyEntries,
    #[error("out of memory")]
    NoMemory,
}

impl From<AllocError> for PartError {
    ghost from_gives = { λ _ e. e ≡ PartError.NoMemory };

    fn from(_error: AllocError) -> Self {
        PartError::NoMemory
    }
}
