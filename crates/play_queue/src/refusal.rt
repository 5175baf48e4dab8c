// Why calls of this crate are refused.
ghost use Rattle.std.specs.Prelude.{◌≡◌};
ghost use Rattle.play_queue.specs.Refusal.{number_of};
ghost use Rattle.play_queue.specs.declared.refusal.QueueError.TheVariants.{NoMemory};
ghost use Rattle.play_queue.specs.declared.refusal.PartError.{PartError};

use std::alloc::{AllocError, AllocFailed};
use thiserror::Error;

/// Why a call of `Queue` was refused, or a relative place. What it was called on stays as it was.
#[derive(Clone, Copy, Debug, PartialEq, Eq, Error)]
pub enum QueueError {
    /// A position is past the end of the queue, or a range ends before it begins.
    #[error("bad song index")]
    BadIndex,
    /// No entry has the id.
    #[error("no such song")]
    NoSuchSong,
    /// More entries than the queue may have.
    #[error("queue is full")]
    QueueFull,
    /// Fewer ids are left than entries are added.
    #[error("ids are spent")]
    IdsSpent,
    /// A relative place without a current song.
    #[error("no current song")]
    NoCurrentSong,
    #[error("out of memory")]
    NoMemory,
}

impl QueueError {
    /// The number of the refusal: 22 to 25, 55, or 7.
    pub fn number(self) -> u8
        ensures { result ≡ number_of self }
    {
        match self {
            QueueError::BadIndex => 22,
            QueueError::NoSuchSong => 23,
            QueueError::QueueFull => 24,
            QueueError::IdsSpent => 25,
            QueueError::NoCurrentSong => 55,
            QueueError::NoMemory => 7,
        }
    }
}

impl From<AllocError> for QueueError {
    ghost from_gives = { λ _ e. e ≡ NoMemory };

    fn from(_error: AllocError) -> Self {
        QueueError::NoMemory
    }
}

/// Why `QueueBuilder` refused a part of a saved queue. The builder stays as it was.
#[derive(Clone, Copy, Debug, PartialEq, Eq, Error)]
pub enum PartError {
    /// The version isn't from 1 to 2147483647.
    #[error("bad version")]
    BadVersion,
    /// The next id isn't from 1 to 2147483648.
    #[error("bad next id")]
    BadNextId,
    /// The id of an entry is 0, isn't below the next id, or is that of another entry.
    #[error("bad id")]
    BadId,
    /// The stamp of an entry isn't from 1 to the version.
    #[error("bad stamp")]
    BadStamp,
    /// More entries than the queue may have.
    #[error("queue is full")]
    QueueFull,
    #[error("out of memory")]
    NoMemory,
}

impl From<AllocError> for PartError {
    ghost from_gives = { λ _ e. e ≡ PartError.NoMemory };

    fn from(_error: AllocError) -> Self {
        PartError::NoMemory
    }
}

impl<T: Drop> From<AllocFailed<T>> for PartError {
    ghost from_gives = { λ _ e. e ≡ PartError.NoMemory };

    fn from(_error: AllocFailed<T>) -> Self {
        PartError::NoMemory
    }
}
