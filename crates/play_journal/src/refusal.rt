// Why a journal refuses.
ghost use Rattle.std.specs.Prelude.{◌≡◌};
ghost use Rattle.play_journal.specs.declared.refusal.JournalError.TheVariants.{NoMemory, DiskFault};

use disk_model::DiskError;
use std::alloc::{AllocError, AllocFailed};
use thiserror::Error;

/// What a journal refuses.
#[derive(Clone, Copy, Debug, PartialEq, Eq, Error)]
pub enum JournalError {
    /// A journal is made of two empty files alone, and one of these has a byte.
    #[error("a journal file is not empty")]
    NotEmpty,
    /// None of the two files is open.
    #[error("no journal")]
    NoJournal,
    /// A file is open and can't be read: the offset in bytes of the field or the gate that is wrong.
    #[error("damaged at byte {0}")]
    Damaged(u64),
    /// A disk failed, in this call or in an earlier one. The journal is spent: open it again.
    #[error("disk fault")]
    DiskFault,
    /// There was no memory. Nothing was written.
    #[error("out of memory")]
    NoMemory,
    /// A record over 2,097,152 bytes, or a snapshot over 4,294,967,295, or a record that finds no room in a group. Nothing was written.
    #[error("too long")]
    TooLong,
    /// A record would have a number past 2^64 - 1, or, where a checkpoint is made, the file has the generation 2^64 - 1. Nothing was
    /// written.
    #[error("record numbers are spent")]
    NumbersSpent,
    /// The file in use has an old layout, to which no record is added: a checkpoint brings the journal to another one. Nothing was
    /// written.
    #[error("old layout")]
    OldLayout,
}

impl JournalError {
    ghost use Rattle.play_journal.specs.Errors.{number_of};

    /// The number of the refusal, by which the daemon reports it.
    pub fn number(self) -> u8
        ensures { result ≡ number_of self }
    {
        match self {
            JournalError::NotEmpty => 3,
            JournalError::NoJournal => 4,
            JournalError::Damaged(_) => 5,
            JournalError::DiskFault => 6,
            JournalError::NoMemory => 7,
            JournalError::TooLong => 8,
            JournalError::NumbersSpent => 49,
            JournalError::OldLayout => 50,
        }
    }
}

impl From<AllocError> for JournalError {
    ghost from_gives = { λ _ e. e ≡ NoMemory };

    fn from(_: AllocError) -> Self {
        JournalError::NoMemory
    }
}

impl<T: Drop> From<AllocFailed<T>> for JournalError {
    ghost from_gives = { λ _ e. e ≡ NoMemory };

    fn from(_: AllocFailed<T>) -> Self {
        JournalError::NoMemory
    }
}

impl From<DiskError> for JournalError {
    ghost from_gives = { λ _ e. e ≡ DiskFault };

    fn from(_: DiskError) -> Self {
        JournalError::DiskFault
    }
}

/// A refusal that hands both disks back.
#[derive(Debug, Drop)]
pub struct Refused<D> {
    /// Why.
    pub error: JournalError,
    /// The disk of file a.
    pub a: D,
    /// The disk of file b.
    pub b: D,
}
