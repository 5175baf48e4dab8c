// Why a live stage refuses.
ghost use Rattle.std.specs.Prelude.{◌≡◌};

use play_journal::JournalError;
use thiserror::Error;

/// Why a turn was refused.
#[derive(Clone, Copy, Debug, PartialEq, Eq, Error)]
pub enum LiveError {
    /// A disk failed, in this call or in an earlier one. Nothing more is served: open the files again.
    #[error("broken by a disk fault")]
    Broken,
    /// There was no memory. Nothing was done, but for the checkpoint that may have been due before an event.
    #[error("out of memory")]
    NoMemory,
    /// The last event or the last record has the number 2^64 - 1, or the file to which records go has the last generation, which is
    /// that too, and a checkpoint is wanted. Nothing was done.
    #[error("numbers are spent")]
    NumbersSpent,
}

impl LiveError {
    ghost use Rattle.live_stage.specs.Errors.{number_of};

    /// The number of the refusal, by which the daemon reports it.
    pub fn number(self) -> u8
        ensures { result ≡ number_of self }
    {
        match self {
            LiveError::Broken => 42,
            LiveError::NoMemory => 43,
            LiveError::NumbersSpent => 49,
        }
    }
}

/// Why a live stage was not made or opened.
#[derive(Clone, Copy, Debug, PartialEq, Eq, Error)]
pub enum StartError {
    /// It is made over two empty files alone, and one of these has a byte.
    #[error("a journal file is not empty")]
    NotEmpty,
    /// None of the two files is open.
    #[error("no journal")]
    NoJournal,
    /// The files can't be read: the offset in bytes of the field or the gate that is wrong. It is 8 for a layout that isn't read under
    /// the profile, 32 for a snapshot that spells no state, and the offset of its gate for a record that spells no ops or whose ops do
    /// not apply.
    #[error("damaged at byte {0}")]
    Damaged(u64),
    /// There was no memory.
    #[error("out of memory")]
    NoMemory,
    /// The files are of another layout than the profile writes and have the last generation, 2^64 - 1, so that no checkpoint can bring
    /// them to that.
    #[error("numbers are spent")]
    NumbersSpent,
    /// A disk failed.
    #[error("broken by a disk fault")]
    Broken,
}

impl StartError {
    ghost use Rattle.live_stage.specs.Errors.{start_number_of};

    /// The number of the refusal, by which the daemon reports it.
    pub fn number(self) -> u8
        ensures { result ≡ start_number_of self }
    {
        match self {
            StartError::NotEmpty => 3,
            StartError::NoJournal => 4,
            StartError::Damaged(_) => 5,
            StartError::NoMemory => 7,
            StartError::NumbersSpent => 49,
            StartError::Broken => 42,
        }
    }
}

/// A refusal that hands both disks back.
#[derive(Debug, Drop)]
pub struct Refused<D> {
    /// Why.
    pub error: StartError,
    /// The disk of file a.
    pub a: D,
    /// The disk of file b.
    pub b: D,
}
