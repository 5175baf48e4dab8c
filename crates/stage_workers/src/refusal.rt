// Why a shared stage refuses.
ghost use Rattle.std.specs.Prelude.{◌≡◌};
ghost use Rattle.stage_workers.specs.Refusals.{refused_by};

use crate::Kind;
use live_stage::LiveError;
use thiserror::Error;

/// Why an event was refused.
#[derive(Clone, Copy, Debug, PartialEq, Eq, Error)]
pub enum StageError {
    /// A disk failed, in this event or in an earlier one. Nothing more is served: open the files again.
    #[error("broken by a disk fault")]
    Broken,
    /// There was no memory. Nothing was done, but for a checkpoint that was due.
    #[error("out of memory")]
    NoMemory,
    /// The pass has seen the event of one number, and the stage has had no event above the other, which is less.
    #[error("rewound from event {seen} to event {found}")]
    Rewound { seen: u64, found: u64 },
    /// The last event or the last record has the number 2^64 - 1, or the file's generation is that and a checkpoint is due. Nothing
    /// was done.
    #[error("numbers are spent")]
    NumbersSpent,
}

impl StageError {
    ghost use Rattle.stage_workers.specs.Refusals.{number_of};

    /// The number of the refusal, by which the daemon reports it.
    pub fn number(self) -> u8
        ensures { result ≡ number_of self }
    {
        match self {
            StageError::Broken => 42,
            StageError::NoMemory => 43,
            StageError::Rewound { .. } => 44,
            StageError::NumbersSpent => 49,
        }
    }
}

/// All 65,536 passes of a kind were given out.
#[derive(Clone, Copy, Debug, PartialEq, Eq, Error)]
#[error("no further pass of this kind")]
pub struct PassesSpent;

impl PassesSpent {
    /// The number of the refusal, by which the daemon reports it.
    pub fn number(self) -> u8
        ensures { result ≡ 51 }
    {
        51
    }
}

/// Why a stage was not settled.
#[derive(Clone, Copy, Debug, PartialEq, Eq, Error)]
pub enum SettleError {
    /// The passes that came back did not make all events of this kind, the first such in the order of `Kind`.
    #[error("passes are missing that made events")]
    ShareMismatch(Kind),
    /// The receipt of the event of this number, the first such, is of no event or no record that the stage has.
    #[error("the receipt of event {0} is of another stage")]
    ReceiptMismatch(u64),
}

impl SettleError {
    ghost use Rattle.stage_workers.specs.Refusals.{settle_number_of};

    /// The number of the refusal, by which the daemon reports it.
    pub fn number(self) -> u8
        ensures { result ≡ settle_number_of self }
    {
        match self {
            SettleError::ShareMismatch(_) => 45,
            SettleError::ReceiptMismatch(_) => 46,
        }
    }
}

// A turn's refusal, as the shared stage has it.
pub(crate) fn refusal_of(error: LiveError) -> StageError
    ensures { result ≡ refused_by error }
{
    match error {
        LiveError::Broken => StageError::Broken,
        LiveError::NoMemory => StageError::NoMemory,
        LiveError::NumbersSpent => StageError::NumbersSpent,
    }
}
