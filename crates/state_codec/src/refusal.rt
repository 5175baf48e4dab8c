// Why an op can't be applied, with the numbers of the reasons.
ghost use Rattle.std.specs.Prelude.{◌≡◌};
ghost use Rattle.state_codec.specs.Refusal.{number_of_op, number_of_apply, number_of_codec, number_of_body};
ghost use Rattle.state_codec.specs.Editing.{queue_told, songs_told, lists_told, stickers_told};
ghost use Rattle.state_codec.specs.declared.refusal.ApplyError.TheVariants.{NoMemory as ApplyNoMemory, Refused};
ghost use Rattle.state_codec.specs.declared.refusal.CodecError.TheVariants.{NoMemory as CodecNoMemory};

use play_queue::QueueError;
use song_db::SongDbError;
use std::alloc::{AllocError, AllocFailed};
use stickers::StickersError;
use stored_lists::ListsError;
use thiserror::Error;

/// Why an op doesn't apply to a saved state. It is never want of memory.
#[derive(Clone, Copy, Debug, PartialEq, Eq, Error)]
pub enum OpRefusal {
    /// A row number has no row, or the URI of a sticker that is set (`NoSuchUri`); the limit on rows would be passed (`DbFull`).
    #[error("{0}")]
    Songs(SongDbError),
    #[error("{0}")]
    Queue(QueueError),
    #[error("{0}")]
    Lists(ListsError),
    #[error("{0}")]
    Stickers(StickersError),
}

impl OpRefusal {
    /// The number of the refusal: 17, 18, or 22 to 32.
    pub fn number(self) -> u8
        ensures { result ≡ number_of_op self }
    {
        match self {
            OpRefusal::Songs(refusal) => refusal.number(),
            OpRefusal::Queue(refusal) => refusal.number(),
            OpRefusal::Lists(refusal) => refusal.number(),
            OpRefusal::Stickers(refusal) => refusal.number(),
        }
    }
}

/// Why `Saved::apply` was refused. The state stays as it was.
#[derive(Clone, Copy, Debug, PartialEq, Eq, Error)]
pub enum ApplyError {
    #[error("out of memory")]
    NoMemory,
    #[error("{0}")]
    Refused(OpRefusal),
}

impl ApplyError {
    /// The number of the refusal: 7, or that of the op's refusal.
    pub fn number(self) -> u8
        ensures { result ≡ number_of_apply self }
    {
        match self {
            ApplyError::NoMemory => 7,
            ApplyError::Refused(refusal) => refusal.number(),
        }
    }
}

impl From<OpRefusal> for ApplyError {
    ghost from_gives = { λ refusal e. e ≡ Refused refusal };

    fn from(refusal: OpRefusal) -> Self {
        ApplyError::Refused(refusal)
    }
}

impl From<AllocError> for ApplyError {
    ghost from_gives = { λ _ e. e ≡ ApplyNoMemory };

    fn from(_error: AllocError) -> Self {
        ApplyError::NoMemory
    }
}

impl<T: Drop> From<AllocFailed<T>> for ApplyError {
    ghost from_gives = { λ _ e. e ≡ ApplyNoMemory };

    fn from(_error: AllocFailed<T>) -> Self {
        ApplyError::NoMemory
    }
}

impl From<QueueError> for ApplyError {
    ghost from_gives = { λ error e. e ≡ queue_told error };

    fn from(error: QueueError) -> Self {
        match error {
            QueueError::NoMemory => ApplyError::NoMemory,
            _ => ApplyError::Refused(OpRefusal::Queue(error)),
        }
    }
}

impl From<SongDbError> for ApplyError {
    ghost from_gives = { λ error e. e ≡ songs_told error };

    fn from(error: SongDbError) -> Self {
        match error {
            SongDbError::NoMemory => ApplyError::NoMemory,
            _ => ApplyError::Refused(OpRefusal::Songs(error)),
        }
    }
}

impl From<ListsError> for ApplyError {
    ghost from_gives = { λ error e. e ≡ lists_told error };

    fn from(error: ListsError) -> Self {
        match error {
            ListsError::NoMemory => ApplyError::NoMemory,
            _ => ApplyError::Refused(OpRefusal::Lists(error)),
        }
    }
}

impl From<StickersError> for ApplyError {
    ghost from_gives = { λ error e. e ≡ stickers_told error };

    fn from(error: StickersError) -> Self {
        match error {
            StickersError::NoMemory => ApplyError::NoMemory,
            _ => ApplyError::Refused(OpRefusal::Stickers(error)),
        }
    }
}

/// Why bytes could not be read.
#[derive(Clone, Copy, Debug, PartialEq, Eq, Error)]
pub enum CodecError {
    #[error("out of memory")]
    NoMemory,
    /// The bytes of a record spell no ops. The field at this offset, in bytes from the first op, is the first at fault.
    #[error("bad op at byte {0}")]
    BadOp(usize),
    /// The bytes of a snapshot spell no state. The field at this offset in bytes is the first at fault.
    #[error("bad snapshot at byte {0}")]
    BadSnapshot(usize),
}

impl From<AllocError> for CodecError {
    ghost from_gives = { λ _ e. e ≡ CodecNoMemory };

    fn from(_error: AllocError) -> Self {
        CodecError::NoMemory
    }
}

impl<T: Drop> From<AllocFailed<T>> for CodecError {
    ghost from_gives = { λ _ e. e ≡ CodecNoMemory };

    fn from(_error: AllocFailed<T>) -> Self {
        CodecError::NoMemory
    }
}

impl CodecError {
    /// The number of the refusal: 7, 9 or 10.
    pub fn number(self) -> u8
        ensures { result ≡ number_of_codec self }
    {
        match self {
            CodecError::NoMemory => 7,
            CodecError::BadOp(_) => 9,
            CodecError::BadSnapshot(_) => 10,
        }
    }
}

/// Why the body of a record could not be applied to a saved state. The state is then to be given up: ops before the one
/// at fault were applied.
#[derive(Clone, Copy, Debug, PartialEq, Eq, Error)]
pub enum BodyError {
    #[error("out of memory")]
    NoMemory,
    /// The bytes spell no ops. The field at this offset, in bytes from the first op, is the first at fault.
    #[error("bad op at byte {0}")]
    BadOp(usize),
    /// The op at this place, from 0 on, doesn't apply.
    #[error("op {0} does not apply")]
    DoesNotApply(usize),
}

impl BodyError {
    /// The number of the refusal: 7 or 9.
    pub fn number(self) -> u8
        ensures { result ≡ number_of_body self }
    {
        match self {
            BodyError::NoMemory => 7,
            BodyError::BadOp(_) => 9,
            BodyError::DoesNotApply(_) => 9,
        }
    }
}
