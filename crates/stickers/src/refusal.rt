// Why calls of this crate are refused.
ghost use Rattle.std.specs.Prelude.{◌≡◌};
ghost use Rattle.stickers.specs.Refusal.{number_of};
ghost use Rattle.stickers.specs.declared.refusal.StickersError.TheVariants.{NoMemory};
ghost use Rattle.stickers.specs.declared.refusal.PartError.{PartError};

use std::alloc::{AllocError, AllocFailed};
use thiserror::Error;

/// Why a call of `Stickers` was refused. What it was called on stays as it was.
#[derive(Clone, Copy, Debug, PartialEq, Eq, Error)]
pub enum StickersError {
    /// The song has no such sticker, or none at all.
    #[error("no such sticker")]
    NoSuchSticker,
    /// The name is empty, too long, or has a `=` or a control character.
    #[error("bad sticker name")]
    BadStickerName,
    /// The limit on stickers would be passed.
    #[error("too many stickers")]
    StickersFull,
    #[error("out of memory")]
    NoMemory,
}

impl StickersError {
    /// The number of the refusal: 30 to 32, or 7.
    pub fn number(self) -> u8
        ensures { result ≡ number_of self }
    {
        match self {
            StickersError::NoSuchSticker => 30,
            StickersError::BadStickerName => 31,
            StickersError::StickersFull => 32,
            StickersError::NoMemory => 7,
        }
    }
}

impl From<AllocError> for StickersError {
    ghost from_gives = { λ _ e. e ≡ NoMemory };

    fn from(_error: AllocError) -> Self {
        StickersError::NoMemory
    }
}

impl<T: Drop> From<AllocFailed<T>> for StickersError {
    ghost from_gives = { λ _ e. e ≡ NoMemory };

    fn from(_error: AllocFailed<T>) -> Self {
        StickersError::NoMemory
    }
}

/// Why `StickersBuilder` refused a sticker. The builder stays as it was.
#[derive(Clone, Copy, Debug, PartialEq, Eq, Error)]
pub enum PartError {
    /// The name is empty, too long, or has a `=` or a control character.
    #[error("bad sticker name")]
    BadName,
    /// The sticker doesn't stand behind all others, by its URI and then its name.
    #[error("stickers out of order")]
    NotRising,
    #[error("too many stickers")]
    TooMany,
    #[error("out of memory")]
    NoMemory,
}

impl From<AllocError> for PartError {
    ghost from_gives = { λ _ e. e ≡ PartError.NoMemory };

    fn from(_error: AllocError) -> Self {
        PartError::NoMemory
    }
}
