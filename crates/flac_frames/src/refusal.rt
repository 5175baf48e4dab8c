// Why bytes are refused as a frame.
ghost use Rattle.std.specs.Prelude.{◌≡◌};
ghost use Rattle.flac_frames.specs.FrameError.{number_of};
ghost use Rattle.flac_frames.specs.declared.refusal.FrameError.TheVariants.{NoMemory};

use std::alloc::{AllocError, AllocFailed};
use thiserror::Error;

/// Why there is no frame at the front of the bytes.
#[derive(Clone, Copy, Debug, PartialEq, Eq, Drop, Error)]
pub enum FrameError {
    /// The bytes end before the frame does.
    #[error("the bytes end before the frame does")]
    Ended,
    /// No frame begins here.
    #[error("no frame begins here")]
    NoSync,
    /// A value that the standard reserves or forbids.
    #[error("a reserved or forbidden value")]
    Forbidden,
    /// A residual or a sample that has not its width.
    #[error("a sample out of range")]
    TooLarge,
    /// More channels than two.
    #[error("more than two channels")]
    TooManyChannels,
    /// A rate of 0, or above 192,000 samples a second.
    #[error("the rate is not supported")]
    RateNotSupported,
    #[error("out of memory")]
    NoMemory,
    /// The stream's samples have fewer than 4 bits or more than 32.
    #[error("the bits a sample are not supported")]
    BitsNotSupported,
    #[error("the check of the frame's head fails")]
    HeadCrc,
    #[error("the check of the frame fails")]
    FrameCrc,
}

impl FrameError {
    /// The refusal's number.
    pub fn number(&self) -> u8
        ensures { result ≡ number_of self.now }
    {
        match self {
            FrameError::Ended => 61,
            FrameError::NoSync => 62,
            FrameError::Forbidden => 63,
            FrameError::TooLarge => 64,
            FrameError::TooManyChannels => 65,
            FrameError::RateNotSupported => 66,
            FrameError::NoMemory => 7,
            FrameError::BitsNotSupported => 67,
            FrameError::HeadCrc => 68,
            FrameError::FrameCrc => 69,
        }
    }
}

impl From<AllocError> for FrameError {
    ghost from_gives = { λ _ e. e ≡ NoMemory };

    fn from(_: AllocError) -> Self {
        FrameError::NoMemory
    }
}

impl<T: Drop> From<AllocFailed<T>> for FrameError {
    ghost from_gives = { λ _ e. e ≡ NoMemory };

    fn from(_: AllocFailed<T>) -> Self {
        FrameError::NoMemory
    }
}
