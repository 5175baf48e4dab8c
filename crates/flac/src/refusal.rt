// Why a FLAC file is refused.
ghost use Rattle.std.specs.Prelude.{◌≡◌};
ghost use Rattle.flac.specs.FlacError.{number_of};
ghost use Rattle.flac.specs.declared.refusal.FlacError.TheVariants.{NoMemory, ReadFault};

use song_files::SourceFault;
use std::alloc::{AllocError, AllocFailed};
use thiserror::Error;

/// Why a FLAC file could not be read.
#[derive(Clone, Copy, Debug, PartialEq, Eq, Drop, Error)]
pub enum FlacError {
    #[error("out of memory")]
    NoMemory,
    #[error("the source could not be read")]
    ReadFault,
    #[error("not a FLAC file")]
    NotFlac,
    #[error("no readable STREAMINFO in front")]
    BadStreamInfo,
    #[error("{rate} samples a second with {bits} bits and {channels} channels are not supported")]
    Unsupported { rate: u32, channels: u8, bits: u8 },
    #[error("a metadata block is damaged")]
    DamagedBlock,
    #[error("more than 65536 metadata blocks")]
    TooManyBlocks,
    #[error("a frame is broken")]
    BrokenFrame,
}

impl FlacError {
    /// The refusal's number.
    pub fn number(&self) -> u8
        ensures { result ≡ number_of self.now }
    {
        match self {
            FlacError::NoMemory => 7,
            FlacError::ReadFault => 15,
            FlacError::NotFlac => 80,
            FlacError::BadStreamInfo => 81,
            FlacError::Unsupported { .. } => 82,
            FlacError::DamagedBlock => 83,
            FlacError::TooManyBlocks => 84,
            FlacError::BrokenFrame => 85,
        }
    }
}

impl From<AllocError> for FlacError {
    ghost from_gives = { λ _ e. e ≡ NoMemory };

    fn from(_: AllocError) -> Self {
        FlacError::NoMemory
    }
}

impl From<SourceFault> for FlacError {
    ghost from_gives = { λ _ e. e ≡ ReadFault };

    fn from(_: SourceFault) -> Self {
        FlacError::ReadFault
    }
}

impl<T: Drop> From<AllocFailed<T>> for FlacError {
    ghost from_gives = { λ _ e. e ≡ NoMemory };

    fn from(_: AllocFailed<T>) -> Self {
        FlacError::NoMemory
    }
}
