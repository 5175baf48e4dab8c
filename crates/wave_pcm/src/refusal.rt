// Why a WAVE file is refused.
ghost use Rattle.std.specs.Prelude.{◌≡◌};
ghost use Rattle.wave_pcm.specs.WaveError.{number_of};
ghost use Rattle.wave_pcm.specs.declared.refusal.WaveError.TheVariants.{NoMemory, ReadFault};

use song_files::SourceFault;
use std::alloc::{AllocError, AllocFailed};
use thiserror::Error;

/// Why a WAVE file could not be read.
#[derive(Clone, Copy, Debug, PartialEq, Eq, Drop, Error)]
pub enum WaveError {
    #[error("out of memory")]
    NoMemory,
    #[error("not a WAVE file")]
    NotWave,
    #[error("no readable format before the samples")]
    NoFormat,
    #[error("format tag {tag} with {bits} bits and {channels} channels is not supported")]
    Unsupported { tag: u16, bits: u16, channels: u16 },
    #[error("no samples")]
    NoData,
    #[error("the source could not be read")]
    ReadFault,
    #[error("more than 65536 chunks")]
    TooManyTurns,
}

impl WaveError {
    /// The refusal's number.
    pub fn number(&self) -> u8
        ensures { result ≡ number_of self.now }
    {
        match self {
            WaveError::NoMemory => 7,
            WaveError::NotWave => 11,
            WaveError::NoFormat => 12,
            WaveError::Unsupported { .. } => 13,
            WaveError::NoData => 14,
            WaveError::ReadFault => 15,
            WaveError::TooManyTurns => 16,
        }
    }
}

impl From<AllocError> for WaveError {
    ghost from_gives = { λ _ e. e ≡ NoMemory };

    fn from(_: AllocError) -> Self {
        WaveError::NoMemory
    }
}

impl From<SourceFault> for WaveError {
    ghost from_gives = { λ _ e. e ≡ ReadFault };

    fn from(_: SourceFault) -> Self {
        WaveError::ReadFault
    }
}

impl<T: Drop> From<AllocFailed<T>> for WaveError {
    ghost from_gives = { λ _ e. e ≡ NoMemory };

    fn from(_: AllocFailed<T>) -> Self {
        WaveError::NoMemory
    }
}
