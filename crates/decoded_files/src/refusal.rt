// Why a decoder doesn't tell a file.
ghost use Rattle.std.specs.Prelude.{◌≡◌};
ghost use Rattle.decoded_files.specs.DecoderErrors.{number_of};
ghost use Rattle.decoded_files.specs.declared.refusal.DecoderError.TheVariants.{NoMemory};

use std::alloc::{AllocError, AllocFailed};
use thiserror::Error;

/// Why a decoder doesn't tell a file, or no more of it.
#[derive(Clone, Copy, Debug, PartialEq, Eq, Drop, Error)]
pub enum DecoderError {
    #[error("out of memory")]
    NoMemory,
    /// Nobody listens at its socket, or it takes no connection.
    #[error("the decoder can't be reached")]
    Away,
    /// A request was not answered in time.
    #[error("the decoder gave no answer in time")]
    Silent,
    /// The connection ended, or failed.
    #[error("the decoder ended the connection")]
    Ended,
    /// What it answered is none of the protocol's answers.
    #[error("the decoder gave a wrong answer")]
    BadAnswer,
    /// It says that the file is none that it knows.
    #[error("the decoder knows it as no song")]
    NoSong,
    /// It says that the file can't be read or decoded at that place.
    #[error("the decoder can't read it")]
    Failed,
    /// The path has more bytes than the protocol takes.
    #[error("its path is too long for the decoder")]
    LongPath,
}

impl DecoderError {
    /// The refusal's number.
    pub fn number(&self) -> u8
        ensures { result ≡ number_of self.now }
    {
        match self {
            DecoderError::NoMemory => 7,
            DecoderError::Away => 90,
            DecoderError::Silent => 91,
            DecoderError::Ended => 92,
            DecoderError::BadAnswer => 93,
            DecoderError::NoSong => 94,
            DecoderError::Failed => 95,
            DecoderError::LongPath => 96,
        }
    }
}

impl From<AllocError> for DecoderError {
    ghost from_gives = { λ _ e. e ≡ NoMemory };

    fn from(_: AllocError) -> Self {
        DecoderError::NoMemory
    }
}

impl<T: Drop> From<AllocFailed<T>> for DecoderError {
    ghost from_gives = { λ _ e. e ≡ NoMemory };

    fn from(_: AllocFailed<T>) -> Self {
        DecoderError::NoMemory
    }
}
