// Why a picture could not be read.
ghost use Rattle.std.specs.Prelude.{◌≡◌};
ghost use Rattle.covers.specs.CoverError.{number_of, of_folder};
ghost use Rattle.covers.specs.declared.refusal.CoverError.TheVariants.{NoMemory, ReadFault};

use song_files::{FolderFault, SourceFault};
use std::alloc::{AllocError, AllocFailed};
use thiserror::Error;

/// Why a picture could not be read.
#[derive(Clone, Copy, Debug, PartialEq, Eq, Drop, Error)]
pub enum CoverError {
    #[error("out of memory")]
    NoMemory,
    #[error("the source could not be read")]
    ReadFault,
}

impl CoverError {
    /// The refusal's number.
    pub fn number(&self) -> u8
        ensures { result ≡ number_of self.now }
    {
        match self {
            CoverError::NoMemory => 7,
            CoverError::ReadFault => 15,
        }
    }
}

impl From<AllocError> for CoverError {
    ghost from_gives = { λ _ e. e ≡ NoMemory };

    fn from(_: AllocError) -> Self {
        CoverError::NoMemory
    }
}

impl From<SourceFault> for CoverError {
    ghost from_gives = { λ _ e. e ≡ ReadFault };

    fn from(_: SourceFault) -> Self {
        CoverError::ReadFault
    }
}

impl From<FolderFault> for CoverError {
    ghost from_gives = { λ fault e. e ≡ of_folder fault };

    fn from(fault: FolderFault) -> Self {
        match fault {
            FolderFault::Source => CoverError::ReadFault,
            FolderFault::NoMemory => CoverError::NoMemory,
        }
    }
}
