// Why a tag is not read or written.
ghost use Rattle.std.specs.Prelude.{◌≡◌};
ghost use Rattle.id3_tags.specs.TagError.{number_of};
ghost use Rattle.id3_tags.specs.declared.refusal.TagError.TheVariants.{NoMemory, ReadFault};

use song_files::SourceFault;
use std::alloc::{AllocError, AllocFailed};
use thiserror::Error;

/// Why a tag could not be read or written.
#[derive(Clone, Copy, Debug, PartialEq, Eq, Drop, Error)]
pub enum TagError {
    #[error("out of memory")]
    NoMemory,
    #[error("the source could not be read")]
    ReadFault,
    #[error("not an ID3v2 tag of version 2.2, 2.3 or 2.4")]
    NotTag,
    #[error("a frame that has no place in an ID3v2.4 tag")]
    Unwritable,
}

impl TagError {
    /// The refusal's number.
    pub fn number(&self) -> u8
        ensures { result ≡ number_of self.now }
    {
        match self {
            TagError::NoMemory => 7,
            TagError::ReadFault => 15,
            TagError::NotTag => 71,
            TagError::Unwritable => 72,
        }
    }
}

impl From<AllocError> for TagError {
    ghost from_gives = { λ _ e. e ≡ NoMemory };

    fn from(_: AllocError) -> Self {
        TagError::NoMemory
    }
}

impl From<SourceFault> for TagError {
    ghost from_gives = { λ _ e. e ≡ ReadFault };

    fn from(_: SourceFault) -> Self {
        TagError::ReadFault
    }
}

impl<T: Drop> From<AllocFailed<T>> for TagError {
    ghost from_gives = { λ _ e. e ≡ NoMemory };

    fn from(_: AllocFailed<T>) -> Self {
        TagError::NoMemory
    }
}
