// Why calls of this crate are refused.
ghost use Rattle.std.specs.Prelude.{◌≡◌};
ghost use Rattle.idle_masks.specs.Refusal.{number_of};
ghost use Rattle.idle_masks.specs.declared.refusal.WatchError.TheVariants.{NoMemory};

use std::alloc::{AllocError, AllocFailed};
use thiserror::Error;

/// Why a call of `Watch` was refused. What it was called on stays as it was.
#[derive(Clone, Copy, Debug, PartialEq, Eq, Error)]
pub enum WatchError {
    /// The client isn't watched: it never joined, or it left.
    #[error("no such client")]
    NoSuchClient,
    /// Memory ran out.
    #[error("out of memory")]
    NoMemory,
}

impl WatchError {
    /// The number of the refusal: 34 or 7.
    pub fn number(self) -> u8
        ensures { result ≡ number_of self }
    {
        match self {
            WatchError::NoSuchClient => 34,
            WatchError::NoMemory => 7,
        }
    }
}

impl From<AllocError> for WatchError {
    ghost from_gives = { λ _ e. e ≡ NoMemory };

    fn from(_error: AllocError) -> Self {
        WatchError::NoMemory
    }
}

impl<T: Drop> From<AllocFailed<T>> for WatchError {
    ghost from_gives = { λ _ e. e ≡ NoMemory };

    fn from(_error: AllocFailed<T>) -> Self {
        WatchError::NoMemory
    }
}
