//! Want of memory, as every crate says it.
#![tactic(auto)]

ghost use Rattle.std.specs.Prelude.{◌≡◌};

use std::alloc::{AllocError, AllocFailed};
use thiserror::Error;

/// There is no memory, or no room where room was to be taken before. What was called on stays as it was, unless its call says more.
#[derive(Clone, Copy, Debug, PartialEq, Eq, Error)]
#[error("out of memory")]
pub struct NoMemory;

impl NoMemory {
    /// The number of the refusal.
    pub fn number(self) -> u8
        ensures { result ≡ 7 }
    {
        7
    }
}

impl From<AllocError> for NoMemory {
    fn from(_e: AllocError) -> NoMemory {
        NoMemory
    }
}

impl<T: Drop> From<AllocFailed<T>> for NoMemory {
    fn from(_e: AllocFailed<T>) -> NoMemory {
        NoMemory
    }
}
