// Why words are no filter, with the numbers of the reasons.
ghost use Rattle.std.specs.Prelude.{◌≡◌};
ghost use Rattle.filter_expr.specs.Words.{number_of};
ghost use Rattle.filter_expr.specs.declared.refusal.FilterError.TheVariants as errors;

use std::alloc::{AllocError, AllocFailed};
use thiserror::Error;

/// A byte of a word, each counted from 0.
#[derive(Clone, Copy, Debug, PartialEq, Eq)]
pub struct FilterPlace {
    pub word: usize,
    pub byte: usize,
}

/// Why words are no filter: the leftmost fault.
#[derive(Clone, Copy, Debug, Error)]
pub enum FilterError<'a> {
    /// From this byte on no filter goes on so.
    #[error("bad filter")]
    BadFilter(FilterPlace),
    /// No tag has this name.
    #[error("unknown tag")]
    UnknownTag(&'a [u8]),
    /// One parenthesis more is open at this byte than the 32 that may be.
    #[error("filter too deep")]
    TooDeep(FilterPlace),
    #[error("out of memory")]
    NoMemory,
}

impl<'a> FilterError<'a> {
    /// The number of the refusal: 19, 20, 21 or 7.
    pub fn number(&self) -> u8
        ensures { result ≡ number_of self.now }
    {
        match self {
            FilterError::BadFilter(_) => 19,
            FilterError::UnknownTag(_) => 20,
            FilterError::TooDeep(_) => 21,
            FilterError::NoMemory => 7,
        }
    }
}

impl<'a> From<AllocError> for FilterError<'a> {
    ghost from_gives = { λ _ e. e ≡ errors.NoMemory };

    fn from(_error: AllocError) -> Self {
        FilterError::NoMemory
    }
}

impl<'a, T: Drop> From<AllocFailed<T>> for FilterError<'a> {
    ghost from_gives = { λ _ e. e ≡ errors.NoMemory };

    fn from(_error: AllocFailed<T>) -> Self {
        FilterError::NoMemory
    }
}
