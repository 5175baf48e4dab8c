// Why a pattern isn't read.
ghost use Rattle.std.specs.Prelude.{◌≡◌};
ghost use Rattle.regular_expr.specs.declared.fault.Fault.TheVariants as faults;

use std::alloc::{AllocError, AllocFailed};

/// Why a text isn't read as a pattern.
#[derive(Clone, Copy, Debug)]
pub(crate) enum Fault {
    NoPattern,
    NoMemory,
}

impl From<AllocError> for Fault {
    ghost from_gives = { λ _ e. e ≡ faults.NoMemory };

    fn from(_error: AllocError) -> Self {
        Fault::NoMemory
    }
}

impl<T: Drop> From<AllocFailed<T>> for Fault {
    ghost from_gives = { λ _ e. e ≡ faults.NoMemory };

    fn from(_error: AllocFailed<T>) -> Self {
        Fault::NoMemory
    }
}
