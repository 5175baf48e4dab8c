// Why the reading of a line stops: a refusal, or memory that isn't there.
ghost use Rattle.std.specs.Prelude.{◌≡◌};
ghost use Rattle.command_text.specs.declared.stop.Stop.TheVariants.{Refused, NoMemory};

use crate::refusal::CommandRefusal;
use std::alloc::{AllocError, AllocFailed};

/// Why arguments were not read.
#[derive(Debug, Drop)]
pub(crate) enum Stop {
    Refused(CommandRefusal),
    NoMemory,
}

impl From<CommandRefusal> for Stop {
    ghost from_gives = { λ refusal e. e ≡ Refused refusal };

    fn from(refusal: CommandRefusal) -> Stop {
        Stop::Refused(refusal)
    }
}

impl From<AllocError> for Stop {
    ghost from_gives = { λ _ e. e ≡ NoMemory };

    fn from(_e: AllocError) -> Stop {
        Stop::NoMemory
    }
}

impl<T: Drop> From<AllocFailed<T>> for Stop {
    ghost from_gives = { λ _ e. e ≡ NoMemory };

    fn from(_e: AllocFailed<T>) -> Stop {
        Stop::NoMemory
    }
}
