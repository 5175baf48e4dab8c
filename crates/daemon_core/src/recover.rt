// The state of a restart: the saved half of a snapshot with the ops that were recorded behind it.
ghost use Rattle.std.specs.Prelude.{◌≡◌, Some, IfErr, OnOk};
ghost use Rattle.state_codec.specs.Applied.{applied};
ghost use Rattle.daemon_core.specs.Recovered.{number_of, IsStopAt, Recovers};

use crate::daemon::Core;
use state_codec::{ApplyError, Op, Saved};
use std::alloc::Global;
use thiserror::Error;

/// Why a state could not be recovered.
#[derive(Clone, Copy, Debug, PartialEq, Eq, Error)]
pub enum RecoverError {
    /// The op in this place, from 0, does not apply to the state before it.
    #[error("op {0} does not apply")]
    BadOp(usize),
    #[error("out of memory")]
    NoMemory,
}

impl RecoverError {
    /// The number of the refusal: 9 or 7.
    pub fn number(self) -> u8
        ensures { result ≡ number_of self }
    {
        match self {
            RecoverError::BadOp(_) => 9,
            RecoverError::NoMemory => 7,
        }
    }
}

// Applies the op in this place.
fn apply(alloc: Global, saved: &mut Saved, place: usize, op: &Op) -> Result<(), RecoverError>
    ensures ok { OnOk result (applied op.now saved.old ≡ Some saved.new) }
    ensures err { IfErr result (IsStopAt place (applied op.now saved.old)) }
{
    match saved.apply(alloc, op) {
        Ok(()) => Ok(()),
        Err(ApplyError::Refused(_)) => Err(RecoverError::BadOp(place)),
        Err(ApplyError::NoMemory) => Err(RecoverError::NoMemory),
    }
}

impl Core {
    /// A daemon that begins with what was saved and these ops applied to it in order. It answers `BadOp` with the place of
    /// the first op that doesn't apply.
    pub fn recover(alloc: Global, saved: Saved, ops: &[Op]) -> Result<Self, RecoverError>
        ensures { Recovers result ops.now saved }
    {
        let mut saved = saved;
        let mut place = 0;
        let mut rest = ops;
        while let Some((op, after)) = rest.split_first() {
            apply(alloc, &mut saved, place, op)?;
            place += 1;
            rest = after;
        }
        Ok(Core::new(alloc, saved))
    }
}
