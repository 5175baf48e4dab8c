// What an event does, before clients that wait are told.
ghost use Rattle.std.specs.Prelude.{◌≡◌, ◌∷◌, ◌<◌, ◌≤◌, [], vec_capacity, vec_len, IfOk};
ghost use Rattle.daemon_core.specs.Session.{output};

use crate::outcome::{Bytes, Outcome, Output};
use idle_masks::{ClientId, Subsystems};
use machine_core::Happened;
use no_memory::NoMemory;
use std::alloc::Global;

#[derive(Drop)]
pub struct Handled {
    // Its outputs are the answer of the event's own client, if it has one.
    pub(crate) outcome: Outcome,
    pub(crate) changed: Subsystems,
}

impl Handled {
    ghost use Rattle.daemon_core.specs.Handled.{IsNothingBut, IsOf};

    // Nothing is done, with these outputs and clients that are closed.
    fn of(alloc: Global, outputs: Vec<Output>, closes: Vec<ClientId>) -> Self
        requires { vec_len outputs ≤ 1 }
        ensures { IsNothingBut outputs.items closes.items result }
    {
        let outcome = Outcome {
            outputs,
            closes,
            ops: Vec::new(alloc),
            refused_at: None,
            looks: 0,
            ended: false,
        };
        Handled {
            outcome,
            changed: Subsystems::none(),
        }
    }

    pub(crate) fn nothing(alloc: Global) -> Self
        ensures { IsNothingBut [] [] result }
    {
        Handled::of(alloc, Vec::new(alloc), Vec::new(alloc))
    }

    // An event of the player or of a scan did this.
    pub(crate) fn happened(alloc: Global, happened: Happened) -> Self
        ensures { IsOf happened result }
    {
        let Happened { ops, changed } = happened;
        let outcome = Outcome {
            outputs: Vec::new(alloc),
            closes: Vec::new(alloc),
            ops,
            refused_at: None,
            looks: 0,
            ended: false,
        };
        Handled { outcome, changed }
    }

    // A client gets an answer.
    pub(crate) fn answered(alloc: Global, client: ClientId, bytes: Bytes) -> Result<Self, NoMemory>
        ensures { IfOk result (IsNothingBut (output client bytes ∷ []) []) }
    {
        let mut outputs = Vec::with_capacity(alloc, 1)?;
        outputs.push_reserved(Output { client, bytes });
        Ok(Handled::of(alloc, outputs, Vec::new(alloc)))
    }

    // A client is closed, for whose number there is room.
    pub(crate) fn closing(alloc: Global, client: ClientId, mut closes: Vec<ClientId>) -> Self
        requires empty { closes.items ≡ [] }
        requires room { 0 < vec_capacity closes }
        ensures { IsNothingBut [] (client ∷ []) result }
    {
        closes.push_reserved(client);
        Handled::of(alloc, Vec::new(alloc), closes)
    }
}
