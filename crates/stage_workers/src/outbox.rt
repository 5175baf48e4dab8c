// What events left for the clients, until it is handed over.
use daemon_core::Output;
use std::alloc::Global;
use std::marker::Model;

/// The outputs of one event, in order. Contracts see them as a list.
#[derive(Debug, Drop)]
pub struct Outputs {
    outputs: Vec<Output>,
}

impl Model for Outputs {
    ghost use Rattle.std.specs.Prelude.{List};
    ghost use Rattle.daemon_core.specs.declared.outcome.Output.{Output};

    ghost Value = { List Output };

    ghost view = { λ o. o.outputs.items };
}

impl Outputs {
    ghost use Rattle.std.specs.Prelude.{◌≡◌};

    pub(crate) fn new(outputs: Vec<Output>) -> Self
        ensures { result ≡ outputs.items }
    {
        Outputs { outputs }
    }

    /// The outputs, to be looked at.
    pub fn as_slice(&self) -> &[Output]
        ensures { result.now ≡ self.now }
    {
        self.outputs.as_slice()
    }
}

/// What was left in the outbox, the oldest event first. Contracts see it as a list, with a list of outputs for each event.
#[derive(Debug, Drop)]
pub struct Outbox {
    events: Vec<Outputs>,
}

impl Model for Outbox {
    ghost use Rattle.std.specs.Prelude.{List};
    ghost use Rattle.daemon_core.specs.declared.outcome.Output.{Output};

    ghost Value = { List (List Output) };

    ghost view = { λ o. o.events.items };
}

impl Outbox {
    ghost use Rattle.std.specs.Prelude.{◌≡◌, []};

    pub(crate) fn new(events: Vec<Outputs>) -> Self
        ensures { result ≡ events.items }
    {
        Outbox { events }
    }

    /// Nothing was left. It takes no memory.
    pub fn empty(alloc: Global) -> Self
        ensures { result ≡ [] }
    {
        Outbox {
            events: Vec::new(alloc),
        }
    }

    /// What each event left, to be looked at.
    pub fn as_slice(&self) -> &[Outputs]
        ensures { result.now ≡ self.now }
    {
        self.events.as_slice()
    }
}
