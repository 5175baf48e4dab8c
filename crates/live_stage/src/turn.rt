// The answer to one event. Only this module can make one.
ghost use Rattle.std.specs.Prelude.{◌≡◌};

use crate::LiveError;
use daemon_core::{Core, Event, Outcome, Output};
use std::marker::{Model, PhantomData};
use std::snapshot::Snapshot;

/// Says that an event was handled, and which record keeps what it changed.
#[derive(Clone, Copy, Debug, PartialEq, Eq)]
pub struct Receipt {
    /// The event's number, from 1 since the stage was made or opened.
    pub event: u64,
    /// The number of its record, if it changed what is saved.
    pub number: Option<u64>,
}

/// What is given out for one event. Only a `turn` of a stage over `D` makes one, and contracts see in it the event that was
/// handed in and the state before it.
#[derive(Drop)]
pub struct Turn<D> {
    outputs: Vec<Output>,
    closes: Vec<u64>,
    ended: bool,
    refused_at: Option<u32>,
    event: u64,
    receipt: Receipt,
    looks: u64,
    asked: Snapshot<Event>,
    before: Snapshot<Core>,
    stage: PhantomData<D>,
}

/// What one event came to.
pub type TurnResult<D> = Result<Turn<D>, LiveError>;

impl<D> Model for Turn<D> {
    ghost use Rattle.live_stage.specs.Answer.{Answer};

    ghost Value = { Answer };

    ghost use Rattle.live_stage.specs.Answer.{IsOfItsEvent};

    ghost view = { λ t. record {
      outputs = t.outputs.items;
      closes = t.closes.items;
      ended = t.ended;
      refused_at = t.refused_at;
      event = t.event;
      receipt = t.receipt;
      asked = t.asked.value;
      before = t.before.value;
    } };

    ghost use Rattle.std.specs.Prelude.{◌≡◌};
    ghost use Rattle.daemon_core.specs.Step.{step};

    ghost invariant = { λ t. let now = step t.before.value t.asked.value t.refused_at in
        (t.outputs.items ≡ now.outputs) × (t.looks ≡ now.looks) };
}

impl<D> Turn<D> {
    ghost use Rattle.std.specs.Prelude.{◌≡◌};
    ghost use Rattle.daemon_core.specs.Step.{step};
    ghost use Rattle.live_stage.specs.Answer.{IsOfItsEvent, answer_work};
    ghost use Rattle.live_stage.specs.Group.{answer_looks};

    pub(crate) fn new(
        outcome: Outcome,
        event: u64,
        number: Option<u64>,
        asked: Snapshot<Event>,
        before: Snapshot<Core>,
    ) -> Self
        requires outputs { let now = step before.value asked.value outcome.refused_at in outcome.outputs.items ≡ now.outputs }
        requires looks { let now = step before.value asked.value outcome.refused_at in outcome.looks ≡ now.looks }
        ensures { result ≡ record {
          outputs = outcome.outputs.items;
          closes = outcome.closes.items;
          ended = outcome.ended;
          refused_at = outcome.refused_at;
          event = event;
          receipt = record { event = event; number = number };
          asked = asked.value;
          before = before.value;
        } }
    {
        let Outcome {
            outputs,
            closes,
            ops: _,
            refused_at,
            looks,
            ended,
        } = outcome;
        Turn {
            outputs,
            closes,
            ended,
            refused_at,
            event,
            receipt: Receipt { event, number },
            looks,
            asked,
            before,
            stage: PhantomData,
        }
    }

    /// What the clients get: the answer of the event's own client first; then, by rising number, the lines of clients that
    /// waited for a change.
    pub fn outputs(&self) -> &[Output]
        ensures value { result.now ≡ self.now.outputs }
        ensures of_its_event { IsOfItsEvent self.now }
    {
        &self.outputs
    }

    /// The clients whose connections are closed.
    pub fn closes(&self) -> &[u64]
        ensures { result.now ≡ self.now.closes }
    {
        &self.closes
    }

    /// Whether the daemon ends.
    pub fn ended(&self) -> bool
        ensures { result ≡ self.now.ended }
    {
        self.ended
    }

    /// The place, from 0, of the command at which memory was refused, if it was. The commands before it stand.
    pub fn refused_at(&self) -> Option<u32>
        ensures { result ≡ self.now.refused_at }
    {
        self.refused_at
    }

    /// The event's number, from 1 since the stage was made or opened.
    pub fn event(&self) -> u64
        ensures { result ≡ self.now.event }
    {
        self.event
    }

    pub fn receipt(&self) -> Receipt
        ensures { result ≡ self.now.receipt }
    {
        self.receipt
    }

    /// How much the event looked at, as docs/PROTOCOL.md counts it; all that a request may where memory was refused.
    pub fn looks(&self) -> u64
        ensures { result ≡ answer_looks self.now }
    {
        self.looks
    }

    // How much the event adds to the work of the records behind the snapshot: what it looked at, if it made one.
    pub(crate) fn added_work(&self) -> u64
        ensures { result ≡ answer_work self.now }
    {
        match self.receipt.number {
            Some(_) => self.looks,
            None => 0,
        }
    }

    /// The outputs, to be handed over.
    pub fn into_outputs(self) -> Vec<Output>
        ensures { result.items ≡ self.outputs }
    {
        self.outputs
    }
}
