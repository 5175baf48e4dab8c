// What the step of an event answers: outputs of clients, those that are closed, the ops, and how the daemon ended, if it did.
ghost use Rattle.std.specs.Prelude.{◌≡◌};
ghost use Rattle.machine_core.specs.Front.{front_of};

use idle_masks::{ClientId, Subsystems};
use machine_core::cut_answer;
use state_codec::Op;
use std::marker::Model;

/// Bytes that a client gets.
#[derive(Debug, Drop)]
pub struct Bytes {
    bytes: Vec<u8>,
}

impl Model for Bytes {
    ghost use Rattle.std.specs.Prelude.{ℕ, List};

    ghost Value = { List ℕ };

    ghost view = { λ b. b.bytes.items };
}

impl Bytes {
    pub(crate) fn new(bytes: Vec<u8>) -> Self
        ensures { result ≡ bytes.items }
    {
        Bytes { bytes }
    }

    // What is given out of an answer.
    pub(crate) fn of_answer(text: Vec<u8>) -> Self
        ensures { result ≡ front_of text.items }
    {
        let mut bytes = text;
        cut_answer(&mut bytes);
        Bytes { bytes }
    }

    pub fn as_slice(&self) -> &[u8]
        ensures { result.now ≡ self.now }
    {
        self.bytes.as_slice()
    }
}

/// Bytes for one client.
#[derive(Debug, Drop)]
pub struct Output {
    pub client: ClientId,
    pub bytes: Bytes,
}

/// What an event gives out.
#[derive(Debug, Drop)]
pub struct Outcome {
    /// The answer of the event's own client first; then, by rising number, the lines of clients that waited for a change. An answer is
    /// whole up to 8,388,608 bytes; of a longer one its front is there, one byte longer than that.
    pub outputs: Vec<Output>,
    /// The clients whose connections are closed.
    pub closes: Vec<ClientId>,
    /// What changed of the saved state, in order; none where nothing did.
    pub ops: Vec<Op>,
    /// The place, from 0, of the command at which memory was refused, if it was. The commands before it stand.
    pub refused_at: Option<u32>,
    /// How much the commands of a request looked at, as docs/PROTOCOL.md counts it, up to what the wide profile lets a request look at; all
    /// of that where memory was refused.
    pub looks: u64,
    /// The daemon ends.
    pub ended: bool,
}

/// How the work on a request ended.
#[derive(Clone, Copy, Debug)]
pub enum Ending {
    /// The client has its answer.
    Answered,
    /// The client asked to be closed.
    Closed,
    /// The client asked that the daemon ends.
    Killed,
    /// The client waits for a change of one of these.
    Waits(Subsystems),
}
