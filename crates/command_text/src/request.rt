// A request of a client: one line, or the lines of a command list.
ghost use Rattle.std.specs.Prelude.{◌≡◌, IfOk};

use crate::lines::Lines;
use std::alloc::{AllocError, Global};
use std::marker::Model;

/// The bytes of a line, without its newline.
#[derive(Debug, Drop)]
pub struct Line {
    bytes: Vec<u8>,
}

impl Model for Line {
    ghost use Rattle.std.specs.Prelude.{ℕ, List};

    ghost Value = { List ℕ };

    ghost view = { λ l. l.bytes.items };
}

impl Line {
    /// A line of these bytes.
    pub fn from_bytes(alloc: Global, bytes: &[u8]) -> Result<Self, AllocError>
        ensures { IfOk result (λ line. line ≡ bytes.now) }
    {
        Ok(Line {
            bytes: Vec::from_slice(alloc, bytes)?,
        })
    }

    pub fn bytes(&self) -> &[u8]
        ensures { result.now ≡ self.now }
    {
        self.bytes.as_slice()
    }
}

/// What a client asks for at once (MPD protocol reference 0.23, "Requests" and "Command lists").
#[derive(Debug, Drop)]
pub enum Request {
    Single(Line),
    /// The lines between `command_list_begin` and `command_list_end`.
    List(Lines),
    /// The same behind `command_list_ok_begin`.
    OkList(Lines),
    Noidle,
}
