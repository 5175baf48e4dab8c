// Requests in the order in which they came.
ghost use Rattle.std.specs.Prelude.{◌≡◌, ◌↔◌, [], ◌∷◌, ◌++◌, length, IsTrue, OnOk, OnErr};
ghost use Rattle.std.specs.Iterator.{YieldsFirst, item_count};

use command_text::Request;
use std::alloc::{AllocError, Global};
use std::collections::VecDeque;
use std::marker::Model;

/// Requests in the order in which they came, to be taken from the front.
#[derive(Debug, Drop)]
pub struct Requests {
    requests: VecDeque<Request>,
}

impl Model for Requests {
    ghost use Rattle.std.specs.Prelude.{List};
    ghost use Rattle.command_text.specs.declared.request.Request.{Request};

    ghost Value = { List Request };

    ghost view = { λ r. r.requests.items };
}

impl Requests {
    pub(crate) fn new(alloc: Global) -> Self
        ensures { result ≡ [] }
    {
        Requests {
            requests: VecDeque::new(alloc),
        }
    }

    /// How many are left.
    pub fn len(&self) -> usize
        ensures { result ≡ length self.now }
    {
        self.requests.len()
    }

    pub fn is_empty(&self) -> bool
        ensures { IsTrue result ↔ (self.now ≡ []) }
    {
        self.requests.is_empty()
    }

    pub(crate) fn push(&mut self, request: Request) -> Result<(), AllocError>
        ensures ok { OnOk result (self.new ≡ self.old ++ request ∷ []) }
        ensures err { OnErr result (self.new ≡ self.old) }
    {
        self.requests.push_back(request)?;
        Ok(())
    }
}

impl Iterator for Requests {
    type Item = Request;

    ghost next_gives = { YieldsFirst (λ s. s) };

    ghost remaining = { item_count (λ s. s) };

    fn next(&mut self) -> Option<Request> {
        self.requests.pop_front()
    }
}
