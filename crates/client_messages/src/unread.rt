// What one client hasn't read.
ghost use Rattle.std.specs.Prelude.{◌≡◌, ◌≤◌, ℕ, List, [], ◌∷◌, ◌++◌, ◌==◌, length, IsTrue, IfOk};
ghost use Rattle.client_messages.specs.Messages.{has_room, IsWithinLimits};

use crate::limits::{MAX_UNREAD, MAX_UNREAD_BYTES};
use crate::message::{Draft, Message};
use std::alloc::{AllocError, Global};
use std::marker::Model;

/// The messages that a client hasn't read, oldest first: at most 64, and 65,536 bytes with the names of their channels. Memory for so many
/// is taken beforehand, but for their bytes.
#[derive(Debug, Drop)]
pub struct Unread {
    messages: Vec<Message>,
    bytes: usize,
}

impl Model for Unread {
    ghost use Rattle.std.specs.Prelude.{List, vec_capacity};
    ghost use Rattle.client_messages.specs.Messages.{AreCounted};
    ghost use Rattle.client_messages.specs.declared.message.Message.{Message};

    ghost Value = { List Message };

    ghost view = { λ u. u.messages.items };

    ghost invariant = { λ u. AreCounted u.messages.items u.bytes (vec_capacity u.messages) };
}

impl Unread {
    // No message, and room for 64.
    pub(crate) fn new(alloc: Global) -> Result<Self, AllocError>
        ensures { IfOk result (λ unread. unread ≡ []) }
    {
        Ok(Unread {
            messages: Vec::with_capacity(alloc, MAX_UNREAD)?,
            bytes: 0,
        })
    }

    pub fn as_slice(&self) -> &[Message]
        ensures messages { result.now ≡ self.now }
        ensures within { IsWithinLimits self.now }
    {
        self.messages.as_slice()
    }

    pub fn is_empty(&self) -> bool
        ensures { result ≡ (length self.now == 0) }
    {
        self.messages.is_empty()
    }

    // Whether there is room for the message.
    pub(crate) fn has_room(&self, draft: &Draft<'_>) -> bool
        ensures { result ≡ has_room draft.now self.now }
    {
        let channel = draft.channel().len();
        let text = draft.text().len();
        self.messages.len() < MAX_UNREAD
            && text <= MAX_UNREAD_BYTES
            && self.bytes + channel + text <= MAX_UNREAD_BYTES
    }

    // One more message behind the others.
    pub(crate) fn push(&mut self, message: Message)
        requires { IsTrue (has_room message self.old) }
        ensures { self.new ≡ self.old ++ message ∷ [] }
    {
        self.bytes += message.channel.as_str().len() + message.text.as_str().len();
        self.messages.push_reserved(message);
    }

    // They are read.
    pub(crate) fn clear(&mut self)
        ensures { self.new ≡ [] }
    {
        self.messages.clear();
        self.bytes = 0;
    }
}
