// What is kept for one client.
ghost use Rattle.std.specs.Prelude.{◌≡◌, [], ◌+◌, ◌<◌, length, replicate, IsTrue, IfOk, if◌then◌else◌};
ghost use Rattle.client_messages.specs.Listeners.{newcomer, with_channel, takes, delivered, notice_of};
ghost use Rattle.client_messages.specs.Refusal.{AnswersIfMemory, add_refusal};

use crate::ClientId;
use crate::channel::Channels;
use crate::message::{Draft, Message};
use crate::refusal::MessagesError;
use crate::unread::Unread;
use std::alloc::Global;

/// A client that has subscribed to a channel since it came, though it may have left it.
#[derive(Debug, Drop)]
pub struct Listener {
    pub client: ClientId,
    pub channels: Channels,
    pub unread: Unread,
}

impl Listener {
    // A client with its first channel, and nothing unread. It is refused as one more channel is.
    pub(crate) fn with_channel(
        alloc: Global,
        client: ClientId,
        channel: &str,
    ) -> Result<Self, MessagesError>
        ensures ok { IfOk result (λ listener. listener ≡ with_channel channel.now (newcomer client)) }
        ensures answer { AnswersIfMemory (add_refusal [] channel.now) result }
    {
        let mut channels = Channels::new(alloc);
        channels.add(alloc, channel)?;
        Ok(Listener {
            client,
            channels,
            unread: Unread::new(alloc)?,
        })
    }

    // Whether the client gets the message.
    pub(crate) fn takes(&self, draft: &Draft<'_>) -> bool
        ensures { result ≡ takes draft.now self.now }
    {
        self.channels.contains(draft.channel()) && self.unread.has_room(draft)
    }

    // Takes one of the copies, if the client gets the message: the client's number, if it had read all before.
    pub(crate) fn deliver(
        &mut self,
        draft: &Draft<'_>,
        copies: &mut Vec<Message>,
    ) -> Option<ClientId>
        requires same { copies.old.items ≡ replicate (length copies.old.items) draft.now }
        requires enough { IsTrue (takes draft.now self.old) → 0 < length copies.old.items }
        ensures delivered { self.new ≡ delivered draft.now self.old }
        ensures notice { result ≡ notice_of draft.now self.old }
        ensures same { copies.new.items ≡ replicate (length copies.new.items) draft.now }
        ensures count { length copies.new.items + (if takes draft.now self.old then 1 else 0) ≡ length copies.old.items }
    {
        if !self.takes(draft) {
            return None;
        }
        let had_read_all = self.unread.is_empty();
        if let Some(message) = copies.pop() {
            self.unread.push(message);
        }
        if had_read_all {
            Some(self.client)
        } else {
            None
        }
    }
}
