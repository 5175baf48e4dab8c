// Who has which channels, and what each hasn't read.
ghost use Rattle.std.specs.Prelude.{◌≡◌, ℕ, List, [], IfOk, IfErr, OnOk, OnErr};
ghost use Rattle.std.specs.Cmp.Lexicographic.{slice_cmp};
ghost use Rattle.std.specs.List.Sorted.{IsStrictlySortedBy};
ghost use Rattle.std.specs.Ordering.{nat_cmp};
ghost use Rattle.client_messages.specs.Channel.{is_among};
ghost use Rattle.client_messages.specs.Listeners.{IsRising, IsAt, IsGapFor, listener_of, is_heard, subscribed, unsubscribed, sent, notified};
ghost use Rattle.client_messages.specs.Listeners.{with_all_read, left};
ghost use Rattle.client_messages.specs.Messages.{message, IsWithinLimits};
ghost use Rattle.client_messages.specs.Names.{channels_in};
ghost use Rattle.client_messages.specs.Refusal.{Answers, AnswersIfMemory, subscribe_refusal, unsubscribe_refusal, send_refusal};

use crate::ClientId;
use crate::channel_names::ChannelNames;
use crate::delivery::{Notified, check_takers, copies_for, deliver_each};
use crate::listener::Listener;
use crate::message::{Draft, Message};
use crate::refusal::MessagesError;
use std::alloc::{AllocError, Global};
use std::marker::Model;

/// The clients that have subscribed to a channel since they came, by rising number (MPD protocol reference 0.23, "Client to client").
/// Clients that never did aren't known here, have no channel and nothing unread.
///
/// A call first tests the name, then what else it may be refused for; it takes memory last. A refused call leaves everything as it was.
#[derive(Debug, Drop)]
pub struct ClientMessages {
    listeners: Vec<Listener>,
}

impl Model for ClientMessages {
    ghost use Rattle.std.specs.Prelude.{List};
    ghost use Rattle.client_messages.specs.declared.listener.Listener.{Listener};
    ghost use Rattle.client_messages.specs.Listeners.{IsRising};

    ghost Value = { List Listener };

    ghost view = { λ m. m.listeners.items };

    ghost invariant = { λ m. IsRising m.listeners.items };
}

impl ClientMessages {
    /// No client. It takes no memory yet.
    pub fn new(alloc: Global) -> Self
        ensures { result ≡ [] }
    {
        ClientMessages {
            listeners: Vec::new(alloc),
        }
    }

    /// The clients by rising number.
    pub fn as_slice(&self) -> &[Listener]
        ensures all { result.now ≡ self.now }
        ensures rising { IsRising self.now }
    {
        self.listeners.as_slice()
    }

    /// Forgets every client.
    pub fn clear(&mut self)
        ensures { self.new ≡ [] }
    {
        self.listeners.clear();
    }

    /// The client gets what is sent to the channel from now on. Refused by `BadChannelName`, `TooManyChannels`, `AlreadySubscribed` and
    /// `NoMemory`.
    pub fn subscribe(
        &mut self,
        alloc: Global,
        client: ClientId,
        channel: &str,
    ) -> Result<(), MessagesError>
        ensures ok { OnOk result (self.new ≡ subscribed self.old client channel.now) }
        ensures err { OnErr result (self.new ≡ self.old) }
        ensures answer { AnswersIfMemory (subscribe_refusal self.old client channel.now) result }
    {
        match search(&self.listeners, client) {
            Ok(at) => self.listeners[at].channels.add(alloc, channel),
            Err(at) => self.insert(alloc, at, client, channel),
        }
    }

    // A client that isn't known subscribes to its first channel, and gets this place.
    fn insert(
        &mut self,
        alloc: Global,
        at: usize,
        client: ClientId,
        channel: &str,
    ) -> Result<(), MessagesError>
        requires { IsGapFor self.old client at }
        ensures ok { OnOk result (self.new ≡ subscribed self.old client channel.now) }
        ensures err { OnErr result (self.new ≡ self.old) }
        ensures answer { AnswersIfMemory (subscribe_refusal self.old client channel.now) result }
    {
        let listener = match Listener::with_channel(alloc, client, channel) {
            Ok(listener) => listener,
            Err(error) => return Err(error),
        };
        if self.listeners.insert(at, listener).is_err() {
            return Err(MessagesError::NoMemory);
        }
        Ok(())
    }

    /// The client gets nothing more that is sent to the channel; what it hasn't read stays. Refused by `NotSubscribed`, of whatever name.
    pub fn unsubscribe(&mut self, client: ClientId, channel: &str) -> Result<(), MessagesError>
        ensures ok { OnOk result (self.new ≡ unsubscribed self.old client channel.now) }
        ensures err { OnErr result (self.new ≡ self.old) }
        ensures answer { Answers (unsubscribe_refusal self.old client channel.now) result }
    {
        match search(&self.listeners, client) {
            Ok(at) => self.listeners[at].channels.remove(channel),
            Err(_) => Err(MessagesError::NotSubscribed),
        }
    }

    /// All channels that clients have, by their bytes, each once.
    pub fn channels(&self, alloc: Global) -> Result<ChannelNames<'_>, AllocError>
        ensures names { IfOk result (λ names. names ≡ channels_in self.now) }
        ensures each { IfOk result (λ names. (channel : List ℕ) → is_among channel names ≡ is_heard channel self.now) }
        ensures rising { IfOk result (IsStrictlySortedBy (slice_cmp nat_cmp)) }
    {
        ChannelNames::of(alloc, &self.listeners)
    }

    /// Sends a message to those who have the channel and room for it, the sender too if it is one of them. Refused by `BadChannelName`,
    /// `NobodySubscribed`, `NobodyHasRoom` and `NoMemory`.
    pub fn send(
        &mut self,
        alloc: Global,
        channel: &str,
        text: &str,
    ) -> Result<Notified, MessagesError>
        ensures sent { OnOk result (self.new ≡ sent self.old (message channel.now text.now)) }
        ensures notified { IfOk result (λ clients. clients ≡ notified self.old (message channel.now text.now)) }
        ensures err { OnErr result (self.new ≡ self.old) }
        ensures answer { AnswersIfMemory (send_refusal self.old (message channel.now text.now)) result }
    {
        let draft = Draft::new(channel, text)?;
        check_takers(&self.listeners, &draft)?;
        let copies = copies_for(alloc, &self.listeners, &draft)?;
        let clients = Vec::with_capacity(alloc, self.listeners.len())?;
        Ok(deliver_each(&mut self.listeners, &draft, copies, clients))
    }

    /// What the client hasn't read, oldest first.
    pub fn unread(&self, client: ClientId) -> &[Message]
        ensures messages { let listener = listener_of self.now client in result.now ≡ listener.unread }
        ensures within { IsWithinLimits result.now }
    {
        match search(&self.listeners, client) {
            Ok(at) => self.listeners[at].unread.as_slice(),
            Err(_) => &[],
        }
    }

    /// The client has read all. It takes no memory and can't fail.
    pub fn set_read(&mut self, client: ClientId)
        ensures { self.new ≡ with_all_read self.old client }
    {
        match search(&self.listeners, client) {
            Ok(at) => self.listeners[at].unread.clear(),
            // It has nothing unread.
            Err(_) => {}
        }
    }

    /// Forgets the client, whether it is known or not. It takes no memory and can't fail.
    pub fn leave(&mut self, client: ClientId)
        ensures { self.new ≡ left self.old client }
    {
        match search(&self.listeners, client) {
            Ok(at) => {
                self.listeners.remove(at);
            }
            Err(_) => {}
        }
    }
}

// Where the client is, or where it would go.
fn search(listeners: &[Listener], client: ClientId) -> Result<usize, usize>
    requires { IsRising listeners.now }
    ensures found { IfOk result (IsAt listeners.now client) }
    ensures absent { IfErr result (IsGapFor listeners.now client) }
{
    listeners.binary_search_by_key(&client, |l| l.client)
}
