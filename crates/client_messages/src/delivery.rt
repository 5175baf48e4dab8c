// How a message comes to those who get it: a copy for each is made before anything changes.
ghost use Rattle.std.specs.Prelude.{◌≡◌, ◌≤◌, [], length, replicate, vec_capacity, IfOk};
ghost use Rattle.std.specs.List.{count_by, list_any};
ghost use Rattle.client_messages.specs.Listeners.{IsRising, AreRising, is_heard, takes, sent, notified};
ghost use Rattle.client_messages.specs.Refusal.{Answers, takers_refusal};

use crate::ClientId;
use crate::listener::Listener;
use crate::message::{Draft, Message};
use crate::refusal::MessagesError;
use std::alloc::{AllocError, Global};
use std::marker::Model;

/// The clients, by rising number, for which a message is the first that they haven't read: these are to be told of it.
#[derive(Debug, Drop)]
pub struct Notified {
    clients: Vec<ClientId>,
}

impl Model for Notified {
    ghost use Rattle.std.specs.Prelude.{ℕ, List};
    ghost use Rattle.client_messages.specs.Listeners.{AreRising};

    ghost Value = { List ℕ };

    ghost view = { λ n. n.clients.items };

    ghost invariant = { λ n. AreRising n.clients.items };
}

impl Notified {
    pub fn as_slice(&self) -> &[ClientId]
        ensures clients { result.now ≡ self.now }
        ensures rising { AreRising self.now }
    {
        self.clients.as_slice()
    }
}

// Refused where nobody gets the message.
pub(crate) fn check_takers(listeners: &[Listener], draft: &Draft<'_>) -> Result<(), MessagesError>
    ensures { Answers (takers_refusal listeners.now draft.now) result }
{
    if !is_heard(listeners, draft.channel()) {
        return Err(MessagesError::NobodySubscribed);
    }
    if !has_taker(listeners, draft) {
        return Err(MessagesError::NobodyHasRoom);
    }
    Ok(())
}

// Whether some client has the channel.
fn is_heard(listeners: &[Listener], channel: &str) -> bool
    ensures { result ≡ is_heard channel.now listeners.now }
{
    listeners.iter().any(|l| l.channels.contains(channel))
}

// Whether some client gets the message.
fn has_taker(listeners: &[Listener], draft: &Draft<'_>) -> bool
    ensures { result ≡ list_any (takes draft.now) listeners.now }
{
    listeners.iter().any(|l| l.takes(draft))
}

// A copy of the message for each client that gets it.
pub(crate) fn copies_for(
    alloc: Global,
    listeners: &[Listener],
    draft: &Draft<'_>,
) -> Result<Vec<Message>, AllocError>
    ensures { IfOk result (λ copies. copies.items ≡ replicate (count_by (takes draft.now) listeners.now) draft.now) }
{
    let mut copies = Vec::new(alloc);
    for listener in listeners {
        if listener.takes(draft) {
            copies.push(draft.copy(alloc)?)?;
        }
    }
    Ok(copies)
}

// Gives each its copy, and tells for whom it is the first that they haven't read.
pub(crate) fn deliver_each(
    listeners: &mut [Listener],
    draft: &Draft<'_>,
    mut copies: Vec<Message>,
    mut clients: Vec<ClientId>,
) -> Notified
    requires rising { IsRising listeners.old }
    requires copies { copies.items ≡ replicate (count_by (takes draft.now) listeners.old) draft.now }
    requires empty { clients.items ≡ [] }
    requires room { length listeners.old ≤ vec_capacity clients }
    ensures sent { listeners.new ≡ sent listeners.old draft.now }
    ensures notified { result ≡ notified listeners.old draft.now }
    ensures rising { IsRising listeners.new }
{
    for listener in listeners.iter_mut() {
        if let Some(client) = listener.deliver(draft, &mut copies) {
            clients.push_reserved(client);
        }
    }
    Notified { clients }
}
