// One client where it stands.
ghost use Rattle.std.specs.Prelude.{◌≡◌, ◌≢◌, ◌+◌, ◌≤◌, ◌-◌, ◌++◌, ℕ, [], None, Some, true, vec_len, vec_capacity};
ghost use Rattle.std.specs.Prelude.{IsTrue, IsSome, IfSome, IfNone, IsSomeAnd};
ghost use Rattle.std.specs.Option.{option_to_list};
ghost use Rattle.slab.specs.Slab.{get, slab_len};
ghost use Rattle.mio_clients.specs.Given.{Moves};
ghost use Rattle.mio_clients.specs.Yielding.{active_at, still_waits, IsHeard, StaysServed};
ghost use Rattle.mio_clients.specs.Connections.{ReadsInPart, IsSameElsewhere, IsMovedAt, IsReadAt, IsToldGone};

use crate::client::{Client, Reading, Writing};
use crate::queue::EventQueue;
use crate::ready::Ready;
use crate::stream::Stream;
use slab::Slab;
use std::alloc::Global;

// Writes what is queued for the client at this key.
#[tactic(auto, using(crate::proofs::ConnectionLaws::len_with_value))]
pub(crate) fn write_slot<S: Stream>(clients: &mut Slab<Client<S>>, key: usize) -> Option<Writing>
    ensures elsewhere { IsSameElsewhere key clients.old clients.new }
    ensures moved { IsMovedAt (λ x y. Moves S.remaining S.contents [] [] x y) key clients.old clients.new }
    ensures failed { result ≡ Some Writing.Failed → IsSomeAnd (get clients.new key) (λ client. S.failed client.stream ≡ true) }
{
    match clients.get_mut(key) {
        None => None,
        Some(client) => {
            let writing = client.write_ready();
            client.is_blocked = matches!(writing, Writing::Blocked);
            Some(writing)
        }
    }
}

// Reads of the client at this key what is there, unless something is queued for it or it is to be closed. After `Refused` it is not to be
// used any more.
#[tactic(auto, using(crate::proofs::ConnectionLaws::len_with_value, crate::proofs::GivenLaws::reads_flag, crate::proofs::GivenLaws::part_flag, crate::proofs::GivenLaws::reads_none, crate::proofs::GivenLaws::moves_itself, crate::proofs::YieldLaws::heard_itself))]
pub(crate) fn read_slot<S: Stream>(
    alloc: Global,
    clients: &mut Slab<Client<S>>,
    key: usize,
    buffer: &mut [u8],
    queue: &mut EventQueue,
    now: u64,
) -> Option<Reading>
    requires unrefused { IfSome (get clients.old key) (λ client. client.session.closed ≡ None) }
    ensures elsewhere { IsSameElsewhere key clients.old clients.new }
    ensures idle { IfNone result ((clients.new ≡ clients.old) × (queue.new.events ≡ queue.old.events)) }
    ensures read { IfSome result (λ r. r ≢ Reading.Refused
        → IsReadAt S.remaining S.contents key clients.old clients.new queue.old.events queue.new.events) }
    ensures there { IfSome result (λ _. IsSome (get clients.old key)) }
    ensures heard { IsMovedAt (IsHeard S.remaining now) key clients.old clients.new }
    ensures served { IsMovedAt StaysServed key clients.old clients.new }
    ensures failed { result ≡ Some Reading.Failed → IsSomeAnd (get clients.new key) (λ client. S.failed client.stream ≡ true) }
    ensures refused { result ≡ Some Reading.Refused
        → IsMovedAt (λ x y. ReadsInPart S.remaining S.contents x y queue.old.events queue.new.events) key clients.old clients.new }
    ensures spare { queue.new.spare ≡ queue.old.spare }
{
    match clients.get_mut(key) {
        None => None,
        Some(client) => {
            if client.is_closing || client.session.queued_len() > 0 {
                return None;
            }
            let reading = client.read_ready(alloc, buffer, queue, now);
            client.has_more = reading.is_more();
            Some(reading)
        }
    }
}

// There is more to be read of the client at this key, which is put off.
#[tactic(auto, using(crate::proofs::ConnectionLaws::len_with_value))]
pub(crate) fn put_off_slot<S: Stream>(clients: &mut Slab<Client<S>>, key: usize)
    ensures elsewhere { IsSameElsewhere key clients.old clients.new }
    ensures moved { IsMovedAt (λ x y. y ≡ record x { has_more = true }) key clients.old clients.new }
{
    if let Some(client) = clients.get_mut(key) {
        client.has_more = true;
    }
}

// Queues bytes for the client at this key. Where that is refused, it is not to be used any more.
#[tactic(auto, using(crate::proofs::ConnectionLaws::len_with_value))]
pub(crate) fn queue_slot<S: Stream>(
    clients: &mut Slab<Client<S>>,
    key: usize,
    bytes: &[u8],
    now: u64,
) -> bool
    ensures elsewhere { IsSameElsewhere key clients.old clients.new }
    ensures session { IsMovedAt (λ x y. y ≡ record x {
      session = y.session;
      is_waiting = still_waits bytes.now x;
      last_active = active_at now bytes.now x;
    }) key clients.old clients.new }
    ensures queued { IsTrue result → IsMovedAt (λ x y. y ≡ record x {
      session = record x.session { queued = x.session.queued ++ bytes.now };
      is_waiting = still_waits bytes.now x;
      last_active = active_at now bytes.now x;
    }) key clients.old clients.new }
{
    match clients.get_mut(key) {
        None => false,
        Some(client) => client.give(bytes, now),
    }
}

// A request of the client at this key is served.
#[tactic(auto, using(crate::proofs::ConnectionLaws::len_with_value))]
pub(crate) fn wait_slot<S: Stream>(clients: &mut Slab<Client<S>>, key: usize)
    ensures elsewhere { IsSameElsewhere key clients.old clients.new }
    ensures moved { IsMovedAt (λ x y. y ≡ record x { is_waiting = true; was_served = true }) key clients.old clients.new }
{
    if let Some(client) = clients.get_mut(key) {
        client.is_waiting = true;
        client.was_served = true;
    }
}

// The client at this key is closed once what is queued for it is sent: the daemon knows of it no more.
#[tactic(auto, using(crate::proofs::ConnectionLaws::len_with_value))]
pub(crate) fn release_slot<S: Stream>(clients: &mut Slab<Client<S>>, key: usize)
    ensures elsewhere { IsSameElsewhere key clients.old clients.new }
    ensures moved { IsMovedAt (λ x y. y ≡ record x { is_closing = true; is_released = true }) key clients.old clients.new }
{
    if let Some(client) = clients.get_mut(key) {
        client.is_closing = true;
        client.is_released = true;
    }
}

// Has the client at this key told of as it needs, which is held back where its first request waits for a picture; `false` where that can't
// be had.
#[tactic(auto, using(crate::proofs::ConnectionLaws::len_with_value, crate::proofs::GivenLaws::moves_watched))]
pub(crate) fn watch_slot<S: Stream, P: Ready<S>>(
    clients: &mut Slab<Client<S>>,
    key: usize,
    ready: &mut P,
    is_held_back: bool,
) -> bool
    ensures elsewhere { IsSameElsewhere key clients.old clients.new }
    ensures moved { IsMovedAt (λ x y. Moves S.remaining S.contents [] [] x y) key clients.old clients.new }
{
    match clients.get_mut(key) {
        None => true,
        Some(client) => {
            let interest = client.interest(is_held_back);
            client.has_more = client.keeps_more(is_held_back);
            ready.watch(&mut client.stream, key, interest).is_ok()
        }
    }
}

// Lets go of the client at this key, for which there is a place. Its last event is gathered, unless the daemon has closed it itself.
pub(crate) fn drop_slot<S: Stream>(
    clients: &mut Slab<Client<S>>,
    queue: &mut EventQueue,
    left: &mut Vec<Client<S>>,
    key: usize,
)
    requires spare { queue.old.spare ≡ slab_len clients.old }
    requires places { slab_len clients.old ≤ vec_capacity left.old - vec_len left.old }
    ensures gone { get clients.new key ≡ None }
    ensures others { (other : ℕ) → other ≢ key → get clients.new other ≡ get clients.old other }
    ensures told { IsToldGone (get clients.old key) queue.old.events queue.new.events }
    ensures left { left.new.items ≡ left.old.items ++ option_to_list (get clients.old key) }
    ensures places { slab_len clients.new ≤ vec_capacity left.new - vec_len left.new }
    ensures spare { queue.new.spare ≡ slab_len clients.new }
    ensures fewer { slab_len clients.new ≤ slab_len clients.old }
    ensures len { IsSome (get clients.old key) → slab_len clients.new + 1 ≡ slab_len clients.old }
    ensures room { slab_len clients.old + 2 ≤ queue.old.room → slab_len clients.new + 2 ≤ queue.new.room }
    ensures free { slab_len clients.old + 1 ≤ vec_capacity left.old - vec_len left.old
        → slab_len clients.new + 1 ≤ vec_capacity left.new - vec_len left.new }
    ensures capacity { clients.new.capacity ≡ clients.old.capacity }
{
    let Some(client) = clients.try_remove(key) else {
        return;
    };
    if client.is_released {
        queue.release();
    } else {
        queue.end(client.id);
    }
    left.push_reserved(client);
}
