// Who is connected, under which key and number, and what they did and was not served yet.
ghost use Rattle.std.specs.Prelude.{◌≡◌, ◌≢◌, ◌⊎◌, ◌↔◌, ◌+◌, ◌-◌, ◌^◌, ◌<◌, ◌≤◌, ℕ, ◌∷◌, [], length, Some, IsSome, IsTrue, MatchOption};
ghost use Rattle.std.specs.Prelude.{None, false, true, IfOk, IfSome, OnOk, OnSome};
ghost use Rattle.slab.specs.Slab.{get, slab_len};
ghost use Rattle.mio_clients.specs.Connections.{ConnectionsState, IsVacant, IsAt, IsAlone, IsAdmitted, IsFull, IsFailedAt, client_limit};
ghost use Rattle.mio_clients.specs.Connections.{is_clock_due, is_other_second, with_clock_asked};
ghost use Rattle.mio_clients.specs.Events.{asked_by_event, asked_in, has_request_of, without};
ghost use Rattle.mio_clients.specs.Grouping.{group_len};
ghost use Rattle.mio_clients.specs.Rounds.{IsDealt};
ghost use Rattle.mio_clients.specs.Seeking.{IsSortedOut};
ghost use Rattle.mio_clients.specs.Waiting.{QuietBehind, StaysQuiet};
ghost use Rattle.mio_clients.specs.Later.{no_bytes, no_requests, bytes_for, Loses};
ghost use Rattle.std.specs.List.{AllByRecursion};
ghost use Rattle.mio_clients.specs.Leaving.{AllFollow, IsFollowed, IsForgotten, IsLeftAt};
ghost use Rattle.mio_clients.specs.Yielding.{IsFound, IsFoundBelow, IsHeardAt, MayYield, NowWaits, WasGiven};
ghost use Rattle.mio_clients.specs.Yielding.{active_until, is_busy, is_over, keeps_until};

use crate::CLIENT_LIMIT;
use crate::client::{Client, Reading, Writing};
use crate::event::ClientEvent;
use crate::pictures::PictureLine;
use crate::queue::EventQueue;
use crate::ready::Ready;
use crate::slots::{
    drop_slot, put_off_slot, queue_slot, read_slot, release_slot, wait_slot, watch_slot, write_slot,
};
use crate::stream::Stream;
use slab::Slab;
use std::alloc::{AllocError, Global};
use std::marker::Model;
use std::snapshot::Snapshot;

/// The clients that are connected, and what they did and was not served yet.
#[derive(Drop)]
pub(crate) struct Connections<S> {
    clients: Slab<Client<S>>,
    queue: EventQueue,
    last_id: u64,
    // The clients that were let go of since the last turn. They are closed at its end.
    left: Vec<Client<S>>,
    gone: Snapshot<Vec<Client<S>>>,
    // The time of the turn, in milliseconds by the listener's clock.
    time: u64,
    // The second in which a clock was asked last in this life of the daemon, if one was.
    clock_second: Option<u64>,
}

impl<S> Model for Connections<S> {
    ghost use Rattle.std.specs.Prelude.{◌-◌, vec_len, vec_capacity};
    ghost use Rattle.mio_clients.specs.Connections.{ConnectionsState, AreConnections};

    ghost Value = { ConnectionsState S };

    ghost view = { λ c. record {
      clients = c.clients;
      events = c.queue.events;
      last_id = c.last_id;
      room = c.queue.room;
      left = c.left.items;
      places = vec_capacity c.left - vec_len c.left;
      gone = c.gone.value.items;
      time = c.time;
      clock_second = c.clock_second;
    } };

    ghost invariant = { λ c. AreConnections c.clients c.queue c.last_id (vec_capacity c.left - vec_len c.left) };
}

// Whether memory was refused.
fn is_refused(reading: Option<Reading>) -> bool
    ensures { IsTrue result ↔ (reading ≡ Some Reading.Refused) }
{
    matches!(reading, Some(Reading::Refused))
}

// Whether this is another second than that of before, if there was one.
fn is_other_second(before: Option<u64>, second: u64) -> bool
    ensures { result ≡ is_other_second before second }
{
    match before {
        None => true,
        Some(before) => before != second,
    }
}

impl<S: Stream> Connections<S> {
    /// No clients, with room for `CLIENT_LIMIT`.
    pub(crate) fn new(alloc: Global) -> Result<Self, AllocError>
        ensures clients { IfOk result (λ c. c.clients.slots ≡ []) }
        ensures events { IfOk result (λ c. c.events ≡ []) }
        ensures last_id { IfOk result (λ c. c.last_id ≡ 0) }
        ensures asks { IfOk result (λ c. c.clock_second ≡ None) }
    {
        let left = Vec::new(alloc);
        let gone = Snapshot::of(&left);
        Ok(Connections {
            clients: Slab::with_capacity(alloc, CLIENT_LIMIT)?,
            queue: EventQueue::new(alloc),
            last_id: 0,
            left,
            gone,
            time: 0,
            clock_second: None,
        })
    }

    /// Whether no further client may connect.
    pub(crate) fn is_full(&self) -> bool
        ensures { IsTrue result ↔ IsFull self.now }
    {
        self.clients.len() >= CLIENT_LIMIT || self.last_id == u64::MAX
    }

    /// Whether the numbers of clients are spent.
    pub(crate) fn is_spent(&self) -> bool
        ensures { IsTrue result ↔ (self.now.last_id ≡ 2 ^ 64 - 1) }
    {
        self.last_id == u64::MAX
    }

    /// One more than the greatest key.
    pub(crate) fn capacity(&self) -> usize
        ensures { result ≡ self.now.clients.capacity }
    {
        self.clients.capacity()
    }

    /// Sets the time of the turn.
    pub(crate) fn set_time(&mut self, now: u64)
        ensures { self.new ≡ record self.old { time = now } }
    {
        self.time = now;
    }

    /// The time of the turn.
    pub(crate) fn time(&self) -> u64
        ensures { result ≡ self.now.time }
    {
        self.time
    }

    /// Whether a clock is to be asked, since none was in the second of the turn.
    pub(crate) fn is_clock_due(&self) -> bool
        ensures { result ≡ is_clock_due self.now }
    {
        is_other_second(self.clock_second, self.time / 1_000)
    }

    /// The same, and it counts as asked then.
    pub(crate) fn asks_clock(&mut self) -> bool
        ensures due { result ≡ is_clock_due self.old }
        ensures asked { self.new ≡ with_clock_asked self.old }
    {
        let second = self.time / 1_000;
        let is_due = is_other_second(self.clock_second, second);
        self.clock_second = Some(second);
        is_due
    }

    /// No clock counts as asked.
    pub(crate) fn forget_clock(&mut self)
        ensures { self.new ≡ record self.old { clock_second = None } }
    {
        self.clock_second = None;
    }

    // When the client at a key was active last.
    fn last_active_at(&self, key: usize) -> u64
        ensures { IfSome (get self.now.clients key) (λ client. result ≡ client.last_active) }
    {
        match self.clients.get(key) {
            Some(client) => client.last_active,
            None => 0,
        }
    }

    /// For how many milliseconds nothing came of the client at a key, and it was given nothing.
    pub(crate) fn silence_at(&self, key: usize) -> u64 {
        self.time.saturating_sub(self.last_active_at(key))
    }

    // Whether a client waits in `idle`, was not sent all that it was given, or has a request that waits to be served.
    fn is_busy(&self, client: &Client<S>) -> bool
        ensures { result ≡ is_busy self.now.events client.now }
    {
        client.is_waiting || client.session.queued_len() > 0 || self.queue.has_request_of(client.id)
    }

    // When a client was active last, where one that is busy is active now. Of one that is active now this makes no difference, and to find
    // it out may take all events that wait.
    fn active_until(&self, client: &Client<S>) -> u64
        ensures { result ≡ active_until self.now client.now }
    {
        if client.last_active == self.time {
            return self.time;
        }
        if self.is_busy(client) {
            self.time
        } else {
            client.last_active
        }
    }

    // Until when a client keeps its place against one over a network.
    fn keeps_until(&self, client: &Client<S>) -> u128
        ensures { result ≡ keeps_until self.now client.now }
    {
        u128::from(self.active_until(client)) + u128::from(client.keeps_for())
    }

    // The same of the client at a key.
    fn keeps_until_at(&self, key: usize) -> u128
        ensures { IfSome (get self.now.clients key) (λ client. result ≡ keeps_until self.now client) }
    {
        match self.clients.get(key) {
            Some(client) => self.keeps_until(client),
            None => 0,
        }
    }

    // Whether a client's time is over.
    fn is_overdue(&self, client: &Client<S>) -> bool
        ensures { IsTrue result ↔ (keeps_until self.now client.now ≤ self.now.time) }
    {
        let silent_until = u128::from(client.last_active) + u128::from(client.keeps_for());
        if u128::from(self.time) < silent_until {
            return false;
        }
        !self.is_busy(client)
    }

    // Whether a client may give way to another, over a network or not.
    fn may_yield(&self, client: &Client<S>, to_remote: bool) -> bool
        ensures { IsTrue result ↔ MayYield S.remote to_remote self.now client.now }
    {
        client.stream.is_remote() && (!to_remote || self.is_overdue(client))
    }

    /// The client that gives way to another, over a network or not.
    pub(crate) fn first_to_yield(&self, to_remote: bool) -> Option<usize>
        ensures { IsFound S.remote to_remote self.now result }
    {
        let mut found = None;
        for key in 0..self.clients.capacity() {
            found = self.sooner_of(found, key, to_remote);
        }
        found
    }

    // What was found at the keys before, or the client at this key, if it gives way sooner.
    fn sooner_of(&self, found: Option<usize>, key: usize, to_remote: bool) -> Option<usize>
        requires { IsFoundBelow S.remote to_remote self.now key found }
        ensures { IsFoundBelow S.remote to_remote self.now (key + 1) result }
    {
        let Some(client) = self.clients.get(key) else {
            return found;
        };
        if !self.may_yield(client, to_remote) {
            return found;
        }
        let Some(other) = found else {
            return Some(key);
        };
        let before = self.keeps_until_at(other);
        let here = self.keeps_until(client);
        if before <= here { found } else { Some(key) }
    }

    /// How many events wait.
    pub(crate) fn event_count(&self) -> usize
        ensures { result ≡ length self.now.events }
    {
        self.queue.len()
    }

    /// How many clients are connected.
    pub(crate) fn len(&self) -> usize
        ensures { result ≡ slab_len self.now.clients }
    {
        self.clients.len()
    }

    /// The number of the client at a key.
    pub(crate) fn id_at(&self, key: usize) -> u64
        ensures { IfSome (get self.now.clients key) (λ client. result ≡ client.id) }
    {
        match self.clients.get(key) {
            Some(client) => client.id,
            None => 0,
        }
    }

    /// Whether something is queued for the client at a key, and no write was blocked since it was told to be ready.
    pub(crate) fn may_write(&self, key: usize) -> bool {
        match self.clients.get(key) {
            Some(client) => !client.is_blocked && client.session.queued_len() > 0,
            None => false,
        }
    }

    /// Whether the client at a key is to be closed, was sent all that is queued for it, and no request of it waits.
    pub(crate) fn is_over(&self, key: usize) -> bool
        ensures { MatchOption (get self.now.clients key) (result ≡ false) (λ client. result ≡ is_over self.now.events client) }
    {
        match self.clients.get(key) {
            Some(client) => {
                client.is_closing
                    && client.session.queued_len() == 0
                    && !self.queue.has_request_of(client.id)
            }
            None => false,
        }
    }

    // Whether the client at a key is read no more until its first request has its picture.
    fn is_held_back(&self, key: usize) -> bool {
        match self.clients.get(key) {
            Some(client) => client.has_more && self.queue.is_seeking(client.id),
            None => false,
        }
    }

    /// Has the client at a key told of as it needs; `false` where that can't be had.
    pub(crate) fn watch_at<P: Ready<S>>(&mut self, key: usize, ready: &mut P) -> bool
        ensures later { AllFollow S.remaining S.contents no_bytes no_requests self.old self.new }
        ensures events { self.new.events ≡ self.old.events }
    {
        let is_held_back = self.is_held_back(key);
        watch_slot(&mut self.clients, key, ready, is_held_back)
    }

    /// Lets go of all clients and of what they did. The numbers of clients go on.
    pub(crate) fn clear(&mut self)
        ensures clients { self.new.clients.slots ≡ [] }
        ensures events { self.new.events ≡ [] }
        ensures last_id { self.new.last_id ≡ self.old.last_id }
        ensures asks { self.new.clock_second ≡ None }
    {
        self.clients.clear();
        self.queue.clear();
        self.left.clear();
        self.forget_clock();
    }

    /// Closes the clients that were let go of.
    pub(crate) fn close_left(&mut self)
        ensures { self.new ≡ record self.old { left = []; places = self.new.places; gone = self.old.left } }
    {
        self.gone = Snapshot::of(&self.left);
        self.left.clear();
    }

    /// Makes room for the first and the last event of a client that connects, and for where it is let go of.
    pub(crate) fn reserve(&mut self) -> Result<(), AllocError>
        ensures same { self.new ≡ record self.old { room = self.new.room; places = self.new.places } }
        ensures room { OnOk result (slab_len self.old.clients + 2 ≤ self.new.room) }
        ensures places { OnOk result (slab_len self.old.clients + 1 ≤ self.new.places) }
    {
        self.left.reserve(self.clients.len() + 1)?;
        self.queue.reserve()
    }

    /// The key of the next client.
    pub(crate) fn vacant_key(&self) -> usize
        ensures { result ≡ self.now.clients.vacant_key }
    {
        self.clients.vacant_key()
    }

    /// Takes a client in, with the next number, and gathers its connect.
    pub(crate) fn admit(&mut self, alloc: Global, stream: S)
        requires room { slab_len self.old.clients + 2 ≤ self.old.room }
        requires places { slab_len self.old.clients + 1 ≤ self.old.places }
        requires not_full { ¬ IsFull self.old }
        ensures admitted { IsAdmitted stream self.old self.new }
        ensures len { slab_len self.new.clients ≡ slab_len self.old.clients + 1 }
        ensures later { IsFollowed S.remaining S.contents no_bytes no_requests self.old self.new }
    {
        self.last_id += 1;
        self.queue.connect(self.last_id);
        let client = Client::new(alloc, self.last_id, stream, self.time);
        let _key = self.clients.insert_reserved(client);
    }

    /// Lets go of the client at a key, and takes another one in.
    pub(crate) fn replace(&mut self, alloc: Global, key: usize, stream: S)
        requires room { slab_len self.old.clients + 2 ≤ self.old.room }
        requires places { slab_len self.old.clients + 1 ≤ self.old.places }
        requires there { IsSome (get self.old.clients key) }
        requires unspent { self.old.last_id ≢ 2 ^ 64 - 1 }
        ensures replaced { (between : ConnectionsState S) × Loses key self.old between × IsAdmitted stream between self.new }
        ensures len { slab_len self.new.clients ≡ slab_len self.old.clients }
        ensures later { IsFollowed S.remaining S.contents no_bytes no_requests self.old self.new }
    {
        self.remove(key);
        self.admit(alloc, stream);
    }

    /// Where the client of this number is.
    pub(crate) fn find(&self, id: u64) -> Option<usize>
        ensures found { MatchOption result (IsVacant self.now id) (IsAt self.now id) }
        ensures alone { IfSome result (IsAlone self.now id) }
    {
        for key in 0..self.clients.capacity() {
            if let Some(client) = self.clients.get(key) {
                if client.id == id {
                    return Some(key);
                }
            }
        }
        None
    }

    /// Lets go of the client at a key. Its last event is gathered, unless the daemon has closed it itself.
    pub(crate) fn remove(&mut self, key: usize)
        ensures loses { Loses key self.old self.new }
        ensures len { IsSome (get self.old.clients key) → slab_len self.new.clients + 1 ≡ slab_len self.old.clients }
        ensures few { IsSome (get self.old.clients key) → slab_len self.new.clients + 1 ≤ client_limit }
        ensures room { slab_len self.old.clients + 2 ≤ self.old.room → slab_len self.new.clients + 2 ≤ self.new.room }
        ensures places { slab_len self.old.clients + 1 ≤ self.old.places → slab_len self.new.clients + 1 ≤ self.new.places }
        ensures quiet { StaysQuiet self.old.events self.new.events }
        ensures later { AllFollow S.remaining S.contents no_bytes no_requests self.old self.new }
    {
        drop_slot(&mut self.clients, &mut self.queue, &mut self.left, key);
    }

    /// Writes to the client at a key what is queued for it.
    pub(crate) fn write_at(&mut self, key: usize) -> Option<Writing>
        ensures later { AllFollow S.remaining S.contents no_bytes no_requests self.old self.new }
        ensures events { self.new.events ≡ self.old.events }
        ensures failed { result ≡ Some Writing.Failed → IsFailedAt S.remaining S.contents S.failed key self.old self.new }
    {
        write_slot(&mut self.clients, key)
    }

    /// Whether a request of the client at a key waits.
    pub(crate) fn is_asking(&self, key: usize) -> bool
        ensures { MatchOption (get self.now.clients key) (result ≡ false) (λ client. result ≡ has_request_of client.id self.now.events) }
    {
        match self.clients.get(key) {
            Some(client) => self.queue.has_request_of(client.id),
            None => false,
        }
    }

    /// Puts off what is to be read of the client at a key.
    pub(crate) fn put_off(&mut self, key: usize)
        ensures later { AllFollow S.remaining S.contents no_bytes no_requests self.old self.new }
        ensures events { self.new.events ≡ self.old.events }
    {
        put_off_slot(&mut self.clients, key);
    }

    /// Reads of the client at a key what is there, unless something is queued for it or it is to be closed, and gathers its requests.
    /// Where memory is refused, it is let go of.
    pub(crate) fn read_at(
        &mut self,
        alloc: Global,
        key: usize,
        buffer: &mut [u8],
    ) -> Option<Reading>
        ensures later { AllFollow S.remaining S.contents no_bytes no_requests self.old self.new }
        ensures heard { IsHeardAt S.remaining key self.old self.new }
        ensures failed { result ≡ Some Reading.Failed → IsFailedAt S.remaining S.contents S.failed key self.old self.new }
    {
        let reading = read_slot(
            alloc,
            &mut self.clients,
            key,
            buffer,
            &mut self.queue,
            self.time,
        );
        if is_refused(reading) {
            drop_slot(&mut self.clients, &mut self.queue, &mut self.left, key);
        }
        reading
    }

    /// Queues bytes for the client of this number. It is let go of where they are too many, or where memory was refused: then `false`.
    pub(crate) fn give(&mut self, id: u64, bytes: &[u8]) -> bool
        ensures active { WasGiven id bytes.now self.old self.new }
        ensures later { AllFollow S.remaining S.contents (bytes_for id bytes.now) no_requests self.old self.new }
        ensures quiet { StaysQuiet self.old.events self.new.events }
        ensures vacant { result ≡ false → IsVacant self.new id }
        ensures stays { result ≡ true → IsVacant self.new id → IsVacant self.old id }
        ensures nobody { IsVacant self.old id → (result ≡ true) × (self.new ≡ self.old) }
    {
        let Some(key) = self.find(id) else {
            return true;
        };
        let is_queued = queue_slot(&mut self.clients, key, bytes, self.time);
        if !is_queued {
            drop_slot(&mut self.clients, &mut self.queue, &mut self.left, key);
        }
        is_queued
    }

    /// Has the client of this number closed, once what is queued for it is sent: the daemon knows of it no more.
    pub(crate) fn release(&mut self, id: u64)
        ensures later { AllFollow S.remaining S.contents no_bytes no_requests self.old self.new }
        ensures events { self.new.events ≡ self.old.events }
    {
        if let Some(key) = self.find(id) {
            release_slot(&mut self.clients, key);
        }
    }

    /// Lets go of the requests of the client of this number that wait. It isn't there any more.
    pub(crate) fn forget(&mut self, id: u64)
        requires vacant { IsVacant self.old id }
        ensures same { self.new ≡ record self.old { events = without id self.old.events; room = self.new.room } }
    {
        self.queue.forget(id);
    }

    /// Lets go of the requests that wait of those that were let go of.
    pub(crate) fn forget_left(&mut self)
        ensures later { AllFollow S.remaining S.contents no_bytes no_requests self.old self.new }
        ensures same { self.new ≡ record self.old { events = self.new.events; room = self.new.room } }
        ensures forgotten { AllByRecursion (λ last. IsForgotten last.id self.new) self.old.left }
        ensures quiet { StaysQuiet self.old.events self.new.events }
    {
        let mut left = self.left_count();
        while left > 0 {
            left -= 1;
            let Some(id) = self.left_id(left) else {
                return;
            };
            self.forget_gone(id);
        }
    }

    // How many were let go of.
    fn left_count(&self) -> usize
        ensures { result ≡ length self.now.left }
    {
        self.left.len()
    }

    // The number of one of those that were let go of.
    fn left_id(&self, place: usize) -> Option<u64>
        ensures { MatchOption result (length self.now.left ≤ place) (λ id. IsLeftAt place id self.now.left) }
    {
        match self.left.get(place) {
            Some(client) => Some(client.id),
            None => None,
        }
    }

    // Lets go of the requests of the client of this number that wait, if it isn't there any more.
    fn forget_gone(&mut self, id: u64)
        ensures later { AllFollow S.remaining S.contents no_bytes no_requests self.old self.new }
        ensures same { self.new ≡ record self.old { events = self.new.events; room = self.new.room } }
        ensures forgotten { IsForgotten id self.new }
        ensures others { (c : ℕ) → asked_in c self.old.events ≡ [] → asked_in c self.new.events ≡ [] }
        ensures quiet { StaysQuiet self.old.events self.new.events }
    {
        match self.find(id) {
            Some(_) => {}
            None => self.forget(id),
        }
    }

    /// A request of the client of this number is served: it waits until it is given something.
    pub(crate) fn await_answer(&mut self, id: u64)
        ensures waits { NowWaits id self.old self.new }
        ensures later { AllFollow S.remaining S.contents no_bytes no_requests self.old self.new }
        ensures events { self.new.events ≡ self.old.events }
    {
        if let Some(key) = self.find(id) {
            wait_slot(&mut self.clients, key);
        }
    }

    /// Whether the first event that waits is a request of this client.
    pub(crate) fn is_next(&self, id: u64) -> bool {
        self.queue.is_next(id)
    }

    /// Puts the first request of each client in front of the others.
    pub(crate) fn deal(&mut self, alloc: Global)
        ensures same { self.new ≡ record self.old { events = self.new.events; room = self.new.room } }
        ensures dealt { IsDealt self.old.events self.new.events ⊎ (self.new.events ≡ self.old.events) }
    {
        self.queue.deal(alloc);
    }

    /// Puts the requests that wait for a picture behind the others, and what was read in front of the request that asks for it.
    pub(crate) fn sort_out(&mut self, alloc: Global, line: &mut PictureLine)
        ensures same { self.new ≡ record self.old { events = self.new.events; room = self.new.room } }
        ensures asked { (c : ℕ) → asked_in c self.new.events ≡ asked_in c self.old.events }
        ensures sorted { IsSortedOut self.new.events ⊎ (self.new.events ≡ self.old.events) }
    {
        self.queue.sort_out(alloc, line);
    }

    /// Whether the first request of this client waits for a picture.
    pub(crate) fn is_seeking(&self, client: u64) -> bool {
        self.queue.is_seeking(client)
    }

    /// Whether the first event is a request that waits for a picture.
    pub(crate) fn is_waiting_next(&self) -> bool {
        self.queue.is_waiting_next()
    }

    /// How many events are to be served in a turn: all, or where turns are bounded those in front of the requests that wait for a picture.
    pub(crate) fn servable(&self, is_bounded: bool) -> usize
        ensures { QuietBehind is_bounded result self.now.events }
    {
        if is_bounded {
            self.queue.servable()
        } else {
            self.queue.len()
        }
    }

    /// How many events are served together next, at most so many.
    pub(crate) fn group_len(&self, most: usize) -> usize
        ensures { result ≡ group_len most self.now.events }
    {
        self.queue.group_len(most)
    }

    /// Takes the first event that waits.
    pub(crate) fn pop(&mut self) -> Option<ClientEvent>
        ensures same { self.new ≡ record self.old { events = self.new.events; room = self.new.room } }
        ensures event { MatchOption result ((self.old.events ≡ []) × (self.new.events ≡ []))
            (λ event. self.old.events ≡ event ∷ self.new.events) }
        ensures room { OnSome result (slab_len self.new.clients + 1 ≤ self.new.room) }
        ensures grows { OnSome result (self.old.room + 1 ≤ self.new.room) }
        ensures known { IfSome result (λ event. (c : ℕ) → self.new.last_id < c → asked_by_event c event ≡ []) }
    {
        self.queue.pop()
    }

    /// Puts an event back at the front.
    pub(crate) fn put_back(&mut self, event: ClientEvent)
        requires room { slab_len self.old.clients + 1 ≤ self.old.room }
        requires known { (c : ℕ) → self.old.last_id < c → asked_by_event c event ≡ [] }
        ensures same { self.new ≡ record self.old { events = event ∷ self.old.events; room = self.new.room } }
        ensures room { self.old.room ≤ self.new.room + 1 }
    {
        self.queue.put_back(event);
    }
}
