// Requests that are served together: their records reach the disk together, and then all are answered.
ghost use Rattle.std.specs.Prelude.{◌≡◌, ◌≢◌, ◌+◌, ◌*◌, ◌-◌, ◌<◌, ◌≤◌, ◌++◌, ℕ, [], length, is_some, vec_len, vec_capacity};
ghost use Rattle.std.specs.Prelude.{IfSome, MatchOption};
ghost use Rattle.slab.specs.Slab.{slab_len};
ghost use Rattle.live_stage.specs.Group.{most_looks};
ghost use Rattle.mio_clients.specs.Grouping.{AreGone, PutsBack, PutsBackOne, TakesGroup, TakesMany};
ghost use Rattle.mio_clients.specs.Grouping.{asked_of_all, group_len, group_limit, parts_of};
ghost use Rattle.mio_clients.specs.Events.{asked_by_event};
ghost use Rattle.mio_clients.specs.Waiting.{StaysQuiet};
ghost use Rattle.mio_clients.specs.Later.{no_bytes, no_requests};
ghost use Rattle.mio_clients.specs.Leaving.{AllFollow};
ghost use Rattle.mio_clients.specs.Parts.{asked_of, bytes_in, goes_on_behind, looks_in, stage_event_of, Serves};

use crate::clients::{Clients, Sending};
use crate::event::ClientEvent;
use crate::listener::Listener;
use crate::part::Part;
use crate::ready::Ready;
use crate::stream::Stream;
use daemon_core::Event;
use disk_model::Disk;
use live_stage::Turn;
use stage_workers::{Outbox, Pass, Served, ServedGroup, SharedStage, StageError};
use std::alloc::Global;
use std::sync::Wait;
use std::sync::ledger::Ledger;

// Room for a group: its events as the stage takes them, their clients, and who waits for an answer of each.
#[derive(Drop)]
pub(crate) struct GroupRoom {
    events: Vec<Event>,
    clients: Vec<u64>,
    askers: Vec<Option<u64>>,
}

impl GroupRoom {
    // Room for so many events, and for their parts and one more; none where memory is wanting.
    pub(crate) fn new<D>(alloc: Global, count: usize, parts: &mut Vec<Part<D>>) -> Option<Self>
        requires few { count ≤ group_limit }
        requires room { vec_len parts.old < vec_capacity parts.old }
        ensures parts { parts.new.items ≡ parts.old.items }
        ensures left { MatchOption result (vec_len parts.new < vec_capacity parts.new)
            (λ _. vec_len parts.new + count < vec_capacity parts.new) }
        ensures empty { IfSome result (λ room. (room.events.items ≡ []) × (room.clients.items ≡ [])) }
        ensures events { IfSome result (λ room. count ≤ vec_capacity room.events) }
        ensures clients { IfSome result (λ room. count ≤ vec_capacity room.clients) }
        ensures askers { IfSome result (λ room. (room.askers.items ≡ []) × (count ≤ vec_capacity room.askers)) }
    {
        if parts.reserve(count + 1).is_err() {
            return None;
        }
        match (
            Vec::with_capacity(alloc, count),
            Vec::with_capacity(alloc, count),
            Vec::with_capacity(alloc, count),
        ) {
            (Ok(events), Ok(clients), Ok(askers)) => Some(GroupRoom {
                events,
                clients,
                askers,
            }),
            _ => None,
        }
    }
}

// Whose event it is, and the event as the stage takes it.
fn handed_over(event: ClientEvent) -> (u64, Event)
    ensures event { result.1 ≡ stage_event_of event }
    ensures asked { (c : ℕ) → asked_of c result.1 ≡ asked_by_event c event }
    ensures client { (c : ℕ) → result.0 ≢ c → asked_of c result.1 ≡ [] }
{
    match event {
        ClientEvent::Connect(client) => (client, Event::Connect(client)),
        ClientEvent::Request(client, request) => (client, Event::Request(client, request)),
        ClientEvent::Seeking(client, request) => (client, Event::Request(client, request)),
        ClientEvent::Picture(client, told) => (client, Event::Picture(client, told)),
        ClientEvent::Gone(client) => (client, Event::Gone(client)),
    }
}

// The event of a client that the stage handed back; those of the player and of scans are none.
fn handed_back(event: Event) -> Option<ClientEvent>
    ensures event { IfSome result (λ e. stage_event_of e ≡ event) }
    ensures asked { (c : ℕ) → MatchOption result (asked_of c event ≡ []) (λ e. asked_by_event c e ≡ asked_of c event) }
{
    match event {
        Event::Connect(client) => Some(ClientEvent::Connect(client)),
        Event::Request(client, request) => Some(ClientEvent::Request(client, request)),
        Event::Picture(client, told) => Some(ClientEvent::Picture(client, told)),
        Event::Gone(client) => Some(ClientEvent::Gone(client)),
        _ => None,
    }
}

// Whether the turn goes on behind requests that were refused.
pub(crate) fn goes_on_behind(error: StageError) -> bool
    ensures { result ≡ goes_on_behind error }
{
    matches!(error, StageError::NoMemory | StageError::NumbersSpent)
}

impl<S: Stream, L: Listener<S>, P: Ready<S>> Clients<S, L, P> {
    // Serves the requests that stand first, so many, as a group. It answers how many events were served or let go of, or none where the
    // turn ends.
    pub(crate) fn serve_group<R: Wait, D: Disk, C: Ledger, Q: Ledger, T: Ledger>(
        &mut self,
        rt: &R,
        alloc: Global,
        stage: &SharedStage<D, C, Q, T>,
        pass: Pass<C, Q, T>,
        parts: &mut Vec<Part<D>>,
        room: GroupRoom,
        count: usize,
    ) -> (Option<usize>, Pass<C, Q, T>)
        requires count { ((n : ℕ) × (count ≡ group_len n self.old.events)) × (0 < count) }
        requires parts { vec_len parts.old + count < vec_capacity parts.old }
        requires empty { (room.events.items ≡ []) × (room.clients.items ≡ []) }
        requires room { (count ≤ vec_capacity room.events) × (count ≤ vec_capacity room.clients) }
        requires askers { (room.askers.items ≡ []) × (count ≤ vec_capacity room.askers) }
        ensures serves { Serves S.remaining S.contents (is_some result.0) self.old self.new parts.old.items parts.new.items pass result.1 }
        ensures some { IfSome result.0 (λ n. 0 < n) }
        ensures quiet { IfSome result.0 (λ n. TakesMany n self.old.events self.new.events) }
        ensures looks { looks_in parts.new.items ≤ looks_in parts.old.items + 2 * most_looks }
        ensures room { IfSome result.0 (λ _. vec_len parts.new < vec_capacity parts.new) }
    {
        let GroupRoom {
            mut events,
            mut clients,
            mut askers,
        } = room;
        self.take_group(count, &mut events, &mut clients, &mut askers);
        match stage.serve_group(rt, alloc, pass, events) {
            Ok((group, pass)) => {
                let ServedGroup {
                    before,
                    turns,
                    is_refused: _,
                    rest,
                } = group;
                let answered = turns.len();
                let begun = count - rest.len();
                self.put_back_all(rest);
                let asked = clients.as_slice();
                let askers = askers.as_slice();
                self.queue_group(alloc, before, turns, askers, parts);
                self.send_given();
                let (begun_by, _) = asked.split_at(begun);
                let (_, refused) = begun_by.split_at(answered);
                self.drop_each(refused);
                (Some(begun), pass)
            }
            Err((error, rest, pass)) => {
                let begun = count - rest.len();
                self.put_back_all(rest);
                let (refused, _) = clients.as_slice().split_at(begun);
                self.drop_each(refused);
                if goes_on_behind(error) {
                    return (Some(begun), pass);
                }
                parts.push_reserved(Part::Refused(error));
                (None, pass)
            }
        }
    }

    // Takes the events that stand first, so many.
    fn take_group(
        &mut self,
        count: usize,
        events: &mut Vec<Event>,
        clients: &mut Vec<u64>,
        askers: &mut Vec<Option<u64>>,
    )
        requires count { ((n : ℕ) × (count ≡ group_len n self.old.events)) × (0 < count) }
        requires empty { (events.old.items ≡ []) × (clients.old.items ≡ []) }
        requires room { (count ≤ vec_capacity events.old) × (count ≤ vec_capacity clients.old) }
        requires askers { (askers.old.items ≡ []) × (count ≤ vec_capacity askers.old) }
        ensures takes { TakesGroup self.old self.new events.new.items clients.new.items }
        ensures count { (length events.new.items ≡ count) × (length clients.new.items ≡ count) }
        ensures known { (c : ℕ) → self.new.last_id < c → asked_of_all c events.new.items ≡ [] }
        ensures room { slab_len self.new.clients + count ≤ self.new.room }
    {
        while events.len() < count {
            let Some(event) = self.pop() else {
                return;
            };
            let asker = event.asker();
            let (client, event) = handed_over(event);
            events.push_reserved(event);
            clients.push_reserved(client);
            askers.push_reserved(asker);
        }
    }

    // Puts events back at the front, in order.
    fn put_back_all(&mut self, events: Vec<Event>)
        requires known { (c : ℕ) → self.old.last_id < c → asked_of_all c events.items ≡ [] }
        requires room { slab_len self.old.clients + length events.items ≤ self.old.room }
        ensures { PutsBack self.old self.new events.items }
    {
        let mut rest = events;
        while let Some(event) = rest.pop() {
            self.put_back_one(event);
        }
    }

    // Puts one event back at the front.
    fn put_back_one(&mut self, event: Event)
        requires known { (c : ℕ) → self.old.last_id < c → asked_of c event ≡ [] }
        requires room { slab_len self.old.clients + 1 ≤ self.old.room }
        ensures { PutsBackOne self.old self.new event }
    {
        if let Some(event) = handed_back(event) {
            self.put_back(event);
        }
    }

    // Queues the answers of a group for their clients, of which these wait for an answer, in this order, and adds their parts.
    fn queue_group<D: Disk>(
        &mut self,
        alloc: Global,
        before: Outbox,
        turns: Vec<Turn<D>>,
        askers: &[Option<u64>],
        parts: &mut Vec<Part<D>>,
    )
        requires room { vec_len parts.old + length turns.items < vec_capacity parts.old }
        ensures parts { parts.new.items ≡ parts.old.items ++ parts_of before turns.items }
        ensures later { AllFollow S.remaining S.contents (bytes_in (parts_of {D = D} before turns.items)) no_requests self.old self.new }
        ensures quiet { StaysQuiet self.old.events self.new.events }
        ensures room { vec_len parts.new < vec_capacity parts.new }
    {
        let mut before = before;
        let mut askers = askers.iter();
        for turn in turns {
            let served = Served { before, turn };
            self.give_served(&served, askers.next().copied().flatten(), Sending::Together);
            parts.push_reserved(Part::Served(served));
            before = Outbox::empty(alloc);
        }
    }

    // Lets go of each of these clients, and of their requests that wait.
    fn drop_each(&mut self, clients: &[u64])
        ensures later { AllFollow S.remaining S.contents no_bytes no_requests self.old self.new }
        ensures gone { AreGone self.new clients.now }
        ensures quiet { StaysQuiet self.old.events self.new.events }
    {
        let mut rest = clients;
        while let Some((client, after)) = rest.split_first() {
            self.drop_client(*client);
            rest = after;
        }
    }
}
