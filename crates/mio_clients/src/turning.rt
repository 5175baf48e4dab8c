// One turn of the loop: what clients did is gathered and served, and what they are given is sent.
ghost use Rattle.std.specs.Prelude.{◌≡◌, ◌⊎◌, ◌+◌, ◌*◌, ◌<◌, ◌≤◌, ℕ, [], zero, min, Option, Some};
ghost use Rattle.std.specs.Prelude.{None, false, true, is_some, vec_len, vec_capacity, IfOk, IfErr, IfSome, ◌↔◌, IsTrue};
ghost use Rattle.slab.specs.Slab.{slab_len};
ghost use Rattle.live_stage.specs.Numbers.{greatest};
ghost use Rattle.live_stage.specs.Group.{most_looks};
ghost use Rattle.std.specs.List.{AllByRecursion};
ghost use Rattle.mio_clients.specs.Connections.{is_clock_due};
ghost use Rattle.mio_clients.specs.Events.{asked_by_event, asked_in};
ghost use Rattle.mio_clients.specs.Grouping.{TakesMany};
ghost use Rattle.mio_clients.specs.Waiting.{QuietBehind, StaysQuiet, TakesFirst};
ghost use Rattle.mio_clients.specs.Later.{no_bytes, no_requests, IsLater};
ghost use Rattle.mio_clients.specs.Leaving.{AllFollow, AllLeave};
ghost use Rattle.mio_clients.specs.Parts.{bytes_in, requests_in, served_count, refuses, RefusesLast, IsServedAll};
ghost use Rattle.mio_clients.specs.Parts.{sent_by, sent_by_all, sent_by_served, asked_of, IsKeptOf, IsKeptAs, KeepsNoRequest, Serves};
ghost use Rattle.mio_clients.specs.Parts.{looks_in, looks_of, stage_event_of, goes_on_with, AddsClock, AddsRoom, EndsWithin, IsWithin};
ghost use Rattle.mio_clients.specs.Rounds.{IsDealt};
ghost use Rattle.mio_clients.specs.Seeking.{IsSortedOut};
ghost use Rattle.mio_clients.specs.Yielding.{NowWaits};

use crate::CLIENT_LIMIT;
use crate::clients::{Clients, Sending};
use crate::event::ClientEvent;
use crate::grouping::{GroupRoom, goes_on_behind};
use crate::listener::Listener;
use crate::part::Part;
use crate::ready::Ready;
use crate::stream::Stream;
use daemon_core::{Event, Output};
use disk_model::Disk;
use stage_workers::{Outbox, Outputs, Pass, Served, SharedStage, StageError};
use std::alloc::Global;
use std::sync::Wait;
use std::sync::ledger::Ledger;

// How much the event of a part looked at.
fn looks_of<D>(part: &Part<D>) -> u64
    ensures { result ≡ looks_of part.now }
{
    match part {
        Part::Served(served) => served.turn.looks(),
        Part::Collected(_) | Part::Refused(_) => 0,
    }
}

// How much the events of these parts looked at, counted up to 2^64 - 1.
fn looks_in<D>(parts: &[Part<D>]) -> u64
    ensures { result ≡ min (looks_in parts.now) greatest }
{
    let mut looks: u64 = 0;
    for part in parts {
        looks = looks.saturating_add(looks_of(part));
    }
    looks
}

// Whether a turn in which so many events are left goes on where it looked at so much.
fn serves_more(left: usize, looks: u64, bound: Option<u64>) -> bool
    ensures { IsTrue result ↔ ((0 < left) × IsWithin bound looks) }
{
    match bound {
        None => left > 0,
        Some(most) => left > 0 && looks <= most,
    }
}

// What can be done about an event that was refused.
#[derive(Drop)]
enum Kept {
    // It is gathered anew.
    Event(ClientEvent),
    // A request is lost, and its client with it.
    Client(u64),
}

impl ClientEvent {
    // The event as the stage takes it, and what is kept of it.
    fn handed_over(self) -> (Event, Kept)
        ensures event { result.0 ≡ stage_event_of self }
        ensures asked { (c : ℕ) → asked_of c result.0 ≡ asked_by_event c self }
        ensures kept { IsKeptOf self result.1 }
    {
        match self {
            ClientEvent::Connect(client) => (
                Event::Connect(client),
                Kept::Event(ClientEvent::Connect(client)),
            ),
            ClientEvent::Request(client, request) => {
                (Event::Request(client, request), Kept::Client(client))
            }
            ClientEvent::Seeking(client, request) => {
                (Event::Request(client, request), Kept::Client(client))
            }
            ClientEvent::Picture(client, told) => {
                (Event::Picture(client, told), Kept::Client(client))
            }
            ClientEvent::Gone(client) => {
                (Event::Gone(client), Kept::Event(ClientEvent::Gone(client)))
            }
        }
    }
}

impl<S: Stream, L: Listener<S>, P: Ready<S>> Clients<S, L, P> {
    /// One turn of the loop. It waits for at most 100 ms until a client is ready, accepts and reads, serves what was gathered in order,
    /// collects what the player and scans left, and sends to each client what it is given.
    ///
    /// A request that is refused by 43 or 49 closes its client. `Err` is 43: there was no memory for the first part, and nothing was done.
    pub fn turn_of_loop<R: Wait, D: Disk, C: Ledger, Q: Ledger, T: Ledger>(
        &mut self,
        rt: &R,
        alloc: Global,
        stage: &SharedStage<D, C, Q, T>,
        pass: Pass<C, Q, T>,
    ) -> Result<(Vec<Part<D>>, Pass<C, Q, T>), (StageError, Pass<C, Q, T>)>
        // Of each client that is connected in the end: the bytes that it was given in the parts, and its requests that they carry.
        ensures later { IfOk result (λ r. IsLater S.remaining S.contents (bytes_in r.0.items) (requests_in r.0.items) self.old self.new) }
        // Of each client that was let go of, and of those that were not there: the bytes that it took, and its requests that were served.
        ensures left { IfOk result (λ r. AllLeave S.remaining S.contents (bytes_in r.0.items) (requests_in r.0.items)
            self.old self.new self.new.gone) }
        ensures share { IfOk result (λ r. (r.1.kind ≡ pass.kind) × (r.1.share ≡ pass.share + served_count r.0.items)) }
        ensures seen { IfOk result (λ r. pass.seen ≤ r.1.seen) }
        ensures refused { IfOk result (λ r. RefusesLast r.0.items) }
        // Where nothing is refused, no request stays gathered.
        ensures all { IfOk result (λ r. IsServedAll None r.0.items self.new.events) }
        ensures err { IfErr result (λ e. (e.0 ≡ StageError.NoMemory) × (e.1 ≡ pass) × (self.new ≡ self.old)) }
    {
        self.turn_within(rt, alloc, stage, pass, None)
    }

    /// The same, where a turn may be bounded: behind the group or the request by which it has looked at more than `bound`, as
    /// docs/PROTOCOL.md counts it, no further one is served before the next turn.
    ///
    /// Then the first request of each client is served before a second one of any other, a client is not read of which a request waits, and
    /// what one asked for that was let go of is not served any more; clients are accepted by `accept_some`, else by `accept_all`; and a
    /// request that asks for a picture waits until that was read, with all that its client asks for later, while others are served.
    pub fn turn_within<R: Wait, D: Disk, C: Ledger, Q: Ledger, T: Ledger>(
        &mut self,
        rt: &R,
        alloc: Global,
        stage: &SharedStage<D, C, Q, T>,
        pass: Pass<C, Q, T>,
        bound: Option<u64>,
    ) -> Result<(Vec<Part<D>>, Pass<C, Q, T>), (StageError, Pass<C, Q, T>)>
        ensures later { IfOk result (λ r. IsLater S.remaining S.contents (bytes_in r.0.items) (requests_in r.0.items) self.old self.new) }
        ensures left { IfOk result (λ r. AllLeave S.remaining S.contents (bytes_in r.0.items) (requests_in r.0.items)
            self.old self.new self.new.gone) }
        ensures share { IfOk result (λ r. (r.1.kind ≡ pass.kind) × (r.1.share ≡ pass.share + served_count r.0.items)) }
        ensures seen { IfOk result (λ r. pass.seen ≤ r.1.seen) }
        ensures refused { IfOk result (λ r. RefusesLast r.0.items) }
        // Where nothing is refused, and no more was looked at than that, no request stays gathered but, where there is a bound, those that
        // wait for a picture.
        ensures all { IfOk result (λ r. IsWithin bound (looks_in r.0.items) → IsServedAll bound r.0.items self.new.events) }
        // It looked at no more than its bound and what one group may look at.
        ensures bounded { IfOk result (λ r. EndsWithin bound (looks_in r.0.items)) }
        // Of those that were let go of no request stays, where turns are bounded.
        ensures closed { IfOk result (λ r. is_some bound ≡ true →
            AllByRecursion (λ last. asked_in last.id self.new.events ≡ []) self.new.gone) }
        ensures err { IfErr result (λ e. (e.0 ≡ StageError.NoMemory) × (e.1 ≡ pass) × (self.new ≡ self.old)) }
    {
        let mut parts = Vec::new(alloc);
        if parts.reserve(1).is_err() {
            return Err((StageError::NoMemory, pass));
        }
        let is_bounded = bound.is_some();
        self.begin_turn();
        let is_left = self.has_left(is_bounded);
        self.gather(alloc, is_bounded);
        self.take_turns(alloc, is_left);
        self.seek(rt, alloc, is_bounded);
        let pass = self.serve_all(rt, alloc, stage, pass, &mut parts, bound);
        self.order_pictures(rt, stage);
        self.send_all();
        self.forget_left(is_bounded);
        self.close_left();
        Ok((parts, pass))
    }

    // Where requests were left by the turn before, the first of each client is served before a second one of any other.
    fn take_turns(&mut self, alloc: Global, is_left: bool)
        ensures later { AllFollow S.remaining S.contents no_bytes no_requests self.old self.new }
        ensures dealt { is_left ≡ true → IsDealt self.old.events self.new.events ⊎ (self.new.events ≡ self.old.events) }
        ensures same { is_left ≡ false → self.new ≡ self.old }
    {
        if is_left {
            self.deal(alloc);
        }
    }

    // Where turns are bounded, has the requests wait that ask for a picture which isn't read, and puts what was read in front of the
    // requests that ask for it.
    fn seek<R: Wait>(&mut self, rt: &R, alloc: Global, is_bounded: bool)
        ensures later { AllFollow S.remaining S.contents no_bytes no_requests self.old self.new }
        ensures sorted { is_bounded ≡ true → IsSortedOut self.new.events ⊎ (self.new.events ≡ self.old.events) }
        ensures same { is_bounded ≡ false → self.new ≡ self.old }
    {
        if is_bounded {
            self.sort_out(rt, alloc);
        }
    }

    // Orders the pictures that are wanted, as many bytes of each as an answer to its client may have: so none of which an earlier request
    // may still set that.
    fn order_pictures<R: Wait, D: Disk, C: Ledger, Q: Ledger, T: Ledger>(
        &mut self,
        rt: &R,
        stage: &SharedStage<D, C, Q, T>,
    )
        ensures { self.new ≡ self.old }
    {
        for _order in 0..CLIENT_LIMIT {
            let Some(mut order) = self.next_wanted() else {
                return;
            };
            if self.is_seeking(order.client) {
                let Ok(limit) = stage.chunk_limit(rt, order.client) else {
                    return;
                };
                order.ask.limit = limit;
                self.order_picture(rt, order);
            }
        }
    }

    // Tells the time, serves what was gathered, and then collects.
    fn serve_all<R: Wait, D: Disk, C: Ledger, Q: Ledger, T: Ledger>(
        &mut self,
        rt: &R,
        alloc: Global,
        stage: &SharedStage<D, C, Q, T>,
        pass: Pass<C, Q, T>,
        parts: &mut Vec<Part<D>>,
        bound: Option<u64>,
    ) -> Pass<C, Q, T>
        requires empty { parts.old.items ≡ [] }
        requires room { vec_len parts.old < vec_capacity parts.old }
        ensures later { AllFollow S.remaining S.contents (bytes_in parts.new.items) (requests_in parts.new.items) self.old self.new }
        ensures share { (result.kind ≡ pass.kind) × (result.share ≡ pass.share + served_count parts.new.items) }
        ensures seen { pass.seen ≤ result.seen }
        ensures refused { RefusesLast parts.new.items }
        ensures quiet { refuses parts.new.items ≡ false → IsWithin bound (looks_in parts.new.items)
            → QuietBehind (is_some bound) zero self.new.events }
        ensures bounded { EndsWithin bound (looks_in parts.new.items) }
    {
        let (goes_on, pass) = self.serve_in_time(rt, alloc, stage, pass, parts, bound);
        if goes_on {
            let outbox = stage.collect(rt, alloc);
            self.give_outbox(&outbox, Sending::AtOnce);
            parts.push_reserved(Part::Collected(outbox));
        }
        pass
    }

    // Has room made, tells the time, and serves the events that were gathered; `false` where one is refused.
    fn serve_in_time<R: Wait, D: Disk, C: Ledger, Q: Ledger, T: Ledger>(
        &mut self,
        rt: &R,
        alloc: Global,
        stage: &SharedStage<D, C, Q, T>,
        pass: Pass<C, Q, T>,
        parts: &mut Vec<Part<D>>,
        bound: Option<u64>,
    ) -> (bool, Pass<C, Q, T>)
        requires empty { parts.old.items ≡ [] }
        requires room { vec_len parts.old < vec_capacity parts.old }
        ensures serves { Serves S.remaining S.contents result.0 self.old self.new parts.old.items parts.new.items pass result.1 }
        ensures quiet { result.0 ≡ true → IsWithin bound (looks_in parts.new.items) → QuietBehind (is_some bound) zero self.new.events }
        ensures bounded { EndsWithin bound (looks_in parts.new.items) }
        ensures room { result.0 ≡ true → vec_len parts.new < vec_capacity parts.new }
    {
        // Room is made before any event; where there is none, it is looked for again with a clock.
        let is_again = self.is_clock_due();
        let is_bounded = bound.is_some();
        let (goes_on, pass) = self.serve_room(rt, alloc, stage, pass, parts, is_bounded, is_again);
        if !goes_on {
            return (false, pass);
        }
        let (is_told, pass) = self.serve_clock(rt, alloc, stage, pass, parts);
        if !is_told {
            return (false, pass);
        }
        self.serve_each(rt, alloc, stage, pass, parts, bound)
    }

    // Tells the stage what a clock tells; `false` where the turn ends.
    fn serve_clock<R: Wait, D: Disk, C: Ledger, Q: Ledger, T: Ledger>(
        &mut self,
        rt: &R,
        alloc: Global,
        stage: &SharedStage<D, C, Q, T>,
        pass: Pass<C, Q, T>,
        parts: &mut Vec<Part<D>>,
    ) -> (bool, Pass<C, Q, T>)
        requires room { vec_len parts.old < vec_capacity parts.old }
        ensures serves { Serves S.remaining S.contents result.0 self.old self.new parts.old.items parts.new.items pass result.1 }
        ensures looks { looks_in parts.new.items ≤ looks_in parts.old.items + 2 * most_looks }
        ensures told { AddsClock parts.old.items parts.new.items }
        // Once in a second, and again where it was refused.
        ensures once { is_clock_due self.old ≡ false → parts.new.items ≡ parts.old.items }
        ensures again { result.0 ≡ false → self.new.clock_second ≡ None }
        ensures room { result.0 ≡ true → vec_len parts.new < vec_capacity parts.new }
    {
        let Some(time) = self.next_clock() else {
            return (true, pass);
        };
        if parts.reserve(2).is_err() {
            self.ask_again();
            parts.push_reserved(Part::Refused(StageError::NoMemory));
            return (false, pass);
        }
        match stage.serve(rt, alloc, pass, Event::Clock(time)) {
            Ok((served, pass)) => {
                self.give_served(&served, None, Sending::AtOnce);
                let told = Part::Served(served);
                parts.push_reserved(told);
                (true, pass)
            }
            Err((error, pass)) => {
                self.ask_again();
                parts.push_reserved(Part::Refused(error));
                (false, pass)
            }
        }
    }

    // Where turns are bounded, has the stage make room for the records of what is served next, and tells it where that has changed; `false`
    // where the turn ends.
    fn serve_room<R: Wait, D: Disk, C: Ledger, Q: Ledger, T: Ledger>(
        &mut self,
        rt: &R,
        alloc: Global,
        stage: &SharedStage<D, C, Q, T>,
        pass: Pass<C, Q, T>,
        parts: &mut Vec<Part<D>>,
        is_bounded: bool,
        is_again: bool,
    ) -> (bool, Pass<C, Q, T>)
        requires room { vec_len parts.old < vec_capacity parts.old }
        ensures serves { Serves S.remaining S.contents result.0 self.old self.new parts.old.items parts.new.items pass result.1 }
        ensures looks { looks_in parts.new.items ≡ looks_in parts.old.items }
        ensures told { AddsRoom parts.old.items parts.new.items }
        ensures unbounded { is_bounded ≡ false
            → (result.0 ≡ true) × (result.1 ≡ pass) × (self.new ≡ self.old) × (parts.new ≡ parts.old) }
        ensures quiet { StaysQuiet self.old.events self.new.events }
        ensures room { result.0 ≡ true → vec_len parts.new < vec_capacity parts.new }
    {
        if !is_bounded {
            return (true, pass);
        }
        if parts.reserve(2).is_err() {
            parts.push_reserved(Part::Refused(StageError::NoMemory));
            return (false, pass);
        }
        match stage.tell_room(rt, alloc, pass, is_again) {
            Ok((told, pass)) => {
                let Some(served) = told else {
                    return (true, pass);
                };
                self.give_served(&served, None, Sending::AtOnce);
                let part = Part::Served(served);
                parts.push_reserved(part);
                (true, pass)
            }
            Err((error, pass)) => {
                parts.push_reserved(Part::Refused(error));
                (false, pass)
            }
        }
    }

    // Serves the events that were gathered, in order, until they looked at more than is allowed; `false` where one is refused.
    fn serve_each<R: Wait, D: Disk, C: Ledger, Q: Ledger, T: Ledger>(
        &mut self,
        rt: &R,
        alloc: Global,
        stage: &SharedStage<D, C, Q, T>,
        pass: Pass<C, Q, T>,
        parts: &mut Vec<Part<D>>,
        bound: Option<u64>,
    ) -> (bool, Pass<C, Q, T>)
        requires room { vec_len parts.old < vec_capacity parts.old }
        ensures serves { Serves S.remaining S.contents result.0 self.old self.new parts.old.items parts.new.items pass result.1 }
        ensures quiet { result.0 ≡ true → IsWithin bound (looks_in parts.new.items) → QuietBehind (is_some bound) zero self.new.events }
        ensures bounded { EndsWithin bound (looks_in parts.old.items) → EndsWithin bound (looks_in parts.new.items) }
        ensures room { result.0 ≡ true → vec_len parts.new < vec_capacity parts.new }
    {
        let is_bounded = bound.is_some();
        let mut pass = pass;
        let mut left = self.servable(is_bounded);
        let mut looks = looks_in(parts.as_slice());
        'left: while serves_more(left, looks, bound) {
            let from = parts.len();
            let (served, passed) = self.serve_some(rt, alloc, stage, pass, parts, is_bounded);
            let Some(count) = served else {
                return (false, passed);
            };
            pass = passed;
            let most = left.saturating_sub(count);
            left = self.still_servable(is_bounded, most);
            let (_, added) = parts.as_slice().split_at(from);
            let looked = looks_in(added);
            looks = looks.saturating_add(looked);
            self.bound_group(bound, count, looked);
        }
        (true, pass)
    }

    // Has room made, and serves the requests that stand first as a group, or the first event; it answers how many were served or let go of,
    // or none where the turn ends.
    fn serve_some<R: Wait, D: Disk, C: Ledger, Q: Ledger, T: Ledger>(
        &mut self,
        rt: &R,
        alloc: Global,
        stage: &SharedStage<D, C, Q, T>,
        pass: Pass<C, Q, T>,
        parts: &mut Vec<Part<D>>,
        is_bounded: bool,
    ) -> (Option<usize>, Pass<C, Q, T>)
        requires room { vec_len parts.old < vec_capacity parts.old }
        ensures serves { Serves S.remaining S.contents (is_some result.0) self.old self.new parts.old.items parts.new.items pass result.1 }
        ensures some { IfSome result.0 (λ n. 0 < n) }
        ensures quiet { IfSome result.0 (λ n. TakesMany n self.old.events self.new.events) }
        ensures looks { looks_in parts.new.items ≤ looks_in parts.old.items + 2 * most_looks }
        ensures room { IfSome result.0 (λ _. vec_len parts.new < vec_capacity parts.new) }
    {
        let (goes_on, pass) = self.serve_room(rt, alloc, stage, pass, parts, is_bounded, false);
        if !goes_on {
            return (None, pass);
        }
        self.serve_front(rt, alloc, stage, pass, parts, is_bounded)
    }

    // Serves the requests that stand first as a group, or the first event; it answers how many were served or let go of, or none where the
    // turn ends.
    fn serve_front<R: Wait, D: Disk, C: Ledger, Q: Ledger, T: Ledger>(
        &mut self,
        rt: &R,
        alloc: Global,
        stage: &SharedStage<D, C, Q, T>,
        pass: Pass<C, Q, T>,
        parts: &mut Vec<Part<D>>,
        is_bounded: bool,
    ) -> (Option<usize>, Pass<C, Q, T>)
        requires room { vec_len parts.old < vec_capacity parts.old }
        ensures serves { Serves S.remaining S.contents (is_some result.0) self.old self.new parts.old.items parts.new.items pass result.1 }
        ensures some { IfSome result.0 (λ n. 0 < n) }
        ensures quiet { IfSome result.0 (λ n. TakesMany n self.old.events self.new.events) }
        ensures looks { looks_in parts.new.items ≤ looks_in parts.old.items + 2 * most_looks }
        ensures room { IfSome result.0 (λ _. vec_len parts.new < vec_capacity parts.new) }
    {
        let count = self.group_len(is_bounded);
        if count > 1 {
            if let Some(room) = GroupRoom::new(alloc, count, parts) {
                return self.serve_group(rt, alloc, stage, pass, parts, room, count);
            }
        }
        let (goes_on, pass) = self.serve_next(rt, alloc, stage, pass, parts);
        if goes_on {
            (Some(1), pass)
        } else {
            (None, pass)
        }
    }

    // Serves the first event that was gathered; `false` where the turn ends.
    fn serve_next<R: Wait, D: Disk, C: Ledger, Q: Ledger, T: Ledger>(
        &mut self,
        rt: &R,
        alloc: Global,
        stage: &SharedStage<D, C, Q, T>,
        pass: Pass<C, Q, T>,
        parts: &mut Vec<Part<D>>,
    ) -> (bool, Pass<C, Q, T>)
        requires room { vec_len parts.old < vec_capacity parts.old }
        ensures serves { Serves S.remaining S.contents result.0 self.old self.new parts.old.items parts.new.items pass result.1 }
        ensures quiet { result.0 ≡ true → TakesFirst self.old.events self.new.events }
        ensures looks { looks_in parts.new.items ≤ looks_in parts.old.items + 2 * most_looks }
        ensures room { result.0 ≡ true → vec_len parts.new < vec_capacity parts.new }
    {
        if parts.reserve(2).is_err() {
            parts.push_reserved(Part::Refused(StageError::NoMemory));
            return (false, pass);
        }
        let Some(event) = self.pop() else {
            return (true, pass);
        };
        let asker = event.asker();
        let (event, kept) = event.handed_over();
        match stage.serve(rt, alloc, pass, event) {
            Ok((served, pass)) => {
                self.give_served(&served, asker, Sending::AtOnce);
                parts.push_reserved(Part::Served(served));
                (true, pass)
            }
            Err((error, pass)) => {
                if self.keep(error, kept) {
                    return (true, pass);
                }
                parts.push_reserved(Part::Refused(error));
                (false, pass)
            }
        }
    }

    // Keeps what can be kept of an event that was refused; `true` where the turn goes on.
    #[tactic(auto, using(crate::proofs::LaterLaws::asks_nothing))]
    fn keep(&mut self, error: StageError, kept: Kept) -> bool
        requires room { slab_len self.old.clients + 1 ≤ self.old.room }
        requires no_request { KeepsNoRequest kept }
        ensures kept { IsKeptAs S.remaining S.contents kept self.old self.new }
        ensures goes_on { result ≡ goes_on_with error kept }
        ensures quiet { result ≡ true → StaysQuiet self.old.events self.new.events }
    {
        match kept {
            Kept::Event(event) => {
                self.put_back(event);
                false
            }
            Kept::Client(client) => {
                self.drop_client(client);
                goes_on_behind(error)
            }
        }
    }

    // Gives each output to its client.
    fn give_outputs(&mut self, outputs: &[Output], sending: Sending)
        ensures later { AllFollow S.remaining S.contents (sent_by outputs.now) no_requests self.old self.new }
        ensures quiet { StaysQuiet self.old.events self.new.events }
    {
        let mut rest = outputs;
        while let Some((output, after)) = rest.split_first() {
            self.hand_out(output.client, output.bytes.as_slice(), sending);
            rest = after;
        }
    }

    fn give_outbox(&mut self, outbox: &Outbox, sending: Sending)
        ensures later { AllFollow S.remaining S.contents (sent_by_all outbox.now) no_requests self.old self.new }
        ensures quiet { StaysQuiet self.old.events self.new.events }
    {
        self.give_each(outbox.as_slice(), sending);
    }

    fn give_each(&mut self, events: &[Outputs], sending: Sending)
        ensures later { AllFollow S.remaining S.contents (sent_by_all events.now) no_requests self.old self.new }
        ensures quiet { StaysQuiet self.old.events self.new.events }
    {
        let mut rest = events;
        while let Some((outputs, after)) = rest.split_first() {
            self.give_outputs(outputs.as_slice(), sending);
            rest = after;
        }
    }

    // Where a client waits for an answer of what is served, it waits until it is given something.
    fn await_asker(&mut self, asker: Option<u64>)
        ensures waits { IfSome asker (λ client. NowWaits client self.old self.new) }
        ensures later { AllFollow S.remaining S.contents no_bytes no_requests self.old self.new }
        ensures events { self.new.events ≡ self.old.events }
    {
        if let Some(client) = asker {
            self.await_answer(client);
        }
    }

    // Gives what an event came to, of which this client waits for an answer, if one does, and closes the clients that it closed.
    pub(crate) fn give_served<D: Disk>(
        &mut self,
        served: &Served<D>,
        asker: Option<u64>,
        sending: Sending,
    )
        ensures later { AllFollow S.remaining S.contents (sent_by_served served.now) no_requests self.old self.new }
        ensures quiet { StaysQuiet self.old.events self.new.events }
    {
        self.give_outbox(&served.before, Sending::Together);
        self.await_asker(asker);
        self.give_outputs(served.turn.outputs(), sending);
        self.release_each(served.turn.closes());
    }

    fn release_each(&mut self, clients: &[u64])
        ensures later { AllFollow S.remaining S.contents no_bytes no_requests self.old self.new }
        ensures events { self.new.events ≡ self.old.events }
    {
        for client in clients {
            self.release(*client);
        }
    }
}
