// Events that wait to be served.
ghost use Rattle.std.specs.Prelude.{◌≡◌, ◌≢◌, ◌+◌, ◌-◌, ◌<◌, ◌≤◌, ◌∷◌, ◌++◌, ◌⊎◌, ℕ, [], length, true, false, IfSome, MatchOption, OnOk, OnErr};
ghost use Rattle.std.specs.List.{AllByRecursion};
ghost use Rattle.mio_clients.specs.Events.{asked_by, asked_in, has_request_of, is_request_of, without};
ghost use Rattle.mio_clients.specs.Seeking.{held_with, is_held, may_ask, IsLed, IsSeeking, IsSortedOut, IsUnsought};
ghost use Rattle.mio_clients.specs.Waiting.{is_to_serve, QuietBehind};
ghost use Rattle.std.specs.VecDeque.{deque_len, deque_capacity};
ghost use Rattle.mio_clients.specs.Grouping.{group_len, place_of};
ghost use Rattle.mio_clients.specs.Rounds.{is_due, IsDealt, IsRound};

use crate::CLIENT_LIMIT;
use crate::event::ClientEvent;
use crate::pictures::PictureLine;
use crate::seeking::{may_ask, picture_asked};
use client_session::Requests;
use command_text::Request;
use daemon_core::PictureTold;
use std::alloc::{AllocError, Global};
use std::collections::VecDeque;
use std::marker::Model;

/// Events that wait, with room for the last one of each client that is connected.
#[derive(Drop)]
pub(crate) struct EventQueue {
    events: VecDeque<ClientEvent>,
    // How many clients are connected.
    spare: usize,
    // A request may be among them that waits for a picture, or is to.
    may_seek: bool,
}

impl Model for EventQueue {
    ghost use Rattle.std.specs.Prelude.{◌+◌, ◌-◌, ◌≤◌};
    ghost use Rattle.std.specs.VecDeque.{deque_len, deque_capacity};
    ghost use Rattle.mio_clients.specs.Connections.{QueueState};

    ghost Value = { QueueState };

    ghost view = { λ q. record {
      events = q.events.items;
      spare = q.spare;
      room = deque_capacity q.events - deque_len q.events;
    } };

    ghost invariant = { λ q. deque_len q.events + q.spare ≤ deque_capacity q.events };
}

// Whether an event is a request of this client.
fn is_request_of(event: &ClientEvent, client: u64) -> bool
    ensures { result ≡ is_request_of client event.now }
{
    match event {
        ClientEvent::Request(id, _) | ClientEvent::Seeking(id, _) => *id == client,
        ClientEvent::Connect(_) | ClientEvent::Picture(..) | ClientEvent::Gone(_) => false,
    }
}

// Whether an event is a request that waits for nothing.
fn is_to_serve(event: &ClientEvent) -> bool
    ensures { result ≡ is_to_serve event.now }
{
    matches!(event, ClientEvent::Request(..))
}

// Whether it is one that waits for a picture.
fn is_waiting(event: &ClientEvent) -> bool {
    matches!(event, ClientEvent::Seeking(..))
}

/// What an event is to a group of requests that stand behind one another.
#[derive(Clone, Copy, Debug, PartialEq, Eq)]
pub(crate) enum Place {
    /// It is none of them.
    Outside,
    Inside,
    /// It is one, and the last: a command list.
    Last,
}

// What an event is to a group.
fn place_of(event: &ClientEvent) -> Place
    ensures { result ≡ place_of event.now }
{
    match event {
        ClientEvent::Request(_, Request::Single(_) | Request::Noidle) => Place::Inside,
        ClientEvent::Request(_, Request::List(_) | Request::OkList(_)) => Place::Last,
        ClientEvent::Connect(_)
        | ClientEvent::Seeking(..)
        | ClientEvent::Picture(..)
        | ClientEvent::Gone(_) => Place::Outside,
    }
}

// Whether a request of this client is among events.
fn has_request(events: &VecDeque<ClientEvent>, client: u64) -> bool
    ensures { result ≡ has_request_of client events.now.items }
{
    let mut place = 0;
    while let Some(event) = events.get(place) {
        if is_request_of(event, client) {
            return true;
        }
        place += 1;
    }
    false
}

// Whether an event belongs to a round that has these: a connect, or a request of a client of which it has none.
fn is_due(event: &ClientEvent, round: &VecDeque<ClientEvent>) -> bool
    ensures { result ≡ is_due round.now.items event.now }
{
    match event {
        ClientEvent::Connect(_) => true,
        ClientEvent::Request(client, _) | ClientEvent::Seeking(client, _) => {
            !has_request(round, *client)
        }
        ClientEvent::Picture(..) | ClientEvent::Gone(_) => false,
    }
}

// What comes of a request as its turn comes.
#[derive(Drop)]
enum Seeks {
    // It is served as it is.
    Nothing,
    // It is served behind this.
    Told(PictureTold),
    // It waits, and so do those of its client that come later.
    Waits,
}

// Whether a client is among these.
fn is_held(held: &[u64], client: u64) -> bool
    ensures { result ≡ is_held client held.now }
{
    held.iter().any(|other| *other == client)
}

// Has a client wait. Where there are as many as may be connected, it doesn't.
fn hold(held: &mut Vec<u64>, client: u64) -> Seeks
    ensures waits { result ≡ Seeks.Waits → held.new.items ≡ held.old.items ++ client ∷ [] }
    ensures same { result ≢ Seeks.Waits → held.new.items ≡ held.old.items }
{
    if held.len() < CLIENT_LIMIT && held.push(client).is_ok() {
        return Seeks::Waits;
    }
    Seeks::Nothing
}

// What comes of a request of a client that is none of those that wait. What it asks for is told, or wanted from now on.
fn asked_first(
    alloc: Global,
    line: &mut PictureLine,
    held: &mut Vec<u64>,
    client: u64,
    request: &Request,
) -> Seeks
    ensures waits { result ≡ Seeks.Waits → (may_ask request.now ≡ true) × (held.new.items ≡ held.old.items ++ client ∷ []) }
    ensures same { result ≢ Seeks.Waits → held.new.items ≡ held.old.items }
{
    if line.is_ended() {
        return Seeks::Nothing;
    }
    match picture_asked(alloc, request) {
        Ok(None) => Seeks::Nothing,
        Ok(Some(ask)) => match line.answer(client, ask) {
            Ok(told) => Seeks::Told(told),
            Err(ask) => {
                line.want(client, ask);
                hold(held, client)
            }
        },
        Err(_) => hold(held, client),
    }
}

// What comes of a request of a client, where these wait: its first one waits that asks for a picture, and then all that come later.
fn sought_by(
    alloc: Global,
    line: &mut PictureLine,
    held: &mut Vec<u64>,
    client: u64,
    request: &Request,
) -> Seeks
    ensures waits { result ≡ Seeks.Waits → held.new.items ≡ held_with client held.old.items }
    ensures asks { result ≡ Seeks.Waits → (is_held client held.old.items ≡ true) ⊎ (may_ask request.now ≡ true) }
    ensures same { result ≢ Seeks.Waits → (is_held client held.old.items ≡ false) × (held.new.items ≡ held.old.items) }
{
    if is_held(held.as_slice(), client) {
        return Seeks::Waits;
    }
    asked_first(alloc, line, held, client, request)
}

impl EventQueue {
    pub(crate) fn new(alloc: Global) -> Self
        ensures events { result.events ≡ [] }
        ensures spare { result.spare ≡ 0 }
    {
        EventQueue {
            events: VecDeque::new(alloc),
            spare: 0,
            may_seek: false,
        }
    }

    pub(crate) fn len(&self) -> usize
        ensures { result ≡ length self.now.events }
    {
        self.events.len()
    }

    /// Lets go of all events, and counts no client any more.
    pub(crate) fn clear(&mut self)
        ensures events { self.new.events ≡ [] }
        ensures spare { self.new.spare ≡ 0 }
    {
        self.events.clear();
        self.spare = 0;
        self.may_seek = false;
    }

    /// Makes room for one client more: its connect, and its last event.
    pub(crate) fn reserve(&mut self) -> Result<(), AllocError>
        ensures events { self.new.events ≡ self.old.events }
        ensures spare { self.new.spare ≡ self.old.spare }
        ensures room { OnOk result (self.old.spare + 2 ≤ self.new.room) }
    {
        self.events.reserve(self.spare + 2)
    }

    /// Adds the connect of a client.
    pub(crate) fn connect(&mut self, client: u64)
        requires { self.old.spare + 2 ≤ self.old.room }
        ensures events { self.new.events ≡ self.old.events ++ ClientEvent.Connect client ∷ [] }
        ensures spare { self.new.spare ≡ self.old.spare + 1 }
    {
        self.events.push_back_reserved(ClientEvent::Connect(client));
        self.spare += 1;
    }

    /// Adds the last event of a client.
    pub(crate) fn end(&mut self, client: u64)
        requires { 0 < self.old.spare }
        ensures events { self.new.events ≡ self.old.events ++ ClientEvent.Gone client ∷ [] }
        ensures spare { self.new.spare + 1 ≡ self.old.spare }
        ensures room { self.new.room + 1 ≡ self.old.room }
    {
        self.spare -= 1;
        self.events.push_back_reserved(ClientEvent::Gone(client));
    }

    /// Counts one client less.
    pub(crate) fn release(&mut self)
        requires { 0 < self.old.spare }
        ensures events { self.new.events ≡ self.old.events }
        ensures spare { self.new.spare + 1 ≡ self.old.spare }
        ensures room { self.new.room ≡ self.old.room }
    {
        self.spare -= 1;
    }

    /// Adds the requests of a client, all or none.
    pub(crate) fn ask(&mut self, client: u64, requests: Requests) -> Result<(), AllocError>
        ensures ok { OnOk result (self.new.events ≡ self.old.events ++ asked_by client requests) }
        ensures err { OnErr result (self.new.events ≡ self.old.events) }
        ensures spare { self.new.spare ≡ self.old.spare }
    {
        self.events.reserve(self.spare + requests.len())?;
        for request in requests {
            self.may_seek = self.may_seek || may_ask(&request);
            self.events
                .push_back_reserved(ClientEvent::Request(client, request));
        }
        Ok(())
    }

    /// Lets go of the requests of this client.
    pub(crate) fn forget(&mut self, client: u64)
        ensures events { self.new.events ≡ without client self.old.events }
        ensures spare { self.new.spare ≡ self.old.spare }
    {
        // Each event is taken from the front, and put to the end where it stays.
        let mut left = self.events.len();
        while left > 0 {
            left -= 1;
            let Some(event) = self.events.pop_front() else {
                return;
            };
            if !is_request_of(&event, client) {
                self.events.push_back_reserved(event);
            }
        }
    }

    /// Whether the first event is a request of this client.
    pub(crate) fn is_next(&self, client: u64) -> bool {
        match self.events.front() {
            Some(event) => is_request_of(event, client),
            None => false,
        }
    }

    /// Whether the first event is a request that waits for a picture.
    pub(crate) fn is_waiting_next(&self) -> bool {
        match self.events.front() {
            Some(event) => is_waiting(event),
            None => false,
        }
    }

    /// Whether a request of this client waits. All events are looked at where none does.
    pub(crate) fn has_request_of(&self, client: u64) -> bool
        ensures { result ≡ has_request_of client self.now.events }
    {
        has_request(&self.events, client)
    }

    /// Puts the first request of each client in front of the others, in the order of these, and with them the connects. Where there is no
    /// memory for that, all stays as it is.
    pub(crate) fn deal(&mut self, alloc: Global)
        ensures dealt { IsDealt self.old.events self.new.events ⊎ (self.new.events ≡ self.old.events) }
        ensures spare { self.new.spare ≡ self.old.spare }
        ensures room { self.new.room ≡ self.old.room }
    {
        let mut round = VecDeque::new(alloc);
        if round.reserve(self.events.len()).is_err() {
            return;
        }
        self.take_round(&mut round);
        self.put_in_front(&mut round);
    }

    // Takes the first request of each client, and the connects. Each other event is put to the end.
    fn take_round(&mut self, round: &mut VecDeque<ClientEvent>)
        requires empty { round.old.items ≡ [] }
        requires room { deque_len round.old + length self.old.events ≤ deque_capacity round.old }
        ensures taken { IsRound self.old.events round.new.items self.new.events }
        ensures spare { self.new.spare ≡ self.old.spare }
        ensures room { self.new.room ≡ self.old.room + deque_len round.new }
    {
        let mut left = self.events.len();
        while left > 0 {
            left -= 1;
            let Some(event) = self.events.pop_front() else {
                return;
            };
            if is_due(&event, round) {
                round.push_back_reserved(event);
            } else {
                self.events.push_back_reserved(event);
            }
        }
    }

    // Puts these events in front of the others.
    fn put_in_front(&mut self, round: &mut VecDeque<ClientEvent>)
        requires room { self.old.spare + deque_len round.old ≤ self.old.room }
        ensures events { self.new.events ≡ round.old.items ++ self.old.events }
        ensures spare { self.new.spare ≡ self.old.spare }
        ensures room { self.old.room ≡ self.new.room + deque_len round.old }
    {
        while let Some(last) = round.pop_back() {
            self.events.push_front_reserved(last);
        }
    }

    /// Puts the requests that wait for a picture behind the others, and what was read in front of the request that asks for it. Where none
    /// may be among them, or there is no memory for that, all stays as it is.
    pub(crate) fn sort_out(&mut self, alloc: Global, line: &mut PictureLine)
        ensures asked { (c : ℕ) → asked_in c self.new.events ≡ asked_in c self.old.events }
        ensures sorted { IsSortedOut self.new.events ⊎ (self.new.events ≡ self.old.events) }
        ensures spare { self.new.spare ≡ self.old.spare }
    {
        if !self.may_seek {
            return;
        }
        let mut behind = VecDeque::new(alloc);
        let mut held = Vec::new(alloc);
        if behind.reserve(self.events.len()).is_err() || held.reserve(CLIENT_LIMIT).is_err() {
            return;
        }
        self.may_seek = false;
        self.take_pictures(line);
        self.take_seeking(alloc, line, &mut held, &mut behind);
        self.put_behind(&mut behind);
    }

    // Takes out what an earlier turn put in front of requests that it didn't serve.
    fn take_pictures(&mut self, line: &mut PictureLine)
        ensures asked { (c : ℕ) → asked_in c self.new.events ≡ asked_in c self.old.events }
        ensures few { length self.new.events ≤ length self.old.events }
        ensures spare { self.new.spare ≡ self.old.spare }
    {
        let mut left = self.events.len();
        while left > 0 {
            left -= 1;
            let Some(event) = self.events.pop_front() else {
                return;
            };
            match event {
                ClientEvent::Picture(client, told) => line.put_back(client, told),
                other => self.events.push_back_reserved(other),
            }
        }
    }

    // Takes the requests that wait for a picture, of each client from the first on. Each other event is put to the end.
    fn take_seeking(
        &mut self,
        alloc: Global,
        line: &mut PictureLine,
        held: &mut Vec<u64>,
        behind: &mut VecDeque<ClientEvent>,
    )
        requires empty { (behind.old.items ≡ []) × (held.old.items ≡ []) }
        requires room { length self.old.events ≤ deque_capacity behind.old }
        ensures asked { (c : ℕ) → asked_in c self.new.events ++ asked_in c behind.new.items ≡ asked_in c self.old.events }
        ensures served { AllByRecursion IsUnsought self.new.events }
        ensures seeking { AllByRecursion IsSeeking behind.new.items }
        ensures led { (c : ℕ) → IsLed (asked_in c behind.new.items) }
        ensures spare { self.new.spare ≡ self.old.spare }
        ensures places { self.new.spare + deque_len behind.new ≤ self.new.room }
    {
        let mut left = self.events.len();
        while left > 0 {
            left -= 1;
            let Some(event) = self.events.pop_front() else {
                return;
            };
            match event.asked() {
                Ok((client, request)) => match sought_by(alloc, line, held, client, &request) {
                    Seeks::Nothing => {
                        let event = ClientEvent::Request(client, request);
                        self.events.push_back_reserved(event);
                    }
                    Seeks::Told(told) => {
                        self.may_seek = true;
                        self.tell(client, told, behind.len());
                        let event = ClientEvent::Request(client, request);
                        self.events.push_back_reserved(event);
                    }
                    Seeks::Waits => {
                        self.may_seek = true;
                        behind.push_back_reserved(ClientEvent::Seeking(client, request));
                    }
                },
                Err(other) => self.events.push_back_reserved(other),
            }
        }
    }

    // Puts what was read to the end, where there is room for it and one request more beside the last events of clients and so many others.
    fn tell(&mut self, client: u64, told: PictureTold, others: usize)
        ensures events { (self.new.events ≡ self.old.events ++ ClientEvent.Picture client told ∷ []) ⊎ (self.new.events ≡ self.old.events) }
        ensures spare { self.new.spare ≡ self.old.spare }
        ensures room { self.old.spare + others + 1 ≤ self.old.room → self.new.spare + others + 1 ≤ self.new.room }
    {
        if self
            .events
            .reserve(self.spare.saturating_add(others).saturating_add(2))
            .is_ok()
        {
            self.events
                .push_back_reserved(ClientEvent::Picture(client, told));
        }
    }

    // Puts these events behind the others.
    fn put_behind(&mut self, behind: &mut VecDeque<ClientEvent>)
        requires room { self.old.spare + deque_len behind.old ≤ self.old.room }
        ensures events { self.new.events ≡ self.old.events ++ behind.old.items }
        ensures spare { self.new.spare ≡ self.old.spare }
    {
        while let Some(first) = behind.pop_front() {
            self.events.push_back_reserved(first);
        }
    }

    /// Whether the first request of this client waits for a picture.
    pub(crate) fn is_seeking(&self, client: u64) -> bool {
        if !self.may_seek {
            return false;
        }
        let mut place = 0;
        while let Some(event) = self.events.get(place) {
            if is_request_of(event, client) {
                return is_waiting(event);
            }
            place += 1;
        }
        false
    }

    /// How many events are to be served in a bounded turn: those in front of the first request that waits for a picture, and where a request
    /// stands behind that which doesn't, all up to the last of these.
    pub(crate) fn servable(&self) -> usize
        ensures quiet { QuietBehind true result self.now.events }
    {
        if !self.may_seek {
            return self.events.len();
        }
        let mut count = 0;
        let mut place = 0;
        let mut is_front = true;
        while let Some(event) = self.events.get(place) {
            place += 1;
            if is_to_serve(event) {
                count = place;
            } else if is_waiting(event) {
                is_front = false;
            } else if is_front {
                count = place;
            }
        }
        count
    }

    /// How many events are served together next: the requests that stand first, at most so many, up to a command list.
    pub(crate) fn group_len(&self, most: usize) -> usize
        ensures len { result ≡ group_len most self.now.events }
    {
        let mut count = 0;
        while count < most {
            let Some(event) = self.events.get(count) else {
                return count;
            };
            match place_of(event) {
                Place::Outside => return count,
                Place::Inside => count += 1,
                Place::Last => return count + 1,
            }
        }
        count
    }

    /// Takes the first event.
    pub(crate) fn pop(&mut self) -> Option<ClientEvent>
        ensures event { MatchOption result ((self.old.events ≡ []) × (self.new.events ≡ []))
            (λ event. self.old.events ≡ event ∷ self.new.events) }
        ensures spare { self.new.spare ≡ self.old.spare }
        ensures room { IfSome result (λ _. self.new.spare + 1 ≤ self.new.room) }
        ensures grows { IfSome result (λ _. self.old.room + 1 ≤ self.new.room) }
    {
        self.events.pop_front()
    }

    /// Puts an event back at the front.
    pub(crate) fn put_back(&mut self, event: ClientEvent)
        requires { self.old.spare + 1 ≤ self.old.room }
        ensures events { self.new.events ≡ event ∷ self.old.events }
        ensures spare { self.new.spare ≡ self.old.spare }
        ensures room { self.old.room ≤ self.new.room + 1 }
    {
        self.events.push_front_reserved(event);
    }
}
