// The clients of the daemon: who is accepted, read and written, and what of it is told.
ghost use Rattle.std.specs.Prelude.{◌≡◌, ◌⊎◌, ◌+◌, ◌<◌, ◌≤◌, ℕ, ◌∷◌, [], List, length, false, true, None, OnSome, IfOk};
ghost use Rattle.std.specs.Prelude.{◌↔◌, IfErr, IsErrOf, IsTrue, IfSome, MatchOption};
ghost use Rattle.slab.specs.Slab.{get, slab_len};
ghost use Rattle.mio_clients.specs.Events.{asked_by_event, asked_in};
ghost use Rattle.mio_clients.specs.Grouping.{group_len, group_limit};
ghost use Rattle.mio_clients.specs.Rounds.{IsDealt};
ghost use Rattle.mio_clients.specs.Seeking.{IsSortedOut};
ghost use Rattle.mio_clients.specs.Waiting.{QuietBehind, StaysQuiet};
ghost use Rattle.mio_clients.specs.Connections.{ConnectionsState, IsFull, IsVacant, is_clock_due, with_clock_asked};
ghost use Rattle.mio_clients.specs.Later.{no_bytes, no_requests, bytes_for, IsFault, Loses};
ghost use Rattle.std.specs.List.{AllByRecursion};
ghost use Rattle.mio_clients.specs.Leaving.{AllFollow, IsFollowed, IsForgotten};
ghost use Rattle.mio_clients.specs.Yielding.{AcceptsAll, Arrival, ComesTo, NowWaits, OnlyIfOver, TellsOf};
ghost use Rattle.mio_clients.specs.Yielding.{has_refused, nobody, was_refused, who_yields};

use crate::client::{Reading, Writing};
use crate::connections::Connections;
use crate::event::ClientEvent;
use crate::listener::Listener;
use crate::pictures::{PictureLine, PictureOrder};
use crate::ready::{Ready, Token};
use crate::refusal::ClientsError;
use crate::stream::Stream;
use crate::{CALL_LIMIT, CLIENT_LIMIT, GROUP_LIMIT, READ_SIZE};
use daemon_core::ClockTime;
use std::alloc::{AllocError, Global};
use std::io::ErrorKind;
use std::marker::Model;
use std::sync::Wait;
use std::time::Duration;

/// How long the loop waits where nothing happens, in milliseconds.
const PATIENCE: u64 = 100;

/// How many clients are accepted in a bounded turn of the loop at most, so that those that are connected are served between them.
const ACCEPTS: u32 = 100;

/// When a client is sent what it is given.
#[derive(Clone, Copy, Debug, PartialEq, Eq)]
pub(crate) enum Sending {
    AtOnce,
    /// With what it is given later, by a call of `send_given`.
    Together,
}

/// What comes of a client that connects.
#[derive(Clone, Copy, Debug, PartialEq, Eq)]
pub(crate) enum Admission {
    /// It was taken in.
    Taken,
    /// It was closed: nobody would be told of its stream.
    Unwatched,
    /// It was closed: there are too many, and none gives way to it.
    Refused,
}

impl Admission {
    pub(crate) fn is_refused(self) -> bool
        ensures { result ≡ was_refused self }
    {
        matches!(self, Admission::Refused)
    }
}

// How many requests are served together at most, where so many were, and of those so many looked at so much.
fn most_of_a_group(most: usize, bound: u64, served: usize, looks: u64) -> usize
    ensures { (1 ≤ result) × (result ≤ group_limit) }
{
    let alike = bound.saturating_mul(served as u64) / looks.max(1);
    let twice = most.saturating_mul(2);
    (alike.min(twice as u64) as usize).clamp(1, GROUP_LIMIT)
}

/// The clients of the daemon, on one thread: each is accepted, read and written without waiting for it.
#[derive(Drop)]
pub struct Clients<S, L, P> {
    connections: Connections<S>,
    listener: L,
    ready: P,
    buffer: Vec<u8>,
    // There may be more clients to be accepted without a new readiness.
    is_accepting: bool,
    // How many requests are served together at most, by how much the last ones looked at.
    group_most: usize,
    // The way to the thread that reads pictures, where there is one.
    pictures: Option<PictureLine>,
}

impl<S, L, P> Model for Clients<S, L, P> {
    ghost use Rattle.mio_clients.specs.Connections.{ConnectionsState};

    ghost Value = { ConnectionsState S };

    ghost view = { λ c. c.connections };
}

impl<S: Stream, L: Listener<S>, P: Ready<S>> Clients<S, L, P> {
    /// No clients, who may connect through this listener, of which `ready` tells already.
    pub fn new(alloc: Global, listener: L, ready: P) -> Result<Self, AllocError>
        ensures clients { IfOk result (λ c. c.clients.slots ≡ []) }
        ensures events { IfOk result (λ c. c.events ≡ []) }
        ensures last_id { IfOk result (λ c. c.last_id ≡ 0) }
        ensures asks { IfOk result (λ c. c.clock_second ≡ None) }
    {
        Ok(Clients {
            connections: Connections::new(alloc)?,
            listener,
            ready,
            buffer: vec![in alloc; 0u8; READ_SIZE]?,
            is_accepting: true,
            group_most: GROUP_LIMIT,
            pictures: None,
        })
    }

    /// Closes all clients, and lets go of what they did and was not served: for a new life of the daemon. The numbers of clients go on.
    pub fn close_all(&mut self)
        ensures clients { self.new.clients.slots ≡ [] }
        ensures events { self.new.events ≡ [] }
        ensures last_id { self.new.last_id ≡ self.old.last_id }
        // In the new life a clock is asked at once.
        ensures asks { self.new.clock_second ≡ None }
    {
        self.connections.clear();
        self.pictures = None;
    }

    /// From now on pictures are read by this way. Without one a request that asks for a picture is served as any other.
    pub fn set_pictures(&mut self, line: PictureLine)
        ensures { self.new ≡ self.old }
    {
        self.pictures = Some(line);
    }

    /// Where clients connect.
    pub fn listener_mut(&mut self) -> &mut L {
        &mut self.listener
    }

    /// How many clients are connected.
    pub fn len(&self) -> usize {
        self.connections.len()
    }

    /// Whether no client is connected.
    pub fn is_empty(&self) -> bool {
        self.len() == 0
    }

    /// Closes the connections of the clients that were let go of. A turn of the loop does so at its end.
    pub fn close_left(&mut self)
        ensures { self.new ≡ record self.old { left = []; places = self.new.places; gone = self.old.left } }
    {
        self.connections.close_left();
    }

    // Closes what an earlier call left, waits until something is ready, and looks at the clock.
    pub(crate) fn begin_turn(&mut self)
        ensures told { (listener : L) × IfSome (L.time_told listener) (λ time. self.new.time ≡ time) }
        ensures same { self.new ≡ record self.old { left = []; places = self.new.places; gone = self.old.left; time = self.new.time } }
    {
        self.connections.close_left();
        let limit = if self.connections.servable(true) > 0 {
            0
        } else {
            PATIENCE
        };
        let _waited = self.ready.wait(Duration::from_millis(limit));
        self.connections.set_time(self.listener.now());
    }

    // Whether none was asked in the second of the turn.
    pub(crate) fn is_clock_due(&self) -> bool
        ensures { result ≡ is_clock_due self.now }
    {
        self.connections.is_clock_due()
    }

    // What a clock tells, where none was asked in the second of the turn.
    pub(crate) fn next_clock(&mut self) -> Option<ClockTime>
        ensures asked { self.new ≡ with_clock_asked self.old }
        ensures once { is_clock_due self.old ≡ false → result ≡ None }
    {
        if self.connections.asks_clock() {
            self.listener.clock()
        } else {
            None
        }
    }

    // What a clock told was refused: it is asked again in the next turn.
    pub(crate) fn ask_again(&mut self)
        ensures { self.new ≡ record self.old { clock_second = None } }
    {
        self.connections.forget_clock();
    }

    /// Accepts clients until none waits, or for 65,536 calls, and gathers their connects, by rising numbers. Those that wait then, and a
    /// failed `accept`, have their turn in the next one of the loop.
    ///
    /// Where no place is left, a client is closed without a byte, as `TooManyClients` says. `NoMemory` leaves the others waiting.
    pub fn accept_all(&mut self, alloc: Global) -> Result<(), ClientsError>
        ensures later { IsFollowed S.remaining S.contents no_bytes no_requests self.old self.new }
        // Who came, and what came of each: nobody gives way.
        ensures accepted { (arrivals : List (Arrival S)) × AcceptsAll nobody arrivals self.old self.new
            × TellsOf result (has_refused arrivals) }
        ensures too_many { IsErrOf result ClientsError.TooManyClients → IsFull self.new }
        ensures neither { IfErr result (λ e. (e ≡ ClientsError.NoMemory) ⊎ (e ≡ ClientsError.TooManyClients)) }
    {
        self.accept_each(alloc, CALL_LIMIT, false)
    }

    /// Accepts clients until none waits, or for a hundred calls, as a bounded turn does, and gathers their connects, by rising numbers.
    /// Those that wait then, and a failed `accept`, have their turn in the next one of the loop.
    ///
    /// Where no place is left, the client over a network whose time is over first gives way: to one over a network only once it is over, to
    /// any other in any case. It is let go of, and the listener is told. Its time is an hour of silence, or ten seconds if no request of it
    /// was served; while it waits in `idle`, was not sent all, or a request of it waits, it is as one that is active now. `TooManyClients`
    /// says that a client was closed without a byte, to which none gave way. `NoMemory` leaves the others waiting.
    pub fn accept_some(&mut self, alloc: Global) -> Result<(), ClientsError>
        ensures later { IsFollowed S.remaining S.contents no_bytes no_requests self.old self.new }
        // Who came, and what came of each: one is closed only where none may give way to it.
        ensures accepted { (arrivals : List (Arrival S)) × AcceptsAll S.remote arrivals self.old self.new
            × TellsOf result (has_refused arrivals) }
        ensures too_many { IsErrOf result ClientsError.TooManyClients → IsFull self.new }
        ensures neither { IfErr result (λ e. (e ≡ ClientsError.NoMemory) ⊎ (e ≡ ClientsError.TooManyClients)) }
    {
        self.accept_each(alloc, ACCEPTS, true)
    }

    // Accepts clients until none waits, or for so many calls. Where no place is left, others give way to them, or none does.
    fn accept_each(
        &mut self,
        alloc: Global,
        calls: u32,
        is_yielding: bool,
    ) -> Result<(), ClientsError>
        ensures later { IsFollowed S.remaining S.contents no_bytes no_requests self.old self.new }
        ensures accepted { (arrivals : List (Arrival S)) × AcceptsAll (who_yields is_yielding S.remote) arrivals self.old self.new
            × TellsOf result (has_refused arrivals) }
        ensures too_many { IsErrOf result ClientsError.TooManyClients → IsFull self.new }
        ensures neither { IfErr result (λ e. (e ≡ ClientsError.NoMemory) ⊎ (e ≡ ClientsError.TooManyClients)) }
    {
        self.is_accepting = true;
        let mut result = Ok(());
        for _call in 0..calls {
            if self.connections.reserve().is_err() {
                return Err(ClientsError::NoMemory);
            }
            match self.listener.accept() {
                Ok(stream) => {
                    if self.admit(alloc, stream, is_yielding).is_refused() {
                        result = Err(ClientsError::TooManyClients);
                    }
                }
                Err(error) => match error.kind() {
                    ErrorKind::Interrupted => {}
                    kind => {
                        self.is_accepting = kind != ErrorKind::WouldBlock;
                        return result;
                    }
                },
            }
        }
        result
    }

    // Takes a client in, in the place of another where there are too many and others give way. One of whose stream nobody would be told is
    // closed.
    fn admit(&mut self, alloc: Global, stream: S, is_yielding: bool) -> Admission
        requires room { slab_len self.old.clients + 2 ≤ self.old.room }
        requires places { slab_len self.old.clients + 1 ≤ self.old.places }
        ensures later { IsFollowed S.remaining S.contents no_bytes no_requests self.old self.new }
        ensures full { (result ≡ Admission.Refused) ⊎ IsFull self.old → IsFull self.new }
        ensures comes_to { ComesTo (who_yields is_yielding S.remote) stream result self.old self.new }
    {
        if self.connections.is_full() {
            return self.admit_where_full(alloc, stream, is_yielding);
        }
        let mut stream = stream;
        let key = self.connections.vacant_key();
        if self.ready.register(&mut stream, key).is_ok() {
            self.connections.admit(alloc, stream);
            Admission::Taken
        } else {
            Admission::Unwatched
        }
    }

    // Takes a client in where no place is left, if others give way and one does to it.
    fn admit_where_full(&mut self, alloc: Global, stream: S, is_yielding: bool) -> Admission
        requires room { slab_len self.old.clients + 2 ≤ self.old.room }
        requires places { slab_len self.old.clients + 1 ≤ self.old.places }
        requires full { IsFull self.old }
        ensures later { IsFollowed S.remaining S.contents no_bytes no_requests self.old self.new }
        ensures full { IsFull self.new }
        ensures comes_to { ComesTo (who_yields is_yielding S.remote) stream result self.old self.new }
    {
        if is_yielding {
            return self.admit_instead(alloc, stream);
        }
        Admission::Refused
    }

    // Takes a client in, in the place of one that gives way to it, if one does.
    fn admit_instead(&mut self, alloc: Global, stream: S) -> Admission
        requires room { slab_len self.old.clients + 2 ≤ self.old.room }
        requires places { slab_len self.old.clients + 1 ≤ self.old.places }
        requires full { IsFull self.old }
        ensures later { IsFollowed S.remaining S.contents no_bytes no_requests self.old self.new }
        ensures full { IsFull self.new }
        ensures comes_to { ComesTo S.remote stream result self.old self.new }
    {
        if self.connections.is_spent() {
            return Admission::Refused;
        }
        let Some(key) = self.connections.first_to_yield(stream.is_remote()) else {
            return Admission::Refused;
        };
        let mut stream = stream;
        if self.ready.register(&mut stream, key).is_ok() {
            let client = self.connections.id_at(key);
            let silence = self.connections.silence_at(key);
            self.listener.gave_way(client, silence);
            self.connections.replace(alloc, key, stream);
            Admission::Taken
        } else {
            Admission::Unwatched
        }
    }

    /// Reads what the client under a key sent, until there is nothing to be read or for 65,536 calls, and gathers its requests. Nothing is
    /// read as long as something is queued for it.
    ///
    /// A client whose stream has failed, or for which memory was refused, is let go of, and its end is gathered, unless the stage closed
    /// it; one whose line or list is too long, or that sends nothing more, once it was sent all that it asked for before.
    pub fn read_ready(&mut self, alloc: Global, key: usize) -> Result<(), ClientsError>
        ensures later { AllFollow S.remaining S.contents no_bytes no_requests self.old self.new }
        ensures fault { IfErr result (λ e. IsFault S.remaining S.contents S.failed key e self.old self.new) }
    {
        match self.connections.read_at(alloc, key, &mut self.buffer) {
            Some(Reading::Failed) => Err(self.let_go(key)),
            _ => Ok(()),
        }
    }

    /// Writes what is queued for the client under a key, until nothing is or the stream takes no more.
    ///
    /// A client whose stream has failed, or takes no byte, is let go of, and its end is gathered, unless the stage closed it.
    pub fn write_ready(&mut self, key: usize) -> Result<(), ClientsError>
        ensures later { AllFollow S.remaining S.contents no_bytes no_requests self.old self.new }
        ensures quiet { StaysQuiet self.old.events self.new.events }
        ensures fault { IfErr result (λ e. IsFault S.remaining S.contents S.failed key e self.old self.new) }
    {
        match self.connections.write_at(key) {
            Some(Writing::Failed) => Err(self.let_go(key)),
            Some(Writing::Ended) => {
                self.connections.remove(key);
                Ok(())
            }
            _ => Ok(()),
        }
    }

    // Lets go of a client whose stream has failed.
    fn let_go(&mut self, key: usize) -> ClientsError
        ensures later { AllFollow S.remaining S.contents no_bytes no_requests self.old self.new }
        ensures quiet { StaysQuiet self.old.events self.new.events }
        ensures loses { Loses key self.old self.new }
        ensures number { IfSome (get self.old.clients key) (λ client. result ≡ ClientsError.NetFault client.id) }
    {
        let id = self.connections.id_at(key);
        self.connections.remove(key);
        ClientsError::NetFault(id)
    }

    // Gathers what clients did of which the wait has told. Where turns are bounded, those of which a request waits are not read.
    pub(crate) fn gather(&mut self, alloc: Global, is_bounded: bool)
        ensures later { IsFollowed S.remaining S.contents no_bytes no_requests self.old self.new }
    {
        for _token in 0..CALL_LIMIT {
            let Some(token) = self.ready.next() else {
                break;
            };
            self.take_token(alloc, token, is_bounded);
        }
        if self.is_accepting {
            self.make_places();
            let _refused = self.accept_waiting(alloc, is_bounded);
        }
    }

    // Accepts clients that wait, as many as a turn does.
    fn accept_waiting(&mut self, alloc: Global, is_bounded: bool) -> Result<(), ClientsError>
        ensures later { IsFollowed S.remaining S.contents no_bytes no_requests self.old self.new }
    {
        if is_bounded {
            self.accept_some(alloc)
        } else {
            self.accept_all(alloc)
        }
    }

    // Where half of the places are taken, lets go of those that are over, so that none gives way for nothing to the clients that connect.
    fn make_places(&mut self)
        ensures later { AllFollow S.remaining S.contents no_bytes no_requests self.old self.new }
    {
        if self.connections.len() < CLIENT_LIMIT / 2 {
            return;
        }
        for key in 0..self.connections.capacity() {
            self.drop_over(key);
        }
    }

    // Lets go of a client that is to be closed, was sent all, and asked for nothing that waits.
    fn drop_over(&mut self, key: usize)
        ensures over { OnlyIfOver key self.old self.new }
        ensures later { AllFollow S.remaining S.contents no_bytes no_requests self.old self.new }
    {
        if self.connections.is_over(key) {
            self.connections.remove(key);
        }
    }

    // Takes up what is ready.
    fn take_token(&mut self, alloc: Global, token: Token, is_bounded: bool)
        ensures later { AllFollow S.remaining S.contents no_bytes no_requests self.old self.new }
    {
        match token {
            Token::Client(key) => self.visit(alloc, key, is_bounded),
            Token::Listener => self.is_accepting = true,
            Token::Woken => {}
        }
    }

    // Writes to a client that is ready, and reads of it.
    fn visit(&mut self, alloc: Global, key: usize, is_bounded: bool)
        ensures later { AllFollow S.remaining S.contents no_bytes no_requests self.old self.new }
    {
        let _written = self.write_ready(key);
        self.read_or_put_off(alloc, key, is_bounded);
    }

    // Reads of a client, unless that is put off.
    fn read_or_put_off(&mut self, alloc: Global, key: usize, is_bounded: bool)
        ensures later { AllFollow S.remaining S.contents no_bytes no_requests self.old self.new }
    {
        if self.is_put_off(key, is_bounded) {
            self.connections.put_off(key);
        } else {
            let _read = self.read_ready(alloc, key);
        }
    }

    // Whether reading of the client at a key is put off: where turns are bounded, as long as a request of it waits.
    fn is_put_off(&self, key: usize, is_bounded: bool) -> bool
        ensures { result ≡ true → is_bounded ≡ true }
    {
        is_bounded && self.connections.is_asking(key)
    }

    // Sends what is queued for each client, and lets go of those that are to be closed, were sent all, and asked for nothing that waits.
    pub(crate) fn send_all(&mut self)
        ensures later { AllFollow S.remaining S.contents no_bytes no_requests self.old self.new }
        ensures quiet { StaysQuiet self.old.events self.new.events }
    {
        for key in 0..self.connections.capacity() {
            self.send(key);
        }
    }

    // Sends what is queued for each client, and no more: to look for each whether it is over takes all events that wait.
    pub(crate) fn send_given(&mut self)
        ensures later { AllFollow S.remaining S.contents no_bytes no_requests self.old self.new }
        ensures quiet { StaysQuiet self.old.events self.new.events }
    {
        for key in 0..self.connections.capacity() {
            self.send_queued(key);
        }
    }

    // Sends what is queued for one client, unless its stream is known to take nothing.
    fn send_queued(&mut self, key: usize)
        ensures later { AllFollow S.remaining S.contents no_bytes no_requests self.old self.new }
        ensures quiet { StaysQuiet self.old.events self.new.events }
    {
        if self.connections.may_write(key) {
            let _written = self.write_ready(key);
        }
    }

    // The same of one client, which is let go of where it is to be closed, was sent all, and asked for nothing that waits.
    fn send(&mut self, key: usize)
        ensures later { AllFollow S.remaining S.contents no_bytes no_requests self.old self.new }
        ensures quiet { StaysQuiet self.old.events self.new.events }
    {
        self.send_queued(key);
        if self.connections.is_over(key) {
            self.connections.remove(key);
        } else if !self.connections.watch_at(key, &mut self.ready) {
            self.connections.remove(key);
        }
    }

    // How many events wait.
    pub(crate) fn event_count(&self) -> usize
        ensures { result ≡ length self.now.events }
    {
        self.connections.event_count()
    }

    // Has the first request of each client served before a second one of any other.
    pub(crate) fn deal(&mut self, alloc: Global)
        ensures same { self.new ≡ record self.old { events = self.new.events; room = self.new.room } }
        ensures dealt { IsDealt self.old.events self.new.events ⊎ (self.new.events ≡ self.old.events) }
    {
        self.connections.deal(alloc);
    }

    // Puts the requests that wait for a picture behind the others, and what was read in front of the request that asks for it.
    pub(crate) fn sort_out<R: Wait>(&mut self, rt: &R, alloc: Global)
        ensures same { self.new ≡ record self.old { events = self.new.events; room = self.new.room } }
        ensures asked { (c : ℕ) → asked_in c self.new.events ≡ asked_in c self.old.events }
        ensures sorted { IsSortedOut self.new.events ⊎ (self.new.events ≡ self.old.events) }
    {
        if let Some(line) = &mut self.pictures {
            line.take_read(rt, self.connections.time());
            self.connections.sort_out(alloc, line);
        }
    }

    // The next picture that is to be ordered.
    pub(crate) fn next_wanted(&mut self) -> Option<PictureOrder>
        ensures { self.new ≡ self.old }
    {
        match &mut self.pictures {
            Some(line) => line.next_wanted(),
            None => None,
        }
    }

    // Whether the first request of this client waits for a picture.
    pub(crate) fn is_seeking(&self, client: u64) -> bool {
        self.connections.is_seeking(client)
    }

    // Orders a picture.
    pub(crate) fn order_picture<R: Wait>(&mut self, rt: &R, order: PictureOrder)
        ensures { self.new ≡ self.old }
    {
        if let Some(line) = &mut self.pictures {
            line.order(rt, order);
        }
    }

    // How many events are to be served in a turn, bounded or not.
    pub(crate) fn servable(&self, is_bounded: bool) -> usize
        ensures { QuietBehind is_bounded result self.now.events }
    {
        self.connections.servable(is_bounded)
    }

    // How many are still to be served of these: where requests were let go of meanwhile, none of those that wait for a picture.
    pub(crate) fn still_servable(&self, is_bounded: bool, most: usize) -> usize
        ensures quiet { QuietBehind is_bounded most self.now.events → QuietBehind is_bounded result self.now.events }
        ensures few { result ≤ most }
    {
        if !self.connections.is_waiting_next() {
            return most;
        }
        let left = self.servable(is_bounded);
        if left < most { left } else { most }
    }

    // How many events are served together next.
    pub(crate) fn group_len(&self, is_bounded: bool) -> usize
        ensures { (n : ℕ) × (n ≤ group_limit) × (result ≡ group_len n self.now.events) }
    {
        self.connections.group_len(self.most_together(is_bounded))
    }

    // How many events are served together at most.
    fn most_together(&self, is_bounded: bool) -> usize
        ensures { result ≤ group_limit }
    {
        if is_bounded {
            self.group_most.clamp(1, GROUP_LIMIT)
        } else {
            GROUP_LIMIT
        }
    }

    // Whether requests were left by the turn before, where turns are bounded.
    pub(crate) fn has_left(&self, is_bounded: bool) -> bool
        ensures { result ≡ true → is_bounded ≡ true }
    {
        is_bounded && self.event_count() > 0
    }

    // So many requests were served that looked at so much. Where turns are bounded, no more of the next ones are served together than look
    // at as much as a turn does, if they are alike, and at most twice as many.
    pub(crate) fn bound_group(&mut self, bound: Option<u64>, served: usize, looks: u64)
        ensures { self.new ≡ self.old }
    {
        if let Some(most) = bound {
            self.group_most = most_of_a_group(self.group_most, most, served, looks);
        }
    }

    // Lets go of what those asked for that were let go of, where turns are bounded: their answers would reach nobody.
    pub(crate) fn forget_left(&mut self, is_bounded: bool)
        ensures later { AllFollow S.remaining S.contents no_bytes no_requests self.old self.new }
        ensures same { self.new ≡ record self.old { events = self.new.events; room = self.new.room } }
        ensures forgotten { is_bounded ≡ true → AllByRecursion (λ last. IsForgotten last.id self.new) self.old.left }
        ensures quiet { StaysQuiet self.old.events self.new.events }
    {
        if is_bounded {
            self.connections.forget_left();
        }
    }

    // Takes the first event that waits.
    pub(crate) fn pop(&mut self) -> Option<ClientEvent>
        ensures same { self.new ≡ record self.old { events = self.new.events; room = self.new.room } }
        ensures event { MatchOption result ((self.old.events ≡ []) × (self.new.events ≡ []))
            (λ event. self.old.events ≡ event ∷ self.new.events) }
        ensures room { OnSome result (slab_len self.new.clients + 1 ≤ self.new.room) }
        ensures grows { OnSome result (self.old.room + 1 ≤ self.new.room) }
        ensures known { IfSome result (λ event. (c : ℕ) → self.new.last_id < c → asked_by_event c event ≡ []) }
    {
        self.connections.pop()
    }

    // Puts an event back at the front.
    pub(crate) fn put_back(&mut self, event: ClientEvent)
        requires room { slab_len self.old.clients + 1 ≤ self.old.room }
        requires known { (c : ℕ) → self.old.last_id < c → asked_by_event c event ≡ [] }
        ensures same { self.new ≡ record self.old { events = event ∷ self.old.events; room = self.new.room } }
        ensures room { self.old.room ≤ self.new.room + 1 }
    {
        self.connections.put_back(event);
    }

    // Queues bytes for the client of this number. Where it is let go of for that, so are its requests that wait: their answers would reach
    // nobody.
    pub(crate) fn give(&mut self, client: u64, bytes: &[u8])
        ensures later { AllFollow S.remaining S.contents (bytes_for client bytes.now) no_requests self.old self.new }
        ensures quiet { StaysQuiet self.old.events self.new.events }
        ensures forgotten { IsVacant self.new client → IsVacant self.old client ⊎ (asked_in client self.new.events ≡ []) }
        ensures nobody { IsVacant self.old client → self.new ≡ self.old }
    {
        if !self.connections.give(client, bytes) {
            self.connections.forget(client);
        }
    }

    // The same, and sends them, so that no client waits for the events of others behind its own. Where its next request is served next, that
    // one's answer goes with this; and where other answers are given with it, all are sent together.
    pub(crate) fn hand_out(&mut self, client: u64, bytes: &[u8], sending: Sending)
        ensures later { AllFollow S.remaining S.contents (bytes_for client bytes.now) no_requests self.old self.new }
        ensures quiet { StaysQuiet self.old.events self.new.events }
    {
        self.give(client, bytes);
        if sending == Sending::AtOnce && !self.connections.is_next(client) {
            self.send_to(client);
        }
    }

    // Sends what is queued for the client of this number.
    fn send_to(&mut self, client: u64)
        ensures later { AllFollow S.remaining S.contents no_bytes no_requests self.old self.new }
        ensures quiet { StaysQuiet self.old.events self.new.events }
    {
        if let Some(key) = self.connections.find(client) {
            self.send(key);
        }
    }

    // A request of the client of this number is served.
    pub(crate) fn await_answer(&mut self, client: u64)
        ensures waits { NowWaits client self.old self.new }
        ensures later { AllFollow S.remaining S.contents no_bytes no_requests self.old self.new }
        ensures events { self.new.events ≡ self.old.events }
    {
        self.connections.await_answer(client);
    }

    // Has the client of this number closed, once what is queued for it is sent: the daemon knows of it no more.
    pub(crate) fn release(&mut self, client: u64)
        ensures later { AllFollow S.remaining S.contents no_bytes no_requests self.old self.new }
        ensures events { self.new.events ≡ self.old.events }
    {
        self.connections.release(client);
    }

    // Lets go of the client of this number, after what is queued for it was sent as far as its stream takes it, and of its requests that
    // wait.
    pub(crate) fn drop_client(&mut self, client: u64)
        ensures later { AllFollow S.remaining S.contents no_bytes no_requests self.old self.new }
        ensures gone { IsVacant self.new client }
        ensures forgotten { asked_in client self.new.events ≡ [] }
        ensures quiet { StaysQuiet self.old.events self.new.events }
    {
        self.let_go_of(client);
        self.connections.forget(client);
    }

    // The same, but for its requests.
    fn let_go_of(&mut self, client: u64)
        ensures later { AllFollow S.remaining S.contents no_bytes no_requests self.old self.new }
        ensures gone { IsVacant self.new client }
        ensures quiet { StaysQuiet self.old.events self.new.events }
    {
        if let Some(key) = self.connections.find(client) {
            let _writing = self.connections.write_at(key);
            self.connections.remove(key);
        }
    }
}
