// One client: how it is read, and how it is written.
ghost use Rattle.std.specs.Prelude.{◌≡◌, ◌≢◌, ◌⊎◌, ◌↔◌, ◌++◌, [], None, OnOk, IfErr, OnErr, IsTrue, false, true};
ghost use Rattle.client_session.specs.Requests.{brought, left_by};
ghost use Rattle.client_session.specs.Session.{fresh};
ghost use Rattle.mio_clients.specs.Events.{asked_by};
ghost use Rattle.mio_clients.specs.Given.{Moves};
ghost use Rattle.mio_clients.specs.Yielding.{active_at, keeps_for, still_waits, IsHeard};
ghost use Rattle.mio_clients.specs.Connections.{HasBegun, Reads, ReadsInPart, IsTaken, IsReading};

use crate::queue::EventQueue;
use crate::ready::Interest;
use crate::stream::Stream;
use crate::{CALL_LIMIT, YIELD_AFTER, YIELD_UNSERVED_AFTER};
use client_session::{Session, SessionError};
use std::alloc::Global;
use std::io::ErrorKind;

/// A client's connection and its session.
#[derive(Drop)]
pub struct Client<S> {
    /// Its number: they rise, and are never used again.
    pub id: u64,
    pub stream: S,
    pub session: Session,
    /// A write was blocked, so that the stream is to be told when it takes bytes again.
    pub is_blocked: bool,
    /// Nothing more is read of it, and it is closed once what is queued is sent.
    pub is_closing: bool,
    /// The daemon has closed it already, and needs not be told that it is gone.
    pub is_released: bool,
    /// There may be more to read of it without a new readiness.
    pub has_more: bool,
    /// When something last came of it or was given to it, or else it connected, in milliseconds by the listener's clock.
    pub last_active: u64,
    /// A request of it other than `noidle` was served, and it was given nothing since: it waits in `idle`.
    pub is_waiting: bool,
    /// A request of it other than `noidle` was served.
    pub was_served: bool,
}

/// What a round of writing came to.
#[derive(Clone, Copy, Debug, PartialEq, Eq)]
pub(crate) enum Writing {
    /// Nothing is queued.
    Done,
    /// The stream takes no more for now.
    Blocked,
    /// The stream takes no byte any more.
    Ended,
    Failed,
}

/// What a round of reading came to.
#[derive(Clone, Copy, Debug, PartialEq, Eq)]
pub(crate) enum Reading {
    /// There is nothing to be read for now.
    Drained,
    /// There may be more.
    More,
    /// The client sends nothing more, or nothing that can be taken: it is to be closed.
    Ended,
    /// Memory was refused.
    Refused,
    Failed,
}

impl Reading {
    pub(crate) fn is_more(self) -> bool
        ensures { IsTrue result ↔ (self ≡ Reading.More) }
    {
        matches!(self, Reading::More)
    }

    // Whether more may come of the client.
    fn goes_on(self) -> bool
        ensures { IsTrue result ↔ ((self ≡ Reading.More) ⊎ (self ≡ Reading.Drained)) }
    {
        matches!(self, Reading::More | Reading::Drained)
    }
}

// What an error of a write comes to.
fn writing_of(kind: ErrorKind) -> Writing
    ensures not_done { result ≢ Writing.Done }
    ensures failed { result ≡ Writing.Failed → (kind ≢ ErrorKind.WouldBlock) × (kind ≢ ErrorKind.Interrupted) }
{
    match kind {
        ErrorKind::WouldBlock | ErrorKind::Interrupted => Writing::Blocked,
        _ => Writing::Failed,
    }
}

// What an error of a read comes to.
fn reading_of(kind: ErrorKind) -> Reading
    ensures other { (result ≡ Reading.Failed) ⊎ (result ≡ Reading.More) ⊎ (result ≡ Reading.Drained) }
    ensures failed { result ≡ Reading.Failed → (kind ≢ ErrorKind.WouldBlock) × (kind ≢ ErrorKind.Interrupted) }
{
    match kind {
        ErrorKind::WouldBlock => Reading::Drained,
        ErrorKind::Interrupted => Reading::More,
        _ => Reading::Failed,
    }
}

impl<S: Stream> Client<S> {
    /// A client of whose stream nothing was read.
    pub(crate) fn new(alloc: Global, id: u64, stream: S, now: u64) -> Self
        ensures id { result.id ≡ id }
        ensures stream { result.stream ≡ stream }
        ensures session { result.session ≡ fresh }
        ensures last_active { result.last_active ≡ now }
        ensures begins { HasBegun result }
    {
        Client {
            id,
            stream,
            session: Session::new(alloc),
            is_blocked: false,
            is_closing: false,
            is_released: false,
            has_more: false,
            last_active: now,
            is_waiting: false,
            was_served: false,
        }
    }

    /// For how many milliseconds it keeps its place in silence.
    pub(crate) fn keeps_for(&self) -> u64
        ensures { result ≡ keeps_for self.now }
    {
        if self.was_served {
            YIELD_AFTER
        } else {
            YIELD_UNSERVED_AFTER
        }
    }

    /// Queues bytes for it. Where that is refused, it is not to be used any more.
    pub(crate) fn give(&mut self, bytes: &[u8], now: u64) -> bool
        ensures same { self.new ≡ record self.old {
          session = self.new.session;
          is_waiting = still_waits bytes.now self.old;
          last_active = active_at now bytes.now self.old;
        } }
        ensures queued { IsTrue result → self.new.session ≡ record self.old.session { queued = self.old.session.queued ++ bytes.now } }
    {
        if !bytes.is_empty() {
            self.is_waiting = false;
            self.last_active = now;
        }
        self.session.queue(bytes).is_ok()
    }

    /// Whether it is to be read later, and not at the next wait: where it is held back, no turn is begun for it.
    pub(crate) fn keeps_more(&self, is_held_back: bool) -> bool {
        self.has_more && is_held_back
    }

    /// Of what its stream is to be told.
    pub(crate) fn interest(&self, is_held_back: bool) -> Interest {
        if self.is_blocked {
            Interest::Room
        } else if self.has_more && !is_held_back {
            Interest::Again
        } else {
            Interest::Input
        }
    }

    #[tactic(auto, using(crate::proofs::GivenLaws::moves_none, crate::proofs::GivenLaws::moves_itself, crate::proofs::GivenLaws::moves_twice))]
    /// Writes what is queued, until nothing is or the stream takes no more.
    pub(crate) fn write_ready(&mut self) -> Writing
        ensures moves { Moves S.remaining S.contents [] [] self.old self.new }
        ensures same { self.new ≡ record self.old { stream = self.new.stream; session = self.new.session } }
        ensures sent { result ≡ Writing.Done → self.new.session.queued ≡ [] }
        ensures failed { result ≡ Writing.Failed → S.failed self.new.stream ≡ true }
    {
        while self.session.queued_len() > 0 {
            match self.stream.send(&mut self.session) {
                Ok(0) => return Writing::Ended,
                Ok(_) => {}
                Err(error) => return writing_of(error.kind()),
            }
        }
        Writing::Done
    }

    // Takes a piece of the stream, and gathers the requests that are whole now. A refusal closes the session.
    fn take(
        &mut self,
        alloc: Global,
        piece: &[u8],
        queue: &mut EventQueue,
    ) -> Result<(), SessionError>
        requires open { self.old.session.closed ≡ None }
        ensures same { self.new ≡ record self.old { session = self.new.session } }
        ensures left { OnOk result (self.new.session ≡ record self.old.session { left = left_by self.old.session.left piece.now }) }
        ensures gathered { OnOk result (queue.new.events ≡
            queue.old.events ++ asked_by self.old.id (brought self.old.session.left piece.now)) }
        ensures err { OnErr result (queue.new.events ≡ queue.old.events) }
        ensures too_long { IfErr result (λ e. e ≢ SessionError.NoMemory → brought self.old.session.left piece.now ≡ []) }
        ensures spare { queue.new.spare ≡ queue.old.spare }
    {
        let requests = match self.session.feed(alloc, piece) {
            Ok(requests) => requests,
            Err(refusal) => return Err(refusal),
        };
        queue.ask(self.id, requests)?;
        Ok(())
    }

    // Takes a piece of the stream. Where a line or a list is too long, the client is to be closed, once it was answered all that it
    // asked before.
    fn take_or_close(&mut self, alloc: Global, piece: &[u8], queue: &mut EventQueue) -> Reading
        requires reading { IsReading self.old }
        ensures same { self.new ≡ record self.old { session = self.new.session; is_closing = self.new.is_closing } }
        ensures taken { result ≢ Reading.Refused → IsTaken piece.now self.old self.new queue.old.events queue.new.events }
        ensures refused { result ≡ Reading.Refused → queue.new.events ≡ queue.old.events }
        ensures goes_on { result ≡ Reading.More → IsReading self.new }
        ensures neither { (result ≢ Reading.Drained) × (result ≢ Reading.Failed) }
        ensures spare { queue.new.spare ≡ queue.old.spare }
    {
        match self.take(alloc, piece, queue) {
            Ok(()) => Reading::More,
            Err(SessionError::NoMemory) => Reading::Refused,
            Err(_) => {
                self.session = Session::new(alloc);
                self.is_closing = true;
                Reading::Ended
            }
        }
    }

    // Reads once.
    #[tactic(auto, using(crate::proofs::GivenLaws::reads_none, crate::proofs::GivenLaws::moves_none))]
    fn read_once(
        &mut self,
        alloc: Global,
        buffer: &mut [u8],
        queue: &mut EventQueue,
        now: u64,
    ) -> Reading
        requires reading { IsReading self.old }
        ensures reads { result ≢ Reading.Refused → Reads S.remaining S.contents self.old self.new queue.old.events queue.new.events }
        ensures same { self.new ≡ record self.old {
          stream = self.new.stream;
          session = self.new.session;
          is_closing = self.new.is_closing;
          last_active = self.new.last_active;
        } }
        ensures heard { IsHeard S.remaining now self.old self.new }
        ensures goes_on { (result ≡ Reading.More) ⊎ (result ≡ Reading.Drained) → IsReading self.new }
        ensures refused { result ≡ Reading.Refused
            → ReadsInPart S.remaining S.contents self.old self.new queue.old.events queue.new.events }
        ensures failed { result ≡ Reading.Failed → S.failed self.new.stream ≡ true }
        ensures spare { queue.new.spare ≡ queue.old.spare }
    {
        match self.stream.read(buffer) {
            Ok(0) => {
                self.is_closing = true;
                Reading::Ended
            }
            Ok(count) => {
                self.last_active = now;
                self.take_or_close(alloc, &buffer[..count], queue)
            }
            Err(error) => {
                let reading = reading_of(error.kind());
                // Something may have come of it that is no request yet.
                self.last_active = if reading.is_more() {
                    now
                } else {
                    self.last_active
                };
                reading
            }
        }
    }

    // Reads until there is nothing to be read, or for `CALL_LIMIT` calls.
    #[tactic(auto, using(crate::proofs::GivenLaws::reads_none, crate::proofs::GivenLaws::moves_itself, crate::proofs::YieldLaws::heard_itself))]
    fn read_often(
        &mut self,
        alloc: Global,
        buffer: &mut [u8],
        queue: &mut EventQueue,
        now: u64,
    ) -> Reading
        requires reading { IsReading self.old }
        ensures reads { result ≢ Reading.Refused → Reads S.remaining S.contents self.old self.new queue.old.events queue.new.events }
        ensures same { self.new ≡ record self.old {
          stream = self.new.stream;
          session = self.new.session;
          is_closing = self.new.is_closing;
          last_active = self.new.last_active;
        } }
        ensures heard { IsHeard S.remaining now self.old self.new }
        ensures goes_on { (result ≡ Reading.More) ⊎ (result ≡ Reading.Drained) → IsReading self.new }
        ensures refused { result ≡ Reading.Refused
            → ReadsInPart S.remaining S.contents self.old self.new queue.old.events queue.new.events }
        ensures failed { result ≡ Reading.Failed → S.failed self.new.stream ≡ true }
        ensures spare { queue.new.spare ≡ queue.old.spare }
    {
        for _call in 0..CALL_LIMIT {
            let reading = self.read_once(alloc, buffer, queue, now);
            if !reading.is_more() {
                return reading;
            }
        }
        Reading::More
    }

    /// Reads until there is nothing to be read, or for `CALL_LIMIT` calls, and gathers the requests. Then it looks whether the line or
    /// the list that has begun is too long already.
    pub(crate) fn read_ready(
        &mut self,
        alloc: Global,
        buffer: &mut [u8],
        queue: &mut EventQueue,
        now: u64,
    ) -> Reading
        requires reading { IsReading self.old }
        ensures reads { result ≢ Reading.Refused → Reads S.remaining S.contents self.old self.new queue.old.events queue.new.events }
        ensures same { self.new ≡ record self.old {
          stream = self.new.stream;
          session = self.new.session;
          is_closing = self.new.is_closing;
          last_active = self.new.last_active;
        } }
        ensures heard { IsHeard S.remaining now self.old self.new }
        ensures refused { result ≡ Reading.Refused
            → ReadsInPart S.remaining S.contents self.old self.new queue.old.events queue.new.events }
        ensures failed { result ≡ Reading.Failed → S.failed self.new.stream ≡ true }
        ensures spare { queue.new.spare ≡ queue.old.spare }
    {
        let reading = self.read_often(alloc, buffer, queue, now);
        if !reading.goes_on() {
            return reading;
        }
        let taken = self.take_or_close(alloc, &[], queue);
        if taken.is_more() { reading } else { taken }
    }
}
