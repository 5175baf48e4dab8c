// Pictures that another thread reads for clients. Nothing is promised of it, as of a stream: what is told of what it read stands in the
// history, in front of the request that asked.

use crate::CLIENT_LIMIT;
use covers::{PictureAnswer, PictureAsk};
use crossbeam_channel::{Receiver, Sender, TryRecvError};
use daemon_core::PictureTold;
use std::alloc::{AllocError, Global};
use std::sync::Wait;

/// A picture that is to be read for a client.
#[derive(Debug, Drop)]
pub struct PictureOrder {
    pub client: u64,
    pub ask: PictureAsk,
}

/// What was read of it.
#[derive(Debug, Drop)]
pub struct PictureRead {
    pub client: u64,
    pub told: PictureTold,
}

// For how long a picture is waited for, in milliseconds. Behind that it is told as one that can't be read, so that nobody keeps its place
// for ever where a drive doesn't answer.
const PATIENCE: u64 = 20_000;

// The client of an order that is out, and when it went.
#[derive(Debug, Drop)]
struct Ordered {
    client: u64,
    since: u64,
}

/// The way to the thread that reads pictures, and back. Of each client at most one order is out.
#[derive(Drop)]
pub struct PictureLine {
    orders: Sender<PictureOrder>,
    answers: Receiver<PictureRead>,
    // The orders that are out.
    ordered: Vec<Ordered>,
    // What was read, and is to be told by the next request that asks for it.
    read: Vec<PictureRead>,
    // What is to be ordered.
    wanted: Vec<PictureOrder>,
    // The time of the turn, in milliseconds.
    now: u64,
    // Nobody is at the other end any more.
    is_ended: bool,
}

fn is_for(told: &PictureTold, ask: &PictureAsk) -> bool {
    told.ask.kind.is(ask.kind)
        && told.ask.uri.as_str() == ask.uri.as_str()
        && told.ask.offset == ask.offset
}

impl PictureLine {
    /// Orders go out by the one, and what was read comes by the other.
    pub fn new(
        alloc: Global,
        orders: Sender<PictureOrder>,
        answers: Receiver<PictureRead>,
    ) -> Result<Self, AllocError> {
        Ok(PictureLine {
            orders,
            answers,
            ordered: Vec::with_capacity(alloc, CLIENT_LIMIT)?,
            read: Vec::with_capacity(alloc, CLIENT_LIMIT)?,
            wanted: Vec::with_capacity(alloc, CLIENT_LIMIT)?,
            now: 0,
            is_ended: false,
        })
    }

    // Takes all that was read since the last turn. What doesn't find its request in this turn is let go of.
    pub(crate) fn take_read<R: Wait>(&mut self, rt: &R, now: u64) {
        self.now = now;
        self.read.clear();
        self.wanted.clear();
        for _answer in 0..CLIENT_LIMIT {
            match self.answers.try_recv(rt) {
                Ok(read) => {
                    self.ordered.retain(|order| order.client != read.client);
                    let _ = self.read.push(read);
                }
                Err(TryRecvError::Empty) => return,
                Err(TryRecvError::Disconnected) => {
                    self.is_ended = true;
                    return;
                }
            }
        }
    }

    // Whether nothing is read any more: then no request waits for a picture.
    pub(crate) fn is_ended(&self) -> bool {
        self.is_ended
    }

    // Keeps what was to be told by a request that the turn before didn't serve any more.
    pub(crate) fn put_back(&mut self, client: u64, told: PictureTold) {
        let _ = self.read.push(PictureRead { client, told });
    }

    // Where the order of a client is, if one is out.
    fn place_of(&self, client: u64) -> Option<usize> {
        self.ordered.iter().position(|order| order.client == client)
    }

    // Whether an order has been out for too long.
    fn is_late(&self, place: usize) -> bool {
        match self.ordered.get(place) {
            Some(order) => self.now.saturating_sub(order.since) >= PATIENCE,
            None => false,
        }
    }

    // Whether a client has waited for too long, or can't have its picture ordered since the first of too many orders has.
    fn is_overdue(&self, client: u64) -> bool {
        match self.place_of(client) {
            Some(place) => self.is_late(place),
            None => self.ordered.len() >= CLIENT_LIMIT && self.is_late(0),
        }
    }

    // What is told a client of just this question: what was read, or behind its patience that it can't be. Else the question is handed back.
    pub(crate) fn answer(
        &mut self,
        client: u64,
        ask: PictureAsk,
    ) -> Result<PictureTold, PictureAsk> {
        let place = self
            .read
            .iter()
            .position(|read| read.client == client && is_for(&read.told, &ask));
        if let Some(place) = place {
            return Ok(self.read.remove(place).told);
        }
        if self.is_overdue(client) {
            let answer = PictureAnswer::Unreadable;
            return Ok(PictureTold { ask, answer });
        }
        Err(ask)
    }

    // Has a picture ordered, unless one is for this client.
    pub(crate) fn want(&mut self, client: u64, ask: PictureAsk) {
        if self.place_of(client).is_none() {
            let _ = self.wanted.push(PictureOrder { client, ask });
        }
    }

    // The next that is to be ordered.
    pub(crate) fn next_wanted(&mut self) -> Option<PictureOrder> {
        self.wanted.pop()
    }

    // Orders it. Where that is refused, the next turn tries it again.
    pub(crate) fn order<R: Wait>(&mut self, rt: &R, order: PictureOrder) {
        let client = order.client;
        let since = self.now;
        if self.ordered.len() >= CLIENT_LIMIT
            || self.ordered.push(Ordered { client, since }).is_err()
        {
            return;
        }
        if self.orders.send(rt, order).is_err() {
            self.ordered.retain(|other| other.client != client);
        }
    }
}
