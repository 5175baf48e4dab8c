//! Clients that come to a daemon one after the other, some of them later.
use crate::wires::TestStream;
use driver_base::Fault;
use mio_clients::{ClockTime, Listener};
use std::alloc::Global;
use std::collections::VecDeque;
use std::io::{self, ErrorKind};

/// The streams of clients in the order in which they come; none where an `accept` finds nobody.
#[derive(Drop)]
pub struct Arrivals {
    coming: VecDeque<Option<TestStream>>,
}

impl Arrivals {
    pub fn new(alloc: Global) -> Self {
        Arrivals {
            coming: VecDeque::new(alloc),
        }
    }

    pub fn add(&mut self, stream: Option<TestStream>) -> Result<(), Fault> {
        match self.coming.push_back(stream) {
            Ok(_) => Ok(()),
            Err(_) => Err(Fault::NoMemory),
        }
    }
}

impl Listener<TestStream> for Arrivals {
    fn accept(&mut self) -> io::Result<TestStream> {
        match self.coming.pop_front() {
            Some(Some(stream)) => Ok(stream),
            _ => Err(ErrorKind::WouldBlock.into()),
        }
    }

    // No time passes, so that nobody gives way.
    fn now(&mut self) -> u64 {
        0
    }

    fn clock(&mut self) -> Option<ClockTime> {
        None
    }

    fn gave_way(&mut self, _client: u64, _silence: u64) {}
}
