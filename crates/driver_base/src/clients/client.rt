//! A client: its session, and the stream that it is sent to.
use super::stream::Stream;
use crate::printer::Printer;
use client_session::{Requests, Session, SessionError};
use idle_masks::ClientId;
use std::alloc::Global;
use std::io::ErrorKind;

#[derive(Drop)]
pub struct Client {
    number: ClientId,
    session: Session,
    stream: Stream,
    /// Whether the last line that it got has no end yet.
    is_inside: bool,
}

/// Sends what the stream takes of the queued bytes; whether it had memory for them.
fn send_all(session: &mut Session, stream: &mut Stream) -> bool {
    for _turn in 0..u64::MAX {
        match session.send_some(stream) {
            Ok(0) => break,
            Ok(_) => {}
            Err(error) => return error.kind() == ErrorKind::WouldBlock,
        }
    }
    true
}

impl Client {
    pub fn new(alloc: Global, number: ClientId, takes: Option<usize>) -> Self {
        Client {
            number,
            session: Session::new(alloc),
            stream: Stream::new(alloc, takes),
            is_inside: false,
        }
    }

    /// The requests that a piece brings.
    pub fn feed(&mut self, alloc: Global, piece: &[u8]) -> Result<Requests, SessionError> {
        self.session.feed(alloc, piece)
    }

    pub fn queue(&mut self, bytes: &[u8]) -> Result<(), SessionError> {
        self.session.queue(bytes)
    }

    /// How many bytes wait to be sent.
    pub fn queued_len(&self) -> usize {
        self.session.queued_len()
    }

    /// From now on its stream takes so much with each write.
    pub fn set_takes(&mut self, takes: Option<usize>) {
        self.stream.set_takes(takes);
    }

    /// Sends what its stream takes, and prints it.
    pub fn send(&mut self, printer: &mut Printer) {
        if !send_all(&mut self.session, &mut self.stream) {
            printer.lack();
        }
        self.is_inside = printer.sent(self.number, self.stream.taken(), self.is_inside);
        self.stream.clear();
    }
}
