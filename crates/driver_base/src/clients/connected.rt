//! The clients that are connected.
use super::client::Client;
use crate::fault::Fault;
use crate::printer::Printer;
use client_session::{Requests, SessionError};
use idle_masks::ClientId;
use std::alloc::Global;
use std::collections::BTreeMap;

pub type Connected = BTreeMap<ClientId, Client>;

/// A client comes. One that is connected keeps its session.
pub fn add(
    clients: &mut Connected,
    alloc: Global,
    number: ClientId,
    takes: Option<usize>,
) -> Result<(), Fault> {
    if !clients.contains_key(&number) {
        let _none = clients.insert(number, Client::new(alloc, number, takes))?;
    }
    Ok(())
}

/// A client's connection ends; whether it was there.
pub fn remove(clients: &mut Connected, number: ClientId) -> bool {
    clients.remove(&number).is_some()
}

/// The requests that a piece of a client's bytes brings.
pub fn fed(
    clients: &mut Connected,
    alloc: Global,
    number: ClientId,
    piece: &[u8],
) -> Option<Result<Requests, SessionError>> {
    match clients.get_mut(&number) {
        Some(client) => Some(client.feed(alloc, piece)),
        None => None,
    }
}

/// Queues bytes for a client, and sends what its stream takes; its session may refuse them.
fn give(client: &mut Client, bytes: &[u8], printer: &mut Printer) -> Result<(), SessionError> {
    client.queue(bytes)?;
    client.send(printer);
    Ok(())
}

/// Gives bytes to a client, which its session may refuse.
pub fn give_to(
    clients: &mut Connected,
    number: ClientId,
    bytes: &[u8],
    printer: &mut Printer,
) -> Result<(), SessionError> {
    match clients.get_mut(&number) {
        Some(client) => give(client, bytes, printer),
        None => {
            printer.add(b"an output for client ");
            printer.number(number);
            printer.line(", which is not connected");
            Ok(())
        }
    }
}

/// A connection ends, and that is printed.
pub fn close(clients: &mut Connected, number: ClientId, printer: &mut Printer) {
    if remove(clients, number) {
        printer.closed(number);
    }
}

/// A client's session refused it: its connection ends.
pub fn refuse(
    clients: &mut Connected,
    number: ClientId,
    refusal: SessionError,
    printer: &mut Printer,
) {
    printer.number(number);
    printer.count(" refused", u64::from(refusal.number()));
    close(clients, number, printer);
}

/// Each stream takes so much from now on, and is sent what waits for it.
pub fn set_takes(clients: &mut Connected, takes: Option<usize>, printer: &mut Printer) {
    for client in clients.values_mut() {
        client.set_takes(takes);
        client.send(printer);
    }
}

/// How many bytes wait to be sent to all of them.
pub fn queued_len(clients: &Connected) -> usize {
    let mut queued = 0usize;
    for client in clients.values() {
        queued = queued.saturating_add(client.queued_len());
    }
    queued
}
