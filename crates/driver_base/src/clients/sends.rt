//! What clients send, in pieces.
use super::connected::{Connected, fed, refuse};
use super::events::{Printed, handle};
use crate::fault::Fault;
use crate::signs::bytes_of;
use crate::words::number;
use client_session::Requests;
use daemon_core::{Core, Event};
use idle_masks::ClientId;

/// The bytes that a client sends.
#[derive(Clone, Copy)]
pub struct Sending<'a> {
    client: ClientId,
    /// Behind how many bytes they are cut into two pieces.
    cut: usize,
    /// Whether a newline stands behind them.
    is_ended: bool,
    text: &'a str,
}

/// The client of a send, and where its bytes are cut.
fn sender_of(text: &str) -> Result<(ClientId, usize), Fault> {
    match text.split_once('@') {
        Some((client, cut)) => Ok((number(client)?, number(cut)?)),
        None => Ok((number(text)?, usize::MAX)),
    }
}

/// The send of a line, by what stands before its `>` and behind it.
pub fn sending_of<'a>(sender: &str, rest: &'a str) -> Result<Sending<'a>, Fault> {
    let (client, cut) = sender_of(sender)?;
    let (is_ended, text) = match rest.strip_prefix('-') {
        Some(text) => (false, text),
        None => (true, rest),
    };
    Ok(Sending {
        client,
        cut,
        is_ended,
        text: text.strip_prefix(' ').unwrap_or(text),
    })
}

/// A client sends bytes so often, each time in pieces of this size.
pub fn send_often(
    core: &mut Core,
    clients: &mut Connected,
    printed: &mut Printed,
    sending: Sending<'_>,
    pieces: usize,
    turns: u64,
) -> Result<(), Fault> {
    let alloc = printed.printer.alloc;
    for turn in 0..turns {
        let bytes = bytes_of(alloc, sending.text, sending.is_ended, turn)?;
        send(core, clients, printed, sending, pieces, &bytes);
    }
    Ok(())
}

// Behind the bytes stands an empty piece: what is too long is refused by the next one.
fn send(
    core: &mut Core,
    clients: &mut Connected,
    printed: &mut Printed,
    sending: Sending<'_>,
    pieces: usize,
    bytes: &[u8],
) {
    let (front, back) = bytes.split_at(sending.cut.min(bytes.len()));
    feed_pieces(core, clients, printed, sending.client, pieces, front);
    feed_pieces(core, clients, printed, sending.client, pieces, back);
    feed(core, clients, printed, sending.client, &[]);
}

fn feed_pieces(
    core: &mut Core,
    clients: &mut Connected,
    printed: &mut Printed,
    number: ClientId,
    size: usize,
    bytes: &[u8],
) {
    if size == 0 {
        return feed(core, clients, printed, number, bytes);
    }
    for piece in bytes.chunks(size) {
        feed(core, clients, printed, number, piece);
    }
}

// What a client that isn't connected sends is read by nobody.
fn feed(
    core: &mut Core,
    clients: &mut Connected,
    printed: &mut Printed,
    number: ClientId,
    piece: &[u8],
) {
    match fed(clients, printed.printer.alloc, number, piece) {
        Some(Ok(requests)) => serve(core, clients, printed, number, requests),
        Some(Err(refusal)) => {
            refuse(clients, number, refusal, &mut printed.printer);
            handle(core, clients, printed, Event::Gone(number));
        }
        None => {}
    }
}

// Handles requests up to the first that closes their client.
fn serve(
    core: &mut Core,
    clients: &mut Connected,
    printed: &mut Printed,
    number: ClientId,
    requests: Requests,
) {
    for request in requests {
        if !clients.contains_key(&number) {
            break;
        }
        handle(core, clients, printed, Event::Request(number, request));
    }
}
