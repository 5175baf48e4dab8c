// `client_messages`: who gets what, and what is refused. The expected values were seen at MPD 0.23.12; the limits in bytes are our own.
use crate::assertions::{equal, same_text};
use client_messages::{ClientId, ClientMessages, MessagesError, Notified};
use std::alloc::{AllocError, Global};
use std::process::Abort;
use std::test::Fail;

// The next functions have no contract: the prover then reads the long ones of the messages here alone, and in no test.

fn subscribe(
    messages: &mut ClientMessages,
    alloc: Global,
    client: ClientId,
    channel: &str,
) -> Result<(), MessagesError> {
    messages.subscribe(alloc, client, channel)
}

fn unsubscribe(
    messages: &mut ClientMessages,
    client: ClientId,
    channel: &str,
) -> Result<(), MessagesError> {
    messages.unsubscribe(client, channel)
}

fn send(
    messages: &mut ClientMessages,
    alloc: Global,
    channel: &str,
    text: &str,
) -> Result<Notified, MessagesError> {
    messages.send(alloc, channel, text)
}

/// The number of the refusal, and 0 for none.
fn number<T: Drop>(answer: Result<T, MessagesError>) -> u8 {
    match answer {
        Ok(_) => 0,
        Err(error) => error.number(),
    }
}

/// All channels, a line each.
fn channel_lines(messages: &ClientMessages, alloc: Global) -> Result<String, AllocError> {
    let mut lines = String::new(alloc);
    for channel in messages.channels(alloc)?.iter() {
        lines.push_str(channel)?;
        lines.push_str("\n")?;
    }
    Ok(lines)
}

/// What the client hasn't read, a line each.
fn unread_lines(
    messages: &ClientMessages,
    alloc: Global,
    client: ClientId,
) -> Result<String, AllocError> {
    let mut lines = String::new(alloc);
    for message in messages.unread(client) {
        lines.push_str(message.channel.as_str())?;
        lines.push_str("=")?;
        lines.push_str(message.text.as_str())?;
        lines.push_str("\n")?;
    }
    Ok(lines)
}

fn unread_are(
    rt: &impl Abort,
    messages: &ClientMessages,
    alloc: Global,
    client: ClientId,
    lines: &str,
) -> Result<(), AllocError> {
    let unread = unread_lines(messages, alloc, client)?;
    same_text(rt, &unread, lines);
    Ok(())
}

fn channels_are(
    rt: &impl Abort,
    messages: &ClientMessages,
    alloc: Global,
    lines: &str,
) -> Result<(), AllocError> {
    let channels = channel_lines(messages, alloc)?;
    same_text(rt, &channels, lines);
    Ok(())
}

/// The message is sent, and is the first that these haven't read.
fn is_first_of(
    rt: &impl Abort,
    messages: &mut ClientMessages,
    alloc: Global,
    channel: &str,
    text: &str,
    clients: &[ClientId],
) -> Result<(), MessagesError> {
    let notified = send(messages, alloc, channel, text)?;
    equal(rt, notified.as_slice(), clients);
    Ok(())
}

/// Client 1 has the channels `b` and `Q`, client 2 `_` and `Q`, client 3 `Q`.
fn three_clients(alloc: Global) -> Result<ClientMessages, MessagesError> {
    let mut messages = ClientMessages::new(alloc);
    for (client, channel) in [(2, "_"), (1, "b"), (3, "Q"), (1, "Q"), (2, "Q")] {
        subscribe(&mut messages, alloc, client, channel)?;
    }
    Ok(messages)
}

#[test]
fn who_gets_a_message(rt: HostRuntime) -> Result<(), MessagesError> {
    let alloc = rt.alloc();
    let mut messages = three_clients(alloc)?;
    channels_are(&rt, &messages, alloc, "Q\n_\nb\n")?;
    is_first_of(&rt, &mut messages, alloc, "_", " x  ", &[2])?;
    is_first_of(&rt, &mut messages, alloc, "Q", "", &[1, 3])?;
    is_first_of(&rt, &mut messages, alloc, "Q", "z", &[])?;
    unread_are(&rt, &messages, alloc, 2, "_= x  \nQ=\nQ=z\n")?;
    unread_are(&rt, &messages, alloc, 4, "")?;
    unsubscribe(&mut messages, 1, "Q")?;
    unread_are(&rt, &messages, alloc, 1, "Q=\nQ=z\n")?;
    messages.set_read(1);
    unread_are(&rt, &messages, alloc, 1, "")?;
    messages.leave(2);
    unread_are(&rt, &messages, alloc, 2, "")?;
    unread_are(&rt, &messages, alloc, 3, "Q=\nQ=z\n")?;
    channels_are(&rt, &messages, alloc, "Q\nb\n")?;
    messages.clear();
    channels_are(&rt, &messages, alloc, "")?;
    Ok(())
}

/// Client 1 takes the channels `c0` to `c9`, `d` and so on, as many as it may have.
fn with_all_channels(alloc: Global) -> Result<ClientMessages, MessagesError> {
    let mut messages = ClientMessages::new(alloc);
    let names = "c0 c1 c2 c3 c4 c5 c6 c7 c8 c9 d e f g h i";
    for name in names.split(' ') {
        subscribe(&mut messages, alloc, 1, name)?;
    }
    Ok(messages)
}

#[test]
fn what_is_refused(rt: HostRuntime) -> Result<(), MessagesError> {
    let alloc = rt.alloc();
    let mut messages = with_all_channels(alloc)?;
    let mut numbers = [0; 8];
    numbers[0] = number(subscribe(&mut messages, alloc, 1, "a/b"));
    numbers[1] = number(subscribe(&mut messages, alloc, 1, "j"));
    numbers[2] = number(subscribe(&mut messages, alloc, 1, "c0"));
    numbers[3] = number(unsubscribe(&mut messages, 1, ""));
    numbers[4] = number(unsubscribe(&mut messages, 1, "i"));
    numbers[5] = number(subscribe(&mut messages, alloc, 1, "c0"));
    numbers[6] = number(send(&mut messages, alloc, "é", "text"));
    numbers[7] = number(send(&mut messages, alloc, "i", "text"));
    equal(&rt, numbers, [100, 101, 101, 103, 0, 102, 100, 104]);
    Ok(())
}

/// How many of 70 such messages a client gets that reads none.
fn taken_of_70(alloc: Global, text: &str) -> Result<usize, MessagesError> {
    let mut messages = ClientMessages::new(alloc);
    subscribe(&mut messages, alloc, 1, "c")?;
    let mut taken = 0usize;
    for _ in 0..70 {
        match send(&mut messages, alloc, "c", text) {
            Ok(_) => taken = taken.saturating_add(1),
            Err(MessagesError::NobodyHasRoom) => {}
            Err(error) => return Err(error),
        }
    }
    Ok(taken)
}

/// A text of so many bytes.
fn long_text(alloc: Global, count: usize) -> Result<String, AllocError> {
    let mut text = String::new(alloc);
    for _ in 0..count {
        text.push('t')?;
    }
    Ok(text)
}

#[test]
fn how_much_is_kept(rt: HostRuntime) -> Result<(), Fail> {
    let mut taken = [0; 5];
    for (place, count) in taken.iter_mut().zip([0, 1_023, 1_024, 65_535, 65_536]) {
        *place = taken_of_70(rt.alloc(), &long_text(rt.alloc(), count)?)?;
    }
    equal(&rt, taken, [64, 64, 63, 1, 0]);
    Ok(())
}
