// What a client is given, through its session.
ghost use Rattle.std.specs.Prelude.{◌≡◌, ◌++◌, [], OnOk, OnErr};
ghost use Rattle.std.specs.Io.KnownBytes.{Appends};
ghost use Rattle.mpd_program.specs.Console.{bytes_to};
ghost use Rattle.mpd_program.specs.Serving.{WritesFront};

use client_session::{Session, SessionError};
use daemon_core::Output;
use std::io::Write;

// Not all was sent.
#[derive(Drop)]
pub(super) struct Unsent;

// Queues the outputs that are for this client.
fn queue_outputs(session: &mut Session, client: u64, outputs: &[Output]) -> Result<(), SessionError>
    ensures { OnOk result (session.new ≡ record session.old { queued = session.old.queued ++ bytes_to client outputs.now }) }
{
    let mut rest = outputs;
    while let Some((output, after)) = rest.split_first() {
        if output.client == client {
            session.queue(output.bytes.as_slice())?;
        }
        rest = after;
    }
    Ok(())
}

// Sends all that is queued. A write that takes no byte ends it too.
fn send_queued<W: Write>(session: &mut Session, writer: &mut W) -> Result<(), Unsent>
    ensures emptied { OnOk result (session.new ≡ record session.old { queued = [] }) }
    ensures written { OnOk result (Appends (W.contents writer.old) (W.contents writer.new) session.old.queued) }
    ensures front { OnErr result (WritesFront session.old.queued (W.contents writer.old) (W.contents writer.new)) }
{
    while session.queued_len() > 0 {
        match session.send_some(writer) {
            Ok(0) | Err(_) => return Err(Unsent),
            Ok(_) => {}
        }
    }
    match writer.flush() {
        Ok(()) => Ok(()),
        Err(_) => Err(Unsent),
    }
}

// Sends the outputs that are for this client.
pub(super) fn send_outputs<W: Write>(
    session: &mut Session,
    client: u64,
    outputs: &[Output],
    writer: &mut W,
) -> Result<(), Unsent>
    requires { session.old.queued ≡ [] }
    ensures session { OnOk result (session.new ≡ session.old) }
    ensures written { OnOk result (Appends (W.contents writer.old) (W.contents writer.new) (bytes_to client outputs.now)) }
    ensures front { OnErr result (WritesFront (bytes_to client outputs.now) (W.contents writer.old) (W.contents writer.new)) }
{
    if queue_outputs(session, client, outputs).is_err() {
        return Err(Unsent);
    }
    send_queued(session, writer)
}
