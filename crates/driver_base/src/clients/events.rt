//! One event of the core, and what it gives out.
use super::connected::{Connected, close, give_to, refuse};
use crate::codec::ops::put;
use crate::printer::Printer;
use daemon_core::{Core, Event, NoMemory, Outcome, Output};
use idle_masks::ClientId;
use profile::Profile;
use state_codec::Op;
use std::alloc::Global;

/// What a line of the input prints.
#[derive(Drop)]
pub struct Printed {
    pub printer: Printer,
    /// Whether each op is printed by its bytes.
    pub spells: bool,
}

// The prover reads the long contract of a step here alone.
fn stepped(core: &mut Core, alloc: Global, event: Event) -> Result<Outcome, NoMemory> {
    core.step(alloc, event)
}

/// Lets an event happen, and then the end of the connections that their session refused in it.
pub fn handle(core: &mut Core, clients: &mut Connected, printed: &mut Printed, event: Event) {
    let mut refused = Vec::new(printed.printer.alloc);
    happen(core, clients, printed, &mut refused, event);
    for number in &refused {
        forget(core, clients, printed, *number);
    }
}

/// The core is told that a connection has ended. That tells no client anything.
fn forget(core: &mut Core, clients: &mut Connected, printed: &mut Printed, number: ClientId) {
    let mut refused = Vec::new(printed.printer.alloc);
    happen(core, clients, printed, &mut refused, Event::Gone(number));
}

fn happen(
    core: &mut Core,
    clients: &mut Connected,
    printed: &mut Printed,
    refused: &mut Vec<ClientId>,
    event: Event,
) {
    match stepped(core, printed.printer.alloc, event) {
        Ok(outcome) => {
            let profile = core.as_saved().profile();
            give_out(clients, printed, profile, refused, &outcome);
        }
        Err(NoMemory) => printed.printer.line("no memory"),
    }
}

fn give_out(
    clients: &mut Connected,
    printed: &mut Printed,
    profile: Profile,
    refused: &mut Vec<ClientId>,
    outcome: &Outcome,
) {
    let printer = &mut printed.printer;
    for output in &outcome.outputs {
        deliver(clients, printer, refused, output);
    }
    for number in &outcome.closes {
        close(clients, *number, printer);
    }
    if printed.spells {
        spell_all(printer, profile, &outcome.ops);
    } else {
        count_ops(printer, &outcome.ops);
    }
    print_end(printer, outcome);
}

fn deliver(
    clients: &mut Connected,
    printer: &mut Printer,
    refused: &mut Vec<ClientId>,
    output: &Output,
) {
    let number = output.client;
    if let Err(refusal) = give_to(clients, number, output.bytes.as_slice(), printer) {
        refuse(clients, number, refusal, printer);
        if refused.push(number).is_err() {
            printer.lack();
        }
    }
}

fn spell_all(printer: &mut Printer, profile: Profile, ops: &[Op]) {
    for op in ops {
        spell(printer, profile, op);
    }
}

fn count_ops(printer: &mut Printer, ops: &[Op]) {
    if !ops.is_empty() {
        printer.count("ops", ops.len() as u64);
    }
}

/// Prints an op by its bytes.
fn spell(printer: &mut Printer, profile: Profile, op: &Op) {
    match spelled(printer.alloc, profile, op) {
        Ok(bytes) => printer.hex("op", &bytes),
        Err(NoMemory) => printer.lack(),
    }
}

fn spelled(alloc: Global, profile: Profile, op: &Op) -> Result<Vec<u8>, NoMemory> {
    let mut bytes = Vec::with_capacity(alloc, op.spelled_len(profile))?;
    put(&mut bytes, profile, op)?;
    Ok(bytes)
}

fn print_end(printer: &mut Printer, outcome: &Outcome) {
    if let Some(place) = outcome.refused_at {
        printer.count("no memory at", u64::from(place));
    }
    if outcome.ended {
        printer.line("killed");
    }
}
