//! A core from what was saved and ops.
use super::connected::Connected;
use crate::codec::{LAYOUT, ops, snapshots};
use crate::fault::Fault;
use crate::given::read_bytes;
use crate::printer::Printer;
use crate::words::first_word;
use daemon_core::{Core, RecoverError};
use state_codec::{Op, Saved};
use std::alloc::Global;

// The prover reads the contract of this call here alone.
fn core_of(alloc: Global, saved: Saved, ops: &[Op]) -> Result<Core, RecoverError> {
    Core::recover(alloc, saved, ops)
}

/// Puts a core in the place of another, or prints why it can't be made.
fn replace(core: &mut Core, printer: &mut Printer, saved: Saved, ops: &[Op]) {
    match core_of(printer.alloc, saved, ops) {
        Ok(found) => *core = found,
        Err(refusal) => printer.refused(refusal.number(), refusal),
    }
}

fn replay(core: &mut Core, printer: &mut Printer, saved: Saved, ops: &[u8]) {
    if ops.is_empty() {
        return replace(core, printer, saved, &[]);
    }
    match ops::taken(printer.alloc, LAYOUT, ops) {
        Ok(ops) => replace(core, printer, saved, &ops),
        Err(refusal) => printer.refused(refusal.number(), refusal),
    }
}

fn recover_from(core: &mut Core, printer: &mut Printer, saved: &[u8], ops: &[u8]) {
    match snapshots::read(printer.alloc, LAYOUT, saved) {
        Ok(saved) => replay(core, printer, saved, ops),
        Err(refusal) => printer.refused(refusal.number(), refusal),
    }
}

/// A core from what was saved and ops, if there are any, both in hexadecimal digits, in the place of the present one. No client is
/// connected then.
pub fn recover(
    core: &mut Core,
    clients: &mut Connected,
    printer: &mut Printer,
    text: &str,
) -> Result<(), Fault> {
    clients.clear();
    let (saved, ops) = first_word(text);
    let saved = read_bytes(printer.alloc, saved)?;
    let ops = read_bytes(printer.alloc, ops)?;
    recover_from(core, printer, &saved, &ops);
    Ok(())
}
