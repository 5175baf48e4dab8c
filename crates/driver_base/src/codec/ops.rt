//! Ops as they are read, and their bytes.
use crate::fault::Fault;
use crate::printer::Printer;
use no_memory::NoMemory;
use profile::Profile;
use state_codec::{CodecError, Op, put_op, take_ops};
use std::alloc::Global;

// The next functions have no contract: the prover then reads the long ones here alone.

pub fn taken(alloc: Global, layout: u32, bytes: &[u8]) -> Result<Vec<Op>, CodecError> {
    take_ops(alloc, layout, bytes)
}

pub fn put(out: &mut Vec<u8>, profile: Profile, op: &Op) -> Result<(), NoMemory> {
    put_op(out, profile, op)
}

/// The profile whose ops a layout spells.
fn profile_of(layout: u32) -> Profile {
    if layout == 3 {
        Profile::Wide
    } else {
        Profile::Named
    }
}

/// Bytes can't be read.
fn unread(error: CodecError) -> Fault {
    match error {
        CodecError::NoMemory => Fault::NoMemory,
        _ => Fault::NoBytes,
    }
}

/// The ops that bytes spell in a layout, where they spell some.
pub fn read(alloc: Global, layout: u32, bytes: &[u8]) -> Result<Vec<Op>, Fault> {
    taken(alloc, layout, bytes).map_err(unread)
}

/// What is wrong with ops, if anything is.
pub fn fault_of(alloc: Global, layout: u32, bytes: &[u8]) -> Option<CodecError> {
    taken(alloc, layout, bytes).err()
}

/// Prints the bytes of an op in so much room, or that it is refused and how many bytes then stand there.
fn tell_in_room(
    printer: &mut Printer,
    profile: Profile,
    op: &Op,
    room: usize,
) -> Result<(), Fault> {
    let mut out = Vec::with_capacity(printer.alloc, room)?;
    match put(&mut out, profile, op) {
        Ok(()) => printer.hex("written", &out),
        Err(refusal) => {
            let (number, len) = (refusal.number(), out.len());
            printer.text(format!(in printer.alloc;
                "refused {number} in {room}, {len} written\n"
            ).ok());
        }
    }
    Ok(())
}

fn tell_op(printer: &mut Printer, profile: Profile, op: &Op) -> Result<(), Fault> {
    printer.text(format!(in printer.alloc; "op {op:?}\n").ok());
    let len = op.spelled_len(profile);
    tell_in_room(printer, profile, op, len)?;
    tell_in_room(printer, profile, op, len.saturating_sub(1))
}

fn tell_all(printer: &mut Printer, profile: Profile, ops: &[Op]) -> Result<(), Fault> {
    for op in ops {
        tell_op(printer, profile, op)?;
    }
    Ok(())
}

/// Prints the ops that the bytes spell in a layout: each of them, and what it is spelled to.
pub fn tell_ops(printer: &mut Printer, layout: u32, bytes: &[u8]) -> Result<(), Fault> {
    match taken(printer.alloc, layout, bytes) {
        Ok(ops) => tell_all(printer, profile_of(layout), &ops),
        Err(error) => {
            printer.refused(error.number(), error);
            Ok(())
        }
    }
}
