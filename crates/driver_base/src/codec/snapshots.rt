//! Snapshots.
use super::{Codec, ops};
use crate::fault::Fault;
use crate::printer::Printer;
use no_memory::NoMemory;
use state_codec::{CodecError, Saved, put_saved, take_saved};
use std::alloc::Global;

// The next functions have no contract: the prover then reads the long ones here alone.

pub fn read(alloc: Global, layout: u32, bytes: &[u8]) -> Result<Saved, CodecError> {
    take_saved(alloc, layout, bytes)
}

pub fn put(alloc: Global, saved: &Saved) -> Result<Vec<u8>, NoMemory> {
    put_saved(alloc, saved)
}

fn spelled(alloc: Global, saved: &Saved) -> Result<Vec<u8>, Fault> {
    Ok(put(alloc, saved)?)
}

/// What is wrong with bytes in a layout, as ops or as a snapshot.
fn fault_of(alloc: Global, layout: u32, bytes: &[u8], as_ops: bool) -> Option<CodecError> {
    if as_ops {
        ops::fault_of(alloc, layout, bytes)
    } else {
        read(alloc, layout, bytes).err()
    }
}

/// The bytes with one of them changed.
fn changed(alloc: Global, bytes: &[u8], place: u64, byte: u8) -> Result<Vec<u8>, Fault> {
    let mut bytes = Vec::from_slice(alloc, bytes)?;
    *bytes.get_mut(place as usize).ok_or(Fault::NoBytes)? = byte;
    Ok(bytes)
}

/// Prints what is wrong with bytes, or that nothing is.
fn tell_fault(printer: &mut Printer, fault: Option<CodecError>) {
    match fault {
        Some(error) => printer.refused(error.number(), error),
        None => printer.line("read"),
    }
}

/// Prints how long bytes are that were spelled again, and whether they are the same.
fn tell_same(printer: &mut Printer, bytes: &[u8], again: &[u8]) {
    let (len, is_same) = (again.len(), bytes == again);
    printer.text(format!(in printer.alloc; "again {len} {is_same}\n").ok());
}

impl Codec {
    /// Prints the fault of each front of the bytes, read as ops or as a snapshot.
    pub(super) fn tell_fronts(&self, printer: &mut Printer, as_ops: bool) {
        for len in 0..self.given.len() {
            printer.number(len as u64);
            printer.add(b" ");
            let front = self.given.get(..len).unwrap_or(&self.given);
            tell_fault(printer, fault_of(self.alloc, self.layout, front, as_ops));
        }
    }

    /// The state is the one that the bytes spell.
    pub(super) fn read_snapshot(&mut self, printer: &mut Printer) {
        match read(self.alloc, self.layout, &self.given) {
            Ok(saved) => {
                self.state = saved;
                printer.line("read");
            }
            Err(error) => printer.refused(error.number(), error),
        }
    }

    /// Prints what is wrong with the bytes where one of them is changed, or what they are spelled to again.
    pub(super) fn read_changed(
        &self,
        printer: &mut Printer,
        place: u64,
        byte: u8,
    ) -> Result<(), Fault> {
        let bytes = changed(self.alloc, &self.given, place, byte)?;
        self.tell_read(printer, &bytes)
    }

    /// Prints what is wrong with bytes as a snapshot, or what they are spelled to again.
    fn tell_read(&self, printer: &mut Printer, bytes: &[u8]) -> Result<(), Fault> {
        match read(self.alloc, self.layout, bytes) {
            Ok(saved) => tell_same(printer, bytes, &spelled(self.alloc, &saved)?),
            Err(error) => printer.refused(error.number(), error),
        }
        Ok(())
    }

    /// Prints the snapshot of the state.
    pub(super) fn tell_spelled(&self, printer: &mut Printer) -> Result<(), Fault> {
        printer.digits(&spelled(self.alloc, &self.state)?);
        printer.add(b"\n");
        Ok(())
    }

    /// Prints how long the snapshot of the state is, and whether what is read of it is spelled so again; or what is wrong with it.
    pub(super) fn tell_again(&self, printer: &mut Printer) -> Result<(), Fault> {
        let bytes = spelled(self.alloc, &self.state)?;
        self.tell_read(printer, &bytes)
    }
}
