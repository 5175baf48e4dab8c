//! Records and ops applied to the state.
use super::Codec;
use super::ops::read;
use crate::fault::Fault;
use crate::given::numbered;
use crate::printer::Printer;
use state_codec::{ApplyError, BodyError, Op, OpRefusal, Saved};
use std::alloc::Global;

// The next functions have no contract: the prover then reads the long ones here alone.

fn apply_body(state: &mut Saved, alloc: Global, layout: u32, body: &[u8]) -> Result<(), BodyError> {
    state.apply_body(alloc, layout, body)
}

fn check(state: &Saved, op: &Op) -> Result<bool, OpRefusal> {
    state.check(op)
}

fn apply(state: &mut Saved, alloc: Global, op: &Op) -> Result<(), ApplyError> {
    state.apply(alloc, op)
}

/// An op isn't applied.
fn unapplied(error: ApplyError) -> Fault {
    match error {
        ApplyError::NoMemory => Fault::NoMemory,
        ApplyError::Refused(_) => Fault::Refused,
    }
}

fn apply_all(state: &mut Saved, alloc: Global, layout: u32, bytes: &[u8]) -> Result<(), Fault> {
    for op in read(alloc, layout, bytes)? {
        apply(state, alloc, &op).map_err(unapplied)?;
    }
    Ok(())
}

impl Codec {
    /// The bytes are the body of a record, which is applied.
    pub(super) fn apply_body(&mut self, printer: &mut Printer) {
        match apply_body(&mut self.state, self.alloc, self.layout, &self.given) {
            Ok(()) => printer.line("applied"),
            Err(error) => printer.refused(error.number(), error),
        }
    }

    /// The ops that the bytes spell are checked and applied one by one.
    pub(super) fn apply_given(&mut self, printer: &mut Printer) -> Result<(), Fault> {
        for op in read(self.alloc, self.layout, &self.given)? {
            self.apply_op(printer, &op);
        }
        Ok(())
    }

    fn apply_op(&mut self, printer: &mut Printer, op: &Op) {
        if let Err(refusal) = check(&self.state, op) {
            printer.refused(refusal.number(), refusal);
        }
        match apply(&mut self.state, self.alloc, op) {
            Ok(()) => printer.line("applied"),
            Err(error) => printer.refused(error.number(), error),
        }
    }

    /// The ops of a text are applied so often; its numbers go on from one time to the next.
    pub(super) fn apply_often(&mut self, count: u64, text: &str) -> Result<(), Fault> {
        let mut first = 0;
        for _ in 0..count {
            let (bytes, next) = numbered(self.alloc, text, first)?;
            apply_all(&mut self.state, self.alloc, self.layout, &bytes)?;
            first = next;
        }
        Ok(())
    }
}
