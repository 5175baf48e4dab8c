// The body of a record, applied as it is read.
ghost use Rattle.std.specs.Prelude.{◌≡◌, List, Ok, Some, OnOk, length};
ghost use Rattle.state_codec.specs.Applied.{refusal_of, applied, applied_from};
ghost use Rattle.state_codec.specs.Body.{body_applied, body_applied_in, front_applied, GivesBody, told_place, bad_op, not_applied};
ghost use Rattle.state_codec.specs.Editing.{AnswersApply};
ghost use Rattle.state_codec.specs.Reading.{ops_reading};
ghost use Rattle.state_codec.specs.declared.op.Op.{Op as AnOp};

use crate::fields::{ReadError, Reader};
use crate::layout::{Layout, layout_of};
use crate::op::Op;
use crate::refusal::{ApplyError, BodyError};
use crate::saved::Saved;
use crate::sealed::unsealed;
use std::alloc::Global;

// What is told of a fault in the body.
fn bad_op(body: &[u8], error: ReadError) -> BodyError
    ensures { result ≡ bad_op (length body.now) error }
{
    match error {
        ReadError::Fault(left) => BodyError::BadOp(body.len().saturating_sub(left)),
        ReadError::NoMemory => BodyError::NoMemory,
    }
}

// What is told of the op at a place that was refused.
fn not_applied(place: usize, error: ApplyError) -> BodyError
    ensures { result ≡ not_applied place error }
{
    match error {
        ApplyError::NoMemory => BodyError::NoMemory,
        ApplyError::Refused(_) => BodyError::DoesNotApply(place),
    }
}

impl Saved {
    /// Applies the ops that the body of a record spells in a layout of the journal (1, 2 or 3, and any other number is taken
    /// for 2): each is read, applied in place, and then the next. In layout 3 the checksum is looked at before. Refused by
    /// `BadOp`, `DoesNotApply` and `NoMemory`; the state is then to be given up, since ops before the one at fault were applied.
    pub fn apply_body(&mut self, alloc: Global, layout: u32, body: &[u8]) -> Result<(), BodyError>
        ensures exact { GivesBody result self.new (body_applied layout body.now self.old) }
        // Of a body that spells ops: the state after all of them, or the first that doesn't apply.
        ensures ops { (ops : List AnOp) → ops_reading layout body.now ≡ Ok ops
            → GivesBody result self.new (told_place (applied_from 0 ops self.old)) }
    {
        self.apply_all(alloc, layout_of(layout), body)
    }

    // Applies an op that was read, and lets it go.
    fn apply_read(&mut self, alloc: Global, op: Op) -> Result<(), ApplyError>
        ensures ok { OnOk result (applied op self.old ≡ Some self.new) }
        ensures answer { AnswersApply (refusal_of op self.old) result }
    {
        self.apply(alloc, &op)
    }

    fn apply_all(&mut self, alloc: Global, layout: Layout, body: &[u8]) -> Result<(), BodyError>
        ensures { GivesBody result self.new (body_applied_in layout body.now self.old) }
    {
        match unsealed(layout.profile, body) {
            Ok(front) => self.apply_front(alloc, layout, front),
            Err(offset) => Err(BodyError::BadOp(offset)),
        }
    }

    // Applies the ops of bytes without their checksum.
    fn apply_front(&mut self, alloc: Global, layout: Layout, body: &[u8]) -> Result<(), BodyError>
        ensures { GivesBody result self.new (front_applied layout self.old body.now) }
    {
        if body.is_empty() {
            return Err(BodyError::BadOp(0));
        }
        let mut reader = Reader { rest: body };
        let mut place = 0;
        while !reader.rest.is_empty() {
            let op = match reader.op(alloc, layout) {
                Ok(op) => op,
                Err(error) => return Err(bad_op(body, error)),
            };
            match self.apply_read(alloc, op) {
                Ok(()) => {}
                Err(error) => return Err(not_applied(place, error)),
            }
            place += 1;
        }
        Ok(())
    }
}
