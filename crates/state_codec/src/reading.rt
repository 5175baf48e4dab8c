// Reads ops and snapshots of each layout from bytes.
ghost use Rattle.std.specs.Prelude.{◌≡◌, ◌-◌, List, IfOk, Ok, length};
ghost use Rattle.state_codec.specs.Ops.{AreOps};
ghost use Rattle.state_codec.specs.SavedState.{SavedState, IsSavedState};
ghost use Rattle.state_codec.specs.Spelling.{body_bytes, saved_bytes};
ghost use Rattle.state_codec.specs.Reading.{ops_reading, saved_reading, ops_reading_in, saved_reading_in, front_ops, front_state};
ghost use Rattle.state_codec.specs.Layout.{IsLayout, layout_of, profile_of, AreOpsIn, IsStateIn};
ghost use Rattle.state_codec.specs.Answers.{GivesOps, GivesSaved, op_error, snapshot_error};
ghost use Rattle.state_codec.specs.declared.op.Op.{Op as AnOp};

use crate::fields::{ReadError, Reader};
use crate::layout::{Layout, layout_of};
use crate::op::Op;
use crate::refusal::CodecError;
use crate::saved::Saved;
use crate::sealed::unsealed;
use std::alloc::Global;

mod body;
mod lists;
mod ops;
mod place;
mod queue;
mod rows;
mod saved;
mod sticker_list;
mod times;

// What is told of a fault in the body of a record.
fn op_error(bytes: &[u8], error: ReadError) -> CodecError
    ensures { result ≡ op_error (length bytes.now) error }
{
    match error {
        ReadError::Fault(left) => CodecError::BadOp(bytes.len().saturating_sub(left)),
        ReadError::NoMemory => CodecError::NoMemory,
    }
}

// What is told of a fault in a snapshot.
fn snapshot_error(bytes: &[u8], error: ReadError) -> CodecError
    ensures { result ≡ snapshot_error (length bytes.now) error }
{
    match error {
        ReadError::Fault(left) => CodecError::BadSnapshot(bytes.len().saturating_sub(left)),
        ReadError::NoMemory => CodecError::NoMemory,
    }
}

fn all_ops(alloc: Global, layout: Layout, bytes: &[u8]) -> Result<Vec<Op>, CodecError>
    ensures { GivesOps result (ops_reading_in layout bytes.now) }
{
    match unsealed(layout.profile, bytes) {
        Ok(front) => front_ops(alloc, layout, front),
        Err(offset) => Err(CodecError::BadOp(offset)),
    }
}

// The ops of bytes without their checksum.
fn front_ops(alloc: Global, layout: Layout, bytes: &[u8]) -> Result<Vec<Op>, CodecError>
    ensures { GivesOps result (front_ops layout bytes.now) }
{
    if bytes.is_empty() {
        return Err(CodecError::BadOp(0));
    }
    let mut reader = Reader { rest: bytes };
    let mut ops = Vec::new(alloc);
    while !reader.rest.is_empty() {
        match reader.op(alloc, layout) {
            Ok(op) => ops.push(op)?,
            Err(error) => return Err(op_error(bytes, error)),
        }
    }
    Ok(ops)
}

/// The ops that the body of a record spells, all of its bytes, in a layout of the journal: 1, 2 or 3, and any other number is
/// taken for 2. In layout 3 its checksum is looked at first. Refused by `BadOp` and `NoMemory`.
pub fn take_ops(alloc: Global, layout: u32, bytes: &[u8]) -> Result<Vec<Op>, CodecError>
    // What is read is spelled so.
    ensures found { IfOk result (λ ops. AreOps (profile_of layout) ops.items × (bytes.now ≡ body_bytes (profile_of layout) ops.items)) }
    // The layout has its values.
    ensures within { IfOk result (λ ops. AreOpsIn (layout_of layout) ops.items) }
    // What is spelled so is read, unless memory runs out.
    ensures only { (ops : List AnOp) → AreOps (profile_of layout) ops → AreOpsIn (layout_of layout) ops
        → bytes.now ≡ body_bytes (profile_of layout) ops → GivesOps result (Ok ops) }
    // Else the fault is that of the checksum, or else that of the first field from the left.
    ensures exact { GivesOps result (ops_reading layout bytes.now) }
{
    all_ops(alloc, layout_of(layout), bytes)
}

fn only_saved(alloc: Global, layout: Layout, bytes: &[u8]) -> Result<Saved, CodecError>
    requires { IsLayout layout }
    ensures { GivesSaved result (saved_reading_in layout bytes.now) }
{
    match unsealed(layout.profile, bytes) {
        Ok(front) => front_state(alloc, layout, front),
        Err(offset) => Err(CodecError::BadSnapshot(offset)),
    }
}

// The state of bytes without their checksum.
fn front_state(alloc: Global, layout: Layout, bytes: &[u8]) -> Result<Saved, CodecError>
    requires { IsLayout layout }
    ensures { GivesSaved result (front_state layout bytes.now) }
{
    let mut reader = Reader { rest: bytes };
    match reader.saved(alloc, layout) {
        Ok(saved) if reader.rest.is_empty() => Ok(saved),
        Ok(_) => Err(snapshot_error(bytes, reader.fault())),
        Err(error) => Err(snapshot_error(bytes, error)),
    }
}

/// The state that a snapshot spells, all of its bytes, in a layout of the journal: 1, 2 or 3, and any other number is taken
/// for 2. In layout 3 its checksum is looked at first. It is made in linear time but for the look-ups of URIs. Refused by
/// `BadSnapshot` and `NoMemory`.
pub fn take_saved(alloc: Global, layout: u32, bytes: &[u8]) -> Result<Saved, CodecError>
    // What is read is spelled so.
    ensures found { IfOk result (λ saved. IsSavedState saved × (bytes.now ≡ saved_bytes saved)) }
    // The layout has its values.
    ensures within { IfOk result (λ saved. IsStateIn (layout_of layout) saved) }
    // What is spelled so is read, unless memory runs out.
    ensures only { (saved : SavedState) → IsSavedState saved → IsStateIn (layout_of layout) saved
        → bytes.now ≡ saved_bytes saved → GivesSaved result (Ok saved) }
    // Else the fault is that of the checksum, or else that of the first field from the left.
    ensures exact { GivesSaved result (saved_reading layout bytes.now) }
{
    only_saved(alloc, layout_of(layout), bytes)
}
