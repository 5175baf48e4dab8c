// The saved state that a snapshot and its records stand for.
ghost use Rattle.std.specs.Prelude.{◌≡◌};
ghost use Rattle.live_stage.specs.Decoding.{GivesState, GivesAfter, snapshot_error, record_error};
ghost use Rattle.live_stage.specs.Found.{after_record, stored_reading};

use crate::StartError;
use play_journal::Stored;
use state_codec::{BodyError, CodecError, Saved, take_saved};
use std::alloc::Global;

/// The offset of a snapshot in its file, in bytes.
const SNAPSHOT_AT: u64 = 32;

/// What a record takes in a file beside its body: its gate and its length.
const RECORD_HEAD: u64 = 5;

/// The state that the records make of the snapshot's in a layout, one after the other, each in place. A fault is told by the offset
/// in the file of the snapshot or of the record's gate.
pub(crate) fn take_state(alloc: Global, layout: u32, stored: &Stored) -> Result<Saved, StartError>
    ensures { GivesState result (stored_reading layout stored.now.snapshot stored.now.records) }
{
    let snapshot = stored.snapshot();
    let mut saved = match take_saved(alloc, layout, snapshot) {
        Ok(saved) => saved,
        Err(error) => return Err(bad_snapshot(error)),
    };
    let mut gate = SNAPSHOT_AT.saturating_add(snapshot.len() as u64);
    for place in 0..stored.record_count() {
        let body = stored.record(place);
        apply_record(alloc, layout, &mut saved, body, gate)?;
        gate = gate
            .saturating_add(RECORD_HEAD)
            .saturating_add(body.len() as u64);
    }
    Ok(saved)
}

// Applies the ops of one record, whose gate has this offset.
fn apply_record(
    alloc: Global,
    layout: u32,
    saved: &mut Saved,
    body: &[u8],
    gate: u64,
) -> Result<(), StartError>
    ensures { GivesAfter gate result saved.new (after_record layout body.now saved.old) }
{
    match saved.apply_body(alloc, layout, body) {
        Ok(()) => Ok(()),
        Err(error) => Err(bad_record(gate, error)),
    }
}

// Why a snapshot gives no state.
fn bad_snapshot(error: CodecError) -> StartError
    ensures { result ≡ snapshot_error error }
{
    match error {
        CodecError::NoMemory => StartError::NoMemory,
        CodecError::BadOp(_) | CodecError::BadSnapshot(_) => StartError::Damaged(SNAPSHOT_AT),
    }
}

// Why the record whose gate has this offset gives no state.
fn bad_record(gate: u64, error: BodyError) -> StartError
    ensures { result ≡ record_error gate error }
{
    match error {
        BodyError::NoMemory => StartError::NoMemory,
        BodyError::BadOp(_) | BodyError::DoesNotApply(_) => StartError::Damaged(gate),
    }
}
