// Writes ops and the saved state as the bytes of a record and of a snapshot.
ghost use Rattle.std.specs.Prelude.{◌≡◌, ◌+◌, ◌<◌, ◌≤◌, ◌↔◌, ◌++◌, length, vec_len, vec_capacity, OnOk, OnErr, IfOk, IsErr, IsTrue};
ghost use Rattle.std.specs.List.{AllByRecursion, flat_map};
ghost use Rattle.state_codec.specs.Appended.{HasRoom, Appends};
ghost use Rattle.state_codec.specs.Ops.{IsOp};
ghost use Rattle.state_codec.specs.SavedState.{IsSavedState};
ghost use Rattle.state_codec.specs.Sealed.{sealed, checksum_len};
ghost use Rattle.state_codec.specs.Spelling.{ops_bytes, body_bytes, fields_of, head_bytes, parts_bytes, saved_bytes};
ghost use Rattle.state_codec.specs.SpellingOps.{op_bytes};

use crate::op::Op;
use crate::saved::Saved;
use crate::sealed::checksum_len;
use no_memory::NoMemory;
use profile::Profile;
use std::alloc::Global;

mod bytes;
mod lengths;
mod ops;
mod place;
mod rows;
mod saved;
mod sums;
mod times;

pub(crate) use bytes::{put_byte, put_text, put_u32};
pub(crate) use lengths::saved_len;
pub(crate) use ops::{put_uri, uri_len};
pub(crate) use place::put_place_head;
pub(crate) use rows::{put_row, texts_len};
pub(crate) use saved::{put_entry, put_head, put_sticker, row_number};
pub(crate) use times::{put_time, put_times_head};

/// Appends the spelling of an op under a profile. It takes no memory: it is refused where the spare room is less than
/// `spelled_len` of the op, and then changes nothing.
pub fn put_op(out: &mut Vec<u8>, profile: Profile, op: &Op) -> Result<(), NoMemory>
    ensures appended { OnOk result (out.new.items ≡ out.old.items ++ op_bytes profile op.now) }
    ensures refused { IsErr result ↔ (vec_capacity out.old < vec_len out.old + length (op_bytes profile op.now)) }
    ensures unchanged { OnErr result (out.new.items ≡ out.old.items) }
    ensures capacity { vec_capacity out.new ≡ vec_capacity out.old }
    ensures in_range { OnOk result (IsOp op.now) }
{
    if out.capacity() - out.len() < op.spelled_len(profile) {
        return Err(NoMemory);
    }
    ops::put_reserved(out, profile, op);
    Ok(())
}

/// Appends the body of a record: its ops, and their checksum where the profile asks for one. It takes no memory: it is refused
/// where the spare room is less than the body takes, and then changes nothing.
pub fn put_ops(out: &mut Vec<u8>, profile: Profile, ops: &[Op]) -> Result<(), NoMemory>
    ensures appended { OnOk result (out.new.items ≡ out.old.items ++ body_bytes profile ops.now) }
    ensures refused { IsErr result ↔ (vec_capacity out.old < vec_len out.old + length (body_bytes profile ops.now)) }
    ensures unchanged { OnErr result (out.new.items ≡ out.old.items) }
    ensures capacity { vec_capacity out.new ≡ vec_capacity out.old }
    ensures in_range { OnOk result (AllByRecursion IsOp ops.now) }
{
    if !fits(out.capacity() - out.len(), profile, ops) {
        return Err(NoMemory);
    }
    let start = out.len();
    put_all(out, profile, ops);
    sums::put_sum(out, profile, start);
    Ok(())
}

// Whether a body takes no more bytes than this.
fn fits(room: usize, profile: Profile, ops: &[Op]) -> bool
    ensures { IsTrue result ↔ (length (ops_bytes profile ops.now) + checksum_len profile ≤ room) }
{
    let sum = checksum_len(profile);
    if room < sum {
        return false;
    }
    let mut left = room - sum;
    for op in ops {
        let len = op.spelled_len(profile);
        if left < len {
            return false;
        }
        left -= len;
    }
    true
}

fn put_all(out: &mut Vec<u8>, profile: Profile, ops: &[Op])
    requires { HasRoom out.old (length (ops_bytes profile ops.now)) }
    ensures appended { Appends out.old out.new (ops_bytes profile ops.now) }
    ensures form { AllByRecursion IsOp ops.now }
{
    for op in ops {
        ops::put_reserved(out, profile, op);
    }
}

/// The one spelling of a saved state, a snapshot. Room for just its bytes is taken first, and nothing else is; then it is made
/// from the parts in one pass, and summed in another where the profile asks for a checksum. Each entry of the queue takes a
/// binary search for its row.
pub fn put_saved(alloc: Global, saved: &Saved) -> Result<Vec<u8>, NoMemory>
    ensures spelled { IfOk result (λ bytes. bytes.items ≡ saved_bytes saved.now) }
    ensures full { IfOk result (λ bytes. vec_capacity bytes ≡ vec_len bytes) }
    ensures in_range { OnOk result (IsSavedState saved.now) }
{
    let _key = saved.key();
    let mut out = Vec::with_capacity(alloc, lengths::saved_len(saved))?;
    put_parts(&mut out, saved);
    put_fields(&mut out, saved);
    sums::put_sum(&mut out, saved.profile(), 0);
    Ok(out)
}

// Appends the fields behind the parts, where the profile has any.
fn put_fields(out: &mut Vec<u8>, saved: &Saved)
    requires { HasRoom out.old (length (fields_of saved.now)) }
    ensures { Appends out.old out.new (fields_of saved.now) }
{
    let _key = saved.key();
    if let Some(times) = saved.changed() {
        if let Some(place) = saved.place() {
            times::put_all_fields(out, times, place);
        }
    }
}

// Appends the head and the four parts.
fn put_parts(out: &mut Vec<u8>, saved: &Saved)
    requires { HasRoom out.old (length (head_bytes saved.now ++ parts_bytes saved.now)) }
    ensures { Appends out.old out.new (head_bytes saved.now ++ parts_bytes saved.now) }
{
    let _key = saved.key();
    saved::put_head(out, saved);
    saved::put_songs(out, saved.profile(), saved.songs());
    saved::put_queue(out, saved.songs(), saved.queue());
    saved::put_lists(out, saved.lists());
    saved::put_stickers(out, saved.stickers());
}
