// The device calls that add a record.
ghost use Rattle.std.specs.Prelude.{◌≡◌, ◌≢◌, ◌+◌, ◌-◌, ◌^◌, ◌<◌, ◌≤◌, [], ◌∷◌, ◌++◌, length, take, drop, slice_index, vec_capacity, OnOk};
ghost use Rattle.std.specs.Prelude.{OnErr};
ghost use Rattle.std.specs.Int.{w32, to_le_bytes};
ghost use Rattle.disk_model.specs.Faults.{HasGrown};
ghost use Rattle.disk_model.specs.Images.{window, settled};
ghost use Rattle.disk_model.specs.Later.{IsLater};
ghost use Rattle.disk_model.specs.Moments.{AllSince};
ghost use Rattle.play_journal.specs.File.{open_gate};
ghost use Rattle.play_journal.specs.Opening.{IsAppending};

use crate::JournalError;
use crate::laying::write_synced;
use crate::reading::{CLOSED, OPEN};
use disk_model::Disk;

/// What a record takes in a file beside its body, in bytes: its gate and its length.
pub(crate) const RECORD_HEAD: u64 = 5;

// Puts the length of a record, its body and a closed gate into the buffer, in place of what it held.
pub(crate) fn put_record(buffer: &mut Vec<u8>, body: &[u8])
    requires room { length body.now + 5 ≤ vec_capacity buffer.old }
    requires short { length body.now < 2 ^ 32 }
    ensures record { buffer.new.items ≡ to_le_bytes w32 (length body.now) ++ body.now ++ 0 ∷ [] }
    ensures room { vec_capacity buffer.old ≤ vec_capacity buffer.new }
{
    buffer.clear();
    put_behind(buffer, body);
}

// Puts the same behind what the buffer holds.
pub(crate) fn put_behind(buffer: &mut Vec<u8>, body: &[u8])
    requires room { length buffer.old.items + length body.now + 5 ≤ vec_capacity buffer.old }
    requires short { length body.now < 2 ^ 32 }
    ensures record { buffer.new.items ≡ buffer.old.items ++ to_le_bytes w32 (length body.now) ++ body.now ++ 0 ∷ [] }
    ensures room { vec_capacity buffer.old ≤ vec_capacity buffer.new }
{
    let len = (body.len() as u32).to_le_bytes();
    if buffer.extend_from_slice(&len).is_err() || buffer.extend_from_slice(body).is_err() {
        unreachable!();
    }
    buffer.push_reserved(CLOSED);
}

// Writes records behind the closed gate of a settled file, over what is free there, and then opens the gate: four calls of the disk.
pub(crate) fn append_at<D: Disk>(disk: &mut D, gate: u64, added: &[u8]) -> Result<(), JournalError>
    ensures later { IsLater D.honest D.history D.faults disk.old disk.new }
    ensures any_moment { D.honest disk.old → window (D.history disk.old) ≡ settled (D.content disk.old)
        → gate + 1 ≤ length (D.content disk.old)
        → AllSince (IsAppending (take gate (D.content disk.old)) (slice_index (D.content disk.old) gate) added.now) (D.history disk.new)
        (length (D.history disk.old)) }
    ensures settled { D.honest disk.old → gate + 1 ≤ length (D.content disk.old)
        → OnOk result (window (D.history disk.new) ≡ settled (D.content disk.new)) }
    ensures written { D.honest disk.old → gate + 1 ≤ length (D.content disk.old)
        → OnOk result (D.content disk.new ≡ take gate (D.content disk.old) ++ (open_gate ∷ added.now
        ++ drop (gate + 1 + length added.now) (D.content disk.old))) }
    ensures calls { D.honest disk.old → OnOk result (length (D.history disk.new) ≡ length (D.history disk.old) + 4) }
    ensures error { OnErr result (result ≡ Err JournalError.DiskFault) }
    ensures fault { D.honest disk.old → gate + 1 ≤ length (D.content disk.old)
        → OnErr result (HasGrown (D.faults disk.old) (D.faults disk.new)) }
    ensures met_none { OnOk result (D.faults disk.new ≡ D.faults disk.old) }
{
    let behind = gate.saturating_add(1);
    write_synced(disk, behind, added)?;
    write_synced(disk, gate, &[OPEN])
}
