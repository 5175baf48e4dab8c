// Laying a file down, in three steps: its gate is closed, the file is written behind the closed gate, and the gate is opened.
ghost use Rattle.std.specs.Prelude.{◌≡◌, ◌≢◌, ◌⊎◌, ◌+◌, ◌^◌, ◌<◌, ◌≤◌, [], ◌∷◌, ◌++◌, length, take, slice_index, MatchBool, OnOk, OnErr};
ghost use Rattle.std.specs.Prelude.{IfOk, vec_capacity};
ghost use Rattle.disk_model.specs.Calls.{overwritten};
ghost use Rattle.disk_model.specs.Faults.{HasGrown};
ghost use Rattle.disk_model.specs.Images.{window, settled};
ghost use Rattle.disk_model.specs.Later.{IsLater};
ghost use Rattle.disk_model.specs.Moments.{AllSince};
ghost use Rattle.disk_model.specs.Torn.{Torn};
ghost use Rattle.play_journal.specs.File.{open_gate, head, IsClosed, IsShut};
ghost use Rattle.play_journal.specs.Laying.{EndsWith, IsDoneBehind, IsSameOrShut, IsLaidDown};
ghost use Rattle.play_journal.specs.Pieces.{longest_piece, most_pieces};

use crate::reading::{CLOSED, HEAD_LEN, NAME, OPEN};
use crate::{JournalError, Pieces};
use disk_model::Disk;

// What the head of a file says: its layout, its generation, its base and the length of its snapshot.
#[derive(Clone, Copy)]
pub(crate) struct Head {
    pub(crate) layout: u32,
    pub(crate) generation: u64,
    pub(crate) base: u64,
    pub(crate) size: u32,
}

// Puts bytes behind what the buffer holds.
fn put_bytes(buffer: &mut Vec<u8>, bytes: &[u8])
    requires { length buffer.old.items + length bytes.now ≤ vec_capacity buffer.old }
    ensures items { buffer.new.items ≡ buffer.old.items ++ bytes.now }
    ensures room { vec_capacity buffer.old ≤ vec_capacity buffer.new }
{
    if buffer.extend_from_slice(bytes).is_err() {
        unreachable!();
    }
}

// Puts what stands between a file's gate and its snapshot into the buffer, in place of what it held.
#[tactic(auto, unfolding(crate::specs::File::head))]
fn put_head(buffer: &mut Vec<u8>, says: Head)
    requires { longest_piece ≤ vec_capacity buffer.old }
    ensures head { buffer.new.items ≡ head says.layout says.generation says.base says.size }
    ensures room { vec_capacity buffer.old ≤ vec_capacity buffer.new }
{
    buffer.clear();
    put_bytes(buffer, &NAME);
    put_bytes(buffer, &says.layout.to_le_bytes());
    put_bytes(buffer, &says.generation.to_le_bytes());
    put_bytes(buffer, &says.base.to_le_bytes());
    put_bytes(buffer, &says.size.to_le_bytes());
}

// Writes these bytes at an offset, and syncs.
pub(crate) fn write_synced<D: Disk>(disk: &mut D, at: u64, bytes: &[u8]) -> Result<(), JournalError>
    ensures later { IsLater D.honest D.history D.faults disk.old disk.new }
    ensures any_moment { D.honest disk.old → window (D.history disk.old) ≡ settled (D.content disk.old) → at ≤ length (D.content disk.old)
        → AllSince (Torn at (length bytes.now) (D.content disk.old)) (D.history disk.new) (length (D.history disk.old)) }
    ensures settled { D.honest disk.old → OnOk result (window (D.history disk.new) ≡ settled (D.content disk.new)) }
    ensures written { D.honest disk.old → OnOk result (D.content disk.new ≡ overwritten (D.content disk.old) at bytes.now) }
    ensures calls { D.honest disk.old → OnOk result (length (D.history disk.new) ≡ length (D.history disk.old) + 2) }
    ensures error { OnErr result (result ≡ Err JournalError.DiskFault) }
    ensures fault { D.honest disk.old → at ≤ length (D.content disk.old)
        → OnErr result (HasGrown (D.faults disk.old) (D.faults disk.new)) }
    ensures met_none { OnOk result (D.faults disk.new ≡ D.faults disk.old) }
{
    disk.write_at(at, bytes)?;
    disk.sync()?;
    Ok(())
}

// Whether the gate of a file has to be closed: it is open, or there is none.
fn needs_closing<D: Disk>(disk: &mut D) -> Result<bool, JournalError>
    ensures later { IsLater D.honest D.history D.faults disk.old disk.new }
    ensures content { D.honest disk.old → D.content disk.new ≡ D.content disk.old }
    ensures history { D.honest disk.old → D.history disk.new ≡ D.history disk.old }
    ensures told { D.honest disk.old → IfOk result (λ r. MatchBool r
        ((D.content disk.old ≡ []) ⊎ (slice_index (D.content disk.old) 0 ≡ open_gate))
        (IsClosed (D.content disk.old))) }
    ensures error { OnErr result (result ≡ Err JournalError.DiskFault) }
    ensures fault { D.honest disk.old → OnErr result (HasGrown (D.faults disk.old) (D.faults disk.new)) }
    ensures met_none { OnOk result (D.faults disk.new ≡ D.faults disk.old) }
{
    if disk.is_empty() {
        return Ok(true);
    }
    let mut gate = [CLOSED];
    disk.read_at(0, &mut gate)?;
    Ok(gate[0] == OPEN)
}

// Syncs a file, and closes its gate if it has to be closed.
pub(crate) fn close_gate<D: Disk>(disk: &mut D) -> Result<(), JournalError>
    ensures later { IsLater D.honest D.history D.faults disk.old disk.new }
    ensures any_moment { D.honest disk.old → window (D.history disk.old) ≡ settled (D.content disk.old)
        → AllSince (IsSameOrShut (D.content disk.old)) (D.history disk.new) (length (D.history disk.old)) }
    ensures settled { D.honest disk.old → OnOk result (window (D.history disk.new) ≡ settled (D.content disk.new)) }
    ensures closed { D.honest disk.old → OnOk result (IsClosed (D.content disk.new)) }
    ensures calls { D.honest disk.old → OnOk result (length (D.history disk.new) ≤ length (D.history disk.old) + 2) }
    ensures error { OnErr result (result ≡ Err JournalError.DiskFault) }
    ensures fault { D.honest disk.old → OnErr result (HasGrown (D.faults disk.old) (D.faults disk.new)) }
    ensures met_none { OnOk result (D.faults disk.new ≡ D.faults disk.old) }
{
    if needs_closing(disk)? {
        write_synced(disk, 0, &[CLOSED])
    } else {
        disk.sync()?;
        Ok(())
    }
}

// Writes bytes from an offset on, piece by piece.
fn write_pieces<D: Disk, P: Pieces>(
    disk: &mut D,
    start: u64,
    buffer: &mut Vec<u8>,
    pieces: &mut P,
) -> Result<(), JournalError>
    requires room { longest_piece ≤ vec_capacity buffer.old }
    requires short { start + length (P.left pieces.old) < 2 ^ 63 }
    ensures later { IsLater D.honest D.history D.faults disk.old disk.new }
    ensures behind { D.honest disk.old → IsDoneBehind start (D.history disk.old) (D.history disk.new) }
    ensures written { D.honest disk.old → start ≤ length (D.content disk.old)
        → OnOk result (EndsWith start (P.left pieces.old) (D.content disk.old) (D.content disk.new)) }
    ensures calls { D.honest disk.old → OnOk result (length (D.history disk.new)
        ≤ length (D.history disk.old) + most_pieces (length (P.left pieces.old))) }
    ensures error { OnErr result (result ≡ Err JournalError.DiskFault) }
    ensures fault { D.honest disk.old → start ≤ length (D.content disk.old)
        → OnErr result (HasGrown (D.faults disk.old) (D.faults disk.new)) }
    ensures met_none { OnOk result (D.faults disk.new ≡ D.faults disk.old) }
    ensures room { vec_capacity buffer.old ≤ vec_capacity buffer.new }
{
    let end = start + pieces.len() as u64;
    let mut at = start;
    while at < end {
        pieces.next(buffer);
        disk.write_at(at, buffer)?;
        at += buffer.len() as u64;
    }
    Ok(())
}

// Writes head, snapshot and closing gate behind a closed gate, cuts there, and syncs.
fn write_behind<D: Disk, P: Pieces>(
    disk: &mut D,
    buffer: &mut Vec<u8>,
    says: Head,
    snapshot: &mut P,
) -> Result<(), JournalError>
    requires room { longest_piece ≤ vec_capacity buffer.old }
    requires size { says.size ≡ length (P.left snapshot.old) }
    ensures later { IsLater D.honest D.history D.faults disk.old disk.new }
    ensures any_moment { D.honest disk.old → window (D.history disk.old) ≡ settled (D.content disk.old) → IsClosed (D.content disk.old)
        → AllSince IsShut (D.history disk.new) (length (D.history disk.old)) }
    ensures settled { D.honest disk.old → OnOk result (window (D.history disk.new) ≡ settled (D.content disk.new)) }
    ensures written { D.honest disk.old → IsClosed (D.content disk.old)
        → OnOk result (D.content disk.new ≡ take 1 (D.content disk.old)
        ++ (head says.layout says.generation says.base says.size ++ P.left snapshot.old ++ 0 ∷ [])) }
    ensures calls { D.honest disk.old
        → OnOk result (length (D.history disk.new) ≤ length (D.history disk.old) + (4 + most_pieces (length (P.left snapshot.old)))) }
    ensures error { OnErr result (result ≡ Err JournalError.DiskFault) }
    ensures fault { D.honest disk.old → IsClosed (D.content disk.old)
        → OnErr result (HasGrown (D.faults disk.old) (D.faults disk.new)) }
    ensures met_none { OnOk result (D.faults disk.new ≡ D.faults disk.old) }
    ensures room { vec_capacity buffer.old ≤ vec_capacity buffer.new }
{
    let end = HEAD_LEN as u64 + says.size as u64;
    put_head(buffer, says);
    disk.write_at(1, buffer)?;
    write_pieces(disk, HEAD_LEN as u64, buffer, snapshot)?;
    disk.write_at(end, &[CLOSED])?;
    disk.cut(end + 1)?;
    disk.sync()?;
    Ok(())
}

// Lays a file down over another: at each moment it is the file from before, shut, or the new one.
pub(crate) fn lay_down<D: Disk, P: Pieces>(
    disk: &mut D,
    buffer: &mut Vec<u8>,
    says: Head,
    snapshot: &mut P,
) -> Result<(), JournalError>
    requires room { longest_piece ≤ vec_capacity buffer.old }
    requires size { says.size ≡ length (P.left snapshot.old) }
    ensures later { IsLater D.honest D.history D.faults disk.old disk.new }
    ensures any_moment { D.honest disk.old → window (D.history disk.old) ≡ settled (D.content disk.old)
        → AllSince (IsLaidDown (D.content disk.old) (open_gate ∷ head says.layout says.generation says.base says.size
        ++ P.left snapshot.old ++ 0 ∷ [])) (D.history disk.new) (length (D.history disk.old)) }
    ensures settled { D.honest disk.old → OnOk result (window (D.history disk.new) ≡ settled (D.content disk.new)) }
    ensures written { D.honest disk.old → OnOk result (D.content disk.new ≡ open_gate
        ∷ head says.layout says.generation says.base says.size ++ P.left snapshot.old ++ 0 ∷ []) }
    ensures calls { D.honest disk.old
        → OnOk result (length (D.history disk.new) ≤ length (D.history disk.old) + (8 + most_pieces (length (P.left snapshot.old)))) }
    ensures error { OnErr result (result ≡ Err JournalError.DiskFault) }
    ensures fault { D.honest disk.old → OnErr result (HasGrown (D.faults disk.old) (D.faults disk.new)) }
    ensures met_none { OnOk result (D.faults disk.new ≡ D.faults disk.old) }
    ensures room { vec_capacity buffer.old ≤ vec_capacity buffer.new }
{
    close_gate(disk)?;
    write_behind(disk, buffer, says, snapshot)?;
    write_synced(disk, 0, &[OPEN])
}
