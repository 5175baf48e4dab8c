// Laying down the first file.
ghost use Rattle.std.specs.Prelude.{◌≡◌, ◌↔◌, ◌+◌, ◌-◌, ◌^◌, ◌<◌, ◌≤◌, ◌≢◌, ◌⊎◌, [], ◌∷◌, ◌++◌, length, vec_capacity, Err, IfOk, IfErr};
ghost use Rattle.std.specs.Prelude.{OnErr, OnOk};
ghost use Rattle.disk_model.specs.Later.{AreLater, HasFailed};
ghost use Rattle.play_journal.specs.Calls.{SameFaults};
ghost use Rattle.play_journal.specs.File.{open_gate, head};
ghost use Rattle.play_journal.specs.Room.{room};
ghost use Rattle.play_journal.specs.Steps.{IsLaidFirst, IsRefusalOverEmpty, AreUntouched};

use crate::laying::{Head, lay_down};
use crate::opening::record_room;
use crate::reading::HEAD_LEN;
use crate::{JournalError, Pieces};
use disk_model::Disk;
use std::alloc::Global;

/// The greatest length of a snapshot, in bytes.
pub(crate) const LONGEST_SNAPSHOT: usize = 0xffff_ffff;

// Makes the file in use, and the buffer for one record. The answer has the offset of the closing gate.
pub(crate) fn fresh_journal<D: Disk, P: Pieces>(
    alloc: Global,
    a: &mut D,
    b: &mut D,
    layout: u32,
    snapshot: P,
) -> Result<(Vec<u8>, u64), JournalError>
    ensures laid { OnOk result (IsLaidFirst D.honest D.history D.content a.old b.old a.new b.new
        (open_gate ∷ head layout 1 0 (length (P.left snapshot)) ++ P.left snapshot ++ 0 ∷ [])) }
    ensures room { IfOk result (λ r. room ≤ vec_capacity r.0) }
    ensures end { IfOk result (λ r. r.1 ≡ 32 + length (P.left snapshot)) }
    ensures too_long { (result ≡ Err JournalError.TooLong) ↔ (4294967295 < length (P.left snapshot)) }
    ensures later { AreLater D.honest D.history D.faults a.old b.old a.new b.new }
    ensures fault { D.honest a.old → D.honest b.old → result ≡ Err JournalError.DiskFault → HasFailed D.faults a.old b.old a.new b.new }
    ensures nothing_else { IfErr result IsRefusalOverEmpty }
    ensures stays { IfErr result (λ e. e ≢ JournalError.DiskFault → AreUntouched a.old b.old a.new b.new) }
    ensures met_none { OnOk result (SameFaults D.faults a.old b.old a.new b.new) }
{
    let mut snapshot = snapshot;
    let len = snapshot.len();
    if len > LONGEST_SNAPSHOT {
        return Err(JournalError::TooLong);
    }
    let mut buffer = record_room(alloc)?;
    let says = Head {
        layout,
        generation: 1,
        base: 0,
        size: len as u32,
    };
    b.sync()?;
    lay_down(a, &mut buffer, says, &mut snapshot)?;
    Ok((buffer, (HEAD_LEN + len) as u64))
}
