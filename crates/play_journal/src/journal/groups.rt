// Adding the records of a group to a journal.
ghost use Rattle.std.specs.Prelude.{◌≡◌, ◌+◌, false, length, Err, IfOk, IfErr, OnOk};
ghost use Rattle.disk_model.specs.Later.{AreLater, HasFailed};
ghost use Rattle.play_journal.specs.Calls.{Holds, StaysInFile, SameFaults, AreNextRecords, RefusesRecords};
ghost use Rattle.play_journal.specs.Content.{with_records, IsEither};
ghost use Rattle.play_journal.specs.Errors.{IsRefusalOfAppendAll};
ghost use Rattle.play_journal.specs.Group.{calls_of};
ghost use Rattle.play_journal.specs.Pair.{AllPairsSince};

use super::Journal;
use crate::appending::append_at;
use crate::reading::is_written;
use crate::{Group, JournalError};
use disk_model::Disk;

impl<D: Disk> Journal<D> {
    /// Adds the records of a group, all of them or none, and answers the number of the last one; of a group without records that of the
    /// last record there is, without a call of a disk.
    ///
    /// It refuses in the order `DiskFault` (spent), `OldLayout`, `NumbersSpent` (the last of them would have a number past 2^64 - 1),
    /// `DiskFault` (now).
    ///
    /// After `DiskFault` the journal is spent, and the records may be there, all of them, or not: open the files again.
    pub fn append_all(&mut self, group: &Group) -> Result<u64, JournalError>
        // Stopped at any moment, the files give what they gave before, or this with all of the records, which they give from `Ok` on.
        ensures any_moment { D.honest self.old.a → D.honest self.old.b → self.old.is_spent ≡ false
            → AllPairsSince (IsEither self.old.content (with_records self.old.content group.now))
            (D.history self.new.a) (length (D.history self.old.a)) (D.history self.new.b) (length (D.history self.old.b)) }
        ensures kept { D.honest self.old.a → D.honest self.old.b
            → OnOk result (Holds D.history self.new (with_records self.old.content group.now)) }
        ensures numbers { IfOk result (λ number. AreNextRecords self.old self.new group.now number) }

        ensures refuses { RefusesRecords self.old self.new (length group.now) result }
        ensures nothing_else { IfErr result IsRefusalOfAppendAll }
        ensures met_none { OnOk result (SameFaults D.faults self.old.a self.old.b self.new.a self.new.b) }
        ensures fault { D.honest self.old.a → D.honest self.old.b → self.old.is_spent ≡ false → result ≡ Err JournalError.DiskFault
            → HasFailed D.faults self.old.a self.old.b self.new.a self.new.b }

        // The other file isn't touched, and the one in use by four calls of its disk, or by none where there is no record.
        ensures file { StaysInFile self.old self.new }
        ensures calls { D.honest self.old.a → D.honest self.old.b → OnOk result (length (D.history self.new.a) + length
            (D.history self.new.b)
            ≡ length (D.history self.old.a) + length (D.history self.old.b) + calls_of group.now) }
        ensures later { AreLater D.honest D.history D.faults self.old.a self.old.b self.new.a self.new.b }
    {
        if self.spent {
            return Err(JournalError::DiskFault);
        }
        if !is_written(self.layout) {
            return Err(JournalError::OldLayout);
        }
        let Some(last) = (self.base + self.count).checked_add(group.records()) else {
            return Err(JournalError::NumbersSpent);
        };
        if group.is_empty() {
            return Ok(last);
        }
        match append_at(&mut self.here, self.end, group.behind_gate()) {
            Ok(()) => {
                let taken = group.bytes();
                self.end = self.end.saturating_add(taken);
                self.count += group.records();
                self.bytes = self.bytes.saturating_add(taken);
                Ok(last)
            }
            Err(error) => {
                self.spent = true;
                Err(error)
            }
        }
    }
}
