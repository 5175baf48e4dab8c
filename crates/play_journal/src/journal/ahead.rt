// Room that is made before it is needed: in the file in use for records, in the other one for a snapshot.
ghost use Rattle.std.specs.Prelude.{◌≡◌, ◌+◌, ◌≤◌, true, false, length, Ok, Err, IfOk, OnOk, OnErr, MatchBool, Some};
ghost use Rattle.disk_model.specs.Faults.{HasGrown};
ghost use Rattle.disk_model.specs.Images.{window, settled};
ghost use Rattle.disk_model.specs.Later.{AreLater, HasFailed, IsLater};
ghost use Rattle.disk_model.specs.Moments.{AllSince};
ghost use Rattle.play_journal.specs.Calls.{HasOtherRoom, HasRoom, Holds, KeepsItsNumbers, RefusesRoom, SameFaults, StaysInFile, in_use};
ghost use Rattle.play_journal.specs.File.{IsShut, spelling};
ghost use Rattle.play_journal.specs.Laying.{IsSameOrShut};
ghost use Rattle.play_journal.specs.Pair.{AllPairsSince};

use super::Journal;
use crate::JournalError;
use crate::laying::close_gate;
use crate::opening::cut_to;
use crate::reading::HEAD_LEN;
use disk_model::Disk;
use std::io;

/// So many bytes are made beyond those that are asked for, so that it isn't done for each record.
const AHEAD: u64 = 65_536;

impl<D: Disk> Journal<D> {
    /// Makes sure of room for so many bytes of records: the file in use is kept so much longer than its closing commit byte, by zero bytes
    /// that are synced before a record needs them. It answers `false` where the disk has no room for them. What the files say stays.
    ///
    /// It refuses `DiskFault`: the journal is spent, or is now.
    pub fn make_room(&mut self, bytes: u64) -> Result<bool, JournalError>
        // Stopped at any moment, the files give what they gave before.
        ensures any_moment { D.honest self.old.a → D.honest self.old.b → self.old.is_spent ≡ false
            → AllPairsSince (λ f. f ≡ Some self.old.content)
            (D.history self.new.a) (length (D.history self.old.a)) (D.history self.new.b) (length (D.history self.old.b)) }
        ensures kept { D.honest self.old.a → D.honest self.old.b → OnOk result (Holds D.history self.new self.old.content) }
        ensures same { OnOk result (KeepsItsNumbers self.old self.new) }
        ensures room { D.honest self.old.a → D.honest self.old.b
            → IfOk result (λ is_there. is_there ≡ true → HasRoom D.content bytes self.new) }
        ensures there { D.honest self.old.a → D.honest self.old.b → self.old.is_spent ≡ false → HasRoom D.content bytes self.old
            → (result ≡ Ok true) × (self.new ≡ self.old) }

        ensures refuses { RefusesRoom self.old self.new result }
        ensures met_none { OnOk result (SameFaults D.faults self.old.a self.old.b self.new.a self.new.b) }
        ensures fault { D.honest self.old.a → D.honest self.old.b → self.old.is_spent ≡ false → result ≡ Err JournalError.DiskFault
            → HasFailed D.faults self.old.a self.old.b self.new.a self.new.b }
        ensures file { StaysInFile self.old self.new }
        ensures later { AreLater D.honest D.history D.faults self.old.a self.old.b self.new.a self.new.b }
    {
        if self.spent {
            return Err(JournalError::DiskFault);
        }
        let wanted = self.end.saturating_add(1).saturating_add(bytes);
        let len = self.here.len();
        if len >= wanted {
            return Ok(true);
        }
        match self.here.lengthen(wanted.saturating_add(AHEAD)) {
            Ok(is_longer) => Ok(is_longer),
            Err(_) => {
                self.spent = true;
                Err(JournalError::DiskFault)
            }
        }
    }

    /// For which file room was refused last, whether file b, at which call, and what the system said; none where none was refused, or no
    /// system is asked.
    pub fn room_refusal(&self) -> Option<(bool, &'static str, io::Error)> {
        if let Some((call, error)) = self.here.room_refusal() {
            return Some((self.swapped, call, error));
        }
        match self.there.room_refusal() {
            Some((call, error)) => Some((!self.swapped, call, error)),
            None => None,
        }
    }

    /// How many bytes of records there is room for behind the closing commit byte.
    pub fn room_left(&self) -> u64
        ensures { D.honest self.now.a → D.honest self.now.b → self.now.is_spent ≡ false
            → length (spelling self.now.content) + 1 + result ≡ length (D.content (in_use self.now)) }
    {
        self.here.len().saturating_sub(self.end.saturating_add(1))
    }

    /// Gives back the room behind the closing commit byte of the file in use: the file is cut there, and synced. What the files say stays.
    ///
    /// It refuses `DiskFault`: the journal is spent, or is now.
    pub fn give_room(&mut self) -> Result<(), JournalError>
        // Stopped at any moment, the files give what they gave before.
        ensures any_moment { D.honest self.old.a → D.honest self.old.b → self.old.is_spent ≡ false
            → AllPairsSince (λ f. f ≡ Some self.old.content)
            (D.history self.new.a) (length (D.history self.old.a)) (D.history self.new.b) (length (D.history self.old.b)) }
        ensures kept { D.honest self.old.a → D.honest self.old.b → OnOk result (Holds D.history self.new self.old.content) }
        ensures same { OnOk result (KeepsItsNumbers self.old self.new) }
        ensures given { D.honest self.old.a → D.honest self.old.b
            → OnOk result (length (D.content (in_use self.new)) ≡ length (spelling self.old.content) + 1) }

        ensures refuses { RefusesRoom self.old self.new result }
        ensures met_none { OnOk result (SameFaults D.faults self.old.a self.old.b self.new.a self.new.b) }
        ensures fault { D.honest self.old.a → D.honest self.old.b → self.old.is_spent ≡ false → result ≡ Err JournalError.DiskFault
            → HasFailed D.faults self.old.a self.old.b self.new.a self.new.b }
        ensures file { StaysInFile self.old self.new }
        ensures later { AreLater D.honest D.history D.faults self.old.a self.old.b self.new.a self.new.b }
    {
        if self.spent {
            return Err(JournalError::DiskFault);
        }
        let end = self.end.saturating_add(1);
        let size = self.here.len();
        if size <= end {
            return Ok(());
        }
        match cut_to(&mut self.here, end) {
            Ok(()) => Ok(()),
            Err(error) => {
                self.spent = true;
                Err(error)
            }
        }
    }

    /// Makes sure of room for a snapshot of this length in the file that isn't in use: that is shut, as a checkpoint shuts it, and made so
    /// long. It answers `false` where the disk has no room for it. What the files say stays.
    ///
    /// It refuses `DiskFault`: the journal is spent, or is now.
    pub fn make_other_room(&mut self, snapshot_len: usize) -> Result<bool, JournalError>
        // Stopped at any moment, the files give what they gave before.
        ensures any_moment { D.honest self.old.a → D.honest self.old.b → self.old.is_spent ≡ false
            → AllPairsSince (λ f. f ≡ Some self.old.content)
            (D.history self.new.a) (length (D.history self.old.a)) (D.history self.new.b) (length (D.history self.old.b)) }
        ensures kept { D.honest self.old.a → D.honest self.old.b → OnOk result (Holds D.history self.new self.old.content) }
        ensures same { OnOk result (KeepsItsNumbers self.old self.new) }
        ensures room { D.honest self.old.a → D.honest self.old.b
            → IfOk result (λ is_there. is_there ≡ true → HasOtherRoom D.content snapshot_len self.new) }
        ensures there { D.honest self.old.a → D.honest self.old.b → self.old.is_spent ≡ false
            → HasOtherRoom D.content snapshot_len self.old → (result ≡ Ok true) × (self.new ≡ self.old) }

        ensures refuses { RefusesRoom self.old self.new result }
        ensures met_none { OnOk result (SameFaults D.faults self.old.a self.old.b self.new.a self.new.b) }
        ensures fault { D.honest self.old.a → D.honest self.old.b → self.old.is_spent ≡ false → result ≡ Err JournalError.DiskFault
            → HasFailed D.faults self.old.a self.old.b self.new.a self.new.b }

        // The file in use isn't touched.
        ensures file { MatchBool self.old.is_in_b (self.new.b ≡ self.old.b) (self.new.a ≡ self.old.a) }
        ensures later { AreLater D.honest D.history D.faults self.old.a self.old.b self.new.a self.new.b }
    {
        if self.spent {
            return Err(JournalError::DiskFault);
        }
        let wanted = (HEAD_LEN as u64 + 1).saturating_add(snapshot_len as u64);
        let len = self.there.len();
        if len >= wanted {
            return Ok(true);
        }
        match lengthen_shut(&mut self.there, wanted) {
            Ok(is_there) => Ok(is_there),
            Err(error) => {
                self.spent = true;
                Err(error)
            }
        }
    }
}

// Makes sure that a file has a gate that can be closed without room: an empty one gets one byte, unless the disk has no room for it.
fn make_gate<D: Disk>(disk: &mut D) -> Result<bool, JournalError>
    ensures later { IsLater D.honest D.history D.faults disk.old disk.new }
    ensures any_moment { D.honest disk.old → window (D.history disk.old) ≡ settled (D.content disk.old)
        → AllSince (IsSameOrShut (D.content disk.old)) (D.history disk.new) (length (D.history disk.old)) }
    ensures settled { D.honest disk.old → window (D.history disk.old) ≡ settled (D.content disk.old)
        → OnOk result (window (D.history disk.new) ≡ settled (D.content disk.new)) }
    ensures same_or_shut { D.honest disk.old → OnOk result (IsSameOrShut (D.content disk.old) (D.content disk.new)) }
    ensures no_room { D.honest disk.old → IfOk result (λ is_there. is_there ≡ false
        → (window (D.history disk.new) ≡ settled (D.content disk.new)) × IsShut (D.content disk.new)) }
    ensures error { OnErr result (result ≡ Err JournalError.DiskFault) }
    ensures fault { D.honest disk.old → OnErr result (HasGrown (D.faults disk.old) (D.faults disk.new)) }
    ensures met_none { OnOk result (D.faults disk.new ≡ D.faults disk.old) }
{
    if !disk.is_empty() {
        return Ok(true);
    }
    match disk.lengthen(1) {
        Ok(is_there) => Ok(is_there),
        Err(_) => Err(JournalError::DiskFault),
    }
}

// Shuts a file, and makes it so long, unless the disk has no room for that.
fn lengthen_shut<D: Disk>(disk: &mut D, len: u64) -> Result<bool, JournalError>
    ensures later { IsLater D.honest D.history D.faults disk.old disk.new }
    ensures any_moment { D.honest disk.old → window (D.history disk.old) ≡ settled (D.content disk.old)
        → AllSince (IsSameOrShut (D.content disk.old)) (D.history disk.new) (length (D.history disk.old)) }
    ensures settled { D.honest disk.old → OnOk result (window (D.history disk.new) ≡ settled (D.content disk.new)) }
    ensures shut { D.honest disk.old → OnOk result (IsShut (D.content disk.new)) }
    ensures long { D.honest disk.old → IfOk result (λ is_there. is_there ≡ true → len ≤ length (D.content disk.new)) }
    ensures error { OnErr result (result ≡ Err JournalError.DiskFault) }
    ensures fault { D.honest disk.old → OnErr result (HasGrown (D.faults disk.old) (D.faults disk.new)) }
    ensures met_none { OnOk result (D.faults disk.new ≡ D.faults disk.old) }
{
    if !make_gate(disk)? {
        return Ok(false);
    }
    close_gate(disk)?;
    match disk.lengthen(len) {
        Ok(is_there) => Ok(is_there),
        Err(_) => Err(JournalError::DiskFault),
    }
}
