// Room on the disk that is made before a record needs it.
ghost use Rattle.std.specs.Prelude.{◌≡◌, ◌≢◌, ◌⊎◌, ◌↔◌, ◌+◌, ◌≤◌, ◌||◌, nat_lt, true, false, length, Ok, Err, Some, IfErr, IfOk};
ghost use Rattle.std.specs.Prelude.{IsTrue, OnErr, OnOk};
ghost use Rattle.disk_model.specs.Later.{AreLater};
ghost use Rattle.live_stage.specs.Found.{AllFindNow, AllFindSince};
ghost use Rattle.live_stage.specs.Numbers.{is_due, most_work, put_off};
ghost use Rattle.live_stage.specs.Turns.{CallsDisksAlone, HasBehind, HasRoom, KeepsFileInUse, LooksForRoom, MakesOrNot, StaysInFile};
ghost use Rattle.live_stage.specs.Turns.{HasNoneBehind, RefusesToGive, RefusesToLook, TellsFaults, gives_room, room_enough, room_kept};
ghost use Rattle.live_stage.specs.Turns.{taken_up};
ghost use Rattle.machine_core.specs.State.{lacks_room};
ghost use Rattle.profile.specs.declared.profile.Profile.TheVariants.{Named, Wide};

use super::Live;
use crate::LiveError;
use crate::checkpointing::Snapshotted;
use crate::due::{MOST_WORK, is_due_at, is_much};
use disk_model::Disk;
use machine_core::ClockTime;
use play_journal::Pieces;
use profile::Profile;
use std::io;

/// Room is made for so many bytes of records: those of two groups, each of two of the longest records at most.
const ROOM: u64 = 8_388_628;

/// With so many left a record may be added, and a group behind it: three of the longest records.
const ENOUGH: u64 = 6_291_471;

impl<D: Disk> Live<D> {
    /// Whether what is saved can't change, since the disk has no room: under the first profile that is never so. It takes no memory and
    /// refuses nothing.
    pub fn lacks_room(&self) -> bool
        ensures { result ≡ lacks_room self.now.state.machine }
    {
        self.core.lacks_room()
    }

    /// What a clock told last.
    pub fn clock(&self) -> ClockTime
        ensures { result ≡ self.now.state.machine.clock }
    {
        self.core.clock()
    }

    /// For which file room was refused last, whether file b, at which call, and what the system said, if any was. It takes no memory.
    pub fn room_refusal(&self) -> Option<(bool, &'static str, io::Error)> {
        self.journal.room_refusal()
    }

    /// Whether there is room left for a record and a group behind it; under the first profile, which makes no room, none is needed.
    pub fn has_enough_room(&self) -> bool
        ensures named { self.now.state.machine.saved.profile ≡ Named → result ≡ true }
        ensures room { D.honest self.now.a → D.honest self.now.b → self.now.is_broken ≡ false → self.now.state.machine.saved.profile ≡ Wide
            → (IsTrue result ↔ HasBehind D.content room_enough self.now) }
    {
        match self.profile() {
            Profile::Named => true,
            Profile::Wide => self.journal.room_left() >= ENOUGH,
        }
    }

    /// A checkpoint that is due isn't made by the next turn, but once there is room for it, by `make_room`. Under the first profile nothing is
    /// done.
    pub fn put_off_due(&mut self)
        ensures named { self.old.state.machine.saved.profile ≡ Named → self.new ≡ self.old }
        ensures wide { self.old.state.machine.saved.profile ≡ Wide → self.new ≡ record self.old { file = put_off self.old.file } }
    {
        if let Profile::Named = self.profile() {
            return;
        }
        if self.is_checkpoint_due() {
            self.put_off = true;
        }
    }

    /// The events of the records that were found count as more work than they may: so the next call that makes room makes a checkpoint.
    pub fn count_as_much(&mut self)
        ensures { self.new ≡ record self.old { work = most_work + 1 } }
    {
        self.work = MOST_WORK + 1;
    }

    /// Makes sure that the disk has room for the records of two groups, before any of them is begun. A checkpoint that is due is made
    /// first, once there is room for that; without it, it is put off, and the journal goes on in the file that is in use. So is one behind
    /// records whose events looked at more than 200,000,000 units in all, which a restart would take long to apply. What a restart finds
    /// stays.
    ///
    /// It answers `false` where the disk has no room; that is no fault. It refuses in the order `Broken` (from before), `NumbersSpent` (a
    /// checkpoint is due, and the last generation is 2^64 - 1), `Broken` (by a disk fault now). It takes no memory.
    pub fn make_room(&mut self) -> Result<bool, LiveError>
        ensures same_state { D.honest self.old.a → D.honest self.old.b → self.old.is_broken ≡ false
            → AllFindSince (λ f. f ≡ Some self.old.state.machine.saved)
            (D.history self.new.a) (length (D.history self.old.a)) (D.history self.new.b) (length (D.history self.old.b)) }
        ensures kept { D.honest self.old.a → D.honest self.old.b → self.new.is_broken ≡ false
            → AllFindNow (λ f. f ≡ Some self.new.state.machine.saved) (D.history self.new.a) (D.history self.new.b) }
        ensures looks { OnOk result (LooksForRoom self.old self.new) }
        ensures room { D.honest self.old.a → D.honest self.old.b
            → IfOk result (λ is_there. is_there ≡ true → HasRoom D.content self.new) }
        ensures there { D.honest self.old.a → D.honest self.old.b → self.old.is_broken ≡ false → is_due (taken_up self.old.file) ≡ false
            → self.old.work ≤ most_work → HasBehind D.content room_kept self.old → result ≡ Ok true }

        ensures refuses { RefusesToLook self.old self.new result }
        ensures fault { TellsFaults D.honest D.faults self.old self.new result }
        ensures later { AreLater D.honest D.history D.faults self.old.a self.old.b self.new.a self.new.b }
    {
        if self.is_broken() {
            return Err(LiveError::Broken);
        }
        let is_there = self.look_for_room();
        // As long as it isn't broken, the files give its state.
        let _broken = self.is_broken();
        is_there
    }

    /// Gives back the room in the file that is in use, where a checkpoint is due or put off: so its disk may have room for that. What a
    /// restart finds stays. Under the first profile, or where none is, nothing is done.
    ///
    /// It refuses `Broken`: from before, or by a disk fault now. It takes no memory.
    pub fn give_room(&mut self) -> Result<(), LiveError>
        ensures same_state { D.honest self.old.a → D.honest self.old.b → self.old.is_broken ≡ false
            → AllFindSince (λ f. f ≡ Some self.old.state.machine.saved)
            (D.history self.new.a) (length (D.history self.old.a)) (D.history self.new.b) (length (D.history self.old.b)) }
        ensures kept { D.honest self.old.a → D.honest self.old.b → self.new.is_broken ≡ false
            → AllFindNow (λ f. f ≡ Some self.new.state.machine.saved) (D.history self.new.a) (D.history self.new.b) }
        ensures same { OnOk result (CallsDisksAlone self.old self.new) }
        ensures none { self.old.is_broken ≡ false → gives_room self.old.state.machine.saved.profile self.old.file self.old.work ≡ false
            → (result ≡ Ok tt) × (self.new ≡ self.old) }
        ensures given { D.honest self.old.a → D.honest self.old.b
            → gives_room self.old.state.machine.saved.profile self.old.file self.old.work ≡ true
            → OnOk result (HasNoneBehind D.content self.old self.new) }

        ensures file { StaysInFile self.old self.new }
        ensures refuses { RefusesToGive self.old self.new result }
        ensures fault { TellsFaults D.honest D.faults self.old self.new result }
        ensures later { AreLater D.honest D.history D.faults self.old.a self.old.b self.new.a self.new.b }
    {
        if self.is_broken() {
            return Err(LiveError::Broken);
        }
        if !self.gives_room() {
            return Ok(());
        }
        let given = self.give_record_room();
        // As long as it isn't broken, the files give its state.
        let _broken = self.is_broken();
        given
    }

    // Whether room is given back before a checkpoint is made.
    fn gives_room(&self) -> bool
        ensures { result ≡ gives_room self.now.state.machine.saved.profile self.now.file self.now.work }
    {
        match self.profile() {
            Profile::Named => false,
            Profile::Wide => self.is_due_at_all() || is_much(self.work),
        }
    }

    // Whether a checkpoint is due or put off.
    fn is_due_at_all(&self) -> bool
        ensures { result ≡ is_due (taken_up self.now.file) }
    {
        is_due_at(
            self.journal.layout(),
            self.journal.records_since_checkpoint(),
            self.journal.bytes_since_checkpoint(),
            self.journal.snapshot_len(),
            false,
        )
    }

    // Gives back the room in the file that is in use.
    fn give_record_room(&mut self) -> Result<(), LiveError>
        requires usable { self.old.is_broken ≡ false }
        ensures same_state { D.honest self.old.a → D.honest self.old.b
            → AllFindSince (λ f. f ≡ Some self.old.state.machine.saved)
            (D.history self.new.a) (length (D.history self.old.a)) (D.history self.new.b) (length (D.history self.old.b)) }
        ensures same { OnOk result (CallsDisksAlone self.old self.new) }
        ensures given { D.honest self.old.a → D.honest self.old.b → OnOk result (HasNoneBehind D.content self.old self.new) }
        ensures file { StaysInFile self.old self.new }
        ensures refuses { OnErr result ((result ≡ Err LiveError.Broken) × (self.new.is_broken ≡ true)) }
        ensures not_counted { self.new.numbers.event ≡ self.old.numbers.event }
        ensures fault { TellsFaults D.honest D.faults self.old self.new result }
        ensures later { AreLater D.honest D.history D.faults self.old.a self.old.b self.new.a self.new.b }
    {
        match self.journal.give_room() {
            Ok(()) => {}
            Err(_) => return Err(LiveError::Broken),
        }
        Ok(())
    }

    // Makes the checkpoint that is due, if one is, or puts it off, and then room for records.
    fn look_for_room(&mut self) -> Result<bool, LiveError>
        requires usable { self.old.is_broken ≡ false }
        ensures same_state { D.honest self.old.a → D.honest self.old.b
            → AllFindSince (λ f. f ≡ Some self.old.state.machine.saved)
            (D.history self.new.a) (length (D.history self.old.a)) (D.history self.new.b) (length (D.history self.old.b)) }
        ensures looks { OnOk result (LooksForRoom self.old self.new) }
        ensures room { D.honest self.old.a → D.honest self.old.b
            → IfOk result (λ is_there. is_there ≡ true → HasRoom D.content self.new) }
        ensures there { D.honest self.old.a → D.honest self.old.b → is_due (taken_up self.old.file) ≡ false
            → self.old.work ≤ most_work → HasBehind D.content room_kept self.old → result ≡ Ok true }
        ensures refuses { result ≡ Err LiveError.Broken → self.new.is_broken ≡ true }
        ensures stays { OnErr result (result ≢ Err LiveError.Broken → (self.new.state ≡ self.old.state) × (self.new.is_broken ≡ false)) }
        ensures no_memory { result ≢ Err LiveError.NoMemory }
        ensures not_counted { self.new.numbers.event ≡ self.old.numbers.event }
        ensures fault { TellsFaults D.honest D.faults self.old self.new result }
        ensures later { AreLater D.honest D.history D.faults self.old.a self.old.b self.new.a self.new.b }
    {
        self.set_put_off(false);
        if !self.is_snapshot_due() {
            return self.make_record_room();
        }
        let is_made = self.make_due()?;
        if !is_made {
            self.set_put_off(true);
            return Ok(false);
        }
        self.make_record_room()
    }

    // Whether a checkpoint is to be made before records are: it is due, or those behind the snapshot are much work for a restart.
    fn is_snapshot_due(&self) -> bool
        ensures { result ≡ (is_due self.now.file || nat_lt most_work self.now.work) }
    {
        self.is_checkpoint_due() || is_much(self.work)
    }

    // Whether a checkpoint is put off from now on.
    fn set_put_off(&mut self, is_put_off: bool)
        ensures { self.new ≡ record self.old { file = record self.old.file { is_put_off = is_put_off } } }
    {
        self.put_off = is_put_off;
    }

    // Makes room for records in the file that is in use.
    fn make_record_room(&mut self) -> Result<bool, LiveError>
        requires usable { self.old.is_broken ≡ false }
        ensures same_state { D.honest self.old.a → D.honest self.old.b
            → AllFindSince (λ f. f ≡ Some self.old.state.machine.saved)
            (D.history self.new.a) (length (D.history self.old.a)) (D.history self.new.b) (length (D.history self.old.b)) }
        ensures same { OnOk result (CallsDisksAlone self.old self.new) }
        ensures room { D.honest self.old.a → D.honest self.old.b
            → IfOk result (λ is_there. is_there ≡ true → HasBehind D.content room_kept self.new) }
        ensures there { D.honest self.old.a → D.honest self.old.b → HasBehind D.content room_kept self.old → result ≡ Ok true }
        ensures file { StaysInFile self.old self.new }
        ensures refuses { OnErr result ((result ≡ Err LiveError.Broken) × (self.new.is_broken ≡ true)) }
        ensures not_counted { self.new.numbers.event ≡ self.old.numbers.event }
        ensures fault { TellsFaults D.honest D.faults self.old self.new result }
        ensures later { AreLater D.honest D.history D.faults self.old.a self.old.b self.new.a self.new.b }
    {
        let is_there = match self.journal.make_room(ROOM) {
            Ok(is_there) => is_there,
            Err(_) => return Err(LiveError::Broken),
        };
        Ok(is_there)
    }

    // Makes the checkpoint that is due, where the other file has room for it.
    fn make_due(&mut self) -> Result<bool, LiveError>
        requires usable { self.old.is_broken ≡ false }
        ensures same_state { D.honest self.old.a → D.honest self.old.b
            → AllFindSince (λ f. f ≡ Some self.old.state.machine.saved)
            (D.history self.new.a) (length (D.history self.old.a)) (D.history self.new.b) (length (D.history self.old.b)) }
        ensures made { IfOk result (λ is_made. MakesOrNot is_made self.old self.new) }
        ensures file { KeepsFileInUse self.old self.new }
        ensures refuses { result ≡ Err LiveError.Broken → self.new.is_broken ≡ true }
        ensures stays { OnErr result (result ≢ Err LiveError.Broken → (self.new.state ≡ self.old.state) × (self.new.is_broken ≡ false)) }
        ensures no_memory { result ≢ Err LiveError.NoMemory }
        ensures not_counted { self.new.numbers.event ≡ self.old.numbers.event }
        ensures fault { TellsFaults D.honest D.faults self.old self.new result }
        ensures later { AreLater D.honest D.history D.faults self.old.a self.old.b self.new.a self.new.b }
    {
        // As long as it isn't broken, the files give its state.
        let _broken = self.is_broken();
        if self.journal.generation() == u64::MAX {
            return Err(LiveError::NumbersSpent);
        }
        let is_there = self.make_other_room()?;
        if !is_there {
            return Ok(false);
        }
        self.checkpoint()?;
        Ok(true)
    }

    // Makes room for a snapshot in the file that isn't in use.
    fn make_other_room(&mut self) -> Result<bool, LiveError>
        requires usable { self.old.is_broken ≡ false }
        ensures same_state { D.honest self.old.a → D.honest self.old.b
            → AllFindSince (λ f. f ≡ Some self.old.state.machine.saved)
            (D.history self.new.a) (length (D.history self.old.a)) (D.history self.new.b) (length (D.history self.old.b)) }
        ensures same { OnOk result (CallsDisksAlone self.old self.new) }
        ensures file { KeepsFileInUse self.old self.new }
        ensures refuses { OnErr result ((result ≡ Err LiveError.Broken) × (self.new.is_broken ≡ true)) }
        ensures not_counted { self.new.numbers.event ≡ self.old.numbers.event }
        ensures fault { TellsFaults D.honest D.faults self.old self.new result }
        ensures later { AreLater D.honest D.history D.faults self.old.a self.old.b self.new.a self.new.b }
    {
        let snapshot_len = Snapshotted::of(self.core.as_saved()).len();
        let is_there = match self.journal.make_other_room(snapshot_len) {
            Ok(is_there) => is_there,
            Err(_) => return Err(LiveError::Broken),
        };
        Ok(is_there)
    }
}
