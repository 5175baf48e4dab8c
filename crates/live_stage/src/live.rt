// The stage: made or opened over two disks, it handles events one at a time, and makes the checkpoints that are due.
ghost use Rattle.std.specs.Prelude.{◌≡◌, ◌≢◌, ◌⊎◌, ◌↔◌, ◌+◌, ◌-◌, ◌^◌, ◌<◌, ◌≤◌, ℕ, true, false, [], length, Ok, Err, Some, None, Option};
ghost use Rattle.std.specs.Prelude.{IsSome, IsTrue, IsOk, IfOk, IfErr, OnOk, OnErr, IsErrAnd, MatchResult, MatchBool, vec_capacity};
ghost use Rattle.disk_model.specs.Later.{AreLater, HasFailed};
ghost use Rattle.state_codec.specs.SavedState.{IsSavedState, fresh};
ghost use Rattle.state_codec.specs.Spelling.{saved_bytes};
ghost use Rattle.play_journal.specs.Calls.{SameFaults};
ghost use Rattle.play_journal.specs.Content.{Content};
ghost use Rattle.play_journal.specs.Pair.{found};
ghost use Rattle.daemon_core.specs.State.{start};
ghost use Rattle.daemon_core.specs.Step.{step};
ghost use Rattle.live_stage.specs.Answer.{IsTurn, IsHandled, IsBeforeOrAfter, HasNoOps};
ghost use Rattle.live_stage.specs.Errors.{IsRefusalOfCreate, IsRefusalOfOpen, IsCause, start_error};
ghost use Rattle.live_stage.specs.Numbers.{first_numbers, first_file, greatest, is_due, checkpoint_calls, AreCountsSpent, AreSpent};
ghost use Rattle.live_stage.specs.Turns.{IsBegun, IsOver, IsStored, IsCheckpointed, IsCheckpointing, HoldsSnapshot, RefusesCheckpoint};
ghost use Rattle.live_stage.specs.Turns.{CallsAtMost, IsReady, IsWritten, StaysInFile, WritesOneFile, MakesNoCall, LeavesAsIs};
ghost use Rattle.live_stage.specs.Turns.{TellsFaults, RefusesInOrder, WritesAlone, ready_content};
ghost use Rattle.live_stage.specs.Writing.{KeepsEvent};
ghost use Rattle.live_stage.specs.Found.{found_state, AllFindNow, AllFindSince, AllOpenNow, KeepsFoundState};

use crate::checkpointing::{Snapshotted, write_snapshot};
use crate::due::is_due_at;
use crate::recording::{LONGEST_BODY, record_ops};
use crate::turn::Turn;
use crate::{LiveError, Refused, StartError};
use daemon_core::{Core, Event};
use disk_model::Disk;
use opening::{refused_over, state_in};
use play_journal::{Group, Journal, JournalError};
use profile::Profile;
use state_codec::{Saved, layout_number};
use std::alloc::Global;
use std::marker::Model;
use std::snapshot::Snapshot;

mod ahead;
mod grouping;
mod looks;
mod opening;

/// The offset of the layout in a file, in bytes.
const LAYOUT_AT: u64 = 8;

/// The daemon's state, and the journal that keeps it: what an event changes is on the disk when its answer is given out.
///
/// All that is said of bytes is said of two honest disks.
#[derive(Drop)]
pub struct Live<D: Disk> {
    core: Core,
    journal: Journal<D>,
    room: Vec<u8>,
    group: Group,
    event: u64,
    migrated: bool,
    // How much the events of the records behind the snapshot looked at.
    work: u64,
    // A checkpoint is due for which the disk has no room.
    put_off: bool,
}

impl<D: Disk> Model for Live<D> {
    ghost use Rattle.std.specs.Prelude.{◌≡◌, ◌≤◌, ◌+◌, ◌-◌, ◌^◌, min, false, Some, vec_capacity};
    ghost use Rattle.state_codec.specs.Layout.{written_layout};
    ghost use Rattle.live_stage.specs.LiveState.{LiveState};
    ghost use Rattle.live_stage.specs.Found.{state_of};
    ghost use Rattle.live_stage.specs.Writing.{file_of};

    ghost Value = { LiveState D };

    ghost view = { λ v. record {
      a = v.journal.a;
      b = v.journal.b;
      state = v.core;
      numbers = record {
        event = v.event;
        last_record = min (v.journal.base + v.journal.count) (2 ^ 64 - 1);
      };
      file = record (file_of v.journal) { is_put_off = v.put_off };
      work = v.work;
      content = v.journal.content;
      is_in_b = v.journal.is_in_b;
      is_broken = v.journal.is_spent;
      was_migrated = v.migrated;
    } };

    ghost invariant = { λ v. (2097152 ≤ vec_capacity v.room)
        × (v.journal.is_spent ≡ false → v.journal.layout ≡ written_layout v.core.machine.saved.profile)
        × (v.journal.is_spent ≡ false → D.honest v.journal.a → D.honest v.journal.b
        → state_of (Some v.journal.content) ≡ Some v.core.machine.saved) };
}

impl<D: Disk> Live<D> {
    /// Makes a stage over two empty files: a fresh state of this profile, whose random order is drawn from the key.
    ///
    /// It refuses in the order `NotEmpty`, `NoMemory`, `Broken`. A crash inside the call may leave files that are neither
    /// empty nor a journal.
    pub fn create(
        alloc: Global,
        profile: Profile,
        a: D,
        b: D,
        key: [u8; 32],
    ) -> Result<Live<D>, Refused<D>>
        // From `Ok` on a restart finds the fresh state.
        ensures kept { D.honest a → D.honest b
            → IfOk result (λ live. AllFindNow (λ f. f ≡ Some (fresh profile key)) (D.history live.a) (D.history live.b)) }
        ensures begun { IfOk result (λ live. IsBegun (fresh profile key) live) }
        ensures numbers { IfOk result (λ live.
            (live.numbers ≡ first_numbers) × (live.file ≡ first_file (fresh profile key)) × (live.was_migrated ≡ false)) }

        ensures not_empty { D.honest a → D.honest b
            → (IsErrAnd result (λ e. e.error ≡ StartError.NotEmpty) ↔ ((D.content a ≢ []) ⊎ (D.content b ≢ []))) }
        ensures fault { MatchResult result (λ live. SameFaults D.faults a b live.a live.b)
            (λ e. D.honest a → D.honest b → e.error ≡ StartError.Broken → HasFailed D.faults a b e.a e.b) }
        ensures nothing_else { IfErr result (λ e. IsRefusalOfCreate e.error) }

        // Another refusal than a disk fault hands the disks back as they were.
        ensures stays { IfErr result (λ e. e.error ≢ StartError.Broken → (e.a ≡ a) × (e.b ≡ b)) }
        ensures later { MatchResult result (λ live. AreLater D.honest D.history D.faults a b live.a live.b)
            (λ e. AreLater D.honest D.history D.faults a b e.a e.b) }
    {
        if !a.is_empty() || !b.is_empty() {
            return Err(Refused {
                error: StartError::NotEmpty,
                a,
                b,
            });
        }
        let saved = match Saved::fresh(alloc, profile, key) {
            Ok(saved) => saved,
            Err(_) => {
                return Err(Refused {
                    error: StartError::NoMemory,
                    a,
                    b,
                });
            }
        };
        let (room, group) = match room_for(alloc) {
            Ok(rooms) => rooms,
            Err(error) => return Err(Refused { error, a, b }),
        };
        match Journal::create(alloc, a, b, layout_number(profile), Snapshotted::of(&saved)) {
            Ok(journal) => Ok(Live {
                core: Core::new(alloc, saved),
                journal,
                room,
                group,
                event: 0,
                migrated: false,
                work: 0,
                put_off: false,
            }),
            Err(refused) => Err(refused_start(refused)),
        }
    }

    /// Opens the files of a stage, also such as a crash may have left: it goes on from the state that they give, with this profile. Files
    /// of a layout before that which the profile writes are brought to it by a checkpoint, before anything is answered; a program of
    /// before can't read them then. A layout behind it is refused: `Damaged(8)`.
    ///
    /// A refusal hands both disks back: another opening finds what this one might have found.
    pub fn open(alloc: Global, profile: Profile, a: D, b: D) -> Result<Live<D>, Refused<D>>
        // It answers the state that the files give, and names what is wrong with them.
        ensures found { D.honest a → D.honest b
            → IfOk result (λ live. found_state profile (D.content a) (D.content b) ≡ Some live.state.machine.saved) }
        ensures begun { IfOk result (λ live. IsBegun live.state.machine.saved live × (live.state.machine.saved.profile ≡ profile)) }
        ensures cause { D.honest a → D.honest b → IfErr result (λ e. IsCause profile (D.content a) (D.content b) e.error) }

        // Stopped at any moment, a restart with this profile finds what it might have found before, and from `Ok` on the files give what
        // is answered. While they are brought to the layout that is written it finds one state.
        ensures any_moment { D.honest a → D.honest b → MatchResult result
            (λ live. KeepsFoundState profile (D.history a) (D.history b) (D.history live.a) (D.history live.b))
            (λ e. KeepsFoundState profile (D.history a) (D.history b) (D.history e.a) (D.history e.b)) }
        ensures kept { D.honest a → D.honest b
            → IfOk result (λ live. AllFindNow (λ f. f ≡ Some live.state.machine.saved) (D.history live.a) (D.history live.b)) }

        // Where a restart finds a state in each pair that a crash may have left, it opens, unless memory is wanting or a disk fails.
        ensures opens { D.honest a → D.honest b → AllOpenNow profile (λ f. IsSome f) (D.history a) (D.history b)
            → IfErr result (λ e. (e.error ≡ StartError.NoMemory) ⊎ (e.error ≡ StartError.NumbersSpent) ⊎ (e.error ≡ StartError.Broken)) }
        ensures fault { MatchResult result (λ live. SameFaults D.faults a b live.a live.b)
            (λ e. D.honest a → D.honest b → e.error ≡ StartError.Broken → HasFailed D.faults a b e.a e.b) }
        ensures nothing_else { IfErr result (λ e. IsRefusalOfOpen e.error) }

        // It goes on from the numbers of the file that was found; the files then say the state in the layout that is written.
        ensures numbers { D.honest a → D.honest b → IfOk result (λ live. (content : Content)
            → found (D.content a) (D.content b) ≡ Some content → IsOver D.history content live) }
        ensures later { MatchResult result (λ live. AreLater D.honest D.history D.faults a b live.a live.b)
            (λ e. AreLater D.honest D.history D.faults a b e.a e.b) }
    {
        let (room, group) = match room_for(alloc) {
            Ok(rooms) => rooms,
            Err(error) => {
                return Err(Refused { error, a, b });
            }
        };
        let (journal, stored) = match Journal::open(alloc, a, b) {
            Ok(opened) => opened,
            Err(refused) => return Err(refused_start(refused)),
        };
        if journal.layout() > layout_number(profile) {
            return Err(refused_over(StartError::Damaged(LAYOUT_AT), journal));
        }
        match state_in(alloc, profile, &journal, stored) {
            Ok(saved) => Live::over(alloc, journal, saved, room, group),
            Err(error) => Err(refused_over(error, journal)),
        }
    }

    /// Handles one event. If it changes what is saved, that is one record, and it is on the disk when the answer is given
    /// out; any other event makes no call of a disk. Where 4,096 or more records stand behind the snapshot, in layout 3 at least as many as
    /// it has KiB, or more bytes of them than 4 MiB and than the snapshot has, a checkpoint is made first, whatever the event; it takes no
    /// memory.
    ///
    /// It refuses in the order `Broken` (from before), `NumbersSpent`, `NoMemory`, `Broken` (by a disk fault now). After the
    /// last the event may be kept or not: open the files again. A checkpoint that was made stands after `NoMemory`.
    #[tactic(auto, using(crate::proofs::TurnLaws::one_file_still, crate::proofs::TurnLaws::one_file_failed, crate::proofs::TurnLaws::one_file_refused, crate::proofs::TurnLaws::still_on))]
    pub fn turn(&mut self, alloc: Global, event: Event) -> Result<Turn<D>, LiveError>
        // The answer and the state are those of the step.
        ensures step { IfOk result (λ t. IsTurn self.old event t self.new) }
        ensures carries { IfOk result (λ t. (t.asked ≡ event) × (t.before ≡ self.old.state)) }

        // Stopped at any moment, a restart finds the state from before or the state after, with one refused place throughout,
        // which is that of the answer.
        ensures any_moment { D.honest self.old.a → D.honest self.old.b → self.old.is_broken ≡ false
            → (k : Option ℕ) × IfOk result (λ t. t.refused_at ≡ k) × AllFindSince (IsBeforeOrAfter self.old.state event k)
            (D.history self.new.a) (length (D.history self.old.a)) (D.history self.new.b) (length (D.history self.old.b)) }

        // From then on it finds the state after, and after a refusal without a fault the state from before, which stays.
        ensures kept { D.honest self.old.a → D.honest self.old.b → self.new.is_broken ≡ false
            → AllFindNow (λ f. f ≡ Some self.new.state.machine.saved) (D.history self.new.a) (D.history self.new.b) }

        // The files then say the record of the event's ops, and no more records than the bounds allow.
        ensures stored { D.honest self.old.a → D.honest self.old.b → IfOk result (λ t.
            let now = step self.old.state event t.refused_at in IsWritten D.history self.old self.new now.ops) }
        ensures no_call { IfOk result (λ t. is_due self.old.file ≡ false
            → HasNoOps self.old event t → MakesNoCall self.old self.new) }
        ensures file { WritesOneFile self.old self.new result }

        ensures refuses { RefusesInOrder self.old self.new result }
        ensures fault { TellsFaults D.honest D.faults self.old self.new result }
        ensures later { AreLater D.honest D.history D.faults self.old.a self.old.b self.new.a self.new.b }
    {
        if self.is_broken() {
            return Err(LiveError::Broken);
        }
        if self.are_numbers_spent() {
            return Err(LiveError::NumbersSpent);
        }
        self.make_ready()?;
        let turn = self.handle(alloc, event)?;
        // As long as it isn't broken, the files say what is stored, and the stage's numbers are theirs.
        let _broken = self.is_broken();
        Ok(turn)
    }

    /// Makes a new snapshot: the state, in the file that isn't in use, to which records go from then on. The file from before
    /// isn't touched.
    ///
    /// It takes no memory, and refuses in the order `Broken` (from before), `NumbersSpent` (the last generation is 2^64 - 1), `Broken` (by
    /// a disk fault now). After the last the snapshot may be there or not: open the files again.
    pub fn checkpoint(&mut self) -> Result<(), LiveError>
        // Stopped at any moment, the files give what they gave before, or the new snapshot without records, which they give from
        // `Ok` on. A restart finds the same state throughout.
        ensures any_moment { D.honest self.old.a → D.honest self.old.b → self.old.is_broken ≡ false
            → IsCheckpointing D.history self.old self.new }
        ensures same_state { D.honest self.old.a → D.honest self.old.b → self.old.is_broken ≡ false
            → AllFindSince (λ f. f ≡ Some self.old.state.machine.saved)
            (D.history self.new.a) (length (D.history self.old.a)) (D.history self.new.b) (length (D.history self.old.b)) }
        ensures kept { D.honest self.old.a → D.honest self.old.b → OnOk result (HoldsSnapshot D.history self.old self.new) }
        ensures next { OnOk result (IsCheckpointed self.old self.new) }

        ensures refuses { RefusesCheckpoint self.old self.new result }
        ensures fault { TellsFaults D.honest D.faults self.old self.new result }

        // The file that was in use isn't touched, and the other by eight calls of its disk and one for each piece at most.
        ensures old_file { MatchBool self.old.is_in_b (self.new.b ≡ self.old.b) (self.new.a ≡ self.old.a) }
        ensures calls { D.honest self.old.a → D.honest self.old.b → OnOk result
            (CallsAtMost (checkpoint_calls self.old.state.machine.saved)
            (D.history self.old.a) (D.history self.old.b) (D.history self.new.a) (D.history self.new.b)) }
        ensures later { AreLater D.honest D.history D.faults self.old.a self.old.b self.new.a self.new.b }
    {
        if self.journal.is_spent() {
            return Err(LiveError::Broken);
        }
        if self.journal.generation() == u64::MAX {
            return Err(LiveError::NumbersSpent);
        }
        write_snapshot(&mut self.journal, self.core.as_saved())?;
        self.work = 0;
        self.put_off = false;
        Ok(())
    }

    /// Whether the next turn makes a checkpoint first. It takes no memory and refuses nothing.
    pub fn is_checkpoint_due(&self) -> bool
        ensures { result ≡ is_due self.now.file }
    {
        is_due_at(
            self.journal.layout(),
            self.journal.records_since_checkpoint(),
            self.journal.bytes_since_checkpoint(),
            self.journal.snapshot_len(),
            self.put_off,
        )
    }

    // Makes the checkpoint that is due, if one is.
    fn make_ready(&mut self) -> Result<(), LiveError>
        requires usable { self.old.is_broken ≡ false }
        requires generation { is_due self.old.file ≡ true → self.old.file.generation ≢ greatest }
        ensures ready { OnOk result (IsReady self.old self.new) }
        ensures content { D.honest self.old.a → D.honest self.old.b
            → OnOk result (self.new.content ≡ ready_content self.old) }
        ensures same_state { D.honest self.old.a → D.honest self.old.b
            → AllFindSince (λ f. f ≡ Some self.old.state.machine.saved)
            (D.history self.new.a) (length (D.history self.old.a)) (D.history self.new.b) (length (D.history self.old.b)) }
        ensures undue { is_due self.old.file ≡ false → IsOk result }
        ensures other_file { WritesAlone self.old self.new }
        ensures refuses { IfErr result (λ e. (e ≡ LiveError.Broken) × (self.new.is_broken ≡ true)) }
        ensures not_counted { self.new.numbers.event ≡ self.old.numbers.event }
        ensures fault { TellsFaults D.honest D.faults self.old self.new result }
        ensures later { AreLater D.honest D.history D.faults self.old.a self.old.b self.new.a self.new.b }
    {
        // As long as it isn't broken, the files give its state.
        let _broken = self.is_broken();
        if !self.is_checkpoint_due() {
            return Ok(());
        }
        self.checkpoint()
    }

    // Handles one event, by a record in the file that is in use.
    fn handle(&mut self, alloc: Global, event: Event) -> Result<Turn<D>, LiveError>
        requires usable { self.old.is_broken ≡ false }
        requires numbers { AreCountsSpent self.old.numbers → ⊥ }
        ensures step { IfOk result (λ t. IsHandled self.old event t self.new) }
        ensures carries { IfOk result (λ t. (t.asked ≡ event) × (t.before ≡ self.old.state)) }
        ensures any_moment { D.honest self.old.a → D.honest self.old.b → KeepsEvent D.history self.old self.new event result }
        ensures no_call { IfOk result (λ t. HasNoOps self.old event t → MakesNoCall self.old self.new) }
        ensures file { StaysInFile self.old self.new }
        ensures refuses { LeavesAsIs self.old self.new result }
        ensures fault { TellsFaults D.honest D.faults self.old self.new result }
        ensures later { AreLater D.honest D.history D.faults self.old.a self.old.b self.new.a self.new.b }
    {
        // As long as it isn't spent, the files give its content.
        let _spent = self.journal.is_spent();
        let asked = Snapshot::of(&event);
        let before = Snapshot::of(&self.core);
        let outcome = match self.core.step(alloc, event) {
            Ok(outcome) => outcome,
            Err(_) => return Err(LiveError::NoMemory),
        };
        let profile = self.core.as_saved().profile();
        let number = record_ops(&mut self.journal, &mut self.room, profile, &outcome.ops)?;
        self.event += 1;
        let turn = Turn::new(outcome, self.event, number, asked, before);
        let work = self.work.saturating_add(turn.added_work());
        self.work = work;
        Ok(turn)
    }

    /// How many events there were since the stage was made or opened.
    pub fn last_event(&self) -> u64
        ensures { result ≡ self.now.numbers.event }
    {
        self.event
    }

    /// The number of the last record in file and snapshot, 0 where there is none.
    pub fn last_record(&self) -> u64
        ensures { result ≡ self.now.numbers.last_record }
    {
        self.journal
            .base()
            .saturating_add(self.journal.records_since_checkpoint())
    }

    /// Whether the last event or the last record has the number 2^64 - 1, or the file the generation 2^64 - 1 and a checkpoint
    /// is due. Every later `turn` then answers `NumbersSpent`, unless the stage is broken.
    pub fn are_numbers_spent(&self) -> bool
        ensures { IsTrue result ↔ AreSpent self.now.numbers self.now.file }
    {
        self.event == u64::MAX
            || self.last_record() == u64::MAX
            || (self.is_checkpoint_due() && self.journal.generation() == u64::MAX)
    }

    /// Whether a disk failed. Every later `turn` then answers `Broken`: open the files again.
    pub fn is_broken(&self) -> bool
        ensures value { result ≡ self.now.is_broken }
        ensures kept { D.honest self.now.a → D.honest self.now.b → self.now.is_broken ≡ false
            → AllFindNow (λ f. f ≡ Some self.now.state.machine.saved) (D.history self.now.a) (D.history self.now.b) }
        ensures stored { D.honest self.now.a → D.honest self.now.b → self.now.is_broken ≡ false → IsStored D.history self.now }
    {
        self.journal.is_spent()
    }

    /// Whether the files had a layout of before when they were opened, and were brought to the one that is written then: a program of
    /// before can't read them since.
    pub fn was_migrated(&self) -> bool
        ensures { result ≡ self.now.was_migrated }
    {
        self.migrated
    }

    /// The disks of files a and b.
    pub fn into_disks(self) -> (D, D)
        ensures { result ≡ (self.a, self.b) }
    {
        let Live {
            core: _,
            journal,
            room: _,
            group: _,
            event: _,
            migrated: _,
            work: _,
            put_off: _,
        } = self;
        journal.into_disks()
    }
}

// Room for one record's body, and for a group of records.
fn room_for(alloc: Global) -> Result<(Vec<u8>, Group), StartError>
    ensures room { IfOk result (λ rooms. LONGEST_BODY ≤ vec_capacity rooms.0) }
    ensures no_memory { IfErr result (λ e. e ≡ StartError.NoMemory) }
{
    match (Vec::with_capacity(alloc, LONGEST_BODY), Group::new(alloc)) {
        (Ok(room), Ok(group)) => Ok((room, group)),
        _ => Err(StartError::NoMemory),
    }
}

// A journal that was neither made nor opened.
fn refused_start<D>(refused: play_journal::Refused<D>) -> Refused<D>
    ensures error { result.error ≡ start_error refused.error }
    ensures a { result.a ≡ refused.a }
    ensures b { result.b ≡ refused.b }
{
    let play_journal::Refused { error, a, b } = refused;
    let error = match error {
        JournalError::NotEmpty => StartError::NotEmpty,
        JournalError::NoJournal => StartError::NoJournal,
        JournalError::Damaged(offset) => StartError::Damaged(offset),
        JournalError::NoMemory => StartError::NoMemory,
        // Over honest disks the last three don't come: a fresh snapshot has 69 bytes.
        JournalError::DiskFault
        | JournalError::TooLong
        | JournalError::NumbersSpent
        | JournalError::OldLayout => StartError::Broken,
    };
    Refused { error, a, b }
}
