// Many events whose records reach the disk together.
ghost use Rattle.std.specs.Prelude.{◌≡◌, ◌≢◌, ◌^◌, ◌<◌, ◌≤◌, false, List, [], length, drop, Ok, Err, Some};
ghost use Rattle.std.specs.Prelude.{IfErr, IfOk, MatchResult, vec_capacity};
ghost use Rattle.std.specs.List.{AllByRecursion};
ghost use Rattle.disk_model.specs.Later.{AreLater};
ghost use Rattle.daemon_core.specs.Replay.{Entry};
ghost use Rattle.live_stage.specs.Found.{AllFindNow, AllFindSince};
ghost use Rattle.live_stage.specs.Group.{EndsThere, IsGroup, IsGroupWritten, IsNoneOrAll, IsOfFront, RefusesFront, as_a_turn, bodies_after};
ghost use Rattle.live_stage.specs.Group.{history_in, makes_checkpoint};
ghost use Rattle.live_stage.specs.Numbers.{AreCountsSpent, is_due};
ghost use Rattle.live_stage.specs.Staging.{IsGroupHandled, KeepsGroup, begin_of};
ghost use Rattle.live_stage.specs.Turns.{LeavesAsIs, MakesNoCall, RefusesInOrder, StaysInFile, TellsFaults, WritesOneFile};

use super::Live;
use crate::LiveError;
use crate::due::work_of;
use crate::recording::record_group;
use crate::staging::{Begin, stage_events};
use crate::turn::Turn;
use crate::turns::{RefusedTurns, Turns};
use daemon_core::Event;
use disk_model::Disk;
use std::alloc::Global;

impl<D: Disk> Live<D> {
    /// Handles events in order, as turns would, and brings their records to the disk together: a crash leaves all of them or none, and the
    /// answers are given out once all are there. A checkpoint that is due is made before the first event.
    ///
    /// It ends before an event where a checkpoint has become due, a number is spent, the records take more bytes than the longest one,
    /// 2,097,157, the answers more than 1 MiB, or the events looked at more than one request may; and behind one that ends the daemon or
    /// finds no memory. What is left is handed back.
    ///
    /// It refuses in the order `Broken` (from before), `NumbersSpent`, `NoMemory` (for the list of answers, or at the first event),
    /// `Broken` (by a disk fault now). After the last all events that were begun may be kept, or none: open the files again.
    #[tactic(auto, using(crate::proofs::TurnLaws::one_file_still, crate::proofs::TurnLaws::one_file_failed, crate::proofs::TurnLaws::one_file_refused, crate::proofs::TurnLaws::still_on, crate::proofs::PhaseLaws::refuses_first, crate::proofs::PhaseLaws::ready_due))]
    pub fn turn_group(
        &mut self,
        alloc: Global,
        events: Vec<Event>,
    ) -> Result<Turns<D>, RefusedTurns>
        // Events are taken in order as long as they may be. Each is answered, refused or handed back.
        ensures events { MatchResult result (λ g. EndsThere self.old events.items g.turns.items g.is_refused g.rest.items)
            (λ e. RefusesFront self.old events.items e.error e.rest.items) }

        // The answers and the state are those of the steps of one history.
        ensures group { IfOk result (λ g. IsGroup self.old g.turns.items self.new) }

        // Stopped at any moment, a restart finds the state from before or the one behind the last event, with one history throughout,
        // which is that of the answers.
        ensures any_moment { D.honest self.old.a → D.honest self.old.b → self.old.is_broken ≡ false
            → (whole : List Entry) × MatchResult result (λ g. whole ≡ history_in g.turns.items)
            (λ e. IsOfFront whole events.items e.rest.items) × AllFindSince (IsNoneOrAll self.old.state whole)
            (D.history self.new.a) (length (D.history self.old.a)) (D.history self.new.b) (length (D.history self.old.b)) }

        // From then on it finds the state after, and after a refusal without a fault the state from before, which stays.
        ensures kept { D.honest self.old.a → D.honest self.old.b → self.new.is_broken ≡ false
            → AllFindNow (λ f. f ≡ Some self.new.state.machine.saved) (D.history self.new.a) (D.history self.new.b) }

        // The files then say the records of all events' ops, and no more records than the bounds allow.
        ensures stored { D.honest self.old.a → D.honest self.old.b
            → IfOk result (λ g. IsGroupWritten D.history self.old self.new g.turns.items) }
        ensures no_call { IfOk result (λ g. makes_checkpoint self.old.file g.turns.items ≡ false
            → bodies_after self.old.state (history_in g.turns.items) ≡ [] → MakesNoCall self.old self.new) }
        ensures file { MatchResult result (λ g. AllByRecursion (λ t. WritesOneFile self.old self.new (Ok t)) g.turns.items)
            (λ e. WritesOneFile self.old self.new (Err e.error)) }

        ensures refuses { RefusesInOrder self.old self.new (as_a_turn result) }
        ensures fault { TellsFaults D.honest D.faults self.old self.new (as_a_turn result) }
        ensures later { AreLater D.honest D.history D.faults self.old.a self.old.b self.new.a self.new.b }
    {
        if self.is_broken() {
            return Err(refused(LiveError::Broken, events));
        }
        if self.are_numbers_spent() {
            return Err(refused(LiveError::NumbersSpent, events));
        }
        let turns = match Vec::with_capacity(alloc, events.len()) {
            Ok(turns) => turns,
            Err(_) => return Err(refused(LiveError::NoMemory, events)),
        };
        if events.is_empty() {
            return Ok(Turns {
                turns,
                is_refused: false,
                rest: events,
            });
        }
        if let Err(error) = self.make_ready() {
            return Err(refused(error, events));
        }
        let group = match self.handle_group(alloc, turns, events) {
            Ok(group) => group,
            Err(refusal) => return Err(refusal),
        };
        // As long as it isn't broken, the files say what is stored, and the stage's numbers are theirs.
        let _broken = self.is_broken();
        Ok(group)
    }

    // Handles the events of a group, by records in the file that is in use.
    #[tactic(auto, using(crate::proofs::ProfileLaws::written_so))]
    fn handle_group(
        &mut self,
        alloc: Global,
        turns: Vec<Turn<D>>,
        events: Vec<Event>,
    ) -> Result<Turns<D>, RefusedTurns>
        requires usable { self.old.is_broken ≡ false }
        requires numbers { AreCountsSpent self.old.numbers → ⊥ }
        requires due { is_due self.old.file ≡ false }
        requires some { events.items ≢ [] }
        requires places { (turns.items ≡ []) × (length events.items ≤ vec_capacity turns) }
        ensures group { IfOk result (λ g.
            IsGroupHandled self.old events.items g.turns.items g.is_refused g.rest.items self.new) }
        ensures front { IfErr result (λ e. RefusesFront self.old events.items e.error e.rest.items) }
        ensures any_moment { D.honest self.old.a → D.honest self.old.b → KeepsGroup D.history self.old self.new events.items result }
        ensures no_call { IfOk result (λ g. bodies_after self.old.state (history_in g.turns.items) ≡ [] → MakesNoCall self.old self.new) }
        ensures file { StaysInFile self.old self.new }
        ensures refuses { LeavesAsIs self.old self.new (as_a_turn result) }
        ensures fault { TellsFaults D.honest D.faults self.old self.new (as_a_turn result) }
        ensures later { AreLater D.honest D.history D.faults self.old.a self.old.b self.new.a self.new.b }
    {
        // As long as it isn't spent, the files give its content.
        let _spent = self.journal.is_spent();
        let begin = self.begin();
        let mut turns = turns;
        let mut rest = events;
        rest.reverse();
        let is_refused = stage_events(
            alloc,
            &mut self.core,
            &mut self.group,
            &mut self.room,
            &mut turns,
            &mut rest,
            begin,
        );
        rest.reverse();
        if turns.is_empty() {
            let error = LiveError::NoMemory;
            return Err(RefusedTurns { error, rest });
        }
        if let Err(error) = record_group(&mut self.journal, &self.group) {
            return Err(RefusedTurns { error, rest });
        }
        self.event += turns.len() as u64;
        let work = self.work.saturating_add(work_of(turns.as_slice()));
        self.work = work;
        Ok(Turns {
            turns,
            is_refused,
            rest,
        })
    }

    // What a group begins with.
    fn begin(&self) -> Begin
        ensures value { result ≡ begin_of self.now }
        ensures fits { self.now.file.bytes < 2 ^ 64 }
    {
        Begin {
            event: self.event,
            last_record: self.last_record(),
            layout: self.journal.layout(),
            snapshot_len: self.journal.snapshot_len(),
            records: self.journal.records_since_checkpoint(),
            bytes: self.journal.bytes_since_checkpoint(),
            is_put_off: self.put_off,
        }
    }
}

// The first of the events is refused, and the others are handed back.
fn refused(error: LiveError, events: Vec<Event>) -> RefusedTurns
    ensures error { result.error ≡ error }
    ensures rest { result.rest.items ≡ drop 1 events.items }
{
    let mut rest = events;
    if !rest.is_empty() {
        let _first = rest.remove(0);
    }
    RefusedTurns { error, rest }
}
