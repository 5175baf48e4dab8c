// Many events in groups, one behind the other, as the daemon makes them.
ghost use Rattle.std.specs.Prelude.{◌≡◌, ◌≢◌, ◌+◌, ◌≤◌, ◌++◌, true, false, [], length, map, Ok, Err, IfOk, OnErr, vec_len, vec_capacity};
ghost use Rattle.disk_model.specs.Later.{AreLater, HasFailed};
ghost use Rattle.state_codec.specs.SavedState.{SavedState};
ghost use Rattle.daemon_core.specs.State.{start};
ghost use Rattle.live_stage.specs.Found.{AllFindNow, AllFindSince};
ghost use Rattle.live_stage.specs.GroupRun.{FindsPrefixOfGroups, FindsWholeOfGroups, GroupsRefuse, HandlesGroup, refusals};
ghost use Rattle.live_stage.specs.Transcript.{IsRun, IsOfOneLife, HasRoomFor};

use crate::LiveError;
use crate::live::Live;
use crate::turn::{Turn, TurnResult};
use crate::turns::{RefusedTurns, Turns};
use daemon_core::Event;
use disk_model::Disk;
use std::alloc::Global;

// Puts the answers of a group behind those of before.
fn answer_each<D>(turns: Vec<Turn<D>>, answers: &mut Vec<TurnResult<D>>)
    requires room { vec_len answers.old + length turns.items ≤ vec_capacity answers.old }
    ensures items { answers.new.items ≡ answers.old.items ++ map Ok turns.items }
    ensures len { vec_len answers.new ≡ vec_len answers.old + length turns.items }
    ensures capacity { vec_capacity answers.new ≡ vec_capacity answers.old }
{
    for turn in turns {
        answers.push_reserved(Ok(turn));
    }
}

// Puts so many refusals behind them.
fn refuse_each<D>(count: usize, error: LiveError, answers: &mut Vec<TurnResult<D>>)
    requires room { vec_len answers.old + count ≤ vec_capacity answers.old }
    ensures items { answers.new.items ≡ answers.old.items ++ refusals count error }
    ensures len { vec_len answers.new ≡ vec_len answers.old + count }
    ensures capacity { vec_capacity answers.new ≡ vec_capacity answers.old }
{
    let mut left = count;
    'left: while left > 0 {
        answers.push_reserved(Err(error));
        left -= 1;
    }
}

impl<D: Disk> Live<D> {
    /// Handles events in order in groups, as the daemon does: each group is handed what the one before it left, until all are answered or
    /// refused. It answers `NoMemory` where there is no room for the list of answers, and then did nothing.
    pub fn run_groups(
        &mut self,
        alloc: Global,
        events: Vec<Event>,
    ) -> Result<Vec<TurnResult<D>>, LiveError>
        ensures run { IfOk result (λ answers. IsRun self.old self.new events.items answers.items) }
        ensures refuses { IfOk result (λ answers. GroupsRefuse self.old self.new answers.items) }
        ensures one_life { (kept : SavedState) → self.old.state ≡ start kept
            → IfOk result (λ answers. IsOfOneLife self.old self.new events.items answers.items kept) }

        // Stopped at any moment, a restart finds the state after a prefix of this history, where no checkpoint can be due.
        ensures any_moment { D.honest self.old.a → D.honest self.old.b → self.old.is_broken ≡ false
            → IfOk result (λ answers. HasRoomFor self.old events.items answers.items
            → AllFindSince (FindsPrefixOfGroups self.old.state events.items answers.items)
            (D.history self.new.a) (length (D.history self.old.a)) (D.history self.new.b) (length (D.history self.old.b))) }

        // At the end it finds the state after all that was given out.
        ensures given_out { D.honest self.old.a → D.honest self.old.b → self.old.is_broken ≡ false
            → IfOk result (λ answers. AllFindNow (FindsWholeOfGroups self.old.state events.items answers.items)
            (D.history self.new.a) (D.history self.new.b)) }

        ensures fault { D.honest self.old.a → D.honest self.old.b → self.old.is_broken ≡ false → self.new.is_broken ≡ true
            → HasFailed D.faults self.old.a self.old.b self.new.a self.new.b }

        // A stage that was broken at the start stays as it was, its disks too, and so does one whose run is refused.
        ensures stays { self.old.is_broken ≡ true → self.new ≡ self.old }
        ensures no_memory { OnErr result ((result ≡ Err LiveError.NoMemory) × (self.new ≡ self.old)) }
        ensures later { AreLater D.honest D.history D.faults self.old.a self.old.b self.new.a self.new.b }
    {
        let mut answers = match Vec::with_capacity(alloc, events.len()) {
            Ok(answers) => answers,
            Err(_) => return Err(LiveError::NoMemory),
        };
        // As long as it isn't broken, the files give its state.
        let _broken = self.is_broken();
        let mut rest = events;
        'groups: while !rest.is_empty() {
            rest = self.run_group(alloc, rest, &mut answers);
        }
        Ok(answers)
    }

    // Handles the first ones of the events as a group, puts their answers behind those of before, and answers the others.
    fn run_group(
        &mut self,
        alloc: Global,
        events: Vec<Event>,
        answers: &mut Vec<TurnResult<D>>,
    ) -> Vec<Event>
        requires some { events.items ≢ [] }
        requires room { vec_len answers.old + length events.items ≤ vec_capacity answers.old }
        ensures handled { HandlesGroup D.honest D.history self.old self.new events.items answers.old.items answers.new.items result.items }
        ensures room { vec_len answers.new + length result.items ≤ vec_capacity answers.new }
        ensures fault { D.honest self.old.a → D.honest self.old.b → self.old.is_broken ≡ false → self.new.is_broken ≡ true
            → HasFailed D.faults self.old.a self.old.b self.new.a self.new.b }
        ensures later { AreLater D.honest D.history D.faults self.old.a self.old.b self.new.a self.new.b }
    {
        // As long as it isn't broken, the files give its state.
        let _broken = self.is_broken();
        let count = events.len();
        match self.turn_group(alloc, events) {
            Ok(group) => {
                let Turns {
                    turns,
                    is_refused,
                    rest,
                } = group;
                answer_each(turns, answers);
                if is_refused {
                    answers.push_reserved(Err(LiveError::NoMemory));
                }
                rest
            }
            Err(refused) => {
                let RefusedTurns { error, rest } = refused;
                refuse_each(count - rest.len(), error, answers);
                rest
            }
        }
    }
}
