// Many events in order.
ghost use Rattle.std.specs.Prelude.{◌≡◌, ◌↔◌, ◌⊎◌, ◌+◌, ◌≤◌, true, false, [], length, Err, IfOk, OnErr, MatchBool};
ghost use Rattle.disk_model.specs.Later.{AreLater, HasFailed};
ghost use Rattle.state_codec.specs.SavedState.{SavedState};
ghost use Rattle.daemon_core.specs.State.{start};
ghost use Rattle.live_stage.specs.Found.{AllFindNow, AllFindSince};
ghost use Rattle.live_stage.specs.Transcript.{IsRun, RunRefuses, IsOfOneLife, FindsWhole, FindsPrefix, HasRoomFor};
ghost use Rattle.live_stage.specs.Turns.{StaysInFile};

use crate::LiveError;
use crate::live::Live;
use crate::turn::TurnResult;
use daemon_core::Event;
use disk_model::Disk;
use std::alloc::Global;

impl<D: Disk> Live<D> {
    /// Handles events in order. It answers `NoMemory` where there is no room for the list of answers, and then did nothing.
    pub fn run(
        &mut self,
        alloc: Global,
        events: Vec<Event>,
    ) -> Result<Vec<TurnResult<D>>, LiveError>
        ensures run { IfOk result (λ answers. IsRun self.old self.new events.items answers.items) }
        ensures refuses { IfOk result (λ answers. RunRefuses self.old self.new events.items answers.items) }
        ensures one_life { (kept : SavedState) → self.old.state ≡ start kept
            → IfOk result (λ answers. IsOfOneLife self.old self.new events.items answers.items kept) }

        // Stopped at any moment, a restart finds the state after a prefix of this history, where no checkpoint can be due.
        ensures any_moment { D.honest self.old.a → D.honest self.old.b → self.old.is_broken ≡ false
            → IfOk result (λ answers. HasRoomFor self.old events.items answers.items
            → AllFindSince (FindsPrefix self.old.state events.items answers.items)
            (D.history self.new.a) (length (D.history self.old.a)) (D.history self.new.b) (length (D.history self.old.b))) }

        // At the end it finds the state after all that was given out.
        ensures given_out { D.honest self.old.a → D.honest self.old.b → self.old.is_broken ≡ false
            → IfOk result (λ answers. AllFindNow (FindsWhole self.old.state events.items answers.items)
            (D.history self.new.a) (D.history self.new.b)) }

        ensures file { IfOk result (λ answers. HasRoomFor self.old events.items answers.items → StaysInFile self.old self.new) }
        ensures fault { D.honest self.old.a → D.honest self.old.b → self.old.is_broken ≡ false → self.new.is_broken ≡ true
            → HasFailed D.faults self.old.a self.old.b self.new.a self.new.b }

        // A stage that was broken at the start stays as it was, its disks too, and so does one whose run is refused.
        ensures stays { self.old.is_broken ≡ true → self.new ≡ self.old }
        ensures no_memory { OnErr result ((result ≡ Err LiveError.NoMemory) × (self.new ≡ self.old)) }
        ensures later { AreLater D.honest D.history D.faults self.old.a self.old.b self.new.a self.new.b }
    {
        let mut answers = match Vec::with_capacity(alloc, events.len()) {
            Ok(answers) => answers,
            Err(_) => return Err(LiveError::NoMemory),
        };
        // As long as it isn't broken, the files give its state.
        let _broken = self.is_broken();
        for event in events {
            let answer = self.turn(alloc, event);
            answers.push_reserved(answer);
        }
        Ok(answers)
    }
}
