//! Laws of the definitions, for the layers above: a call brings its clauses into their proofs.
ghost use Rattle.std.specs.Prelude.{◌≡◌, ◌≤◌, ◌*◌, Bool, List, [], ◌∷◌, ◌++◌, Some, sum_by};
ghost use Rattle.disk_model.specs.History.{Change};
ghost use Rattle.daemon_core.specs.Replay.{Entry, replay};
ghost use Rattle.daemon_core.specs.State.{State, start};
ghost use Rattle.daemon_core.specs.declared.event.Event.{Event};
ghost use Rattle.live_stage.specs.Answer.{Answer, IsTurn};
ghost use Rattle.live_stage.specs.Found.{AllFindNow, AllOpenNow};
ghost use Rattle.live_stage.specs.Group.{EndsThere, IsGroup, IsOneHistory, answer_looks};
ghost use Rattle.live_stage.specs.LiveState.{LiveState};
ghost use Rattle.live_stage.specs.Transcript.{replayed};
ghost use Rattle.machine_core.specs.Looks.{max_looks};
ghost use Rattle.state_codec.specs.SavedState.{SavedState};

use disk_model::Disk;
use machine_core::laws;

/// The state that a run comes to from the start of a life, by its history, is the replay of that history: runs that follow one another
/// in a life have one history.
pub fn run_from_the_start_is_the_replay()
    ensures { (kept : SavedState) (history : List Entry) → replayed (start kept) history ≡ replay kept history }
{}

/// A group that gives one answer is a turn.
pub fn group_of_one_is_a_turn<D: Disk>()
    ensures { (old new : LiveState D) (t : Answer) → IsGroup old (t ∷ []) new → IsTurn old t.asked t new }
{}

/// Groups that follow one another are one history, whatever checkpoints and refusals lie between them, which change neither the state nor
/// its numbers.
pub fn groups_are_one_history<D: Disk>()
    ensures first { (old new : LiveState D) (turns : List Answer) → IsGroup old turns new → IsOneHistory old turns new }
    ensures next { (old between begun new : LiveState D) (turns more : List Answer) → IsOneHistory old turns between
        → begun.state ≡ between.state → begun.numbers ≡ between.numbers → IsGroup begun more new → IsOneHistory old (turns ++ more) new }
{}

/// The events of a group count as looking at twice as much as the wide profile lets one request look at, at most.
pub fn group_looks_at_most_twice<D: Disk>()
    ensures { (old : LiveState D) (events : List Event) (turns : List Answer) (is_refused : Bool) (rest : List Event)
        → EndsThere old events turns is_refused rest → sum_by answer_looks turns ≤ 2 * max_looks }
{}

/// Files that give a state are opened with it: a restart with the profile of that state finds it.
pub fn given_state_is_found()
    ensures { (s : SavedState) (a b : List Change) → AllFindNow (λ f. f ≡ Some s) a b → AllOpenNow s.profile (λ f. f ≡ Some s) a b }
{}

/// The profile of a stage stays through its history.
pub fn history_keeps_the_profile()
    ensures { (s : State) (history : List Entry)
        → (let now = replayed s history in now.machine.saved.profile) ≡ s.machine.saved.profile }
{
    laws::ops_rebuild_the_state();
}
