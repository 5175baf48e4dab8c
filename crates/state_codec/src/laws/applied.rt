// Laws of ops.
ghost use Rattle.std.specs.Prelude.{◌≡◌, ◌++◌, List, Some, IfSome};
ghost use Rattle.std.specs.List.{AllByRecursion};
ghost use Rattle.std.specs.Option.{option_and_then};
ghost use Rattle.state_codec.specs.Applied.{applied, all_applied};
ghost use Rattle.state_codec.specs.Ops.{IsOp, IsKeptOp};
ghost use Rattle.state_codec.specs.SavedState.{SavedState, IsSavedState};
ghost use Rattle.state_codec.specs.declared.op.Op.{Op};

/// Ops one after the other are applied in turn, and keep a saved state.
pub fn applied_in_turn()
    ensures joined { (a : List Op) (b : List Op) (s : SavedState)
        → all_applied (a ++ b) s ≡ option_and_then (all_applied b) (all_applied a s) }
    ensures in_range { (ops : List Op) (s : SavedState) → AllByRecursion IsOp ops → IsSavedState s
        → IfSome (all_applied ops s) IsSavedState }
    // The ops that apply have rows alone that the profile keeps, which they leave as it is.
    ensures kept { (ops : List Op) (s : SavedState) → IfSome (all_applied ops s) (λ after.
        AllByRecursion (IsKeptOp s.profile) ops × (after.profile ≡ s.profile)) }
    ensures one { (op : Op) (s : SavedState) → IsOp op → IsSavedState s → IfSome (applied op s) IsSavedState }
{}
