//! Laws of the spelling and of ops, for the layers above: a call brings its clauses into their proofs.
ghost use Rattle.std.specs.Prelude.{◌≡◌, ℕ, ◌+◌, ◌<◌, ◌≤◌, ◌^◌, List, Ok, IsTrue, length};
ghost use Rattle.profile.specs.declared.profile.Profile.{Profile as AProfile};
ghost use Rattle.song_db.specs.declared.change.RowChange.{RowChange};
ghost use Rattle.state_codec.specs.Changes.{AreChanges, are_kept};
ghost use Rattle.state_codec.specs.Layout.{layout_of, profile_of, written_layout, AreOpsIn, IsStateIn};
ghost use Rattle.state_codec.specs.Longest.{longest_batch, longest_snapshot};
ghost use Rattle.state_codec.specs.Ops.{AreOps};
ghost use Rattle.state_codec.specs.SavedState.{SavedState, IsSavedState, IsBytes};
ghost use Rattle.state_codec.specs.Sealed.{checksum_len};
ghost use Rattle.state_codec.specs.Spelling.{ops_bytes, body_bytes, saved_bytes};
ghost use Rattle.state_codec.specs.SpellingOps.{op_bytes};
ghost use Rattle.state_codec.specs.Reading.{ops_reading, saved_reading};
ghost use Rattle.state_codec.specs.declared.op.Op.{Op};
ghost use Rattle.state_codec.specs.declared.op.Op.TheVariants.{Batch};

mod applied;
mod replaced;
mod unchanged;

pub use applied::applied_in_turn;
pub use replaced::replaced_in_turn;
pub use unchanged::{changes_nothing_exactly, order_stands_apart, parts_that_change};

/// No bytes spell two values of one profile. The spelling is one for all layouts of a profile: a layout says which values it has.
pub fn one_spelling()
    ensures ops { (profile : AProfile) (a : List Op) (b : List Op) → AreOps profile a → AreOps profile b
        → body_bytes profile a ≡ body_bytes profile b → a ≡ b }
    ensures saved { (a : SavedState) (b : SavedState) → IsSavedState a → IsSavedState b → a.profile ≡ b.profile
        → saved_bytes a ≡ saved_bytes b → a ≡ b }
{}

/// What is spelled is read in each layout of its profile that has its values, and nothing else is. The layout that is written
/// under a profile has all.
pub fn read_as_spelled()
    ensures ops { (profile : AProfile) (ops : List Op) → AreOps profile ops
        → ops_reading (written_layout profile) (body_bytes profile ops) ≡ Ok ops }
    ensures saved { (s : SavedState) → IsSavedState s → saved_reading (written_layout s.profile) (saved_bytes s) ≡ Ok s }
    ensures ops_in { (layout : ℕ) (ops : List Op) → AreOps (profile_of layout) ops → AreOpsIn (layout_of layout) ops
        → ops_reading layout (body_bytes (profile_of layout) ops) ≡ Ok ops }
    ensures saved_in { (layout : ℕ) (s : SavedState) → IsSavedState s → IsStateIn (layout_of layout) s
        → saved_reading layout (saved_bytes s) ≡ Ok s }
    ensures only_ops { (layout : ℕ) (bytes : List ℕ) (ops : List Op) → IsBytes bytes → ops_reading layout bytes ≡ Ok ops
        → AreOps (profile_of layout) ops × (bytes ≡ body_bytes (profile_of layout) ops) }
    ensures only_saved { (layout : ℕ) (bytes : List ℕ) (s : SavedState) → IsBytes bytes → saved_reading layout bytes ≡ Ok s
        → IsSavedState s × (bytes ≡ saved_bytes s) }
    ensures ops_within { (layout : ℕ) (bytes : List ℕ) (ops : List Op) → IsBytes bytes → ops_reading layout bytes ≡ Ok ops
        → AreOpsIn (layout_of layout) ops }
    ensures saved_within { (layout : ℕ) (bytes : List ℕ) (s : SavedState) → IsBytes bytes → saved_reading layout bytes ≡ Ok s
        → IsStateIn (layout_of layout) s }
{}

/// How long a snapshot is at most: a number of 32 bits counts its bytes.
pub fn snapshot_is_short()
    ensures longest { (s : SavedState) → IsSavedState s → length (saved_bytes s) ≤ longest_snapshot s.profile }
    ensures counted { (profile : AProfile) → longest_snapshot profile < 2 ^ 32 }
{}

/// How long a record's body is: its ops, and the checksum where the profile asks for one. An op that puts rows that the
/// profile keeps takes at most as many bytes as this.
pub fn body_len()
    ensures whole { (profile : AProfile) (ops : List Op)
        → length (body_bytes profile ops) ≡ length (ops_bytes profile ops) + checksum_len profile }
    ensures batch { (profile : AProfile) (changes : List RowChange) → AreChanges changes → IsTrue (are_kept profile changes)
        → length (op_bytes profile (Batch changes)) ≤ longest_batch profile }
{}
