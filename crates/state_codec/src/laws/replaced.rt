// Laws of a playlist that gets the songs of the queue in place of its own.
ghost use Rattle.std.specs.Prelude.{◌≡◌, ◌↔◌, ℕ, List, true, None, option_map};
ghost use Rattle.state_codec.specs.Applied.{all_applied, after_all, unless_refused};
ghost use Rattle.state_codec.specs.OpsLists.{uris_of};
ghost use Rattle.state_codec.specs.Replacing.{replace_ops, replace_refusal, replaces_nothing};
ghost use Rattle.state_codec.specs.SavedState.{SavedState, IsSavedState};
ghost use Rattle.stored_lists.specs.Lists.{with_songs};
ghost use Rattle.stored_lists.specs.Times.{with_time};

/// The two ops apply one after the other exactly where the replacement isn't refused, and make other playlists exactly
/// where the playlist has other songs than the queue. It stays where it stood, and nothing else changes but its time.
pub fn replaced_in_turn()
    ensures applied { (name : List ℕ) (s : SavedState) → IsSavedState s
        → all_applied (replace_ops name) s ≡ unless_refused (replace_refusal name s) (after_all (replace_ops name) s) }
    ensures nothing { (name : List ℕ) (s : SavedState) → IsSavedState s → replace_refusal name s ≡ None
        → (replaces_nothing name s ≡ true) ↔ ((after_all (replace_ops name) s).lists ≡ s.lists) }
    ensures stands { (name : List ℕ) (s : SavedState) → IsSavedState s → replace_refusal name s ≡ None
        → after_all (replace_ops name) s ≡ record s {
          lists = with_songs s.lists name (uris_of s.queue.entries);
          changed = option_map (with_time name 0) s.changed;
        } }
{}
