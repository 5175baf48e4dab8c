// Laws of ops that change nothing, and of what an op can change.
ghost use Rattle.std.specs.Prelude.{◌≡◌, ◌↔◌, ℕ, true, false, None};
ghost use Rattle.state_codec.specs.Applied.{refusal_of, after, changes_nothing};
ghost use Rattle.state_codec.specs.Laws.{OfEachOp, OfQueueOps, OfListOps, OfStickerOps, OfBatches, but_kept, is_batch, is_behind};
ghost use Rattle.state_codec.specs.Laws.{LeaveRows};
ghost use Rattle.state_codec.specs.Laws.{with_parts_of, uses_order};
ghost use Rattle.state_codec.specs.OpsLists.{leaves_lists, lists_after};
ghost use Rattle.state_codec.specs.OpsQueue.{after_queue};
ghost use Rattle.state_codec.specs.OpsRows.{leaves_rows};
ghost use Rattle.state_codec.specs.OpsStickers.{leaves_stickers, stickers_after};
ghost use Rattle.state_codec.specs.SavedState.{SavedState};
ghost use Rattle.state_codec.specs.declared.op.Op.{Op};
ghost use Rattle.state_codec.specs.declared.op.Op.TheVariants.{SetOrder};

/// An op changes nothing exactly where it leaves the state as it is. A batch may leave the state as it is and still
/// change something, where one of its changes undoes another: it changes nothing exactly where each of its changes
/// leaves the rows as it finds them.
pub fn changes_nothing_exactly()
    ensures stays { OfEachOp (λ op s. changes_nothing op s ≡ true → after op s ≡ s) }
    ensures only { OfEachOp (λ op s. is_batch op ≡ false → after op s ≡ s → changes_nothing op s ≡ true) }
    // What an op other than those of the place and of a time changes isn't the player's place and the playlists' times alone.
    ensures apart { (t : SavedState) → OfEachOp (λ op s. is_batch op ≡ false → is_behind op ≡ false
        → after op s ≡ but_kept t s → changes_nothing op s ≡ true) }
    ensures batch { OfBatches (λ changes s. (leaves_rows changes s ≡ true) ↔ LeaveRows s.songs changes) }
{}

/// Which parts of a state an op can change, and when it does.
pub fn parts_that_change()
    ensures alone { (op : Op) (s : SavedState) → after op s ≡ with_parts_of op s (after op s) }
    ensures lists { OfListOps (λ op s. (leaves_lists op s ≡ true) ↔ (lists_after op s ≡ s.lists)) }
    ensures stickers { OfStickerOps (λ op s. (leaves_stickers op s ≡ true) ↔ (stickers_after op s.stickers ≡ s.stickers)) }
    // The version tells whether the queue has changed.
    ensures queue { OfEachOp (λ op s. ((after op s).queue.version ≡ s.queue.version) ↔ ((after op s).queue ≡ s.queue)) }
    // By an op of the queue the entries change wherever the version does. (By a batch at the greatest version they may stay
    // the same: where only their rows are others, and all their stamps are 1 already.)
    ensures entries { OfQueueOps (λ op s.
        ((after_queue op s).queue.version ≡ s.queue.version) ↔ ((after_queue op s).queue.entries ≡ s.queue.entries)) }
{}

/// The number of the random order can be set before any op that doesn't use it, or after it.
pub fn order_stands_apart()
    ensures refused { (order : ℕ) (s : SavedState) → refusal_of (SetOrder order) s ≡ None }
    ensures same_refusal { (op : Op) (order : ℕ) (s : SavedState) → refusal_of op (after (SetOrder order) s) ≡ refusal_of op s }
    ensures same_nothing { (op : Op) (order : ℕ) (s : SavedState) → uses_order op ≡ false
        → changes_nothing op (after (SetOrder order) s) ≡ changes_nothing op s }
    ensures either_first { (op : Op) (order : ℕ) (s : SavedState) → uses_order op ≡ false
        → after op (after (SetOrder order) s) ≡ after (SetOrder order) (after op s) }
{}
