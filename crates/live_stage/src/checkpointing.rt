// The state as a new snapshot.
ghost use Rattle.std.specs.Prelude.{◌≡◌, ◌≢◌, ◌-◌, ◌^◌, false, OnOk, MatchBool};
ghost use Rattle.play_journal.specs.Calls.{IsNextGeneration};
ghost use Rattle.state_codec.specs.SavedState.{IsSavedState};
ghost use Rattle.state_codec.specs.Layout.{written_layout};
ghost use Rattle.state_codec.specs.Spelling.{saved_bytes};
ghost use Rattle.live_stage.specs.Numbers.{checkpoint_calls, snapshot_size};
ghost use Rattle.live_stage.specs.Turns.{CallsAtMost, with_state};
ghost use Rattle.live_stage.specs.Writing.{GoesOver, CallsDisks, RefusesRecording};

use crate::LiveError;
use disk_model::Disk;
use play_journal::{Journal, Pieces};
use state_codec::{Saved, SavedPieces, layout_number};

/// The snapshot of a saved state, as a journal takes it.
#[derive(Drop)]
pub(crate) struct Snapshotted<'a> {
    pieces: SavedPieces<'a>,
}

impl<'a> Snapshotted<'a> {
    pub(crate) fn of(saved: &'a Saved) -> Self
        ensures spelled { result.pieces ≡ saved_bytes saved.now }
        ensures in_range { IsSavedState saved.now }
    {
        Snapshotted {
            pieces: SavedPieces::new(saved),
        }
    }
}

impl<'a> Pieces for Snapshotted<'a> {
    ghost left = { λ s. s.pieces };

    fn len(&self) -> usize {
        self.pieces.len()
    }

    fn next(&mut self, buffer: &mut Vec<u8>) {
        self.pieces.next(buffer);
    }
}

/// Makes a checkpoint of this state, in the layout that its profile writes. It takes no memory, and refuses a disk fault alone.
pub(crate) fn write_snapshot<D: Disk>(
    journal: &mut Journal<D>,
    saved: &Saved,
) -> Result<(), LiveError>
    requires usable { journal.old.is_spent ≡ false }
    requires generation { journal.old.generation ≢ 2 ^ 64 - 1 }
    ensures any_moment { D.honest journal.old.a → D.honest journal.old.b
        → GoesOver D.history journal.old journal.new (with_state journal.old.content saved.now) result }
    ensures in_range { IsSavedState saved.now }
    ensures next { OnOk result (IsNextGeneration D.faults journal.old journal.new (written_layout saved.now.profile) (snapshot_size saved.now)) }
    ensures refuses { RefusesRecording journal.new result }
    ensures disks { CallsDisks D.honest D.history D.faults journal.old journal.new LiveError.Broken result }
    ensures calls { D.honest journal.old.a → D.honest journal.old.b → OnOk result (CallsAtMost (checkpoint_calls saved.now)
        (D.history journal.old.a) (D.history journal.old.b) (D.history journal.new.a) (D.history journal.new.b)) }
    ensures old_file { MatchBool journal.old.is_in_b (journal.new.b ≡ journal.old.b) (journal.new.a ≡ journal.old.a) }
{
    // The files say what the journal does.
    let _spent = journal.is_spent();
    let layout = layout_number(saved.profile());
    match journal.checkpoint(layout, Snapshotted::of(saved)) {
        Ok(()) => Ok(()),
        // No other refusal comes: a snapshot is never too long, and the generation has a next one.
        Err(_fault) => Err(LiveError::Broken),
    }
}
