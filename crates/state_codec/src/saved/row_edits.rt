// A batch of the database.
ghost use Rattle.std.specs.Prelude.{◌≡◌};
ghost use Rattle.state_codec.specs.Changes.{AreChanges};
ghost use Rattle.state_codec.specs.Editing.{IsEdit};
ghost use Rattle.state_codec.specs.OpsRows.{rows_refusal, after_rows, without_songs};
ghost use Rattle.state_codec.specs.SavedState.{IsSavedState};
ghost use Rattle.state_codec.specs.Stored.{state_of};

use super::SavedParts;
use super::batch::{changed_by, check_changes, dropped_by};
use super::placing::leave_place;
use crate::op::Changes;
use crate::refusal::ApplyError;
use play_queue::SortedUris;
use player_core::Block;
use song_db::Uri;
use std::alloc::Global;
use stickers::Stickers;

impl SavedParts {
    // All memory is taken before anything changes.
    pub(super) fn edit_rows(&mut self, alloc: Global, changes: &Changes) -> Result<(), ApplyError>
        requires { IsSavedState (state_of self.old) }
        ensures edit { IsEdit (rows_refusal changes.now (state_of self.old)) (after_rows changes.now (state_of self.old))
            (state_of self.old) (state_of self.new) result }
        ensures form { AreChanges changes.now }
    {
        check_changes(self.profile, &self.songs, changes.as_slice())?;
        let dropped = dropped_by(alloc, changes.as_slice())?;
        let changed = SortedUris::new(changed_by(alloc, &self.songs, changes.as_slice())?);
        let copies = changes.try_clone(alloc)?;
        self.songs.apply_batch(alloc, copies.into_vec())?;
        leave_place(&mut self.place, self.queue.entries(), Block::NONE, &dropped);
        let dropped = SortedUris::new(dropped);
        self.queue.follow_batch(&dropped, &changed);
        drop_songs(&mut self.stickers, dropped.as_slice());
        Ok(())
    }
}

// The stickers of these songs go.
fn drop_songs(stickers: &mut Stickers, uris: &[Uri])
    ensures { stickers.new ≡ without_songs stickers.old uris.now }
{
    for uri in uris {
        stickers.drop_uri(uri.as_str());
    }
}
