// The song that is heard, which a scan doesn't drop under the wide profile.
ghost use Rattle.std.specs.Prelude.{◌≡◌, option_map};
ghost use Rattle.play_queue.specs.Shown.{shown};
ghost use Rattle.machine_core.specs.Scanning.{drops_heard, hears, hears_in, is_entry_of, spared};

use crate::current::current_entry;
use crate::machine::Machine;
use play_queue::EntryRef;
use player_core::PlayState;
use profile::Profile;
use song_db::RowChange;
use state_codec::Changes;

impl Machine {
    // The changes of a batch, but for one that drops the song that is heard.
    pub(super) fn spare(&self, changes: Changes) -> Vec<RowChange>
        ensures { result.items ≡ spared self.now changes }
    {
        let mut spared = changes.into_vec();
        spared.retain(|change| !self.drops_heard(change));
        spared
    }

    // Whether a change drops it.
    fn drops_heard(&self, change: &RowChange) -> bool
        ensures { result ≡ drops_heard self.now change.now }
    {
        match change {
            RowChange::Put(_) => false,
            RowChange::Drop(uri) => self.hears(uri.as_str()),
        }
    }

    // Whether this song is heard.
    fn hears(&self, uri: &str) -> bool
        ensures { result ≡ hears uri.now self.now }
    {
        let entries = self.saved.queue().entries();
        hears_in(self.saved.profile(), self.player.state())
            && is_entry_of(uri, current_entry(entries, self.player.current()))
    }
}

// Whether a song is heard to its end under a profile: it plays or is in pause.
fn hears_in(profile: Profile, state: PlayState) -> bool
    ensures { result ≡ hears_in profile state }
{
    match (profile, state) {
        (Profile::Named, _) | (Profile::Wide, PlayState::Stop) => false,
        (Profile::Wide, PlayState::Play) | (Profile::Wide, PlayState::Pause) => true,
    }
}

// Whether an entry is of this song.
fn is_entry_of(uri: &str, entry: Option<EntryRef<'_>>) -> bool
    ensures { result ≡ is_entry_of uri.now (option_map shown entry.entry) }
{
    match entry {
        Some(entry) => entry.uri.as_str() == uri,
        None => false,
    }
}
