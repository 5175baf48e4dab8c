// The parts of a saved state, each by a name.
use play_queue::Queue;
use player_core::{Options, Place, Volume};
use profile::Profile;
use song_db::SongDb;
use stickers::Stickers;
use stored_lists::{ListTimes, Lists};

/// The parts of a saved state.
#[derive(Debug, Drop)]
pub struct SavedParts {
    /// What the daemon knows of MPD.
    pub profile: Profile,
    /// The key from which the random order is drawn.
    pub key: [u8; 32],
    /// The number of the random order that is in force.
    pub order: u64,
    pub volume: Volume,
    pub options: Options,
    pub songs: SongDb,
    pub queue: Queue,
    pub lists: Lists,
    pub stickers: Stickers,
    /// Where the player was: under the wide profile alone.
    pub place: Option<Place>,
    /// When playlists were last changed: under the wide profile alone.
    pub changed: Option<ListTimes>,
}
