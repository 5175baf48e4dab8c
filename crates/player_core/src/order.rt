// What the output is told to do.
use crate::volume::Volume;
use song_db::Uri;

/// What the output is to do.
#[derive(Debug, Drop)]
pub enum Order {
    /// Nothing, until the player has changed.
    Wait,
    Play(PlayOrder),
}

/// Which frames the output is to play.
#[derive(Debug, Drop)]
pub struct PlayOrder {
    /// What the output names in its reports.
    pub ticket: u64,
    pub uri: Uri,
    /// The first frame that is to be played.
    pub first_frame: u64,
    pub volume: Volume,
}
