// What plays, but for the songs that were played before.
use crate::failure::PlayFailure;

/// Whether something plays, as `state` in `status` of the MPD protocol reference 0.23 tells it.
#[derive(Clone, Copy, Debug, PartialEq, Eq)]
pub enum PlayState {
    Stop,
    Play,
    Pause,
}

// The player without its played list.
#[derive(Drop)]
pub struct Playing {
    pub state: PlayState,
    pub current: Option<u32>,
    pub ticket: u64,
    pub frame: u64,
    pub error: Option<PlayFailure>,
    // How many entries in a row could not be read, up to the present one.
    pub failures: usize,
}
