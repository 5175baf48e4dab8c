// What a player shows.
ghost use Rattle.std.specs.Prelude.{◌≡◌};
ghost use Rattle.std.specs.Option.{option_copied};

use super::Player;
use crate::failure::PlayFailure;
use crate::playing::PlayState;

impl Player {
    pub fn state(&self) -> PlayState
        ensures { result ≡ self.now.state }
    {
        self.playing.state
    }

    /// The id of the current entry.
    pub fn current(&self) -> Option<u32>
        ensures { result ≡ self.now.current }
    {
        self.playing.current
    }

    /// The ticket of the last start or seek, or of `stop`; 0 before the first.
    pub fn ticket(&self) -> u64
        ensures { result ≡ self.now.ticket }
    {
        self.playing.ticket
    }

    /// The position in the current song, in frames.
    pub fn frame(&self) -> u64
        ensures { result ≡ self.now.frame }
    {
        self.playing.frame
    }

    /// The ids that were started in this random round, by their last start.
    pub fn played(&self) -> &[u32]
        ensures { result.now ≡ self.now.played }
    {
        self.played.as_slice()
    }

    pub fn error(&self) -> Option<&PlayFailure>
        ensures { option_copied result ≡ self.now.error }
    {
        self.playing.error.as_ref()
    }
}
