// Why a call of the player is refused.
ghost use Rattle.std.specs.Prelude.{◌≡◌};
ghost use Rattle.player_core.specs.Refusal.{number_of};
ghost use Rattle.player_core.specs.declared.refusal.PlayerError.TheVariants.{NoMemory};

use std::alloc::AllocError;
use thiserror::Error;

/// Why a call of `Player` was refused. The player stays as it was.
#[derive(Clone, Copy, Debug, PartialEq, Eq, Error)]
pub enum PlayerError {
    /// A position is past the end of the queue.
    #[error("bad song index")]
    BadIndex,
    /// No entry has the id.
    #[error("no such song")]
    NoSuchSong,
    /// The player is stopped.
    #[error("not playing")]
    NotPlaying,
    #[error("out of memory")]
    NoMemory,
}

impl PlayerError {
    /// The number of the refusal: 22, 23, 33, or 7.
    pub fn number(self) -> u8
        ensures { result ≡ number_of self }
    {
        match self {
            PlayerError::BadIndex => 22,
            PlayerError::NoSuchSong => 23,
            PlayerError::NotPlaying => 33,
            PlayerError::NoMemory => 7,
        }
    }
}

impl From<AllocError> for PlayerError {
    ghost from_gives = { λ _ e. e ≡ NoMemory };

    fn from(_error: AllocError) -> Self {
        PlayerError::NoMemory
    }
}
