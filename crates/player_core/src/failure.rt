// Why a song could not be played on, and the error that the player shows of it.
ghost use Rattle.std.specs.Prelude.{◌≡◌, IfOk, string_bytes};
ghost use Rattle.player_core.specs.FailureText.{text_of};
ghost use Rattle.player_core.specs.declared.failure.PlayFailure.TheVariants.{Withheld};

use itoa::Buffer;
use song_db::Uri;
use std::alloc::{AllocError, Global};

/// Why a song could not be played on.
#[derive(Clone, Copy, Debug)]
pub enum BrokenCause {
    /// Its file could not be read.
    Source,
    /// The output took nothing more.
    Output,
}

/// The error that the player shows until `clearerror` clears it, or the start of a song that doesn't follow one that is passed by.
#[derive(Debug, Drop)]
pub enum PlayFailure {
    /// The song at this URI could not be read. It stays when its entry leaves the queue.
    CannotPlay(Uri),
    OutputFailed,
    /// An update would drop so many songs of so many, and dropped none.
    Withheld { missing: usize, songs: usize },
}

impl PlayFailure {
    /// The text that `status` shows.
    pub fn text(&self, alloc: Global) -> Result<String, AllocError>
        ensures { IfOk result (λ text. string_bytes text ≡ text_of self.now) }
    {
        match self {
            PlayFailure::CannotPlay(uri) => {
                let mut text = String::from_str(alloc, "cannot play ")?;
                text.push_str(uri.as_str())?;
                Ok(text)
            }
            PlayFailure::OutputFailed => String::from_str(alloc, "output failed"),
            PlayFailure::Withheld { missing, songs } => withheld_text(alloc, *missing, *songs),
        }
    }

    /// The same failure once more, in memory of its own.
    pub fn try_clone(&self, alloc: Global) -> Result<PlayFailure, AllocError>
        ensures { IfOk result (λ failure. failure ≡ self.now) }
    {
        match self {
            PlayFailure::CannotPlay(uri) => Ok(PlayFailure::CannotPlay(uri.try_clone(alloc)?)),
            PlayFailure::OutputFailed => Ok(PlayFailure::OutputFailed),
            PlayFailure::Withheld { missing, songs } => Ok(PlayFailure::Withheld {
                missing: *missing,
                songs: *songs,
            }),
        }
    }
}

// What an update that dropped nothing says.
fn withheld_text(alloc: Global, missing: usize, songs: usize) -> Result<String, AllocError>
    ensures { IfOk result (λ text. string_bytes text ≡ text_of (Withheld missing songs)) }
{
    let mut text = String::from_str(alloc, "update would drop ")?;
    text.push_str(Buffer::new().format(missing))?;
    text.push_str(" of ")?;
    text.push_str(Buffer::new().format(songs))?;
    text.push_str(" songs: is the music there?")?;
    Ok(text)
}
