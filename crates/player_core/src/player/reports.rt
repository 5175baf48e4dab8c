// What the output reports, and what else changes beside the queue.
ghost use Rattle.std.specs.Prelude.{◌≡◌, None, Some, OnErr, OnOk, IsOkUnless};
ghost use Rattle.player_core.specs.Reports.{counts, fed, cut, turned};

use super::Player;
use crate::failure::PlayFailure;
use crate::played::make_room;
use crate::playing::PlayState;
use crate::refusal::PlayerError;
use crate::seek::frame_after;

impl Player {
    /// Whether a report with this ticket counts.
    pub fn counts(&self, ticket: u64) -> bool
        ensures { result ≡ counts self.now.state self.now.ticket ticket }
    {
        match self.playing.state {
            PlayState::Stop => false,
            PlayState::Play | PlayState::Pause => self.playing.ticket == ticket,
        }
    }

    /// The output has taken so many frames of the current song, which has so many in all. It counts in play
    /// and pause, with the present ticket alone; the position never passes the song's end.
    pub fn fed(&mut self, ticket: u64, frames: u64, total: u64)
        ensures { self.new ≡ fed self.old ticket frames total }
    {
        if self.counts(ticket) {
            self.playing.frame = frame_after(self.playing.frame, frames, total);
        }
    }

    /// The row of the current song has changed, and has so many frames now.
    pub fn cut(&mut self, frames: u64)
        ensures { self.new ≡ cut frames self.old }
    {
        self.playing.frame = self.playing.frame.min(frames);
    }

    /// The option `random` has changed: where it begins, the current song alone counts as played.
    pub fn turn_random(&mut self, random: bool) -> Result<(), PlayerError>
        ensures ok { OnOk result (self.new ≡ turned random self.old) }
        ensures err { OnErr result (self.new ≡ self.old) }
        ensures answer { IsOkUnless result PlayerError.NoMemory }
    {
        make_room(&mut self.played, random)?;
        self.played.clear();
        if random && let Some(id) = self.playing.current {
            let _ = self.played.insert(id);
        }
        Ok(())
    }

    /// `clearerror`.
    pub fn clear_error(&mut self)
        ensures { self.new ≡ record self.old { error = None } }
    {
        self.playing.error = None;
    }

    /// Shows a failure that is none of a song's.
    pub fn show(&mut self, failure: PlayFailure)
        ensures { self.new ≡ record self.old { error = Some failure } }
    {
        self.playing.error = Some(failure);
    }
}
