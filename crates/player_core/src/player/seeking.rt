// `seek`, `seekid` and `seekcur`.
ghost use Rattle.std.specs.Prelude.{◌≡◌, IfOk, OnErr, OnOk, Ok, min};
ghost use Rattle.player_core.specs.Answered.{OnStep};
ghost use Rattle.player_core.specs.Commands.{named};
ghost use Rattle.player_core.specs.Refusal.{AnswersIfMemory, refusal_of};
ghost use Rattle.player_core.specs.Seek.{frame_at, put_to, still, sought, sought_here};

use super::Player;
use crate::changes::Changes;
use crate::choice::Choice;
use crate::commanded::{begun, named};
use crate::playing::PlayState;
use crate::refusal::PlayerError;
use crate::seek::{SeekTime, SongLength};
use crate::selector::Selector;
use crate::settings::PlaySettings;
use play_queue::Entries;

impl Player {
    /// `seek` or `seekid` of an entry, to a time in milliseconds: it is started there, at most at the end of
    /// the song, which is the named one; pause stays pause. Refused by `BadIndex` at a position past the end,
    /// and by `NoSuchSong` where no entry has the id.
    pub fn seek(
        &mut self,
        entries: &Entries,
        settings: &PlaySettings,
        selector: Selector,
        song: SongLength,
        milliseconds: u32,
    ) -> Result<Changes, PlayerError>
        ensures ok { IfOk (named selector entries.now) (λ id. OnStep (sought settings.now song milliseconds self.old id) self.new result) }
        ensures err { OnErr result (self.new ≡ self.old) }
        ensures answer { AnswersIfMemory (refusal_of (named selector entries.now)) result }
    {
        let id = named(entries, selector)?;
        let choice = begun(settings, self.playing.current, id);
        let state = self.playing.state;
        let changes = self.step(settings.options.random, choice)?;
        self.put_to(state, song.frame_at(milliseconds).min(song.frames));
        Ok(changes)
    }

    /// `seekcur`: the current song goes to a time, at most its end. Refused by `NotPlaying` in stop.
    pub fn seek_current(
        &mut self,
        settings: &PlaySettings,
        song: SongLength,
        time: SeekTime,
    ) -> Result<(), PlayerError>
        ensures ok { OnOk result (sought_here settings.now song time self.old ≡ Ok self.new) }
        ensures err { OnErr result (self.new ≡ self.old) }
        ensures answer { AnswersIfMemory (refusal_of (sought_here settings.now song time self.old)) result }
    {
        let state = self.playing.state;
        if state == PlayState::Stop {
            return Err(PlayerError::NotPlaying);
        }
        let Some(id) = self.playing.current else {
            return Ok(());
        };
        let frame = song.frame_from(self.playing.frame, time);
        let again = Choice {
            id: Some(id),
            order: None,
        };
        let _changes = self.step(settings.options.random, again)?;
        self.put_to(state, frame);
        Ok(())
    }

    // Puts a song that was just started to a frame. Pause stays pause.
    fn put_to(&mut self, state: PlayState, frame: u64)
        ensures { self.new ≡ record self.old { state = still state; frame = frame } }
    {
        self.playing.state = match state {
            PlayState::Pause => PlayState::Pause,
            PlayState::Play | PlayState::Stop => PlayState::Play,
        };
        self.playing.frame = frame;
    }
}
