// The end of a song, and `next`.
ghost use Rattle.std.specs.Prelude.{◌≡◌, IfOk, IsOkUnless, OnErr};
ghost use Rattle.player_core.specs.Answered.{OnStep};
ghost use Rattle.player_core.specs.Commands.{next_one};
ghost use Rattle.player_core.specs.Ending.{over, ended};
ghost use Rattle.player_core.specs.Refusal.{AnswersIfMemory, refusal_of};

use super::Player;
use crate::changes::Changes;
use crate::followed::{
    consumed, followed_by, go_on_or_stop, hold_if, is_on, is_oneshot, order_of, turns_off, waits,
};
use crate::options::Single;
use crate::placing::placed;
use crate::played::make_room;
use crate::playing::PlayState;
use crate::refusal::PlayerError;
use crate::removal::leave;
use crate::settings::PlaySettings;
use play_queue::Entries;

impl Player {
    /// The output has played the last frame. It counts in play, with the present ticket alone. With `single` the player then stops, and
    /// the song stays current, or under `repeat` plays again; as MPD has it, without `repeat` the next song is paused at its first frame.
    pub fn ended(
        &mut self,
        entries: &Entries,
        settings: &PlaySettings,
        ticket: u64,
    ) -> Result<Changes, PlayerError>
        ensures ok { OnStep (ended entries.now settings.now self.old ticket) self.new result }
        ensures err { OnErr result (self.new ≡ self.old) }
        ensures answer { IsOkUnless result PlayerError.NoMemory }
    {
        if self.playing.state != PlayState::Play || self.playing.ticket != ticket {
            return Ok(Changes::NONE);
        }
        self.finish(entries, settings, settings.options.single)
    }

    /// `next`: what the end of the song does in play, `consume` too, with `single` taken as off, and left alone. In pause it
    /// does the same, and what it starts plays. Refused by `NotPlaying` in stop.
    pub fn next(
        &mut self,
        entries: &Entries,
        settings: &PlaySettings,
    ) -> Result<Changes, PlayerError>
        ensures ok { IfOk (next_one entries.now settings.now self.old) (λ step. OnStep step self.new result) }
        ensures err { OnErr result (self.new ≡ self.old) }
        ensures answer { AnswersIfMemory (refusal_of (next_one entries.now settings.now self.old)) result }
    {
        if self.playing.state == PlayState::Stop {
            return Err(PlayerError::NotPlaying);
        }
        self.finish(entries, settings, Single::Off)
    }

    // The current song is over.
    pub(super) fn finish(
        &mut self,
        entries: &Entries,
        settings: &PlaySettings,
        single: Single,
    ) -> Result<Changes, PlayerError>
        ensures ok { OnStep (over entries.now settings.now single self.old) self.new result }
        ensures err { OnErr result (self.new ≡ self.old) }
        ensures answer { IsOkUnless result PlayerError.NoMemory }
    {
        let Some((at, current)) = placed(entries, self.playing.current) else {
            return Ok(Changes::NONE);
        };
        let options = settings.options;
        let consumes = is_on(options.consume);
        let next = followed_by(
            entries,
            settings,
            single,
            &self.played,
            at,
            current,
            &mut self.words,
        );
        make_room(&mut self.played, options.random)?;
        let block = consumed(entries, consumes, at);
        leave(&mut self.played, entries, block, &[]);
        go_on_or_stop(&mut self.playing, &mut self.played, options.random, next);
        let waits = waits(single, settings.manners, options.repeat);
        hold_if(&mut self.playing, waits);
        Ok(Changes {
            order: order_of(next),
            removed: if consumes { Some(at) } else { None },
            single_off: turns_off(single, settings.manners, self.playing.state),
            consume_off: is_oneshot(options.consume),
        })
    }
}
