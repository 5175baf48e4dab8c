// `play`, `previous`, `pause` and `stop`.
ghost use Rattle.std.specs.Prelude.{◌≡◌, IfOk, IsOkUnless, OnErr, OnOk, Ok};
ghost use Rattle.player_core.specs.Answered.{OnStep};
ghost use Rattle.player_core.specs.Choice.{placed};
ghost use Rattle.player_core.specs.Commands.{named, played_from, resumed, paused_if, paused, halted, previous_one, stepped, gone_back};
ghost use Rattle.player_core.specs.Player.{stopped_without_song};
ghost use Rattle.player_core.specs.Refusal.{AnswersIfMemory, refusal_of};

use super::Player;
use crate::changes::Changes;
use crate::choice::Choice;
use crate::commanded::{begun, in_front, last_left, named, to_resume};
use crate::placing::placed;
use crate::played::{go_on, make_room, next_ticket, remove, start, stop_without_song};
use crate::playing::PlayState;
use crate::refusal::PlayerError;
use crate::selector::Selector;
use crate::settings::PlaySettings;
use play_queue::Entries;
use std::alloc::AllocError;

fn paused(switch: Option<bool>, state: PlayState) -> PlayState
    ensures { result ≡ paused switch state }
{
    match state {
        PlayState::Stop => PlayState::Stop,
        PlayState::Play => paused_if(switch.unwrap_or(true)),
        PlayState::Pause => paused_if(switch.unwrap_or(false)),
    }
}

fn paused_if(pauses: bool) -> PlayState
    ensures { result ≡ paused_if pauses }
{
    if pauses {
        PlayState::Pause
    } else {
        PlayState::Play
    }
}

impl Player {
    /// `play` or `playid` of an entry. Refused by `BadIndex` at a position past the end, and by `NoSuchSong`
    /// where no entry has the id.
    pub fn play(
        &mut self,
        entries: &Entries,
        settings: &PlaySettings,
        selector: Selector,
    ) -> Result<Changes, PlayerError>
        ensures ok { IfOk (named selector entries.now) (λ id. OnStep (played_from settings.now self.old id) self.new result) }
        ensures err { OnErr result (self.new ≡ self.old) }
        ensures answer { AnswersIfMemory (refusal_of (named selector entries.now)) result }
    {
        let id = named(entries, selector)?;
        let choice = begun(settings, self.playing.current, id);
        self.step(settings.options.random, choice)
    }

    /// `play` without an argument: pause goes on, and stop starts the current song, else the first one: that
    /// at position 0, or in random mode the least of a new round. In an empty queue it does nothing.
    pub fn resume(
        &mut self,
        entries: &Entries,
        settings: &PlaySettings,
    ) -> Result<Changes, PlayerError>
        ensures ok { OnStep (resumed self.old.state entries.now settings.now self.old) self.new result }
        ensures err { OnErr result (self.new ≡ self.old) }
        ensures answer { IsOkUnless result PlayerError.NoMemory }
    {
        match self.playing.state {
            PlayState::Play => Ok(Changes::NONE),
            PlayState::Pause => {
                self.playing.state = PlayState::Play;
                Ok(Changes::NONE)
            }
            PlayState::Stop => {
                let choice = to_resume(
                    entries,
                    settings,
                    self.playing.current,
                    &self.played,
                    &mut self.words,
                );
                if choice.id.is_none() {
                    return Ok(Changes::NONE);
                }
                self.step(settings.options.random, choice)
            }
        }
    }

    // Goes on to a choice.
    pub(super) fn step(&mut self, random: bool, choice: Choice) -> Result<Changes, PlayerError>
        ensures ok { OnStep (stepped random self.old choice) self.new result }
        ensures err { OnErr result (self.new ≡ self.old) }
        ensures answer { IsOkUnless result PlayerError.NoMemory }
    {
        make_room(&mut self.played, random)?;
        go_on(&mut self.playing, &mut self.played, random, choice);
        Ok(Changes {
            order: choice.order,
            ..Changes::NONE
        })
    }

    /// `pause`, to `true` or `false`, or the other way without a switch. The ticket stays. In stop it does nothing.
    pub fn pause(&mut self, switch: Option<bool>)
        ensures { self.new ≡ record self.old { state = paused switch self.old.state } }
    {
        self.playing.state = paused(switch, self.playing.state);
    }

    /// `stop`: the song stays current, at frame 0 under a new ticket. In stop it does nothing.
    pub fn stop(&mut self)
        ensures { self.new ≡ halted self.old.state self.old }
    {
        if self.playing.state != PlayState::Stop {
            self.playing.state = PlayState::Stop;
            self.playing.frame = 0;
            self.playing.ticket = next_ticket(self.playing.ticket);
        }
    }

    /// Stops, and no song stays current. The played ones stay.
    pub fn drop_song(&mut self)
        ensures { self.new ≡ stopped_without_song self.old }
    {
        stop_without_song(&mut self.playing);
    }

    /// `previous`: the song in front of the current one is started; in random mode the one that was started
    /// before it. Refused by `NotPlaying` in stop.
    pub fn previous(
        &mut self,
        entries: &Entries,
        settings: &PlaySettings,
    ) -> Result<(), PlayerError>
        ensures ok { OnOk result (previous_one entries.now settings.now self.old ≡ Ok self.new) }
        ensures err { OnErr result (self.new ≡ self.old) }
        ensures answer { AnswersIfMemory (refusal_of (previous_one entries.now settings.now self.old)) result }
    {
        if self.playing.state == PlayState::Stop {
            return Err(PlayerError::NotPlaying);
        }
        Ok(self.go_back(entries, settings)?)
    }

    fn go_back(&mut self, entries: &Entries, settings: &PlaySettings) -> Result<(), AllocError>
        ensures ok { OnOk result (self.new ≡ gone_back entries.now settings.now self.old (placed entries.now self.old.current)) }
        ensures err { OnErr result (self.new ≡ self.old) }
    {
        let Some((at, current)) = placed(entries, self.playing.current) else {
            return Ok(());
        };
        let options = settings.options;
        make_room(&mut self.played, options.random)?;
        let id = if options.random {
            remove(&mut self.played, current);
            last_left(&self.played, current)
        } else {
            in_front(entries, options.repeat, at, current)
        };
        start(&mut self.playing, &mut self.played, options.random, id);
        Ok(())
    }
}
