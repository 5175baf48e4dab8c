// What the player does when entries leave the queue.
ghost use Rattle.std.specs.Prelude.{◌≡◌, ◌<◌, length, IsOkUnless, OnErr};
ghost use Rattle.player_core.specs.Answered.{OnStep};
ghost use Rattle.player_core.specs.Player.{left_out, stopped_without_song};
ghost use Rattle.player_core.specs.Reports.{gone_on_without, gone_in_pause, followed};

use super::Player;
use crate::block::Block;
use crate::changes::Changes;
use crate::choosing::choose;
use crate::followed::repeats_one;
use crate::manners::Manners;
use crate::placing::placed;
use crate::played::{go_on, make_room, stop_without_song};
use crate::playing::PlayState;
use crate::refusal::PlayerError;
use crate::removal::leave;
use crate::settings::PlaySettings;
use crate::staying::takes_at;
use play_queue::Entries;
use song_db::Uri;

impl Player {
    /// Entries leave the queue: those of a block, and those of dropped URIs; `entries` is the queue before.
    /// Their ids leave the played list. Where the current entry is among them, in play the next song that
    /// stays is started, with `single` taken as off, and else the player stops without a current song. As MPD has it, in pause the next
    /// song that stays is current then, stopped; and none is where the song would be followed by itself alone.
    ///
    /// The caller then takes the entries out of the queue, which can't be refused.
    pub fn follow_removal(
        &mut self,
        entries: &Entries,
        settings: &PlaySettings,
        block: Block,
        dropped: &[Uri],
    ) -> Result<Changes, PlayerError>
        ensures ok { OnStep (followed entries.now settings.now block dropped.now self.old) self.new result }
        ensures err { OnErr result (self.new ≡ self.old) }
        ensures answer { IsOkUnless result PlayerError.NoMemory }
    {
        let place = placed(entries, self.playing.current);
        let Some((at, current)) = place else {
            leave(&mut self.played, entries, block, dropped);
            return Ok(Changes::NONE);
        };
        if !takes_at(block, dropped, entries, at) {
            leave(&mut self.played, entries, block, dropped);
            return Ok(Changes::NONE);
        }
        match self.playing.state {
            PlayState::Play => self.go_on_without(entries, settings, block, dropped, at, current),
            PlayState::Pause => self.go_in_pause(entries, settings, block, dropped, at, current),
            PlayState::Stop => {
                self.leave_without_song(entries, block, dropped);
                Ok(Changes::NONE)
            }
        }
    }

    // Entries leave, and the player stops without a current song.
    fn leave_without_song(&mut self, entries: &Entries, block: Block, dropped: &[Uri])
        ensures { self.new ≡ stopped_without_song (left_out block dropped.now entries.now self.old) }
    {
        leave(&mut self.played, entries, block, dropped);
        stop_without_song(&mut self.playing);
    }

    // The current entry, which stands at a position, leaves, and the next song that stays is started.
    fn go_on_without(
        &mut self,
        entries: &Entries,
        settings: &PlaySettings,
        block: Block,
        dropped: &[Uri],
        at: usize,
        current: u32,
    ) -> Result<Changes, PlayerError>
        requires within { at < length entries.now }
        ensures ok { OnStep (gone_on_without entries.now settings.now block dropped.now self.old (at, current)) self.new result }
        ensures err { OnErr result (self.new ≡ self.old) }
        ensures answer { IsOkUnless result PlayerError.NoMemory }
    {
        if repeats_one(settings.manners, settings.options) {
            self.leave_without_song(entries, block, dropped);
            return Ok(Changes::NONE);
        }
        let random = settings.options.random;
        let choice = choose(
            entries,
            settings,
            block,
            dropped,
            &self.played,
            at,
            current,
            &mut self.words,
        );
        make_room(&mut self.played, random)?;
        leave(&mut self.played, entries, block, dropped);
        go_on(&mut self.playing, &mut self.played, random, choice);
        Ok(Changes {
            order: choice.order,
            ..Changes::NONE
        })
    }

    // The current entry leaves in pause.
    fn go_in_pause(
        &mut self,
        entries: &Entries,
        settings: &PlaySettings,
        block: Block,
        dropped: &[Uri],
        at: usize,
        current: u32,
    ) -> Result<Changes, PlayerError>
        requires within { at < length entries.now }
        ensures ok { OnStep (gone_in_pause settings.now.manners entries.now settings.now block dropped.now self.old (at, current))
            self.new result }
        ensures err { OnErr result (self.new ≡ self.old) }
        ensures answer { IsOkUnless result PlayerError.NoMemory }
    {
        match settings.manners {
            Manners::Named => {
                self.leave_without_song(entries, block, dropped);
                Ok(Changes::NONE)
            }
            Manners::Mpd => {
                let changes = self.go_on_without(entries, settings, block, dropped, at, current)?;
                self.playing.state = PlayState::Stop;
                self.playing.frame = 0;
                Ok(changes)
            }
        }
    }

    /// The number of the random order that `follow_removal` would begin at these entries; none where none begins. Before the removal, the
    /// caller can so know what it is going to save.
    pub fn order_after_removal(
        &self,
        entries: &Entries,
        settings: &PlaySettings,
        block: Block,
        dropped: &[Uri],
    ) -> Option<u64>
        ensures { result ≡ (followed entries.now settings.now block dropped.now self.now).changes.order }
    {
        let (at, current) = placed(entries, self.playing.current)?;
        if !takes_at(block, dropped, entries, at) {
            return None;
        }
        match self.playing.state {
            PlayState::Play => self.order_without(entries, settings, block, dropped, at, current),
            PlayState::Pause => match settings.manners {
                Manners::Named => None,
                Manners::Mpd => {
                    self.order_without(entries, settings, block, dropped, at, current)
                }
            },
            PlayState::Stop => None,
        }
    }

    // The number of the random order that begins where the current entry, which stands at a position, leaves and the next song is started.
    fn order_without(
        &self,
        entries: &Entries,
        settings: &PlaySettings,
        block: Block,
        dropped: &[Uri],
        at: usize,
        current: u32,
    ) -> Option<u64>
        requires within { at < length entries.now }
        ensures { result ≡ (gone_on_without entries.now settings.now block dropped.now self.now (at, current)).changes.order }
    {
        if repeats_one(settings.manners, settings.options) {
            return None;
        }
        let mut words = self.words_apart(settings);
        choose(
            entries,
            settings,
            block,
            dropped,
            &self.played,
            at,
            current,
            &mut words,
        )
        .order
    }
}
