// What follows a song that can't be played on.
ghost use Rattle.std.specs.Prelude.{◌≡◌, ◌<◌, ◌-◌, length, IfOk, IsOkUnless, OnErr, OnOk};
ghost use Rattle.player_core.specs.Answered.{OnStep};
ghost use Rattle.player_core.specs.Reports.{failure, broken, passes_by, is_through, failures_in, passed, passes, failed};

use super::Player;
use super::ordering::current_entry;
use crate::changes::Changes;
use crate::failure::{BrokenCause, PlayFailure};
use crate::followed::{is_on, repeats_one};
use crate::manners::Manners;
use crate::options::Single;
use crate::playing::PlayState;
use crate::refusal::PlayerError;
use crate::settings::PlaySettings;
use play_queue::Entries;
use song_db::Uri;
use std::alloc::{AllocError, Global};

// The failure of a song at a URI.
fn failure(alloc: Global, cause: BrokenCause, uri: &Uri) -> Result<PlayFailure, AllocError>
    ensures { IfOk result (λ made. made ≡ failure cause uri.now) }
{
    match cause {
        BrokenCause::Source => Ok(PlayFailure::CannotPlay(uri.try_clone(alloc)?)),
        BrokenCause::Output => Ok(PlayFailure::OutputFailed),
    }
}

// Whether a song is passed by that could not be played on in this state.
fn passes_by(manners: Manners, cause: BrokenCause, state: PlayState) -> bool
    ensures { result ≡ passes_by manners cause state }
{
    match manners {
        Manners::Named => false,
        Manners::Mpd => match cause {
            BrokenCause::Output => false,
            BrokenCause::Source => match state {
                PlayState::Play => true,
                PlayState::Stop | PlayState::Pause => false,
            },
        },
    }
}

// Whether a round of the queue is through with one more song that can't be read.
fn is_through(entries: &Entries, settings: &PlaySettings, failures: usize) -> bool
    ensures { result ≡ is_through entries.now settings.now failures }
{
    let others = entries.len().saturating_sub(1);
    repeats_one(settings.manners, settings.options) || others <= failures
}

// The entries in a row that could not be read, with one more, of so many; one that leaves isn't counted.
fn failures_in(consumes: bool, order: Option<u64>, failures: usize, _count: usize) -> usize
    requires { failures < _count }
    ensures { result ≡ failures_in consumes order failures }
{
    match order {
        Some(_) => 0,
        None if consumes => failures,
        None => failures + 1,
    }
}

impl Player {
    /// The current song could not be played on. It counts in play and pause, with the present ticket alone: the player stops, and the song
    /// stays current, with its error.
    ///
    /// As MPD has it, a song that can't be read while it plays is passed by: it is over, under `consume` too, and what follows it without
    /// `single` is started, but the error is shown. Where nothing follows, the player stops without a current song. It isn't passed by
    /// where as many entries in a row, with it, could not be read as the queue has, not counting those that left; a random round that
    /// begins counts anew. Nor is a song that would be followed by itself alone.
    pub fn failed(
        &mut self,
        entries: &Entries,
        settings: &PlaySettings,
        ticket: u64,
        cause: BrokenCause,
    ) -> Result<Changes, PlayerError>
        ensures ok { OnStep (failed entries.now settings.now self.old ticket cause) self.new result }
        ensures err { OnErr result (self.new ≡ self.old) }
        ensures answer { IsOkUnless result PlayerError.NoMemory }
    {
        let Some(entry) = current_entry(entries, self.playing.current) else {
            return Ok(Changes::NONE);
        };
        let uri = entry.uri.as_uri();
        if self.passes(entries, settings, ticket, cause) {
            return self.pass(entries, settings, uri);
        }
        self.break_off(ticket, cause, uri)?;
        Ok(Changes::NONE)
    }

    // Whether the song is passed by.
    fn passes(
        &self,
        entries: &Entries,
        settings: &PlaySettings,
        ticket: u64,
        cause: BrokenCause,
    ) -> bool
        ensures { result ≡ passes entries.now settings.now self.now ticket cause }
    {
        passes_by(settings.manners, cause, self.playing.state)
            && self.playing.ticket == ticket
            && !is_through(entries, settings, self.playing.failures)
    }

    // The song, at this URI, is passed by.
    fn pass(
        &mut self,
        entries: &Entries,
        settings: &PlaySettings,
        uri: &Uri,
    ) -> Result<Changes, PlayerError>
        requires { self.old.failures < length entries.now - 1 }
        ensures ok { OnStep (passed entries.now settings.now self.old uri.now) self.new result }
        ensures err { OnErr result (self.new ≡ self.old) }
        ensures answer { IsOkUnless result PlayerError.NoMemory }
    {
        let failures = self.playing.failures;
        let error = PlayFailure::CannotPlay(uri.try_clone(*self.played.allocator())?);
        let changes = self.finish(entries, settings, Single::Off)?;
        self.playing.error = Some(error);
        let consumes = is_on(settings.options.consume);
        self.playing.failures = failures_in(consumes, changes.order, failures, entries.len());
        Ok(changes)
    }

    // The player stops, and the song, at this URI, stays current.
    fn break_off(&mut self, ticket: u64, cause: BrokenCause, uri: &Uri) -> Result<(), AllocError>
        ensures ok { OnOk result (self.new ≡ broken self.old ticket cause uri.now) }
        ensures err { OnErr result (self.new ≡ self.old) }
    {
        if self.counts(ticket) {
            let error = failure(*self.played.allocator(), cause, uri)?;
            self.playing.state = PlayState::Stop;
            self.playing.error = Some(error);
        }
        Ok(())
    }
}
