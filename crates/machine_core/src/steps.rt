// The steps of the player: what it does, and then what that changes of the saved half.
ghost use Rattle.std.specs.Prelude.{◌≡◌, ◌<◌, ◌≤◌, ◌+◌, length, IfOk, IfErr, IsOkAnd, OnErr, OnOk};
ghost use Rattle.std.specs.Option.{ForSome};
ghost use Rattle.play_queue.specs.Limits.{MAX_ENTRIES};
ghost use Rattle.player_core.specs.Answered.{OnStep};
ghost use Rattle.player_core.specs.Refusal.{AnswersIfMemory, refusal_of};
ghost use Rattle.state_codec.specs.Spelling.{ops_bytes};
ghost use Rattle.machine_core.specs.Size.{max_request_bytes};
ghost use Rattle.machine_core.specs.Steps.{step_of, step_in, step_ops, steps, moves};
ghost use Rattle.machine_core.specs.Work.{Admits, AddsNothing, HasRoom, IsRefusalOf, Performs, command_room};

use crate::machine::Machine;
use crate::step_ops::{bytes_of, make_changes};
use crate::told::failure_of;
use crate::work::{Failure, MAX_REQUEST_BYTES, Work};
use play_queue::Entries;
use player_core::{BrokenCause, Changes, PlaySettings, Player, PlayerError, Selector, SongLength};
use std::alloc::Global;

/// The ops of one step take at most so many bytes.
const LONGEST_STEP: usize = 24;

/// What the player is to do, where that may change what is saved. Times are in milliseconds.
#[derive(Clone, Copy, Debug)]
pub enum PlayerStep {
    /// `play` without an argument.
    Resume,
    Play(Selector),
    /// The named song is so long.
    Seek(Selector, SongLength, u32),
    Next,
    /// The song that was started under this ticket has ended.
    Ended(u64),
    /// The song that was started under this ticket could not be played on.
    Failed(u64, BrokenCause),
}

// The player makes the step.
pub(crate) fn take_step(
    player: &mut Player,
    entries: &Entries,
    settings: &PlaySettings,
    step: PlayerStep,
) -> Result<Changes, PlayerError>
    ensures ok { IfOk (step_of step entries.now settings.now player.old) (λ made. OnStep made player.new result) }
    ensures err { OnErr result (player.new ≡ player.old) }
    ensures answer { AnswersIfMemory (refusal_of (step_of step entries.now settings.now player.old)) result }
{
    match step {
        PlayerStep::Resume => player.resume(entries, settings),
        PlayerStep::Play(selector) => player.play(entries, settings, selector),
        PlayerStep::Seek(selector, song, milliseconds) => {
            player.seek(entries, settings, selector, song, milliseconds)
        }
        PlayerStep::Next => player.next(entries, settings),
        PlayerStep::Ended(ticket) => player.ended(entries, settings, ticket),
        PlayerStep::Failed(ticket, cause) => player.failed(entries, settings, ticket, cause),
    }
}

impl Machine {
    // Makes a step of the player, with what it changes of the saved half.
    pub(crate) fn make_step(
        &mut self,
        alloc: Global,
        step: PlayerStep,
        work: &mut Work,
    ) -> Result<(), Failure>
        requires { HasRoom command_room work.old }
        ensures { Performs (moves (step_in step self.old) self.old) self.old self.new work.old work.new result }
    {
        self.admit_step(alloc, step, work)?;
        let profile = self.saved.profile();
        let changes = match self.step(step) {
            Ok(changes) => changes,
            Err(error) => return Err(failure_of(error)),
        };
        work.push_changes(profile, changes);
        Ok(())
    }

    // The player makes the step, and the changes are made.
    fn step(&mut self, step: PlayerStep) -> Result<Changes, PlayerError>
        ensures ok { IfOk (step_in step self.old) (λ made. IfOk result (λ changes.
            (changes ≡ made.changes) × (self.new ≡ (steps made self.old).after))) }
        ensures within { IfOk result (λ changes. ForSome changes.removed (λ at. at ≤ MAX_ENTRIES)) }
        ensures err { OnErr result (self.new ≡ self.old) }
        ensures answer { AnswersIfMemory (refusal_of (step_in step self.old)) result }
    {
        let settings = self.settings();
        let entries = self.saved.queue().entries();
        let changes = take_step(&mut self.player, entries, &settings, step)?;
        make_changes(&mut self.saved, changes);
        self.kept.forget();
        Ok(changes)
    }

    // Takes the room for the ops of a step, where the request may make them.
    fn admit_step(&self, alloc: Global, step: PlayerStep, work: &mut Work) -> Result<(), Failure>
        ensures ok { OnOk result (IfOk (step_in step self.now) (λ made.
            Admits 4 (length (ops_bytes self.now.saved.profile (step_ops made.changes))) work.new)) }
        ensures nothing { AddsNothing work.old work.new }
        ensures same { work.new.text ≡ work.old.text }
        ensures refused { IfErr result (IsRefusalOf self.now.saved.profile (moves (step_in step self.now) self.now) work.old.size) }
    {
        let bytes = self.bytes_for(alloc, step, work.size)?;
        work.admit(4, bytes)
    }

    // How many bytes are enough for the ops of a step; exactly how many they take, where the request has no room for more. Then alone the
    // step is made on a copy of the player.
    fn bytes_for(&self, alloc: Global, step: PlayerStep, size: usize) -> Result<usize, Failure>
        ensures enough { IfOk result (λ bytes. IfOk (step_in step self.now) (λ made.
            length (ops_bytes self.now.saved.profile (step_ops made.changes)) ≤ bytes)) }
        ensures exact { IfOk result (λ bytes. max_request_bytes < size + bytes → IsOkAnd (step_in step self.now) (λ made.
            length (ops_bytes self.now.saved.profile (step_ops made.changes)) ≡ bytes)) }
        ensures refused { IfErr result (IsRefusalOf self.now.saved.profile (moves (step_in step self.now) self.now) size) }
    {
        if size <= MAX_REQUEST_BYTES - LONGEST_STEP {
            return Ok(LONGEST_STEP);
        }
        let mut player = self.player.try_clone(alloc)?;
        let settings = self.settings();
        let entries = self.saved.queue().entries();
        match take_step(&mut player, entries, &settings, step) {
            Ok(changes) => Ok(bytes_of(changes)),
            Err(error) => Err(failure_of(error)),
        }
    }
}
