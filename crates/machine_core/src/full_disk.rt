// What the machine does while the journal's disk is full. Under the first profile it is never told of that.
ghost use Rattle.std.specs.Prelude.{◌≡◌, ◌≤◌, ◌&&◌, true, Err, IfOk, OnOk, OnErr};
ghost use Rattle.machine_core.specs.Command.{meaning};
ghost use Rattle.machine_core.specs.Happening.{HasHappened};
ghost use Rattle.machine_core.specs.Memory.{takes_memory};
ghost use Rattle.machine_core.specs.Reports.{happens};
ghost use Rattle.machine_core.specs.Room.{catches_up, caught, full, is_idle, told_of, under_room, when_room, without_room};
ghost use Rattle.machine_core.specs.Size.{max_request_bytes};
ghost use Rattle.machine_core.specs.State.{keeping, lacks_room};
ghost use Rattle.machine_core.specs.Steps.{step_full, steps, unsaved, without_consume};
ghost use Rattle.machine_core.specs.Work.{HasRoom, Performs, command_room};

use crate::happened::Happened;
use crate::machine::Machine;
use crate::scanning::nothing;
use crate::steps::{PlayerStep, take_step};
use crate::work::{Failure, KEEP_COUNT, MAX_REQUEST_BYTES, Work};
use command_text::{Command, CommandRefusal, TagMask};
use idle_masks::Subsystems;
use no_memory::NoMemory;
use player_core::{PlaySettings, PlayState, Player, PlayerError, Single};
use profile::Profile;
use std::alloc::Global;

// Where no byte can be recorded each record is too large.
fn told_full(refusal: CommandRefusal) -> CommandRefusal
    ensures { result ≡ full refusal }
{
    match refusal {
        CommandRefusal::RequestTooLarge => CommandRefusal::DiskFull,
        other => other,
    }
}

// How a command ended that had no byte for an op.
fn told_so(done: Result<(), Failure>) -> Result<(), Failure>
    ensures { result ≡ told_of done }
{
    match done {
        Ok(()) => Ok(()),
        Err(Failure::Refused(refusal)) => Err(Failure::Refused(told_full(refusal))),
        Err(Failure::NoMemory) => Err(Failure::NoMemory),
    }
}

// The settings under which no entry leaves the queue.
fn without_consume(settings: PlaySettings) -> PlaySettings
    ensures { result ≡ without_consume settings }
{
    let mut settings = settings;
    settings.options.consume = Single::Off;
    settings
}

// Whether nothing was started in this life.
fn is_idle(player: &Player) -> bool
    ensures { result ≡ is_idle player.now }
{
    let is_stopped = match player.state() {
        PlayState::Stop => true,
        PlayState::Pause | PlayState::Play => false,
    };
    is_stopped && player.current().is_none() && player.ticket() == 0 && player.played().is_empty()
}

impl Machine {
    /// Whether what is saved can't change, since the journal's disk has no room: under the first profile that is never so.
    pub fn lacks_room(&self) -> bool
        ensures { result ≡ lacks_room self.now }
    {
        match self.saved.profile() {
            Profile::Named => false,
            Profile::Wide => !self.has_room,
        }
    }

    // What is kept behind a change is kept as under this profile.
    pub(crate) fn keeping(&self) -> Profile
        ensures { result ≡ keeping self.now }
    {
        if self.lacks_room() {
            return Profile::Named;
        }
        self.saved.profile()
    }

    // Performs a command, where there is room for what it changes or without any.
    pub(crate) fn dispatch_in_room(
        &mut self,
        alloc: Global,
        mask: TagMask,
        command: Command<'_>,
        work: &mut Work,
    ) -> Result<(), Failure>
        requires { HasRoom command_room work.old }
        ensures performs { Performs (under_room self.old (meaning mask command.entry self.old)) self.old self.new work.old work.new result }
        ensures memory { result ≡ Err Failure.NoMemory → takes_memory command.entry self.old ≡ true }
    {
        if self.lacks_room() {
            return self.dispatch_full(alloc, mask, command, work);
        }
        self.dispatch(alloc, mask, command, work)
    }

    // Performs a command where nothing that is saved can change: it has no byte for an op.
    fn dispatch_full(
        &mut self,
        alloc: Global,
        mask: TagMask,
        command: Command<'_>,
        work: &mut Work,
    ) -> Result<(), Failure>
        requires { HasRoom command_room work.old }
        ensures performs { Performs (without_room (meaning mask command.entry self.old)) self.old self.new work.old work.new result }
        ensures memory { result ≡ Err Failure.NoMemory → takes_memory command.entry self.old ≡ true }
    {
        let size = work.fill();
        let done = self.dispatch(alloc, mask, command, work);
        work.empty(size);
        told_so(done)
    }

    // The player alone makes the step, as if no entry left the queue.
    fn step_alone(&mut self, step: PlayerStep) -> Result<(), PlayerError>
        ensures ok { IfOk (step_full step self.old) (λ made. OnOk result (self.new ≡ record self.old { player = made.player })) }
        ensures err { OnErr result (self.new ≡ self.old) }
    {
        let settings = without_consume(self.settings());
        let entries = self.saved.queue().entries();
        let _changes = take_step(&mut self.player, entries, &settings, step)?;
        self.kept.forget();
        Ok(())
    }

    // The player makes a step that is refused for want of memory alone, and what it would change of what is saved stays as it is.
    pub(crate) fn step_unsaved(
        &mut self,
        alloc: Global,
        step: PlayerStep,
    ) -> Result<Happened, NoMemory>
        ensures ok { IfOk (step_full step self.old) (λ made. IfOk result
            (HasHappened (happens (steps (unsaved made) self.old) self.old) self.old self.new)) }
        ensures err { OnErr result (self.new ≡ self.old) }
    {
        let before = self.before();
        if self.step_alone(step).is_err() {
            return Err(NoMemory);
        }
        let changed = self.changed_since(&before, &[]);
        Ok(Happened {
            ops: Vec::new(alloc),
            changed,
        })
    }

    /// It is told whether the journal's disk has room. Once there is room again, a random round begins with the song that is current, and
    /// where the player is is kept. Without memory the machine stays as it was.
    pub fn tell_room(&mut self, alloc: Global, is_there: bool) -> Result<Happened, NoMemory>
        ensures ok { IfOk result (HasHappened (when_room is_there self.old) self.old self.new) }
        ensures err { OnErr result (self.new ≡ self.old) }
    {
        if self.is_back(is_there) {
            return self.catch_up(alloc);
        }
        self.has_room = is_there;
        Ok(nothing(alloc))
    }

    // Whether there is room again.
    fn is_back(&self, is_there: bool) -> bool
        ensures { result ≡ (is_there && lacks_room self.now) }
    {
        is_there && self.lacks_room()
    }

    // There is room, and a random round begins with the song that is current.
    fn turn_back(&mut self) -> Result<(), PlayerError>
        ensures ok { OnOk result (self.new ≡ caught self.old) }
        ensures err { OnErr result (self.new ≡ self.old) }
    {
        let random = self.saved.options().random;
        self.player.turn_random(random)?;
        self.has_room = true;
        self.kept.forget();
        Ok(())
    }

    // There is room again, and what was not kept meanwhile is kept.
    fn catch_up(&mut self, alloc: Global) -> Result<Happened, NoMemory>
        requires { lacks_room self.old ≡ true }
        ensures ok { IfOk result (HasHappened (catches_up self.old) self.old self.new) }
        ensures err { OnErr result (self.new ≡ self.old) }
    {
        if is_idle(&self.player) {
            self.has_room = true;
            return Ok(nothing(alloc));
        }
        let mut ops = Vec::with_capacity(alloc, KEEP_COUNT)?;
        if self.turn_back().is_err() {
            return Err(NoMemory);
        }
        let current = self.player.current();
        let _ = self.put_place(current, &mut ops);
        Ok(Happened {
            ops,
            changed: Subsystems::none(),
        })
    }
}

impl Work {
    ghost use Rattle.std.specs.Prelude.{◌≡◌};
    ghost use Rattle.machine_core.specs.Size.{max_request_bytes};

    // Takes all bytes that a record has left, and answers how many were taken before.
    pub(crate) fn fill(&mut self) -> usize
        ensures before { result ≡ self.old.size }
        ensures size { self.new.size ≡ max_request_bytes }
        ensures text { self.new.text ≡ self.old.text }
        ensures ops { self.new.ops ≡ self.old.ops }
    {
        let size = self.size;
        self.size = MAX_REQUEST_BYTES;
        size
    }

    // As many are taken as before.
    pub(crate) fn empty(&mut self, size: usize)
        requires { size ≤ max_request_bytes }
        ensures size { self.new.size ≡ size }
        ensures text { self.new.text ≡ self.old.text }
        ensures ops { self.new.ops ≡ self.old.ops }
    {
        self.size = size;
    }
}
