// One method a command: it performs what the command means. Those of a topic stand in a file of its name.
ghost use Rattle.std.specs.Prelude.{◌≡◌, ◌+◌, true, IfOk};
ghost use Rattle.machine_core.specs.Changed.{changed};
ghost use Rattle.machine_core.specs.Command.{meaning};
ghost use Rattle.machine_core.specs.Looks.{looked, looks_of, weighed};
ghost use Rattle.machine_core.specs.Memory.{takes_memory};
ghost use Rattle.machine_core.specs.Room.{under_room};
ghost use Rattle.machine_core.specs.Work.{CanKeepBy, HasRoom, Performs, PerformsAside, PerformsKept, command_room};

use crate::looks::Looks;
use crate::machine::Machine;
use crate::work::{Failure, Work};
use command_text::{Command, TagMask};
use idle_masks::Subsystems;
use profile::Profile;
use std::alloc::Global;

mod database;
mod finding;
mod lists;
mod playing;
mod queue;
mod saving;
mod settings;
mod setup;
mod status;
mod sticker;

impl Machine {
    /// Performs a command of a client that sees these tags, for whose end the answer has room, and says which subsystems it changed.
    /// Refused, or without memory, it leaves machine and answer as they were. Under the wide profile one by which the request would look at
    /// more than it may is refused before it looks at anything. Of an answer that is longer than any that is sent lines may be missing.
    ///
    /// Where the journal's disk has no room, one that would change what is saved is refused `DiskFull`, and what plays isn't kept.
    ///
    /// Where it changes what plays, the player's place is kept behind it, and where it changes playlists, the time of that: room for both
    /// is taken before.
    ///
    /// Memory is taken for the lines of a command, with the room behind them, for what it looks up and for what it changes; `NoMemory`
    /// comes of no command that does nothing of these.
    pub fn perform(
        &mut self,
        alloc: Global,
        mask: TagMask,
        command: Command<'_>,
        work: &mut Work,
        looks: &mut Looks,
    ) -> Result<Subsystems, Failure>
        requires room { HasRoom command_room work.old }
        requires keeps { CanKeepBy self.old.saved.profile work.old }
        ensures performs { PerformsKept (weighed self.old.saved.profile looks.old (looks_of command.entry self.old)
            (under_room self.old (meaning mask command.entry self.old))) self.old self.new work.old work.new result }
        ensures looks { looks.new ≡ looked self.old.saved.profile looks.old (looks_of command.entry self.old) }
        ensures changed { IfOk result (λ set. set ≡ changed self.old self.new) }
        ensures memory { result ≡ Err Failure.NoMemory → takes_memory command.entry self.old ≡ true }
    {
        looks.take(self.saved.profile(), self.looks_of(&command))?;
        self.perform_kept(alloc, mask, command, work)
    }

    // Performs it, and keeps the player's place and the playlists' time behind it.
    fn perform_kept(
        &mut self,
        alloc: Global,
        mask: TagMask,
        command: Command<'_>,
        work: &mut Work,
    ) -> Result<Subsystems, Failure>
        requires room { HasRoom command_room work.old }
        requires keeps { CanKeepBy self.old.saved.profile work.old }
        ensures performs { PerformsKept (under_room self.old (meaning mask command.entry self.old))
            self.old self.new work.old work.new result }
        ensures changed { IfOk result (λ set. set ≡ changed self.old self.new) }
        ensures memory { result ≡ Err Failure.NoMemory → takes_memory command.entry self.old ≡ true }
    {
        let profile = self.saved.profile();
        let keeping = self.keeping();
        let before = self.before();
        let made = work.ops.len();
        self.perform_aside(alloc, mask, command, profile, work)?;
        work.keep_place(self, keeping, &before);
        work.keep_time(self, keeping, made);
        Ok(self.changed_since(&before, &work.ops[made..]))
    }

    // Performs it, with room to keep place and time left free behind it.
    fn perform_aside(
        &mut self,
        alloc: Global,
        mask: TagMask,
        command: Command<'_>,
        profile: Profile,
        work: &mut Work,
    ) -> Result<(), Failure>
        requires room { HasRoom command_room work.old }
        requires under { profile ≡ self.old.saved.profile }
        ensures performs { PerformsAside (under_room self.old (meaning mask command.entry self.old))
            self.old self.new work.old work.new result }
        ensures memory { result ≡ Err Failure.NoMemory → takes_memory command.entry self.old ≡ true }
    {
        work.set_aside(profile)?;
        let done = self.dispatch_in_room(alloc, mask, command, work);
        work.give_back(profile);
        done
    }

    // The command of each topic.
    #[tactic(auto, unfolding(crate::specs::Command::meaning))]
    pub(crate) fn dispatch(
        &mut self,
        alloc: Global,
        mask: TagMask,
        command: Command<'_>,
        work: &mut Work,
    ) -> Result<(), Failure>
        requires { HasRoom command_room work.old }
        ensures performs { Performs (meaning mask command.entry self.old) self.old self.new work.old work.new result }
        ensures memory { result ≡ Err Failure.NoMemory → takes_memory command.entry self.old ≡ true }
    {
        match command {
            Command::Settings(command) => self.perform_settings(alloc, command, work),
            Command::Database(command) => self.perform_database(alloc, mask, command, work),
            Command::Queue(command) => self.perform_queue(alloc, mask, command, work),
            Command::Finding(command) => self.perform_finding(alloc, mask, command, work),
            Command::Lists(command) => self.perform_lists(alloc, mask, command, work),
            Command::Stickers(command) => self.perform_stickers(alloc, command, work),
            Command::Playing(command) => self.perform_playing(alloc, mask, command, work),
            // The daemon performs these.
            Command::Messages(_) | Command::Pictures(_) | Command::Session(_) => Ok(()),
            Command::Setup(command) => self.perform_setup(command, work),
        }
    }
}
