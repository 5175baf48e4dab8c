// The commands of what the daemon is set up with.
ghost use Rattle.std.specs.Prelude.{◌≡◌, true};
ghost use Rattle.machine_core.specs.Memory.{setup_takes_memory};
ghost use Rattle.machine_core.specs.Setup.{setup_meaning};
ghost use Rattle.machine_core.specs.Work.{HasRoom, Performs, command_room};

use crate::machine::Machine;
use crate::work::{Failure, Work};
use command_text::{SetupCommand, write_setup};

impl Machine {
    pub(super) fn perform_setup(
        &self,
        command: SetupCommand,
        work: &mut Work,
    ) -> Result<(), Failure>
        requires { HasRoom command_room work.old }
        ensures performs { Performs (setup_meaning command self.now) self.now self.now work.old work.new result }
        ensures memory { result ≡ Err Failure.NoMemory → setup_takes_memory command ≡ true }
    {
        match command {
            SetupCommand::BinaryLimit(_) | SetupCommand::Nothing => Ok(()),
            _ => self.tell_setup(command, work),
        }
    }

    fn tell_setup(&self, command: SetupCommand, work: &mut Work) -> Result<(), Failure>
        ensures { Performs (setup_meaning command self.now) self.now self.now work.old work.new result }
    {
        let mark = work.text.len();
        let written = write_setup(&mut work.text, command);
        work.keep(mark, written)
    }
}
