//! One event: its own work, and then what clients that wait are told.
ghost use Rattle.std.specs.Prelude.{◌≡◌, ◌≤◌, Some, length, IfOk, OnErr};
ghost use Rattle.machine_core.specs.Size.{max_request_bytes};
ghost use Rattle.state_codec.specs.Applied.{all_applied};
ghost use Rattle.state_codec.specs.Spelling.{body_bytes};
ghost use Rattle.daemon_core.specs.Outcome.{IsOutcome};

use crate::daemon::Core;
use crate::event::Event;
use crate::handled::Handled;
use crate::outcome::Outcome;
use crate::parts::CoreParts;
use machine_core::laws;
use no_memory::NoMemory;
use std::alloc::Global;

impl CoreParts {
    ghost use Rattle.std.specs.Prelude.{◌<◌, [], IfSome};
    ghost use Rattle.daemon_core.specs.Handled.{Does};
    ghost use Rattle.daemon_core.specs.Outcome.{command_count};
    ghost use Rattle.daemon_core.specs.Parts.{state_of};
    ghost use Rattle.daemon_core.specs.Reported.{IsReported};
    ghost use Rattle.daemon_core.specs.Room.{CanCloseAll, IsReadyToTell};
    ghost use Rattle.daemon_core.specs.Step.{acted};

    // What an event does before clients that wait are told.
    fn handle(&mut self, alloc: Global, event: Event) -> Result<Handled, NoMemory>
        requires ready { IsReadyToTell self.old }
        requires closes { CanCloseAll self.old }
        requires fresh { self.old.talks.notified.items ≡ [] }
        ensures ok { IfOk result (λ handled. Does (acted (state_of self.old) event handled.outcome.refused_at) self.new handled) }
        ensures place { IfOk result (λ handled. IfSome handled.outcome.refused_at (λ k. k < command_count event)) }
        ensures reported { IfOk result (λ handled. IsReported event self.old.machine) }
        ensures err { OnErr result (state_of self.new ≡ state_of self.old) }
    {
        match event {
            Event::Connect(client) => self.connect(alloc, client),
            Event::Request(client, request) => self.handle_request(alloc, client, request),
            Event::Gone(client) => Ok(self.forget(alloc, client)),
            Event::Fed { ticket, frames } => {
                let happened = self.machine.fed(alloc, ticket, frames);
                Ok(Handled::happened(alloc, happened))
            }
            Event::Ended { ticket } => {
                let happened = self.machine.ended(alloc, ticket)?;
                Ok(Handled::happened(alloc, happened))
            }
            Event::Broken { ticket, cause } => {
                let happened = self.machine.broken(alloc, ticket, cause)?;
                Ok(Handled::happened(alloc, happened))
            }
            Event::Batch { job, changes } => {
                let happened = self.machine.batch(alloc, job, changes)?;
                Ok(Handled::happened(alloc, happened))
            }
            Event::Missing { job, songs } => {
                let happened = self.machine.missed(alloc, job, songs)?;
                Ok(Handled::happened(alloc, happened))
            }
            Event::ScanDone { job } => {
                let happened = self.machine.scan_done(alloc, job);
                Ok(Handled::happened(alloc, happened))
            }
            Event::Clock(time) => {
                self.machine.set_clock(time);
                Ok(Handled::nothing(alloc))
            }
            Event::Keep { ticket } => {
                let happened = self.machine.keep(alloc, ticket)?;
                Ok(Handled::happened(alloc, happened))
            }
            Event::Resume { plays } => {
                let happened = self.machine.resume(alloc, plays)?;
                Ok(Handled::happened(alloc, happened))
            }
            Event::Room { is_there } => {
                let happened = self.machine.tell_room(alloc, is_there)?;
                Ok(Handled::happened(alloc, happened))
            }
            Event::Picture(client, told) => self.read_picture(alloc, client, told),
        }
    }
}

impl Core {
    /// Handles one event whole. Where memory is refused at a command, the commands before it stand and the answer says so; at a request
    /// an `Err` comes only where there is no memory for such an answer, for what each client may be told or for the numbers of those that
    /// may be closed, at any other event also where its own growth is refused. Then nothing was done.
    pub fn step(&mut self, alloc: Global, event: Event) -> Result<Outcome, NoMemory>
        ensures ok { IfOk result (λ outcome. IsOutcome self.old event outcome self.new) }

        // The ops, applied to what was saved, give what is to be saved, and fit into one record.
        ensures rebuilt { IfOk result (λ outcome. all_applied outcome.ops.items self.old.machine.saved ≡ Some self.new.machine.saved) }
        ensures fits { IfOk result (λ outcome.
            length (body_bytes self.old.machine.saved.profile outcome.ops.items) ≤ max_request_bytes) }

        ensures err { OnErr result (self.new ≡ self.old) }
    {
        laws::ops_rebuild_the_state();
        self.parts.take_room(alloc)?;
        self.parts.talks.begin();
        let Handled {
            mut outcome,
            changed,
        } = self.parts.handle(alloc, event)?;
        outcome.outputs = self.parts.tell_waiting(alloc, changed, outcome.outputs);
        Ok(outcome)
    }
}
