// Songs are added to the queue, by any command that adds some.
ghost use Rattle.std.specs.Prelude.{◌≡◌, ◌≢◌, [], length};
ghost use Rattle.machine_core.specs.Adding.{adds, can_count, place_among, place_in};
ghost use Rattle.machine_core.specs.Named.{Finds};
ghost use Rattle.machine_core.specs.State.{shown_of};
ghost use Rattle.machine_core.specs.Work.{HasRoom, Performs, command_room};

use crate::machine::Machine;
use crate::work::{Failure, Work};
use play_queue::Target;
use state_codec::{Op, OpRefusal, QueueOp, RowNumbers};
use std::alloc::Global;

impl Machine {
    // Adds the songs of these rows at a place, or at the end, and answers no line.
    pub(crate) fn add_rows(
        &mut self,
        alloc: Global,
        to: Option<Target>,
        rows: RowNumbers,
        work: &mut Work,
    ) -> Result<(), Failure>
        requires { HasRoom command_room work.old }
        ensures { Performs (adds to rows [] self.old) self.old self.new work.old work.new result }
    {
        let at = self.place_in(to)?;
        self.edit(alloc, Op::Queue(QueueOp::Add { at, rows }), work)
    }

    // The position of a place in the queue: its end, if none is named.
    pub(crate) fn place_in(&self, to: Option<Target>) -> Result<u32, Failure>
        ensures { Finds (place_in to self.now) result }
    {
        let length = self.queue_length();
        match to {
            Some(target) => resolve(target, self.current_position(), length),
            None => Ok(length),
        }
    }

    // How many entries the queue has.
    pub(crate) fn queue_length(&self) -> u32
        ensures { result ≡ length self.now.saved.queue.entries }
    {
        self.saved.queue().entries().len() as u32
    }

    // The position of the current song. No word is drawn for it, as one is for the next song.
    pub(crate) fn current_position(&self) -> Option<usize>
        ensures { result ≡ (shown_of self.now).current }
    {
        let id = self.player.current()?;
        self.saved.queue().pos_of(id)
    }
}

// The position that a place names among so many entries.
pub(crate) fn resolve(target: Target, current: Option<usize>, length: u32) -> Result<u32, Failure>
    ensures found { Finds (place_among target current length) result }
    ensures memory { result ≢ Err Failure.NoMemory }
{
    match target.resolve(current, length as usize) {
        Ok(at) => Ok(at as u32),
        Err(refusal) => Err(Failure::from(OpRefusal::Queue(refusal))),
    }
}

// Whether a place is named by its position, or there is a current song to count it from.
pub(crate) fn can_count(to: Option<Target>, current: Option<usize>) -> bool
    ensures { result ≡ can_count to current }
{
    match to {
        None | Some(Target::At(_)) => true,
        Some(Target::After(_) | Target::Before(_)) => current.is_some(),
    }
}
