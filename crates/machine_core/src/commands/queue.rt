// The commands of the queue.
ghost use Rattle.std.specs.Prelude.{◌≡◌, ◌<◌, true, length, IfOk};
ghost use Rattle.command_text.specs.declared.command.queue.QueueCommand.TheVariants as commands;
ghost use Rattle.command_text.specs.Masks.{all_in_mask};
ghost use Rattle.play_queue.specs.Limits.{MAX_ENTRIES};
ghost use Rattle.machine_core.specs.Memory.{grows, queue_takes_memory};
ghost use Rattle.machine_core.specs.Queue.{place_of_id, queue_length, queue_meaning};
ghost use Rattle.machine_core.specs.Spans.{span_in, span_or_all};
ghost use Rattle.machine_core.specs.Work.{HasRoom, Performs, command_room};

use crate::machine::Machine;
use crate::span::{Span, span_in, span_or_all};
use crate::work::{Failure, Work};
use command_text::{CommandRefusal, PositionRange, QueueCommand, TagMask};
use state_codec::{Op, QueueOp};
use std::alloc::Global;

mod adding;
mod moving;
mod priorities;
mod showing;
mod shuffling;

impl Machine {
    #[tactic(auto, unfolding(crate::specs::Queue::queue_meaning))]
    pub(super) fn perform_queue(
        &mut self,
        alloc: Global,
        mask: TagMask,
        command: QueueCommand<'_>,
        work: &mut Work,
    ) -> Result<(), Failure>
        requires { HasRoom command_room work.old }
        ensures performs { Performs (queue_meaning mask command.entry self.old) self.old self.new work.old work.new result }
        ensures memory { result ≡ Err Failure.NoMemory → queue_takes_memory command.entry self.old ≡ true }
    {
        match command {
            QueueCommand::Add(uri, to) => self.add_named(alloc, uri, to, work),
            QueueCommand::AddId(uri, to) => self.add_song(alloc, uri, to, work),
            QueueCommand::Changes(version, range) => {
                self.show_changes(alloc, mask, version, range, work)
            }
            QueueCommand::ChangesPositions(version, range) => {
                self.show_changed_places(alloc, version, range, work)
            }
            QueueCommand::Clear => self.clear_queue(work),
            QueueCommand::Delete(range) => self.delete_range(range, work),
            QueueCommand::DeleteId(id) => self.delete_id(id, work),
            QueueCommand::Files => self.show_files(work),
            QueueCommand::Info(range) => self.show_range(mask, range, work),
            QueueCommand::InfoId(id) => match id {
                None => self.show_queue(mask, work),
                Some(id) => self.show_id(mask, id, work),
            },
            QueueCommand::Move(range, to) => self.move_range(alloc, range, to, work),
            QueueCommand::MoveId(id, to) => self.move_id(alloc, id, to, work),
            QueueCommand::Priority(priority, ranges) => {
                self.set_priority(alloc, priority, &ranges, work)
            }
            QueueCommand::PriorityId(priority, ids) => {
                self.set_priority_of_ids(alloc, priority, &ids, work)
            }
            QueueCommand::Shuffle(range) => self.shuffle(alloc, range, work),
            QueueCommand::Swap(one, other) => self.swap(alloc, one, other, work),
            QueueCommand::SwapId(one, other) => self.swap_ids(alloc, one, other, work),
        }
    }

    // The positions of a RANGE of the queue.
    fn span(&self, range: PositionRange) -> Result<Span, CommandRefusal>
        ensures { result ≡ span_in range (queue_length self.now) }
    {
        span_in(range, self.queue_length())
    }

    // The positions of a RANGE of the queue, or all of them.
    fn span_or_all(&self, range: Option<PositionRange>) -> Result<Span, CommandRefusal>
        ensures { result ≡ span_or_all range (queue_length self.now) }
    {
        span_or_all(range, self.queue_length())
    }

    // The position of the entry with an id.
    fn place_of_id(&self, id: u32) -> Result<u32, CommandRefusal>
        ensures place { result ≡ place_of_id id self.now }
        ensures within { IfOk result (λ at. at < MAX_ENTRIES) }
    {
        match self.saved.queue().pos_of(id) {
            Some(at) => Ok(at as u32),
            None => Err(CommandRefusal::NoSuchSong),
        }
    }

    #[tactic(auto, unfolding(crate::specs::Queue::queue_meaning))]
    fn clear_queue(&mut self, work: &mut Work) -> Result<(), Failure>
        requires { HasRoom command_room work.old }
        ensures performs { Performs (queue_meaning all_in_mask commands.Clear self.old) self.old self.new work.old work.new result }
        ensures memory { result ≡ Err Failure.NoMemory → grows (queue_meaning all_in_mask commands.Clear self.old) ≡ true }
    {
        let end = self.queue_length();
        self.delete_entries(0, end, work)
    }

    #[tactic(auto, unfolding(crate::specs::Queue::queue_meaning))]
    fn delete_range(&mut self, range: PositionRange, work: &mut Work) -> Result<(), Failure>
        requires { HasRoom command_room work.old }
        ensures performs { Performs (queue_meaning all_in_mask (commands.Delete range) self.old) self.old self.new work.old work.new
            result }
        ensures memory { result ≡ Err Failure.NoMemory → grows (queue_meaning all_in_mask (commands.Delete range) self.old) ≡ true }
    {
        let span = self.span(range)?;
        self.delete_entries(span.start, span.end, work)
    }

    #[tactic(auto, unfolding(crate::specs::Queue::queue_meaning))]
    fn delete_id(&mut self, id: u32, work: &mut Work) -> Result<(), Failure>
        requires { HasRoom command_room work.old }
        ensures performs { Performs (queue_meaning all_in_mask (commands.DeleteId id) self.old) self.old self.new work.old work.new result }
        ensures memory { result ≡ Err Failure.NoMemory → grows (queue_meaning all_in_mask (commands.DeleteId id) self.old) ≡ true }
    {
        let at = self.place_of_id(id)?;
        self.delete_entries(at, at + 1, work)
    }

    #[tactic(auto, unfolding(crate::specs::Queue::queue_meaning))]
    fn swap(&mut self, alloc: Global, one: u32, other: u32, work: &mut Work) -> Result<(), Failure>
        requires { HasRoom command_room work.old }
        ensures performs { Performs (queue_meaning all_in_mask (commands.Swap one other) self.old) self.old self.new work.old work.new
            result }
        ensures memory { result ≡ Err Failure.NoMemory → grows (queue_meaning all_in_mask (commands.Swap one other) self.old) ≡ true }
    {
        self.edit(alloc, Op::Queue(QueueOp::Swap { one, other }), work)
    }

    #[tactic(auto, unfolding(crate::specs::Queue::queue_meaning))]
    fn swap_ids(
        &mut self,
        alloc: Global,
        one: u32,
        other: u32,
        work: &mut Work,
    ) -> Result<(), Failure>
        requires { HasRoom command_room work.old }
        ensures performs { Performs (queue_meaning all_in_mask (commands.SwapId one other) self.old) self.old self.new work.old work.new
            result }
        ensures memory { result ≡ Err Failure.NoMemory → grows (queue_meaning all_in_mask (commands.SwapId one other) self.old) ≡ true }
    {
        let one = self.place_of_id(one)?;
        let other = self.place_of_id(other)?;
        self.edit(alloc, Op::Queue(QueueOp::Swap { one, other }), work)
    }
}
