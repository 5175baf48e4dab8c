// The commands that move entries of the queue.
ghost use Rattle.std.specs.Prelude.{◌≡◌, ◌≢◌, true, option_map};
ghost use Rattle.command_text.specs.Masks.{all_in_mask};
ghost use Rattle.command_text.specs.declared.command.queue.QueueCommand.TheVariants as commands;
ghost use Rattle.machine_core.specs.Memory.{grows};
ghost use Rattle.machine_core.specs.Named.{Finds};
ghost use Rattle.machine_core.specs.Queue.{in_rest, is_held, is_relative, moves, place_in_rest, queue_meaning};
ghost use Rattle.machine_core.specs.Work.{HasRoom, Performs, command_room};

use crate::adding::{can_count, resolve};
use crate::machine::Machine;
use crate::span::Span;
use crate::work::{Failure, Work};
use command_text::{CommandRefusal, PositionRange};
use play_queue::Target;
use state_codec::{Op, QueueOp};
use std::alloc::Global;

// Whether the place is counted from the current song.
fn is_relative(to: Target) -> bool
    ensures { result ≡ is_relative to }
{
    match to {
        Target::At(_) => false,
        Target::After(_) | Target::Before(_) => true,
    }
}

// Whether the current song is one of the block.
pub(super) fn is_held(block: Span, current: Option<usize>) -> bool
    ensures { result ≡ is_held block current }
{
    match current {
        Some(current) => block.start as usize <= current && current < block.end as usize,
        None => false,
    }
}

// Where an entry that isn't of the block stands in the rest.
fn in_rest(block: Span, at: usize) -> usize
    ensures { result ≡ in_rest block at }
{
    if at < block.start as usize {
        return at;
    }
    at.saturating_sub(block.count() as usize)
}

impl Machine {
    #[tactic(auto, unfolding(crate::specs::Queue::queue_meaning))]
    pub(super) fn move_range(
        &mut self,
        alloc: Global,
        range: PositionRange,
        to: Target,
        work: &mut Work,
    ) -> Result<(), Failure>
        requires { HasRoom command_room work.old }
        ensures performs { Performs (queue_meaning all_in_mask (commands.Move range to) self.old) self.old self.new work.old work.new
            result }
        ensures memory { result ≡ Err Failure.NoMemory → grows (queue_meaning all_in_mask (commands.Move range to) self.old) ≡ true }
    {
        let current = self.current_position();
        if !can_count(Some(to), current) {
            return Err(Failure::Refused(CommandRefusal::NoCurrentSong));
        }
        let block = self.span(range)?;
        self.move_block(alloc, block, to, work)
    }

    #[tactic(auto, unfolding(crate::specs::Queue::queue_meaning))]
    pub(super) fn move_id(
        &mut self,
        alloc: Global,
        id: u32,
        to: Target,
        work: &mut Work,
    ) -> Result<(), Failure>
        requires { HasRoom command_room work.old }
        ensures performs { Performs (queue_meaning all_in_mask (commands.MoveId id to) self.old) self.old self.new work.old work.new
            result }
        ensures memory { result ≡ Err Failure.NoMemory → grows (queue_meaning all_in_mask (commands.MoveId id to) self.old) ≡ true }
    {
        let start = self.place_of_id(id)?;
        let end = start + 1;
        self.move_block(alloc, Span { start, end }, to, work)
    }

    // Moves a block to a place in the rest.
    fn move_block(
        &mut self,
        alloc: Global,
        block: Span,
        to: Target,
        work: &mut Work,
    ) -> Result<(), Failure>
        requires { HasRoom command_room work.old }
        ensures performs { Performs (moves block to self.old) self.old self.new work.old work.new result }
        ensures memory { result ≡ Err Failure.NoMemory → grows (moves block to self.old) ≡ true }
    {
        let at = self.place_in_rest(to, block)?;
        let op = QueueOp::Move {
            start: block.start,
            end: block.end,
            to: at,
        };
        self.edit(alloc, Op::Queue(op), work)
    }

    // The position of a place in the rest without a block.
    fn place_in_rest(&self, to: Target, block: Span) -> Result<u32, Failure>
        ensures found { Finds (place_in_rest to block self.now) result }
        ensures memory { result ≢ Err Failure.NoMemory }
    {
        let current = self.current_position();
        if is_relative(to) && is_held(block, current) {
            return Err(Failure::Refused(CommandRefusal::BadIndex));
        }
        let rest = self.queue_length().saturating_sub(block.count());
        resolve(to, rest_position(block, current), rest)
    }
}

// Where the current song stands in the rest, if it isn't of the block.
fn rest_position(block: Span, current: Option<usize>) -> Option<usize>
    ensures { result ≡ option_map (in_rest block) current }
{
    match current {
        Some(current) => Some(in_rest(block, current)),
        None => None,
    }
}
