// The commands that set priorities.
ghost use Rattle.std.specs.Prelude.{◌≡◌, ◌<◌, [], map, IfOk};
ghost use Rattle.std.specs.List.{All};
ghost use Rattle.std.specs.Result.{result_map_both};
ghost use Rattle.command_text.specs.Masks.{all_in_mask};
ghost use Rattle.command_text.specs.declared.command.queue.QueueCommand.TheVariants as commands;
ghost use Rattle.play_queue.specs.Limits.{MAX_ENTRIES};
ghost use Rattle.state_codec.specs.declared.op.Op.TheVariants.{Queue as OfQueue};
ghost use Rattle.state_codec.specs.declared.op.queue_op.QueueOp.TheVariants.{Prio};
ghost use Rattle.machine_core.specs.Meaning.{edits};
ghost use Rattle.machine_core.specs.Spans.{FindsItems, spans_in};
ghost use Rattle.machine_core.specs.Queue.{alone, places_of_ids, queue_meaning};
ghost use Rattle.machine_core.specs.Work.{HasRoom, Performs, command_room};

use crate::machine::Machine;
use crate::span::span_in;
use crate::work::{Failure, Work};
use command_text::{CommandRefusal, EntryIds, PositionRange, PositionRanges};
use play_queue::Ranges;
use state_codec::{Op, OpRanges, QueueOp};
use std::alloc::{AllocError, Global};

impl Machine {
    // `prio`: the entries of some ranges.
    #[tactic(auto, unfolding(crate::specs::Queue::queue_meaning))]
    pub(super) fn set_priority(
        &mut self,
        alloc: Global,
        priority: u8,
        ranges: &PositionRanges,
        work: &mut Work,
    ) -> Result<(), Failure>
        requires { HasRoom command_room work.old }
        ensures { Performs (queue_meaning all_in_mask (commands.Priority priority ranges.now) self.old) self.old self.new work.old
            work.new result }
    {
        let spans = spans_in(alloc, ranges.as_slice(), self.queue_length())?;
        self.prioritize(alloc, priority, spans, work)
    }

    // `prioid`: the entries with some ids.
    #[tactic(auto, unfolding(crate::specs::Queue::queue_meaning))]
    pub(super) fn set_priority_of_ids(
        &mut self,
        alloc: Global,
        priority: u8,
        ids: &EntryIds,
        work: &mut Work,
    ) -> Result<(), Failure>
        requires { HasRoom command_room work.old }
        ensures { Performs (queue_meaning all_in_mask (commands.PriorityId priority ids.now) self.old) self.old self.new work.old work.new
            result }
    {
        let spans = self.spans_of_ids(alloc, ids.as_slice())?;
        self.prioritize(alloc, priority, spans, work)
    }

    // Each entry with one of these ids, as a range.
    fn spans_of_ids(&self, alloc: Global, ids: &[u32]) -> Result<Vec<(usize, usize)>, Failure>
        ensures { FindsItems (result_map_both (map alone) (λ refusal. refusal) (places_of_ids ids.now self.now)) result }
    {
        let queue = self.saved.queue();
        let _limit = queue.entries();
        let Ok(places) = queue.positions_of(alloc, ids)? else {
            return Err(Failure::Refused(CommandRefusal::NoSuchSong));
        };
        Ok(each_alone(alloc, &places)?)
    }

    // Sets a priority on the entries of some ranges. An op has room for more of them than a line does.
    fn prioritize(
        &mut self,
        alloc: Global,
        priority: u8,
        spans: Vec<(usize, usize)>,
        work: &mut Work,
    ) -> Result<(), Failure>
        requires { HasRoom command_room work.old }
        ensures { Performs (edits (OfQueue (Prio priority spans.items)) [] self.old) self.old self.new work.old work.new result }
    {
        let Some(ranges) = OpRanges::new(Ranges::new(alloc, spans)?) else {
            return Err(Failure::NoMemory);
        };
        let op = QueueOp::Prio { priority, ranges };
        self.edit(alloc, Op::Queue(op), work)
    }
}

// The positions of some RANGEs among so many, each as its start and its end.
fn spans_in(
    alloc: Global,
    ranges: &[PositionRange],
    length: u32,
) -> Result<Vec<(usize, usize)>, Failure>
    ensures { FindsItems (spans_in ranges.now length) result }
{
    let mut spans = Vec::with_capacity(alloc, ranges.len())?;
    for range in ranges {
        let span = span_in(*range, length)?;
        spans.push((span.start as usize, span.end as usize))?;
    }
    Ok(spans)
}

// Each position as a range.
fn each_alone(alloc: Global, places: &[usize]) -> Result<Vec<(usize, usize)>, AllocError>
    requires { All (λ at. at < MAX_ENTRIES) places.now }
    ensures { IfOk result (λ spans. spans.items ≡ map alone places.now) }
{
    places.iter().map(|at| (*at, *at + 1)).collect(alloc)
}
