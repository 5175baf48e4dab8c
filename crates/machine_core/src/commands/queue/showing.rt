// The commands that show entries of the queue.
ghost use Rattle.std.specs.Prelude.{◌≡◌, IfOk, None, Some};
ghost use Rattle.command_text.specs.Masks.{all_in_mask};
ghost use Rattle.command_text.specs.declared.command.queue.QueueCommand.TheVariants as commands;
ghost use Rattle.machine_core.specs.Queue.{changed_in, queue_meaning};
ghost use Rattle.machine_core.specs.Work.{Performs};

use crate::answer_entries::{
    write_files, write_places, write_position, write_positions, write_span,
};
use crate::machine::Machine;
use crate::span::Span;
use crate::work::{Failure, Work};
use command_text::{PositionRange, TagMask};
use play_queue::Queue;
use std::alloc::{AllocError, Global};

// The positions of a span whose entries have changed since a version.
fn changed_in(
    alloc: Global,
    queue: &Queue,
    version: u32,
    span: Span,
) -> Result<Vec<usize>, AllocError>
    ensures { IfOk result (λ positions. positions.items ≡ changed_in queue.now version span) }
{
    let mut positions = queue.changes_since(alloc, version)?;
    positions.retain(|at| span.holds(*at));
    Ok(positions)
}

impl Machine {
    // `playlistinfo`: the entries of a range, or all.
    #[tactic(auto, unfolding(crate::specs::Queue::queue_meaning))]
    pub(super) fn show_range(
        &self,
        mask: TagMask,
        range: Option<PositionRange>,
        work: &mut Work,
    ) -> Result<(), Failure>
        ensures { Performs (queue_meaning mask (commands.Info range) self.now) self.now self.now work.old work.new result }
    {
        let span = self.span_or_all(range)?;
        if work.is_long() {
            return work.keep_none();
        }
        let mark = work.text.len();
        let written = write_span(&mut work.text, mask, &self.saved, span);
        work.keep(mark, written)
    }

    // `playlist`: the files of all entries, numbered.
    #[tactic(auto, unfolding(crate::specs::Queue::queue_meaning))]
    pub(super) fn show_files(&self, work: &mut Work) -> Result<(), Failure>
        ensures { Performs (queue_meaning all_in_mask commands.Files self.now) self.now self.now work.old work.new result }
    {
        let span = Span {
            start: 0,
            end: self.queue_length(),
        };
        if work.is_long() {
            return work.keep_none();
        }
        let mark = work.text.len();
        let written = write_files(&mut work.text, self.saved.queue().entries(), span);
        work.keep(mark, written)
    }

    // `playlistid`: all entries.
    #[tactic(auto, unfolding(crate::specs::Queue::queue_meaning))]
    pub(super) fn show_queue(&self, mask: TagMask, work: &mut Work) -> Result<(), Failure>
        ensures { Performs (queue_meaning mask (commands.InfoId None) self.now) self.now self.now work.old work.new result }
    {
        let span = Span {
            start: 0,
            end: self.queue_length(),
        };
        if work.is_long() {
            return work.keep_none();
        }
        let mark = work.text.len();
        let written = write_span(&mut work.text, mask, &self.saved, span);
        work.keep(mark, written)
    }

    // `playlistid`: the entry with an id.
    #[tactic(auto, unfolding(crate::specs::Queue::queue_meaning))]
    pub(super) fn show_id(&self, mask: TagMask, id: u32, work: &mut Work) -> Result<(), Failure>
        ensures { Performs (queue_meaning mask (commands.InfoId (Some id)) self.now) self.now self.now work.old work.new result }
    {
        let at = self.place_of_id(id)?;
        let mark = work.text.len();
        let written = write_position(&mut work.text, mask, &self.saved, at as usize);
        work.keep(mark, written)
    }

    // `plchanges`: the entries of a range that have changed since a version.
    #[tactic(auto, unfolding(crate::specs::Queue::queue_meaning))]
    pub(super) fn show_changes(
        &self,
        alloc: Global,
        mask: TagMask,
        version: u32,
        range: Option<PositionRange>,
        work: &mut Work,
    ) -> Result<(), Failure>
        ensures { Performs (queue_meaning mask (commands.Changes version range) self.now) self.now self.now work.old work.new result }
    {
        let span = self.span_or_all(range)?;
        let positions = changed_in(alloc, self.saved.queue(), version, span)?;
        if work.is_long() {
            return work.keep_none();
        }
        let mark = work.text.len();
        let written = write_positions(&mut work.text, mask, &self.saved, &positions);
        work.keep(mark, written)
    }

    // `plchangesposid`: the same by position and id alone.
    #[tactic(auto, unfolding(crate::specs::Queue::queue_meaning))]
    pub(super) fn show_changed_places(
        &self,
        alloc: Global,
        version: u32,
        range: Option<PositionRange>,
        work: &mut Work,
    ) -> Result<(), Failure>
        ensures { Performs (queue_meaning all_in_mask (commands.ChangesPositions version range) self.now)
            self.now self.now work.old work.new result }
    {
        let span = self.span_or_all(range)?;
        let queue = self.saved.queue();
        let positions = changed_in(alloc, queue, version, span)?;
        if work.is_long() {
            return work.keep_none();
        }
        let mark = work.text.len();
        let written = write_places(&mut work.text, queue.entries(), &positions);
        work.keep(mark, written)
    }
}
