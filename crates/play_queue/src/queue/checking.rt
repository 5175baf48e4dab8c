// What edits are refused for, and whether they would change anything. No call takes memory.
ghost use Rattle.std.specs.Prelude.{length, OnOk};
ghost use Rattle.play_queue.specs.Changes.{TellsMove, TellsSwap, TellsPriority};
ghost use Rattle.play_queue.specs.Fits.{IsRange, IsMove, ArePositions, HasRoom};
ghost use Rattle.play_queue.specs.Refusal.{Answers};
ghost use Rattle.play_queue.specs.Restamp.{AreRanges};
ghost use Rattle.play_queue.specs.Refused.{range_refusal, move_refusal, swap_refusal, add_refusal, ranges_refusal};

use super::Queue;
use crate::limits::{MAX_ENTRIES, MAX_ID};
use crate::priority::{has_bad, has_other};
use crate::ranges::Ranges;
use crate::refusal::QueueError;

impl Queue {
    /// What `add_at` of so many URIs would be refused for, but for want of memory.
    pub fn check_add(&self, at: usize, count: usize) -> Result<(), QueueError>
        ensures answer { Answers (add_refusal self.now at count) result }
        ensures fits { OnOk result (HasRoom self.now at count) }
    {
        let len = self.entries.len();
        if len < at {
            return Err(QueueError::BadIndex);
        }
        if MAX_ENTRIES - len < count {
            return Err(QueueError::QueueFull);
        }
        let left = (MAX_ID + 1 - self.next_id) as usize;
        if left < count {
            return Err(QueueError::IdsSpent);
        }
        Ok(())
    }

    /// What `delete_range` would be refused for, and a shuffle of the range, but for want of memory.
    pub fn check_range(&self, start: usize, end: usize) -> Result<(), QueueError>
        ensures answer { Answers (range_refusal self.now.entries start end) result }
        ensures fits { OnOk result (IsRange (length self.now.entries) start end) }
    {
        if end < start || self.entries.len() < end {
            return Err(QueueError::BadIndex);
        }
        Ok(())
    }

    /// What `move_range` would be refused for.
    pub fn check_move(&self, start: usize, end: usize, to: usize) -> Result<(), QueueError>
        ensures answer { Answers (move_refusal self.now.entries start end to) result }
        ensures fits { OnOk result (IsMove (length self.now.entries) start end to) }
    {
        self.check_range(start, end)?;
        if self.entries.len() - (end - start) < to {
            return Err(QueueError::BadIndex);
        }
        Ok(())
    }

    /// What `swap` would be refused for.
    pub fn check_swap(&self, one: usize, other: usize) -> Result<(), QueueError>
        ensures answer { Answers (swap_refusal self.now.entries one other) result }
        ensures fits { OnOk result (ArePositions (length self.now.entries) one other) }
    {
        let len = self.entries.len();
        if len <= one || len <= other {
            return Err(QueueError::BadIndex);
        }
        Ok(())
    }

    /// What `set_prio` would be refused for.
    pub fn check_prio(&self, ranges: &Ranges) -> Result<(), QueueError>
        ensures answer { Answers (ranges_refusal self.now.entries ranges.now) result }
        ensures fits { OnOk result (AreRanges ranges.now (length self.now.entries)) }
    {
        if has_bad(ranges.as_slice(), self.entries.len()) {
            return Err(QueueError::BadIndex);
        }
        Ok(())
    }

    /// Whether `move_range`, where it isn't refused, would change anything: not where the block is empty or stays where it is.
    pub fn would_move(&self, start: usize, end: usize, to: usize) -> bool
        ensures { TellsMove self.now.entries start end to result }
    {
        let _version = self.version;
        start < end && start != to
    }

    /// Whether `swap`, where it isn't refused, would change anything: not where both positions are one.
    pub fn would_swap(&self, one: usize, other: usize) -> bool
        ensures { TellsSwap self.now.entries one other result }
    {
        let _version = self.version;
        one != other
    }

    /// Whether `set_prio`, where it isn't refused, would change anything: not where each entry has the priority
    /// already. It looks at each of those entries once.
    pub fn would_set_prio(&self, ranges: &Ranges, priority: u8) -> bool
        ensures { TellsPriority self.now.entries ranges.now priority result }
    {
        !has_bad(ranges.as_slice(), self.entries.len())
            && has_other(self.entries.entries(), ranges.merged(), priority)
    }
}
