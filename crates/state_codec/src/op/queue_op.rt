// Changes of the queue.
use crate::op::ranges::OpRanges;
use crate::op::row_numbers::RowNumbers;

/// A change of the queue. Positions count from 0; a range goes from `start` up to, but not including, `end`.
#[derive(Debug, Drop)]
pub enum QueueOp {
    /// Songs are added in front of position `at`; they get the next ids.
    Add { at: u32, rows: RowNumbers },
    Delete { start: u32, end: u32 },
    /// The range is put so that its first entry stands at position `to` of the rest.
    Move { start: u32, end: u32, to: u32 },
    Swap { one: u32, other: u32 },
    /// The number of the random order grows, and the range is sorted by the words of that order.
    Shuffle { start: u32, end: u32 },
    /// A priority is set on the entries of some ranges.
    Prio { priority: u8, ranges: OpRanges },
}
