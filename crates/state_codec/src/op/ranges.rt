// Ranges of a queue's positions, each with its end behind its start.
ghost use Rattle.std.specs.Prelude.{◌≡◌, Some, None, if◌then◌else◌};
ghost use Rattle.std.specs.List.{list_all};
ghost use Rattle.state_codec.specs.Numbers.{is_range, are_ranges, AreOpRanges};

use crate::op::row_numbers::MAX_COUNT;
use play_queue::Ranges;
use std::marker::Model;

/// Positions of the queue as ranges, in the order in which they were given: at most 4,294,967,295 of them, with ends
/// of at most 4,294,967,295.
#[derive(Debug, Drop)]
pub struct OpRanges {
    ranges: Ranges,
}

impl Model for OpRanges {
    ghost use Rattle.std.specs.Prelude.{ℕ, List};
    ghost use Rattle.state_codec.specs.Numbers.{AreOpRanges};

    ghost Value = { List (ℕ × ℕ) };

    ghost view = { λ r. r.ranges };

    ghost invariant = { λ r. AreOpRanges r.ranges };
}

impl OpRanges {
    /// These ranges; `None` where they are too many, or a position too great.
    pub fn new(ranges: Ranges) -> Option<OpRanges>
        ensures { result ≡ (if are_ranges ranges then Some ranges else None) }
    {
        if !are_ranges(ranges.as_slice()) {
            return None;
        }
        Some(OpRanges { ranges })
    }

    pub fn ranges(&self) -> &Ranges
        ensures ranges { result.now ≡ self.now }
        ensures within { AreOpRanges self.now }
    {
        &self.ranges
    }
}

fn are_ranges(ranges: &[(usize, usize)]) -> bool
    ensures { result ≡ are_ranges ranges.now }
{
    ranges.len() <= MAX_COUNT && are_in_range(ranges)
}

fn are_in_range(ranges: &[(usize, usize)]) -> bool
    ensures { result ≡ list_all is_range ranges.now }
{
    ranges.iter().all(|range| is_range(range))
}

fn is_range(range: &(usize, usize)) -> bool
    ensures { result ≡ is_range range.now }
{
    range.0 <= MAX_COUNT && range.1 <= MAX_COUNT
}
