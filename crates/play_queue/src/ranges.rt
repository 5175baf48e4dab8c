// Positions that a request names as ranges.
ghost use Rattle.std.specs.Prelude.{◌≡◌, ℕ, ◌||◌, IfOk, OnOk};
ghost use Rattle.play_queue.specs.Entries.{is_in_some};
ghost use Rattle.play_queue.specs.Ranges.{is_in_range, AreByStart, AreNotEmpty, AreMerged};

use std::alloc::{AllocError, Global};
use std::marker::Model;

/// Positions of a queue, as ranges: each from a first position up to, but not including, an end.
///
/// The ranges stay as they were given; beside them stand the same positions as ranges that don't meet, so that all
/// edits look at a position once, however many ranges it lies in.
#[derive(Debug, Drop)]
pub struct Ranges {
    given: Vec<(usize, usize)>,
    merged: Vec<(usize, usize)>,
}

impl Model for Ranges {
    ghost use Rattle.std.specs.Prelude.{ℕ, List};
    ghost use Rattle.play_queue.specs.Ranges.{AreMerged};

    ghost Value = { List (ℕ × ℕ) };

    ghost view = { λ r. r.given.items };

    ghost invariant = { λ r. AreMerged r.given.items r.merged.items };
}

impl Ranges {
    /// These ranges. It takes memory for as many more, and sorts those.
    pub fn new(alloc: Global, given: Vec<(usize, usize)>) -> Result<Ranges, AllocError>
        ensures { IfOk result (λ ranges. ranges ≡ given.items) }
    {
        let mut sorted: Vec<(usize, usize)> = given.iter().copied().collect(alloc)?;
        sorted.sort_unstable_by_key(|range| range.0);
        let merged = merge(alloc, &sorted)?;
        Ok(Ranges { given, merged })
    }

    /// The ranges as they were given.
    pub fn as_slice(&self) -> &[(usize, usize)]
        ensures { result.now ≡ self.now }
    {
        self.given.as_slice()
    }

    // The same positions, as ranges that don't meet.
    pub(crate) fn merged(&self) -> &[(usize, usize)]
        ensures { AreMerged self.now result.now }
    {
        self.merged.as_slice()
    }
}

// The positions of ranges that rise by their starts, as ranges that don't meet.
fn merge(alloc: Global, sorted: &[(usize, usize)]) -> Result<Vec<(usize, usize)>, AllocError>
    requires { AreByStart sorted.now }
    ensures { IfOk result (λ merged. AreMerged sorted.now merged.items) }
{
    let mut merged = Vec::new(alloc);
    let mut start = 0;
    let mut end = 0;
    for range in sorted {
        if range.0 <= end {
            end = end.max(range.1);
        } else {
            push_some(&mut merged, (start, end))?;
            start = range.0;
            end = range.1;
        }
    }
    push_some(&mut merged, (start, end))?;
    Ok(merged)
}

// Adds a range, if it isn't empty.
fn push_some(ranges: &mut Vec<(usize, usize)>, range: (usize, usize)) -> Result<(), AllocError>
    ensures positions { OnOk result ((at : ℕ) → is_in_some ranges.new.items at ≡ (is_in_some ranges.old.items at || is_in_range range at)) }
    ensures some { OnOk result (AreNotEmpty ranges.old.items → AreNotEmpty ranges.new.items) }
{
    if range.0 < range.1 {
        ranges.push(range)?;
    }
    Ok(())
}
