// The latest stamp of each block of positions, by which most blocks are told to have no entry that has changed since.
ghost use Rattle.std.specs.Prelude.{◌≡◌, ◌≤◌, ◌++◌, length, slice_range, IfOk, OnOk};
ghost use Rattle.play_queue.specs.Latest.{AreLatest, AreRaised, Between, later_than};

use crate::entries::Entries;
use crate::limits::MAX_ENTRIES;
use std::alloc::{AllocError, Global};

/// How many positions a block has.
pub(crate) const SPAN: usize = 256;

/// How many blocks there are: they have room for all entries that there may be.
pub(crate) const BLOCKS: usize = 256;

// Raises the blocks of a range of positions to a stamp.
pub(crate) fn raise_latest(latest: &mut [u32; BLOCKS], start: usize, end: usize, stamp: u32)
    requires { end ≤ MAX_ENTRIES }
    ensures { AreRaised latest.old latest.new (Between start end) stamp }
{
    if start < end {
        for block in start / SPAN..(end - 1) / SPAN + 1 {
            latest[block] = latest[block].max(stamp);
        }
    }
}

// The positions of the entries with a stamp later than a version.
pub(crate) fn later_than(
    alloc: Global,
    entries: &Entries,
    latest: &[u32; BLOCKS],
    version: u32,
) -> Result<Vec<usize>, AllocError>
    requires few { length entries.now ≤ MAX_ENTRIES }
    requires latest { AreLatest latest.now entries.now }
    ensures { IfOk result (λ positions. positions.items ≡ later_than version 0 entries.now) }
{
    let mut positions = Vec::new(alloc);
    for block in 0..entries.len().div_ceil(SPAN) {
        let start = block * SPAN;
        let end = (start + SPAN).min(entries.len());
        if version < latest[block] {
            push_later(&mut positions, entries, start, end, version)?;
        }
    }
    Ok(positions)
}

// Adds those of a range.
fn push_later(
    positions: &mut Vec<usize>,
    entries: &Entries,
    start: usize,
    end: usize,
    version: u32,
) -> Result<(), AllocError>
    requires forward { start ≤ end }
    requires in_range { end ≤ length entries.now }
    ensures { OnOk result (positions.new.items ≡ positions.old.items ++ later_than version start (slice_range entries.now start end)) }
{
    for at in start..end {
        if version < entries.stamp(at) {
            positions.push(at)?;
        }
    }
    Ok(())
}
