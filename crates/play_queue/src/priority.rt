// Priorities that are set on the entries of ranges, and what they stamp.
ghost use Rattle.std.specs.Prelude.{◌≡◌, ◌≢◌, ℕ, ◌≤◌, ◌<◌, ◌++◌, true, length, map, take, drop, replicate, slice_range, slice_index_or};
ghost use Rattle.std.specs.Bool.{OnTrue, OnFalse};
ghost use Rattle.play_queue.specs.Entries.{is_in_some};
ghost use Rattle.play_queue.specs.Latest.{AreLatest};
ghost use Rattle.play_queue.specs.Refused.{has_bad};
ghost use Rattle.play_queue.specs.Restamp.{raised, raised_in, reprioritized, next_version, AreRanges};
ghost use Rattle.play_queue.specs.declared.entry.Entry.{Entry};

use crate::entries::Entries;
use crate::latest::{BLOCKS, raise_latest};
use crate::limits::{MAX_ENTRIES, MAX_VERSION};

// Whether a range ends before it begins, or past the end of so many entries.
pub(crate) fn has_bad(ranges: &[(usize, usize)], len: usize) -> bool
    ensures { result ≡ has_bad ranges.now len }
{
    ranges
        .iter()
        .any(|range| range.1 < range.0 || len < range.1)
}

// Whether an entry from `start` up to, but not including, `end` has another priority.
fn has_other_in(entries: &Entries, start: usize, end: usize, priority: u8) -> bool
    requires { end ≤ length entries.now }
    ensures yes { OnTrue result ((k : ℕ) × (start ≤ k) × (k < end) × ((d : Entry) → (slice_index_or entries.now k d).priority ≢ priority)) }
    ensures no { OnFalse result ((k : ℕ) (d : Entry) → start ≤ k → k < end → (slice_index_or entries.now k d).priority ≡ priority) }
{
    for at in start..end {
        if entries.at(at).priority != priority {
            return true;
        }
    }
    false
}

// Whether an entry at a position of some range has another priority.
pub(crate) fn has_other(entries: &Entries, ranges: &[(usize, usize)], priority: u8) -> bool
    requires { AreRanges ranges.now (length entries.now) }
    ensures yes { OnTrue result ((k : ℕ) × (k < length entries.now) × (is_in_some ranges.now k ≡ true)
        × ((d : Entry) → (slice_index_or entries.now k d).priority ≢ priority)) }
    ensures no { OnFalse result ((k : ℕ) (d : Entry) → k < length entries.now → is_in_some ranges.now k ≡ true
        → (slice_index_or entries.now k d).priority ≡ priority) }
{
    for range in ranges {
        if has_other_in(entries, range.0, range.1, priority) {
            return true;
        }
    }
    false
}

// Sets the priority on each entry at a position of some range, and gives those that had another one a new stamp, as `restamp` does.
pub(crate) fn prioritize(
    entries: &mut Entries,
    latest: &mut [u32; BLOCKS],
    ranges: &[(usize, usize)],
    priority: u8,
    version: u32,
) -> u32
    requires ranges { AreRanges ranges.now (length entries.old) }
    requires within { version ≤ MAX_VERSION }
    requires few { length entries.old ≤ MAX_ENTRIES }
    ensures version { result ≡ next_version version }
    ensures entries { entries.new ≡ reprioritized version ranges.now priority entries.old }
    ensures begun { version ≡ MAX_VERSION → latest.new ≡ replicate BLOCKS 1 }
    ensures raised { version ≢ MAX_VERSION → AreLatest latest.old entries.old → AreLatest latest.new entries.new }
{
    if version == MAX_VERSION {
        raise_in(entries, latest, ranges, priority, 1);
        entries.stamp_all(1);
        *latest = [1; BLOCKS];
        return 1;
    }
    raise_in(entries, latest, ranges, priority, version + 1);
    version + 1
}

fn raise_in(
    entries: &mut Entries,
    latest: &mut [u32; BLOCKS],
    ranges: &[(usize, usize)],
    priority: u8,
    stamp: u32,
)
    requires ranges { AreRanges ranges.now (length entries.old) }
    requires few { length entries.old ≤ MAX_ENTRIES }
    ensures entries { entries.new ≡ raised_in ranges.now priority stamp entries.old }
    ensures latest { AreLatest latest.old entries.old → AreLatest latest.new entries.new }
{
    for range in ranges {
        raise_range(entries, range.0, range.1, priority, stamp);
        raise_latest(latest, range.0, range.1, stamp);
    }
}

fn raise_range(entries: &mut Entries, start: usize, end: usize, priority: u8, stamp: u32)
    requires forward { start ≤ end }
    requires in_range { end ≤ length entries.old }
    ensures { entries.new ≡ take start entries.old
        ++ (map (raised priority stamp) (slice_range entries.old start end) ++ drop end entries.old) }
{
    for at in start..end {
        entries.raise(at, priority, stamp);
    }
}
