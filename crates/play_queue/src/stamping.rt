// Stamps of the entries that an edit has changed.
ghost use Rattle.std.specs.Prelude.{◌≡◌, ◌≢◌, ℕ, ◌-◌, ◌≤◌, ◌<◌, ◌==◌, ◌||◌, length, slice_range, slice_index};
ghost use Rattle.std.specs.Bool.{OnTrue, OnFalse};
ghost use Rattle.play_queue.specs.Latest.{AreRestamped, Between, Either};
ghost use Rattle.play_queue.specs.Queue.{ids_of};
ghost use Rattle.play_queue.specs.Restamp.{restamped, restamped_pair, stamped_where, next_version};
ghost use Rattle.play_queue.specs.Shuffle.{begun_again};

use crate::entries::Entries;
use crate::latest::{BLOCKS, raise_latest};
use crate::limits::{MAX_ENTRIES, MAX_VERSION};

// Gives the entries of a range, which have changed, a new stamp: the version after this one. After the greatest
// version, all get 1. Answers the new version.
pub(crate) fn restamp(
    entries: &mut Entries,
    latest: &mut [u32; BLOCKS],
    start: usize,
    end: usize,
    version: u32,
) -> u32
    requires forward { start ≤ end }
    requires in_range { end ≤ length entries.old }
    requires within { version ≤ MAX_VERSION }
    requires few { end ≤ MAX_ENTRIES }
    ensures version { result ≡ next_version version }
    ensures entries { entries.new ≡ restamped version start end entries.old }
    ensures latest { AreRestamped latest.old latest.new (Between start end) version }
{
    if version == MAX_VERSION {
        entries.stamp_all(1);
        *latest = [1; BLOCKS];
        return 1;
    }
    entries.stamp_range(start, end, version + 1);
    raise_latest(latest, start, end, version + 1);
    version + 1
}

// Gives the entries at two positions, which have changed, a new stamp, as `restamp` does.
pub(crate) fn restamp_pair(
    entries: &mut Entries,
    latest: &mut [u32; BLOCKS],
    one: usize,
    other: usize,
    version: u32,
) -> u32
    requires one_in_range { one < length entries.old }
    requires other_in_range { other < length entries.old }
    requires within { version ≤ MAX_VERSION }
    requires few { length entries.old ≤ MAX_ENTRIES }
    ensures version { result ≡ next_version version }
    ensures entries { entries.new ≡ restamped_pair version one other entries.old }
    ensures latest { AreRestamped latest.old latest.new (Either one other) version }
{
    if version == MAX_VERSION {
        entries.stamp_all(1);
        *latest = [1; BLOCKS];
        return 1;
    }
    stamp_pair(entries, one, other, version + 1);
    raise_latest(latest, one, one + 1, version + 1);
    raise_latest(latest, other, other + 1, version + 1);
    version + 1
}

fn stamp_pair(entries: &mut Entries, one: usize, other: usize, stamp: u32)
    requires one_in_range { one < length entries.old }
    requires other_in_range { other < length entries.old }
    ensures { entries.new ≡ stamped_where (λ at. at == one || at == other) stamp entries.old }
{
    entries.set_stamp(one, stamp);
    entries.set_stamp(other, stamp);
}

// Whether some entry of a range has another id than the one that stood at its position.
pub(crate) fn has_moved_between(entries: &Entries, start: usize, end: usize, ids: &[u32]) -> bool
    requires forward { start ≤ end }
    requires in_range { end ≤ length entries.now }
    requires ids { length ids.now ≡ end - start }
    ensures yes { OnTrue result ((k : ℕ) × (k < end - start)
        × (slice_index (ids_of (slice_range entries.now start end)) k ≢ slice_index ids.now k)) }
    ensures no { OnFalse result (ids_of (slice_range entries.now start end) ≡ ids.now) }
{
    has_moved(&entries.ids()[start..end], ids)
}

fn has_moved(there: &[u32], ids: &[u32]) -> bool
    requires { length ids.now ≡ length there.now }
    ensures yes { OnTrue result ((k : ℕ) × (k < length ids.now) × (slice_index there.now k ≢ slice_index ids.now k)) }
    ensures no { OnFalse result (there.now ≡ ids.now) }
{
    for at in 0..there.len() {
        if there[at] != ids[at] {
            return true;
        }
    }
    false
}

// Entries of a range have a new stamp, the version after this one: raises the blocks of the range to it. After the greatest version, all
// get 1. Answers the new version.
pub(crate) fn raise_or_begin_again(
    entries: &mut Entries,
    latest: &mut [u32; BLOCKS],
    start: usize,
    end: usize,
    version: u32,
) -> u32
    requires within { version ≤ MAX_VERSION }
    requires few { end ≤ MAX_ENTRIES }
    ensures version { result ≡ next_version version }
    ensures entries { entries.new ≡ begun_again version entries.old }
    ensures latest { AreRestamped latest.old latest.new (Between start end) version }
{
    if version == MAX_VERSION {
        entries.stamp_all(1);
        *latest = [1; BLOCKS];
        return 1;
    }
    raise_latest(latest, start, end, version + 1);
    version + 1
}
