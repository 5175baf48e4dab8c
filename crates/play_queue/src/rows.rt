// What a batch of the database does to the entries.
ghost use Rattle.std.specs.Prelude.{◌≡◌, ℕ, ◌≤◌, ◌<◌, ◌==◌, ◌++◌, not, length, map, take, drop, slice_index_or, slice_set};
ghost use Rattle.std.specs.List.{list_any, prefix_len};
ghost use Rattle.play_queue.specs.Entries.{is_among};
ghost use Rattle.play_queue.specs.Latest.{AreRestamped, Between};
ghost use Rattle.play_queue.specs.Queue.{with_stamp};
ghost use Rattle.play_queue.specs.Restamp.{marked, marked_one, restamped_batch, next_version};
ghost use Rattle.play_queue.specs.declared.entry.Entry.{Entry};

use crate::entries::Entries;
use crate::latest::{BLOCKS, raise_latest};
use crate::limits::{MAX_ENTRIES, MAX_VERSION};
use crate::uris::SortedUris;

// How many entries stand in front of the first one of these URIs.
pub(crate) fn before_first(entries: &Entries, uris: &SortedUris) -> usize
    ensures { result ≡ prefix_len (λ entry. not (is_among uris.now entry.uri)) entries.now }
{
    for at in 0..entries.len() {
        if uris.contains(entries.at(at).uri.as_uri()) {
            return at;
        }
    }
    entries.len()
}

// Whether one of the first entries has one of these URIs.
pub(crate) fn has_any(entries: &Entries, count: usize, uris: &SortedUris) -> bool
    requires { count ≤ length entries.now }
    ensures { result ≡ list_any (λ entry. is_among uris.now entry.uri) (take count entries.now) }
{
    for at in 0..count {
        if uris.contains(entries.at(at).uri.as_uri()) {
            return true;
        }
    }
    false
}

// Gives those of the first entries the stamp that have one of these URIs.
fn stamp_rows(entries: &mut Entries, count: usize, uris: &SortedUris, stamp: u32)
    requires { count ≤ length entries.old }
    ensures { entries.new ≡ marked uris.now stamp (take count entries.old) ++ drop count entries.old }
{
    for at in 0..count {
        stamp_row(entries, at, uris, stamp);
    }
}

fn stamp_row(entries: &mut Entries, at: usize, uris: &SortedUris, stamp: u32)
    requires { at < length entries.old }
    ensures { (d : Entry) → entries.new ≡ slice_set entries.old at (marked_one uris.now stamp (slice_index_or entries.old at d)) }
{
    if uris.contains(entries.at(at).uri.as_uri()) {
        entries.set_stamp(at, stamp);
    }
}

// Gives the entries from `first` on, and those in front of it whose row has changed, a new stamp, as `restamp` does.
pub(crate) fn restamp_batch(
    entries: &mut Entries,
    latest: &mut [u32; BLOCKS],
    first: usize,
    changed: &SortedUris,
    version: u32,
) -> u32
    requires in_range { first ≤ length entries.old }
    requires within { version ≤ MAX_VERSION }
    requires few { length entries.old ≤ MAX_ENTRIES }
    ensures version { result ≡ next_version version }
    ensures entries { entries.new ≡ restamped_batch version first changed.now entries.old }
    ensures latest { AreRestamped latest.old latest.new (Between 0 (length entries.old)) version }
{
    if version == MAX_VERSION {
        entries.stamp_all(1);
        *latest = [1; BLOCKS];
        return 1;
    }
    stamp_batch(entries, first, changed, version + 1);
    raise_latest(latest, 0, entries.len(), version + 1);
    version + 1
}

fn stamp_batch(entries: &mut Entries, first: usize, changed: &SortedUris, stamp: u32)
    requires { first ≤ length entries.old }
    ensures { entries.new ≡ marked changed.now stamp (take first entries.old) ++ map (with_stamp stamp) (drop first entries.old) }
{
    let len = entries.len();
    stamp_rows(entries, first, changed, stamp);
    entries.stamp_range(first, len, stamp);
}
