// The entries in order, with what stands beside them for look-ups and changes.
ghost use Rattle.std.specs.Prelude.{◌≡◌, ℕ, ◌<◌, ◌≤◌, ◌+◌, ◌-◌, ◌^◌, ◌==◌, [], ◌∷◌, ◌++◌, false, length, take, drop, swap};
ghost use Rattle.std.specs.Prelude.{IfOk, OnOk, OnErr, slice_get};
ghost use Rattle.std.specs.List.{All, list_any};
ghost use Rattle.std.specs.Option.{option_map};
ghost use Rattle.play_queue.specs.Entries.{deleted, added, new_entries, kept};
ghost use Rattle.play_queue.specs.Latest.{later_than};
ghost use Rattle.play_queue.specs.Queue.{HaveOwnIds, ruled};
ghost use Rattle.play_queue.specs.Restamp.{AreRanges, exchanged, next_version, reprioritized, restamped, restamped_batch, restamped_pair};
ghost use Rattle.play_queue.specs.Shown.{shown};
ghost use Rattle.play_queue.specs.Shuffle.{shuffled};

use crate::entries::Entries;
use crate::entry::{Entry, EntryRef};
use crate::latest::{BLOCKS, later_than, raise_latest};
use crate::limits::{MAX_ENTRIES, MAX_VERSION};
use crate::priority::prioritize;
use crate::rows::restamp_batch;
use crate::shuffling::shuffle;
use crate::stamping::{restamp, restamp_pair};
use crate::uris::SortedUris;
use song_db::RowUri;
use std::alloc::{AllocError, Global};
use std::fmt;
use std::marker::Model;

/// The entries of a queue in order, at most 65,536. Beside them stand the latest stamps of blocks of positions, so that
/// what has changed is found without a look at what hasn't.
///
/// Each edit takes the queue's version, stamps what has changed, and answers the new version.
#[derive(Drop)]
pub(crate) struct EntryList {
    entries: Entries,
    latest: [u32; BLOCKS],
}

impl Model for EntryList {
    ghost use Rattle.std.specs.Prelude.{List};
    ghost use Rattle.play_queue.specs.Latest.{AreKept};
    ghost use Rattle.play_queue.specs.declared.entry.Entry.{Entry};

    ghost Value = { List Entry };

    ghost view = { λ l. l.entries };

    ghost invariant = { λ l. AreKept l.latest l.entries };
}

impl fmt::Debug for EntryList {
    fn fmt<W: fmt::Write>(&self, f: &mut fmt::Formatter<W>) -> fmt::Result {
        fmt::Debug::fmt(&self.entries, f)
    }
}

impl EntryList {
    // No entry. It takes no memory yet.
    pub(crate) fn new(alloc: Global) -> EntryList
        ensures { result ≡ [] }
    {
        EntryList {
            entries: Entries::new(alloc),
            latest: [0; BLOCKS],
        }
    }

    // Adds an entry at the end. The memory is taken before anything changes.
    pub(crate) fn push(&mut self, entry: Entry) -> Result<(), AllocError>
        requires few { length self.old < MAX_ENTRIES }
        requires fresh { list_any (λ other. other.id == entry.id) self.old ≡ false }
        ensures ok { OnOk result (self.new ≡ self.old ++ entry ∷ []) }
        ensures err { OnErr result (self.new ≡ self.old) }
    {
        let at = self.entries.len();
        let stamp = entry.stamp;
        self.entries.push(entry)?;
        raise_latest(&mut self.latest, at, at + 1, stamp);
        Ok(())
    }

    // The same entries once more, in memory of their own.
    pub(crate) fn try_clone(&self, alloc: Global) -> Result<EntryList, AllocError>
        ensures { IfOk result (λ copy. copy ≡ self.now) }
    {
        Ok(EntryList {
            entries: self.entries.try_clone(alloc)?,
            latest: self.latest,
        })
    }

    pub(crate) fn len(&self) -> usize
        ensures len { result ≡ length self.now }
        ensures few { result ≤ MAX_ENTRIES }
    {
        self.entries.len()
    }

    pub(crate) fn is_empty(&self) -> bool
        ensures { result ≡ (length self.now == 0) }
    {
        self.entries.is_empty()
    }

    pub(crate) fn get(&self, at: usize) -> Option<EntryRef<'_>>
        ensures { option_map shown result ≡ slice_get self.now at }
    {
        self.entries.get(at)
    }

    pub(crate) fn entries(&self) -> &Entries
        ensures { result.now ≡ self.now }
    {
        &self.entries
    }

    // The positions of the entries with a stamp later than a version, rising.
    pub(crate) fn later_than(&self, alloc: Global, version: u32) -> Result<Vec<usize>, AllocError>
        ensures { IfOk result (λ positions. positions.items ≡ later_than version 0 self.now) }
    {
        later_than(alloc, &self.entries, &self.latest, version)
    }

    // Takes out a block.
    pub(crate) fn delete(&mut self, start: usize, end: usize, version: u32) -> u32
        requires forward { start ≤ end }
        requires in_range { end ≤ length self.old }
        requires within { version ≤ MAX_VERSION }
        ensures version { result ≡ next_version version }
        ensures entries { self.new ≡ restamped version start (length (deleted self.old start end)) (deleted self.old start end) }
    {
        self.entries.delete(start, end);
        let left = self.entries.len();
        restamp(&mut self.entries, &mut self.latest, start, left, version)
    }

    // Lets two blocks that follow each other change places.
    pub(crate) fn exchange(&mut self, low: usize, middle: usize, high: usize, version: u32) -> u32
        requires low_block { low < middle }
        requires high_block { middle < high }
        requires in_range { high ≤ length self.old }
        requires within { version ≤ MAX_VERSION }
        ensures version { result ≡ next_version version }
        ensures entries { self.new ≡ restamped version low high (exchanged self.old low middle high) }
    {
        self.entries.exchange(low, middle, high);
        restamp(&mut self.entries, &mut self.latest, low, high, version)
    }

    // Lets two entries change places.
    pub(crate) fn swap(&mut self, one: usize, other: usize, version: u32) -> u32
        requires one_in_range { one < length self.old }
        requires other_in_range { other < length self.old }
        requires within { version ≤ MAX_VERSION }
        ensures version { result ≡ next_version version }
        ensures entries { self.new ≡ restamped_pair version one other (swap self.old one other) }
    {
        self.entries.swap(one, other);
        restamp_pair(&mut self.entries, &mut self.latest, one, other, version)
    }

    // Sorts a range by words, and by the ids where words tie.
    pub(crate) fn shuffle(
        &mut self,
        alloc: Global,
        start: usize,
        end: usize,
        words: &[u32],
        version: u32,
    ) -> Result<u32, AllocError>
        requires forward { start ≤ end }
        requires in_range { end ≤ length self.old }
        requires words { length words.now ≡ end - start }
        requires own_ids { HaveOwnIds self.old }
        requires within { version ≤ MAX_VERSION }
        ensures ok { IfOk result (λ later. (next_id : ℕ)
            → record { entries = self.new; version = later; next_id = next_id }
            ≡ ruled (record { entries = self.old; version = version; next_id = next_id }) (shuffled self.old start end words.now) []) }
        ensures err { OnErr result (self.new ≡ self.old) }
    {
        shuffle(
            alloc,
            &mut self.entries,
            &mut self.latest,
            start,
            end,
            words,
            version,
        )
    }

    // Takes out all.
    pub(crate) fn clear(&mut self, version: u32) -> u32
        requires { version ≤ MAX_VERSION }
        ensures version { result ≡ next_version version }
        ensures entries { self.new ≡ restamped version 0 0 [] }
    {
        self.entries.clear();
        restamp(&mut self.entries, &mut self.latest, 0, 0, version)
    }

    // Adds entries in front of position `at`, with ids that rise from `first` on. The memory is taken before anything changes.
    pub(crate) fn insert(
        &mut self,
        at: usize,
        first: u32,
        uris: Vec<RowUri>,
        version: u32,
    ) -> Result<u32, AllocError>
        requires in_range { at ≤ length self.old }
        requires few { length self.old + length uris.items ≤ MAX_ENTRIES }
        requires ids { first + length uris.items < 2 ^ 32 }
        requires fresh { All (λ entry. entry.id < first) self.old }
        requires within { version ≤ MAX_VERSION }
        ensures version { IfOk result (λ later. later ≡ next_version version) }
        ensures entries { let after = added self.old at (new_entries first uris.items) in
            OnOk result (self.new ≡ restamped version at (length after) after) }
        ensures err { OnErr result (self.new ≡ self.old) }
    {
        self.entries.insert(at, first, uris)?;
        let left = self.entries.len();
        Ok(restamp(&mut self.entries, &mut self.latest, at, left, version))
    }

    // Sets a priority on each entry at a position of some range.
    pub(crate) fn prioritize(
        &mut self,
        ranges: &[(usize, usize)],
        priority: u8,
        version: u32,
    ) -> u32
        requires ranges { AreRanges ranges.now (length self.old) }
        requires within { version ≤ MAX_VERSION }
        ensures version { result ≡ next_version version }
        ensures entries { self.new ≡ reprioritized version ranges.now priority self.old }
    {
        prioritize(
            &mut self.entries,
            &mut self.latest,
            ranges,
            priority,
            version,
        )
    }

    // Takes out the entries of dropped URIs from `first` on; those of changed URIs have changed.
    pub(crate) fn follow_batch(
        &mut self,
        first: usize,
        dropped: &SortedUris,
        changed: &SortedUris,
        version: u32,
    ) -> u32
        requires in_range { first ≤ length self.old }
        requires within { version ≤ MAX_VERSION }
        ensures version { result ≡ next_version version }
        ensures entries { self.new ≡ restamped_batch version first changed.now (take first self.old ++ kept (drop first self.old) dropped.now) }
    {
        self.entries.keep_others(first, dropped);
        restamp_batch(&mut self.entries, &mut self.latest, first, changed, version)
    }
}
