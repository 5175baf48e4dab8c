// Edits of the list of entries. Where they change the order, the stamps stay at their positions.
ghost use Rattle.std.specs.Prelude.{◌≡◌, ℕ, ◌+◌, ◌-◌, ◌^◌, ◌<◌, ◌≤◌, ◌==◌, [], ◌∷◌, ◌++◌, false, length, take, drop, swap, replicate, IfOk, OnOk, OnErr};
ghost use Rattle.std.specs.Prelude.{vec_len, vec_capacity};
ghost use Rattle.std.specs.List.{All, list_any};
ghost use Rattle.play_queue.specs.Entries.{deleted, added, new_entries, kept};
ghost use Rattle.play_queue.specs.Restamp.{exchanged};
ghost use Rattle.play_queue.specs.Shuffle.{shuffled, stamps_of, with_stamps};

use super::Entries;
use crate::entry::Entry;
use crate::hints::Hints;
use crate::limits::MAX_ENTRIES;
use crate::uris::SortedUris;
use song_db::RowUri;
use std::alloc::{AllocError, Global};

impl Entries {
    // Takes out a block.
    pub(crate) fn delete(&mut self, start: usize, end: usize)
        requires forward { start ≤ end }
        requires in_range { end ≤ length self.old }
        ensures { self.new ≡ with_stamps (stamps_of self.old) (deleted self.old start end) }
    {
        self.songs.delete(start, end);
        self.stamps.truncate(self.songs.len());
        self.hints.delete(self.songs.ids(), start, end);
    }

    // Lets two blocks that follow each other change places.
    pub(crate) fn exchange(&mut self, low: usize, middle: usize, high: usize)
        requires low_block { low ≤ middle }
        requires high_block { middle ≤ high }
        requires in_range { high ≤ length self.old }
        ensures { self.new ≡ with_stamps (stamps_of self.old) (exchanged self.old low middle high) }
    {
        self.songs.exchange(low, middle, high);
        self.hints
            .exchange(self.songs.ids(), low, low + (high - middle), high);
    }

    // Lets two entries change places.
    pub(crate) fn swap(&mut self, one: usize, other: usize)
        requires one_in_range { one < length self.old }
        requires other_in_range { other < length self.old }
        ensures { self.new ≡ with_stamps (stamps_of self.old) (swap self.old one other) }
    {
        self.songs.swap(one, other);
        self.hints.note(self.songs.ids(), one, one + 1);
        self.hints.note(self.songs.ids(), other, other + 1);
    }

    // Sorts a block by words, and by the ids where words tie.
    pub(crate) fn sort(
        &mut self,
        alloc: Global,
        start: usize,
        end: usize,
        words: &[u32],
    ) -> Result<(), AllocError>
        requires forward { start ≤ end }
        requires in_range { end ≤ length self.old }
        requires words { length words.now ≡ end - start }
        ensures ok { OnOk result (self.new ≡ with_stamps (stamps_of self.old) (shuffled self.old start end words.now)) }
        ensures err { OnErr result (self.new ≡ self.old) }
    {
        self.songs.sort(alloc, start, end, words)?;
        self.hints.note(self.songs.ids(), start, end);
        Ok(())
    }

    // Takes out the entries of these URIs from `first` on.
    pub(crate) fn keep_others(&mut self, first: usize, uris: &SortedUris)
        requires { first ≤ length self.old }
        ensures { self.new ≡ with_stamps (stamps_of self.old) (take first self.old ++ kept (drop first self.old) uris.now) }
    {
        let before = self.stamps.len();
        self.songs.keep_others(first, uris);
        let left = self.songs.len();
        self.stamps.truncate(left);
        self.hints
            .slide(self.songs.ids(), 0, left, before.saturating_sub(left));
    }

    // Takes out all.
    pub(crate) fn clear(&mut self)
        ensures { self.new ≡ [] }
    {
        self.songs.clear();
        self.stamps.clear();
    }

    // Adds entries in front of position `at`, with ids that rise from `first` on; the last positions get the stamp 1. The
    // memory is taken before anything changes.
    pub(crate) fn insert(
        &mut self,
        at: usize,
        first: u32,
        uris: Vec<RowUri>,
    ) -> Result<(), AllocError>
        requires in_range { at ≤ length self.old }
        requires few { length self.old + length uris.items ≤ MAX_ENTRIES }
        requires ids { first + length uris.items < 2 ^ 32 }
        requires fresh { All (λ entry. entry.id < first) self.old }
        ensures ok { OnOk result (self.new ≡ with_stamps (stamps_of self.old ++ replicate (length uris.items) 1)
            (added self.old at (new_entries first uris.items))) }
        ensures err { OnErr result (self.new ≡ self.old) }
    {
        let count = uris.len();
        let before = self.songs.len();
        self.stamps.reserve(count)?;
        self.hints.reserve(count)?;
        self.songs.push_all(first, uris)?;
        push_ones(&mut self.stamps, count);
        self.songs.exchange(at, before, before + count);
        self.hints.add(self.songs.ids(), at, at + count);
        Ok(())
    }

    // Adds an entry at the end. The memory is taken before anything changes.
    pub(crate) fn push(&mut self, entry: Entry) -> Result<(), AllocError>
        requires few { length self.old < MAX_ENTRIES }
        requires fresh { list_any (λ other. other.id == entry.id) self.old ≡ false }
        ensures ok { OnOk result (self.new ≡ self.old ++ entry ∷ []) }
        ensures err { OnErr result (self.new ≡ self.old) }
    {
        let Entry {
            id,
            uri,
            priority,
            stamp,
        } = entry;
        let at = self.songs.len();
        self.stamps.reserve(1)?;
        self.hints.reserve(1)?;
        self.songs.push(id, uri, priority)?;
        self.stamps.push_reserved(stamp);
        self.hints.note(self.songs.ids(), at, at + 1);
        Ok(())
    }

    // The same entries once more, in memory of their own.
    pub(crate) fn try_clone(&self, alloc: Global) -> Result<Entries, AllocError>
        ensures { IfOk result (λ copy. copy ≡ self.now) }
    {
        let songs = self.songs.try_clone(alloc)?;
        let stamps = Vec::from_slice(alloc, &self.stamps)?;
        let mut hints = Hints::new(alloc);
        hints.reserve(songs.len())?;
        hints.note(songs.ids(), 0, songs.len());
        Ok(Entries {
            songs,
            stamps,
            hints,
        })
    }
}

// Adds stamps of 1. There is room for them.
fn push_ones(stamps: &mut Vec<u32>, count: usize)
    requires { vec_len stamps.old + count ≤ vec_capacity stamps.old }
    ensures { stamps.new.items ≡ stamps.old.items ++ replicate count 1 }
{
    for _ in 0..count {
        stamps.push_reserved(1);
    }
}
