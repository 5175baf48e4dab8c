// The queue and its edits.
ghost use Rattle.std.specs.Prelude.{◌≡◌, ◌+◌, ◌-◌, ◌<◌, ◌≤◌, ◌==◌, [], length, swap, position, unwrap_or};
ghost use Rattle.std.specs.Prelude.{OnOk, OnErr, IfOk};
ghost use Rattle.std.specs.List.Sorted.{IsPermutation};
ghost use Rattle.play_queue.specs.Entries.{deleted, moved, added, new_entries, kept, prioritized};
ghost use Rattle.play_queue.specs.Queue.{ids_of, ruled};
ghost use Rattle.play_queue.specs.Refusal.{Answers, AnswersIfMemory};
ghost use Rattle.play_queue.specs.Refused.{range_refusal, move_refusal, swap_refusal, add_refusal, id_refusal, ranges_refusal};
ghost use Rattle.play_queue.specs.Restamp.{exchanged};
ghost use Rattle.play_queue.specs.Shuffle.{shuffled};

use crate::entry_list::EntryList;
use crate::priority::has_other;
use crate::ranges::Ranges;
use crate::refusal::QueueError;
use crate::rows::{before_first, has_any};
use crate::uris::SortedUris;
use song_db::RowUri;
use std::alloc::Global;
use std::marker::Model;

mod builder;
mod checking;
mod copying;
mod finding;
mod reading;

pub use builder::QueueBuilder;

/// The queue: entries in order, each with an id of its own, and a version that grows with each change.
///
/// Each edit follows the stamp rule: the lists of id, priority, URI and the URI's row before and after are compared
/// position by position. Where they differ, the version grows by one and exactly the positions that differ get it as
/// their stamp. At version 2147483647 the next change sets the version and all stamps to 1. A refused call leaves
/// everything as it was.
#[derive(Debug, Drop)]
pub struct Queue {
    entries: EntryList,
    version: u32,
    next_id: u32,
}

impl Model for Queue {
    ghost use Rattle.play_queue.specs.Queue.{QueueState, IsQueue};

    ghost Value = { QueueState };

    ghost view = { λ q. record { entries = q.entries; version = q.version; next_id = q.next_id } };

    ghost invariant = { λ q. IsQueue (record { entries = q.entries; version = q.version; next_id = q.next_id }) };
}

impl Queue {
    /// No entry, at version 1; the first id will be 1. It takes no memory yet.
    pub fn new(alloc: Global) -> Self
        ensures { result ≡ record { entries = []; version = 1; next_id = 1 } }
    {
        Queue {
            entries: EntryList::new(alloc),
            version: 1,
            next_id: 1,
        }
    }

    /// The entries from `start` up to, but not including, `end` are taken out. Refused by `BadIndex` where the range
    /// ends before it begins or past the end of the queue.
    pub fn delete_range(&mut self, start: usize, end: usize) -> Result<(), QueueError>
        ensures ok { OnOk result (self.new ≡ ruled self.old (deleted self.old.entries start end) []) }
        ensures err { OnErr result (self.new ≡ self.old) }
        ensures answer { Answers (range_refusal self.old.entries start end) result }
    {
        self.check_range(start, end)?;
        if start < end {
            self.version = self.entries.delete(start, end, self.version);
        }
        Ok(())
    }

    /// The entries from `start` up to, but not including, `end` are put so that the first of them stands at position
    /// `to` of the rest. Refused by `BadIndex` where the range ends before it begins or past the end of the queue, or
    /// where `to` is past the end of the rest.
    pub fn move_range(&mut self, start: usize, end: usize, to: usize) -> Result<(), QueueError>
        ensures ok { OnOk result (self.new ≡ ruled self.old (moved self.old.entries start end to) []) }
        ensures err { OnErr result (self.new ≡ self.old) }
        ensures answer { Answers (move_refusal self.old.entries start end to) result }
    {
        self.check_move(start, end, to)?;
        if start < end {
            if to < start {
                self.exchange(to, start, end);
            } else if start < to {
                self.exchange(start, end, to + (end - start));
            }
        }
        Ok(())
    }

    // Two blocks that follow each other change places.
    fn exchange(&mut self, low: usize, middle: usize, high: usize)
        requires low_block { low < middle }
        requires high_block { middle < high }
        requires in_range { high ≤ length self.old.entries }
        ensures { self.new ≡ ruled self.old (exchanged self.old.entries low middle high) [] }
    {
        self.version = self.entries.exchange(low, middle, high, self.version);
    }

    /// Two entries change places. Refused by `BadIndex` where a position is past the end of the queue.
    pub fn swap(&mut self, one: usize, other: usize) -> Result<(), QueueError>
        ensures ok { OnOk result (self.new ≡ ruled self.old (swap self.old.entries one other) []) }
        ensures err { OnErr result (self.new ≡ self.old) }
        ensures answer { Answers (swap_refusal self.old.entries one other) result }
    {
        self.check_swap(one, other)?;
        if one != other {
            self.version = self.entries.swap(one, other, self.version);
        }
        Ok(())
    }

    /// The entries from `start` up to, but not including, `end` are sorted by words, one drawn for each of them in
    /// their order; of two entries with the same word the one with the smaller id goes first.
    ///
    /// Refused by `BadIndex` where the range ends before it begins or past the end of the queue, and by `NoMemory`: it
    /// takes memory for the range, which it gives back.
    pub fn shuffle(
        &mut self,
        alloc: Global,
        start: usize,
        end: usize,
        words: &[u32],
    ) -> Result<(), QueueError>
        requires { start ≤ end → end ≤ length self.old.entries → length words.now ≡ end - start }
        ensures ok { OnOk result (self.new ≡ ruled self.old (shuffled self.old.entries start end words.now) []) }
        ensures none_lost { IsPermutation (ids_of self.old.entries) (ids_of self.new.entries) }
        ensures err { OnErr result (self.new ≡ self.old) }
        ensures answer { AnswersIfMemory (range_refusal self.old.entries start end) result }
    {
        self.check_range(start, end)?;
        self.version = self
            .entries
            .shuffle(alloc, start, end, words, self.version)?;
        Ok(())
    }

    /// All entries are taken out.
    pub fn clear(&mut self)
        ensures { self.new ≡ ruled self.old [] [] }
    {
        if !self.entries.is_empty() {
            self.version = self.entries.clear(self.version);
        }
    }

    /// Entries of these URIs, of priority 0, are added in front of position `at`, or at the end where that is the
    /// length. Answers the first one's id; the others' ids follow it. No URI adds nothing, and answers the id that the
    /// next entry gets.
    ///
    /// Refused by `BadIndex` where `at` is past the end, by `QueueFull` where there would be more than 65,536 entries,
    /// then by `IdsSpent` where an id would pass 2147483647, and by `NoMemory`.
    pub fn add_at(&mut self, at: usize, uris: Vec<RowUri>) -> Result<u32, QueueError>
        ensures first { IfOk result (λ id. id ≡ self.old.next_id) }
        ensures ok { OnOk result (self.new
            ≡ record (ruled self.old (added self.old.entries at (new_entries self.old.next_id uris.items)) []) {
              next_id = self.old.next_id + length uris.items;
            }) }
        ensures err { OnErr result (self.new ≡ self.old) }
        ensures answer { AnswersIfMemory (add_refusal self.old at (length uris.items)) result }
    {
        let count = uris.len();
        self.check_add(at, count)?;
        let first = self.next_id;
        if count > 0 {
            self.version = self.entries.insert(at, first, uris, self.version)?;
            self.next_id = first + count as u32;
        }
        Ok(first)
    }

    /// A priority is set on each entry at a position of some range, from the first number up to, but not including,
    /// the second. Refused by `BadIndex` where a range ends before it begins or past the end of the queue. Each entry
    /// is looked at once, however many ranges it lies in.
    pub fn set_prio(&mut self, ranges: &Ranges, priority: u8) -> Result<(), QueueError>
        ensures ok { OnOk result (self.new ≡ ruled self.old (prioritized self.old.entries ranges.now priority) []) }
        ensures err { OnErr result (self.new ≡ self.old) }
        ensures answer { Answers (ranges_refusal self.old.entries ranges.now) result }
    {
        self.check_prio(ranges)?;
        let merged = ranges.merged();
        if has_other(self.entries.entries(), merged, priority) {
            self.version = self.entries.prioritize(merged, priority, self.version);
        }
        Ok(())
    }

    /// The entry with an id is taken out. Refused by `NoSuchSong` where no entry has it.
    pub fn delete_id(&mut self, id: u32) -> Result<(), QueueError>
        ensures ok { OnOk result (let at = unwrap_or (position (λ entry. entry.id == id) self.old.entries) 0 in
            self.new ≡ ruled self.old (deleted self.old.entries at (at + 1)) []) }
        ensures err { OnErr result (self.new ≡ self.old) }
        ensures answer { Answers (id_refusal self.old.entries id) result }
    {
        match self.pos_of(id) {
            Some(at) => self.delete_range(at, at + 1),
            None => Err(QueueError::NoSuchSong),
        }
    }

    /// What a batch of the database means for the queue: entries of dropped URIs are taken out, and those of changed
    /// URIs have changed. All of it is one change.
    ///
    /// Where neither has a URI, no entry is looked at. Else each is looked up once among the dropped ones; and those in
    /// front of the first that goes once or twice among the changed ones.
    pub fn follow_batch(&mut self, dropped: &SortedUris, changed: &SortedUris)
        ensures { self.new ≡ ruled self.old (kept self.old.entries dropped.now) changed.now }
    {
        if dropped.is_empty() && changed.is_empty() {
            return;
        }
        let first = before_first(self.entries.entries(), dropped);
        if first < self.entries.len() || has_any(self.entries.entries(), first, changed) {
            self.version = self
                .entries
                .follow_batch(first, dropped, changed, self.version);
        }
    }
}
