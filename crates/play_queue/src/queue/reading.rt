// What a queue shows.
ghost use Rattle.std.specs.Prelude.{◌≡◌, ◌↔◌, [], length, IsTrue, slice_get};
ghost use Rattle.std.specs.Option.{option_map};
ghost use Rattle.play_queue.specs.Queue.{IsQueue, VersionTellsChanges};
ghost use Rattle.play_queue.specs.Shown.{shown};

use super::Queue;
use crate::entries::Entries;
use crate::entry::EntryRef;

impl Queue {
    /// How many entries there are.
    pub fn len(&self) -> usize
        ensures { result ≡ length self.now.entries }
    {
        self.entries.len()
    }

    pub fn is_empty(&self) -> bool
        ensures { IsTrue result ↔ (self.now.entries ≡ []) }
    {
        self.entries.is_empty()
    }

    /// The entry at a position from 0 on, if there is one.
    pub fn get(&self, at: usize) -> Option<EntryRef<'_>>
        ensures { option_map shown result ≡ slice_get self.now.entries at }
    {
        self.entries.get(at)
    }

    /// The entries in order.
    pub fn entries(&self) -> &Entries
        ensures entries { result.now ≡ self.now.entries }
        ensures kept { IsQueue self.now }
    {
        self.entries.entries()
    }

    /// From 1 to 2147483647; it grows by one with each change, and stays where nothing has changed.
    pub fn version(&self) -> u32
        ensures version { result ≡ self.now.version }
        ensures stays { VersionTellsChanges self.now }
    {
        self.version
    }

    /// The id that the next entry gets, or 2147483648 where the ids are spent.
    pub fn next_id(&self) -> u32
        ensures { result ≡ self.now.next_id }
    {
        self.next_id
    }
}
