// One entry of the queue.
ghost use Rattle.std.specs.Prelude.{◌≡◌, IfOk};

use song_db::RowUri;
use std::alloc::{AllocError, Global};

/// One entry of the queue.
#[derive(Debug, Drop)]
pub struct Entry {
    /// From 1 to 2147483647; no later entry has it again.
    pub id: u32,
    /// The song that is played, with where its row was last known to stand.
    pub uri: RowUri,
    /// From 0 to 255; in random mode a greater one goes first.
    pub priority: u8,
    /// The version of the queue that last changed what stands at the entry's position.
    pub stamp: u32,
}

impl Entry {
    /// The same entry once more, with a URI in memory of its own.
    pub fn try_clone(&self, alloc: Global) -> Result<Entry, AllocError>
        ensures { IfOk result (λ copy. copy ≡ self.now) }
    {
        Ok(Entry {
            id: self.id,
            uri: self.uri.try_clone(alloc)?,
            priority: self.priority,
            stamp: self.stamp,
        })
    }
}

/// An entry of the queue as it is looked at: its parts lie apart.
#[derive(Clone, Copy, Debug)]
pub struct EntryRef<'a> {
    pub id: u32,
    pub uri: &'a RowUri,
    pub priority: u8,
    pub stamp: u32,
}
