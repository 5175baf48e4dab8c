// The reading of the queue's entries.
ghost use Rattle.std.specs.Prelude.{◌≡◌, ◌+◌, ◌≤◌, ◌<◌, [], length, IfOk, if◌then◌else◌};
ghost use Rattle.std.specs.Int.{IsInRange};
ghost use Rattle.play_queue.specs.Builder.{has_id};
ghost use Rattle.play_queue.specs.Limits.{MAX_ENTRIES, MAX_ID, MAX_VERSION};
ghost use Rattle.state_codec.specs.Given.{Gives, GivesEntry, GivesQueue, TakesEntry};
ghost use Rattle.state_codec.specs.Items.{items_at};
ghost use Rattle.state_codec.specs.Layout.{IsLayout};
ghost use Rattle.state_codec.specs.ReadingSaved.{numbered_at, rest_of_entry_at, entry_at, entries_at};

use crate::fields::{ReadError, Reader};
use crate::layout::Layout;
use play_queue::{Entry, PartError, Queue, QueueBuilder};
use song_db::{RowUri, SongDb};
use std::alloc::Global;

// An id that an entry has already is at fault before any field behind it.
fn first_fault(queue: QueueBuilder, id: u32, at_id: ReadError, later: ReadError) -> ReadError
    ensures { result ≡ (if has_id queue.entries id then at_id else later) }
{
    if queue.finish().pos_of(id).is_some() {
        at_id
    } else {
        later
    }
}

// The queue with the entry, whose id may be that of another.
fn with_entry(
    mut queue: QueueBuilder,
    entry: Entry,
    at_id: ReadError,
) -> Result<QueueBuilder, ReadError>
    requires id_low { 1 ≤ entry.id }
    requires id_used { entry.id < queue.next_id }
    requires stamp { IsInRange 1 queue.version entry.stamp }
    requires few { length queue.entries < MAX_ENTRIES }
    ensures { TakesEntry result queue entry at_id }
{
    match queue.push(entry) {
        Ok(()) => Ok(queue),
        Err(PartError::BadId) => Err(at_id),
        Err(PartError::NoMemory) => Err(ReadError::NoMemory),
        Err(_) => unreachable!(),
    }
}

impl Reader<'_> {
    // The URI of the row of a number.
    #[tactic(auto, unfolding(crate::specs::ReadingSaved::numbered_at))]
    fn numbered(&mut self, alloc: Global, songs: &SongDb) -> Result<RowUri, ReadError>
        ensures { Gives result self.new.rest.now (numbered_at songs.now self.old.rest.now) }
    {
        let fault = self.fault();
        let number = self.u32()?;
        match songs.rows().get(number as usize) {
            Some(row) => Ok(RowUri::new(row.as_uri().try_clone(alloc)?, number)),
            None => Err(fault),
        }
    }

    #[tactic(auto, unfolding(crate::specs::ReadingSaved::rest_of_entry_at))]
    fn rest_of_entry(
        &mut self,
        alloc: Global,
        songs: &SongDb,
        version: u32,
        id: u32,
    ) -> Result<Entry, ReadError>
        ensures entry { Gives result self.new.rest.now (rest_of_entry_at songs.now version id self.old.rest.now) }
        ensures stamp { IfOk result (λ entry. IsInRange 1 version entry.stamp) }
    {
        let uri = self.numbered(alloc, songs)?;
        let priority = self.byte()?;
        let stamp = self.u32_within(1, version)?;
        Ok(Entry {
            id,
            uri,
            priority,
            stamp,
        })
    }

    fn entry(
        &mut self,
        alloc: Global,
        songs: &SongDb,
        version: u32,
        next_id: u32,
        queue: QueueBuilder,
    ) -> Result<QueueBuilder, ReadError>
        requires version { queue.version ≡ version }
        requires next_id { queue.next_id ≡ next_id }
        requires some { 1 ≤ next_id }
        requires few { length queue.entries < MAX_ENTRIES }
        ensures { GivesEntry result queue self.new.rest.now (entry_at songs.now version next_id queue.entries self.old.rest.now) }
    {
        let at_id = self.fault();
        let id = match self.u32_within(1, next_id - 1) {
            Ok(id) => id,
            Err(e) => return Err(e),
        };
        match self.rest_of_entry(alloc, songs, version, id) {
            Ok(entry) => with_entry(queue, entry, at_id),
            Err(later) => Err(first_fault(queue, id, at_id, later)),
        }
    }

    fn entries(
        &mut self,
        alloc: Global,
        songs: &SongDb,
        version: u32,
        next_id: u32,
        count: u32,
    ) -> Result<Queue, ReadError>
        requires version { IsInRange 1 MAX_VERSION version }
        requires next_id { IsInRange 1 (MAX_ID + 1) next_id }
        requires few { count ≤ MAX_ENTRIES }
        ensures { GivesQueue result version next_id self.new.rest.now (items_at (entry_at songs.now version next_id) count []
            self.old.rest.now) }
    {
        let mut queue = match QueueBuilder::new(alloc, version, next_id) {
            Ok(queue) => queue,
            Err(PartError::NoMemory) => return Err(ReadError::NoMemory),
            Err(_) => unreachable!(),
        };
        for _i in 0..count {
            queue = match self.entry(alloc, songs, version, next_id, queue) {
                Ok(queue) => queue,
                Err(e) => return Err(e),
            };
        }
        Ok(queue.finish())
    }

    /// The entries of the queue, with its version and next id, which were read before.
    #[tactic(auto, unfolding(crate::specs::Items::counted_at))]
    pub(crate) fn queue(
        &mut self,
        alloc: Global,
        layout: Layout,
        songs: &SongDb,
        version: u32,
        next_id: u32,
    ) -> Result<Queue, ReadError>
        requires layout { IsLayout layout }
        requires version { IsInRange 1 MAX_VERSION version }
        requires next_id { IsInRange 1 (MAX_ID + 1) next_id }
        ensures { GivesQueue result version next_id self.new.rest.now (entries_at layout songs.now version next_id self.old.rest.now) }
    {
        let count = self.u32_within(0, layout.queue_limit)?;
        self.entries(alloc, songs, version, next_id, count)
    }
}
