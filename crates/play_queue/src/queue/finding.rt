// What is looked up in a queue.
ghost use Rattle.std.specs.Prelude.{◌≡◌, ◌<◌, ◌==◌, length, position, IfOk, IfSome};
ghost use Rattle.play_queue.specs.Positions.{items_of, positions_of};
ghost use Rattle.play_queue.specs.Queue.{changed_since};

use super::Queue;
use crate::limits::MAX_ENTRIES;
use crate::places::places_of;
use std::alloc::{AllocError, Global};

/// So many ids are looked for in one pass.
const MANY: usize = 8;

impl Queue {
    /// The position of the entry with an id, if there is one.
    pub fn pos_of(&self, id: u32) -> Option<usize>
        ensures found { result ≡ position (λ entry. entry.id == id) self.now.entries }
        ensures within { IfSome result (λ at. (at < length self.now.entries) × (at < MAX_ENTRIES)) }
    {
        self.entries.entries().pos_of(id)
    }

    /// The positions of the entries with these ids, in the order of the ids; or the first id that no entry has. A few ids
    /// are looked for one by one, as by `pos_of`; for more it goes through the ids of all entries once. It takes memory for
    /// the ids alone.
    pub fn positions_of(
        &self,
        alloc: Global,
        ids: &[u32],
    ) -> Result<Result<Vec<usize>, u32>, AllocError>
        ensures { IfOk result (λ found. items_of found ≡ positions_of self.now.entries ids.now) }
    {
        if ids.len() < MANY {
            self.few_positions(alloc, ids)
        } else {
            self.many_positions(alloc, ids)
        }
    }

    fn few_positions(
        &self,
        alloc: Global,
        ids: &[u32],
    ) -> Result<Result<Vec<usize>, u32>, AllocError>
        ensures { IfOk result (λ found. items_of found ≡ positions_of self.now.entries ids.now) }
    {
        let mut positions = Vec::with_capacity(alloc, ids.len())?;
        for wanted in ids {
            match self.pos_of(*wanted) {
                Some(at) => positions.push(at)?,
                None => return Ok(Err(*wanted)),
            }
        }
        Ok(Ok(positions))
    }

    fn many_positions(
        &self,
        alloc: Global,
        ids: &[u32],
    ) -> Result<Result<Vec<usize>, u32>, AllocError>
        ensures { IfOk result (λ found. items_of found ≡ positions_of self.now.entries ids.now) }
    {
        let places = places_of(alloc, self.entries.entries(), ids)?;
        let mut positions = Vec::with_capacity(alloc, ids.len())?;
        for id in ids {
            match places.get(id) {
                Some(at) => positions.push(*at)?,
                None => return Ok(Err(*id)),
            }
        }
        Ok(Ok(positions))
    }

    /// The positions of the entries that a later version than this one stamped, rising; all where the queue has not come to this version.
    pub fn changes_since(&self, alloc: Global, version: u32) -> Result<Vec<usize>, AllocError>
        ensures { IfOk result (λ positions. positions.items ≡ changed_since self.now version) }
    {
        let all = self.version < version;
        self.entries
            .later_than(alloc, if all { 0 } else { version })
    }
}
