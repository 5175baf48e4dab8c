// A queue as it was saved, made entry by entry.
ghost use Rattle.std.specs.Prelude.{◌≡◌, [], ◌∷◌, ◌++◌, IfOk, OnOk, OnErr};
ghost use Rattle.play_queue.specs.Builder.{begin_refusal, part_refusal};
ghost use Rattle.play_queue.specs.Refusal.{Answers, AnswersUnless};

use super::Queue;
use crate::entry::Entry;
use crate::entry_list::EntryList;
use crate::limits::{MAX_ENTRIES, MAX_ID, MAX_VERSION};
use crate::refusal::PartError;
use std::alloc::Global;
use std::marker::Model;

/// Makes a queue from its parts, as they were saved: version and next id first, and then the entries in order, each in
/// constant time on average. A part that no queue can have is refused, and the builder stays as it was.
#[derive(Drop)]
pub struct QueueBuilder {
    entries: EntryList,
    version: u32,
    next_id: u32,
}

impl Model for QueueBuilder {
    ghost use Rattle.play_queue.specs.Queue.{QueueState, IsQueue};

    ghost Value = { QueueState };

    ghost view = { λ b. record { entries = b.entries; version = b.version; next_id = b.next_id } };

    ghost invariant = { λ b. IsQueue (record { entries = b.entries; version = b.version; next_id = b.next_id }) };
}

impl QueueBuilder {
    /// A queue without entries yet. Refused by `BadVersion` where the version isn't from 1 to 2147483647, and then by
    /// `BadNextId` where the next id isn't from 1 to 2147483648.
    pub fn new(alloc: Global, version: u32, next_id: u32) -> Result<QueueBuilder, PartError>
        ensures made { IfOk result (λ builder. builder ≡ record { entries = []; version = version; next_id = next_id }) }
        ensures answer { Answers (begin_refusal version next_id) result }
    {
        if version < 1 || MAX_VERSION < version {
            return Err(PartError::BadVersion);
        }
        if next_id < 1 || MAX_ID + 1 < next_id {
            return Err(PartError::BadNextId);
        }
        Ok(QueueBuilder {
            entries: EntryList::new(alloc),
            version,
            next_id,
        })
    }

    /// The next entry. Refused by `QueueFull` past 65,536 entries, by `BadId` where the id is 0, isn't below the next
    /// id or belongs to an entry before this one, by `BadStamp` where the stamp isn't from 1 to the version, and by
    /// `NoMemory`.
    pub fn push(&mut self, entry: Entry) -> Result<(), PartError>
        ensures ok { OnOk result (self.new ≡ record self.old { entries = self.old.entries ++ entry ∷ [] }) }
        ensures err { OnErr result (self.new ≡ self.old) }
        ensures answer { AnswersUnless PartError.NoMemory (part_refusal self.old entry) result }
    {
        if MAX_ENTRIES <= self.entries.len() {
            return Err(PartError::QueueFull);
        }
        let id = entry.id;
        if id < 1 || self.next_id <= id || self.entries.entries().has_id(id) {
            return Err(PartError::BadId);
        }
        if entry.stamp < 1 || self.version < entry.stamp {
            return Err(PartError::BadStamp);
        }
        self.entries.push(entry)?;
        Ok(())
    }

    /// The queue of all these.
    pub fn finish(self) -> Queue
        ensures { result ≡ self }
    {
        Queue {
            entries: self.entries,
            version: self.version,
            next_id: self.next_id,
        }
    }
}
