// What is kept of the random round: the ids that were started in it, by their last start. There is room for all that there may be, so that
// no change of it takes memory.
ghost use Rattle.std.specs.Prelude.{◌≡◌, [], not, nat_lt, length, filter, IfOk, if◌then◌else◌};
ghost use Rattle.std.specs.Bool.{OnTrue};
ghost use Rattle.player_core.specs.Place.{id_leaves, longest_round, with_id, with_last, without_id, IsRound};
ghost use Rattle.player_core.specs.Removal.{IsFew, without_ids};

use crate::block::Block;
use crate::staying::takes_at;
use play_queue::Entries;
use song_db::Uri;
use std::alloc::{AllocError, Global};
use std::marker::Model;

/// How many ids a round has at most: as many as the queue may have entries.
pub const LONGEST_ROUND: usize = 65_536;

// The ids of fewer entries than these leave one by one, by a pass over the round each.
const FEW: usize = 8;

/// The ids of a random round. Contracts see the list of them.
#[derive(Debug, Drop)]
pub struct KeptRound {
    ids: Vec<u32>,
}

impl Model for KeptRound {
    ghost use Rattle.std.specs.Prelude.{ℕ, List, ◌≤◌, vec_capacity};
    ghost use Rattle.player_core.specs.Place.{IsRound};

    ghost Value = { List ℕ };

    ghost view = { λ r. r.ids.items };

    ghost invariant = { λ r. IsRound r.ids.items × (65536 ≤ vec_capacity r.ids) };
}

// Whether the entry with an id leaves the queue.
pub(crate) fn id_leaves(entries: &Entries, block: Block, dropped: &[Uri], id: u32) -> bool
    ensures { result ≡ id_leaves block dropped.now entries.now id }
{
    match entries.pos_of(id) {
        Some(at) => takes_at(block, dropped, entries, at),
        None => false,
    }
}

// Whether a small block of the queue leaves, and nothing else.
fn are_few(entries: &Entries, block: Block, dropped: &[Uri]) -> bool
    ensures { OnTrue result (IsFew block dropped.now entries.now) }
{
    dropped.is_empty()
        && block.start <= block.end
        && block.end <= entries.len()
        && block.end - block.start < FEW
}

impl KeptRound {
    /// No id yet. It takes all the memory that a round may need.
    pub fn new(alloc: Global) -> Result<KeptRound, AllocError>
        ensures { IfOk result (λ round. round ≡ []) }
    {
        Ok(KeptRound {
            ids: Vec::with_capacity(alloc, LONGEST_ROUND)?,
        })
    }

    /// The ids by their last start.
    pub fn as_slice(&self) -> &[u32]
        ensures ids { result.now ≡ self.now }
        ensures within { IsRound self.now }
    {
        self.ids.as_slice()
    }

    /// An id comes behind the others; `false` where the round is full.
    pub fn add_last(&mut self, id: u32) -> bool
        ensures told { result ≡ nat_lt (length self.old) longest_round }
        ensures ids { self.new ≡ with_last id self.old }
    {
        if self.ids.len() < LONGEST_ROUND {
            self.ids.push_reserved(id);
            return true;
        }
        false
    }

    /// An id goes to the end, unless the round is full.
    pub fn note(&mut self, id: u32)
        ensures { self.new ≡ with_id id self.old }
    {
        self.leave(id);
        let _ = self.add_last(id);
    }

    /// An id leaves the round.
    pub fn leave(&mut self, id: u32)
        ensures { self.new ≡ without_id id self.old }
    {
        self.ids.retain(|other| id != *other);
    }

    /// A round begins.
    pub fn clear(&mut self)
        ensures { self.new ≡ [] }
    {
        self.ids.clear();
    }

    /// Entries leave the queue: those of a block, and those of dropped URIs; `entries` is the queue before. Where a block of less than 8
    /// entries leaves alone, the ids are compared with theirs; else each id is looked for once.
    pub fn follow_removal(&mut self, entries: &Entries, block: Block, dropped: &[Uri])
        ensures { self.new ≡ filter (λ id. not (id_leaves block dropped.now entries.now id)) self.old }
    {
        if are_few(entries, block, dropped) {
            self.leave_each(&entries.ids()[block.start..block.end]);
            return;
        }
        self.leave_found(entries, block, dropped);
    }

    // These ids leave the round.
    fn leave_each(&mut self, ids: &[u32])
        ensures { self.new ≡ without_ids ids.now self.old }
    {
        for id in ids {
            self.leave(*id);
        }
    }

    // The ids leave whose entries are found to leave.
    fn leave_found(&mut self, entries: &Entries, block: Block, dropped: &[Uri])
        ensures { self.new ≡ filter (λ id. not (id_leaves block dropped.now entries.now id)) self.old }
    {
        self.ids
            .retain(|id| !id_leaves(entries, block, dropped, *id));
    }

    /// The same round once more, in memory of its own.
    pub fn try_clone(&self, alloc: Global) -> Result<KeptRound, AllocError>
        ensures { IfOk result (λ round. round ≡ self.now) }
    {
        let mut ids = Vec::with_capacity(alloc, LONGEST_ROUND)?;
        ids.extend_from_slice(self.ids.as_slice())?;
        Ok(KeptRound { ids })
    }
}
