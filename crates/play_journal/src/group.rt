// Records that are added together.
ghost use Rattle.std.specs.Prelude.{◌≡◌, ◌⊎◌, ◌↔◌, ◌+◌, ◌<◌, ◌≢◌, [], ◌∷◌, ◌++◌, length, flat_map, Err, IsTrue, IfOk, IfErr, OnOk, OnErr};
ghost use Rattle.play_journal.specs.File.{open_gate, longest_body, gated, records_len};
ghost use Rattle.play_journal.specs.Group.{group_len, FitsGroup};

use crate::JournalError;
use crate::appending::put_behind;
use crate::reading::{CLOSED, LONGEST_BODY, OPEN};
use std::alloc::Global;
use std::marker::Model;

/// The most that the records of a group take in a file, in bytes: twice what the longest record takes.
pub const GROUP_LEN: usize = 2 * (5 + LONGEST_BODY);

/// Records that are added together, spelled as they stand in a file behind an open gate. Contracts see their bodies, oldest first.
#[derive(Debug, Drop)]
pub struct Group {
    // Records behind open gates, and a closed gate.
    bytes: Vec<u8>,
    count: u64,
}

impl Model for Group {
    ghost use Rattle.std.specs.Prelude.{List, ℕ, ◌<◌, vec_capacity};
    ghost use Rattle.play_journal.specs.Group.{bodies_of, group_len, IsGroup};

    ghost Value = { List (List ℕ) };

    ghost view = { λ g. bodies_of g.bytes.items };

    ghost invariant = { λ g. IsGroup g.bytes.items g.count × (group_len < vec_capacity g.bytes) };
}

impl Group {
    /// A group without records. Here alone it takes memory: the room for `GROUP_LEN` bytes, of which one is touched.
    pub fn new(alloc: Global) -> Result<Group, JournalError>
        ensures empty { IfOk result (λ group. group ≡ []) }
        ensures nothing_else { IfErr result (λ e. e ≡ JournalError.NoMemory) }
    {
        let mut bytes = Vec::with_capacity(alloc, GROUP_LEN + 1)?;
        bytes.push_reserved(CLOSED);
        Ok(Group { bytes, count: 0 })
    }

    /// Puts a record behind the others, without memory. `TooLong`: its body is over 2,097,152 bytes, or the records together would take
    /// more than `GROUP_LEN`; then the group is as it was.
    pub fn push(&mut self, body: &[u8]) -> Result<(), JournalError>
        ensures added { OnOk result (self.new ≡ self.old ++ body.now ∷ []) }
        ensures refuses { (result ≡ Err JournalError.TooLong)
            ↔ ((longest_body < length body.now) ⊎ (group_len < records_len self.old + (5 + length body.now))) }
        ensures nothing_else { IfErr result (λ e. e ≡ JournalError.TooLong) }
        ensures stays { OnErr result (self.new ≡ self.old) }
    {
        let gate = self.bytes.len() - 1;
        if body.len() > LONGEST_BODY || gate + 5 + body.len() > GROUP_LEN {
            return Err(JournalError::TooLong);
        }
        self.bytes.truncate(gate);
        self.bytes.push_reserved(OPEN);
        put_behind(&mut self.bytes, body);
        self.count += 1;
        Ok(())
    }

    /// Takes all records out. The room is kept.
    pub fn clear(&mut self)
        ensures { self.new ≡ [] }
    {
        self.bytes.clear();
        self.bytes.push_reserved(CLOSED);
        self.count = 0;
    }

    /// Whether it has no record.
    pub fn is_empty(&self) -> bool
        ensures { IsTrue result ↔ (self.now ≡ []) }
    {
        self.count == 0
    }

    /// How many records it has.
    pub fn records(&self) -> u64
        ensures { result ≡ length self.now }
    {
        self.count
    }

    /// How many bytes its records take in a file: of each its gate, its length and its body.
    pub fn bytes(&self) -> u64
        ensures value { result ≡ records_len self.now }
        ensures fits { FitsGroup self.now }
    {
        (self.bytes.len() - 1) as u64
    }

    // What follows the first gate: the records, with open gates between them, and a closed gate.
    pub(crate) fn behind_gate(&self) -> &[u8]
        requires { self.now ≢ [] }
        ensures spelled { open_gate ∷ result.now ≡ flat_map gated self.now ++ 0 ∷ [] }
        ensures fits { FitsGroup self.now }
    {
        &self.bytes[1..]
    }
}
