// What opening found in a file: the snapshot and the records, where they stand in the file's bytes.
ghost use Rattle.std.specs.Prelude.{◌≡◌, ◌<◌, ◌≤◌, [], All, length, get_or, slice_range};
ghost use Rattle.play_journal.specs.Stored.{bodies_in, IsWithin};

use crate::reading::HEAD_LEN;
use std::marker::Model;

/// Where some bytes stand in a file: from one offset to another.
#[derive(Clone, Copy, Debug, PartialEq, Eq)]
pub(crate) struct Extent {
    pub(crate) start: usize,
    pub(crate) end: usize,
}

/// The snapshot of a journal and the records behind it in order. Contracts see their bytes; they stand in those of the file,
/// which were read once and aren't copied.
#[derive(Debug, Drop)]
pub struct Stored {
    bytes: Vec<u8>,
    snapshot_end: usize,
    bodies: Vec<Extent>,
}

impl Model for Stored {
    ghost use Rattle.std.specs.Prelude.{◌≤◌, All, length, slice_range};
    ghost use Rattle.play_journal.specs.Stored.{StoredParts, bodies_in, IsWithin};

    ghost Value = { StoredParts };

    ghost view = { λ s. record {
      snapshot = slice_range s.bytes.items 32 s.snapshot_end;
      records = bodies_in s.bytes.items s.bodies.items;
    } };

    ghost invariant = { λ s. (32 ≤ s.snapshot_end) × (s.snapshot_end ≤ length s.bytes.items)
        × All (IsWithin (length s.bytes.items)) s.bodies.items };
}

impl Stored {
    // The snapshot and the records of a file, whose bodies stand there.
    pub(crate) fn new(bytes: Vec<u8>, snapshot_end: usize, bodies: Vec<Extent>) -> Self
        requires begins { 32 ≤ snapshot_end }
        requires ends { snapshot_end ≤ length bytes.items }
        requires within { All (IsWithin (length bytes.items)) bodies.items }
        ensures snapshot { result.snapshot ≡ slice_range bytes.items 32 snapshot_end }
        ensures records { result.records ≡ bodies_in bytes.items bodies.items }
    {
        Stored {
            bytes,
            snapshot_end,
            bodies,
        }
    }

    /// The bytes of the snapshot.
    pub fn snapshot(&self) -> &[u8]
        ensures { result.now ≡ self.now.snapshot }
    {
        &self.bytes[HEAD_LEN..self.snapshot_end]
    }

    /// How many records stand behind the snapshot.
    pub fn record_count(&self) -> usize
        ensures { result ≡ length self.now.records }
    {
        self.bodies.len()
    }

    /// The body of a record, by its place from 0 on.
    pub fn record(&self, place: usize) -> &[u8]
        requires { place < length self.now.records }
        ensures { result.now ≡ get_or self.now.records place [] }
    {
        let body = self.bodies[place];
        &self.bytes[body.start..body.end]
    }
}
