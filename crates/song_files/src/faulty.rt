// A source that fails on purpose, for tests.
ghost use Rattle.std.specs.Prelude.{List, ℕ};

use crate::{MemSource, Source, SourceFault};

/// What goes wrong at a read.
#[derive(Clone, Copy, Debug)]
pub enum ReadTrouble {
    /// The read fails.
    Fails,
    /// It gives no byte.
    GivesNothing,
    /// It gives at most so many bytes, and at least one.
    FallsShort(usize),
}

/// Bytes in memory of which one read goes wrong: the one after `reads_before` others.
#[derive(Debug, Drop)]
pub struct FaultySource<'a> {
    pub source: MemSource<'a>,
    pub reads_before: u64,
    pub trouble: ReadTrouble,
    /// How often it has failed or given no byte.
    pub faults: u64,
    pub reads: u64,
}

impl Source for FaultySource<'_> {
    ghost bytes = { λ s. s.source };

    ghost honest = { λ _. Unit {0} };

    ghost faults = { λ s. s.faults };

    ghost steady = { λ _. ⊥ };

    ghost none_failed = { λ source steady. absurd steady };

    fn len(&self) -> u64 {
        self.source.len()
    }

    fn read_at(&mut self, at: u64, buffer: &mut [u8]) -> Result<usize, SourceFault> {
        let now = self.reads == self.reads_before;
        self.reads = self.reads.saturating_add(1);
        if !now {
            return self.source.read_at(at, buffer);
        }
        match self.trouble {
            ReadTrouble::Fails => {
                self.faults = self.faults.saturating_add(1);
                Err(SourceFault)
            }
            ReadTrouble::GivesNothing => {
                self.faults = self.faults.saturating_add(1);
                Ok(0)
            }
            ReadTrouble::FallsShort(most) => {
                let count = most.max(1).min(buffer.len());
                self.source.read_at(at, &mut buffer[..count])
            }
        }
    }
}
