// Calls of the system that a thread makes for the music or the sound, counted so that another one sees whether it stands in one.
ghost use Rattle.std.specs.Prelude.{[]};

use song_files::{FileSource, Source, SourceFault};
use std::alloc::{AllocError, Global};
use std::sync::Arc;
use std::sync::atomic::{AtomicU64, Ordering};

/// How many milliseconds a call takes before a line says so.
const LATE: u64 = 10_000;

/// The beginnings and ends of one thread's calls so far: an odd number while it is in a call.
#[derive(Drop)]
pub struct Calls {
    count: Arc<AtomicU64>,
}

impl Calls {
    pub fn new(alloc: Global) -> Result<Calls, AllocError> {
        Ok(Calls {
            count: Arc::new(alloc, AtomicU64::new(0))?,
        })
    }

    /// The same count.
    pub fn again(&self) -> Result<Calls, AllocError> {
        Ok(Calls {
            count: Arc::try_clone(&self.count)?,
        })
    }

    /// A call begins or ends.
    pub fn turn(&self) {
        let _before = self.count.fetch_add(1, Ordering::SeqCst);
    }

    fn count(&self) -> u64 {
        self.count.load(Ordering::SeqCst)
    }
}

/// A look at a thread's calls from another thread, by the time in milliseconds.
#[derive(Drop)]
pub struct CallWatch {
    calls: Calls,
    // What was counted last, since when, and whether that was told.
    seen: u64,
    since: u64,
    is_told: bool,
}

impl CallWatch {
    pub fn new(calls: Calls) -> Self {
        CallWatch {
            calls,
            seen: 0,
            since: 0,
            is_told: false,
        }
    }

    /// Whether the thread has stood in one call for ten seconds; once of each call.
    pub fn is_late(&mut self, now: u64) -> bool {
        let count = self.calls.count();
        if count != self.seen {
            self.seen = count;
            self.since = now;
            self.is_told = false;
        }
        let is_late = count % 2 == 1 && now.saturating_sub(self.since) >= LATE;
        if self.is_told || !is_late {
            return false;
        }
        self.is_told = true;
        true
    }

    /// Whether the call in which the thread was seen last has taken ten seconds.
    pub fn is_standing(&self, now: u64) -> bool {
        self.seen % 2 == 1 && now.saturating_sub(self.since) >= LATE
    }
}

/// A file of the music that is open, each read of which is counted.
///
/// As of the file, no contract says what it holds.
#[derive(Drop)]
pub struct CalledSource {
    file: FileSource,
    calls: Calls,
}

impl CalledSource {
    pub fn new(file: FileSource, calls: Calls) -> Self {
        CalledSource { file, calls }
    }
}

impl Source for CalledSource {
    ghost bytes = { λ _. [] };

    ghost honest = { λ _. ⊥ };

    ghost faults = { λ _. 0 };

    ghost steady = { λ _. ⊥ };

    ghost none_failed = { λ source steady. absurd steady };

    fn len(&self) -> u64 {
        self.file.len()
    }

    fn read_at(&mut self, at: u64, buffer: &mut [u8]) -> Result<usize, SourceFault> {
        self.calls.turn();
        let read = self.file.read_at(at, buffer);
        self.calls.turn();
        read
    }
}
