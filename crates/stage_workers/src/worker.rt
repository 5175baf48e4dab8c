// What a worker's thread works with, and its reports, again and again where memory is wanting.
ghost use Rattle.std.specs.Prelude.{◌≡◌, ◌≢◌, IfErr, MatchResult};
ghost use Rattle.stage_workers.specs.Working.{HasReported};

use crate::{Pass, SharedStage, StageError};
use daemon_core::Event;
use disk_model::Disk;
use player_core::BrokenCause;
use state_codec::Changes;
use std::alloc::{AllocError, Global};
use std::sync::Wait;
use std::sync::ledger::Ledger;
use std::thread;
use std::time::{Clock, Duration};

// So many milliseconds a worker waits where memory was wanting, before it tries again.
const PAUSE: u64 = 1;

// And where the disk has no room for it.
const FULL_PAUSE: u64 = 200;

/// Who is to be told that a worker has made an event, as a loop that waits for clients: the event may have left something for them.
pub trait Wake {
    fn wake(&self);

    /// The song at a URI could not be played on. It is said before the event is made.
    fn cannot_play(&self, _uri: &str, _cause: BrokenCause) {}
}

/// Nobody is told.
#[derive(Clone, Copy, Debug)]
pub struct NoWake;

impl Wake for NoWake {
    fn wake(&self) {}
}

/// What a worker works with: the stage that it shares, and whom it tells of its events.
#[derive(Drop)]
pub struct Worker<'a, D: Disk, C: Ledger, P: Ledger, S: Ledger, R, K> {
    pub rt: &'a R,
    pub alloc: Global,
    pub stage: &'a SharedStage<D, C, P, S>,
    pub wake: &'a K,
}

// An event of a worker, which can be made more than once.
#[derive(Drop)]
pub(crate) enum Report {
    Fed { ticket: u64, frames: u64 },
    Ended { ticket: u64 },
    Broken { ticket: u64, cause: BrokenCause },
    Batch { job: u32, changes: Changes },
    Missing { job: u32, songs: usize },
    ScanDone { job: u32 },
    Keep { ticket: u64 },
    Resume { plays: bool },
}

impl Report {
    // The event once more, in memory of its own.
    fn event(&self, alloc: Global) -> Result<Event, AllocError> {
        Ok(match self {
            Report::Fed { ticket, frames } => Event::Fed {
                ticket: *ticket,
                frames: *frames,
            },
            Report::Ended { ticket } => Event::Ended { ticket: *ticket },
            Report::Broken { ticket, cause } => Event::Broken {
                ticket: *ticket,
                cause: *cause,
            },
            Report::Batch { job, changes } => Event::Batch {
                job: *job,
                changes: changes.try_clone(alloc)?,
            },
            Report::Missing { job, songs } => Event::Missing {
                job: *job,
                songs: *songs,
            },
            Report::ScanDone { job } => Event::ScanDone { job: *job },
            Report::Keep { ticket } => Event::Keep { ticket: *ticket },
            Report::Resume { plays } => Event::Resume { plays: *plays },
        })
    }
}

impl<D: Disk, C: Ledger, P: Ledger, S: Ledger, R: Wait + Clock, K: Wake> Worker<
    '_,
    D,
    C,
    P,
    S,
    R,
    K,
> {
    // The thread does nothing for so many milliseconds. It holds no lock.
    pub(crate) fn rest(&self, milliseconds: u64) {
        thread::sleep(self.rt, Duration::from_millis(milliseconds));
    }

    // A short time, in which memory may come back.
    pub(crate) fn pause(&self) {
        self.rest(PAUSE);
    }

    // The same, or a longer time while the journal's disk is full. With the wide profile the loop is woken, which makes room.
    fn pause_for_room(&self) {
        if self.stage.makes_room(self.rt) {
            K::wake(self.wake);
        }
        self.rest(if self.stage.lacks_room(self.rt) {
            FULL_PAUSE
        } else {
            PAUSE
        });
    }

    // Reports once; where memory is wanting, also for the event itself, nothing was done.
    fn report_once(
        &self,
        pass: Pass<C, P, S>,
        report: &Report,
    ) -> Result<Pass<C, P, S>, (StageError, Pass<C, P, S>)>
        ensures { MatchResult result (HasReported pass) (λ e. e.1 ≡ pass) }
    {
        match report.event(self.alloc) {
            Ok(event) => self.stage.report(self.rt, self.alloc, pass, event),
            Err(_) => Err((StageError::NoMemory, pass)),
        }
    }

    // Reports, and tries again for as long as memory is wanting. Any other refusal hands the pass back.
    pub(crate) fn report(
        &self,
        pass: Pass<C, P, S>,
        report: &Report,
    ) -> Result<Pass<C, P, S>, (StageError, Pass<C, P, S>)>
        ensures reported { MatchResult result (HasReported pass) (λ e. e.1 ≡ pass) }
        ensures again { IfErr result (λ e. e.0 ≢ StageError.NoMemory) }
    {
        let mut pass = pass;
        for _ in self.rt.forever() {
            match self.report_once(pass, report) {
                Err((StageError::NoMemory, back)) => pass = back,
                other => {
                    self.wake.wake();
                    return other;
                }
            }
            self.pause_for_room();
        }
        unreachable!()
    }
}
