// The jobs that a request began: what their scans find is reported right behind the request.
ghost use Rattle.std.specs.Prelude.{◌≡◌, ◌<◌, [], OnOk};
ghost use Rattle.mpd_program.specs.Console.{IsRunning, RunsNone, jobs_left};
ghost use Rattle.mpd_program.specs.Serving.{IsUsable, Serves};

use super::Ending;
use super::serving::{Service, ending_of};
use daemon_core::Event;
use disk_model::Disk;
use mpd_server::{JobFolder, Visits};
use song_db::{Scan, ScanOrder};
use song_files::Folder;
use state_codec::Changes;
use std::alloc::Global;
use std::io::Write;

impl<D: Disk, F: Folder, W: Write> Service<'_, '_, '_, D, F, W> {
    // Reads for the jobs that run, one after the other, until none does.
    pub(super) fn serve_jobs(&mut self) -> Result<(), Ending>
        requires { IsUsable self.old }
        ensures served { Serves D.honest D.history D.faults W.contents [] self.old self.new result }
        ensures idle { OnOk result (RunsNone self.new.live.state.machine.job) }
    {
        'jobs: loop {
            // Where the order finds no memory, nobody can tell which job runs, so that its end can't be reported.
            let order = match self.live.scan_order(self.alloc) {
                Ok(Some(order)) => order,
                Ok(None) => return Ok(()),
                Err(error) => return Err(ending_of(error)),
            };
            self.serve_job(order)?;
        }
    }

    // Reads for the job of this order: each batch of changes is an event, and the end of the scan is one.
    fn serve_job(&mut self, order: ScanOrder) -> Result<(), Ending>
        requires usable { IsUsable self.old }
        requires running { IsRunning order.job self.old.live.state.machine.job }
        ensures served { Serves D.honest D.history D.faults W.contents [] self.old self.new result }
        ensures fewer { OnOk result (jobs_left self.new.live.state.machine < jobs_left self.old.live.state.machine) }
    {
        let job = order.job();
        self.serve_changes(order)?;
        self.tell_room()?;
        self.serve_event(Event::ScanDone { job })
    }

    // Reports what the scan of this order finds by the rules of the library, to its end. It is left off where memory runs out, and after
    // 2^64 - 1 batches: what was not read keeps its row.
    fn serve_changes(&mut self, order: ScanOrder) -> Result<(), Ending>
        requires usable { IsUsable self.old }
        requires running { IsRunning order.job self.old.live.state.machine.job }
        ensures served { Serves D.honest D.history D.faults W.contents [] self.old self.new result }
        ensures running { OnOk result (IsRunning order.job self.new.live.state.machine.job) }
        ensures waiting { OnOk result (self.new.live.state.machine.waiting ≡ self.old.live.state.machine.waiting) }
    {
        let job = order.job();
        let mut scan = match Scan::begin(self.alloc, order.with_rules(self.rules)) {
            Ok(scan) => scan,
            Err(_) => return Ok(()),
        };
        let mut batches = 0u64;
        let mut visits = Visits::NONE;
        while batches < u64::MAX {
            let changes = match next_changes(self.alloc, &mut scan, self.folder, &mut visits) {
                Some(changes) => changes,
                None => return Ok(()),
            };
            self.tell_room()?;
            // Without room the changes would be lost.
            if self.live.lacks_room() {
                return Err(Ending::Cut);
            }
            self.serve_event(Event::Batch { job, changes })?;
            batches += 1;
        }
        Ok(())
    }
}

// What the scan finds next; nothing at its end, or where memory runs out. The job has read so much already.
fn next_changes<F: Folder>(
    alloc: Global,
    scan: &mut Scan,
    folder: &mut F,
    visits: &mut Visits,
) -> Option<Changes> {
    let mut files = JobFolder {
        files: folder,
        visits: *visits,
    };
    let found = stage_workers::next_changes(alloc, scan, &mut files);
    *visits = files.visits;
    found.unwrap_or(None)
}
