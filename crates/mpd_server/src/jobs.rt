// The jobs of the database, handed to the thread that scans.
ghost use Rattle.std.specs.Prelude.{◌≡◌};

use crossbeam_channel::Sender;
use disk_model::Disk;
use live_stage::LiveError;
use song_db::{LibraryRules, ScanOrder};
use stage_workers::SharedStage;
use std::alloc::Global;
use std::sync::Wait;
use std::sync::ledger::Ledger;

/// Hands each job to the scan once, by the rules of the library.
#[derive(Drop)]
pub(crate) struct Jobs {
    orders: Sender<ScanOrder>,
    rules: LibraryRules,
    // The job that was handed over last; 0 is none.
    sent: u32,
}

impl Jobs {
    pub(crate) fn new(orders: Sender<ScanOrder>, rules: LibraryRules) -> Jobs {
        Jobs {
            orders,
            rules,
            sent: 0,
        }
    }

    /// Hands over the job that runs, if one does that was not handed over yet, and doesn't wait for the scan. Where memory is refused it
    /// is tried again by the next call. It refuses `Broken` alone.
    ///
    /// A job ends only once the scan has taken it, so that at most one order waits.
    pub(crate) fn send_new<D: Disk, C: Ledger, P: Ledger, S: Ledger, R: Wait>(
        &mut self,
        rt: &R,
        alloc: Global,
        stage: &SharedStage<D, C, P, S>,
    ) -> Result<(), LiveError> {
        match stage.running_job(rt)? {
            Some(job) if job != self.sent => {}
            _ => return Ok(()),
        }
        match stage.scan_order(rt, alloc) {
            Ok(Some(order)) => {
                let job = order.job();
                if self.orders.send(rt, order.with_rules(self.rules)).is_ok() {
                    self.sent = job;
                }
                Ok(())
            }
            Ok(None) | Err(LiveError::NoMemory) => Ok(()),
            Err(error) => Err(error),
        }
    }
}
