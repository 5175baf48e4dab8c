// The scan's thread: it reads the folder of a job, and reports what it finds.
ghost use Rattle.std.specs.Prelude.{◌≡◌, [], true, Ok, None, IfOk, MatchResult, OnErr};
ghost use Rattle.song_db.specs.Scan.{IsEnd, IsHonestAnswer, IsWholeAnswer};
ghost use Rattle.stage_workers.specs.Scanning.{changes_of};
ghost use Rattle.stage_workers.specs.Working.{GoesOn, HasWorked};

use crate::replacing::count_dropped;
use crate::worker::{Report, Wake, Worker};
use crate::{Pass, StageError};
use crossbeam_channel::Receiver;
use disk_model::Disk;
use no_memory::NoMemory;
use song_db::{MAX_CHANGES, RowChange, Scan, ScanOrder};
use song_files::Folder;
use song_output::{Gate, GatedFolder};
use state_codec::Changes;
use std::alloc::Global;
use std::sync::Wait;
use std::sync::ledger::Ledger;
use std::time::Clock;

/// What a scan came to.
#[derive(Clone, Copy, Debug, PartialEq, Eq)]
pub struct Scanned {
    /// How many songs that were known have another row since.
    pub replaced: usize,
    /// How many songs that were known aren't any more; of one that is left off or cut off under rules that keep stamps, how many it missed.
    pub dropped: usize,
    /// Of which none was dropped because they were too many: how many, and of how many songs.
    pub withheld: Option<(usize, usize)>,
    /// Memory ran out: what it found since its last report is lost, and what it had not read yet is as it was. One that the stage's end cut
    /// off is not left off.
    pub is_left_off: bool,
}

/// The folder that a scan's thread reads, which is told of each job.
pub trait ScanFolder: Folder {
    /// A job begins, by this order.
    fn begin_job(&mut self, _alloc: Global, _order: &ScanOrder) {}

    /// The job of this number is over, and its end was reported.
    fn end_job(&mut self, _job: u32, _scanned: Scanned) {}
}

/// What lies behind a gate is told.
impl<F: ScanFolder, G: Gate> ScanFolder for GatedFolder<'_, F, G> {
    fn begin_job(&mut self, alloc: Global, order: &ScanOrder) {
        self.folder.begin_job(alloc, order);
    }

    fn end_job(&mut self, job: u32, scanned: Scanned) {
        self.folder.end_job(job, scanned);
    }
}

/// Carries out one scan: its batches are read without the lock, and each is reported; at last comes its end, `ScanDone`.
///
/// Under rules that keep stamps, songs that are missing are dropped last: how many they are is reported before the first, and where the job
/// is over by that, none is. Till then their names are held in memory.
///
/// A report that finds no memory is made again until it does. Where the reading finds none, the scan is left off: its end is reported, and
/// what was not reported before keeps its row. It ends early where the stage is closed once a batch was reported, and by a report that is
/// refused. Beside the pass it answers what the scan came to.
pub fn scan_once<D: Disk, C: Ledger, P: Ledger, S: Ledger, F: Folder, R: Wait + Clock, K: Wake>(
    worker: &Worker<'_, D, C, P, S, R, K>,
    pass: Pass<C, P, S>,
    folder: &mut F,
    order: ScanOrder,
) -> Result<(Pass<C, P, S>, Scanned), (StageError, Pass<C, P, S>)>
    ensures worked { MatchResult result (λ r. HasWorked pass r.0) (λ e. GoesOn pass e.1) }
    ensures honest { F.honest folder.old → F.honest folder.new × (F.files folder.new ≡ F.files folder.old) }
{
    let job = order.job();
    // The rules of the named profile keep no stamps: then nothing is withheld, and each batch is reported as it was read.
    let drops_last = order.rules().keeps_stamps;
    let mut missing = Vec::new(worker.alloc);
    let (pass, scanned, is_closed) = report_songs(worker, pass, folder, order, &mut missing)?;
    if is_closed {
        return Ok((pass, scanned));
    }
    if drops_last && !scanned.is_left_off {
        let (pass, scanned) = end_behind_missing(worker, pass, job, scanned, missing)?;
        return Ok((pass, scanned));
    }
    let pass = worker.report(pass, &Report::ScanDone { job })?;
    Ok((pass, scanned))
}

// Reads the batches, and reports each but for the songs that are dropped last, which are added to the others that are. It answers what they
// come to, and whether the stage is closed, once a batch was reported.
fn report_songs<D: Disk, C: Ledger, P: Ledger, S: Ledger, F: Folder, R: Wait + Clock, K: Wake>(
    worker: &Worker<'_, D, C, P, S, R, K>,
    pass: Pass<C, P, S>,
    folder: &mut F,
    order: ScanOrder,
    missing: &mut Vec<Changes>,
) -> Result<(Pass<C, P, S>, Scanned, bool), (StageError, Pass<C, P, S>)>
    ensures worked { MatchResult result (λ r. GoesOn pass r.0) (λ e. GoesOn pass e.1) }
    ensures closed { IfOk result (λ r. r.2 ≡ true → HasWorked pass r.0) }
    ensures honest { F.honest folder.old → F.honest folder.new × (F.files folder.new ≡ F.files folder.old) }
{
    let job = order.job();
    let drops_last = order.rules().keeps_stamps;
    let mut pass = pass;
    // Until its end is found.
    let mut scanned = Scanned {
        replaced: 0,
        dropped: 0,
        withheld: None,
        is_left_off: true,
    };
    if let Ok(mut scan) = Scan::begin(worker.alloc, order) {
        for _ in worker.rt.forever() {
            let Ok(found) = next_changes(worker.alloc, &mut scan, folder) else {
                break;
            };
            let Some(changes) = found else {
                scanned.is_left_off = false;
                break;
            };
            let is_last = changes.as_slice().len() < MAX_CHANGES;
            let dropped = count_dropped(changes.as_slice());
            let songs = if drops_last {
                without_missing(worker.alloc, changes, missing)
            } else {
                Ok(Some(changes))
            };
            let Ok(songs) = songs else {
                break;
            };
            scanned.dropped = scanned.dropped.saturating_add(dropped);
            if let Some(changes) = songs {
                // No other thread changes rows, so that they are the same at the report.
                let replaced = worker.stage.count_replaced(worker.rt, changes.as_slice());
                pass = worker.report(pass, &Report::Batch { job, changes })?;
                scanned.replaced = scanned.replaced.saturating_add(replaced);
                if worker.stage.is_closed(worker.rt) {
                    scanned.is_left_off = false;
                    return Ok((pass, scanned, true));
                }
            }
            // A batch that isn't full is the last: so memory isn't asked for what nobody needs.
            if is_last {
                scanned.is_left_off = false;
                break;
            }
        }
    }
    Ok((pass, scanned, false))
}

// Reports how many songs are missing, drops them where the job isn't over by that, and reports its end.
fn end_behind_missing<D: Disk, C: Ledger, P: Ledger, S: Ledger, R: Wait + Clock, K: Wake>(
    worker: &Worker<'_, D, C, P, S, R, K>,
    pass: Pass<C, P, S>,
    job: u32,
    scanned: Scanned,
    missing: Vec<Changes>,
) -> Result<(Pass<C, P, S>, Scanned), (StageError, Pass<C, P, S>)>
    ensures { MatchResult result (λ r. HasWorked pass r.0) (λ e. GoesOn pass e.1) }
{
    let mut scanned = scanned;
    let songs = scanned.dropped;
    let pass = worker.report(pass, &Report::Missing { job, songs })?;
    scanned.withheld = worker.stage.withheld(worker.rt, job);
    if scanned.withheld.is_some() {
        scanned.dropped = 0;
        return Ok((pass, scanned));
    }
    let before = worker.stage.count_songs(worker.rt);
    let pass = drop_missing(worker, pass, job, missing)?;
    // The song that is heard stays, and without room all do.
    let behind = worker.stage.count_songs(worker.rt);
    scanned.dropped = before.saturating_sub(behind);
    if worker.stage.is_closed(worker.rt) {
        return Ok((pass, scanned));
    }
    let pass = worker.report(pass, &Report::ScanDone { job })?;
    Ok((pass, scanned))
}

// The changes of a batch but for those that drop a song, which are added to the others that do; none where all do.
fn without_missing(
    alloc: Global,
    changes: Changes,
    missing: &mut Vec<Changes>,
) -> Result<Option<Changes>, NoMemory> {
    if count_dropped(changes.as_slice()) == 0 {
        return Ok(Some(changes));
    }
    let mut songs = Vec::new(alloc);
    let mut dropped = Vec::new(alloc);
    for change in changes.into_vec() {
        match change {
            RowChange::Put(_) => songs.push(change)?,
            RowChange::Drop(_) => dropped.push(change)?,
        }
    }
    if let Some(dropped) = Changes::new(dropped) {
        missing.push(dropped)?;
    }
    Ok(Changes::new(songs))
}

// Reports the changes that drop a song, until the stage is closed.
fn drop_missing<D: Disk, C: Ledger, P: Ledger, S: Ledger, R: Wait + Clock, K: Wake>(
    worker: &Worker<'_, D, C, P, S, R, K>,
    pass: Pass<C, P, S>,
    job: u32,
    missing: Vec<Changes>,
) -> Result<Pass<C, P, S>, (StageError, Pass<C, P, S>)>
    ensures { MatchResult result (GoesOn pass) (λ e. GoesOn pass e.1) }
{
    let mut pass = pass;
    for drops in missing {
        if worker.stage.is_closed(worker.rt) {
            break;
        }
        let batch = Report::Batch {
            job,
            changes: drops,
        };
        pass = worker.report(pass, &batch)?;
    }
    Ok(pass)
}

/// What the scan finds next, as a batch; nothing at its end, which takes no memory. It refuses where memory runs out: what was found since
/// the last batch is lost then, and the scan is over.
pub fn next_changes<F: Folder>(
    alloc: Global,
    scan: &mut Scan,
    folder: &mut F,
) -> Result<Option<Changes>, NoMemory>
    ensures read { F.honest folder.old →
        IfOk result (λ found. IsHonestAnswer (F.files folder.old) scan.old scan.new (changes_of found)) }
    ensures whole { F.honest folder.old → F.steady folder.old →
        IfOk result (λ found. IsWholeAnswer (F.files folder.old) scan.old scan.new (changes_of found)) }
    ensures none { result ≡ Ok None → IsEnd scan.new }
    ensures err { OnErr result (IsEnd scan.new) }
    ensures nothing_left { scan.old.pending ≡ [] → scan.old.droppable ≡ [] → (result ≡ Ok None) × (folder.new ≡ folder.old) }
    ensures over { scan.old.is_over ≡ true → (result ≡ Ok None) × (folder.new ≡ folder.old) }
    ensures honest { F.honest folder.old → F.honest folder.new × (F.files folder.new ≡ F.files folder.old) }
    ensures steady { F.steady folder.old → F.steady folder.new }
{
    match scan.next(alloc, folder) {
        Ok(Some(changes)) => Ok(Changes::new(changes)),
        Ok(None) => Ok(None),
        Err(_) => Err(NoMemory),
    }
}

/// Reads what is ordered until the orders end or the stage is closed or refuses, and hands pass and folder back. While it waits for an
/// order, it ends once the sender of orders is gone. The folder is told of each job; of one that is cut off it isn't told the end.
pub fn scan_worker<
    D: Disk,
    C: Ledger,
    P: Ledger,
    S: Ledger,
    F: ScanFolder,
    R: Wait + Clock,
    K: Wake,
>(
    worker: &Worker<'_, D, C, P, S, R, K>,
    pass: Pass<C, P, S>,
    folder: F,
    orders: &Receiver<ScanOrder>,
) -> (Pass<C, P, S>, F)
    ensures { GoesOn pass result.0 }
{
    let mut pass = pass;
    let mut folder = folder;
    for _ in worker.rt.forever() {
        let Ok(order) = orders.recv(worker.rt) else {
            break;
        };
        let job = order.job();
        folder.begin_job(worker.alloc, &order);
        let (back, scanned) = match scan_once(worker, pass, &mut folder, order) {
            Ok(worked) => worked,
            Err((_, back)) => {
                pass = back;
                break;
            }
        };
        pass = back;
        if worker.stage.is_closed(worker.rt) {
            break;
        }
        folder.end_job(job, scanned);
    }
    (pass, folder)
}
