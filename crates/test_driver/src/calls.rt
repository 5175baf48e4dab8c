//! The calls of a shared stage that have long contracts. The prover reads these here alone.
ghost use Rattle.std.specs.Prelude.{◌≡◌, IfOk};

use crate::songs::{Music, OpenMusic, music, output_of};
use crate::stand::Stand;
use crossbeam_channel::Receiver;
use daemon_core::Event;
use driver_base::TestDisk;
use live_stage::{Live, Receipt, Refused};
use player_core::PlayOrder;
use profile::Profile;
use song_db::ScanOrder;
use stage_workers::{
    Pass, Scanned, Served, SettleError, SharedStage, StageError, Worker, laws, player_worker,
    scan_worker,
};
use std::alloc::Global;
use std::sync::Wait;
use std::sync::ledger::Ledger;
use std::time::Clock;

pub type Stage<C, P, S> = SharedStage<TestDisk, C, P, S>;

/// What came of an event, and the pass that made it or was refused.
pub type Answer<A, C, P, S> = (Result<A, StageError>, Pass<C, P, S>);

/// A stage over these disks: made, with a key of zeros, or opened.
pub fn begun(
    alloc: Global,
    profile: Profile,
    a: TestDisk,
    b: TestDisk,
    is_new: bool,
) -> Result<Live<TestDisk>, Refused<TestDisk>>
    ensures first { IfOk result (λ live. live.numbers.event ≡ 0) }
{
    if is_new {
        Live::create(alloc, profile, a, b, [0; 32])
    } else {
        Live::open(alloc, profile, a, b)
    }
}

pub fn served<C: Ledger, P: Ledger, S: Ledger, R: Wait>(
    rt: &R,
    alloc: Global,
    stage: &Stage<C, P, S>,
    pass: Pass<C, P, S>,
    event: Event,
) -> Answer<Served<TestDisk>, C, P, S> {
    let (made, pass) = made_room(rt, alloc, stage, pass);
    if let Err(error) = made {
        return (Err(error), pass);
    }
    match stage.serve(rt, alloc, pass, event) {
        Ok((served, pass)) => (Ok(served), pass),
        Err((error, pass)) => (Err(error), pass),
    }
}

/// Makes room on the disk for what comes next, as a bounded turn does; a checkpoint that is due is made here alone.
pub fn made_room<C: Ledger, P: Ledger, S: Ledger, R: Wait>(
    rt: &R,
    alloc: Global,
    stage: &Stage<C, P, S>,
    pass: Pass<C, P, S>,
) -> Answer<(), C, P, S> {
    match stage.tell_room(rt, alloc, pass, false) {
        Ok((told, pass)) => {
            drop(told);
            (Ok(()), pass)
        }
        Err((error, pass)) => (Err(error), pass),
    }
}

pub fn reported<C: Ledger, P: Ledger, S: Ledger, R: Wait>(
    rt: &R,
    alloc: Global,
    stage: &Stage<C, P, S>,
    pass: Pass<C, P, S>,
    event: Event,
) -> Answer<(), C, P, S> {
    let (made, pass) = made_room(rt, alloc, stage, pass);
    if made.is_err() {
        return (made, pass);
    }
    match stage.report(rt, alloc, pass, event) {
        Ok(pass) => (Ok(()), pass),
        Err((error, pass)) => (Err(error), pass),
    }
}

pub fn rewound(seen: u64, found: u64) -> Result<(), StageError> {
    laws::rewound(seen, found)
}

/// What settling refused, if it did, and the stage.
pub type Settled = (Option<SettleError>, Live<TestDisk>);

pub fn settled<C: Ledger, P: Ledger, S: Ledger>(
    stage: Stage<C, P, S>,
    passes: Vec<Pass<C, P, S>>,
    receipts: &[Receipt],
) -> Settled {
    match stage.settle(passes, receipts) {
        Ok(live) => (None, live),
        Err((error, live)) => (Some(error), live),
    }
}

/// What a worker works with, which tells this one of its events.
pub fn worker_of<'a, C: Ledger, P: Ledger, S: Ledger, R, K>(
    rt: &'a R,
    alloc: Global,
    stage: &'a Stage<C, P, S>,
    wake: &'a K,
) -> Worker<'a, TestDisk, C, P, S, R, K> {
    Worker {
        rt,
        alloc,
        stage,
        wake,
    }
}

/// An order of the player, by this thread.
pub fn played_once<'m, C: Ledger, P: Ledger, S: Ledger, R: Wait + Clock>(
    rt: &R,
    alloc: Global,
    stage: &Stage<C, P, S>,
    stand: &Stand<'_, R>,
    (folder, song): (&mut Music<'m, R>, &mut Option<OpenMusic<'m, R>>),
    (pass, order): (Pass<C, P, S>, &PlayOrder),
) -> Answer<(), C, P, S> {
    let worker = worker_of(rt, alloc, stage, stand);
    let mut output = output_of(stand);
    match laws::play_once(&worker, pass, stand, folder, &mut output, song, order) {
        Ok(pass) => (Ok(()), pass),
        Err((error, pass)) => (Err(error), pass),
    }
}

/// A scan, by this thread; what it came to.
pub fn scanned_once<C: Ledger, P: Ledger, S: Ledger, R: Wait + Clock>(
    rt: &R,
    host: &HostRuntime,
    stage: &Stage<C, P, S>,
    stand: &Stand<'_, R>,
    (pass, order): (Pass<C, P, S>, ScanOrder),
) -> Answer<Scanned, C, P, S> {
    let alloc = host.alloc();
    let worker = worker_of(rt, alloc, stage, stand);
    match laws::scan_once(&worker, pass, &mut music(host, alloc, stand), order) {
        Ok((pass, scanned)) => (Ok(scanned), pass),
        Err((error, pass)) => (Err(error), pass),
    }
}

/// What the player's thread does.
pub fn play<C: Ledger, P: Ledger, S: Ledger, R: Wait + Clock>(
    rt: &R,
    host: &HostRuntime,
    stage: &Stage<C, P, S>,
    stand: &Stand<'_, R>,
    pass: Pass<C, P, S>,
) -> Pass<C, P, S> {
    let alloc = host.alloc();
    let worker = worker_of(rt, alloc, stage, stand);
    let mut output = output_of(stand);
    player_worker(
        &worker,
        pass,
        stand,
        &mut music(host, alloc, stand),
        &mut output,
        0,
    )
}

/// What the scan's thread does.
pub fn scan<C: Ledger, P: Ledger, S: Ledger, R: Wait + Clock>(
    rt: &R,
    host: &HostRuntime,
    stage: &Stage<C, P, S>,
    stand: &Stand<'_, R>,
    (pass, orders): (Pass<C, P, S>, Receiver<ScanOrder>),
) -> Pass<C, P, S> {
    let alloc = host.alloc();
    let worker = worker_of(rt, alloc, stage, stand);
    let (pass, _) = scan_worker(&worker, pass, music(host, alloc, stand), &orders);
    pass
}
