//! The calls of the loop, and of its workers. The prover reads their long contracts in these functions alone.
use crate::calls::{Answer, Stage, worker_of};
use crate::sound::Sound;
use crate::wires::TestStream;
use driver_base::TestDisk;
use mio_clients::{Clients, ClientsError, MemListener, MemReady, Part, TURN_LOOKS};
use player_core::PlayOrder;
use song_db::ScanOrder;
use song_files::FileFolder;
use song_output::OpenGate;
use stage_workers::{Pass, Scanned, StageError, laws};
use std::alloc::{AllocError, Global};
use std::sync::Wait;
use std::sync::ledger::Ledger;
use std::time::Clock;

/// The clients of each loop.
pub type TestClients = Clients<TestStream, MemListener<TestStream>, MemReady>;

/// What a turn of the loop answered: its parts, or its refusal.
pub type Turned = Result<Vec<Part<TestDisk>>, StageError>;

pub fn new_clients(alloc: Global) -> Result<TestClients, AllocError> {
    let ready = MemReady::new();
    Clients::new(alloc, MemListener::new(alloc), ready)
}

/// A client waits to connect.
pub fn connect(clients: &mut TestClients, stream: TestStream) -> Result<(), AllocError> {
    clients.listener_mut().connect(stream)
}

/// So many milliseconds pass.
pub fn pass_time(clients: &mut TestClients, milliseconds: u64) {
    clients.listener_mut().pass_time(milliseconds);
}

/// The client that gave way last, and for how many milliseconds it was silent.
pub fn take_yielded(clients: &mut TestClients) -> Option<(u64, u64)> {
    clients.listener_mut().take_yielded()
}

pub fn accept(clients: &mut TestClients, alloc: Global) -> Result<(), ClientsError> {
    let accepted = clients.accept_all(alloc);
    clients.close_left();
    accepted
}

pub fn accept_some(clients: &mut TestClients, alloc: Global) -> Result<(), ClientsError> {
    let accepted = clients.accept_some(alloc);
    clients.close_left();
    accepted
}

pub fn read(clients: &mut TestClients, alloc: Global, key: usize) -> Result<(), ClientsError> {
    let read = clients.read_ready(alloc, key);
    clients.close_left();
    read
}

pub fn write(clients: &mut TestClients, key: usize) -> Result<(), ClientsError> {
    let written = clients.write_ready(key);
    clients.close_left();
    written
}

pub fn close_all(clients: &mut TestClients) {
    clients.close_all();
}

pub fn turn<R: Wait, C: Ledger, P: Ledger, S: Ledger>(
    rt: &R,
    alloc: Global,
    clients: &mut TestClients,
    stage: &Stage<C, P, S>,
    pass: Pass<C, P, S>,
) -> (Turned, Pass<C, P, S>) {
    match clients.turn_of_loop(rt, alloc, stage, pass) {
        Ok((parts, pass)) => (Ok(parts), pass),
        Err((error, pass)) => (Err(error), pass),
    }
}

/// A bounded turn, as the daemon makes them under the wide profile.
pub fn bounded_turn<R: Wait, C: Ledger, P: Ledger, S: Ledger>(
    rt: &R,
    alloc: Global,
    clients: &mut TestClients,
    stage: &Stage<C, P, S>,
    pass: Pass<C, P, S>,
) -> (Turned, Pass<C, P, S>) {
    match clients.turn_within(rt, alloc, stage, pass, Some(TURN_LOOKS)) {
        Ok((parts, pass)) => (Ok(parts), pass),
        Err((error, pass)) => (Err(error), pass),
    }
}

/// An order of the player.
pub fn play<R: Wait + Clock, C: Ledger, P: Ledger, S: Ledger>(
    rt: &R,
    host: &HostRuntime,
    stage: &Stage<C, P, S>,
    sound: &mut Sound,
    (pass, order): (Pass<C, P, S>, &PlayOrder),
) -> Answer<(), C, P, S> {
    let alloc = host.alloc();
    let worker = worker_of(rt, alloc, stage, &sound.woken);
    let mut folder = FileFolder::new(host, String::new(alloc));
    let (output, song) = (&mut sound.output, &mut sound.song);
    match laws::play_once(&worker, pass, &OpenGate, &mut folder, output, song, order) {
        Ok(pass) => (Ok(()), pass),
        Err((error, pass)) => (Err(error), pass),
    }
}

/// A scan of the present folder; what it came to.
pub fn scan<R: Wait + Clock, C: Ledger, P: Ledger, S: Ledger>(
    rt: &R,
    host: &HostRuntime,
    stage: &Stage<C, P, S>,
    sound: &Sound,
    (pass, order): (Pass<C, P, S>, ScanOrder),
) -> Answer<Scanned, C, P, S> {
    let alloc = host.alloc();
    let worker = worker_of(rt, alloc, stage, &sound.woken);
    let mut folder = FileFolder::new(host, String::new(alloc));
    match laws::scan_once(&worker, pass, &mut folder, order) {
        Ok((pass, scanned)) => (Ok(scanned), pass),
        Err((error, pass)) => (Err(error), pass),
    }
}
