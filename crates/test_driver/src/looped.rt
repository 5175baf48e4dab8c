//! A stage, the clients of its loop, and what is done with them.
use crate::beside::Beside;
use crate::calls::{Settled, Stage, made_room, reported, settled};
use crate::passes::Passes;
use crate::shown::{tell_scanned, tell_stage_error};
use crate::sound::Sound;
use crate::turns;
use crate::turns::{TestClients, Turned};
use driver_base::event::event_of;
use driver_base::shown::{tell_order, tell_scan_order};
use driver_base::songs::take_song_line;
use driver_base::words::{first_word, number};
use driver_base::{Fault, Printer, TestDisk};
use live_stage::{Receipt, Turn};
use mio_clients::{ClientsError, Part};
use stage_workers::{Kind, Outbox, StageError};
use std::alloc::Global;
use std::slice;
use std::sync::Wait;
use std::sync::ledger::Ledger;
use std::time::Clock;

/// The places of the passes.
const CLIENTS: u64 = 0;

const PLAYER: u64 = 1;

const SCAN: u64 = 2;

/// A stage that is shared, and the clients of its loop.
#[derive(Drop)]
pub struct Looped<C: Ledger, P: Ledger, S: Ledger> {
    pub stage: Stage<C, P, S>,
    pub clients: TestClients,
    /// One of each kind.
    pub passes: Passes<C, P, S>,
    /// The receipt that was given out last.
    pub receipt: Option<Receipt>,
    pub sound: Sound,
}

// Prints of how many events there are outputs that were left, if there are some.
fn tell_left(printer: &mut Printer, word: &str, outbox: &Outbox) {
    let count = outbox.as_slice().len();
    if count > 0 {
        printer.count(word, count as u64);
    }
}

fn tell_served(printer: &mut Printer, turn: &Turn<TestDisk>) {
    printer.count("event", turn.event());
    if let Some(place) = turn.refused_at() {
        printer.count("no memory at", u64::from(place));
    }
    if turn.ended() {
        printer.line("ended");
    }
}

// Prints what a part of a turn is, and gives the receipt that it has.
fn tell_part(printer: &mut Printer, part: &Part<TestDisk>) -> Option<Receipt> {
    match part {
        Part::Served(served) => {
            tell_left(printer, "before", &served.before);
            tell_served(printer, &served.turn);
            return Some(served.turn.receipt());
        }
        Part::Collected(outbox) => tell_left(printer, "collected", outbox),
        Part::Refused(error) => printer.count("refused", u64::from(error.number())),
    }
    None
}

fn tell_parts(printer: &mut Printer, parts: &[Part<TestDisk>], receipt: &mut Option<Receipt>) {
    for part in parts {
        if let Some(given) = tell_part(printer, part) {
            *receipt = Some(given);
        }
    }
}

fn is_refused(turned: &Turned) -> bool {
    match turned {
        Ok(parts) => has_refusal(parts),
        Err(_) => true,
    }
}

fn has_refusal(parts: &[Part<TestDisk>]) -> bool {
    for part in parts {
        if let Part::Refused(_) = part {
            return true;
        }
    }
    false
}

// Prints why no room was made, where the turn behind it refuses nothing.
fn tell_made(printer: &mut Printer, made: Result<(), StageError>, turned: &Turned) {
    if let Err(error) = made {
        if !is_refused(turned) {
            printer.count("refused", u64::from(error.number()));
        }
    }
}

fn tell_turned(printer: &mut Printer, turned: Turned, receipt: &mut Option<Receipt>) {
    match turned {
        Ok(parts) => tell_parts(printer, &parts, receipt),
        Err(error) => printer.count("nothing done, refused", u64::from(error.number())),
    }
}

// One receipt, or none.
fn receipts_of<'a>(receipt: &'a Option<Receipt>) -> &'a [Receipt] {
    match receipt {
        Some(receipt) => slice::from_ref(receipt),
        None => &[],
    }
}

fn tell_called(printer: &mut Printer, called: Result<(), ClientsError>) {
    match called {
        Ok(()) => printer.line("done"),
        Err(error) => printer.refused(error.number(), error),
    }
}

impl<C: Ledger, P: Ledger, S: Ledger> Looped<C, P, S> {
    /// Takes a pass of each kind.
    pub fn take_passes<R: Wait>(&mut self, rt: &R, printer: &mut Printer) -> Result<(), Fault> {
        let (passes, stage) = (&mut self.passes, &self.stage);
        passes.add(rt, stage, printer, Kind::Clients)?;
        passes.add(rt, stage, printer, Kind::Player)?;
        passes.add(rt, stage, printer, Kind::Scan)
    }

    // Makes a turn of the loop.
    fn turn<R: Wait>(
        &mut self,
        rt: &R,
        beside: &mut Beside,
        is_bounded: bool,
    ) -> Result<(), Fault> {
        let pass = self.passes.take(CLIENTS)?;
        beside.wires.begin_turn();
        let alloc = beside.printer.alloc;
        let (made, turned, pass) = if is_bounded {
            let (turned, pass) = turns::bounded_turn(
                rt,
                alloc,
                &mut self.clients,
                &self.stage,
                pass,
            );
            (Ok(()), turned, pass)
        } else {
            let (made, pass) = made_room(rt, alloc, &self.stage, pass);
            let (turned, pass) = turns::turn(rt, alloc, &mut self.clients, &self.stage, pass);
            (made, turned, pass)
        };
        self.passes.put(CLIENTS, pass);
        tell_made(&mut beside.printer, made, &turned);
        tell_turned(&mut beside.printer, turned, &mut self.receipt);
        beside.wires.tell(&mut beside.printer);
        Ok(())
    }

    /// Ends the sharing, with all passes and the receipt that was given out last.
    pub fn settle(self, alloc: Global) -> Result<Settled, Fault> {
        let Looped {
            stage,
            clients: _,
            passes,
            receipt,
            sound: _,
        } = self;
        match passes.into_vec(alloc) {
            Ok(passes) => Ok(settled(stage, passes, receipts_of(&receipt))),
            Err(fault) => Err(fault),
        }
    }
}

// Reports an event by the pass of this place.
fn report<R: Wait, C: Ledger, P: Ledger, S: Ledger>(
    rt: &R,
    stage: &Stage<C, P, S>,
    passes: &mut Passes<C, P, S>,
    place: u64,
    beside: &mut Beside,
    line: &str,
) -> Result<(), Fault> {
    let alloc = beside.printer.alloc;
    let event = event_of(alloc, &mut beside.collected, line)?;
    let pass = passes.take(place)?;
    let (answer, pass) = reported(rt, alloc, stage, pass, event);
    passes.put(place, pass);
    if let Err(error) = answer {
        tell_stage_error(&mut beside.printer, error);
    }
    Ok(())
}

// Does what the stage orders of the player, by the player's pass.
fn play<R: Wait + Clock, C: Ledger, P: Ledger, S: Ledger>(
    rt: &R,
    host: &HostRuntime,
    looped: &mut Looped<C, P, S>,
    printer: &mut Printer,
) -> Result<(), Fault> {
    let order = looped.stage.order(rt, printer.alloc);
    let Some(order) = tell_order(printer, order) else {
        return Ok(());
    };
    let pass = looped.passes.take(PLAYER)?;
    let (made, pass) = made_room(rt, printer.alloc, &looped.stage, pass);
    if let Err(error) = made {
        looped.passes.put(PLAYER, pass);
        tell_stage_error(printer, error);
        return Ok(());
    }
    let given = (pass, &order);
    let (played, pass) = turns::play(rt, host, &looped.stage, &mut looped.sound, given);
    looped.passes.put(PLAYER, pass);
    if let Err(error) = played {
        tell_stage_error(printer, error);
    }
    looped.sound.tell(printer);
    Ok(())
}

// Carries out the scan of the job that runs, by the scan's pass.
fn scan<R: Wait + Clock, C: Ledger, P: Ledger, S: Ledger>(
    rt: &R,
    host: &HostRuntime,
    looped: &mut Looped<C, P, S>,
    printer: &mut Printer,
) -> Result<(), Fault> {
    let order = looped.stage.scan_order(rt, printer.alloc);
    let Some(order) = tell_scan_order(printer, order) else {
        return Ok(());
    };
    let pass = looped.passes.take(SCAN)?;
    let given = (pass, order);
    let (scanned, pass) = turns::scan(rt, host, &looped.stage, &looped.sound, given);
    looped.passes.put(SCAN, pass);
    tell_scanned(printer, scanned);
    looped.sound.tell(printer);
    Ok(())
}

// A client waits to connect, over a network or not.
fn connect(
    clients: &mut TestClients,
    beside: &mut Beside,
    client: u64,
    is_remote: bool,
) -> Result<(), Fault> {
    let stream = beside.wires.add(client, is_remote)?;
    Ok(turns::connect(clients, stream)?)
}

fn tell_yielded(clients: &mut TestClients, printer: &mut Printer) {
    match turns::take_yielded(clients) {
        Some((client, silence)) => {
            printer.count("gave_way", client);
            printer.count("silent", silence);
        }
        None => printer.line("nobody gave way"),
    }
}

fn tell_clients(clients: &TestClients, printer: &mut Printer) {
    if clients.is_empty() {
        printer.line("no clients");
    } else {
        printer.count("clients", clients.len() as u64);
    }
}

// Does what a word asks of the clients by a call of their own.
fn call(
    clients: &mut TestClients,
    beside: &mut Beside,
    word: &str,
    rest: &str,
) -> Result<(), Fault> {
    let alloc = beside.printer.alloc;
    match word {
        "connect" => return connect(clients, beside, number(rest)?, false),
        "remote" => return connect(clients, beside, number(rest)?, true),
        "pass" => turns::pass_time(clients, number(rest)?),
        "yielded" => tell_yielded(clients, &mut beside.printer),
        "accept" => tell_called(&mut beside.printer, turns::accept(clients, alloc)),
        "accept_some" => tell_called(&mut beside.printer, turns::accept_some(clients, alloc)),
        "read" => tell_called(
            &mut beside.printer,
            turns::read(clients, alloc, number(rest)?),
        ),
        "write" => tell_called(&mut beside.printer, turns::write(clients, number(rest)?)),
        "close_all" => turns::close_all(clients),
        "clients" => tell_clients(clients, &mut beside.printer),
        _ => return beside.take(word, rest),
    }
    beside.wires.tell(&mut beside.printer);
    Ok(())
}

/// Does what a line asks for.
pub fn take_line<R: Wait + Clock, C: Ledger, P: Ledger, S: Ledger>(
    rt: &R,
    host: &HostRuntime,
    looped: &mut Looped<C, P, S>,
    beside: &mut Beside,
    line: &str,
) -> Result<(), Fault> {
    let (word, rest) = first_word(line);
    let place = match word {
        "turn" => return looped.turn(rt, beside, false),
        "bounded_turn" => return looped.turn(rt, beside, true),
        "play_once" => return play(rt, host, looped, &mut beside.printer),
        "scan_once" => return scan(rt, host, looped, &mut beside.printer),
        "file" | "remove" | "folder" => return take_song_line(host, word, rest),
        "room" => CLIENTS,
        "batch" | "missing" | "scanned" => SCAN,
        "fed" | "ended" | "broken" | "keep" | "resume" => PLAYER,
        _ => return call(&mut looped.clients, beside, word, rest),
    };
    report(rt, &looped.stage, &mut looped.passes, place, beside, line)
}
