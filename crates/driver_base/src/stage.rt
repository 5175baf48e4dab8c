//! A stage over the two files: the daemon's state and its journal together.
use crate::desk::Desk;
use crate::driver::Life;
use crate::event::event_of;
use crate::fault::Fault;
use crate::file::TestDisk;
use crate::printer::Printer;
use crate::rows::{drop_row, put};
use crate::shown::{tell_live_error, tell_numbers, tell_order, tell_outputs, tell_scan_order};
use crate::words::first_word;
use daemon_core::Event;
use live_stage::{Live, LiveError, Refused, RefusedTurns, Turn, TurnResult, Turns};
use player_core::Order;
use profile::Profile;
use song_db::ScanOrder;
use std::alloc::Global;
use std::mem;

/// The stage of each life, so that all is proved at one type.
pub type Stage = Live<TestDisk>;

// The prover reads the long contracts of a stage in these functions alone.

fn created(
    alloc: Global,
    profile: Profile,
    a: TestDisk,
    b: TestDisk,
) -> Result<Stage, Refused<TestDisk>> {
    Live::create(alloc, profile, a, b, [0; 32])
}

fn opened(
    alloc: Global,
    profile: Profile,
    a: TestDisk,
    b: TestDisk,
) -> Result<Stage, Refused<TestDisk>> {
    Live::open(alloc, profile, a, b)
}

fn turned(stage: &mut Stage, alloc: Global, event: Event) -> TurnResult<TestDisk> {
    stage.turn(alloc, event)
}

fn ran(
    stage: &mut Stage,
    alloc: Global,
    events: Vec<Event>,
) -> Result<Vec<TurnResult<TestDisk>>, LiveError> {
    stage.run(alloc, events)
}

fn ran_in_groups(
    stage: &mut Stage,
    alloc: Global,
    events: Vec<Event>,
) -> Result<Vec<TurnResult<TestDisk>>, LiveError> {
    stage.run_groups(alloc, events)
}

fn grouped(
    stage: &mut Stage,
    alloc: Global,
    events: Vec<Event>,
) -> Result<Turns<TestDisk>, RefusedTurns> {
    stage.turn_group(alloc, events)
}

fn checkpointed(stage: &mut Stage) -> Result<(), LiveError> {
    stage.checkpoint()
}

fn ordered(stage: &Stage, alloc: Global) -> Result<Order, LiveError> {
    stage.order(alloc)
}

fn scan_ordered(stage: &Stage, alloc: Global) -> Result<Option<ScanOrder>, LiveError> {
    stage.scan_order(alloc)
}

fn begin(desk: &mut Desk, life: &mut Life, begun: Result<Stage, Refused<TestDisk>>) {
    match begun {
        Ok(stage) => *life = Life::Stage(stage),
        Err(Refused { error, a, b }) => desk.refuse(error.number(), error, a, b),
    }
}

/// Makes a stage over the files, whose key is of zeros.
pub fn make_stage(desk: &mut Desk, life: &mut Life) {
    let (a, b) = desk.take_disks();
    let begun = created(desk.printer.alloc, desk.profile, a, b);
    begin(desk, life, begun);
}

/// Opens the stage in the files.
pub fn open_stage(desk: &mut Desk, life: &mut Life) {
    let (a, b) = desk.take_disks();
    let begun = opened(desk.printer.alloc, desk.profile, a, b);
    begin(desk, life, begun);
}

fn tell_turn(printer: &mut Printer, turn: &Turn<TestDisk>) {
    tell_numbers(printer, turn);
    printer.count("outputs", turn.outputs().len() as u64);
    tell_outputs(printer, turn.outputs());
}

fn tell_answer(printer: &mut Printer, answer: TurnResult<TestDisk>) {
    match answer {
        Ok(turn) => tell_turn(printer, &turn),
        Err(error) => tell_live_error(printer, error),
    }
}

/// Lets an event happen.
fn happen(stage: &mut Stage, desk: &mut Desk, line: &str) -> Result<(), Fault> {
    let event = event_of(desk.printer.alloc, &mut desk.collected, line)?;
    let answer = turned(stage, desk.printer.alloc, event);
    tell_answer(&mut desk.printer, answer);
    Ok(())
}

/// Keeps an event for the next run.
fn keep(desk: &mut Desk, line: &str) -> Result<(), Fault> {
    let event = event_of(desk.printer.alloc, &mut desk.collected, line)?;
    match desk.later.push(event) {
        Ok(()) => Ok(()),
        Err(_) => Err(Fault::NoMemory),
    }
}

/// Lets the events that were kept happen in a run, in groups or one at a time.
fn run(stage: &mut Stage, desk: &mut Desk, is_grouped: bool) {
    let alloc = desk.printer.alloc;
    let events = mem::replace(&mut desk.later, Vec::new(alloc));
    let answered = if is_grouped {
        ran_in_groups(stage, alloc, events)
    } else {
        ran(stage, alloc, events)
    };
    match answered {
        Ok(answers) => {
            for answer in answers {
                tell_answer(&mut desk.printer, answer);
            }
        }
        Err(error) => tell_live_error(&mut desk.printer, error),
    }
}

/// Keeps the events that a group left, and prints how many there are, if there are some.
fn keep_left(desk: &mut Desk, rest: Vec<Event>) {
    if !rest.is_empty() {
        desk.printer.count("left", rest.len() as u64);
    }
    desk.later = rest;
}

/// Lets the events that were kept happen as a group.
fn group(stage: &mut Stage, desk: &mut Desk) {
    let alloc = desk.printer.alloc;
    let events = mem::replace(&mut desk.later, Vec::new(alloc));
    match grouped(stage, alloc, events) {
        Ok(
            Turns {
                turns,
                is_refused,
                rest,
            },
        ) => {
            for turn in turns {
                tell_turn(&mut desk.printer, &turn);
            }
            if is_refused {
                tell_live_error(&mut desk.printer, LiveError::NoMemory);
            }
            keep_left(desk, rest);
        }
        Err(RefusedTurns { error, rest }) => {
            tell_live_error(&mut desk.printer, error);
            keep_left(desk, rest);
        }
    }
}

/// Makes a checkpoint.
fn checkpoint(stage: &mut Stage, printer: &mut Printer) {
    match checkpointed(stage) {
        Ok(()) => printer.line("done"),
        Err(error) => tell_live_error(printer, error),
    }
}

fn tell(stage: &Stage, printer: &mut Printer) {
    printer.count("event", stage.last_event());
    printer.count("record", stage.last_record());
    if stage.are_numbers_spent() {
        printer.line("spent");
    }
    if stage.is_broken() {
        printer.line("broken");
    }
}

/// Does what a line asks of the stage.
pub fn take_stage_line(stage: &mut Stage, desk: &mut Desk, line: &str) -> Result<(), Fault> {
    let alloc = desk.printer.alloc;
    let (word, rest) = first_word(line);
    match word {
        "later" => return keep(desk, rest),
        "put" => return put(&mut desk.collected, alloc, rest),
        "drop" => return drop_row(&mut desk.collected, alloc, rest),
        "run" => run(stage, desk, false),
        "run_groups" => run(stage, desk, true),
        "group" => group(stage, desk),
        "checkpoint" => checkpoint(stage, &mut desk.printer),
        "stage" => tell(stage, &mut desk.printer),
        "order" => {
            let _order = tell_order(&mut desk.printer, ordered(stage, alloc));
        }
        "scan_order" => {
            let _order = tell_scan_order(&mut desk.printer, scan_ordered(stage, alloc));
        }
        _ => return happen(stage, desk, line),
    }
    Ok(())
}
