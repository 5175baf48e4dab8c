//! What is printed of answers.
use crate::kind::name_of;
use driver_base::shown::{tell_live_error, tell_numbers, tell_outputs};
use driver_base::{Printer, TestDisk};
use live_stage::{Live, LiveError};
use stage_workers::{Outbox, Scanned, Served, SettleError, StageError};

/// What events left for the clients.
pub fn tell_left(printer: &mut Printer, left: &Outbox) {
    for outputs in left.as_slice() {
        printer.count("left", outputs.as_slice().len() as u64);
        tell_outputs(printer, outputs.as_slice());
    }
}

pub fn tell_served(printer: &mut Printer, served: &Served<TestDisk>) {
    tell_left(printer, &served.before);
    tell_numbers(printer, &served.turn);
    tell_outputs(printer, served.turn.outputs());
}

pub fn tell_stage_error(printer: &mut Printer, error: StageError) {
    printer.refused(error.number(), error);
}

pub fn tell_scanned(printer: &mut Printer, scanned: Result<Scanned, StageError>) {
    match scanned {
        Ok(scanned) if scanned.is_left_off => printer.line("left off"),
        Ok(scanned) if scanned.withheld.is_some() => printer.line("withheld"),
        Ok(_) => {}
        Err(error) => tell_stage_error(printer, error),
    }
}

pub fn tell_rewound(printer: &mut Printer, rewound: Result<(), StageError>) {
    match rewound {
        Ok(()) => printer.line("none"),
        Err(error) => tell_stage_error(printer, error),
    }
}

pub fn tell_job(printer: &mut Printer, job: Result<Option<u32>, LiveError>) {
    match job {
        Ok(Some(job)) => printer.count("job", u64::from(job)),
        Ok(None) => printer.line("no job"),
        Err(error) => tell_live_error(printer, error),
    }
}

pub fn tell_settled(printer: &mut Printer, refusal: Option<SettleError>, live: &Live<TestDisk>) {
    match refusal {
        None => printer.line("settled"),
        Some(error) => {
            printer.refused(error.number(), error);
            if let SettleError::ShareMismatch(kind) = error {
                printer.line(name_of(kind));
            }
        }
    }
    printer.count("event", live.last_event());
    printer.count("record", live.last_record());
    if live.is_broken() {
        printer.line("broken");
    }
}
