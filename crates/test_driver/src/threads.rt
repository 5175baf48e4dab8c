//! What a thread does that serves events.
use crate::calls::{Stage, served};
use crate::shown::tell_stage_error;
use driver_base::Printer;
use driver_base::event::event_of;
use driver_base::shown::tell_outputs;
use stage_workers::Pass;
use std::alloc::Global;
use std::sync::Wait;
use std::sync::ledger::Ledger;

/// What came of the events of a thread: its pass, the numbers of the events, and the outputs.
#[derive(Drop)]
pub struct Done<C: Ledger, P: Ledger, S: Ledger> {
    pub pass: Pass<C, P, S>,
    pub events: Vec<u64>,
    pub printer: Printer,
}

/// Serves an event, and keeps its number.
fn serve<C: Ledger, P: Ledger, S: Ledger, R: Wait>(
    rt: &R,
    stage: &Stage<C, P, S>,
    pass: Pass<C, P, S>,
    events: &mut Vec<u64>,
    printer: &mut Printer,
    text: &str,
) -> Pass<C, P, S> {
    let mut none = Vec::new(printer.alloc);
    let Ok(event) = event_of(printer.alloc, &mut none, text) else {
        printer.line("no event");
        return pass;
    };
    let (answer, pass) = served(rt, printer.alloc, stage, pass, event);
    match answer {
        Ok(served) => {
            tell_outputs(printer, served.turn.outputs());
            if events.push(served.turn.event()).is_err() {
                printer.lack();
            }
        }
        Err(error) => tell_stage_error(printer, error),
    }
    pass
}

/// Serves these events, with ` ; ` between them.
pub fn serve_all<C: Ledger, P: Ledger, S: Ledger, R: Wait>(
    rt: &R,
    alloc: Global,
    stage: &Stage<C, P, S>,
    pass: Pass<C, P, S>,
    text: &str,
) -> Done<C, P, S> {
    let mut pass = pass;
    let mut events = Vec::new(alloc);
    let mut printer = Printer::new(alloc);
    for text in text.split(" ; ") {
        pass = serve(rt, stage, pass, &mut events, &mut printer, text);
    }
    Done {
        pass,
        events,
        printer,
    }
}
