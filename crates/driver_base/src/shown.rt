//! What is printed of answers and orders.
use crate::file::TestDisk;
use crate::printer::Printer;
use daemon_core::Output;
use live_stage::{LiveError, Turn};
use player_core::{Order, PlayOrder};
use song_db::ScanOrder;

pub fn tell_outputs(printer: &mut Printer, outputs: &[Output]) {
    for output in outputs {
        printer.output(output.client, output.bytes.as_slice());
    }
}

/// What an answer holds beside its outputs: an event has one number, which its receipt has too.
pub fn tell_numbers(printer: &mut Printer, turn: &Turn<TestDisk>) {
    let receipt = turn.receipt();
    printer.count("event", turn.event());
    if receipt.event != turn.event() {
        printer.count("receipt of event", receipt.event);
    }
    if let Some(number) = receipt.number {
        printer.count("record", number);
    }
    if let Some(place) = turn.refused_at() {
        printer.count("no memory at", u64::from(place));
    }
    for client in turn.closes() {
        printer.count("closed", *client);
    }
    if turn.ended() {
        printer.line("ended");
    }
}

pub fn tell_live_error(printer: &mut Printer, error: LiveError) {
    printer.refused(error.number(), error);
}

/// Prints what the output is to do; the song that it is to play, if there is one.
pub fn tell_order(printer: &mut Printer, order: Result<Order, LiveError>) -> Option<PlayOrder> {
    match order {
        Ok(Order::Wait) => printer.line("wait"),
        Ok(Order::Play(order)) => {
            printer.add(b"play");
            printer.next(order.ticket);
            printer.next(order.first_frame);
            printer.next(u64::from(order.volume.percent()));
            printer.add(b" ");
            printer.line(order.uri.as_str());
            return Some(order);
        }
        Err(error) => tell_live_error(printer, error),
    }
    None
}

/// Prints what is to be read; the order, if there is one.
pub fn tell_scan_order(
    printer: &mut Printer,
    order: Result<Option<ScanOrder>, LiveError>,
) -> Option<ScanOrder> {
    match order {
        Ok(None) => printer.line("no scan"),
        Ok(Some(order)) => {
            printer.add(b"scan");
            printer.next(u64::from(order.job()));
            printer.next(order.known().len() as u64);
            printer.add(b" ");
            printer.line(match order.uri() {
                Some(uri) => uri.as_str(),
                None => "/",
            });
            return Some(order);
        }
        Err(error) => tell_live_error(printer, error),
    }
    None
}
