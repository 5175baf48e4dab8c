//! What is printed without an event.
use super::connected::{Connected, queued_len};
use super::events::Printed;
use crate::codec::snapshots;
use crate::fault::Fault;
use crate::printer::Printer;
use crate::shown::{tell_order, tell_scan_order};
use daemon_core::{Core, NoMemory};
use live_stage::LiveError;
use player_core::Order;
use song_db::ScanOrder;
use state_codec::Saved;
use std::alloc::Global;

// The prover reads the contracts of these calls here alone.

fn order_of(core: &Core, alloc: Global) -> Result<Order, LiveError> {
    match core.order(alloc) {
        Ok(order) => Ok(order),
        Err(NoMemory) => Err(LiveError::NoMemory),
    }
}

fn scan_order_of(core: &Core, alloc: Global) -> Result<Option<ScanOrder>, LiveError> {
    match core.scan_order(alloc) {
        Ok(order) => Ok(order),
        Err(NoMemory) => Err(LiveError::NoMemory),
    }
}

fn saved_of(core: &Core, alloc: Global) -> Result<Saved, NoMemory> {
    core.saved(alloc)
}

/// Prints what a word asks for.
pub fn look(
    core: &Core,
    clients: &Connected,
    printed: &mut Printed,
    word: &str,
) -> Result<(), Fault> {
    let printer = &mut printed.printer;
    let alloc = printer.alloc;
    match word {
        "order" => {
            let _order = tell_order(printer, order_of(core, alloc));
        }
        "scan_order" => {
            let _order = tell_scan_order(printer, scan_order_of(core, alloc));
        }
        "holds" => print_holds(clients, printer),
        "spell" => printed.spells = true,
        "saved" => print_saved(core.as_saved(), printer),
        "copy" => print_copy(core, printer),
        _ => return Err(Fault::NoDirective),
    }
    Ok(())
}

fn print_holds(clients: &Connected, printer: &mut Printer) {
    printer.add(b"holds");
    printer.next(queued_len(clients) as u64);
    printer.next(clients.len() as u64);
    printer.add(b"\n");
}

fn print_saved(saved: &Saved, printer: &mut Printer) {
    match snapshots::put(printer.alloc, saved) {
        Ok(bytes) => printer.hex("saved", &bytes),
        Err(NoMemory) => printer.lack(),
    }
}

fn print_copy(core: &Core, printer: &mut Printer) {
    match saved_of(core, printer.alloc) {
        Ok(saved) => print_saved(&saved, printer),
        Err(NoMemory) => printer.lack(),
    }
}
