//! The parts of the state, as they are printed.
use crate::printer::Printer;
use state_codec::Saved;

/// Prints the state, a line for each part.
pub fn tell_state(printer: &mut Printer, state: &Saved) {
    let (key, order) = (state.key(), state.order());
    let (volume, options) = (state.volume(), state.options());
    printer.text(format!(in printer.alloc;
        "{key:?}\norder {order}\n{volume:?}\n{options:?}\n"
    ).ok());
    let (songs, queue) = (state.songs(), state.queue());
    printer.text(format!(in printer.alloc; "{songs:?}\n{queue:?}\n").ok());
    let (lists, stickers) = (state.lists(), state.stickers());
    printer.text(format!(in printer.alloc; "{lists:?}\n{stickers:?}\n").ok());
    if let Some(place) = state.place() {
        printer.text(format!(in printer.alloc; "{place:?}\n").ok());
    }
}
