//! The stored form: a saved state, and bytes that may spell one, its ops or a record.
use crate::fault::Fault;
use crate::given::read_bytes;
use crate::printer::Printer;
use crate::words::{first_word, number};
use no_memory::NoMemory;
use profile::Profile;
use state_codec::Saved;
use std::alloc::Global;

mod applying;
pub mod ops;
mod shown;
pub mod snapshots;

/// The layout in which bytes are read until a line says another.
pub const LAYOUT: u32 = 2;

#[derive(Drop)]
pub struct Codec {
    alloc: Global,
    /// The layout of the journal in which bytes are read.
    layout: u32,
    state: Saved,
    /// The bytes that were given last.
    given: Vec<u8>,
}

impl Codec {
    /// A new state under a key of zeros, and no bytes; they are read in the layout of the named subset.
    pub fn new(alloc: Global) -> Result<Self, NoMemory> {
        Ok(Codec {
            alloc,
            layout: LAYOUT,
            state: Saved::fresh(alloc, Profile::Named, [0; 32])?,
            given: Vec::new(alloc),
        })
    }

    /// Does what a line asks for.
    pub fn take(&mut self, printer: &mut Printer, word: &str, rest: &str) -> Result<(), Fault> {
        match word {
            "fresh" => self.renew(rest),
            "bytes" => self.give(rest),
            "more" => self.give_more(rest),
            "layout" => {
                self.layout = u32::from(number::<u8>(rest)?);
                Ok(())
            }
            "changed" => self.take_changed(printer, rest),
            "often" => self.take_often(rest),
            "ops" | "cut_ops" | "snapshot" | "cut_snapshot" | "body" | "apply" => {
                self.give_if_any(rest)?;
                self.take_given(printer, word)
            }
            _ => self.tell(printer, word),
        }
    }

    // Does what a line asks for of the bytes that were given last.
    fn take_given(&mut self, printer: &mut Printer, word: &str) -> Result<(), Fault> {
        match word {
            "ops" => return ops::tell_ops(printer, self.layout, &self.given),
            "cut_ops" => self.tell_fronts(printer, true),
            "snapshot" => self.read_snapshot(printer),
            "cut_snapshot" => self.tell_fronts(printer, false),
            "body" => self.apply_body(printer),
            _ => return self.apply_given(printer),
        }
        Ok(())
    }

    // Does what a line asks for of the state.
    fn tell(&mut self, printer: &mut Printer, word: &str) -> Result<(), Fault> {
        match word {
            "widen" => self.state.widen(self.alloc)?,
            "spelled" => return self.tell_spelled(printer),
            "respelled" => return self.tell_again(printer),
            "shown" => shown::tell_state(printer, &self.state),
            _ => return Err(Fault::NoDirective),
        }
        Ok(())
    }

    // The bytes of a text are given, unless it is empty.
    fn give_if_any(&mut self, text: &str) -> Result<(), Fault> {
        if text.is_empty() {
            Ok(())
        } else {
            self.give(text)
        }
    }

    fn renew(&mut self, text: &str) -> Result<(), Fault> {
        self.state = Saved::fresh(self.alloc, Profile::Named, [number(text)?; 32])?;
        Ok(())
    }

    fn give(&mut self, text: &str) -> Result<(), Fault> {
        self.given = read_bytes(self.alloc, text)?;
        Ok(())
    }

    fn give_more(&mut self, text: &str) -> Result<(), Fault> {
        let bytes = read_bytes(self.alloc, text)?;
        Ok(self.given.extend_from_slice(&bytes)?)
    }

    fn take_changed(&mut self, printer: &mut Printer, text: &str) -> Result<(), Fault> {
        let (place, text) = first_word(text);
        self.read_changed(printer, number(place)?, number(text)?)
    }

    fn take_often(&mut self, text: &str) -> Result<(), Fault> {
        let (count, text) = first_word(text);
        self.apply_often(number(count)?, text)
    }
}
