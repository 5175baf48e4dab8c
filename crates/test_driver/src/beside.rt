//! What stands beside a loop: the connections, the rows of the next batch, and what is printed.
use crate::wires::Wires;
use driver_base::rows::{drop_row, put};
use driver_base::words::number;
use driver_base::{Fault, Printer};
use song_db::RowChange;
use std::alloc::Global;

#[derive(Drop)]
pub struct Beside {
    pub printer: Printer,
    pub wires: Wires,
    /// What the next batches have.
    pub collected: Vec<RowChange>,
}

impl Beside {
    pub fn new(alloc: Global) -> Self {
        Beside {
            printer: Printer::new(alloc),
            wires: Wires::new(alloc),
            collected: Vec::new(alloc),
        }
    }

    /// Does what a line asks of a connection, or of the next batch.
    pub fn take(&mut self, word: &str, rest: &str) -> Result<(), Fault> {
        match word {
            "put" => put(&mut self.collected, self.printer.alloc, rest),
            "reads" => {
                self.wires.tells_reads = true;
                Ok(())
            }
            "drop" => drop_row(&mut self.collected, self.printer.alloc, rest),
            _ => match word.split_once('>') {
                Some((client, sign)) => self.wires.send(number(client)?, rest, sign != "-"),
                None => self.wires.set(number(word)?, rest),
            },
        }
    }
}
