//! A core over a fresh state, and its clients, to which the lines of the input happen.
//!
//! Functions below take the few parts that they need, and not all of them: the prover would go over all of it in each.
use super::connected::{Connected, add, remove, set_takes};
use super::events::{Printed, handle};
use super::looks::look;
use super::recover::recover;
use super::sends::{send_often, sending_of};
use crate::event::event_of;
use crate::fault::Fault;
use crate::lines::{Lines, write_out};
use crate::printer::Printer;
use crate::rows::{batch_of, drop_row, put};
use crate::wire::takes_of;
use crate::words::{first_word, number};
use daemon_core::{Core, Event};
use idle_masks::ClientId;
use profile::Profile;
use song_db::RowChange;
use state_codec::Saved;
use std::alloc::Global;
use std::collections::BTreeMap;
use std::io::BufRead;

/// What lines said of those that follow them.
#[derive(Clone, Copy)]
struct Settings {
    /// How many bytes a piece has; 0 leaves each send whole.
    pieces: usize,
    /// How many bytes each stream takes with a write at most; none where it blocks.
    takes: Option<usize>,
    /// How often the next line is done, if that was said.
    turns: Option<u64>,
}

#[derive(Drop)]
struct Life {
    core: Core,
    clients: Connected,
    printed: Printed,
    /// What the next batches have.
    collected: Vec<RowChange>,
    settings: Settings,
}

fn connect(
    core: &mut Core,
    clients: &mut Connected,
    printed: &mut Printed,
    number: ClientId,
    takes: Option<usize>,
) -> Result<(), Fault> {
    add(clients, printed.printer.alloc, number, takes)?;
    handle(core, clients, printed, Event::Connect(number));
    Ok(())
}

fn leave(core: &mut Core, clients: &mut Connected, printed: &mut Printed, number: ClientId) {
    let _was_there = remove(clients, number);
    handle(core, clients, printed, Event::Gone(number));
}

// The scan of a job finds what was collected, 64 changes a batch.
fn batch(
    core: &mut Core,
    clients: &mut Connected,
    printed: &mut Printed,
    collected: &mut Vec<RowChange>,
    job: u32,
) -> Result<(), Fault> {
    for _turn in 0..collected.len() {
        if collected.is_empty() {
            break;
        }
        let changes = batch_of(collected)?;
        handle(core, clients, printed, Event::Batch { job, changes });
    }
    Ok(())
}

// Does what a line asks for that goes to the core.
fn happen(
    core: &mut Core,
    clients: &mut Connected,
    printed: &mut Printed,
    collected: &mut Vec<RowChange>,
    line: &str,
) -> Result<(), Fault> {
    let (word, rest) = first_word(line);
    match word {
        "gone" => leave(core, clients, printed, number(rest)?),
        "batch" => return batch(core, clients, printed, collected, number(rest)?),
        "line" | "list" | "fed" | "ended" | "broken" | "missing" | "scanned" => {
            let event = event_of(printed.printer.alloc, collected, line)?;
            handle(core, clients, printed, event);
        }
        "recover" => return recover(core, clients, &mut printed.printer, rest),
        _ => return look(core, clients, printed, word),
    }
    Ok(())
}

// Does what a line asks for that is no send.
fn take(
    core: &mut Core,
    clients: &mut Connected,
    printed: &mut Printed,
    collected: &mut Vec<RowChange>,
    settings: &mut Settings,
    line: &str,
) -> Result<(), Fault> {
    let (word, rest) = first_word(line);
    match word {
        "connect" => return connect(core, clients, printed, number(rest)?, settings.takes),
        "put" => return put(collected, printed.printer.alloc, rest),
        "drop" => return drop_row(collected, printed.printer.alloc, rest),
        "pieces" => settings.pieces = number(rest)?,
        "again" => settings.turns = Some(number(rest)?),
        "takes" => {
            settings.takes = takes_of(rest)?;
            set_takes(clients, settings.takes, &mut printed.printer);
        }
        _ => return happen(core, clients, printed, collected, line),
    }
    Ok(())
}

/// The two parts of a send.
fn parts_of_send<'a>(line: &'a str) -> Option<(&'a str, &'a str)> {
    if line.starts_with(|letter: char| letter.is_ascii_digit()) {
        line.split_once('>')
    } else {
        None
    }
}

impl Life {
    // A core over a fresh saved state, whose key is of zeros, and no client.
    fn new(alloc: Global) -> Result<Self, Fault> {
        Ok(Life {
            core: Core::new(alloc, Saved::fresh(alloc, Profile::Named, [0; 32])?),
            clients: BTreeMap::new(alloc),
            printed: Printed {
                printer: Printer::new(alloc),
                spells: false,
            },
            collected: Vec::new(alloc),
            settings: Settings {
                pieces: 0,
                takes: Some(usize::MAX),
                turns: None,
            },
        })
    }

    // What the lines since it was cleared printed.
    fn printer(&mut self) -> &mut Printer {
        &mut self.printed.printer
    }

    // Does what a line asks for.
    fn take(&mut self, line: &str) -> Result<(), Fault> {
        let (core, clients) = (&mut self.core, &mut self.clients);
        let (printed, settings) = (&mut self.printed, &mut self.settings);
        match (parts_of_send(line), settings.turns.take()) {
            (Some((sender, rest)), turns) => {
                let (sending, turns) = (sending_of(sender, rest)?, turns.unwrap_or(1));
                send_often(core, clients, printed, sending, settings.pieces, turns)
            }
            (None, Some(_)) => Err(Fault::NoDirective),
            (None, None) => take(core, clients, printed, &mut self.collected, settings, line),
        }
    }
}

// Does what the lines up to `close` ask for; `false` where the input ends before.
fn serve<B: BufRead>(
    host: &HostRuntime,
    life: &mut Life,
    lines: &mut Lines<B>,
) -> Result<bool, Fault> {
    for _ in 0..u64::MAX {
        write_out(host, life.printer())?;
        if !lines.next()? {
            break;
        }
        if lines.line() == "close" {
            return Ok(true);
        }
        life.take(lines.line())?;
    }
    Ok(false)
}

/// A core, to which the lines up to `close` happen; `false` where the input ends before.
// The core has many parts: this function has one way out, and all others borrow it.
pub fn live_core<B: BufRead>(host: &HostRuntime, lines: &mut Lines<B>) -> Result<bool, Fault> {
    let mut life = Life::new(host.alloc())?;
    serve(host, &mut life, lines)
}
