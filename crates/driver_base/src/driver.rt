//! The files and the life over them, to which the lines of the input happen.
use crate::desk::Desk;
use crate::fault::Fault;
use crate::journal::{TestJournal, make_journal, open_journal, take_journal_line};
use crate::stage::{Stage, make_stage, open_stage, take_stage_line};
use crate::words::first_word;
use no_memory::NoMemory;
use std::alloc::Global;
use std::mem;

/// What stands over the files.
#[derive(Drop)]
pub enum Life {
    None,
    Journal(TestJournal),
    Stage(Stage),
}

#[derive(Drop)]
pub struct Driver {
    pub desk: Desk,
    life: Life,
}

/// Does what a line asks for where nothing stands over the files.
fn take_line(
    desk: &mut Desk,
    life: &mut Life,
    host: &HostRuntime,
    line: &str,
) -> Result<(), Fault> {
    let (word, rest) = first_word(line);
    match word {
        "make_journal" => make_journal(desk, life, rest)?,
        "open_journal" => open_journal(desk, life),
        "make_stage" => make_stage(desk, life),
        "open_stage" => open_stage(desk, life),
        _ => return desk.take(host, word, rest),
    }
    Ok(())
}

/// Ends a life, and puts its disks back.
fn close(desk: &mut Desk, life: Life) -> Result<(), Fault> {
    let (a, b) = match life {
        Life::None => return Err(Fault::NoDirective),
        Life::Journal(journal) => journal.into_disks(),
        Life::Stage(stage) => stage.into_disks(),
    };
    desk.put_back(a, b);
    Ok(())
}

impl Driver {
    /// Two empty files in memory, and nothing over them.
    pub fn new(alloc: Global) -> Result<Self, NoMemory> {
        Ok(Driver {
            desk: Desk::new(alloc)?,
            life: Life::None,
        })
    }

    /// Whether nothing stands over the files.
    pub fn is_free(&self) -> bool {
        matches!(self.life, Life::None)
    }

    /// Does what a line asks for.
    pub fn take(&mut self, host: &HostRuntime, line: &str) -> Result<(), Fault> {
        let desk = &mut self.desk;
        if line == "close" {
            return close(desk, mem::replace(&mut self.life, Life::None));
        }
        match &mut self.life {
            Life::Journal(journal) => take_journal_line(journal, &mut desk.printer, line),
            Life::Stage(stage) => take_stage_line(stage, desk, line),
            life => take_line(desk, life, host, line),
        }
    }
}
