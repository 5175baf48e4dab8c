//! The two files, and what is done with them between two lives.
use crate::calls::call_file;
use crate::codec::Codec;
use crate::fake::call_fake;
use crate::fault::Fault;
use crate::file::{DaemonDisk, File, TestDisk};
use crate::journal::keep_order;
use crate::printer::Printer;
use crate::songs::take_song_line;
use crate::words::first_word;
use daemon_core::{Event, NoMemory, RecoverError};
use live_stage::{LiveError, StartError};
use play_journal::JournalError;
use profile::Profile;
use song_db::RowChange;
use state_codec::{ApplyError, BodyError, CodecError};
use std::alloc::Global;
use std::fmt::Display;
use std::mem;

#[derive(Drop)]
pub struct Desk {
    pub printer: Printer,
    /// The profile under which a journal or a stage is made or opened.
    pub profile: Profile,
    a: File,
    b: File,
    /// Files that were put aside for copies of them.
    aside: Option<(File, File)>,
    /// The events of the next run.
    pub later: Vec<Event>,
    /// What the next batches have.
    pub collected: Vec<RowChange>,
    codec: Codec,
}

// The refusals that no line can bring about: those for want of memory of a journal, of a stage that begins, of one that runs, of a core, of
// a reading, of the body of a record and of an op; and a core's of an op that doesn't apply.
fn tell_refusals(printer: &mut Printer) {
    printer.refused(JournalError::NoMemory.number(), JournalError::NoMemory);
    printer.refused(StartError::NoMemory.number(), StartError::NoMemory);
    printer.refused(LiveError::NoMemory.number(), LiveError::NoMemory);
    printer.refused(NoMemory.number(), NoMemory);
    printer.refused(RecoverError::NoMemory.number(), RecoverError::NoMemory);
    printer.refused(RecoverError::BadOp(3).number(), RecoverError::BadOp(3));
    printer.refused(CodecError::NoMemory.number(), CodecError::NoMemory);
    printer.refused(BodyError::NoMemory.number(), BodyError::NoMemory);
    printer.refused(ApplyError::NoMemory.number(), ApplyError::NoMemory);
}

impl Desk {
    pub fn new(alloc: Global) -> Result<Self, NoMemory> {
        Ok(Desk {
            printer: Printer::new(alloc),
            profile: Profile::Named,
            a: File::empty(alloc),
            b: File::empty(alloc),
            aside: None,
            later: Vec::new(alloc),
            collected: Vec::new(alloc),
            codec: Codec::new(alloc)?,
        })
    }

    /// Takes the disks for a life.
    pub fn take_disks(&mut self) -> (TestDisk, TestDisk) {
        (self.a.take(), self.b.take())
    }

    /// Takes the disks for the lives of a daemon.
    pub fn take_for_daemon(&mut self) -> (DaemonDisk, DaemonDisk) {
        (self.a.take_for_daemon(), self.b.take_for_daemon())
    }

    /// Puts the disks back after a life.
    pub fn put_back(&mut self, a: TestDisk, b: TestDisk) {
        self.a.put_back(a);
        self.b.put_back(b);
    }

    /// No life begins.
    pub fn refuse(&mut self, number: u8, error: impl Display + Drop, a: TestDisk, b: TestDisk) {
        self.printer.refused(number, error);
        self.put_back(a, b);
    }

    // Goes on with empty files.
    fn empty(&mut self) {
        self.a = File::empty(self.printer.alloc);
        self.b = File::empty(self.printer.alloc);
    }

    // Goes on with copies of the files.
    fn put_aside(&mut self) -> Result<(), Fault> {
        let (a, b) = (self.a.copied()?, self.b.copied()?);
        let a = mem::replace(&mut self.a, a);
        let b = mem::replace(&mut self.b, b);
        self.aside = Some((a, b));
        Ok(())
    }

    // Goes on with the files that were put aside.
    fn bring_back(&mut self) -> Result<(), Fault> {
        let (a, b) = self.aside.take().ok_or(Fault::NoDirective)?;
        self.a = a;
        self.b = b;
        Ok(())
    }

    // The profile of the lives from now on.
    fn choose(&mut self, word: &str) -> Result<(), Fault> {
        self.profile = match word {
            "named" => Profile::Named,
            "wide" => Profile::Wide,
            _ => return Err(Fault::NoDirective),
        };
        Ok(())
    }

    /// Does what a line asks for that begins no life.
    pub fn take(&mut self, host: &HostRuntime, word: &str, rest: &str) -> Result<(), Fault> {
        match word {
            "a" => return self.a.take_words(&mut self.printer, rest),
            "b" => return self.b.take_words(&mut self.printer, rest),
            "aside" => return self.put_aside(),
            "back" => return self.bring_back(),
            "profile" => return self.choose(rest),
            "real" => {
                let (path, calls) = first_word(rest);
                return call_file(host, &mut self.printer, path, calls);
            }
            "fake" => return call_fake(&mut self.printer, rest),
            "keeps" => return keep_order(&mut self.printer, self.profile, rest),
            "file" | "remove" | "shorten" | "folder" => return take_song_line(host, word, rest),
            "bare" => self.empty(),
            "refusals" => tell_refusals(&mut self.printer),
            _ => return self.codec.take(&mut self.printer, word, rest),
        }
        Ok(())
    }
}
