//! A journal over the two files.
use crate::desk::Desk;
use crate::driver::Life;
use crate::fault::Fault;
use crate::file::{NEVER, TestDisk};
use crate::given::read_bytes;
use crate::printer::Printer;
use crate::words::first_word;
use disk_model::{FuseDisk, MemDisk};
use play_journal::laws::{found_is_said, keeps_order};
use play_journal::{Journal, JournalError, Refused, Stored};
use profile::Profile;
use std::alloc::Global;

/// The journal of each life, so that all is proved at one type.
pub type TestJournal = Journal<TestDisk>;

// The prover reads the long contracts of a journal in these functions alone.

fn created(
    alloc: Global,
    profile: Profile,
    a: TestDisk,
    b: TestDisk,
    snapshot: &[u8],
) -> Result<TestJournal, Refused<TestDisk>> {
    match profile {
        Profile::Named => Journal::create(alloc, a, b, 2, snapshot),
        Profile::Wide => Journal::create(alloc, a, b, 3, snapshot),
    }
}

fn opened(
    alloc: Global,
    a: TestDisk,
    b: TestDisk,
) -> Result<(TestJournal, Stored), Refused<TestDisk>> {
    Journal::open(alloc, a, b)
}

fn appended(journal: &mut TestJournal, body: &[u8]) -> Result<u64, JournalError> {
    journal.append(body)
}

fn checkpointed(journal: &mut TestJournal, snapshot: &[u8]) -> Result<(), JournalError> {
    if journal.layout() == 3 {
        journal.checkpoint(3, snapshot)
    } else {
        journal.checkpoint(2, snapshot)
    }
}

fn ordered(
    alloc: Global,
    profile: Profile,
    snapshot: &[u8],
    bodies: &[Vec<u8>],
) -> Result<Stored, JournalError> {
    found_is_said();
    let a = FuseDisk::new(MemDisk::new(alloc), NEVER);
    let b = FuseDisk::new(MemDisk::new(alloc), NEVER);
    match profile {
        Profile::Named => keeps_order(alloc, a, b, 2, snapshot, bodies),
        Profile::Wide => keeps_order(alloc, a, b, 3, snapshot, bodies),
    }
}

/// What was found in the files.
fn tell_stored(printer: &mut Printer, stored: &Stored) {
    printer.hex("snapshot", stored.snapshot());
    for place in 0..stored.record_count() {
        printer.hex("record", stored.record(place));
    }
}

fn tell_refused(printer: &mut Printer, error: JournalError) {
    printer.refused(error.number(), error);
}

fn make(desk: &mut Desk, life: &mut Life, snapshot: &[u8]) {
    let (a, b) = desk.take_disks();
    match created(desk.printer.alloc, desk.profile, a, b, snapshot) {
        Ok(journal) => *life = Life::Journal(journal),
        Err(Refused { error, a, b }) => desk.refuse(error.number(), error, a, b),
    }
}

/// Makes a journal over the files, whose snapshot has these bytes.
pub fn make_journal(desk: &mut Desk, life: &mut Life, words: &str) -> Result<(), Fault> {
    let snapshot = read_bytes(desk.printer.alloc, words)?;
    make(desk, life, &snapshot);
    Ok(())
}

/// Opens the journal in the files, and prints what it finds.
pub fn open_journal(desk: &mut Desk, life: &mut Life) {
    let (a, b) = desk.take_disks();
    match opened(desk.printer.alloc, a, b) {
        Ok((journal, stored)) => {
            tell_stored(&mut desk.printer, &stored);
            *life = Life::Journal(journal);
        }
        Err(Refused { error, a, b }) => desk.refuse(error.number(), error, a, b),
    }
}

fn append(journal: &mut TestJournal, printer: &mut Printer, words: &str) -> Result<(), Fault> {
    let body = read_bytes(printer.alloc, words)?;
    match appended(journal, &body) {
        Ok(number) => printer.count("record", number),
        Err(error) => tell_refused(printer, error),
    }
    Ok(())
}

fn checkpoint(journal: &mut TestJournal, printer: &mut Printer, words: &str) -> Result<(), Fault> {
    let snapshot = read_bytes(printer.alloc, words)?;
    match checkpointed(journal, &snapshot) {
        Ok(()) => printer.line("done"),
        Err(error) => tell_refused(printer, error),
    }
    Ok(())
}

fn tell(journal: &TestJournal, printer: &mut Printer) {
    printer.count("base", journal.base());
    printer.count("records", journal.records_since_checkpoint());
    printer.count("layout", u64::from(journal.layout()));
    if journal.is_spent() {
        printer.line("spent");
    }
}

/// Does what a line asks of the journal.
pub fn take_journal_line(
    journal: &mut TestJournal,
    printer: &mut Printer,
    line: &str,
) -> Result<(), Fault> {
    let (word, rest) = first_word(line);
    match word {
        "append" => append(journal, printer, rest)?,
        "checkpoint" => checkpoint(journal, printer, rest)?,
        "journal" => tell(journal, printer),
        _ => return Err(Fault::NoDirective),
    }
    Ok(())
}

/// A journal is made of a snapshot and records, with ` ; ` between them, and prints what it has when it is opened again.
pub fn keep_order(printer: &mut Printer, profile: Profile, words: &str) -> Result<(), Fault> {
    let (snapshot, words) = words.split_once(" ; ").ok_or(Fault::NoBytes)?;
    let snapshot = read_bytes(printer.alloc, snapshot)?;
    let mut bodies = Vec::new(printer.alloc);
    for words in words.split(" ; ") {
        if bodies.push(read_bytes(printer.alloc, words)?).is_err() {
            return Err(Fault::NoMemory);
        }
    }
    match ordered(printer.alloc, profile, &snapshot, &bodies) {
        Ok(stored) => tell_stored(printer, &stored),
        Err(error) => tell_refused(printer, error),
    }
    Ok(())
}
