//! Calls of a disk, and what each gives.
use crate::fault::Fault;
use crate::given::read_bytes;
use crate::printer::Printer;
use crate::words::{first_word, number};
use disk_model::{Disk, DiskError, FileDisk};
use std::os::unix::fs::FileExt;
use std::rt::Files;

fn tell_done(printer: &mut Printer, answer: Result<(), DiskError>) {
    match answer {
        Ok(()) => printer.line("done"),
        Err(error) => printer.refused(error.number(), error),
    }
}

fn read_some<D: Disk>(disk: &mut D, printer: &mut Printer, words: &str) -> Result<(), Fault> {
    let (at, count) = first_word(words);
    let mut buffer = vec![in printer.alloc; 0u8; number(count)?]?;
    match disk.read_at(number(at)?, &mut buffer) {
        Ok(()) => printer.hex("bytes", &buffer),
        Err(error) => printer.refused(error.number(), error),
    }
    Ok(())
}

fn write_some<D: Disk>(disk: &mut D, printer: &mut Printer, words: &str) -> Result<(), Fault> {
    let (at, words) = first_word(words);
    let bytes = read_bytes(printer.alloc, words)?;
    tell_done(printer, disk.write_at(number(at)?, &bytes));
    Ok(())
}

fn measure<D: Disk>(disk: &D, printer: &mut Printer) {
    printer.count("length", disk.len());
    if disk.is_empty() {
        printer.line("empty");
    }
}

fn call<D: Disk>(disk: &mut D, printer: &mut Printer, words: &str) -> Result<(), Fault> {
    let (word, rest) = first_word(words);
    match word {
        "read" => read_some(disk, printer, rest)?,
        "write" => write_some(disk, printer, rest)?,
        "cut" => tell_done(printer, disk.cut(number(rest)?)),
        "sync" => tell_done(printer, disk.sync()),
        "length" => measure(disk, printer),
        "faults" => printer.count("faults", disk.faults()),
        _ => return Err(Fault::NoDirective),
    }
    Ok(())
}

/// Makes these calls of a disk, with ` ; ` between them.
pub fn make_calls<D: Disk>(disk: &mut D, printer: &mut Printer, words: &str) -> Result<(), Fault> {
    for words in words.split(" ; ") {
        call(disk, printer, words)?;
    }
    Ok(())
}

/// Opens a file, makes these calls of it, and tells whether the system failed one.
pub fn call_file<R: Files>(
    rt: &R,
    printer: &mut Printer,
    path: &str,
    calls: &str,
) -> Result<(), Fault>
where
    R::File: FileExt,
{
    match FileDisk::open(rt, path) {
        Ok(mut disk) => {
            let done = make_calls(&mut disk, printer, calls);
            if disk.error().is_some() {
                printer.line("an error");
            }
            done
        }
        Err(_) => {
            printer.line("not opened");
            Ok(())
        }
    }
}
