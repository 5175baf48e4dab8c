//! The lines of the input, one at a time, and what is written behind each.
use crate::fault::Fault;
use crate::printer::Printer;
use std::alloc::Global;
use std::io::{self, BufRead, ErrorKind, Write};

#[derive(Drop)]
pub struct Lines<B> {
    reader: B,
    line: String,
}

impl<B: BufRead> Lines<B> {
    pub fn new(alloc: Global, reader: B) -> Self {
        Lines {
            reader,
            line: String::new(alloc),
        }
    }

    /// Reads the next line; whether there is one.
    pub fn next(&mut self) -> Result<bool, Fault> {
        self.line.clear();
        Ok(self.reader.read_line(&mut self.line)? != 0)
    }

    /// The line that was read last, without its end.
    pub fn line(&self) -> &str {
        let line = self.line.as_str();
        line.strip_suffix('\n').unwrap_or(line)
    }

    /// Ends the program, behind the last line or with the one that can't be done.
    pub fn end(&self, host: &HostRuntime, done: Result<(), Fault>) -> io::Result<()> {
        match done {
            Ok(()) => Ok(()),
            Err(fault) => {
                eprintln!(host; "{}: {}", fault.text(), self.line())?;
                Err(ErrorKind::InvalidInput.into())
            }
        }
    }
}

/// Writes what a line printed.
pub fn write_out(host: &HostRuntime, printer: &mut Printer) -> Result<(), Fault> {
    printer.end()?;
    let mut writer = io::writer(host);
    writer.write_all(printer.bytes())?;
    writer.flush()?;
    printer.clear();
    Ok(())
}
