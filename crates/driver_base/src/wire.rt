//! One connection in memory: what its client sends, and what its stream took.
ghost use Rattle.std.specs.Io.{ReadsAtMost, WritesAtMost};

use crate::fault::Fault;
use crate::printer::Printer;
use crate::words::{first_word, number};
use std::alloc::{AllocError, Global};
use std::cell::RefCell;
use std::io::{self, ErrorKind, Read, Write};
use std::rc::Rc;

/// An error in place of one call.
#[derive(Clone, Copy)]
struct Trouble {
    /// Which call from now on, counted from 1; 0 where it is over.
    call: u64,
    kind: ErrorKind,
}

const NO_TROUBLE: Trouble = Trouble {
    call: 0,
    kind: ErrorKind::Other,
};

impl Trouble {
    /// Meets the next call.
    fn meet(&mut self) -> Result<(), ErrorKind> {
        if self.call == 0 {
            return Ok(());
        }
        self.call -= 1;
        if self.call == 0 {
            Err(self.kind)
        } else {
            Ok(())
        }
    }

    /// The trouble of these words: which call, and how it fails.
    fn read(words: &str) -> Result<Trouble, Fault> {
        let (call, how) = first_word(words);
        let kind = match how {
            "fails" => ErrorKind::ConnectionReset,
            "blocks" => ErrorKind::WouldBlock,
            "interrupted" => ErrorKind::Interrupted,
            _ => return Err(Fault::NoDirective),
        };
        Ok(Trouble {
            call: number(call)?,
            kind,
        })
    }
}

/// What a client's stream gives and takes.
#[derive(Drop)]
pub struct Wire {
    input: Vec<u8>,
    /// How many bytes of it were read, and of how many that was told.
    place: usize,
    told: usize,
    /// The number, among all reads, of the first one since.
    first_read: u64,
    /// Whether nothing more comes behind it.
    is_ended: bool,
    /// How many bytes a read gives at most.
    width: usize,
    /// How many it gives in a turn of the loop, and how many are left of them.
    budget: usize,
    left: usize,
    output: Vec<u8>,
    /// How many bytes a write takes at most; none where it blocks.
    takes: Option<usize>,
    reads: Trouble,
    writes: Trouble,
}

/// Two halves of a stream have it, and the one who tells what it took.
pub type SharedWire = Rc<RefCell<Wire>>;

/// How often any stream gave bytes.
pub type ReadCount = Rc<RefCell<u64>>;

fn width_of(text: &str) -> Result<usize, Fault> {
    if text == "all" {
        return Ok(usize::MAX);
    }
    number(text)
}

/// How many bytes a write takes at most; none where it blocks.
pub fn takes_of(text: &str) -> Result<Option<usize>, Fault> {
    match text {
        "none" => Ok(None),
        _ => Ok(Some(width_of(text)?)),
    }
}

impl Wire {
    pub fn new(alloc: Global) -> Self {
        Wire {
            input: Vec::new(alloc),
            place: 0,
            told: 0,
            first_read: 0,
            is_ended: false,
            width: usize::MAX,
            budget: usize::MAX,
            left: usize::MAX,
            output: Vec::new(alloc),
            takes: Some(usize::MAX),
            reads: NO_TROUBLE,
            writes: NO_TROUBLE,
        }
    }

    /// Its client sends bytes.
    pub fn send(&mut self, bytes: &[u8]) -> Result<(), AllocError> {
        self.input.extend_from_slice(bytes)
    }

    /// A turn of the loop begins.
    pub fn begin_turn(&mut self) {
        self.left = self.budget;
    }

    // It gave bytes, as the stream that this read of all was made of.
    fn note_read(&mut self, number: u64) {
        if self.first_read == 0 {
            self.first_read = number;
        }
    }

    /// Prints how many bytes were read of it since, and which read of all was the first.
    pub fn tell_reads(&mut self, printer: &mut Printer, client: u64) {
        let count = self.place.saturating_sub(self.told);
        if count > 0 {
            printer.number(client);
            printer.add(b" read");
            printer.next(count as u64);
            printer.next(self.first_read);
            printer.add(b"\n");
        }
        self.told = self.place;
        self.first_read = 0;
    }

    /// Prints what it took since.
    pub fn tell(&mut self, printer: &mut Printer, client: u64) {
        printer.output(client, self.output.as_slice());
        self.output.clear();
    }

    /// From now on it gives or takes as the words say.
    pub fn take_words(&mut self, words: &str) -> Result<(), Fault> {
        let (word, rest) = first_word(words);
        match word {
            "ends" => self.is_ended = true,
            "gives" => self.width = width_of(rest)?,
            "budget" => self.budget = width_of(rest)?,
            "read" => self.reads = Trouble::read(rest)?,
            "write" => self.writes = Trouble::read(rest)?,
            "takes" => self.takes = takes_of(rest)?,
            _ => return Err(Fault::NoDirective),
        }
        Ok(())
    }

    // Gives what was not read yet.
    fn give(&mut self, buf: &mut [u8]) -> Result<usize, ErrorKind>
        ensures { ReadsAtMost result buf.new }
    {
        self.reads.meet()?;
        let place = self.place.min(self.input.len());
        let (_, rest) = self.input.split_at(place);
        if rest.is_empty() && self.is_ended {
            return Ok(0);
        }
        let count = rest.len().min(buf.len()).min(self.width).min(self.left);
        if count == 0 {
            return Err(ErrorKind::WouldBlock);
        }
        buf[..count].copy_from_slice(&rest[..count]);
        self.place = place.saturating_add(count);
        self.left -= count;
        Ok(count)
    }

    // Takes what it may of these.
    fn take(&mut self, bytes: &[u8]) -> Result<usize, ErrorKind>
        ensures { WritesAtMost result bytes.now }
    {
        self.writes.meet()?;
        let Some(width) = self.takes else {
            return Err(ErrorKind::WouldBlock);
        };
        let count = bytes.len().min(width);
        match self.output.extend_from_slice(&bytes[..count]) {
            Ok(()) => Ok(count),
            Err(_) => Err(ErrorKind::OutOfMemory),
        }
    }
}

/// The half of a stream that is read.
#[derive(Drop)]
pub struct Input {
    pub wire: SharedWire,
    pub reads: ReadCount,
}

impl Input {
    // The number of the next read.
    fn next_read(&self) -> u64 {
        match self.reads.try_borrow_mut() {
            Ok(mut count) => {
                *count = count.saturating_add(1);
                *count
            }
            Err(_) => 0,
        }
    }
}

impl Read for Input {
    fn read(&mut self, buf: &mut [u8]) -> io::Result<usize> {
        match self.wire.try_borrow_mut() {
            Ok(mut wire) => match wire.give(buf) {
                Ok(count) => {
                    wire.note_read(self.next_read());
                    Ok(count)
                }
                Err(kind) => Err(kind.into()),
            },
            Err(_) => Err(ErrorKind::Other.into()),
        }
    }
}

/// The half of a stream that is written.
#[derive(Drop)]
pub struct Output {
    pub wire: SharedWire,
}

impl Write for Output {
    fn write(&mut self, buf: &[u8]) -> io::Result<usize> {
        match self.wire.try_borrow_mut() {
            Ok(mut wire) => match wire.take(buf) {
                Ok(count) => Ok(count),
                Err(kind) => Err(kind.into()),
            },
            Err(_) => Err(ErrorKind::Other.into()),
        }
    }

    fn flush(&mut self) -> io::Result<()> {
        Ok(())
    }
}
