//! The connections of all clients, by the numbers that the lines of the input give them.
use driver_base::signs::bytes_of;
use driver_base::wire::{Input, Output, ReadCount, SharedWire, Wire};
use driver_base::{Fault, Printer};
use mio_clients::MemStream;
use std::alloc::Global;
use std::cell::RefCell;
use std::rc::Rc;

/// The stream of each client, so that all is proved at one type.
pub type TestStream = MemStream<Input, Output>;

#[derive(Drop)]
pub struct Wires {
    alloc: Global,
    named: Vec<Named>,
    /// Whether it is told what was read of each stream.
    pub tells_reads: bool,
    reads: Option<ReadCount>,
}

#[derive(Drop)]
struct Named {
    client: u64,
    wire: SharedWire,
    /// Whether it was told that its stream was let go of.
    is_over: bool,
}

impl Named {
    // Prints what its stream took since, and whether it was let go of.
    fn tell(&mut self, printer: &mut Printer, tells_reads: bool) {
        if self.is_over {
            return;
        }
        if let Ok(mut wire) = self.wire.try_borrow_mut() {
            if tells_reads {
                wire.tell_reads(printer, self.client);
            }
            wire.tell(printer, self.client);
        }
        if Rc::strong_count(&self.wire) == 1 {
            self.is_over = true;
            printer.closed(self.client);
        }
    }

    fn begin_turn(&self) {
        if let Ok(mut wire) = self.wire.try_borrow_mut() {
            wire.begin_turn();
        }
    }
}

fn shared_wire(alloc: Global) -> Result<SharedWire, Fault> {
    match Rc::new(alloc, RefCell::new(Wire::new(alloc))) {
        Ok(wire) => Ok(wire),
        Err(_) => Err(Fault::NoMemory),
    }
}

fn read_count(alloc: Global) -> Result<ReadCount, Fault> {
    match Rc::new(alloc, RefCell::new(0)) {
        Ok(count) => Ok(count),
        Err(_) => Err(Fault::NoMemory),
    }
}

impl Wires {
    pub fn new(alloc: Global) -> Self {
        Wires {
            alloc,
            named: Vec::new(alloc),
            tells_reads: false,
            reads: None,
        }
    }

    // The count of all reads.
    fn reads(&mut self) -> Result<ReadCount, Fault> {
        if let Some(reads) = &self.reads {
            return Ok(reads.clone()?);
        }
        let reads = read_count(self.alloc)?;
        self.reads = Some(reads.clone()?);
        Ok(reads)
    }

    // The connection of this client, unless it is over.
    fn find(&self, client: u64) -> Option<&SharedWire> {
        for named in &self.named {
            if named.client == client && !named.is_over {
                return Some(&named.wire);
            }
        }
        None
    }

    /// A connection of a client of this number, of which none is there.
    pub fn add(&mut self, client: u64, is_remote: bool) -> Result<TestStream, Fault> {
        if self.find(client).is_some() {
            return Err(Fault::NoClient);
        }
        let wire = shared_wire(self.alloc)?;
        let input = Input {
            wire: wire.clone()?,
            reads: self.reads()?,
        };
        let output = Output {
            wire: wire.clone()?,
        };
        let named = Named {
            client,
            wire,
            is_over: false,
        };
        let mut stream = MemStream::new(input, output);
        stream.remote = is_remote;
        match self.named.push(named) {
            Ok(()) => Ok(stream),
            Err(_) => Err(Fault::NoMemory),
        }
    }

    /// This client sends the bytes of a text, and a newline behind it if it is ended.
    pub fn send(&self, client: u64, text: &str, is_ended: bool) -> Result<(), Fault> {
        let bytes = bytes_of(self.alloc, text, is_ended, 0)?;
        let wire = self.find(client).ok_or(Fault::NoClient)?;
        match wire.try_borrow_mut() {
            Ok(mut wire) => Ok(wire.send(&bytes)?),
            Err(_) => Err(Fault::NoClient),
        }
    }

    /// From now on this client's stream gives or takes as the words say.
    pub fn set(&self, client: u64, words: &str) -> Result<(), Fault> {
        let wire = self.find(client).ok_or(Fault::NoClient)?;
        match wire.try_borrow_mut() {
            Ok(mut wire) => wire.take_words(words),
            Err(_) => Err(Fault::NoClient),
        }
    }

    /// A turn of the loop begins.
    pub fn begin_turn(&self) {
        for named in &self.named {
            named.begin_turn();
        }
    }

    /// Prints what each stream took since, and which of them were let go of, in the order in which they came.
    pub fn tell(&mut self, printer: &mut Printer) {
        for named in &mut self.named {
            named.tell(printer, self.tells_reads);
        }
    }
}
