//! A file in memory, and what may be left of it.
use crate::calls::make_calls;
use crate::fault::Fault;
use crate::given::read_bytes;
use crate::printer::Printer;
use crate::room::RoomDisk;
use crate::words::{first_word, number};
use disk_model::{Disk, Fuse, FuseDisk, MemDisk};
use std::alloc::{AllocError, Global};
use std::mem;

/// The disk of each life: it is in memory, fails by a fuse, and takes no memory for room.
pub type TestDisk = RoomDisk<FuseDisk<MemDisk>>;

/// A disk of a daemon: it fails by two fuses, and what is put behind its end is there.
pub type DaemonDisk = FuseDisk<TestDisk>;

/// A fuse that nothing meets.
pub const NEVER: Fuse = Fuse::Stop(u64::MAX);

/// A file between two lives.
#[derive(Drop)]
pub struct File {
    alloc: Global,
    disk: MemDisk,
    /// By which its disk fails in the next life.
    fuse: Fuse,
    /// By which that of a daemon fails beside.
    second: Fuse,
    /// How many calls of its disk the last life made.
    calls: u64,
    /// How often its disk failed in it.
    faults: u64,
    /// A moment.
    mark: usize,
}

// A fuse, by the words that say it.
fn fuse_of(words: &str) -> Result<Fuse, Fault> {
    match first_word(words) {
        ("stop", call) => Ok(Fuse::Stop(number(call)?)),
        ("fail", call) => Ok(Fuse::Fail(number(call)?)),
        _ => Err(Fault::NoDirective),
    }
}

impl File {
    // One with this disk, whose calls don't fail.
    fn new(alloc: Global, disk: MemDisk) -> Self {
        File {
            alloc,
            disk,
            fuse: NEVER,
            second: NEVER,
            calls: 0,
            faults: 0,
            mark: 0,
        }
    }

    pub fn empty(alloc: Global) -> Self {
        File::new(alloc, MemDisk::new(alloc))
    }

    // One with these bytes, all of them synced.
    fn with(alloc: Global, bytes: Vec<u8>) -> Result<Self, AllocError> {
        Ok(File::new(alloc, MemDisk::from_bytes(alloc, bytes)?))
    }

    /// One with the same bytes, all of them synced, whose disk doesn't fail.
    pub fn copied(&self) -> Result<Self, AllocError> {
        File::with(self.alloc, self.disk.as_bytes().to_vec(self.alloc)?)
    }

    /// Takes its disk for a life.
    pub fn take(&mut self) -> TestDisk {
        let disk = mem::replace(&mut self.disk, MemDisk::new(self.alloc));
        RoomDisk::new(FuseDisk::new(disk, mem::replace(&mut self.fuse, NEVER)))
    }

    /// Takes its disk for the lives of a daemon.
    pub fn take_for_daemon(&mut self) -> DaemonDisk {
        let second = mem::replace(&mut self.second, NEVER);
        let fuse = mem::replace(&mut self.fuse, second);
        FuseDisk::new(self.take(), fuse)
    }

    /// Puts its disk back after a life.
    pub fn put_back(&mut self, disk: TestDisk) {
        let disk = disk.into_inner();
        self.calls = disk.calls();
        self.faults = disk.faults();
        self.disk = disk.into_inner();
    }

    // Makes these calls of its disk, which is a life.
    fn does(&mut self, printer: &mut Printer, words: &str) -> Result<(), Fault> {
        let mut disk = self.take();
        let done = make_calls(&mut disk, printer, words);
        self.put_back(disk);
        done
    }

    // Whether a crash since a moment may have left this image.
    fn leaves(
        &self,
        printer: &mut Printer,
        since: Option<usize>,
        words: &str,
    ) -> Result<(), Fault> {
        let image = read_bytes(printer.alloc, words)?;
        let is_left = match since {
            Some(moment) => self.disk.is_image_since(self.alloc, moment, &image)?,
            None => self.disk.is_image(self.alloc, &image)?,
        };
        printer.answer(is_left);
        Ok(())
    }

    fn tell_counts(&self, printer: &mut Printer) {
        printer.count("calls", self.calls);
        printer.count("faults", self.faults);
    }

    /// Does what the words ask for.
    pub fn take_words(&mut self, printer: &mut Printer, words: &str) -> Result<(), Fault> {
        let (word, rest) = first_word(words);
        match word {
            "has" => *self = File::with(self.alloc, read_bytes(self.alloc, rest)?)?,
            "then" => self.second = fuse_of(rest)?,
            "does" => self.does(printer, rest)?,
            "mark" => self.mark = self.disk.moment(),
            "left" => self.leaves(printer, None, rest)?,
            "since" => self.leaves(printer, Some(self.mark), rest)?,
            "counts" => self.tell_counts(printer),
            "faults" => printer.count("faults", self.faults),
            "bytes" => printer.hex("bytes", self.disk.as_bytes()),
            _ => self.fuse = fuse_of(words)?,
        }
        Ok(())
    }
}
