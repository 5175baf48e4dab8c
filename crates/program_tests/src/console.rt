// The console over disks in memory: input that comes in pieces, streams and disks that fail.
use crate::assertions::{equal, same_bytes};
use disk_model::{Disk, Fuse, FuseDisk, MemDisk};
use live_stage::{Live, Refused};
use mpd_program::{ConsoleEnd, Ending, Status, run_console};
use profile::Profile;
use song_db::LibraryRules;
use song_files::{Folder, MemFolder};
use std::alloc::Global;
use std::io::{self, Read, Write};
use std::process::Abort;
use std::test::Fail;

/// The disks of a fresh journal.
pub fn fresh_disks(alloc: Global) -> Result<(MemDisk, MemDisk), Refused<MemDisk>> {
    let live = Live::create(
        alloc,
        Profile::Named,
        MemDisk::new(alloc),
        MemDisk::new(alloc),
        [0; 32],
    )?;
    Ok(live.into_disks())
}

/// Runs a console. (This has no contract: the prover then reads the long one of `run_console` here alone, and in no test.)
pub fn run<D: Disk, F: Folder>(
    alloc: Global,
    (a, b): (D, D),
    folder: &mut F,
    reader: &mut impl Read,
    writer: &mut impl Write,
) -> ConsoleEnd<D> {
    run_console(
        alloc,
        Profile::Named,
        a,
        b,
        folder,
        LibraryRules::NAMED,
        None,
        reader,
        writer,
    )
}

// An input that gives a line with each read, and fails at the read of this number.
#[derive(Drop)]
struct Lines<'a> {
    rest: &'a [u8],
    reads: u64,
    failing: u64,
}

impl Read for Lines<'_> {
    fn read(&mut self, buf: &mut [u8]) -> io::Result<usize> {
        self.reads = self.reads.saturating_add(1);
        if self.reads == self.failing {
            return Err(io::ErrorKind::Other.into());
        }
        let line = match self.rest.iter().position(|byte| *byte == b'\n') {
            Some(end) => end.saturating_add(1),
            None => self.rest.len(),
        };
        let count = line.min(buf.len()).min(self.rest.len());
        let (front, back) = self.rest.split_at(count);
        buf[..count].copy_from_slice(front);
        self.rest = back;
        Ok(count)
    }
}

// A writer that takes up to this many bytes with each write, and fails at the write of this number.
#[derive(Drop)]
struct Narrow {
    taken: Vec<u8>,
    width: usize,
    writes: u64,
    failing: u64,
}

impl Write for Narrow {
    fn write(&mut self, buf: &[u8]) -> io::Result<usize> {
        self.writes = self.writes.saturating_add(1);
        if self.writes == self.failing {
            return Err(io::ErrorKind::Other.into());
        }
        let count = buf.len().min(self.width);
        self.taken.extend_from_slice(&buf[..count])?;
        Ok(count)
    }

    fn flush(&mut self) -> io::Result<()> {
        Ok(())
    }
}

// Two requests that come in two pieces are answered like these in one.
fn is_answered_cut(
    rt: &(impl Abort + AllocGlobal),
    front: &[u8],
    back: &[u8],
    whole: &[u8],
) -> Result<(), Fail> {
    let mut written = Vec::new(rt.alloc());
    let mut reader = front.chain(back);
    let mut none = MemFolder::new(rt.alloc());
    let end = run(
        rt.alloc(),
        fresh_disks(rt.alloc())?,
        &mut none,
        &mut reader,
        &mut written,
    );
    equal(rt, end.ending, Ending::Whole);
    same_bytes(rt, &written, whole);
    Ok(())
}

const ANSWERED: &[u8] =
    b"OK MPD 0.23.0\nOK\nvolume: 100\nrepeat: 0\nrandom: 0\nsingle: 0\nconsume: 0\n\
playlist: 1\nplaylistlength: 0\nstate: stop\nOK\n";

#[test]
fn cut_anywhere(rt: HostRuntime) -> Result<(), Fail> {
    let input = b"ping\nstatus\n";
    for cut in 0..input.len() {
        let (front, back) = input.split_at(cut);
        is_answered_cut(&rt, front, back, ANSWERED)?;
    }
    Ok(())
}

// How many bytes a write takes, the read and the write that fail (0: none), how much is written, and how the console ends.
const FAILING_STREAMS: [(usize, u64, u64, usize, Ending); 13] = [
    (3, 0, 0, 117, Ending::Whole),
    (64, 1, 0, 14, Ending::Cut),
    (64, 2, 0, 17, Ending::Cut),
    (64, 3, 0, 20, Ending::Cut),
    (64, 4, 0, 117, Ending::Cut),
    (64, 0, 1, 0, Ending::Cut),
    (64, 0, 2, 14, Ending::Cut),
    (64, 0, 3, 17, Ending::Cut),
    (64, 0, 4, 20, Ending::Cut),
    (3, 0, 7, 17, Ending::Cut),
    (64, 0, 5, 84, Ending::Cut),
    (64, 0, 6, 117, Ending::Whole),
    (0, 0, 0, 0, Ending::Cut),
];

// What is written where nothing fails.
const WHOLE: &[u8] =
    b"OK MPD 0.23.0\nOK\nOK\nvolume: 40\nrepeat: 0\nrandom: 0\nsingle: 0\nconsume: 0\n\
playlist: 1\nplaylistlength: 0\nstate: stop\nOK\n";

// Runs a console whose read or write of these numbers fails, and gives how it ended and what it wrote.
fn run_failing(
    alloc: Global,
    width: usize,
    failing_read: u64,
    failing_write: u64,
) -> Result<(Ending, Vec<u8>), Fail> {
    let mut reader = Lines {
        rest: b"setvol 40\nping\nstatus\n",
        reads: 0,
        failing: failing_read,
    };
    let mut writer = Narrow {
        taken: Vec::new(alloc),
        width,
        writes: 0,
        failing: failing_write,
    };
    let mut none = MemFolder::new(alloc);
    let end = run(
        alloc,
        fresh_disks(alloc)?,
        &mut none,
        &mut reader,
        &mut writer,
    );
    Ok((end.ending, writer.taken))
}

// What such a console wrote is a front of this length of the whole.
fn writes_a_front(
    rt: &(impl Abort + AllocGlobal),
    case: &(usize, u64, u64, usize, Ending),
) -> Result<(), Fail> {
    let (width, failing_read, failing_write, length, wanted) = *case;
    let (ending, written) = run_failing(rt.alloc(), width, failing_read, failing_write)?;
    equal(rt, ending, wanted);
    same_bytes(rt, &written, &WHOLE[..length.min(WHOLE.len())]);
    Ok(())
}

#[test]
fn streams_that_fail(rt: HostRuntime) -> Result<(), Fail> {
    for case in &FAILING_STREAMS {
        writes_a_front(&rt, case)?;
    }
    Ok(())
}

// What a console of three lines writes; and one whose client is greeted again, since a disk failed in the change.
const SERVED: &[u8] = b"OK MPD 0.23.0\nOK\nOK\nOK\n";

const GREETED_AGAIN: &[u8] = b"OK MPD 0.23.0\nOK\nOK MPD 0.23.0\nOK\n";

// Runs it over fresh files that have these fuses: how it ended, how often its disks failed, and what it wrote.
fn run_fused(
    alloc: Global,
    first: Fuse,
    second: Fuse,
) -> Result<((Status, Ending), u64, Vec<u8>), Fail> {
    let (a, b) = fresh_disks(alloc)?;
    let disks = (FuseDisk::new(a, first), FuseDisk::new(b, second));
    let mut reader = Lines {
        rest: b"ping\nsetvol 40\nping\n",
        reads: 0,
        failing: 0,
    };
    let mut written = Vec::new(alloc);
    let end = run(
        alloc,
        disks,
        &mut MemFolder::new(alloc),
        &mut reader,
        &mut written,
    );
    let faults = end.a.faults().saturating_add(end.b.faults());
    Ok(((end.status, end.ending), faults, written))
}

// How a console ends whose disks failed so often.
fn end_by(faults: u64) -> (Status, Ending) {
    match faults {
        0 => (Status::Done, Ending::Whole),
        1 => (Status::Done, Ending::Faulted),
        _ => (Status::DiskFault, Ending::Faulted),
    }
}

// What is written where a console is given up at the second fault is a front of what is written else.
fn is_a_front(written: &[u8]) -> bool {
    SERVED.starts_with(written) || GREETED_AGAIN.starts_with(written)
}

// It goes on behind the first fault, and gives up at the second. Which of these it was: 1 without a fault, 2 with one that the client
// doesn't see, 4 with one behind which the client is greeted again, 8 given up.
fn ends_by_its_faults(
    rt: &(impl Abort + AllocGlobal),
    first: Fuse,
    second: Fuse,
) -> Result<u8, Fail> {
    let (end, faults, written) = run_fused(rt.alloc(), first, second)?;
    equal(rt, end, end_by(faults));
    if faults > 1 {
        equal(rt, is_a_front(&written), true);
        return Ok(8);
    }
    if written.as_slice() == GREETED_AGAIN {
        equal(rt, faults, 1);
        return Ok(4);
    }
    same_bytes(rt, &written, SERVED);
    Ok(if faults == 0 { 1 } else { 2 })
}

// The same of each call of the second file, where this call of the first fails.
fn ends_by_the_second(rt: &(impl Abort + AllocGlobal), first: u64) -> Result<u8, Fail> {
    let mut seen = 0;
    for second in 1..30 {
        seen |= ends_by_its_faults(rt, Fuse::Fail(first), Fuse::Fail(second))?;
    }
    Ok(seen)
}

#[test]
fn disks_that_fail(rt: HostRuntime) -> Result<(), Fail> {
    let mut seen = 0;
    for first in 1..30 {
        seen |= ends_by_the_second(&rt, first)?;
    }
    equal(&rt, seen, 15);
    let (end, _faults, written) = run_fused(rt.alloc(), Fuse::Stop(1), Fuse::Fail(100))?;
    equal(&rt, end, (Status::DiskFault, Ending::Faulted));
    same_bytes(&rt, &written, b"");
    Ok(())
}

// Whether a console of one line says that the journal was brought to the present layout, and its disks.
fn is_told(alloc: Global, disks: (MemDisk, MemDisk)) -> (bool, (MemDisk, MemDisk)) {
    let mut reader: &[u8] = b"ping\n";
    let mut written = Vec::new(alloc);
    let mut none = MemFolder::new(alloc);
    let end = run(alloc, disks, &mut none, &mut reader, &mut written);
    (end.migrated, (end.a, end.b))
}

#[test]
fn old_layout_is_told_once(rt: HostRuntime) -> Result<(), Fail> {
    let (fresh, _) = is_told(rt.alloc(), fresh_disks(rt.alloc())?);
    let (mut a, b) = fresh_disks(rt.alloc())?;
    // The layout in the head of file a.
    a.write_at(8, &[1])?;
    let (first, disks) = is_told(rt.alloc(), (a, b));
    let (second, _) = is_told(rt.alloc(), disks);
    equal(&rt, (fresh, first, second), (false, true, false));
    Ok(())
}
