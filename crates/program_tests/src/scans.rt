// Scans of the console: a folder in memory of which a call fails, and disks that fail.
ghost use Rattle.std.specs.Prelude.{[]};

use crate::assertions::equal;
use crate::console::{fresh_disks, run};
use disk_model::{Disk, Fuse, FuseDisk, MemDisk};
use mpd_program::{ConsoleEnd, Ending, Status};
use song_files::{FaultyFolder, FileStamp, Folder, FolderEntry, FolderFault, MemFolder, MemSource};
use std::alloc::Global;
use std::io::Read;
use std::process::Abort;
use std::test::Fail;

// A song of two frames, with a title and an artist.
const SONG: &[u8] =
    b"RIFF\0\0\0\0WAVEjunk\x03\0\0\0\x01\x02\x03\0fmt \x10\0\0\0\x01\0\x01\0\x40\x1f\0\0\x80\x3e\0\0\x02\0\x10\0\
data\x04\0\0\0\x01\0\xfe\xffLIST\x1a\0\0\0INFOINAM\x03\0\0\0Hi\0\0IART\x02\0\0\0A\0";

const LISTED: &[u8] = b"directory: d\nfile: d/A.wav\nOK\n";

// A song in a folder, and beside the folder a file with the name of a song.
fn two_files(alloc: Global) -> Result<MemFolder<'static>, Fail> {
    let mut folder = MemFolder::new(alloc);
    folder.add(alloc, "d/A.wav", SONG)?;
    folder.add(alloc, "x.wav", b"RIFF\0")?;
    Ok(folder)
}

// The call of the folder that fails, how many there are in two updates, and how much is written. Without a fault the root, `d`, its
// song and `x.wav` are four calls.
const FAILING: [(u64, u64, usize); 8] = [
    (0, 5, 83),
    (1, 7, 83),
    (2, 8, 83),
    (3, 8, 110),
    (4, 5, 110),
    (5, 7, 110),
    (6, 8, 110),
    (7, 8, 110),
];

// Two files in memory, of which one call fails.
#[derive(Drop)]
struct BrokenFolder {
    folder: FaultyFolder<MemFolder<'static>>,
}

impl Folder for BrokenFolder {
    type File = MemSource<'static>;

    ghost files = { λ _. [] };

    ghost honest = { λ _. ⊥ };

    ghost steady = { λ _. ⊥ };

    fn list(&mut self, alloc: Global, path: &str) -> Result<Option<Vec<FolderEntry>>, FolderFault> {
        self.folder.list(alloc, path)
    }

    fn look(&mut self, alloc: Global, path: &str) -> Result<Option<FileStamp>, FolderFault> {
        self.folder.look(alloc, path)
    }

    fn open(&mut self, alloc: Global, path: &str) -> Result<Option<Self::File>, FolderFault> {
        self.folder.open(alloc, path)
    }
}

fn broken_folder(alloc: Global, calls_before: u64) -> Result<BrokenFolder, Fail> {
    Ok(BrokenFolder {
        folder: FaultyFolder {
            folder: two_files(alloc)?,
            calls_before,
            calls: 0,
        },
    })
}

// Of two updates over a folder that fails once, the second leaves the song listed.
fn keeps_what_it_cannot_read(
    rt: &(impl Abort + AllocGlobal),
    (calls_before, calls, length): (u64, u64, usize),
) -> Result<(), Fail> {
    let alloc = rt.alloc();
    let mut broken = broken_folder(alloc, calls_before)?;
    let mut input: &[u8] = b"update\nlistall\nupdate\nlistall\n";
    let mut written = Vec::new(alloc);
    let disks = fresh_disks(alloc)?;
    let end = run(alloc, disks, &mut broken, &mut input, &mut written);
    equal(rt, end.ending, Ending::Whole);
    equal(rt, broken.folder.calls, calls);
    equal(rt, written.len(), length);
    equal(rt, written.ends_with(LISTED), true);
    Ok(())
}

#[test]
fn folders_that_fail(rt: HostRuntime) -> Result<(), Fail> {
    for case in &FAILING {
        keeps_what_it_cannot_read(&rt, *case)?;
    }
    Ok(())
}

// Runs a console over the two files and fresh disks, of which the first has this fuse.
fn run_fused(alloc: Global, fuse: Fuse) -> Result<(ConsoleEnd<FuseDisk<MemDisk>>, Vec<u8>), Fail> {
    let (a, b) = fresh_disks(alloc)?;
    let disks = (FuseDisk::new(a, fuse), FuseDisk::new(b, Fuse::Fail(100)));
    let (update, listall): (&[u8], &[u8]) = (b"update\n", b"listall\n");
    let mut reader = update.chain(update).chain(listall);
    let mut folder = two_files(alloc)?;
    let mut written = Vec::new(alloc);
    let end = run(alloc, disks, &mut folder, &mut reader, &mut written);
    Ok((end, written))
}

// Wherever the first disk fails once, the next update reads what the one before it could not keep.
fn reads_again(rt: &(impl Abort + AllocGlobal), call: u64) -> Result<bool, Fail> {
    let (end, written) = run_fused(rt.alloc(), Fuse::Fail(call))?;
    equal(rt, end.status, Status::Done);
    equal(rt, end.ending == Ending::Faulted, end.a.faults() > 0);
    equal(rt, written.ends_with(LISTED), true);
    Ok(written.len() == 94)
}

#[test]
fn disks_that_fail_in_a_scan(rt: HostRuntime) -> Result<(), Fail> {
    let mut in_a_batch = 0u32;
    for call in 1..24 {
        in_a_batch = in_a_batch.saturating_add(u32::from(reads_again(&rt, call)?));
    }
    equal(&rt, in_a_batch > 0, true);
    Ok(())
}
