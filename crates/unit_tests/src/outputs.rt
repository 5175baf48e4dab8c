// `song_output`: what an output gets for orders, also from files and outputs that fail, and how often a file is opened and read.
ghost use Rattle.std.specs.Prelude.{[]};

use crate::assertions::{equal, same_bytes, uri};
use crate::waves::WAVE_A;
use no_memory::NoMemory;
use player_core::{BrokenCause, PlayOrder, Volume};
use song_files::{
    FaultySource, FileStamp, Folder, FolderEntry, FolderFault, MemFolder, ReadTrouble,
};
use song_output::{
    Form, Gate, GatedFolder, OpenGate, OpenSong, Piece, Point, SoundOutput, play_piece,
};
use std::alloc::Global;
use std::cell::Cell;
use std::io::{self, ErrorKind, Write};
use std::process::Abort;
use std::test::Fail;

/// No call is so late.
const NEVER: u64 = 1_000_000;

/// How many frames were written, and whether the last was reached; or what failed.
type Played = Result<(u64, bool), &'static str>;

const NO_SOURCE: Played = Err("source");

const NO_OUTPUT: Played = Err("output");

/// Counts the points.
#[derive(Drop)]
struct Counts {
    reads: Cell<u64>,
    reads_done: Cell<u64>,
    writes: Cell<u64>,
    writes_done: Cell<u64>,
}

impl Counts {
    fn new() -> Counts {
        Counts {
            reads: Cell::new(0),
            reads_done: Cell::new(0),
            writes: Cell::new(0),
            writes_done: Cell::new(0),
        }
    }

    fn cell(&self, point: Point) -> &Cell<u64> {
        match point {
            Point::BeforeRead => &self.reads,
            Point::AfterRead => &self.reads_done,
            Point::BeforeWrite => &self.writes,
            Point::AfterWrite => &self.writes_done,
        }
    }
}

impl Gate for Counts {
    fn at(&self, point: Point) {
        let cell = self.cell(point);
        cell.set(cell.get().saturating_add(1));
    }
}

/// A folder in memory that counts its openings, of which one fails, and of each of whose files a read goes wrong.
#[derive(Drop)]
struct Songs<'a> {
    folder: MemFolder<'a>,
    openings: u64,
    failing: u64,
    reads_before: u64,
    trouble: ReadTrouble,
}

impl<'a> Folder for Songs<'a> {
    type File = FaultySource<'a>;

    ghost files = { λ _. [] };

    ghost honest = { λ _. ⊥ };

    ghost steady = { λ _. ⊥ };

    fn list(&mut self, alloc: Global, path: &str) -> Result<Option<Vec<FolderEntry>>, FolderFault> {
        self.folder.list(alloc, path)
    }

    fn look(&mut self, alloc: Global, path: &str) -> Result<Option<FileStamp>, FolderFault> {
        self.folder.look(alloc, path)
    }

    fn open(&mut self, alloc: Global, path: &str) -> Result<Option<Self::File>, FolderFault> {
        self.openings = self.openings.saturating_add(1);
        if self.openings == self.failing {
            return Err(FolderFault::Source);
        }
        match self.folder.open(alloc, path)? {
            Some(source) => Ok(Some(FaultySource {
                source,
                reads_before: self.reads_before,
                trouble: self.trouble,
                faults: 0,
                reads: 0,
            })),
            None => Ok(None),
        }
    }
}

/// An output that takes up to so many bytes with each write, but none with the write of this number, which may fail.
#[derive(Drop)]
struct Narrow {
    taken: Vec<u8>,
    width: usize,
    writes: u64,
    failing: u64,
    fails: bool,
}

/// Such an output, in a form.
fn output_of(
    alloc: Global,
    form: Form,
    width: usize,
    failing: u64,
    fails: bool,
) -> SoundOutput<Narrow> {
    let writer = Narrow {
        taken: Vec::new(alloc),
        width,
        writes: 0,
        failing,
        fails,
    };
    SoundOutput { writer, form }
}

/// The same without heads.
fn bare(alloc: Global, width: usize, failing: u64, fails: bool) -> SoundOutput<Narrow> {
    output_of(alloc, Form::Bare, width, failing, fails)
}

impl Write for Narrow {
    fn write(&mut self, buf: &[u8]) -> io::Result<usize> {
        self.writes = self.writes.saturating_add(1);
        if self.writes == self.failing {
            if self.fails {
                return Err(ErrorKind::Other.into());
            }
            return Ok(0);
        }
        let count = buf.len().min(self.width);
        self.taken.extend_from_slice(&buf[..count])?;
        Ok(count)
    }

    fn flush(&mut self) -> io::Result<()> {
        Ok(())
    }
}

/// Where the samples of a song made here begin.
const FIRST_BYTE: usize = 44;

/// A song of so many channels, frames a second and samples. Each sample is greater by 37 than the one before, and wraps.
fn song(alloc: Global, channels: u8, rate: u32, samples: u16) -> Result<Vec<u8>, Fail> {
    let align = channels.saturating_mul(2);
    let len = u32::from(samples).saturating_mul(2);
    let mut bytes = Vec::new(alloc);
    bytes.extend_from_slice(b"RIFF\0\0\0\0WAVEfmt \x10\0\0\0\x01\0")?;
    bytes.extend_from_slice(&[channels, 0])?;
    bytes.extend_from_slice(&rate.to_le_bytes())?;
    bytes.extend_from_slice(&rate.saturating_mul(u32::from(align)).to_le_bytes())?;
    bytes.extend_from_slice(&[align, 0, 16, 0])?;
    bytes.extend_from_slice(b"data")?;
    bytes.extend_from_slice(&len.to_le_bytes())?;
    let mut sample = 0u16;
    for _ in 0..samples {
        bytes.extend_from_slice(&sample.to_le_bytes())?;
        sample = sample.wrapping_add(37);
    }
    Ok(bytes)
}

/// The songs: 10,000 frames of one channel, 700 frames of two, and a file that is none.
#[derive(Drop)]
struct Files {
    long: Vec<u8>,
    short: Vec<u8>,
}

impl Files {
    fn new(alloc: Global) -> Result<Files, Fail> {
        Ok(Files {
            long: song(alloc, 1, 44_100, 10_000)?,
            short: song(alloc, 2, 8_000, 1_400)?,
        })
    }

    fn folder(&self, alloc: Global) -> Result<Songs<'_>, Fail> {
        let mut folder = MemFolder::new(alloc);
        folder.add(alloc, "long.wav", &self.long)?;
        folder.add(alloc, "short.wav", &self.short)?;
        folder.add(alloc, "a.wav", &WAVE_A)?;
        folder.add(alloc, "x.wav", b"RIFF\0")?;
        Ok(Songs {
            folder,
            openings: 0,
            failing: NEVER,
            reads_before: NEVER,
            trouble: ReadTrouble::Fails,
        })
    }

    /// The bytes of the frames of a song from one on.
    fn sound(&self, uri: &str, first: u64, count: u64) -> &[u8] {
        let (file, frame_len) = match uri {
            "long.wav" => (&self.long, 2u64),
            _ => (&self.short, 4),
        };
        let start = first
            .saturating_mul(frame_len)
            .saturating_add(FIRST_BYTE as u64);
        let end = start.saturating_add(count.saturating_mul(frame_len));
        let (start, end) = (start as usize, end as usize);
        file.get(start..end).unwrap_or(&[])
    }
}

fn order(
    alloc: Global,
    ticket: u64,
    path: &str,
    first: u64,
    percent: u8,
) -> Result<PlayOrder, Fail> {
    Ok(PlayOrder {
        ticket,
        uri: uri(alloc, path)?,
        first_frame: first,
        volume: Volume::new(percent).ok_or("no volume")?,
    })
}

fn shown(piece: Piece) -> Played {
    match piece {
        Piece::Written { frames, is_last } => Ok((frames, is_last)),
        Piece::Failed(BrokenCause::Source) => NO_SOURCE,
        Piece::Failed(BrokenCause::Output) => NO_OUTPUT,
    }
}

/// Plays for an order. (This has no contract: the prover then reads the long one of `play_piece` here alone, and in no test.)
fn play_order<F: Folder, G: Gate>(
    alloc: Global,
    song: &mut Option<OpenSong<F::File>>,
    folder: &mut F,
    gate: &G,
    output: &mut SoundOutput<Narrow>,
    order: &PlayOrder,
) -> Result<Piece, NoMemory> {
    play_piece(alloc, song, folder, gate, output, order)
}

/// The same, and what is shown of it.
fn play<F: Folder, G: Gate>(
    alloc: Global,
    song: &mut Option<OpenSong<F::File>>,
    folder: &mut F,
    gate: &G,
    output: &mut SoundOutput<Narrow>,
    order: &PlayOrder,
) -> Result<Played, NoMemory> {
    Ok(shown(play_order(alloc, song, folder, gate, output, order)?))
}

/// A song, the ordered frame, and what is played of it where no song is open.
const PIECES: [(&str, u64, Played); 11] = [
    ("long.wav", 0, Ok((4096, false))),
    ("long.wav", 5_903, Ok((4096, false))),
    ("long.wav", 5_904, Ok((4096, true))),
    ("long.wav", 9_999, Ok((1, true))),
    ("long.wav", 10_000, Ok((0, true))),
    ("long.wav", u64::MAX, Ok((0, true))),
    ("short.wav", 0, Ok((700, true))),
    ("short.wav", 699, Ok((1, true))),
    ("short.wav", 701, Ok((0, true))),
    ("x.wav", 0, NO_SOURCE),
    ("none.wav", 0, NO_SOURCE),
];

/// An order is answered so, and the output has just the frames that are answered.
fn is_played(
    rt: &impl Abort,
    alloc: Global,
    files: &Files,
    row: (&str, u64, Played),
) -> Result<(), Fail> {
    let (path, first, want) = row;
    let mut output = bare(alloc, usize::MAX, NEVER, false);
    let (mut folder, mut song) = (files.folder(alloc)?, None);
    let order = order(alloc, 1, path, first, 100)?;
    let played = play(
        alloc,
        &mut song,
        &mut folder,
        &OpenGate,
        &mut output,
        &order,
    )?;
    equal(rt, (path, first, played), (path, first, want));
    let (count, _) = want.unwrap_or((0, false));
    same_bytes(rt, &output.writer.taken, files.sound(path, first, count));
    equal(rt, song.is_some(), want.is_ok());
    Ok(())
}

#[test]
fn pieces_of_songs(rt: HostRuntime) -> Result<(), Fail> {
    let files = Files::new(rt.alloc())?;
    for row in &PIECES {
        is_played(&rt, rt.alloc(), &files, *row)?;
    }
    Ok(())
}

/// The samples 1 and -2 at a volume.
const VOLUMES: [(u8, [u8; 4]); 3] = [
    (100, [1, 0, 0xfe, 0xff]),
    (50, [0, 0, 0xff, 0xff]),
    (0, [0, 0, 0, 0]),
];

#[test]
fn pieces_at_volumes(rt: HostRuntime) -> Result<(), Fail> {
    let files = Files::new(rt.alloc())?;
    for (percent, want) in &VOLUMES {
        let mut output = bare(rt.alloc(), usize::MAX, NEVER, false);
        let (mut folder, mut song) = (files.folder(rt.alloc())?, None);
        let order = order(rt.alloc(), 1, "a.wav", 0, *percent)?;
        let played = play(
            rt.alloc(),
            &mut song,
            &mut folder,
            &OpenGate,
            &mut output,
            &order,
        )?;
        equal(&rt, played, Ok((2, true)));
        same_bytes(&rt, &output.writer.taken, want);
    }
    Ok(())
}

/// Orders one after the other: ticket, song, frame and what is played; how many openings there were since the first, and how many reads for
/// this order. The head is read by four reads, and a piece by one. The fifth order is what comes where the row of a song that has grown tells
/// of 9,000 frames.
const ORDERS: [(u64, &str, u64, Played, u64, u64); 10] = [
    (1, "long.wav", 0, Ok((4096, false)), 1, 5),
    (1, "long.wav", 4_096, Ok((4096, false)), 1, 1),
    (1, "long.wav", 8_192, Ok((1808, true)), 1, 1),
    (1, "long.wav", 10_000, Ok((0, true)), 1, 0),
    (1, "long.wav", 9_000, Ok((0, true)), 1, 0),
    (1, "long.wav", 10_000, Ok((0, true)), 1, 0),
    (1, "short.wav", 10_000, Ok((0, true)), 2, 4),
    (1, "long.wav", 10_000, Ok((0, true)), 3, 4),
    (2, "long.wav", 10_000, Ok((0, true)), 4, 4),
    (2, "long.wav", 10_001, Ok((0, true)), 5, 4),
];

#[test]
fn played_on_without_an_opening(rt: HostRuntime) -> Result<(), Fail> {
    let (files, counts) = (Files::new(rt.alloc())?, Counts::new());
    let mut folder = GatedFolder {
        folder: files.folder(rt.alloc())?,
        gate: &counts,
    };
    let mut output = bare(rt.alloc(), usize::MAX, NEVER, false);
    let mut song = None;
    for (ticket, path, first, want, openings, reads) in &ORDERS {
        let before = counts.reads.get();
        let order = order(rt.alloc(), *ticket, path, *first, 100)?;
        let piece = play_order(
            rt.alloc(),
            &mut song,
            &mut folder,
            &counts,
            &mut output,
            &order,
        )?;
        let played = shown(piece);
        equal(&rt, (*first, played), (*first, *want));
        equal(&rt, folder.folder.openings, *openings);
        equal(&rt, counts.reads.get().saturating_sub(before), *reads);
        equal(&rt, counts.reads_done.get(), counts.reads.get());
    }
    same_bytes(
        &rt,
        &output.writer.taken,
        files.sound("long.wav", 0, 10_000),
    );
    Ok(())
}

/// Plays a song to its end.
fn play_whole<'a>(
    alloc: Global,
    song: &mut Option<OpenSong<FaultySource<'a>>>,
    folder: &mut Songs<'a>,
    output: &mut SoundOutput<Narrow>,
    ticket: u64,
    path: &str,
) -> Result<Played, Fail> {
    let mut first = 0u64;
    for _ in 0..9 {
        let order = order(alloc, ticket, path, first, 100)?;
        match play(alloc, song, folder, &OpenGate, output, &order)? {
            Ok((count, false)) => first = first.saturating_add(count),
            Ok((count, true)) => return Ok(Ok((first.saturating_add(count), true))),
            Err(failed) => return Ok(Err(failed)),
        }
    }
    Ok(Ok((first, false)))
}

#[test]
fn songs_one_after_the_other(rt: HostRuntime) -> Result<(), Fail> {
    let files = Files::new(rt.alloc())?;
    let (mut folder, mut song) = (files.folder(rt.alloc())?, None);
    let mut output = bare(rt.alloc(), 1_000, NEVER, false);
    let mut want = Vec::new(rt.alloc());
    for (ticket, path, count) in [
        (1, "short.wav", 700),
        (2, "long.wav", 10_000),
        (3, "short.wav", 700),
    ] {
        let played = play_whole(
            rt.alloc(),
            &mut song,
            &mut folder,
            &mut output,
            ticket,
            path,
        )?;
        equal(&rt, (ticket, played), (ticket, Ok((count, true))));
        want.extend_from_slice(files.sound(path, 0, count))?;
    }
    same_bytes(&rt, &output.writer.taken, &want);
    equal(&rt, folder.openings, 3);
    Ok(())
}

const TROUBLES: [ReadTrouble; 3] = [
    ReadTrouble::Fails,
    ReadTrouble::GivesNothing,
    ReadTrouble::FallsShort(1),
];

/// What is played of the long song where the opening of this number fails, or the read that has so many before it. The head takes four reads,
/// and each piece one.
fn played_until(failing: u64, reads_before: u64) -> (u64, Played) {
    match (failing, reads_before) {
        (1, _) | (_, 0..=4) => (0, NO_SOURCE),
        (_, 5) => (4_096, NO_SOURCE),
        (_, 6) => (8_192, NO_SOURCE),
        _ => (10_000, Ok((10_000, true))),
    }
}

/// What is played until a file can't be read on is right, no song is open then, and once it can be read it is played from its beginning.
fn is_played_until(
    rt: &impl Abort,
    alloc: Global,
    files: &Files,
    row: (u64, u64, ReadTrouble),
    want: (u64, Played),
) -> Result<(), Fail> {
    let (mut folder, mut song) = (files.folder(alloc)?, None);
    (folder.failing, folder.reads_before, folder.trouble) = row;
    let mut output = bare(alloc, usize::MAX, NEVER, false);
    let played = play_whole(alloc, &mut song, &mut folder, &mut output, 1, "long.wav")?;
    equal(rt, (row.0, row.1, played), (row.0, row.1, want.1));
    same_bytes(rt, &output.writer.taken, files.sound("long.wav", 0, want.0));
    equal(rt, song.is_some(), played.is_ok());
    folder.reads_before = NEVER;
    let again = play_whole(alloc, &mut song, &mut folder, &mut output, 2, "long.wav")?;
    equal(rt, again, Ok((10_000, true)));
    equal(rt, folder.openings, 2);
    Ok(())
}

#[test]
fn sources_that_fail(rt: HostRuntime) -> Result<(), Fail> {
    let files = Files::new(rt.alloc())?;
    let fails = ReadTrouble::Fails;
    is_played_until(
        &rt,
        rt.alloc(),
        &files,
        (1, NEVER, fails),
        played_until(1, NEVER),
    )?;
    for reads_before in 0..8 {
        for trouble in &TROUBLES {
            let want = match trouble {
                ReadTrouble::FallsShort(_) => played_until(NEVER, NEVER),
                _ => played_until(NEVER, reads_before),
            };
            is_played_until(
                &rt,
                rt.alloc(),
                &files,
                (NEVER, reads_before, *trouble),
                want,
            )?;
        }
    }
    Ok(())
}

/// How many bytes an output takes at a time, at which write it takes none, and whether that write fails; what is played of the short song,
/// how many bytes the output has then, and how many writes it took.
const OUTPUTS: [(usize, u64, bool, Played, usize, u64); 6] = [
    (usize::MAX, NEVER, true, Ok((700, true)), 2_800, 1),
    (3, NEVER, true, Ok((700, true)), 2_800, 934),
    (3, 5, true, NO_OUTPUT, 12, 5),
    (3, 5, false, NO_OUTPUT, 12, 5),
    (usize::MAX, 1, true, NO_OUTPUT, 0, 1),
    (3, 934, false, NO_OUTPUT, 2_799, 934),
];

#[test]
fn outputs_that_fail(rt: HostRuntime) -> Result<(), Fail> {
    let files = Files::new(rt.alloc())?;
    let order = order(rt.alloc(), 1, "short.wav", 0, 100)?;
    for (width, failing, fails, want, len, writes) in &OUTPUTS {
        let (mut folder, mut song, counts) = (files.folder(rt.alloc())?, None, Counts::new());
        let mut output = bare(rt.alloc(), *width, *failing, *fails);
        let played = play(
            rt.alloc(),
            &mut song,
            &mut folder,
            &counts,
            &mut output,
            &order,
        )?;
        equal(&rt, (*width, *failing, played), (*width, *failing, *want));
        same_bytes(
            &rt,
            &output.writer.taken,
            files.sound("short.wav", 0, 700).get(..*len).unwrap_or(&[]),
        );
        equal(
            &rt,
            (counts.writes.get(), counts.writes_done.get()),
            (*writes, *writes),
        );
        equal(&rt, song.is_some(), want.is_ok());
    }
    Ok(())
}

/// A song, the ordered frame, how many follow it, and the head that Python's writer of WAVE files gives so many frames at the song's rate
/// and channels.
const HEADS: [(&str, u64, u64, [u8; 44]); 4] = [
    (
        "long.wav",
        0,
        4_096,
        *b"RIFF\x24\x20\0\0WAVEfmt \x10\0\0\0\x01\0\x01\0\x44\xac\0\0\x88\x58\x01\0\x02\0\x10\0data\0\x20\0\0",
    ),
    (
        "long.wav",
        9_999,
        1,
        *b"RIFF\x26\0\0\0WAVEfmt \x10\0\0\0\x01\0\x01\0\x44\xac\0\0\x88\x58\x01\0\x02\0\x10\0data\x02\0\0\0",
    ),
    (
        "short.wav",
        0,
        700,
        *b"RIFF\x14\x0b\0\0WAVEfmt \x10\0\0\0\x01\0\x02\0\x40\x1f\0\0\0\x7d\0\0\x04\0\x10\0data\xf0\x0a\0\0",
    ),
    (
        "short.wav",
        699,
        1,
        *b"RIFF\x28\0\0\0WAVEfmt \x10\0\0\0\x01\0\x02\0\x40\x1f\0\0\0\x7d\0\0\x04\0\x10\0data\x04\0\0\0",
    ),
];

/// What an output in the form `Wave` gets for an order at full volume, by writes of up to so many bytes, until the write of this number
/// fails.
fn taken_as_waves(
    alloc: Global,
    files: &Files,
    (path, first): (&str, u64),
    (width, failing): (usize, u64),
) -> Result<Vec<u8>, Fail> {
    let mut output = output_of(alloc, Form::Wave, width, failing, true);
    let (mut folder, mut song) = (files.folder(alloc)?, None);
    let order = order(alloc, 1, path, first, 100)?;
    let _ = play_order(
        alloc,
        &mut song,
        &mut folder,
        &OpenGate,
        &mut output,
        &order,
    )?;
    Ok(output.writer.taken)
}

#[test]
fn pieces_as_wave_files(rt: HostRuntime) -> Result<(), Fail> {
    let files = Files::new(rt.alloc())?;
    for (path, first, count, head) in &HEADS {
        let mut want = head.to_vec(rt.alloc())?;
        want.extend_from_slice(files.sound(path, *first, *count))?;
        let ordered = (*path, *first);
        let taken = taken_as_waves(rt.alloc(), &files, ordered, (usize::MAX, NEVER))?;
        same_bytes(&rt, &taken, &want);
        let front = taken_as_waves(rt.alloc(), &files, ordered, (9, 6))?;
        same_bytes(&rt, &front, want.get(..45).unwrap_or(&[]));
    }
    let none = taken_as_waves(rt.alloc(), &files, ("long.wav", 10_000), (1, NEVER))?;
    same_bytes(&rt, &none, &[]);
    Ok(())
}
