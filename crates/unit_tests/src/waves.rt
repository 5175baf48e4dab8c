// `wave_pcm`: worked files, files that another program made, and reads that go wrong.
use crate::assertions::{equal, same_samples};
use song_files::{FaultySource, MemSource, ReadTrouble, Tag, TagSet};
use std::alloc::{AllocError, Global};
use std::process::Abort;
use std::test::Fail;
use wave_pcm::{WaveError, WaveInfo, read_frames, read_head, scale};

/// A chunk with three bytes and a pad byte, the format, two frames, and two texts.
pub const WAVE_A: [u8; 94] =
    *b"RIFF\0\0\0\0WAVEjunk\x03\0\0\0\x01\x02\x03\0fmt \x10\0\0\0\x01\0\x01\0\x40\x1f\0\0\x80\x3e\0\0\x02\0\x10\0\
data\x04\0\0\0\x01\0\xfe\xffLIST\x1a\0\0\0INFOINAM\x03\0\0\0Hi\0\0IART\x02\0\0\0A\0";

/// The samples reach the end, and the size passes it; the last byte is half a frame.
const WAVE_B: [u8; 49] =
    *b"RIFF\0\0\0\0WAVEfmt \x10\0\0\0\x01\0\x01\0\x40\x1f\0\0\x80\x3e\0\0\x02\0\x10\0data\xff\xff\xff\xff\x01\0\xfe\xff\x07";

/// The first 30 bytes of it.
const WAVE_B_CUT: [u8; 30] = *b"RIFF\0\0\0\0WAVEfmt \x10\0\0\0\x01\0\x01\0\x40\x1f\0\0\x80\x3e";

// Written by SoX 14.4.2, whose own reading gives the numbers below.
const SQUARE: [u8; 54] =
    *b"RIFF.\0\0\0WAVEfmt \x10\0\0\0\x01\0\x01\0\x80\xbb\0\0\0w\x01\0\x02\0\x10\0data\x0a\0\0\0\xff\x7f\xff\x7f\xfe\x7f\x01\x80\x01\x80";

const SINE: [u8; 60] =
    *b"RIFF4\0\0\0WAVEfmt \x10\0\0\0\x01\0\x02\0\0w\x01\0\0\xdc\x05\0\x04\0\x10\0data\x10\0\0\0'\0'\0?\x02@\x02d\x03d\x03@\x02@\x02";

const EXTENSIBLE: [u8; 80] =
    *b"RIFFH\0\0\0WAVEfmt (\0\0\0\xfe\xff\x01\0@\x1f\0\0\xc0]\0\0\x03\0\x18\0\x16\0\x18\0\x04\0\0\0\x01\0\0\0\0\0\x10\0\x80\0\0\
\xaa\08\x9bqfact\x04\0\0\0\0\0\0\0data\0\0\0\0";

/// Rate, channels, first byte, frames, title and artist; or the number of the refusal.
type Head<'a> = Result<(u32, u16, u64, u64, Option<&'a str>, Option<&'a str>), u8>;

const HEADS: [(&[u8], Head<'static>); 6] = [
    (&WAVE_A, Ok((8000, 1, 56, 2, Some("Hi"), Some("A")))),
    (&WAVE_B, Ok((8000, 1, 44, 2, None, None))),
    (&WAVE_B_CUT, Err(12)),
    (&SQUARE, Ok((48_000, 1, 44, 5, None, None))),
    (&SINE, Ok((96_000, 2, 44, 4, None, None))),
    (&EXTENSIBLE, Err(13)),
];

/// What the first bytes of WAVE_A give, from one count of them up to, but not including, another.
const FIRST_BYTES: [(usize, usize, Head<'static>); 9] = [
    (0, 12, Err(11)),
    (12, 48, Err(12)),
    (48, 56, Err(14)),
    (56, 58, Ok((8000, 1, 56, 0, None, None))),
    (58, 60, Ok((8000, 1, 56, 1, None, None))),
    (60, 81, Ok((8000, 1, 56, 2, None, None))),
    (81, 82, Ok((8000, 1, 56, 2, Some("H"), None))),
    (82, 93, Ok((8000, 1, 56, 2, Some("Hi"), None))),
    (93, 95, Ok((8000, 1, 56, 2, Some("Hi"), Some("A")))),
];

/// Files, a frame, how many frames at most from there on, and their samples.
const FRAMES: [(&[u8], u64, usize, &[i16]); 5] = [
    (&WAVE_A, 0, 4096, &[1, -2]),
    (&WAVE_A, 1, 4096, &[-2]),
    (&WAVE_A, 2, 4096, &[]),
    (&SQUARE, 0, 5, &[32767, 32767, 32766, -32767, -32767]),
    (&SINE, 1, 2, &[575, 576, 868, 868]),
];

// The next functions have no contract: the prover then reads the long ones of the readers here alone, and in no test.

fn head(alloc: Global, bytes: &[u8]) -> Result<WaveInfo, WaveError> {
    read_head(alloc, &mut MemSource::new(bytes), TagSet::SIX)
}

fn frames(
    alloc: Global,
    bytes: &[u8],
    info: &WaveInfo,
    from: u64,
    most: usize,
) -> Result<Vec<i16>, WaveError> {
    read_frames(alloc, &mut MemSource::new(bytes), info, from, most)
}

fn shown(info: &WaveInfo) -> Head<'_> {
    let (title, artist) = (info.tags.get(Tag::Title), info.tags.get(Tag::Artist));
    Ok((
        info.rate,
        info.channels,
        info.first_byte,
        info.frames,
        title,
        artist,
    ))
}

fn has_head(rt: &impl Abort, alloc: Global, bytes: &[u8], want: Head<'static>) {
    match head(alloc, bytes) {
        Ok(info) => equal(rt, shown(&info), want),
        Err(refusal) => equal(rt, Err(refusal.number()), want),
    }
}

fn sounds(
    rt: &impl Abort,
    alloc: Global,
    bytes: &[u8],
    from: u64,
    most: usize,
    want: &[i16],
) -> Result<(), WaveError> {
    let info = head(alloc, bytes)?;
    same_samples(rt, &frames(alloc, bytes, &info, from, most)?, want);
    Ok(())
}

/// Each count of first bytes of WAVE_A in a range gives this; past its end WAVE_B stands for them, which gives something else.
fn have_head(rt: &impl Abort, alloc: Global, start: usize, end: usize, want: Head<'static>) {
    for count in start..end {
        has_head(rt, alloc, WAVE_A.get(..count).unwrap_or(&WAVE_B), want);
    }
}

#[test]
fn first_bytes_of_a_file(rt: HostRuntime) {
    for (start, end, want) in &FIRST_BYTES {
        have_head(&rt, rt.alloc(), *start, *end, *want);
    }
}

#[test]
fn wave_heads(rt: HostRuntime) -> Result<(), Fail> {
    for (bytes, want) in &HEADS {
        has_head(&rt, rt.alloc(), bytes, *want);
    }
    for (bytes, from, most, want) in &FRAMES {
        sounds(&rt, rt.alloc(), bytes, *from, *most, want)?;
    }
    Ok(())
}

/// A chunk without data, of which nobody knows what it is.
const EMPTY: [u8; 8] = *b"junk\0\0\0\0";

/// How many such chunks stand behind the two of SQUARE, and what the file gives: 65,536 chunks are read, and one more is refused.
const MANY: [(usize, Head<'static>); 2] = [
    (65_534, Ok((48_000, 1, 44, 5, None, None))),
    (65_535, Err(16)),
];

fn with_empty_chunks(alloc: Global, count: usize) -> Result<Vec<u8>, AllocError> {
    let mut file = Vec::new(alloc);
    file.extend_from_slice(&SQUARE)?;
    for _ in 0..count {
        file.extend_from_slice(&EMPTY)?;
    }
    Ok(file)
}

#[test]
fn chunks_at_their_limit(rt: HostRuntime) -> Result<(), Fail> {
    for (count, want) in &MANY {
        let file = with_empty_chunks(rt.alloc(), *count)?;
        has_head(&rt, rt.alloc(), &file, *want);
    }
    Ok(())
}

/// Volumes, and what samples become at each.
const SCALED: [(u8, [i16; 5]); 3] = [
    (50, [-16384, 1, -1, 0, -1]),
    (0, [0, 0, 0, 0, 0]),
    (100, [-32768, 3, -3, 1, -2]),
];

fn scaled(volume: u8) -> [i16; 5] {
    let mut samples = [-32768, 3, -3, 1, -2];
    if volume <= 100 {
        scale(&mut samples, volume);
    }
    samples
}

#[test]
fn volume_scale(rt: HostRuntime) {
    for (volume, want) in &SCALED {
        same_samples(&rt, &scaled(*volume), want);
    }
}

const TROUBLES: [ReadTrouble; 3] = [
    ReadTrouble::Fails,
    ReadTrouble::GivesNothing,
    ReadTrouble::FallsShort(1),
];

/// The refusal of a file of which one read goes wrong, and how often it has failed or given no byte.
fn troubled(alloc: Global, reads_before: u64, trouble: ReadTrouble) -> (Option<WaveError>, u64) {
    let mut source = FaultySource {
        source: MemSource::new(&WAVE_A),
        reads_before,
        trouble,
        faults: 0,
        reads: 0,
    };
    let refusal = read_head(alloc, &mut source, TagSet::SIX).err();
    (refusal, source.faults)
}

/// The head is refused just where a read failed or gave no byte. How often it was.
fn is_refused_by_faults(rt: &impl Abort, alloc: Global, reads_before: u64) -> u64 {
    let mut count = 0u64;
    for trouble in &TROUBLES {
        let (refusal, faults) = troubled(alloc, reads_before, *trouble);
        let want = if faults == 0 {
            None
        } else {
            Some(WaveError::ReadFault)
        };
        equal(rt, (reads_before, refusal), (reads_before, want));
        count = count.saturating_add(faults);
    }
    count
}

/// The first read and the fourth are made, and not the hundredth.
#[test]
fn a_read_goes_wrong(rt: HostRuntime) {
    for reads_before in 0..12 {
        let faults = is_refused_by_faults(&rt, rt.alloc(), reads_before);
        equal(&rt, faults > 0 || reads_before > 3, true);
    }
    equal(&rt, is_refused_by_faults(&rt, rt.alloc(), 99), 0);
}
