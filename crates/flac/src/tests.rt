// Files of Debian's flac 1.4.2 and ffmpeg 5.1, what metaflac says of them, and the samples that went into them.
use crate::{FlacError, FlacHead, FlacReader, read_head};
use song_files::{FaultySource, MemSource, ReadTrouble, Source};
use std::alloc::{AllocError, Global};
use std::process::Abort;
use std::test::Fail;

const BY_FLAC: &[u8] =
    b"fLaC\x00\x00\x00\x22\x00\x10\x00\x10\x00\x00 \x00\x000\x0a\xc4B\xf0\x00\x00\x00(\xdd\xc6\xd9\xda\xa9\xb4|\xa1\x89\xd3\xce$\xe6\xf3\x89\xa6\x04\x00\x00W \x00\x00\x00reference libFLAC 1.4.2 20221022\x02\x00\x00\x00\x17\x00\x00\x00title=Nacht und Tr\xc3\xa4ume\x10\x00\x00\x00ARTIST=Ann = Bob\x86\x00\x00s\x00\x00\x00\x03\x00\x00\x00\x09image/png\x00\x00\x00\x07a cover\x00\x00\x00\x01\x00\x00\x00\x01\x00\x00\x00\x08\x00\x00\x00\x00\x00\x00\x00C\x89PNG\x0d\x0a\x1a\x0a\x00\x00\x00\x0dIHDR\x00\x00\x00\x01\x00\x00\x00\x01\x08\x00\x00\x00\x00:~\x9bU\x00\x00\x00\x0aIDATx\x9cc`\x00\x00\x00\x02\x00\x01H\xaf\xa4q\x00\x00\x00\x00IEND\xaeB`\x82\xff\xf8i\x18\x00\x0f\x92\x11@\x83\xda\xc7\xccR\xc3\x14\xf9\xe5y\x04\x98\xab\xfel\x8e\x11\xbbW`\x02@\x0c\x80)O]\x14\xf5\xd7E=u\xd1O]t8}\xff\xf8i\x18\x01\x0f\x87\x11@\x85x\xde86?\xd1X$\xbc|\xb3\xe8bR\xb9\x93 {X\xf1 \x03\xa0\x17\xae\xba)\xeb\xae\x8az\xe8\xa7\xae\xba)\x87q\xff\xf8i\x18\x02\x07\x80\x11@\x89\x8aXb\x9f<\xaf \x93\x15q \x04 \x17\xae\x8az\xeb\xa2\x90\xebM";

const BY_FFMPEG: &[u8] =
    b"fLaC\x00\x00\x00\x22\x12\x00\x12\x00\x00\x00\x8c\x00\x00\x8c\x0b\xb8\x00\xf0\x00\x00\x00P\xdd\xc6\xd9\xda\xa9\xb4|\xa1\x89\xd3\xce$\xe6\xf3\x89\xa6\x84\x00\x00\x19\x06\x00\x00\x00ffmpeg\x01\x00\x00\x00\x07\x00\x00\x00title=T\xff\xf8j\x08\x00O\xcdN\xfa$\x00d\xfc\xe0\x00?\xff\x9c\x00L\x02X\x00Y\xe7\x86\x9a\xd5\x18\x1b\xc6\xb2\xe0]{u\x01\x98[9\x81 x\xd0\xc2A\x9c\xb3j\x82\xf8\xa7\xbbjh\x97l\x8b\x9e\xf6\xc8\xefI\x9e\xf0\x13\xde<\xc1t\xc6\x83\xa5(]\x10\x05\xad\x1ff\xb2\xe2@\xa3\x90$\xe0\xb0)F\xa3YD\x97$/cT\x97Q\xb7\xe1\x1f\xcd\xac\x8cp\xad\xcf\x1e\x1c>\x84B:\xb1&\xec\x0eGt\x03\xca\x98\x92\x0c\xcd\x9aT\x97\xc5A\xdaW\x04\xbf^\x00`\xd5";

/// The head of an empty ID3v2.4 tag with a footer, of 200 bytes of padding.
const TAG_HEAD: &[u8] = b"ID3\x04\x00\x10\x00\x00\x01\x48";

/// What is told of the two files, of the first behind a tag of 220 bytes, and of pieces of it.
const HEADS: [&str; 6] = [
    "44100 2 16 40 of 16 to 16, 252; TITLE=Nacht und Tr\u{e4}ume ARTIST=Ann = Bob; 3 image/png 185 67",
    "48000 1 16 80 of 4608 to 4608, 71; TITLE=T;",
    "44100 2 16 40 of 16 to 16, 472; TITLE=Nacht und Tr\u{e4}ume ARTIST=Ann = Bob; 3 image/png 405 67",
    "a metadata block is damaged",
    "not a FLAC file",
    "not a FLAC file",
];

fn add_texts(text: &mut String, head: &FlacHead) -> Result<(), AllocError> {
    for comment in head.comments.as_slice() {
        write!(text, " {}={}", comment.name(), comment.value())?;
    }
    text.push_str(";")?;
    for picture in head.pictures.as_slice() {
        let media_type = picture.media_type();
        write!(
            text,
            " {} {media_type} {} {}",
            picture.kind(),
            picture.first(),
            picture.len()
        )?;
    }
    Ok(())
}

/// A head as a text, or why there is none.
fn told<S: Source>(alloc: Global, source: &mut S) -> Result<String, Fail> {
    let head = match read_head(alloc, source) {
        Ok(head) => head,
        Err(error) => return Ok(format!(in alloc; "{error}")?),
    };
    let info = head.info;
    let mut text = format!(in alloc;
        "{} {} {} {}",
        info.rate, info.channels, info.bits, info.samples
    )?;
    write!(
        text,
        " of {} to {}, {};",
        info.min_block, info.max_block, head.first_frame
    )?;
    add_texts(&mut text, &head)?;
    Ok(text)
}

fn check(rt: &impl Abort, alloc: Global, bytes: &[u8], expected: &str) -> Result<(), Fail> {
    let text = told(alloc, &mut MemSource::new(bytes))?;
    assert_eq!(rt; text.as_str(), expected);
    Ok(())
}

#[test]
fn heads(rt: HostRuntime) -> Result<(), Fail> {
    let alloc = rt.alloc();
    let mut tagged = Vec::from_slice(alloc, TAG_HEAD)?;
    tagged.extend_from_slice(&[0; 210])?;
    tagged.extend_from_slice(BY_FLAC)?;
    check(&rt, alloc, BY_FLAC, HEADS[0])?;
    check(&rt, alloc, BY_FFMPEG, HEADS[1])?;
    check(&rt, alloc, tagged.as_slice(), HEADS[2])?;
    check(&rt, alloc, &BY_FLAC[..240], HEADS[3])?;
    check(&rt, alloc, &BY_FLAC[1..], HEADS[4])?;
    check(&rt, alloc, b"", HEADS[5])
}

fn faulty(reads_before: u64, trouble: ReadTrouble) -> FaultySource<'static> {
    FaultySource {
        source: MemSource::new(BY_FLAC),
        reads_before,
        trouble,
        faults: 0,
        reads: 0,
    }
}

/// How many reads the head of the first file takes.
const READS: u64 = 17;

/// Each read of the head goes wrong in turn: nothing but that is told, or, where it falls short, what is told without.
#[test]
fn faults(rt: HostRuntime) -> Result<(), Fail> {
    let alloc = rt.alloc();
    for reads_before in 0..READS {
        for trouble in [ReadTrouble::Fails, ReadTrouble::GivesNothing] {
            let text = told(alloc, &mut faulty(reads_before, trouble))?;
            assert_eq!(rt; text.as_str(), "the source could not be read");
        }
        let text = told(alloc, &mut faulty(reads_before, ReadTrouble::FallsShort(1)))?;
        assert_eq!(rt; text.as_str(), HEADS[0]);
    }
    let text = told(alloc, &mut faulty(READS, ReadTrouble::Fails))?;
    assert_eq!(rt; text.as_str(), HEADS[0]);
    Ok(())
}

/// The sample with a number among those that went into the files, two channels in turn.
fn sample(number: u16) -> i64 {
    let moment = i64::from(number / 2);
    if number % 2 == 0 {
        moment * 700 % 3000 - 1500
    } else {
        100 - moment * 37 % 50
    }
}

/// All samples from one on, in pieces of at most seven: those with the numbers from `first` up to 80.
fn check_samples(
    rt: &impl Abort,
    alloc: Global,
    bytes: &[u8],
    from: u64,
    first: u16,
) -> Result<(), Fail> {
    let mut source = MemSource::new(bytes);
    let head = read_head(alloc, &mut source)?;
    let mut reader = FlacReader::new(alloc, &head)?;
    let mut buffer = [0; 7];
    let mut at = from;
    let mut number = first;
    for _ in 0..100 {
        let count = reader.read(&mut source, at, &mut buffer)?;
        let size = count.saturating_mul(usize::from(head.info.channels));
        for value in &buffer[..size.min(7)] {
            assert_eq!(rt; *value, sample(number));
            number = number.saturating_add(1);
        }
        at = at.saturating_add(count as u64);
    }
    assert_eq!(rt; number, 80);
    assert_eq!(rt; reader.count(&mut source)?, head.info.samples);
    Ok(())
}

#[test]
fn samples(rt: HostRuntime) -> Result<(), Fail> {
    let alloc = rt.alloc();
    check_samples(&rt, alloc, BY_FLAC, 0, 0)?;
    check_samples(&rt, alloc, BY_FLAC, 17, 34)?;
    check_samples(&rt, alloc, BY_FFMPEG, 0, 0)?;
    check_samples(&rt, alloc, BY_FFMPEG, 79, 79)
}

/// The last frame is cut: what stands before it comes, and it is told as broken.
#[test]
fn broken(rt: HostRuntime) -> Result<(), Fail> {
    let alloc = rt.alloc();
    let mut source = MemSource::new(&BY_FLAC[..370]);
    let head = read_head(alloc, &mut source)?;
    let mut reader = FlacReader::new(alloc, &head)?;
    let mut buffer = [0; 80];
    assert_eq!(rt; reader.read(&mut source, 16, &mut buffer), Ok(16));
    assert_eq!(rt;
        reader.read(&mut source, 32, &mut buffer),
        Err(FlacError::BrokenFrame)
    );
    assert_eq!(rt; reader.read(&mut source, 40, &mut buffer), Ok(0));
    Ok(())
}
