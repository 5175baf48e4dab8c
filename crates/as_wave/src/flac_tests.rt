// A FLAC file of 24 bits that flac 1.4.2 wrote, with comments and a picture, read as the WAVE file that it stands for.
use crate::{Forms, WaveSource};
use id3_tags::read_tag;
use song_files::{FaultySource, MemSource, ReadTrouble, Source, TagSet};
use std::alloc::{AllocError, Global};
use std::process::Abort;
use std::test::Fail;
use wave_pcm::{WaveError, read_frames, read_head_with_id3};

const FORMS: Forms = Forms {
    wave_pcm: false,
    flac: true,
};

const FLAC: &[u8] =
    b"fLaC\x00\x00\x00\x22\x00\x10\x00\x10\x00\x005\x00\x005\x17p\x01p\x00\x00\x00\x10-\xfer#\xd2\
    \xfcVQ\xf6\xaco\xa0\xaa](\x1d\x04\x00\x00\xa9\x20\x00\x00\x00reference\x20libFLAC\x201.4.2\x20\
    20221022\x07\x00\x00\x00\x17\x00\x00\x00title=Nacht\x20und\x20Tr\xc3\xa4ume\x0a\x00\x00\x00ART\
    IST=Ann\x0a\x00\x00\x00ARTIST=Bob\x0d\x00\x00\x00TRACKNUMBER=3\x0d\x00\x00\x00TRACKTOTAL=12\
    \x17\x00\x00\x00MUSICBRAINZ_ALBUMID=a-b\x09\x00\x00\x00MOOD=dark\x86\x00\x00s\x00\x00\x00\x03\
    \x00\x00\x00\x09image/png\x00\x00\x00\x07a\x20cover\x00\x00\x00\x01\x00\x00\x00\x01\x00\x00\
    \x00\x08\x00\x00\x00\x00\x00\x00\x00C\x89PNG\x0d\x0a\x1a\x0a\x00\x00\x00\x0dIHDR\x00\x00\x00\
    \x01\x00\x00\x00\x01\x08\x00\x00\x00\x00:~\x9bU\x00\x00\x00\x0aIDATx\x9cc`\x00\x00\x00\x02\x00\
    \x01H\xaf\xa4q\x00\x00\x00\x00IEND\xaeB`\x82\xff\xf8k\x0c\x00\x0f\xb7\x10P\x10@\xdd\xff\xfc\
    \x01w\xff\xff\xfd\xdf\xff\xe0\x17\x7f\xff\x7f]\xff\xff\xfdw\xff\xff\xf9\xc8\x03\xbf\xd0\x80\
    \xa5\x80M\xd6\xf3Vu\xbc\xd1y\x00\x00\xa8\x97";

/// What went into the file, as Python rounds it.
const SAMPLES: &[i16] = &[
    0, 0, 0, 32767, -32768, 32767, 32767, 32767, -32768, 1, 0, -1, 2, 1884, -15070, 128,
];

/// The comments that flac was given, under their frames, and the picture.
const TAG: &str =
    "TIT2  Nacht und Tr\u{e4}ume; TPE1  Ann; TPE1  Bob; TRCK  3/12; TXXX MusicBrainz Album Id a-b; TXXX Vorbis comments FLAC; 3 image/png 67";

fn told<S: Source>(
    alloc: Global,
    source: &mut S,
    first: u64,
    len: u64,
) -> Result<Option<String>, AllocError> {
    let end = first.saturating_add(len);
    let Ok(tag) = read_tag(alloc, source, first, end) else {
        return Ok(None);
    };
    let mut text = String::new(alloc);
    for frame in tag.texts.as_slice() {
        let Ok(id) = std::str::from_utf8(&frame.id) else {
            return Ok(None);
        };
        write!(text, "{id} {} {}; ", frame.description, frame.value)?;
    }
    for picture in tag.pictures.as_slice() {
        write!(text, "{} {} {}", picture.kind, picture.mime, picture.len)?;
    }
    Ok(Some(text))
}

#[test]
fn a_flac_file_is_read(rt: HostRuntime) -> Result<(), Fail> {
    let alloc = rt.alloc();
    let mut source = WaveSource::new(alloc, MemSource::new(FLAC), FORMS)?;
    let head = read_head_with_id3(alloc, &mut source, TagSet::ALL)?;
    assert_eq!(rt; head.info.rate, 96_000);
    assert_eq!(rt; head.info.channels, 1);
    let samples = read_frames(alloc, &mut source, &head.info, 0, 100)?;
    assert_eq!(rt; samples.as_slice(), SAMPLES);
    let samples = read_frames(alloc, &mut source, &head.info, 7, 3)?;
    assert_eq!(rt; samples.as_slice(), &SAMPLES[7..10]);
    let place = head.id3.ok_or("no tag")?;
    let text = told(alloc, &mut source, place.first, place.len)?.ok_or("no text")?;
    let end = place.first.saturating_add(place.len);
    assert_eq!(rt; text.as_str(), TAG);
    let mut picture = [0; 67];
    let read = source
        .read_at(end.saturating_sub(67), &mut picture)
        .ok()
        .ok_or("no read")?;
    assert_eq!(rt; &picture[..read.min(4)], b"\x89PNG".as_slice());
    Ok(())
}

/// A frame that isn't whole is a fault at its place; the head and the tag are told all the same.
#[test]
fn a_broken_frame_is_a_fault(rt: HostRuntime) -> Result<(), Fail> {
    let alloc = rt.alloc();
    let mut source = WaveSource::new(alloc, MemSource::new(&FLAC[..380]), FORMS)?;
    let head = read_head_with_id3(alloc, &mut source, TagSet::ALL)?;
    assert_eq!(rt; head.info.frames, 16);
    assert!(rt; head.id3.is_some());
    let mut buffer = [0; 4];
    assert!(rt; source.read_at(0, &mut buffer).is_ok());
    assert!(rt; source.read_at(44, &mut buffer).is_err());
    assert!(rt; source.read_at(76, &mut buffer).is_ok());
    Ok(())
}

#[test]
fn a_flac_read_that_fails_is_a_fault(rt: HostRuntime) -> Result<(), Fail> {
    let alloc = rt.alloc();
    for reads_before in 0..40 {
        let faulty = FaultySource {
            source: MemSource::new(FLAC),
            reads_before,
            trouble: ReadTrouble::Fails,
            faults: 0,
            reads: 0,
        };
        let mut buffer = [0; 4];
        match WaveSource::new(alloc, faulty, FORMS) {
            Err(error) => assert!(rt; matches!(error, WaveError::ReadFault)),
            Ok(mut source) => {
                let _ = source.read_at(44, &mut buffer);
                assert!(rt; source.read_at(46, &mut buffer).is_ok());
                assert_eq!(rt; buffer, [0, 0, 0, 0]);
            }
        }
    }
    Ok(())
}
