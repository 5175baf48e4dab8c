// Files that ffmpeg wrote (8, 24 and 32 bits a sample, the last two by the extensible tag), read as what they stand for.
use crate::{AsWave, FRONT_LEN, Forms, WaveSource, describe};
use song_files::{FaultySource, Folder, MemFolder, MemSource, ReadTrouble, Source, Tag, TagSet};
use std::alloc::Global;
use std::process::Abort;
use std::test::Fail;
use wave_pcm::{WaveError, read_frames, read_head};

const FORMS: Forms = Forms {
    wave_pcm: true,
    flac: true,
};

struct Row {
    file: &'static [u8],
    rate: u32,
    title: &'static str,
    samples: &'static [i16],
}

const WIDE: &[u8] =
    b"RIFF\x96\x00\x00\x00WAVEfmt\x20(\x00\x00\x00\xfe\xff\x02\x00\x80\xbb\x00\x00\x00\xdc\x05\
    \x00\x08\x00\x20\x00\x16\x00\x20\x00\x03\x00\x00\x00\x01\x00\x00\x00\x00\x00\x10\x00\x80\
    \x00\x00\xaa\x008\x9bqLIST\x12\x00\x00\x00INFOINAM\x05\x00\x00\x00Wide\x00\x00data@\x00\
    \x00\x00\x00\x00\x00\x00\x01\x00\x00\x00\xff\xff\xff\xff\x00\x00\xff\x7f\x00\x00\x00\x80\
    \x00\x80\xff\x7f\xff\x7f\xff\x7f\xff\xff\xff\x7f\x00\x00\x00\x80\x00\x80\x00\x00\x00\x80\
    \xff\xff\xff\x7f\xff\xff\x00\x80\x01\x00\x15\xcd[\x07O\x97!\xc5\x00\x00\x80\x00";

const MIDDLE: &[u8] =
    b"RIFF\x88\x00\x00\x00WAVEfmt\x20(\x00\x00\x00\xfe\xff\x01\x00\x00w\x01\x00\x00e\x04\x00\x03\
    \x00\x18\x00\x16\x00\x18\x00\x04\x00\x00\x00\x01\x00\x00\x00\x00\x00\x10\x00\x80\x00\x00\
    \xaa\x008\x9bqLIST\x14\x00\x00\x00INFOINAM\x07\x00\x00\x00Middle\x00\x00data0\x00\x00\x00\
    \x00\x00\x00\x00\x00\x00\xff\xff\xff\x00\xff\x7f\x00\x00\x80\x80\xff\x7f\x7f\xff\x7f\xff\
    \xff\x7f\x00\x00\x80\x80\x00\x00\x80\xff\xff\x7f\xff\xff\x80\x01\x00\xcd[\x07\x97!\xc5\x00\
    \x80\x00";

const EIGHT: &[u8] =
    b"RIFFF\x00\x00\x00WAVEfmt\x20\x10\x00\x00\x00\x01\x00\x01\x00@\x1f\x00\x00@\x1f\x00\x00\x01\
    \x00\x08\x00LIST\x12\x00\x00\x00INFOINAM\x06\x00\x00\x00Eight\x00data\x08\x00\x00\x00\x00\
    \x01\x7f\x80\x81\xfe\xff@";

// The front of a file of floats.
const FLOATS: &[u8; FRONT_LEN] =
    b"RIFF\x88\x00\x00\x00WAVEfmt\x20(\x00\x00\x00\xfe\xff\x02\x00D\xac\x00\x00\x20b\x05\x00\x08\
    \x00\x20\x00\x16\x00\x20\x00\x03\x00\x00\x00\x03\x00";

// The samples as Python computes them.
const ROWS: [Row; 3] = [
    Row {
        file: WIDE,
        rate: 48_000,
        title: "Wide",
        samples: &[
            0, 0, 0, 32767, -32768, 32767, 32767, 32767, -32768, 1, 0, -1, 2, 1884, -15070, 128,
        ],
    },
    Row {
        file: MIDDLE,
        rate: 96_000,
        title: "Middle",
        samples: &[
            0, 0, 0, 32767, -32768, 32767, 32767, 32767, -32768, 1, 0, -1, 2, 1884, -15070, 128,
        ],
    },
    Row {
        file: EIGHT,
        rate: 8_000,
        title: "Eight",
        samples: &[-32768, -32512, -256, 0, 256, 32256, 32512, -16384],
    },
];

fn is_read<S: Source>(
    rt: &impl Abort,
    alloc: Global,
    source: &mut S,
    row: &Row,
) -> Result<(), Fail> {
    let info = read_head(alloc, source, TagSet::ALL)?;
    assert_eq!(rt; info.rate, row.rate);
    assert_eq!(rt; info.tags.get(Tag::Title), Some(row.title));
    let samples = read_frames(alloc, source, &info, 0, 100)?;
    assert_eq!(rt; samples.as_slice(), row.samples);
    Ok(())
}

#[test]
fn each_width_is_read(rt: HostRuntime) -> Result<(), Fail> {
    for row in &ROWS {
        let mut source = WaveSource::new(rt.alloc(), MemSource::new(row.file), FORMS)?;
        is_read(&rt, rt.alloc(), &mut source, row)?;
    }
    Ok(())
}

#[test]
fn a_folder_opens_what_its_files_stand_for(rt: HostRuntime) -> Result<(), Fail> {
    let mut folder = MemFolder::new(rt.alloc());
    folder.add(rt.alloc(), "a/wide.wav", WIDE)?;
    let mut folder = AsWave {
        folder,
        forms: FORMS,
    };
    let file = folder.open(rt.alloc(), "a/wide.wav")?;
    is_read(&rt, rt.alloc(), &mut file.ok_or("no file")?, &ROWS[0])?;
    assert!(rt; folder.open(rt.alloc(), "wide.wav")?.is_none());
    let listed = folder.list(rt.alloc(), "a")?.ok_or("no folder")?;
    assert_eq!(rt; listed.len(), 1);
    Ok(())
}

#[test]
fn without_forms_a_file_is_what_it_is(rt: HostRuntime) -> Result<(), Fail> {
    let forms = Forms {
        wave_pcm: false,
        flac: false,
    };
    let mut source = WaveSource::new(rt.alloc(), MemSource::new(EIGHT), forms)?;
    assert_eq!(rt; source.len(), EIGHT.len() as u64);
    assert!(rt; read_head(rt.alloc(), &mut source, TagSet::ALL).is_err());
    Ok(())
}

fn faulty(reads_before: u64) -> FaultySource<'static> {
    FaultySource {
        source: MemSource::new(MIDDLE),
        reads_before,
        trouble: ReadTrouble::Fails,
        faults: 0,
        reads: 0,
    }
}

// The head of a file takes a few reads, the samples one.
#[test]
fn a_read_that_fails_is_a_fault(rt: HostRuntime) -> Result<(), Fail> {
    let made = WaveSource::new(rt.alloc(), faulty(2), FORMS);
    assert!(rt; matches!(made, Err(WaveError::ReadFault)));
    for reads_before in 10..30 {
        let mut source = WaveSource::new(rt.alloc(), faulty(reads_before), FORMS)?;
        let mut buffer = [0; 32];
        let mut failed = 0_u8;
        for _ in 0..30 {
            if source.read_at(44, &mut buffer).is_err() {
                failed = failed.saturating_add(1);
            }
        }
        assert_eq!(rt; failed, 1);
    }
    Ok(())
}

#[test]
fn floats_are_told_in_words(rt: HostRuntime) -> Result<(), Fail> {
    let words = format!(in rt.alloc(); "{}", describe(FLOATS))?;
    assert_eq!(rt; words.as_str(), "32-bit float WAVE");
    Ok(())
}
