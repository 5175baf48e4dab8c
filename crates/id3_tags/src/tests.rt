//! Tags that other programs made, what is written, and where memory or the source fails.
use crate::{Id3Tag, PictureFront, TagError, TagText, TextFrame, read_tag, write_tag};
use song_files::{FaultySource, MemSource, ReadTrouble, Source};
use std::alloc::{AllocError, Global};
use std::process::Abort;
use std::str;
use std::test::Fail;

// Tags and what they tell: the first six were made by mutagen 1.46, the next two by ffmpeg 5.1, the others by hand.
const ROWS: [(&[u8], &str); 18] = [
    // mutagen 2.4 UTF-8, several values
    (
        &[
            73, 68, 51, 4, 0, 0, 0, 0, 0, 111, 84, 73, 84, 50, 0, 0, 0, 7, 0, 0, 3, 83, 195, 179,
            110, 103, 0, 84, 80, 69, 49, 0, 0, 0, 5, 0, 0, 3, 65, 0, 66, 0, 84, 67, 79, 78, 0, 0,
            0, 6, 0, 0, 3, 40, 49, 55, 41, 0, 67, 79, 77, 77, 0, 0, 0, 8, 0, 0, 3, 101, 110, 103,
            100, 0, 99, 0, 84, 88, 88, 88, 0, 0, 0, 25, 0, 0, 3, 77, 117, 115, 105, 99, 66, 114,
            97, 105, 110, 122, 32, 65, 108, 98, 117, 109, 32, 73, 100, 0, 109, 98, 0, 0, 0, 0, 0,
            0, 0, 0, 0, 0, 0,
        ],
        "4|TIT2.XXX..Sóng|TPE1.XXX..A|TPE1.XXX..B|TCON.XXX..(17)|COMM.eng.d.c|TXXX.XXX.MusicBrainz Album Id.mb",
    ),
    // mutagen 2.4 UTF-16
    (
        &[
            73, 68, 51, 4, 0, 0, 0, 0, 0, 84, 84, 73, 84, 50, 0, 0, 0, 13, 0, 0, 1, 255, 254, 83,
            0, 243, 0, 110, 0, 103, 0, 0, 0, 84, 80, 69, 49, 0, 0, 0, 17, 0, 0, 1, 255, 254, 65, 0,
            0, 0, 255, 254, 66, 0, 52, 216, 30, 221, 0, 0, 67, 79, 77, 77, 0, 0, 0, 14, 0, 0, 1,
            100, 101, 117, 255, 254, 0, 0, 255, 254, 99, 0, 0, 0, 0, 0, 0, 0, 0, 0, 0, 0, 0, 0,
        ],
        "4|TIT2.XXX..Sóng|TPE1.XXX..A|TPE1.XXX..B𝄞|COMM.deu..c",
    ),
    // mutagen 2.4 UTF-16BE
    (
        &[
            73, 68, 51, 4, 0, 0, 0, 0, 0, 50, 84, 73, 84, 50, 0, 0, 0, 11, 0, 0, 2, 0, 83, 0, 243,
            0, 110, 0, 103, 0, 0, 84, 80, 69, 49, 0, 0, 0, 9, 0, 0, 2, 0, 65, 0, 0, 0, 66, 0, 0, 0,
            0, 0, 0, 0, 0, 0, 0, 0, 0,
        ],
        "4|TIT2.XXX..Sóng|TPE1.XXX..A|TPE1.XXX..B",
    ),
    // mutagen 2.4 Latin-1
    (
        &[
            73, 68, 51, 4, 0, 0, 0, 0, 0, 41, 84, 73, 84, 50, 0, 0, 0, 6, 0, 0, 0, 83, 243, 110,
            103, 0, 84, 65, 76, 66, 0, 0, 0, 5, 0, 0, 0, 120, 0, 121, 0, 0, 0, 0, 0, 0, 0, 0, 0, 0,
            0,
        ],
        "4|TIT2.XXX..Sóng|TALB.XXX..x|TALB.XXX..y",
    ),
    // mutagen 2.3 UTF-16
    (
        &[
            73, 68, 51, 3, 0, 0, 0, 0, 0, 84, 84, 73, 84, 50, 0, 0, 0, 13, 0, 0, 1, 255, 254, 83,
            0, 243, 0, 110, 0, 103, 0, 0, 0, 84, 89, 69, 82, 0, 0, 0, 6, 0, 0, 0, 49, 57, 57, 57,
            0, 85, 70, 73, 68, 0, 0, 0, 25, 0, 0, 104, 116, 116, 112, 58, 47, 47, 109, 117, 115,
            105, 99, 98, 114, 97, 105, 110, 122, 46, 111, 114, 103, 0, 105, 100, 0, 0, 0, 0, 0, 0,
            0, 0, 0, 0,
        ],
        "3|TIT2.XXX..Sóng|TYER.XXX..1999|UFID.XXX.http://musicbrainz.org.id",
    ),
    // mutagen 2.4 picture
    (
        &[
            73, 68, 51, 4, 0, 0, 0, 0, 0, 58, 84, 73, 84, 50, 0, 0, 0, 3, 0, 0, 3, 116, 0, 65, 80,
            73, 67, 0, 0, 0, 25, 0, 0, 3, 105, 109, 97, 103, 101, 47, 112, 110, 103, 0, 3, 102,
            114, 111, 110, 116, 0, 80, 73, 67, 84, 85, 82, 69, 0, 0, 0, 0, 0, 0, 0, 0, 0, 0,
        ],
        "4|TIT2.XXX..t|3 image/png front 51 7",
    ),
    // ffmpeg 2.3
    (
        &[
            73, 68, 51, 3, 0, 0, 0, 0, 0, 73, 84, 73, 84, 50, 0, 0, 0, 13, 0, 0, 1, 255, 254, 83,
            0, 246, 0, 110, 0, 103, 0, 0, 0, 84, 80, 69, 49, 0, 0, 0, 5, 0, 0, 0, 65, 114, 116, 0,
            84, 83, 83, 69, 0, 0, 0, 15, 0, 0, 0, 76, 97, 118, 102, 53, 57, 46, 50, 55, 46, 49, 48,
            48, 0, 0, 0, 0, 0, 0, 0, 0, 0, 0, 0,
        ],
        "3|TIT2.XXX..Söng|TPE1.XXX..Art|TSSE.XXX..Lavf59.27.100",
    ),
    // ffmpeg 2.4
    (
        &[
            73, 68, 51, 4, 0, 0, 0, 0, 0, 67, 84, 73, 84, 50, 0, 0, 0, 7, 0, 0, 3, 83, 195, 182,
            110, 103, 0, 84, 80, 69, 49, 0, 0, 0, 5, 0, 0, 3, 65, 114, 116, 0, 84, 83, 83, 69, 0,
            0, 0, 15, 0, 0, 3, 76, 97, 118, 102, 53, 57, 46, 50, 55, 46, 49, 48, 48, 0, 0, 0, 0, 0,
            0, 0, 0, 0, 0, 0,
        ],
        "4|TIT2.XXX..Söng|TPE1.XXX..Art|TSSE.XXX..Lavf59.27.100",
    ),
    // 2.2 by hand, with a picture and padding
    (
        &[
            73, 68, 51, 2, 0, 0, 0, 0, 0, 73, 84, 84, 50, 0, 0, 5, 0, 83, 246, 110, 103, 84, 80,
            49, 0, 0, 9, 1, 255, 254, 65, 0, 114, 0, 116, 0, 67, 79, 77, 0, 0, 7, 0, 101, 110, 103,
            100, 0, 99, 80, 73, 67, 0, 0, 15, 0, 74, 80, 71, 3, 102, 114, 111, 110, 116, 0, 74, 80,
            69, 71, 84, 77, 84, 0, 0, 2, 0, 109, 0, 0, 0, 0, 0,
        ],
        "2|TIT2.XXX..Söng|TPE1.XXX..Art|COMM.eng.d.c|TMT .XXX..m|3 image/jpeg front 66 4",
    ),
    // 2.3 unsynchronised as a whole
    (
        &[
            73, 68, 51, 3, 0, 128, 0, 0, 0, 47, 84, 73, 84, 50, 0, 0, 0, 9, 0, 0, 1, 255, 0, 254,
            65, 0, 255, 0, 0, 0, 1, 65, 80, 73, 67, 0, 0, 0, 16, 0, 0, 0, 105, 109, 97, 103, 101,
            47, 112, 110, 103, 0, 3, 0, 120, 121, 122,
        ],
        "3|TIT2.XXX..AÿĀ",
    ),
    // 2.3 with an extended head, a group, a compressed and an encrypted frame
    (
        &[
            73, 68, 51, 3, 0, 64, 0, 0, 0, 78, 0, 0, 0, 6, 0, 0, 0, 0, 0, 0, 84, 73, 84, 50, 0, 0,
            0, 2, 0, 0, 0, 116, 84, 80, 69, 49, 0, 0, 0, 3, 0, 32, 103, 0, 65, 84, 80, 69, 50, 0,
            0, 0, 7, 0, 128, 0, 0, 0, 0, 122, 122, 122, 84, 80, 69, 51, 0, 0, 0, 4, 0, 64, 107,
            122, 122, 122, 84, 65, 76, 66, 0, 0, 0, 2, 0, 0, 0, 120,
        ],
        "3|TIT2.XXX..t|TPE1.XXX..A|TALB.XXX..x",
    ),
    // 2.4 with an extended head and an unsynchronised frame with the length of its data
    (
        &[
            73, 68, 51, 4, 0, 64, 0, 0, 0, 46, 0, 0, 0, 6, 1, 0, 84, 73, 84, 50, 0, 0, 0, 15, 0, 3,
            0, 0, 0, 9, 1, 255, 0, 254, 255, 0, 0, 65, 0, 0, 1, 84, 80, 69, 49, 0, 0, 0, 5, 0, 0,
            3, 65, 0, 66, 0,
        ],
        "4|TIT2.XXX..ÿAĀ|TPE1.XXX..A|TPE1.XXX..B",
    ),
    // 2.4 high byte first, a mark left out, values that are no texts of tags
    (
        &[
            73, 68, 51, 4, 0, 0, 0, 0, 0, 62, 84, 73, 84, 50, 0, 0, 0, 11, 0, 0, 1, 254, 255, 0,
            65, 0, 233, 0, 0, 0, 67, 67, 79, 77, 77, 0, 0, 0, 10, 0, 0, 1, 101, 110, 103, 0, 0,
            255, 254, 99, 0, 84, 80, 69, 50, 0, 0, 0, 11, 0, 0, 3, 97, 9, 98, 0, 111, 107, 0, 255,
            0, 0,
        ],
        "4|TIT2.XXX..Aé|TIT2.XXX..C|COMM.eng..c|TPE2.XXX..ok",
    ),
    // a frame past the end
    (
        &[
            73, 68, 51, 4, 0, 0, 0, 0, 0, 24, 84, 73, 84, 50, 0, 0, 0, 2, 0, 0, 3, 116, 84, 80, 69,
            49, 0, 0, 0, 127, 0, 0, 3, 65,
        ],
        "4|TIT2.XXX..t",
    ),
    // no tag
    (&[73, 68, 51, 5, 0, 0, 0, 0, 0, 0], "not"),
    // a size that is not synchsafe
    (&[73, 68, 51, 4, 0, 0, 0, 0, 0, 128], "not"),
    // too short
    (&[73, 68, 51, 4, 0], "not"),
    // compressed 2.2
    (
        &[
            73, 68, 51, 2, 0, 64, 0, 0, 0, 8, 84, 84, 50, 0, 0, 2, 0, 116,
        ],
        "2",
    ),
];

/// Adds a text.
fn show_text(alloc: Global, shown: &mut String, text: &TagText) -> Result<(), AllocError> {
    let id = str::from_utf8(&text.id).unwrap_or("?");
    let language = str::from_utf8(&text.language).unwrap_or("?");
    let line = format!(in alloc; "|{}.{}.{}.{}", id, language, text.description, text.value)?;
    shown.push_str(line.as_str())
}

/// What a tag tells, as text.
fn shown(alloc: Global, tag: &Id3Tag) -> Result<String, AllocError> {
    let mut shown = format!(in alloc; "{}", tag.version)?;
    for text in tag.texts.as_slice() {
        show_text(alloc, &mut shown, text)?;
    }
    for p in tag.pictures.as_slice() {
        let line = format!(in alloc;
            "|{} {} {} {} {}",
            p.kind, p.mime, p.description, p.first, p.len
        )?;
        shown.push_str(line.as_str())?;
    }
    Ok(shown)
}

/// What the tag in these bytes tells.
fn read<S: Source>(alloc: Global, source: &mut S, end: u64) -> Result<String, Fail> {
    match read_tag(alloc, source, 0, end) {
        Ok(tag) => Ok(shown(alloc, &tag)?),
        Err(TagError::NotTag) => Ok(String::from_str(alloc, "not")?),
        Err(e) => Err(e)?,
    }
}

fn same(rt: &impl Abort, left: &str, right: &str) {
    assert_eq!(rt; left, right);
}

#[test]
fn tags_of_other_programs(rt: HostRuntime) -> Result<(), Fail> {
    for (bytes, want) in &ROWS {
        let mut source = MemSource::new(bytes);
        let told = read(rt.alloc(), &mut source, bytes.len() as u64)?;
        same(&rt, told.as_str(), want);
    }
    Ok(())
}

/// What is written of the tag below by the standard; mutagen 1.46 and MPD 0.23.12 read it as it was given.
const WRITTEN: [u8; 122] = [
    73, 68, 51, 4, 0, 0, 0, 0, 0, 119, 84, 73, 84, 50, 0, 0, 0, 7, 0, 0, 3, 83, 195, 179, 110, 103,
    0, 84, 80, 69, 49, 0, 0, 0, 5, 0, 0, 3, 65, 0, 66, 0, 84, 88, 88, 88, 0, 0, 0, 25, 0, 0, 3, 77,
    117, 115, 105, 99, 66, 114, 97, 105, 110, 122, 32, 65, 108, 98, 117, 109, 32, 73, 100, 0, 109,
    98, 0, 67, 79, 77, 77, 0, 0, 0, 7, 0, 0, 3, 88, 88, 88, 0, 99, 0, 65, 80, 73, 67, 0, 0, 0, 25,
    0, 0, 3, 105, 109, 97, 103, 101, 47, 112, 110, 103, 0, 3, 102, 114, 111, 110, 116, 0,
];

/// A text frame of two values at most.
fn frame(
    alloc: Global,
    id: [u8; 4],
    description: &str,
    values: &[&str],
) -> Result<TextFrame, Fail> {
    let mut texts = Vec::new(alloc);
    for value in values {
        texts.push(String::from_str(alloc, value)?)?;
    }
    Ok(TextFrame {
        id,
        description: String::from_str(alloc, description)?,
        values: texts,
    })
}

/// The text frames of the tag above.
fn frames(alloc: Global) -> Result<Vec<TextFrame>, Fail> {
    let mut frames = Vec::new(alloc);
    frames.push(frame(alloc, *b"TIT2", "", &["Sóng"])?)?;
    frames.push(frame(alloc, *b"TPE1", "", &["A", "B"])?)?;
    frames.push(frame(alloc, *b"TXXX", "MusicBrainz Album Id", &["mb"])?)?;
    frames.push(frame(alloc, *b"COMM", "", &["c"])?)?;
    Ok(frames)
}

#[test]
fn written_tag(rt: HostRuntime) -> Result<(), Fail> {
    let picture = PictureFront {
        kind: 3,
        mime: String::from_str(rt.alloc(), "image/png")?,
        description: String::from_str(rt.alloc(), "front")?,
        len: 7,
    };
    let frames = frames(rt.alloc())?;
    let bytes = write_tag(rt.alloc(), &frames, Some(&picture))?;
    assert_eq!(rt; bytes.as_slice(), WRITTEN.as_slice());
    Ok(())
}

// Frames that have no place in a tag: what has no letters, no texts, a description of its own or a control character.
const UNWRITABLE: [([u8; 4], &str, &str); 5] = [
    (*b"tit2", "", "a"),
    (*b"APIC", "", "a"),
    (*b"UFID", "", "a"),
    (*b"TIT2", "d", "a"),
    (*b"TIT2", "", "a\tb"),
];

#[test]
fn frames_that_are_not_written(rt: HostRuntime) -> Result<(), Fail> {
    for (id, description, value) in &UNWRITABLE {
        let frames = [frame(rt.alloc(), *id, description, &[*value])?];
        let refused = write_tag(rt.alloc(), &frames, None).err();
        assert!(rt; refused == Some(TagError::Unwritable));
    }
    Ok(())
}

// How a read of the first row goes wrong, and what is told then.
const TROUBLES: [(u64, ReadTrouble, bool); 5] = [
    (0, ReadTrouble::Fails, false),
    (1, ReadTrouble::GivesNothing, false),
    (4, ReadTrouble::Fails, false),
    (2, ReadTrouble::FallsShort(1), true),
    (999, ReadTrouble::Fails, true),
];

/// Whether the first row is told where this read goes wrong.
fn is_told(alloc: Global, reads_before: u64, trouble: ReadTrouble) -> Result<bool, Fail> {
    let (bytes, want) = ROWS[0];
    let mut source = FaultySource {
        source: MemSource::new(bytes),
        reads_before,
        trouble,
        faults: 0,
        reads: 0,
    };
    match read_tag(alloc, &mut source, 0, bytes.len() as u64) {
        Ok(tag) => Ok(shown(alloc, &tag)?.as_str() == want),
        Err(TagError::ReadFault) => Ok(false),
        Err(e) => Err(e)?,
    }
}

#[test]
fn sources_that_fail(rt: HostRuntime) -> Result<(), Fail> {
    for (reads_before, trouble, told) in &TROUBLES {
        let is = is_told(rt.alloc(), *reads_before, *trouble)?;
        assert!(rt; is == *told);
    }
    Ok(())
}

#[test]
fn numbers(rt: HostRuntime) {
    for (e, number) in [
        (TagError::NoMemory, 7),
        (TagError::ReadFault, 15),
        (TagError::NotTag, 71),
        (TagError::Unwritable, 72),
    ] {
        assert!(rt; e.number() == number);
    }
}
