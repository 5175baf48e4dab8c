// A decoder that keeps the protocol, and such that break it.
ghost use Rattle.std.specs.Prelude.{None, []};

use super::*;
use song_files::{Folder, FolderFault, MemFolder, Source};
use std::alloc::{AllocError, Global};
use std::test::Fail;

// What the decoder tells, of a size that no piece is a part of: byte i is i / 7 + i.
const WAVE_LEN: usize = 150_001;

// How a decoder answers.
#[derive(Clone, Copy, Debug, PartialEq, Eq)]
enum Manner {
    Honest,
    // It gives at most so many bytes at once.
    Few(usize),
    NoSong,
    Failed,
    // The frame says more than any answer has.
    LongFrame,
    EmptyFrame,
    MoreThanAsked,
    OtherStatus,
    NoByte,
    OtherLength,
    // The connection ends in the middle of an answer.
    Cut,
    Silent,
}

// Which answer is given in that manner; all others are honest.
#[derive(Clone, Copy)]
struct Script {
    manner: Manner,
    answer: u32,
}

#[derive(Drop)]
struct FakeLink {
    alloc: Global,
    script: Script,
    answers: u32,
    coming: Vec<u8>,
    received: usize,
}

fn wave_byte(at: u64) -> u8 {
    ((at / 7).wrapping_add(at) % 256) as u8
}

// How many bytes an answer with these behind its status has.
fn frame_len(bytes: &[u8]) -> u32 {
    match u32::try_from(bytes.len()) {
        Ok(len) => len.saturating_add(1),
        Err(_) => u32::MAX,
    }
}

impl FakeLink {
    // The next answer's manner.
    fn manner(&mut self) -> Manner {
        let now = self.answers == self.script.answer;
        self.answers = self.answers.saturating_add(1);
        if now {
            self.script.manner
        } else {
            Manner::Honest
        }
    }

    fn begin(&mut self, len: u32, status: u8) -> Result<(), AllocError> {
        self.coming = Vec::new(self.alloc);
        self.received = 0;
        self.coming.extend_from_slice(&len.to_le_bytes())?;
        self.coming.push(status)?;
        Ok(())
    }

    fn answer(&mut self, status: u8, bytes: &[u8]) -> Result<(), AllocError> {
        self.begin(frame_len(bytes), status)?;
        self.coming.extend_from_slice(bytes)?;
        Ok(())
    }

    fn answer_open(&mut self) -> Result<(), AllocError> {
        let len = WAVE_LEN as u64;
        match self.manner() {
            Manner::NoSong => self.answer(1, b"no song"),
            Manner::Failed => self.answer(2, b"out of \x1b order"),
            Manner::OtherLength => self.answer(0, &u64::MAX.to_le_bytes()),
            Manner::MoreThanAsked => self.answer(0, b"123456789"),
            Manner::NoByte => self.answer(0, b""),
            manner => self.answer_wrong(manner, &len.to_le_bytes()),
        }
    }

    // What is wrong of any answer.
    fn answer_wrong(&mut self, manner: Manner, bytes: &[u8]) -> Result<(), AllocError> {
        match manner {
            Manner::Failed => self.answer(2, b"cut"),
            Manner::NoSong => self.answer(1, b""),
            Manner::OtherStatus => self.answer(7, bytes),
            Manner::LongFrame => self.begin(u32::MAX, 0),
            Manner::EmptyFrame => self.begin(0, 0),
            Manner::Cut | Manner::Silent => self.begin(frame_len(bytes), 0),
            _ => self.answer(0, bytes),
        }
    }

    fn answer_read(&mut self, at: u64, count: u32) -> Result<(), AllocError> {
        let manner = self.manner();
        let mut len = (WAVE_LEN as u64).saturating_sub(at).min(u64::from(count));
        match manner {
            Manner::Few(most) => len = len.min(most as u64),
            Manner::NoByte => len = 0,
            Manner::MoreThanAsked => len = u64::from(count) + 1,
            _ => {}
        }
        let mut bytes = Vec::new(self.alloc);
        for k in 0..len {
            bytes.push(wave_byte(at.wrapping_add(k)))?;
        }
        self.answer_wrong(manner, &bytes)
    }

    fn answer_to(&mut self, request: &[u8]) -> Result<(), AllocError> {
        if request.len() == 17 && request[4] == 2 {
            let mut at = [0; 8];
            at.copy_from_slice(&request[5..13]);
            let mut count = [0; 4];
            count.copy_from_slice(&request[13..17]);
            self.answer_read(u64::from_le_bytes(at), u32::from_le_bytes(count))
        } else {
            self.answer_open()
        }
    }
}

impl DecoderLink for FakeLink {
    ghost told = { λ _ _. None };

    ghost opened = { λ _. None };

    ghost coming = { λ _. [] };

    ghost honest = { λ _. ⊥ };

    fn send(&mut self, request: &[u8]) -> Result<(), LinkFault> {
        match self.answer_to(request) {
            Ok(_) => Ok(()),
            Err(_) => Err(LinkFault::Ended),
        }
    }

    fn receive(&mut self, buffer: &mut [u8]) -> Result<(), LinkFault> {
        let rest = &self.coming[self.received.min(self.coming.len())..];
        if rest.len() < buffer.len() {
            return match self.script.manner {
                Manner::Silent => Err(LinkFault::Silent),
                _ => Err(LinkFault::Ended),
            };
        }
        buffer.copy_from_slice(&rest[..buffer.len()]);
        self.received = self.received.saturating_add(buffer.len());
        Ok(())
    }

    fn close(&mut self) {}
}

#[derive(Drop)]
struct FakeDecoder {
    alloc: Global,
    script: Script,
    is_away: bool,
    refused: Option<DecoderError>,
    words: String,
}

impl Decoder for FakeDecoder {
    type Link = FakeLink;

    ghost told = { λ _ _. None };

    ghost honest = { λ _. ⊥ };

    fn connect(&mut self) -> Result<FakeLink, LinkFault> {
        if self.is_away {
            return Err(LinkFault::Ended);
        }
        Ok(FakeLink {
            alloc: self.alloc,
            script: self.script,
            answers: 0,
            coming: Vec::new(self.alloc),
            received: 0,
        })
    }

    fn refused(&mut self, _path: &str, why: DecoderError, words: &str) {
        self.refused = Some(why);
        if let Ok(words) = String::from_str(self.alloc, words) {
            self.words = words;
        }
    }
}

fn fake(alloc: Global, manner: Manner, answer: u32) -> FakeDecoder {
    FakeDecoder {
        alloc,
        script: Script { manner, answer },
        is_away: false,
        refused: None,
        words: String::new(alloc),
    }
}

// A folder with a song of another format, and one that no decoder is asked for.
fn folder(
    alloc: Global,
    decoder: Option<FakeDecoder>,
) -> Result<Decoded<MemFolder<'static>, FakeDecoder>, AllocError> {
    let mut folder = MemFolder::new(alloc);
    folder.add(alloc, "a/song.MP3", b"own bytes")?;
    folder.add(alloc, "plain.wav", b"wave bytes")?;
    Ok(Decoded { folder, decoder })
}

// Whether the source has the decoder's bytes from a place on.
fn has_wave<S: Source>(source: &mut S, at: u64, buffer: &mut [u8]) -> bool {
    let Ok(count) = source.read_at(at, buffer) else {
        return false;
    };
    let mut place = at;
    for byte in &buffer[..count.min(buffer.len())] {
        if *byte != wave_byte(place) {
            return false;
        }
        place = place.wrapping_add(1);
    }
    count > 0
}

#[test]
fn an_honest_decoder_is_read(rt: HostRuntime) -> Result<(), Fail> {
    for most in [70_000, 1_000, 1] {
        let decoder = fake(rt.alloc(), Manner::Few(most), 1);
        let mut folder = folder(rt.alloc(), Some(decoder))?;
        let mut source = folder.open(rt.alloc(), "a/song.MP3")?.ok_or("no file")?;
        assert_eq!(rt; source.len(), 150_001);
        let mut buffer = [0; 3_000];
        for at in [
            0, 44, 3_044, 4_095, 4_096, 65_535, 65_600, 150_000, 10, 149_990,
        ] {
            assert!(rt; has_wave(&mut source, at, &mut buffer));
        }
        assert_eq!(rt; source.read_at(150_001, &mut buffer), Ok(0));
    }
    Ok(())
}

// How a decoder opens wrongly, why the file isn't told, and what the opening answers.
const OPENINGS: [(Manner, DecoderError); 9] = [
    (Manner::Failed, DecoderError::Failed),
    (Manner::LongFrame, DecoderError::BadAnswer),
    (Manner::EmptyFrame, DecoderError::BadAnswer),
    (Manner::MoreThanAsked, DecoderError::BadAnswer),
    (Manner::OtherStatus, DecoderError::BadAnswer),
    (Manner::NoByte, DecoderError::BadAnswer),
    (Manner::OtherLength, DecoderError::BadAnswer),
    (Manner::Cut, DecoderError::Ended),
    (Manner::Silent, DecoderError::Silent),
];

#[test]
fn a_file_that_is_not_told_is_a_fault(rt: HostRuntime) -> Result<(), Fail> {
    for (manner, why) in &OPENINGS {
        let mut folder = folder(rt.alloc(), Some(fake(rt.alloc(), *manner, 0)))?;
        let opened = folder.open(rt.alloc(), "a/song.MP3");
        assert!(rt; matches!(opened, Err(FolderFault::Source)));
        let decoder = folder.decoder.ok_or("no decoder")?;
        assert_eq!(rt; decoder.refused, Some(*why));
        assert_eq!(rt; decoder.words.as_str(), "");
    }
    Ok(())
}

#[test]
fn a_decoder_that_is_away_is_a_fault(rt: HostRuntime) -> Result<(), Fail> {
    let mut decoder = fake(rt.alloc(), Manner::Honest, 0);
    decoder.is_away = true;
    let mut folder = folder(rt.alloc(), Some(decoder))?;
    let opened = folder.open(rt.alloc(), "a/song.MP3");
    assert!(rt; matches!(opened, Err(FolderFault::Source)));
    let decoder = folder.decoder.ok_or("no decoder")?;
    assert_eq!(rt; decoder.refused, Some(DecoderError::Away));
    Ok(())
}

// Whether the file at a path has just these bytes.
fn is_plain<F: Folder>(
    alloc: Global,
    folder: &mut F,
    path: &str,
    bytes: &[u8],
) -> Result<bool, Fail> {
    let mut source = folder.open(alloc, path)?.ok_or("no file")?;
    let mut buffer = [0; 100];
    let count = source.read_at(0, &mut buffer)?;
    Ok(&buffer[..count.min(100)] == bytes)
}

#[test]
fn other_files_are_what_they_are(rt: HostRuntime) -> Result<(), Fail> {
    let decoder = fake(rt.alloc(), Manner::NoSong, 0);
    let mut with_decoder = folder(rt.alloc(), Some(decoder))?;
    assert!(rt; is_plain(rt.alloc(), &mut with_decoder, "plain.wav", b"wave bytes")?);
    assert!(rt; is_plain(rt.alloc(), &mut with_decoder, "a/song.MP3", b"own bytes")?);
    assert!(rt; with_decoder.open(rt.alloc(), "none.mp3")?.is_none());
    let decoder = with_decoder.decoder.ok_or("no decoder")?;
    assert_eq!(rt; decoder.refused, Some(DecoderError::NoSong));
    assert_eq!(rt; decoder.words.as_str(), "no song");
    let mut alone = folder(rt.alloc(), None)?;
    assert!(rt; is_plain(rt.alloc(), &mut alone, "a/song.MP3", b"own bytes")?);
    Ok(())
}

// How a decoder answers a read wrongly.
const READS: [(Manner, DecoderError); 9] = [
    (Manner::Failed, DecoderError::Failed),
    (Manner::NoSong, DecoderError::NoSong),
    (Manner::LongFrame, DecoderError::BadAnswer),
    (Manner::EmptyFrame, DecoderError::BadAnswer),
    (Manner::MoreThanAsked, DecoderError::BadAnswer),
    (Manner::OtherStatus, DecoderError::BadAnswer),
    (Manner::NoByte, DecoderError::BadAnswer),
    (Manner::Cut, DecoderError::Ended),
    (Manner::Silent, DecoderError::Silent),
];

// After it the decoder would answer as it should, and isn't asked any more.
#[test]
fn a_wrong_read_ends_the_file(rt: HostRuntime) -> Result<(), Fail> {
    for (manner, why) in &READS {
        let decoder = fake(rt.alloc(), *manner, 2);
        let mut folder = folder(rt.alloc(), Some(decoder))?;
        let file = folder.open(rt.alloc(), "a/song.MP3")?.ok_or("no file")?;
        let DecodedFile::Decoded(mut source) = file else {
            return Err(Fail::from("not decoded"));
        };
        let mut buffer = [0; 100];
        assert!(rt; has_wave(&mut source, 5, &mut buffer));
        assert!(rt; source.read_at(100_000, &mut buffer).is_err());
        assert_eq!(rt; source.trouble(), Some(*why));
        assert!(rt; source.read_at(5, &mut buffer).is_err());
        assert!(rt; source.read_at(100_000, &mut buffer).is_err());
    }
    Ok(())
}

#[test]
fn a_long_path_is_not_sent(rt: HostRuntime) -> Result<(), Fail> {
    let mut path = String::new(rt.alloc());
    for _ in 0..4_196 {
        path.push_str("a")?;
    }
    path.push_str(".mp3")?;
    let mut files = MemFolder::new(rt.alloc());
    files.add(rt.alloc(), path.as_str(), b"")?;
    let mut folder = Decoded {
        folder: files,
        decoder: Some(fake(rt.alloc(), Manner::Honest, 0)),
    };
    assert!(rt; folder.open(rt.alloc(), path.as_str()).is_err());
    let decoder = folder.decoder.ok_or("no decoder")?;
    assert_eq!(rt; decoder.refused, Some(DecoderError::LongPath));
    assert_eq!(rt; DecoderError::LongPath.number(), 96);
    Ok(())
}
