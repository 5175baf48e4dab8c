// What a file is that isn't read, in words.
ghost use Rattle.std.specs.Prelude.{◌≡◌, ◌+◌, ◌≤◌};
ghost use Rattle.wave_pcm.specs.Format.{u16_at};
ghost use Rattle.as_wave.specs.FileKind.{has_at, has_format, tag_in, kind_of};

use std::fmt;

/// How many bytes of a file tell what it is.
pub const FRONT_LEN: usize = 46;

/// What a file is, by its front.
#[derive(Clone, Copy, Debug, PartialEq, Eq)]
pub enum FileKind {
    Ogg,
    Flac,
    /// WAVE of more than 4 GiB.
    Rf64,
    Aiff,
    Mp4,
    /// WAVE; of the extensible format tag, the front of the sub-format counts.
    Wave { tag: u16, bits: u16, channels: u16 },
    Other,
}

impl fmt::Display for FileKind {
    fn fmt<W: fmt::Write>(&self, f: &mut fmt::Formatter<W>) -> fmt::Result {
        match self {
            FileKind::Ogg => f.write_str("Ogg, not WAVE"),
            FileKind::Flac => f.write_str("FLAC, not WAVE"),
            FileKind::Rf64 => f.write_str("RF64"),
            FileKind::Aiff => f.write_str("AIFF, not WAVE"),
            FileKind::Mp4 => f.write_str("MP4, not WAVE"),
            FileKind::Wave {
                tag,
                bits,
                channels,
            } => match tag {
                1 => write!(f, "{bits}-bit PCM WAVE of {channels} channels"),
                3 => write!(f, "{bits}-bit float WAVE"),
                6 => f.write_str("a-law WAVE"),
                7 => f.write_str("mu-law WAVE"),
                _ => write!(f, "WAVE of format tag {tag}"),
            },
            FileKind::Other => f.write_str("not WAVE"),
        }
    }
}

/// Whether these four bytes stand at a place.
fn has_at(front: &[u8; FRONT_LEN], at: usize, id: [u8; 4]) -> bool
    requires { at + 4 ≤ 46 }
    ensures { result ≡ has_at at id front.now }
{
    &front[at..at + 4] == id.as_slice()
}

/// The number in two bytes from `at` on, the low one first.
fn number_at(front: &[u8; FRONT_LEN], at: usize) -> u16
    requires { at + 2 ≤ 46 }
    ensures { result ≡ u16_at at front.now }
{
    u16::from_le_bytes([front[at], front[at + 1]])
}

fn has_format(front: &[u8; FRONT_LEN]) -> bool
    ensures { result ≡ has_format front.now }
{
    has_at(front, 0, *b"RIFF") && has_at(front, 8, *b"WAVE") && has_at(front, 12, *b"fmt ")
}

fn tag_in(front: &[u8; FRONT_LEN]) -> u16
    ensures { result ≡ tag_in front.now }
{
    if number_at(front, 20) == 0xFFFE {
        number_at(front, 44)
    } else {
        number_at(front, 20)
    }
}

/// What a file is, by its first 46 bytes; behind the end of a shorter one stand zeros.
pub fn describe(front: &[u8; FRONT_LEN]) -> FileKind
    ensures { result ≡ kind_of front.now }
{
    if has_at(front, 0, *b"OggS") {
        FileKind::Ogg
    } else if has_at(front, 0, *b"fLaC") {
        FileKind::Flac
    } else if has_at(front, 0, *b"RF64") {
        FileKind::Rf64
    } else if has_at(front, 8, *b"AIFF") {
        FileKind::Aiff
    } else if has_at(front, 4, *b"ftyp") {
        FileKind::Mp4
    } else if has_format(front) {
        FileKind::Wave {
            tag: tag_in(front),
            bits: number_at(front, 34),
            channels: number_at(front, 22),
        }
    } else {
        FileKind::Other
    }
}
