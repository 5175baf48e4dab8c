// The heads of frames.
ghost use Rattle.std.specs.Prelude.{◌≡◌, ◌+◌, ◌<◌, ◌≤◌, ◌^◌, take, length, IfSome};
ghost use Rattle.std.specs.List.{find, list_all};
ghost use Rattle.std.specs.Str.{bytes_eq};
ghost use Rattle.id3_tags.specs.Frames.{is_id_byte, heirs, long_id, framed, head_len, head_of_2, head_of_3, head_of_4, head_of, added_by};
ghost use Rattle.id3_tags.specs.Frames.{IsWithin};

use crate::numbers::{has_flag, plain_at, short_at, synchsafe_at};

/// How the frames of a tag are laid out.
#[derive(Clone, Copy, Debug)]
pub struct Layout {
    /// 2, 3 or 4.
    pub version: u8,
    /// Each frame is unsynchronised.
    pub unsynchronised: bool,
}

impl Layout {
    /// How many bytes the head of a frame has.
    pub fn head_len(self) -> u64
        ensures { result ≡ head_len self }
    {
        if self.version == 2 { 6 } else { 10 }
    }
}

/// A frame whose data has not been read.
#[derive(Clone, Copy, Debug)]
pub struct FrameHead {
    pub id: [u8; 4],
    /// The place of the first byte of its data in the source.
    pub first: u64,
    /// How many bytes of data there are.
    pub len: u64,
    /// The place behind the frame.
    pub next: u64,
    /// The data is compressed or encrypted.
    pub hidden: bool,
    pub unsynchronised: bool,
}

/// How a frame's data stands in the tag.
#[derive(Clone, Copy, Debug)]
struct Form {
    size: u64,
    added: u64,
    hidden: bool,
    unsynchronised: bool,
}

impl Form {
    /// The frame with this id, whose bytes begin at `first`, if it ends by `end`.
    fn framed(self, id: [u8; 4], first: u64, end: u64) -> Option<FrameHead>
        requires fits { end < 2 ^ 64 }
        requires room { first ≤ end }
        ensures head { result ≡ framed id first self.size self.added self.hidden self.unsynchronised end }
        ensures within { IfSome result (IsWithin end) }
    {
        if self.size > end - first {
            return None;
        }
        Some(FrameHead {
            id,
            first: first + self.added.min(self.size),
            len: self.size.saturating_sub(self.added),
            next: first + self.size,
            hidden: self.hidden,
            unsynchronised: self.unsynchronised,
        })
    }
}

/// The ids of 2.2 and those of 2.4 that took their place.
const HEIRS: [([u8; 3], [u8; 4]); 23] = [
    (*b"TT1", *b"TIT1"),
    (*b"TT2", *b"TIT2"),
    (*b"TT3", *b"TIT3"),
    (*b"TP1", *b"TPE1"),
    (*b"TP2", *b"TPE2"),
    (*b"TP3", *b"TPE3"),
    (*b"TP4", *b"TPE4"),
    (*b"TAL", *b"TALB"),
    (*b"TRK", *b"TRCK"),
    (*b"TPA", *b"TPOS"),
    (*b"TYE", *b"TYER"),
    (*b"TCO", *b"TCON"),
    (*b"TCM", *b"TCOM"),
    (*b"TPB", *b"TPUB"),
    (*b"TOR", *b"TORY"),
    (*b"TSP", *b"TSOP"),
    (*b"TSA", *b"TSOA"),
    (*b"TST", *b"TSOT"),
    (*b"TS2", *b"TSO2"),
    (*b"TSC", *b"TSOC"),
    (*b"TXX", *b"TXXX"),
    (*b"COM", *b"COMM"),
    (*b"UFI", *b"UFID"),
];

/// An id of 2.2 with that of 2.4 that took its place.
fn heir_of(id: [u8; 3]) -> Option<([u8; 3], [u8; 4])>
    ensures { result ≡ find (λ heir. bytes_eq heir.0 id) heirs }
{
    HEIRS.iter().copied().find(|heir| heir.0 == id)
}

/// The id of four letters for one of three.
fn long_id(id: [u8; 3]) -> [u8; 4]
    ensures { result ≡ long_id id }
{
    match heir_of(id) {
        Some(heir) => heir.1,
        None => {
            let [a, b, c] = id;
            [a, b, c, b' ']
        }
    }
}

/// Whether these letters can stand in an id.
pub fn is_id(bytes: &[u8]) -> bool
    ensures { result ≡ list_all is_id_byte bytes.now }
{
    bytes.iter().all(|b| is_id_byte(*b))
}

/// A capital letter or a digit.
fn is_id_byte(byte: u8) -> bool
    ensures { result ≡ is_id_byte byte }
{
    (65 <= byte && byte <= 90) || (48 <= byte && byte <= 57)
}

fn head_of_2(bytes: &[u8], at: u64, end: u64) -> Option<FrameHead>
    requires len { length bytes.now ≡ 6 }
    requires room { at + 6 ≤ end }
    requires fits { end < 2 ^ 64 }
    ensures head { result ≡ head_of_2 bytes.now at end }
    ensures within { IfSome result (IsWithin end) }
{
    if !is_id(&bytes[..3]) {
        return None;
    }
    let form = Form {
        size: short_at(3, bytes),
        added: 0,
        hidden: false,
        unsynchronised: false,
    };
    form.framed(long_id([bytes[0], bytes[1], bytes[2]]), at + 6, end)
}

fn head_of_3(bytes: &[u8], at: u64, end: u64) -> Option<FrameHead>
    requires len { length bytes.now ≡ 10 }
    requires room { at + 10 ≤ end }
    requires fits { end < 2 ^ 64 }
    ensures head { result ≡ head_of_3 bytes.now at end }
    ensures within { IfSome result (IsWithin end) }
{
    if !is_id(&bytes[..4]) {
        return None;
    }
    let flags = bytes[9];
    let form = Form {
        size: plain_at(4, bytes),
        added: if has_flag(flags, 32) { 1 } else { 0 },
        hidden: has_flag(flags, 128) || has_flag(flags, 64),
        unsynchronised: false,
    };
    form.framed([bytes[0], bytes[1], bytes[2], bytes[3]], at + 10, end)
}

/// How many bytes of a frame of 2.4 stand before its data.
fn added_by(flags: u8) -> u64
    ensures { result ≡ added_by flags }
{
    let group = if has_flag(flags, 64) { 1 } else { 0 };
    let length = if has_flag(flags, 1) { 4 } else { 0 };
    group + length
}

fn head_of_4(unsynchronised: bool, bytes: &[u8], at: u64, end: u64) -> Option<FrameHead>
    requires len { length bytes.now ≡ 10 }
    requires room { at + 10 ≤ end }
    requires fits { end < 2 ^ 64 }
    ensures head { result ≡ head_of_4 unsynchronised bytes.now at end }
    ensures within { IfSome result (IsWithin end) }
{
    if !is_id(&bytes[..4]) {
        return None;
    }
    let flags = bytes[9];
    let form = Form {
        size: synchsafe_at(4, bytes),
        added: added_by(flags),
        hidden: has_flag(flags, 8) || has_flag(flags, 4),
        unsynchronised: unsynchronised || has_flag(flags, 2),
    };
    form.framed([bytes[0], bytes[1], bytes[2], bytes[3]], at + 10, end)
}

/// The frame at `at`, by the bytes of its head.
pub fn head_of(layout: Layout, bytes: &[u8], at: u64, end: u64) -> Option<FrameHead>
    requires len { length bytes.now ≡ head_len layout }
    requires room { at + head_len layout ≤ end }
    requires fits { end < 2 ^ 64 }
    ensures head { result ≡ head_of layout bytes.now at end }
    ensures within { IfSome result (IsWithin end) }
{
    match layout.version {
        2 => head_of_2(bytes, at, end),
        3 => head_of_3(bytes, at, end),
        _ => head_of_4(layout.unsynchronised, bytes, at, end),
    }
}
