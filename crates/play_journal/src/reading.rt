// Reading the bytes of a journal file.
ghost use Rattle.std.specs.Prelude.{◌≡◌, ◌≢◌, ◌⊎◌, ◌+◌, ◌-◌, ◌^◌, ◌<◌, ◌≤◌, [], List, length, drop, flat_map, All, IfOk, IfErr, Ok, Err};
ghost use Rattle.std.specs.Prelude.{◌↔◌, IsTrue, MatchOption};
ghost use Rattle.std.specs.Int.{w32, w64};
ghost use Rattle.play_journal.specs.Content.{IsWrittenLayout};
ghost use Rattle.play_journal.specs.File.{gated};
ghost use Rattle.play_journal.specs.Opening.{told_front, is_second, IsCause};
ghost use Rattle.play_journal.specs.Pair.{told};
ghost use Rattle.play_journal.specs.FileRead.{content_read};
ghost use Rattle.play_journal.specs.Stored.{bytes_in, bodies_in, IsWithin};
ghost use Rattle.play_journal.specs.Reading.{front, number_at, records_at, with_first, read};

use crate::stored::Extent;
use crate::{JournalError, Stored};
use std::alloc::Global;

pub(crate) const OPEN: u8 = 0xa5;

pub(crate) const CLOSED: u8 = 0;

pub(crate) const NAME: [u8; 7] = *b"MPDJRNL";

/// The layout of before: it is read, and no record is added to it.
const OLD_LAYOUT: u32 = 1;

/// The layouts that are written.
const SECOND_LAYOUT: u32 = 2;

const THIRD_LAYOUT: u32 = 3;

/// The length of a file's head with its gate, in bytes.
pub(crate) const HEAD_LEN: usize = 32;

/// The greatest length of a record's body, in bytes.
pub(crate) const LONGEST_BODY: usize = 2_097_152;

// Whether files are written in this layout.
pub(crate) fn is_written(layout: u32) -> bool
    ensures { IsTrue result ↔ IsWrittenLayout layout }
{
    matches!(layout, SECOND_LAYOUT | THIRD_LAYOUT)
}

fn u32_at(bytes: &[u8], at: usize) -> u32
    requires { at + 4 ≤ length bytes.now }
    ensures { result ≡ number_at w32 at bytes.now }
{
    let field = &bytes[at..at + 4];
    u32::from_le_bytes([field[0], field[1], field[2], field[3]])
}

fn u64_at(bytes: &[u8], at: usize) -> u64
    requires { at + 8 ≤ length bytes.now }
    ensures { result ≡ number_at w64 at bytes.now }
{
    let field = &bytes[at..at + 8];
    u64::from_le_bytes([
        field[0], field[1], field[2], field[3], field[4], field[5], field[6], field[7],
    ])
}

// The generation of an open file, or none.
#[tactic(auto, unfolding(crate::specs::Reading::front))]
pub(crate) fn generation_of(bytes: &[u8]) -> Result<Option<u64>, JournalError>
    ensures { result ≡ told_front (front bytes.now) }
{
    if bytes.len() < HEAD_LEN || bytes[0] != OPEN {
        return Ok(None);
    }
    if bytes[1..8] != NAME[..] {
        return Err(JournalError::Damaged(1));
    }
    if !matches!(u32_at(bytes, 8), OLD_LAYOUT | SECOND_LAYOUT | THIRD_LAYOUT) {
        return Err(JournalError::Damaged(8));
    }
    Ok(Some(u64_at(bytes, 12)))
}

// Whether the second of two files is the one in use, by their generations.
pub(crate) fn second_is_newer(first: Option<u64>, second: Option<u64>) -> Result<bool, JournalError>
    ensures { result ≡ is_second first second }
{
    match (first, second) {
        (None, None) => Err(JournalError::NoJournal),
        (Some(_), None) => Ok(false),
        (None, Some(_)) => Ok(true),
        (Some(generation), Some(other)) => {
            if generation == other {
                Err(JournalError::Damaged(12))
            } else {
                Ok(generation < other)
            }
        }
    }
}

// Where the body stands of the record whose gate has this offset, or none at a closed gate.
fn body_at(bytes: &[u8], at: usize, before: u64) -> Result<Option<Extent>, JournalError>
    requires { at ≤ length bytes.now }
    ensures closed { IfOk result (λ found. MatchOption found
        (records_at 0 at before (drop at bytes.now) ≡ Ok [])
        (λ body. records_at 0 at before (drop at bytes.now)
        ≡ with_first (bytes_in bytes.now body) (records_at 0 body.end (before + 1) (drop body.end bytes.now)))) }
    ensures within { IfOk result (λ found. MatchOption found (at < length bytes.now) (IsWithin (length bytes.now))) }
    ensures place { IfOk result (λ found. MatchOption found (at < length bytes.now) (λ body. body.start ≡ at + 5)) }
    ensures number { IfOk result (λ found. MatchOption found (before ≤ before) (λ body. before + 1 < 2 ^ 64)) }
    ensures fault { IfErr result (λ e. (e ≡ JournalError.Damaged at) × (records_at 0 at before (drop at bytes.now) ≡ Err at)) }
{
    let damaged = JournalError::Damaged(at as u64);
    if at == bytes.len() {
        return Err(damaged);
    }
    if bytes[at] != OPEN {
        return Ok(None);
    }
    if bytes.len() - at < 5 {
        return Err(damaged);
    }
    let len = u32_at(bytes, at + 1) as usize;
    if len > LONGEST_BODY || bytes.len() - at - 5 < len || before == u64::MAX {
        return Err(damaged);
    }
    let start = at + 5;
    let end = start + len;
    Ok(Some(Extent { start, end }))
}

// Where the bodies of the records from a gate on stand, and their closing gate.
fn bodies_from(
    alloc: Global,
    bytes: &[u8],
    start: usize,
    base: u64,
) -> Result<(Vec<Extent>, usize), JournalError>
    requires { start ≤ length bytes.now }
    ensures read { IfOk result (λ r. records_at 0 start base (drop start bytes.now) ≡ Ok (bodies_in bytes.now r.0.items)) }
    ensures within { IfOk result (λ r. All (IsWithin (length bytes.now)) r.0.items) }
    ensures end { IfOk result (λ r. r.1 ≡ start + length (flat_map gated (bodies_in bytes.now r.0.items))) }
    ensures numbers { IfOk result (λ r. base + length r.0.items < 2 ^ 64) }
    ensures fault { IfErr result (λ e. (e ≡ JournalError.NoMemory)
        ⊎ ((offset : _) × (e ≡ JournalError.Damaged offset) × (records_at 0 start base (drop start bytes.now) ≡ Err offset))) }
{
    let mut bodies = Vec::new(alloc);
    let mut at = start;
    let mut before = base;
    while let Some(body) = body_at(bytes, at, before)? {
        bodies.push(body)?;
        at = body.end;
        before += 1;
    }
    Ok((bodies, at))
}

// A file that was read.
#[derive(Drop)]
pub(crate) struct FileRead {
    pub(crate) layout: u32,
    pub(crate) generation: u64,
    pub(crate) base: u64,
    pub(crate) stored: Stored,
    /// The offset of the closing gate.
    pub(crate) end: usize,
}

// A file whose head is right.
pub(crate) fn file_of(alloc: Global, bytes: Vec<u8>) -> Result<FileRead, JournalError>
    ensures read { IfOk result (λ f. read bytes.items ≡ Ok (content_read f)) }
    ensures end { IfOk result (λ f. f.end ≡ 32 + length f.stored.snapshot + length (flat_map gated f.stored.records)) }
    ensures numbers { IfOk result (λ f. f.base + length f.stored.records < 2 ^ 64) }
    ensures fault { IfErr result (IsCause (told (read bytes.items))) }
    ensures no_fault { IfErr result (λ e. e ≢ JournalError.DiskFault) }
{
    let file = bytes.as_slice();
    if file.len() < HEAD_LEN {
        return Err(JournalError::Damaged(28));
    }
    let size = u32_at(file, 28) as usize;
    if file.len() - HEAD_LEN < size {
        return Err(JournalError::Damaged(28));
    }
    let layout = u32_at(file, 8);
    let generation = u64_at(file, 12);
    let base = u64_at(file, 20);
    let start = HEAD_LEN + size;
    let (bodies, end) = bodies_from(alloc, file, start, base)?;
    Ok(FileRead {
        layout,
        generation,
        base,
        stored: Stored::new(bytes, start, bodies),
        end,
    })
}
