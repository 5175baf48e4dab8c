// The chunks of a file, those inside lists too.
ghost use Rattle.std.specs.Prelude.{◌≡◌, ◌^◌, slice_range, IsTrue, ℕ, List, ◌+◌, ◌<◌, ◌≤◌, ◌++◌, ◌||◌, nat_lt, IfSome};
ghost use Rattle.std.specs.Prelude.{length, take, map, vec_len, All, IfOk, OnOk, IfErr, OnErr, IsOkUnless};
ghost use Rattle.song_files.specs.Source.{Grows, Keeps};
ghost use Rattle.wave_pcm.specs.WaveError.{Fails};
ghost use Rattle.wave_pcm.specs.Chunks.{chunks_in};
ghost use Rattle.wave_pcm.specs.ChunkHead.{chunk_at};
ghost use Rattle.wave_pcm.specs.Parts.{is_format, is_data, is_id3, is_text, is_text_list, text_part, parts_of, parts_in};
ghost use Rattle.std.specs.List.{find};
ghost use Rattle.wave_pcm.specs.PartHead.{parts_at, EndsBy, PlaceEndsBy};
ghost use Rattle.wave_pcm.specs.Reading.{id3_place};

use crate::chunks::{ChunkHead, next_chunk};
use crate::parts::{Kind, PartHead};
use crate::{ChunkPlace, WaveError};
use song_files::{Source, Tag, read_exact};
use std::alloc::Global;

/// How many chunks a file may have, those inside lists counted.
pub const MAX_CHUNKS: usize = 65_536;

/// Where the first chunk stands.
const FIRST_CHUNK: u64 = 12;

/// How many bytes stand before the chunks of a list.
const INFO_LEN: u64 = 4;

/// The parts of a file up to `end`, in file order.
#[derive(Debug, Drop)]
pub struct Listing {
    pub parts: Vec<PartHead>,
    pub end: u64,
    ghost within: { All (EndsBy end) parts.items },
    ghost bounded: { end < 2 ^ 64 },
}

impl Listing {
    /// Whether the file has more chunks than it may.
    pub fn is_long(&self) -> bool
        ensures { result ≡ nat_lt MAX_CHUNKS (length self.now.parts.items) }
    {
        self.parts.len() > MAX_CHUNKS
    }

    /// The first format or data among the chunks that a file may have.
    pub fn first_key(&self) -> Option<PartHead>
        ensures found { result ≡ find (λ h. is_format h.kind || is_data h.kind) (take MAX_CHUNKS self.now.parts.items) }
        ensures within { IfSome result (EndsBy self.now.end) }
    {
        first_key_of(&self.parts, MAX_CHUNKS)
    }

    /// The first data.
    pub fn first_data(&self) -> Option<PartHead>
        ensures found { result ≡ find (λ h. is_data h.kind) self.now.parts.items }
        ensures within { IfSome result (EndsBy self.now.end) }
    {
        self.parts.iter().copied().find(|h| h.kind.is_data())
    }

    /// The first text of a tag.
    pub fn first_text(&self, tag: Tag) -> Option<PartHead>
        ensures found { result ≡ find (λ h. is_text tag h.kind) self.now.parts.items }
        ensures within { IfSome result (EndsBy self.now.end) }
    {
        self.parts.iter().copied().find(|h| h.kind.is_text(tag))
    }

    /// The first ID3v2 tag.
    fn first_id3(&self) -> Option<PartHead>
        ensures found { result ≡ find (λ h. is_id3 h.kind) self.now.parts.items }
        ensures within { IfSome result (EndsBy self.now.end) }
    {
        self.parts.iter().copied().find(|h| h.kind.is_id3())
    }

    /// Where the first ID3v2 tag stands.
    pub fn id3_place(&self) -> Option<ChunkPlace>
        ensures place { (file : List ℕ) → self.now.end ≤ length file →
            result ≡ id3_place (parts_at file self.now.parts.items) }
        ensures within { IfSome result (PlaceEndsBy self.now.end) }
    {
        match self.first_id3() {
            Some(head) => Some(ChunkPlace {
                first: head.first,
                len: head.len,
            }),
            None => None,
        }
    }
}

fn first_key_of(parts: &[PartHead], most: usize) -> Option<PartHead>
    ensures found { result ≡ find (λ h. is_format h.kind || is_data h.kind) (take most parts.now) }
    ensures within { (end : ℕ) → All (EndsBy end) parts.now → IfSome result (EndsBy end) }
{
    parts
        .iter()
        .copied()
        .take(most)
        .find(|h| h.kind.is_format() || h.kind.is_data())
}

/// Adds the chunks of a list of texts, up to one more than a file may have in all.
fn list_texts<S: Source>(
    source: &mut S,
    start: u64,
    end: u64,
    parts: &mut Vec<PartHead>,
) -> Result<(), WaveError>
    requires order { start ≤ end }
    requires room { vec_len parts.old ≤ MAX_CHUNKS + 1 }
    ensures listed { S.honest source.old → end ≤ length (S.bytes source.old) → OnOk result (parts_at (S.bytes source.old) parts.new.items
        ≡ take (MAX_CHUNKS + 1) (parts_at (S.bytes source.old) parts.old.items ++ map text_part (chunks_in (S.bytes source.old)
        start end))) }
    ensures few { OnOk result (vec_len parts.new ≤ MAX_CHUNKS + 1) }
    ensures bounded { (limit : ℕ) → end ≤ limit → All (EndsBy limit) parts.old.items → OnOk result (All (EndsBy limit) parts.new.items) }
    ensures fault { S.honest source.old → end ≤ length (S.bytes source.old) →
        IfErr result (Fails (Grows (S.faults source.old) (S.faults source.new))) }
    ensures kept { S.honest source.old → Keeps S.bytes S.honest S.faults S.steady source.old source.new }
{
    let mut at = start;
    'texts: while parts.len() <= MAX_CHUNKS {
        let Some(head) = next_chunk(source, at, end)? else {
            return Ok(());
        };
        parts.push(PartHead {
            kind: Kind::in_list(head.id),
            first: head.first,
            len: head.len,
        })?;
        at = head.next;
    }
    Ok(())
}

/// Adds a chunk of the file and, if it is a list of texts, those inside it.
fn list_chunk<S: Source>(
    source: &mut S,
    head: ChunkHead,
    parts: &mut Vec<PartHead>,
) -> Result<(), WaveError>
    requires room { vec_len parts.old ≤ MAX_CHUNKS }
    requires fits { head.first + head.len < 2 ^ 64 }
    ensures listed { S.honest source.old → head.first + head.len ≤ length (S.bytes source.old) →
        OnOk result (parts_at (S.bytes source.old) parts.new.items
        ≡ take (MAX_CHUNKS + 1) (parts_at (S.bytes source.old) parts.old.items ++ parts_of (chunk_at (S.bytes source.old) head))) }
    ensures few { OnOk result (vec_len parts.new ≤ MAX_CHUNKS + 1) }
    ensures bounded { (limit : ℕ) → head.first + head.len ≤ limit → All (EndsBy limit) parts.old.items →
        OnOk result (All (EndsBy limit) parts.new.items) }
    ensures fault { S.honest source.old → head.first + head.len ≤ length (S.bytes source.old) →
        IfErr result (Fails (Grows (S.faults source.old) (S.faults source.new))) }
    ensures kept { S.honest source.old → Keeps S.bytes S.honest S.faults S.steady source.old source.new }
{
    let kind = Kind::in_file(head.id);
    parts.push(PartHead {
        kind,
        first: head.first,
        len: head.len,
    })?;
    if is_text_list(source, kind, head)? {
        return list_texts(source, head.first + INFO_LEN, head.first + head.len, parts);
    }
    Ok(())
}

/// Whether the chunk is a list and its data begins with `INFO`.
fn is_text_list<S: Source>(source: &mut S, kind: Kind, head: ChunkHead) -> Result<bool, WaveError>
    requires { head.first + head.len < 2 ^ 64 }
    ensures told { S.honest source.old → head.first + head.len ≤ length (S.bytes source.old) →
        IfOk result (λ yes. yes ≡ is_text_list kind (slice_range (S.bytes source.old) head.first (head.first + head.len))) }
    ensures room { IfOk result (λ yes. IsTrue yes → 4 ≤ head.len) }
    ensures only { IsOkUnless result WaveError.ReadFault }
    ensures fault { S.honest source.old → head.first + head.len ≤ length (S.bytes source.old) →
        OnErr result (Grows (S.faults source.old) (S.faults source.new)) }
    ensures kept { S.honest source.old → Keeps S.bytes S.honest S.faults S.steady source.old source.new }
{
    if !kind.is_nested() || head.len < INFO_LEN {
        return Ok(false);
    }
    let mut form = [0; 4];
    read_exact(source, head.first, &mut form)?;
    Ok(form == *b"INFO")
}

/// The chunks of a WAVE file up to `end` in the order of their heads, those inside a list of texts after
/// the list; at most one more than a file may have.
pub fn list_parts<S: Source>(
    alloc: Global,
    source: &mut S,
    end: u64,
) -> Result<Vec<PartHead>, WaveError>
    requires { FIRST_CHUNK ≤ end }
    ensures listed { S.honest source.old → end ≤ length (S.bytes source.old) →
        IfOk result (λ parts. parts_at (S.bytes source.old) parts.items
        ≡ take (MAX_CHUNKS + 1) (parts_in (S.bytes source.old) FIRST_CHUNK end)) }
    ensures bounded { IfOk result (λ parts. All (EndsBy end) parts.items) }
    ensures fault { S.honest source.old → end ≤ length (S.bytes source.old) →
        IfErr result (Fails (Grows (S.faults source.old) (S.faults source.new))) }
    ensures kept { S.honest source.old → Keeps S.bytes S.honest S.faults S.steady source.old source.new }
{
    let mut parts = Vec::new(alloc);
    let mut at = FIRST_CHUNK;
    'chunks: while parts.len() <= MAX_CHUNKS {
        let Some(head) = next_chunk(source, at, end)? else {
            return Ok(parts);
        };
        list_chunk(source, head, &mut parts)?;
        at = head.next;
    }
    Ok(parts)
}
