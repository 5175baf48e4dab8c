// The head of a FLAC file, read as a whole.
ghost use Rattle.std.specs.Prelude.{◌≡◌, ◌+◌, ◌<◌, ◌≤◌, ◌^◌, length, IfOk, IfErr, IsErrOf, IsTrue, IsOkUnless, OnErr, Ok, Err, All, ℕ, ◌-◌, slice_get, IfSome};
ghost use Rattle.song_files.specs.Source.{Grows, Keeps};
ghost use Rattle.flac.specs.Blocks.{behind_all, EndsBy};
ghost use Rattle.flac.specs.FlacError.{IsVerdict, Refuses};
ghost use Rattle.flac.specs.Reading.{has_marker_at, reading_of, flac_reading};

use crate::FlacError;
use crate::blocks::{BlockHead, list_blocks};
use crate::comments::{Comments, read_comments};
use crate::id3::find_start;
use crate::pictures::{Pictures, read_pictures};
use crate::read::read_bytes;
use crate::stream_info::{StreamInfo, read_stream_info};
use song_files::Source;
use std::alloc::Global;

/// How many bytes `fLaC` has.
const MARKER_LEN: u64 = 4;

/// What the head of a FLAC file tells: the stream, the comments and pictures, and the place of the first frame in the file.
#[derive(Debug, Drop)]
pub struct FlacHead {
    pub info: StreamInfo,
    pub comments: Comments,
    pub pictures: Pictures,
    pub first_frame: u64,
}

/// The place behind the last of the blocks.
fn end_of(blocks: &[BlockHead], end: u64) -> u64
    requires { All (EndsBy end) blocks.now }
    ensures { result ≡ behind_all blocks.now }
{
    match last_of(blocks) {
        Some(block) => block.first + block.len,
        None => 0,
    }
}

/// The last of the blocks.
fn last_of(blocks: &[BlockHead]) -> Option<BlockHead>
    ensures found { result ≡ slice_get blocks.now (length blocks.now - 1) }
    ensures within { (end : ℕ) → All (EndsBy end) blocks.now → IfSome result (EndsBy end) }
{
    blocks.last().copied()
}

/// Whether `fLaC` stands where the stream begins.
fn has_marker<S: Source>(source: &mut S, start: u64, end: u64) -> Result<bool, FlacError>
    requires { start < 2 ^ 33 }
    ensures told { S.honest source.old → end ≡ length (S.bytes source.old) →
        IfOk result (λ yes. yes ≡ has_marker_at (S.bytes source.old) start) }
    ensures room { IfOk result (λ yes. IsTrue yes → start + 4 ≤ end) }
    ensures only { IsOkUnless result FlacError.ReadFault }
    ensures fault { S.honest source.old → end ≡ length (S.bytes source.old) →
        OnErr result (Grows (S.faults source.old) (S.faults source.new)) }
    ensures kept { S.honest source.old → Keeps S.bytes S.honest S.faults S.steady source.old source.new }
{
    if end < start + MARKER_LEN {
        return Ok(false);
    }
    let mut marker = [0; 4];
    read_bytes(source, start, &mut marker)?;
    Ok(marker == *b"fLaC")
}

/// What the blocks of a file tell.
fn read_listed<S: Source>(
    alloc: Global,
    source: &mut S,
    blocks: &[BlockHead],
    end: u64,
) -> Result<FlacHead, FlacError>
    requires { All (EndsBy end) blocks.now }
    ensures head { S.honest source.old → end ≡ length (S.bytes source.old) →
        IfOk result (λ head. reading_of (S.bytes source.old) blocks.now ≡ Ok head) }
    ensures refused { S.honest source.old → end ≡ length (S.bytes source.old) →
        IfErr result (Refuses (reading_of (S.bytes source.old) blocks.now) (Grows (S.faults source.old) (S.faults source.new))) }
    ensures kept { S.honest source.old → Keeps S.bytes S.honest S.faults S.steady source.old source.new }
{
    let info = read_stream_info(source, blocks, end)?;
    let comments = read_comments(alloc, source, blocks, end)?;
    let pictures = read_pictures(alloc, source, blocks, end)?;
    let comments = Comments::new(comments);
    let pictures = Pictures::new(pictures);
    let first_frame = end_of(blocks, end);
    Ok(FlacHead {
        info,
        comments,
        pictures,
        first_frame,
    })
}

/// The reading of the file, or why there is none.
fn read_flac<S: Source>(alloc: Global, source: &mut S) -> Result<FlacHead, FlacError>
    ensures head { S.honest source.old → IfOk result (λ head. flac_reading (S.bytes source.old) ≡ Ok head) }
    ensures refused { S.honest source.old →
        IfErr result (Refuses (flac_reading (S.bytes source.old)) (Grows (S.faults source.old) (S.faults source.new))) }
    ensures kept { S.honest source.old → Keeps S.bytes S.honest S.faults S.steady source.old source.new }
{
    let end = source.len();
    let start = find_start(source, end)?;
    if !has_marker(source, start, end)? {
        return Err(FlacError::NotFlac);
    }
    let blocks = list_blocks(alloc, source, start + MARKER_LEN, end)?;
    read_listed(alloc, source, blocks.as_slice(), end)
}

/// Reads the head of a FLAC file (RFC 9639), behind an ID3v2 tag if there is one: its metadata blocks, of which STREAMINFO, the comments
/// of the first VORBIS_COMMENT and the pictures are told. Of a picture only its place is read.
///
/// An error leaves the source as any read does. `ReadFault` says nothing about the file, nor does `NoMemory`; each other error is the
/// refusal that stands first: no FLAC file, blocks that are damaged or too many, STREAMINFO.
pub fn read_head<S: Source>(alloc: Global, source: &mut S) -> Result<FlacHead, FlacError>
    // What is answered is the one reading of the bytes.
    ensures head { S.honest source.old → IfOk result (λ head. flac_reading (S.bytes source.old) ≡ Ok head) }

    // A verdict is that of the bytes; else memory was wanting or the source failed.
    ensures refused { S.honest source.old → IfErr result (λ e. IsVerdict e → flac_reading (S.bytes source.old) ≡ Err e) }
    ensures fault { S.honest source.old → IsErrOf result FlacError.ReadFault → Grows (S.faults source.old) (S.faults source.new) }
    ensures steady { S.honest source.old → S.steady source.old → IsErrOf result FlacError.ReadFault → ⊥ }
    ensures kept { S.honest source.old → Keeps S.bytes S.honest S.faults S.steady source.old source.new }
{
    read_flac(alloc, source)
}
