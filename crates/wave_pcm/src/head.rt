// The head of a WAVE file, read as a whole.
ghost use Rattle.std.specs.Prelude.{◌≡◌, ◌+◌, ◌<◌, ◌≤◌, ◌^◌, ◌&&◌, length, List, ℕ, Err, ◌*◌, slice_range};
ghost use Rattle.std.specs.Prelude.{Ok, IfOk, OnOk, IfErr, OnErr, IfSome, IsErrOf, IsTrue, IsOkUnless};
ghost use Rattle.song_files.specs.Source.{Grows, Keeps};
ghost use Rattle.wave_pcm.specs.WaveError.{Fails};
ghost use Rattle.wave_pcm.specs.PartHead.{parts_at, part_at, EndsBy, PlaceEndsBy};
ghost use Rattle.wave_pcm.specs.Pcm.{frame_len, HasFrames};
ghost use Rattle.wave_pcm.specs.Reading.{text_in, texts_in, with_found, format_of, data_of, reading_of, is_wave, wave_reading};
ghost use Rattle.wave_pcm.specs.Reading.{IsVerdict, Refuses, id3_chunk, place_of};

use crate::format::{Format, read_format};
use crate::listing::{Listing, list_parts};
use crate::parts::PartHead;
use crate::text::add_text;
use crate::{WaveError, WaveHead, WaveInfo};
use song_files::{Source, TAG_COUNT, Tag, TagSet, Tags, read_exact};
use std::alloc::Global;

/// Adds the text that the first chunk of the tag gives, if it has the form of one.
fn add_first_text<S: Source>(
    source: &mut S,
    listing: &Listing,
    tag: Tag,
    tags: &mut Tags,
) -> Result<(), WaveError>
    ensures text { S.honest source.old → listing.now.end ≤ length (S.bytes source.old) →
        OnOk result (tags.new ≡ with_found tags.old tag (text_in (parts_at (S.bytes source.old) listing.now.parts.items) tag)) }
    ensures fault { S.honest source.old → listing.now.end ≤ length (S.bytes source.old) →
        IfErr result (Fails (Grows (S.faults source.old) (S.faults source.new))) }
    ensures kept { S.honest source.old → Keeps S.bytes S.honest S.faults S.steady source.old source.new }
{
    match listing.first_text(tag) {
        Some(head) => add_text(source, head, tag, tags),
        None => Ok(()),
    }
}

/// The texts of the tags that are wanted.
fn read_tags<S: Source>(
    alloc: Global,
    source: &mut S,
    listing: &Listing,
    wanted: TagSet,
) -> Result<Tags, WaveError>
    ensures texts { S.honest source.old → listing.now.end ≤ length (S.bytes source.old) →
        IfOk result (λ tags. tags ≡ texts_in (parts_at (S.bytes source.old) listing.now.parts.items) wanted) }
    ensures fault { S.honest source.old → listing.now.end ≤ length (S.bytes source.old) →
        IfErr result (Fails (Grows (S.faults source.old) (S.faults source.new))) }
    ensures kept { S.honest source.old → Keeps S.bytes S.honest S.faults S.steady source.old source.new }
{
    let mut tags = Tags::new(alloc);
    for number in 0..TAG_COUNT {
        let tag = Tag::at(number);
        if wanted.contains(tag) {
            add_first_text(source, listing, tag, &mut tags)?;
        }
    }
    Ok(tags)
}

/// The format that the first format or data of the file gives.
fn first_format<S: Source>(source: &mut S, listing: &Listing) -> Result<Format, WaveError>
    ensures format { S.honest source.old → listing.now.end ≤ length (S.bytes source.old) →
        IfOk result (λ format. format_of (parts_at (S.bytes source.old) listing.now.parts.items) ≡ Ok format) }
    ensures refused { S.honest source.old → listing.now.end ≤ length (S.bytes source.old) →
        IfErr result (Refuses (format_of (parts_at (S.bytes source.old) listing.now.parts.items)) (Grows (S.faults source.old)
        (S.faults source.new))) }
    ensures channels { IfOk result (λ format. (1 ≤ format.channels) × (format.channels ≤ 2)) }
    ensures kept { S.honest source.old → Keeps S.bytes S.honest S.faults S.steady source.old source.new }
{
    match listing.first_key() {
        Some(head) => {
            if head.kind.is_format() {
                read_format(source, head)
            } else {
                Err(WaveError::NoFormat)
            }
        }
        None => {
            if listing.is_long() {
                Err(WaveError::TooManyTurns)
            } else {
                Err(WaveError::NoFormat)
            }
        }
    }
}

/// Whether the file begins as a WAVE file does.
fn begins_as_wave<S: Source>(source: &mut S, end: u64) -> Result<bool, WaveError>
    ensures told { S.honest source.old → end ≡ length (S.bytes source.old) → IfOk result (λ yes. yes ≡ is_wave (S.bytes source.old)) }
    ensures room { IfOk result (λ yes. IsTrue yes → 12 ≤ end) }
    ensures only { IsOkUnless result WaveError.ReadFault }
    ensures fault { S.honest source.old → end ≡ length (S.bytes source.old) →
        OnErr result (Grows (S.faults source.old) (S.faults source.new)) }
    ensures kept { S.honest source.old → Keeps S.bytes S.honest S.faults S.steady source.old source.new }
{
    if end < 12 {
        return Ok(false);
    }
    let mut bytes = [0; 12];
    read_exact(source, 0, &mut bytes)?;
    let [a, b, c, d, _, _, _, _, e, f, g, h] = bytes;
    Ok([a, b, c, d] == *b"RIFF" && [e, f, g, h] == *b"WAVE")
}

/// The head of the first data.
fn first_data(listing: &Listing) -> Result<PartHead, WaveError>
    ensures data { (file : List ℕ) → IfOk result (λ head. data_of (parts_at file listing.now.parts.items) ≡ Ok (part_at file head)) }
    ensures refused { (file : List ℕ) → IfErr result (λ e. data_of (parts_at file listing.now.parts.items) ≡ Err e) }
    ensures verdict { IfErr result IsVerdict }
    ensures within { IfOk result (EndsBy listing.now.end) }
{
    if listing.is_long() {
        return Err(WaveError::TooManyTurns);
    }
    match listing.first_data() {
        Some(head) => Ok(head),
        None => Err(WaveError::NoData),
    }
}

/// What the parts of a file tell.
fn read_listing<S: Source>(
    alloc: Global,
    source: &mut S,
    listing: &Listing,
    wanted: TagSet,
) -> Result<WaveInfo, WaveError>
    ensures head { S.honest source.old → listing.now.end ≤ length (S.bytes source.old) →
        IfOk result (λ info. reading_of (parts_at (S.bytes source.old) listing.now.parts.items) wanted ≡ Ok info) }
    ensures refused { S.honest source.old → listing.now.end ≤ length (S.bytes source.old) →
        IfErr result (Refuses (reading_of (parts_at (S.bytes source.old) listing.now.parts.items) wanted) (Grows (S.faults source.old)
        (S.faults source.new))) }
    ensures frames { IfOk result (λ info. info.first_byte + frame_len info * info.frames ≤ listing.now.end) }
    ensures kept { S.honest source.old → Keeps S.bytes S.honest S.faults S.steady source.old source.new }
{
    let format = first_format(source, listing)?;
    let data = first_data(listing)?;
    let tags = read_tags(alloc, source, listing, wanted)?;
    Ok(WaveInfo {
        rate: format.rate,
        channels: format.channels,
        first_byte: data.first,
        frames: data.len / (2 * u64::from(format.channels)),
        tags,
    })
}

/// The reading of the file, or why there is none.
fn read_wave<S: Source>(
    alloc: Global,
    source: &mut S,
    wanted: TagSet,
) -> Result<WaveHead, WaveError>
    ensures head { S.honest source.old → IfOk result (λ head. wave_reading (S.bytes source.old) wanted ≡ Ok head.info) }
    ensures id3 { S.honest source.old → IfOk result (λ head. head.id3 ≡ id3_chunk (S.bytes source.old)) }
    ensures within { S.honest source.old → IfOk result (λ head. IfSome head.id3 (PlaceEndsBy (length (S.bytes source.old)))) }
    ensures fits { IfOk result (λ head. IfSome head.id3 (PlaceEndsBy 0xffff_ffff_ffff_ffff)) }
    ensures refused { S.honest source.old →
        IfErr result (Refuses (wave_reading (S.bytes source.old) wanted) (Grows (S.faults source.old) (S.faults source.new))) }
    ensures frames { S.honest source.old → IfOk result (λ head. HasFrames head.info (S.bytes source.old)) }
    ensures kept { S.honest source.old → Keeps S.bytes S.honest S.faults S.steady source.old source.new }
{
    let end = source.len();
    if !begins_as_wave(source, end)? {
        return Err(WaveError::NotWave);
    }
    let parts = list_parts(alloc, source, end)?;
    let listing = Listing { parts, end };
    let info = read_listing(alloc, source, &listing, wanted)?;
    let id3 = listing.id3_place();
    Ok(WaveHead { info, id3 })
}

/// Reads the head of a WAVE file (RIFF WAVE 1.0: 16-bit PCM of one or two channels at up to 192,000 frames a second) and, from its list
/// INFO, the texts of the tags that are wanted. Of the data of the chunks only the format and the front of each such text are read, so the
/// cost is that of the chunks and not of the file.
///
/// An error leaves the source as any read does. `ReadFault` says nothing about the file, nor does
/// `NoMemory`; each other error is the refusal that stands first in file order, where chunk 65,537
/// (those inside lists counted) is `TooManyTurns`.
pub fn read_head<S: Source>(
    alloc: Global,
    source: &mut S,
    wanted: TagSet,
) -> Result<WaveInfo, WaveError>
    // What is answered is the one reading of the bytes.
    ensures head { S.honest source.old → IfOk result (λ info. wave_reading (S.bytes source.old) wanted ≡ Ok info) }

    ensures frames { S.honest source.old → IfOk result (λ info. HasFrames info (S.bytes source.old)) }

    // A verdict is that of the bytes; else memory was wanting or the source failed.
    ensures refused { S.honest source.old → IfErr result (λ e. IsVerdict e → wave_reading (S.bytes source.old) wanted ≡ Err e) }
    ensures fault { S.honest source.old → IsErrOf result WaveError.ReadFault → Grows (S.faults source.old) (S.faults source.new) }
    ensures steady { S.honest source.old → S.steady source.old → IsErrOf result WaveError.ReadFault → ⊥ }
    ensures kept { S.honest source.old → Keeps S.bytes S.honest S.faults S.steady source.old source.new }
{
    let head = read_wave(alloc, source, wanted)?;
    Ok(head.info)
}

/// The same, and where the first chunk of the file that is an ID3v2 tag stands, of which nothing is read.
pub fn read_head_with_id3<S: Source>(
    alloc: Global,
    source: &mut S,
    wanted: TagSet,
) -> Result<WaveHead, WaveError>
    // What is answered is the one reading of the bytes.
    ensures head { S.honest source.old → IfOk result (λ head. wave_reading (S.bytes source.old) wanted ≡ Ok head.info) }
    ensures id3 { S.honest source.old → IfOk result (λ head. head.id3 ≡ id3_chunk (S.bytes source.old)) }
    ensures within { S.honest source.old → IfOk result (λ head. IfSome head.id3 (PlaceEndsBy (length (S.bytes source.old)))) }
    ensures fits { IfOk result (λ head. IfSome head.id3 (PlaceEndsBy 0xffff_ffff_ffff_ffff)) }

    ensures frames { S.honest source.old → IfOk result (λ head. HasFrames head.info (S.bytes source.old)) }

    // A verdict is that of the bytes; else memory was wanting or the source failed.
    ensures refused { S.honest source.old → IfErr result (λ e. IsVerdict e → wave_reading (S.bytes source.old) wanted ≡ Err e) }
    ensures fault { S.honest source.old → IsErrOf result WaveError.ReadFault → Grows (S.faults source.old) (S.faults source.new) }
    ensures steady { S.honest source.old → S.steady source.old → IsErrOf result WaveError.ReadFault → ⊥ }
    ensures kept { S.honest source.old → Keeps S.bytes S.honest S.faults S.steady source.old source.new }
{
    read_wave(alloc, source, wanted)
}
