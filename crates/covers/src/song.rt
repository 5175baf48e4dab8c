// The picture that a song's file has inside.
ghost use Rattle.std.specs.Prelude.{◌≡◌, ℕ, ◌+◌, ◌<◌, ◌≤◌, ◌^◌, length, option_copied, option_map, IfOk, IfErr, IfSome, IsTrue, Some, None};
ghost use Rattle.std.specs.List.{find};
ghost use Rattle.song_files.specs.Source.{Grows, Keeps};
ghost use Rattle.wave_pcm.specs.PartHead.{PlaceEndsBy};
ghost use Rattle.wave_pcm.specs.Reading.{IsVerdict};
ghost use Rattle.covers.specs.CoverError.{Fails};
ghost use Rattle.covers.specs.SongPictures.{cover_among, inside, is_address, is_told, is_told_front, song_picture, told_in};

use crate::CoverError;
use crate::limits::MAX_PICTURE_LEN;
use crate::place::PicturePlace;
use id3_tags::{Picture, TagError, read_tag};
use song_files::{Source, TagSet};
use std::alloc::{AllocError, Global};
use std::marker::Model;
use wave_pcm::{ChunkPlace, WaveError, read_head_with_id3};

/// A picture of a song's file, whose bytes stay where they stand.
#[derive(Debug, Drop)]
pub struct SongPicture {
    /// The MIME type, or an empty text where none can be read.
    pub mime: String,
    pub place: PicturePlace,
}

impl Model for SongPicture {
    ghost use Rattle.std.specs.Prelude.{string_bytes};
    ghost use Rattle.covers.specs.SongPictures.{PictureInside};

    ghost Value = { PictureInside };

    ghost view = { λ p. record { mime = string_bytes p.mime; first = p.place.first; len = p.place.len } };
}

// Whether a MIME type says that not a picture but its address stands there.
fn is_address(mime: &str) -> bool
    ensures { result ≡ is_address mime.now }
{
    mime == "-->"
}

// Whether it can be told of a file of `end` bytes.
fn is_told(end: u64, picture: &Picture) -> bool
    ensures test { result ≡ is_told end picture.now }
    ensures within { IsTrue result → picture.now.first + picture.now.len ≤ end }
{
    !is_address(picture.mime.as_str())
        && picture.len > 0
        && picture.len <= MAX_PICTURE_LEN
        && picture.first <= end
        && picture.len <= end - picture.first
}

// Whether it shows the front, too.
fn is_told_front(end: u64, picture: &Picture) -> bool
    ensures test { result ≡ is_told_front end picture.now }
    ensures within { IsTrue result → picture.now.first + picture.now.len ≤ end }
{
    picture.kind == 3 && is_told(end, picture)
}

// The first front cover that can be told.
fn first_front(end: u64, pictures: &[Picture]) -> Option<&Picture>
    ensures found { option_copied result ≡ find (is_told_front end) pictures.now }
    ensures within { IfSome result (λ p. p.now.first + p.now.len ≤ end) }
{
    for picture in pictures {
        if is_told_front(end, picture) {
            return Some(picture);
        }
    }
    None
}

// The first picture that can be told.
fn first_told(end: u64, pictures: &[Picture]) -> Option<&Picture>
    ensures found { option_copied result ≡ find (is_told end) pictures.now }
    ensures within { IfSome result (λ p. p.now.first + p.now.len ≤ end) }
{
    for picture in pictures {
        if is_told(end, picture) {
            return Some(picture);
        }
    }
    None
}

// The first front cover, else the first picture.
fn cover_among(end: u64, pictures: &[Picture]) -> Option<&Picture>
    ensures found { option_copied result ≡ cover_among end pictures.now }
    ensures within { IfSome result (λ p. p.now.first + p.now.len ≤ end) }
{
    match first_front(end, pictures) {
        Some(picture) => Some(picture),
        None => first_told(end, pictures),
    }
}

// What is told of a picture.
fn inside(picture: &Picture) -> Result<SongPicture, AllocError>
    ensures { IfOk result (λ told. told ≡ inside picture.now) }
{
    let mime = picture.mime.clone()?;
    Ok(SongPicture {
        mime,
        place: PicturePlace {
            first: picture.first,
            len: picture.len,
        },
    })
}

// What is told of the pictures of a tag.
fn told_among(end: u64, pictures: &[Picture]) -> Result<Option<SongPicture>, AllocError>
    ensures told { IfOk result (λ told. told ≡ option_map inside (cover_among end pictures.now)) }
    ensures within { IfOk result (λ told. IfSome told (λ p. p.first + p.len ≤ end)) }
{
    match cover_among(end, pictures) {
        Some(picture) => Ok(Some(inside(picture)?)),
        None => Ok(None),
    }
}

// The picture of the tag at a place.
fn picture_at<S: Source>(
    alloc: Global,
    source: &mut S,
    place: ChunkPlace,
) -> Result<Option<SongPicture>, CoverError>
    requires { place.first + place.len < 2 ^ 64 }
    ensures picture { S.honest source.old → place.first + place.len ≤ length (S.bytes source.old) →
        IfOk result (λ picture. picture ≡ told_in (S.bytes source.old) (Some place)) }
    ensures within { S.honest source.old → IfOk result (λ picture. IfSome picture (λ p. p.first + p.len ≤ length (S.bytes source.old))) }
    ensures fits { IfOk result (λ picture. IfSome picture (λ p. p.first + p.len < 2 ^ 64)) }
    ensures fault { S.honest source.old → place.first + place.len ≤ length (S.bytes source.old) →
        IfErr result (Fails (Grows (S.faults source.old) (S.faults source.new))) }
    ensures kept { S.honest source.old → Keeps S.bytes S.honest S.faults S.steady source.old source.new }
{
    let end = source.len();
    match read_tag(alloc, source, place.first, place.first + place.len) {
        Ok(tag) => Ok(told_among(end, tag.pictures.as_slice())?),
        Err(TagError::NoMemory) => Err(CoverError::NoMemory),
        Err(TagError::ReadFault) => Err(CoverError::ReadFault),
        Err(TagError::NotTag) => Ok(None),
        Err(TagError::Unwritable) => Ok(None),
    }
}

// The picture of the first chunk `id3 `, which stands at this place.
fn picture_in<S: Source>(
    alloc: Global,
    source: &mut S,
    place: Option<ChunkPlace>,
) -> Result<Option<SongPicture>, CoverError>
    requires { IfSome place (PlaceEndsBy 0xffff_ffff_ffff_ffff) }
    ensures picture { S.honest source.old → IfSome place (PlaceEndsBy (length (S.bytes source.old))) →
        IfOk result (λ picture. picture ≡ told_in (S.bytes source.old) place) }
    ensures within { S.honest source.old → IfOk result (λ picture. IfSome picture (λ p. p.first + p.len ≤ length (S.bytes source.old))) }
    ensures fits { IfOk result (λ picture. IfSome picture (λ p. p.first + p.len < 2 ^ 64)) }
    ensures fault { S.honest source.old → IfSome place (PlaceEndsBy (length (S.bytes source.old))) →
        IfErr result (Fails (Grows (S.faults source.old) (S.faults source.new))) }
    ensures kept { S.honest source.old → Keeps S.bytes S.honest S.faults S.steady source.old source.new }
{
    match place {
        Some(place) => picture_at(alloc, source, place),
        None => Ok(None),
    }
}

// What is told of a file that isn't read as a WAVE file: no picture, unless memory was wanting or the source failed.
fn refusal(error: WaveError) -> Result<Option<SongPicture>, CoverError>
    ensures verdict { IfOk result (λ picture. (picture ≡ None) × IsVerdict error) }
    ensures within { (end : ℕ) → IfOk result (λ picture. IfSome picture (λ p. p.first + p.len ≤ end)) }
    ensures fits { IfOk result (λ picture. IfSome picture (λ p. p.first + p.len < 2 ^ 64)) }
    ensures fails { IfErr result (Fails (error ≡ WaveError.ReadFault)) }
{
    match error {
        WaveError::NoMemory => Err(CoverError::NoMemory),
        WaveError::ReadFault => Err(CoverError::ReadFault),
        WaveError::NotWave
        | WaveError::NoFormat
        | WaveError::Unsupported { .. }
        | WaveError::NoData
        | WaveError::TooManyTurns => Ok(None),
    }
}

/// Finds the picture that a song's file, a WAVE file, has inside: the first front cover, else the first picture, of the ID3v2 tag in its
/// first chunk `id3 `; `None` where it has none. A picture of more than 67,108,864 bytes counts as none, and so does an address.
///
/// An error leaves the source as any read does. `ReadFault` and `NoMemory` say nothing about the file.
pub fn read_picture<S: Source>(
    alloc: Global,
    source: &mut S,
) -> Result<Option<SongPicture>, CoverError>
    ensures picture { S.honest source.old → IfOk result (λ picture. picture ≡ song_picture (S.bytes source.old)) }
    ensures within { S.honest source.old → IfOk result (λ picture. IfSome picture (λ p. p.first + p.len ≤ length (S.bytes source.old))) }
    ensures fits { IfOk result (λ picture. IfSome picture (λ p. p.first + p.len < 2 ^ 64)) }
    ensures fault { S.honest source.old → IfErr result (Fails (Grows (S.faults source.old) (S.faults source.new))) }
    ensures kept { S.honest source.old → Keeps S.bytes S.honest S.faults S.steady source.old source.new }
{
    match read_head_with_id3(alloc, source, TagSet::NONE) {
        Ok(head) => picture_in(alloc, source, head.id3),
        Err(error) => refusal(error),
    }
}
