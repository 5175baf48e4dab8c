// The tag of a FLAC file's comments and of one of its pictures.
ghost use Rattle.std.specs.Prelude.{◌≡◌, ◌+◌, ◌≤◌, ◌<◌, ◌^◌, List, ℕ, length, option_copied, option_map, IfOk, IfErr, IfSome, IsTrue, MatchOption, Some, None, true, false};
ghost use Rattle.id3_tags.specs.Writing.{can_write, written};
ghost use Rattle.std.specs.List.{find};
ghost use Rattle.as_wave.specs.FlacTag.{is_cover, is_front_cover, cover_in, front_of, tag_bytes, tag_of};
ghost use Rattle.as_wave.specs.FlacTail.{tag_at};

use crate::flac_texts::texts_for;
use flac::{FlacHead, Picture};
use id3_tags::{PictureFront, TagError, TextFrame, write_tag};
use std::alloc::{AllocError, Global};
use wave_pcm::WaveError;

/// A tag: its bytes up to those of a picture, and where the picture's stand in the file, and how many they are.
#[derive(Debug, Drop)]
pub struct FlacTag {
    pub front: Vec<u8>,
    pub picture: u64,
    pub picture_len: u64,
}

/// Whether a picture can be told in a file of `end` bytes.
fn is_cover(end: u64, picture: &Picture) -> bool
    ensures test { result ≡ is_cover end picture.now }
    ensures within { IsTrue result → picture.now.first + picture.now.len ≤ end }
{
    !picture.media_type().is_empty()
        && picture.first() <= end
        && picture.len() <= end - picture.first()
}

/// Whether it shows the front, too.
fn is_front_cover(end: u64, picture: &Picture) -> bool
    ensures test { result ≡ is_front_cover end picture.now }
    ensures within { IsTrue result → picture.now.first + picture.now.len ≤ end }
{
    picture.kind() == 3 && is_cover(end, picture)
}

/// The first front cover that can be told.
fn first_front(end: u64, pictures: &[Picture]) -> Option<&Picture>
    ensures found { option_copied result ≡ find (is_front_cover end) pictures.now }
    ensures within { IfSome result (λ p. p.now.first + p.now.len ≤ end) }
{
    for picture in pictures {
        if is_front_cover(end, picture) {
            return Some(picture);
        }
    }
    None
}

/// The first picture that can be told.
fn first_cover(end: u64, pictures: &[Picture]) -> Option<&Picture>
    ensures found { option_copied result ≡ find (is_cover end) pictures.now }
    ensures within { IfSome result (λ p. p.now.first + p.now.len ≤ end) }
{
    for picture in pictures {
        if is_cover(end, picture) {
            return Some(picture);
        }
    }
    None
}

/// The first front cover, else the first picture.
fn cover_in(end: u64, pictures: &[Picture]) -> Option<&Picture>
    ensures found { option_copied result ≡ cover_in end pictures.now }
    ensures within { IfSome result (λ p. p.now.first + p.now.len ≤ end) }
{
    match first_front(end, pictures) {
        Some(picture) => Some(picture),
        None => first_cover(end, pictures),
    }
}

/// What a tag tells of the picture.
fn front_of(alloc: Global, picture: &Picture) -> Result<PictureFront, AllocError>
    ensures { IfOk result (λ front. front ≡ front_of picture.now) }
{
    let kind = picture.kind();
    let mime = String::from_str(alloc, picture.media_type())?;
    Ok(PictureFront {
        kind: if kind < 256 { kind as u8 } else { 0 },
        mime,
        description: String::new(alloc),
        len: picture.len(),
    })
}

/// The bytes of a tag up to those of the picture, if it can be written.
fn write_front(
    alloc: Global,
    texts: &[TextFrame],
    picture: Option<&PictureFront>,
) -> Result<Option<Vec<u8>>, WaveError>
    ensures written { IfOk result (λ front. MatchOption front (can_write texts.now (option_copied picture.entry) ≡ false)
        (λ bytes. (can_write texts.now (option_copied picture.entry) ≡ true)
        × (bytes.items ≡ written texts.now (option_copied picture.entry)))) }
    ensures only { IfErr result (λ e. e ≡ WaveError.NoMemory) }
{
    match write_tag(alloc, texts, picture) {
        Ok(bytes) => Ok(Some(bytes)),
        Err(TagError::Unwritable) => Ok(None),
        Err(_) => Err(WaveError::NoMemory),
    }
}

/// The tag of these frames and a picture.
fn tag_with(
    alloc: Global,
    texts: &[TextFrame],
    picture: &Picture,
) -> Result<Option<FlacTag>, WaveError>
    ensures tag { (file : List ℕ) → IfOk result (λ tag.
        tag_bytes file texts.now (Some picture.now) ≡ option_map (tag_at file) tag) }
    ensures place { IfOk result (λ tag. IfSome tag (λ t. (t.picture ≡ picture.now.first) × (t.picture_len ≡ picture.now.len))) }
    ensures small { IfOk result (λ tag. IfSome tag (λ t. length t.front.items + t.picture_len < 2 ^ 29)) }
    ensures only { IfErr result (λ e. e ≡ WaveError.NoMemory) }
{
    let front = front_of(alloc, picture)?;
    let Some(bytes) = write_front(alloc, texts, Some(&front))? else {
        return Ok(None);
    };
    Ok(Some(FlacTag {
        front: bytes,
        picture: picture.first(),
        picture_len: picture.len(),
    }))
}

/// The tag of these frames alone.
fn tag_without(alloc: Global, texts: &[TextFrame]) -> Result<Option<FlacTag>, WaveError>
    ensures tag { (file : List ℕ) → IfOk result (λ tag. tag_bytes file texts.now None ≡ option_map (tag_at file) tag) }
    ensures place { IfOk result (λ tag. IfSome tag (λ t. (t.picture ≡ 0) × (t.picture_len ≡ 0))) }
    ensures small { IfOk result (λ tag. IfSome tag (λ t. length t.front.items + t.picture_len < 2 ^ 29)) }
    ensures only { IfErr result (λ e. e ≡ WaveError.NoMemory) }
{
    let Some(bytes) = write_front(alloc, texts, None)? else {
        return Ok(None);
    };
    Ok(Some(FlacTag {
        front: bytes,
        picture: 0,
        picture_len: 0,
    }))
}

/// The tag of a file of `end` bytes with this head, if it can be written.
pub fn tag_of(alloc: Global, head: &FlacHead, end: u64) -> Result<Option<FlacTag>, WaveError>
    ensures tag { (file : List ℕ) → end ≡ length file → IfOk result (λ tag. tag_of file head.now ≡ option_map (tag_at file) tag) }
    ensures within { IfOk result (λ tag. IfSome tag (λ t. t.picture + t.picture_len ≤ end)) }
    ensures small { IfOk result (λ tag. IfSome tag (λ t. length t.front.items + t.picture_len < 2 ^ 29)) }
    ensures only { IfErr result (λ e. e ≡ WaveError.NoMemory) }
{
    let texts = texts_for(alloc, head.comments.as_slice())?;
    match cover_in(end, head.pictures.as_slice()) {
        Some(picture) => tag_with(alloc, &texts, picture),
        None => tag_without(alloc, &texts),
    }
}
