// The pictures of a file.
ghost use Rattle.std.specs.Prelude.{◌≡◌, ◌+◌, ◌<◌, ◌≤◌, ◌^◌, ◌++◌, length, take, drop, slice_range, IfOk, IfErr, OnOk, Ok, All, vec_len};
ghost use Rattle.std.specs.Prelude.{option_to_list, option_map, string_bytes, IfSome};
ghost use Rattle.song_files.specs.Source.{Grows, Keeps};
ghost use Rattle.flac.specs.Blocks.{body_of, EndsBy};
ghost use Rattle.flac.specs.FlacError.{Refuses, Fails};
ghost use Rattle.flac.specs.Numbers.{be32};
ghost use Rattle.flac.specs.Pictures.{media_type_of, lengths_in, picture_by, picture_of, pictures_of};

use crate::FlacError;
use crate::blocks::BlockHead;
use crate::read::read_bytes;
use crate::text::printable_text;
use song_files::Source;
use std::alloc::{AllocError, Global};
use std::marker::Model;

/// How many pictures of a file are kept.
pub const MAX_PICTURES: usize = 16;

/// How many bytes the media type of a picture may have.
const MAX_MEDIA_TYPE_BYTES: usize = 255;

/// The type of PICTURE.
const PICTURE: u8 = 6;

/// How many bytes of a picture's block are no text and not of the picture.
const NUMBERS_LEN: u64 = 32;

/// A picture: its type (RFC 9639, table 13), its media type, and where its bytes stand in the file.
#[derive(Debug, Drop)]
pub struct Picture {
    kind: u32,
    media_type: String,
    first: u64,
    len: u64,
}

impl Model for Picture {
    ghost use Rattle.std.specs.Prelude.{string_bytes};
    ghost use Rattle.flac.specs.Pictures.{PicturePlace};

    ghost Value = { PicturePlace };

    ghost view = { λ p. record { kind = p.kind; media_type = string_bytes p.media_type; first = p.first; len = p.len } };
}

impl Picture {
    /// The type of the picture, as 3 for the front cover.
    pub fn kind(&self) -> u32
        ensures { result ≡ self.now.kind }
    {
        self.kind
    }

    /// The media type, at most 255 printable ASCII characters.
    pub fn media_type(&self) -> &str
        ensures { result.now ≡ self.now.media_type }
    {
        self.media_type.as_str()
    }

    /// The place of its first byte in the file.
    pub fn first(&self) -> u64
        ensures { result ≡ self.now.first }
    {
        self.first
    }

    /// How many bytes it has.
    pub fn len(&self) -> u64
        ensures { result ≡ self.now.len }
    {
        self.len
    }
}

/// The pictures of a file in its order, at most 16.
#[derive(Debug, Drop)]
pub struct Pictures {
    pictures: Vec<Picture>,
}

impl Model for Pictures {
    ghost use Rattle.std.specs.Prelude.{List};
    ghost use Rattle.flac.specs.Pictures.{PicturePlace};

    ghost Value = { List PicturePlace };

    ghost view = { λ p. p.pictures.items };
}

impl Pictures {
    pub(crate) fn new(pictures: Vec<Picture>) -> Self
        ensures { result ≡ pictures.items }
    {
        Pictures { pictures }
    }

    pub fn as_slice(&self) -> &[Picture]
        ensures { result.now ≡ self.now }
    {
        self.pictures.as_slice()
    }
}

/// The number of four bytes at a place, the highest first.
fn read_number<S: Source>(source: &mut S, at: u64) -> Result<u64, FlacError>
    requires { at + 4 < 2 ^ 64 }
    ensures number { S.honest source.old → IfOk result (λ n. n ≡ be32 (slice_range (S.bytes source.old) at (at + 4))) }
    ensures small { IfOk result (λ n. n < 2 ^ 32) }
    ensures fault { S.honest source.old → at + 4 ≤ length (S.bytes source.old) →
        IfErr result (Fails (Grows (S.faults source.old) (S.faults source.new))) }
    ensures kept { S.honest source.old → Keeps S.bytes S.honest S.faults S.steady source.old source.new }
{
    let mut bytes = [0; 4];
    read_bytes(source, at, &mut bytes)?;
    Ok(u64::from(u32::from_be_bytes(bytes)))
}

/// How many bytes the parts of a picture have: its media type, its description, and the picture.
#[derive(Clone, Copy, Debug)]
pub struct Lengths {
    pub media: u64,
    pub text: u64,
    pub len: u64,
}

/// The lengths of the parts, if the data of the block holds them all.
fn read_lengths<S: Source>(source: &mut S, block: BlockHead) -> Result<Option<Lengths>, FlacError>
    requires { block.first + block.len < 2 ^ 64 }
    ensures lengths { S.honest source.old → block.first + block.len ≤ length (S.bytes source.old) →
        IfOk result (λ lengths. lengths ≡ lengths_in (body_of (S.bytes source.old) block)) }
    ensures within { IfOk result (λ lengths. IfSome lengths (λ l. 32 + l.media + l.text + l.len ≤ block.len)) }
    ensures fault { S.honest source.old → block.first + block.len ≤ length (S.bytes source.old) →
        IfErr result (Fails (Grows (S.faults source.old) (S.faults source.new))) }
    ensures kept { S.honest source.old → Keeps S.bytes S.honest S.faults S.steady source.old source.new }
{
    if block.len < NUMBERS_LEN {
        return Ok(None);
    }
    let room = block.len - NUMBERS_LEN;
    let media = read_number(source, block.first + 4)?;
    if media > room {
        return Ok(None);
    }
    let text = read_number(source, block.first + (8 + media))?;
    if text > room - media {
        return Ok(None);
    }
    let len = read_number(source, block.first + (28 + media + text))?;
    if len > room - media - text {
        return Ok(None);
    }
    Ok(Some(Lengths { media, text, len }))
}

/// The media type that these bytes are, if they are one.
fn parse_media_type(alloc: Global, bytes: &[u8]) -> Result<Option<String>, AllocError>
    requires { length bytes.now ≤ MAX_MEDIA_TYPE_BYTES }
    ensures { IfOk result (λ name. option_map string_bytes name ≡ media_type_of bytes.now) }
{
    let Some(name) = printable_text(bytes) else {
        return Ok(None);
    };
    let name = String::from_str(alloc, name)?;
    Ok(Some(name))
}

/// The media type of so many bytes at a place, if they are one.
fn read_media_type<S: Source>(
    alloc: Global,
    source: &mut S,
    at: u64,
    len: u64,
) -> Result<Option<String>, FlacError>
    requires { at + len < 2 ^ 64 }
    ensures name { S.honest source.old → at + len ≤ length (S.bytes source.old) →
        IfOk result (λ name. option_map string_bytes name ≡ media_type_of (slice_range (S.bytes source.old) at (at + len))) }
    ensures fault { S.honest source.old → at + len ≤ length (S.bytes source.old) →
        IfErr result (Fails (Grows (S.faults source.old) (S.faults source.new))) }
    ensures kept { S.honest source.old → Keeps S.bytes S.honest S.faults S.steady source.old source.new }
{
    if len > MAX_MEDIA_TYPE_BYTES as u64 {
        return Ok(None);
    }
    let mut buffer = [0; MAX_MEDIA_TYPE_BYTES];
    let name = &mut buffer[..len as usize];
    read_bytes(source, at, name)?;
    Ok(parse_media_type(alloc, name)?)
}

/// The picture whose parts have these lengths.
fn read_by<S: Source>(
    alloc: Global,
    source: &mut S,
    block: BlockHead,
    lengths: Lengths,
) -> Result<Option<Picture>, FlacError>
    requires fits { block.first + block.len < 2 ^ 64 }
    requires within { 32 + lengths.media + lengths.text + lengths.len ≤ block.len }
    ensures picture { S.honest source.old → block.first + block.len ≤ length (S.bytes source.old) →
        IfOk result (λ picture. picture ≡ picture_by block.first (body_of (S.bytes source.old) block) lengths) }
    ensures fault { S.honest source.old → block.first + block.len ≤ length (S.bytes source.old) →
        IfErr result (Fails (Grows (S.faults source.old) (S.faults source.new))) }
    ensures kept { S.honest source.old → Keeps S.bytes S.honest S.faults S.steady source.old source.new }
{
    let media_type = read_media_type(alloc, source, block.first + 8, lengths.media)?;
    let Some(media_type) = media_type else {
        return Ok(None);
    };
    let kind = read_number(source, block.first)? as u32;
    Ok(Some(Picture {
        kind,
        media_type,
        first: block.first + (NUMBERS_LEN + lengths.media + lengths.text),
        len: lengths.len,
    }))
}

/// The picture of a block, if it is one.
fn read_picture<S: Source>(
    alloc: Global,
    source: &mut S,
    block: BlockHead,
) -> Result<Option<Picture>, FlacError>
    requires { block.first + block.len < 2 ^ 64 }
    ensures picture { S.honest source.old → block.first + block.len ≤ length (S.bytes source.old) →
        IfOk result (λ picture. picture ≡ picture_of (S.bytes source.old) block) }
    ensures fault { S.honest source.old → block.first + block.len ≤ length (S.bytes source.old) →
        IfErr result (Fails (Grows (S.faults source.old) (S.faults source.new))) }
    ensures kept { S.honest source.old → Keeps S.bytes S.honest S.faults S.steady source.old source.new }
{
    if block.kind != PICTURE {
        return Ok(None);
    }
    match read_lengths(source, block)? {
        Some(lengths) => read_by(alloc, source, block, lengths),
        None => Ok(None),
    }
}

/// Adds the picture of a block, if it is one and there is room.
fn add_picture<S: Source>(
    alloc: Global,
    source: &mut S,
    block: BlockHead,
    pictures: &mut Vec<Picture>,
) -> Result<(), FlacError>
    requires fits { block.first + block.len < 2 ^ 64 }
    requires few { vec_len pictures.old ≤ MAX_PICTURES }
    ensures added { S.honest source.old → block.first + block.len ≤ length (S.bytes source.old) →
        OnOk result (pictures.new.items ≡ take MAX_PICTURES (pictures.old.items ++ option_to_list (picture_of (S.bytes source.old)
        block))) }
    ensures few { OnOk result (vec_len pictures.new ≤ MAX_PICTURES) }
    ensures fault { S.honest source.old → block.first + block.len ≤ length (S.bytes source.old) →
        IfErr result (Fails (Grows (S.faults source.old) (S.faults source.new))) }
    ensures kept { S.honest source.old → Keeps S.bytes S.honest S.faults S.steady source.old source.new }
{
    if pictures.len() == MAX_PICTURES {
        return Ok(());
    }
    if let Some(picture) = read_picture(alloc, source, block)? {
        pictures.push(picture)?;
    }
    Ok(())
}

/// The pictures of the blocks.
pub fn read_pictures<S: Source>(
    alloc: Global,
    source: &mut S,
    blocks: &[BlockHead],
    end: u64,
) -> Result<Vec<Picture>, FlacError>
    requires { All (EndsBy end) blocks.now }
    ensures listed { S.honest source.old → end ≡ length (S.bytes source.old) →
        IfOk result (λ pictures. pictures.items ≡ pictures_of (S.bytes source.old) blocks.now) }
    ensures fault { S.honest source.old → end ≡ length (S.bytes source.old) →
        IfErr result (Fails (Grows (S.faults source.old) (S.faults source.new))) }
    ensures kept { S.honest source.old → Keeps S.bytes S.honest S.faults S.steady source.old source.new }
{
    let mut pictures = Vec::new(alloc);
    'parts: for block in blocks {
        add_picture(alloc, source, *block, &mut pictures)?;
    }
    Ok(pictures)
}
