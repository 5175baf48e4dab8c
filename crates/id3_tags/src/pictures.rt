// The pictures of frames.
ghost use Rattle.std.specs.Prelude.{◌≡◌, ◌+◌, ◌<◌, ◌≤◌, ◌^◌, ◌++◌, [], option_to_list, drop, length, string_bytes, OnOk, IfOk, IfSome};
ghost use Rattle.id3_tags.specs.Pictures.{FramePicture, is_picture, mime_of_format, mime_len, mime_in, picture_by, picture_of};
ghost use Rattle.id3_tags.specs.Pictures.{description_len};
ghost use Rattle.id3_tags.specs.Pictures.{first_text};
ghost use Rattle.id3_tags.specs.Strings.{texts_in};

use crate::strings::{first_len, kept, texts_in};
use std::alloc::{AllocError, Global};
use std::marker::Model;

/// A picture of a tag, whose bytes stay where they stand.
#[derive(Debug, Drop)]
pub struct Picture {
    /// The picture's type (ID3v2.4.0 frames, section 4.14): 3 is the front cover.
    pub kind: u8,
    /// The MIME type, or an empty text where none can be read.
    pub mime: String,
    pub description: String,
    /// The place of the picture's first byte in the source.
    pub first: u64,
    /// How many bytes it has.
    pub len: u64,
}

impl Model for Picture {
    ghost use Rattle.std.specs.Prelude.{string_bytes};
    ghost use Rattle.id3_tags.specs.Pictures.{FramePicture};

    ghost Value = { FramePicture };

    ghost view = { λ p. record {
      kind = p.kind;
      mime = string_bytes p.mime;
      description = string_bytes p.description;
      first = p.first;
      len = p.len;
    } };
}

/// The pictures of a tag in the order of their frames.
#[derive(Debug, Drop)]
pub struct Pictures {
    pictures: Vec<Picture>,
}

impl Model for Pictures {
    ghost use Rattle.std.specs.Prelude.{List};
    ghost use Rattle.id3_tags.specs.Pictures.{FramePicture};

    ghost Value = { List FramePicture };

    ghost view = { λ p. p.pictures.items };
}

impl Pictures {
    /// No picture. It takes no memory yet.
    pub fn new(alloc: Global) -> Self
        ensures { result ≡ [] }
    {
        Pictures {
            pictures: Vec::new(alloc),
        }
    }

    /// The pictures, one behind the other.
    pub fn as_slice(&self) -> &[Picture]
        ensures { result.now ≡ self.now }
    {
        &self.pictures
    }

    /// Adds a picture, if there is one.
    pub fn add(&mut self, picture: Option<Picture>) -> Result<(), AllocError>
        ensures added { OnOk result (self.new ≡ self.old ++ option_to_list picture) }
    {
        if let Some(picture) = picture {
            self.pictures.push(picture)?;
        }
        Ok(())
    }
}

/// Whether a frame with this id has a picture: `PIC ` is that of 2.2.
pub fn is_picture(id: [u8; 4]) -> bool
    ensures { result ≡ is_picture id }
{
    id == *b"APIC" || id == *b"PIC "
}

/// The MIME type of an image format of 2.2.
fn mime_of_format(alloc: Global, format: &[u8]) -> Result<String, AllocError>
    ensures { IfOk result (λ mime. string_bytes mime ≡ mime_of_format format.now) }
{
    match format {
        b"JPG" => String::from_str(alloc, "image/jpeg"),
        b"PNG" => String::from_str(alloc, "image/png"),
        _ => kept(alloc, format),
    }
}

/// How many bytes the MIME type has with the zero at its end; the format of 2.2 has three.
fn mime_len(alloc: Global, id: [u8; 4], bytes: &[u8]) -> Result<Option<usize>, AllocError>
    requires { length bytes.now < 65536 }
    ensures len { IfOk result (λ len. len ≡ mime_len id bytes.now) }
{
    if id == *b"APIC" {
        return first_len(alloc, 0, bytes);
    }
    Ok(Some(3))
}

/// The MIME type in the bytes behind the encoding, of which it takes so many.
fn mime_in(alloc: Global, id: [u8; 4], bytes: &[u8], len: usize) -> Result<String, AllocError>
    requires { len ≤ length bytes.now }
    ensures { IfOk result (λ mime. string_bytes mime ≡ mime_in id bytes.now len) }
{
    if id == *b"APIC" {
        return kept(alloc, &bytes[..len.saturating_sub(1)]);
    }
    mime_of_format(alloc, bytes.get(..3).unwrap_or(bytes))
}

/// The first text of these strings.
fn first_text(alloc: Global, encoding: u8, bytes: &[u8]) -> Result<String, AllocError>
    ensures { IfOk result (λ text. string_bytes text ≡ first_text (texts_in encoding bytes.now)) }
{
    let mut texts = texts_in(alloc, encoding, bytes)?;
    if texts.is_empty() {
        return Ok(String::new(alloc));
    }
    Ok(texts.remove(0))
}

/// The front of a picture's frame behind the encoding: what it tells, and where the frame's data stand.
#[derive(Clone, Copy)]
struct Front<'a> {
    encoding: u8,
    id: [u8; 4],
    bytes: &'a [u8],
    first: u64,
    len: u64,
}

impl Front<'_> {
    /// How many bytes the description has with its end, if it ends in the front.
    fn description_len(self, alloc: Global, mime: usize) -> Result<Option<usize>, AllocError>
        requires { length self.bytes.now < 65536 }
        ensures len { IfOk result (λ len. len ≡ description_len self.entry.encoding self.entry.bytes.now mime) }
        ensures within { IfOk result (λ len. IfSome len (λ n. mime + 1 + n ≤ length self.entry.bytes.now)) }
    {
        if mime >= self.bytes.len() {
            return Ok(None);
        }
        first_len(alloc, self.encoding, &self.bytes[mime + 1..])
    }

    /// The picture, whose MIME type has so many bytes.
    fn picture(self, alloc: Global, mime: usize) -> Result<Option<Picture>, AllocError>
        requires front { length self.bytes.now < 65536 }
        requires fits { self.first + self.len < 2 ^ 64 }
        requires within { length self.bytes.now + 1 ≤ self.len }
        ensures { IfOk result (λ picture. picture ≡ picture_by self.entry.encoding self.entry.id self.entry.bytes.now
            self.entry.first self.entry.len mime) }
    {
        let Some(description) = self.description_len(alloc, mime)? else {
            return Ok(None);
        };
        let front = (2 + mime + description) as u64;
        Ok(Some(Picture {
            kind: self.bytes[mime],
            mime: mime_in(alloc, self.id, self.bytes, mime)?,
            description: first_text(alloc, self.encoding, &self.bytes[mime + 1..])?,
            first: self.first + front,
            len: self.len - front,
        }))
    }
}

/// The picture of the frame with this id, whose data stand at `first` and have `len` bytes, by the front of the
/// data.
pub fn picture_of(
    alloc: Global,
    id: [u8; 4],
    first: u64,
    len: u64,
    front: &[u8],
) -> Result<Option<Picture>, AllocError>
    requires front { length front.now < 65536 }
    requires fits { first + len < 2 ^ 64 }
    requires within { length front.now ≤ len }
    ensures { IfOk result (λ picture. picture ≡ picture_of id first len front.now) }
{
    let Some((encoding, bytes)) = front.split_first() else {
        return Ok(None);
    };
    let Some(mime) = mime_len(alloc, id, bytes)? else {
        return Ok(None);
    };
    let front = Front {
        encoding: *encoding,
        id,
        bytes,
        first,
        len,
    };
    front.picture(alloc, mime)
}
