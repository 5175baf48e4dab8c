// A tag, written.
ghost use Rattle.std.specs.Prelude.{◌≡◌, ◌+◌, ◌<◌, ◌≤◌, ◌++◌, ◌∷◌, [], map, length, string_bytes, Some, None, option_copied};
ghost use Rattle.std.specs.Prelude.{true, false, OnOk, IfOk, IsErrOf, if◌then◌else◌};
ghost use Rattle.std.specs.List.{flat_map};
ghost use Rattle.id3_tags.specs.Texts.{is_described};
ghost use Rattle.id3_tags.specs.Writing.{safe_bytes, terminated, language_for, text_data, frame_front, written_text, picture_data};
ghost use Rattle.id3_tags.specs.Writing.{written_picture, written, can_write, size_of, tag_front, IsReadBack};

use crate::TagError;
use crate::limits::{MAX_FRAMES, MAX_SIZE};
use crate::texts::{is_comment, is_described};
use crate::writable::{are_writable, is_writable_picture};
use std::alloc::{AllocError, Global};
use std::marker::Model;

/// A text frame to be written, with several values.
#[derive(Debug, Drop)]
pub struct TextFrame {
    /// The frame's id: one that begins with T, or COMM.
    pub id: [u8; 4],
    /// The description of a frame TXXX or COMM; elsewhere it is empty.
    pub description: String,
    pub values: Vec<String>,
}

impl Model for TextFrame {
    ghost use Rattle.std.specs.Prelude.{map, string_bytes};
    ghost use Rattle.id3_tags.specs.Writing.{WrittenText};

    ghost Value = { WrittenText };

    ghost view = { λ f. record { id = f.id; description = string_bytes f.description; values = map string_bytes f.values.items } };
}

/// A picture to be written whose bytes stand elsewhere.
#[derive(Debug, Drop)]
pub struct PictureFront {
    /// The picture's type (ID3v2.4.0 frames, section 4.14): 3 is the front cover.
    pub kind: u8,
    pub mime: String,
    pub description: String,
    /// How many bytes the picture has.
    pub len: u64,
}

impl Model for PictureFront {
    ghost use Rattle.std.specs.Prelude.{string_bytes};
    ghost use Rattle.id3_tags.specs.Writing.{WrittenPicture};

    ghost Value = { WrittenPicture };

    ghost view = { λ p. record { kind = p.kind; mime = string_bytes p.mime; description = string_bytes p.description; len = p.len } };
}

/// A synchsafe number of 28 bits.
fn safe_bytes(n: u64) -> [u8; 4]
    ensures { result ≡ safe_bytes n }
{
    [
        (n / 2_097_152 % 128) as u8,
        (n / 16_384 % 128) as u8,
        (n / 128 % 128) as u8,
        (n % 128) as u8,
    ]
}

/// Adds a string with the zero at its end.
fn push_string(bytes: &mut Vec<u8>, text: &str) -> Result<(), AllocError>
    ensures { OnOk result (bytes.new.items ≡ bytes.old.items ++ terminated text.now) }
{
    bytes.extend_from_slice(text.as_bytes())?;
    bytes.push(0)?;
    Ok(())
}

/// Adds strings, each with the zero at its end.
fn push_strings(bytes: &mut Vec<u8>, texts: &[String]) -> Result<(), AllocError>
    ensures { OnOk result (bytes.new.items ≡ bytes.old.items ++ flat_map terminated (map string_bytes texts.now)) }
{
    for text in texts {
        push_string(bytes, text.as_str())?;
    }
    Ok(())
}

/// The language of a comment, which isn't known.
fn language_for(id: [u8; 4]) -> &'static [u8]
    ensures { result.now ≡ language_for id }
{
    if is_comment(id) { b"XXX" } else { b"" }
}

/// Adds the description, if the frame has one.
fn push_description(bytes: &mut Vec<u8>, frame: &TextFrame) -> Result<(), AllocError>
    ensures { OnOk result (bytes.new.items ≡ bytes.old.items ++
        (if is_described frame.now.id then terminated frame.now.description else [])) }
{
    if is_described(frame.id) {
        push_string(bytes, frame.description.as_str())?;
    }
    Ok(())
}

/// The data of a text frame.
pub fn text_data(alloc: Global, frame: &TextFrame) -> Result<Vec<u8>, AllocError>
    ensures { IfOk result (λ body. body.items ≡ text_data frame.now) }
{
    let mut body = Vec::new(alloc);
    body.push(3)?;
    body.extend_from_slice(language_for(frame.id))?;
    push_description(&mut body, frame)?;
    push_strings(&mut body, &frame.values)?;
    Ok(body)
}

/// Adds the front of a frame of so many bytes, and the data behind it.
fn push_frame(bytes: &mut Vec<u8>, id: [u8; 4], size: u64, body: &[u8]) -> Result<(), AllocError>
    ensures { OnOk result (bytes.new.items ≡ bytes.old.items ++ (frame_front id size ++ body.now)) }
{
    bytes.extend_from_slice(&id)?;
    bytes.extend_from_slice(&safe_bytes(size))?;
    bytes.extend_from_slice(&[0, 0])?;
    bytes.extend_from_slice(body)?;
    Ok(())
}

/// Adds a text frame.
fn push_text(alloc: Global, bytes: &mut Vec<u8>, frame: &TextFrame) -> Result<(), AllocError>
    ensures { OnOk result (bytes.new.items ≡ bytes.old.items ++ written_text frame.now) }
{
    let body = text_data(alloc, frame)?;
    push_frame(bytes, frame.id, body.len() as u64, &body)
}

/// Adds text frames.
fn push_texts(alloc: Global, bytes: &mut Vec<u8>, frames: &[TextFrame]) -> Result<(), AllocError>
    ensures { OnOk result (bytes.new.items ≡ bytes.old.items ++ flat_map written_text frames.now) }
{
    for frame in frames {
        push_text(alloc, bytes, frame)?;
    }
    Ok(())
}

/// What stands before the bytes of a picture.
fn picture_data(alloc: Global, picture: &PictureFront) -> Result<Vec<u8>, AllocError>
    ensures { IfOk result (λ body. body.items ≡ picture_data picture.now) }
{
    let mut body = Vec::new(alloc);
    body.push(3)?;
    push_string(&mut body, picture.mime.as_str())?;
    body.push(picture.kind)?;
    push_string(&mut body, picture.description.as_str())?;
    Ok(body)
}

/// Adds the frame of a picture up to the picture's bytes.
fn push_picture(
    alloc: Global,
    bytes: &mut Vec<u8>,
    picture: &PictureFront,
) -> Result<(), AllocError>
    requires { picture.now.len < MAX_SIZE }
    ensures { OnOk result (bytes.new.items ≡ bytes.old.items ++ written_picture picture.now) }
{
    let body = picture_data(alloc, picture)?;
    push_frame(bytes, *b"APIC", body.len() as u64 + picture.len, &body)
}

/// The head of a tag, and its frames up to the bytes of the picture.
fn with_head(alloc: Global, size: u64, frames: &[u8]) -> Result<Vec<u8>, AllocError>
    ensures { IfOk result (λ bytes. bytes.items ≡ tag_front size ++ frames.now) }
{
    let mut bytes = Vec::new(alloc);
    bytes.extend_from_slice(b"ID3")?;
    bytes.extend_from_slice(&[4, 0, 0])?;
    bytes.extend_from_slice(&safe_bytes(size))?;
    bytes.extend_from_slice(frames)?;
    Ok(bytes)
}

/// The bytes of a tag whose size was found.
fn sized(alloc: Global, size: u64, frames: &[u8]) -> Result<Vec<u8>, TagError>
    ensures bytes { IfOk result (λ bytes. bytes.items ≡ tag_front size ++ frames.now) }
    ensures fits { OnOk result (size < MAX_SIZE) }
    ensures refused { IsErrOf result TagError.Unwritable → MAX_SIZE ≤ size }
{
    if size >= MAX_SIZE {
        return Err(TagError::Unwritable);
    }
    Ok(with_head(alloc, size, frames)?)
}

/// The bytes of a tag without a picture.
fn write_texts(alloc: Global, frames: &[TextFrame]) -> Result<Vec<u8>, TagError>
    ensures bytes { IfOk result (λ bytes. bytes.items ≡ written frames.now None) }
    ensures fits { OnOk result (size_of frames.now None < MAX_SIZE) }
    ensures refused { IsErrOf result TagError.Unwritable → MAX_SIZE ≤ size_of frames.now None }
{
    let mut bytes = Vec::new(alloc);
    push_texts(alloc, &mut bytes, frames)?;
    sized(alloc, bytes.len() as u64, &bytes)
}

/// The bytes of a tag with a picture, up to those of the picture.
fn write_both(
    alloc: Global,
    frames: &[TextFrame],
    picture: &PictureFront,
) -> Result<Vec<u8>, TagError>
    ensures bytes { IfOk result (λ bytes. bytes.items ≡ written frames.now (Some picture.now)) }
    ensures fits { OnOk result (size_of frames.now (Some picture.now) < MAX_SIZE) }
    ensures refused { IsErrOf result TagError.Unwritable → MAX_SIZE ≤ size_of frames.now (Some picture.now) }
{
    if picture.len >= MAX_SIZE {
        return Err(TagError::Unwritable);
    }
    let mut bytes = Vec::new(alloc);
    push_texts(alloc, &mut bytes, frames)?;
    push_picture(alloc, &mut bytes, picture)?;
    sized(alloc, bytes.len() as u64 + picture.len, &bytes)
}

/// The bytes of a tag that can be written.
fn write_within(
    alloc: Global,
    frames: &[TextFrame],
    picture: Option<&PictureFront>,
) -> Result<Vec<u8>, TagError>
    ensures written { IfOk result (λ bytes. bytes.items ≡ written frames.now (option_copied picture.entry)) }
    ensures allowed { OnOk result (can_write frames.now (option_copied picture.entry) ≡ true) }
    ensures refused { IsErrOf result TagError.Unwritable → can_write frames.now (option_copied picture.entry) ≡ false }
{
    if frames.len() >= MAX_FRAMES || !are_writable(alloc, frames)? {
        return Err(TagError::Unwritable);
    }
    match picture {
        Some(picture) if !is_writable_picture(picture) => Err(TagError::Unwritable),
        Some(picture) => write_both(alloc, frames, picture),
        None => write_texts(alloc, frames),
    }
}

/// The bytes of an ID3v2.4 tag of these text frames and this picture, up to the picture's own bytes, which stand
/// behind them: UTF-8, without unsynchronisation.
///
/// `Unwritable` says that a frame is no text frame or comment, that a value or a description isn't the text of a tag,
/// that a text frame has more than `MAX_TEXT_LEN` bytes, that there are `MAX_FRAMES` text frames or more, or that the
/// size of the tag is `MAX_SIZE` or more.
pub fn write_tag(
    alloc: Global,
    frames: &[TextFrame],
    picture: Option<&PictureFront>,
) -> Result<Vec<u8>, TagError>
    ensures written { IfOk result (λ bytes. bytes.items ≡ written frames.now (option_copied picture.entry)) }
    ensures allowed { OnOk result (can_write frames.now (option_copied picture.entry) ≡ true) }
    // Wherever the bytes stand in a file with the picture's behind them, the tag is read as it was given.
    ensures read_back { IfOk result (λ bytes. IsReadBack frames.now (option_copied picture.entry) bytes.items) }
    ensures refused { IsErrOf result TagError.Unwritable → can_write frames.now (option_copied picture.entry) ≡ false }
{
    write_within(alloc, frames, picture)
}
