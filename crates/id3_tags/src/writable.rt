// What can be written.
ghost use Rattle.std.specs.Prelude.{◌≡◌, ◌==◌, not, string_bytes, map, IfOk};
ghost use Rattle.std.specs.List.{list_all};
ghost use Rattle.id3_tags.specs.Texts.{is_described};
ghost use Rattle.id3_tags.specs.Writing.{WrittenText, has_no_zero, is_string, is_string_or_none, has_fit_description, has_texts};
ghost use Rattle.id3_tags.specs.Writing.{is_writable};
ghost use Rattle.id3_tags.specs.Writing.{is_writable_picture};

use crate::frame_head::is_id;
use crate::limits::MAX_TEXT_LEN;
use crate::texts::{is_described, is_owned, is_text};
use crate::writer::{PictureFront, TextFrame, text_data};
use song_files::is_tag_text;
use std::alloc::{AllocError, Global};

/// Whether no byte is zero.
fn has_no_zero(bytes: &[u8]) -> bool
    ensures { result ≡ has_no_zero bytes.now }
{
    bytes.iter().all(|b| !(*b == 0))
}

/// Whether this is the text of a tag, and has no zero.
fn is_string(text: &str) -> bool
    ensures { result ≡ is_string text.now }
{
    is_tag_text(text) && has_no_zero(text.as_bytes())
}

/// The same, or an empty text.
fn is_string_or_none(text: &str) -> bool
    ensures { result ≡ is_string_or_none text.now }
{
    text.is_empty() || is_string(text)
}

/// Whether the description is one, or none where the frame has none.
fn has_fit_description(frame: &TextFrame) -> bool
    ensures { result ≡ has_fit_description frame.now }
{
    if is_described(frame.id) {
        is_string_or_none(frame.description.as_str())
    } else {
        frame.description.as_str().is_empty()
    }
}

/// Whether each of these is the text of a tag.
fn are_strings(texts: &[String]) -> bool
    ensures { result ≡ list_all is_string (map string_bytes texts.now) }
{
    for text in texts {
        if !is_string(text.as_str()) {
            return false;
        }
    }
    true
}

/// Whether the frame is a text frame or a comment whose values are texts of tags.
fn has_texts(frame: &TextFrame) -> bool
    ensures { result ≡ has_texts frame.now }
{
    is_id(&frame.id)
        && is_text(frame.id)
        && !is_owned(frame.id)
        && has_fit_description(frame)
        && are_strings(&frame.values)
}

/// Whether the frame can be written, and isn't too long to be read.
fn is_writable(alloc: Global, frame: &TextFrame) -> Result<bool, AllocError>
    ensures { IfOk result (λ fits. fits ≡ is_writable frame.now) }
{
    if !has_texts(frame) {
        return Ok(false);
    }
    let body = text_data(alloc, frame)?;
    Ok(body.len() as u64 <= MAX_TEXT_LEN)
}

/// Whether each frame can be written.
pub fn are_writable(alloc: Global, frames: &[TextFrame]) -> Result<bool, AllocError>
    ensures { IfOk result (λ fit. fit ≡ list_all is_writable frames.now) }
{
    for frame in frames {
        if !is_writable(alloc, frame)? {
            return Ok(false);
        }
    }
    Ok(true)
}

/// Whether the texts of the picture can be written.
pub fn is_writable_picture(picture: &PictureFront) -> bool
    ensures { result ≡ is_writable_picture picture.now }
{
    is_string(picture.mime.as_str()) && is_string_or_none(picture.description.as_str())
}
