//! The lines and bytes of a picture (MPD protocol reference 0.23, "Binary Responses").
ghost use Rattle.std.specs.Prelude.{option_copied};
ghost use Rattle.command_text.specs.Answer.{Adds};
ghost use Rattle.command_text.specs.AnswerPictures.{picture_lines, type_line};

use crate::answer::pairs::{append, write_number, write_pair};
use no_memory::NoMemory;

fn write_type(out: &mut Vec<u8>, mime: Option<&str>) -> Result<(), NoMemory>
    ensures { Adds (type_line (option_copied mime.entry)) result out.old out.new }
{
    match mime {
        Some(mime) => write_pair(out, "type", mime.as_bytes()),
        None => Ok(()),
    }
}

/// Adds what is told of a picture of so many bytes, with its MIME type where that is told: its size, and these bytes of it.
pub fn write_picture(
    out: &mut Vec<u8>,
    size: u64,
    mime: Option<&str>,
    bytes: &[u8],
) -> Result<(), NoMemory>
    ensures { Adds (picture_lines size (option_copied mime.entry) bytes.now) result out.old out.new }
{
    write_number(out, "size", size)?;
    write_type(out, mime)?;
    write_number(out, "binary", bytes.len())?;
    append(out, &[bytes, b"\n"])
}
