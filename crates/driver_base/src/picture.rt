//! What was read of a picture, as a line of the input says it.
use crate::fault::Fault;
use crate::words::{first_number, first_word, number};
use covers::{PictureAnswer, PictureAsk, PictureChunk, PictureKind};
use daemon_core::PictureTold;
use std::alloc::Global;

fn kind_of(word: &str) -> Result<PictureKind, Fault> {
    match word {
        "album" => Ok(PictureKind::Album),
        "inside" => Ok(PictureKind::Inside),
        _ => Err(Fault::NoDirective),
    }
}

// A chunk: the size of the picture, its type, `-` for none, and the text whose bytes it has.
fn chunk_of(alloc: Global, size: &str, rest: &str) -> Result<PictureChunk, Fault> {
    let (mime, text) = first_word(rest);
    let mime = if mime == "-" { "" } else { mime };
    Ok(PictureChunk {
        size: number(size)?,
        mime: String::from_str(alloc, mime)?,
        bytes: Vec::from_slice(alloc, text.as_bytes())?,
    })
}

fn answer_of(alloc: Global, text: &str) -> Result<PictureAnswer, Fault> {
    let (word, rest) = first_word(text);
    match word {
        "none" => Ok(PictureAnswer::NoPicture),
        "unread" => Ok(PictureAnswer::Unreadable),
        "past" => Ok(PictureAnswer::PastEnd),
        size => Ok(PictureAnswer::Chunk(chunk_of(alloc, size, rest)?)),
    }
}

/// What was asked of a picture, `album` or `inside` with a URI without spaces and an offset, and what was answered: `none`, `unread`,
/// `past`, or a chunk.
pub(crate) fn picture_of(alloc: Global, text: &str) -> Result<PictureTold, Fault> {
    let (word, rest) = first_word(text);
    let kind = kind_of(word)?;
    let (uri, rest) = first_word(rest);
    let (offset, rest) = first_number(rest)?;
    let ask = PictureAsk {
        kind,
        uri: String::from_str(alloc, uri)?,
        offset: u32::try_from(offset).unwrap_or(u32::MAX),
        limit: u32::MAX,
    };
    let answer = answer_of(alloc, rest)?;
    Ok(PictureTold { ask, answer })
}
