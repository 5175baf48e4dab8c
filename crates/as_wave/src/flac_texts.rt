// The text frames of Vorbis comments.
ghost use Rattle.std.specs.Prelude.{◌≡◌, ◌++◌, string_bytes, option_copied, option_to_list, IfOk, OnOk};
ghost use Rattle.as_wave.specs.FlacRows.{frame_of};
ghost use Rattle.as_wave.specs.FlacTag.{is_total, total_in, has_slash, with_total, numbered, value_in, text_with, text_for, comment_texts, mark, texts_for};

use crate::flac_names::{FrameRow, frame_named};
use flac::Comment;
use id3_tags::TextFrame;
use song_files::is_tag_text;
use std::alloc::{AllocError, Global};

/// Whether the comment is the number of tracks.
fn is_total(comment: &Comment) -> bool
    ensures { result ≡ is_total comment.now }
{
    comment.name() == "TRACKTOTAL" || comment.name() == "TOTALTRACKS"
}

/// The number of tracks, if the comments tell it.
fn total_in(comments: &[Comment]) -> Option<&str>
    ensures { option_copied result ≡ total_in comments.now }
{
    for comment in comments {
        if is_total(comment) {
            return Some(comment.value());
        }
    }
    None
}

fn has_slash(text: &str) -> bool
    ensures { result ≡ has_slash text.now }
{
    text.as_bytes().iter().any(|b| *b == b'/')
}

/// The number with the total behind a slash, or alone where that is too long for the text of a tag.
fn with_total(alloc: Global, number: &str, total: &str) -> Result<String, AllocError>
    ensures { IfOk result (λ text. string_bytes text ≡ with_total number.now total.now) }
{
    let mut text = String::from_str(alloc, number)?;
    text.push_str("/")?;
    text.push_str(total)?;
    if is_tag_text(text.as_str()) {
        return Ok(text);
    }
    String::from_str(alloc, number)
}

/// The number of a track, with the total if that is told elsewhere.
fn numbered(alloc: Global, total: Option<&str>, number: &str) -> Result<String, AllocError>
    ensures { IfOk result (λ text. string_bytes text ≡ numbered (option_copied total.entry) number.now) }
{
    match total {
        Some(total) if !has_slash(number) => with_total(alloc, number, total),
        _ => String::from_str(alloc, number),
    }
}

/// The value of a frame.
fn value_in(
    alloc: Global,
    total: Option<&str>,
    row: FrameRow,
    value: &str,
) -> Result<String, AllocError>
    ensures { IfOk result (λ text. string_bytes text ≡ value_in (option_copied total.entry) (frame_of row) value.now) }
{
    if row.1 == *b"TRCK" {
        numbered(alloc, total, value)
    } else {
        String::from_str(alloc, value)
    }
}

/// A frame with one value.
fn text_with(
    alloc: Global,
    total: Option<&str>,
    value: &str,
    row: FrameRow,
) -> Result<TextFrame, AllocError>
    ensures { IfOk result (λ frame. frame ≡ text_with (option_copied total.entry) value.now (frame_of row)) }
{
    let value = value_in(alloc, total, row, value)?;
    let description = String::from_str(alloc, row.2)?;
    let mut values = Vec::new(alloc);
    values.push(value)?;
    Ok(TextFrame {
        id: row.1,
        description,
        values,
    })
}

/// Adds the frame of a comment, if it has one.
fn add_text(
    alloc: Global,
    total: Option<&str>,
    comment: &Comment,
    frames: &mut Vec<TextFrame>,
) -> Result<(), AllocError>
    ensures { OnOk result (frames.new.items ≡ frames.old.items
        ++ option_to_list (text_for (option_copied total.entry) comment.now)) }
{
    if let Some(row) = frame_named(comment.name()) {
        frames.push(text_with(alloc, total, comment.value(), row)?)?;
    }
    Ok(())
}

/// What says that the texts are Vorbis comments: they are told as they stand, and some by their names.
fn mark(alloc: Global) -> Result<TextFrame, AllocError>
    ensures { IfOk result (λ frame. frame ≡ mark) }
{
    let value = String::from_str(alloc, "FLAC")?;
    let description = String::from_str(alloc, "Vorbis comments")?;
    let mut values = Vec::new(alloc);
    values.push(value)?;
    Ok(TextFrame {
        id: *b"TXXX",
        description,
        values,
    })
}

/// The frames of the comments that have one, in their order, and the mark.
pub fn texts_for(alloc: Global, comments: &[Comment]) -> Result<Vec<TextFrame>, AllocError>
    ensures { IfOk result (λ frames. frames.items ≡ texts_for comments.now) }
{
    let mut frames = comment_texts(alloc, comments)?;
    frames.push(mark(alloc)?)?;
    Ok(frames)
}

/// The frames of the comments that have one.
fn comment_texts(alloc: Global, comments: &[Comment]) -> Result<Vec<TextFrame>, AllocError>
    ensures { IfOk result (λ frames. frames.items ≡ comment_texts comments.now) }
{
    let total = total_in(comments);
    let mut frames = Vec::new(alloc);
    for comment in comments {
        add_text(alloc, total, comment, &mut frames)?;
    }
    Ok(frames)
}
