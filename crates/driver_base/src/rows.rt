//! The rows of a scan, which lines collect for its next batches.
use crate::fault::Fault;
use crate::words::{first_word, number};
use song_db::{MAX_CHANGES, RowChange, SongRow, Uri};
use song_files::{TAG_COUNT, Tag, Tags, tag_text};
use state_codec::Changes;
use std::alloc::{AllocError, Global};
use std::mem;
use wave_pcm::WaveInfo;

fn tag_of(name: &str) -> Result<Tag, Fault> {
    for number in 0..TAG_COUNT {
        let tag = Tag::at(number);
        if tag.name() == name {
            return Ok(tag);
        }
    }
    Err(Fault::NoRow)
}

/// The names of tags, each with its text behind it, in which `_` stands for a space.
fn tags_of(alloc: Global, text: &str) -> Result<Tags, Fault> {
    let mut tags = Tags::new(alloc);
    let mut named = None;
    for word in text.split_whitespace() {
        match named {
            Some(tag) => {
                let text = word.replace(alloc, '_', " ")?;
                tags.add(tag, tag_text(text.as_bytes()).ok_or(Fault::NoRow)?)?;
                named = None;
            }
            None => named = Some(tag_of(word)?),
        }
    }
    if named.is_some() {
        return Err(Fault::NoRow);
    }
    Ok(tags)
}

pub fn uri_of(alloc: Global, text: &str) -> Result<Uri, Fault> {
    match Uri::read(alloc, text)? {
        Some(uri) => Ok(uri),
        None => Err(Fault::NoRow),
    }
}

/// The row of a URI, a count of frames, of 8,000 a second on one channel, and tags.
fn row_of(alloc: Global, text: &str) -> Result<SongRow, Fault> {
    let (uri, rest) = first_word(text);
    let (frames, tags) = first_word(rest);
    let uri = uri_of(alloc, uri)?;
    let info = WaveInfo {
        rate: 8_000,
        channels: 1,
        first_byte: 44,
        frames: number(frames)?,
        tags: tags_of(alloc, tags)?,
    };
    match SongRow::new(alloc, uri, info, None)? {
        Some(row) => Ok(row),
        None => Err(Fault::NoRow),
    }
}

/// Collects a row.
pub fn put(collected: &mut Vec<RowChange>, alloc: Global, text: &str) -> Result<(), Fault> {
    let row = row_of(alloc, text)?;
    Ok(collected.push(RowChange::Put(row))?)
}

/// Collects that a row goes.
pub fn drop_row(collected: &mut Vec<RowChange>, alloc: Global, uri: &str) -> Result<(), Fault> {
    let uri = uri_of(alloc, uri)?;
    Ok(collected.push(RowChange::Drop(uri))?)
}

// Takes the first of what was collected, as many as a batch may have.
fn first_batch(collected: &mut Vec<RowChange>) -> Result<Vec<RowChange>, AllocError> {
    let rest = collected.split_off(collected.len().min(MAX_CHANGES))?;
    Ok(mem::replace(collected, rest))
}

/// The changes of the next batch, out of what was collected.
pub fn batch_of(collected: &mut Vec<RowChange>) -> Result<Changes, Fault> {
    Changes::new(first_batch(collected)?).ok_or(Fault::NoRow)
}
