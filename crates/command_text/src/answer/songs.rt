//! The lines of a song, and of an entry of the queue (MPD protocol reference 0.23, "Other Metadata").
ghost use Rattle.play_queue.specs.Shown.{shown};
ghost use Rattle.command_text.specs.Answer.{Adds, pair};
ghost use Rattle.command_text.specs.AnswerSongs.{file_line, modified_line, head_lines, format_text, tag_line, shown_line, named_file_lines};
ghost use Rattle.command_text.specs.AnswerSongs.{size_line};
ghost use Rattle.command_text.specs.AnswerSongs.{tag_lines, song_lines, priority_line, entry_lines};
ghost use Rattle.command_text.specs.AnswerSongs.{place_lines, id_line, numbered_file};

use crate::answer::dates::write_time;
use crate::answer::pairs::{append, write_joined, write_number, write_pair, write_position_and_id};
use crate::answer::times::{write_exact_seconds, write_whole_seconds};
use crate::tag_mask::TagMask;
use filter_expr::known_time;
use itoa::Buffer;
use no_memory::NoMemory;
use play_queue::EntryRef;
use song_db::SongRow;
use song_files::{FileStamp, Tag, Tags};
use wave_pcm::WaveInfo;

/// Adds the line `file: URI`.
pub fn write_file(out: &mut Vec<u8>, uri: &str) -> Result<(), NoMemory>
    ensures { Adds (file_line uri.now) result out.old out.new }
{
    write_pair(out, "file", uri.as_bytes())
}

/// Adds the line `Last-Modified` of a time that is known.
fn write_modified(out: &mut Vec<u8>, time: Option<u64>) -> Result<(), NoMemory>
    ensures { Adds (modified_line time) result out.old out.new }
{
    match time {
        None => Ok(()),
        Some(time) => write_time(out, "Last-Modified", time),
    }
}

/// Adds the line `size: BYTES` of a file of which that is known.
fn write_size(out: &mut Vec<u8>, stamp: Option<FileStamp>) -> Result<(), NoMemory>
    ensures { Adds (size_line stamp) result out.old out.new }
{
    match stamp {
        None => Ok(()),
        Some(stamp) => write_number(out, "size", stamp.length),
    }
}

/// Adds the lines of a song's file by its name in its folder: `file`, and where they are known `size` and `Last-Modified`.
pub fn write_named_file(out: &mut Vec<u8>, name: &[u8], row: &SongRow) -> Result<(), NoMemory>
    ensures { Adds (named_file_lines name.now row.now) result out.old out.new }
{
    let stamp = row.stamp();
    write_pair(out, "file", name)?;
    write_size(out, stamp)?;
    write_modified(out, known_time(stamp))
}

/// Adds the lines of a song's file.
fn write_head(out: &mut Vec<u8>, row: &SongRow) -> Result<(), NoMemory>
    ensures { Adds (head_lines row.now) result out.old out.new }
{
    write_file(out, row.uri())?;
    write_modified(out, known_time(row.stamp()))
}

/// Adds the line of a format, `key: RATE:16:CHANNELS`.
pub(crate) fn write_format(out: &mut Vec<u8>, key: &str, info: &WaveInfo) -> Result<(), NoMemory>
    ensures { Adds (pair key.now (format_text info.now.rate info.now.channels)) result out.old out.new }
{
    let mut rate = Buffer::new();
    let mut channels = Buffer::new();
    write_joined(
        out,
        key,
        rate.format(info.rate).as_bytes(),
        b":16:",
        channels.format(info.channels).as_bytes(),
    )
}

/// Adds the line `TAG: TEXT`.
fn write_tag(out: &mut Vec<u8>, tag: Tag, text: &str) -> Result<(), NoMemory>
    ensures { Adds (tag_line (record { tag = tag; text = text.now })) result out.old out.new }
{
    write_pair(out, tag.name(), text.as_bytes())
}

/// Adds the line of a text, if the client sees its tag.
fn write_shown(out: &mut Vec<u8>, mask: TagMask, tag: Tag, text: &str) -> Result<(), NoMemory>
    ensures { Adds (shown_line mask (record { tag = tag; text = text.now })) result out.old out.new }
{
    if mask.contains(tag) {
        write_tag(out, tag, text)
    } else {
        Ok(())
    }
}

/// Adds a line for each text of a song's tags that the client sees.
fn write_tags(out: &mut Vec<u8>, mask: TagMask, tags: &Tags) -> Result<(), NoMemory>
    ensures { Adds (tag_lines mask tags.now) result out.old out.new }
{
    for at in 0..tags.len() {
        let (tag, text) = tags.at(at);
        write_shown(out, mask, tag, text)?;
    }
    Ok(())
}

/// Adds the lines of a song: `file`, `Last-Modified` where that is known, `Format`, those of its tags that the client sees, `Time` and
/// `duration`.
pub fn write_song(out: &mut Vec<u8>, mask: TagMask, row: &SongRow) -> Result<(), NoMemory>
    ensures { Adds (song_lines mask row.now) result out.old out.new }
{
    write_head(out, row)?;
    write_format(out, "Format", row.info())?;
    write_tags(out, mask, row.tags())?;
    let milliseconds = row.milliseconds();
    write_whole_seconds(out, "Time", milliseconds)?;
    write_exact_seconds(out, "duration", milliseconds)
}

/// Adds the line of a priority, if it isn't 0.
fn write_priority(out: &mut Vec<u8>, priority: u8) -> Result<(), NoMemory>
    ensures { Adds (priority_line priority) result out.old out.new }
{
    if priority == 0 {
        return Ok(());
    }
    write_number(out, "Prio", priority)
}

/// Adds the lines of an entry at a position of the queue: those of its song, `Pos`, `Id`, and `Prio` where it isn't 0.
pub fn write_entry(
    out: &mut Vec<u8>,
    mask: TagMask,
    row: &SongRow,
    position: usize,
    entry: &EntryRef<'_>,
) -> Result<(), NoMemory>
    ensures { Adds (entry_lines mask row.now position (shown entry.now)) result out.old out.new }
{
    write_song(out, mask, row)?;
    write_number(out, "Pos", position)?;
    write_number(out, "Id", entry.id)?;
    write_priority(out, entry.priority)
}

/// Adds the lines `cpos` and `Id` of an entry that changed.
pub fn write_place(out: &mut Vec<u8>, position: usize, id: u32) -> Result<(), NoMemory>
    ensures { Adds (place_lines position id) result out.old out.new }
{
    write_position_and_id(out, "cpos", position, "Id", id)
}

/// Adds the line `N:file: URI` of the entry at a position.
pub fn write_numbered_file(out: &mut Vec<u8>, position: usize, uri: &str) -> Result<(), NoMemory>
    ensures { Adds (numbered_file position uri.now) result out.old out.new }
{
    let mut digits = Buffer::new();
    append(
        out,
        &[
            digits.format(position).as_bytes(),
            b":file: ",
            uri.as_bytes(),
            b"\n",
        ],
    )
}

/// Adds the line `Id: ID` of an entry that was added.
pub fn write_id(out: &mut Vec<u8>, id: u32) -> Result<(), NoMemory>
    ensures { Adds (id_line id) result out.old out.new }
{
    write_number(out, "Id", id)
}
