// The lines of what a command found, one after the other.
ghost use Rattle.std.specs.Prelude.{◌++◌, map, option_copied};
ghost use Rattle.std.specs.List.{flat_map};
ghost use Rattle.command_text.specs.Answer.{Adds, pair};
ghost use Rattle.command_text.specs.AnswerNames.{directory_line, sticker_line};
ghost use Rattle.command_text.specs.AnswerSongs.{song_lines};
ghost use Rattle.stickers.specs.Sticker.{stickers_of};
ghost use Rattle.machine_core.specs.Stickers.{found_lines, song_found, song_stickers};

use command_text::{NoMemory, TagMask, write_file, write_pair, write_song, write_sticker};
use song_db::{SongRow, Texts};
use stickers::{Found, SongStickers, StickerValue, Stickers};

// Adds a line `key: TEXT` for each text.
pub(crate) fn write_texts(out: &mut Vec<u8>, key: &str, texts: &Texts<'_>) -> Result<(), NoMemory>
    ensures { Adds (flat_map (pair key.now) texts.now) result out.old out.new }
{
    for text in texts.iter() {
        write_pair(out, key, text.as_bytes())?;
    }
    Ok(())
}

// Adds songs.
pub(crate) fn write_songs(
    out: &mut Vec<u8>,
    mask: TagMask,
    songs: &[&SongRow],
) -> Result<(), NoMemory>
    ensures { Adds (flat_map (song_lines mask) (map (λ song. song.now) songs.now)) result out.old out.new }
{
    for song in songs {
        write_song(out, mask, *song)?;
    }
    Ok(())
}

// Adds folders, and then songs.
pub(crate) fn write_content(
    out: &mut Vec<u8>,
    mask: TagMask,
    folders: &Texts<'_>,
    songs: &[&SongRow],
) -> Result<(), NoMemory>
    ensures { Adds (flat_map directory_line folders.now ++ flat_map (song_lines mask) (map (λ song. song.now) songs.now))
        result out.old out.new }
{
    write_texts(out, "directory", folders)?;
    write_songs(out, mask, songs)
}

fn write_named(out: &mut Vec<u8>, song: &SongStickers) -> Result<(), NoMemory>
    ensures { Adds (flat_map (λ named. sticker_line named.0 named.1) song.now) result out.old out.new }
{
    for (name, value) in song.iter() {
        write_sticker(out, name, value.as_str())?;
    }
    Ok(())
}

// Adds the stickers of a song.
pub(crate) fn write_stickers(
    out: &mut Vec<u8>,
    stickers: &Stickers,
    uri: &str,
) -> Result<(), NoMemory>
    ensures { Adds (song_stickers (stickers_of stickers.now uri.now)) result out.old out.new }
{
    match stickers.list(uri) {
        Some(song) => write_named(out, song),
        None => Ok(()),
    }
}

fn write_one_found(out: &mut Vec<u8>, uri: &str, name: &str, value: &str) -> Result<(), NoMemory>
    ensures { Adds (found_lines name.now (uri.now, value.now)) result out.old out.new }
{
    write_file(out, uri)?;
    write_sticker(out, name, value)
}

// Adds a song with the value of its sticker, if it has one.
pub(crate) fn write_found_song(
    out: &mut Vec<u8>,
    uri: &str,
    name: &str,
    value: Option<&StickerValue>,
) -> Result<(), NoMemory>
    ensures { Adds (song_found uri.now name.now (option_copied value.entry)) result out.old out.new }
{
    match value {
        Some(value) => write_one_found(out, uri, name, value.as_str()),
        None => Ok(()),
    }
}

// Adds the songs that were found, each with the value of its sticker.
pub(crate) fn write_found(out: &mut Vec<u8>, name: &str, found: &Found<'_>) -> Result<(), NoMemory>
    ensures { Adds (flat_map (found_lines name.now) found.now) result out.old out.new }
{
    for song in found.iter() {
        write_one_found(out, song.uri, name, song.value)?;
    }
    Ok(())
}
