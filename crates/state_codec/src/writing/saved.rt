// The parts of a snapshot, appended to room that was taken before.
ghost use Rattle.std.specs.Prelude.{◌≡◌, ◌+◌, ◌*◌, ◌≤◌, ◌<◌, Some, IsTrue, length};
ghost use Rattle.std.specs.List.{All, AllByRecursion, flat_map};
ghost use Rattle.song_db.specs.Change.{has_uri};
ghost use Rattle.song_db.specs.Query.{number_at};
ghost use Rattle.play_queue.specs.Shown.{shown};
ghost use Rattle.stickers.specs.Sticker.{in_song, sticker};
ghost use Rattle.state_codec.specs.Appended.{HasRoom, Appends, IsShortList, IsShortSticker};
ghost use Rattle.state_codec.specs.SavedState.{IsSavedEntry};
ghost use Rattle.state_codec.specs.Spelling.{options_bytes, head_bytes, entry_bytes, playlist_bytes, sticker_bytes};
ghost use Rattle.state_codec.specs.SpellingFields.{text_bytes, list_bytes};
ghost use Rattle.state_codec.specs.SpellingRows.{row_bytes};

use super::bytes::{put_byte, put_bytes, put_text, put_u32, put_u64};
use super::ops::{flag_byte, put_uri, single_byte};
use super::rows::put_row;
use crate::saved::Saved;
use play_queue::{Entries, EntryRef, Queue};
use player_core::Options;
use profile::Profile;
use song_db::{RowUri, SongDb, SongRow, Uri};
use stickers::{SongStickers, Stickers};
use stored_lists::{Lists, Songs};

fn put_options(out: &mut Vec<u8>, options: Options)
    requires { HasRoom out.old 4 }
    ensures { Appends out.old out.new (options_bytes options) }
{
    put_byte(out, flag_byte(options.repeat));
    put_byte(out, flag_byte(options.random));
    put_byte(out, single_byte(options.single));
    put_byte(out, single_byte(options.consume));
}

/// Appends what stands in front of the parts: 53 bytes.
pub(crate) fn put_head(out: &mut Vec<u8>, saved: &Saved)
    requires { HasRoom out.old 53 }
    ensures { Appends out.old out.new (head_bytes saved.now) }
{
    let queue = saved.queue();
    put_bytes(out, &saved.key());
    put_u64(out, saved.order());
    put_u32(out, queue.version());
    put_u32(out, queue.next_id());
    put_byte(out, saved.volume().percent());
    put_options(out, saved.options());
}

fn put_rows(out: &mut Vec<u8>, profile: Profile, rows: &[SongRow])
    requires { HasRoom out.old (length (flat_map (row_bytes profile) rows.now)) }
    ensures { Appends out.old out.new (flat_map (row_bytes profile) rows.now) }
{
    for row in rows {
        put_row(out, profile, row);
    }
}

/// Appends the rows.
pub(crate) fn put_songs(out: &mut Vec<u8>, profile: Profile, songs: &SongDb)
    requires { HasRoom out.old (length (list_bytes (row_bytes profile) songs.now)) }
    ensures { Appends out.old out.new (list_bytes (row_bytes profile) songs.now) }
{
    put_u32(out, songs.len() as u32);
    put_rows(out, profile, songs.rows());
}

// The number of the row of a URI that has one.
pub(crate) fn row_number(songs: &SongDb, uri: &RowUri) -> usize
    requires { IsTrue (has_uri songs.now uri.now) }
    ensures number { number_at songs.now uri.now ≡ Some result }
    ensures within { result < 65536 }
{
    match songs.number_of(uri) {
        Ok(number) => number,
        Err(_) => unreachable!(),
    }
}

pub(crate) fn put_entry(out: &mut Vec<u8>, songs: &SongDb, entry: EntryRef<'_>, number: usize)
    requires number { number_at songs.now (shown entry).uri ≡ Some number }
    requires within { number < 65536 }
    requires room { HasRoom out.old 13 }
    ensures { Appends out.old out.new (entry_bytes songs.now (shown entry.entry)) }
{
    put_u32(out, entry.id);
    put_u32(out, number as u32);
    put_byte(out, entry.priority);
    put_u32(out, entry.stamp);
}

fn put_entries(out: &mut Vec<u8>, songs: &SongDb, entries: &Entries)
    requires rows { All (IsSavedEntry songs.now) entries.now }
    requires room { HasRoom out.old (13 * length entries.now) }
    ensures { Appends out.old out.new (flat_map (entry_bytes songs.now) entries.now) }
{
    for at in 0..entries.len() {
        let entry = entries.at(at);
        put_entry(out, songs, entry, row_number(songs, entry.uri));
    }
}

/// Appends the entries of the queue, of which each takes 13 bytes.
pub(crate) fn put_queue(out: &mut Vec<u8>, songs: &SongDb, queue: &Queue)
    requires rows { All (IsSavedEntry songs.now) queue.now.entries }
    requires room { HasRoom out.old (4 + 13 * length queue.now.entries) }
    ensures { Appends out.old out.new (list_bytes (entry_bytes songs.now) queue.now.entries) }
{
    let entries = queue.entries();
    put_u32(out, entries.len() as u32);
    put_entries(out, songs, entries);
}

fn put_uris(out: &mut Vec<u8>, uris: &[Uri])
    requires { HasRoom out.old (length (flat_map text_bytes uris.now)) }
    ensures { Appends out.old out.new (flat_map text_bytes uris.now) }
{
    for uri in uris {
        put_uri(out, uri);
    }
}

fn put_playlist(out: &mut Vec<u8>, name: &str, songs: &Songs)
    requires short { IsShortList (name.now, songs.now) }
    requires room { HasRoom out.old (length (playlist_bytes (name.now, songs.now))) }
    ensures { Appends out.old out.new (playlist_bytes (name.now, songs.now)) }
{
    put_text(out, name);
    put_u32(out, songs.len() as u32);
    put_uris(out, songs.as_slice());
}

fn put_all_lists(out: &mut Vec<u8>, lists: &Lists)
    requires { HasRoom out.old (length (flat_map playlist_bytes lists.now)) }
    ensures { Appends out.old out.new (flat_map playlist_bytes lists.now) }
{
    let _within = lists.len();
    for (name, songs) in lists.iter() {
        put_playlist(out, name, songs);
    }
}

/// Appends the playlists.
pub(crate) fn put_lists(out: &mut Vec<u8>, lists: &Lists)
    requires { HasRoom out.old (length (list_bytes playlist_bytes lists.now)) }
    ensures { Appends out.old out.new (list_bytes playlist_bytes lists.now) }
{
    put_u32(out, lists.len() as u32);
    put_all_lists(out, lists);
}

pub(crate) fn put_sticker(out: &mut Vec<u8>, uri: &str, name: &str, value: &str)
    requires short { IsShortSticker (sticker uri.now (name.now, value.now)) }
    requires room { HasRoom out.old (length (sticker_bytes (sticker uri.now (name.now, value.now)))) }
    ensures { Appends out.old out.new (sticker_bytes (sticker uri.now (name.now, value.now))) }
{
    put_text(out, uri);
    put_text(out, name);
    put_text(out, value);
}

// Appends the stickers of one song.
fn put_song(out: &mut Vec<u8>, uri: &str, song: &SongStickers)
    requires short { AllByRecursion IsShortSticker (in_song (uri.now, song.now)) }
    requires room { HasRoom out.old (length (flat_map sticker_bytes (in_song (uri.now, song.now)))) }
    ensures { Appends out.old out.new (flat_map sticker_bytes (in_song (uri.now, song.now))) }
{
    for (name, value) in song.iter() {
        put_sticker(out, uri, name, value.as_str());
    }
}

fn put_all_stickers(out: &mut Vec<u8>, stickers: &Stickers)
    requires { HasRoom out.old (length (flat_map sticker_bytes stickers.now)) }
    ensures { Appends out.old out.new (flat_map sticker_bytes stickers.now) }
{
    let _within = stickers.len();
    for (uri, song) in stickers.iter() {
        put_song(out, uri, song);
    }
}

/// Appends the stickers.
pub(crate) fn put_stickers(out: &mut Vec<u8>, stickers: &Stickers)
    requires { HasRoom out.old (length (list_bytes sticker_bytes stickers.now)) }
    ensures { Appends out.old out.new (list_bytes sticker_bytes stickers.now) }
{
    put_u32(out, stickers.len() as u32);
    put_all_stickers(out, stickers);
}
