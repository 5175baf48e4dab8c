// How many bytes a snapshot takes, so that room for all of it is taken at once.
ghost use Rattle.std.specs.Prelude.{◌≡◌, ◌+◌, ◌*◌, ◌≤◌, ◌<◌, ◌^◌, length};
ghost use Rattle.std.specs.List.{AllByRecursion, flat_map};
ghost use Rattle.stickers.specs.Sticker.{in_song, sticker};
ghost use Rattle.state_codec.specs.Appended.{IsShortList, IsShortSticker};
ghost use Rattle.state_codec.specs.SavedState.{IsSavedState};
ghost use Rattle.state_codec.specs.Spelling.{fields_of, playlist_bytes, sticker_bytes, saved_bytes};
ghost use Rattle.state_codec.specs.SpellingFields.{text_bytes};
ghost use Rattle.state_codec.specs.SpellingRows.{row_bytes};

use super::bytes::text_len;
use super::ops::uri_len;
use super::rows::row_len;
use super::times::all_fields_len;
use crate::saved::Saved;
use crate::sealed::checksum_len;
use profile::Profile;
use song_db::{SongRow, Uri};
use stickers::{SongStickers, Stickers};
use stored_lists::{Lists, Songs};

fn rows_len(profile: Profile, rows: &[SongRow]) -> usize
    requires { length rows.now ≤ 65536 }
    ensures len { result ≡ length (flat_map (row_bytes profile) rows.now) }
    ensures within { result < 2 ^ 40 }
{
    let mut len = 0;
    for row in rows {
        len += row_len(profile, row);
    }
    len
}

fn uris_len(uris: &[Uri]) -> usize
    requires { length uris.now ≤ 65536 }
    ensures len { result ≡ length (flat_map text_bytes uris.now) }
    ensures within { result < 2 ^ 40 }
{
    let mut len = 0;
    for uri in uris {
        len += uri_len(uri);
    }
    len
}

fn playlist_len(name: &str, songs: &Songs) -> usize
    requires { IsShortList (name.now, songs.now) }
    ensures len { result ≡ length (playlist_bytes (name.now, songs.now)) }
    ensures within { result < 2 ^ 41 }
{
    text_len(name) + (4 + uris_len(songs.as_slice()))
}

fn lists_len(lists: &Lists) -> usize
    ensures len { result ≡ length (flat_map playlist_bytes lists.now) }
    ensures within { result < 2 ^ 40 }
{
    let _within = lists.len();
    let mut len = 0;
    for (name, songs) in lists.iter() {
        len += playlist_len(name, songs);
    }
    len
}

fn sticker_len(uri: &str, name: &str, value: &str) -> usize
    requires { IsShortSticker (sticker uri.now (name.now, value.now)) }
    ensures len { result ≡ length (sticker_bytes (sticker uri.now (name.now, value.now))) }
    ensures within { result < 2 ^ 40 }
{
    text_len(uri) + (text_len(name) + text_len(value))
}

// How many bytes the stickers of one song take.
fn song_len(uri: &str, song: &SongStickers) -> usize
    requires short { AllByRecursion IsShortSticker (in_song (uri.now, song.now)) }
    requires within { length (flat_map sticker_bytes (in_song (uri.now, song.now))) < 2 ^ 40 }
    ensures { result ≡ length (flat_map sticker_bytes (in_song (uri.now, song.now))) }
{
    let mut len = 0;
    for (name, value) in song.iter() {
        len += sticker_len(uri, name, value.as_str());
    }
    len
}

fn stickers_len(stickers: &Stickers) -> usize
    ensures len { result ≡ length (flat_map sticker_bytes stickers.now) }
    ensures within { result < 2 ^ 40 }
{
    let _within = stickers.len();
    let mut len = 0;
    for (uri, song) in stickers.iter() {
        len += song_len(uri, song);
    }
    len
}

// How many bytes the fields behind the parts take.
fn fields_len(saved: &Saved) -> usize
    requires { IsSavedState saved.now }
    ensures len { result ≡ length (fields_of saved.now) }
    ensures within { result < 2 ^ 40 }
{
    let Some(times) = saved.changed() else {
        return 0;
    };
    let Some(place) = saved.place() else {
        return 0;
    };
    all_fields_len(times, place)
}

/// How many bytes the snapshot of a saved state takes.
pub(crate) fn saved_len(saved: &Saved) -> usize
    requires { IsSavedState saved.now }
    ensures { result ≡ length (saved_bytes saved.now) }
{
    let profile = saved.profile();
    let rows = rows_len(profile, saved.songs().rows());
    let entries = 13 * saved.queue().len();
    let lists = lists_len(saved.lists());
    let stickers = stickers_len(saved.stickers());
    // The head has 53 bytes, and each of the four parts a number of 4 in front.
    69 + rows + entries + lists + stickers + fields_len(saved) + checksum_len(profile)
}
