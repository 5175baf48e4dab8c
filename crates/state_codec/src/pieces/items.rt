// The parts of a snapshot, item by item: an item is the head, a row, an entry, the beginning of a playlist, one of its songs, or a sticker.
ghost use Rattle.std.specs.Prelude.{◌≡◌, ◌≢◌, ◌+◌, ◌<◌, ◌≤◌, ◌++◌, [], ◌∷◌, Some, true, false, min, IsTrue};
ghost use Rattle.std.specs.Prelude.{MatchOption, drop, length, unwrap_or};
ghost use Rattle.std.specs.List.{All, AllByRecursion, flat_map};
ghost use Rattle.stickers.specs.Sticker.{flat, in_song, sticker};
ghost use Rattle.state_codec.specs.Appended.{HasRoom};
ghost use Rattle.state_codec.specs.Pieces.{longest_item, HadNone, HandsOver, IsListItem, IsStickerItem};
ghost use Rattle.state_codec.specs.SavedState.{IsSavedEntry, IsSavedState};
ghost use Rattle.state_codec.specs.Spelling.{entry_bytes, head_bytes, playlist_bytes, sticker_bytes};
ghost use Rattle.state_codec.specs.SpellingFields.{text_bytes};
ghost use Rattle.state_codec.specs.SpellingRows.{row_bytes};

use crate::pieces::part::Part;
use crate::saved::Saved;
use crate::writing::{
    put_entry, put_head, put_row, put_sticker, put_text, put_u32, put_uri, row_number, uri_len,
};
use play_queue::Entries;
use profile::Profile;
use song_db::{SongDb, SongRow, Uri};
use std::marker::Model;
use std::slice;
use stickers::{NamedValues, StickerValue, Stickers};
use stored_lists::{Lists, Songs};

/// What stands in front of the parts.
#[derive(Drop)]
pub(crate) struct HeadLeft<'a> {
    saved: &'a Saved,
    is_left: bool,
}

impl<'a> Model for HeadLeft<'a> {
    ghost use Rattle.std.specs.Prelude.{List, ℕ, [], if◌then◌else◌};
    ghost use Rattle.state_codec.specs.Spelling.{head_bytes};

    ghost Value = { List ℕ };

    ghost view = { λ h. if h.is_left then head_bytes h.saved.now else [] };
}

impl<'a> HeadLeft<'a> {
    pub(crate) fn new(saved: &'a Saved) -> Self
        ensures { result ≡ head_bytes saved.now }
    {
        HeadLeft {
            saved,
            is_left: true,
        }
    }
}

impl<'a> Part for HeadLeft<'a> {
    ghost left = { λ bytes. bytes };

    fn put_next(&mut self, out: &mut Vec<u8>) -> bool {
        if !self.is_left {
            return false;
        }
        let _key = self.saved.key();
        put_head(out, self.saved);
        self.is_left = false;
        true
    }
}

/// Rows.
#[derive(Drop)]
pub(crate) struct RowsLeft<'a> {
    profile: Profile,
    rows: slice::Iter<'a, SongRow>,
}

impl<'a> Model for RowsLeft<'a> {
    ghost use Rattle.std.specs.Prelude.{List, ℕ, ◌≤◌, length};
    ghost use Rattle.std.specs.List.{AllByRecursion, flat_map};
    ghost use Rattle.std.specs.Slice.Iter.{iter_rest};
    ghost use Rattle.state_codec.specs.Longest.{longest_row};
    ghost use Rattle.state_codec.specs.SpellingRows.{row_bytes};

    ghost Value = { List ℕ };

    ghost view = { λ r. flat_map (row_bytes r.profile) (iter_rest r.rows) };

    ghost invariant = { λ r. AllByRecursion (λ row. length (row_bytes r.profile row) ≤ longest_row r.profile) (iter_rest r.rows) };
}

impl<'a> RowsLeft<'a> {
    pub(crate) fn new(saved: &'a Saved) -> Self
        ensures { result ≡ flat_map (row_bytes saved.now.profile) saved.now.songs }
    {
        let _key = saved.key();
        RowsLeft {
            profile: saved.profile(),
            rows: saved.songs().rows().iter(),
        }
    }
}

impl<'a> Part for RowsLeft<'a> {
    ghost left = { λ bytes. bytes };

    fn put_next(&mut self, out: &mut Vec<u8>) -> bool {
        match self.rows.next() {
            Some(row) => {
                put_row(out, self.profile, row);
                true
            }
            None => false,
        }
    }
}

/// Entries of the queue.
#[derive(Drop)]
pub(crate) struct EntriesLeft<'a> {
    songs: &'a SongDb,
    entries: &'a Entries,
    at: usize,
}

impl<'a> Model for EntriesLeft<'a> {
    ghost use Rattle.std.specs.Prelude.{List, ℕ, ◌≤◌, drop, length};
    ghost use Rattle.std.specs.List.{All, flat_map};
    ghost use Rattle.state_codec.specs.SavedState.{IsSavedEntry};
    ghost use Rattle.state_codec.specs.Spelling.{entry_bytes};

    ghost Value = { List ℕ };

    ghost view = { λ e. flat_map (entry_bytes e.songs.now) (drop e.at e.entries.now) };

    ghost invariant = { λ e. (e.at ≤ length e.entries.now) × All (IsSavedEntry e.songs.now) e.entries.now };
}

impl<'a> EntriesLeft<'a> {
    pub(crate) fn new(saved: &'a Saved) -> Self
        ensures { result ≡ flat_map (entry_bytes saved.now.songs) saved.now.queue.entries }
    {
        let _key = saved.key();
        EntriesLeft {
            songs: saved.songs(),
            entries: saved.queue().entries(),
            at: 0,
        }
    }
}

impl<'a> Part for EntriesLeft<'a> {
    ghost left = { λ bytes. bytes };

    fn put_next(&mut self, out: &mut Vec<u8>) -> bool {
        if self.at >= self.entries.len() {
            return false;
        }
        let entry = self.entries.at(self.at);
        put_entry(out, self.songs, entry, row_number(self.songs, entry.uri));
        self.at += 1;
        true
    }
}

/// Playlists: songs of the one that was begun, and others.
#[derive(Drop)]
pub(crate) struct ListsLeft<'a> {
    songs: slice::Iter<'a, Uri>,
    lists: stored_lists::Iter<'a>,
}

impl<'a> Model for ListsLeft<'a> {
    ghost use Rattle.std.specs.Prelude.{List, ℕ};
    ghost use Rattle.std.specs.List.{AllByRecursion};
    ghost use Rattle.std.specs.Slice.Iter.{iter_rest};
    ghost use Rattle.state_codec.specs.Pieces.{lists_left, IsListItem};

    ghost Value = { List ℕ };

    ghost view = { λ l. lists_left (iter_rest l.songs) l.lists };

    ghost invariant = { λ l. AllByRecursion IsListItem l.lists };
}

impl<'a> ListsLeft<'a> {
    pub(crate) fn new(lists: &'a Lists) -> Self
        ensures { result ≡ flat_map playlist_bytes lists.now }
    {
        let _within = lists.len();
        let none: &'a [Uri] = &[];
        ListsLeft {
            songs: none.iter(),
            lists: lists.iter(),
        }
    }
}

// Puts the beginning of a playlist behind the bytes: its name and the number of its songs.
fn put_list_front(out: &mut Vec<u8>, name: &str, songs: &Songs)
    requires item { IsListItem (name.now, songs.now) }
    requires room { HasRoom out.old (min longest_item (length (playlist_bytes (name.now, songs.now)))) }
    ensures moved { HandsOver out.old out.new (playlist_bytes (name.now, songs.now)) (flat_map text_bytes songs.now) }
    ensures some { length out.old.items < length out.new.items }
{
    put_text(out, name);
    put_u32(out, songs.len() as u32);
}

impl<'a> Part for ListsLeft<'a> {
    ghost left = { λ bytes. bytes };

    fn put_next(&mut self, out: &mut Vec<u8>) -> bool {
        if let Some(uri) = self.songs.next() {
            let _short = uri_len(uri);
            put_uri(out, uri);
            return true;
        }
        match self.lists.next() {
            Some((name, songs)) => {
                put_list_front(out, name, songs);
                self.songs = songs.as_slice().iter();
                true
            }
            None => false,
        }
    }
}

/// Stickers: those of the song that was begun, and those of others.
#[derive(Drop)]
pub(crate) struct StickersLeft<'a> {
    uri: &'a str,
    values: Option<NamedValues<'a>>,
    songs: stickers::Iter<'a>,
}

impl<'a> Model for StickersLeft<'a> {
    ghost use Rattle.std.specs.Prelude.{List, ℕ};
    ghost use Rattle.std.specs.List.{AllByRecursion, flat_map};
    ghost use Rattle.state_codec.specs.Pieces.{stickers_in, IsStickerItem};
    ghost use Rattle.state_codec.specs.Spelling.{sticker_bytes};

    ghost Value = { List ℕ };

    ghost view = { λ s. flat_map sticker_bytes (stickers_in s.uri.now s.values s.songs) };

    ghost invariant = { λ s. AllByRecursion IsStickerItem (stickers_in s.uri.now s.values s.songs) };
}

impl<'a> StickersLeft<'a> {
    pub(crate) fn new(stickers: &'a Stickers) -> Self
        ensures { result ≡ flat_map sticker_bytes stickers.now }
    {
        let _within = stickers.len();
        StickersLeft {
            uri: "",
            values: None,
            songs: stickers.iter(),
        }
    }
}

// A song that has stickers: its URI, its first sticker, and the others.
#[derive(Drop)]
struct Begun<'a> {
    uri: &'a str,
    name: &'a str,
    value: &'a StickerValue,
    values: NamedValues<'a>,
}

// The next song that has a sticker.
fn next_song<'a>(songs: &mut stickers::Iter<'a>) -> Option<Begun<'a>>
    ensures { MatchOption result ((flat songs.old ≡ []) × (flat songs.new ≡ []))
        (λ b. flat songs.old ≡ sticker b.uri.now (b.name.now, b.value.now) ∷ (in_song (b.uri.now, b.values) ++ flat songs.new)) }
{
    while let Some((uri, song)) = songs.next() {
        let mut values = song.iter();
        if let Some((name, value)) = values.next() {
            return Some(Begun {
                uri,
                name,
                value,
                values,
            });
        }
    }
    None
}

// Puts the next sticker of the song that was begun, if one was, behind the bytes, and says whether there was one.
fn put_of_song(out: &mut Vec<u8>, uri: &str, values: &mut Option<NamedValues<'_>>) -> bool
    requires items { AllByRecursion IsStickerItem (in_song (uri.now, unwrap_or values.old [])) }
    requires room { HasRoom out.old (min longest_item (length (flat_map sticker_bytes (in_song (uri.now, unwrap_or values.old []))))) }
    ensures moved { HandsOver out.old out.new (flat_map sticker_bytes (in_song (uri.now, unwrap_or values.old [])))
        (flat_map sticker_bytes (in_song (uri.now, unwrap_or values.new []))) }
    ensures some { IsTrue result → length out.old.items < length out.new.items }
    ensures none { result ≡ false → (in_song (uri.now, unwrap_or values.old []) ≡ []) × (in_song (uri.now, unwrap_or values.new []) ≡ []) }
    ensures same { result ≡ false → out.new ≡ out.old }
    ensures items { AllByRecursion IsStickerItem (in_song (uri.now, unwrap_or values.new [])) }
{
    match values {
        Some(values) => match values.next() {
            Some((name, value)) => {
                put_sticker(out, uri, name, value.as_str());
                true
            }
            None => false,
        },
        None => false,
    }
}

impl<'a> Part for StickersLeft<'a> {
    ghost left = { λ bytes. bytes };

    fn put_next(&mut self, out: &mut Vec<u8>) -> bool {
        if put_of_song(out, self.uri, &mut self.values) {
            return true;
        }
        match next_song(&mut self.songs) {
            Some(begun) => {
                put_sticker(out, begun.uri, begun.name, begun.value.as_str());
                self.uri = begun.uri;
                self.values = Some(begun.values);
                true
            }
            None => false,
        }
    }
}
