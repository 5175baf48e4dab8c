// The stickers of all songs, song by song.
ghost use Rattle.std.specs.Prelude.{◌≡◌, [], length, OnOk, OnErr, option_map, MatchOption, IfOk, string_bytes};
ghost use Rattle.stickers.specs.Find.{found_in};
ghost use Rattle.stickers.specs.Sticker.{flat, in_song, value_at, stickers_of, with_sticker, without_sticker, without_song};

use crate::copying::clone_songs;
use crate::find::{Found, ValueTest};
use crate::searching::{find_in, joined};
use crate::song::SongStickers;
use crate::stickers::Iter;
use crate::value::StickerValue;
use song_db::Place;
use std::alloc::{AllocError, Global};
use std::collections::BTreeMap;
use std::marker::Model;

// The stickers of all songs under their URIs, without the limit. Contracts see them as one list.
#[derive(Debug, Drop)]
pub(crate) struct StickersBySong {
    songs: BTreeMap<String, SongStickers>,
}

impl Model for StickersBySong {
    ghost use Rattle.std.specs.Prelude.{List};
    ghost use Rattle.stickers.specs.Named.{IsRising};
    ghost use Rattle.stickers.specs.Sticker.{Sticker, flat};
    ghost use Rattle.stickers.specs.ByName.{by_name};

    ghost Value = { List Sticker };

    ghost view = { λ s. flat (by_name s.songs.entries) };

    ghost invariant = { λ s. IsRising (by_name s.songs.entries) };
}

impl StickersBySong {
    pub(crate) fn new(alloc: Global) -> Self
        ensures { result ≡ [] }
    {
        StickersBySong {
            songs: BTreeMap::new(alloc),
        }
    }

    pub(crate) fn iter(&self) -> Iter<'_>
        ensures { flat result ≡ self.now }
    {
        Iter {
            songs: self.songs.iter(),
        }
    }

    // The same stickers once more.
    pub(crate) fn try_clone(&self, alloc: Global) -> Result<StickersBySong, AllocError>
        ensures { IfOk result (λ copy. copy ≡ self.now) }
    {
        let songs = clone_songs(alloc, &self.songs)?;
        Ok(StickersBySong { songs })
    }

    pub(crate) fn song(&self, uri: &str) -> Option<&SongStickers>
        ensures { MatchOption result (stickers_of self.now uri.now ≡ [])
            (λ song. stickers_of self.now uri.now ≡ in_song (uri.now, song.now)) }
    {
        self.songs.get(uri)
    }

    pub(crate) fn value(&self, uri: &str, name: &str) -> Option<&StickerValue>
        ensures { option_map (λ value. value.now) result ≡ value_at self.now uri.now name.now }
    {
        match self.songs.get(uri) {
            Some(song) => song.get(name),
            None => None,
        }
    }

    // The songs below a place with a sticker of the name whose value passes the test. Those below a folder stand
    // together: their URIs begin with the folder and a slash, and `0` is the byte after the slash.
    pub(crate) fn find<'a>(
        &'a self,
        alloc: Global,
        place: Place<'_>,
        name: &str,
        test: &ValueTest<'_>,
    ) -> Result<Found<'a>, AllocError>
        ensures { IfOk result (λ found. found ≡ found_in self.now place.entry name.now test.now) }
    {
        match place {
            Place::Root => find_in(alloc, self.songs.range(..), name, test),
            Place::At(folder) => {
                let first = joined(alloc, folder, "/")?;
                let end = joined(alloc, folder, "0")?;
                find_in(alloc, self.songs.range(first..end), name, test)
            }
        }
    }

    // Sets a value. What needs memory is taken before anything changes.
    pub(crate) fn set(
        &mut self,
        alloc: Global,
        uri: &str,
        name: &str,
        value: StickerValue,
    ) -> Result<(), AllocError>
        ensures ok { OnOk result (self.new ≡ with_sticker self.old uri.now name.now value) }
        ensures err { OnErr result (self.new ≡ self.old) }
    {
        let name = String::from_str(alloc, name)?;
        match self.songs.get_mut(uri) {
            Some(song) => {
                song.insert(name, value)?;
                Ok(())
            }
            None => self.set_first(alloc, uri, name, value),
        }
    }

    // Sets the first value of a song, which takes one search of the songs. What needs memory is taken before anything
    // changes.
    pub(crate) fn set_first(
        &mut self,
        alloc: Global,
        uri: &str,
        name: String,
        value: StickerValue,
    ) -> Result<(), AllocError>
        requires empty { stickers_of self.old uri.now ≡ [] }
        ensures ok { OnOk result (self.new ≡ with_sticker self.old uri.now (string_bytes name) value) }
        ensures err { OnErr result (self.new ≡ self.old) }
    {
        let song = SongStickers::with_one(alloc, name, value)?;
        let uri = String::from_str(alloc, uri)?;
        self.songs.insert(uri, song)?;
        Ok(())
    }

    // Takes the stickers of a song out, and says how many there were.
    pub(crate) fn remove_song(&mut self, uri: &str) -> usize
        ensures count { result ≡ length (stickers_of self.old uri.now) }
        ensures removed { self.new ≡ without_song self.old uri.now }
    {
        match self.songs.remove(uri) {
            Some(song) => song.len(),
            None => 0,
        }
    }

    // Takes one sticker of a song out.
    pub(crate) fn remove_value(&mut self, uri: &str, name: &str)
        ensures { self.new ≡ without_sticker self.old uri.now name.now }
    {
        if let Some(song) = self.songs.get_mut(uri) {
            song.remove(name);
        }
    }

    // Gives back the memory of a song whose last sticker went.
    pub(crate) fn drop_empty_song(&mut self, uri: &str)
        ensures { self.new ≡ self.old }
    {
        if let Some(song) = self.songs.get(uri) {
            if song.is_empty() {
                self.songs.remove(uri);
            }
        }
    }
}
