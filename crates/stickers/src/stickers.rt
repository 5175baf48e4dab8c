// The stickers of all songs, with their limit.
ghost use Rattle.std.specs.Prelude.{◌≡◌, ◌↔◌, [], length, IsTrue, Some, IfOk, OnOk, OnErr, MatchOption, option_copied};
ghost use Rattle.song_db.specs.Uri.{is_uri};
ghost use Rattle.stickers.specs.Find.{passing, found_in};
ghost use Rattle.stickers.specs.Fits.{HasRoom};
ghost use Rattle.stickers.specs.Refusal.{Answers, AnswersIfMemory};
ghost use Rattle.stickers.specs.Sticker.{IsWithinLimits, flat, in_song, value_at, stickers_of};
ghost use Rattle.stickers.specs.Sticker.{with_sticker, without_sticker, without_song};
ghost use Rattle.stickers.specs.Sticker.{find_refusal, get_refusal, set_refusal, delete_all_refusal};

use crate::by_song::StickersBySong;
use crate::find::{Found, ValueTest};
use crate::name::check_name;
use crate::refusal::StickersError;
use crate::song::SongStickers;
use crate::value::StickerValue;
use song_db::{Place, Uri};
use std::alloc::{AllocError, Global};
use std::marker::Model;

mod builder;
mod checking;
mod iter;

pub use builder::StickersBuilder;
pub use iter::Iter;

/// The stickers of all songs: at most 65,536. Each belongs to a URI, has a name of 1 to 256 bytes and a value of at
/// most 4,096. That a URI names a song is not known here.
///
/// A call first tests the name, then whether the sticker is there, then the limit; it takes memory last. A refused
/// call leaves everything as it was.
#[derive(Debug, Drop)]
pub struct Stickers {
    songs: StickersBySong,
    count: usize,
}

impl Model for Stickers {
    ghost use Rattle.std.specs.Prelude.{List};
    ghost use Rattle.stickers.specs.Sticker.{Sticker, IsCounted};

    ghost Value = { List Sticker };

    ghost view = { λ s. s.songs };

    ghost invariant = { λ s. IsCounted s.songs s.count };
}

impl Stickers {
    /// No sticker. It takes no memory yet.
    pub fn new(alloc: Global) -> Self
        ensures { result ≡ [] }
    {
        Stickers {
            songs: StickersBySong::new(alloc),
            count: 0,
        }
    }

    /// How many stickers all songs have together.
    pub fn len(&self) -> usize
        ensures count { result ≡ length self.now }
        ensures within { IsWithinLimits self.now }
    {
        self.count
    }

    pub fn is_empty(&self) -> bool
        ensures { IsTrue result ↔ (self.now ≡ []) }
    {
        self.count == 0
    }

    /// The songs that have stickers, by their URIs, each with its stickers.
    pub fn iter(&self) -> Iter<'_>
        ensures { flat result ≡ self.now }
    {
        self.songs.iter()
    }

    /// The same stickers once more, in memory of their own.
    pub fn try_clone(&self, alloc: Global) -> Result<Stickers, AllocError>
        ensures { IfOk result (λ copy. copy ≡ self.now) }
    {
        Ok(Stickers {
            songs: self.songs.try_clone(alloc)?,
            count: self.count,
        })
    }

    /// The value of a sticker. Refused by `BadStickerName` and `NoSuchSticker`.
    pub fn get(&self, uri: &str, name: &str) -> Result<&StickerValue, StickersError>
        ensures value { IfOk result (λ value. value_at self.now uri.now name.now ≡ Some value.now) }
        ensures answer { Answers (get_refusal self.now uri.now name.now) result }
    {
        check_name(name)?;
        match self.songs.value(uri, name) {
            Some(value) => Ok(value),
            None => Err(StickersError::NoSuchSticker),
        }
    }

    /// The stickers of a song; `None` where it has none.
    pub fn list(&self, uri: &str) -> Option<&SongStickers>
        ensures { MatchOption result (stickers_of self.now uri.now ≡ [])
            (λ song. stickers_of self.now uri.now ≡ in_song (uri.now, song.now)) }
    {
        self.songs.song(uri)
    }

    /// The songs below a place, by their URIs, that have a sticker of the name whose value passes the test. Refused by
    /// `BadStickerName` and `NoMemory`.
    pub fn find<'a>(
        &'a self,
        alloc: Global,
        place: Place<'_>,
        name: &str,
        test: &ValueTest<'_>,
    ) -> Result<Found<'a>, StickersError>
        ensures found { IfOk result (λ found. found ≡ found_in self.now place.entry name.now test.now) }
        ensures answer { AnswersIfMemory (find_refusal name.now) result }
    {
        check_name(name)?;
        Ok(self.songs.find(alloc, place, name, test)?)
    }

    /// The value of a song's sticker of the name, where it passes the test: what `find` is at a place that is a song.
    /// Refused by `BadStickerName`.
    pub fn find_song(
        &self,
        uri: &str,
        name: &str,
        test: &ValueTest<'_>,
    ) -> Result<Option<&StickerValue>, StickersError>
        ensures found { IfOk result (λ value. option_copied value ≡ passing test.now (value_at self.now uri.now name.now)) }
        ensures answer { Answers (find_refusal name.now) result }
    {
        check_name(name)?;
        match self.songs.value(uri, name) {
            Some(value) if test.passes(value.as_str()) => Ok(Some(value)),
            _ => Ok(None),
        }
    }

    /// Sets the value of a sticker, in place of the one that it may have. Refused by `BadStickerName`, `StickersFull`
    /// (a new sticker) and `NoMemory`.
    pub fn set(
        &mut self,
        alloc: Global,
        uri: &Uri,
        name: &str,
        value: StickerValue,
    ) -> Result<(), StickersError>
        ensures ok { OnOk result (self.new ≡ with_sticker self.old uri.now name.now value) }
        ensures err { OnErr result (self.new ≡ self.old) }
        ensures answer { AnswersIfMemory (set_refusal self.old uri.now name.now) result }
    {
        let uri = uri.as_str();
        self.check_set(uri, name)?;
        self.put(alloc, uri, name, value)?;
        Ok(())
    }

    // Sets the value of a sticker that has room.
    fn put(
        &mut self,
        alloc: Global,
        uri: &str,
        name: &str,
        value: StickerValue,
    ) -> Result<(), AllocError>
        requires form { IsTrue (is_uri uri.now) }
        requires room { HasRoom self.old uri.now name.now }
        ensures ok { OnOk result (self.new ≡ with_sticker self.old uri.now name.now value) }
        ensures err { OnErr result (self.new ≡ self.old) }
    {
        let _form = value.as_str();
        let is_new = self.songs.value(uri, name).is_none();
        self.songs.set(alloc, uri, name, value)?;
        if is_new {
            self.count += 1;
        }
        Ok(())
    }

    /// Takes a sticker out. Refused by `BadStickerName` and `NoSuchSticker`.
    pub fn delete(&mut self, uri: &str, name: &str) -> Result<(), StickersError>
        ensures ok { OnOk result (self.new ≡ without_sticker self.old uri.now name.now) }
        ensures err { OnErr result (self.new ≡ self.old) }
        ensures answer { Answers (get_refusal self.old uri.now name.now) result }
    {
        self.check_delete(uri, name)?;
        self.songs.remove_value(uri, name);
        self.songs.drop_empty_song(uri);
        self.count -= 1;
        Ok(())
    }

    /// Takes all stickers of a song out. Refused by `NoSuchSticker` where it has none.
    pub fn delete_all(&mut self, uri: &str) -> Result<(), StickersError>
        ensures ok { OnOk result (self.new ≡ without_song self.old uri.now) }
        ensures err { OnErr result (self.new ≡ self.old) }
        ensures answer { Answers (delete_all_refusal self.old uri.now) result }
    {
        let removed = self.songs.remove_song(uri);
        if removed == 0 {
            return Err(StickersError::NoSuchSticker);
        }
        self.count -= removed;
        Ok(())
    }

    /// Forgets a song, whether it has stickers or not. It takes no memory and can't fail.
    pub fn drop_uri(&mut self, uri: &str)
        ensures { self.new ≡ without_song self.old uri.now }
    {
        self.count -= self.songs.remove_song(uri);
    }
}
