// Stickers as they were saved, made one by one.
ghost use Rattle.std.specs.Prelude.{◌≡◌, [], ◌∷◌, ◌++◌, IsTrue, None, OnOk, OnErr};
ghost use Rattle.song_db.specs.Uri.{is_uri};
ghost use Rattle.stickers.specs.Fits.{HasRoom};
ghost use Rattle.stickers.specs.Part.{is_last, is_behind, part_refusal};
ghost use Rattle.stickers.specs.Refusal.{Answers, AnswersUnless};
ghost use Rattle.stickers.specs.Sticker.{sticker, value_at, stickers_of, with_sticker};

use super::Stickers;
use crate::limits::MAX_STICKERS;
use crate::name::is_good_name;
use crate::refusal::PartError;
use crate::value::StickerValue;
use song_db::Uri;
use std::alloc::{AllocError, Global};
use std::cmp::Ordering;
use std::marker::Model;

/// Makes stickers as they were saved, rising by URI and then by name. A sticker that can't stand behind those before
/// it is refused, and the builder stays as it was.
#[derive(Drop)]
pub struct StickersBuilder {
    stickers: Stickers,
    last: Option<(Uri, String)>,
}

impl Model for StickersBuilder {
    ghost use Rattle.std.specs.Prelude.{List};
    ghost use Rattle.stickers.specs.Part.{TellsLast};
    ghost use Rattle.stickers.specs.Sticker.{Sticker};

    ghost Value = { List Sticker };

    ghost view = { λ b. b.stickers };

    ghost invariant = { λ b. TellsLast b.stickers b.last };
}

impl StickersBuilder {
    /// No sticker yet. It takes no memory yet.
    pub fn new(alloc: Global) -> Self
        ensures { result ≡ [] }
    {
        StickersBuilder {
            stickers: Stickers::new(alloc),
            last: None,
        }
    }

    /// What `push` would be refused for, but for want of memory: `BadName`, then `NotRising` where the sticker doesn't
    /// stand behind all others, then `TooMany`. It takes no memory.
    pub fn check(&self, uri: &Uri, name: &str) -> Result<(), PartError>
        ensures answer { Answers (part_refusal self.now uri.now name.now) result }
        ensures fits { OnOk result (HasRoom self.now uri.now name.now) }
        ensures last { OnOk result (IsTrue (is_last self.now uri.now name.now)) }
    {
        if !is_good_name(name) {
            return Err(PartError::BadName);
        }
        if !is_behind(&self.last, uri, name) {
            return Err(PartError::NotRising);
        }
        if MAX_STICKERS <= self.stickers.len() {
            return Err(PartError::TooMany);
        }
        Ok(())
    }

    /// The next sticker. Refused as `check` says, and by `NoMemory`.
    pub fn push(
        &mut self,
        alloc: Global,
        uri: Uri,
        name: &str,
        value: StickerValue,
    ) -> Result<(), PartError>
        ensures ok { OnOk result (self.new ≡ self.old ++ sticker uri (name.now, value) ∷ []) }
        ensures err { OnErr result (self.new ≡ self.old) }
        ensures answer { AnswersUnless PartError.NoMemory (part_refusal self.old uri name.now) result }
    {
        self.check(&uri, name)?;
        let last = String::from_str(alloc, name)?;
        if self.begins_song(&uri) {
            self.stickers.add_first(alloc, uri.as_str(), name, value)?;
        } else {
            self.stickers.add(alloc, uri.as_str(), name, value)?;
        }
        self.last = Some((uri, last));
        Ok(())
    }

    // Whether a sticker of this URI stands behind the last one whatever its name, so that the song has none yet.
    fn begins_song(&self, uri: &Uri) -> bool
        ensures { result ≡ is_last self.now uri.now [] }
    {
        is_behind(&self.last, uri, "")
    }

    /// All these stickers.
    pub fn finish(self) -> Stickers
        ensures { result ≡ self }
    {
        self.stickers
    }
}

// What the builder adds is new: it takes one search of the songs.
impl Stickers {
    // Adds a sticker that isn't there yet.
    fn add(
        &mut self,
        alloc: Global,
        uri: &str,
        name: &str,
        value: StickerValue,
    ) -> Result<(), AllocError>
        requires form { IsTrue (is_uri uri.now) }
        requires room { HasRoom self.old uri.now name.now }
        requires absent { value_at self.old uri.now name.now ≡ None }
        ensures ok { OnOk result (self.new ≡ with_sticker self.old uri.now name.now value) }
        ensures err { OnErr result (self.new ≡ self.old) }
    {
        let _form = value.as_str();
        self.songs.set(alloc, uri, name, value)?;
        self.count += 1;
        Ok(())
    }

    // Adds the first sticker of a song.
    fn add_first(
        &mut self,
        alloc: Global,
        uri: &str,
        name: &str,
        value: StickerValue,
    ) -> Result<(), AllocError>
        requires form { IsTrue (is_uri uri.now) }
        requires room { HasRoom self.old uri.now name.now }
        requires empty { stickers_of self.old uri.now ≡ [] }
        ensures ok { OnOk result (self.new ≡ with_sticker self.old uri.now name.now value) }
        ensures err { OnErr result (self.new ≡ self.old) }
    {
        let _form = value.as_str();
        let name = String::from_str(alloc, name)?;
        self.songs.set_first(alloc, uri, name, value)?;
        self.count += 1;
        Ok(())
    }
}

// Whether a sticker of this URI and name stands behind the last one, if there is one.
fn is_behind(last: &Option<(Uri, String)>, uri: &Uri, name: &str) -> bool
    ensures { result ≡ is_behind last.now uri.now name.now }
{
    match last {
        None => true,
        Some((last_uri, last_name)) => match last_uri.compare(uri.as_str()) {
            Ordering::Less => true,
            Ordering::Equal => last_name.as_str() < name,
            Ordering::Greater => false,
        },
    }
}
