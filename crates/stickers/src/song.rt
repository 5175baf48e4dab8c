// The stickers of one song, by their names.
ghost use Rattle.std.specs.Prelude.{◌≡◌, ℕ, ◌↔◌, List, [], ◌∷◌, length, IsTrue, IfOk, OnOk, OnErr, option_map, string_bytes};
ghost use Rattle.stickers.specs.Named.{IsRising, under, with_name, without_name};

use crate::copying::clone_values;
use crate::value::StickerValue;
use std::alloc::{AllocError, Global};
use std::collections::BTreeMap;
use std::marker::Model;

mod iter;

pub use iter::NamedValues;

/// The stickers of one song by the bytes of their names.
#[derive(Debug, Drop)]
pub struct SongStickers {
    values: BTreeMap<String, StickerValue>,
}

impl Model for SongStickers {
    ghost use Rattle.stickers.specs.Named.{Values, IsRising};
    ghost use Rattle.stickers.specs.ByName.{by_name};

    ghost Value = { Values };

    ghost view = { λ s. by_name s.values.entries };

    ghost invariant = { λ s. IsRising (by_name s.values.entries) };
}

impl SongStickers {
    // A song with one sticker.
    pub(crate) fn with_one(
        alloc: Global,
        name: String,
        value: StickerValue,
    ) -> Result<Self, AllocError>
        ensures { IfOk result (λ song. song ≡ (string_bytes name, value) ∷ []) }
    {
        let mut song = SongStickers {
            values: BTreeMap::new(alloc),
        };
        song.insert(name, value)?;
        Ok(song)
    }

    pub fn len(&self) -> usize
        ensures count { result ≡ length self.now }
        ensures rising { IsRising self.now }
    {
        self.values.len()
    }

    pub fn is_empty(&self) -> bool
        ensures { IsTrue result ↔ (self.now ≡ []) }
    {
        self.values.len() == 0
    }

    /// The value under a name, if the song has such a sticker.
    pub fn get(&self, name: &str) -> Option<&StickerValue>
        ensures value { option_map (λ value. value.now) result ≡ under self.now name.now }
        ensures rising { IsRising self.now }
    {
        self.values.get(name)
    }

    /// The names, by their bytes, with their values.
    pub fn iter(&self) -> NamedValues<'_>
        ensures { result ≡ self.now }
    {
        NamedValues {
            values: self.values.iter(),
        }
    }

    /// The same stickers once more, in memory of their own.
    pub fn try_clone(&self, alloc: Global) -> Result<SongStickers, AllocError>
        ensures { IfOk result (λ copy. copy ≡ self.now) }
    {
        let values = clone_values(alloc, &self.values)?;
        Ok(SongStickers { values })
    }

    pub(crate) fn insert(&mut self, name: String, value: StickerValue) -> Result<(), AllocError>
        ensures ok { OnOk result (self.new ≡ with_name self.old (string_bytes name) value) }
        ensures err { OnErr result (self.new ≡ self.old) }
    {
        self.values.insert(name, value)?;
        Ok(())
    }

    // Takes a sticker out; nothing where there is none.
    pub(crate) fn remove(&mut self, name: &str)
        ensures { self.new ≡ without_name self.old name.now }
    {
        self.values.remove(name);
    }
}
