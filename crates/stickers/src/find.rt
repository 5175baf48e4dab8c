// What a search for stickers asks, and what it finds.
ghost use Rattle.std.specs.Prelude.{◌≡◌, ℕ, ◌↔◌, List, [], length, map, IsTrue};
ghost use Rattle.std.specs.Slice.Iter.{iter_rest};
ghost use Rattle.stickers.specs.Find.{passes, pair_of};

use std::marker::Model;
use std::slice;

/// Which values `Stickers::find` takes; texts are compared by their bytes.
#[derive(Clone, Copy, Debug)]
pub enum ValueTest<'a> {
    /// Any value.
    Any,
    /// This value alone.
    Equal(&'a str),
    /// The values below this one.
    Less(&'a str),
    /// The values above this one.
    Greater(&'a str),
}

impl ValueTest<'_> {
    /// Whether a value passes.
    pub fn passes(&self, value: &str) -> bool
        ensures { result ≡ passes self.now value.now }
    {
        match self {
            ValueTest::Any => true,
            ValueTest::Equal(bound) => value == *bound,
            ValueTest::Less(bound) => value < *bound,
            ValueTest::Greater(bound) => value > *bound,
        }
    }
}

/// A song that `Stickers::find` found, with the value of its sticker.
#[derive(Clone, Copy, Debug)]
pub struct FoundSticker<'a> {
    pub uri: &'a str,
    pub value: &'a str,
}

/// Songs by their URIs, with their values.
#[derive(Debug, Drop)]
pub struct Found<'a> {
    pub(crate) found: Vec<FoundSticker<'a>>,
}

impl<'a> Model for Found<'a> {
    ghost use Rattle.std.specs.Prelude.{ℕ, List, map};
    ghost use Rattle.stickers.specs.Find.{pair_of};

    ghost Value = { List (List ℕ × List ℕ) };

    ghost view = { λ f. map pair_of f.found.items };
}

impl<'a> Found<'a> {
    pub fn len(&self) -> usize
        ensures { result ≡ length self.now }
    {
        self.found.len()
    }

    pub fn is_empty(&self) -> bool
        ensures { IsTrue result ↔ (self.now ≡ []) }
    {
        self.found.is_empty()
    }

    pub fn iter(&self) -> slice::Iter<'_, FoundSticker<'a>>
        ensures { map pair_of (iter_rest result) ≡ self.now }
    {
        self.found.iter()
    }
}
