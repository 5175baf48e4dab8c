// Texts of the database in their order by bytes, each once.
ghost use Rattle.std.specs.Prelude.{◌≡◌, ◌↔◌, [], ◌∷◌, length, map, IsTrue, IfOk, OnOk, OnErr};
ghost use Rattle.std.specs.BTreeSet.{IsFromIterResult};
ghost use Rattle.std.specs.Cmp.Lexicographic.{slice_cmp};
ghost use Rattle.std.specs.Ordering.{nat_cmp};
ghost use Rattle.song_db.specs.Query.{distinct_of};
ghost use Rattle.song_db.specs.Replaced.{replaced};

use std::alloc::{AllocError, Global};
use std::collections::{BTreeSet, btree_set};
use std::iter::{IntoIterator, Iterator};
use std::marker::Model;

/// Texts of the database in their order by bytes, each once.
#[derive(Debug, Drop)]
pub struct Texts<'a> {
    texts: BTreeSet<&'a str>,
}

impl<'a> Model for Texts<'a> {
    ghost use Rattle.std.specs.Prelude.{ℕ, List, map};

    ghost Value = { List (List ℕ) };

    ghost view = { λ t. map (λ text. text.now) t.texts.keys };
}

impl<'a> Texts<'a> {
    /// No text. It takes no memory yet.
    pub fn new(alloc: Global) -> Self
        ensures { result ≡ [] }
    {
        Texts {
            texts: BTreeSet::new(alloc),
        }
    }

    /// The texts of a list. They are sorted once, where `insert` looks for the place of each. Refused where there is no memory.
    pub fn of(alloc: Global, texts: Vec<&'a str>) -> Result<Self, AllocError>
        ensures { IfOk result (λ all. all ≡ distinct_of (map (λ text. text.now) texts.entry.items)) }
    {
        Ok(Texts {
            texts: set_of(alloc, texts)?,
        })
    }

    pub fn len(&self) -> usize
        ensures { result ≡ length self.now }
    {
        self.texts.len()
    }

    pub fn is_empty(&self) -> bool
        ensures { IsTrue result ↔ (self.now ≡ []) }
    {
        self.texts.is_empty()
    }

    pub fn iter(&self) -> btree_set::Iter<'_, &'a str>
        ensures { map (λ text. text.now) result ≡ self.now }
    {
        self.texts.iter()
    }

    /// Takes a text, unless it is there: so the distinct values of any rows are found, without a copy of a text.
    pub fn insert(&mut self, text: &'a str) -> Result<(), AllocError>
        ensures ok { OnOk result (self.new ≡ replaced (λ t. t) text.now (text.now ∷ []) self.old) }
        ensures err { OnErr result (self.new ≡ self.old) }
    {
        self.texts.insert(text)?;
        Ok(())
    }
}

fn set_of(alloc: Global, texts: Vec<&str>) -> Result<BTreeSet<&str>, AllocError>
    ensures { IfOk result (IsFromIterResult (λ a b. slice_cmp nat_cmp a.now b.now) texts.entry.items) }
{
    texts.into_iter().collect(alloc)
}
