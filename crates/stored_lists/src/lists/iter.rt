// What goes over the playlists.
ghost use Rattle.std.specs.Prelude.{length};
ghost use Rattle.std.specs.Iterator.{at_most};
ghost use Rattle.std.specs.Map.Iter.{TakesFirst, deref, deref_pair};

use crate::songs::Songs;
use std::collections::btree_map;
use std::iter::Iterator;
use std::marker::Model;

/// The names of playlists, by their bytes.
#[derive(Drop)]
pub struct Names<'a> {
    pub(crate) names: btree_map::Keys<'a, String, Songs>,
}

impl<'a> Model for Names<'a> {
    ghost use Rattle.std.specs.Prelude.{ℕ, List, map, string_bytes};

    ghost Value = { List (List ℕ) };

    ghost view = { λ n. map string_bytes n.names };
}

impl<'a> Iterator for Names<'a> {
    type Item = &'a str;

    ghost next_gives = { TakesFirst deref };

    ghost remaining = { λ s. at_most (length s) };

    fn next(&mut self) -> Option<&'a str> {
        let name = self.names.next()?;
        Some(name.as_str())
    }
}

/// Playlists, by the bytes of their names: the name and the songs.
#[derive(Drop)]
pub struct Iter<'a> {
    pub(crate) lists: btree_map::Iter<'a, String, Songs>,
}

impl<'a> Model for Iter<'a> {
    ghost use Rattle.stored_lists.specs.ByName.{by_name};
    ghost use Rattle.stored_lists.specs.Lists.{Stored};

    ghost Value = { Stored };

    ghost view = { λ i. by_name i.lists };
}

impl<'a> Iterator for Iter<'a> {
    type Item = (&'a str, &'a Songs);

    ghost next_gives = { TakesFirst deref_pair };

    ghost remaining = { λ s. at_most (length s) };

    fn next(&mut self) -> Option<(&'a str, &'a Songs)> {
        let (name, songs) = self.lists.next()?;
        Some((name.as_str(), songs))
    }
}
