// What goes over the stickers.
ghost use Rattle.std.specs.Prelude.{length};
ghost use Rattle.std.specs.Iterator.{at_most};
ghost use Rattle.std.specs.Map.Iter.{TakesFirst, deref_pair};

use crate::song::SongStickers;
use std::collections::btree_map;
use std::iter::Iterator;
use std::marker::Model;

/// The songs that have stickers, by the bytes of their URIs: the URI and the song's stickers.
#[derive(Drop)]
pub struct Iter<'a> {
    pub(crate) songs: btree_map::Iter<'a, String, SongStickers>,
}

impl<'a> Model for Iter<'a> {
    ghost use Rattle.stickers.specs.ByName.{by_name};
    ghost use Rattle.stickers.specs.Named.{Songs};

    ghost Value = { Songs };

    ghost view = { λ i. by_name i.songs };
}

impl<'a> Iterator for Iter<'a> {
    type Item = (&'a str, &'a SongStickers);

    ghost next_gives = { TakesFirst deref_pair };

    ghost remaining = { λ s. at_most (length s) };

    fn next(&mut self) -> Option<(&'a str, &'a SongStickers)> {
        let (uri, song) = self.songs.next()?;
        Some((uri.as_str(), song))
    }
}
