// What goes over the stickers of one song.
ghost use Rattle.std.specs.Prelude.{length};
ghost use Rattle.std.specs.Iterator.{at_most};
ghost use Rattle.std.specs.Map.Iter.{TakesFirst, deref_pair};

use crate::value::StickerValue;
use std::collections::btree_map;
use std::iter::Iterator;
use std::marker::Model;

/// The stickers of one song, by the bytes of their names: the name and the value.
#[derive(Drop)]
pub struct NamedValues<'a> {
    pub(crate) values: btree_map::Iter<'a, String, StickerValue>,
}

impl<'a> Model for NamedValues<'a> {
    ghost use Rattle.stickers.specs.ByName.{by_name};
    ghost use Rattle.stickers.specs.Named.{Values};

    ghost Value = { Values };

    ghost view = { λ i. by_name i.values };
}

impl<'a> Iterator for NamedValues<'a> {
    type Item = (&'a str, &'a StickerValue);

    ghost next_gives = { TakesFirst deref_pair };

    ghost remaining = { λ s. at_most (length s) };

    fn next(&mut self) -> Option<(&'a str, &'a StickerValue)> {
        let (name, value) = self.values.next()?;
        Some((name.as_str(), value))
    }
}
