// The tags of a song.
ghost use Rattle.std.specs.Prelude.{◌≡◌, ◌+◌, ◌<◌, ◌↔◌, ◌==◌, [], Some, IsTrue, OnOk, OnErr, length, option_copied, slice_get};
ghost use Rattle.std.specs.Prelude.{nat_lt, slice_range};
ghost use Rattle.std.specs.List.{position_or_len};
ghost use Rattle.song_files.specs.Tag.{number_of};
ghost use Rattle.song_files.specs.Text.{is_tag_text};
ghost use Rattle.song_files.specs.Places.{IsPlace};
ghost use Rattle.song_files.specs.declared.tags.Place.{Place};

use crate::Tag;
use std::alloc::{AllocError, Global};
use std::marker::Model;

/// How many texts a song may have.
pub const MAX_TAGS: usize = 255;

// A text of a tag: where it begins among the bytes of all, and how many it has.
#[derive(Clone, Copy, Debug)]
struct Place {
    start: u32,
    len: u16,
    tag: Tag,
}

/// The tags of a song: texts in the order of the tags' numbers, those of one tag in the order in which they were added. Each has the
/// form of a tag's text. They take two allocations, however many there are.
#[derive(Debug, Drop)]
pub struct Tags {
    text: String,
    places: Vec<Place>,
}

impl Model for Tags {
    ghost use Rattle.std.specs.Prelude.{List, string_bytes};
    ghost use Rattle.song_files.specs.Tags.{TagText};

    ghost Value = { List TagText };

    ghost use Rattle.song_files.specs.Places.{texts_at, ArePlaces};

    ghost view = { λ t. texts_at (string_bytes t.text) t.places.items };

    ghost invariant = { λ t. ArePlaces (string_bytes t.text) t.places.items };
}

impl Tags {
    ghost use Rattle.song_files.specs.Tags.{texts_of, first_text, added, AreTags};

    /// No text. It takes no memory yet.
    pub fn new(alloc: Global) -> Self
        ensures { result ≡ [] }
    {
        Tags {
            text: String::new(alloc),
            places: Vec::new(alloc),
        }
    }

    /// How many texts there are, at most 255.
    pub fn len(&self) -> usize
        ensures len { result ≡ length self.now }
        ensures good { AreTags self.now }
    {
        self.places.len()
    }

    pub fn is_empty(&self) -> bool
        ensures { result ≡ (length self.now == 0) }
    {
        self.len() == 0
    }

    /// A text and its tag, by its place in the order of all.
    pub fn at(&self, i: usize) -> (Tag, &str)
        requires { i < length self.now }
        ensures { slice_get self.now i ≡ Some (record { tag = result.0; text = result.1.now }) }
    {
        let place = self.places[i];
        (place.tag, text_of(self.text.as_str(), place))
    }

    /// The first text of a tag.
    pub fn get(&self, tag: Tag) -> Option<&str>
        ensures { option_copied result ≡ first_text self.now tag }
    {
        self.nth(tag, 0)
    }

    /// A text of a tag, by its place among those of the tag.
    pub fn nth(&self, tag: Tag, n: usize) -> Option<&str>
        ensures { option_copied result ≡ slice_get (texts_of self.now tag) n }
    {
        let mut left = n;
        for place in &self.places {
            if place.tag == tag {
                if left == 0 {
                    return Some(text_of(self.text.as_str(), *place));
                }
                left -= 1;
            }
        }
        None
    }

    /// Adds a text behind those of its tag; passes it by where there are 255 already. Where memory is wanting, all stays as it was.
    pub fn add(&mut self, tag: Tag, text: &str) -> Result<(), AllocError>
        requires { IsTrue (is_tag_text text.now) }
        ensures ok { OnOk result (self.new ≡ added self.old tag text.now) }
        ensures err { OnErr result (self.new ≡ self.old) }
    {
        if self.places.len() >= MAX_TAGS {
            return Ok(());
        }
        let place = Place {
            start: self.text.len() as u32,
            len: text.len() as u16,
            tag,
        };
        self.places.reserve_exact(1)?;
        self.text.reserve_exact(text.len())?;
        self.text.push_str(text)?;
        let at = place_for(&self.places, tag);
        self.places.insert(at, place)?;
        Ok(())
    }

    /// Whether the same texts stand in both.
    pub fn is_same(&self, other: &Tags) -> bool
        ensures { IsTrue result ↔ (self.now ≡ other.now) }
    {
        if self.len() != other.len() {
            return false;
        }
        for i in 0..self.len() {
            let (tag, text) = self.at(i);
            let (other_tag, other_text) = other.at(i);
            if tag != other_tag || text != other_text {
                return false;
            }
        }
        true
    }
}

// How many texts stand before one of a tag.
fn place_for(places: &[Place], tag: Tag) -> usize
    ensures { result ≡ position_or_len (λ (p : Place). nat_lt (number_of tag) (number_of p.tag)) places.now }
{
    for (i, place) in places.iter().enumerate() {
        if tag.number() < place.tag.number() {
            return i;
        }
    }
    places.len()
}

// The text at a place.
fn text_of(text: &str, place: Place) -> &str
    requires { IsPlace text.now place }
    ensures { result.now ≡ slice_range text.now place.start (place.start + place.len) }
{
    let start = place.start as usize;
    &text[start..start + usize::from(place.len)]
}
