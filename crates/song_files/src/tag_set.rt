// Which tags are read, told and asked for.
ghost use Rattle.std.specs.Prelude.{◌≡◌, ◌||◌, ◌&&◌, not, nat_lt, true, false};
ghost use Rattle.song_files.specs.Tag.{is_tag, number_of};
ghost use Rattle.song_files.specs.TagSet.{has_tag};
ghost use Rattle.song_files.specs.declared.tag.Tag.{Tag};

use crate::{TAG_COUNT, Tag};

/// Some of the tags.
#[derive(Clone, Copy, Debug, PartialEq, Eq)]
pub struct TagSet {
    // A bit for each tag, that of its number.
    mask: u64,
}

impl TagSet {
    /// No tag.
    pub const NONE: TagSet = TagSet { mask: 0 };

    /// Title, artist, album, date, genre and comment.
    pub const SIX: TagSet = TagSet { mask: 0b11_1111 };

    /// All tags that there are.
    pub const ALL: TagSet = TagSet {
        mask: (1 << TAG_COUNT) - 1,
    };

    /// Whether the set has a tag.
    pub fn contains(self, tag: Tag) -> bool
        ensures { result ≡ has_tag self tag }
    {
        (self.mask >> tag.number()) & 1 == 1
    }

    /// The set with one more tag.
    pub fn with(self, tag: Tag) -> TagSet
        ensures { (other : Tag) → has_tag result other ≡ (is_tag tag other || has_tag self other) }
    {
        TagSet {
            mask: self.mask | (1 << tag.number()),
        }
    }

    /// The set without a tag.
    pub fn without(self, tag: Tag) -> TagSet
        ensures { (other : Tag) → has_tag result other ≡ (not (is_tag tag other) && has_tag self other) }
    {
        TagSet {
            mask: self.mask & !(1 << tag.number()),
        }
    }
}

/// What the three sets have, for the layers above: a call brings its clauses into their proofs.
pub fn tag_sets()
    ensures none { (tag : Tag) → has_tag TagSet.NONE tag ≡ false }
    ensures six { (tag : Tag) → has_tag TagSet.SIX tag ≡ nat_lt (number_of tag) 6 }
    ensures all { (tag : Tag) → has_tag TagSet.ALL tag ≡ true }
{}
