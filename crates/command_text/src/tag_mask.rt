// Which tags a client wants to see.
ghost use Rattle.std.specs.Prelude.{◌≡◌};
ghost use Rattle.command_text.specs.Masks.{after_change, all_in_mask, empty_mask, has, is_all, only_tag, with_tags};

use song_files::{TAG_COUNT, Tag};

/// The tags that a client sees: a number whose bits are the tags of these numbers.
#[derive(Clone, Copy, Debug)]
pub struct TagMask {
    pub bits: u64,
}

/// What `tagtypes` does to the tags that a client sees.
#[derive(Clone, Copy, Debug)]
pub enum MaskChange {
    /// None of them from here on.
    Clear,
    /// All of them.
    All,
    /// These too.
    Enable(TagMask),
    /// All that were but these.
    Disable(TagMask),
}

const ALL_BITS: u64 = (1 << TAG_COUNT) - 1;

impl TagMask {
    /// No tag.
    pub fn empty() -> Self
        ensures { result ≡ empty_mask }
    {
        TagMask { bits: 0 }
    }

    /// All tags, as a client sees them at first.
    pub fn all() -> Self
        ensures { result ≡ all_in_mask }
    {
        TagMask { bits: ALL_BITS }
    }

    /// One tag alone.
    pub fn only(tag: Tag) -> Self
        ensures { result ≡ only_tag tag }
    {
        TagMask {
            bits: 1 << tag.number(),
        }
    }

    /// Whether the tag is one of them.
    pub fn contains(self, tag: Tag) -> bool
        ensures { result ≡ has self tag }
    {
        (self.bits >> tag.number()) % 2 == 1
    }

    /// Whether all tags are seen.
    pub fn is_all(self) -> bool
        ensures { result ≡ is_all self }
    {
        self.bits == ALL_BITS
    }

    /// The tags of both.
    pub fn with(self, others: TagMask) -> Self
        ensures { result ≡ with_tags self others }
    {
        TagMask {
            bits: self.bits | others.bits,
        }
    }

    /// What is seen behind a change.
    pub fn changed(self, change: MaskChange) -> Self
        ensures { result ≡ after_change change self }
    {
        match change {
            MaskChange::Clear => TagMask::empty(),
            MaskChange::All => TagMask::all(),
            MaskChange::Enable(tags) => self.with(tags),
            MaskChange::Disable(tags) => TagMask {
                bits: self.bits & !tags.bits,
            },
        }
    }
}
