// What a test looks at, and how it compares.
ghost use Rattle.std.specs.Prelude.{◌≡◌};
ghost use Rattle.filter_expr.specs.Looked.{is_of, told_subject};

use crate::fallback::told_tag;
use song_files::{Tag, Tags};

/// What of a song a test looks at.
#[derive(Clone, Copy, Debug, PartialEq, Eq)]
pub enum Subject {
    /// The texts that are told for a tag, which may be absent.
    OfTag(Tag),
    /// The texts of all tags, of which the empty value says that there is none.
    Any,
    /// The texts of all tags, none of which is empty.
    AnyText,
    /// The URI, which is never absent.
    File,
}

impl Subject {
    /// The subject with the tag whose texts are told for its own.
    pub(crate) fn told(self, tags: &Tags) -> Subject
        ensures { result ≡ told_subject tags.now self }
    {
        match self {
            Subject::OfTag(tag) => Subject::OfTag(told_tag(tags, tag)),
            Subject::Any => Subject::Any,
            Subject::AnyText => Subject::AnyText,
            Subject::File => Subject::File,
        }
    }

    /// Whether a test looks at the texts of a tag.
    pub(crate) fn is_of(self, tag: Tag) -> bool
        ensures { result ≡ is_of self tag }
    {
        match self {
            Subject::OfTag(own) => tag == own,
            Subject::Any => true,
            Subject::AnyText => true,
            Subject::File => false,
        }
    }
}

/// How a test compares a text with its value.
#[derive(Clone, Copy, Debug, PartialEq, Eq)]
pub enum Comparison {
    Equals,
    Contains,
    /// Whether the text begins with the value.
    Begins,
    /// That of a pair of a tag and a value: equality where the case counts, and else containment, but for the empty value.
    Pair,
    /// That of a pair in the wide profile: where the case doesn't count, the empty value is contained too.
    WidePair,
}

/// What of a song's file a test looks at.
#[derive(Clone, Copy, Debug, PartialEq, Eq)]
pub struct AudioFormat {
    /// Frames a second, or any.
    pub rate: Option<u64>,
    pub sample: Option<Sample>,
    pub channels: Option<u64>,
}

/// What a sample is: a whole number of so many bits, a number with a point, or one bit of a stream of them.
#[derive(Clone, Copy, Debug, PartialEq, Eq)]
pub enum Sample {
    Bits8,
    Bits16,
    Bits24,
    Bits32,
    Float,
    Dsd,
}
