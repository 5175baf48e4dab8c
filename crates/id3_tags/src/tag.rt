// What a tag tells.
ghost use Rattle.std.specs.Prelude.{◌≡◌};
ghost use Rattle.id3_tags.specs.Reading.{empty_tag};

use crate::{Pictures, Texts};
use std::alloc::Global;

/// What an ID3v2 tag tells.
#[derive(Debug, Drop)]
pub struct Id3Tag {
    /// 2, 3 or 4.
    pub version: u8,
    pub texts: Texts,
    pub pictures: Pictures,
}

impl Id3Tag {
    /// A tag of this version that tells nothing.
    pub(crate) fn new(alloc: Global, version: u8) -> Self
        ensures { result ≡ empty_tag version }
    {
        Id3Tag {
            version,
            texts: Texts::new(alloc),
            pictures: Pictures::new(alloc),
        }
    }
}
