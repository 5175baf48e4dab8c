// Tags in an order.
ghost use Rattle.std.specs.Prelude.{◌≡◌, ◌∷◌, ◌++◌, [], OnOk};

use song_files::Tag;
use std::alloc::{AllocError, Global};
use std::marker::Model;

/// Tags, each of which stands within the one before it.
#[derive(Debug, Drop)]
pub struct TagList {
    tags: Vec<Tag>,
}

impl Model for TagList {
    ghost use Rattle.std.specs.Prelude.{List};
    ghost use Rattle.song_files.specs.declared.tag.Tag.{Tag};

    ghost Value = { List Tag };

    ghost view = { λ t. t.tags.items };
}

impl TagList {
    pub(crate) fn new(alloc: Global) -> Self
        ensures { result ≡ [] }
    {
        TagList {
            tags: Vec::new(alloc),
        }
    }

    pub(crate) fn push(&mut self, tag: Tag) -> Result<(), AllocError>
        ensures { OnOk result (self.new ≡ self.old ++ tag ∷ []) }
    {
        self.tags.push(tag)?;
        Ok(())
    }

    /// The tags, the outermost first.
    pub fn as_slice(&self) -> &[Tag]
        ensures { result.now ≡ self.now }
    {
        self.tags.as_slice()
    }
}
