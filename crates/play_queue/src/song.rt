// What the queue keeps of an entry by its id.
ghost use Rattle.std.specs.Prelude.{◌≡◌};

use song_db::RowUri;
use std::alloc::{AllocError, Global};

/// The song of an entry, and the entry's priority.
#[derive(Drop)]
pub(crate) struct Song {
    pub(crate) uri: RowUri,
    pub(crate) priority: u8,
    alloc: Global,
}

impl Song {
    pub(crate) fn new(alloc: Global, uri: RowUri, priority: u8) -> Song
        ensures uri { result.uri ≡ uri }
        ensures priority { result.priority ≡ priority }
    {
        Song {
            uri,
            priority,
            alloc,
        }
    }
}

impl Clone for Song {
    ghost is_clone = { λ song copy. copy ≡ song };

    fn clone(&self) -> Result<Song, AllocError> {
        Ok(Song {
            uri: self.uri.try_clone(self.alloc)?,
            priority: self.priority,
            alloc: self.alloc,
        })
    }
}
