// A song that is known before a scan.
ghost use Rattle.std.specs.Prelude.{◌≡◌, IfOk};

use crate::uri::Uri;
use song_files::FileStamp;
use std::alloc::{AllocError, Global};

/// A song that has a row, as a scan is told of it: its URI, and the stamp that its file had.
#[derive(Debug, Drop)]
pub struct KnownSong {
    pub uri: Uri,
    /// A file that still has this stamp isn't opened; `None` where it is opened whatever its stamp is.
    pub stamp: Option<FileStamp>,
}

impl KnownSong {
    /// The same once more, with the URI in memory of its own.
    pub fn try_clone(&self, alloc: Global) -> Result<KnownSong, AllocError>
        ensures { IfOk result (λ song. song ≡ self.now) }
    {
        Ok(KnownSong {
            uri: self.uri.try_clone(alloc)?,
            stamp: self.stamp,
        })
    }
}
