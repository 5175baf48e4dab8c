// A song's URI with the number at which its row was last known to stand.
ghost use Rattle.std.specs.Prelude.{◌≡◌, IfOk, IsTrue};
ghost use Rattle.song_db.specs.Uri.{is_uri};

use crate::uri::Uri;
use std::alloc::{AllocError, Global};
use std::marker::Model;

/// The URI of a song, and the number at which its row was last known to stand among the songs of a database.
///
/// Contracts see the bytes of the URI alone: the number says no more than where a look-up begins. A database that has
/// changed since is still asked by the URI.
#[derive(Debug, Drop)]
pub struct RowUri {
    uri: Uri,
    number: u32,
}

impl Model for RowUri {
    ghost use Rattle.std.specs.Prelude.{ℕ, List};

    ghost Value = { List ℕ };

    ghost view = { λ u. u.uri };
}

impl RowUri {
    /// A URI whose row was last known to have this number, 0 where none is known.
    pub fn new(uri: Uri, number: u32) -> RowUri
        ensures { result ≡ uri }
    {
        RowUri { uri, number }
    }

    pub fn as_uri(&self) -> &Uri
        ensures { result.now ≡ self.now }
    {
        &self.uri
    }

    pub fn as_str(&self) -> &str
        ensures text { result.now ≡ self.now }
        ensures form { IsTrue (is_uri self.now) }
    {
        self.uri.as_str()
    }

    /// The same URI once more, in memory of its own, with the same number.
    pub fn try_clone(&self, alloc: Global) -> Result<RowUri, AllocError>
        ensures { IfOk result (λ uri. uri ≡ self.now) }
    {
        Ok(RowUri {
            uri: self.uri.try_clone(alloc)?,
            number: self.number,
        })
    }

    // Where a look-up begins.
    pub(crate) fn number(&self) -> usize {
        self.number as usize
    }
}
