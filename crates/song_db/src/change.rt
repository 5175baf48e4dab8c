// A change of one row, as a batch has it.
ghost use Rattle.std.specs.Prelude.{◌≡◌, ◌<◌, ◌^◌, IfOk};
ghost use Rattle.song_db.specs.Change.{uri_of};
ghost use Rattle.song_db.specs.Gain.{gain_of};
ghost use Rattle.song_db.specs.ValueIndex.{coming};

use crate::row::SongRow;
use crate::uri::Uri;
use std::alloc::AllocError;

/// What a batch does to one row.
#[derive(Debug, Drop)]
pub enum RowChange {
    /// The row comes, or takes the place of the one that has its URI.
    Put(SongRow),
    /// The row that has the URI goes, if there is one.
    Drop(Uri),
}

impl RowChange {
    pub fn uri(&self) -> &str
        ensures { result.now ≡ uri_of self.now }
    {
        match self {
            RowChange::Put(row) => row.uri(),
            RowChange::Drop(uri) => uri.as_str(),
        }
    }

    // A copy of the row that it brings.
    pub(crate) fn coming(&self) -> Result<Option<SongRow>, AllocError>
        ensures { IfOk result (λ row. row ≡ coming self.now) }
    {
        match self {
            RowChange::Put(row) => Ok(Some(row.try_clone()?)),
            RowChange::Drop(_) => Ok(None),
        }
    }

    // The milliseconds that its row brings, if it comes.
    pub(crate) fn gain(&self) -> u128
        ensures gain { result ≡ gain_of self.now }
        ensures bound { result < 2 ^ 74 }
    {
        match self {
            RowChange::Put(row) => row.milliseconds(),
            RowChange::Drop(_) => 0,
        }
    }
}
