// Changes of stored playlists.
use crate::op::row_numbers::RowNumbers;
use crate::op::text::Text;

/// A change of the stored playlists. Positions count from 0; a range goes from `start` up to, but not including, `end`.
#[derive(Debug, Drop)]
pub enum ListOp {
    /// The queue's songs are stored as a new playlist.
    Save { name: Text },
    /// Songs are added at the end of a playlist, which is made if missing.
    Add { name: Text, rows: RowNumbers },
    Remove { name: Text, start: u32, end: u32 },
    /// The song at position `from` is moved so that it stands at `to`.
    Move { name: Text, from: u32, to: u32 },
    /// All songs are taken out; the playlist stays.
    Clear { name: Text },
    Rename { from: Text, to: Text },
    /// The playlist is taken out.
    Drop { name: Text },
}
