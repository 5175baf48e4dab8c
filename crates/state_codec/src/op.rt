// An op: one change of the saved state, as the journal keeps it.
use player_core::Volume;

mod changes;
mod list_op;
mod place_op;
mod queue_op;
mod ranges;
mod row_numbers;
mod setting;
mod sticker_op;
mod text;

pub use changes::Changes;
pub use list_op::ListOp;
pub use place_op::PlaceOp;
pub use queue_op::QueueOp;
pub use ranges::OpRanges;
pub use row_numbers::RowNumbers;
pub use setting::Setting;
pub use sticker_op::StickerOp;
pub use text::Text;
pub(crate) use text::keep_utf8;

/// One change of the saved state, as a record of the journal keeps it.
///
/// A row number is the place of a song among the rows by URI, from 0 on, at the moment when the op is applied.
#[derive(Debug, Drop)]
pub enum Op {
    SetOption(Setting),
    SetVolume(Volume),
    /// The number of the random order, from which the words of random order are drawn.
    SetOrder(u64),
    Queue(QueueOp),
    List(ListOp),
    Sticker(StickerOp),
    /// What a scan changed in the database; it takes queue entries and stickers of songs that go along.
    Batch(Changes),
    /// What is kept of the player.
    Place(PlaceOp),
    /// The playlists that were changed and aren't timed yet were changed at this time, in seconds since the beginning of 1970. The named
    /// profile, which keeps no times, refuses it, as a row without a place.
    Timed(u64),
}
