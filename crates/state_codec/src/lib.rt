//! The stored form of the daemon's state: ops, of which the records of a journal are made, and the snapshot.
#![tactic(auto)]

mod checksum;
mod fields;
pub mod laws;
mod layout;
pub mod op;
mod pieces;
mod reading;
pub mod refusal;
pub mod saved;
mod sealed;
mod writing;

pub use layout::layout_number;
pub use op::{
    Changes, ListOp, Op, OpRanges, PlaceOp, QueueOp, RowNumbers, Setting, StickerOp, Text,
};
pub use pieces::SavedPieces;
pub use reading::{take_ops, take_saved};
pub use refusal::{ApplyError, BodyError, CodecError, OpRefusal};
pub use saved::{Saved, SavedParts, dropped_by, row_behind};
pub use sealed::checksum_len;
pub use writing::{put_op, put_ops, put_saved};
