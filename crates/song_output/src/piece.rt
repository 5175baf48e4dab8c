// What becomes of an order.
use player_core::BrokenCause;

/// How many frames are played for one order at most.
pub const MAX_FRAMES: usize = 4_096;

/// What was done for an order.
#[derive(Clone, Copy, Debug)]
pub enum Piece {
    /// So many frames were written, at most 4,096. They are all that the file has from the ordered one on where `is_last`
    /// says so; there may be none then.
    Written { frames: u64, is_last: bool },
    /// The song can't be played on.
    Failed(BrokenCause),
}
