/// The positions of the queue from `start` up to, but not including, `end`.
#[derive(Clone, Copy, Debug)]
pub struct Block {
    pub start: usize,
    pub end: usize,
}

impl Block {
    /// No position.
    pub const NONE: Block = Block { start: 0, end: 0 };
}
