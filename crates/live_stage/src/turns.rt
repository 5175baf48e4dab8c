// The answers to a group of events.
use crate::LiveError;
use crate::turn::Turn;
use daemon_core::Event;

/// What a group of events came to, whose records reached the disk together.
#[derive(Drop)]
pub struct Turns<D> {
    /// The answers to the first ones of the events, in order.
    pub turns: Vec<Turn<D>>,
    /// Whether the event behind these was refused for want of memory. Nothing was done for it, and it is let go.
    pub is_refused: bool,
    /// The events behind those, in order: they were not begun.
    pub rest: Vec<Event>,
}

/// A group of which no event was answered.
#[derive(Drop)]
pub struct RefusedTurns {
    /// Why.
    pub error: LiveError,
    /// The events that were not begun, in order. Those before them were refused: the first one alone, or, by a disk fault now, all that
    /// were begun.
    pub rest: Vec<Event>,
}
