// What a client's event is answered with.
use crate::Outbox;
use daemon_core::Event;
use live_stage::Turn;

/// What an event of the clients came to.
#[derive(Drop)]
pub struct Served<D> {
    /// What events of the player and the scan had left for the clients before it.
    pub before: Outbox,
    /// Its own answer.
    pub turn: Turn<D>,
}

/// What a group of the clients' events came to, whose records reached the disk together.
#[derive(Drop)]
pub struct ServedGroup<D> {
    /// What events of the player and the scan had left for the clients before it.
    pub before: Outbox,
    /// The answers to the first ones of the events, in order.
    pub turns: Vec<Turn<D>>,
    /// Whether the event behind these was refused for want of memory. Nothing was done for it, and it is let go.
    pub is_refused: bool,
    /// The events behind those, in order: they were not begun.
    pub rest: Vec<Event>,
}

/// What becomes of an event's outputs.
#[derive(Clone, Copy, Debug, PartialEq, Eq)]
pub enum Way {
    /// They are handed over, behind all that was left in the outbox.
    Serve,
    /// They are left in the outbox.
    Report,
}
