// What a turn of the loop answers, part by part.
use stage_workers::{Outbox, Served, StageError};

/// What a turn of the loop came to, part by part.
#[derive(Drop)]
pub enum Part<D> {
    /// An event was served.
    Served(Served<D>),
    /// What events of the player and of scans left for the clients, behind the events that were served.
    Collected(Outbox),
    /// The last part: an event was refused by 42 or 44, or one that is no request by 43 or 49; or there was no memory for a further
    /// part, 43. What was not served stays gathered, but a request that was refused: its client is let go of.
    Refused(StageError),
}
