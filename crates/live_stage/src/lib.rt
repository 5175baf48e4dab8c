//! The daemon's state and its journal together: one event, one record.
#![tactic(auto)]

mod checkpointing;
mod decoding;
mod due;
mod group_run;
pub mod laws;
mod live;
mod recording;
mod refusal;
mod run;
mod staging;
mod turn;
mod turns;

pub use live::Live;
pub use refusal::{LiveError, Refused, StartError};
pub use turn::{Receipt, Turn, TurnResult};
pub use turns::{RefusedTurns, Turns};
