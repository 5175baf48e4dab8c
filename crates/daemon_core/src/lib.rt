//! The daemon as a state machine: what each event does to its state, and what the clients get.
#![tactic(auto)]

mod clients;
pub mod daemon;
pub mod event;
mod handled;
pub mod laws;
pub mod outcome;
mod parts;
pub mod picture;
mod pictures;
pub mod recover;
mod request;
mod room;
mod step;
mod talk;
mod tell;
pub mod view;
mod views;
mod watching;

pub use daemon::Core;
pub use event::Event;
pub use machine_core::ClockTime;
pub use no_memory::NoMemory;
pub use outcome::{Bytes, Outcome, Output};
pub use picture::PictureTold;
pub use recover::RecoverError;
