//! The daemon without its clients: what each command means for the saved half, the player and the job of the database, and the
//! code that does it.
#![tactic(auto)]

mod adding;
mod answer;
mod answer_database;
mod answer_entries;
mod answer_lists;
mod changed;
pub mod clock;
mod commands;
mod current;
mod edit;
mod full_disk;
mod happened;
pub mod job;
mod keeping;
pub mod laws;
pub mod looks;
pub mod machine;
mod named;
mod reports;
mod scanning;
mod span;
mod step_ops;
mod steps;
mod told;
pub mod work;

pub use clock::ClockTime;
pub use happened::Happened;
pub use job::{Job, WaitingJob, WithheldJob};
pub use looks::{Looks, MAX_LOOKS};
pub use machine::Machine;
pub use work::{Failure, LONGEST_ANSWER, MAX_REQUEST_BYTES, Work, cut_answer};
