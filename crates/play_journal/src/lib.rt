//! Records behind a gate: a journal over two files, in which each record is found whole or not at all.
#![tactic(auto)]

mod appending;
mod creating;
mod group;
mod journal;
pub mod laws;
mod laying;
mod opening;
mod pieces;
mod reading;
mod refusal;
mod stored;

pub use group::{GROUP_LEN, Group};
pub use journal::Journal;
pub use pieces::{LONGEST_PIECE, Pieces};
pub use refusal::{JournalError, Refused};
pub use stored::Stored;
