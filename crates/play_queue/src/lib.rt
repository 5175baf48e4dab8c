//! The queue: entries with ids, their order, and the version and stamps by which clients see what has changed.
#![tactic(auto)]

mod drawn;
pub mod entries;
pub mod entry;
mod entry_list;
mod hints;
mod latest;
pub mod limits;
mod marks;
mod places;
mod priority;
pub mod queue;
pub mod ranges;
pub mod refusal;
mod rows;
mod shuffling;
mod song;
mod song_list;
mod stamping;
pub mod target;
pub mod uris;

pub use entries::Entries;
pub use entry::{Entry, EntryRef};
pub use limits::{MAX_ENTRIES, MAX_ID, MAX_VERSION};
pub use queue::{Queue, QueueBuilder};
pub use ranges::Ranges;
pub use refusal::{PartError, QueueError};
pub use target::Target;
pub use uris::SortedUris;
