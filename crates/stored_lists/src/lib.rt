//! The stored playlists: lists of song URIs under names.
#![tactic(auto)]

pub mod limits;
pub mod lists;
pub mod name;
mod named;
pub mod refusal;
pub mod songs;
pub mod times;

pub use limits::{MAX_ENTRIES, MAX_LISTS, MAX_NAME_BYTES};
pub use lists::{Iter, Lists, Names};
pub use name::{ListName, is_good_name};
pub use refusal::{ListsError, PartError};
pub use songs::Songs;
pub use times::{ListTime, ListTimes};
