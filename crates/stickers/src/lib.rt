//! The stickers: values that clients attach to songs, each under a name.
#![tactic(auto)]

mod by_song;
mod copying;
pub mod find;
pub mod limits;
pub mod name;
pub mod refusal;
mod searching;
pub mod song;
pub mod stickers;
pub mod value;

pub use find::{Found, FoundSticker, ValueTest};
pub use limits::{MAX_NAME_BYTES, MAX_STICKERS, MAX_VALUE_BYTES};
pub use name::is_good_name;
pub use refusal::{PartError, StickersError};
pub use song::{NamedValues, SongStickers};
pub use stickers::{Iter, Stickers, StickersBuilder};
pub use value::{StickerValue, is_good_value};
