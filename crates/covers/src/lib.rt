//! The pictures of songs and albums: which file of a folder, which of a song's file, a chunk of one, and what is asked and answered.
#![tactic(auto)]

mod album;
mod asked;
mod chunk;
mod kind;
mod limits;
mod place;
mod refusal;
mod song;

pub use album::album_picture;
pub use asked::{PictureAnswer, PictureAsk, PictureChunk};
pub use chunk::{read_chunk, whole_file};
pub use kind::PictureKind;
pub use limits::{MAX_CHUNK_LEN, MAX_PICTURE_LEN};
pub use place::PicturePlace;
pub use refusal::CoverError;
pub use song::{SongPicture, read_picture};
