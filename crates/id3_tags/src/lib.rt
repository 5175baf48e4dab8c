//! ID3v2 tags of versions 2.2, 2.3 and 2.4: read from a source, and written.
#![tactic(auto)]

mod frame_head;
mod frames;
mod limits;
mod numbers;
mod pictures;
mod reader;
mod refusal;
mod strings;
mod tag;
mod tag_head;
#[cfg(test)]
mod tests;
mod texts;
mod unsynchronisation;
mod writable;
mod writer;

pub use limits::{MAX_FRAMES, MAX_FRONT_LEN, MAX_SIZE, MAX_TEXT_LEN, MAX_TEXTS, MAX_WHOLE_LEN};
pub use pictures::{Picture, Pictures};
pub use reader::read_tag;
pub use refusal::TagError;
pub use tag::Id3Tag;
pub use texts::{TagText, Texts};
pub use writer::{PictureFront, TextFrame, write_tag};
