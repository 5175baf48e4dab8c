//! FLAC files (RFC 9639): their heads, with comments and pictures, and their samples.
#![tactic(auto)]

mod blocks;
mod comments;
mod decoding;
mod fields;
mod head;
mod id3;
mod numbers;
mod pictures;
mod places;
mod read;
mod reader;
mod refusal;
mod side_by_side;
mod stream_info;
#[cfg(test)]
mod tests;
mod text;

pub use comments::{Comment, Comments, MAX_COMMENTS};
pub use head::{FlacHead, read_head};
pub use pictures::{MAX_PICTURES, Picture, Pictures};
pub use reader::FlacReader;
pub use refusal::FlacError;
pub use stream_info::{MAX_RATE, StreamInfo};
