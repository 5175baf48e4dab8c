//! Music files of any format as the WAVE files that a decoder beside the daemon tells.
#![tactic(auto)]

mod answer;
mod decoder;
mod file;
mod folder;
mod link;
mod piece;
mod refusal;
mod request;
mod socket_link;
mod source;
#[cfg(test)]
mod tests;

pub use decoder::Decoder;
pub use file::DecodedFile;
pub use folder::Decoded;
pub use link::{DecoderLink, LinkFault};
pub use refusal::DecoderError;
pub use socket_link::SocketLink;
pub use source::DecodedSource;
