//! FLAC frames (RFC 9639, section 9): from bytes to samples.
#![tactic(auto)]

mod bits;
mod channels;
mod crc;
mod decorrelation;
mod fields;
mod frame;
mod head;
pub mod laws;
mod power;
mod prediction;
mod refusal;
mod residual;
mod signed;
mod subframe;
#[cfg(test)]
mod tests;
mod whole;

pub use fields::MAX_RATE;
pub use frame::{FrameDecoder, FrameRead};
pub use head::{Channels, FrameHead, Stream};
pub use refusal::FrameError;
