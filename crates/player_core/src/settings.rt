// The saved settings that the rules of the player read.
use crate::manners::Manners;
use crate::options::Options;

/// The saved settings that the rules of the player read, beside the queue.
#[derive(Clone, Copy, Debug)]
pub struct PlaySettings {
    pub options: Options,
    pub manners: Manners,
    /// The key of the random words.
    pub key: [u8; 32],
    /// The number of the stream of words by which the present random round goes; 0 follows 2^64-1.
    pub order: u64,
}
