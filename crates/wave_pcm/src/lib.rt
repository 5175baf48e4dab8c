//! WAVE files: their heads and tags, their frames, and volume.
#![tactic(auto)]

mod chunks;
mod format;
mod frames;
mod head;
mod info;
mod laws;
mod listing;
mod parts;
mod refusal;
mod text;
mod volume;

pub use chunks::{ChunkHead, next_chunk};
pub use format::MAX_RATE;
pub use frames::{frame_range, read_frames};
pub use head::{read_head, read_head_with_id3};
pub use info::{ChunkPlace, WaveHead, WaveInfo};
pub use laws::tag_choices;
pub use listing::MAX_CHUNKS;
pub use refusal::WaveError;
pub use volume::scale;
