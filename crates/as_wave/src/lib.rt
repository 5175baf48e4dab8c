//! Sound files as the WAVE files of 16-bit PCM that they stand for.
#![tactic(auto)]

mod chunks;
mod file_kind;
mod flac_chunk;
mod flac_layout;
mod flac_names;
mod flac_plan;
mod flac_read;
mod flac_samples;
mod flac_tag;
mod flac_tail;
#[cfg(test)]
mod flac_tests;
mod flac_texts;
mod folder;
mod form;
mod format;
mod forms;
mod head;
mod laws;
mod pick;
mod pieces;
mod plan;
mod planning;
mod samples;
#[cfg(test)]
mod tests;
mod wave_source;

pub use file_kind::{FRONT_LEN, FileKind, describe};
pub use folder::AsWave;
pub use format::{SampleFormat, SampleWidth};
pub use forms::Forms;
pub use laws::{
    flac_comments_are_told, flac_file_is_read, flac_frames_are_the_samples, frames_are_the_samples,
    plain_file_stays, wave_file_is_read,
};
pub use wave_source::WaveSource;
