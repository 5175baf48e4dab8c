//! The lines of an answer. A writer adds them at the end of the answer; where memory is refused, a front of them stands there,
//! which the caller cuts off.

mod ack;
mod dates;
mod names;
mod pairs;
mod pictures;
mod setup;
mod songs;
mod status;
mod times;

pub use ack::write_ack;
pub use names::{
    write_changed, write_channel, write_commands, write_counts, write_directory, write_message,
    write_playlist, write_statistics, write_sticker, write_tag_type, write_times, write_value,
};
pub use no_memory::NoMemory;
pub use pairs::{write_greeting, write_list_ok, write_number, write_ok, write_pair};
pub use pictures::write_picture;
pub use setup::{write_setup, write_setup_status};
pub use songs::{
    write_entry, write_file, write_id, write_named_file, write_numbered_file, write_place,
    write_song,
};
pub use status::{CurrentSong, StatusLines, write_job, write_status, write_volume};

/// No `ACK` line for want of memory has more bytes, whatever its index and its command.
pub const WANT_OF_MEMORY_LENGTH: usize = 64;
