//! The words of a line, the command that they ask for, and the lines of an answer.
#![tactic(auto)]

pub mod answer;
mod argument;
pub mod command;
pub mod control;
mod counts;
mod each;
pub mod laws;
pub mod line;
pub mod lines;
pub mod name;
mod named;
pub mod place;
pub mod range;
pub mod refusal;
pub mod request;
mod stop;
mod table;
pub mod tag_list;
pub mod tag_mask;
pub mod text;
mod time;
mod topic;
pub mod words;

pub use answer::{
    CurrentSong, NoMemory, StatusLines, WANT_OF_MEMORY_LENGTH, write_ack, write_changed,
    write_channel, write_commands, write_counts, write_directory, write_entry, write_file,
    write_greeting, write_id, write_job, write_list_ok, write_message, write_named_file,
    write_number, write_numbered_file, write_ok, write_pair, write_picture, write_place,
    write_playlist, write_setup, write_setup_status, write_song, write_statistics, write_status,
    write_sticker, write_tag_type, write_times, write_value, write_volume,
};
pub use argument::{number, number_to, window};
pub use command::database::DatabaseCommand;
pub use command::finding::{FindingCommand, Search};
pub use command::lists::{ListsCommand, SaveMode};
pub use command::messages::MessagesCommand;
pub use command::pictures::PicturesCommand;
pub use command::playing::PlayingCommand;
pub use command::queue::QueueCommand;
pub use command::session::SessionCommand;
pub use command::settings::{SettingsCommand, VolumeStep};
pub use command::setup::SetupCommand;
pub use command::sticker::{StickersCommand, ValueBound};
pub use command::{Command, NamedCommand};
pub use control::ControlLine;
pub use line::{read_words, want_of_memory};
pub use lines::{Lines, LinesRef};
pub use name::CommandName;
pub use place::Place;
pub use range::{EntryIds, PositionRange, PositionRanges, Window};
pub use refusal::{
    AckCode, CommandRefusal, MessagesRefusal, ReadError, Refusal, SetupRefusal, TagsRefusal,
};
pub use request::{Line, Request};
pub use tag_list::TagList;
pub use tag_mask::{MaskChange, TagMask};
pub use text::Text;
pub use words::{Word, WordsError};
