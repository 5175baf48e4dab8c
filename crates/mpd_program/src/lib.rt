//! What the program does: its command line, its configuration, its tasks and their exit status, and the console.
#![tactic(auto)]

pub mod arguments;
mod calls;
pub mod config;
pub mod config_key;
mod config_lines;
pub mod console;
mod daemon;
pub mod daemon_clock;
mod daemon_decoder;
mod error_lines;
pub mod exit;
mod file_lock;
mod journal_file;
mod journal_head;
pub mod library;
mod limited_files;
mod listening;
mod look;
mod lost_file;
mod music;
mod music_lines;
mod output;
mod process_limits;
mod program_words;
mod readiness;
mod serve_config;
mod slow_opening;
mod stop_flag;
mod stopping_folder;
pub mod tasks;
mod told_listener;

pub use arguments::Task;
use client_session::OUTPUT_LIMIT;
pub use config::{Config, ConfigError};
pub use config_key::ConfigKey;
pub use console::{ConsoleEnd, Ending, Status, run_console};
pub use error_lines::{put_line, takes_line};
pub use exit::Exit;
pub use library::{plain_rules, rules_of};
use machine_core::LONGEST_ANSWER;
pub use serve_config::ServeConfig;
pub use tasks::run_command_line;

// What a session refuses as too long is just what isn't given out whole.
const _: () = prove!(LONGEST_ANSWER == OUTPUT_LIMIT);
