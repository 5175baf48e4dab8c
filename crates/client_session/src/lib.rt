//! One client's stream: its bytes cut into requests, and what is queued for it.
#![tactic(auto)]

mod cutting;
pub mod laws;
mod listing;
mod output;
pub mod refusal;
pub mod requests;
pub mod session;

pub use refusal::SessionError;
pub use requests::Requests;
pub use session::Session;

/// How many bytes a line may have before its newline, a carriage return counted.
pub const LINE_LIMIT: usize = 8_192;

/// How many commands a list may have.
pub const COMMAND_LIMIT: usize = 16_384;

/// How many bytes the commands of a list may have together, without their newlines, carriage returns counted.
pub const LIST_LIMIT: usize = 2_097_152;

/// How many bytes may be queued.
pub const OUTPUT_LIMIT: usize = 8_388_608;
