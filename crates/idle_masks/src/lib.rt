//! What each client has pending: the subsystems that changed since they were last reported to it, and the ones for which it waits.
#![tactic(auto)]

pub mod ready;
pub mod refusal;
pub mod subsystem;
pub mod watch;

pub use ready::{ReadyRoom, Report, Reports};
pub use refusal::WatchError;
pub use subsystem::{Subsystem, Subsystems};
pub use watch::{Watch, Watched};

/// The number of a client: from 1 on, rising, and never used again.
pub type ClientId = u64;
