//! A guard before the daemon's clients: of a stream that begins as HTTP or TLS nothing is read, so that no web page commands the daemon.
#![tactic(auto)]

mod first_line;
mod guarded;
mod guarding;

pub use guarded::Guarded;
pub use guarding::{GuardedListener, GuardedReady};
