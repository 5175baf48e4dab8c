//! One stage that threads share: a lock round it, and passes that say who made which of its events.
#![tactic(auto)]

mod account;
mod books;
mod grouping;
mod kind;
pub mod laws;
mod locked;
mod outbox;
mod pass;
mod player;
mod refusal;
mod replacing;
mod scan;
mod served;
mod settling;
mod shared;
mod under_lock;
mod worker;

pub use books::Blanks;
pub use kind::Kind;
pub use locked::Locked;
pub use outbox::{Outbox, Outputs};
pub use pass::Pass;
pub use player::{player_worker, resume_player};
pub use refusal::{PassesSpent, SettleError, StageError};
pub use scan::{ScanFolder, Scanned, next_changes, scan_worker};
pub use served::{Served, ServedGroup, Way};
pub use shared::SharedStage;
pub use worker::{NoWake, Wake, Worker};
