//! The daemon over disks, folders, an output and connections of any kind: its threads, its loop, and the life after a disk fault.
#![tactic(auto)]

mod ending;
mod ends;
mod failures;
mod job_folder;
mod jobs;
mod life;
mod line_limit;
mod looping;
mod opening;
mod pictures;
mod room_lines;
mod server;
mod tally;
mod workers;

pub use ending::{ServeEnd, ServeStatus, refusal_number};
pub use job_folder::{JobFolder, MAX_LISTINGS, MAX_OPENINGS, Visits};
pub use line_limit::{LineLimit, TimedLimit};
pub use opening::{Opened, open_journal};
pub use server::serve;
pub use workers::{NothingWaits, Resuming, Stop, Workers};
