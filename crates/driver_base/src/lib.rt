//! What the driver of scripts has below its threads: the lines of its input and what is printed behind each; the two files and what stands
//! over them; the stored form of a state; clients over one core.
#![tactic(auto)]

mod calls;
pub mod clients;
mod codec;
pub mod desk;
pub mod driver;
pub mod event;
mod fake;
pub mod fault;
pub mod file;
mod given;
mod journal;
pub mod lines;
mod picture;
pub mod printer;
mod room;
pub mod rows;
pub mod shown;
pub mod signs;
pub mod songs;
mod stage;
pub mod wire;
pub mod words;

pub use desk::Desk;
pub use driver::Driver;
pub use fault::Fault;
pub use file::{DaemonDisk, TestDisk};
pub use lines::{Lines, write_out};
pub use printer::Printer;
