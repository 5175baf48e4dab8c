//! A file on a disk as a journal sees it: what a read gives, and what a crash at any moment may leave of it.
#![tactic(auto)]

mod call;
mod disk;
mod file;
mod fuse;
mod memory;
mod refusal;
mod window;

pub use disk::Disk;
pub use file::FileDisk;
pub use fuse::{Fuse, FuseDisk};
pub use memory::MemDisk;
pub use refusal::DiskError;
