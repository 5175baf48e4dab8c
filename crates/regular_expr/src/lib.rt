//! Regular expressions over bytes, which are looked for in time in proportion to the text.
#![tactic(auto)]

mod byte_set;
mod classes;
mod counts;
mod fault;
pub mod laws;
mod part;
pub mod pattern;
mod place;
mod reading;

pub use pattern::Pattern;
