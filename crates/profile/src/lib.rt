//! Which of MPD's songs, tags and commands the daemon knows.
#![tactic(auto)]

mod profile;

pub use profile::Profile;
