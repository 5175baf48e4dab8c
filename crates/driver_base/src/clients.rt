//! A core and its clients, a session for each.
mod client;
mod connected;
mod events;
mod life;
mod looks;
mod recover;
mod sends;
mod stream;

pub use life::live_core;
