//! The messages that clients send to one another: who has which channels, and what each hasn't read yet.
#![tactic(auto)]

pub mod channel;
pub mod channel_names;
pub mod client_messages;
pub mod delivery;
pub mod laws;
pub mod limits;
pub mod listener;
pub mod message;
pub mod refusal;
pub mod unread;

pub use channel::{ChannelName, Channels, is_channel_name};
pub use channel_names::ChannelNames;
pub use client_messages::ClientMessages;
pub use delivery::Notified;
pub use limits::{MAX_CHANNEL_BYTES, MAX_CHANNELS, MAX_UNREAD, MAX_UNREAD_BYTES};
pub use listener::Listener;
pub use message::{Message, MessageText};
pub use refusal::MessagesError;
pub use unread::Unread;

/// The number of a client: from 1 on, rising, and never used again.
pub type ClientId = u64;
