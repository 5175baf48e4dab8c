//! The clients of the daemon on one thread: what they ask is gathered and served, and what is given to them is sent.
#![tactic(auto)]

pub mod client;
pub mod clients;
mod connections;
pub mod event;
mod grouping;
pub mod listener;
pub mod memory;
pub mod part;
pub mod pictures;
mod queue;
pub mod ready;
pub mod refusal;
mod seeking;
mod slots;
pub mod sockets;
pub mod stream;
mod turning;

pub use client::Client;
pub use clients::Clients;
pub use daemon_core::{ClockTime, PictureTold};
pub use event::ClientEvent;
pub use listener::Listener;
pub use memory::{MemListener, MemReady, MemStream};
pub use part::Part;
pub use pictures::{PictureLine, PictureOrder, PictureRead};
pub use ready::{Interest, Ready, Token};
pub use refusal::ClientsError;
pub use seeking::picture_asked;
pub use sockets::{Socket, SocketListener, SocketReady};
pub use stream::Stream;

/// How many clients may be connected at once.
pub const CLIENT_LIMIT: usize = 100;

/// How many calls are made on a socket before the next turn of the loop.
const CALL_LIMIT: u32 = 65_536;

/// How many events are served together, at most.
const GROUP_LIMIT: usize = 64;

/// How much a turn of the loop should look at, as docs/PROTOCOL.md counts it, before it serves no further group: a tenth of a second.
pub const TURN_LOOKS: u64 = 2_000_000;

/// For how many milliseconds a client keeps its place in silence: an hour.
pub const YIELD_AFTER: u64 = 3_600_000;

/// The same of one of which no request was served yet: ten seconds. Who connects to ask for something asks at once.
pub const YIELD_UNSERVED_AFTER: u64 = 10_000;

/// How many bytes are read at once, at most.
const READ_SIZE: usize = 1_024;
