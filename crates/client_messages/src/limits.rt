// The limits on channels and messages.

/// How many bytes the name of a channel may have.
pub const MAX_CHANNEL_BYTES: usize = 256;

/// How many channels a client may have.
pub const MAX_CHANNELS: usize = 16;

/// How many messages a client may have that it hasn't read.
pub const MAX_UNREAD: usize = 64;

/// How many bytes they may have together, with the names of their channels.
pub const MAX_UNREAD_BYTES: usize = 65_536;
