// The limits on what is read of a tag.

/// How many frames of a tag are looked at; those behind them are passed by.
pub const MAX_FRAMES: usize = 1024;

/// How many texts a tag gives; those behind them are passed by.
pub const MAX_TEXTS: usize = 256;

/// How many bytes a text frame may have; a longer one is passed by.
pub const MAX_TEXT_LEN: u64 = 65_536;

/// Within how many bytes of its frame a picture begins; one that begins later is passed by.
pub const MAX_FRONT_LEN: u64 = 2048;

/// How many bytes a tag that is unsynchronised as a whole may have; of a longer one no frame is read.
pub const MAX_WHOLE_LEN: u64 = 1_048_576;

/// The sizes of tags and frames of version 2.4 are below this one.
pub const MAX_SIZE: u64 = 268_435_456;
