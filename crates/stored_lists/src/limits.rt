/// How many playlists there may be.
pub const MAX_LISTS: usize = 1_024;

/// How many entries all playlists may have together.
pub const MAX_ENTRIES: usize = 65_536;

/// How many bytes of UTF-8 a playlist's name may have.
pub const MAX_NAME_BYTES: usize = 256;
