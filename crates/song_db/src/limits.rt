//! The limits of the database and of scans.

/// How many bytes of UTF-8 a URI may have.
pub const MAX_URI_BYTES: usize = 1024;

/// How many rows the database may have.
pub const MAX_ROWS: usize = 65_536;

/// How many changes an answer of a scan may have.
pub const MAX_CHANGES: usize = 64;

/// How many bytes the texts of a row's tags may take where all of MPD's tags are known, with three more for each text.
pub const MAX_ROW_TAG_BYTES: usize = 30_000;

/// How many folders a scanned song may stand in, counted from the root of the music.
pub const MAX_FOLDERS: usize = 32;
