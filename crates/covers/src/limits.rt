// The limits on pictures.

/// How many bytes a picture may have; a longer one counts as none.
pub const MAX_PICTURE_LEN: u64 = 67_108_864;

/// How many bytes of a picture are told at once.
pub const MAX_CHUNK_LEN: u32 = 262_144;
