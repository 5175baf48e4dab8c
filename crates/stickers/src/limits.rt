/// How many stickers there may be.
pub const MAX_STICKERS: usize = 65_536;

/// How many bytes of UTF-8 a sticker's name may have.
pub const MAX_NAME_BYTES: usize = 256;

/// How many bytes of UTF-8 a sticker's value may have.
pub const MAX_VALUE_BYTES: usize = 4_096;
