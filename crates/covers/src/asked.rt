// What is asked of a picture, and what is answered.
use crate::kind::PictureKind;
use std::marker::Model;

/// What is asked of a picture: its bytes from an offset on.
#[derive(Debug, Drop)]
pub struct PictureAsk {
    pub kind: PictureKind,
    /// The song's path.
    pub uri: String,
    /// How many bytes of the picture come before.
    pub offset: u32,
    /// How many bytes are wanted at most. Never more than 262,144 are told.
    pub limit: u32,
}

impl Model for PictureAsk {
    ghost use Rattle.std.specs.Prelude.{string_bytes};
    ghost use Rattle.covers.specs.Asked.{AskedPicture};

    ghost Value = { AskedPicture };

    ghost view = { λ a. record { kind = a.kind; uri = string_bytes a.uri; offset = a.offset; limit = a.limit } };
}

/// Bytes of a picture.
#[derive(Debug, Drop)]
pub struct PictureChunk {
    /// How many bytes the whole picture has.
    pub size: u64,
    /// Its MIME type; empty where that isn't known, as of an album's picture.
    pub mime: String,
    pub bytes: Vec<u8>,
}

impl Model for PictureChunk {
    ghost use Rattle.std.specs.Prelude.{string_bytes};
    ghost use Rattle.covers.specs.Asked.{ToldChunk};

    ghost Value = { ToldChunk };

    ghost view = { λ c. record { size = c.size; mime = string_bytes c.mime; bytes = c.bytes.items } };
}

/// What is answered.
#[derive(Debug, Drop)]
pub enum PictureAnswer {
    /// There is no such picture.
    NoPicture,
    /// It could not be read: nothing is said of it.
    Unreadable,
    /// It ends before the offset.
    PastEnd,
    /// Its bytes from the offset on; none where it ends there.
    Chunk(PictureChunk),
}
