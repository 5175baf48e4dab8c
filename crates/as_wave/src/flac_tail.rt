// The chunk of a tag behind the samples of the WAVE file that a FLAC file stands for.
ghost use Rattle.std.specs.Prelude.{◌+◌, ◌≤◌, ◌<◌, ◌^◌, length};

/// The chunk of a tag.
#[derive(Debug, Drop)]
pub struct FlacTail {
    /// The chunk up to the bytes of a picture.
    pub front: Vec<u8>,
    /// Where those stand in the file.
    pub picture: u64,
    pub picture_len: u64,
    /// How many bytes pad the chunk.
    pub pad: u64,
    ghost padded: { pad ≤ 1 },
    ghost small: { length front.items + (picture_len + pad) < 2 ^ 32 },
    ghost reach: { picture + picture_len < 2 ^ 64 },
}
