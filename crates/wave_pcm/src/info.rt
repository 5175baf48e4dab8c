// What a head tells.
use song_files::Tags;

/// Where the data of a chunk stand.
#[derive(Clone, Copy, Debug, PartialEq, Eq)]
pub struct ChunkPlace {
    /// The place of the first byte in the file.
    pub first: u64,
    /// How many bytes there are, up to the end of the file.
    pub len: u64,
}

/// What the head of a WAVE file tells: how to find its frames, and its tags.
#[derive(Debug, Drop)]
pub struct WaveInfo {
    /// Frames a second, 1 to 192,000.
    pub rate: u32,
    /// Samples a frame, 1 or 2.
    pub channels: u16,
    /// The place of the first sample in the file, in bytes.
    pub first_byte: u64,
    /// How many whole frames there are.
    pub frames: u64,
    pub tags: Tags,
}

/// What the head of a WAVE file tells, and where its ID3v2 tag stands.
#[derive(Debug, Drop)]
pub struct WaveHead {
    pub info: WaveInfo,
    /// The first chunk `id3 ` or `ID3 ` of the file, if there is one.
    pub id3: Option<ChunkPlace>,
}
