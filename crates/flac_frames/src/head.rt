// What the head of a frame says.
/// What a frame's head may leave to the stream.
#[derive(Clone, Copy, Debug, PartialEq, Eq)]
pub struct Stream {
    /// Samples a second and channel.
    pub rate: u32,
    /// Bits a sample.
    pub bits: u8,
}

/// What the subframes of a frame tell (RFC 9639, section 9.1.3).
#[derive(Clone, Copy, Debug, PartialEq, Eq)]
pub enum Channels {
    Mono,
    Stereo,
    LeftSide,
    SideRight,
    MidSide,
}

/// The head of a frame (RFC 9639, section 9.1).
#[derive(Clone, Copy, Debug, PartialEq, Eq)]
pub struct FrameHead {
    /// The blocks of the stream may differ in size.
    pub is_variable: bool,
    /// The number of the frame, or of its first sample where blocks may differ in size.
    pub number: u64,
    /// Samples in each channel, 1 to 65,535.
    pub block_size: u16,
    /// Samples a second and channel, 1 to 192,000.
    pub rate: u32,
    pub channels: Channels,
    /// Bits a sample, 4 to 32.
    pub bits: u8,
}
