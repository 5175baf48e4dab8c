// Where the bytes of a picture stand.

/// Where the bytes of a picture stand in a file.
#[derive(Clone, Copy, Debug, PartialEq, Eq)]
pub struct PicturePlace {
    /// The place of the first byte.
    pub first: u64,
    /// How many bytes there are.
    pub len: u64,
}
