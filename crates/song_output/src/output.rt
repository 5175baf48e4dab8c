// Where the sound goes, and in which form.

/// The form of what is written.
#[derive(Clone, Copy, Debug, PartialEq, Eq)]
pub enum Form {
    /// The samples alone: 16 bits each, the low byte first, those of a frame side by side.
    Bare,
    /// Each piece is a WAVE file of its own (RIFF WAVE 1.0): a head of 44 bytes with the song's rate and channels and the exact
    /// length, and behind it the samples as in `Bare`. A piece of no frames is nothing.
    Wave,
}

/// Where sound is written, and in which form.
#[derive(Drop)]
pub struct SoundOutput<W> {
    pub writer: W,
    pub form: Form,
}
