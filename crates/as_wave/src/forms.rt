// Which forms are taken.

/// The forms of files that stand for a WAVE file of 16-bit PCM. With none, each file is what it is.
#[derive(Clone, Copy, Debug, PartialEq, Eq)]
pub struct Forms {
    /// WAVE files of PCM with 8, 16, 24 or 32 bits a sample.
    pub wave_pcm: bool,
    /// FLAC files.
    pub flac: bool,
}
