// How the WAVE file that a FLAC file stands for is made of that file.
ghost use Rattle.std.specs.Prelude.{◌+◌, ◌*◌, ◌≤◌, ◌<◌, ◌^◌};
ghost use Rattle.as_wave.specs.FlacTail.{tail_len};
ghost use Rattle.as_wave.specs.Playable.{IsPlayable};

use crate::SampleFormat;
use crate::flac_tail::FlacTail;
use flac::FlacReader;

/// What stands where in the WAVE file.
#[derive(Debug, Drop)]
pub struct FlacLayout {
    pub format: SampleFormat,
    /// How many bits a sample of the FLAC file has.
    pub bits: u8,
    /// How many samples there are, those of all channels counted.
    pub count: u64,
    pub tail: FlacTail,
    ghost playable: { IsPlayable format },
    ghost width: { bits ≤ 32 },
    ghost small: { 36 + 2 * count + tail_len tail < 2 ^ 32 },
}

/// The layout, and the reader of the samples.
#[derive(Drop)]
pub struct FlacForm {
    pub layout: FlacLayout,
    pub reader: FlacReader,
}
