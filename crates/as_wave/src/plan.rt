// How the samples of a WAVE file become others.
ghost use Rattle.std.specs.Prelude.{◌+◌, ◌*◌, ◌-◌, ◌<◌, ◌≡◌, ◌^◌, All};
ghost use Rattle.as_wave.specs.ChunkHead.{StandsBy, total_size};
ghost use Rattle.as_wave.specs.Format.{byte_len};
ghost use Rattle.as_wave.specs.Playable.{IsPlayable};

use crate::SampleFormat;
use wave_pcm::ChunkHead;

/// How the WAVE file that a file of PCM stands for is made of it.
#[derive(Debug, Drop)]
pub struct PcmPlan {
    pub format: SampleFormat,
    /// The place of the first sample in the file.
    pub first: u64,
    /// How many samples there are.
    pub count: u64,
    /// How many bytes stand behind the samples.
    pub rest: u64,
    /// The chunks that stand there.
    pub kept: Vec<ChunkHead>,
    ghost playable: { IsPlayable format },
    ghost counted: { rest ≡ total_size kept.items },
    ghost small: { 36 + 2 * count + rest < 2 ^ 32 },
    ghost reach: { first + byte_len format.width * count < 2 ^ 64 },
    ghost places: { All (StandsBy (2 ^ 64 - 1)) kept.items },
}
