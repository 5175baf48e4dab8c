// The plan by the chunks of a file.
ghost use Rattle.std.specs.Prelude.{◌≡◌, ◌-◌, ◌+◌, ◌*◌, ◌<◌, ◌≤◌, ◌^◌, length, slice_range, List, ℕ, All, MatchOption, IfSome, option_map};
ghost use Rattle.wave_pcm.specs.ChunkHead.{chunk_at};
ghost use Rattle.as_wave.specs.ChunkHead.{chunks_at, total_size, StandsBy};
ghost use Rattle.as_wave.specs.Playable.{IsPlayable};
ghost use Rattle.as_wave.specs.StandsFor.{wave_with};
ghost use Rattle.as_wave.specs.Plan.{planned, Fits};

use crate::SampleFormat;
use crate::plan::PcmPlan;
use wave_pcm::ChunkHead;

/// The sizes of a RIFF file's chunks are below this.
const SIZE_END: u64 = 1 << 32;

/// How many bytes stand in the WAVE file before the samples, `RIFF` and the size not counted.
const FRONT_LEN: u64 = 36;

/// How many bytes the chunks take, with their heads and pad bytes, if a RIFF file has room for them.
fn total_size(heads: &[ChunkHead]) -> Option<u64>
    ensures large { MatchOption result (2 ^ 32 ≤ total_size heads.now) (λ total. total < 2 ^ 32) }
    ensures total { IfSome result (λ total. total ≡ total_size heads.now) }
{
    let mut total = 0;
    for head in heads {
        if head.len >= SIZE_END {
            return None;
        }
        total += 8 + head.len + head.len % 2;
        if total >= SIZE_END {
            return None;
        }
    }
    Some(total)
}

/// The plan for the samples of a format in the data, with the chunks behind them, if a RIFF file has room for it.
pub fn plan_for(format: SampleFormat, sound: ChunkHead, kept: Vec<ChunkHead>) -> Option<PcmPlan>
    requires playable { IsPlayable format }
    requires fits { sound.first + sound.len < 2 ^ 64 }
    requires places { All (StandsBy (2 ^ 64 - 1)) kept.items }
    ensures planned { (file : List ℕ) → StandsBy (length file) sound → All (StandsBy (length file)) kept.items →
        wave_with format (chunk_at file sound).body (chunks_at file kept.items) ≡ option_map (λ plan. planned plan file) result }
    ensures fits { (file : List ℕ) → StandsBy (length file) sound → All (StandsBy (length file)) kept.items →
        IfSome result (λ plan. Fits plan file) }
{
    let step = u64::from(format.channels * format.width.bytes());
    let count = u64::from(format.channels) * (sound.len / step);
    if count >= SIZE_END / 2 {
        return None;
    }
    let Some(rest) = total_size(&kept) else {
        return None;
    };
    if FRONT_LEN + 2 * count + rest >= SIZE_END {
        return None;
    }
    Some(PcmPlan {
        format,
        first: sound.first,
        count,
        rest,
        kept,
    })
}
