// The chunks of a file that count, and its plan.
ghost use Rattle.std.specs.Prelude.{◌≡◌, ℕ, ◌-◌, ◌<◌, ◌≤◌, ◌^◌, ◌||◌, length, All, filter, find, option_map, IfOk, IfErr, IfSome, OnErr};
ghost use Rattle.std.specs.Prelude.{IsOkUnless};
ghost use Rattle.song_files.specs.Source.{Grows, Keeps};
ghost use Rattle.wave_pcm.specs.WaveError.{Fails};
ghost use Rattle.as_wave.specs.ChunkHead.{chunks_at, StandsBy};
ghost use Rattle.as_wave.specs.Plan.{planned, Fits};
ghost use Rattle.as_wave.specs.Playable.{IsPlayable};
ghost use Rattle.as_wave.specs.StandsFor.{is_format_id, is_data_id, is_kept_id, format_in, wave_by, converted};

use crate::SampleFormat;
use crate::chunks::{begins_as_wave, is_data, is_format, is_kept, list_chunks};
use crate::format::read_format;
use crate::plan::PcmPlan;
use crate::planning::plan_for;
use song_files::Source;
use std::alloc::{AllocError, Global};
use wave_pcm::{ChunkHead, MAX_CHUNKS, WaveError};

/// How many chunks are kept at most.
const MAX_KEPT: usize = 64;

/// The first format or data.
fn first_key(heads: &[ChunkHead]) -> Option<ChunkHead>
    ensures found { result ≡ find (λ h. is_format_id h.id || is_data_id h.id) heads.now }
    ensures within { (end : ℕ) → All (StandsBy end) heads.now → IfSome result (StandsBy end) }
{
    heads.iter().copied().find(|h| is_format(h) || is_data(h))
}

/// The first data.
fn first_data(heads: &[ChunkHead]) -> Option<ChunkHead>
    ensures found { result ≡ find (λ h. is_data_id h.id) heads.now }
    ensures within { (end : ℕ) → All (StandsBy end) heads.now → IfSome result (StandsBy end) }
{
    heads.iter().copied().find(|h| is_data(h))
}

/// The chunks that are kept.
fn kept_of(alloc: Global, heads: &[ChunkHead]) -> Result<Vec<ChunkHead>, AllocError>
    ensures { IfOk result (λ kept. kept.items ≡ filter (λ h. is_kept_id h.id) heads.now) }
{
    heads.iter().copied().filter(|h| is_kept(h)).collect(alloc)
}

/// The format by the first chunk `fmt `, with no data before it.
fn first_format<S: Source>(
    source: &mut S,
    heads: &[ChunkHead],
) -> Result<Option<SampleFormat>, WaveError>
    requires { All (StandsBy (2 ^ 64 - 1)) heads.now }
    ensures format { S.honest source.old → All (StandsBy (length (S.bytes source.old))) heads.now →
        IfOk result (λ format. format ≡ format_in (chunks_at (S.bytes source.old) heads.now)) }
    ensures playable { IfOk result (λ format. IfSome format IsPlayable) }
    ensures only { IsOkUnless result WaveError.ReadFault }
    ensures fault { S.honest source.old → All (StandsBy (length (S.bytes source.old))) heads.now →
        OnErr result (Grows (S.faults source.old) (S.faults source.new)) }
    ensures kept { S.honest source.old → Keeps S.bytes S.honest S.faults S.steady source.old source.new }
{
    match first_key(heads) {
        Some(head) if is_format(&head) => read_format(source, head.first, head.len),
        _ => Ok(None),
    }
}

/// The plan by the heads of the chunks.
fn plan_chunks<S: Source>(
    alloc: Global,
    source: &mut S,
    heads: &[ChunkHead],
) -> Result<Option<PcmPlan>, WaveError>
    requires { All (StandsBy (2 ^ 64 - 1)) heads.now }
    ensures plan { S.honest source.old → All (StandsBy (length (S.bytes source.old))) heads.now →
        IfOk result (λ plan. wave_by (chunks_at (S.bytes source.old) heads.now) ≡ option_map (λ p. planned p (S.bytes source.old)) plan) }
    ensures fits { S.honest source.old → All (StandsBy (length (S.bytes source.old))) heads.now →
        IfOk result (λ plan. IfSome plan (λ p. Fits p (S.bytes source.old))) }
    ensures fault { S.honest source.old → All (StandsBy (length (S.bytes source.old))) heads.now →
        IfErr result (Fails (Grows (S.faults source.old) (S.faults source.new))) }
    ensures kept { S.honest source.old → Keeps S.bytes S.honest S.faults S.steady source.old source.new }
{
    if heads.len() > MAX_CHUNKS {
        return Ok(None);
    }
    let Some(format) = first_format(source, heads)? else {
        return Ok(None);
    };
    let Some(sound) = first_data(heads) else {
        return Ok(None);
    };
    let kept = kept_of(alloc, heads)?;
    if kept.len() > MAX_KEPT {
        return Ok(None);
    }
    Ok(plan_for(format, sound, kept))
}

/// How the WAVE file that a WAVE file stands for is made of it; `None` where it is read as it is, or not at all.
///
/// `ReadFault` and `NoMemory` say nothing about the file.
pub fn plan<S: Source>(alloc: Global, source: &mut S) -> Result<Option<PcmPlan>, WaveError>
    ensures plan { S.honest source.old →
        IfOk result (λ plan. converted (S.bytes source.old) ≡ option_map (λ p. planned p (S.bytes source.old)) plan) }
    ensures fits { S.honest source.old → IfOk result (λ plan. IfSome plan (λ p. Fits p (S.bytes source.old))) }
    ensures fault { S.honest source.old → IfErr result (Fails (Grows (S.faults source.old) (S.faults source.new))) }
    ensures kept { S.honest source.old → Keeps S.bytes S.honest S.faults S.steady source.old source.new }
{
    let end = source.len();
    if !begins_as_wave(source, end)? {
        return Ok(None);
    }
    let heads = list_chunks(alloc, source, end)?;
    plan_chunks(alloc, source, &heads)
}
