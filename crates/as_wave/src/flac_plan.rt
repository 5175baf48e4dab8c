// The layout by the head of a FLAC file.
ghost use Rattle.std.specs.Prelude.{◌≡◌, ◌+◌, ◌*◌, ◌%◌, ◌≤◌, ◌<◌, ◌^◌, List, ℕ, ℤ, length, option_map, IfOk, IfErr, IfSome, IsTrue, None};
ghost use Rattle.flac.specs.FlacError.{IsVerdict};
ghost use Rattle.song_files.specs.Source.{Grows, Keeps};
ghost use Rattle.wave_pcm.specs.Chunks.{Chunk};
ghost use Rattle.wave_pcm.specs.WaveError.{Fails};
ghost use Rattle.as_wave.specs.FlacLayout.{flac_laid_out, flac_planned, FlacFits};
ghost use Rattle.as_wave.specs.FlacSamples.{at_bits};
ghost use Rattle.as_wave.specs.FlacTail.{tail_bytes};
ghost use Rattle.as_wave.specs.FlacWave.{is_told, flac_format, tag_chunks, wave_of_head, flac_wave};
ghost use Rattle.as_wave.specs.Samples.{bytes_of};
ghost use Rattle.as_wave.specs.StandsFor.{chunks_bytes, riff_data, riff_file};

use crate::flac_chunk::tail_of;
use crate::flac_layout::{FlacForm, FlacLayout};
use crate::flac_tail::FlacTail;
use crate::{SampleFormat, SampleWidth};
use flac::{FlacError, FlacHead, FlacReader, StreamInfo, read_head};
use song_files::Source;
use std::alloc::Global;
use wave_pcm::{MAX_RATE, WaveError};

/// The sizes of a RIFF file's chunks are below this.
const SIZE_END: u64 = 1 << 32;

/// How many bytes stand in the WAVE file before the samples, `RIFF` and the size not counted.
const FRONT_LEN: u64 = 36;

/// Whether STREAMINFO tells how many samples there are, and a format that can be played.
fn is_told(info: &StreamInfo) -> bool
    ensures { result ≡ is_told info.now }
{
    (info.channels == 1 || info.channels == 2)
        && 1 <= info.rate
        && info.rate <= MAX_RATE
        && info.bits <= 32
        && 0 < info.samples
}

/// The format of the WAVE file.
fn flac_format(info: &StreamInfo) -> SampleFormat
    ensures { result ≡ flac_format info.now }
{
    SampleFormat {
        rate: info.rate,
        channels: u16::from(info.channels),
        width: SampleWidth::Bits16,
    }
}

/// The layout for these samples with a chunk behind them, if a RIFF file has room for it.
fn layout_for(info: &StreamInfo, tail: FlacTail) -> Option<FlacLayout>
    requires { IsTrue (is_told info.now) }
    ensures layout { (file : List ℕ) (samples : List ℤ) (chunks : List Chunk) → tail.picture + tail.picture_len ≤ length file →
        tail_bytes tail file ≡ chunks_bytes chunks → length (chunks_bytes chunks) % 2 ≡ 0 →
        riff_file (riff_data (flac_format info.now) (bytes_of (at_bits info.now.bits (info.now.channels * info.now.samples) samples)) chunks)
        ≡ option_map (λ layout. flac_laid_out layout samples file) result }
    ensures same { IfSome result (λ layout. (layout.tail ≡ tail) × (layout.count ≡ info.now.channels * info.now.samples)
        × (layout.format ≡ flac_format info.now)) }
{
    if info.samples >= SIZE_END {
        return None;
    }
    let count = u64::from(info.channels) * info.samples;
    if FRONT_LEN + 2 * count + tail.len() >= SIZE_END {
        return None;
    }
    Some(FlacLayout {
        format: flac_format(info),
        bits: info.bits,
        count,
        tail,
    })
}

/// The form of a file of `end` bytes with this head; `None` where it stands for itself.
fn form_of(alloc: Global, head: &FlacHead, end: u64) -> Result<Option<FlacForm>, WaveError>
    ensures form { (file : List ℕ) → end ≡ length file →
        IfOk result (λ form. wave_of_head file head.now ≡ option_map (λ f. flac_planned f file) form) }
    ensures fits { (file : List ℕ) → end ≡ length file → IfOk result (λ form. IfSome form (λ f. FlacFits f file)) }
    ensures only { IfErr result (λ e. e ≡ WaveError.NoMemory) }
{
    if !is_told(&head.info) {
        return Ok(None);
    }
    let tail = tail_of(alloc, head, end)?;
    let Some(layout) = layout_for(&head.info, tail) else {
        return Ok(None);
    };
    match FlacReader::new(alloc, head) {
        Ok(reader) => Ok(Some(FlacForm { layout, reader })),
        Err(_) => Err(WaveError::NoMemory),
    }
}

/// No form, unless memory was wanting or the source failed.
fn refusal(error: FlacError) -> Result<Option<FlacForm>, WaveError>
    ensures verdict { IfOk result (λ form. (form ≡ None) × IsVerdict error) }
    ensures fails { IfErr result (Fails (error ≡ FlacError.ReadFault)) }
{
    match error {
        FlacError::NoMemory => Err(WaveError::NoMemory),
        FlacError::ReadFault => Err(WaveError::ReadFault),
        FlacError::NotFlac
        | FlacError::BadStreamInfo
        | FlacError::Unsupported { .. }
        | FlacError::DamagedBlock
        | FlacError::TooManyBlocks
        | FlacError::BrokenFrame => Ok(None),
    }
}

/// How the WAVE file that a FLAC file stands for is made of it; `None` where it is no FLAC file, or one that stands for itself.
///
/// `ReadFault` and `NoMemory` say nothing about the file.
pub fn flac_form<S: Source>(alloc: Global, source: &mut S) -> Result<Option<FlacForm>, WaveError>
    ensures form { S.honest source.old →
        IfOk result (λ form. flac_wave (S.bytes source.old) ≡ option_map (λ f. flac_planned f (S.bytes source.old)) form) }
    ensures fits { S.honest source.old → IfOk result (λ form. IfSome form (λ f. FlacFits f (S.bytes source.old))) }
    ensures fault { S.honest source.old → IfErr result (Fails (Grows (S.faults source.old) (S.faults source.new))) }
    ensures kept { S.honest source.old → Keeps S.bytes S.honest S.faults S.steady source.old source.new }
{
    let end = source.len();
    match read_head(alloc, source) {
        Ok(head) => form_of(alloc, &head, end),
        Err(error) => refusal(error),
    }
}
