// Parts of a WAVE file, read from the FLAC file that stands for it.
ghost use Rattle.std.specs.Prelude.{◌≡◌, ◌+◌, ◌*◌, ◌-◌, ◌<◌, ◌≤◌, ◌^◌, length, map, min, take, slice_range, IfOk, IsErrOf, Ok, OnErr};
ghost use Rattle.song_files.specs.Source.{Grows, Keeps};
ghost use Rattle.flac.specs.Reader.{IsReaderOf, SameStream, samples_for, channels_of, total_of};
ghost use Rattle.as_wave.specs.FlacLayout.{flac_laid_out, form_with, FlacFits};
ghost use Rattle.as_wave.specs.FlacSamples.{at_bits, from_bits};
ghost use Rattle.as_wave.specs.FlacTail.{tail_len, tail_bytes};
ghost use Rattle.as_wave.specs.Samples.{bytes_of};

use crate::flac_layout::FlacLayout;
use crate::flac_samples::convert_samples;
use crate::flac_tail::FlacTail;
use crate::head::{HEAD_LEN, wave_head};
use crate::pieces::{copy_from, read_range};
use flac::{FlacError, FlacReader};
use song_files::{Source, SourceFault};

/// How many samples are read at a time.
const PIECE: usize = 512;

/// Copies from the bytes of samples of so many bits at 16 bits, from the byte `skip` of them on.
fn copy_samples(bits: u8, samples: &[i64], skip: u64, buffer: &mut [u8]) -> usize
    requires bits { bits ≤ 32 }
    requires few { length samples.now ≤ PIECE }
    ensures count { result ≡ min (2 * length samples.now - skip) (length buffer.old) }
    ensures copied { take result buffer.new ≡ slice_range (bytes_of (map (from_bits bits) samples.now)) skip (skip + result) }
{
    let mut bytes = [0; 2 * PIECE];
    let sound = &mut bytes[..2 * samples.len()];
    convert_samples(bits, samples, sound);
    copy_from(sound, skip, buffer)
}

/// Reads from the bytes of the samples at 16 bits, from the byte `at` of them on.
///
/// `BrokenFrame` where the frame of the sample there isn't whole.
fn read_sound<S: Source>(
    source: &mut S,
    reader: &mut FlacReader,
    bits: u8,
    channels: u16,
    at: u64,
    buffer: &mut [u8],
) -> Result<usize, FlacError>
    requires bits { bits ≤ 32 }
    requires channels { (0 < channels) × (channels ≤ 2) }
    ensures count { IfOk result (λ n. n ≤ length buffer.old) }
    ensures read { S.honest source.old → IsReaderOf (S.bytes source.old) reader.old → channels_of reader.old ≡ channels → 0 < total_of reader.old →
        at < 2 * (channels * total_of reader.old) → IfOk result (λ n. (at + n ≤ 2 * (channels * total_of reader.old)) × (take n buffer.new
        ≡ slice_range (bytes_of (at_bits bits (channels * total_of reader.old) (samples_for reader.old (S.bytes source.old)))) at (at + n))) }
    ensures some { S.honest source.old → IsReaderOf (S.bytes source.old) reader.old → channels_of reader.old ≡ channels →
        at < 2 * (channels * total_of reader.old) → IfOk result (λ n. 0 < length buffer.old → 0 < n) }
    ensures failed { S.honest source.old → IsErrOf result FlacError.ReadFault → Grows (S.faults source.old) (S.faults source.new) }
    ensures knows { S.honest source.old → IsReaderOf (S.bytes source.old) reader.old → IsReaderOf (S.bytes source.old) reader.new }
    ensures same { SameStream reader.old reader.new }
    ensures kept { S.honest source.old → Keeps S.bytes S.honest S.faults S.steady source.old source.new }
{
    let step = 2 * u64::from(channels);
    let mut samples = [0_i64; PIECE];
    let count = reader.read(source, at / step, &mut samples)?;
    if count > PIECE {
        return Ok(0);
    }
    let size = count * usize::from(channels);
    if size > PIECE {
        return Ok(0);
    }
    Ok(copy_samples(bits, &samples[..size], at % step, buffer))
}

/// Reads from what stands behind the samples, from the byte `at` of it on.
fn read_tail<S: Source>(
    tail: &FlacTail,
    source: &mut S,
    at: u64,
    buffer: &mut [u8],
) -> Result<usize, SourceFault>
    ensures count { IfOk result (λ n. n ≤ length buffer.old) }
    ensures read { S.honest source.old → tail.now.picture + tail.now.picture_len ≤ length (S.bytes source.old) →
        IfOk result (λ n. take n buffer.new ≡ slice_range (tail_bytes tail.now (S.bytes source.old)) at (at + n)) }
    ensures failed { S.honest source.old → OnErr result (Grows (S.faults source.old) (S.faults source.new)) }
    ensures no_byte { S.honest source.old → tail.now.picture + tail.now.picture_len ≤ length (S.bytes source.old) →
        result ≡ Ok 0 → 0 < length buffer.old → at < tail_len tail.now → Grows (S.faults source.old) (S.faults source.new) }
    ensures kept { S.honest source.old → Keeps S.bytes S.honest S.faults S.steady source.old source.new }
{
    let front_len = tail.front.len() as u64;
    if at < front_len {
        return Ok(copy_from(&tail.front, at, buffer));
    }
    let inside = at - front_len;
    if inside < tail.picture_len {
        return read_range(source, tail.picture, tail.picture_len, inside, buffer);
    }
    Ok(copy_from(&[0][..tail.pad as usize], inside - tail.picture_len, buffer))
}

/// Reads from what the layout lays out, from the byte `at` of it on.
pub fn read_flac<S: Source>(
    layout: &FlacLayout,
    reader: &mut FlacReader,
    source: &mut S,
    at: u64,
    buffer: &mut [u8],
) -> Result<usize, FlacError>
    ensures count { IfOk result (λ n. n ≤ length buffer.old) }
    ensures read { S.honest source.old → FlacFits (form_with layout.now reader.old) (S.bytes source.old) → IfOk result (λ n. take n buffer.new
        ≡ slice_range (flac_laid_out layout.now (samples_for reader.old (S.bytes source.old)) (S.bytes source.old)) at (at + n)) }
    ensures failed { S.honest source.old → IsErrOf result FlacError.ReadFault → Grows (S.faults source.old) (S.faults source.new) }
    ensures no_byte { S.honest source.old → FlacFits (form_with layout.now reader.old) (S.bytes source.old) →
        result ≡ Ok 0 → 0 < length buffer.old → at < 44 + 2 * layout.now.count + tail_len layout.now.tail →
        Grows (S.faults source.old) (S.faults source.new) }
    ensures knows { S.honest source.old → IsReaderOf (S.bytes source.old) reader.old → IsReaderOf (S.bytes source.old) reader.new }
    ensures same { SameStream reader.old reader.new }
    ensures kept { S.honest source.old → Keeps S.bytes S.honest S.faults S.steady source.old source.new }
{
    let sound_len = 2 * layout.count;
    if at < HEAD_LEN {
        let head = wave_head(layout.format, sound_len, layout.tail.len());
        return Ok(copy_from(&head, at, buffer));
    }
    let place = at - HEAD_LEN;
    if place < sound_len {
        return read_sound(
            source,
            reader,
            layout.bits,
            layout.format.channels,
            place,
            buffer,
        );
    }
    let count = read_tail(&layout.tail, source, place - sound_len, buffer)?;
    Ok(count)
}
