// Frames that are read and decoded.
ghost use Rattle.std.specs.Prelude.{◌≡◌, ◌+◌, ◌*◌, ◌-◌, ◌%◌, ◌<◌, ◌≤◌, ◌^◌, ◌++◌, length, min, slice_range, IfOk, OnOk};
ghost use Rattle.std.specs.Prelude.{OnErr, IfErr, IsErrOf, IfSome, Some, None, Err};
ghost use Rattle.song_files.specs.Source.{Grows, Keeps};
ghost use Rattle.wave_pcm.specs.WaveError.{Fails};
ghost use Rattle.wave_pcm.specs.Pcm.{samples_in, frames_from, HasFrames, frame_len, range_from};

use crate::{WaveError, WaveInfo};
use song_files::{Source, read_exact};
use std::alloc::{AllocError, Global};

/// Samples of 16 bits, the low byte first.
fn decode(alloc: Global, bytes: &[u8]) -> Result<Vec<i16>, AllocError>
    requires { length bytes.now % 2 ≡ 0 }
    ensures { IfOk result (λ samples. samples.items ≡ samples_in bytes.now) }
{
    let mut samples = vec![in alloc; 0i16; bytes.len() / 2]?;
    decode_into(&mut samples, bytes);
    Ok(samples)
}

fn decode_into(samples: &mut [i16], bytes: &[u8])
    requires { length bytes.now ≡ 2 * length samples.old }
    ensures { samples.new ≡ samples_in bytes.now }
{
    for (k, sample) in samples.iter_mut().enumerate() {
        *sample = u16::from_le_bytes([bytes[2 * k], bytes[2 * k + 1]]).cast_signed();
    }
}

/// The place of the samples of at most `most` frames from the frame `from` on (the first is 0), in bytes from the file's first one,
/// and how many bytes they take: fewer at the end, none past it. `None` where the frames that the head tells of don't all stand
/// before the byte `end`, which is the file's length.
pub fn frame_range(info: &WaveInfo, from: u64, most: usize, end: u64) -> Option<(u64, u64)>
    ensures place { info.now.first_byte + frame_len info.now * info.now.frames ≤ end →
        result ≡ Some (range_from info.now from most) }
    ensures short { end < info.now.first_byte + frame_len info.now * info.now.frames → result ≡ None }
    ensures within { IfSome result (λ range. range.0 + range.1 ≤ end) }
    ensures whole { IfSome result (λ range. range.1 % 2 ≡ 0) }
{
    let frame_len = 2 * u64::from(info.channels);
    let len = info.frames.checked_mul(frame_len)?;
    let after = info.first_byte.checked_add(len)?;
    if after > end {
        return None;
    }
    let start = from.min(info.frames);
    let count = (info.frames - start).min(most as u64);
    Some((info.first_byte + frame_len * start, frame_len * count))
}

/// The samples of a range of the source.
fn read_samples<S: Source>(
    alloc: Global,
    source: &mut S,
    first: u64,
    len: u64,
) -> Result<Vec<i16>, WaveError>
    requires fits { first + len < 2 ^ 64 }
    requires whole { len % 2 ≡ 0 }
    ensures samples { S.honest source.old →
        IfOk result (λ samples. samples.items ≡ samples_in (slice_range (S.bytes source.old) first (first + len))) }
    ensures only { IfErr result (Fails (Unit {0})) }
    ensures fault { S.honest source.old → first + len ≤ length (S.bytes source.old) →
        IfErr result (Fails (Grows (S.faults source.old) (S.faults source.new))) }
    ensures kept { S.honest source.old → Keeps S.bytes S.honest S.faults S.steady source.old source.new }
{
    let mut bytes = vec![in alloc; 0u8; len as usize]?;
    read_exact(source, first, &mut bytes)?;
    Ok(decode(alloc, &bytes)?)
}

/// Reads the samples of at most `most` frames from the frame `from` on (the first is 0), those of a frame
/// side by side: fewer at the end, none past it.
///
/// `ReadFault` where the source failed, or where it is shorter than the head tells; `NoMemory` where
/// memory is wanting. An error leaves the source as any read does.
pub fn read_frames<S: Source>(
    alloc: Global,
    source: &mut S,
    info: &WaveInfo,
    from: u64,
    most: usize,
) -> Result<Vec<i16>, WaveError>
    ensures frames { S.honest source.old → HasFrames info.now (S.bytes source.old) →
        IfOk result (λ samples. samples.items ≡ frames_from (S.bytes source.old) info.now from most) }
    ensures fault { S.honest source.old → HasFrames info.now (S.bytes source.old) →
        IfErr result (Fails (Grows (S.faults source.old) (S.faults source.new))) }
    ensures short { S.honest source.old →
        length (S.bytes source.old) < info.now.first_byte + frame_len info.now * info.now.frames → result ≡ Err WaveError.ReadFault }
    ensures only { IfErr result (Fails (Unit {0})) }
    ensures kept { S.honest source.old → Keeps S.bytes S.honest S.faults S.steady source.old source.new }
{
    let end = source.len();
    match frame_range(info, from, most, end) {
        Some((first, len)) => read_samples(alloc, source, first, len),
        None => Err(WaveError::ReadFault),
    }
}
