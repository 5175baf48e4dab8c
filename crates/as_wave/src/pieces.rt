// Parts of a WAVE file, read from the file that it is made of.
ghost use Rattle.std.specs.Prelude.{◌≡◌, ◌+◌, ◌*◌, ◌-◌, ◌<◌, ◌≤◌, ◌^◌, ◌∷◌, [], length, take, drop, min, slice_range, IfOk, OnErr, Ok};
ghost use Rattle.std.specs.Prelude.{ℕ, List, All, MatchOption, IfSome, ◌++◌};
ghost use Rattle.std.specs.Int.{w32, to_le_bytes};
ghost use Rattle.wave_pcm.specs.Chunks.{padded};
ghost use Rattle.song_files.specs.Source.{Grows, Keeps};
ghost use Rattle.wave_pcm.specs.ChunkHead.{chunk_at};
ghost use Rattle.as_wave.specs.ChunkHead.{chunks_at, StandsBy, chunk_size, total_size};
ghost use Rattle.as_wave.specs.Format.{byte_len};
ghost use Rattle.as_wave.specs.Plan.{sound_from};
ghost use Rattle.as_wave.specs.StandsFor.{chunk_bytes, chunks_bytes};

use crate::SampleWidth;
use crate::samples::convert;
use song_files::{Source, SourceFault, read_exact};
use wave_pcm::{ChunkHead, WaveError};

/// How many bytes the head of a chunk has.
const HEAD_LEN: u64 = 8;

/// How many samples are converted at a time.
const PIECE: usize = 512;

/// Copies bytes from an offset on to the front of the buffer, as many as there are and fit.
pub fn copy_from(bytes: &[u8], at: u64, buffer: &mut [u8]) -> usize
    ensures count { result ≡ min (length bytes.now - at) (length buffer.old) }
    ensures copied { take result buffer.new ≡ slice_range bytes.now at (at + result) }
{
    let rest = bytes_from(bytes, at);
    let count = rest.len().min(buffer.len());
    buffer[..count].copy_from_slice(&rest[..count]);
    count
}

/// The bytes from an offset on: none past the end.
fn bytes_from(bytes: &[u8], at: u64) -> &[u8]
    ensures { result.now ≡ drop at bytes.now }
{
    match usize::try_from(at) {
        Ok(at) if at <= bytes.len() => &bytes[at..],
        _ => &[],
    }
}

/// Reads from the bytes of so many samples at 16 bits; `raw` and `sound` have room for them.
fn read_samples<S: Source>(
    source: &mut S,
    width: SampleWidth,
    first: u64,
    count: usize,
    skip: u64,
    raw: &mut [u8],
    sound: &mut [u8],
    buffer: &mut [u8],
) -> Result<usize, SourceFault>
    requires raw { length raw.old ≡ byte_len width * count }
    requires sound { length sound.old ≡ 2 * count }
    requires fits { first + byte_len width * count < 2 ^ 64 }
    ensures count { IfOk result (λ n. n ≡ min (2 * count - skip) (length buffer.old)) }
    ensures read { S.honest source.old →
        IfOk result (λ n. take n buffer.new ≡ slice_range (sound_from width first count (S.bytes source.old)) skip (skip + n)) }
    ensures failed { S.honest source.old → first + byte_len width * count ≤ length (S.bytes source.old) →
        OnErr result (Grows (S.faults source.old) (S.faults source.new)) }
    ensures kept { S.honest source.old → Keeps S.bytes S.honest S.faults S.steady source.old source.new }
{
    read_exact(source, first, raw)?;
    convert(width, count, raw, sound);
    Ok(copy_from(sound, skip, buffer))
}

/// Reads from the bytes of the samples at 16 bits, from the byte `at` of them on.
pub fn read_sound<S: Source>(
    source: &mut S,
    width: SampleWidth,
    first: u64,
    count: u64,
    at: u64,
    buffer: &mut [u8],
) -> Result<usize, SourceFault>
    requires fits { first + byte_len width * count < 2 ^ 64 }
    requires within { at < 2 * count }
    ensures count { IfOk result (λ n. (n ≤ length buffer.old) × (at + n ≤ 2 * count)) }
    ensures some { IfOk result (λ n. 0 < length buffer.old → 0 < n) }
    ensures read { S.honest source.old →
        IfOk result (λ n. take n buffer.new ≡ slice_range (sound_from width first count (S.bytes source.old)) at (at + n)) }
    ensures failed { S.honest source.old → first + byte_len width * count ≤ length (S.bytes source.old) →
        OnErr result (Grows (S.faults source.old) (S.faults source.new)) }
    ensures kept { S.honest source.old → Keeps S.bytes S.honest S.faults S.steady source.old source.new }
{
    let step = u64::from(width.bytes());
    let wanted = (buffer.len() as u64).min(2 * PIECE as u64 - 1) / 2 + 1;
    let piece = (count - at / 2).min(wanted);
    let mut raw = [0; 4 * PIECE];
    let mut sound = [0; 2 * PIECE];
    read_samples(
        source,
        width,
        first + step * (at / 2),
        piece as usize,
        at % 2,
        &mut raw[..(step * piece) as usize],
        &mut sound[..(2 * piece) as usize],
        buffer,
    )
}

/// The head of a chunk.
fn head_bytes(head: &ChunkHead) -> [u8; 8]
    requires { head.now.len < 2 ^ 32 }
    ensures { result ≡ head.now.id ++ to_le_bytes w32 head.now.len }
{
    let [a, b, c, d] = head.id;
    let [e, f, g, h] = (head.len as u32).to_le_bytes();
    [a, b, c, d, e, f, g, h]
}

/// Reads from `len` bytes that begin at `first` in the source, from the byte `place` of them on.
pub fn read_range<S: Source>(
    source: &mut S,
    first: u64,
    len: u64,
    place: u64,
    buffer: &mut [u8],
) -> Result<usize, SourceFault>
    requires fits { first + len < 2 ^ 64 }
    requires within { place < len }
    ensures count { IfOk result (λ n. (n ≤ length buffer.old) × (place + n ≤ len)) }
    ensures read { S.honest source.old → IfOk result (λ n. take n buffer.new
        ≡ slice_range (S.bytes source.old) (first + place) (first + place + n)) }
    ensures failed { S.honest source.old → OnErr result (Grows (S.faults source.old) (S.faults source.new)) }
    ensures no_byte { S.honest source.old → first + len ≤ length (S.bytes source.old) →
        result ≡ Ok 0 → 0 < length buffer.old → Grows (S.faults source.old) (S.faults source.new) }
    ensures kept { S.honest source.old → Keeps S.bytes S.honest S.faults S.steady source.old source.new }
{
    let count = (len - place).min(buffer.len() as u64) as usize;
    let read = source.read_at(first + place, &mut buffer[..count]);
    read
}

/// Reads from the bytes of a chunk, from the byte `at` of them on.
pub fn read_chunk<S: Source>(
    source: &mut S,
    head: &ChunkHead,
    at: u64,
    buffer: &mut [u8],
) -> Result<usize, SourceFault>
    requires fits { head.now.first + head.now.len < 2 ^ 64 }
    requires small { head.now.len < 2 ^ 32 }
    requires within { at < chunk_size head.now }
    ensures count { IfOk result (λ n. (n ≤ length buffer.old) × (at + n ≤ chunk_size head.now)) }
    ensures read { S.honest source.old → StandsBy (length (S.bytes source.old)) head.now →
        IfOk result (λ n. take n buffer.new
        ≡ slice_range (chunk_bytes head.now.id (chunk_at (S.bytes source.old) head.now).body) at (at + n)) }
    ensures failed { S.honest source.old → OnErr result (Grows (S.faults source.old) (S.faults source.new)) }
    ensures no_byte { S.honest source.old → StandsBy (length (S.bytes source.old)) head.now →
        result ≡ Ok 0 → 0 < length buffer.old → Grows (S.faults source.old) (S.faults source.new) }
    ensures kept { S.honest source.old → Keeps S.bytes S.honest S.faults S.steady source.old source.new }
{
    if at < HEAD_LEN {
        return Ok(copy_from(&head_bytes(head), at, buffer));
    }
    let place = at - HEAD_LEN;
    if place < head.len {
        return read_range(source, head.first, head.len, place, buffer);
    }
    Ok(copy_from(&[0], place - head.len, buffer))
}

/// The chunk in which the byte `at` of these chunks stands, and its place there.
pub fn chunk_with(heads: &[ChunkHead], at: u64) -> Option<(&ChunkHead, u64)>
    ensures none { MatchOption result (total_size heads.now ≤ at) (λ found. found.1 < chunk_size found.0.now) }
    ensures found { (file : List ℕ) → All (StandsBy (length file)) heads.now →
        IfSome result (λ found. (rest : List ℕ) × (drop at (chunks_bytes (chunks_at file heads.now))
        ≡ drop found.1 (chunk_bytes found.0.now.id (chunk_at file found.0.now).body) ++ rest)) }
    ensures within { (end : ℕ) → All (StandsBy end) heads.now → IfSome result (λ found. StandsBy end found.0.now) }
    ensures small { IfSome result (λ found. chunk_size found.0.now ≤ total_size heads.now) }
{
    let mut left = at;
    for head in heads {
        if left < HEAD_LEN
            || left - HEAD_LEN < head.len
            || left - HEAD_LEN - head.len < head.len % 2
        {
            return Some((head, left));
        }
        left -= HEAD_LEN + head.len + head.len % 2;
    }
    None
}
