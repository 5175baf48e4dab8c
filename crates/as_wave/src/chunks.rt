// The chunks of a WAVE file.
ghost use Rattle.std.specs.Prelude.{◌≡◌, ◌+◌, ◌≤◌, length, take, All, IsTrue, IfOk, IfErr, OnErr, IsOkUnless};
ghost use Rattle.song_files.specs.Source.{Grows, Keeps};
ghost use Rattle.wave_pcm.specs.WaveError.{Fails};
ghost use Rattle.wave_pcm.specs.Chunks.{chunks_in};
ghost use Rattle.wave_pcm.specs.Reading.{is_wave};
ghost use Rattle.as_wave.specs.ChunkHead.{chunks_at, StandsBy};
ghost use Rattle.as_wave.specs.StandsFor.{is_format_id, is_data_id, is_kept_id};

use song_files::{Source, read_exact};
use std::alloc::Global;
use wave_pcm::{ChunkHead, MAX_CHUNKS, WaveError, next_chunk};

/// Where the first chunk of a WAVE file stands.
pub const FIRST_CHUNK: u64 = 12;

/// Whether the chunk is a format.
pub fn is_format(head: &ChunkHead) -> bool
    ensures { result ≡ is_format_id head.now.id }
{
    head.id == *b"fmt "
}

/// Whether it is data.
pub fn is_data(head: &ChunkHead) -> bool
    ensures { result ≡ is_data_id head.now.id }
{
    head.id == *b"data"
}

/// Whether it is one of those that texts stand in.
pub fn is_kept(head: &ChunkHead) -> bool
    ensures { result ≡ is_kept_id head.now.id }
{
    head.id == *b"LIST" || head.id == *b"id3 " || head.id == *b"ID3 "
}

/// Whether the file begins as a WAVE file does.
pub fn begins_as_wave<S: Source>(source: &mut S, end: u64) -> Result<bool, WaveError>
    ensures told { S.honest source.old → end ≡ length (S.bytes source.old) → IfOk result (λ yes. yes ≡ is_wave (S.bytes source.old)) }
    ensures room { IfOk result (λ yes. IsTrue yes → FIRST_CHUNK ≤ end) }
    ensures only { IsOkUnless result WaveError.ReadFault }
    ensures fault { S.honest source.old → end ≡ length (S.bytes source.old) →
        OnErr result (Grows (S.faults source.old) (S.faults source.new)) }
    ensures kept { S.honest source.old → Keeps S.bytes S.honest S.faults S.steady source.old source.new }
{
    if end < FIRST_CHUNK {
        return Ok(false);
    }
    let mut bytes = [0; 12];
    read_exact(source, 0, &mut bytes)?;
    let [a, b, c, d, _, _, _, _, e, f, g, h] = bytes;
    Ok([a, b, c, d] == *b"RIFF" && [e, f, g, h] == *b"WAVE")
}

/// The chunks of a WAVE file up to `end`; at most one more than a file may have.
pub fn list_chunks<S: Source>(
    alloc: Global,
    source: &mut S,
    end: u64,
) -> Result<Vec<ChunkHead>, WaveError>
    requires { FIRST_CHUNK ≤ end }
    ensures listed { S.honest source.old → end ≤ length (S.bytes source.old) →
        IfOk result (λ heads. chunks_at (S.bytes source.old) heads.items
        ≡ take (MAX_CHUNKS + 1) (chunks_in (S.bytes source.old) FIRST_CHUNK end)) }
    ensures bounded { IfOk result (λ heads. All (StandsBy end) heads.items) }
    ensures fault { S.honest source.old → end ≤ length (S.bytes source.old) →
        IfErr result (Fails (Grows (S.faults source.old) (S.faults source.new))) }
    ensures kept { S.honest source.old → Keeps S.bytes S.honest S.faults S.steady source.old source.new }
{
    let mut heads = Vec::new(alloc);
    let mut at = FIRST_CHUNK;
    'chunks: while heads.len() <= MAX_CHUNKS {
        let Some(head) = next_chunk(source, at, end)? else {
            return Ok(heads);
        };
        heads.push(head)?;
        at = head.next;
    }
    Ok(heads)
}
