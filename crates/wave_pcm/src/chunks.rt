// The heads of chunks.
ghost use Rattle.std.specs.Prelude.{◌≡◌, ◌+◌, ◌-◌, ◌<◌, ◌≤◌, ◌^◌, length, take, min, IfOk, IfSome, OnErr, IsOkUnless};
ghost use Rattle.song_files.specs.Source.{Grows, Keeps};
ghost use Rattle.wave_pcm.specs.Chunks.{chunks_in, size_in, padded};
ghost use Rattle.wave_pcm.specs.ChunkHead.{chunks_from, IsWithin};

use crate::WaveError;
use song_files::{Source, read_exact};

/// How many bytes the head of a chunk has.
const HEAD_LEN: u64 = 8;

/// What is known of a chunk whose data has not been read.
#[derive(Clone, Copy, Debug)]
pub struct ChunkHead {
    pub id: [u8; 4],
    /// The place of its first byte of data in the file.
    pub first: u64,
    /// How many bytes of data there are, up to the end.
    pub len: u64,
    /// The place behind the chunk and its pad byte, or the end.
    pub next: u64,
}

impl ChunkHead {
    /// The chunk at `at` whose head has these bytes.
    fn new(bytes: [u8; 8], at: u64, end: u64) -> Self
        requires room { at + 8 ≤ end }
        requires fits { end < 2 ^ 64 }
        ensures id { result.id ≡ take 4 bytes }
        ensures first { result.first ≡ at + 8 }
        ensures len { result.len ≡ min (size_in bytes) (end - at - 8) }
        ensures next { result.next ≡ at + 8 + min (padded (size_in bytes)) (end - at - 8) }
    {
        let [a, b, c, d, e, f, g, h] = bytes;
        let size = u64::from(u32::from_le_bytes([e, f, g, h]));
        let room = end - at - HEAD_LEN;
        ChunkHead {
            id: [a, b, c, d],
            first: at + HEAD_LEN,
            len: size.min(room),
            next: at + HEAD_LEN + (size + size % 2).min(room),
        }
    }
}

/// The head of the chunk at `at`, if it stands before `end`.
pub fn next_chunk<S: Source>(
    source: &mut S,
    at: u64,
    end: u64,
) -> Result<Option<ChunkHead>, WaveError>
    requires { at ≤ end }
    ensures found { S.honest source.old → end ≤ length (S.bytes source.old) →
        IfOk result (λ found. chunks_in (S.bytes source.old) at end ≡ chunks_from (S.bytes source.old) end found) }
    ensures within { IfOk result (λ found. IfSome found (IsWithin at end)) }
    ensures only { IsOkUnless result WaveError.ReadFault }
    ensures fault { S.honest source.old → end ≤ length (S.bytes source.old) →
        OnErr result (Grows (S.faults source.old) (S.faults source.new)) }
    ensures kept { S.honest source.old → Keeps S.bytes S.honest S.faults S.steady source.old source.new }
{
    if end - at < HEAD_LEN {
        return Ok(None);
    }
    let mut head = [0; 8];
    read_exact(source, at, &mut head)?;
    Ok(Some(ChunkHead::new(head, at, end)))
}
