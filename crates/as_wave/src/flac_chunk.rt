// What stands behind the samples of the WAVE file that a FLAC file stands for.
ghost use Rattle.std.specs.Prelude.{◌≡◌, ◌+◌, ◌≤◌, ◌<◌, ◌^◌, ◌++◌, List, ℕ, [], length, codes, IfOk, IfErr, Some};
ghost use Rattle.std.specs.Int.{w32, to_le_bytes};
ghost use Rattle.as_wave.specs.FlacTag.{tag_of};
ghost use Rattle.as_wave.specs.FlacTail.{tag_at, tail_len, tail_bytes};
ghost use Rattle.as_wave.specs.FlacWave.{tag_chunks};
ghost use Rattle.as_wave.specs.StandsFor.{chunks_bytes};

use crate::flac_tag::{FlacTag, tag_of};
use crate::flac_tail::FlacTail;
use flac::FlacHead;
use std::alloc::{AllocError, Global};
use wave_pcm::WaveError;

impl FlacTail {
    /// How many bytes it has.
    pub fn len(&self) -> u64
        ensures len { result ≡ tail_len self.now }
        ensures small { result < 2 ^ 32 }
    {
        self.front.len() as u64 + (self.picture_len + self.pad)
    }

    /// No chunk.
    fn none(alloc: Global) -> FlacTail
        ensures tail { (file : List ℕ) → tail_bytes result file ≡ [] }
        ensures place { result.picture + result.picture_len ≡ 0 }
    {
        FlacTail {
            front: Vec::new(alloc),
            picture: 0,
            picture_len: 0,
            pad: 0,
        }
    }

    /// The chunk of a tag.
    fn with(alloc: Global, tag: &FlacTag) -> Result<FlacTail, AllocError>
        requires small { length tag.now.front.items + tag.now.picture_len < 2 ^ 29 }
        requires reach { tag.now.picture + tag.now.picture_len < 2 ^ 64 }
        ensures tail { (file : List ℕ) → tag.now.picture + tag.now.picture_len ≤ length file →
            IfOk result (λ tail. tail_bytes tail file ≡ chunks_bytes (tag_chunks (Some (tag_at file tag.now)))) }
        ensures place { IfOk result (λ tail. (tail.picture ≡ tag.now.picture) × (tail.picture_len ≡ tag.now.picture_len)) }
    {
        let len = tag.front.len() as u64 + tag.picture_len;
        let front = chunk_front(alloc, len, &tag.front)?;
        Ok(FlacTail {
            front,
            picture: tag.picture,
            picture_len: tag.picture_len,
            pad: len % 2,
        })
    }
}

/// The front of the chunk that a tag of so many bytes stands in.
fn chunk_front(alloc: Global, len: u64, tag: &[u8]) -> Result<Vec<u8>, AllocError>
    requires { len < 2 ^ 32 }
    ensures { IfOk result (λ front. front.items ≡ codes "id3 " ++ to_le_bytes w32 len ++ tag.now) }
{
    let mut front = Vec::new(alloc);
    front.extend_from_slice(b"id3 ")?;
    front.extend_from_slice(&(len as u32).to_le_bytes())?;
    front.extend_from_slice(tag)?;
    Ok(front)
}

/// The chunk of the tag of a file of `end` bytes with this head.
pub fn tail_of(alloc: Global, head: &FlacHead, end: u64) -> Result<FlacTail, WaveError>
    ensures tail { (file : List ℕ) → end ≡ length file →
        IfOk result (λ tail. tail_bytes tail file ≡ chunks_bytes (tag_chunks (tag_of file head.now))) }
    ensures within { IfOk result (λ tail. tail.picture + tail.picture_len ≤ end) }
    ensures only { IfErr result (λ e. e ≡ WaveError.NoMemory) }
{
    match tag_of(alloc, head, end)? {
        Some(tag) => Ok(FlacTail::with(alloc, &tag)?),
        None => Ok(FlacTail::none(alloc)),
    }
}
