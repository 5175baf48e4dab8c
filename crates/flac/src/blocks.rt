// The metadata blocks.
ghost use Rattle.std.specs.Prelude.{◌≡◌, ◌+◌, ◌<◌, ◌≤◌, ◌^◌, length, IfOk, IfErr, Ok, All};
ghost use Rattle.song_files.specs.Source.{Grows, Keeps};
ghost use Rattle.flac.specs.Blocks.{head_in, sound, block_at, blocks_from, EndsBy, IsWithin};
ghost use Rattle.flac.specs.FlacError.{Refuses};

use crate::FlacError;
use crate::read::read_bytes;
use song_files::Source;
use std::alloc::Global;

/// How many metadata blocks a file may have.
pub const MAX_BLOCKS: usize = 65_536;

/// How many bytes the head of a block has.
const HEAD_LEN: u64 = 4;

/// A type that no block may have.
const FORBIDDEN: u8 = 127;

/// A block whose data has not been read: whether it is the last one, its type, the place of its first byte of data in the file, and how
/// many bytes of data there are.
#[derive(Clone, Copy, Debug)]
pub struct BlockHead {
    pub is_last: bool,
    pub kind: u8,
    pub first: u64,
    pub len: u64,
}

impl BlockHead {
    /// The block at `at` whose head has these bytes.
    fn new(bytes: [u8; 4], at: u64) -> Self
        requires { at + 4 < 2 ^ 64 }
        ensures { result ≡ head_in at bytes }
    {
        let [flag, a, b, c] = bytes;
        BlockHead {
            is_last: flag >= 128,
            kind: flag % 128,
            first: at + HEAD_LEN,
            len: u64::from(u32::from_be_bytes([0, a, b, c])),
        }
    }

    /// The block, if it may stand in a file of `end` bytes.
    fn check(self, end: u64) -> Result<BlockHead, FlacError>
        requires { self.first ≤ end }
        ensures { result ≡ sound end self }
    {
        if self.kind == FORBIDDEN || self.len > end - self.first {
            return Err(FlacError::DamagedBlock);
        }
        Ok(self)
    }
}

/// The block that begins at `at` in a source of `end` bytes.
fn read_block<S: Source>(source: &mut S, at: u64, end: u64) -> Result<BlockHead, FlacError>
    requires { at ≤ end }
    ensures block { S.honest source.old → end ≡ length (S.bytes source.old) →
        IfOk result (λ block. block_at (S.bytes source.old) at ≡ Ok block) }
    ensures refused { S.honest source.old → end ≡ length (S.bytes source.old) →
        IfErr result (Refuses (block_at (S.bytes source.old) at) (Grows (S.faults source.old) (S.faults source.new))) }
    ensures within { IfOk result (IsWithin at end) }
    ensures kept { S.honest source.old → Keeps S.bytes S.honest S.faults S.steady source.old source.new }
{
    if end - at < HEAD_LEN {
        return Err(FlacError::DamagedBlock);
    }
    let mut bytes = [0; 4];
    read_bytes(source, at, &mut bytes)?;
    BlockHead::new(bytes, at).check(end)
}

/// The blocks from `start` up to the last one in a source of `end` bytes.
pub fn list_blocks<S: Source>(
    alloc: Global,
    source: &mut S,
    start: u64,
    end: u64,
) -> Result<Vec<BlockHead>, FlacError>
    requires { start ≤ end }
    ensures listed { S.honest source.old → end ≡ length (S.bytes source.old) →
        IfOk result (λ blocks. blocks_from MAX_BLOCKS (S.bytes source.old) start ≡ Ok blocks.items) }
    ensures refused { S.honest source.old → end ≡ length (S.bytes source.old) →
        IfErr result (Refuses (blocks_from MAX_BLOCKS (S.bytes source.old) start) (Grows (S.faults source.old) (S.faults source.new))) }
    ensures bounded { IfOk result (λ blocks. All (EndsBy end) blocks.items) }
    ensures kept { S.honest source.old → Keeps S.bytes S.honest S.faults S.steady source.old source.new }
{
    let mut blocks = Vec::new(alloc);
    let mut at = start;
    'heads: while blocks.len() < MAX_BLOCKS {
        let block = read_block(source, at, end)?;
        blocks.push(block)?;
        if block.is_last {
            return Ok(blocks);
        }
        at = block.first + block.len;
    }
    Err(FlacError::TooManyBlocks)
}
