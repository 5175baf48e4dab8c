// What STREAMINFO tells.
ghost use Rattle.std.specs.Prelude.{◌≡◌, ◌+◌, ◌<◌, ◌≤◌, ◌^◌, length, slice_get, IfOk, IfErr, IfSome, Ok, All};
ghost use Rattle.song_files.specs.Source.{Grows, Keeps};
ghost use Rattle.flac.specs.Blocks.{EndsBy};
ghost use Rattle.flac.specs.FlacError.{Refuses};
ghost use Rattle.flac.specs.StreamInfo.{info_in, judged, info_of};

use crate::FlacError;
use crate::blocks::BlockHead;
use crate::numbers::{be16_at, be24_at, be64_at};
use crate::read::read_bytes;
use song_files::Source;

/// The highest rate of a file, in samples a second.
pub const MAX_RATE: u32 = 192_000;

/// The type of STREAMINFO.
const STREAM_INFO: u8 = 0;

/// How many bytes it has.
const INFO_LEN: u64 = 34;

/// What STREAMINFO tells of the stream (RFC 9639, section 8.2).
#[derive(Clone, Copy, Debug)]
pub struct StreamInfo {
    /// The least samples of a channel in a block, but for the last one, 16 at least.
    pub min_block: u16,
    /// The most samples of a channel in a block.
    pub max_block: u16,
    /// The least bytes of a frame, 0 where it isn't known.
    pub min_frame: u32,
    /// The most bytes of a frame, 0 where it isn't known.
    pub max_frame: u32,
    /// Samples of a channel a second, 1 to 192,000.
    pub rate: u32,
    /// 1 or 2.
    pub channels: u8,
    /// Bits a sample, 4 to 32.
    pub bits: u8,
    /// Samples of a channel in the stream, 0 where that isn't known.
    pub samples: u64,
    /// The MD5 sum of the samples, all zero where it isn't known.
    pub md5: [u8; 16],
}

impl StreamInfo {
    /// What the data of the block says.
    fn parse(bytes: [u8; 34]) -> Self
        ensures { result ≡ info_in bytes }
    {
        let packed = be64_at(&bytes, 10);
        let mut md5 = [0; 16];
        md5.copy_from_slice(&bytes[18..34]);
        StreamInfo {
            min_block: be16_at(&bytes, 0),
            max_block: be16_at(&bytes, 2),
            min_frame: be24_at(&bytes, 4),
            max_frame: be24_at(&bytes, 7),
            rate: (packed / (1 << 44)) as u32,
            channels: (packed / (1 << 41) % 8 + 1) as u8,
            bits: (packed / (1 << 36) % 32 + 1) as u8,
            samples: packed % (1 << 36),
            md5,
        }
    }

    /// This, if it can be played.
    fn judge(self) -> Result<StreamInfo, FlacError>
        ensures judged { result ≡ judged self }
    {
        if self.min_block < 16 || self.min_block > self.max_block {
            return Err(FlacError::BadStreamInfo);
        }
        if self.channels > 2 || self.rate < 1 || self.rate > MAX_RATE || self.bits < 4 {
            return Err(FlacError::Unsupported {
                rate: self.rate,
                channels: self.channels,
                bits: self.bits,
            });
        }
        Ok(self)
    }
}

/// What STREAMINFO tells, which is the first block.
pub fn read_stream_info<S: Source>(
    source: &mut S,
    blocks: &[BlockHead],
    end: u64,
) -> Result<StreamInfo, FlacError>
    requires { All (EndsBy end) blocks.now }
    ensures info { S.honest source.old → end ≡ length (S.bytes source.old) →
        IfOk result (λ info. info_of (S.bytes source.old) blocks.now ≡ Ok info) }
    ensures refused { S.honest source.old → end ≡ length (S.bytes source.old) →
        IfErr result (Refuses (info_of (S.bytes source.old) blocks.now) (Grows (S.faults source.old) (S.faults source.new))) }
    ensures kept { S.honest source.old → Keeps S.bytes S.honest S.faults S.steady source.old source.new }
{
    let Some(block) = blocks.first() else {
        return Err(FlacError::BadStreamInfo);
    };
    if block.kind != STREAM_INFO || block.len != INFO_LEN {
        return Err(FlacError::BadStreamInfo);
    }
    let mut bytes = [0; 34];
    read_bytes(source, block.first, &mut bytes)?;
    StreamInfo::parse(bytes).judge()
}
