// A frame from its head to its check.
ghost use Rattle.std.specs.Prelude.{◌≡◌, ◌+◌, ◌-◌, ◌/◌, ◌%◌, ◌<◌, ◌≤◌, IfOk, OnOk, length};
ghost use Rattle.flac_frames.specs.Bits.{bits_of};
ghost use Rattle.flac_frames.specs.Reading.{Reads};
ghost use Rattle.flac_frames.specs.Frame.{frame_head};
ghost use Rattle.flac_frames.specs.FrameRest.{frame_from, ReadsFrame};
ghost use Rattle.flac_frames.specs.Left.{left};

use crate::bits::BitReader;
use crate::channels::{read_channels, read_padding};
use crate::crc::{check_8, check_16};
use crate::fields::read_fields;
use crate::head::{FrameHead, Stream};
use crate::refusal::FrameError;

/// The head of the frame that these bytes begin with.
#[tactic(auto, using(crate::proofs::Consumed::consumed_bytes), unfolding(crate::specs::Frame::frame_head, crate::specs::Frame::guarded))]
pub(crate) fn read_head(
    reader: &mut BitReader,
    stream: Stream,
    bytes: &[u8],
) -> Result<FrameHead, FrameError>
    requires { left reader.old ≡ bits_of bytes.now }
    ensures reads { Reads (frame_head stream) (left reader.old) result (left reader.new) }
    ensures least { IfOk result (λ head. 4 ≤ head.bits) }
    ensures most { IfOk result (λ head. head.bits ≤ 32) }
{
    let head = read_fields(reader, stream)?;
    let len = bytes.len().saturating_sub(reader.whole_bytes());
    let check = check_8(&bytes[..len]);
    let code = reader.unsigned(8)?;
    if code == u64::from(check) {
        Ok(head)
    } else {
        Err(FrameError::HeadCrc)
    }
}

/// What stands behind the head of the frame that these bytes begin with; gives how many of them the frame takes.
#[tactic(auto, using(crate::proofs::Consumed::consumed_bytes), unfolding(crate::specs::FrameRest::frame_from, crate::specs::FrameRest::frame_body))]
pub(crate) fn read_rest(
    reader: &mut BitReader,
    head: FrameHead,
    bytes: &[u8],
    first: &mut [i64],
    second: &mut [i64],
) -> Result<usize, FrameError>
    requires least { 4 ≤ head.bits }
    requires most { head.bits ≤ 32 }
    requires first_len { length first.old ≡ head.block_size }
    requires second_len { length second.old ≡ head.block_size }
    ensures reads { ReadsFrame (frame_from head (bits_of bytes.now)) (left reader.old) result head first.new second.new (left reader.new) }
    ensures used { IfOk result (λ used. used ≡ length bytes.now - length (left reader.new) / 8) }
{
    read_channels(reader, head, first, second)?;
    let _zeros = read_padding(reader)?;
    let len = bytes.len().saturating_sub(reader.whole_bytes());
    let check = check_16(&bytes[..len]);
    let code = reader.unsigned(16)?;
    if code == u64::from(check) {
        Ok(bytes.len().saturating_sub(reader.whole_bytes()))
    } else {
        Err(FrameError::FrameCrc)
    }
}
