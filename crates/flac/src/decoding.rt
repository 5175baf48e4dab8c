// Frames of the stream, decoded.
ghost use Rattle.std.specs.Prelude.{◌≡◌, ◌+◌, ◌-◌, ◌*◌, ◌<◌, ◌≤◌, ◌^◌, length, take, drop, IfOk, IfErr, IfSome, IsTrue, Ok, None, vec_len, slice_range};
ghost use Rattle.std.specs.Prelude.{Result, option_copied, slice_get, ◌&&◌, ◌==◌, nat_lt, nat_le};
ghost use Rattle.song_files.specs.Source.{Grows, Keeps};
ghost use Rattle.flac.specs.FlacError.{Fails};
ghost use Rattle.flac.specs.Frames.{channel_count, has_format, frame_in, frame_room, next_frame, side_by_side};
ghost use Rattle.flac.specs.Frames.{stream_of};
ghost use Rattle.flac.specs.Reader.{AreDecoded, IsRefused};
ghost use Rattle.flac_frames.specs.Decoder.{framed_as, samples_of};
ghost use Rattle.flac_frames.specs.Frame.{Framed, Refuses, frame_of};
ghost use Rattle.flac_frames.specs.declared.refusal.FrameError.{FrameError};

use crate::read::read_bytes;
use crate::{FlacError, StreamInfo};
use flac_frames::{Channels, FrameDecoder, FrameError, FrameHead, FrameRead, Stream};
use song_files::Source;

/// How many bytes a frame may have.
pub const MAX_FRAME_BYTES: usize = 589_824;

/// A frame that was decoded: how many bytes it has, how many samples each of its channels, and how many in all.
#[derive(Clone, Copy, Debug)]
pub struct Decoded {
    pub used: u64,
    pub count: u16,
    pub size: u64,
}

fn channel_count(channels: Channels) -> u8
    ensures { result ≡ channel_count channels }
{
    match channels {
        Channels::Mono => 1,
        Channels::Stereo | Channels::LeftSide | Channels::SideRight | Channels::MidSide => 2,
    }
}

/// Whether a frame has the format that STREAMINFO tells.
fn has_format(info: &StreamInfo, head: FrameHead) -> bool
    ensures { result ≡ has_format info.now head }
{
    channel_count(head.channels) == info.channels
        && head.rate == info.rate
        && head.bits == info.bits
}

/// How many bytes a frame of the stream may have.
fn frame_room(info: &StreamInfo) -> usize
    ensures room { result ≡ frame_room info.now }
    ensures small { result ≤ MAX_FRAME_BYTES }
{
    if info.max_frame == 0 {
        MAX_FRAME_BYTES
    } else {
        (info.max_frame as usize).min(MAX_FRAME_BYTES)
    }
}

/// The samples of a channel of the frame, if it has so many.
pub fn channel_of(decoder: &FrameDecoder, index: usize) -> Option<&[i64]>
    ensures { option_copied result ≡ slice_get (samples_of decoder.now) index }
{
    if index < decoder.channels() {
        Some(decoder.channel(index))
    } else {
        None
    }
}

/// How many samples all channels of the frame have.
pub fn size_of(decoder: &FrameDecoder) -> u64
    ensures { result ≡ length (side_by_side (samples_of decoder.now)) }
{
    match (channel_of(decoder, 0), channel_of(decoder, 1)) {
        (Some(left), Some(right)) => 2 * left.len().min(right.len()) as u64,
        (Some(only), None) => only.len() as u64,
        (None, _) => 0,
    }
}

/// Whether a frame of the stream was read: with its format, from some of the bytes, and with all its samples.
fn belongs(info: &StreamInfo, framing: FrameRead, len: usize, size: u64) -> bool
    ensures test { result ≡ (has_format info.now framing.head && nat_lt 0 framing.used && nat_le framing.used len
        && size == info.now.channels * framing.head.block_size) }
    ensures facts { IsTrue result → (0 < framing.used) × (framing.used ≤ len) × (size ≡ info.now.channels * framing.head.block_size) }
{
    has_format(info, framing.head)
        && framing.used > 0
        && framing.used <= len
        && size == u64::from(info.channels) * u64::from(framing.head.block_size)
}

/// The frame that was read, if it is one of the stream.
fn taken(
    decoder: &FrameDecoder,
    info: &StreamInfo,
    framing: FrameRead,
    bytes: &[u8],
) -> Option<Decoded>
    ensures frame { frame_of (stream_of info.now) bytes.now
        ≡ Ok (framed_as framing (samples_of decoder.now)) →
        AreDecoded (frame_in info.now bytes.now) result (samples_of decoder.now) }
    ensures within { IfSome result (λ d. (0 < d.used) × (d.used ≤ length bytes.now)) }
    ensures sized { IfSome result (λ d. d.size ≡ info.now.channels * d.count) }
{
    let size = size_of(decoder);
    if !belongs(info, framing, bytes.len(), size) {
        return None;
    }
    Some(Decoded {
        used: framing.used as u64,
        count: framing.head.block_size,
        size,
    })
}

/// Decodes the frame of the stream at the front of these bytes, if there is one.
fn decode(
    decoder: &mut FrameDecoder,
    info: &StreamInfo,
    bytes: &[u8],
) -> Result<Option<Decoded>, FlacError>
    requires { length bytes.now ≤ MAX_FRAME_BYTES }
    ensures frame { IfOk result (λ found. AreDecoded (frame_in info.now bytes.now) found (samples_of decoder.new)) }
    ensures within { IfOk result (λ found. IfSome found (λ d. (0 < d.used) × (d.used ≤ length bytes.now))) }
    ensures sized { IfOk result (λ found. IfSome found (λ d. d.size ≡ info.now.channels * d.count)) }
    ensures only { IfErr result (λ e. e ≡ FlacError.NoMemory) }
{
    let stream = Stream {
        rate: info.rate,
        bits: info.bits,
    };
    match decoder.read(stream, bytes) {
        Ok(framing) => Ok(taken(decoder, info, framing, bytes)),
        Err(error) => refusal(error),
    }
}

/// No frame, unless memory was wanting.
fn refusal(error: FrameError) -> Result<Option<Decoded>, FlacError>
    ensures none { IfOk result (λ found. (found ≡ None) × ((reading : Result Framed FrameError) → Refuses reading error → IsRefused reading)) }
    ensures only { IfErr result (λ e. e ≡ FlacError.NoMemory) }
{
    match error {
        FrameError::NoMemory => Err(FlacError::NoMemory),
        _ => Ok(None),
    }
}

/// Reads as many bytes from `at` on as a frame may have, fewer at the end of the source.
fn read_front<S: Source>(
    source: &mut S,
    at: u64,
    end: u64,
    room: usize,
    buffer: &mut [u8],
) -> Result<usize, FlacError>
    requires order { at ≤ end }
    requires fits { room ≤ length buffer.old }
    ensures count { IfOk result (λ n. (n ≤ length buffer.old) × (at + n ≤ end) × (n ≤ room)) }
    ensures read { S.honest source.old → end ≡ length (S.bytes source.old) →
        IfOk result (λ n. take n buffer.new ≡ take room (drop at (S.bytes source.old))) }
    ensures fault { S.honest source.old → end ≡ length (S.bytes source.old) →
        IfErr result (Fails (Grows (S.faults source.old) (S.faults source.new))) }
    ensures kept { S.honest source.old → Keeps S.bytes S.honest S.faults S.steady source.old source.new }
{
    let count = (end - at).min(room as u64) as usize;
    read_bytes(source, at, &mut buffer[..count])?;
    Ok(count)
}

/// Decodes the frame that begins at `at` and has at most `room` bytes, if there is one.
fn decode_within<S: Source>(
    source: &mut S,
    at: u64,
    end: u64,
    room: usize,
    info: &StreamInfo,
    buffer: &mut Vec<u8>,
    decoder: &mut FrameDecoder,
) -> Result<Option<Decoded>, FlacError>
    requires order { at ≤ end }
    requires fits { vec_len buffer.old ≡ MAX_FRAME_BYTES }
    requires small { room ≤ MAX_FRAME_BYTES }
    ensures frame { S.honest source.old → end ≡ length (S.bytes source.old) →
        IfOk result (λ found. AreDecoded (frame_in info.now (take room (drop at (S.bytes source.old)))) found (samples_of decoder.new)) }
    ensures within { IfOk result (λ found. IfSome found (λ d. (0 < d.used) × (at + d.used ≤ end))) }
    ensures sized { IfOk result (λ found. IfSome found (λ d. d.size ≡ info.now.channels * d.count)) }
    ensures buffer { vec_len buffer.new ≡ vec_len buffer.old }
    ensures fault { S.honest source.old → end ≡ length (S.bytes source.old) →
        IfErr result (Fails (Grows (S.faults source.old) (S.faults source.new))) }
    ensures kept { S.honest source.old → Keeps S.bytes S.honest S.faults S.steady source.old source.new }
{
    let count = read_front(source, at, end, room, buffer.as_mut_slice())?;
    decode(decoder, info, &buffer[..count])
}

/// Decodes the frame that begins at `at`, if there is one.
pub fn decode_at<S: Source>(
    source: &mut S,
    at: u64,
    end: u64,
    info: &StreamInfo,
    buffer: &mut Vec<u8>,
    decoder: &mut FrameDecoder,
) -> Result<Option<Decoded>, FlacError>
    requires order { at ≤ end }
    requires fits { vec_len buffer.old ≡ MAX_FRAME_BYTES }
    ensures frame { S.honest source.old → end ≡ length (S.bytes source.old) →
        IfOk result (λ found. AreDecoded (next_frame info.now (drop at (S.bytes source.old))) found (samples_of decoder.new)) }
    ensures within { IfOk result (λ found. IfSome found (λ d. (0 < d.used) × (at + d.used ≤ end))) }
    ensures sized { IfOk result (λ found. IfSome found (λ d. d.size ≡ info.now.channels * d.count)) }
    ensures buffer { vec_len buffer.new ≡ vec_len buffer.old }
    ensures fault { S.honest source.old → end ≡ length (S.bytes source.old) →
        IfErr result (Fails (Grows (S.faults source.old) (S.faults source.new))) }
    ensures kept { S.honest source.old → Keeps S.bytes S.honest S.faults S.steady source.old source.new }
{
    let room = frame_room(info);
    if let Some(found) = decode_within(source, at, end, room, info, buffer, decoder)? {
        return Ok(Some(found));
    }
    decode_within(source, at, end, MAX_FRAME_BYTES, info, buffer, decoder)
}
