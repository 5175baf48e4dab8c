// The fields of a frame's head (RFC 9639, section 9.1).
ghost use Rattle.std.specs.Prelude.{◌≡◌, ◌+◌, ◌%◌, ◌^◌, ◌<◌, ◌≤◌, IfOk, OnOk, List, Bool, length};
ghost use Rattle.flac_frames.specs.Reading.{Reads, unsigned};
ghost use Rattle.flac_frames.specs.CodedNumber.{six_bits, continued, number_from, coded_number};
ghost use Rattle.flac_frames.specs.FrameHead.{channels_of, sample_bits_of, frame_number, block_size_of, coded_rate, rate_of};
ghost use Rattle.flac_frames.specs.FrameHead.{head_fields, sync, blocking_strategy, reserved_bit};
ghost use Rattle.flac_frames.specs.Left.{left};
ghost use Rattle.flac_frames.specs.declared.head.Stream.{Stream};

use crate::bits::BitReader;
use crate::head::{Channels, FrameHead, Stream};
use crate::power::power_of_two;
use crate::refusal::FrameError;

/// The highest rate, in samples a second.
pub const MAX_RATE: u32 = 192000;

/// A number of so many bits, up to 32.
fn read_field(reader: &mut BitReader, n: u32) -> Result<u64, FrameError>
    requires { n ≤ 32 }
    ensures reads { Reads (unsigned n) (left reader.old) result (left reader.new) }
    ensures small { IfOk result (λ number. number < 2 ^ n) }
    ensures taken { OnOk result (length (left reader.new) + n ≡ length (left reader.old)) }
{
    reader.unsigned(n)
}

#[tactic(auto, unfolding(crate::specs::CodedNumber::six_bits))]
fn read_six_bits(reader: &mut BitReader) -> Result<u64, FrameError>
    ensures reads { Reads six_bits (left reader.old) result (left reader.new) }
    ensures small { IfOk result (λ number. number < 64) }
    ensures taken { OnOk result (length (left reader.new) + 8 ≡ length (left reader.old)) }
{
    let byte = read_field(reader, 8)?;
    if byte >= 128 && byte < 192 {
        Ok(byte - 128)
    } else {
        Err(FrameError::Forbidden)
    }
}

fn read_continued(reader: &mut BitReader, n: u32, first: u64) -> Result<u64, FrameError>
    requires few { n ≤ 6 }
    requires small { first < 64 }
    ensures reads { Reads (continued n first) (left reader.old) result (left reader.new) }
    ensures whole { OnOk result (length (left reader.new) % 8 ≡ length (left reader.old) % 8) }
{
    let mut number = first;
    for _k in 0..n {
        let low = read_six_bits(reader)?;
        number = number * 64 + low;
    }
    Ok(number)
}

#[tactic(auto, unfolding(crate::specs::CodedNumber::number_from))]
fn read_number_from(reader: &mut BitReader, first: u64) -> Result<u64, FrameError>
    ensures reads { Reads (number_from first) (left reader.old) result (left reader.new) }
    ensures whole { OnOk result (length (left reader.new) % 8 ≡ length (left reader.old) % 8) }
{
    if first < 128 {
        Ok(first)
    } else if first < 192 {
        Err(FrameError::Forbidden)
    } else if first < 224 {
        read_continued(reader, 1, first - 192)
    } else if first < 240 {
        read_continued(reader, 2, first - 224)
    } else if first < 248 {
        read_continued(reader, 3, first - 240)
    } else if first < 252 {
        read_continued(reader, 4, first - 248)
    } else if first < 254 {
        read_continued(reader, 5, first - 252)
    } else if first < 255 {
        read_continued(reader, 6, 0)
    } else {
        Err(FrameError::Forbidden)
    }
}

#[tactic(auto, unfolding(crate::specs::CodedNumber::coded_number))]
fn read_coded_number(reader: &mut BitReader) -> Result<u64, FrameError>
    ensures reads { Reads coded_number (left reader.old) result (left reader.new) }
    ensures whole { OnOk result (length (left reader.new) % 8 ≡ length (left reader.old) % 8) }
{
    let first = read_field(reader, 8)?;
    read_number_from(reader, first)
}

/// The number of a frame has at most 31 bits, that of a sample at most 36.
#[tactic(auto, unfolding(crate::specs::FrameHead::frame_number))]
fn read_number(reader: &mut BitReader, is_variable: bool) -> Result<u64, FrameError>
    ensures reads { Reads (frame_number is_variable) (left reader.old) result (left reader.new) }
    ensures whole { OnOk result (length (left reader.new) % 8 ≡ length (left reader.old) % 8) }
{
    let number = read_coded_number(reader)?;
    if is_variable || number < 2147483648 {
        Ok(number)
    } else {
        Err(FrameError::Forbidden)
    }
}

#[tactic(auto, unfolding(crate::specs::FrameHead::channels_of))]
fn channels_by(code: u64) -> Result<Channels, FrameError>
    ensures { (bits : List Bool) → Reads (channels_of code) bits result bits }
{
    if code == 0 {
        Ok(Channels::Mono)
    } else if code == 1 {
        Ok(Channels::Stereo)
    } else if code < 8 {
        Err(FrameError::TooManyChannels)
    } else if code == 8 {
        Ok(Channels::LeftSide)
    } else if code == 9 {
        Ok(Channels::SideRight)
    } else if code == 10 {
        Ok(Channels::MidSide)
    } else {
        Err(FrameError::Forbidden)
    }
}

#[tactic(auto, unfolding(crate::specs::FrameHead::sample_bits_of))]
fn sample_bits_by(stream: Stream, code: u64) -> Result<u8, FrameError>
    ensures reads { (bits : List Bool) → Reads (sample_bits_of stream code) bits result bits }
    ensures least { IfOk result (λ bits. 4 ≤ bits) }
    ensures most { IfOk result (λ bits. bits ≤ 32) }
{
    if code == 0 {
        if stream.bits >= 4 && stream.bits <= 32 {
            Ok(stream.bits)
        } else {
            Err(FrameError::BitsNotSupported)
        }
    } else if code == 1 {
        Ok(8)
    } else if code == 2 {
        Ok(12)
    } else if code == 4 {
        Ok(16)
    } else if code == 5 {
        Ok(20)
    } else if code == 6 {
        Ok(24)
    } else if code == 7 {
        Ok(32)
    } else {
        Err(FrameError::Forbidden)
    }
}

#[tactic(auto, unfolding(crate::specs::FrameHead::block_size_of))]
fn read_block_size(reader: &mut BitReader, code: u64) -> Result<u16, FrameError>
    requires { code < 16 }
    ensures reads { Reads (block_size_of code) (left reader.old) result (left reader.new) }
    ensures whole { OnOk result (length (left reader.new) % 8 ≡ length (left reader.old) % 8) }
{
    if code == 0 {
        Err(FrameError::Forbidden)
    } else if code == 1 {
        Ok(192)
    } else if code < 6 {
        Ok((144 * power_of_two(code as u32)) as u16)
    } else if code == 6 {
        let size = read_field(reader, 8)?;
        Ok(size as u16 + 1)
    } else if code == 7 {
        let size = read_field(reader, 16)?;
        if size < 65535 {
            Ok(size as u16 + 1)
        } else {
            Err(FrameError::Forbidden)
        }
    } else {
        Ok(power_of_two(code as u32) as u16)
    }
}

#[tactic(auto, unfolding(crate::specs::FrameHead::coded_rate))]
fn read_long_rate(reader: &mut BitReader, code: u64) -> Result<u32, FrameError>
    requires { 11 < code }
    ensures reads { (stream : Stream) → Reads (coded_rate stream code) (left reader.old) result (left reader.new) }
    ensures whole { OnOk result (length (left reader.new) % 8 ≡ length (left reader.old) % 8) }
{
    if code == 12 {
        let thousands = read_field(reader, 8)?;
        Ok(1000 * thousands as u32)
    } else if code == 13 {
        let rate = read_field(reader, 16)?;
        Ok(rate as u32)
    } else if code == 14 {
        let tens = read_field(reader, 16)?;
        Ok(10 * tens as u32)
    } else {
        Err(FrameError::Forbidden)
    }
}

#[tactic(auto, unfolding(crate::specs::FrameHead::coded_rate))]
fn read_coded_rate(reader: &mut BitReader, stream: Stream, code: u64) -> Result<u32, FrameError>
    ensures reads { Reads (coded_rate stream code) (left reader.old) result (left reader.new) }
    ensures whole { OnOk result (length (left reader.new) % 8 ≡ length (left reader.old) % 8) }
{
    match code {
        0 => Ok(stream.rate),
        1 => Ok(88200),
        2 => Ok(176400),
        3 => Ok(192000),
        4 => Ok(8000),
        5 => Ok(16000),
        6 => Ok(22050),
        7 => Ok(24000),
        8 => Ok(32000),
        9 => Ok(44100),
        10 => Ok(48000),
        11 => Ok(96000),
        _ => read_long_rate(reader, code),
    }
}

#[tactic(auto, unfolding(crate::specs::FrameHead::rate_of))]
fn read_rate(reader: &mut BitReader, stream: Stream, code: u64) -> Result<u32, FrameError>
    ensures reads { Reads (rate_of stream code) (left reader.old) result (left reader.new) }
    ensures whole { OnOk result (length (left reader.new) % 8 ≡ length (left reader.old) % 8) }
{
    let rate = read_coded_rate(reader, stream, code)?;
    if rate >= 1 && rate <= MAX_RATE {
        Ok(rate)
    } else {
        Err(FrameError::RateNotSupported)
    }
}

#[tactic(auto, unfolding(crate::specs::FrameHead::sync))]
fn read_sync(reader: &mut BitReader) -> Result<u64, FrameError>
    ensures reads { Reads sync (left reader.old) result (left reader.new) }
    ensures taken { OnOk result (length (left reader.new) + 15 ≡ length (left reader.old)) }
{
    let code = read_field(reader, 15)?;
    if code == 0x7ffc {
        Ok(code)
    } else {
        Err(FrameError::NoSync)
    }
}

#[tactic(auto, unfolding(crate::specs::FrameHead::blocking_strategy))]
fn read_blocking_strategy(reader: &mut BitReader) -> Result<bool, FrameError>
    ensures reads { Reads blocking_strategy (left reader.old) result (left reader.new) }
    ensures taken { OnOk result (length (left reader.new) + 1 ≡ length (left reader.old)) }
{
    let bit = read_field(reader, 1)?;
    Ok(bit == 1)
}

#[tactic(auto, unfolding(crate::specs::FrameHead::reserved_bit))]
fn read_reserved_bit(reader: &mut BitReader) -> Result<u64, FrameError>
    ensures reads { Reads reserved_bit (left reader.old) result (left reader.new) }
    ensures taken { OnOk result (length (left reader.new) + 1 ≡ length (left reader.old)) }
{
    let bit = read_field(reader, 1)?;
    if bit == 0 {
        Ok(bit)
    } else {
        Err(FrameError::Forbidden)
    }
}

/// The head up to its check.
#[tactic(auto, unfolding(crate::specs::FrameHead::head_fields))]
pub(crate) fn read_fields(reader: &mut BitReader, stream: Stream) -> Result<FrameHead, FrameError>
    ensures reads { Reads (head_fields stream) (left reader.old) result (left reader.new) }
    ensures whole { OnOk result (length (left reader.new) % 8 ≡ length (left reader.old) % 8) }
    ensures least { IfOk result (λ head. 4 ≤ head.bits) }
    ensures most { IfOk result (λ head. head.bits ≤ 32) }
{
    let _sync = read_sync(reader)?;
    let is_variable = read_blocking_strategy(reader)?;
    let size_code = read_field(reader, 4)?;
    let rate_code = read_field(reader, 4)?;
    let channels_code = read_field(reader, 4)?;
    let channels = channels_by(channels_code)?;
    let bits_code = read_field(reader, 3)?;
    let bits = sample_bits_by(stream, bits_code)?;
    let _reserved = read_reserved_bit(reader)?;
    let number = read_number(reader, is_variable)?;
    let block_size = read_block_size(reader, size_code)?;
    let rate = read_rate(reader, stream, rate_code)?;
    Ok(FrameHead {
        is_variable,
        number,
        block_size,
        rate,
        channels,
        bits,
    })
}
