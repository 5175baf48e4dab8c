// The subframes of a frame.
ghost use Rattle.std.specs.Prelude.{◌≡◌, ◌+◌, ◌%◌, ◌<◌, ◌≤◌, true, length, OnOk, if◌then◌else◌};
ghost use Rattle.flac_frames.specs.AllFit.{AllFit};
ghost use Rattle.flac_frames.specs.Reading.{Reads, ReadsInto};
ghost use Rattle.flac_frames.specs.Decorrelation.{first_width, second_width};
ghost use Rattle.flac_frames.specs.Frame.{is_mono, one_channel, two_channels, channel_samples, padding};
ghost use Rattle.flac_frames.specs.FrameRest.{ReadsPair, ReadsShown};
ghost use Rattle.flac_frames.specs.Left.{left};

use crate::bits::BitReader;
use crate::decorrelation::decorrelate;
use crate::head::{Channels, FrameHead};
use crate::refusal::FrameError;
use crate::subframe::read_subframe;

fn is_single(channels: Channels) -> bool
    ensures { result ≡ is_mono channels }
{
    match channels {
        Channels::Mono => true,
        Channels::Stereo | Channels::LeftSide | Channels::SideRight | Channels::MidSide => false,
    }
}

/// How many channels there are.
pub(crate) fn channel_count(channels: Channels) -> u8
    ensures { result ≡ (if is_mono channels then 1 else 2) }
{
    if is_single(channels) { 1 } else { 2 }
}

/// The bits a sample of the first subframe: a side has one more.
fn first_bits(channels: Channels, bits: u32) -> u32
    requires { bits ≤ 32 }
    ensures value { result ≡ first_width channels bits }
    ensures least { bits ≤ result }
    ensures most { result ≤ 33 }
{
    match channels {
        Channels::Mono | Channels::Stereo | Channels::LeftSide | Channels::MidSide => bits,
        Channels::SideRight => bits + 1,
    }
}

fn second_bits(channels: Channels, bits: u32) -> u32
    requires { bits ≤ 32 }
    ensures value { result ≡ second_width channels bits }
    ensures least { bits ≤ result }
    ensures most { result ≤ 33 }
{
    match channels {
        Channels::Mono | Channels::Stereo | Channels::SideRight => bits,
        Channels::LeftSide | Channels::MidSide => bits + 1,
    }
}

/// Left and right, each as long as the block.
#[tactic(auto, using(crate::proofs::Ranges::all_wider), unfolding(crate::specs::Frame::two_channels))]
fn read_two(
    reader: &mut BitReader,
    head: FrameHead,
    first: &mut [i64],
    second: &mut [i64],
) -> Result<(), FrameError>
    requires least { 4 ≤ head.bits }
    requires most { head.bits ≤ 32 }
    requires first_len { length first.old ≡ head.block_size }
    requires second_len { length second.old ≡ head.block_size }
    ensures { ReadsPair (two_channels head) (left reader.old) result first.new second.new (left reader.new) }
{
    let bits = u32::from(head.bits);
    read_subframe(reader, first_bits(head.channels, bits), first)?;
    read_subframe(reader, second_bits(head.channels, bits), second)?;
    decorrelate(head.channels, bits, first, second)
}

/// The samples of the channels, of which the second may be missing.
#[tactic(auto, unfolding(crate::specs::Frame::channel_samples, crate::specs::Frame::one_channel))]
pub(crate) fn read_channels(
    reader: &mut BitReader,
    head: FrameHead,
    first: &mut [i64],
    second: &mut [i64],
) -> Result<(), FrameError>
    requires least { 4 ≤ head.bits }
    requires most { head.bits ≤ 32 }
    requires first_len { length first.old ≡ head.block_size }
    requires second_len { length second.old ≡ head.block_size }
    ensures { ReadsShown (channel_samples head) (left reader.old) result head.channels first.new second.new (left reader.new) }
{
    if is_single(head.channels) {
        read_subframe(reader, u32::from(head.bits), first)
    } else {
        read_two(reader, head, first, second)
    }
}

/// Zero bits up to a whole number of bytes.
#[tactic(auto, unfolding(crate::specs::Frame::padding))]
pub(crate) fn read_padding(reader: &mut BitReader) -> Result<u64, FrameError>
    ensures reads { Reads padding (left reader.old) result (left reader.new) }
    ensures whole { OnOk result (length (left reader.new) % 8 ≡ 0) }
{
    let odd = reader.odd_bits();
    let zeros = reader.unsigned(odd)?;
    if zeros == 0 {
        Ok(zeros)
    } else {
        Err(FrameError::Forbidden)
    }
}
