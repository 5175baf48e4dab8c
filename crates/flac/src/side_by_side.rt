// Samples of one or two channels, those of a moment side by side.
ghost use Rattle.std.specs.Prelude.{◌≡◌, ◌+◌, ◌*◌, ◌<◌, ◌≤◌, ◌^◌, length, min, pos, slice_index_or, slice_range};
ghost use Rattle.flac_frames.specs.Decoder.{samples_of};
ghost use Rattle.flac.specs.Frames.{in_turn, side_by_side};

use crate::decoding::channel_of;
use flac_frames::FrameDecoder;

/// Copies samples of one channel, from the one with the number `place` on.
fn copy_one(samples: &[i64], place: usize, buffer: &mut [i64])
    requires { place + length buffer.old ≤ length samples.now }
    ensures { buffer.new ≡ slice_range samples.now place (place + length buffer.old) }
{
    buffer.copy_from_slice(&samples[place..place + buffer.len()]);
}

/// The sample with a number among those of both channels.
fn sample_at(left: &[i64], right: &[i64], number: usize) -> i64
    requires { number < 2 * min (length left.now) (length right.now) }
    ensures { result ≡ slice_index_or (in_turn left.now right.now) number (pos 0) }
{
    if number % 2 == 0 {
        left[number / 2]
    } else {
        right[number / 2]
    }
}

/// Copies samples of two channels in turn, from the one with the number `place` among both on.
fn copy_two(left: &[i64], right: &[i64], place: usize, buffer: &mut [i64])
    requires fits { place + length buffer.old < 2 ^ 64 }
    requires within { place + length buffer.old ≤ 2 * min (length left.now) (length right.now) }
    ensures { buffer.new ≡ slice_range (in_turn left.now right.now) place (place + length buffer.old) }
{
    for (k, sample) in buffer.iter_mut().enumerate() {
        *sample = sample_at(left, right, place + k);
    }
}

/// Copies samples of a frame, from the one with the number `place` among all its samples on.
pub fn copy_flat(decoder: &FrameDecoder, place: usize, buffer: &mut [i64])
    requires fits { place + length buffer.old < 2 ^ 64 }
    requires within { place + length buffer.old ≤ length (side_by_side (samples_of decoder.now)) }
    ensures { buffer.new ≡ slice_range (side_by_side (samples_of decoder.now)) place (place + length buffer.old) }
{
    match (channel_of(decoder, 0), channel_of(decoder, 1)) {
        (Some(left), Some(right)) => copy_two(left, right, place, buffer),
        (Some(only), None) => copy_one(only, place, buffer),
        (None, _) => {}
    }
}
