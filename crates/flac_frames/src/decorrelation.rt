// Left and right from how they were coded (RFC 9639, section 4.2).
ghost use Rattle.std.specs.Prelude.{◌≡◌, ◌≤◌, ◌^◌, ◌&&◌, unsigned_abs, true, length, [], ◌∷◌, MatchResult};
ghost use Rattle.flac_frames.specs.Bits.{fits};
ghost use Rattle.flac_frames.specs.AllFit.{AllFit};
ghost use Rattle.flac_frames.specs.Decorrelation.{sum_of, left_of, right_of, stereo_from};

use crate::head::Channels;
use crate::prediction::is_in_range;
use crate::refusal::FrameError;

/// Twice the mean of left and right: the mean has lost its lowest bit, which is that of the side.
#[inline]
fn sum_with_side(mid: i64, side: i64) -> i64
    requires mid_fits { fits 33 mid ≡ true }
    requires side_fits { fits 33 side ≡ true }
    ensures value { result ≡ sum_of mid side }
    ensures bound { unsigned_abs result ≤ 2 ^ 35 }
{
    2 * mid + (side - 2 * (side >> 1))
}

#[inline]
fn left_sample(channels: Channels, first: i64, second: i64) -> i64
    requires first_fits { fits 33 first ≡ true }
    requires second_fits { fits 33 second ≡ true }
    ensures { result ≡ left_of channels first second }
{
    match channels {
        Channels::Mono | Channels::Stereo | Channels::LeftSide => first,
        Channels::SideRight => first + second,
        Channels::MidSide => (sum_with_side(first, second) + second) >> 1,
    }
}

#[inline]
fn right_sample(channels: Channels, first: i64, second: i64) -> i64
    requires first_fits { fits 33 first ≡ true }
    requires second_fits { fits 33 second ≡ true }
    ensures { result ≡ right_of channels first second }
{
    match channels {
        Channels::Mono | Channels::Stereo | Channels::SideRight => second,
        Channels::LeftSide => first - second,
        Channels::MidSide => (sum_with_side(first, second) - second) >> 1,
    }
}

#[inline]
fn are_in_range(bits: u32, a: i64, b: i64) -> bool
    requires least { 1 ≤ bits }
    requires most { bits ≤ 33 }
    ensures { result ≡ (fits bits a && fits bits b) }
{
    is_in_range(bits, a) && is_in_range(bits, b)
}

/// Puts left and right in the place of what was coded.
pub(crate) fn decorrelate(
    channels: Channels,
    bits: u32,
    left: &mut [i64],
    right: &mut [i64],
) -> Result<(), FrameError>
    requires least { 1 ≤ bits }
    requires most { bits ≤ 33 }
    requires same { length left.old ≡ length right.old }
    requires left_fits { AllFit 33 left.old }
    requires right_fits { AllFit 33 right.old }
    ensures { MatchResult result (λ _. stereo_from channels bits left.old right.old ≡ Ok (left.new ∷ right.new ∷ []))
        (λ e. stereo_from channels bits left.old right.old ≡ Err e) }
{
    for i in 0..left.len() {
        let first = left[i];
        let second = right[i];
        let a = left_sample(channels, first, second);
        let b = right_sample(channels, first, second);
        if !are_in_range(bits, a, b) {
            return Err(FrameError::TooLarge);
        }
        left[i] = a;
        right[i] = b;
    }
    Ok(())
}
