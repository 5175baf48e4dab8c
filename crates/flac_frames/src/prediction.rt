// Samples from their residuals (RFC 9639, sections 9.2.5 and 9.2.6).
ghost use Rattle.std.specs.Prelude.{◌≡◌, ◌+◌, ◌-◌, ◌^◌, ◌<◌, ◌≤◌, OnOk, length, take, drop, reverse, unsigned_abs, true, ◌+ℤ◌, ◌*ℤ◌};
ghost use Rattle.std.specs.Int.{int_shr};
ghost use Rattle.flac_frames.specs.Bits.{fits};
ghost use Rattle.flac_frames.specs.AllFit.{AllFit};
ghost use Rattle.flac_frames.specs.Prediction.{weighted, samples_from, fixed_coefficients, Restores};

use crate::power::power_of_two;
use crate::refusal::FrameError;

/// Whether a sample has so many bits.
#[inline]
pub(crate) fn is_in_range(width: u32, sample: i64) -> bool
    requires least { 1 ≤ width }
    requires most { width ≤ 33 }
    ensures { result ≡ fits width sample }
{
    let half = power_of_two(width - 1) as i64;
    -half <= sample && sample < half
}

/// A sum with one product more.
#[inline]
fn add_product(sum: i64, coefficient: i64, sample: i64) -> i64
    requires small { fits 15 coefficient ≡ true }
    requires in_range { fits 33 sample ≡ true }
    requires bound { unsigned_abs sum ≤ 2 ^ 51 }
    ensures value { result ≡ sum +ℤ coefficient *ℤ sample }
    ensures bound { unsigned_abs result ≤ unsigned_abs sum + 2 ^ 46 }
{
    sum + coefficient * sample
}

/// A residual and what was predicted by the sum.
#[inline]
fn add_prediction(residual: i64, sum: i64, shift: u32) -> i64
    requires in_range { fits 33 residual ≡ true }
    requires bound { unsigned_abs sum ≤ 2 ^ 51 }
    requires few { shift < 16 }
    ensures value { result ≡ residual +ℤ int_shr sum shift }
{
    residual + (sum >> shift)
}

/// The products of the coefficients and the samples from the last one backwards.
#[inline]
fn weigh(coefficients: &[i64], samples: &[i64]) -> i64
    requires few { length coefficients.now ≤ 32 }
    requires enough { length coefficients.now ≤ length samples.now }
    requires small { AllFit 15 coefficients.now }
    requires in_range { AllFit 33 samples.now }
    ensures value { result ≡ weighted coefficients.now (reverse samples.now) }
    ensures bound { unsigned_abs result ≤ 2 ^ 51 }
{
    let mut sum = 0i64;
    let last = samples.len();
    for j in 0..coefficients.len() {
        sum = add_product(sum, coefficients[j], samples[last - 1 - j]);
    }
    sum
}

/// Puts the samples in the place of the residuals behind the warm-up samples, as many as there are coefficients.
pub(crate) fn restore(
    width: u32,
    coefficients: &[i64],
    shift: u32,
    samples: &mut [i64],
) -> Result<(), FrameError>
    requires least { 1 ≤ width }
    requires most { width ≤ 33 }
    requires few { length coefficients.now ≤ 32 }
    requires enough { length coefficients.now ≤ length samples.old }
    requires shifted { shift < 16 }
    requires small { AllFit 15 coefficients.now }
    requires in_range { AllFit 33 samples.old }
    requires warm_up { AllFit width (take (length coefficients.now) samples.old) }
    ensures restored { Restores (samples_from width coefficients.now shift) (length coefficients.now) samples.old result samples.new }
    ensures in_range { OnOk result (AllFit width samples.new) }
{
    let order = coefficients.len();
    for i in order..samples.len() {
        let sum = weigh(coefficients, &samples[..i]);
        let sample = add_prediction(samples[i], sum, shift);
        if !is_in_range(width, sample) {
            return Err(FrameError::TooLarge);
        }
        samples[i] = sample;
    }
    Ok(())
}

/// The coefficients of the fixed predictor of an order up to 4.
#[tactic(auto, unfolding(crate::specs::Prediction::fixed_coefficients))]
pub(crate) fn coefficients_of(order: usize) -> &'static [i64]
    requires { order ≤ 4 }
    ensures value { result.now ≡ fixed_coefficients order }
    ensures len { length result.now ≡ order }
    ensures small { AllFit 15 result.now }
{
    match order {
        0 => &[],
        1 => &[1],
        2 => &[2, -1],
        3 => &[3, -3, 1],
        _ => &[4, -6, 4, -1],
    }
}
