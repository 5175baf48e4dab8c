// A subframe: the samples of one channel (RFC 9639, section 9.2).
ghost use Rattle.std.specs.Prelude.{◌≡◌, ◌+◌, ◌-◌, ◌*◌, ◌^◌, ◌<◌, ◌≤◌, IfOk, OnOk, length, take, map, true};
ghost use Rattle.flac_frames.specs.Bits.{fits};
ghost use Rattle.flac_frames.specs.Predicted.{restored_block};
ghost use Rattle.flac_frames.specs.AllFit.{AllFit};
ghost use Rattle.flac_frames.specs.Reading.{Reads, ReadsInto};
ghost use Rattle.flac_frames.specs.Subframe.{constant, verbatim, warm_up_of, fixed, precision, shift_right, linear};
ghost use Rattle.flac_frames.specs.Subframe.{kind_code, samples_of_kind, wasted_bits, widened, subframe};
ghost use Rattle.flac_frames.specs.Left.{left};

use crate::bits::BitReader;
use crate::power::power_of_two;
use crate::prediction::{coefficients_of, restore};
use crate::refusal::FrameError;
use crate::residual::{read_residuals, read_signed};

/// One value for the whole block.
#[tactic(auto, unfolding(crate::specs::Subframe::constant))]
fn read_constant(reader: &mut BitReader, width: u32, out: &mut [i64]) -> Result<(), FrameError>
    requires { width ≤ 33 }
    ensures reads { ReadsInto (constant width (length out.old)) (left reader.old) result out.new (left reader.new) }
    ensures in_range { OnOk result (AllFit width out.new) }
{
    let sample = reader.signed(width)?;
    for value in out.iter_mut() {
        *value = sample;
    }
    Ok(())
}

/// The first samples of a block, as many as the order, which no block has fewer than.
#[tactic(auto, unfolding(crate::specs::Subframe::warm_up_of))]
fn read_warm_up(
    reader: &mut BitReader,
    width: u32,
    order: usize,
    out: &mut [i64],
) -> Result<(), FrameError>
    requires { width ≤ 33 }
    ensures reads { ReadsInto (warm_up_of width (length out.old) order) (left reader.old) result (take order out.new) (left reader.new) }
    ensures in_range { OnOk result (AllFit width (take order out.new)) }
    ensures enough { OnOk result (order ≤ length out.old) }
{
    if order > out.len() {
        return Err(FrameError::Forbidden);
    }
    read_signed(reader, width, &mut out[..order])
}

#[tactic(auto, unfolding(crate::specs::Subframe::precision))]
fn read_precision(reader: &mut BitReader) -> Result<u32, FrameError>
    ensures reads { Reads precision (left reader.old) result (left reader.new) }
    ensures few { IfOk result (λ bits. bits ≤ 15) }
{
    let code = reader.unsigned(4)?;
    if code < 15 {
        Ok(code as u32 + 1)
    } else {
        Err(FrameError::Forbidden)
    }
}

#[tactic(auto, unfolding(crate::specs::Subframe::shift_right))]
fn read_shift(reader: &mut BitReader) -> Result<u32, FrameError>
    ensures reads { Reads shift_right (left reader.old) result (left reader.new) }
    ensures few { IfOk result (λ shift. shift < 16) }
{
    let shift = reader.unsigned(5)?;
    if shift < 16 {
        Ok(shift as u32)
    } else {
        Err(FrameError::Forbidden)
    }
}

#[tactic(auto, unfolding(crate::specs::Subframe::kind_code))]
fn read_kind(reader: &mut BitReader) -> Result<usize, FrameError>
    ensures reads { Reads kind_code (left reader.old) result (left reader.new) }
    ensures few { IfOk result (λ kind. kind < 64) }
{
    let code = reader.unsigned(7)?;
    if code < 64 {
        Ok(code as usize)
    } else {
        Err(FrameError::Forbidden)
    }
}

/// The samples behind the warm-up, as many as there are coefficients, from their residuals.
#[tactic(auto, unfolding(crate::specs::Predicted::restored_block))]
fn read_restored(
    reader: &mut BitReader,
    width: u32,
    coefficients: &[i64],
    shift: u32,
    out: &mut [i64],
) -> Result<(), FrameError>
    requires least { 1 ≤ width }
    requires most { width ≤ 33 }
    requires few { length coefficients.now ≤ 32 }
    requires enough { length coefficients.now ≤ length out.old }
    requires short { length out.old < 65536 }
    requires shifted { shift < 16 }
    requires small { AllFit 15 coefficients.now }
    requires warm_up { AllFit width (take (length coefficients.now) out.old) }
    ensures reads { ReadsInto (restored_block width coefficients.now shift (take (length coefficients.now) out.old) (length out.old))
        (left reader.old) result out.new (left reader.new) }
    ensures in_range { OnOk result (AllFit width out.new) }
{
    let order = coefficients.len();
    read_residuals(reader, order, &mut out[order..])?;
    restore(width, coefficients, shift, out)
}

/// A block under the fixed predictor of an order up to 4.
#[tactic(auto, unfolding(crate::specs::Subframe::fixed, crate::specs::Predicted::restored_block))]
fn read_fixed(
    reader: &mut BitReader,
    width: u32,
    order: usize,
    out: &mut [i64],
) -> Result<(), FrameError>
    requires least { 1 ≤ width }
    requires most { width ≤ 33 }
    requires short { length out.old < 65536 }
    requires few { order ≤ 4 }
    ensures reads { ReadsInto (fixed width (length out.old) order) (left reader.old) result out.new (left reader.new) }
    ensures in_range { OnOk result (AllFit width out.new) }
{
    read_warm_up(reader, width, order, out)?;
    read_restored(reader, width, coefficients_of(order), 0, out)
}

/// A block under a linear predictor of as many coefficients as there is room for.
#[tactic(auto, unfolding(crate::specs::Subframe::linear, crate::specs::Predicted::restored_block))]
fn read_linear(
    reader: &mut BitReader,
    width: u32,
    coefficients: &mut [i64],
    out: &mut [i64],
) -> Result<(), FrameError>
    requires least { 1 ≤ width }
    requires most { width ≤ 33 }
    requires short { length out.old < 65536 }
    requires few { length coefficients.old ≤ 32 }
    ensures reads { ReadsInto (linear width (length out.old) (length coefficients.old)) (left reader.old) result out.new (left reader.new) }
    ensures in_range { OnOk result (AllFit width out.new) }
{
    read_warm_up(reader, width, coefficients.len(), out)?;
    let precision = read_precision(reader)?;
    let shift = read_shift(reader)?;
    read_signed(reader, precision, coefficients)?;
    read_restored(reader, width, coefficients, shift, out)
}

/// The same, by the order, up to 32.
fn read_linear_of(
    reader: &mut BitReader,
    width: u32,
    order: usize,
    out: &mut [i64],
) -> Result<(), FrameError>
    requires least { 1 ≤ width }
    requires most { width ≤ 33 }
    requires short { length out.old < 65536 }
    requires few { order ≤ 32 }
    ensures reads { ReadsInto (linear width (length out.old) order) (left reader.old) result out.new (left reader.new) }
    ensures in_range { OnOk result (AllFit width out.new) }
{
    let mut coefficients = [0i64; 32];
    read_linear(reader, width, &mut coefficients[..order], out)
}

#[tactic(auto, unfolding(crate::specs::Subframe::samples_of_kind, crate::specs::Subframe::verbatim))]
fn read_samples(
    reader: &mut BitReader,
    kind: usize,
    width: u32,
    out: &mut [i64],
) -> Result<(), FrameError>
    requires least { 1 ≤ width }
    requires most { width ≤ 33 }
    requires short { length out.old < 65536 }
    requires few { kind < 64 }
    ensures reads { ReadsInto (samples_of_kind kind width (length out.old)) (left reader.old) result out.new (left reader.new) }
    ensures in_range { OnOk result (AllFit width out.new) }
{
    if kind == 0 {
        read_constant(reader, width, out)
    } else if kind == 1 {
        read_signed(reader, width, out)
    } else if kind >= 8 && kind <= 12 {
        read_fixed(reader, width, kind - 8, out)
    } else if kind >= 32 {
        read_linear_of(reader, width, kind - 31, out)
    } else {
        Err(FrameError::Forbidden)
    }
}

/// How many low bits of each sample are zeros that are not coded.
#[tactic(auto, unfolding(crate::specs::Subframe::wasted_bits))]
fn read_wasted_bits(reader: &mut BitReader) -> Result<u64, FrameError>
    ensures { Reads wasted_bits (left reader.old) result (left reader.new) }
{
    let flag = reader.unsigned(1)?;
    if flag == 0 {
        return Ok(0);
    }
    let zeros = reader.unary()?;
    Ok(zeros + 1)
}

/// A sample with its wasted bits.
#[inline]
fn widen_sample(width: u32, wasted: u32, sample: i64) -> i64
    requires least { 1 ≤ width }
    requires most { width + wasted ≤ 33 }
    requires in_range { fits width sample ≡ true }
    ensures value { result ≡ widened wasted sample }
    ensures in_range { fits (width + wasted) result ≡ true }
{
    sample * power_of_two(wasted) as i64
}

/// The samples with their wasted bits.
fn widen(width: u32, wasted: u32, out: &mut [i64])
    requires least { 1 ≤ width }
    requires most { width + wasted ≤ 33 }
    requires in_range { AllFit width out.old }
    ensures value { out.new ≡ map (widened wasted) out.old }
    ensures in_range { AllFit (width + wasted) out.new }
{
    if wasted == 0 {
        return;
    }
    for sample in out.iter_mut() {
        *sample = widen_sample(width, wasted, *sample);
    }
}

/// The samples of one channel, each of so many bits.
#[tactic(auto, unfolding(crate::specs::Subframe::subframe))]
pub(crate) fn read_subframe(
    reader: &mut BitReader,
    width: u32,
    out: &mut [i64],
) -> Result<(), FrameError>
    requires least { 1 ≤ width }
    requires most { width ≤ 33 }
    requires short { length out.old < 65536 }
    ensures reads { ReadsInto (subframe width (length out.old)) (left reader.old) result out.new (left reader.new) }
    ensures in_range { OnOk result (AllFit width out.new) }
{
    let kind = read_kind(reader)?;
    let wasted = read_wasted_bits(reader)?;
    if wasted >= u64::from(width) {
        return Err(FrameError::Forbidden);
    }
    let wasted = wasted as u32;
    read_samples(reader, kind, width - wasted, out)?;
    widen(width - wasted, wasted, out);
    Ok(())
}
