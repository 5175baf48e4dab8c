// Coded residuals (RFC 9639, section 9.2.7).
ghost use Rattle.std.specs.Prelude.{◌≡◌, ◌+◌, ◌-◌, ◌*◌, ◌/◌, ◌%◌, ◌^◌, ◌<◌, ◌≤◌, IfOk, OnOk, true, length};
ghost use Rattle.flac_frames.specs.Bits.{fits};
ghost use Rattle.flac_frames.specs.AllFit.{AllFit};
ghost use Rattle.flac_frames.specs.Reading.{Reads, ReadsInto, signed, times};
ghost use Rattle.flac_frames.specs.Residual.{unfolded, rice, escaped, partition, partitions, parameter_width, partition_order, residuals};
ghost use Rattle.flac_frames.specs.Left.{left};

use crate::bits::BitReader;
use crate::power::power_of_two;
use crate::refusal::FrameError;

/// The greatest code that a residual may have.
const LAST_CODE: u64 = 4294967294;

#[inline]
#[tactic(auto, unfolding(crate::specs::Residual::unfolded))]
fn residual_value(code: u64) -> i64
    requires { code < 2 ^ 32 - 1 }
    ensures value { result ≡ unfolded code }
    ensures in_range { fits 33 result ≡ true }
{
    let half = (code / 2) as i64;
    if code % 2 == 0 { half } else { -1 - half }
}

#[inline]
#[tactic(auto, using(crate::proofs::Codes::code_fits), unfolding(crate::specs::Residual::rice, crate::specs::Residual::residual_of))]
fn read_rice(reader: &mut BitReader, parameter: u32) -> Result<i64, FrameError>
    requires { parameter ≤ 30 }
    ensures reads { Reads (rice parameter) (left reader.old) result (left reader.new) }
    ensures in_range { IfOk result (λ residual. fits 33 residual ≡ true) }
{
    let quotient = reader.unary()?;
    let remainder = reader.unsigned(parameter)?;
    if quotient > LAST_CODE {
        return Err(FrameError::TooLarge);
    }
    let code = quotient * power_of_two(parameter) + remainder;
    if code > LAST_CODE {
        return Err(FrameError::TooLarge);
    }
    Ok(residual_value(code))
}

fn read_coded(reader: &mut BitReader, parameter: u32, out: &mut [i64]) -> Result<(), FrameError>
    requires { parameter ≤ 30 }
    ensures reads { ReadsInto (times (length out.old) (rice parameter)) (left reader.old) result out.new (left reader.new) }
    ensures in_range { OnOk result (AllFit 33 out.new) }
{
    for residual in out.iter_mut() {
        *residual = read_rice(reader, parameter)?;
    }
    Ok(())
}

/// As many numbers in two's complement as there is room for.
pub(crate) fn read_signed(
    reader: &mut BitReader,
    width: u32,
    out: &mut [i64],
) -> Result<(), FrameError>
    requires { width ≤ 33 }
    ensures reads { ReadsInto (times (length out.old) (signed width)) (left reader.old) result out.new (left reader.new) }
    ensures in_range { OnOk result (AllFit width out.new) }
{
    for number in out.iter_mut() {
        *number = reader.signed(width)?;
    }
    Ok(())
}

#[tactic(auto, unfolding(crate::specs::Residual::escaped))]
fn read_escaped(reader: &mut BitReader, out: &mut [i64]) -> Result<(), FrameError>
    ensures reads { ReadsInto (escaped (length out.old)) (left reader.old) result out.new (left reader.new) }
    ensures in_range { OnOk result (AllFit 33 out.new) }
{
    let width = reader.unsigned(5)? as u32;
    read_signed(reader, width, out)
}

#[tactic(auto, using(crate::proofs::Codes::parameter_small), unfolding(crate::specs::Residual::partition))]
fn read_partition(
    reader: &mut BitReader,
    parameter_bits: u32,
    out: &mut [i64],
) -> Result<(), FrameError>
    requires least { 4 ≤ parameter_bits }
    requires most { parameter_bits ≤ 5 }
    ensures reads { ReadsInto (partition parameter_bits (length out.old)) (left reader.old) result out.new (left reader.new) }
    ensures in_range { OnOk result (AllFit 33 out.new) }
{
    let parameter = reader.unsigned(parameter_bits)?;
    if parameter == power_of_two(parameter_bits) - 1 {
        read_escaped(reader, out)
    } else {
        read_coded(reader, parameter as u32, out)
    }
}

#[tactic(auto, unfolding(crate::specs::Residual::parameter_width))]
fn read_parameter_width(reader: &mut BitReader) -> Result<u32, FrameError>
    ensures reads { Reads parameter_width (left reader.old) result (left reader.new) }
    ensures least { IfOk result (λ width. 4 ≤ width) }
    ensures most { IfOk result (λ width. width ≤ 5) }
{
    let method = reader.unsigned(2)?;
    if method < 2 {
        Ok(4 + method as u32)
    } else {
        Err(FrameError::Forbidden)
    }
}

/// So many partitions, each of a power of two.
#[tactic(auto, unfolding(crate::specs::Residual::partition_order))]
fn read_partition_order(
    reader: &mut BitReader,
    block_size: usize,
    warm_up: usize,
) -> Result<u32, FrameError>
    ensures reads { Reads (partition_order block_size warm_up) (left reader.old) result (left reader.new) }
    ensures few { IfOk result (λ n. n < 16) }
    ensures whole { IfOk result (λ n. block_size % 2 ^ n ≡ 0) }
    ensures room { IfOk result (λ n. warm_up ≤ block_size / 2 ^ n) }
{
    let n = reader.unsigned(4)? as u32;
    let partitions = power_of_two(n) as usize;
    if block_size % partitions == 0 && warm_up <= block_size / partitions {
        Ok(n)
    } else {
        Err(FrameError::Forbidden)
    }
}

/// So many partitions of one size.
fn read_partitions(
    reader: &mut BitReader,
    parameter_bits: u32,
    count: usize,
    size: usize,
    out: &mut [i64],
) -> Result<(), FrameError>
    requires least { 4 ≤ parameter_bits }
    requires most { parameter_bits ≤ 5 }
    requires room { length out.old ≡ count * size }
    ensures reads { ReadsInto (partitions parameter_bits count size) (left reader.old) result out.new (left reader.new) }
    ensures in_range { OnOk result (AllFit 33 out.new) }
{
    for i in 0..count {
        let start = i * size;
        read_partition(reader, parameter_bits, &mut out[start..start + size])?;
    }
    Ok(())
}

/// The residuals of a block behind its warm-up samples.
#[tactic(auto, unfolding(crate::specs::Residual::residuals))]
pub(crate) fn read_residuals(
    reader: &mut BitReader,
    warm_up: usize,
    out: &mut [i64],
) -> Result<(), FrameError>
    requires { warm_up + length out.old < 65536 }
    ensures reads { ReadsInto (residuals (warm_up + length out.old) warm_up) (left reader.old) result out.new (left reader.new) }
    ensures in_range { OnOk result (AllFit 33 out.new) }
{
    let block_size = warm_up + out.len();
    let parameter_bits = read_parameter_width(reader)?;
    let n = read_partition_order(reader, block_size, warm_up)?;
    let partitions = power_of_two(n) as usize;
    let size = block_size / partitions;
    let first = size - warm_up;
    read_partition(reader, parameter_bits, &mut out[..first])?;
    read_partitions(
        reader,
        parameter_bits,
        partitions - 1,
        size,
        &mut out[first..],
    )
}
