// Numbers in two's complement.
ghost use Rattle.std.specs.Prelude.{◌≡◌, ◌^◌, ◌<◌, ◌≤◌};
ghost use Rattle.flac_frames.specs.Signed.{signed_from};

/// The number whose sign bit and low bits these are.
pub(crate) fn signed_number(low_bits: u32, sign: u64, low: u64) -> i64
    requires few { low_bits ≤ 32 }
    requires bit { sign < 2 }
    requires small { low < 2 ^ low_bits }
    ensures { result ≡ signed_from low_bits sign low }
{
    let low_number = low as i64;
    if sign == 0 {
        low_number
    } else {
        low_number - (1u64 << low_bits) as i64
    }
}
