// Samples at 16 bits.
ghost use Rattle.std.specs.Prelude.{◌≡◌, ◌+◌, ◌*◌, ◌≤◌, ◌<◌, ◌^◌, length, drop, ◌∷◌, [], pos, ◌≤ℤ◌, ◌<ℤ◌, neg_ℤ, map};
ghost use Rattle.as_wave.specs.Samples.{sample_at, rounded, at_16, samples_of, bytes_of};
ghost use Rattle.as_wave.specs.Format.{byte_len};
ghost use Rattle.as_wave.specs.declared.format.SampleWidth.TheVariants.{Bits8, Bits16, Bits24, Bits32};

use crate::SampleWidth;

/// The number that 24 bits stand for in two's complement.
fn signed_24(low: u8, middle: u8, high: u8) -> i32
    ensures { result ≡ sample_at Bits24 (low ∷ middle ∷ high ∷ []) }
{
    let bits = i32::from(low) + 256 * i32::from(middle) + 65_536 * i32::from(high);
    if bits < 0x80_0000 {
        bits
    } else {
        bits - 0x100_0000
    }
}

/// A sample of 24 bits at 16 bits.
fn rounded_24(sample: i32) -> i16
    requires low { neg_ℤ (pos (2 ^ 23)) ≤ℤ sample }
    requires high { sample <ℤ pos (2 ^ 23) }
    ensures { result ≡ rounded 8 sample }
{
    ((sample + 128) >> 8).min(32_767) as i16
}

/// A sample of 32 bits at 16 bits.
fn rounded_32(sample: i32) -> i16
    ensures { result ≡ rounded 16 sample }
{
    ((i64::from(sample) + 32_768) >> 16).min(32_767) as i16
}

/// The sample at the front of these bytes, at 16 bits.
fn sample_16(width: SampleWidth, bytes: &[u8]) -> i16
    requires { byte_len width ≤ length bytes.now }
    ensures { result ≡ at_16 width (sample_at width bytes.now) }
{
    match width {
        SampleWidth::Bits8 => (i16::from(bytes[0]) - 128) * 256,
        SampleWidth::Bits16 => i16::from_le_bytes([bytes[0], bytes[1]]),
        SampleWidth::Bits24 => rounded_24(signed_24(bytes[0], bytes[1], bytes[2])),
        SampleWidth::Bits32 => {
            rounded_32(i32::from_le_bytes([bytes[0], bytes[1], bytes[2], bytes[3]]))
        }
    }
}

/// Fills the buffer with the bytes of so many samples in `raw`, at 16 bits.
pub fn convert(width: SampleWidth, count: usize, raw: &[u8], buffer: &mut [u8])
    requires samples { length raw.now ≡ byte_len width * count }
    requires room { length buffer.old ≡ 2 * count }
    ensures { buffer.new ≡ bytes_of (map (at_16 width) (samples_of width count raw.now)) }
{
    let step = width.bytes() as usize;
    for k in 0..count {
        let [low, high] = sample_16(width, &raw[step * k..]).to_le_bytes();
        buffer[2 * k] = low;
        buffer[2 * k + 1] = high;
    }
}
