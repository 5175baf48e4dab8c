// A FLAC file's samples at 16 bits.
ghost use Rattle.std.specs.Prelude.{◌≡◌, ◌+◌, ◌*◌, ◌-◌, ◌≤◌, ◌<◌, ◌^◌, length, map, pos, ◌*ℤ◌};
ghost use Rattle.std.specs.Int.{w16, saturate_signed};
ghost use Rattle.as_wave.specs.Samples.{rounded, bytes_of};
ghost use Rattle.as_wave.specs.FlacSamples.{from_bits};

/// A sample moved up by so many bits.
fn moved_up(bits: u8, sample: i64) -> i16
    requires { bits ≤ 16 }
    ensures { result ≡ saturate_signed w16 (sample *ℤ pos (2 ^ bits)) }
{
    (i128::from(sample) * (1 << bits)).clamp(-32_768, 32_767) as i16
}

/// A sample without its lowest bits.
fn rounded(bits: u8, sample: i64) -> i16
    requires some { 0 < bits }
    requires few { bits ≤ 16 }
    ensures { result ≡ rounded bits sample }
{
    ((i128::from(sample) + (1 << (bits - 1))) >> bits).clamp(-32_768, 32_767) as i16
}

/// A sample of so many bits at 16 bits.
fn from_bits(bits: u8, sample: i64) -> i16
    requires { bits ≤ 32 }
    ensures { result ≡ from_bits bits sample }
{
    if bits <= 16 {
        moved_up(16 - bits, sample)
    } else {
        rounded(bits - 16, sample)
    }
}

/// Fills the buffer with the bytes of samples of so many bits, at 16 bits.
pub fn convert_samples(bits: u8, samples: &[i64], buffer: &mut [u8])
    requires bits { bits ≤ 32 }
    requires room { length buffer.old ≡ 2 * length samples.now }
    ensures { buffer.new ≡ bytes_of (map (from_bits bits) samples.now) }
{
    for k in 0..samples.len() {
        let [low, high] = from_bits(bits, samples[k]).to_le_bytes();
        buffer[2 * k] = low;
        buffer[2 * k + 1] = high;
    }
}
