// Samples at a volume, in the bytes that an output gets.
ghost use Rattle.std.specs.Prelude.{◌≡◌, ◌%◌, ◌≤◌, length, map};
ghost use Rattle.wave_pcm.specs.Pcm.{at_volume, samples_in};
ghost use Rattle.song_output.specs.Sound.{bytes_of};

use wave_pcm::scale;

/// The volume at which samples stay as they are, in hundredths.
const FULL: u8 = 100;

/// One sample at a volume.
fn scaled(sample: i16, volume: u8) -> i16
    requires { volume ≤ 100 }
    ensures { result ≡ at_volume volume sample }
{
    let mut samples = [sample];
    scale(&mut samples, volume);
    samples[0]
}

/// Sets each sample, of two bytes with the low one first, to what it is at a volume. At 100 all stay as they are.
pub(crate) fn scale_bytes(bytes: &mut [u8], volume: u8)
    requires whole { length bytes.old % 2 ≡ 0 }
    requires within { volume ≤ 100 }
    ensures { bytes.new ≡ bytes_of (map (at_volume volume) (samples_in bytes.old)) }
{
    if volume == FULL {
        return;
    }
    for k in 0..bytes.len() / 2 {
        let sample = i16::from_le_bytes([bytes[2 * k], bytes[2 * k + 1]]);
        let [low, high] = scaled(sample, volume).to_le_bytes();
        bytes[2 * k] = low;
        bytes[2 * k + 1] = high;
    }
}
