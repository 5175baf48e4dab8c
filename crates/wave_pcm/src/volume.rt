// Samples at a volume.
ghost use Rattle.std.specs.Prelude.{◌≡◌, ◌≤◌, map};
ghost use Rattle.wave_pcm.specs.Pcm.{at_volume};

/// The sample at a volume, in hundredths: `sample * volume / 100`, rounded toward zero.
fn at_volume(sample: i16, volume: u8) -> i16
    requires { volume ≤ 100 }
    ensures { result ≡ at_volume volume sample }
{
    (i32::from(sample) * i32::from(volume) / 100) as i16
}

/// Sets each sample to `sample * volume / 100`, rounded toward zero. It always succeeds.
pub fn scale(samples: &mut [i16], volume: u8)
    requires { volume ≤ 100 }
    ensures { samples.new ≡ map (at_volume volume) samples.old }
{
    for sample in samples.iter_mut() {
        *sample = at_volume(*sample, volume);
    }
}
