// What stands before the samples.
ghost use Rattle.std.specs.Prelude.{◌≡◌, ◌+◌, ◌<◌, ◌^◌};
ghost use Rattle.as_wave.specs.Playable.{IsPlayable};
ghost use Rattle.as_wave.specs.Plan.{wave_head};

use crate::SampleFormat;

/// How many bytes stand before the samples.
pub const HEAD_LEN: u64 = 44;

/// The bytes before so many bytes of samples, with so many bytes behind them.
#[tactic(auto, unfolding(crate::specs::Plan::wave_head))]
pub fn wave_head(format: SampleFormat, sound: u64, rest: u64) -> [u8; 44]
    requires playable { IsPlayable format }
    requires small { 36 + sound + rest < 2 ^ 32 }
    ensures { result ≡ wave_head format sound rest }
{
    let channels = format.channels;
    let rate = format.rate;
    let sound = sound as u32;
    let [a, b, c, d] = (36 + sound + rest as u32).to_le_bytes();
    let [e, f] = channels.to_le_bytes();
    let [g, h, i, j] = rate.to_le_bytes();
    let [k, l, m, n] = (rate * (2 * u32::from(channels))).to_le_bytes();
    let [o, p] = (2 * channels).to_le_bytes();
    let [q, r, s, t] = sound.to_le_bytes();
    [
        b'R', b'I', b'F', b'F', a, b, c, d, b'W', b'A', b'V', b'E', b'f', b'm', b't', b' ', 16, 0,
        0, 0, 1, 0, e, f, g, h, i, j, k, l, m, n, o, p, 16, 0, b'd', b'a', b't', b'a', q, r, s, t,
    ]
}
