// The head of a piece that is a WAVE file of its own.
ghost use Rattle.std.specs.Prelude.{◌≡◌, ◌+◌, ◌<◌, ◌^◌, ◌++◌, IfOk, OnOk};
ghost use Rattle.song_output.specs.Wave.{two_bytes, four_bytes, format_chunk, wave_head};

use std::alloc::{AllocError, Global};
use wave_pcm::WaveInfo;

/// How many bytes a head has.
const HEAD_LEN: u64 = 44;

/// The two lowest bytes, the low one first.
fn two_bytes(number: u32) -> [u8; 2]
    ensures { result ≡ two_bytes number }
{
    let [a, b, _, _] = number.to_le_bytes();
    [a, b]
}

/// The four lowest bytes, the low one first.
fn four_bytes(number: u64) -> [u8; 4]
    ensures { result ≡ four_bytes number }
{
    let [a, b, c, d, _, _, _, _] = number.to_le_bytes();
    [a, b, c, d]
}

/// Adds the chunk that tells the format: PCM of 16 bits.
fn push_format(bytes: &mut Vec<u8>, info: &WaveInfo) -> Result<(), AllocError>
    ensures { OnOk result (bytes.new.items ≡ bytes.old.items ++ format_chunk info.now.rate info.now.channels) }
{
    let channels = u32::from(info.channels);
    let second = u64::from(info.rate) * u64::from(channels) * 2;
    bytes.extend_from_slice(b"fmt ")?;
    bytes.extend_from_slice(&four_bytes(16))?;
    bytes.extend_from_slice(&two_bytes(1))?;
    bytes.extend_from_slice(&two_bytes(channels))?;
    bytes.extend_from_slice(&four_bytes(u64::from(info.rate)))?;
    bytes.extend_from_slice(&four_bytes(second))?;
    bytes.extend_from_slice(&two_bytes(channels * 2))?;
    bytes.extend_from_slice(&two_bytes(16))?;
    Ok(())
}

/// The head of a WAVE file with so many bytes of samples (RIFF WAVE 1.0), with room for these behind it.
///
/// A head that `wave_pcm::read_head` let through has at most 192,000 frames a second and two channels, so each number fits its
/// place: the bytes a second are at most 768,000. Of greater numbers the lowest bytes would stand there.
#[tactic(auto, unfolding(crate::specs::Wave::wave_head))]
pub(crate) fn wave_head(alloc: Global, info: &WaveInfo, len: u64) -> Result<Vec<u8>, AllocError>
    requires { len < 2 ^ 32 }
    ensures { IfOk result (λ bytes. bytes.items ≡ wave_head info.now.rate info.now.channels len) }
{
    let mut bytes = Vec::with_capacity(alloc, (HEAD_LEN + len) as usize)?;
    bytes.extend_from_slice(b"RIFF")?;
    bytes.extend_from_slice(&four_bytes(36 + len))?;
    bytes.extend_from_slice(b"WAVE")?;
    push_format(&mut bytes, info)?;
    bytes.extend_from_slice(b"data")?;
    bytes.extend_from_slice(&four_bytes(len))?;
    Ok(bytes)
}
