// The format of the samples.
ghost use Rattle.std.specs.Prelude.{◌≡◌, ◌+◌, ◌*◌, ◌<◌, ◌≤◌, ◌^◌, length, slice_range, Ok, IfOk, IfErr};
ghost use Rattle.song_files.specs.Source.{Grows, Keeps};
ghost use Rattle.wave_pcm.specs.Format.{judged, format_by, format_from};
ghost use Rattle.wave_pcm.specs.Reading.{Refuses};

use crate::WaveError;
use crate::parts::PartHead;
use song_files::{Source, read_exact};

/// How many bytes of a chunk `fmt ` are looked at.
const FORMAT_LEN: u64 = 16;

/// The format tag of PCM.
const PCM: u16 = 1;

/// The highest rate of a file, in frames a second.
pub const MAX_RATE: u32 = 192_000;

/// 16-bit PCM at a rate in frames a second, of one or two channels.
#[derive(Clone, Copy, Debug)]
pub struct Format {
    pub rate: u32,
    pub channels: u16,
}

impl Format {
    fn judge(tag: u16, channels: u16, rate: u32, align: u16, bits: u16) -> Result<Format, WaveError>
        ensures judged { result ≡ judged tag channels rate align bits }
        ensures channels { IfOk result (λ format. (1 ≤ format.channels) × (format.channels ≤ 2)) }
    {
        if tag == PCM
            && bits == 16
            && (channels == 1 || channels == 2)
            && rate >= 1
            && rate <= MAX_RATE
            && align == 2 * channels
        {
            Ok(Format { rate, channels })
        } else {
            Err(WaveError::Unsupported {
                tag,
                bits,
                channels,
            })
        }
    }

    fn parse(bytes: [u8; 16]) -> Result<Format, WaveError>
        ensures format { result ≡ format_by bytes }
        ensures channels { IfOk result (λ format. (1 ≤ format.channels) × (format.channels ≤ 2)) }
    {
        let [a, b, c, d, e, f, g, h, _, _, _, _, m, n, o, p] = bytes;
        Format::judge(
            u16::from_le_bytes([a, b]),
            u16::from_le_bytes([c, d]),
            u32::from_le_bytes([e, f, g, h]),
            u16::from_le_bytes([m, n]),
            u16::from_le_bytes([o, p]),
        )
    }
}

/// The format in the data of a chunk `fmt `.
pub fn read_format<S: Source>(source: &mut S, head: PartHead) -> Result<Format, WaveError>
    requires { head.first + head.len < 2 ^ 64 }
    ensures format { S.honest source.old → head.first + head.len ≤ length (S.bytes source.old) →
        IfOk result (λ format. format_from (slice_range (S.bytes source.old) head.first (head.first + head.len)) ≡ Ok format) }
    ensures refused { S.honest source.old → head.first + head.len ≤ length (S.bytes source.old) →
        IfErr result (Refuses (format_from (slice_range (S.bytes source.old) head.first (head.first + head.len))) (Grows (S.faults
        source.old) (S.faults source.new))) }
    ensures channels { IfOk result (λ format. (1 ≤ format.channels) × (format.channels ≤ 2)) }
    ensures kept { S.honest source.old → Keeps S.bytes S.honest S.faults S.steady source.old source.new }
{
    if head.len < FORMAT_LEN {
        return Err(WaveError::NoFormat);
    }
    let mut bytes = [0; 16];
    read_exact(source, head.first, &mut bytes)?;
    Format::parse(bytes)
}
