// The format of the samples, by the data of the chunk `fmt `.
ghost use Rattle.std.specs.Prelude.{◌≡◌, ◌+◌, ◌*◌, ◌≤◌, ◌<◌, ◌^◌, length, slice_range, IfOk, IfSome, OnErr, IsOkUnless};
ghost use Rattle.song_files.specs.Source.{Grows, Keeps};
ghost use Rattle.wave_pcm.specs.Format.{u16_at, u32_at};
ghost use Rattle.as_wave.specs.Format.{byte_len, width_of, is_extensible_pcm, is_pcm, is_plain, judged, format_by, sample_format};
ghost use Rattle.as_wave.specs.Playable.{IsPlayable};

use song_files::{Source, read_exact};
use wave_pcm::{MAX_RATE, WaveError};

/// How many bytes of a chunk `fmt ` are looked at.
const FRONT_LEN: usize = 40;

/// The format tag of PCM.
const PCM: u16 = 1;

/// The format tag WAVE_FORMAT_EXTENSIBLE.
const EXTENSIBLE: u16 = 0xFFFE;

/// The sub-format 00000001-0000-0010-8000-00aa00389b71.
const PCM_GUID: [u8; 16] = [1, 0, 0, 0, 0, 0, 16, 0, 128, 0, 0, 170, 0, 56, 155, 113];

/// The number in two bytes from `at` on, the low one first.
fn u16_in(bytes: &[u8], at: usize) -> u16
    requires { at + 2 ≤ length bytes.now }
    ensures { result ≡ u16_at at bytes.now }
{
    u16::from_le_bytes([bytes[at], bytes[at + 1]])
}

/// The number in four bytes from `at` on, the low one first.
fn u32_in(bytes: &[u8], at: usize) -> u32
    requires { at + 4 ≤ length bytes.now }
    ensures { result ≡ u32_at at bytes.now }
{
    u32::from_le_bytes([bytes[at], bytes[at + 1], bytes[at + 2], bytes[at + 3]])
}

/// How many bits the container of a sample has.
#[derive(Clone, Copy, Debug, PartialEq, Eq)]
pub enum SampleWidth {
    Bits8,
    Bits16,
    Bits24,
    Bits32,
}

impl SampleWidth {
    fn of_bits(bits: u16) -> Option<SampleWidth>
        ensures { result ≡ width_of bits }
    {
        match bits {
            8 => Some(SampleWidth::Bits8),
            16 => Some(SampleWidth::Bits16),
            24 => Some(SampleWidth::Bits24),
            32 => Some(SampleWidth::Bits32),
            _ => None,
        }
    }

    /// How many bytes a sample takes.
    pub fn bytes(self) -> u16
        ensures { result ≡ byte_len self }
    {
        match self {
            SampleWidth::Bits8 => 1,
            SampleWidth::Bits16 => 2,
            SampleWidth::Bits24 => 3,
            SampleWidth::Bits32 => 4,
        }
    }
}

/// PCM that isn't read as it is.
#[derive(Clone, Copy, Debug, PartialEq, Eq)]
pub struct SampleFormat {
    /// Frames a second, 1 to 192,000.
    pub rate: u32,
    /// Samples a frame, 1 or 2.
    pub channels: u16,
    pub width: SampleWidth,
}

impl SampleFormat {
    fn judge(channels: u16, rate: u32, align: u16, width: SampleWidth) -> Option<SampleFormat>
        ensures judged { result ≡ judged channels rate align width }
        ensures playable { IfSome result IsPlayable }
    {
        if (channels == 1 || channels == 2)
            && rate >= 1
            && rate <= MAX_RATE
            && align == channels * width.bytes()
        {
            Some(SampleFormat {
                rate,
                channels,
                width,
            })
        } else {
            None
        }
    }

    fn by_fields(front: &[u8]) -> Option<SampleFormat>
        requires { 16 ≤ length front.now }
        ensures format { result ≡ format_by front.now }
        ensures playable { IfSome result IsPlayable }
    {
        let width = SampleWidth::of_bits(u16_in(front, 14))?;
        SampleFormat::judge(u16_in(front, 2), u32_in(front, 4), u16_in(front, 12), width)
    }

    /// The format that the data of a chunk `fmt ` gives, by its front.
    fn parse(front: &[u8]) -> Option<SampleFormat>
        ensures format { result ≡ sample_format front.now }
        ensures playable { IfSome result IsPlayable }
    {
        if front.len() < 16 || !is_pcm(front) || is_plain(front) {
            return None;
        }
        SampleFormat::by_fields(front)
    }
}

fn is_extensible_pcm(front: &[u8]) -> bool
    requires { 16 ≤ length front.now }
    ensures { result ≡ is_extensible_pcm front.now }
{
    u16_in(front, 0) == EXTENSIBLE
        && front.len() >= 40
        && u16_in(front, 18) <= u16_in(front, 14)
        && &front[24..40] == PCM_GUID.as_slice()
}

fn is_pcm(front: &[u8]) -> bool
    requires { 16 ≤ length front.now }
    ensures { result ≡ is_pcm front.now }
{
    u16_in(front, 0) == PCM || is_extensible_pcm(front)
}

fn is_plain(front: &[u8]) -> bool
    requires { 16 ≤ length front.now }
    ensures { result ≡ is_plain front.now }
{
    u16_in(front, 0) == PCM && u16_in(front, 14) == 16
}

/// The format that the data of a chunk `fmt ` gives: `len` bytes from `first` on.
pub fn read_format<S: Source>(
    source: &mut S,
    first: u64,
    len: u64,
) -> Result<Option<SampleFormat>, WaveError>
    requires { first + len < 2 ^ 64 }
    ensures format { S.honest source.old → first + len ≤ length (S.bytes source.old) →
        IfOk result (λ format. format ≡ sample_format (slice_range (S.bytes source.old) first (first + len))) }
    ensures playable { IfOk result (λ format. IfSome format IsPlayable) }
    ensures only { IsOkUnless result WaveError.ReadFault }
    ensures fault { S.honest source.old → first + len ≤ length (S.bytes source.old) →
        OnErr result (Grows (S.faults source.old) (S.faults source.new)) }
    ensures kept { S.honest source.old → Keeps S.bytes S.honest S.faults S.steady source.old source.new }
{
    let mut front = [0; FRONT_LEN];
    let count = len.min(front.len() as u64) as usize;
    read_exact(source, first, &mut front[..count])?;
    Ok(SampleFormat::parse(&front[..count]))
}
