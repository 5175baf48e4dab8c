// The formats of sound that a text gives.
ghost use Rattle.std.specs.Prelude.{◌≡◌, ◌&&◌, option_map, option_copied};
ghost use Rattle.filter_expr.specs.Formats.{behind, part_in, bits, bits_at, sample_in, format_in};
ghost use Rattle.filter_expr.specs.Meaning.{fits, fits_16_bits};

use crate::subject::{AudioFormat, Sample};
use crate::time::short_at;

/// What stands behind this byte.
fn behind(byte: u8, text: &[u8]) -> Option<&[u8]>
    ensures { option_copied result ≡ behind byte text.now }
{
    match text {
        [first, rest @ ..] if *first == byte => Some(rest),
        _ => None,
    }
}

/// A number of ten digits at most, from 1 to another; or a star for any, where that may stand.
#[tactic(auto, unfolding(crate::specs::Formats::part_in))]
fn part_in(stars: bool, most: u64, text: &[u8]) -> Option<(Option<u64>, &[u8])>
    ensures { option_map (λ x. (x.0, x.1.now)) result ≡ part_in stars most text.now }
{
    match text {
        [b'*', rest @ ..] if stars => Some((None, rest)),
        _ => {
            let (number, rest) = short_at(10, 1, most, text)?;
            Some((Some(number), rest))
        }
    }
}

fn bits(number: u64) -> Option<Sample>
    ensures { result ≡ bits number }
{
    match number {
        8 => Some(Sample::Bits8),
        16 => Some(Sample::Bits16),
        24 => Some(Sample::Bits24),
        32 => Some(Sample::Bits32),
        _ => None,
    }
}

/// So many bits.
fn bits_at(text: &[u8]) -> Option<(Option<Sample>, &[u8])>
    ensures { option_map (λ x. (x.0, x.1.now)) result ≡ bits_at text.now }
{
    let (number, rest) = short_at(10, 1, 32, text)?;
    Some((Some(bits(number)?), rest))
}

/// `f`, `dsd`, or so many bits; or a star.
#[tactic(auto, unfolding(crate::specs::Formats::sample_in))]
fn sample_in(stars: bool, text: &[u8]) -> Option<(Option<Sample>, &[u8])>
    ensures { option_map (λ x. (x.0, x.1.now)) result ≡ sample_in stars text.now }
{
    match text {
        [] => None,
        [b'*', rest @ ..] if stars => Some((None, rest)),
        [b'f', rest @ ..] => Some((Some(Sample::Float), rest)),
        [b'd', more @ ..] => {
            let last = behind(b's', more)?;
            let rest = behind(b'd', last)?;
            Some((Some(Sample::Dsd), rest))
        }
        _ => bits_at(text),
    }
}

/// What `RATE:BITS:CHANNELS` says; with stars in their place, or without.
#[tactic(auto, unfolding(crate::specs::Formats::format_in))]
pub(crate) fn format_in(stars: bool, text: &[u8]) -> Option<AudioFormat>
    ensures { result ≡ format_in stars text.now }
{
    let (rate, first) = part_in(stars, 1_073_741_823, text)?;
    let (sample, second) = sample_in(stars, behind(b':', first)?)?;
    let (channels, rest) = part_in(stars, 8, behind(b':', second)?)?;
    if !rest.is_empty() {
        return None;
    }
    Some(AudioFormat {
        rate,
        sample,
        channels,
    })
}

fn fits(wanted: Option<u64>, number: u64) -> bool
    ensures { result ≡ fits wanted number }
{
    match wanted {
        None => true,
        Some(wanted) => number == wanted,
    }
}

fn fits_16_bits(wanted: Option<Sample>) -> bool
    ensures { result ≡ fits_16_bits wanted }
{
    match wanted {
        None | Some(Sample::Bits16) => true,
        Some(_) => false,
    }
}

impl AudioFormat {
    /// Whether sound of so many frames a second and channels, which has samples of 16 bits, is of this format.
    pub(crate) fn is_of(self, rate: u64, channels: u64) -> bool
        ensures { result ≡ (fits self.rate rate && (fits_16_bits self.sample && fits self.channels channels)) }
    {
        fits(self.rate, rate) && fits_16_bits(self.sample) && fits(self.channels, channels)
    }
}
