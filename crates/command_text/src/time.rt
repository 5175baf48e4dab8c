// Reads times of a song, in seconds and thousandths.
ghost use Rattle.std.specs.Prelude.{◌≡◌};
ghost use Rattle.command_text.specs.Arguments.{digit, milliseconds, thousandths, time_in, time_of, seek_time_of};

use crate::argument::{are_digits, around, digits};
use player_core::SeekTime;

/// The most that a TIME may be, in milliseconds.
const MOST_MILLISECONDS: u64 = 4_294_967_000;

fn digit(byte: u8) -> u32
    ensures { result ≡ digit byte }
{
    u32::from(byte.saturating_sub(b'0'))
}

/// The thousandths that digits behind a point stand for; three of them count.
fn thousandths(digits: &[u8]) -> u32
    ensures { result ≡ thousandths digits.now }
{
    match digits {
        [] => 0,
        [a] => digit(*a) * 100,
        [a, b] => digit(*a) * 100 + digit(*b) * 10,
        [a, b, c, ..] => digit(*a) * 100 + digit(*b) * 10 + digit(*c),
    }
}

/// So many seconds and thousandths in milliseconds, at most those of 4294967 seconds.
fn milliseconds(seconds: u32, more: u32) -> Option<u32>
    ensures { result ≡ milliseconds seconds more }
{
    let time = u64::from(seconds) * 1000 + u64::from(more);
    if time <= MOST_MILLISECONDS {
        Some(time as u32)
    } else {
        None
    }
}

/// TIME, in milliseconds: digits, or digits on both sides of a point.
#[tactic(auto, unfolding(crate::specs::Arguments::time_of, crate::specs::Arguments::time_in))]
pub(crate) fn time(word: &[u8]) -> Option<u32>
    ensures { result ≡ time_of word.now }
{
    match around(b'.', word) {
        None => milliseconds(digits(word)?, 0),
        Some((whole, fraction)) => {
            let seconds = digits(whole)?;
            if are_digits(fraction) {
                milliseconds(seconds, thousandths(fraction))
            } else {
                None
            }
        }
    }
}

/// TIME, `+TIME` or `-TIME`, in milliseconds.
#[tactic(auto, unfolding(crate::specs::Arguments::seek_time_of))]
pub(crate) fn seek_time(word: &[u8]) -> Option<SeekTime>
    ensures { result ≡ seek_time_of word.now }
{
    match word {
        [] => None,
        [b'+', later @ ..] => Some(SeekTime::Forward(time(later)?)),
        [b'-', earlier @ ..] => Some(SeekTime::Back(time(earlier)?)),
        _ => Some(SeekTime::To(time(word)?)),
    }
}
