// Reads one argument of a command: switches, numbers, positions and ranges.
ghost use Rattle.std.specs.Prelude.{◌≡◌, ◌≤◌, IfSome};
ghost use Rattle.std.specs.Option.{option_map};
ghost use Rattle.std.specs.Char.{is_ascii_digit};
ghost use Rattle.std.specs.List.{list_all};
ghost use Rattle.command_text.specs.Arguments.{are_digits, digits_of, number_of, number_to, around, span_of, span_or, range_of, window_of};
ghost use Rattle.command_text.specs.Arguments.{single_of, switch_of, target_of, text_of};
ghost use Rattle.command_text.specs.Counts.{argument, optional};

use crate::range::{PositionRange, Window};
use crate::refusal::CommandRefusal;
use crate::text::{Text, utf8};
use memchr::memchr;
use play_queue::Target;
use player_core::Single;

/// What the argument in this place, counted from 1, stands for.
pub(crate) fn argument<T: Drop>(place: usize, reading: Option<T>) -> Result<T, CommandRefusal>
    ensures { result ≡ argument place reading }
{
    reading.ok_or(CommandRefusal::BadArgument(place))
}

/// A switch, `0` or `1`.
#[tactic(auto, unfolding(crate::specs::Arguments::switch_of))]
pub(crate) fn switch(word: &[u8]) -> Option<bool>
    ensures { result ≡ switch_of word.now }
{
    if word == b"0".as_slice() {
        Some(false)
    } else if word == b"1".as_slice() {
        Some(true)
    } else {
        None
    }
}

/// `0`, `1` or `oneshot`.
#[tactic(auto, unfolding(crate::specs::Arguments::single_of))]
pub(crate) fn single(word: &[u8]) -> Option<Single>
    ensures { result ≡ single_of word.now }
{
    if word == b"0".as_slice() {
        Some(Single::Off)
    } else if word == b"1".as_slice() {
        Some(Single::On)
    } else if word == b"oneshot".as_slice() {
        Some(Single::Oneshot)
    } else {
        None
    }
}

/// Whether the word has one decimal digit at least, and nothing else.
pub(crate) fn are_digits(word: &[u8]) -> bool
    ensures { result ≡ are_digits word.now }
{
    !word.is_empty() && all_digits(word)
}

fn all_digits(word: &[u8]) -> bool
    ensures { result ≡ list_all is_ascii_digit word.now }
{
    word.iter().all(|byte| byte.is_ascii_digit())
}

/// The number that decimal digits stand for, at most 4294967295.
#[tactic(auto, unfolding(crate::specs::Arguments::digits_of))]
pub(crate) fn digits(word: &[u8]) -> Option<u32>
    ensures { result ≡ digits_of word.now }
{
    if !are_digits(word) {
        return None;
    }
    str::from_utf8(word).ok()?.parse().ok()
}

/// A number of 1 to 10 decimal digits, at most 4294967295.
#[tactic(auto, unfolding(crate::specs::Arguments::number_of))]
pub fn number(word: &[u8]) -> Option<u32>
    ensures { result ≡ number_of word.now }
{
    if word.len() > 10 {
        return None;
    }
    digits(word)
}

/// A number of at most so much.
#[tactic(auto, unfolding(crate::specs::Arguments::number_to))]
pub fn number_to(most: u32, word: &[u8]) -> Option<u32>
    ensures value { result ≡ number_to most word.now }
    ensures bound { IfSome result (λ number. number ≤ most) }
{
    let number = number(word)?;
    if number <= most { Some(number) } else { None }
}

/// What stands in front of the first such byte, and behind it.
pub(crate) fn around(byte: u8, word: &[u8]) -> Option<(&[u8], &[u8])>
    ensures { option_map (λ parts. (parts.0.now, parts.1.now)) result ≡ around byte word.now }
{
    let place = memchr(byte, word)?;
    Some((&word[..place], &word[place + 1..]))
}

/// `S:`, or `S:E` where S is not above E.
#[tactic(auto, unfolding(crate::specs::Arguments::span_of))]
fn span(start: &[u8], end: &[u8]) -> Option<PositionRange>
    ensures { result ≡ span_of start.now end.now }
{
    let first = number(start)?;
    if end.is_empty() {
        return Some(PositionRange::From(first));
    }
    let last = number(end)?;
    if first <= last {
        Some(PositionRange::Between(first, last))
    } else {
        None
    }
}

/// RANGE: a position, `S:` or `S:E`.
#[tactic(auto, unfolding(crate::specs::Arguments::range_of))]
pub(crate) fn range(word: &[u8]) -> Option<PositionRange>
    ensures { result ≡ range_of word.now }
{
    match around(b':', word) {
        None => Some(PositionRange::One(number(word)?)),
        Some((start, end)) => span(start, end),
    }
}

/// `S:`, or `S:E` where S is not above E.
#[tactic(auto, unfolding(crate::specs::Arguments::window_of))]
pub fn window(word: &[u8]) -> Option<Window>
    ensures { result ≡ window_of word.now }
{
    match range(word)? {
        PositionRange::One(_) => None,
        PositionRange::From(start) => Some(Window { start, end: None }),
        PositionRange::Between(start, end) => Some(Window {
            start,
            end: Some(end),
        }),
    }
}

/// TO: a position, `+N` or `-N`.
#[tactic(auto, unfolding(crate::specs::Arguments::target_of))]
pub(crate) fn target(word: &[u8]) -> Option<Target>
    ensures { result ≡ target_of word.now }
{
    match word {
        [] => None,
        [b'+', places @ ..] => Some(Target::After(number(places)?)),
        [b'-', places @ ..] => Some(Target::Before(number(places)?)),
        _ => Some(Target::At(number(word)?)),
    }
}

/// A text.
#[tactic(auto, unfolding(crate::specs::Arguments::text_of))]
pub(crate) fn text(word: &[u8]) -> Option<Text<'_>>
    ensures { result ≡ text_of word.now }
{
    Some(Text::new(utf8(word)?))
}

/// What the argument in this place stands for, if it is there.
pub(crate) fn optional_number(
    place: usize,
    word: Option<&[u8]>,
) -> Result<Option<u32>, CommandRefusal>
    ensures { result ≡ optional place number_of (option_map (λ word. word.now) word.entry) }
{
    match word {
        None => Ok(None),
        Some(word) => Ok(Some(argument(place, number(word))?)),
    }
}

/// The same of a range.
pub(crate) fn optional_range(
    place: usize,
    word: Option<&[u8]>,
) -> Result<Option<PositionRange>, CommandRefusal>
    ensures { result ≡ optional place range_of (option_map (λ word. word.now) word.entry) }
{
    match word {
        None => Ok(None),
        Some(word) => Ok(Some(argument(place, range(word))?)),
    }
}

/// The same of a place where entries go.
pub(crate) fn optional_target(
    place: usize,
    word: Option<&[u8]>,
) -> Result<Option<Target>, CommandRefusal>
    ensures { result ≡ optional place target_of (option_map (λ word. word.now) word.entry) }
{
    match word {
        None => Ok(None),
        Some(word) => Ok(Some(argument(place, target(word))?)),
    }
}

/// The same of a switch.
pub(crate) fn optional_switch(
    place: usize,
    word: Option<&[u8]>,
) -> Result<Option<bool>, CommandRefusal>
    ensures { result ≡ optional place switch_of (option_map (λ word. word.now) word.entry) }
{
    match word {
        None => Ok(None),
        Some(word) => Ok(Some(argument(place, switch(word))?)),
    }
}

/// The same of a text.
pub(crate) fn optional_text<'w>(
    place: usize,
    word: Option<&'w [u8]>,
) -> Result<Option<Text<'w>>, CommandRefusal>
    ensures { result ≡ optional place text_of (option_map (λ word. word.now) word.entry) }
{
    match word {
        None => Ok(None),
        Some(word) => Ok(Some(argument(place, text(word))?)),
    }
}
