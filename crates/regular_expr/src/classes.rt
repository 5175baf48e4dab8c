// Classes of bytes, in brackets or behind a backslash.
ghost use Rattle.std.specs.Prelude.{◌≡◌, ◌≤◌, ◌<◌, ◌++◌, length, option_map, option_copied, IfSome, IfOk, OnOk, false, true};
ghost use Rattle.regular_expr.specs.Classes.{class_of, byte_of, hex_digit, hex_at, escaped_at, named, name_at};
ghost use Rattle.regular_expr.specs.Classes.{is_escaped, is_bracket, is_last, is_enclosed, begins_name, item_escaped, class_named, item_named, item_at, is_dash, range_to, ranges_from, ranges_at};
ghost use Rattle.regular_expr.specs.Classes.{more_ranges, all_ranges, set_at};
ghost use Rattle.regular_expr.specs.Gives.{Gives, item_in, ranges_in};
ghost use Rattle.regular_expr.specs.Shape.{bytes_of};

use crate::byte_set::{ByteRange, ByteSet};
use crate::counts::byte_at;
use crate::fault::Fault;
use std::alloc::{AllocError, Global};

/// What stands within brackets.
#[derive(Clone, Copy, Debug)]
pub(crate) enum Item {
    Byte(u8),
    Class(&'static [ByteRange]),
}

/// The ranges of one or two items.
#[derive(Clone, Copy, Debug)]
pub(crate) enum Ranges {
    One(ByteRange),
    Class(&'static [ByteRange]),
}

/// The ranges of a letter behind a backslash.
pub(crate) fn class_of(letter: u8) -> Option<&'static [ByteRange]>
    ensures { option_copied result ≡ class_of letter }
{
    match letter {
        b'd' => Some(&[ByteRange {
            first: 48,
            last: 57,
        }]),
        b'w' => Some(&[
            ByteRange {
                first: 48,
                last: 57,
            },
            ByteRange {
                first: 65,
                last: 90,
            },
            ByteRange {
                first: 95,
                last: 95,
            },
            ByteRange {
                first: 97,
                last: 122,
            },
        ]),
        b's' => Some(&[
            ByteRange { first: 9, last: 13 },
            ByteRange {
                first: 32,
                last: 32,
            },
        ]),
        b'D' => Some(&[
            ByteRange { first: 0, last: 47 },
            ByteRange {
                first: 58,
                last: 255,
            },
        ]),
        b'W' => Some(&[
            ByteRange { first: 0, last: 47 },
            ByteRange {
                first: 58,
                last: 64,
            },
            ByteRange {
                first: 91,
                last: 94,
            },
            ByteRange {
                first: 96,
                last: 96,
            },
            ByteRange {
                first: 123,
                last: 255,
            },
        ]),
        b'S' => Some(&[
            ByteRange { first: 0, last: 8 },
            ByteRange {
                first: 14,
                last: 31,
            },
            ByteRange {
                first: 33,
                last: 255,
            },
        ]),
        _ => None,
    }
}

/// The byte that stands behind a backslash for another, or for itself.
fn byte_of(letter: u8) -> Option<u8>
    ensures { result ≡ byte_of letter }
{
    match letter {
        b't' => Some(9),
        b'n' => Some(10),
        b'f' => Some(12),
        b'r' => Some(13),
        b'a' => Some(7),
        b'e' => Some(27),
        letter if letter.is_ascii_alphanumeric() => None,
        byte => Some(byte),
    }
}

fn hex_digit(byte: u8) -> Option<u8>
    ensures value { result ≡ hex_digit byte }
    ensures most { IfSome result (λ digit. digit ≤ 15) }
{
    match byte {
        b'0'..=b'9' => Some(byte - 48),
        b'A'..=b'F' => Some(byte - 55),
        b'a'..=b'f' => Some(byte - 87),
        _ => None,
    }
}

/// Two digits, and what stands behind them.
fn hex_at(text: &[u8]) -> Option<(u8, &[u8])>
    ensures value { option_map (λ x. (x.0, x.1.now)) result ≡ hex_at text.now }
    ensures bound { IfSome result (λ x. length x.1.now ≤ length text.now) }
{
    match text {
        [high, low, rest @ ..] => {
            let high = hex_digit(*high)?;
            let low = hex_digit(*low)?;
            Some((high * 16 + low, rest))
        }
        _ => None,
    }
}

/// The byte behind a backslash, and what stands behind it.
#[tactic(auto, unfolding(crate::specs::Classes::escaped_at))]
pub(crate) fn escaped_at(text: &[u8]) -> Option<(u8, &[u8])>
    ensures value { option_map (λ x. (x.0, x.1.now)) result ≡ escaped_at text.now }
    ensures shorter { IfSome result (λ x. length x.1.now < length text.now) }
{
    match text {
        [] => None,
        [b'x', digits @ ..] => hex_at(digits),
        [letter, rest @ ..] => Some((byte_of(*letter)?, rest)),
    }
}

/// The ranges of a name that stands between colons.
fn named(name: &[u8]) -> Option<&'static [ByteRange]>
    ensures { option_copied result ≡ named name.now }
{
    if name == b"alpha".as_slice() {
        Some(&[
            ByteRange {
                first: 65,
                last: 90,
            },
            ByteRange {
                first: 97,
                last: 122,
            },
        ])
    } else if name == b"digit".as_slice() {
        Some(&[ByteRange {
            first: 48,
            last: 57,
        }])
    } else if name == b"alnum".as_slice() {
        Some(&[
            ByteRange {
                first: 48,
                last: 57,
            },
            ByteRange {
                first: 65,
                last: 90,
            },
            ByteRange {
                first: 97,
                last: 122,
            },
        ])
    } else if name == b"upper".as_slice() {
        Some(&[ByteRange {
            first: 65,
            last: 90,
        }])
    } else if name == b"lower".as_slice() {
        Some(&[ByteRange {
            first: 97,
            last: 122,
        }])
    } else if name == b"space".as_slice() {
        Some(&[
            ByteRange { first: 9, last: 13 },
            ByteRange {
                first: 32,
                last: 32,
            },
        ])
    } else if name == b"punct".as_slice() {
        Some(&[
            ByteRange {
                first: 33,
                last: 47,
            },
            ByteRange {
                first: 58,
                last: 64,
            },
            ByteRange {
                first: 91,
                last: 96,
            },
            ByteRange {
                first: 123,
                last: 126,
            },
        ])
    } else {
        None
    }
}

/// The name up to `:]`, and what stands behind that.
#[tactic(auto, unfolding(crate::specs::Classes::name_at))]
fn name_at(text: &[u8]) -> Option<(&[u8], &[u8])>
    ensures value { option_map (λ x. (x.0.now, x.1.now)) result ≡ name_at text.now }
    ensures bound { IfSome result (λ x. length x.1.now ≤ length text.now) }
{
    for place in 0..text.len() {
        if let [b':', b']', rest @ ..] = &text[place..] {
            return Some((&text[..place], rest));
        }
    }
    None
}

/// Whether a backslash takes a closing bracket or a backslash with it.
fn is_escaped(first: u8, second: u8) -> bool
    ensures { result ≡ is_escaped first second }
{
    first == b'\\' && (second == b']' || second == b'\\')
}

/// Whether a bracket closes, or one opens in front of this byte.
fn is_bracket(mark: u8, first: u8, second: u8) -> bool
    ensures { result ≡ is_bracket mark first second }
{
    first == b']' || (first == b'[' && second == mark)
}

/// Whether this byte stands in front of a closing bracket.
fn is_last(mark: u8, first: u8, second: u8) -> bool
    ensures { result ≡ is_last mark first second }
{
    first == mark && second == b']'
}

/// Whether this byte and a closing bracket end what stands in front, where no bracket closes and none opens before this byte.
#[tactic(auto, using(crate::proofs::NameSteps::goes_on), unfolding(crate::specs::Classes::is_enclosed))]
fn is_enclosed(mark: u8, text: &[u8]) -> bool
    ensures { result ≡ is_enclosed mark text.now }
{
    let mut rest = text;
    'bytes: while let [first, tail @ ..] = rest {
        let [second, behind @ ..] = tail else {
            return false;
        };
        if is_escaped(*first, *second) {
            rest = behind;
            continue 'bytes;
        }
        if is_bracket(mark, *first, *second) {
            return false;
        }
        if is_last(mark, *first, *second) {
            return true;
        }
        rest = tail;
    }
    false
}

/// Whether a name begins behind a bracket.
fn begins_name(first: u8, text: &[u8]) -> bool
    ensures { result ≡ begins_name first text.now }
{
    (first == b':' || first == b'.' || first == b'=') && is_enclosed(first, text)
}

/// Behind a backslash within brackets, where `b` is a backspace.
fn item_escaped(text: &[u8]) -> Option<(Item, &[u8])>
    ensures value { option_map (λ x. (item_in x.0, x.1.now)) result ≡ item_escaped text.now }
    ensures bound { IfSome result (λ x. length x.1.now ≤ length text.now) }
{
    let [letter, rest @ ..] = text else {
        return None;
    };
    if let Some(ranges) = class_of(*letter) {
        return Some((Item::Class(ranges), rest));
    }
    if *letter == b'b' {
        return Some((Item::Byte(8), rest));
    }
    let (byte, behind) = escaped_at(text)?;
    Some((Item::Byte(byte), behind))
}

/// The class of a name between colons.
fn class_named(first: u8, text: &[u8]) -> Option<(Item, &[u8])>
    ensures value { option_map (λ x. (item_in x.0, x.1.now)) result ≡ class_named first text.now }
    ensures bound { IfSome result (λ x. length x.1.now ≤ length text.now) }
{
    if first != b':' {
        return None;
    }
    let (name, behind) = name_at(text)?;
    Some((Item::Class(named(name)?), behind))
}

/// Behind a bracket within brackets: a name; a bracket alone is a byte.
fn item_named(text: &[u8]) -> Option<(Item, &[u8])>
    ensures value { option_map (λ x. (item_in x.0, x.1.now)) result ≡ item_named text.now }
    ensures bound { IfSome result (λ x. length x.1.now ≤ length text.now) }
{
    let [first, rest @ ..] = text else {
        return None;
    };
    if begins_name(*first, rest) {
        return class_named(*first, rest);
    }
    Some((Item::Byte(b'['), text))
}

#[tactic(auto, unfolding(crate::specs::Classes::item_at))]
fn item_at(text: &[u8]) -> Option<(Item, &[u8])>
    ensures value { option_map (λ x. (item_in x.0, x.1.now)) result ≡ item_at text.now }
    ensures shorter { IfSome result (λ x. length x.1.now < length text.now) }
{
    match text {
        [] => None,
        [b'\\', rest @ ..] => item_escaped(rest),
        [b'[', rest @ ..] => item_named(rest),
        [byte, rest @ ..] => Some((Item::Byte(*byte), rest)),
    }
}

/// Whether a dash stands in front with no closing bracket behind it.
fn is_dash(text: &[u8]) -> bool
    ensures { result ≡ is_dash text.now }
{
    match text {
        [b'-', next, ..] => *next != b']',
        _ => false,
    }
}

/// From a byte to another, which isn't lower.
fn range_to<'a>(first: u8, last: Item, rest: &'a [u8]) -> Option<(Ranges, &'a [u8])>
    ensures value { option_map (λ x. (ranges_in x.0, x.1.now)) result ≡ range_to first (item_in last) rest.now }
    ensures rest { IfSome result (λ x. x.1.now ≡ rest.now) }
{
    match last {
        Item::Byte(last) if first <= last => Some((Ranges::One(ByteRange { first, last }), rest)),
        _ => None,
    }
}

/// A class, or a byte, or a byte and behind a dash the last of a range.
fn ranges_from<'a>(item: Item, rest: &'a [u8]) -> Option<(Ranges, &'a [u8])>
    ensures value { option_map (λ x. (ranges_in x.0, x.1.now)) result ≡ ranges_from (item_in item) rest.now }
    ensures bound { IfSome result (λ x. length x.1.now ≤ length rest.now) }
{
    let first = match item {
        Item::Class(_) if is_dash(rest) => return None,
        Item::Class(ranges) => return Some((Ranges::Class(ranges), rest)),
        Item::Byte(byte) => byte,
    };
    if !is_dash(rest) {
        let range = ByteRange { first, last: first };
        return Some((Ranges::One(range), rest));
    }
    let (last, behind) = item_at(&rest[1..])?;
    range_to(first, last, behind)
}

#[tactic(auto, unfolding(crate::specs::Classes::ranges_at))]
fn ranges_at(text: &[u8]) -> Option<(Ranges, &[u8])>
    ensures value { option_map (λ x. (ranges_in x.0, x.1.now)) result ≡ ranges_at text.now }
    ensures shorter { IfSome result (λ x. length x.1.now < length text.now) }
{
    let (item, rest) = item_at(text)?;
    ranges_from(item, rest)
}

fn add(ranges: &mut Vec<ByteRange>, more: Ranges) -> Result<(), AllocError>
    ensures { OnOk result (ranges.new.items ≡ ranges.old.items ++ ranges_in more) }
{
    match more {
        Ranges::One(range) => ranges.push(range)?,
        Ranges::Class(listed) => ranges.extend_from_slice(listed)?,
    }
    Ok(())
}

/// All ranges up to the closing bracket, which in front is a byte.
#[tactic(auto, unfolding(crate::specs::Classes::all_ranges))]
fn all_ranges(alloc: Global, text: &[u8]) -> Result<(Vec<ByteRange>, &[u8]), Fault>
    ensures exact { Gives (λ x. (x.0.items, x.1.now)) result (all_ranges text.now) }
    ensures shorter { IfOk result (λ x. length x.1.now < length text.now) }
{
    let mut ranges = Vec::new(alloc);
    let Some((first, mut rest)) = ranges_at(text) else {
        return Err(Fault::NoPattern);
    };
    add(&mut ranges, first)?;
    'more: loop {
        if let Some(behind) = byte_at(b']', rest) {
            return Ok((ranges, behind));
        }
        let Some((next, behind)) = ranges_at(rest) else {
            return Err(Fault::NoPattern);
        };
        add(&mut ranges, next)?;
        rest = behind;
    }
}

/// What stands behind an opening bracket, and behind its closing one.
#[tactic(auto, unfolding(crate::specs::Classes::set_at))]
pub(crate) fn set_at(alloc: Global, text: &[u8]) -> Result<(ByteSet, &[u8]), Fault>
    ensures exact { Gives (λ x. (bytes_of x.0, x.1.now)) result (set_at text.now) }
    ensures shorter { IfOk result (λ x. length x.1.now < length text.now) }
{
    let [first, inside @ ..] = text else {
        return Err(Fault::NoPattern);
    };
    if *first == b'^' {
        let (ranges, rest) = all_ranges(alloc, inside)?;
        return Ok((
            ByteSet {
                negated: true,
                ranges,
            },
            rest,
        ));
    }
    // A name stands within brackets alone.
    if begins_name(*first, inside) {
        return Err(Fault::NoPattern);
    }
    let (ranges, rest) = all_ranges(alloc, text)?;
    Ok((
        ByteSet {
            negated: false,
            ranges,
        },
        rest,
    ))
}
