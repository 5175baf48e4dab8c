// How often a part of a pattern is repeated.
ghost use Rattle.std.specs.Prelude.{◌≡◌, ◌≤◌, ◌<◌, length, option_map, option_copied, IfSome, None};
ghost use Rattle.regular_expr.specs.Counts.{number_from, number_at, byte_at, most_at, rest_at, count_at, repeated};
ghost use Rattle.regular_expr.specs.Gives.{Gives};
ghost use Rattle.regular_expr.specs.Shape.{shape_of};

use crate::fault::Fault;
use crate::part::Part;
use std::alloc::Global;

/// So often at least, and at most if that is said.
pub(crate) type Count = (u16, Option<u16>);

/// How often a part may be repeated by a number.
const MOST_OFTEN: u16 = 255;

/// The number of the digits in front, behind those that give this one, counted up to 1000; and what stands behind it.
#[tactic(auto, unfolding(crate::specs::Counts::number_from))]
fn number_from(front: u16, text: &[u8]) -> (u16, &[u8])
    requires { front ≤ 1000 }
    ensures number { (result.0, result.1.now) ≡ number_from front text.now }
    ensures most { result.0 ≤ 1000 }
    ensures bound { length result.1.now ≤ length text.now }
{
    let mut number = front;
    let mut rest = text;
    while let [byte, behind @ ..] = rest {
        if !byte.is_ascii_digit() {
            return (number, rest);
        }
        number = (number * 10 + u16::from(*byte - b'0')).min(1_000);
        rest = behind;
    }
    (number, rest)
}

/// A number in front.
#[tactic(auto, unfolding(crate::specs::Counts::number_from))]
fn number_at(text: &[u8]) -> Option<(u16, &[u8])>
    ensures number { option_map (λ x. (x.0, x.1.now)) result ≡ number_at text.now }
    ensures most { IfSome result (λ x. x.0 ≤ 1000) }
    ensures bound { IfSome result (λ x. length x.1.now ≤ length text.now) }
{
    match text {
        [byte, ..] if byte.is_ascii_digit() => Some(number_from(0, text)),
        _ => None,
    }
}

/// What stands behind this byte.
pub(crate) fn byte_at(byte: u8, text: &[u8]) -> Option<&[u8]>
    ensures rest { option_copied result ≡ byte_at byte text.now }
    ensures shorter { IfSome result (λ rest. length rest.now < length text.now) }
{
    match text {
        [first, rest @ ..] if *first == byte => Some(rest),
        _ => None,
    }
}

/// What stands behind a comma: `}`, or `m}`.
fn most_at(least: u16, text: &[u8]) -> Option<(Count, &[u8])>
    ensures count { option_map (λ x. (x.0, x.1.now)) result ≡ most_at least text.now }
    ensures bound { IfSome result (λ x. length x.1.now ≤ length text.now) }
{
    if let [b'}', rest @ ..] = text {
        return Some(((least, None), rest));
    }
    let (most, behind) = number_at(text)?;
    let rest = byte_at(b'}', behind)?;
    Some(((least, Some(most)), rest))
}

/// What stands behind the first number: `}`, `,}` or `,m}`.
fn rest_at(least: u16, text: &[u8]) -> Option<(Count, &[u8])>
    ensures count { option_map (λ x. (x.0, x.1.now)) result ≡ rest_at least text.now }
    ensures bound { IfSome result (λ x. length x.1.now ≤ length text.now) }
{
    match text {
        [b'}', rest @ ..] => Some(((least, Some(least)), rest)),
        [b',', behind @ ..] => most_at(least, behind),
        _ => None,
    }
}

/// `{n}`, `{n,}` or `{n,m}`, and what stands behind it.
#[tactic(auto, unfolding(crate::specs::Counts::count_at))]
pub(crate) fn count_at(text: &[u8]) -> Option<(Count, &[u8])>
    ensures count { option_map (λ x. (x.0, x.1.now)) result ≡ count_at text.now }
    ensures shorter { IfSome result (λ x. length x.1.now < length text.now) }
{
    let inside = byte_at(b'{', text)?;
    let (least, behind) = number_at(inside)?;
    rest_at(least, behind)
}

/// A part so often, and nothing where it is never.
#[tactic(auto, unfolding(crate::specs::Counts::repeated))]
pub(crate) fn repeated(alloc: Global, count: Count, part: Part) -> Result<Part, Fault>
    ensures { Gives shape_of result (repeated count (shape_of part)) }
{
    let (least, most) = count;
    match most {
        None => endless(alloc, least, part),
        Some(most) => {
            if most > MOST_OFTEN || most < least {
                return Err(Fault::NoPattern);
            }
            if most == 0 {
                return Ok(Part::Nothing);
            }
            let part = Box::new(alloc, part)?;
            Ok(Part::Times(least as u8, (most - least) as u8, part))
        }
    }
}

/// A part so often or more often.
#[tactic(auto, unfolding(crate::specs::Counts::repeated))]
fn endless(alloc: Global, least: u16, part: Part) -> Result<Part, Fault>
    ensures { Gives shape_of result (repeated (least, None) (shape_of part)) }
{
    if least > MOST_OFTEN {
        return Err(Fault::NoPattern);
    }
    let again = Part::Again(Box::new(alloc, part)?);
    let again = Box::new(alloc, again)?;
    if least == 0 {
        return Ok(Part::Times(0, 1, again));
    }
    Ok(Part::Times(least as u8, 0, again))
}
