// Reads a pattern from its text.
ghost use Rattle.std.specs.Prelude.{◌≡◌, ◌≤◌, ◌<◌, ◌+◌, ◌∷◌, false, true, length, option_map, option_copied, map, Some, IfOk, IfSome, OnOk};
ghost use Rattle.regular_expr.specs.Classes.{alone};
ghost use Rattle.regular_expr.specs.Gives.{Gives};
ghost use Rattle.regular_expr.specs.Reading.{of_ranges, place_of, escape_at, behind_colon, grouped, group_at, is_behind_parts, simple_at, atom_at};
ghost use Rattle.regular_expr.specs.Reading.{is_place_alone, often_at, behind_lazy, repeated_by, quantified, piece_at, followed, joined, fitting, part_behind, alternative, is_body_end};
ghost use Rattle.regular_expr.specs.Reading.{body_from, body_at, behind_flag};
ghost use Rattle.regular_expr.specs.Leaves.{IsCounted, leaves_behind, leaves_before};
ghost use Rattle.regular_expr.specs.Shape.{shape_of, leaves};

use crate::byte_set::{ByteRange, ByteSet};
use crate::classes::{class_of, escaped_at, set_at};
use crate::counts::{Count, byte_at, count_at, repeated};
use crate::fault::Fault;
use crate::part::{MOST_LEAVES, Part};
use crate::place::Place;
use std::alloc::{AllocError, Global};

/// 16 parentheses may be open at once: so many bodies, one within the other.
pub(crate) const MOST_BODIES: u32 = 17;

/// The byte alone.
fn byte_alone(alloc: Global, byte: u8) -> Result<Part, AllocError>
    ensures { IfOk result (λ part. shape_of part ≡ of_ranges (alone byte)) }
{
    Ok(Part::One(ByteSet::of_byte(alloc, byte)?))
}

/// The place of a letter behind a backslash.
fn place_of(letter: u8) -> Option<Place>
    ensures { result ≡ place_of letter }
{
    match letter {
        b'b' => Some(Place::Edge),
        b'B' => Some(Place::Inside),
        b'A' => Some(Place::Start),
        b'z' | b'Z' => Some(Place::End),
        _ => None,
    }
}

/// A class, a place or a byte, behind a backslash.
#[tactic(auto, unfolding(crate::specs::Reading::escape_at))]
fn escape_at(alloc: Global, text: &[u8]) -> Result<(Part, &[u8]), Fault>
    ensures exact { Gives (λ x. (shape_of x.0, x.1.now)) result (escape_at text.now) }
    ensures shorter { IfOk result (λ x. length x.1.now < length text.now) }
{
    let [letter, rest @ ..] = text else {
        return Err(Fault::NoPattern);
    };
    if let Some(listed) = class_of(*letter) {
        return Ok((Part::One(ByteSet::of_ranges(alloc, listed)?), rest));
    }
    if let Some(place) = place_of(*letter) {
        return Ok((Part::At(place), rest));
    }
    let Some((byte, behind)) = escaped_at(text) else {
        return Err(Fault::NoPattern);
    };
    Ok((byte_alone(alloc, byte)?, behind))
}

/// What stands behind an opening parenthesis and `?:`, if that stands there; nothing else may stand behind a question mark.
fn behind_colon(text: &[u8]) -> Option<&[u8]>
    ensures rest { option_copied result ≡ behind_colon text.now }
    ensures bound { IfSome result (λ rest. length rest.now ≤ length text.now) }
{
    match text {
        [b'?', rest @ ..] => byte_at(b':', rest),
        _ => Some(text),
    }
}

/// Whether it repeats what stands in front, or a parenthesis or a bar ends that.
fn is_behind_parts(byte: u8) -> bool
    ensures { result ≡ is_behind_parts byte }
{
    byte == b'*' || byte == b'+' || byte == b'?' || byte == b')' || byte == b'|'
}

/// A place in parentheses may be repeated as another group.
fn grouped(alloc: Global, part: Part) -> Result<Part, AllocError>
    ensures { IfOk result (λ group. shape_of group ≡ grouped (shape_of part)) }
{
    match part {
        Part::At(place) => Ok(Part::Times(1, 0, Box::new(alloc, Part::At(place))?)),
        part => Ok(part),
    }
}

/// A group behind its opening parenthesis.
#[cycle(body)]
#[tactic(auto, unfolding(crate::specs::Reading::group_at))]
fn group_at(alloc: Global, room: u32, text: &[u8]) -> Result<(Part, &[u8]), Fault>
    ensures exact { Gives (λ x. (shape_of x.0, x.1.now)) result (group_at (body_at room) text.now) }
    ensures shorter { IfOk result (λ x. length x.1.now < length text.now) }
{
    let Some(inside) = behind_colon(text) else {
        return Err(Fault::NoPattern);
    };
    let (part, behind) = body_at(alloc, room, inside)?;
    let Some(rest) = byte_at(b')', behind) else {
        return Err(Fault::NoPattern);
    };
    Ok((grouped(alloc, part)?, rest))
}

/// A part that isn't repeated yet.
#[cycle(body)]
#[tactic(auto, unfolding(crate::specs::Reading::atom_at))]
fn atom_at(alloc: Global, room: u32, text: &[u8]) -> Result<(Part, &[u8]), Fault>
    ensures exact { Gives (λ x. (shape_of x.0, x.1.now)) result (atom_at (body_at room) text.now) }
    ensures shorter { IfOk result (λ x. length x.1.now < length text.now) }
{
    match text {
        [] => Err(Fault::NoPattern),
        [b'(', inside @ ..] => group_at(alloc, room, inside),
        [b'[', inside @ ..] => {
            let (set, rest) = set_at(alloc, inside)?;
            Ok((Part::One(set), rest))
        }
        [b'\\', escaped @ ..] => escape_at(alloc, escaped),
        [byte, rest @ ..] => simple_at(alloc, *byte, rest, text),
    }
}

/// A part of one byte, which stands in front of the text.
fn simple_at<'a>(
    alloc: Global,
    byte: u8,
    rest: &'a [u8],
    text: &'a [u8],
) -> Result<(Part, &'a [u8]), Fault>
    requires { text.now ≡ byte ∷ rest.now }
    ensures exact { Gives (λ x. (shape_of x.0, x.1.now)) result (simple_at byte rest.now) }
    ensures rest { IfOk result (λ x. x.1.now ≡ rest.now) }
{
    match byte {
        b'.' => {
            let all = ByteRange {
                first: 0,
                last: 255,
            };
            Ok((Part::One(ByteSet::of_range(alloc, all)?), rest))
        }
        b'^' => Ok((Part::At(Place::Start), rest)),
        b'$' => Ok((Part::At(Place::End), rest)),
        byte => {
            if is_behind_parts(byte) || count_at(text).is_some() {
                return Err(Fault::NoPattern);
            }
            Ok((byte_alone(alloc, byte)?, rest))
        }
    }
}

/// `*`, `+`, `?` or a count.
fn often_at(text: &[u8]) -> Option<(Count, &[u8])>
    ensures count { option_map (λ x. (x.0, x.1.now)) result ≡ often_at text.now }
    ensures shorter { IfSome result (λ x. length x.1.now < length text.now) }
{
    match text {
        [b'*', rest @ ..] => Some(((0, None), rest)),
        [b'+', rest @ ..] => Some(((1, None), rest)),
        [b'?', rest @ ..] => Some(((0, Some(1)), rest)),
        _ => count_at(text),
    }
}

/// Whether few or many are tried first changes nothing.
fn behind_lazy(text: &[u8]) -> &[u8]
    ensures rest { result.now ≡ behind_lazy text.now }
    ensures bound { length result.now ≤ length text.now }
{
    match text {
        [b'?', rest @ ..] => rest,
        _ => text,
    }
}

/// A part, repeated as is said behind it; a place isn't.
#[tactic(auto, unfolding(crate::specs::Reading::quantified))]
fn quantified<'a>(alloc: Global, part: Part, text: &'a [u8]) -> Result<(Part, &'a [u8]), Fault>
    ensures exact { Gives (λ x. (shape_of x.0, x.1.now)) result (quantified (shape_of part) text.now) }
    ensures bound { IfOk result (λ x. length x.1.now ≤ length text.now) }
{
    let Some((count, rest)) = often_at(text) else {
        return Ok((part, text));
    };
    if let Part::At(_) = part {
        return Err(Fault::NoPattern);
    }
    Ok((repeated(alloc, count, part)?, behind_lazy(rest)))
}

#[cycle(body)]
#[tactic(auto, unfolding(crate::specs::Reading::piece_at))]
fn piece_at(alloc: Global, room: u32, text: &[u8]) -> Result<(Part, &[u8]), Fault>
    ensures exact { Gives (λ x. (shape_of x.0, x.1.now)) result (piece_at (body_at room) text.now) }
    ensures shorter { IfOk result (λ x. length x.1.now < length text.now) }
{
    let (part, rest) = atom_at(alloc, room, text)?;
    quantified(alloc, part, rest)
}

/// A part behind others, of which there may be none.
fn followed(alloc: Global, now: Part, next: Part) -> Result<Part, AllocError>
    ensures { IfOk result (λ part. shape_of part ≡ followed (shape_of now) (shape_of next)) }
{
    match now {
        Part::Nothing => Ok(next),
        now => {
            let now = Box::new(alloc, now)?;
            Ok(Part::Then(now, Box::new(alloc, next)?))
        }
    }
}

/// An alternative behind others, of which there may be none.
fn joined(alloc: Global, others: Option<Part>, now: Part) -> Result<Part, AllocError>
    ensures { IfOk result (λ part. shape_of part ≡ joined (option_map shape_of others) (shape_of now)) }
{
    match others {
        None => Ok(now),
        Some(others) => {
            let others = Box::new(alloc, others)?;
            Ok(Part::Either(others, Box::new(alloc, now)?))
        }
    }
}

/// A part, if it isn't too large.
pub(crate) fn fitting(part: Part) -> Result<Part, Fault>
    ensures { Gives shape_of result (fitting (shape_of part)) }
{
    if part.leaves() > MOST_LEAVES as u32 {
        return Err(Fault::NoPattern);
    }
    Ok(part)
}

/// How many leaves parts have with one more behind them, where they have so many, and it has so many.
fn leaves_behind(now: &Part, count: u32, own: u32) -> u32
    requires few { count ≤ 512 }
    requires counted { own ≤ 65535 }
    ensures { result ≡ leaves_behind (shape_of now.now) count own }
{
    match now {
        Part::Nothing => own,
        _ => count + own,
    }
}

/// A part that has so many leaves, if it isn't too large: they aren't counted anew.
fn fitting_by(part: Part, count: u32) -> Result<Part, Fault>
    requires { IsCounted count (shape_of part) }
    ensures exact { Gives shape_of result (fitting (shape_of part)) }
    ensures counted { IfOk result (λ fit. count ≡ leaves (shape_of fit)) }
    ensures few { OnOk result (count ≤ 512) }
{
    if count > MOST_LEAVES as u32 {
        return Err(Fault::NoPattern);
    }
    Ok(part)
}

/// A part behind these, which have so many leaves, and how many they all have.
#[cycle(body)]
#[tactic(auto, using(crate::proofs::Leaves::counted_parts), unfolding(crate::specs::Reading::part_behind))]
fn part_behind(
    alloc: Global,
    room: u32,
    now: Part,
    count: u32,
    text: &[u8],
) -> Result<(Part, u32, &[u8]), Fault>
    requires counted { count ≡ leaves (shape_of now) }
    requires few { count ≤ 512 }
    ensures exact { Gives (λ x. (shape_of x.0, x.2.now)) result (part_behind (body_at room) (shape_of now) text.now) }
    ensures counted { IfOk result (λ x. x.1 ≡ leaves (shape_of x.0)) }
    ensures few { IfOk result (λ x. x.1 ≤ 512) }
    ensures shorter { IfOk result (λ x. length x.2.now < length text.now) }
{
    let (part, rest) = piece_at(alloc, room, text)?;
    let leaves = leaves_behind(&now, count, part.leaves());
    let parts = followed(alloc, now, part)?;
    Ok((fitting_by(parts, leaves)?, leaves, rest))
}

/// These parts, which have so many leaves, are an alternative behind others, which have so many.
#[tactic(auto, using(crate::proofs::Leaves::counted_all))]
fn alternative(
    alloc: Global,
    others: Option<Part>,
    before: u32,
    now: Part,
    count: u32,
) -> Result<(Part, u32), Fault>
    requires others { before ≡ leaves_before (option_map shape_of others) }
    requires few { before ≤ 512 }
    requires counted { count ≡ leaves (shape_of now) }
    requires short { count ≤ 512 }
    ensures exact { Gives (λ x. shape_of x.0) result (alternative (option_map shape_of others) (shape_of now)) }
    ensures counted { IfOk result (λ x. x.1 ≡ leaves (shape_of x.0)) }
    ensures few { IfOk result (λ x. x.1 ≤ 512) }
{
    let leaves = before + count;
    let all = joined(alloc, others, now)?;
    Ok((fitting_by(all, leaves)?, leaves))
}

/// Whether a closing parenthesis or the end is here.
fn is_body_end(text: &[u8]) -> bool
    ensures { result ≡ is_body_end text.now }
{
    match text {
        [] => true,
        [byte, ..] => *byte == b')',
    }
}

/// Parts one behind the other, in alternatives with bars between them, up to a closing parenthesis or the end, with so many bodies one
/// within the other. It stops where they are too large, so no tree is deep.
#[cycle(body)]
pub(crate) fn body_at(alloc: Global, room: u32, text: &[u8]) -> Result<(Part, &[u8]), Fault>
    ensures exact { Gives (λ x. (shape_of x.0, x.1.now)) result (body_at room text.now) }
    ensures bound { IfOk result (λ x. length x.1.now ≤ length text.now) }
{
    if room == 0 {
        return Err(Fault::NoPattern);
    }
    let mut others = None;
    let mut before = 0;
    let mut now = Part::Nothing;
    let mut count = 1;
    let mut rest = text;
    'parts: loop {
        if is_body_end(rest) {
            return Ok((joined(alloc, others, now)?, rest));
        }
        if let Some(behind) = byte_at(b'|', rest) {
            let (all, leaves) = alternative(alloc, others, before, now, count)?;
            others = Some(all);
            before = leaves;
            now = Part::Nothing;
            count = 1;
            rest = behind;
            continue 'parts;
        }
        let (parts, leaves, left) = part_behind(alloc, room - 1, now, count, rest)?;
        now = parts;
        count = leaves;
        rest = left;
    }
}

/// What stands behind `(?i)`, if that stands in front.
#[tactic(auto, unfolding(crate::specs::Reading::behind_flag))]
pub(crate) fn behind_flag(text: &[u8]) -> Option<&[u8]>
    ensures { option_copied result ≡ behind_flag text.now }
{
    match text {
        [b'(', b'?', b'i', b')', rest @ ..] => Some(rest),
        _ => None,
    }
}
