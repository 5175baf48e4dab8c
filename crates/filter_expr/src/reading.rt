// Reads an expression from its text.
ghost use Rattle.std.specs.Prelude.{◌≡◌, ◌<◌, ◌≤◌, ◌||◌, ℕ, length, IfOk, string_bytes};
ghost use Rattle.filter_expr.specs.Parts.{begins_so};
ghost use Rattle.filter_expr.specs.Gives.{Gives};
ghost use Rattle.filter_expr.specs.Reading.{is_file, named_operator_at, equal_at, spaced_word, negated_at, word_operator_at, wide_operator_at};
ghost use Rattle.filter_expr.specs.Reading.{operator_at, patterned, tested, stars_at, format_of, since_of, test_of, closed, test_at};
ghost use Rattle.filter_expr.specs.Reading.{negation_at, group_at, inside_at, expression_at, trimmed, whole};
ghost use Rattle.filter_expr.specs.Times.{time_in};
ghost use Rattle.filter_expr.specs.Tree.{tree_of};
ghost use Rattle.filter_expr.specs.Tree.Tree.{Test, Not, And};

use crate::expression::Expression;
use crate::format::format_in;
use crate::name::Key;
use crate::operator::Operator;
use crate::parts::{
    Stop, begins_so, between_gaps, byte_at, gap_at, key_at, letters_at, value_at, without_blanks,
    word_at,
};
use crate::subject::{AudioFormat, Comparison, Subject};
use crate::time::time_in;
use crate::value::TestValue;
use profile::Profile;
use regular_expr::Pattern;
use std::alloc::{AllocError, Global};

/// How many parentheses may be open at once.
const MOST_OPEN: u32 = 32;

fn is_file(subject: Subject) -> bool
    ensures { result ≡ is_file subject }
{
    match subject {
        Subject::OfTag(_) | Subject::Any | Subject::AnyText => false,
        Subject::File => true,
    }
}

/// How a subject is compared in the named subset, which may be by `==` alone.
#[tactic(auto, unfolding(crate::specs::Reading::named_operator_at))]
fn named_operator_at(only_equal: bool, text: &[u8]) -> Result<(Operator, &[u8]), Stop<'_>>
    ensures exact { Gives (λ x. (x.0, x.1.now)) result (named_operator_at only_equal text.now) }
    ensures bound { IfOk result (λ x. length x.1.now ≤ length text.now) }
{
    let bare = without_blanks(text);
    if only_equal || begins_so(b'=', bare) {
        return Ok((Operator::Equal, word_at(b"==", bare)?));
    }
    if begins_so(b'!', bare) {
        return Ok((Operator::Unequal, word_at(b"!=", bare)?));
    }
    Ok((Operator::Contains, between_gaps(b"contains", text)?))
}

/// Behind `=`: `=` or `~`.
fn equal_at(text: &[u8]) -> Result<(Operator, &[u8]), Stop<'_>>
    ensures exact { Gives (λ x. (x.0, x.1.now)) result (equal_at text.now) }
    ensures bound { IfOk result (λ x. length x.1.now ≤ length text.now) }
{
    if begins_so(b'~', text) {
        return Ok((Operator::Like, byte_at(b'~', text)?));
    }
    Ok((Operator::Equal, byte_at(b'=', text)?))
}

/// A word of letters in any case, and a blank at least.
fn spaced_word<'a>(
    operator: Operator,
    word: &[u8],
    text: &'a [u8],
) -> Result<(Operator, &'a [u8]), Stop<'a>>
    ensures exact { Gives (λ x. (x.0, x.1.now)) result (spaced_word operator word.now text.now) }
    ensures bound { IfOk result (λ x. length x.1.now ≤ length text.now) }
{
    let behind = letters_at(word, text)?;
    Ok((operator, gap_at(behind)?))
}

/// Behind `!`: `~`, `=` or `contains`.
fn negated_at(text: &[u8]) -> Result<(Operator, &[u8]), Stop<'_>>
    ensures exact { Gives (λ x. (x.0, x.1.now)) result (negated_at text.now) }
    ensures bound { IfOk result (λ x. length x.1.now ≤ length text.now) }
{
    if begins_so(b'~', text) {
        return Ok((Operator::Unlike, byte_at(b'~', text)?));
    }
    if begins_so(b'=', text) {
        return Ok((Operator::Unequal, byte_at(b'=', text)?));
    }
    spaced_word(Operator::Lacks, b"contains", text)
}

/// Whether a word can only be `starts_with`.
fn begins_with_s(text: &[u8]) -> bool
    ensures { result ≡ (begins_so 115 text.now || begins_so 83 text.now) }
{
    begins_so(b's', text) || begins_so(b'S', text)
}

/// A word of its own: `starts_with` or `contains`.
fn word_operator_at(text: &[u8]) -> Result<(Operator, &[u8]), Stop<'_>>
    ensures exact { Gives (λ x. (x.0, x.1.now)) result (word_operator_at text.now) }
    ensures bound { IfOk result (λ x. length x.1.now ≤ length text.now) }
{
    if begins_with_s(text) {
        return spaced_word(Operator::Begins, b"starts_with", text);
    }
    spaced_word(Operator::Contains, b"contains", text)
}

/// How a subject is compared in the wide profile.
#[tactic(auto, unfolding(crate::specs::Reading::wide_operator_at))]
fn wide_operator_at(text: &[u8]) -> Result<(Operator, &[u8]), Stop<'_>>
    ensures exact { Gives (λ x. (x.0, x.1.now)) result (wide_operator_at text.now) }
    ensures bound { IfOk result (λ x. length x.1.now ≤ length text.now) }
{
    let bare = without_blanks(text);
    if begins_so(b'=', bare) {
        return equal_at(byte_at(b'=', bare)?);
    }
    if begins_so(b'!', bare) {
        return negated_at(byte_at(b'!', bare)?);
    }
    word_operator_at(gap_at(text)?)
}

/// How the subject is compared.
#[tactic(auto, unfolding(crate::specs::Reading::operator_at))]
fn operator_at(
    profile: Profile,
    subject: Subject,
    text: &[u8],
) -> Result<(Operator, &[u8]), Stop<'_>>
    ensures exact { Gives (λ x. (x.0, x.1.now)) result (operator_at profile subject text.now) }
    ensures bound { IfOk result (λ x. length x.1.now ≤ length text.now) }
{
    match profile {
        Profile::Named => named_operator_at(is_file(subject), text),
        Profile::Wide => wide_operator_at(text),
    }
}

/// What doesn't hold.
fn negated(alloc: Global, inner: Expression) -> Result<Expression, AllocError>
    ensures { IfOk result (λ tree. tree_of tree ≡ Not (tree_of inner)) }
{
    Ok(Expression::Not(Box::new(alloc, inner)?))
}

/// A test against a value as it stands.
fn valued(
    alloc: Global,
    subject: Subject,
    comparison: Comparison,
    value: String,
) -> Result<Expression, AllocError>
    ensures { IfOk result (λ tree. tree_of tree ≡ Test subject comparison (string_bytes value)) }
{
    let value = TestValue::new(alloc, value)?;
    Ok(Expression::Test(subject, comparison, value))
}

/// A test against a pattern, or the fault that the value is none, where so many bytes stand from it to the end of the text.
fn patterned<'a>(
    alloc: Global,
    subject: Subject,
    value: &str,
    left: usize,
) -> Result<Expression, Stop<'a>>
    ensures { Gives tree_of result (patterned subject value.now left) }
{
    match Pattern::parse(alloc, value.as_bytes())? {
        Some(pattern) => Ok(Expression::Like(subject, pattern)),
        None => Err(Stop::Bad(left)),
    }
}

/// A test, from whose value so many bytes stand to the end of the text.
fn test<'a>(
    alloc: Global,
    subject: Subject,
    operator: Operator,
    value: String,
    left: usize,
) -> Result<Expression, Stop<'a>>
    ensures { Gives tree_of result (tested subject operator (string_bytes value) left) }
{
    match operator {
        Operator::Equal => Ok(valued(alloc, subject, Comparison::Equals, value)?),
        Operator::Contains => Ok(valued(alloc, subject, Comparison::Contains, value)?),
        Operator::Begins => Ok(valued(alloc, subject, Comparison::Begins, value)?),
        Operator::Unequal => {
            let equal = valued(alloc, subject, Comparison::Equals, value)?;
            Ok(negated(alloc, equal)?)
        }
        Operator::Lacks => {
            let contained = valued(alloc, subject, Comparison::Contains, value)?;
            Ok(negated(alloc, contained)?)
        }
        Operator::Like => patterned(alloc, subject, value.as_str(), left),
        Operator::Unlike => {
            let like = patterned(alloc, subject, value.as_str(), left)?;
            Ok(negated(alloc, like)?)
        }
    }
}

/// How a format is compared: whether stars may stand in it.
#[tactic(auto, unfolding(crate::specs::Reading::stars_at))]
fn stars_at(text: &[u8]) -> Result<(bool, &[u8]), Stop<'_>>
    ensures exact { Gives (λ x. (x.0, x.1.now)) result (stars_at text.now) }
    ensures bound { IfOk result (λ x. length x.1.now ≤ length text.now) }
{
    let behind = byte_at(b'=', text)?;
    if begins_so(b'~', behind) {
        return Ok((true, byte_at(b'~', behind)?));
    }
    Ok((false, byte_at(b'=', behind)?))
}

/// A value that is a format, where so many bytes stand from it to the end of the text.
fn format_of<'a>(
    format: Option<AudioFormat>,
    left: usize,
    rest: &'a [u8],
) -> Result<(Expression, &'a [u8]), Stop<'a>>
    ensures exact { Gives (λ x. (tree_of x.0, x.1.now)) result (format_of format left rest.now) }
    ensures rest { IfOk result (λ x. x.1.now ≡ rest.now) }
{
    match format {
        None => Err(Stop::Bad(left)),
        Some(format) => Ok((Expression::Format(format), rest)),
    }
}

/// A value that is a time, where so many bytes stand from it to the end of the text.
fn since_of<'a>(
    value: &str,
    left: usize,
    rest: &'a [u8],
) -> Result<(Expression, &'a [u8]), Stop<'a>>
    ensures exact { Gives (λ x. (tree_of x.0, x.1.now)) result (since_of (time_in value.now) left rest.now) }
    ensures rest { IfOk result (λ x. x.1.now ≡ rest.now) }
{
    match time_in(value.as_bytes()) {
        None => Err(Stop::Bad(left)),
        Some(time) => Ok((Expression::Since(time), rest)),
    }
}

/// The rest of a test behind its name.
#[tactic(auto, unfolding(crate::specs::Reading::test_of))]
fn test_of(
    alloc: Global,
    profile: Profile,
    key: Key,
    text: &[u8],
) -> Result<(Expression, &[u8]), Stop<'_>>
    ensures exact { Gives (λ x. (tree_of x.0, x.1.now)) result (test_of profile key text.now) }
    ensures shorter { IfOk result (λ x. length x.1.now < length text.now) }
{
    match key {
        Key::Base => {
            let (base, rest) = value_at(alloc, without_blanks(text))?;
            Ok((Expression::Base(base), rest))
        }
        Key::Since => {
            let bare = without_blanks(text);
            let (value, rest) = value_at(alloc, bare)?;
            since_of(value.as_str(), bare.len(), rest)
        }
        Key::Format => {
            let (stars, behind) = stars_at(without_blanks(text))?;
            let bare = without_blanks(behind);
            let (value, rest) = value_at(alloc, bare)?;
            format_of(
                format_in(stars, value.as_str().as_bytes()),
                bare.len(),
                rest,
            )
        }
        Key::Of(subject) => {
            let (operator, behind) = operator_at(profile, subject, text)?;
            let bare = without_blanks(behind);
            let (value, rest) = value_at(alloc, bare)?;
            Ok((test(alloc, subject, operator, value, bare.len())?, rest))
        }
    }
}

/// What was read, if the closing parenthesis stands behind it.
#[tactic(auto, unfolding(crate::specs::Reading::closed))]
fn closed(tree: Expression, text: &[u8]) -> Result<(Expression, &[u8]), Stop<'_>>
    ensures exact { Gives (λ x. (tree_of x.0, x.1.now)) result (closed (tree_of tree, text.now)) }
    ensures shorter { IfOk result (λ x. length x.1.now < length text.now) }
{
    let rest = byte_at(b')', without_blanks(text))?;
    Ok((tree, rest))
}

/// A test and its closing parenthesis.
#[tactic(auto, unfolding(crate::specs::Reading::test_at))]
fn test_at(alloc: Global, profile: Profile, text: &[u8]) -> Result<(Expression, &[u8]), Stop<'_>>
    ensures exact { Gives (λ x. (tree_of x.0, x.1.now)) result (test_at profile text.now) }
    ensures shorter { IfOk result (λ x. length x.1.now < length text.now) }
{
    let (key, behind) = key_at(profile, text)?;
    let (tree, rest) = test_of(alloc, profile, key, behind)?;
    closed(tree, rest)
}

/// A negation and its closing parenthesis.
#[cycle(expression)]
#[tactic(auto, unfolding(crate::specs::Reading::negation_at))]
fn negation_at(
    alloc: Global,
    profile: Profile,
    room: u32,
    text: &[u8],
) -> Result<(Expression, &[u8]), Stop<'_>>
    ensures exact { Gives (λ x. (tree_of x.0, x.1.now)) result (negation_at (expression_at profile room) text.now) }
    ensures shorter { IfOk result (λ x. length x.1.now < length text.now) }
{
    let inner = byte_at(b'!', text)?;
    let (tree, rest) = expression_at(alloc, profile, room, without_blanks(inner))?;
    closed(Expression::Not(Box::new(alloc, tree)?), rest)
}

/// One expression or several with AND between them, and the closing parenthesis.
#[cycle(expression)]
fn group_at(
    alloc: Global,
    profile: Profile,
    room: u32,
    text: &[u8],
) -> Result<(Expression, &[u8]), Stop<'_>>
    ensures exact { Gives (λ x. (tree_of x.0, x.1.now)) result (group_at (expression_at profile room) text.now) }
    ensures shorter { IfOk result (λ x. length x.1.now < length text.now) }
{
    let (mut tree, mut rest) = expression_at(alloc, profile, room, text)?;
    'others: while !begins_so(b')', without_blanks(rest)) {
        let (right, behind) = expression_at(alloc, profile, room, between_gaps(b"AND", rest)?)?;
        tree = both(alloc, tree, right)?;
        rest = behind;
    }
    closed(tree, rest)
}

/// What holds where both do.
pub(crate) fn both(
    alloc: Global,
    left: Expression,
    right: Expression,
) -> Result<Expression, AllocError>
    ensures { IfOk result (λ tree. tree_of tree ≡ And (tree_of left) (tree_of right)) }
{
    let left = Box::new(alloc, left)?;
    Ok(Expression::And(left, Box::new(alloc, right)?))
}

/// An expression in which so many parentheses may be open at once.
#[cycle(expression)]
fn expression_at(
    alloc: Global,
    profile: Profile,
    room: u32,
    text: &[u8],
) -> Result<(Expression, &[u8]), Stop<'_>>
    ensures exact { Gives (λ x. (tree_of x.0, x.1.now)) result (expression_at profile room text.now) }
    ensures shorter { IfOk result (λ x. length x.1.now < length text.now) }
{
    let rest = byte_at(b'(', text)?;
    if room == 0 {
        return Err(Stop::Deep(text.len()));
    }
    let inner = without_blanks(rest);
    if begins_so(b'(', inner) {
        group_at(alloc, profile, room - 1, inner)
    } else if begins_so(b'!', inner) {
        negation_at(alloc, profile, room - 1, inner)
    } else {
        test_at(alloc, profile, inner)
    }
}

/// In the wide profile blanks may stand behind an expression.
fn trimmed(profile: Profile, rest: &[u8]) -> &[u8]
    ensures { result.now ≡ trimmed profile rest.now }
{
    match profile {
        Profile::Named => rest,
        Profile::Wide => without_blanks(rest),
    }
}

/// The expression that the whole text spells.
#[tactic(auto, unfolding(crate::specs::Reading::whole))]
pub(crate) fn whole(alloc: Global, profile: Profile, text: &[u8]) -> Result<Expression, Stop<'_>>
    ensures exact { Gives tree_of result (whole profile text.now) }
{
    let (tree, rest) = expression_at(alloc, profile, MOST_OPEN, text)?;
    let left = trimmed(profile, rest);
    if !left.is_empty() {
        return Err(Stop::Bad(left.len()));
    }
    Ok(tree)
}
