// Reads a filter from words: one expression, or pairs of a tag and its value.
ghost use Rattle.std.specs.Prelude.{◌≡◌, ◌+◌, ◌<◌, ◌≤◌, ◌^◌, length, Some, None, IfOk, option_map, string_bytes, if◌then◌else◌};
ghost use Rattle.std.specs.Str.{is_utf8};
ghost use Rattle.filter_expr.specs.Names.{key_named};
ghost use Rattle.filter_expr.specs.Reading.{whole};
ghost use Rattle.filter_expr.specs.Tree.{tree_of};
ghost use Rattle.filter_expr.specs.Words.{Gives, error_in, read_in_word, keyed, half_pair, paired, pair_of, pair_tree, pair_at, pairs_of};
ghost use Rattle.filter_expr.specs.Words.{named_filter_of, part_of, part_length, wide_filter_of, filter_of};
ghost use Rattle.filter_expr.specs.declared.refusal.FilterError.TheVariants as errors;

use crate::expression::Expression;
use crate::name::{Key, key_named};
use crate::parts::{Stop, begins_so};
use crate::reading::{both, whole};
use crate::refusal::{FilterError, FilterPlace};
use crate::subject::Comparison;
use crate::time::time_in;
use crate::value::TestValue;
use crate::word::LineWord;
use profile::Profile;
use std::alloc::{AllocError, Global};

/// Why a word of this number wasn't read.
fn error_in<'a>(number: usize, word: &[u8], stop: Stop<'a>) -> FilterError<'a>
    ensures { result ≡ error_in number word.now stop.entry }
{
    match stop {
        Stop::Bad(left) => FilterError::BadFilter(FilterPlace {
            word: number,
            byte: word.len().saturating_sub(left),
        }),
        Stop::Unknown(name) => FilterError::UnknownTag(name),
        Stop::Deep(left) => FilterError::TooDeep(FilterPlace {
            word: number,
            byte: word.len().saturating_sub(left),
        }),
        Stop::NoMemory => FilterError::NoMemory,
    }
}

/// The expression that a word of this number spells.
fn expression_of(
    alloc: Global,
    profile: Profile,
    number: usize,
    word: &[u8],
) -> Result<Expression, FilterError<'_>>
    ensures { Gives tree_of result (read_in_word number word.now (whole profile word.now)) }
{
    match whole(alloc, profile, word) {
        Ok(tree) => Ok(tree),
        Err(stop) => Err(error_in(number, word, stop)),
    }
}

/// The refusal at the beginning of a word.
fn bad_word<'a>(number: usize) -> FilterError<'a>
    ensures { result ≡ errors.BadFilter (record { word = number; byte = 0 }) }
{
    FilterError::BadFilter(FilterPlace {
        word: number,
        byte: 0,
    })
}

fn keyed(profile: Profile, name: &[u8]) -> Result<Key, FilterError<'_>>
    ensures { Gives (λ key. key) result (keyed (key_named profile name.now) name.now) }
{
    match key_named(profile, name) {
        Some(key) => Ok(key),
        None => Err(FilterError::UnknownTag(name)),
    }
}

/// The pair of a tag and a value, whose words have this number and the next.
#[tactic(auto, unfolding(crate::specs::Words::pair_of))]
fn pair_of<'a>(
    alloc: Global,
    profile: Profile,
    number: usize,
    name: &'a [u8],
    value: &[u8],
) -> Result<Expression, FilterError<'a>>
    requires { number + 1 < 2 ^ 64 }
    ensures { Gives tree_of result (pair_of profile number name.now value.now) }
{
    let key = keyed(profile, name)?;
    let Some(value) = text(alloc, value)? else {
        return Err(bad_word(number + 1));
    };
    pair(alloc, profile, number + 1, key, value)
}

/// A text of these bytes, if they are UTF-8.
fn text(alloc: Global, bytes: &[u8]) -> Result<Option<String>, AllocError>
    ensures { IfOk result (λ text. option_map string_bytes text ≡ (if is_utf8 bytes.now then Some bytes.now else None)) }
{
    match str::from_utf8(bytes) {
        Ok(text) => Ok(Some(String::from_str(alloc, text)?)),
        Err(_) => Ok(None),
    }
}

/// How a pair compares.
fn paired(profile: Profile) -> Comparison
    ensures { result ≡ paired profile }
{
    match profile {
        Profile::Named => Comparison::Pair,
        Profile::Wide => Comparison::WidePair,
    }
}

/// What a value says, whose word has this number.
fn pair<'a>(
    alloc: Global,
    profile: Profile,
    number: usize,
    key: Key,
    value: String,
) -> Result<Expression, FilterError<'a>>
    ensures { Gives tree_of result (pair_tree profile number key (string_bytes value)) }
{
    match key {
        Key::Base => Ok(Expression::Base(value)),
        Key::Since => match time_in(value.as_str().as_bytes()) {
            None => Err(bad_word(number)),
            Some(time) => Ok(Expression::Since(time)),
        },
        Key::Of(subject) => {
            let value = TestValue::new(alloc, value)?;
            Ok(Expression::Test(subject, paired(profile), value))
        }
        Key::Format => Err(bad_word(number)),
    }
}

/// A tag without a value.
#[tactic(auto, unfolding(crate::specs::Words::half_pair))]
fn half_pair(profile: Profile, number: usize, name: &[u8]) -> Result<Expression, FilterError<'_>>
    requires { number + 1 < 2 ^ 64 }
    ensures { Gives tree_of result (half_pair profile number name.now) }
{
    keyed(profile, name)?;
    Err(bad_word(number + 1))
}

/// The pair in front of these words, the first of which has this number.
fn pair_at<'w>(
    alloc: Global,
    profile: Profile,
    number: usize,
    words: &'w [LineWord<'_>],
) -> Result<Expression, FilterError<'w>>
    requires { number + 1 < 2 ^ 64 }
    ensures { Gives tree_of result (pair_at profile number words.now) }
{
    match words {
        [] => Err(bad_word(number)),
        [name] => half_pair(profile, number, name.bytes()),
        [name, value, ..] => pair_of(alloc, profile, number, name.bytes(), value.bytes()),
    }
}

/// What holds where all the pairs of these words do.
fn pairs_of<'w>(
    alloc: Global,
    profile: Profile,
    words: &'w [LineWord<'_>],
) -> Result<Expression, FilterError<'w>>
    ensures { Gives tree_of result (pairs_of profile words.now) }
{
    let mut tree = pair_at(alloc, profile, 0, words)?;
    let mut number = 2;
    'pairs: while number < words.len() {
        let pair = pair_at(alloc, profile, number, &words[number..])?;
        tree = both(alloc, tree, pair)?;
        number += 2;
    }
    Ok(tree)
}

/// What the words say in the named subset.
#[tactic(auto, unfolding(crate::specs::Words::named_filter_of))]
fn named_filter_of<'w>(
    alloc: Global,
    words: &'w [LineWord<'_>],
) -> Result<Expression, FilterError<'w>>
    ensures { Gives tree_of result (named_filter_of words.now) }
{
    let Some((word, others)) = words.split_first() else {
        return Err(bad_word(0));
    };
    if !begins_so(b'(', word.bytes()) {
        return pairs_of(alloc, Profile::Named, words);
    }
    let tree = expression_of(alloc, Profile::Named, 0, word.bytes())?;
    if !others.is_empty() {
        return Err(bad_word(1));
    }
    Ok(tree)
}

/// The expression or the pair in front of these words, the first of which has this number.
fn part_of<'w>(
    alloc: Global,
    number: usize,
    words: &'w [LineWord<'_>],
) -> Result<Expression, FilterError<'w>>
    requires { number + 1 < 2 ^ 64 }
    ensures { Gives tree_of result (part_of number words.now) }
{
    match words {
        [] => Err(bad_word(number)),
        [word, ..] if begins_so(b'(', word.bytes()) => {
            expression_of(alloc, Profile::Wide, number, word.bytes())
        }
        _ => pair_at(alloc, Profile::Wide, number, words),
    }
}

/// How many words it takes.
fn part_length(words: &[LineWord<'_>]) -> usize
    ensures value { result ≡ part_length words.now }
    ensures some { 0 < length words.now → 0 < result }
    ensures few { result ≤ 2 }
{
    match words {
        [] => 0,
        [word, ..] if begins_so(b'(', word.bytes()) => 1,
        _ => 2,
    }
}

/// What holds where all the expressions and pairs of these words do.
fn wide_filter_of<'w>(
    alloc: Global,
    words: &'w [LineWord<'_>],
) -> Result<Expression, FilterError<'w>>
    ensures { Gives tree_of result (wide_filter_of words.now) }
{
    let mut tree = part_of(alloc, 0, words)?;
    let mut number = part_length(words);
    'parts: while number < words.len() {
        let rest = &words[number..];
        let part = part_of(alloc, number, rest)?;
        tree = both(alloc, tree, part)?;
        number += part_length(rest);
    }
    Ok(tree)
}

/// What the words say.
#[tactic(auto, unfolding(crate::specs::Words::filter_of))]
pub(crate) fn filter_of<'w>(
    alloc: Global,
    profile: Profile,
    words: &'w [LineWord<'_>],
) -> Result<Expression, FilterError<'w>>
    ensures { Gives tree_of result (filter_of profile words.now) }
{
    match profile {
        Profile::Named => named_filter_of(alloc, words),
        Profile::Wide => wide_filter_of(alloc, words),
    }
}
