// The small parts of an expression's text: blanks, words, quoted values.
ghost use Rattle.std.specs.Prelude.{◌≡◌, ◌<◌, ◌≤◌, ◌==◌, ◌||◌, not, false, Some, None, length, take, drop, IfOk, option_map, string_bytes};
ghost use Rattle.std.specs.Prelude.{if◌then◌else◌};
ghost use Rattle.std.specs.Str.{is_utf8};
ghost use Rattle.filter_expr.specs.Gives.{Gives};
ghost use Rattle.filter_expr.specs.Parts.{is_blank, is_quote, ends_name, begins_so, without_blanks, byte_at, word_at, gap_at, between_gaps};
ghost use Rattle.filter_expr.specs.Parts.{letter_at, letters_at};
ghost use Rattle.filter_expr.specs.Parts.{name_in, behind_name, key_at, backslash, quoted, value_at};
ghost use Rattle.filter_expr.specs.declared.parts.Stop.TheVariants as stops;

use crate::name::{Key, key_named};
use profile::Profile;
use std::alloc::{AllocError, AllocFailed, Global};

/// Why a part of a text wasn't read: a fault, with how many bytes stand from it to the end of the text, or want of memory.
#[derive(Clone, Copy)]
pub(crate) enum Stop<'a> {
    Bad(usize),
    Unknown(&'a [u8]),
    Deep(usize),
    NoMemory,
}

impl<'a> From<AllocError> for Stop<'a> {
    ghost from_gives = { λ _ e. e ≡ stops.NoMemory };

    fn from(_error: AllocError) -> Self {
        Stop::NoMemory
    }
}

impl<'a, T: Drop> From<AllocFailed<T>> for Stop<'a> {
    ghost from_gives = { λ _ e. e ≡ stops.NoMemory };

    fn from(_error: AllocFailed<T>) -> Self {
        Stop::NoMemory
    }
}

/// Whether the byte parts what stands in an expression: a space or a tab.
pub fn is_blank(byte: u8) -> bool
    ensures { result ≡ is_blank byte }
{
    byte == b' ' || byte == b'\t'
}

/// Whether a value in quotes begins with this byte, and ends with it.
pub fn is_quote(byte: u8) -> bool
    ensures { result ≡ is_quote byte }
{
    byte == b'\'' || byte == b'"'
}

/// Whether a name in an expression ends before this byte.
pub fn ends_name(byte: u8) -> bool
    ensures { result ≡ ends_name byte }
{
    is_blank(byte) || byte == b'(' || byte == b')' || is_quote(byte) || byte == b'=' || byte == b'!'
}

/// Whether the text begins with this byte.
pub(crate) fn begins_so(byte: u8, text: &[u8]) -> bool
    ensures { result ≡ begins_so byte text.now }
{
    match text {
        [] => false,
        [first, ..] => *first == byte,
    }
}

/// The text from the first byte on that is no blank.
pub(crate) fn without_blanks(text: &[u8]) -> &[u8]
    ensures value { result.now ≡ without_blanks text.now }
    ensures bound { length result.now ≤ length text.now }
{
    for (place, byte) in text.iter().enumerate() {
        if !is_blank(*byte) {
            return &text[place..];
        }
    }
    &[]
}

/// What stands behind this byte.
#[tactic(auto, unfolding(crate::specs::Parts::byte_at))]
pub(crate) fn byte_at(byte: u8, text: &[u8]) -> Result<&[u8], Stop<'_>>
    ensures exact { Gives (λ rest. rest.now) result (byte_at byte text.now) }
    ensures shorter { IfOk result (λ rest. length rest.now < length text.now) }
{
    match text {
        [first, rest @ ..] if *first == byte => Ok(rest),
        _ => Err(Stop::Bad(text.len())),
    }
}

/// What stands behind these bytes.
pub(crate) fn word_at<'a>(word: &[u8], text: &'a [u8]) -> Result<&'a [u8], Stop<'a>>
    ensures exact { Gives (λ rest. rest.now) result (word_at word.now text.now) }
    ensures bound { IfOk result (λ rest. length rest.now ≤ length text.now) }
{
    let mut rest = text;
    for byte in word {
        rest = byte_at(*byte, rest)?;
    }
    Ok(rest)
}

/// What stands behind this lowercase letter, in any case.
#[tactic(auto, unfolding(crate::specs::Parts::letter_at))]
fn letter_at(letter: u8, text: &[u8]) -> Result<&[u8], Stop<'_>>
    ensures exact { Gives (λ rest. rest.now) result (letter_at letter text.now) }
    ensures shorter { IfOk result (λ rest. length rest.now < length text.now) }
{
    match text {
        [first, rest @ ..] if first.to_ascii_lowercase() == letter => Ok(rest),
        _ => Err(Stop::Bad(text.len())),
    }
}

/// What stands behind these lowercase letters.
pub(crate) fn letters_at<'a>(word: &[u8], text: &'a [u8]) -> Result<&'a [u8], Stop<'a>>
    ensures exact { Gives (λ rest. rest.now) result (letters_at word.now text.now) }
    ensures bound { IfOk result (λ rest. length rest.now ≤ length text.now) }
{
    let mut rest = text;
    for letter in word {
        rest = letter_at(*letter, rest)?;
    }
    Ok(rest)
}

/// What stands behind blanks, of which there is one at least.
#[tactic(auto, unfolding(crate::specs::Parts::gap_at))]
pub(crate) fn gap_at(text: &[u8]) -> Result<&[u8], Stop<'_>>
    ensures exact { Gives (λ rest. rest.now) result (gap_at text.now) }
    ensures shorter { IfOk result (λ rest. length rest.now < length text.now) }
{
    match text {
        [first, rest @ ..] if is_blank(*first) => Ok(without_blanks(rest)),
        _ => Err(Stop::Bad(text.len())),
    }
}

/// What stands behind a word that stands between blanks.
#[tactic(auto, unfolding(crate::specs::Parts::between_gaps))]
pub(crate) fn between_gaps<'a>(word: &[u8], text: &'a [u8]) -> Result<&'a [u8], Stop<'a>>
    ensures exact { Gives (λ rest. rest.now) result (between_gaps word.now text.now) }
    ensures shorter { IfOk result (λ rest. length rest.now < length text.now) }
{
    let inner = gap_at(text)?;
    let rest = word_at(word, inner)?;
    gap_at(rest)
}

/// What the name in front names.
#[tactic(auto, unfolding(crate::specs::Parts::key_at))]
pub(crate) fn key_at(profile: Profile, text: &[u8]) -> Result<(Key, &[u8]), Stop<'_>>
    ensures exact { Gives (λ x. (x.0, x.1.now)) result (key_at profile text.now) }
    ensures bound { IfOk result (λ x. length x.1.now ≤ length text.now) }
{
    let (name, rest) = text.split_at(name_length(text));
    if name.is_empty() {
        return Err(Stop::Bad(rest.len()));
    }
    match key_named(profile, name) {
        None => Err(Stop::Unknown(name)),
        Some(key) => Ok((key, rest)),
    }
}

fn name_length(text: &[u8]) -> usize
    ensures name { take result text.now ≡ name_in text.now }
    ensures behind { drop result text.now ≡ behind_name text.now }
    ensures bound { result ≤ length text.now }
{
    for (place, byte) in text.iter().enumerate() {
        if ends_name(*byte) {
            return place;
        }
    }
    text.len()
}

/// Whether the byte stands for itself in a value.
fn is_plain(quote: u8, escaped: bool, byte: u8) -> bool
    ensures { result ≡ (escaped || not (byte == quote || byte == backslash)) }
{
    escaped || (byte != quote && byte != b'\\')
}

/// The text up to the closing quote, where a backslash stands for the byte behind it, and what stands behind the quote.
fn quoted(alloc: Global, quote: u8, text: &[u8]) -> Result<(Vec<u8>, &[u8]), Stop<'_>>
    ensures exact { Gives (λ x. (x.0.items, x.1.now)) result (quoted quote false text.now) }
    ensures shorter { IfOk result (λ x. length x.1.now < length text.now) }
{
    let mut value = Vec::new(alloc);
    let mut escaped = false;
    for (place, byte) in text.iter().enumerate() {
        if is_plain(quote, escaped, *byte) {
            value.push(*byte)?;
            escaped = false;
        } else if *byte == quote {
            return Ok((value, &text[place + 1..]));
        } else {
            escaped = true;
        }
    }
    Err(Stop::Bad(0))
}

/// The text of these bytes, if they are UTF-8.
fn text_of(bytes: Vec<u8>) -> Option<String>
    ensures { option_map string_bytes result ≡ (if is_utf8 bytes.items then Some bytes.items else None) }
{
    match String::from_utf8(bytes) {
        Ok(text) => Some(text),
        Err(_) => None,
    }
}

/// The value in quotes that the text begins with.
#[tactic(auto, unfolding(crate::specs::Parts::value_at))]
pub(crate) fn value_at(alloc: Global, text: &[u8]) -> Result<(String, &[u8]), Stop<'_>>
    ensures exact { Gives (λ x. (string_bytes x.0, x.1.now)) result (value_at text.now) }
    ensures shorter { IfOk result (λ x. length x.1.now < length text.now) }
{
    match text {
        [first, rest @ ..] if is_quote(*first) => {
            let (value, behind) = quoted(alloc, *first, rest)?;
            match text_of(value) {
                Some(value) => Ok((value, behind)),
                None => Err(Stop::Bad(text.len())),
            }
        }
        _ => Err(Stop::Bad(text.len())),
    }
}
