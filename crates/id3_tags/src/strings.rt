// The strings of a frame, in its encoding.
ghost use Rattle.std.specs.Prelude.{◌≡◌, ◌+◌, ◌*◌, ◌<◌, ◌≤◌, [], ◌∷◌, map, length, position, string_bytes, ◌==◌, IfOk, IfSome};
ghost use Rattle.std.specs.Prelude.{MatchOption, false};
ghost use Rattle.id3_tags.specs.Strings.{kept, is_wide, wide_units, units_of, swapped, is_low_first, behind_mark, ordered, utf16_text};
ghost use Rattle.id3_tags.specs.Strings.{texts_by_order, strings_in, texts_in, width, first_len};

use song_files::is_tag_text;
use std::alloc::{AllocError, Global};
use std::str;

/// The mark of a string whose low bytes stand first, as it is read with the high byte first.
const LOW_FIRST: u16 = 0xfffe;

/// The mark of one whose high bytes stand first.
const HIGH_FIRST: u16 = 0xfeff;

/// The text if it has the form of a tag's, or else an empty one.
pub fn kept(alloc: Global, bytes: &[u8]) -> Result<String, AllocError>
    ensures { IfOk result (λ text. string_bytes text ≡ kept bytes.now) }
{
    match str::from_utf8(bytes) {
        Ok(text) if is_tag_text(text) => String::from_str(alloc, text),
        _ => Ok(String::new(alloc)),
    }
}

/// Whether the units of an encoding have two bytes.
pub fn is_wide(encoding: u8) -> bool
    ensures { result ≡ is_wide encoding }
{
    encoding == 1 || encoding == 2
}

/// The units of 16 bits, the high byte first.
fn wide_units(alloc: Global, bytes: &[u8]) -> Result<Vec<u16>, AllocError>
    ensures few { IfOk result (λ units. 2 * length units.items ≤ length bytes.now) }
    ensures units { IfOk result (λ units. units.items ≡ wide_units bytes.now) }
{
    let mut units = Vec::with_capacity(alloc, bytes.len() / 2)?;
    let mut at = 0;
    'units: while at + 1 < bytes.len() {
        units.push(u16::from(bytes[at]) * 256 + u16::from(bytes[at + 1]))?;
        at += 2;
    }
    Ok(units)
}

/// The units of an encoding: in ISO-8859-1 each byte is one.
fn units_of(alloc: Global, encoding: u8, bytes: &[u8]) -> Result<Vec<u16>, AllocError>
    ensures few { IfOk result (λ units. width encoding * length units.items ≤ length bytes.now) }
    ensures units { IfOk result (λ units. units.items ≡ units_of encoding bytes.now) }
{
    if is_wide(encoding) {
        return wide_units(alloc, bytes);
    }
    let mut units = Vec::with_capacity(alloc, bytes.len())?;
    for byte in bytes {
        units.push(u16::from(*byte))?;
    }
    Ok(units)
}

/// Whether the low bytes of the string stand first.
fn is_low_first(before: bool, units: &[u16]) -> bool
    ensures { result ≡ is_low_first before units.now }
{
    match units {
        [LOW_FIRST, ..] => true,
        [HIGH_FIRST, ..] => false,
        _ => before,
    }
}

/// The units behind the mark.
fn behind_mark(units: &[u16]) -> &[u16]
    ensures { result.now ≡ behind_mark units.now }
{
    match units {
        [LOW_FIRST | HIGH_FIRST, rest @ ..] => rest,
        _ => units,
    }
}

/// The units with their bytes the other way round.
fn swapped_units(alloc: Global, units: &[u16]) -> Result<Vec<u16>, AllocError>
    ensures { IfOk result (λ others. others.items ≡ map swapped units.now) }
{
    let mut others = Vec::with_capacity(alloc, units.len())?;
    for unit in units {
        others.push(*unit % 256 * 256 + *unit / 256)?;
    }
    Ok(others)
}

/// The text that units spell, if it has the form of a tag's, or else an empty one.
fn utf16_text(alloc: Global, units: &[u16]) -> Result<String, AllocError>
    ensures { IfOk result (λ text. string_bytes text ≡ utf16_text units.now) }
{
    match String::from_utf16(alloc, units)? {
        Ok(text) => kept(alloc, text.as_bytes()),
        Err(_) => Ok(String::new(alloc)),
    }
}

/// The text of a string of units.
fn unit_text(alloc: Global, low_first: bool, units: &[u16]) -> Result<String, AllocError>
    ensures { IfOk result (λ text. string_bytes text ≡ utf16_text (ordered low_first (behind_mark units.now))) }
{
    let units = behind_mark(units);
    if !low_first {
        return utf16_text(alloc, units);
    }
    let units = swapped_units(alloc, units)?;
    utf16_text(alloc, &units)
}

/// The first string of units and what stands behind the zero at its end, if there is one.
fn split_units(units: &[u16]) -> Option<(&[u16], &[u16])>
    ensures parts { MatchOption result (strings_in units.now ≡ units.now ∷ [])
        (λ parts. strings_in units.now ≡ parts.0.now ∷ strings_in parts.1.now) }
    ensures shorter { IfSome result (λ parts. length parts.1.now < length units.now) }
{
    let end = zero_in(units)?;
    Some((&units[..end], &units[end + 1..]))
}

/// The first string of bytes and what stands behind the zero at its end, if there is one.
fn split_bytes(bytes: &[u8]) -> Option<(&[u8], &[u8])>
    ensures parts { MatchOption result (strings_in bytes.now ≡ bytes.now ∷ [])
        (λ parts. strings_in bytes.now ≡ parts.0.now ∷ strings_in parts.1.now) }
    ensures shorter { IfSome result (λ parts. length parts.1.now < length bytes.now) }
{
    let end = zero_byte_in(bytes)?;
    Some((&bytes[..end], &bytes[end + 1..]))
}

/// The place of the first zero.
fn zero_in(units: &[u16]) -> Option<usize>
    ensures place { result ≡ position (λ u. u == 0) units.now }
    ensures within { IfSome result (λ end. end < length units.now) }
{
    units.iter().position(|u| *u == 0)
}

/// The place of the first zero.
fn zero_byte_in(bytes: &[u8]) -> Option<usize>
    ensures place { result ≡ position (λ b. b == 0) bytes.now }
    ensures within { IfSome result (λ end. end < length bytes.now) }
{
    bytes.iter().position(|b| *b == 0)
}

/// The texts of the strings of units, which zeros part.
fn unit_texts(alloc: Global, units: &[u16]) -> Result<Vec<String>, AllocError>
    ensures { IfOk result (λ texts. map string_bytes texts.items ≡ texts_by_order false (strings_in units.now)) }
{
    let mut texts = Vec::new(alloc);
    let mut rest = units;
    let mut low_first = false;
    'strings: while let Some((first, others)) = split_units(rest) {
        low_first = is_low_first(low_first, first);
        texts.push(unit_text(alloc, low_first, first)?)?;
        rest = others;
    }
    let low_last = is_low_first(low_first, rest);
    texts.push(unit_text(alloc, low_last, rest)?)?;
    Ok(texts)
}

/// The texts of the strings of UTF-8, which zeros part.
fn byte_texts(alloc: Global, bytes: &[u8]) -> Result<Vec<String>, AllocError>
    ensures { IfOk result (λ texts. map string_bytes texts.items ≡ map kept (strings_in bytes.now)) }
{
    let mut texts = Vec::new(alloc);
    let mut rest = bytes;
    'strings: while let Some((first, others)) = split_bytes(rest) {
        texts.push(kept(alloc, first)?)?;
        rest = others;
    }
    texts.push(kept(alloc, rest)?)?;
    Ok(texts)
}

/// The texts of the strings in these bytes: 0 is ISO-8859-1, 1 UTF-16 with byte order marks, 2 UTF-16 with the
/// high byte first, 3 UTF-8. Another encoding has none.
pub fn texts_in(alloc: Global, encoding: u8, bytes: &[u8]) -> Result<Vec<String>, AllocError>
    ensures { IfOk result (λ texts. map string_bytes texts.items ≡ texts_in encoding bytes.now) }
{
    if encoding == 3 {
        return byte_texts(alloc, bytes);
    }
    if !is_wide(encoding) && encoding != 0 {
        return Ok(Vec::new(alloc));
    }
    let units = units_of(alloc, encoding, bytes)?;
    unit_texts(alloc, &units)
}

/// How many bytes a unit has.
fn width(encoding: u8) -> usize
    ensures value { result ≡ width encoding }
    ensures bound { result ≤ 2 }
{
    if is_wide(encoding) { 2 } else { 1 }
}

/// How many bytes the first string has, with the zero at its end.
pub fn first_len(alloc: Global, encoding: u8, bytes: &[u8]) -> Result<Option<usize>, AllocError>
    requires { length bytes.now < 65536 }
    ensures len { IfOk result (λ len. len ≡ first_len encoding bytes.now) }
    ensures within { IfOk result (λ len. IfSome len (λ n. n ≤ length bytes.now)) }
{
    let units = units_of(alloc, encoding, bytes)?;
    let Some(end) = zero_in(&units) else {
        return Ok(None);
    };
    Ok(Some(width(encoding) * (end + 1)))
}
