// A word of a line with the bytes of its own, and why bytes are no words.
ghost use Rattle.std.specs.Prelude.{◌≡◌, ◌<◌, ◌≤◌, ℕ, List, [], Some, None, Err, length, slice_index, true, false, IfOk, MatchOption};
ghost use Rattle.std.specs.Str.{bytes_eq};
ghost use Rattle.command_text.specs.Words.{AreWordsOfLine, GivesWords, without_return, words_of, words_from, is_blank, is_plain};
ghost use Rattle.command_text.specs.Words.{number_of_words_error};
ghost use Rattle.command_text.specs.NextWord.{IsNext, IsNextInQuotes, IsClosedAt, unescaped, spelled};
ghost use Rattle.command_text.specs.Words.Standing.{Between, Quoted};
ghost use Rattle.command_text.specs.declared.words.WordsError.TheVariants.{NoMemory};

use filter_expr::LineWord;
use memchr::{memchr, memchr2, memchr3};
use std::alloc::{AllocError, AllocFailed, Global};
use std::marker::Model;
use thiserror::Error;

/// The bytes of a word, in memory of its own, as a refusal repeats it.
#[derive(Debug, Drop)]
pub struct Word {
    bytes: Vec<u8>,
}

impl Model for Word {
    ghost use Rattle.std.specs.Prelude.{ℕ, List};

    ghost Value = { List ℕ };

    ghost view = { λ w. w.bytes.items };
}

impl Word {
    /// A word of these bytes.
    pub fn from_bytes(alloc: Global, bytes: &[u8]) -> Result<Self, AllocError>
        ensures { IfOk result (λ word. word ≡ bytes.now) }
    {
        Ok(Word {
            bytes: Vec::from_slice(alloc, bytes)?,
        })
    }

    pub fn bytes(&self) -> &[u8]
        ensures { result.now ≡ self.now }
    {
        self.bytes.as_slice()
    }
}

/// Why a line doesn't part into words.
#[derive(Debug, Drop, Error)]
pub enum WordsError {
    /// A `"` inside a word without quotes, a missing closing quote, a backslash at the end of the
    /// line inside quotes, or text right behind a closing quote.
    #[error("bad quoting")]
    BadQuoting,
    #[error("out of memory")]
    NoMemory,
}

impl WordsError {
    /// The number of the refusal: 35, or 7 where memory was refused.
    pub fn number(&self) -> u8
        ensures { result ≡ number_of_words_error self.now }
    {
        match self {
            WordsError::BadQuoting => 35,
            WordsError::NoMemory => 7,
        }
    }
}

impl From<AllocError> for WordsError {
    ghost from_gives = { λ _ e. e ≡ NoMemory };

    fn from(_e: AllocError) -> WordsError {
        WordsError::NoMemory
    }
}

impl<T: Drop> From<AllocFailed<T>> for WordsError {
    ghost from_gives = { λ _ e. e ≡ NoMemory };

    fn from(_e: AllocFailed<T>) -> WordsError {
        WordsError::NoMemory
    }
}

/// The bytes of a line that spell one word.
#[derive(Clone, Copy)]
pub(crate) enum WordText<'a> {
    Bare(&'a [u8]),
    /// What stands between two quotes.
    Inside(&'a [u8]),
}

/// What stands next in a line.
#[derive(Clone, Copy)]
pub(crate) enum Next<'a> {
    End,
    /// A word, and the bytes behind it.
    Found(WordText<'a>, &'a [u8]),
    Bad,
}

impl<'a> WordText<'a> {
    /// The word where it stands in the line, or in memory of its own where a backslash spells it.
    fn to_word(self, alloc: Global) -> Result<LineWord<'a>, AllocError>
        ensures exact { IfOk result (λ word. word ≡ spelled self.entry) }
    {
        match self {
            WordText::Bare(text) => Ok(LineWord::from_slice(text)),
            WordText::Inside(text) if has_backslash(text) => {
                Ok(LineWord::from_vec(without_backslashes(alloc, text)?))
            }
            WordText::Inside(text) => Ok(LineWord::from_slice(text)),
        }
    }

    /// Whether the word is this one; it takes no memory.
    pub(crate) fn is(self, word: &[u8]) -> bool
        ensures { result ≡ bytes_eq (spelled self.entry) word.now }
    {
        match self {
            WordText::Bare(text) => text == word,
            WordText::Inside(text) => stands_for(text, word),
        }
    }
}

/// Whether the byte is a space or a tab.
fn is_blank(byte: u8) -> bool
    ensures { result ≡ is_blank byte }
{
    byte == b' ' || byte == b'\t'
}

/// Whether a backslash stands in the bytes; where none does, they stand for themselves.
fn has_backslash(inside: &[u8]) -> bool
    ensures { result ≡ false → unescaped inside.now ≡ inside.now }
{
    match memchr(b'\\', inside) {
        Some(_) => true,
        None => false,
    }
}

/// The bytes that the inside of quotes stands for.
fn without_backslashes(alloc: Global, inside: &[u8]) -> Result<Vec<u8>, AllocError>
    ensures { IfOk result (λ word. word.items ≡ unescaped inside.now) }
{
    let mut word = Vec::with_capacity(alloc, inside.len())?;
    let mut rest = inside;
    while let Some(run) = memchr(b'\\', rest) {
        word.extend_from_slice(&rest[..run])?;
        if run + 1 == rest.len() {
            return Ok(word);
        }
        word.push(rest[run + 1])?;
        rest = &rest[run + 2..];
    }
    word.extend_from_slice(rest)?;
    Ok(word)
}

/// Whether the inside of quotes stands for this word.
fn stands_for(inside: &[u8], word: &[u8]) -> bool
    ensures { result ≡ bytes_eq (unescaped inside.now) word.now }
{
    let mut escaped = false;
    let mut left = word;
    for byte in inside {
        if !escaped && *byte == b'\\' {
            escaped = true;
        } else {
            if left.is_empty() || left[0] != *byte {
                return false;
            }
            left = &left[1..];
            escaped = false;
        }
    }
    left.is_empty()
}

/// What stands next in these bytes.
pub(crate) fn next_word(bytes: &[u8]) -> Next<'_>
    ensures { IsNext bytes.now result }
{
    let rest = without_blanks(bytes);
    if rest.is_empty() {
        Next::End
    } else if rest[0] == b'"' {
        quoted_word(&rest[1..])
    } else {
        bare_word(rest)
    }
}

/// The bytes from the first one on that is no blank.
fn without_blanks(bytes: &[u8]) -> &[u8]
    ensures same { words_from Between result.now ≡ words_from Between bytes.now }
    ensures shorter { length result.now ≤ length bytes.now }
    ensures begins { 0 < length result.now → is_blank (slice_index result.now 0) ≡ false }
{
    for (place, byte) in bytes.iter().enumerate() {
        if !is_blank(*byte) {
            return &bytes[place..];
        }
    }
    &[]
}

/// The word without quotes that these bytes begin with.
fn bare_word(bytes: &[u8]) -> Next<'_>
    requires { (0 < length bytes.now) × (is_plain (slice_index bytes.now 0) ≡ true) }
    ensures { IsNext bytes.now result }
{
    let length = memchr3(b' ', b'\t', b'"', bytes).unwrap_or(bytes.len());
    let (text, rest) = bytes.split_at(length);
    if !rest.is_empty() && rest[0] == b'"' {
        return Next::Bad;
    }
    Next::Found(WordText::Bare(text), rest)
}

/// The word in quotes that goes on so behind its first quote.
fn quoted_word(inside: &[u8]) -> Next<'_>
    ensures { IsNextInQuotes inside.now result }
{
    let Some(end) = closing_quote(inside) else {
        return Next::Bad;
    };
    let rest = &inside[end + 1..];
    if !rest.is_empty() && !is_blank(rest[0]) {
        return Next::Bad;
    }
    Next::Found(WordText::Inside(&inside[..end]), rest)
}

/// The place of the first quote that no backslash escapes.
fn closing_quote(inside: &[u8]) -> Option<usize>
    ensures { MatchOption result (words_from (Quoted []) inside.now ≡ None) (IsClosedAt inside.now) }
{
    let mut passed = 0;
    while let Some(run) = memchr2(b'"', b'\\', &inside[passed..]) {
        let place = passed + run;
        if inside[place] == b'"' {
            return Some(place);
        }
        if place + 1 == inside.len() {
            return None;
        }
        passed = place + 2;
    }
    None
}

/// The line without the carriage return that may stand at its end.
pub(crate) fn text_of_line(line: &[u8]) -> &[u8]
    ensures { result.now ≡ without_return line.now }
{
    if !line.is_empty() && line[line.len() - 1] == b'\r' {
        return &line[..line.len() - 1];
    }
    line
}

fn parted<'a>(alloc: Global, text: &'a [u8]) -> Result<Vec<LineWord<'a>>, WordsError>
    ensures { GivesWords (λ words. words.items) result (words_from Between text.now) }
{
    let mut words = Vec::new(alloc);
    let mut rest = text;
    loop {
        match next_word(rest) {
            Next::End => return Ok(words),
            Next::Bad => return Err(WordsError::BadQuoting),
            Next::Found(word, after) => {
                words.push(word.to_word(alloc)?)?;
                rest = after;
            }
        }
    }
}

/// The words of a line without its newline; one carriage return at its end is dropped.
///
/// Spaces and tabs part words. A word that begins with `"` runs to the next `"` that no backslash
/// escapes, and inside a backslash stands for the byte after it (MPD protocol reference 0.23,
/// "Requests"). Each word is a slice of the line, or has memory of its own where a backslash spelled it.
/// `BadQuoting` comes exactly where a line has no such reading, `NoMemory` only where memory was refused.
pub fn words<'a>(alloc: Global, line: &'a [u8]) -> Result<Vec<LineWord<'a>>, WordsError>
    // What is read is in the grammar.
    ensures grammar { IfOk result (λ words. AreWordsOfLine line.now words.items) }
    // What is in the grammar is read, and nothing else, unless memory runs out.
    ensures only { (words : List (List ℕ)) → AreWordsOfLine line.now words → GivesWords (λ words. words.items) result (Some words) }
    ensures bad_quoting { result ≡ Err WordsError.BadQuoting → (words : List (List ℕ)) → AreWordsOfLine line.now words → ⊥ }
    ensures exact { GivesWords (λ words. words.items) result (words_of line.now) }
{
    parted(alloc, text_of_line(line))
}
