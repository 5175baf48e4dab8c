// Whether a song's texts pass a test as they stand, with their case.
ghost use Rattle.std.specs.Prelude.{◌≡◌};
ghost use Rattle.std.specs.List.{list_any};
ghost use Rattle.filter_expr.specs.Looked.{is_found_of, is_like_of};
ghost use Rattle.filter_expr.specs.Meaning.{begins_with, is_absent, is_like, occurs_in, holds_empty, equals_empty, passes_empty, song_of};
ghost use Rattle.filter_expr.specs.Meaning.{texts_for, passes_like, does_hold, has_format, is_at};
ghost use Rattle.filter_expr.specs.declared.case.Case.{Case};
ghost use Rattle.filter_expr.specs.declared.case.Case.TheVariants.{Exact};

use crate::case::Case;
use crate::fallback::told_tag;
use crate::subject::{AudioFormat, Comparison, Subject};
use crate::value::TestValue;
use memchr::memmem;
use regular_expr::Pattern;
use song_db::{Place, SongRow};
use song_files::Tags;

/// Whether the part stands somewhere in the text.
pub(crate) fn occurs_in(part: &str, text: &str) -> bool
    ensures { result ≡ occurs_in part.now text.now }
{
    memmem::find(text.as_bytes(), part.as_bytes()).is_some()
}

/// Whether the text begins with the part.
pub(crate) fn begins_with(part: &str, text: &str) -> bool
    ensures { result ≡ begins_with part.now text.now }
{
    text.as_bytes().starts_with(part.as_bytes())
}

/// Whether a text is like a value that isn't empty where the case counts.
fn is_like_exact(comparison: Comparison, value: &str, text: &str) -> bool
    ensures { result ≡ is_like Exact comparison value.now text.now }
{
    match comparison {
        Comparison::Equals | Comparison::Pair | Comparison::WidePair => text == value,
        Comparison::Contains => occurs_in(value, text),
        Comparison::Begins => begins_with(value, text),
    }
}

// Whether the empty value is contained: where all texts are looked at as texts alone, in one of them.
fn holds_empty(subject: Subject, row: &SongRow) -> bool
    ensures { result ≡ holds_empty subject (texts_for subject (song_of row.now)) }
{
    subject != Subject::AnyText || !is_absent(subject, row)
}

// Whether the empty value is equal: where there is no text, but no text among others is missing.
fn equals_empty(subject: Subject, row: &SongRow) -> bool
    ensures { result ≡ equals_empty subject (texts_for subject (song_of row.now)) }
{
    subject != Subject::AnyText && is_absent(subject, row)
}

/// Whether the empty value passes.
pub(crate) fn passes_empty(
    case: Case,
    subject: Subject,
    comparison: Comparison,
    row: &SongRow,
) -> bool
    ensures { result ≡ passes_empty case subject comparison (texts_for subject (song_of row.now)) }
{
    match comparison {
        Comparison::Equals | Comparison::Pair => equals_empty(subject, row),
        Comparison::Contains | Comparison::Begins => holds_empty(subject, row),
        Comparison::WidePair if case == Case::Exact => equals_empty(subject, row),
        Comparison::WidePair => holds_empty(subject, row),
    }
}

// Whether the song has no text that a test looks at.
fn is_absent(subject: Subject, row: &SongRow) -> bool
    ensures { result ≡ is_absent (texts_for subject (song_of row.now)) }
{
    match subject {
        Subject::OfTag(tag) => row.tag(told_tag(row.tags(), tag)).is_none(),
        Subject::Any | Subject::AnyText => row.tags().is_empty(),
        Subject::File => false,
    }
}

/// Whether a song passes a test where the case counts.
pub(crate) fn does_hold_exact(
    subject: Subject,
    comparison: Comparison,
    value: &TestValue,
    row: &SongRow,
) -> bool
    ensures { result ≡ does_hold Exact subject comparison value.now (song_of row.now) }
{
    if value.text().is_empty() {
        return passes_empty(Case::Exact, subject, comparison, row);
    }
    match subject {
        Subject::File => is_like_exact(comparison, value.text(), row.uri()),
        _ => {
            let tags = row.tags();
            one_is_like(subject.told(tags), comparison, value.text(), tags)
        }
    }
}

// Whether one of the texts of the subject's tags is like a value that isn't empty.
fn one_is_like(subject: Subject, comparison: Comparison, value: &str, tags: &Tags) -> bool
    ensures { result ≡ list_any (is_like_of Exact subject comparison value.now) tags.now }
{
    for at in 0..tags.len() {
        let (tag, text) = tags.at(at);
        if subject.is_of(tag) && is_like_exact(comparison, value, text) {
            return true;
        }
    }
    false
}

/// Whether a song's texts match a pattern.
pub(crate) fn does_match(fold: bool, subject: Subject, pattern: &Pattern, row: &SongRow) -> bool
    ensures { result ≡ passes_like fold subject pattern.now (texts_for subject (song_of row.now)) }
{
    if pattern.source().is_empty() {
        return holds_empty(subject, row);
    }
    match subject {
        Subject::File => pattern.is_found(fold, row.uri().as_bytes()),
        _ => {
            let tags = row.tags();
            one_matches(fold, subject.told(tags), pattern, tags)
        }
    }
}

// Whether a pattern stands in one of the texts of the subject's tags.
fn one_matches(fold: bool, subject: Subject, pattern: &Pattern, tags: &Tags) -> bool
    ensures { result ≡ list_any (is_found_of fold subject pattern.now) tags.now }
{
    for at in 0..tags.len() {
        let (tag, text) = tags.at(at);
        if subject.is_of(tag) && pattern.is_found(fold, text.as_bytes()) {
            return true;
        }
    }
    false
}

/// Whether the song's sound is of a format.
pub(crate) fn has_format(format: AudioFormat, row: &SongRow) -> bool
    ensures { result ≡ has_format format (song_of row.now) }
{
    let info = row.info();
    format.is_of(u64::from(info.rate), u64::from(info.channels))
}

/// Whether the URI is the base or stands under it, or the base is empty.
pub(crate) fn is_at(base: &str, uri: &str) -> bool
    ensures { result ≡ is_at base.now uri.now }
{
    base.is_empty() || base == uri || Place::At(base).is_over(uri)
}
