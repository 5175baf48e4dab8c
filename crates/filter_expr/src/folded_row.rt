// A song's texts without case, folded when one is asked for, and whether they pass a test.
ghost use Rattle.std.specs.Prelude.{◌≡◌, Bool, IfOk, IfSome, IsOk, IsAscii};
ghost use Rattle.std.specs.List.{list_any};
ghost use Rattle.filter_expr.specs.AsciiSong.{IsAsciiSong};
ghost use Rattle.filter_expr.specs.Folding.{folded};
ghost use Rattle.filter_expr.specs.Looked.{is_like_of};
ghost use Rattle.filter_expr.specs.Meaning.{compared, is_like, song_of, does_hold};
ghost use Rattle.filter_expr.specs.declared.case.Case.TheVariants.{Folded};

use crate::case::Case;
use crate::lowered::compare_ascii;
use crate::row_text::{begins_with, occurs_in, passes_empty};
use crate::subject::{Comparison, Subject};
use crate::time::known_time;
use crate::value::{TestValue, fold};
use song_db::SongRow;
use std::alloc::{AllocError, Global};
use std::marker::Model;

/// A text, and what it folds to.
#[derive(Debug, Drop)]
struct FoldedText<'a> {
    text: &'a str,
    folds_to: String,
}

impl<'a> Model for FoldedText<'a> {
    ghost use Rattle.std.specs.Prelude.{◌≡◌, ℕ, List, string_bytes};
    ghost use Rattle.filter_expr.specs.Folding.{folded};

    ghost Value = { List ℕ };

    ghost view = { λ t. t.text.now };

    ghost invariant = { λ t. string_bytes t.folds_to ≡ folded t.text.now };
}

impl<'a> FoldedText<'a> {
    fn new(alloc: Global, text: &'a str) -> Result<Self, AllocError>
        ensures { IfOk result (λ new. new ≡ text.now) }
    {
        let folds_to = fold(alloc, text)?;
        Ok(FoldedText { text, folds_to })
    }

    fn text(&self) -> &str
        ensures { result.now ≡ self.now }
    {
        self.text
    }

    fn folded(&self) -> &str
        ensures { result.now ≡ folded self.now }
    {
        self.folds_to.as_str()
    }
}

/// Whether a folded text passes against a folded value that isn't empty.
fn compare(comparison: Comparison, value: &str, text: &str) -> bool
    ensures { result ≡ compared comparison value.now text.now }
{
    match comparison {
        Comparison::Equals => text == value,
        Comparison::Contains | Comparison::Pair | Comparison::WidePair => occurs_in(value, text),
        Comparison::Begins => begins_with(value, text),
    }
}

/// Texts that were folded. One alone takes no memory of its own.
#[derive(Debug, Drop)]
struct FoldedTexts<'a> {
    first: Option<FoldedText<'a>>,
    others: Vec<FoldedText<'a>>,
}

impl<'a> FoldedTexts<'a> {
    // What a text folds to, if it was folded.
    fn folded(&self, text: &str) -> Option<&str>
        ensures { IfSome result (λ folds_to. folds_to.now ≡ folded text.now) }
    {
        if let Some(first) = &self.first
            && first.text() == text
        {
            return Some(first.folded());
        }
        for other in &self.others {
            if other.text() == text {
                return Some(other.folded());
            }
        }
        None
    }

    fn keep(&mut self, folded: FoldedText<'a>) -> Result<(), AllocError> {
        if self.first.is_none() {
            self.first = Some(folded);
            return Ok(());
        }
        self.others.push(folded)?;
        Ok(())
    }
}

/// A song, and its texts that had to be folded, each once. A text that is plain ASCII is compared where it stands.
#[derive(Debug, Drop)]
pub(crate) struct FoldedRow<'a> {
    row: &'a SongRow,
    texts: FoldedTexts<'a>,
}

impl<'a> Model for FoldedRow<'a> {
    ghost use Rattle.filter_expr.specs.Meaning.{Song, song_of};

    ghost Value = { Song };

    ghost view = { λ r. song_of r.row.now };
}

impl<'a> FoldedRow<'a> {
    pub(crate) fn new(alloc: Global, row: &'a SongRow) -> Self
        ensures { result ≡ song_of row.now }
    {
        FoldedRow {
            row,
            texts: FoldedTexts {
                first: None,
                others: Vec::new(alloc),
            },
        }
    }

    pub(crate) fn row(&self) -> &SongRow
        ensures { song_of result.now ≡ self.now }
    {
        self.row
    }

    /// The URI of the song.
    pub(crate) fn path(&self) -> &str
        ensures { result.now ≡ self.now.uri }
    {
        self.row.uri()
    }

    /// When the song's file was changed last, where that is known.
    pub(crate) fn modified(&self) -> Option<u64>
        ensures { result ≡ self.now.modified }
    {
        known_time(self.row.stamp())
    }

    /// Whether the song passes a test where the case doesn't count.
    pub(crate) fn does_hold(
        &mut self,
        alloc: Global,
        subject: Subject,
        comparison: Comparison,
        value: &TestValue,
    ) -> Result<bool, AllocError>
        ensures member { IfOk result (λ passed. passed ≡ does_hold Folded subject comparison value.now self.old) }
        ensures same { self.new ≡ self.old }
        ensures ascii { IsAsciiSong self.old → IsOk result }
    {
        if value.text().is_empty() {
            return Ok(passes_empty(Case::Folded, subject, comparison, self.row));
        }
        let row = self.row;
        match subject {
            Subject::File => self.is_like(alloc, comparison, value, row.uri()),
            _ => {
                let told = subject.told(row.tags());
                self.one_is_like(alloc, told, comparison, value)
            }
        }
    }

    // Whether one of the texts of the subject's tags is like a value that isn't empty.
    fn one_is_like(
        &mut self,
        alloc: Global,
        subject: Subject,
        comparison: Comparison,
        value: &TestValue,
    ) -> Result<bool, AllocError>
        ensures member { IfOk result (λ found. found ≡ list_any (is_like_of Folded subject comparison value.now) self.old.tags) }
        ensures same { self.new ≡ self.old }
        ensures ascii { IsAsciiSong self.old → IsOk result }
    {
        let tags = self.row.tags();
        for at in 0..tags.len() {
            let (tag, text) = tags.at(at);
            if subject.is_of(tag) && self.is_like(alloc, comparison, value, text)? {
                return Ok(true);
            }
        }
        Ok(false)
    }

    // Whether one of the song's texts is like a value that isn't empty. It is folded, unless it was.
    fn is_like(
        &mut self,
        alloc: Global,
        comparison: Comparison,
        value: &TestValue,
        text: &'a str,
    ) -> Result<bool, AllocError>
        ensures member { IfOk result (λ like. like ≡ is_like Folded comparison value.now text.now) }
        ensures same { self.new ≡ self.old }
        ensures ascii { IsAscii text.now → IsOk result }
    {
        if text.is_ascii() {
            return Ok(compare_ascii(comparison, value.folded(), text));
        }
        if let Some(folded) = self.texts.folded(text) {
            return Ok(compare(comparison, value.folded(), folded));
        }
        let folded = FoldedText::new(alloc, text)?;
        let like = compare(comparison, value.folded(), folded.folded());
        self.texts.keep(folded)?;
        Ok(like)
    }
}
