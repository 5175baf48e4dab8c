// A filter's expression as a tree, and whether a song matches it.
ghost use Rattle.std.specs.Prelude.{◌≡◌, true, IfOk, IfSome, IsOk, option_map};
ghost use Rattle.filter_expr.specs.AsciiSong.{IsAsciiSong};
ghost use Rattle.filter_expr.specs.Meaning.{denotes, is_match, is_at};
ghost use Rattle.song_db.specs.Row.{Row};
ghost use Rattle.song_db.specs.Valued.{has_value};
ghost use Rattle.filter_expr.specs.Looks.{needed_value, needs_none, tests_by, tests_of};
ghost use Rattle.filter_expr.specs.Tree.{tree_of};
ghost use Rattle.filter_expr.specs.declared.case.Case.TheVariants.{Exact, Folded};

use crate::fallback::has_fallback;
use crate::folded_row::FoldedRow;
use crate::row_text::{does_hold_exact, does_match, has_format, is_at};
use crate::subject::{AudioFormat, Comparison, Subject};
use crate::time::{is_since, known_time};
use crate::value::TestValue;
use regular_expr::Pattern;
use song_db::SongRow;
use song_files::Tag;
use std::alloc::{AllocError, Global};

/// What a filter says. A list of three or more that hold is kept as the last of them beside the others.
#[derive(Debug, Drop)]
pub(crate) enum Expression {
    Test(Subject, Comparison, TestValue),
    Like(Subject, Pattern),
    Base(String),
    Since(u64),
    Format(AudioFormat),
    Not(Box<Expression>),
    And(Box<Expression>, Box<Expression>),
}

/// Whether a song has no value that the test needs.
fn needs_none(comparison: Comparison) -> bool
    ensures { result ≡ needs_none comparison }
{
    match comparison {
        Comparison::Contains | Comparison::Begins => true,
        Comparison::Equals | Comparison::Pair | Comparison::WidePair => false,
    }
}

/// A test for each leaf of a pattern that is looked at for a byte, and one at least.
fn tests_by(pattern: &Pattern) -> u32
    ensures { result ≡ tests_by pattern.now }
{
    pattern.visits().max(1)
}

impl Expression {
    /// Whether the song is among those denoted, where the case counts.
    pub(crate) fn matches_exact(&self, row: &SongRow) -> bool
        ensures { result ≡ is_match Exact (tree_of self.now) row.now }
    {
        let mut left = self;
        while let Expression::And(others, last) = left {
            if !last.matches_exact(row) {
                return false;
            }
            left = others;
        }
        match left {
            Expression::Test(subject, comparison, value) => {
                does_hold_exact(*subject, *comparison, value, row)
            }
            Expression::Like(subject, pattern) => does_match(false, *subject, pattern, row),
            Expression::Base(base) => is_at(base.as_str(), row.uri()),
            Expression::Since(time) => is_since(*time, known_time(row.stamp())),
            Expression::Format(format) => has_format(*format, row),
            Expression::Not(inner) => !inner.matches_exact(row),
            Expression::And(_, _) => unreachable!(),
        }
    }

    /// A tag and a value that each song denoted where the case counts has: the expression, or a part of its outermost `AND`, says so.
    /// Where the texts of other tags may stand in for a tag's, there is none.
    pub(crate) fn needed_value(&self) -> Option<(Tag, &TestValue)>
        ensures value { option_map (λ needed. (needed.0, needed.1.now)) result ≡ needed_value (tree_of self.now) }
        ensures all { IfSome result (λ needed. (row : Row) → is_match Exact (tree_of self.now) row ≡ true
            → has_value needed.0 needed.1.now row ≡ true) }
    {
        let mut left = self;
        while let Expression::And(others, last) = left {
            if let Some(needed) = last.needed_value() {
                return Some(needed);
            }
            left = others;
        }
        match left {
            Expression::Test(Subject::OfTag(tag), comparison, value) => {
                if needs_none(*comparison) || value.text().is_empty() {
                    return None;
                }
                if has_fallback(*tag) {
                    return None;
                }
                Some((*tag, value))
            }
            _ => None,
        }
    }

    /// The same where the case doesn't count. It folds each text of the song that it needs, once.
    pub(crate) fn matches_folded(
        &self,
        alloc: Global,
        row: &mut FoldedRow<'_>,
    ) -> Result<bool, AllocError>
        ensures member { IfOk result (λ matched. matched ≡ denotes Folded (tree_of self.now) row.old) }
        ensures same { row.new ≡ row.old }
        ensures ascii { IsAsciiSong row.old → IsOk result }
    {
        let mut left = self;
        while let Expression::And(others, last) = left {
            if !last.matches_folded(alloc, row)? {
                return Ok(false);
            }
            left = others;
        }
        match left {
            Expression::Test(subject, comparison, value) => {
                row.does_hold(alloc, *subject, *comparison, value)
            }
            Expression::Like(subject, pattern) => {
                Ok(does_match(true, *subject, pattern, row.row()))
            }
            Expression::Base(base) => Ok(is_at(base.as_str(), row.path())),
            Expression::Since(time) => Ok(is_since(*time, row.modified())),
            Expression::Format(format) => Ok(has_format(*format, row.row())),
            Expression::Not(inner) => Ok(!inner.matches_folded(alloc, row)?),
            Expression::And(_, _) => unreachable!(),
        }
    }

    /// How many tests it has, counted up to 4294967295.
    pub(crate) fn tests(&self) -> u32
        ensures { result ≡ tests_of (tree_of self.now) }
    {
        match self {
            Expression::Test(_, _, _)
            | Expression::Base(_)
            | Expression::Since(_)
            | Expression::Format(_) => 1,
            Expression::Like(_, pattern) => tests_by(pattern),
            Expression::Not(inner) => inner.tests(),
            Expression::And(others, last) => others.tests().saturating_add(last.tests()),
        }
    }
}
