// A pattern: read from its text, and looked for in others.
ghost use Rattle.std.specs.Prelude.{◌≡◌, ◌≤◌, min, Some, None, IfOk, if◌then◌else◌};
ghost use Rattle.regular_expr.specs.Marks.{is_behind, stands_in};
ghost use Rattle.regular_expr.specs.Reading.{whole};
ghost use Rattle.regular_expr.specs.Patterns.{is_pattern, is_found, visits_by};
ghost use Rattle.regular_expr.specs.Shape.{shape_of, leaves};
ghost use Rattle.regular_expr.specs.Gives.{Gives};

use crate::fault::Fault;
use crate::part::{Marks, Part};
use crate::place::Here;
use crate::reading::{MOST_BODIES, behind_flag, body_at, fitting};
use arrayvec::ArrayVec;
use std::alloc::{AllocError, Global};
use std::marker::Model;

/// A regular expression over bytes. Contracts see its text.
#[derive(Debug, Drop)]
pub struct Pattern {
    source: Vec<u8>,
    caseless: bool,
    root: Part,
}

impl Model for Pattern {
    ghost use Rattle.std.specs.Prelude.{◌≡◌, ℕ, List, Some};
    ghost use Rattle.regular_expr.specs.Reading.{pattern_in};
    ghost use Rattle.regular_expr.specs.Shape.{shape_of};

    ghost Value = { List ℕ };

    ghost view = { λ p. p.source.items };

    ghost invariant = { λ p. pattern_in p.source.items ≡ Some (record { caseless = p.caseless; shape = shape_of p.root }) };
}

impl Pattern {
    /// The pattern that a text spells, if it is one: in PCRE2's syntax, as far as the README names it, with at most 16 parentheses open at
    /// once, 512 leaves (bytes, classes and places, where what is repeated counts as often) and 255 repetitions by a number. It takes time
    /// with the text's length, and memory for each leaf and each range of a class.
    #[tactic(auto, unfolding(crate::specs::Patterns::is_pattern, crate::specs::Reading::pattern_in))]
    pub fn parse(alloc: Global, text: &[u8]) -> Result<Option<Pattern>, AllocError>
        ensures { IfOk result (λ pattern. pattern ≡ (if is_pattern text.now then Some text.now else None)) }
    {
        let (caseless, rest) = match behind_flag(text) {
            Some(rest) => (true, rest),
            None => (false, text),
        };
        let root = match whole(alloc, rest) {
            Ok(root) => root,
            Err(Fault::NoPattern) => return Ok(None),
            Err(Fault::NoMemory) => return Err(AllocError),
        };
        let mut source = Vec::new(alloc);
        source.extend_from_slice(text)?;
        Ok(Some(Pattern {
            source,
            caseless,
            root,
        }))
    }

    /// Whether it stands somewhere in a text; where the case doesn't count, ASCII letters of any case are the same. It takes no memory,
    /// and time in proportion to the text's length and to `visits`.
    #[tactic(auto, unfolding(crate::specs::Patterns::is_found))]
    pub fn is_found(&self, fold: bool, text: &[u8]) -> bool
        ensures { result ≡ is_found fold self.now text.now }
    {
        stands_in(&self.root, fold || self.caseless, text)
    }

    /// How many of its leaves are looked at for a byte of a text, of a set its ranges, and each once more for each `+` or `*` around it;
    /// counted up to 65535.
    #[tactic(auto, unfolding(crate::specs::Patterns::visits_by))]
    pub fn visits(&self) -> u32
        ensures { result ≡ min (visits_by self.now) 65535 }
    {
        self.root.visits(1)
    }

    /// Its text.
    pub fn source(&self) -> &[u8]
        ensures { result.now ≡ self.now }
    {
        &self.source
    }
}

/// All of a text, and not too large.
#[tactic(auto, unfolding(crate::specs::Reading::whole))]
fn whole(alloc: Global, text: &[u8]) -> Result<Part, Fault>
    ensures { Gives shape_of result (whole text.now) }
{
    let (root, rest) = body_at(alloc, MOST_BODIES, text)?;
    if !rest.is_empty() {
        return Err(Fault::NoPattern);
    }
    fitting(root)
}

/// Whether a part stands somewhere in a text.
#[tactic(auto, unfolding(crate::specs::Marks::is_behind))]
fn stands_in(root: &Part, fold: bool, text: &[u8]) -> bool
    requires { leaves (shape_of root.now) ≤ 512 }
    ensures { result ≡ stands_in fold (shape_of root.now) text.now }
{
    let mut before = None;
    let mut marks = Marks::new();
    let mut next = Marks::new();
    for byte in text {
        let here = Here {
            fold,
            before,
            next: Some(*byte),
        };
        next.clear();
        if root.step(here, true, &marks, &mut next).0 {
            return true;
        }
        // Of the marks as many are copied as there are leaves.
        marks.clear();
        if marks.try_extend_from_slice(&next).is_err() {
            unreachable!();
        }
        before = Some(*byte);
    }
    let here = Here {
        fold,
        before,
        next: None,
    };
    root.ends(here, true, &marks).0
}
