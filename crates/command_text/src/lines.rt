// Lines of a request, one behind the other in one buffer.
ghost use Rattle.std.specs.Prelude.{◌≡◌, ◌≤◌, ◌∷◌, ◌++◌, [], length, None, IfSome, OnOk, OnErr};
ghost use Rattle.std.specs.List.{concat};
ghost use Rattle.command_text.specs.Lines.{cut, total};

use std::alloc::{AllocError, Global};
use std::marker::Model;

/// The lines of a command list, without those that begin and end it. They stand in one buffer, one behind the other.
#[derive(Debug, Drop)]
pub struct Lines {
    text: Vec<u8>,
    // The length of each line.
    lengths: Vec<usize>,
}

impl Model for Lines {
    ghost use Rattle.std.specs.Prelude.{◌≡◌, ℕ, List, length};
    ghost use Rattle.command_text.specs.Lines.{cut, total};

    ghost Value = { List (List ℕ) };

    ghost view = { λ l. cut l.lengths.items l.text.items };

    ghost invariant = { λ l. total l.lengths.items ≡ length l.text.items };
}

impl Lines {
    pub fn new(alloc: Global) -> Self
        ensures { result ≡ [] }
    {
        Lines {
            text: Vec::new(alloc),
            lengths: Vec::new(alloc),
        }
    }

    /// How many lines there are.
    pub fn len(&self) -> usize
        ensures { result ≡ length self.now }
    {
        self.lengths.len()
    }

    /// How many bytes they have together.
    pub fn byte_len(&self) -> usize
        ensures { result ≡ length (concat self.now) }
    {
        self.text.len()
    }

    /// Adds a line at the end. An `Err` leaves the lines as they were.
    pub fn push(&mut self, line: &[u8]) -> Result<(), AllocError>
        ensures ok { OnOk result (self.new ≡ self.old ++ line.now ∷ []) }
        ensures err { OnErr result (self.new ≡ self.old) }
    {
        self.lengths.reserve(1)?;
        self.text.extend_from_slice(line)?;
        self.lengths.push_reserved(line.len());
        Ok(())
    }

    /// All lines, where they stand.
    pub fn as_ref(&self) -> LinesRef<'_>
        ensures { result ≡ self.now }
    {
        LinesRef::cut(self.lengths.as_slice(), self.text.as_slice())
    }
}

/// Lines where they stand, to be taken from the front.
#[derive(Drop)]
pub struct LinesRef<'a> {
    first: Option<&'a [u8]>,
    // The lengths of the lines behind the first, and their bytes.
    lengths: &'a [usize],
    text: &'a [u8],
}

impl<'a> Model for LinesRef<'a> {
    ghost use Rattle.std.specs.Prelude.{ℕ, List, ◌++◌, length, ◌≤◌};
    ghost use Rattle.command_text.specs.Lines.{cut, opt_line, AreBehind};

    ghost Value = { List (List ℕ) };

    ghost view = { λ l. opt_line l.first ++ cut l.lengths.now l.text.now };

    ghost invariant = { λ l. AreBehind l.first l.lengths.now l.text.now };
}

impl<'a> LinesRef<'a> {
    /// One line alone.
    pub fn of_line(line: &'a [u8]) -> Self
        ensures { result ≡ line.now ∷ [] }
    {
        LinesRef {
            first: Some(line),
            lengths: &[],
            text: &[],
        }
    }

    // Lines of these lengths.
    fn cut(lengths: &'a [usize], text: &'a [u8]) -> Self
        requires { total lengths.now ≤ length text.now }
        ensures { result ≡ cut lengths.now text.now }
    {
        match lengths.split_first() {
            None => LinesRef {
                first: None,
                lengths: &[],
                text: &[],
            },
            Some((length, lengths)) => {
                let (first, text) = text.split_at(*length);
                LinesRef {
                    first: Some(first),
                    lengths,
                    text,
                }
            }
        }
    }

    /// How many lines there are.
    pub fn len(&self) -> usize
        ensures { result ≡ length self.now }
    {
        match self.first {
            None => 0,
            Some(_) => 1 + self.lengths.len(),
        }
    }

    /// The first line and those behind it; `None` where there is none.
    pub fn split_first(self) -> Option<(&'a [u8], LinesRef<'a>)>
        ensures first { IfSome result (λ parts. self.entry ≡ parts.0.now ∷ parts.1) }
        ensures none { result ≡ None → self.entry ≡ [] }
    {
        match self.first {
            None => None,
            Some(line) => Some((line, LinesRef::cut(self.lengths, self.text))),
        }
    }
}
