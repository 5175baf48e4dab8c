// A word of a line, lent or of its own.
ghost use Rattle.std.specs.Prelude.{◌≡◌};

use std::marker::Model;

/// A word of a line (MPD protocol reference 0.23, "Requests"): a slice of the line, or in memory of its own where it was spelled with
/// a backslash. Contracts see its bytes.
#[derive(Debug, Drop)]
pub struct LineWord<'a> {
    kept: WordBytes<'a>,
}

/// Where the bytes of a word stand.
#[derive(Debug, Drop)]
pub(crate) enum WordBytes<'a> {
    InLine(&'a [u8]),
    Unescaped(Vec<u8>),
}

impl<'a> Model for LineWord<'a> {
    ghost use Rattle.std.specs.Prelude.{ℕ, List};
    ghost use Rattle.filter_expr.specs.LineWord.{bytes_of};

    ghost Value = { List ℕ };

    ghost view = { λ w. bytes_of w.kept };
}

impl<'a> LineWord<'a> {
    /// The word of these bytes, where they stand.
    pub fn from_slice(bytes: &'a [u8]) -> Self
        ensures { result ≡ bytes.now }
    {
        LineWord {
            kept: WordBytes::InLine(bytes),
        }
    }

    /// The word of these bytes, in their own memory.
    pub fn from_vec(bytes: Vec<u8>) -> Self
        ensures { result ≡ bytes.items }
    {
        LineWord {
            kept: WordBytes::Unescaped(bytes),
        }
    }

    pub fn bytes(&self) -> &[u8]
        ensures { result.now ≡ self.now }
    {
        match &self.kept {
            WordBytes::InLine(bytes) => bytes,
            WordBytes::Unescaped(bytes) => bytes.as_slice(),
        }
    }
}
