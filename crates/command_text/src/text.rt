// A word of a line that is UTF-8.
ghost use Rattle.std.specs.Prelude.{◌≡◌, true, false, MatchOption};
ghost use Rattle.std.specs.Str.{is_utf8};

use std::marker::Model;

/// A text of a command, where it stands in the words of its line. Contracts see its bytes.
#[derive(Debug, Drop)]
pub struct Text<'w> {
    text: &'w str,
}

impl<'w> Model for Text<'w> {
    ghost use Rattle.std.specs.Prelude.{ℕ, List};

    ghost Value = { List ℕ };

    ghost view = { λ t. t.text.now };
}

impl<'w> Text<'w> {
    pub fn new(text: &'w str) -> Self
        ensures { result ≡ text.now }
    {
        Text { text }
    }

    pub fn as_str(&self) -> &'w str
        ensures { result.now ≡ self.now }
    {
        self.text
    }
}

/// The text of these bytes, if they are UTF-8.
pub(crate) fn utf8(bytes: &[u8]) -> Option<&str>
    ensures { MatchOption result (is_utf8 bytes.now ≡ false) (λ text. (text.now ≡ bytes.now) × (is_utf8 bytes.now ≡ true)) }
{
    match str::from_utf8(bytes) {
        Ok(text) => Some(text),
        Err(_) => None,
    }
}
