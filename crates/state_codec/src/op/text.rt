// A text as an op has it: UTF-8 of a bounded length.
ghost use Rattle.std.specs.Prelude.{◌≡◌, IfOk, IsTrue, Some, None, if◌then◌else◌};
ghost use Rattle.std.specs.Str.{is_utf8};
ghost use Rattle.state_codec.specs.Text.{is_text};

use std::alloc::{AllocError, Global};
use std::marker::Model;

/// How many bytes a text of an op may have.
pub const MAX_TEXT_BYTES: usize = 65_535;

/// A text of at most 65,535 bytes of UTF-8, as the stored form has them. Whether a playlist or a sticker may have the name
/// isn't known here.
#[derive(Debug, Drop)]
pub struct Text {
    text: String,
}

impl Model for Text {
    ghost use Rattle.std.specs.Prelude.{ℕ, List, IsTrue, string_bytes};
    ghost use Rattle.state_codec.specs.Text.{is_text};

    ghost Value = { List ℕ };

    ghost view = { λ t. string_bytes t.text };

    ghost invariant = { λ t. IsTrue (is_text (string_bytes t.text)) };
}

impl Text {
    /// A text in memory of its own; `None` where it is too long.
    pub fn read(alloc: Global, text: &str) -> Result<Option<Text>, AllocError>
        ensures { IfOk result (λ made. made ≡ (if is_text text.now then Some text.now else None)) }
    {
        if !is_text(text) {
            return Ok(None);
        }
        let text = String::from_str(alloc, text)?;
        Ok(Some(Text { text }))
    }

    pub fn as_str(&self) -> &str
        ensures text { result.now ≡ self.now }
        ensures form { IsTrue (is_text self.now) }
    {
        self.text.as_str()
    }

    /// The same text once more, in memory of its own.
    pub fn try_clone(&self, alloc: Global) -> Result<Text, AllocError>
        ensures { IfOk result (λ text. text ≡ self.now) }
    {
        Ok(Text {
            text: String::from_str(alloc, self.text.as_str())?,
        })
    }
}

/// Whether an op may have the text: at most 65,535 bytes.
pub fn is_text(text: &str) -> bool
    ensures { result ≡ is_text text.now }
{
    text.len() <= MAX_TEXT_BYTES
}

// A text is UTF-8.
pub(crate) fn keep_utf8(text: &str)
    ensures { IsTrue (is_utf8 text.now) }
{
    let _len = text.len();
}
