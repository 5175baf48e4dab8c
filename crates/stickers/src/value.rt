// The values that stickers may have.
ghost use Rattle.std.specs.Prelude.{◌≡◌, IsTrue, IfOk, Some, None, if◌then◌else◌};
ghost use Rattle.stickers.specs.Value.{is_good_value};

use crate::limits::MAX_VALUE_BYTES;
use std::alloc::{AllocError, Global};
use std::marker::Model;

/// The value of one sticker: at most 4,096 bytes of UTF-8.
#[derive(Debug, Drop)]
pub struct StickerValue {
    text: String,
}

impl Model for StickerValue {
    ghost use Rattle.std.specs.Prelude.{ℕ, List, IsTrue, string_bytes};
    ghost use Rattle.stickers.specs.Value.{is_good_value};

    ghost Value = { List ℕ };

    ghost view = { λ v. string_bytes v.text };

    ghost invariant = { λ v. IsTrue (is_good_value (string_bytes v.text)) };
}

impl StickerValue {
    /// The value that a text is; `None` where the text is too long.
    pub fn read(alloc: Global, text: &str) -> Result<Option<StickerValue>, AllocError>
        ensures { IfOk result (λ value. value ≡ (if is_good_value text.now then Some text.now else None)) }
    {
        if !is_good_value(text) {
            return Ok(None);
        }
        let text = String::from_str(alloc, text)?;
        Ok(Some(StickerValue { text }))
    }

    pub fn as_str(&self) -> &str
        ensures text { result.now ≡ self.now }
        ensures form { IsTrue (is_good_value self.now) }
    {
        self.text.as_str()
    }

    /// The same value once more, in memory of its own.
    pub fn try_clone(&self, alloc: Global) -> Result<StickerValue, AllocError>
        ensures { IfOk result (λ value. value ≡ self.now) }
    {
        Ok(StickerValue {
            text: String::from_str(alloc, self.text.as_str())?,
        })
    }
}

/// Whether a sticker may have the value: at most 4,096 bytes.
pub fn is_good_value(text: &str) -> bool
    ensures { result ≡ is_good_value text.now }
{
    text.len() <= MAX_VALUE_BYTES
}
