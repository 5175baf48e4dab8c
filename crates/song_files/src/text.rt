// The texts that tags may have.
ghost use Rattle.std.specs.Prelude.{◌≡◌, IfSome, IsTrue, option_copied};
ghost use Rattle.song_files.specs.Text.{has_control, is_tag_text, text_or_none};

use std::str;

/// How many bytes of UTF-8 the text of a tag may have.
pub const MAX_TAG_BYTES: usize = 512;

/// The text of a tag that stands in these bytes, if they have the form of one: 1 to 512 bytes of UTF-8 without a control character.
pub fn tag_text(bytes: &[u8]) -> Option<&str>
    ensures text { option_copied result ≡ text_or_none bytes.now }
    ensures good { IfSome result (λ text. IsTrue (is_tag_text text.now)) }
{
    if bytes.is_empty() || bytes.len() > MAX_TAG_BYTES {
        return None;
    }
    let Ok(text) = str::from_utf8(bytes) else {
        return None;
    };
    if has_control(text) {
        return None;
    }
    Some(text)
}

/// Whether a text has the form of a tag's: 1 to 512 bytes without a control character.
pub fn is_tag_text(text: &str) -> bool
    ensures { result ≡ is_tag_text text.now }
{
    !text.is_empty() && text.len() <= MAX_TAG_BYTES && !has_control(text)
}

/// Whether a text has a control character (Unicode's category Cc).
pub fn has_control(text: &str) -> bool
    ensures { result ≡ has_control text.now }
{
    text.chars().any(|c| c.is_control())
}
