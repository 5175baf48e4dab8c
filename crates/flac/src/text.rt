// Printable texts.
ghost use Rattle.std.specs.Prelude.{◌≡◌, option_copied, Some, None, if◌then◌else◌};
ghost use Rattle.flac.specs.Comments.{is_printable};

use std::str;

/// Whether all bytes are printable ASCII.
fn is_printable(bytes: &[u8]) -> bool
    ensures { result ≡ is_printable bytes.now }
{
    bytes.iter().all(|b| *b >= 32 && *b <= 126)
}

/// The text of these bytes, if all are printable ASCII.
pub fn printable_text(bytes: &[u8]) -> Option<&str>
    ensures { option_copied result ≡ (if is_printable bytes.now then Some bytes.now else None) }
{
    if !is_printable(bytes) {
        return None;
    }
    match str::from_utf8(bytes) {
        Ok(text) => Some(text),
        Err(_) => None,
    }
}
