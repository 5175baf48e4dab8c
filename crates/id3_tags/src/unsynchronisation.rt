// Unsynchronisation undone.
ghost use Rattle.std.specs.Prelude.{◌≡◌, ◌+◌, ◌<◌, ◌≤◌, ◌∷◌, length, drop, slice_index, IfOk};
ghost use Rattle.id3_tags.specs.Unsynchronisation.{resynchronised};

use std::alloc::{AllocError, Global};

/// The bytes with the zero behind each byte 255 taken out.
pub fn resynchronised(alloc: Global, bytes: &[u8]) -> Result<Vec<u8>, AllocError>
    ensures { IfOk result (λ plain. plain.items ≡ resynchronised bytes.now) }
{
    let mut plain = Vec::with_capacity(alloc, bytes.len())?;
    let mut at = 0;
    'bytes: while at < bytes.len() {
        plain.push(bytes[at])?;
        at = next_byte(bytes, at);
    }
    Ok(plain)
}

/// The place behind a byte, and behind the zero that follows it if it is 255.
fn next_byte(bytes: &[u8], at: usize) -> usize
    requires { at < length bytes.now }
    ensures later { at + 1 ≤ result }
    ensures within { result ≤ length bytes.now }
    ensures rest { resynchronised (drop at bytes.now) ≡ slice_index bytes.now at ∷ resynchronised (drop result bytes.now) }
{
    if at + 1 < bytes.len() && bytes[at] == 255 && bytes[at + 1] == 0 {
        at + 2
    } else {
        at + 1
    }
}
