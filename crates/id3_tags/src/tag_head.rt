// The head of a tag.
ghost use Rattle.std.specs.Prelude.{◌≡◌, ◌≤◌, ◌<◌, ◌^◌, length, IfSome};
ghost use Rattle.id3_tags.specs.TagHead.{has_safe_size, is_head, head_in};

use crate::numbers::{has_flag, synchsafe_at};

/// How many bytes the head of a tag has.
pub const HEAD_LEN: u64 = 10;

/// What the head of a tag tells.
#[derive(Clone, Copy, Debug)]
pub struct TagHead {
    /// 2, 3 or 4.
    pub version: u8,
    pub flags: u8,
    /// How many bytes follow the head.
    pub size: u64,
}

/// Whether the size is synchsafe.
fn has_safe_size(bytes: &[u8]) -> bool
    requires { length bytes.now ≡ 10 }
    ensures { result ≡ has_safe_size bytes.now }
{
    bytes[6] < 128 && bytes[7] < 128 && bytes[8] < 128 && bytes[9] < 128
}

/// Whether these bytes are the head of a tag.
fn is_head(bytes: &[u8]) -> bool
    requires { length bytes.now ≡ 10 }
    ensures { result ≡ is_head bytes.now }
{
    &bytes[..3] == b"ID3".as_slice()
        && bytes[3] >= 2
        && bytes[3] <= 4
        && bytes[4] < 255
        && has_safe_size(bytes)
}

/// The head of a tag in these bytes, if they are one.
pub fn head_in(bytes: &[u8]) -> Option<TagHead>
    requires { length bytes.now ≡ 10 }
    ensures head { result ≡ head_in bytes.now }
    ensures version { IfSome result (λ head. (2 ≤ head.version) × (head.version ≤ 4)) }
    ensures size { IfSome result (λ head. head.size < 2 ^ 32) }
{
    if !is_head(bytes) {
        return None;
    }
    Some(TagHead {
        version: bytes[3],
        flags: bytes[5],
        size: synchsafe_at(6, bytes),
    })
}
