// What stands behind ops and behind a snapshot, appended to room that was taken before.
ghost use Rattle.std.specs.Prelude.{◌≡◌, ◌≤◌, ◌++◌, drop, take, length, vec_len, vec_capacity};
ghost use Rattle.state_codec.specs.Appended.{HasRoom};
ghost use Rattle.state_codec.specs.Checksum.{checksum_of};
ghost use Rattle.state_codec.specs.Sealed.{sealed, checksum_len};

use super::bytes::put_u32;
use crate::checksum::checksum_of;
use profile::Profile;

// The checksum of the bytes from `start` on.
fn sum_from(bytes: &[u8], start: usize) -> u32
    requires { start ≤ length bytes.now }
    ensures { result ≡ checksum_of (drop start bytes.now) }
{
    checksum_of(&bytes[start..])
}

/// Appends the checksum of the bytes from `start` on, where the profile asks for one.
pub(crate) fn put_sum(out: &mut Vec<u8>, profile: Profile, start: usize)
    requires within { start ≤ vec_len out.old }
    requires room { HasRoom out.old (checksum_len profile) }
    ensures items { out.new.items ≡ take start out.old.items ++ sealed profile (drop start out.old.items) }
    ensures capacity { vec_capacity out.new ≡ vec_capacity out.old }
{
    if let Profile::Wide = profile {
        let sum = sum_from(out.as_slice(), start);
        put_u32(out, sum);
    }
}
