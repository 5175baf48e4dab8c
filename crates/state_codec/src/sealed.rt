// The bytes of a record's body and of a snapshot, with their checksum behind them where the profile asks for one.
ghost use Rattle.std.specs.Prelude.{◌≡◌};
ghost use Rattle.state_codec.specs.Sealed.{checksum_len, unsealed, GivesFront};

use crate::checksum::checksum_of;
use profile::Profile;

// How many bytes a checksum takes.
const CHECKSUM_LEN: usize = 4;

/// How many bytes the checksum at the end of a record's body and of a snapshot takes: 0, or 4.
pub fn checksum_len(profile: Profile) -> usize
    ensures { result ≡ checksum_len profile }
{
    match profile {
        Profile::Named => 0,
        Profile::Wide => CHECKSUM_LEN,
    }
}

/// The bytes in front of their checksum. A checksum that isn't theirs, or none, is told by its offset.
pub(crate) fn unsealed(profile: Profile, bytes: &[u8]) -> Result<&[u8], usize>
    ensures { GivesFront result (unsealed profile bytes.now) }
{
    match profile {
        Profile::Named => Ok(bytes),
        Profile::Wide => checked(bytes),
    }
}

fn checked(bytes: &[u8]) -> Result<&[u8], usize>
    ensures { GivesFront result (unsealed Profile.Wide bytes.now) }
{
    let (front, sum) = bytes.split_at(bytes.len().saturating_sub(CHECKSUM_LEN));
    if sum != checksum_of(front).to_le_bytes().as_slice() {
        return Err(front.len());
    }
    Ok(front)
}
