// The taking of an answer.
ghost use Rattle.std.specs.Prelude.{◌≡◌, ◌≢◌, ◌+◌, ◌<◌, ◌≤◌, ◌^◌, ◌∷◌, ℕ, List, [], length, take, drop, IfOk, IfErr, OnOk};
ghost use Rattle.decoded_files.specs.Frames.{frame};
ghost use Rattle.decoded_files.specs.Kept.{KeepsLink};

use crate::{DecoderError, DecoderLink};

/// An answer's status, and how many bytes stand behind it.
#[derive(Clone, Copy)]
pub(crate) struct Answer {
    pub(crate) status: u8,
    pub(crate) len: usize,
}

/// Takes an answer into the front of the room: its status, and at most so many bytes behind it. One that is empty or longer is none.
pub(crate) fn take_answer<L: DecoderLink>(
    link: &mut L,
    room: &mut [u8],
    most: usize,
) -> Result<Answer, DecoderError>
    requires { most < length room.old }
    ensures only { IfErr result (λ error. error ≢ DecoderError.NoSong) }
    ensures few { IfOk result (λ answer. answer.len ≤ most) }
    ensures taken { L.honest link.old → (body : List ℕ) → length body < 2 ^ 32 → L.coming link.old ≡ frame body →
        IfOk result (λ answer. body ≡ answer.status ∷ take answer.len (drop 1 room.new)) }
    ensures whole { L.honest link.old → (body : List ℕ) → length body < 2 ^ 32 → L.coming link.old ≡ frame body →
        OnOk result (L.coming link.new ≡ []) }
    ensures kept { L.honest link.old → KeepsLink L.honest L.told L.opened link.old link.new }
{
    let size = take_frame(link, &mut room[..most + 1])?;
    Ok(Answer {
        status: room[0],
        len: size - 1,
    })
}

// Takes a frame into the front of the room, and says how many bytes it has.
fn take_frame<L: DecoderLink>(link: &mut L, room: &mut [u8]) -> Result<usize, DecoderError>
    ensures only { IfErr result (λ error. error ≢ DecoderError.NoSong) }
    ensures some { IfOk result (λ n. 0 < n) }
    ensures within { IfOk result (λ n. n ≤ length room.old) }
    ensures taken { L.honest link.old → (body : List ℕ) → length body < 2 ^ 32 → L.coming link.old ≡ frame body →
        IfOk result (λ n. take n room.new ≡ body) }
    ensures whole { L.honest link.old → (body : List ℕ) → length body < 2 ^ 32 → L.coming link.old ≡ frame body →
        OnOk result (L.coming link.new ≡ []) }
    ensures kept { L.honest link.old → KeepsLink L.honest L.told L.opened link.old link.new }
{
    let mut size = [0u8; 4];
    link.receive(&mut size)?;
    let size = u32::from_le_bytes(size) as usize;
    if size == 0 || size > room.len() {
        return Err(DecoderError::BadAnswer);
    }
    link.receive(&mut room[..size])?;
    Ok(size)
}
