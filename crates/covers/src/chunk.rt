// One chunk of a picture.
ghost use Rattle.std.specs.Prelude.{◌≡◌, ◌+◌, ◌<◌, ◌≤◌, ◌^◌, length, slice_range, IfOk, IfErr};
ghost use Rattle.song_files.specs.Source.{Grows, Keeps};
ghost use Rattle.covers.specs.Chunks.{whole_file, picture_bytes, chunk_of};
ghost use Rattle.covers.specs.CoverError.{Fails};

use crate::CoverError;
use crate::limits::MAX_PICTURE_LEN;
use crate::place::PicturePlace;
use song_files::{Source, read_exact};
use std::alloc::Global;

/// A file of this length as a picture; `None` where it has more than 67,108,864 bytes.
pub fn whole_file(len: u64) -> Option<PicturePlace>
    ensures { result ≡ whole_file len }
{
    if len > MAX_PICTURE_LEN {
        return None;
    }
    Some(PicturePlace { first: 0, len })
}

// The bytes of the source in a range.
fn read_bytes<S: Source>(
    alloc: Global,
    source: &mut S,
    first: u64,
    len: u64,
) -> Result<Vec<u8>, CoverError>
    requires { first + len < 2 ^ 64 }
    ensures read { S.honest source.old → IfOk result (λ bytes. bytes.items ≡ slice_range (S.bytes source.old) first (first + len)) }
    ensures count { IfOk result (λ bytes. length bytes.items ≡ len) }
    ensures fault { S.honest source.old → first + len ≤ length (S.bytes source.old) →
        IfErr result (Fails (Grows (S.faults source.old) (S.faults source.new))) }
    ensures kept { S.honest source.old → Keeps S.bytes S.honest S.faults S.steady source.old source.new }
{
    let mut bytes = vec![in alloc; 0; len as usize]?;
    read_exact(source, first, &mut bytes)?;
    Ok(bytes)
}

/// Reads the bytes of a picture from an offset on, at most `limit` of them; behind its end there are none.
///
/// An error leaves the source as any read does. `ReadFault` says that the bytes could not be read, as those of a file that has become
/// shorter; it says nothing about the picture, nor does `NoMemory`.
pub fn read_chunk<S: Source>(
    alloc: Global,
    source: &mut S,
    place: PicturePlace,
    offset: u64,
    limit: usize,
) -> Result<Vec<u8>, CoverError>
    requires { place.first + place.len < 2 ^ 64 }
    ensures chunk { S.honest source.old → place.first + place.len ≤ length (S.bytes source.old) →
        IfOk result (λ chunk. chunk.items ≡ chunk_of (picture_bytes (S.bytes source.old) place) offset limit) }
    ensures bounded { IfOk result (λ chunk. length chunk.items ≤ limit) }
    ensures fault { S.honest source.old → place.first + place.len ≤ length (S.bytes source.old) →
        IfErr result (Fails (Grows (S.faults source.old) (S.faults source.new))) }
    ensures kept { S.honest source.old → Keeps S.bytes S.honest S.faults S.steady source.old source.new }
{
    let begin = offset.min(place.len);
    let count = (place.len - begin).min(limit as u64);
    read_bytes(alloc, source, place.first + begin, count)
}
