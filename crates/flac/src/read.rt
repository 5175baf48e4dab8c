// Reads that fill a buffer, with this crate's error.
ghost use Rattle.std.specs.Prelude.{◌≡◌, ◌+◌, ◌^◌, ◌<◌, ◌≤◌, length, slice_range, OnOk, OnErr, IsOkUnless};
ghost use Rattle.song_files.specs.Source.{Grows, Keeps};

use crate::FlacError;
use song_files::{Source, read_exact};

/// Fills the buffer with the bytes from `at` on. `ReadFault` leaves it filled in part.
pub fn read_bytes<S: Source>(source: &mut S, at: u64, buffer: &mut [u8]) -> Result<(), FlacError>
    requires { at + length buffer.old < 2 ^ 64 }
    ensures read { S.honest source.old → OnOk result (buffer.new ≡ slice_range (S.bytes source.old) at (at + length buffer.old)) }
    ensures only { IsOkUnless result FlacError.ReadFault }
    ensures fault { S.honest source.old → at + length buffer.old ≤ length (S.bytes source.old) →
        OnErr result (Grows (S.faults source.old) (S.faults source.new)) }
    ensures kept { S.honest source.old → Keeps S.bytes S.honest S.faults S.steady source.old source.new }
{
    read_exact(source, at, buffer)?;
    Ok(())
}
