// Reads that fill a buffer.
ghost use Rattle.std.specs.Prelude.{◌≡◌, ◌+◌, ◌^◌, ◌<◌, ◌≤◌, length, slice_range, OnOk, OnErr};
ghost use Rattle.song_files.specs.Source.{Grows, Keeps};

use crate::{Source, SourceFault};

/// Fills the buffer with the bytes from `at` on. A read that gives fewer bytes is followed by another;
/// one that gives none is a fault, which leaves the buffer filled in part, and the source as any read does.
pub fn read_exact<S: Source>(source: &mut S, at: u64, buffer: &mut [u8]) -> Result<(), SourceFault>
    requires { at + length buffer.old < 2 ^ 64 }
    ensures read { S.honest source.old → OnOk result (buffer.new ≡ slice_range (S.bytes source.old) at (at + length buffer.old)) }
    ensures within { S.honest source.old → OnOk result (0 < length buffer.old → at + length buffer.old ≤ length (S.bytes source.old)) }
    ensures fault { S.honest source.old → at + length buffer.old ≤ length (S.bytes source.old) →
        OnErr result (Grows (S.faults source.old) (S.faults source.new)) }
    ensures kept { S.honest source.old → Keeps S.bytes S.honest S.faults S.steady source.old source.new }
{
    let mut filled = 0;
    while filled < buffer.len() {
        match source.read_at(at + filled as u64, &mut buffer[filled..]) {
            Ok(count) if count > 0 => filled += count,
            _ => return Err(SourceFault),
        }
    }
    Ok(())
}
