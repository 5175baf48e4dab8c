// Bytes to an output.
ghost use Rattle.std.specs.Prelude.{◌≡◌, true, false};
ghost use Rattle.std.specs.Io.KnownBytes.{Appends};
ghost use Rattle.song_output.specs.Piece.{AppendsPart};

use crate::gate::{Gate, Point};
use std::io::Write;

/// Writes all bytes, by as many writes as the output takes; false where one failed or took no byte.
pub(crate) fn write_bytes<W: Write, G: Gate>(output: &mut W, gate: &G, bytes: &[u8]) -> bool
    ensures whole { result ≡ true → Appends (W.contents output.old) (W.contents output.new) bytes.now }
    ensures part { result ≡ false → AppendsPart (W.contents output.old) (W.contents output.new) bytes.now }
{
    let mut written = 0;
    while written < bytes.len() {
        gate.at(Point::BeforeWrite);
        let taken = output.write(&bytes[written..]);
        gate.at(Point::AfterWrite);
        match taken {
            Ok(0) | Err(_) => return false,
            Ok(count) => written += count,
        }
    }
    true
}
