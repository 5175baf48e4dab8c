// Bytes that are handed over in pieces.
ghost use Rattle.std.specs.Prelude.{◌≡◌, ◌+◌, ◌<◌, ◌≤◌, List, ℕ, length, vec_capacity};
ghost use Rattle.play_journal.specs.Pieces.{longest_piece, IsPiece};

/// How many bytes a piece has at most: 64 KiB.
pub const LONGEST_PIECE: usize = 65_536;

/// Bytes that are handed over from front to back, piece by piece: so nobody has to hold all of them at once.
pub trait Pieces: Drop {
    /// The bytes that weren't handed over yet.
    ghost left: { Self → List ℕ };

    /// How many bytes are left.
    fn len(&self) -> usize
        ensures { result ≡ length (left self.now) };

    /// Puts the next piece into the buffer, in place of what that held. A piece has no more than 65,536 bytes, and no fewer than 32,768
    /// unless it is the last one.
    fn next(&mut self, buffer: &mut Vec<u8>)
        requires room { longest_piece ≤ vec_capacity buffer.old }
        ensures piece { IsPiece (left self.old) buffer.new.items (left self.new) }
        ensures room { vec_capacity buffer.old ≤ vec_capacity buffer.new };
}

/// Bytes that are held already.
impl<'a> Pieces for &'a [u8] {
    ghost left = { λ bytes. bytes.now };

    fn len(&self) -> usize {
        let bytes: &[u8] = self;
        bytes.len()
    }

    fn next(&mut self, buffer: &mut Vec<u8>) {
        let bytes: &'a [u8] = self;
        let (piece, rest) = bytes.split_at(bytes.len().min(LONGEST_PIECE));
        buffer.clear();
        if buffer.extend_from_slice(piece).is_err() {
            unreachable!();
        }
        *self = rest;
    }
}
