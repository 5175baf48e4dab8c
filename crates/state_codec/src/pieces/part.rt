// Parts of a snapshot, of which one item after the other is handed over.
ghost use Rattle.std.specs.Prelude.{◌≡◌, ◌≢◌, ◌+◌, ◌<◌, ◌≤◌, ◌++◌, [], false, min, ℕ, List, IsTrue, length, vec_capacity, if◌then◌else◌};
ghost use Rattle.state_codec.specs.Appended.{HasRoom};
ghost use Rattle.state_codec.specs.Pieces.{longest_item, longest_piece, shortest_piece, HadNone, HandsOver};
ghost use Rattle.state_codec.specs.SpellingFields.{u32_bytes};

use crate::writing::put_u32;

/// How many bytes an item has at most.
const LONGEST_ITEM: usize = 31_065;

/// How many bytes a piece has at most.
const LONGEST_PIECE: usize = 65_536;

/// A part of a snapshot.
pub(crate) trait Part: Drop {
    /// The bytes of the items that weren't handed over yet.
    ghost left: { Self → List ℕ };

    /// Puts the next item behind the bytes, and says whether there was one.
    fn put_next(&mut self, out: &mut Vec<u8>) -> bool
        requires { HasRoom out.old (min longest_item (length (left self.old))) }
        ensures moved { HandsOver out.old out.new (left self.old) (left self.new) }
        ensures some { IsTrue result → length out.old.items < length out.new.items }
        ensures none { result ≡ false → HadNone out.old out.new (left self.old) (left self.new) };
}

/// Items behind their number.
#[derive(Drop)]
pub(crate) struct Counted<P> {
    pub(crate) count: u32,
    pub(crate) is_told: bool,
    pub(crate) items: P,
}

impl<P: Part> Part for Counted<P> {
    ghost left = { λ c. (if c.is_told then [] else u32_bytes c.count) ++ P.left c.items };

    fn put_next(&mut self, out: &mut Vec<u8>) -> bool {
        if self.is_told {
            return self.items.put_next(out);
        }
        put_u32(out, self.count);
        self.is_told = true;
        true
    }
}

/// One part behind the other.
#[derive(Drop)]
pub(crate) struct Both<P, Q> {
    pub(crate) first: P,
    pub(crate) second: Q,
}

impl<P: Part, Q: Part> Part for Both<P, Q> {
    ghost left = { λ b. P.left b.first ++ Q.left b.second };

    fn put_next(&mut self, out: &mut Vec<u8>) -> bool {
        if self.first.put_next(out) {
            return true;
        }
        self.second.put_next(out)
    }
}

/// Puts items into room for a piece that holds nothing yet, as many as surely fit, and says whether none is left.
pub(crate) fn fill<P: Part>(part: &mut P, out: &mut Vec<u8>) -> bool
    requires none { out.old.items ≡ [] }
    requires room { longest_piece ≤ vec_capacity out.old }
    ensures parted { P.left part.old ≡ out.new.items ++ P.left part.new }
    ensures capacity { vec_capacity out.new ≡ vec_capacity out.old }
    ensures fits { length out.new.items ≤ longest_piece }
    ensures full { result ≡ false → shortest_piece ≤ length out.new.items }
    ensures all { IsTrue result → (P.left part.new ≡ []) × (length out.new.items + 5 ≤ longest_piece) }
{
    'items: while out.len() <= LONGEST_PIECE - LONGEST_ITEM - 5 {
        if !part.put_next(out) {
            return true;
        }
    }
    false
}
