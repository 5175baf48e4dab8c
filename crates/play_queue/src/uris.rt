// URIs that many entries are looked up among.
ghost use Rattle.std.specs.Prelude.{◌≡◌, ◌↔◌, [], IsTrue};
ghost use Rattle.std.specs.List.Sorted.{IsPermutation};
ghost use Rattle.play_queue.specs.Entries.{is_among};

use crate::marks::{MARKS, mark, marks_of};
use song_db::Uri;
use std::marker::Model;

/// URIs in the order of their bytes, so that one is looked up by a binary search; most that aren't there are told by
/// their mark alone.
#[derive(Debug, Drop)]
pub struct SortedUris {
    uris: Vec<Uri>,
    marks: [bool; MARKS],
}

impl Model for SortedUris {
    ghost use Rattle.std.specs.Cmp.Lexicographic.{slice_cmp};
    ghost use Rattle.std.specs.List.Sorted.{IsSorted};
    ghost use Rattle.std.specs.Ordering.{nat_cmp};
    ghost use Rattle.play_queue.specs.Entries.{Uris};
    ghost use Rattle.play_queue.specs.Marks.{AreMarked};

    ghost Value = { Uris };

    ghost view = { λ s. s.uris.items };

    ghost invariant = { λ s. IsSorted (slice_cmp nat_cmp) s.uris.items × AreMarked s.marks s.uris.items };
}

impl SortedUris {
    /// These URIs, sorted in their own memory.
    pub fn new(mut uris: Vec<Uri>) -> SortedUris
        ensures { IsPermutation uris.items result }
    {
        uris.sort_unstable_by(|one, other| one.compare(other.as_str()));
        let marks = marks_of(&uris);
        SortedUris { uris, marks }
    }

    pub fn is_empty(&self) -> bool
        ensures { IsTrue result ↔ (self.now ≡ []) }
    {
        self.uris.is_empty()
    }

    /// The URIs in order.
    pub fn as_slice(&self) -> &[Uri]
        ensures { result.now ≡ self.now }
    {
        self.uris.as_slice()
    }

    /// Whether a URI is one of these.
    pub fn contains(&self, uri: &Uri) -> bool
        ensures { result ≡ is_among self.now uri.now }
    {
        let text = uri.as_str();
        if !self.marks[mark(text.as_bytes())] {
            return false;
        }
        self.uris
            .binary_search_by(|other| other.compare(text))
            .is_ok()
    }
}
