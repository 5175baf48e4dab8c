// The known songs of a scan, with a mark for each that it may still drop.
ghost use Rattle.std.specs.Prelude.{◌≡◌, ◌↔◌, ℕ, ◌≤◌, ◌<◌, Bool, true, false, List, [], ◌∷◌, ◌++◌, length, drop};
ghost use Rattle.std.specs.Prelude.{slice_index_or, IfOk, OnOk, IsTrue, MatchOption, vec_len, vec_capacity};
ghost use Rattle.std.specs.List.Sorted.{IsPartitionPoint};
ghost use Rattle.std.specs.Ordering.{nat_cmp, is_lt};
ghost use Rattle.std.specs.Cmp.Lexicographic.{slice_cmp};
ghost use Rattle.song_db.specs.Droppable.{picked};
ghost use Rattle.song_db.specs.Found.{without, without_below};
ghost use Rattle.song_db.specs.Music.{known_stamp, uris_of};
ghost use Rattle.song_db.specs.Order.{AreKnown};
ghost use Rattle.song_db.specs.Replaced.{IsBefore, IsNotBefore};
ghost use Rattle.song_db.specs.Scan.{drops_of, puts_of};

use crate::change::RowChange;
use crate::folder_rows::is_before;
use crate::known_song::KnownSong;
use crate::limits::MAX_CHANGES;
use crate::uri::Uri;
use song_files::FileStamp;
use std::alloc::{AllocError, Global};
use std::marker::Model;

// The known songs of a scan, rising by URI, and those that it may still drop.
#[derive(Debug, Drop)]
pub(crate) struct Droppable {
    known: Vec<KnownSong>,
    // Whether the song at the same place may still be dropped.
    marks: Vec<bool>,
    // The place that the drops have come to.
    at: usize,
}

impl Model for Droppable {
    ghost use Rattle.std.specs.Prelude.{drop};
    ghost use Rattle.song_db.specs.Droppable.{Marked, picked, AreMarked};
    ghost use Rattle.song_db.specs.Music.{uris_of};

    ghost Value = { Marked };

    ghost view = { λ d. record {
      known = d.known.items;
      left = picked (drop d.at (uris_of d.known.items)) (drop d.at d.marks.items);
    } };

    ghost invariant = { λ d. AreMarked (uris_of d.known.items) d.marks.items d.at };
}

impl Droppable {
    pub(crate) fn new(alloc: Global, known: Vec<KnownSong>) -> Result<Droppable, AllocError>
        requires { AreKnown (uris_of known.items) }
        ensures { IfOk result (λ droppable. droppable ≡ record { known = known.items; left = uris_of known.items }) }
    {
        let mut marks = Vec::new(alloc);
        marks.resize(known.len(), true)?;
        Ok(Droppable {
            known,
            marks,
            at: 0,
        })
    }

    // The stamp with which a song is known.
    pub(crate) fn stamp(&self, uri: &str) -> Option<FileStamp>
        ensures { result ≡ known_stamp self.now.known uri.now }
    {
        let at = uri_point(&self.known, uri);
        if at < self.known.len() && self.known[at].uri.as_str() == uri {
            return self.known[at].stamp;
        }
        None
    }

    // A URI that was read, or whose row is kept, isn't dropped.
    pub(crate) fn keep(&mut self, uri: &str)
        ensures { self.new ≡ record { known = self.old.known; left = without uri.now self.old.left } }
    {
        let at = uri_point(&self.known, uri);
        if at < self.known.len() && self.known[at].uri.as_str() == uri {
            unmark(&mut self.marks, at, at + 1);
        }
    }

    // What stands below a folder isn't dropped: one run of the URIs.
    pub(crate) fn keep_below(&mut self, folder: &str)
        ensures { self.new ≡ record { known = self.old.known; left = without_below folder.now self.old.left } }
    {
        let start = folder_point(&self.known, folder, b'/');
        let end = folder_point(&self.known, folder, b'/' + 1);
        unmark(&mut self.marks, start, end);
    }

    // Nothing more is dropped.
    pub(crate) fn keep_all(&mut self)
        ensures { self.new ≡ record { known = self.old.known; left = [] } }
    {
        self.at = self.known.len();
    }

    // Nothing may be dropped any more.
    pub(crate) fn is_at_end(&mut self) -> bool
        ensures same { self.new ≡ self.old }
        ensures end { IsTrue result ↔ (self.old.left ≡ []) }
    {
        self.at = next_mark(&self.marks, self.at);
        self.at == self.known.len()
    }

    // The first that may be dropped, which then may no more.
    pub(crate) fn next_drop(&mut self, alloc: Global) -> Result<Option<Uri>, AllocError>
        ensures next { IfOk result (λ next. MatchOption next ((self.old.left ≡ []) × (self.new.left ≡ []))
            (λ uri. self.old.left ≡ uri ∷ self.new.left)) }
        ensures known { self.new.known ≡ self.old.known }
    {
        let at = next_mark(&self.marks, self.at);
        if at == self.known.len() {
            self.at = at;
            return Ok(None);
        }
        let uri = self.known[at].uri.try_clone(alloc)?;
        self.at = at + 1;
        Ok(Some(uri))
    }

    // Fills a batch up with drops.
    pub(crate) fn drop_rest(
        &mut self,
        alloc: Global,
        changes: &mut Vec<RowChange>,
    ) -> Result<(), AllocError>
        requires room { MAX_CHANGES ≤ vec_capacity changes.old }
        requires few { vec_len changes.old ≤ MAX_CHANGES }
        ensures known { self.new.known ≡ self.old.known }
        ensures drops { OnOk result (drops_of changes.new.items ++ self.new.left ≡ drops_of changes.old.items ++ self.old.left) }
        ensures puts { OnOk result (puts_of changes.new.items ≡ puts_of changes.old.items) }
        ensures few { OnOk result (vec_len changes.new ≤ MAX_CHANGES) }
        ensures rest { OnOk result (vec_len changes.new < MAX_CHANGES → self.new.left ≡ []) }
    {
        'drops: while changes.len() < MAX_CHANGES {
            match self.next_drop(alloc)? {
                Some(uri) => changes.push_reserved(RowChange::Drop(uri)),
                None => return Ok(()),
            }
        }
        Ok(())
    }
}

// The place of the first URI that isn't below the given one, by a binary search.
fn uri_point(known: &[KnownSong], uri: &str) -> usize
    requires { AreKnown (uris_of known.now) }
    ensures bound { result ≤ length known.now }
    ensures split { IsPartitionPoint (IsBefore (λ u. u) uri.now) (IsNotBefore (λ u. u) uri.now) (uris_of known.now) result }
{
    known.partition_point(
        |song: &KnownSong| -> bool
            ensures { result ≡ is_lt (slice_cmp nat_cmp song.now.uri uri.entry.now) }
        { song.uri.as_str() < uri },
    )
}

// The place of the first URI that isn't before the folder followed by a byte.
fn folder_point(known: &[KnownSong], folder: &str, next: u8) -> usize
    requires { AreKnown (uris_of known.now) }
    ensures bound { result ≤ length known.now }
    ensures split { IsPartitionPoint (IsBefore (λ u. u) (folder.now ++ next ∷ [])) (IsNotBefore (λ u. u) (folder.now ++ next
        ∷ [])) (uris_of known.now) result }
{
    known.partition_point(
        |song: &KnownSong| -> bool
            ensures { result ≡ is_lt (slice_cmp nat_cmp song.now.uri (folder.entry.now ++ next ∷ [])) }
        { is_before(song.uri.as_str().as_bytes(), folder.as_bytes(), next) },
    )
}

// Takes the marks of a run away.
fn unmark(marks: &mut [bool], start: usize, end: usize)
    requires rise { start ≤ end }
    requires within { end ≤ length marks.old }
    ensures len { length marks.new ≡ length marks.old }
    ensures before { (k : ℕ) → k < start → slice_index_or marks.new k true ≡ slice_index_or marks.old k true }
    ensures run { (k : ℕ) → start ≤ k → k < end → slice_index_or marks.new k true ≡ false }
    ensures behind { (k : ℕ) → end ≤ k → slice_index_or marks.new k true ≡ slice_index_or marks.old k true }
{
    for at in start..end {
        marks[at] = false;
    }
}

// The place of the first mark that is set from a place on, or their number.
fn next_mark(marks: &[bool], from: usize) -> usize
    requires { from ≤ length marks.now }
    ensures from { from ≤ result }
    ensures bound { result ≤ length marks.now }
    ensures set { result < length marks.now → slice_index_or marks.now result true ≡ true }
    ensures none { (uris : List (List ℕ)) → length uris ≡ length marks.now →
        picked (drop from uris) (drop from marks.now) ≡ picked (drop result uris) (drop result marks.now) }
{
    for at in from..marks.len() {
        if marks[at] {
            return at;
        }
    }
    marks.len()
}
