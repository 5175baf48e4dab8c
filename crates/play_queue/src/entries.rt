// The entries in order.
ghost use Rattle.std.specs.Prelude.{◌≡◌, ℕ, ◌<◌, ◌≤◌, ◌==◌, [], length, find, position, slice_get, slice_index_or, IfSome, Some};
ghost use Rattle.std.specs.List.{All, list_any};
ghost use Rattle.std.specs.Option.{option_map};
ghost use Rattle.play_queue.specs.Queue.{AllDiffer, HaveOwnIds, ids_of};
ghost use Rattle.play_queue.specs.Shown.{shown};
ghost use Rattle.play_queue.specs.declared.entry.Entry.{Entry};

use crate::entry::EntryRef;
use crate::hints::Hints;
use crate::limits::MAX_ENTRIES;
use crate::song_list::SongList;
use std::alloc::Global;
use std::fmt;
use std::marker::Model;

mod editing;
mod stamping;

/// The entries of a queue in order, at most 65,536, each with an id of its own.
///
/// Their songs stand in a map by the ids, so that whether there is an entry with an id is told without a look at the
/// others, and a change of the order moves ids alone.
#[derive(Drop)]
pub struct Entries {
    songs: SongList,
    stamps: Vec<u32>,
    hints: Hints,
}

impl Model for Entries {
    ghost use Rattle.std.specs.Prelude.{◌≡◌, List, length};
    ghost use Rattle.play_queue.specs.Shuffle.{with_stamps};
    ghost use Rattle.play_queue.specs.declared.entry.Entry.{Entry};

    ghost Value = { List Entry };

    ghost view = { λ e. with_stamps e.stamps.items e.songs };

    ghost invariant = { λ e. length e.stamps.items ≡ length e.songs };
}

impl fmt::Debug for Entries {
    fn fmt<W: fmt::Write>(&self, f: &mut fmt::Formatter<W>) -> fmt::Result {
        let mut list = f.debug_list();
        for at in 0..self.len() {
            list.entry(&self.at(at));
        }
        list.finish()
    }
}

impl Entries {
    // No entry. It takes no memory yet.
    pub(crate) fn new(alloc: Global) -> Entries
        ensures { result ≡ [] }
    {
        Entries {
            songs: SongList::new(alloc),
            stamps: Vec::new(alloc),
            hints: Hints::new(alloc),
        }
    }

    /// How many entries there are.
    pub fn len(&self) -> usize
        ensures len { result ≡ length self.now }
        ensures few { result ≤ MAX_ENTRIES }
    {
        self.songs.len()
    }

    pub fn is_empty(&self) -> bool
        ensures { result ≡ (length self.now == 0) }
    {
        self.songs.len() == 0
    }

    /// The entry at a position.
    #[inline(always)]
    pub fn at(&self, at: usize) -> EntryRef<'_>
        requires { at < length self.now }
        ensures { (d : Entry) → slice_index_or self.now at d ≡ shown result }
    {
        let (id, song) = self.songs.song(at);
        EntryRef {
            id,
            uri: &song.uri,
            priority: song.priority,
            stamp: self.stamps[at],
        }
    }

    /// The entry at a position from 0 on, if there is one.
    #[inline(always)]
    pub fn get(&self, at: usize) -> Option<EntryRef<'_>>
        ensures { option_map shown result ≡ slice_get self.now at }
    {
        if at < self.len() {
            Some(self.at(at))
        } else {
            None
        }
    }

    // The stamp of an entry.
    #[inline(always)]
    pub(crate) fn stamp(&self, at: usize) -> u32
        requires { at < length self.now }
        ensures { (d : Entry) → result ≡ (slice_index_or self.now at d).stamp }
    {
        self.stamps[at]
    }

    /// The ids of the entries in order.
    pub fn ids(&self) -> &[u32]
        ensures ids { result.now ≡ ids_of self.now }
        ensures own { HaveOwnIds self.now }
    {
        self.songs.ids()
    }

    /// A priority that no entry's passes, which may be greater than all of them. It takes constant time.
    pub fn top_priority(&self) -> u8
        ensures { All (λ entry. entry.priority ≤ result) self.now }
    {
        self.songs.top_priority()
    }

    /// Whether an entry has an id, in constant time on average.
    pub fn has_id(&self, id: u32) -> bool
        ensures { result ≡ list_any (λ entry. entry.id == id) self.now }
    {
        self.songs.has(id)
    }

    /// The position of the entry with an id, if there is one. Where there is none, and where it stands near the
    /// position at which it was last seen, no other entries are looked at, but for a few around it.
    pub fn pos_of(&self, id: u32) -> Option<usize>
        ensures found { result ≡ position (λ entry. entry.id == id) self.now }
        ensures within { IfSome result (λ at. at < length self.now) }
    {
        if !self.has_id(id) {
            return None;
        }
        let ids = self.ids();
        let (start, end) = self.hints.around(id, ids.len());
        match find_between(ids, start, end, id) {
            Some(at) => Some(at),
            None => find(ids, id),
        }
    }

    /// The entry with an id, if there is one. It costs what `pos_of` does.
    pub fn with_id(&self, id: u32) -> Option<EntryRef<'_>>
        ensures { option_map shown result ≡ find (λ entry. entry.id == id) self.now }
    {
        match self.pos_of(id) {
            Some(at) => Some(self.at(at)),
            None => None,
        }
    }
}

// The position of an id.
fn find(ids: &[u32], id: u32) -> Option<usize>
    ensures found { result ≡ position (λ other. other == id) ids.now }
    ensures within { IfSome result (λ at. at < length ids.now) }
{
    ids.iter().position(|other| *other == id)
}

// The position of an id, if it stands in a range.
fn find_between(ids: &[u32], start: usize, end: usize, id: u32) -> Option<usize>
    requires forward { start ≤ end }
    requires in_range { end ≤ length ids.now }
    requires own_ids { AllDiffer ids.now }
    ensures found { IfSome result (λ at. position (λ other. other == id) ids.now ≡ Some at) }
    ensures within { IfSome result (λ at. at < length ids.now) }
{
    for at in start..end {
        if ids[at] == id {
            return Some(at);
        }
    }
    None
}
