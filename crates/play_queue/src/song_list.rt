// The songs of the entries in order, without the entries' stamps.
ghost use Rattle.std.specs.Prelude.{◌≡◌, ℕ, ◌<◌, ◌≤◌, ◌-◌, ◌+◌, ◌==◌, ◌^◌, [], ◌∷◌, ◌++◌, false, length, take, drop, swap, slice_index_or, slice_set, Some, None, if◌then◌else◌};
ghost use Rattle.std.specs.Prelude.{IfOk, OnOk, OnErr, vec_len, vec_capacity};
ghost use Rattle.std.specs.List.{All, list_any};
ghost use Rattle.indexmap.specs.IndexMap.{spare};
ghost use Rattle.play_queue.specs.Entries.{deleted, kept, new_entries, with_priority};
ghost use Rattle.play_queue.specs.Queue.{HaveOwnIds, ids_of};
ghost use Rattle.play_queue.specs.Restamp.{exchanged};
ghost use Rattle.play_queue.specs.Shuffle.{shuffled};
ghost use Rattle.play_queue.specs.Songs.{AreInOrder, HaveNoMore, in_order, song_of, unstamped, unstamped_entry};
ghost use Rattle.play_queue.specs.declared.song.Song.{Song};
ghost use Rattle.play_queue.specs.declared.entry.Entry.{Entry};

use crate::drawn::{draw, put_back, sort_drawn};
use crate::limits::MAX_ENTRIES;
use crate::song::Song;
use crate::uris::SortedUris;
use indexmap::IndexMap;
use song_db::RowUri;
use std::alloc::{AllocError, Global};
use std::marker::Model;

// A song that is taken out lets another one stand elsewhere. All are looked for anew where there may be more such than
// these and this part of all.
const FEW: usize = 64;

const PART: usize = 16;

/// The songs of the entries by id, in any order, and the ids of the entries in their order, at most 65,536. Contracts see
/// the entries in order, each with the stamp 0.
///
/// Beside each id stands the place among the songs where its song was last known to be. It is read only where the id
/// stands there still, and else the song is looked for by its id. `stale` counts those that may stand elsewhere. No song has
/// a priority above `top`.
#[derive(Drop)]
pub(crate) struct SongList {
    songs: IndexMap<u32, Song>,
    order: Vec<u32>,
    near: Vec<u32>,
    stale: usize,
    top: u8,
}

impl Model for SongList {
    ghost use Rattle.std.specs.Prelude.{◌≡◌, ◌≤◌, List, length};
    ghost use Rattle.play_queue.specs.declared.entry.Entry.{Entry};
    ghost use Rattle.play_queue.specs.Limits.{MAX_ENTRIES};

    ghost Value = { List Entry };

    ghost use Rattle.play_queue.specs.Songs.{in_order, AreInOrder, HaveNoMore};

    ghost view = { λ s. in_order s.songs.entries s.order.items };

    ghost invariant = { λ s. AreInOrder s.songs.entries s.order.items × (length s.near.items ≡ length s.order.items)
        × (length s.order.items ≤ MAX_ENTRIES) × HaveNoMore s.top s.songs.entries };
}

impl SongList {
    // No song. It takes no memory yet.
    pub(crate) fn new(alloc: Global) -> SongList
        ensures { result ≡ [] }
    {
        SongList {
            songs: IndexMap::new(alloc),
            order: Vec::new(alloc),
            near: Vec::new(alloc),
            stale: 0,
            top: 0,
        }
    }

    pub(crate) fn len(&self) -> usize
        ensures len { result ≡ length self.now }
        ensures few { result ≤ MAX_ENTRIES }
    {
        self.order.len()
    }

    // The ids in order.
    pub(crate) fn ids(&self) -> &[u32]
        ensures ids { result.now ≡ ids_of self.now }
        ensures own { HaveOwnIds self.now }
        ensures few { length self.now ≤ MAX_ENTRIES }
    {
        self.order.as_slice()
    }

    // A priority that none passes.
    pub(crate) fn top_priority(&self) -> u8
        ensures { All (λ entry. entry.priority ≤ result) self.now }
    {
        self.top
    }

    // Whether an entry has the id.
    pub(crate) fn has(&self, id: u32) -> bool
        ensures { result ≡ list_any (λ entry. entry.id == id) self.now }
    {
        self.songs.contains_key(&id)
    }

    // The id at a position and its song.
    #[inline(always)]
    pub(crate) fn song(&self, at: usize) -> (u32, &Song)
        requires { at < length self.now }
        ensures { (d : Entry) → slice_index_or self.now at d ≡ unstamped_entry result.0 (Some result.1.now) }
    {
        let id = self.order[at];
        if let Some((key, song)) = self.songs.get_index(self.near[at] as usize) {
            if *key == id {
                return (id, song);
            }
        }
        (id, self.songs.get(&id).unwrap())
    }

    // Lets two blocks that follow each other change places.
    pub(crate) fn exchange(&mut self, low: usize, middle: usize, high: usize)
        requires low_block { low ≤ middle }
        requires high_block { middle ≤ high }
        requires in_range { high ≤ length self.old }
        ensures { self.new ≡ exchanged self.old low middle high }
    {
        turn(&mut self.order, low, middle, high);
        turn(&mut self.near, low, middle, high);
    }

    // Lets two entries change places.
    pub(crate) fn swap(&mut self, one: usize, other: usize)
        requires one_in_range { one < length self.old }
        requires other_in_range { other < length self.old }
        ensures { self.new ≡ swap self.old one other }
    {
        self.order.swap(one, other);
        self.near.swap(one, other);
    }

    // Takes out a block.
    pub(crate) fn delete(&mut self, start: usize, end: usize)
        requires forward { start ≤ end }
        requires in_range { end ≤ length self.old }
        ensures { self.new ≡ deleted self.old start end }
    {
        let len = self.order.len();
        self.exchange(start, end, len);
        self.truncate(len - (end - start));
    }

    // Takes out the entries of these URIs from `first` on.
    pub(crate) fn keep_others(&mut self, first: usize, uris: &SortedUris)
        requires { first ≤ length self.old }
        ensures { self.new ≡ take first self.old ++ kept (drop first self.old) uris.now }
    {
        let count = self.bring_others_forward(first, uris);
        self.truncate(count);
    }

    // Brings the entries of other URIs from `first` on to the front of these, in their order, and counts them and those
    // in front of `first`.
    fn bring_others_forward(&mut self, first: usize, uris: &SortedUris) -> usize
        requires { first ≤ length self.old }
        ensures within { result ≤ length self.new }
        ensures others { take result self.new ≡ take first self.old ++ kept (drop first self.old) uris.now }
    {
        let mut count = first;
        for at in first..self.order.len() {
            let (_id, song) = self.song(at);
            if !uris.contains(song.uri.as_uri()) {
                self.swap(count, at);
                count += 1;
            }
        }
        count
    }

    // Takes out all but so many.
    pub(crate) fn truncate(&mut self, count: usize)
        requires { count ≤ length self.old }
        ensures { self.new ≡ take count self.old }
    {
        for _ in count..self.order.len() {
            self.remove_last();
        }
        self.renew();
    }

    fn remove_last(&mut self)
        ensures { self.new ≡ take (length self.old - 1) self.old }
    {
        if let Some(id) = self.order.pop() {
            let _ = self.near.pop();
            forget(&mut self.songs, id);
            self.stale = self.stale.saturating_add(1);
        }
    }

    // Adds songs at the end, with ids that rise from `first` on. The memory is taken before anything changes.
    pub(crate) fn push_all(&mut self, first: u32, uris: Vec<RowUri>) -> Result<(), AllocError>
        requires few { length self.old + length uris.items ≤ MAX_ENTRIES }
        requires ids { first + length uris.items < 2 ^ 32 }
        requires fresh { All (λ entry. entry.id < first) self.old }
        ensures ok { OnOk result (self.new ≡ self.old ++ unstamped (new_entries first uris.items)) }
        ensures err { OnErr result (self.new ≡ self.old) }
    {
        let count = uris.len();
        self.songs.reserve(count)?;
        self.order.reserve(count)?;
        self.near.reserve(count)?;
        let alloc = *self.songs.allocator();
        push_songs(
            alloc,
            &mut self.songs,
            &mut self.order,
            &mut self.near,
            first,
            uris,
        );
        Ok(())
    }

    // Adds one song at the end. The memory is taken before anything changes.
    pub(crate) fn push(&mut self, id: u32, uri: RowUri, priority: u8) -> Result<(), AllocError>
        requires few { length self.old < MAX_ENTRIES }
        requires fresh { list_any (λ entry. entry.id == id) self.old ≡ false }
        ensures ok { OnOk result (self.new ≡ self.old ++ record { id = id; uri = uri; priority = priority; stamp = 0 } ∷ []) }
        ensures err { OnErr result (self.new ≡ self.old) }
    {
        let top = greater(self.top, priority);
        self.songs.reserve(1)?;
        self.order.reserve(1)?;
        self.near.reserve(1)?;
        let alloc = *self.songs.allocator();
        push_song(
            &mut self.songs,
            &mut self.order,
            &mut self.near,
            id,
            Song::new(alloc, uri, priority),
        );
        self.top = top;
        Ok(())
    }

    // Sorts a block by words, and by the ids where words tie. The memory is taken before anything changes.
    pub(crate) fn sort(
        &mut self,
        alloc: Global,
        start: usize,
        end: usize,
        words: &[u32],
    ) -> Result<(), AllocError>
        requires forward { start ≤ end }
        requires in_range { end ≤ length self.old }
        requires words { length words.now ≡ end - start }
        ensures ok { OnOk result (self.new ≡ shuffled self.old start end words.now) }
        ensures err { OnErr result (self.new ≡ self.old) }
    {
        let mut drawn = draw(
            alloc,
            &self.order[start..end],
            &self.near[start..end],
            words,
        )?;
        sort_drawn(&mut drawn);
        put_back(&drawn, &mut self.order, &mut self.near, start);
        Ok(())
    }

    // The same songs once more, in memory of their own.
    pub(crate) fn try_clone(&self, alloc: Global) -> Result<SongList, AllocError>
        ensures { IfOk result (λ copy. copy ≡ self.now) }
    {
        Ok(SongList {
            songs: self.songs.clone()?,
            order: Vec::from_slice(alloc, &self.order)?,
            near: Vec::from_slice(alloc, &self.near)?,
            stale: self.stale,
            top: self.top,
        })
    }

    pub(crate) fn clear(&mut self)
        ensures { self.new ≡ [] }
    {
        self.songs.clear();
        self.order.clear();
        self.near.clear();
        self.top = 0;
    }

    // Sets the priority of an entry.
    pub(crate) fn set_priority(&mut self, at: usize, priority: u8)
        requires { at < length self.old }
        ensures { (d : Entry) → self.new ≡ slice_set self.old at (with_priority priority (slice_index_or self.old at d)) }
    {
        let top = greater(self.top, priority);
        prioritize(&mut self.songs, self.order[at], priority);
        self.top = top;
    }

    // Looks anew for the songs that don't stand where they were last known to be, once there may be many.
    fn renew(&mut self)
        ensures { self.new ≡ self.old }
    {
        if FEW + self.order.len() / PART < self.stale {
            renew(&self.songs, &self.order, &mut self.near);
            self.stale = 0;
        }
    }
}

fn greater(one: u8, other: u8) -> u8
    ensures first { one ≤ result }
    ensures second { other ≤ result }
{
    if one < other { other } else { one }
}

// Lets two blocks of numbers that follow each other change places.
fn turn(numbers: &mut Vec<u32>, low: usize, middle: usize, high: usize)
    requires low_block { low ≤ middle }
    requires high_block { middle ≤ high }
    requires in_range { high ≤ length numbers.old.items }
    ensures { numbers.new.items ≡ exchanged numbers.old.items low middle high }
{
    turn_in(numbers, low, middle, high);
}

fn turn_in(numbers: &mut [u32], low: usize, middle: usize, high: usize)
    requires low_block { low ≤ middle }
    requires high_block { middle ≤ high }
    requires in_range { high ≤ length numbers.old }
    ensures { numbers.new ≡ exchanged numbers.old low middle high }
{
    numbers[low..high].rotate_left(middle - low);
}

// The song of an id goes.
fn forget(songs: &mut IndexMap<u32, Song>, id: u32)
    ensures { (other : ℕ) → song_of songs.new.entries other ≡ (if id == other then None else song_of songs.old.entries other) }
{
    let _ = songs.swap_remove(&id);
}

// The song of an id gets a priority.
fn prioritize(songs: &mut IndexMap<u32, Song>, id: u32, priority: u8)
    ensures { (song : Song) (other : ℕ) → song_of songs.old.entries id ≡ Some song
        → song_of songs.new.entries other
        ≡ (if id == other then Some (record song { priority = priority }) else song_of songs.old.entries other) }
{
    if let Some(song) = songs.get_mut(&id) {
        song.priority = priority;
    }
}

// Looks for the songs of ids that don't stand at the places beside these.
fn renew(songs: &IndexMap<u32, Song>, ids: &[u32], places: &mut [u32])
    requires { length places.old ≡ length ids.now }
{
    for at in 0..ids.len() {
        let id = ids[at];
        if !is_near(songs, id, places[at]) {
            if let Some(place) = songs.get_index_of(&id) {
                places[at] = (place % MAX_ENTRIES) as u32;
            }
        }
    }
}

// Whether the song of an id stands at a place.
fn is_near(songs: &IndexMap<u32, Song>, id: u32, place: u32) -> bool {
    match songs.get_index(place as usize) {
        Some((key, _song)) => *key == id,
        None => false,
    }
}

// Adds the song of a new id behind all others.
fn push_song(
    songs: &mut IndexMap<u32, Song>,
    order: &mut Vec<u32>,
    near: &mut Vec<u32>,
    id: u32,
    song: Song,
)
    requires room_for_song { 0 < spare songs.old }
    requires room_for_id { vec_len order.old < vec_capacity order.old }
    requires room_for_place { vec_len near.old < vec_capacity near.old }
    requires few { length order.old.items < MAX_ENTRIES }
    ensures order { order.new.items ≡ order.old.items ++ id ∷ [] }
    ensures near { length near.new.items ≡ length near.old.items + 1 }
    ensures songs { (other : ℕ) → song_of songs.new.entries other ≡ (if id == other then Some song else song_of songs.old.entries other) }
    ensures spare_songs { spare songs.old ≤ spare songs.new + 1 }
    ensures spare_ids { vec_capacity order.new ≡ vec_capacity order.old }
    ensures spare_places { vec_capacity near.new ≡ vec_capacity near.old }
{
    near.push_reserved(order.len() as u32);
    order.push_reserved(id);
    let _ = songs.insert(id, song);
}

// Adds songs behind all others, with ids that rise from `first` on.
fn push_songs(
    alloc: Global,
    songs: &mut IndexMap<u32, Song>,
    order: &mut Vec<u32>,
    near: &mut Vec<u32>,
    first: u32,
    uris: Vec<RowUri>,
)
    requires room_for_songs { length uris.items ≤ spare songs.old }
    requires room_for_ids { vec_len order.old + length uris.items ≤ vec_capacity order.old }
    requires room_for_places { vec_len near.old + length uris.items ≤ vec_capacity near.old }
    requires few { length order.old.items + length uris.items ≤ MAX_ENTRIES }
    requires ids { first + length uris.items < 2 ^ 32 }
    requires fresh { (id : ℕ) → first ≤ id → song_of songs.old.entries id ≡ None }
    requires kept { AreInOrder songs.old.entries order.old.items }
    ensures kept { AreInOrder songs.new.entries order.new.items }
    ensures entries { in_order songs.new.entries order.new.items
        ≡ in_order songs.old.entries order.old.items ++ unstamped (new_entries first uris.items) }
    ensures len { length order.new.items ≡ length order.old.items + length uris.items }
    ensures near { length near.new.items ≡ length near.old.items + length uris.items }
    ensures top { (top : ℕ) → HaveNoMore top songs.old.entries → HaveNoMore top songs.new.entries }
{
    let mut id = first;
    for uri in uris {
        push_song(songs, order, near, id, Song::new(alloc, uri, 0));
        id += 1;
    }
}
