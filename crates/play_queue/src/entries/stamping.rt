// Stamps and priorities of entries.
ghost use Rattle.std.specs.Prelude.{◌≡◌, ℕ, ◌-◌, ◌<◌, ◌≤◌, ◌++◌, length, map, take, drop, slice_range, slice_index_or, slice_set};
ghost use Rattle.play_queue.specs.Queue.{with_stamp};
ghost use Rattle.play_queue.specs.Restamp.{raised};
ghost use Rattle.play_queue.specs.Shuffle.{stamped_moved};
ghost use Rattle.play_queue.specs.Songs.{stamps_anew};
ghost use Rattle.play_queue.specs.declared.entry.Entry.{Entry};

use super::Entries;

impl Entries {
    // Gives each entry the stamp.
    pub(crate) fn stamp_all(&mut self, stamp: u32)
        ensures { self.new ≡ map (with_stamp stamp) self.old }
    {
        fill_all(&mut self.stamps, stamp);
    }

    // Gives each entry from `start` up to, but not including, `end` the stamp.
    pub(crate) fn stamp_range(&mut self, start: usize, end: usize, stamp: u32)
        requires forward { start ≤ end }
        requires in_range { end ≤ length self.old }
        ensures { self.new ≡ take start self.old ++ (map (with_stamp stamp) (slice_range self.old start end) ++ drop end self.old) }
    {
        fill_range(&mut self.stamps, start, end, stamp);
    }

    // Gives an entry the stamp.
    pub(crate) fn set_stamp(&mut self, at: usize, stamp: u32)
        requires { at < length self.old }
        ensures { (d : Entry) → self.new ≡ slice_set self.old at (with_stamp stamp (slice_index_or self.old at d)) }
    {
        self.stamps[at] = stamp;
    }

    // Gives the entries from `start` up to, but not including, `end` the stamp at whose positions others stood, by these ids.
    pub(crate) fn stamp_moved(&mut self, start: usize, end: usize, ids: &[u32], stamp: u32)
        requires forward { start ≤ end }
        requires in_range { end ≤ length self.old }
        requires ids { length ids.now ≡ end - start }
        ensures { self.new ≡ take start self.old ++ (stamped_moved ids.now stamp (slice_range self.old start end) ++ drop end self.old) }
    {
        stamp_others_in(&mut self.stamps, start, end, self.songs.ids(), ids, stamp);
    }

    // Sets the priority of an entry, and gives it the stamp if it had another one.
    pub(crate) fn raise(&mut self, at: usize, priority: u8, stamp: u32)
        requires { at < length self.old }
        ensures { (d : Entry) → self.new ≡ slice_set self.old at (raised priority stamp (slice_index_or self.old at d)) }
    {
        let (_id, song) = self.songs.song(at);
        if song.priority != priority {
            self.songs.set_priority(at, priority);
            self.stamps[at] = stamp;
        }
    }
}

fn fill_all(stamps: &mut Vec<u32>, stamp: u32)
    ensures { stamps.new.items ≡ map (λ _. stamp) stamps.old.items }
{
    fill(stamps, stamp);
}

fn fill_range(stamps: &mut Vec<u32>, start: usize, end: usize, stamp: u32)
    requires forward { start ≤ end }
    requires in_range { end ≤ length stamps.old.items }
    ensures { stamps.new.items
        ≡ take start stamps.old.items ++ (map (λ _. stamp) (slice_range stamps.old.items start end) ++ drop end stamps.old.items) }
{
    fill_between(stamps, start, end, stamp);
}

fn fill_between(stamps: &mut [u32], start: usize, end: usize, stamp: u32)
    requires forward { start ≤ end }
    requires in_range { end ≤ length stamps.old }
    ensures { stamps.new ≡ take start stamps.old ++ (map (λ _. stamp) (slice_range stamps.old start end) ++ drop end stamps.old) }
{
    fill(&mut stamps[start..end], stamp);
}

fn fill(stamps: &mut [u32], stamp: u32)
    ensures { stamps.new ≡ map (λ _. stamp) stamps.old }
{
    for one in stamps.iter_mut() {
        *one = stamp;
    }
}

// Writes the stamp where an id of a range is another one than before.
fn stamp_others_in(
    stamps: &mut Vec<u32>,
    start: usize,
    end: usize,
    ids: &[u32],
    before: &[u32],
    stamp: u32,
)
    requires forward { start ≤ end }
    requires in_range { end ≤ length stamps.old.items }
    requires ids { length ids.now ≡ length stamps.old.items }
    requires before { length before.now ≡ end - start }
    ensures { stamps.new.items ≡ take start stamps.old.items
        ++ (stamps_anew (slice_range ids.now start end) before.now stamp (slice_range stamps.old.items start end) ++ drop end stamps.old.items) }
{
    stamp_others_between(stamps, start, end, &ids[start..end], before, stamp);
}

fn stamp_others_between(
    stamps: &mut [u32],
    start: usize,
    end: usize,
    ids: &[u32],
    before: &[u32],
    stamp: u32,
)
    requires forward { start ≤ end }
    requires in_range { end ≤ length stamps.old }
    requires ids { length ids.now ≡ end - start }
    requires before { length before.now ≡ end - start }
    ensures { stamps.new ≡ take start stamps.old
        ++ (stamps_anew ids.now before.now stamp (slice_range stamps.old start end) ++ drop end stamps.old) }
{
    stamp_others(&mut stamps[start..end], ids, before, stamp);
}

fn stamp_others(stamps: &mut [u32], ids: &[u32], before: &[u32], stamp: u32)
    requires ids { length ids.now ≡ length stamps.old }
    requires before { length before.now ≡ length stamps.old }
    ensures { stamps.new ≡ stamps_anew ids.now before.now stamp stamps.old }
{
    for at in 0..ids.len() {
        if ids[at] != before[at] {
            stamps[at] = stamp;
        }
    }
}
