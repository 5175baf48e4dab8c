// Where entries were last seen, by their ids. No contract sees it: what isn't found there is looked for everywhere.
ghost use Rattle.std.specs.Prelude.{◌≤◌, length};

use crate::limits::MAX_ENTRIES;
use std::alloc::{AllocError, Global};

/// How many ids have a place of their own: as many ids that follow each other as there may be entries.
const PLACES: usize = MAX_ENTRIES;

/// How far entries may have slid since they were seen, before all are looked at anew.
const REACH: usize = 128;

/// The places at which entries were last seen, and how far they may have slid since.
#[derive(Drop)]
pub(crate) struct Hints {
    places: Vec<u16>,
    slid: usize,
}

impl Hints {
    // No place yet. It takes no memory.
    pub(crate) fn new(alloc: Global) -> Hints {
        Hints {
            places: Vec::new(alloc),
            slid: 0,
        }
    }

    // Takes the memory for all places, if it has none yet and there is an entry to be noted.
    pub(crate) fn reserve(&mut self, count: usize) -> Result<(), AllocError> {
        if count > 0 && self.places.is_empty() {
            self.places.resize(PLACES, 0)?;
        }
        Ok(())
    }

    // Notes where the entries of a range stand.
    pub(crate) fn note(&mut self, ids: &[u32], start: usize, end: usize)
        requires few { length ids.now ≤ MAX_ENTRIES }
        requires in_range { end ≤ length ids.now }
    {
        for at in start..end {
            if let Some(place) = self.places.get_mut(ids[at] as usize % PLACES) {
                *place = at as u16;
            }
        }
    }

    // The entries of a range have slid by so many positions at most, but for those that were noted where they stand.
    pub(crate) fn slide(&mut self, ids: &[u32], start: usize, end: usize, by: usize)
        requires few { length ids.now ≤ MAX_ENTRIES }
        requires in_range { end ≤ length ids.now }
    {
        if REACH < by {
            self.note(ids, start, end);
            return;
        }
        self.slid = self.slid.saturating_add(by);
        if REACH < self.slid {
            self.note(ids, 0, ids.len());
            self.slid = 0;
        }
    }

    // The entries of a range have been added.
    pub(crate) fn add(&mut self, ids: &[u32], start: usize, end: usize)
        requires few { length ids.now ≤ MAX_ENTRIES }
        requires forward { start ≤ end }
        requires in_range { end ≤ length ids.now }
    {
        self.note(ids, start, end);
        if end < ids.len() {
            self.slide(ids, end, ids.len(), end - start);
        }
    }

    // Those that stood in a range have been taken out.
    pub(crate) fn delete(&mut self, ids: &[u32], start: usize, end: usize)
        requires few { length ids.now ≤ MAX_ENTRIES }
        requires forward { start ≤ end }
    {
        if start < ids.len() {
            self.slide(ids, start, ids.len(), end - start);
        }
    }

    // Two blocks have changed places; they meet at `middle` now.
    pub(crate) fn exchange(&mut self, ids: &[u32], low: usize, middle: usize, high: usize)
        requires few { length ids.now ≤ MAX_ENTRIES }
        requires low_block { low ≤ middle }
        requires high_block { middle ≤ high }
        requires in_range { high ≤ length ids.now }
    {
        let shorter = (middle - low).min(high - middle);
        if shorter <= REACH {
            // The shorter one stands at one of the ends.
            self.note(ids, low, low + shorter);
            self.note(ids, high - shorter, high);
        }
        self.slide(ids, low, high, shorter);
    }

    // The range of positions, below `len`, where an entry with this id most likely stands.
    pub(crate) fn around(&self, id: u32, len: usize) -> (usize, usize)
        ensures { (result.0 ≤ result.1) × (result.1 ≤ len) }
    {
        let place = match self.places.get(id as usize % PLACES) {
            Some(place) => usize::from(*place),
            None => 0,
        };
        let start = place.saturating_sub(self.slid).min(len);
        let end = place.saturating_add(self.slid).saturating_add(1).min(len);
        (start, end)
    }
}
