// What edits are refused for, and whether they would change anything. No call takes memory.
ghost use Rattle.std.specs.Prelude.{◌≡◌, ◌≢◌, length, None, IsTrue, OnOk};
ghost use Rattle.std.specs.Bool.{OnTrue, OnFalse};
ghost use Rattle.stored_lists.specs.Fits.{HasRoom, CanReplace, IsRangeOf, ArePlacesOf, CanRename};
ghost use Rattle.stored_lists.specs.Lists.{songs_of, songs_or_none};
ghost use Rattle.stored_lists.specs.Lists.{name_refusal, save_refusal, add_refusal, replace_refusal, remove_refusal};
ghost use Rattle.stored_lists.specs.Lists.{move_refusal, rename_refusal};
ghost use Rattle.stored_lists.specs.Part.{is_last, part_refusal};
ghost use Rattle.stored_lists.specs.Refusal.{Answers};
ghost use Rattle.stored_lists.specs.Songs.{moved};

use super::Lists;
use crate::limits::{MAX_ENTRIES, MAX_LISTS};
use crate::name::is_good_name;
use crate::refusal::{ListsError, PartError};

impl Lists {
    /// What `clear` and `remove` of a playlist would be refused for.
    pub fn check_name(&self, name: &str) -> Result<(), ListsError>
        ensures { Answers (name_refusal self.now name.now) result }
    {
        self.get(name)?;
        Ok(())
    }

    /// What `save` of so many songs would be refused for, but for want of memory.
    pub fn check_save(&self, name: &str, count: usize) -> Result<(), ListsError>
        ensures answer { Answers (save_refusal self.now name.now count) result }
        ensures fits { OnOk result (HasRoom self.now name.now count) }
        ensures free { OnOk result (songs_of self.now name.now ≡ None) }
    {
        if !is_good_name(name) {
            return Err(ListsError::BadName);
        }
        if self.lists.contains(name) {
            return Err(ListsError::ListExists);
        }
        if MAX_LISTS <= self.lists.len() || MAX_ENTRIES - self.entries < count {
            return Err(ListsError::ListsFull);
        }
        Ok(())
    }

    /// What `add` of so many songs would be refused for, but for want of memory.
    pub fn check_add(&self, name: &str, count: usize) -> Result<(), ListsError>
        ensures answer { Answers (add_refusal self.now name.now count) result }
        ensures fits { OnOk result (HasRoom self.now name.now count) }
    {
        if !is_good_name(name) {
            return Err(ListsError::BadName);
        }
        if !self.lists.contains(name) {
            return self.check_save(name, count);
        }
        let room = MAX_ENTRIES - self.entries;
        if room < count {
            return Err(ListsError::ListsFull);
        }
        Ok(())
    }

    /// What `replace` by so many songs would be refused for.
    pub fn check_replace(&self, name: &str, count: usize) -> Result<(), ListsError>
        ensures answer { Answers (replace_refusal self.now name.now count) result }
        ensures fits { OnOk result (CanReplace self.now name.now count) }
    {
        let old = self.get(name)?.len();
        if MAX_ENTRIES - (self.entries - old) < count {
            return Err(ListsError::ListsFull);
        }
        Ok(())
    }

    /// What `remove_at` would be refused for.
    pub fn check_remove_at(&self, name: &str, start: usize, end: usize) -> Result<(), ListsError>
        ensures answer { Answers (remove_refusal self.now name.now start end) result }
        ensures fits { OnOk result (IsRangeOf self.now name.now start end) }
    {
        let count = self.get(name)?.len();
        if end < start || count < end {
            return Err(ListsError::BadIndex);
        }
        Ok(())
    }

    /// What `move_at` would be refused for.
    pub fn check_move_at(&self, name: &str, from: usize, to: usize) -> Result<(), ListsError>
        ensures answer { Answers (move_refusal self.now name.now from to) result }
        ensures fits { OnOk result (ArePlacesOf self.now name.now from to) }
    {
        let count = self.get(name)?.len();
        if count <= from || count <= to {
            return Err(ListsError::BadIndex);
        }
        Ok(())
    }

    /// What `rename` would be refused for, but for want of memory.
    pub fn check_rename(&self, from: &str, to: &str) -> Result<(), ListsError>
        ensures answer { Answers (rename_refusal self.now from.now to.now) result }
        ensures fits { OnOk result (CanRename self.now from.now to.now) }
    {
        if !is_good_name(from) || !is_good_name(to) {
            return Err(ListsError::BadName);
        }
        if !self.lists.contains(from) {
            return Err(ListsError::NoSuchList);
        }
        if self.lists.contains(to) {
            return Err(ListsError::ListExists);
        }
        Ok(())
    }

    /// What `push_last` of so many songs would be refused for, but for want of memory.
    pub fn check_last(&self, name: &str, count: usize) -> Result<(), PartError>
        ensures answer { Answers (part_refusal self.now name.now count) result }
        ensures fits { OnOk result (HasRoom self.now name.now count) }
        ensures last { OnOk result (IsTrue (is_last self.now name.now)) }
    {
        if !is_good_name(name) {
            return Err(PartError::BadName);
        }
        if !self.lists.is_last(name) {
            return Err(PartError::NotRising);
        }
        if MAX_LISTS <= self.lists.len() {
            return Err(PartError::TooManyLists);
        }
        if MAX_ENTRIES - self.entries < count {
            return Err(PartError::TooManyEntries);
        }
        Ok(())
    }

    /// Whether `move_at`, where it isn't refused, would change anything: not among equal URIs. It looks at the songs
    /// between the two places.
    pub fn would_move_at(&self, name: &str, from: usize, to: usize) -> bool
        ensures changes { move_refusal self.now name.now from to ≡ None
            → OnTrue result (moved (songs_or_none self.now name.now) from to ≢ songs_or_none self.now name.now) }
        ensures stays { move_refusal self.now name.now from to ≡ None
            → OnFalse result (moved (songs_or_none self.now name.now) from to ≡ songs_or_none self.now name.now) }
    {
        match self.get(name) {
            Ok(songs) => {
                let count = songs.len();
                from < count && to < count && songs.would_move(from, to)
            }
            Err(_) => false,
        }
    }
}
