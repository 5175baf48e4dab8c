// The stored playlists, with their limits.
ghost use Rattle.std.specs.Prelude.{◌≡◌, ◌↔◌, [], ◌∷◌, ◌++◌, length, IsTrue, Some, None, IfOk, OnOk, OnErr};
ghost use Rattle.stored_lists.specs.Refusal.{Answers, AnswersIfMemory, AnswersUnless};
ghost use Rattle.stored_lists.specs.Songs.{without_range, moved};
ghost use Rattle.stored_lists.specs.Fits.{HasRoom};
ghost use Rattle.stored_lists.specs.Lists.{names_of, songs_of, songs_or_none, total, IsRising, IsWithinLimits};
ghost use Rattle.stored_lists.specs.Lists.{with_list, without_list, with_songs, added, renamed};
ghost use Rattle.stored_lists.specs.Lists.{name_refusal, save_refusal, add_refusal, replace_refusal, remove_refusal};
ghost use Rattle.stored_lists.specs.Lists.{move_refusal, rename_refusal};
ghost use Rattle.stored_lists.specs.Part.{part_refusal};

use crate::name::is_good_name;
use crate::named::NamedSongs;
use crate::refusal::{ListsError, PartError};
use crate::songs::Songs;
use std::alloc::{AllocError, Global};
use std::marker::Model;

mod checking;
mod iter;

pub use iter::{Iter, Names};

/// The stored playlists by the bytes of their names: at most 1,024, with at most 65,536 entries together.
///
/// A call first tests the names, then whether the playlist is there, then positions, then whether a new name is free,
/// then the limits; it takes memory last. A refused call leaves everything as it was.
#[derive(Debug, Drop)]
pub struct Lists {
    lists: NamedSongs,
    entries: usize,
}

impl Model for Lists {
    ghost use Rattle.std.specs.Prelude.{◌≡◌};
    ghost use Rattle.stored_lists.specs.Lists.{Stored, total, IsWithinLimits, IsCounted};

    ghost Value = { Stored };

    ghost view = { λ l. l.lists };

    ghost invariant = { λ l. IsCounted l.lists l.entries };
}

impl Lists {
    /// No playlist. It takes no memory yet.
    pub fn new(alloc: Global) -> Self
        ensures { result ≡ [] }
    {
        Lists {
            lists: NamedSongs::new(alloc),
            entries: 0,
        }
    }

    /// How many playlists there are.
    pub fn len(&self) -> usize
        ensures count { result ≡ length self.now }
        ensures within { IsWithinLimits self.now }
        ensures rising { IsRising self.now }
    {
        let _entries = self.entries;
        self.lists.len()
    }

    pub fn is_empty(&self) -> bool
        ensures { IsTrue result ↔ (self.now ≡ []) }
    {
        self.lists.len() == 0
    }

    /// How many entries all playlists have together.
    pub fn entries(&self) -> usize
        ensures { result ≡ total self.now }
    {
        self.entries
    }

    /// The names by their bytes.
    pub fn names(&self) -> Names<'_>
        ensures { result ≡ names_of self.now }
    {
        self.lists.names()
    }

    /// The names, by their bytes, with their songs.
    pub fn iter(&self) -> Iter<'_>
        ensures { result ≡ self.now }
    {
        self.lists.iter()
    }

    /// The songs of a playlist. Refused by `BadName` and `NoSuchList`.
    pub fn get(&self, name: &str) -> Result<&Songs, ListsError>
        ensures songs { IfOk result (λ songs. songs_of self.now name.now ≡ Some songs.now) }
        ensures answer { Answers (name_refusal self.now name.now) result }
    {
        if !is_good_name(name) {
            return Err(ListsError::BadName);
        }
        match self.lists.get(name) {
            Some(songs) => Ok(songs),
            None => Err(ListsError::NoSuchList),
        }
    }

    /// Stores a new playlist. Refused by `BadName`, `ListExists`, `ListsFull` and `NoMemory`.
    pub fn save(&mut self, alloc: Global, name: &str, songs: Songs) -> Result<(), ListsError>
        ensures ok { OnOk result (self.new ≡ with_list self.old name.now songs) }
        ensures err { OnErr result (self.new ≡ self.old) }
        ensures answer { AnswersIfMemory (save_refusal self.old name.now (length songs)) result }
    {
        self.check_save(name, songs.len())?;
        self.insert_new(alloc, name, songs)?;
        Ok(())
    }

    /// Adds songs at the end of a playlist, which is made if missing, with no songs too. Refused by `BadName`, `ListsFull` and `NoMemory`.
    pub fn add(&mut self, alloc: Global, name: &str, songs: Songs) -> Result<(), ListsError>
        ensures ok { OnOk result (self.new ≡ added self.old name.now songs) }
        ensures err { OnErr result (self.new ≡ self.old) }
        ensures answer { AnswersIfMemory (add_refusal self.old name.now (length songs)) result }
    {
        let count = songs.len();
        self.check_add(name, count)?;
        if self.lists.contains(name) {
            self.lists.append(name, songs)?;
            self.entries += count;
        } else {
            self.insert_new(alloc, name, songs)?;
        }
        Ok(())
    }

    /// Gives a playlist these songs in place of those that it has: what taking the playlist out and saving it anew would
    /// make of it. It takes no memory. Refused by `BadName`, `NoSuchList`, and by `ListsFull` where all playlists would
    /// have too many entries then; those that give way don't count.
    pub fn replace(&mut self, name: &str, songs: Songs) -> Result<(), ListsError>
        ensures ok { OnOk result (self.new ≡ with_songs self.old name.now songs) }
        ensures anew { OnOk result (self.new ≡ with_list (without_list self.old name.now) name.now songs) }
        ensures err { OnErr result (self.new ≡ self.old) }
        ensures answer { Answers (replace_refusal self.old name.now (length songs)) result }
    {
        let count = songs.len();
        self.check_replace(name, count)?;
        let old = self.get(name)?.len();
        let _rising = self.lists.len();
        self.lists.replace(name, songs);
        self.entries = self.entries - old + count;
        Ok(())
    }

    /// Takes out the songs from position `start` up to, but not including, `end`. Refused by `BadName`, `NoSuchList`,
    /// and by `BadIndex` where the range ends before it begins or past the end of the playlist.
    pub fn remove_at(&mut self, name: &str, start: usize, end: usize) -> Result<(), ListsError>
        ensures ok { OnOk result (self.new ≡ with_songs self.old name.now (without_range (songs_or_none self.old name.now) start end)) }
        ensures err { OnErr result (self.new ≡ self.old) }
        ensures answer { Answers (remove_refusal self.old name.now start end) result }
    {
        self.check_remove_at(name, start, end)?;
        self.lists.remove_range(name, start, end);
        self.entries -= end - start;
        Ok(())
    }

    /// Moves the song at position `from` so that it stands at `to`. Refused by `BadName`, `NoSuchList`, and by
    /// `BadIndex` where a position is past the end of the playlist.
    pub fn move_at(&mut self, name: &str, from: usize, to: usize) -> Result<(), ListsError>
        ensures ok { OnOk result (self.new ≡ with_songs self.old name.now (moved (songs_or_none self.old name.now) from to)) }
        ensures err { OnErr result (self.new ≡ self.old) }
        ensures answer { Answers (move_refusal self.old name.now from to) result }
    {
        self.check_move_at(name, from, to)?;
        self.lists.move_one(name, from, to);
        Ok(())
    }

    /// Takes out all songs; the playlist stays. Refused by `BadName` and `NoSuchList`.
    pub fn clear(&mut self, name: &str) -> Result<(), ListsError>
        ensures ok { OnOk result (self.new ≡ with_songs self.old name.now []) }
        ensures err { OnErr result (self.new ≡ self.old) }
        ensures answer { Answers (name_refusal self.old name.now) result }
    {
        let count = self.get(name)?.len();
        self.lists.clear_songs(name);
        self.entries -= count;
        Ok(())
    }

    /// Gives a playlist another name. Refused by `BadName` for either name, `NoSuchList`, `ListExists` (where the new
    /// name is the old one too) and `NoMemory`.
    pub fn rename(&mut self, alloc: Global, from: &str, to: &str) -> Result<(), ListsError>
        ensures ok { OnOk result (self.new ≡ renamed self.old from.now to.now) }
        ensures err { OnErr result (self.new ≡ self.old) }
        ensures answer { AnswersIfMemory (rename_refusal self.old from.now to.now) result }
    {
        self.check_rename(from, to)?;
        self.lists.rename(alloc, from, to)?;
        Ok(())
    }

    /// Adds a playlist behind all others, as playlists were saved one after the other, by one look-up of the last
    /// name. Refused by `BadName`, by `NotRising` where the name isn't above all others, by `TooManyLists`,
    /// `TooManyEntries` and `NoMemory`.
    pub fn push_last(&mut self, alloc: Global, name: &str, songs: Songs) -> Result<(), PartError>
        ensures ok { OnOk result (self.new ≡ self.old ++ (name.now, songs) ∷ []) }
        ensures err { OnErr result (self.new ≡ self.old) }
        ensures answer { AnswersUnless PartError.NoMemory (part_refusal self.old name.now (length songs)) result }
    {
        self.check_last(name, songs.len())?;
        self.insert_new(alloc, name, songs)?;
        Ok(())
    }

    /// The same playlists once more, in memory of their own.
    pub fn try_clone(&self, alloc: Global) -> Result<Lists, AllocError>
        ensures { IfOk result (λ copy. copy ≡ self.now) }
    {
        Ok(Lists {
            lists: self.lists.try_clone(alloc)?,
            entries: self.entries,
        })
    }

    /// Takes a playlist out. Refused by `BadName` and `NoSuchList`.
    pub fn remove(&mut self, name: &str) -> Result<(), ListsError>
        ensures ok { OnOk result (self.new ≡ without_list self.old name.now) }
        ensures err { OnErr result (self.new ≡ self.old) }
        ensures answer { Answers (name_refusal self.old name.now) result }
    {
        let count = self.get(name)?.len();
        self.lists.remove(name);
        self.entries -= count;
        Ok(())
    }

    // Stores a playlist under a good name that is free, where it has room.
    fn insert_new(&mut self, alloc: Global, name: &str, songs: Songs) -> Result<(), AllocError>
        requires room { HasRoom self.old name.now (length songs) }
        requires free { songs_of self.old name.now ≡ None }
        ensures ok { OnOk result (self.new ≡ with_list self.old name.now songs) }
        ensures err { OnErr result (self.new ≡ self.old) }
    {
        let count = songs.len();
        let name = String::from_str(alloc, name)?;
        self.lists.insert(name, songs)?;
        self.entries += count;
        Ok(())
    }
}
