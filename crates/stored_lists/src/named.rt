// The songs of playlists under their names.
ghost use Rattle.std.specs.Prelude.{◌≡◌, ◌≤◌, ◌<◌, [], ◌++◌, length, IfOk, OnOk, OnErr, None, IsSome, is_some, option_map, string_bytes};
ghost use Rattle.stored_lists.specs.Part.{is_last};
ghost use Rattle.stored_lists.specs.Songs.{without_range, moved};
ghost use Rattle.stored_lists.specs.Lists.{names_of, songs_of, songs_or_none, IsRising, with_list, without_list, with_songs, renamed};

use crate::lists::{Iter, Names};
use crate::songs::Songs;
use std::alloc::{AllocError, Global};
use std::collections::BTreeMap;
use std::marker::Model;

// The playlists under their names, without the limits.
#[derive(Debug, Drop)]
pub(crate) struct NamedSongs {
    map: BTreeMap<String, Songs>,
}

impl Model for NamedSongs {
    ghost use Rattle.std.specs.Prelude.{List};
    ghost use Rattle.stored_lists.specs.Lists.{Stored};
    ghost use Rattle.stored_lists.specs.ByName.{by_name};

    ghost Value = { Stored };

    ghost view = { λ l. by_name l.map.entries };
}

impl NamedSongs {
    pub(crate) fn new(alloc: Global) -> Self
        ensures { result ≡ [] }
    {
        NamedSongs {
            map: BTreeMap::new(alloc),
        }
    }

    pub(crate) fn len(&self) -> usize
        ensures count { result ≡ length self.now }
        ensures rising { IsRising self.now }
    {
        self.map.len()
    }

    pub(crate) fn get(&self, name: &str) -> Option<&Songs>
        ensures { option_map (λ songs. songs.now) result ≡ songs_of self.now name.now }
    {
        self.map.get(name)
    }

    pub(crate) fn contains(&self, name: &str) -> bool
        ensures { result ≡ is_some (songs_of self.now name.now) }
    {
        self.map.contains_key(name)
    }

    pub(crate) fn names(&self) -> Names<'_>
        ensures { result ≡ names_of self.now }
    {
        Names {
            names: self.map.keys(),
        }
    }

    pub(crate) fn iter(&self) -> Iter<'_>
        ensures { result ≡ self.now }
    {
        Iter {
            lists: self.map.iter(),
        }
    }

    // Whether a name is above all others.
    pub(crate) fn is_last(&self, name: &str) -> bool
        ensures { result ≡ is_last self.now name.now }
    {
        match self.map.last_key_value() {
            Some((last, _)) => last.as_str() < name,
            None => true,
        }
    }

    // The same playlists once more.
    pub(crate) fn try_clone(&self, alloc: Global) -> Result<NamedSongs, AllocError>
        ensures { IfOk result (λ copy. copy ≡ self.now) }
    {
        let mut copy = NamedSongs::new(alloc);
        let _count = self.len();
        for (name, songs) in self.iter() {
            let songs = songs.try_clone(alloc)?;
            copy.insert(String::from_str(alloc, name)?, songs)?;
        }
        Ok(copy)
    }

    pub(crate) fn insert(&mut self, name: String, songs: Songs) -> Result<(), AllocError>
        ensures ok { OnOk result (self.new ≡ with_list self.old (string_bytes name) songs) }
        ensures err { OnErr result (self.new ≡ self.old) }
        ensures rising { IsRising self.old }
    {
        self.map.insert(name, songs)?;
        Ok(())
    }

    pub(crate) fn remove(&mut self, name: &str) -> Option<Songs>
        ensures value { result ≡ songs_of self.old name.now }
        ensures removed { self.new ≡ without_list self.old name.now }
    {
        self.map.remove(name)
    }

    // Adds songs at the end of a playlist that is there.
    pub(crate) fn append(&mut self, name: &str, songs: Songs) -> Result<(), AllocError>
        ensures ok { OnOk result (self.new ≡ with_songs self.old name.now (songs_or_none self.old name.now ++ songs)) }
        ensures err { OnErr result (self.new ≡ self.old) }
    {
        match self.map.get_mut(name) {
            Some(list) => {
                list.append(songs)?;
                Ok(())
            }
            None => Ok(()),
        }
    }

    pub(crate) fn remove_range(&mut self, name: &str, start: usize, end: usize)
        requires forward { start ≤ end }
        requires in_range { end ≤ length (songs_or_none self.old name.now) }
        ensures { self.new ≡ with_songs self.old name.now (without_range (songs_or_none self.old name.now) start end) }
    {
        if let Some(songs) = self.map.get_mut(name) {
            songs.remove_range(start, end);
        }
    }

    pub(crate) fn move_one(&mut self, name: &str, from: usize, to: usize)
        requires from_in_range { from < length (songs_or_none self.old name.now) }
        requires to_in_range { to < length (songs_or_none self.old name.now) }
        ensures { self.new ≡ with_songs self.old name.now (moved (songs_or_none self.old name.now) from to) }
    {
        if let Some(songs) = self.map.get_mut(name) {
            songs.move_one(from, to);
        }
    }

    // Takes out all songs of a playlist.
    pub(crate) fn clear_songs(&mut self, name: &str)
        ensures { self.new ≡ with_songs self.old name.now [] }
    {
        if let Some(songs) = self.map.get_mut(name) {
            songs.clear();
        }
    }

    // Gives a playlist another name. The room for the new name is taken before the old one goes.
    pub(crate) fn rename(&mut self, alloc: Global, from: &str, to: &str) -> Result<(), AllocError>
        requires found { IsSome (songs_of self.old from.now) }
        requires free { songs_of self.old to.now ≡ None }
        ensures ok { OnOk result (self.new ≡ renamed self.old from.now to.now) }
        ensures err { OnErr result (self.new ≡ self.old) }
    {
        let name = String::from_str(alloc, to)?;
        self.insert(name, Songs::new(alloc))?;
        if let Some(songs) = self.remove(from) {
            self.replace(to, songs);
        }
        Ok(())
    }

    // Gives a playlist that is there other songs.
    pub(crate) fn replace(&mut self, name: &str, songs: Songs)
        ensures { self.new ≡ with_songs self.old name.now songs }
    {
        if let Some(list) = self.map.get_mut(name) {
            *list = songs;
        }
    }
}
