// The reading of the stored playlists.
ghost use Rattle.std.specs.Prelude.{◌≡◌, ◌≤◌, ◌<◌, ◌&&◌, [], false, not, length, IfOk, IsTrue};
ghost use Rattle.stored_lists.specs.Limits.{MAX_LISTS};
ghost use Rattle.stored_lists.specs.Lists.{is_full_for};
ghost use Rattle.stored_lists.specs.Name.{is_good_name};
ghost use Rattle.stored_lists.specs.Part.{is_last};
ghost use Rattle.state_codec.specs.Fields.{such, u32_at};
ghost use Rattle.state_codec.specs.Given.{Gives, GivesText, GivesMore};
ghost use Rattle.state_codec.specs.Items.{items_at};
ghost use Rattle.state_codec.specs.Layout.{IsLayout};
ghost use Rattle.state_codec.specs.ReadingRows.{uri_at};
ghost use Rattle.state_codec.specs.ReadingSaved.{list_name_at, uris_at, playlist_at, lists_at};

use crate::fields::{ReadError, Reader};
use crate::layout::Layout;
use std::alloc::Global;
use stored_lists::{Lists, MAX_ENTRIES, PartError, Songs};

// Whether a playlist of this name can stand behind the others.
fn is_next(lists: &Lists, name: &str) -> bool
    ensures { result ≡ (is_good_name name.now && is_last lists.now name.now) }
{
    match lists.check_last(name, 0) {
        Err(PartError::BadName) => false,
        Err(PartError::NotRising) => false,
        _ => true,
    }
}

// Whether all playlists together would have too many songs with so many more.
fn is_full_for(lists: &Lists, count: u32) -> bool
    ensures { result ≡ is_full_for lists.now count }
{
    let _within = lists.len();
    MAX_ENTRIES - lists.entries() < count as usize
}

impl<'a> Reader<'a> {
    #[tactic(auto, unfolding(crate::specs::Fields::such))]
    fn list_name(&mut self, lists: &Lists) -> Result<&'a str, ReadError>
        ensures name { GivesText result self.new.rest.now (list_name_at lists.now self.old.rest.now) }
        ensures next { IfOk result (λ name. IsTrue (is_good_name name.now && is_last lists.now name.now)) }
    {
        let fault = self.fault();
        let name = self.text()?;
        if !is_next(lists, name) {
            return Err(fault);
        }
        Ok(name)
    }

    #[tactic(auto, unfolding(crate::specs::Fields::such))]
    fn song_count(&mut self, lists: &Lists) -> Result<u32, ReadError>
        ensures count { Gives result self.new.rest.now (such (λ n. not (is_full_for lists.now n)) u32_at self.old.rest.now) }
        ensures fits { IfOk result (λ count. is_full_for lists.now count ≡ false) }
    {
        let fault = self.fault();
        let count = self.u32()?;
        if is_full_for(lists, count) {
            return Err(fault);
        }
        Ok(count)
    }

    fn uris(&mut self, alloc: Global, count: u32) -> Result<Songs, ReadError>
        ensures { Gives result self.new.rest.now (items_at (λ known. uri_at) count [] self.old.rest.now) }
    {
        let mut songs = Songs::new(alloc);
        for _i in 0..count {
            let uri = match self.uri(alloc) {
                Ok(uri) => uri,
                Err(e) => return Err(e),
            };
            match songs.push(uri) {
                Ok(()) => {}
                Err(_) => return Err(ReadError::NoMemory),
            }
        }
        Ok(songs)
    }

    #[tactic(auto, unfolding(crate::specs::Items::counted_at))]
    fn list_songs(&mut self, alloc: Global, lists: &Lists) -> Result<Songs, ReadError>
        ensures songs { Gives result self.new.rest.now (uris_at lists.now self.old.rest.now) }
        ensures fits { IfOk result (λ songs. is_full_for lists.now (length songs) ≡ false) }
    {
        let count = self.song_count(lists)?;
        self.uris(alloc, count)
    }

    #[tactic(auto, unfolding(crate::specs::ReadingSaved::playlist_at))]
    fn playlist(&mut self, alloc: Global, lists: &mut Lists) -> Result<(), ReadError>
        requires { length lists.old < MAX_LISTS }
        ensures { GivesMore result lists.old lists.new self.new.rest.now (playlist_at lists.old self.old.rest.now) }
    {
        let name = self.list_name(lists)?;
        let songs = self.list_songs(alloc, lists)?;
        match lists.push_last(alloc, name, songs) {
            Ok(()) => Ok(()),
            Err(PartError::NoMemory) => Err(ReadError::NoMemory),
            // Name, order and limits were tested.
            Err(_) => unreachable!(),
        }
    }

    fn playlists(&mut self, alloc: Global, count: u32) -> Result<Lists, ReadError>
        requires { count ≤ MAX_LISTS }
        ensures { Gives result self.new.rest.now (items_at playlist_at count [] self.old.rest.now) }
    {
        let mut lists = Lists::new(alloc);
        for _i in 0..count {
            match self.playlist(alloc, &mut lists) {
                Ok(()) => {}
                Err(e) => return Err(e),
            }
        }
        Ok(lists)
    }

    /// The playlists.
    #[tactic(auto, unfolding(crate::specs::Items::counted_at))]
    pub(crate) fn lists(&mut self, alloc: Global, layout: Layout) -> Result<Lists, ReadError>
        requires { IsLayout layout }
        ensures { Gives result self.new.rest.now (lists_at layout self.old.rest.now) }
    {
        let count = self.u32_within(0, layout.list_limit)?;
        self.playlists(alloc, count)
    }
}
