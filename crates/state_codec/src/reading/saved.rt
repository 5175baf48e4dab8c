// The reading of the head of a snapshot, its rows and the whole.
ghost use Rattle.std.specs.Prelude.{◌≡◌, ◌+◌, ◌≤◌, [], IfOk, IsTrue};
ghost use Rattle.std.specs.Int.{IsInRange};
ghost use Rattle.play_queue.specs.Limits.{MAX_ID, MAX_VERSION};
ghost use Rattle.song_db.specs.Last.{ends_before};
ghost use Rattle.song_db.specs.Limits.{MAX_ROWS};
ghost use Rattle.state_codec.specs.Given.{Gives, GivesParts};
ghost use Rattle.state_codec.specs.Items.{items_at};
ghost use Rattle.state_codec.specs.Layout.{IsLayout};
ghost use Rattle.state_codec.specs.ReadingRows.{row_at};
ghost use Rattle.state_codec.specs.ReadingSaved.{next_uri_at, songs_at};

use crate::fields::{ReadError, Reader, are_bytes};
use crate::layout::Layout;
use crate::saved::{Saved, SavedParts};
use play_queue::{MAX_ID, MAX_VERSION};
use player_core::{Options, Volume};
use profile::Profile;
use song_db::{MAX_ROWS, PushError, SongDb, SongRow, Uri};
use std::alloc::Global;

// What stands in front of the parts.
#[derive(Clone, Copy)]
pub(crate) struct Header {
    pub key: [u8; 32],
    pub order: u64,
    pub version: u32,
    pub next_id: u32,
    pub volume: Volume,
    pub options: Options,
}

// Whether the last row stands before a URI.
fn ends_before(songs: &SongDb, uri: &str) -> bool
    ensures { result ≡ ends_before songs.now uri.now }
{
    match songs.rows().last() {
        None => true,
        Some(last) => last.uri() < uri,
    }
}

impl Reader<'_> {
    ghost use Rattle.state_codec.specs.ReadingSaved.{options_at, header_at, saved_at, parts_at, before_fields};

    #[tactic(auto, unfolding(crate::specs::ReadingSaved::options_at))]
    fn options(&mut self, layout: Layout) -> Result<Options, ReadError>
        ensures { Gives result self.new.rest.now (options_at layout self.old.rest.now) }
    {
        Ok(Options {
            repeat: self.flag()?,
            random: self.flag()?,
            single: self.single()?,
            consume: self.consume(layout)?,
        })
    }

    #[tactic(auto, unfolding(crate::specs::ReadingSaved::header_at))]
    fn header(&mut self, layout: Layout) -> Result<Header, ReadError>
        ensures header { Gives result self.new.rest.now (header_at layout self.old.rest.now) }
        ensures version { IfOk result (λ header. IsInRange 1 MAX_VERSION header.version) }
        ensures next_id { IfOk result (λ header. IsInRange 1 (MAX_ID + 1) header.next_id) }
    {
        let key = self.key()?;
        let order = self.u64()?;
        let version = self.u32_within(1, MAX_VERSION)?;
        let next_id = self.u32_within(1, MAX_ID + 1)?;
        let volume = self.volume()?;
        let options = self.options(layout)?;
        Ok(Header {
            key,
            order,
            version,
            next_id,
            volume,
            options,
        })
    }

    // The URI of a row behind the known ones.
    #[tactic(auto, unfolding(crate::specs::Fields::such))]
    fn next_uri(&mut self, alloc: Global, songs: &SongDb) -> Result<Uri, ReadError>
        ensures uri { Gives result self.new.rest.now (next_uri_at songs.now self.old.rest.now) }
        ensures behind { IfOk result (λ uri. IsTrue (ends_before songs.now uri)) }
    {
        let fault = self.fault();
        let text = self.text()?;
        if !ends_before(songs, text) {
            return Err(fault);
        }
        match Uri::read(alloc, text)? {
            Some(uri) => Ok(uri),
            None => Err(fault),
        }
    }

    #[tactic(auto, unfolding(crate::specs::ReadingRows::row_at))]
    fn next_row(
        &mut self,
        alloc: Global,
        profile: Profile,
        songs: &SongDb,
    ) -> Result<SongRow, ReadError>
        ensures row { Gives result self.new.rest.now (row_at profile (next_uri_at songs.now) self.old.rest.now) }
        ensures behind { IfOk result (λ row. IsTrue (ends_before songs.now row.uri)) }
    {
        let uri = self.next_uri(alloc, songs)?;
        self.rest_of_row(alloc, profile, uri)
    }

    fn rows(&mut self, alloc: Global, profile: Profile, count: u32) -> Result<SongDb, ReadError>
        requires { count ≤ MAX_ROWS }
        ensures { Gives result self.new.rest.now (items_at (λ known. row_at profile (next_uri_at known)) count []
            self.old.rest.now) }
    {
        let mut songs = SongDb::new(alloc);
        for _i in 0..count {
            let row = match self.next_row(alloc, profile, &songs) {
                Ok(row) => row,
                Err(e) => return Err(e),
            };
            match songs.push_last(alloc, row) {
                Ok(()) => {}
                Err(PushError::NoMemory) => return Err(ReadError::NoMemory),
                // The row stands behind the others, and the limit was tested.
                Err(_) => unreachable!(),
            }
        }
        Ok(songs)
    }

    #[tactic(auto, unfolding(crate::specs::Items::counted_at))]
    fn songs(&mut self, alloc: Global, profile: Profile) -> Result<SongDb, ReadError>
        ensures { Gives result self.new.rest.now (songs_at profile self.old.rest.now) }
    {
        let count = self.u32_within(0, MAX_ROWS as u32)?;
        self.rows(alloc, profile, count)
    }

    #[tactic(auto, unfolding(crate::specs::ReadingSaved::parts_at))]
    fn parts(
        &mut self,
        alloc: Global,
        layout: Layout,
        header: Header,
    ) -> Result<SavedParts, ReadError>
        requires layout { IsLayout layout }
        requires version { IsInRange 1 MAX_VERSION header.version }
        requires next_id { IsInRange 1 (MAX_ID + 1) header.next_id }
        ensures { GivesParts result self.new.rest.now (parts_at layout header self.old.rest.now) }
    {
        let songs = self.songs(alloc, layout.profile)?;
        let queue = self.queue(alloc, layout, &songs, header.version, header.next_id)?;
        let lists = self.lists(alloc, layout)?;
        let stickers = self.stickers(alloc, &songs)?;
        let key = header.key;
        Ok(SavedParts {
            profile: layout.profile,
            key,
            order: header.order,
            volume: header.volume,
            options: header.options,
            songs,
            queue,
            lists,
            stickers,
            place: None,
            changed: None,
        })
    }

    // The parts, and what stands behind them.
    fn all_parts(
        &mut self,
        alloc: Global,
        layout: Layout,
        header: Header,
    ) -> Result<SavedParts, ReadError>
        requires layout { IsLayout layout }
        requires version { IsInRange 1 MAX_VERSION header.version }
        requires next_id { IsInRange 1 (MAX_ID + 1) header.next_id }
        ensures { GivesParts result self.new.rest.now (before_fields layout.profile (parts_at layout header self.old.rest.now)) }
    {
        let mut parts = self.parts(alloc, layout, header)?;
        match layout.profile {
            Profile::Named => Ok(parts),
            Profile::Wide => {
                let (times, place) = self.fields(alloc)?;
                parts.changed = Some(times);
                parts.place = Some(place);
                Ok(parts)
            }
        }
    }

    /// The state that the bytes spell, in front of their checksum.
    #[tactic(auto, unfolding(crate::specs::ReadingSaved::saved_at))]
    pub(crate) fn saved(&mut self, alloc: Global, layout: Layout) -> Result<Saved, ReadError>
        requires { IsLayout layout }
        ensures { Gives result self.new.rest.now (saved_at layout self.old.rest.now) }
    {
        are_bytes(self.rest);
        let header = self.header(layout)?;
        let parts = self.all_parts(alloc, layout, header)?;
        Ok(Saved::from_parts(parts))
    }
}
