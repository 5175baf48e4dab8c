// The reading of the stickers.
ghost use Rattle.std.specs.Prelude.{◌≡◌, ◌≤◌, ◌<◌, ◌&&◌, [], length, is_some, IfOk, IfSome, IsTrue};
ghost use Rattle.std.specs.Cmp.Lexicographic.{slice_cmp};
ghost use Rattle.std.specs.Ordering.{nat_cmp, is_lt};
ghost use Rattle.song_db.specs.Change.{has_uri};
ghost use Rattle.stickers.specs.Limits.{MAX_STICKERS};
ghost use Rattle.stickers.specs.Name.{is_good_name};
ghost use Rattle.stickers.specs.Part.{is_last};
ghost use Rattle.state_codec.specs.Given.{Gives, GivesText, GivesRow, GivesSticker};
ghost use Rattle.state_codec.specs.Items.{items_at};
ghost use Rattle.state_codec.specs.ReadingSaved.{last_uri, song_uri_at, sticker_name_at, sticker_at, stickers_at};

use crate::fields::{ReadError, Reader};
use song_db::{SongDb, SongRow, Uri};
use std::alloc::Global;
use stickers::{MAX_STICKERS, PartError, Stickers, StickersBuilder};

// Whether a sticker of this URI and name can stand behind the others.
fn is_next(stickers: &StickersBuilder, uri: &Uri, name: &str) -> bool
    ensures { result ≡ (is_good_name name.now && is_last stickers.now uri.now name.now) }
{
    match stickers.check(uri, name) {
        Err(PartError::BadName) => false,
        Err(PartError::NotRising) => false,
        _ => true,
    }
}

// The row of a URI, if it has one.
fn row_of<'b>(songs: &'b SongDb, uri: &str) -> Option<&'b SongRow>
    ensures row { IfSome result (λ row. row.now.uri ≡ uri.now) }
    ensures there { is_some result ≡ has_uri songs.now uri.now }
{
    match songs.get(uri) {
        Ok(row) => Some(row),
        Err(_) => None,
    }
}

// Whether a URI stands below the last one.
fn is_below(uri: &str, last: &[u8]) -> bool
    ensures { result ≡ is_lt (slice_cmp nat_cmp uri.now last.now) }
{
    uri.as_bytes().cmp(last).is_lt()
}

impl<'a> Reader<'a> {
    // The row of a URI, that of the last sticker or one above it.
    #[tactic(auto, unfolding(crate::specs::Fields::such))]
    fn song_uri<'b>(&mut self, songs: &'b SongDb, last: &[u8]) -> Result<&'b SongRow, ReadError>
        ensures { GivesRow result self.new.rest.now (song_uri_at songs.now last.now self.old.rest.now) }
    {
        let fault = self.fault();
        let uri = self.text()?;
        let Some(row) = row_of(songs, uri) else {
            return Err(fault);
        };
        if is_below(uri, last) {
            return Err(fault);
        }
        Ok(row)
    }

    #[tactic(auto, unfolding(crate::specs::Fields::such))]
    fn sticker_name(&mut self, stickers: &StickersBuilder, uri: &Uri) -> Result<&'a str, ReadError>
        ensures name { GivesText result self.new.rest.now (sticker_name_at stickers.now uri.now self.old.rest.now) }
        ensures next { IfOk result (λ name. IsTrue (is_good_name name.now && is_last stickers.now uri.now name.now)) }
    {
        let fault = self.fault();
        let name = self.text()?;
        if !is_next(stickers, uri, name) {
            return Err(fault);
        }
        Ok(name)
    }

    // Answers the sticker's URI, beside which the next one stands.
    #[tactic(auto, unfolding(crate::specs::ReadingSaved::sticker_at))]
    fn sticker<'b>(
        &mut self,
        alloc: Global,
        songs: &'b SongDb,
        stickers: &mut StickersBuilder,
        last: &[u8],
    ) -> Result<&'b [u8], ReadError>
        requires last { last.now ≡ last_uri stickers.old }
        requires few { length stickers.old < MAX_STICKERS }
        ensures { GivesSticker result stickers.old stickers.new self.new.rest.now (sticker_at songs.now stickers.old self.old.rest.now) }
    {
        let row = self.song_uri(songs, last)?;
        let uri = row.as_uri().try_clone(alloc)?;
        let name = self.sticker_name(stickers, &uri)?;
        let value = self.value(alloc)?;
        match stickers.push(alloc, uri, name, value) {
            Ok(()) => Ok(row.uri().as_bytes()),
            Err(PartError::NoMemory) => Err(ReadError::NoMemory),
            // Name, order and limit were tested.
            Err(_) => unreachable!(),
        }
    }

    fn sticker_list(
        &mut self,
        alloc: Global,
        songs: &SongDb,
        count: u32,
    ) -> Result<Stickers, ReadError>
        requires { count ≤ MAX_STICKERS }
        ensures { Gives result self.new.rest.now (items_at (sticker_at songs.now) count [] self.old.rest.now) }
    {
        let mut stickers = StickersBuilder::new(alloc);
        let mut last: &[u8] = &[];
        for _i in 0..count {
            last = match self.sticker(alloc, songs, &mut stickers, last) {
                Ok(uri) => uri,
                Err(e) => return Err(e),
            };
        }
        Ok(stickers.finish())
    }

    /// The stickers, each of a song that has a row.
    #[tactic(auto, unfolding(crate::specs::Items::counted_at))]
    pub(crate) fn stickers(&mut self, alloc: Global, songs: &SongDb) -> Result<Stickers, ReadError>
        ensures { Gives result self.new.rest.now (stickers_at songs.now self.old.rest.now) }
    {
        let count = self.u32_within(0, MAX_STICKERS as u32)?;
        self.sticker_list(alloc, songs, count)
    }
}
