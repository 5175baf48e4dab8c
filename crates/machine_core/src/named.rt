// What a command names, looked up: songs by the numbers of their rows.
ghost use Rattle.std.specs.Prelude.{◌≡◌, ◌+◌, ◌≤◌, ◌++◌, [], length, Ok, IfOk, OnOk, OnErr};
ghost use Rattle.std.specs.List.{range_with_len};
ghost use Rattle.std.specs.Option.{option_to_list};
ghost use Rattle.play_queue.specs.Shown.{shown};
ghost use Rattle.profile.specs.declared.profile.Profile.TheVariants.{Named, Wide};
ghost use Rattle.song_db.specs.Limits.{MAX_ROWS};
ghost use Rattle.song_db.specs.Query.{number_at};
ghost use Rattle.state_codec.specs.Numbers.{MAX_COUNT};
ghost use Rattle.state_codec.specs.OpsLists.{uris_of};
ghost use Rattle.machine_core.specs.Named.{Finds, numbers_of, numbers_under, numbers_named, song_named};

use crate::machine::Machine;
use crate::work::Failure;
use command_text::CommandRefusal;
use play_queue::{Entries, EntryRef};
use profile::Profile;
use song_db::{Place, SongDb, Uri};
use state_codec::RowNumbers;
use std::alloc::{AllocError, Global};

impl Machine {
    // The numbers of the rows that a path names: that of its song, or else those of all songs under the folder.
    pub(crate) fn rows_named(&self, alloc: Global, path: &str) -> Result<RowNumbers, Failure>
        ensures { Finds (numbers_named self.now.saved.profile self.now.saved.songs path.now) result }
    {
        let songs = self.saved.songs();
        match songs.row_number(path) {
            Ok(number) => Ok(row_numbers(numbers_from(alloc, number, 1)?)),
            Err(_) => numbers_under(alloc, self.saved.profile(), songs, Place::read(path)),
        }
    }

    // The URI of a song, in memory of its own.
    pub(crate) fn song_uri(&self, alloc: Global, uri: &str) -> Result<Uri, Failure>
        ensures { Finds (song_named self.now.saved.songs uri.now) result }
    {
        let Ok(row) = self.saved.songs().get(uri) else {
            return Err(Failure::Refused(CommandRefusal::NoSuchUri));
        };
        Ok(row.as_uri().try_clone(alloc)?)
    }
}

// The numbers of the rows of these songs; a song that is gone has none.
pub(crate) fn numbers_of(alloc: Global, songs: &SongDb, uris: &[Uri]) -> Result<RowNumbers, Failure>
    requires { length uris.now ≤ MAX_COUNT }
    ensures { Finds (Ok (numbers_of songs.now uris.now)) result }
{
    let mut numbers = Vec::with_capacity(alloc, uris.len())?;
    for uri in uris {
        push_number(songs, uri.as_str(), &mut numbers)?;
    }
    Ok(row_numbers(numbers))
}

// The numbers of the rows of the songs of entries, each looked for first where it was last known to stand.
pub(crate) fn numbers_of_entries(
    alloc: Global,
    songs: &SongDb,
    entries: &Entries,
) -> Result<RowNumbers, Failure>
    requires { length entries.now ≤ MAX_COUNT }
    ensures { Finds (Ok (numbers_of songs.now (uris_of entries.now))) result }
{
    let mut numbers = Vec::with_capacity(alloc, entries.len())?;
    for at in 0..entries.len() {
        push_entry_number(songs, &entries.at(at), &mut numbers)?;
    }
    Ok(row_numbers(numbers))
}

// Adds the number of an entry's row, if it has one.
fn push_entry_number(
    songs: &SongDb,
    entry: &EntryRef<'_>,
    numbers: &mut Vec<u32>,
) -> Result<(), AllocError>
    ensures { OnOk result (numbers.new.items ≡ numbers.old.items ++ option_to_list (number_at songs.now (shown entry.now).uri)) }
{
    if let Ok(number) = songs.number_of(entry.uri) {
        numbers.push(number as u32)?;
    }
    Ok(())
}

// Adds the number of a song's row, if it has one.
pub(crate) fn push_number(
    songs: &SongDb,
    uri: &str,
    numbers: &mut Vec<u32>,
) -> Result<(), AllocError>
    ensures { OnOk result (numbers.new.items ≡ numbers.old.items ++ option_to_list (number_at songs.now uri.now)) }
{
    if let Ok(number) = songs.row_number(uri) {
        numbers.push(number as u32)?;
    }
    Ok(())
}

// The numbers of the rows under a folder, as they are told.
fn numbers_under(
    alloc: Global,
    profile: Profile,
    songs: &SongDb,
    place: Place<'_>,
) -> Result<RowNumbers, Failure>
    ensures { Finds (numbers_under profile songs.now place.entry) result }
{
    match profile {
        Profile::Named => numbers_by_uri(alloc, songs, place),
        Profile::Wide => numbers_told(alloc, songs, place),
    }
}

// Those in the order in which the songs are told.
fn numbers_told(alloc: Global, songs: &SongDb, place: Place<'_>) -> Result<RowNumbers, Failure>
    ensures { Finds (numbers_under Wide songs.now place.entry) result }
{
    let _limit = songs.len();
    let Ok(rows) = songs.told_under(place) else {
        return Err(Failure::Refused(CommandRefusal::NoSuchUri));
    };
    let mut numbers = Vec::with_capacity(alloc, rows.len())?;
    for row in rows {
        push_number(songs, row.uri(), &mut numbers)?;
    }
    Ok(row_numbers(numbers))
}

// Those by URI, which stand together.
fn numbers_by_uri(alloc: Global, songs: &SongDb, place: Place<'_>) -> Result<RowNumbers, Failure>
    ensures { Finds (numbers_under Named songs.now place.entry) result }
{
    let _limit = songs.len();
    let Ok(first) = songs.first_number_under(place) else {
        return Err(Failure::Refused(CommandRefusal::NoSuchUri));
    };
    let Ok(rows) = songs.rows_under(place) else {
        return Err(Failure::Refused(CommandRefusal::NoSuchUri));
    };
    Ok(row_numbers(numbers_from(alloc, first, rows.len())?))
}

// So many numbers, one after the other.
fn numbers_from(alloc: Global, first: usize, count: usize) -> Result<Vec<u32>, AllocError>
    requires { first + count ≤ MAX_ROWS }
    ensures { IfOk result (λ numbers. numbers.items ≡ range_with_len first count) }
{
    let mut numbers = Vec::with_capacity(alloc, count)?;
    for number in first..first + count {
        numbers.push(number as u32)?;
    }
    Ok(numbers)
}

// Row numbers that are few enough for an op.
pub(crate) fn row_numbers(numbers: Vec<u32>) -> RowNumbers
    requires { length numbers.items ≤ MAX_COUNT }
    ensures { result ≡ numbers.items }
{
    match RowNumbers::new(numbers) {
        Some(rows) => rows,
        None => unreachable!(),
    }
}
