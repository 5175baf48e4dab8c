// The database of songs, and what is asked of it.
ghost use Rattle.std.specs.Prelude.{◌≡◌, ◌↔◌, ◌+◌, ◌≤◌, [], ◌∷◌, ◌++◌, length, map, take, drop, IsTrue, Some, is_some};
ghost use Rattle.std.specs.Prelude.{IfOk, OnOk, OnErr, IsOkUnless, List, count_by, true};
ghost use Rattle.std.specs.Prelude.{Bool, filter};
ghost use Rattle.song_db.specs.Limits.{MAX_ROWS};
ghost use Rattle.song_db.specs.Change.{IsDatabase, after_batch};
ghost use Rattle.song_db.specs.Duration.{total_of};
ghost use Rattle.song_db.specs.Effect.{effects_of};
ghost use Rattle.song_db.specs.Known.{known_in};
ghost use Rattle.song_db.specs.Last.{ends_before, push_refusal, AnswersPush};
ghost use Rattle.song_db.specs.Query.{number_at, rows_under, is_folder, folders_in, songs_in, values_of};
ghost use Rattle.song_db.specs.Refusal.{AnswersExactlyIfThere, AnswersIfThere};
ghost use Rattle.song_db.specs.Replaced.{IsRising};
ghost use Rattle.song_db.specs.Row.{Row, row_uri, row_at};
ghost use Rattle.song_db.specs.Tagged.{count_tagged};
ghost use Rattle.song_db.specs.Told.{told_order, told_under};
ghost use Rattle.song_db.specs.ToldWalk.{told_walk};
ghost use Rattle.song_db.specs.ValueIndex.{IsIndexed};
ghost use Rattle.song_db.specs.Valued.{has_value, rows_with};
ghost use Rattle.song_db.specs.Walk.{IsWalk, walk_of};
ghost use Rattle.song_db.specs.declared.refusal.SongDbError.TheVariants.{NoMemory};
ghost use Rattle.song_files.specs.declared.tag.Tag.TheVariants.{Artist, Album};

use crate::batch::make_changes;
use crate::change::RowChange;
use crate::effect::Effects;
use crate::folder_rows::{rows_below, run_below};
use crate::known_rows::known_in;
use crate::limits::MAX_ROWS;
use crate::near::position_near;
use crate::order::ScanOrder;
use crate::place::Place;
use crate::refusal::{PushError, SongDbError};
use crate::row::SongRow;
use crate::row_uri::RowUri;
use crate::rows::{clone_rows, ends_before, position};
use crate::rules::LibraryRules;
use crate::tag_counts::exchange;
use crate::texts::Texts;
use crate::told_rows::{in_told_order, prepare_all, put_told, told_below};
use crate::told_walk::ToldWalk;
use crate::uri::Uri;
use crate::value_index::ValueIndex;
use crate::valued::{count_with, rows_with};
use crate::values::{ValueCounts, folders_of, songs_of, value_counts, values_of};
use crate::walk::Walk;
use song_files::{TAG_COUNT, Tag};
use std::alloc::Global;
use std::fmt;
use std::marker::Model;

/// The songs, by the bytes of their URIs: at most 65,536, and one for each URI.
#[derive(Drop)]
pub struct SongDb {
    rows: Vec<SongRow>,
    // The same in the order in which they are told.
    told: Vec<SongRow>,
    // The milliseconds of all of them.
    total: u128,
    // How many of them have a text of each tag, by the tags' numbers.
    counts: [u32; TAG_COUNT],
    // The rows by the values of their tags. Where memory was refused, there is none, and the rows themselves are looked
    // at, until a batch finds memory for it.
    index: Option<ValueIndex>,
}

/// The songs and their milliseconds, and not their index.
impl fmt::Debug for SongDb {
    fn fmt<W: fmt::Write>(&self, f: &mut fmt::Formatter<W>) -> fmt::Result {
        f.debug_struct("SongDb")
            .field("rows", &self.rows)
            .field("total", &self.total)
            .finish()
    }
}

impl Model for SongDb {
    ghost use Rattle.std.specs.Prelude.{List};
    ghost use Rattle.song_db.specs.Row.{Row};
    ghost use Rattle.song_db.specs.Kept.{AreKept};

    ghost Value = { List Row };

    ghost view = { λ d. d.rows.items };

    ghost invariant = { λ d. AreKept d.rows.items d.told.items d.total d.counts d.index };
}

impl SongDb {
    /// No song. It takes no memory yet.
    pub fn new(alloc: Global) -> Self
        ensures { result ≡ [] }
    {
        SongDb {
            rows: Vec::new(alloc),
            told: Vec::new(alloc),
            total: 0,
            counts: [0; TAG_COUNT],
            index: Some(ValueIndex::new(alloc)),
        }
    }

    pub fn len(&self) -> usize
        ensures count { result ≡ length self.now }
        ensures within { IsDatabase self.now }
    {
        self.rows.len()
    }

    pub fn is_empty(&self) -> bool
        ensures { IsTrue result ↔ (self.now ≡ []) }
    {
        self.rows.is_empty()
    }

    /// The songs by URI; a song's number is its place here, from 0 on.
    pub fn rows(&self) -> &[SongRow]
        ensures rows { result.now ≡ self.now }
        ensures within { IsDatabase self.now }
    {
        self.rows.as_slice()
    }

    /// How many milliseconds all the songs play, each rounded down. It is kept, not summed.
    pub fn milliseconds(&self) -> u128
        ensures { result ≡ total_of self.now }
    {
        self.total
    }

    /// Makes the changes of a batch in their order, and says what each did at its turn. A new row that would pass the limit is left out.
    ///
    /// Each change is a binary search, and one for each of its values; a new row moves those behind it, and a row that is there
    /// already moves nothing. Memory is taken first: refused by `NoMemory`, the songs stay as they were. Memory that is
    /// refused to the index alone is no refusal: until a later batch finds it, the rows are looked at in its place.
    pub fn apply_batch(
        &mut self,
        alloc: Global,
        changes: Vec<RowChange>,
    ) -> Result<Effects, SongDbError>
        ensures rows { OnOk result (self.new ≡ after_batch self.old changes.items) }
        ensures effects { IfOk result (λ effects. effects ≡ effects_of self.old changes.items) }
        ensures err { OnErr result (self.new ≡ self.old) }
        ensures only { IsOkUnless result NoMemory }
    {
        self.have_index(alloc);
        let mut effects = Vec::with_capacity(alloc, changes.len())?;
        self.rows.reserve(changes.len())?;
        self.told.reserve(changes.len())?;
        let changes = prepare_all(alloc, changes)?;
        make_changes(
            alloc,
            &mut self.rows,
            &mut self.told,
            &mut self.total,
            &mut self.counts,
            &mut self.index,
            changes,
            &mut effects,
        );
        Ok(Effects { effects })
    }

    // Makes the index where there is none, if there is memory for it.
    fn have_index(&mut self, alloc: Global)
        ensures { self.new ≡ self.old }
    {
        if self.index.is_none() {
            self.index = ValueIndex::of(alloc, &self.rows).ok();
        }
    }

    /// The song of a URI, by a binary search. Refused by `NoSuchUri`.
    pub fn get(&self, uri: &str) -> Result<&SongRow, SongDbError>
        ensures row { IfOk result (λ row. row_at self.now uri.now ≡ Some row.now) }
        ensures answer { AnswersExactlyIfThere (is_some (row_at self.now uri.now)) result }
        ensures within { IsDatabase self.now }
    {
        match position(&self.rows, uri) {
            Some(at) => Ok(&self.rows[at]),
            None => Err(SongDbError::NoSuchUri),
        }
    }

    /// The number of a URI's song, by a binary search. Refused by `NoSuchUri`.
    pub fn row_number(&self, uri: &str) -> Result<usize, SongDbError>
        ensures number { IfOk result (λ at. number_at self.now uri.now ≡ Some at) }
        ensures answer { AnswersExactlyIfThere (is_some (row_at self.now uri.now)) result }
        ensures within { IsDatabase self.now }
    {
        position(&self.rows, uri).ok_or(SongDbError::NoSuchUri)
    }

    /// The song of a URI, looked for first where its row was last known to stand. Refused by `NoSuchUri`.
    pub fn row_of(&self, uri: &RowUri) -> Result<&SongRow, SongDbError>
        ensures row { IfOk result (λ row. row_at self.now uri.now ≡ Some row.now) }
        ensures answer { AnswersExactlyIfThere (is_some (row_at self.now uri.now)) result }
        ensures within { IsDatabase self.now }
    {
        match position_near(&self.rows, uri.as_str(), uri.number()) {
            Some(number) => Ok(&self.rows[number]),
            None => Err(SongDbError::NoSuchUri),
        }
    }

    /// The number of a URI's song, looked for first where its row was last known to stand. Refused by `NoSuchUri`.
    pub fn number_of(&self, uri: &RowUri) -> Result<usize, SongDbError>
        ensures number { IfOk result (λ at. number_at self.now uri.now ≡ Some at) }
        ensures answer { AnswersExactlyIfThere (is_some (row_at self.now uri.now)) result }
        ensures within { IsDatabase self.now }
    {
        position_near(&self.rows, uri.as_str(), uri.number()).ok_or(SongDbError::NoSuchUri)
    }

    /// The songs under a place, by URI: they stand together. Refused by `NoSuchUri` where the place is no folder: none
    /// of the songs stands below it, and it isn't the root.
    pub fn rows_under(&self, place: Place<'_>) -> Result<&[SongRow], SongDbError>
        ensures rows { IfOk result (λ rows. rows.now ≡ rows_under self.now place.entry) }
        ensures rising { IfOk result (λ rows. IsRising row_uri rows.now) }
        ensures answer { AnswersExactlyIfThere (is_folder self.now place.entry) result }
    {
        match place {
            Place::Root => Ok(self.rows.as_slice()),
            Place::At(folder) => {
                let rows = rows_below(&self.rows, folder);
                if rows.is_empty() {
                    return Err(SongDbError::NoSuchUri);
                }
                Ok(rows)
            }
        }
    }

    /// The number of the first song under a place; those under it have the numbers from there on. Refused by
    /// `NoSuchUri` where the place is no folder.
    pub fn first_number_under(&self, place: Place<'_>) -> Result<usize, SongDbError>
        ensures run { IfOk result (λ at. take (length (rows_under self.now place.entry)) (drop at self.now)
            ≡ rows_under self.now place.entry) }
        ensures within { IfOk result (λ at. at + length (rows_under self.now place.entry) ≤ length self.now) }
        ensures answer { AnswersExactlyIfThere (is_folder self.now place.entry) result }
    {
        match place {
            Place::Root => Ok(0),
            Place::At(folder) => {
                let (start, end) = run_below(&self.rows, folder);
                if start == end {
                    return Err(SongDbError::NoSuchUri);
                }
                Ok(start)
            }
        }
    }

    /// The order of a job for a place, by these rules: a folder or a song, or the root. It knows the songs there, the song of that
    /// very URI included, by their URIs and, where the rules keep them, their stamps. Refused by `NoMemory`.
    pub fn scan_order(
        &self,
        alloc: Global,
        job: u32,
        place: Option<Uri>,
        rules: LibraryRules,
    ) -> Result<ScanOrder, SongDbError>
        ensures order { IfOk result (λ order. order
            ≡ record { job = job; uri = place; rules = rules; known = known_in rules self.now place }) }
        ensures only { IsOkUnless result NoMemory }
    {
        let known = known_in(alloc, &self.rows, place.as_ref(), rules)?;
        Ok(ScanOrder::of_known(job, place, rules, known))
    }

    /// Puts a row behind the last one, so that a database is built from rows that rise in linear time. Refused by
    /// `NotRising`, `Full` and `NoMemory`.
    pub fn push_last(&mut self, alloc: Global, row: SongRow) -> Result<(), PushError>
        ensures ok { OnOk result (self.new ≡ self.old ++ row ∷ []) }
        ensures err { OnErr result (self.new ≡ self.old) }
        ensures answer { AnswersPush (push_refusal self.old row) result }
    {
        if !ends_before(&self.rows, row.uri()) {
            return Err(PushError::NotRising);
        }
        if self.rows.len() >= MAX_ROWS {
            return Err(PushError::Full);
        }
        self.rows.reserve(1)?;
        self.told.reserve(1)?;
        let copy = row.try_clone()?;
        self.index = with_last(alloc, self.index.take(), &row);
        self.total += row.milliseconds();
        exchange(&mut self.counts, None, Some(&row));
        let last = self.told.len();
        put_told(&mut self.told, copy, last);
        self.rows.push_reserved(row);
        Ok(())
    }

    /// The same songs once more, without an index until the first batch. The copies of the rows share their memory. Refused by
    /// `NoMemory`.
    pub fn try_clone(&self, alloc: Global) -> Result<SongDb, SongDbError>
        ensures songs { IfOk result (λ copy. copy ≡ self.now) }
        ensures only { IsOkUnless result NoMemory }
    {
        let rows = clone_rows(alloc, &self.rows)?;
        let told = clone_rows(alloc, &self.told)?;
        Ok(SongDb {
            rows,
            told,
            total: self.total,
            counts: self.counts,
            index: None,
        })
    }

    /// The songs in the order in which they are told: those of a folder by album, disc, track and name, and then the folders in it, by
    /// their names without case and marks of letters.
    pub fn told_rows(&self) -> &[SongRow]
        ensures rows { result.now ≡ told_order self.now }
        ensures few { length result.now ≤ length self.now }
    {
        self.told.as_slice()
    }

    /// The songs under a place in that order: they stand together. Refused by `NoSuchUri` where the place is no folder.
    pub fn told_under(&self, place: Place<'_>) -> Result<&[SongRow], SongDbError>
        ensures rows { IfOk result (λ rows. rows.now ≡ told_under self.now place.entry) }
        ensures answer { AnswersExactlyIfThere (is_folder self.now place.entry) result }
    {
        match place {
            Place::Root => Ok(self.told.as_slice()),
            Place::At(folder) => {
                let told = told_below(&self.told, folder);
                if told.is_empty() {
                    return Err(SongDbError::NoSuchUri);
                }
                Ok(told)
            }
        }
    }

    /// Some of the songs in that order, each of which is looked for among them: it is for few. Refused by `NoMemory`.
    pub fn in_told_order<'a>(
        &'a self,
        alloc: Global,
        rows: &[&'a SongRow],
    ) -> Result<Vec<&'a SongRow>, SongDbError>
        ensures rows { (passes : Row → Bool) → map (λ row. row.now) rows.now ≡ filter passes self.now →
            IfOk result (λ told. map (λ row. row.now) told.items ≡ filter passes (told_order self.now)) }
        ensures few { IfOk result (λ told. length told.items ≤ length rows.now) }
        ensures only { IsOkUnless result NoMemory }
    {
        // what is known of the songs
        let _known = &self.rows;
        Ok(in_told_order(alloc, rows)?)
    }

    /// What stands below a place at all depths, folders and songs, in that order. It takes no memory. Refused by `NoSuchUri` where the place
    /// is no folder.
    pub fn told_walk<'a>(&'a self, place: Place<'a>) -> Result<ToldWalk<'a>, SongDbError>
        ensures walk { IfOk result (λ walk. walk ≡ told_walk self.now place.entry) }
        ensures answer { AnswersExactlyIfThere (is_folder self.now place.entry) result }
    {
        let rows = self.told_under(place)?;
        Ok(ToldWalk::new(place, rows))
    }

    /// The folders directly in a place, as paths by their bytes. Refused by `NoSuchUri` where the place is no folder, and by `NoMemory`.
    pub fn folders_in(&self, alloc: Global, place: Place<'_>) -> Result<Texts<'_>, SongDbError>
        ensures folders { IfOk result (λ folders. folders ≡ folders_in self.now place.entry) }
        ensures answer { AnswersIfThere (is_folder self.now place.entry) result }
    {
        let rows = self.rows_under(place)?;
        Ok(folders_of(alloc, rows, place)?)
    }

    /// What stands below a place at all depths: folders and songs together, by the bytes of their paths. It takes no memory.
    /// Refused by `NoSuchUri` where the place is no folder.
    pub fn walk<'a>(&'a self, place: Place<'a>) -> Result<Walk<'a>, SongDbError>
        ensures walk { IfOk result (λ walk. walk ≡ walk_of self.now place.entry) }
        ensures whole { IfOk result (λ walk. IsWalk self.now place.entry walk) }
        ensures answer { AnswersExactlyIfThere (is_folder self.now place.entry) result }
    {
        let rows = self.rows_under(place)?;
        Ok(Walk::new(place, rows))
    }

    /// The songs right in a place, with no folder between, by URI. Refused by `NoSuchUri` where the place is no folder, and by `NoMemory`.
    pub fn songs_in(&self, alloc: Global, place: Place<'_>) -> Result<Vec<&SongRow>, SongDbError>
        ensures songs { IfOk result (λ songs. map (λ song. song.now) songs.items ≡ songs_in self.now place.entry) }
        ensures answer { AnswersIfThere (is_folder self.now place.entry) result }
    {
        let rows = self.rows_under(place)?;
        Ok(songs_of(alloc, rows, place)?)
    }

    /// The numbers of the rows one of whose texts of a tag is exactly this value, rising. It is a look-up, and a look at each of
    /// these rows alone. Refused by `NoMemory`.
    pub fn rows_with(&self, alloc: Global, tag: Tag, value: &str) -> Result<Vec<u32>, SongDbError>
        ensures numbers { IfOk result (λ numbers. numbers.items ≡ rows_with self.now tag value.now) }
        ensures only { IsOkUnless result NoMemory }
    {
        Ok(rows_with(alloc, &self.rows, &self.index, tag, value)?)
    }

    /// How many rows have this value among their texts of a tag. It is a look-up, and takes no memory.
    pub fn count_with(&self, tag: Tag, value: &str) -> usize
        ensures { result ≡ count_by (has_value tag value.now) self.now }
    {
        count_with(&self.rows, &self.index, tag, value)
    }

    /// How many songs have a text of a tag. They are counted already.
    pub fn count_tagged(&self, tag: Tag) -> usize
        ensures count { result ≡ count_tagged tag self.now }
        ensures few { result ≤ length self.now }
    {
        self.counts[usize::from(tag.number())] as usize
    }

    /// How many artists and albums the songs have, each counted once. They are counted already. Refused by `NoMemory`.
    pub fn value_counts(&self, alloc: Global) -> Result<ValueCounts, SongDbError>
        ensures artists { IfOk result (λ counts. counts.artists ≡ length (values_of self.now Artist)) }
        ensures albums { IfOk result (λ counts. counts.albums ≡ length (values_of self.now Album)) }
        ensures only { IsOkUnless result NoMemory }
    {
        Ok(value_counts(alloc, &self.rows, &self.index)?)
    }

    /// The values of a tag by their bytes; rows without the tag give none. Refused by `NoMemory`.
    pub fn distinct(&self, alloc: Global, tag: Tag) -> Result<Texts<'_>, SongDbError>
        ensures values { IfOk result (λ values. values ≡ values_of self.now tag) }
        ensures only { IsOkUnless result NoMemory }
    {
        Ok(values_of(alloc, &self.rows, &self.index, tag)?)
    }
}

// The index with a row behind the last one; none where memory is refused.
fn with_last(alloc: Global, index: Option<ValueIndex>, row: &SongRow) -> Option<ValueIndex>
    ensures { (rows : List Row) → IsRising row_uri rows → ends_before rows row.now.uri ≡ true → IsIndexed rows index
        → IsIndexed (rows ++ row.now ∷ []) result }
{
    let Some(mut present) = index else {
        return None;
    };
    match present.put_row(alloc, row) {
        Ok(()) => Some(present),
        Err(_) => None,
    }
}
