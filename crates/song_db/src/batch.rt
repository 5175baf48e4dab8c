// The changes of a batch, made one after the other among the rows.
ghost use Rattle.std.specs.Prelude.{◌≡◌, ◌<◌, ◌≤◌, ◌++◌, ◌+◌, List, length, vec_len, vec_capacity, IfOk};
ghost use Rattle.song_db.specs.Change.{after_change, after_batch};
ghost use Rattle.song_db.specs.Effect.{effect_of, effects_of};
ghost use Rattle.song_db.specs.Kept.{AreKept, IsInPlace};
ghost use Rattle.song_db.specs.Replaced.{IsRising};
ghost use Rattle.song_db.specs.Row.{Row, row_uri};
ghost use Rattle.song_db.specs.ValueIndex.{IsIndexed, coming};
ghost use Rattle.song_db.specs.declared.change.RowChange.{RowChange};
ghost use Rattle.song_db.specs.declared.change.RowChange.TheVariants.{Put, Drop};

use crate::change::RowChange;
use crate::effect::{Effect, total_after};
use crate::limits::MAX_ROWS;
use crate::row::SongRow;
use crate::rows::place;
use crate::tag_counts::follow_counts;
use crate::told_rows::{Prepared, follow_told};
use crate::uri::Uri;
use crate::value_index::ValueIndex;
use song_files::TAG_COUNT;
use std::alloc::{AllocError, Global};
use std::mem;

// A row comes, unless the very row stands there or the database is full.
fn put_row(rows: &mut Vec<SongRow>, row: SongRow) -> Effect
    requires rising { IsRising row_uri rows.old.items }
    requires room { vec_len rows.old < vec_capacity rows.old }
    ensures effect { result ≡ effect_of rows.old.items (Put row) }
    ensures rows { rows.new.items ≡ after_change rows.old.items (Put row) }
    ensures len { vec_len rows.new ≤ vec_len rows.old + 1 }
    ensures capacity { vec_capacity rows.new ≡ vec_capacity rows.old }
{
    match place(rows, row.uri()) {
        Ok(at) => {
            if rows[at].is_same(&row) {
                return Effect::Nothing;
            }
            Effect::Replaced(mem::replace(&mut rows[at], row))
        }
        Err(at) => {
            if rows.len() >= MAX_ROWS {
                return Effect::LeftOut(row);
            }
            rows.insert(at, row).unwrap();
            Effect::Came
        }
    }
}

// The row of a URI goes, if there is one.
fn drop_row(rows: &mut Vec<SongRow>, uri: &Uri) -> Effect
    requires { IsRising row_uri rows.old.items }
    ensures effect { result ≡ effect_of rows.old.items (Drop uri.now) }
    ensures rows { rows.new.items ≡ after_change rows.old.items (Drop uri.now) }
    ensures len { vec_len rows.new ≤ vec_len rows.old }
    ensures capacity { vec_capacity rows.new ≡ vec_capacity rows.old }
{
    match place(rows, uri.as_str()) {
        Ok(at) => Effect::Went(rows.remove(at)),
        Err(_) => Effect::Nothing,
    }
}

// Makes a change among rows that have room for one more.
fn make_change(rows: &mut Vec<SongRow>, change: RowChange) -> Effect
    requires rising { IsRising row_uri rows.old.items }
    requires room { vec_len rows.old < vec_capacity rows.old }
    ensures effect { result ≡ effect_of rows.old.items change }
    ensures rows { rows.new.items ≡ after_change rows.old.items change }
    ensures len { vec_len rows.new ≤ vec_len rows.old + 1 }
    ensures capacity { vec_capacity rows.new ≡ vec_capacity rows.old }
{
    match change {
        RowChange::Put(row) => put_row(rows, row),
        RowChange::Drop(uri) => drop_row(rows, &uri),
    }
}

// Makes a change that comes with a copy of its row, and keeps what is kept beside the rows. The place where the song is told is looked for
// at a place first, and becomes the one where the next one is.
fn make_timed(
    alloc: Global,
    rows: &mut Vec<SongRow>,
    told: &mut Vec<SongRow>,
    total: &mut u128,
    counts: &mut [u32; TAG_COUNT],
    index: &mut Option<ValueIndex>,
    prepared: Prepared,
    near: &mut usize,
) -> Effect
    requires kept { AreKept rows.old.items told.old.items total.old counts.old index.old }
    requires room { vec_len rows.old < vec_capacity rows.old }
    requires told_room { vec_len told.old < vec_capacity told.old }
    ensures kept { AreKept rows.new.items told.new.items total.new counts.new index.new }
    ensures effect { result ≡ effect_of rows.old.items prepared }
    ensures rows { rows.new.items ≡ after_change rows.old.items prepared }
    ensures place { IsInPlace rows.old rows.new }
    ensures told_place { IsInPlace told.old told.new }
{
    let (change, copy) = prepared.into_parts();
    let gain = change.gain();
    let row = change.coming();
    let effect = make_change(rows, change);
    *total = total_after(*total, gain, &effect);
    follow_counts(counts, copy.as_ref(), &effect);
    follow_told(told, copy, &effect, near);
    follow(alloc, index, row, &effect);
    effect
}

// Follows a change that has been made. Where memory is refused, there is no index any more.
fn follow(
    alloc: Global,
    index: &mut Option<ValueIndex>,
    row: Result<Option<SongRow>, AllocError>,
    effect: &Effect,
)
    ensures { (rows : List Row) (change : RowChange) → IsRising row_uri rows → IfOk row (λ row. row ≡ coming change) →
        effect.now ≡ effect_of rows change → IsIndexed rows index.old → IsIndexed (after_change rows change) index.new }
{
    let Some(mut present) = index.take() else {
        return;
    };
    let Ok(row) = row else {
        return;
    };
    if present.follow(alloc, row, effect).is_ok() {
        *index = Some(present);
    }
}

// Makes changes one after the other among rows that have room for all of them, and says what each did.
pub(crate) fn make_changes(
    alloc: Global,
    rows: &mut Vec<SongRow>,
    told: &mut Vec<SongRow>,
    total: &mut u128,
    counts: &mut [u32; TAG_COUNT],
    index: &mut Option<ValueIndex>,
    changes: Vec<Prepared>,
    effects: &mut Vec<Effect>,
)
    requires kept { AreKept rows.old.items told.old.items total.old counts.old index.old }
    requires room { vec_len rows.old + length changes.items ≤ vec_capacity rows.old }
    requires told_room { vec_len told.old + length changes.items ≤ vec_capacity told.old }
    requires effects_room { vec_len effects.old + length changes.items ≤ vec_capacity effects.old }
    ensures kept { AreKept rows.new.items told.new.items total.new counts.new index.new }
    ensures rows { rows.new.items ≡ after_batch rows.old.items changes.items }
    ensures effects { effects.new.items ≡ effects.old.items ++ effects_of rows.old.items changes.items }
{
    let mut near = told.len();
    for change in changes {
        let effect = make_timed(alloc, rows, told, total, counts, index, change, &mut near);
        effects.push_reserved(effect);
    }
}
