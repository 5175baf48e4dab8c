// The songs in the order in which they are told.
ghost use Rattle.std.specs.Prelude.{◌≡◌, ◌+◌, ◌-◌, ◌<◌, ◌≤◌, ◌++◌, ◌∷◌, [], List, length, map, take, drop, filter, vec_len, vec_capacity, IfOk, MatchOption, OnOk, true, false};
ghost use Rattle.std.specs.List.Sorted.{IsPartitionPoint};
ghost use Rattle.std.specs.Cmp.Lexicographic.{slice_cmp};
ghost use Rattle.std.specs.Ordering.{nat_cmp, is_lt};
ghost use Rattle.song_db.specs.Change.{after_change};
ghost use Rattle.song_db.specs.Effect.{effect_of};
ghost use Rattle.song_db.specs.Place.{is_below};
ghost use Rattle.song_db.specs.Replaced.{IsRising, IsBefore, IsNotBefore, replaced};
ghost use Rattle.song_db.specs.Row.{Row, row_uri};
ghost use Rattle.song_db.specs.Told.{told_key, told_order, folder_key, folder_end};
ghost use Rattle.song_db.specs.Lent.{lent_key, told_from};
ghost use Rattle.song_db.specs.ValueIndex.{coming};
ghost use Rattle.song_db.specs.declared.change.RowChange.{RowChange};

use crate::change::RowChange;
use crate::effect::Effect;
use crate::row::SongRow;
use crate::told::is_before_folder;
use crate::told_near::told_place;
use std::alloc::{AllocError, Global};
use std::marker::Model;

// Puts a song at its place, which is looked for at a place first, in the place of the one that has its URI; and says where.
pub(crate) fn put_told(told: &mut Vec<SongRow>, row: SongRow, near: usize) -> usize
    requires rising { IsRising told_key told.old.items }
    requires room { vec_len told.old < vec_capacity told.old }
    ensures rows { told.new.items ≡ replaced told_key (told_key row) (row ∷ []) told.old.items }
    ensures len { vec_len told.new ≤ vec_len told.old + 1 }
    ensures capacity { vec_capacity told.new ≡ vec_capacity told.old }
{
    match told_place(told, &row, near) {
        Ok(at) => {
            told[at] = row;
            at
        }
        Err(at) => {
            told.insert(at, row).unwrap();
            at
        }
    }
}

// Takes a song out, if it is there, and says where it was.
fn take_told(told: &mut Vec<SongRow>, row: &SongRow, near: usize) -> usize
    requires { IsRising told_key told.old.items }
    ensures rows { told.new.items ≡ replaced told_key (told_key row.now) [] told.old.items }
    ensures len { vec_len told.new ≤ vec_len told.old }
    ensures capacity { vec_capacity told.new ≡ vec_capacity told.old }
{
    match told_place(told, row, near) {
        Ok(at) => {
            told.remove(at);
            at
        }
        Err(at) => at,
    }
}

// Follows a change that has been made among the rows, with this effect. The song is looked for first where the one before it was found:
// a scan comes upon songs in nearly this order.
pub(crate) fn follow_told(
    told: &mut Vec<SongRow>,
    copy: Option<SongRow>,
    effect: &Effect,
    near: &mut usize,
)
    requires rising { IsRising told_key told.old.items }
    requires room { vec_len told.old < vec_capacity told.old }
    ensures told { (rows : List Row) (change : RowChange) → IsRising row_uri rows → copy ≡ coming change →
        effect.now ≡ effect_of rows change → told.old.items ≡ told_order rows → told.new.items ≡ told_order (after_change rows change) }
    ensures len { vec_len told.new ≤ vec_len told.old + 1 }
    ensures capacity { vec_capacity told.new ≡ vec_capacity told.old }
{
    match effect {
        Effect::Nothing | Effect::LeftOut(_) => {}
        Effect::Came => *near = put_coming(told, copy, *near),
        Effect::Replaced(old) => {
            let at = take_told(told, old, *near);
            *near = put_coming(told, copy, at);
        }
        Effect::Went(old) => *near = take_told(told, old, *near),
    }
}

// Puts a song that comes, if one does, and says where.
fn put_coming(told: &mut Vec<SongRow>, copy: Option<SongRow>, near: usize) -> usize
    requires rising { IsRising told_key told.old.items }
    requires room { vec_len told.old < vec_capacity told.old }
    ensures rows { MatchOption copy (told.new.items ≡ told.old.items)
        (λ row. told.new.items ≡ replaced told_key (told_key row) (row ∷ []) told.old.items) }
    ensures len { vec_len told.new ≤ vec_len told.old + 1 }
    ensures capacity { vec_capacity told.new ≡ vec_capacity told.old }
{
    match copy {
        Some(row) => put_told(told, row, near),
        None => near,
    }
}

// A change, with a copy of the row that it brings.
#[derive(Debug, Drop)]
pub(crate) struct Prepared {
    change: RowChange,
    copy: Option<SongRow>,
}

impl Model for Prepared {
    ghost use Rattle.std.specs.Prelude.{◌≡◌};
    ghost use Rattle.song_db.specs.declared.change.RowChange.{RowChange};
    ghost use Rattle.song_db.specs.ValueIndex.{coming};

    ghost Value = { RowChange };

    ghost view = { λ p. p.change };

    ghost invariant = { λ p. p.copy ≡ coming p.change };
}

impl Prepared {
    fn new(change: RowChange) -> Result<Prepared, AllocError>
        ensures { IfOk result (λ prepared. prepared ≡ change) }
    {
        let copy = change.coming()?;
        Ok(Prepared { change, copy })
    }

    pub(crate) fn into_parts(self) -> (RowChange, Option<SongRow>)
        ensures change { result.0 ≡ self }
        ensures copy { result.1 ≡ coming self }
    {
        (self.change, self.copy)
    }
}

// The changes, each with a copy of the row that it brings.
pub(crate) fn prepare_all(
    alloc: Global,
    changes: Vec<RowChange>,
) -> Result<Vec<Prepared>, AllocError>
    ensures { IfOk result (λ all. all.items ≡ changes.items) }
{
    let mut all = Vec::with_capacity(alloc, changes.len())?;
    for change in changes {
        all.push(Prepared::new(change)?)?;
    }
    Ok(all)
}

// The songs below a folder, which are told one after the other.
pub(crate) fn told_below<'a>(told: &'a [SongRow], folder: &str) -> &'a [SongRow]
    requires { IsRising told_key told.now }
    ensures { result.now ≡ filter (λ row. is_below folder.now row.uri) told.now }
{
    let (start, end) = run_below(told, folder);
    &told[start..end]
}

// The place of the first song below a folder, and that behind the last one.
fn run_below(told: &[SongRow], folder: &str) -> (usize, usize)
    requires { IsRising told_key told.now }
    ensures rise { result.0 ≤ result.1 }
    ensures within { result.1 ≤ length told.now }
    ensures run { take (result.1 - result.0) (drop result.0 told.now) ≡ filter (λ row. is_below folder.now row.uri) told.now }
{
    let start = folder_point(told, folder, false);
    let end = folder_point(told, folder, true);
    (start, end)
}

// The place of the first song that isn't told before all those below a folder; or, where its own are asked for too, before all that are
// told behind them.
fn folder_point(told: &[SongRow], folder: &str, own: bool) -> usize
    requires { IsRising told_key told.now }
    ensures bound { result ≤ length told.now }
    ensures split { IsPartitionPoint (IsBefore told_key (folder_key folder.now ++ folder_end own)) (IsNotBefore told_key (folder_key
        folder.now ++ folder_end own)) told.now result }
{
    told.partition_point(
        |row: &SongRow| -> bool
            ensures { result ≡ is_lt (slice_cmp nat_cmp (told_key row.now) (folder_key folder.entry.now ++ folder_end own)) }
        { is_before_folder(row, folder, own) },
    )
}

// Songs in the order in which they are told: one after the other is put at its place, which is looked for behind the one before it first.
pub(crate) fn in_told_order<'a>(
    alloc: Global,
    rows: &[&'a SongRow],
) -> Result<Vec<&'a SongRow>, AllocError>
    ensures rows { IfOk result (λ told. map (λ row. row.now) told.items ≡ told_from [] (map (λ row. row.now) rows.now)) }
    ensures few { IfOk result (λ told. length told.items ≤ length rows.now) }
{
    let mut told = Vec::with_capacity(alloc, rows.len())?;
    let mut near = 0;
    for row in rows {
        near = put_lent(&mut told, *row, near)?;
    }
    Ok(told)
}

// Puts a song at its place, which is looked for at a place first, in the place of the one that has its URI; and says where.
fn put_lent<'a>(
    told: &mut Vec<&'a SongRow>,
    row: &'a SongRow,
    near: usize,
) -> Result<usize, AllocError>
    requires { IsRising lent_key told.old.items }
    ensures rows { OnOk result (map (λ row. row.now) told.new.items ≡ replaced told_key (told_key row.entry.now) (row.entry.now ∷ [])
        (map (λ row. row.now) told.old.items)) }
    ensures rising { OnOk result (IsRising lent_key told.new.items) }
    ensures few { OnOk result (length told.new.items ≤ length told.old.items + 1) }
{
    match told_place(told, row, near) {
        Ok(at) => {
            told[at] = row;
            Ok(at)
        }
        Err(at) => {
            told.insert(at, row)?;
            Ok(at)
        }
    }
}
