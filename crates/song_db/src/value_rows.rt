// The values of one tag, each with the rows that have it.
ghost use Rattle.std.specs.Prelude.{◌≡◌, [], ◌∷◌, length, IfOk, OnOk, OnErr};
ghost use Rattle.song_db.specs.Replaced.{IsRising, replaced};
ghost use Rattle.song_db.specs.Row.{row_uri};
ghost use Rattle.song_db.specs.Query.{distinct_of};
ghost use Rattle.song_db.specs.ValueRows.{rows_of, AreGroups, IsReplacedUnder};
ghost use Rattle.std.specs.Map.{keys_of};

use crate::row::SongRow;
use crate::rows::{ends_before, place};
use crate::texts::Texts;
use std::alloc::{AllocError, Global};
use std::collections::BTreeMap;
use std::marker::Model;

// The values of a tag by their bytes, each with the rows that have it, by URI.
#[derive(Debug, Drop)]
pub(crate) struct ValueRows {
    values: BTreeMap<String, Vec<SongRow>>,
}

impl Model for ValueRows {
    ghost use Rattle.song_db.specs.ValueRows.{Values, AreGroups, by_value};

    ghost Value = { Values };

    ghost view = { λ v. by_value v.values.entries };

    ghost invariant = { λ v. AreGroups (by_value v.values.entries) };
}

impl ValueRows {
    pub(crate) fn new(alloc: Global) -> Self
        ensures { result ≡ [] }
    {
        ValueRows {
            values: BTreeMap::new(alloc),
        }
    }

    // How many values there are.
    pub(crate) fn len(&self) -> usize
        ensures count { result ≡ length self.now }
        ensures groups { AreGroups self.now }
    {
        self.values.len()
    }

    // The values by their bytes.
    pub(crate) fn texts(&self, alloc: Global) -> Result<Texts<'_>, AllocError>
        ensures texts { IfOk result (λ texts. texts ≡ distinct_of (keys_of self.now)) }
        ensures groups { AreGroups self.now }
    {
        let mut texts = Vec::with_capacity(alloc, self.values.len())?;
        for value in self.values.keys() {
            texts.push(value.as_str())?;
        }
        Texts::of(alloc, texts)
    }

    // The rows with a value, by URI.
    pub(crate) fn rows(&self, value: &str) -> &[SongRow]
        ensures rows { result.now ≡ rows_of self.now value.now }
        ensures rising { IsRising row_uri result.now }
    {
        match self.values.get(value) {
            Some(rows) => rows.as_slice(),
            None => &[],
        }
    }

    // Puts a row under a value, in the place of the one that has its URI.
    pub(crate) fn put(&mut self, alloc: Global, value: &str, row: SongRow) -> Result<(), AllocError>
        ensures { OnOk result (IsReplacedUnder value.now row.uri (row ∷ []) self.old self.new) }
    {
        match self.values.get_mut(value) {
            Some(rows) => put_row(rows, row),
            None => self.put_first(alloc, value, row),
        }
    }

    // Puts the first row under a value.
    fn put_first(&mut self, alloc: Global, value: &str, row: SongRow) -> Result<(), AllocError>
        requires { rows_of self.old value.now ≡ [] }
        ensures { OnOk result (IsReplacedUnder value.now row.uri (row ∷ []) self.old self.new) }
    {
        let mut rows = Vec::with_capacity(alloc, 1)?;
        rows.push(row)?;
        let value = String::from_str(alloc, value)?;
        self.values.insert(value, rows)?;
        Ok(())
    }

    // Takes the row of a URI from under a value, and the value with its last row.
    pub(crate) fn take(&mut self, value: &str, uri: &str)
        ensures { IsReplacedUnder value.now uri.now [] self.old self.new }
    {
        let Some(rows) = self.values.get_mut(value) else {
            return;
        };
        take_row(rows, uri);
        if rows.is_empty() {
            self.values.remove(value);
        }
    }
}

// Puts a row among others, in the place of the one that has its URI.
fn put_row(rows: &mut Vec<SongRow>, row: SongRow) -> Result<(), AllocError>
    requires { IsRising row_uri rows.old.items }
    ensures ok { OnOk result (rows.new.items ≡ replaced row_uri row.uri (row ∷ []) rows.old.items) }
    ensures err { OnErr result (rows.new.items ≡ rows.old.items) }
{
    if ends_before(rows, row.uri()) {
        rows.push(row)?;
        return Ok(());
    }
    match place(rows, row.uri()) {
        Ok(at) => rows[at] = row,
        Err(at) => rows.insert(at, row)?,
    }
    Ok(())
}

// Takes the row of a URI out, if there is one.
fn take_row(rows: &mut Vec<SongRow>, uri: &str)
    requires { IsRising row_uri rows.old.items }
    ensures { rows.new.items ≡ replaced row_uri uri.now [] rows.old.items }
{
    if let Ok(at) = place(rows, uri) {
        rows.remove(at);
    }
}
