// The rows by the values of their tags.
ghost use Rattle.std.specs.Prelude.{◌≡◌, [], ◌∷◌, IfOk, OnOk, MatchOption};
ghost use Rattle.std.specs.List.{position};
ghost use Rattle.song_files.specs.Tag.{is_tag};
ghost use Rattle.song_db.specs.Replaced.{IsRising};
ghost use Rattle.song_db.specs.Row.{row_uri};
ghost use Rattle.song_db.specs.ValueIndex.{Comes, Follows, Goes, IsIndex, IsReplacedAt, rows_at, values_under};

use crate::effect::Effect;
use crate::row::SongRow;
use crate::value_rows::ValueRows;
use song_files::Tag;
use std::alloc::{AllocError, Global};
use std::iter::Iterator;
use std::marker::Model;

// The values of a tag, each with its rows.
#[derive(Debug, Drop)]
pub(crate) struct TagValues {
    tag: Tag,
    values: ValueRows,
}

// The rows by the values of their tags: of each tag that a row has the values by their bytes, each with the rows that
// have it, by URI. No number of a row stands in it, so nothing moves where a row comes between others.
#[derive(Debug, Drop)]
pub(crate) struct ValueIndex {
    tags: Vec<TagValues>,
}

impl Model for ValueIndex {
    ghost use Rattle.std.specs.Prelude.{List};
    ghost use Rattle.song_db.specs.declared.value_index.TagValues.{TagValues};

    ghost Value = { List TagValues };

    ghost view = { λ i. i.tags.items };
}

impl ValueIndex {
    pub(crate) fn new(alloc: Global) -> Self
        ensures { result ≡ [] }
    {
        ValueIndex {
            tags: Vec::new(alloc),
        }
    }

    // The index of rows.
    pub(crate) fn of(alloc: Global, rows: &[SongRow]) -> Result<Self, AllocError>
        requires { IsRising row_uri rows.now }
        ensures { IfOk result (IsIndex rows.now) }
    {
        let mut index = ValueIndex::new(alloc);
        for row in rows {
            index.put_row(alloc, row)?;
        }
        Ok(index)
    }

    // The values of a tag; none where no row has it.
    pub(crate) fn values(&self, tag: Tag) -> Option<&ValueRows>
        ensures { MatchOption result (values_under self.now tag ≡ []) (λ values. values.now ≡ values_under self.now tag) }
    {
        match place_of(&self.tags, tag) {
            Some(at) => Some(&self.tags[at].values),
            None => None,
        }
    }

    // The rows with a value of a tag, by URI.
    pub(crate) fn rows(&self, tag: Tag, value: &str) -> &[SongRow]
        ensures rows { result.now ≡ rows_at self.now tag value.now }
    {
        match self.values(tag) {
            Some(values) => values.rows(value),
            None => &[],
        }
    }

    // Follows a change that has been made, with this effect.
    pub(crate) fn follow(
        &mut self,
        alloc: Global,
        row: Option<SongRow>,
        effect: &Effect,
    ) -> Result<(), AllocError>
        ensures { OnOk result (Follows row effect.now self.old self.new) }
    {
        match effect {
            Effect::Nothing | Effect::LeftOut(_) => {}
            Effect::Came => self.put_coming(alloc, row)?,
            Effect::Replaced(old) => {
                self.take_row(old);
                self.put_coming(alloc, row)?;
            }
            Effect::Went(old) => self.take_row(old),
        }
        Ok(())
    }

    // Puts a row that has come, if there is one.
    fn put_coming(&mut self, alloc: Global, row: Option<SongRow>) -> Result<(), AllocError>
        ensures { OnOk result (MatchOption row (self.new ≡ self.old) (λ row. Comes row self.old self.new)) }
    {
        match row {
            Some(row) => self.put_row(alloc, &row),
            None => Ok(()),
        }
    }

    // Puts a row under each of its values.
    pub(crate) fn put_row(&mut self, alloc: Global, row: &SongRow) -> Result<(), AllocError>
        ensures { OnOk result (Comes row.now self.old self.new) }
    {
        let tags = row.tags();
        for at in 0..tags.len() {
            let (tag, value) = tags.at(at);
            let copy = row.try_clone()?;
            self.put(alloc, tag, value, copy)?;
        }
        Ok(())
    }

    // Takes a row from under each of its values.
    fn take_row(&mut self, row: &SongRow)
        ensures { Goes row.now self.old self.new }
    {
        let tags = row.tags();
        for at in 0..tags.len() {
            let (tag, value) = tags.at(at);
            self.take(tag, value, row.uri());
        }
    }

    // Puts a row under a value of a tag, in the place of the one that has its URI.
    fn put(&mut self, alloc: Global, tag: Tag, value: &str, row: SongRow) -> Result<(), AllocError>
        ensures { OnOk result (IsReplacedAt tag value.now row.uri (row ∷ []) self.old self.new) }
    {
        match place_of(&self.tags, tag) {
            Some(at) => self.tags[at].values.put(alloc, value, row),
            None => {
                let mut values = ValueRows::new(alloc);
                values.put(alloc, value, row)?;
                self.tags.push(TagValues { tag, values })?;
                Ok(())
            }
        }
    }

    // Takes the row of a URI from under a value of a tag.
    fn take(&mut self, tag: Tag, value: &str, uri: &str)
        ensures { IsReplacedAt tag value.now uri.now [] self.old self.new }
    {
        if let Some(at) = place_of(&self.tags, tag) {
            self.tags[at].values.take(value, uri);
        }
    }
}

// The place of a tag.
fn place_of(tags: &[TagValues], tag: Tag) -> Option<usize>
    ensures { result ≡ position (λ one. is_tag one.tag tag) tags.now }
{
    tags.iter().position(|one| one.tag == tag)
}
