// The changes of rows that a batch of a scan brings: no more than a batch has, each of them sound.
ghost use Rattle.std.specs.Prelude.{◌≡◌, ◌++◌, length, Some, None, if◌then◌else◌, IfOk, IfSome, OnOk};
ghost use Rattle.std.specs.List.{All};
ghost use Rattle.state_codec.specs.Changes.{is_count, AreChanges, IsChange, IsSavedRow, IsSavedStamp};

use song_db::{MAX_CHANGES, RowChange, SongRow};
use song_files::FileStamp;
use std::alloc::{AllocError, Global};
use std::marker::Model;

/// The changes of one batch: 1 to 64.
#[derive(Debug, Drop)]
pub struct Changes {
    changes: Vec<RowChange>,
}

impl Model for Changes {
    ghost use Rattle.std.specs.Prelude.{List};
    ghost use Rattle.song_db.specs.declared.change.RowChange.{RowChange};
    ghost use Rattle.state_codec.specs.Changes.{AreChanges};

    ghost Value = { List RowChange };

    ghost view = { λ c. c.changes.items };

    ghost invariant = { λ c. AreChanges c.changes.items };
}

impl Changes {
    /// These changes; `None` where there is none of them, or more than 64.
    pub fn new(changes: Vec<RowChange>) -> Option<Changes>
        ensures { result ≡ (if is_count (length changes.items) then Some changes.items else None) }
    {
        if changes.is_empty() || MAX_CHANGES < changes.len() {
            return None;
        }
        are_sound(&changes);
        Some(Changes { changes })
    }

    pub fn as_slice(&self) -> &[RowChange]
        ensures changes { result.now ≡ self.now }
        ensures within { AreChanges self.now }
    {
        self.changes.as_slice()
    }

    /// The changes themselves.
    pub fn into_vec(self) -> Vec<RowChange>
        ensures changes { result.items ≡ self }
        ensures within { AreChanges self }
    {
        self.changes
    }

    /// The same changes once more, in memory of their own; the rows are shared.
    pub fn try_clone(&self, alloc: Global) -> Result<Changes, AllocError>
        ensures { IfOk result (λ copy. copy ≡ self.now) }
    {
        let mut changes = Vec::with_capacity(alloc, self.changes.len())?;
        copy_all(alloc, &self.changes, &mut changes)?;
        Ok(Changes { changes })
    }
}

// Adds a copy of each change at the end.
fn copy_all(
    alloc: Global,
    changes: &[RowChange],
    copies: &mut Vec<RowChange>,
) -> Result<(), AllocError>
    ensures { OnOk result (copies.new.items ≡ copies.old.items ++ changes.now) }
{
    for change in changes {
        copies.push(copy_of(alloc, change)?)?;
    }
    Ok(())
}

fn copy_of(alloc: Global, change: &RowChange) -> Result<RowChange, AllocError>
    ensures { IfOk result (λ copy. copy ≡ change.now) }
{
    match change {
        RowChange::Put(row) => Ok(RowChange::Put(row.try_clone()?)),
        RowChange::Drop(uri) => Ok(RowChange::Drop(uri.try_clone(alloc)?)),
    }
}

// Each row has what the rows of the program keep.
fn are_sound(changes: &[RowChange])
    ensures { All IsChange changes.now }
{
    for change in changes {
        is_sound(change);
    }
}

fn is_sound(change: &RowChange)
    ensures { IsChange change.now }
{
    match change {
        RowChange::Put(row) => row_is_sound(row),
        RowChange::Drop(uri) => {
            let _form = uri.as_str();
        }
    }
}

fn row_is_sound(row: &SongRow)
    ensures { IsSavedRow row.now }
{
    let _form = row.uri();
    let info = row.info();
    let _first_byte = info.first_byte;
    let _frames = info.frames;
    let _tags = row.tags().len();
    stamp_is_sound(row.stamp());
}

// Its numbers have 64 bits.
fn stamp_is_sound(stamp: Option<FileStamp>)
    ensures { IfSome stamp IsSavedStamp }
{
    if let Some(stamp) = stamp {
        let _modified = stamp.modified;
        let _length = stamp.length;
    }
}
