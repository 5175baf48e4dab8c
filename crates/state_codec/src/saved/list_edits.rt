// Ops of the stored playlists.
ghost use Rattle.std.specs.Prelude.{◌≡◌, ◌++◌, IfOk, OnOk, IsOkUnless};
ghost use Rattle.std.specs.Option.{option_to_list};
ghost use Rattle.state_codec.specs.Applied.{after_all};
ghost use Rattle.state_codec.specs.Editing.{IsEdit, ListsEdit};
ghost use Rattle.state_codec.specs.Numbers.{AreRowNumbers};
ghost use Rattle.state_codec.specs.Ops.{IsListOp};
ghost use Rattle.state_codec.specs.OpsLists.{list_refusal, after_list, lists_edited, uris_of};
ghost use Rattle.state_codec.specs.OpsSongs.{uri_at, uris_at};
ghost use Rattle.state_codec.specs.Replacing.{replace_ops, replace_refusal};
ghost use Rattle.state_codec.specs.Stored.{state_of};
ghost use Rattle.state_codec.specs.declared.op.list_op.ListOp.TheVariants.{Save, Add, Rename};

use super::SavedParts;
use super::checking::{check_list, check_rows_of};
use super::timing::{change_times, named_by, put_untimed, timed_name};
use crate::op::{ListOp, RowNumbers};
use crate::refusal::ApplyError;
use play_queue::Entries;
use song_db::{SongDb, SongRow};
use std::alloc::Global;
use stored_lists::{ListsError, Songs};

impl SavedParts {
    pub(super) fn edit_list(&mut self, alloc: Global, op: &ListOp) -> Result<(), ApplyError>
        ensures edit { IsEdit (list_refusal op.now (state_of self.old)) (after_list op.now (state_of self.old))
            (state_of self.old) (state_of self.new) result }
        ensures form { OnOk result (IsListOp op.now) }
    {
        let changes = check_list(self, op)?;
        let name = timed_name(alloc, self.changed.as_ref(), named_by(op))?;
        self.edit_stored(alloc, op)?;
        if changes {
            change_times(&mut self.changed, op, name);
        }
        Ok(())
    }

    // The playlists without their times.
    fn edit_stored(&mut self, alloc: Global, op: &ListOp) -> Result<(), ApplyError>
        ensures edit { IsEdit (list_refusal op.now (state_of self.old)) (lists_edited op.now (state_of self.old))
            (state_of self.old) (state_of self.new) result }
        ensures form { OnOk result (IsListOp op.now) }
    {
        match op {
            ListOp::Save { name } => self.save_list(alloc, name.as_str()),
            ListOp::Add { name, rows } => self.extend_list(alloc, name.as_str(), rows),
            ListOp::Remove { name, start, end } => {
                told(
                    self.lists
                        .remove_at(name.as_str(), *start as usize, *end as usize),
                )
            }
            ListOp::Move { name, from, to } => {
                told(
                    self.lists
                        .move_at(name.as_str(), *from as usize, *to as usize),
                )
            }
            ListOp::Clear { name } => told(self.lists.clear(name.as_str())),
            ListOp::Rename { from, to } => self.rename_list(alloc, from.as_str(), to.as_str()),
            ListOp::Drop { name } => told(self.lists.remove(name.as_str())),
        }
    }

    fn rename_list(&mut self, alloc: Global, from: &str, to: &str) -> Result<(), ApplyError>
        ensures { IsEdit (list_refusal (Rename from.now to.now) (state_of self.old)) (lists_edited (Rename from.now to.now)
            (state_of self.old)) (state_of self.old) (state_of self.new) result }
    {
        told(self.lists.rename(alloc, from, to))
    }

    fn save_list(&mut self, alloc: Global, name: &str) -> Result<(), ApplyError>
        ensures { IsEdit (list_refusal (Save name.now) (state_of self.old)) (lists_edited (Save name.now) (state_of self.old))
            (state_of self.old) (state_of self.new) result }
    {
        self.lists.check_save(name, self.queue.len())?;
        let songs = songs_of(alloc, self.queue.entries())?;
        self.lists.save(alloc, name, songs)?;
        Ok(())
    }

    // Gives a playlist the songs of the queue in place of its own. Their memory is taken before the old ones go.
    pub(super) fn replace_list(&mut self, alloc: Global, name: &str) -> Result<(), ApplyError>
        ensures { IsEdit (replace_refusal name.now (state_of self.old)) (after_all (replace_ops name.now) (state_of self.old))
            (state_of self.old) (state_of self.new) result }
    {
        self.lists.check_replace(name, self.queue.len())?;
        let songs = songs_of(alloc, self.queue.entries())?;
        let listed = timed_name(alloc, self.changed.as_ref(), name)?;
        self.lists.replace(name, songs)?;
        put_untimed(&mut self.changed, listed, name);
        Ok(())
    }

    fn extend_list(
        &mut self,
        alloc: Global,
        name: &str,
        rows: &RowNumbers,
    ) -> Result<(), ApplyError>
        ensures edit { IsEdit (list_refusal (Add name.now rows.now) (state_of self.old)) (lists_edited (Add name.now rows.now)
            (state_of self.old)) (state_of self.old) (state_of self.new) result }
        ensures form { AreRowNumbers rows.now }
    {
        check_rows_of(&self.songs, rows.as_slice())?;
        self.lists.check_add(name, rows.len())?;
        let songs = songs_at(alloc, &self.songs, rows.as_slice())?;
        self.lists.add(alloc, name, songs)?;
        Ok(())
    }
}

// The songs of entries, in memory of their own.
fn songs_of(alloc: Global, entries: &Entries) -> Result<Songs, ListsError>
    ensures songs { IfOk result (λ songs. songs ≡ uris_of entries.now) }
    ensures only { IsOkUnless result ListsError.NoMemory }
{
    let mut songs = Songs::new(alloc);
    for at in 0..entries.len() {
        songs.push(entries.at(at).uri.as_uri().try_clone(alloc)?)?;
    }
    Ok(songs)
}

// The songs of the rows of these numbers, in memory of their own.
fn songs_at(alloc: Global, database: &SongDb, numbers: &[u32]) -> Result<Songs, ListsError>
    ensures songs { IfOk result (λ songs. songs ≡ uris_at database.now numbers.now) }
    ensures only { IsOkUnless result ListsError.NoMemory }
{
    let rows = database.rows();
    let mut songs = Songs::new(alloc);
    for number in numbers {
        push_song(alloc, rows, *number, &mut songs)?;
    }
    Ok(songs)
}

// Adds the song of the row of a number, if there is one.
fn push_song(
    alloc: Global,
    rows: &[SongRow],
    number: u32,
    songs: &mut Songs,
) -> Result<(), ListsError>
    ensures songs { OnOk result (songs.new ≡ songs.old ++ option_to_list (uri_at rows.now number)) }
    ensures only { IsOkUnless result ListsError.NoMemory }
{
    match rows.get(number as usize) {
        Some(row) => songs.push(row.as_uri().try_clone(alloc)?)?,
        None => {}
    }
    Ok(())
}

// What an edit of the playlists says of an op.
fn told(answer: Result<(), ListsError>) -> Result<(), ApplyError>
    ensures { ListsEdit answer result }
{
    answer?;
    Ok(())
}
