// Ops of the queue.
ghost use Rattle.std.specs.Prelude.{◌≡◌, ◌++◌, IfOk, OnOk};
ghost use Rattle.std.specs.Option.{option_to_list};
ghost use Rattle.state_codec.specs.Editing.{IsEdit, QueueEdit};
ghost use Rattle.state_codec.specs.Numbers.{AreRowNumbers};
ghost use Rattle.state_codec.specs.Ops.{IsQueueOp};
ghost use Rattle.state_codec.specs.OpsQueue.{queue_refusal, after_queue};
ghost use Rattle.state_codec.specs.OpsSongs.{uri_at, uris_at};
ghost use Rattle.state_codec.specs.Stored.{state_of};
ghost use Rattle.state_codec.specs.declared.op.queue_op.QueueOp.TheVariants.{Add, Delete, Shuffle};

use super::SavedParts;
use super::checking::check_rows_of;
use super::placing::leave_place;
use crate::op::{QueueOp, RowNumbers};
use crate::refusal::ApplyError;
use play_queue::QueueError;
use player_core::{Block, next_order, words_of};
use song_db::{RowUri, SongDb, SongRow};
use std::alloc::{AllocError, Global};

impl SavedParts {
    pub(super) fn edit_queue(&mut self, alloc: Global, op: &QueueOp) -> Result<(), ApplyError>
        ensures edit { IsEdit (queue_refusal op.now (state_of self.old)) (after_queue op.now (state_of self.old))
            (state_of self.old) (state_of self.new) result }
        ensures form { OnOk result (IsQueueOp op.now) }
    {
        match op {
            QueueOp::Add { at, rows } => self.add_songs(alloc, *at, rows),
            QueueOp::Delete { start, end } => self.delete_songs(*start as usize, *end as usize),
            QueueOp::Move { start, end, to } => {
                told(
                    self.queue
                        .move_range(*start as usize, *end as usize, *to as usize),
                )
            }
            QueueOp::Swap { one, other } => told(self.queue.swap(*one as usize, *other as usize)),
            QueueOp::Shuffle { start, end } => self.shuffle_songs(alloc, *start, *end),
            QueueOp::Prio { priority, ranges } => {
                told(self.queue.set_prio(ranges.ranges(), *priority))
            }
        }
    }

    fn add_songs(&mut self, alloc: Global, at: u32, rows: &RowNumbers) -> Result<(), ApplyError>
        ensures edit { IsEdit (queue_refusal (Add at rows.now) (state_of self.old)) (after_queue (Add at rows.now) (state_of self.old))
            (state_of self.old) (state_of self.new) result }
        ensures form { AreRowNumbers rows.now }
    {
        check_rows_of(&self.songs, rows.as_slice())?;
        self.queue.check_add(at as usize, rows.len())?;
        let uris = uris_at(alloc, &self.songs, rows.as_slice())?;
        self.queue.add_at(at as usize, uris)?;
        Ok(())
    }

    fn delete_songs(&mut self, start: usize, end: usize) -> Result<(), ApplyError>
        ensures { IsEdit (queue_refusal (Delete start end) (state_of self.old)) (after_queue (Delete start end) (state_of self.old))
            (state_of self.old) (state_of self.new) result }
    {
        self.queue.check_range(start, end)?;
        let block = Block { start, end };
        leave_place(&mut self.place, self.queue.entries(), block, &[]);
        told(self.queue.delete_range(start, end))
    }

    // The order number grows first, so that the words are those of the order that is then in force.
    fn shuffle_songs(&mut self, alloc: Global, start: u32, end: u32) -> Result<(), ApplyError>
        ensures { IsEdit (queue_refusal (Shuffle start end) (state_of self.old)) (after_queue (Shuffle start end) (state_of self.old))
            (state_of self.old) (state_of self.new) result }
    {
        let start = start as usize;
        let end = end as usize;
        self.queue.check_range(start, end)?;
        let order = next_order(self.order);
        let words = words_of(alloc, self.key, order, self.queue.entries(), start, end)?;
        self.queue.shuffle(alloc, start, end, &words)?;
        self.order = order;
        Ok(())
    }
}

// The URIs of the rows of these numbers, in memory of their own.
pub(super) fn uris_at(
    alloc: Global,
    songs: &SongDb,
    numbers: &[u32],
) -> Result<Vec<RowUri>, AllocError>
    ensures { IfOk result (λ uris. uris.items ≡ uris_at songs.now numbers.now) }
{
    let rows = songs.rows();
    let mut uris = Vec::with_capacity(alloc, numbers.len())?;
    for number in numbers {
        push_uri(alloc, rows, *number, &mut uris)?;
    }
    Ok(uris)
}

// Adds the URI of the row of a number, if there is one.
fn push_uri(
    alloc: Global,
    rows: &[SongRow],
    number: u32,
    uris: &mut Vec<RowUri>,
) -> Result<(), AllocError>
    ensures { OnOk result (uris.new.items ≡ uris.old.items ++ option_to_list (uri_at rows.now number)) }
{
    match rows.get(number as usize) {
        Some(row) => uris.push(RowUri::new(row.as_uri().try_clone(alloc)?, number))?,
        None => {}
    }
    Ok(())
}

// What an edit of the queue says of an op.
fn told(answer: Result<(), QueueError>) -> Result<(), ApplyError>
    ensures { QueueEdit answer result }
{
    answer?;
    Ok(())
}
