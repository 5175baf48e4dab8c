// What an op is refused for, and whether it would change anything. No check takes memory.
ghost use Rattle.std.specs.Prelude.{◌≡◌, true, not, nat_lt, Option, None, option_map, IfOk};
ghost use Rattle.std.specs.List.{list_all};
ghost use Rattle.play_queue.specs.Refusal.{Answers as AnswersQueue};
ghost use Rattle.play_queue.specs.declared.refusal.QueueError.{QueueError as QueueRefusal};
ghost use Rattle.stickers.specs.Refusal.{Answers as AnswersStickers};
ghost use Rattle.stickers.specs.declared.refusal.StickersError.{StickersError as StickersRefusal};
ghost use Rattle.stored_lists.specs.Refusal.{Answers as AnswersLists};
ghost use Rattle.stored_lists.specs.declared.refusal.ListsError.{ListsError as ListsRefusal};
ghost use Rattle.song_db.specs.Change.{has_uri};
ghost use Rattle.state_codec.specs.Applied.{refusal_of, changes_nothing};
ghost use Rattle.state_codec.specs.Editing.{AnswersCheck};
ghost use Rattle.state_codec.specs.OpsLists.{list_refusal, leaves_lists};
ghost use Rattle.state_codec.specs.OpsQueue.{queue_refusal, leaves_queue};
ghost use Rattle.state_codec.specs.OpsRows.{rows_refusal, leaves_rows};
ghost use Rattle.state_codec.specs.OpsSongs.{have_rows, if_named};
ghost use Rattle.state_codec.specs.OpsStickers.{sticker_refusal, leaves_stickers};
ghost use Rattle.state_codec.specs.Stored.{state_of};
ghost use Rattle.state_codec.specs.declared.refusal.OpRefusal.{OpRefusal as AnOpRefusal};
ghost use Rattle.state_codec.specs.declared.refusal.OpRefusal.TheVariants.{Queue, Lists, Stickers};

use super::batch::check_changes;
use super::placing::{check_place, leaves_place};
use super::telling::{adds_nothing, changes_rows, has_no_songs, has_value, is_set};
use super::timing::leaves_times;
use super::{Saved, SavedParts};
use crate::op::{Changes, ListOp, Op, QueueOp, StickerOp};
use crate::refusal::OpRefusal;
use play_queue::QueueError;
use song_db::{SongDb, SongDbError};
use stickers::StickersError;
use stored_lists::ListsError;

impl Saved {
    /// What `apply` of the op would be refused for, but for want of memory; else whether the op would change anything: of a
    /// batch, whether one of its changes would change a row at its turn. It takes no memory and changes nothing.
    ///
    /// Of a priority it looks at the entries of the ranges, of a move in a playlist at the songs between the places. Of a
    /// batch it looks up the row of each change, and once more up to the first change that would change one.
    pub fn check(&self, op: &Op) -> Result<bool, OpRefusal>
        ensures answer { AnswersCheck (refusal_of op.now self.now) result }
        ensures changes { IfOk result (λ changes. changes ≡ not (changes_nothing op.now self.now)) }
    {
        let parts = &self.parts;
        match op {
            Op::SetOption(setting) => Ok(!is_set(*setting, parts.options)),
            Op::SetVolume(volume) => Ok(volume.percent() != parts.volume.percent()),
            Op::SetOrder(order) => Ok(*order != parts.order),
            Op::Queue(op) => check_queue(parts, op),
            Op::List(op) => check_list(parts, op),
            Op::Sticker(op) => check_sticker(parts, op),
            Op::Batch(changes) => check_batch(parts, changes),
            Op::Place(op) => {
                check_place(parts.profile)?;
                Ok(!leaves_place(*op, parts.place.as_ref()))
            }
            Op::Timed(seconds) => {
                check_place(parts.profile)?;
                Ok(!leaves_times(*seconds, parts.changed.as_ref()))
            }
        }
    }
}

fn check_queue(parts: &SavedParts, op: &QueueOp) -> Result<bool, OpRefusal>
    ensures answer { AnswersCheck (queue_refusal op.now (state_of parts.now)) result }
    ensures changes { IfOk result (λ changes. changes ≡ not (leaves_queue op.now (state_of parts.now))) }
{
    let queue = &parts.queue;
    match op {
        QueueOp::Add { at, rows } => {
            check_rows_of(&parts.songs, rows.as_slice())?;
            of_queue(queue.check_add(*at as usize, rows.len()))?;
            Ok(rows.len() != 0)
        }
        QueueOp::Delete { start, end } => {
            of_queue(queue.check_range(*start as usize, *end as usize))?;
            Ok(*start != *end)
        }
        QueueOp::Move { start, end, to } => {
            of_queue(queue.check_move(*start as usize, *end as usize, *to as usize))?;
            Ok(queue.would_move(*start as usize, *end as usize, *to as usize))
        }
        QueueOp::Swap { one, other } => {
            of_queue(queue.check_swap(*one as usize, *other as usize))?;
            Ok(queue.would_swap(*one as usize, *other as usize))
        }
        QueueOp::Shuffle { start, end } => {
            always_changes(of_queue(queue.check_range(*start as usize, *end as usize)))
        }
        QueueOp::Prio { priority, ranges } => {
            of_queue(queue.check_prio(ranges.ranges()))?;
            Ok(queue.would_set_prio(ranges.ranges(), *priority))
        }
    }
}

pub(super) fn check_list(parts: &SavedParts, op: &ListOp) -> Result<bool, OpRefusal>
    ensures answer { AnswersCheck (list_refusal op.now (state_of parts.now)) result }
    ensures changes { IfOk result (λ changes. changes ≡ not (leaves_lists op.now (state_of parts.now))) }
{
    let lists = &parts.lists;
    match op {
        ListOp::Save { name } => {
            always_changes(of_lists(lists.check_save(name.as_str(), parts.queue.len())))
        }
        ListOp::Add { name, rows } => {
            check_rows_of(&parts.songs, rows.as_slice())?;
            of_lists(lists.check_add(name.as_str(), rows.len()))?;
            Ok(!adds_nothing(lists, name.as_str(), rows.len()))
        }
        ListOp::Remove { name, start, end } => {
            of_lists(lists.check_remove_at(name.as_str(), *start as usize, *end as usize))?;
            Ok(*start != *end)
        }
        ListOp::Move { name, from, to } => {
            of_lists(lists.check_move_at(name.as_str(), *from as usize, *to as usize))?;
            Ok(lists.would_move_at(name.as_str(), *from as usize, *to as usize))
        }
        ListOp::Clear { name } => {
            of_lists(lists.check_name(name.as_str()))?;
            Ok(!has_no_songs(lists, name.as_str()))
        }
        ListOp::Rename { from, to } => {
            always_changes(of_lists(lists.check_rename(from.as_str(), to.as_str())))
        }
        ListOp::Drop { name } => always_changes(of_lists(lists.check_name(name.as_str()))),
    }
}

fn check_sticker(parts: &SavedParts, op: &StickerOp) -> Result<bool, OpRefusal>
    ensures answer { AnswersCheck (sticker_refusal op.now (state_of parts.now)) result }
    ensures changes { IfOk result (λ changes. changes ≡ not (leaves_stickers op.now (state_of parts.now))) }
{
    let stickers = &parts.stickers;
    match op {
        StickerOp::Set { uri, name, value } => {
            let (uri, name) = (uri.as_str(), name.as_str());
            check_row(&parts.songs, uri)?;
            of_stickers(stickers.check_set(uri, name))?;
            Ok(!has_value(stickers, uri, name, value.as_str()))
        }
        StickerOp::Delete { uri, name } => {
            always_changes(of_stickers(stickers.check_delete(uri.as_str(), name.as_str())))
        }
        StickerOp::DeleteAll { uri } => {
            always_changes(of_stickers(stickers.check_delete_all(uri.as_str())))
        }
    }
}

fn check_batch(parts: &SavedParts, changes: &Changes) -> Result<bool, OpRefusal>
    ensures answer { AnswersCheck (rows_refusal changes.now (state_of parts.now)) result }
    ensures changes { IfOk result (λ changed. changed ≡ not (leaves_rows changes.now (state_of parts.now))) }
{
    check_changes(parts.profile, &parts.songs, changes.as_slice())?;
    Ok(changes_rows(&parts.songs, changes.as_slice()))
}

// What is told of an op that changes something wherever it isn't refused.
fn always_changes(answer: Result<(), OpRefusal>) -> Result<bool, OpRefusal>
    ensures answer { (refusal : Option AnOpRefusal) → AnswersCheck refusal answer → AnswersCheck refusal result }
    ensures changes { IfOk result (λ changes. changes ≡ true) }
{
    match answer {
        Ok(()) => Ok(true),
        Err(refusal) => Err(refusal),
    }
}

// Refused where a number is that of no row.
pub(super) fn check_rows_of(songs: &SongDb, numbers: &[u32]) -> Result<(), OpRefusal>
    ensures { AnswersCheck (if_named (have_rows songs.now numbers.now) None) result }
{
    if have_rows(songs.len(), numbers) {
        return Ok(());
    }
    Err(OpRefusal::Songs(SongDbError::NoSuchUri))
}

fn have_rows(count: usize, numbers: &[u32]) -> bool
    ensures { result ≡ list_all (λ number. nat_lt number count) numbers.now }
{
    numbers.iter().all(|number| (*number as usize) < count)
}

// Refused where a URI has no row.
pub(super) fn check_row(songs: &SongDb, uri: &str) -> Result<(), OpRefusal>
    ensures { AnswersCheck (if_named (has_uri songs.now uri.now) None) result }
{
    match songs.row_number(uri) {
        Ok(_) => Ok(()),
        Err(_) => Err(OpRefusal::Songs(SongDbError::NoSuchUri)),
    }
}

// What a check of the queue says of an op.
fn of_queue(answer: Result<(), QueueError>) -> Result<(), OpRefusal>
    ensures { (refusal : Option QueueRefusal) → AnswersQueue refusal answer → AnswersCheck (option_map Queue refusal) result }
{
    match answer {
        Ok(()) => Ok(()),
        Err(refusal) => Err(OpRefusal::Queue(refusal)),
    }
}

pub(super) fn of_lists(answer: Result<(), ListsError>) -> Result<(), OpRefusal>
    ensures { (refusal : Option ListsRefusal) → AnswersLists refusal answer → AnswersCheck (option_map Lists refusal) result }
{
    match answer {
        Ok(()) => Ok(()),
        Err(refusal) => Err(OpRefusal::Lists(refusal)),
    }
}

fn of_stickers(answer: Result<(), StickersError>) -> Result<(), OpRefusal>
    ensures { (refusal : Option StickersRefusal) → AnswersStickers refusal answer
        → AnswersCheck (option_map Stickers refusal) result }
{
    match answer {
        Ok(()) => Ok(()),
        Err(refusal) => Err(OpRefusal::Stickers(refusal)),
    }
}
