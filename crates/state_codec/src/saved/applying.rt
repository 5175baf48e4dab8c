// Applies an op to the saved state.
ghost use Rattle.std.specs.Prelude.{◌≡◌, Some, None, OnOk, OnErr};
ghost use Rattle.state_codec.specs.Applied.{refusal_of, after, applied};
ghost use Rattle.state_codec.specs.Editing.{AnswersApply, IsEdit};
ghost use Rattle.state_codec.specs.Ops.{IsOp};
ghost use Rattle.state_codec.specs.OpsLists.{list_refusal, lists_edited};
ghost use Rattle.state_codec.specs.OpsQueue.{queue_refusal};
ghost use Rattle.state_codec.specs.OpsSettings.{with_setting};
ghost use Rattle.state_codec.specs.SavedState.{IsSavedState};
ghost use Rattle.state_codec.specs.Stored.{state_of};
ghost use Rattle.state_codec.specs.declared.op.Op.TheVariants.{SetOption, SetOrder, Queue};
ghost use Rattle.state_codec.specs.declared.op.list_op.ListOp.TheVariants.{Move as MoveSong};
ghost use Rattle.state_codec.specs.declared.op.queue_op.QueueOp.TheVariants.{Delete, Move};

use super::placing::{change_place, check_place, leave_place};
use super::timing::tell_times;
use super::{Saved, SavedParts};
use crate::op::{Op, Setting, Text};
use crate::refusal::ApplyError;
use player_core::{Block, Options};
use std::alloc::Global;

impl Saved {
    /// Applies an op. Refused where `check` refuses it, and else by want of memory alone; the state then stays as it was.
    pub fn apply(&mut self, alloc: Global, op: &Op) -> Result<(), ApplyError>
        ensures ok { OnOk result (applied op.now self.old ≡ Some self.new) }
        ensures err { OnErr result (self.new ≡ self.old) }
        ensures answer { AnswersApply (refusal_of op.now self.old) result }
    {
        apply_to(&mut self.parts, alloc, op)
    }

    /// Takes the entries from `start` up to, but not including, `end` out of the queue, as the op does. It takes no memory.
    pub fn delete_entries(&mut self, start: u32, end: u32)
        requires { queue_refusal (Delete start end) self.old ≡ None }
        ensures { self.new ≡ after (Queue (Delete start end)) self.old }
    {
        let block = Block {
            start: start as usize,
            end: end as usize,
        };
        leave_place(
            &mut self.parts.place,
            self.parts.queue.entries(),
            block,
            &[],
        );
        let _ = self.parts.queue.delete_range(block.start, block.end);
    }

    /// Takes the entries from `start` up to, but not including, `end` out of the queue, and puts them back at a place of the rest, as the
    /// op does. It takes no memory.
    pub fn move_entries(&mut self, start: u32, end: u32, to: u32)
        requires { queue_refusal (Move start end to) self.old ≡ None }
        ensures { self.new ≡ after (Queue (Move start end to)) self.old }
    {
        let _ = self
            .parts
            .queue
            .move_range(start as usize, end as usize, to as usize);
    }

    /// Takes the song at position `from` of a playlist out, and puts it back so that it stands at `to`, as the op does, but for the
    /// playlist's time, which `put_untimed` changes. It takes no memory.
    pub fn move_song(&mut self, name: &Text, from: u32, to: u32)
        requires { list_refusal (MoveSong name.now from to) self.old ≡ None }
        ensures { self.new ≡ lists_edited (MoveSong name.now from to) self.old }
    {
        let _ = self
            .parts
            .lists
            .move_at(name.as_str(), from as usize, to as usize);
    }

    /// Sets an option, as the op does.
    pub fn set_option(&mut self, setting: Setting)
        ensures { self.new ≡ after (SetOption setting) self.old }
    {
        set_option(&mut self.parts.options, setting);
    }

    /// Sets the number of the random order, as the op does.
    pub fn set_order(&mut self, order: u64)
        ensures { self.new ≡ after (SetOrder order) self.old }
    {
        self.parts.order = order;
    }
}

fn apply_to(parts: &mut SavedParts, alloc: Global, op: &Op) -> Result<(), ApplyError>
    requires { IsSavedState (state_of parts.old) }
    ensures edit { IsEdit (refusal_of op.now (state_of parts.old)) (after op.now (state_of parts.old))
        (state_of parts.old) (state_of parts.new) result }
    ensures form { OnOk result (IsOp op.now) }
{
    match op {
        Op::SetOption(setting) => set_option(&mut parts.options, *setting),
        Op::SetVolume(volume) => {
            let _percent = volume.percent();
            parts.volume = *volume;
        }
        Op::SetOrder(order) => parts.order = *order,
        Op::Queue(op) => return parts.edit_queue(alloc, op),
        Op::List(op) => return parts.edit_list(alloc, op),
        Op::Sticker(op) => return parts.edit_sticker(alloc, op),
        Op::Batch(changes) => return parts.edit_rows(alloc, changes),
        Op::Place(op) => {
            check_place(parts.profile)?;
            change_place(&mut parts.place, *op);
        }
        Op::Timed(seconds) => {
            check_place(parts.profile)?;
            tell_times(&mut parts.changed, *seconds);
        }
    }
    Ok(())
}

fn set_option(options: &mut Options, setting: Setting)
    ensures { options.new ≡ with_setting setting options.old }
{
    match setting {
        Setting::Repeat(on) => options.repeat = on,
        Setting::Random(on) => options.random = on,
        Setting::Single(single) => options.single = single,
        Setting::Consume(consume) => options.consume = consume,
    }
}
