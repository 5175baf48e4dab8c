// The edits of the saved half: what the shared form of edits means, done. An op is looked at first, then room is taken for it, then it
// is made, and the player follows.
ghost use Rattle.std.specs.Prelude.{◌≡◌, ◌≢◌, ℕ, true, false, [], IfOk, IfErr, OnOk, OnErr, IsOkUnless, if◌then◌else◌};
ghost use Rattle.profile.specs.declared.profile.Profile.{Profile};
ghost use Rattle.state_codec.specs.Applied.{refusal_of, changes_nothing, after, after_all};
ghost use Rattle.state_codec.specs.declared.op.Op.TheVariants.{SetOption, Queue as OfQueue};
ghost use Rattle.state_codec.specs.declared.op.queue_op.QueueOp.TheVariants.{Delete};
ghost use Rattle.state_codec.specs.declared.op.setting.Setting.TheVariants.{Random};
ghost use Rattle.machine_core.specs.Followed.{followed, stays, follows_random};
ghost use Rattle.machine_core.specs.Meaning.{edits, edited, stands, order_ops};
ghost use Rattle.machine_core.specs.Memory.{grows};
ghost use Rattle.machine_core.specs.State.{MachineState, shown_of};
ghost use Rattle.machine_core.specs.Work.{HasRoom, IsRefusalOf, Performs, command_room};

use crate::machine::Machine;
use crate::work::{Failure, Work};
use player_core::{Block, next_order};
use state_codec::{Op, QueueOp, Saved, Setting};
use std::alloc::Global;

impl Machine {
    // Makes an op at which the player stays as it is.
    pub(crate) fn edit(&mut self, alloc: Global, op: Op, work: &mut Work) -> Result<(), Failure>
        requires room { HasRoom command_room work.old }
        requires stays { followed op self.old ≡ stays self.old }
        ensures performs { Performs (edits op [] self.old) self.old self.new work.old work.new result }
        ensures memory { result ≡ Err Failure.NoMemory → grows (edits op [] self.old) ≡ true }
    {
        if !self.would_change(&op)? {
            return Ok(());
        }
        let bytes = work.admit_edit(self.saved.profile(), None, &op)?;
        self.apply(alloc, &op)?;
        work.push_edit(None, op, bytes);
        Ok(())
    }

    // Sets an option; where `random` begins, a new random order does.
    pub(crate) fn set_option(
        &mut self,
        alloc: Global,
        setting: Setting,
        work: &mut Work,
    ) -> Result<(), Failure>
        requires { HasRoom command_room work.old }
        ensures performs { Performs (edits (SetOption setting) [] self.old) self.old self.new work.old work.new result }
        ensures memory { result ≡ Err Failure.NoMemory → grows (edits (SetOption setting) [] self.old) ≡ true }
    {
        match setting {
            Setting::Random(on) => self.set_random(on, work),
            Setting::Repeat(_) | Setting::Single(_) | Setting::Consume(_) => {
                self.edit(alloc, Op::SetOption(setting), work)
            }
        }
    }

    fn set_random(&mut self, on: bool, work: &mut Work) -> Result<(), Failure>
        requires { HasRoom command_room work.old }
        ensures performs { Performs (edits (SetOption (Random on)) [] self.old) self.old self.new work.old work.new result }
        ensures memory { result ≡ Err Failure.NoMemory → grows (edits (SetOption (Random on)) [] self.old) ≡ true }
    {
        let op = Op::SetOption(Setting::Random(on));
        if !self.would_change(&op)? {
            return Ok(());
        }
        let order = self.order_of_random(on);
        let bytes = work.admit_edit(self.saved.profile(), order, &op)?;
        if self.player.turn_random(on).is_err() {
            return Err(Failure::NoMemory);
        }
        begin_order(&mut self.saved, order);
        self.saved.set_option(Setting::Random(on));
        self.kept.forget();
        work.push_edit(order, op, bytes);
        Ok(())
    }

    // Takes a range of entries out of the queue.
    pub(crate) fn delete_entries(
        &mut self,
        start: u32,
        end: u32,
        work: &mut Work,
    ) -> Result<(), Failure>
        requires { HasRoom command_room work.old }
        ensures performs { Performs (edits (OfQueue (Delete start end)) [] self.old) self.old self.new work.old work.new result }
        ensures memory { result ≡ Err Failure.NoMemory → grows (edits (OfQueue (Delete start end)) [] self.old) ≡ true }
    {
        let op = Op::Queue(QueueOp::Delete { start, end });
        if !self.would_change(&op)? {
            return Ok(());
        }
        let block = Block {
            start: start as usize,
            end: end as usize,
        };
        let settings = self.settings();
        let entries = self.saved.queue().entries();
        let order = self
            .player
            .order_after_removal(entries, &settings, block, &[]);
        let bytes = work.admit_edit(self.saved.profile(), order, &op)?;
        if self
            .player
            .follow_removal(entries, &settings, block, &[])
            .is_err()
        {
            return Err(Failure::NoMemory);
        }
        begin_order(&mut self.saved, order);
        self.saved.delete_entries(start, end);
        self.kept.forget();
        work.push_edit(order, op, bytes);
        Ok(())
    }

    // Whether the op would change anything; it is told where the op is refused.
    fn would_change(&self, op: &Op) -> Result<bool, Failure>
        ensures fits { OnOk result (refusal_of op.now self.now.saved ≡ None) }
        ensures changes { IfOk result (λ changes. edits op.now [] self.now
            ≡ Ok (if changes then edited op.now [] (followed op.now self.now) self.now else stands [] self.now)) }
        ensures refused { (profile : Profile) → (size : ℕ) → IfErr result (IsRefusalOf profile (edits op.now [] self.now) size) }
        ensures memory { result ≢ Err Failure.NoMemory }
    {
        Ok(self.saved.check(op)?)
    }

    // Applies an op that isn't refused.
    pub(crate) fn apply(&mut self, alloc: Global, op: &Op) -> Result<(), Failure>
        requires { refusal_of op.now self.old.saved ≡ None }
        ensures ok { OnOk result (self.new ≡ record self.old { saved = after op.now self.old.saved }) }
        ensures err { OnErr result (self.new ≡ self.old) }
        ensures memory { IsOkUnless result Failure.NoMemory }
    {
        if self.saved.apply(alloc, op).is_err() {
            return Err(Failure::NoMemory);
        }
        if could_change_the_shown(op) {
            self.kept.forget();
        }
        Ok(())
    }

    // The random order that begins where `random` does.
    fn order_of_random(&self, on: bool) -> Option<u64>
        ensures { result ≡ (follows_random on self.now).order }
    {
        if !on {
            return None;
        }
        Some(next_order(self.saved.order()))
    }
}

// Begins a new random order, if there is one.
pub(crate) fn begin_order(saved: &mut Saved, order: Option<u64>)
    ensures { saved.new ≡ after_all (order_ops order) saved.old }
{
    if let Some(order) = order {
        saved.set_order(order);
    }
}

// Whether the op could change which song is shown as the current one or the next.
fn could_change_the_shown(op: &Op) -> bool
    ensures { result ≡ false → (m : MachineState) → shown_of (record m { saved = after op.now m.saved }) ≡ shown_of m }
{
    match op {
        Op::SetVolume(_) | Op::List(_) | Op::Sticker(_) | Op::Place(_) | Op::Timed(_) => false,
        Op::SetOption(_) | Op::SetOrder(_) | Op::Queue(_) | Op::Batch(_) => true,
    }
}
