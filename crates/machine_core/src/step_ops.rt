// What a step of the player changes of the saved half: it is made, and its ops are added to the work.
ghost use Rattle.std.specs.Prelude.{◌≡◌, ◌≤◌, length, vec_capacity};
ghost use Rattle.std.specs.Option.{ForSome};
ghost use Rattle.play_queue.specs.Limits.{MAX_ENTRIES};
ghost use Rattle.profile.specs.declared.profile.Profile.{Profile as AProfile};
ghost use Rattle.state_codec.specs.Applied.{after_all};
ghost use Rattle.state_codec.specs.Spelling.{ops_bytes};
ghost use Rattle.machine_core.specs.Meaning.{order_ops};
ghost use Rattle.machine_core.specs.Steps.{step_ops, removal_ops, single_ops, consume_ops, IsInQueue};
ghost use Rattle.machine_core.specs.Work.{Admits, AddsOps, CanKeep};

use crate::edit::begin_order;
use crate::work::Work;
use player_core::{Changes, Single};
use profile::Profile;
use state_codec::{Op, QueueOp, Saved, Setting};

// Takes the entry at a position out of the queue, if one leaves.
fn take_out(saved: &mut Saved, removed: Option<usize>)
    requires { IsInQueue removed saved.old.queue.entries }
    ensures { saved.new ≡ after_all (removal_ops removed) saved.old }
{
    if let Some(at) = removed {
        let _count = saved.queue().entries().len();
        let at = at as u32;
        saved.delete_entries(at, at + 1);
    }
}

fn turn_single_off(saved: &mut Saved, off: bool)
    ensures { saved.new ≡ after_all (single_ops off) saved.old }
{
    if off {
        saved.set_option(Setting::Single(Single::Off));
    }
}

fn turn_consume_off(saved: &mut Saved, off: bool)
    ensures { saved.new ≡ after_all (consume_ops off) saved.old }
{
    if off {
        saved.set_option(Setting::Consume(Single::Off));
    }
}

// Makes what a step changes.
pub(crate) fn make_changes(saved: &mut Saved, changes: Changes)
    requires { IsInQueue changes.removed saved.old.queue.entries }
    ensures { saved.new ≡ after_all (step_ops changes) saved.old }
{
    begin_order(saved, changes.order);
    take_out(saved, changes.removed);
    turn_single_off(saved, changes.single_off);
    turn_consume_off(saved, changes.consume_off);
}

// How many bytes the ops of a step take, the same under each profile.
pub(crate) fn bytes_of(changes: Changes) -> usize
    ensures { (profile : AProfile) → result ≡ length (ops_bytes profile (step_ops changes)) }
{
    let order = if changes.order.is_some() { 9 } else { 0 };
    let removal = if changes.removed.is_some() { 9 } else { 0 };
    let single = if changes.single_off { 3 } else { 0 };
    let consume = if changes.consume_off { 3 } else { 0 };
    order + removal + single + consume
}

impl Work {
    fn push_removal(&mut self, profile: Profile, removed: Option<usize>)
        requires room { let ops = removal_ops removed in Admits (length ops) (length (ops_bytes profile ops)) self.old }
        requires within { ForSome removed (λ at. at ≤ MAX_ENTRIES) }
        ensures ops { let ops = removal_ops removed in AddsOps ops (length (ops_bytes profile ops)) self.old self.new }
        ensures text { self.new.text ≡ self.old.text }
        ensures room { vec_capacity self.new.ops ≡ vec_capacity self.old.ops }
    {
        if let Some(at) = removed {
            let start = at as u32;
            let end = start + 1;
            self.push(profile, Op::Queue(QueueOp::Delete { start, end }));
        }
    }

    fn push_order(&mut self, profile: Profile, order: Option<u64>)
        requires { let ops = order_ops order in Admits (length ops) (length (ops_bytes profile ops)) self.old }
        ensures ops { let ops = order_ops order in AddsOps ops (length (ops_bytes profile ops)) self.old self.new }
        ensures text { self.new.text ≡ self.old.text }
        ensures room { vec_capacity self.new.ops ≡ vec_capacity self.old.ops }
    {
        if let Some(order) = order {
            self.push(profile, Op::SetOrder(order));
        }
    }

    fn push_single(&mut self, profile: Profile, off: bool)
        requires { let ops = single_ops off in Admits (length ops) (length (ops_bytes profile ops)) self.old }
        ensures ops { let ops = single_ops off in AddsOps ops (length (ops_bytes profile ops)) self.old self.new }
        ensures text { self.new.text ≡ self.old.text }
        ensures room { vec_capacity self.new.ops ≡ vec_capacity self.old.ops }
    {
        if off {
            self.push(profile, Op::SetOption(Setting::Single(Single::Off)));
        }
    }

    fn push_consume(&mut self, profile: Profile, off: bool)
        requires { let ops = consume_ops off in Admits (length ops) (length (ops_bytes profile ops)) self.old }
        ensures ops { let ops = consume_ops off in AddsOps ops (length (ops_bytes profile ops)) self.old self.new }
        ensures text { self.new.text ≡ self.old.text }
        ensures room { vec_capacity self.new.ops ≡ vec_capacity self.old.ops }
    {
        if off {
            self.push(profile, Op::SetOption(Setting::Consume(Single::Off)));
        }
    }

    // Adds the ops of a step of the player, for which there is room.
    pub(crate) fn push_changes(&mut self, profile: Profile, changes: Changes)
        requires room { Admits 4 (length (ops_bytes profile (step_ops changes))) self.old }
        requires within { ForSome changes.removed (λ at. at ≤ MAX_ENTRIES) }
        ensures ops { AddsOps (step_ops changes) (length (ops_bytes profile (step_ops changes))) self.old self.new }
        ensures text { self.new.text ≡ self.old.text }
        ensures keeps { CanKeep self.new }
    {
        self.push_order(profile, changes.order);
        self.push_removal(profile, changes.removed);
        self.push_single(profile, changes.single_off);
        self.push_consume(profile, changes.consume_off);
    }
}
