// The events of a group, one after the other: each is stepped in memory, and its record waits among those of the group.
ghost use Rattle.std.specs.Prelude.{◌≡◌, ◌≤◌, ◌<◌, ◌+◌, ◌-◌, ◌++◌, ◌^◌, ◌==◌, ◌||◌, false, [], length, reverse, min, sum_by};
ghost use Rattle.std.specs.Prelude.{IfOk, OnErr, vec_capacity};
ghost use Rattle.std.specs.List.{AllByRecursion};
ghost use Rattle.play_journal.specs.File.{longest_body, records_len};
ghost use Rattle.state_codec.specs.Ops.{IsOp};
ghost use Rattle.state_codec.specs.Spelling.{body_bytes};
ghost use Rattle.daemon_core.specs.Step.{step};
ghost use Rattle.live_stage.specs.Group.{answer_looks, body_of, may_follow, file_with};
ghost use Rattle.live_stage.specs.Numbers.{longest_record, record_number, greatest, is_due};
ghost use Rattle.live_stage.specs.Staging.{AddsStep, IsAnswerOf, AreStaged, AreTaken, file_begun, numbers_staged};

use crate::due::is_due_at;
use crate::recording::spell;
use crate::turn::Turn;
use daemon_core::{Core, Event, Output};
use machine_core::MAX_LOOKS;
use no_memory::NoMemory;
use play_journal::Group;
use profile::Profile;
use state_codec::Op;
use std::alloc::Global;
use std::snapshot::Snapshot;

/// Behind more bytes of records than these, which the longest one takes, no event of a group is taken.
const LONGEST_RECORD: u64 = 2_097_157;

/// Behind more bytes of answers than these, 1 MiB, no event of a group is taken.
const MOST_ANSWER_BYTES: u64 = 1_048_576;

/// What a group began with: the numbers of the last event and the last record, and those of the file.
#[derive(Clone, Copy)]
pub(crate) struct Begin {
    pub(crate) event: u64,
    pub(crate) last_record: u64,
    pub(crate) layout: u32,
    pub(crate) snapshot_len: u64,
    pub(crate) records: u64,
    pub(crate) bytes: u64,
    pub(crate) is_put_off: bool,
}

// Puts the record of an event's ops behind the others of the group, and answers its number; where there are none, there is no record.
fn stage_ops(
    group: &mut Group,
    room: &mut Vec<u8>,
    profile: Profile,
    ops: &[Op],
    last_record: u64,
) -> Option<u64>
    requires room { longest_body ≤ vec_capacity room.old }
    requires short { length (body_bytes profile ops.now) ≤ longest_body }
    requires fits { records_len group.old ≤ longest_record }
    requires numbers { last_record + length group.old < 2 ^ 64 - 1 }
    ensures number { result ≡ record_number (last_record + length group.old) ops.now }
    ensures added { group.new ≡ group.old ++ body_of profile ops.now }
    ensures valid { AllByRecursion IsOp ops.now }
    ensures capacity { vec_capacity room.new ≡ vec_capacity room.old }
{
    if ops.is_empty() {
        return None;
    }
    spell(room, profile, ops);
    let number = last_record + group.records() + 1;
    if group.push(room).is_err() {
        unreachable!();
    }
    Some(number)
}

// Steps one event in memory, before which so many of the group were, and puts its record behind theirs. It answers too how much the event
// looked at.
#[tactic(auto, using(crate::proofs::ProfileLaws::profile_stays))]
fn stage_one<D>(
    alloc: Global,
    core: &mut Core,
    group: &mut Group,
    room: &mut Vec<u8>,
    begin: Begin,
    many: u64,
    event: Event,
) -> Result<(Turn<D>, u64), NoMemory>
    requires room { longest_body ≤ vec_capacity room.old }
    requires fits { records_len group.old ≤ longest_record }
    requires numbers { (begin.event + many < 2 ^ 64 - 1) × (begin.last_record + length group.old < 2 ^ 64 - 1) }
    ensures answer { IfOk result (λ r. let now = step core.old event r.0.refused_at in
        IsAnswerOf now (numbers_staged begin many group.old) core.old event r.0) }
    ensures added { IfOk result (λ r. let now = step core.old event r.0.refused_at in
        AddsStep now core.old core.new group.old group.new) }
    ensures looks { IfOk result (λ r. r.1 ≡ answer_looks r.0) }
    ensures err { OnErr result ((core.new ≡ core.old) × (group.new ≡ group.old)) }
    ensures capacity { vec_capacity room.new ≡ vec_capacity room.old }
{
    let asked = Snapshot::of(&event);
    let before = Snapshot::of(core);
    let outcome = core.step(alloc, event)?;
    let profile = core.as_saved().profile();
    let number = stage_ops(group, room, profile, &outcome.ops, begin.last_record);
    let event = begin.event + many + 1;
    let looks = outcome.looks;
    let turn = Turn::new(outcome, event, number, asked, before);
    Ok((turn, looks))
}

// How many bytes are given out, counted up to 2^64 - 1.
fn given_out(outputs: &[Output]) -> u64
    ensures { result ≡ min (sum_by (λ o. length o.bytes) outputs.now) greatest }
{
    let mut bytes: u64 = 0;
    for output in outputs {
        bytes = bytes.saturating_add(output.bytes.as_slice().len() as u64);
    }
    bytes
}

// Whether an event is the first, or may follow on so many with these records, whose answers give out so many bytes, and which looked at so
// much.
fn may_go_on(
    group: &Group,
    begin: Begin,
    many: u64,
    bytes: u64,
    looks: u64,
    has_ended: bool,
) -> bool
    requires numbers { (begin.event + many < 2 ^ 64) × (begin.last_record + length group.now < 2 ^ 64) }
    ensures { result ≡ (many == 0 || may_follow (file_with (file_begun begin) group.now) (numbers_staged begin many group.now)
        (records_len group.now) bytes looks has_ended) }
{
    many == 0 || may_follow_on(group, begin, many, bytes, looks, has_ended)
}

// Whether another event may follow on so many, with these records, whose answers give out so many bytes, and which looked at so much.
fn may_follow_on(
    group: &Group,
    begin: Begin,
    many: u64,
    bytes: u64,
    looks: u64,
    has_ended: bool,
) -> bool
    requires numbers { (begin.event + many < 2 ^ 64) × (begin.last_record + length group.now < 2 ^ 64) }
    ensures { result ≡ may_follow (file_with (file_begun begin) group.now) (numbers_staged begin many group.now)
        (records_len group.now) bytes looks has_ended }
{
    !is_due_behind(group, begin)
        && begin.event + many != u64::MAX
        && begin.last_record + group.records() != u64::MAX
        && group.bytes() <= LONGEST_RECORD
        && bytes <= MOST_ANSWER_BYTES
        && looks <= MAX_LOOKS
        && !has_ended
}

// Whether a checkpoint is due behind these records of a group.
fn is_due_behind(group: &Group, begin: Begin) -> bool
    ensures { result ≡ is_due (file_with (file_begun begin) group.now) }
{
    let records = begin.records.saturating_add(group.records());
    let record_bytes = begin.bytes.saturating_add(group.bytes());
    is_due_at(
        begin.layout,
        records,
        record_bytes,
        begin.snapshot_len,
        begin.is_put_off,
    )
}

/// Steps events in memory, in order, and puts their records into the group, as long as another may follow. It answers whether the one
/// at which it ended was refused for want of memory. The events stand in `left` with the first one last, and so do those that are left.
pub(crate) fn stage_events<D>(
    alloc: Global,
    core: &mut Core,
    group: &mut Group,
    room: &mut Vec<u8>,
    turns: &mut Vec<Turn<D>>,
    left: &mut Vec<Event>,
    begin: Begin,
) -> bool
    requires room { longest_body ≤ vec_capacity room.old }
    requires none_yet { turns.old.items ≡ [] }
    requires places { length left.old.items ≤ vec_capacity turns.old }
    requires numbers { (begin.event < 2 ^ 64 - 1) × (begin.last_record < 2 ^ 64 - 1) × (begin.bytes < 2 ^ 64) }
    requires due { is_due (file_begun begin) ≡ false }
    ensures staged { AreStaged D begin core.old turns.new.items core.new group.new }
    ensures taken { AreTaken begin core.old (reverse left.old.items) turns.new.items result (reverse left.new.items) group.new }
    ensures capacity { vec_capacity room.new ≡ vec_capacity room.old }
{
    group.clear();
    let mut bytes: u64 = 0;
    let mut looks: u64 = 0;
    let mut has_ended = false;
    'events: while may_go_on(group, begin, turns.len() as u64, bytes, looks, has_ended) {
        let Some(event) = left.pop() else {
            return false;
        };
        match stage_one(alloc, core, group, room, begin, turns.len() as u64, event) {
            Ok(staged) => {
                let (turn, looked_at) = staged;
                bytes = bytes.saturating_add(given_out(turn.outputs()));
                looks = looks.saturating_add(looked_at);
                has_ended = turn.ended();
                turns.push_reserved(turn);
            }
            Err(_) => return true,
        }
    }
    false
}
