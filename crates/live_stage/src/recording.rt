// One record for the ops of one event.
ghost use Rattle.std.specs.Prelude.{◌≡◌, ◌≢◌, ◌≤◌, [], length, Ok, None, IfOk, OnOk, vec_capacity};
ghost use Rattle.play_journal.specs.Calls.{StaysInFile};
ghost use Rattle.play_journal.specs.Content.{with_record, with_records};
ghost use Rattle.std.specs.List.{AllByRecursion};
ghost use Rattle.state_codec.specs.Ops.{IsOp};
ghost use Rattle.state_codec.specs.Spelling.{body_bytes};
ghost use Rattle.live_stage.specs.Staging.{TakesRecords, HasRecordedAll};
ghost use Rattle.live_stage.specs.Writing.{TakesRecord, GoesOver, HasRecorded, RefusesRecording, CallsDisks};

use crate::LiveError;
use disk_model::Disk;
use play_journal::{Group, Journal};
use profile::Profile;
use state_codec::{Op, put_ops};

/// The greatest length of a record's body in bytes.
pub(crate) const LONGEST_BODY: usize = 2_097_152;

/// Spells the ops, as a record's body, into room that was taken before.
pub(crate) fn spell(room: &mut Vec<u8>, profile: Profile, ops: &[Op])
    requires { length (body_bytes profile ops.now) ≤ vec_capacity room.old }
    ensures spelled { room.new.items ≡ body_bytes profile ops.now }
    ensures valid { AllByRecursion IsOp ops.now }
    ensures capacity { vec_capacity room.new ≡ vec_capacity room.old }
{
    room.clear();
    if put_ops(room, profile, ops).is_err() {
        unreachable!();
    }
}

/// Writes the record of an event's ops, and answers its number; where there are none, it makes no call of a disk.
#[tactic(auto, using(crate::proofs::TurnLaws::file_recorded, crate::proofs::TurnLaws::file_kept))]
pub(crate) fn record_ops<D: Disk>(
    journal: &mut Journal<D>,
    room: &mut Vec<u8>,
    profile: Profile,
    ops: &[Op],
) -> Result<Option<u64>, LiveError>
    requires room { LONGEST_BODY ≤ vec_capacity room.old }
    requires takes { TakesRecord journal.old (length (body_bytes profile ops.now)) }
    ensures none { ops.now ≡ [] → (result ≡ Ok None) × (journal.new ≡ journal.old) }
    ensures number { IfOk result (λ number. HasRecorded profile journal.old journal.new ops.now number) }
    ensures file { StaysInFile journal.old journal.new }
    ensures any_moment { ops.now ≢ [] → D.honest journal.old.a → D.honest journal.old.b
        → GoesOver D.history journal.old journal.new (with_record journal.old.content (body_bytes profile ops.now)) result }
    ensures valid { AllByRecursion IsOp ops.now }
    ensures refuses { RefusesRecording journal.new result }
    ensures disks { CallsDisks D.honest D.history D.faults journal.old journal.new LiveError.Broken result }
    ensures capacity { vec_capacity room.new ≡ vec_capacity room.old }
{
    if ops.is_empty() {
        return Ok(None);
    }
    spell(room, profile, ops);
    match journal.append(room) {
        Ok(number) => Ok(Some(number)),
        Err(_) => Err(LiveError::Broken),
    }
}

/// Writes the records of a group together; where there are none, it makes no call of a disk.
pub(crate) fn record_group<D: Disk>(
    journal: &mut Journal<D>,
    group: &Group,
) -> Result<(), LiveError>
    requires takes { TakesRecords journal.old (length group.now) }
    ensures none { group.now ≡ [] → OnOk result (journal.new ≡ journal.old) }
    ensures numbers { OnOk result (HasRecordedAll journal.old journal.new group.now) }
    ensures file { StaysInFile journal.old journal.new }
    ensures any_moment { D.honest journal.old.a → D.honest journal.old.b
        → GoesOver D.history journal.old journal.new (with_records journal.old.content group.now) result }
    ensures refuses { RefusesRecording journal.new result }
    ensures disks { CallsDisks D.honest D.history D.faults journal.old journal.new LiveError.Broken result }
{
    match journal.append_all(group) {
        Ok(_last) => Ok(()),
        Err(_fault) => Err(LiveError::Broken),
    }
}
