// The events of a scan: a batch of changes of rows, and the end. All memory is taken before anything changes.
ghost use Rattle.std.specs.Prelude.{◌≡◌, ◌+◌, ◌≤◌, ◌++◌, ◌∷◌, [], None, option_copied, vec_len, vec_capacity};
ghost use Rattle.std.specs.Prelude.{IfOk, OnOk, OnErr};
ghost use Rattle.idle_masks.specs.Subsystems.{none};
ghost use Rattle.song_db.specs.Scan.{drops_of};
ghost use Rattle.state_codec.specs.Applied.{refusal_of};
ghost use Rattle.state_codec.specs.Changes.{AreChanges};
ghost use Rattle.state_codec.specs.declared.op.Op.TheVariants.{Batch};
ghost use Rattle.machine_core.specs.Followed.{current_row, cut_to, no_block, of_step, step_as_they_leave};
ghost use Rattle.machine_core.specs.Happening.{HasHappened};
ghost use Rattle.machine_core.specs.Keeping.{kept_event};
ghost use Rattle.machine_core.specs.Meaning.{order_ops};
ghost use Rattle.machine_core.specs.Scanning.{after_job, is_running, when_scanned, when_found, changes_rows};
ghost use Rattle.machine_core.specs.Work.{keep_count};

mod heard;
mod missing;
mod rows;

use crate::current::current_entry;
use crate::edit::begin_order;
use crate::happened::Happened;
use crate::job::{Job, WaitingJob};
use crate::machine::Machine;
use crate::scanning::rows::telling;
use crate::work::KEEP_COUNT;
use idle_masks::Subsystems;
use no_memory::NoMemory;
use player_core::{Block, Player};
use song_db::{RowChange, SongRow};
use state_codec::{Changes, Op, Saved, dropped_by, laws};
use std::alloc::Global;

impl Machine {
    /// A scan is over: its job runs no more, and the one that waited longest begins. Nothing happens where the job of this number doesn't
    /// run.
    pub fn scan_done(&mut self, alloc: Global, job: u32) -> Happened
        ensures { HasHappened (when_scanned job self.old) self.old self.new result }
    {
        if !self.runs_job(job) {
            return nothing(alloc);
        }
        let before = self.before();
        let has_changed_a_row = self.job.has_changed_a_row;
        self.end_job();
        let mut changed = self.changed_since(&before, &[]);
        changed.update = true;
        changed.database = has_changed_a_row;
        Happened {
            ops: Vec::new(alloc),
            changed,
        }
    }

    // The job is over, and the one that waited longest begins, if one waits.
    fn end_job(&mut self)
        ensures { self.new ≡ after_job self.old }
    {
        if self.waiting.is_empty() {
            self.job.runs = false;
            self.job.read = self.clock.now;
            return;
        }
        let WaitingJob {
            number,
            place,
            opens_all,
        } = self.waiting.remove(0);
        self.job = Job::begun(number, place, opens_all, self.clock.now);
    }

    /// A scan has read a batch. One op makes the changes of it that change a row at their turn, but for rows that the profile doesn't
    /// keep, and but for one that drops the song that is heard under the wide profile. Nothing happens where there are none, where the job
    /// of this number doesn't run, or where the journal's disk has no room. Without memory the machine stays as it was.
    pub fn batch(&mut self, alloc: Global, job: u32, changes: Changes) -> Result<Happened, NoMemory>
        ensures ok { IfOk result (λ happened. HasHappened (kept_event self.old
            (when_found job changes self.old)) self.old self.new happened) }
        ensures err { OnErr result (self.new ≡ self.old) }
    {
        if !self.runs_job(job) {
            return Ok(nothing(alloc));
        }
        if self.lacks_room() {
            return Ok(nothing(alloc));
        }
        let spared = self.spare(changes);
        let profile = self.saved.profile();
        let told = telling(alloc, profile, self.saved.songs(), spared)?;
        match Changes::new(told) {
            Some(told) => self.change_rows(alloc, told),
            None => Ok(nothing(alloc)),
        }
    }

    // Whether the job of this number runs.
    fn runs_job(&self, job: u32) -> bool
        ensures { result ≡ is_running job self.now }
    {
        self.job.runs && self.job.number == job
    }

    // Makes changes, each of which changes a row at its turn, and tells what that did.
    fn change_rows(&mut self, alloc: Global, changes: Changes) -> Result<Happened, NoMemory>
        requires { refusal_of (Batch changes) self.old.saved ≡ None }
        ensures ok { IfOk result (λ happened. HasHappened (kept_event self.old
            (changes_rows changes self.old)) self.old self.new happened) }
        ensures err { OnErr result (self.new ≡ self.old) }
    {
        laws::body_len();
        let keeping = self.keeping();
        let before = self.before();
        let stickers = self.saved.stickers().len();
        let mut ops = self.make_batch(alloc, changes)?;
        let _ = self.keep_since(keeping, &before, &mut ops);
        let mut changed = self.changed_since(&before, &ops);
        changed.sticker = stickers != self.saved.stickers().len();
        Ok(Happened { ops, changed })
    }

    // Makes the op of a batch; the player follows, and the job remembers. It answers the ops that were made.
    fn make_batch(&mut self, alloc: Global, changes: Changes) -> Result<Vec<Op>, NoMemory>
        requires { refusal_of (Batch changes) self.old.saved ≡ None }
        ensures ops { IfOk result (λ ops. ops.items ≡ (changes_rows changes self.old).ops) }
        ensures room { IfOk result (λ ops. vec_len ops + keep_count ≤ vec_capacity ops) }
        ensures machine { OnOk result (self.new ≡ (changes_rows changes self.old).after) }
        ensures form { OnOk result (AreChanges changes) }
        ensures err { OnErr result (self.new ≡ self.old) }
    {
        let mut ops = Vec::with_capacity(alloc, 2 + KEEP_COUNT)?;
        let (mut player, order) = self.follow_batch(alloc, changes.as_slice())?;
        let op = Op::Batch(changes);
        if self.apply(alloc, &op).is_err() {
            return Err(NoMemory);
        }
        cut_to_song(&self.saved, &mut player);
        begin_order(&mut self.saved, order);
        self.kept.forget();
        self.player = player;
        self.job.has_changed_a_row = true;
        push_ops(&mut ops, order, op);
        Ok(ops)
    }

    // The player, as it is when the entries of dropped songs leave, and the random order that begins then, if one does.
    fn follow_batch(
        &self,
        alloc: Global,
        changes: &[RowChange],
    ) -> Result<(Player, Option<u64>), NoMemory>
        ensures { IfOk result (λ next. record { player = next.0; order = next.1 }
            ≡ of_step (step_as_they_leave no_block (drops_of changes.now) self.now)) }
    {
        let dropped = dropped_by(alloc, changes)?;
        let settings = self.settings();
        let entries = self.saved.queue().entries();
        let mut player = self.player.try_clone(alloc)?;
        match player.follow_removal(entries, &settings, Block::NONE, &dropped) {
            Ok(step) => Ok((player, step.order)),
            Err(_) => Err(NoMemory),
        }
    }
}

// What an event does that changes nothing.
pub(crate) fn nothing(alloc: Global) -> Happened
    ensures ops { result.ops.items ≡ [] }
    ensures changed { result.changed ≡ none }
{
    Happened {
        ops: Vec::new(alloc),
        changed: Subsystems::none(),
    }
}

// The op of a batch, behind the new random order that begins before it, if one does.
fn push_ops(ops: &mut Vec<Op>, order: Option<u64>, op: Op)
    requires { vec_len ops.old + 2 ≤ vec_capacity ops.old }
    ensures ops { ops.new.items ≡ ops.old.items ++ (order_ops order ++ op ∷ []) }
    ensures room { vec_capacity ops.new ≡ vec_capacity ops.old }
    ensures more { vec_len ops.new ≤ vec_len ops.old + 2 }
{
    if let Some(order) = order {
        ops.push_reserved(Op::SetOrder(order));
    }
    ops.push_reserved(op);
}

// The frame position is cut to the frames of the current song.
fn cut_to_song(saved: &Saved, player: &mut Player)
    ensures { player.new ≡ cut_to (current_row saved.now player.old) player.old }
{
    if let Some(row) = current_row(saved, player) {
        player.cut(row.info().frames);
    }
}

// The row of the current song.
fn current_row<'a>(saved: &'a Saved, player: &Player) -> Option<&'a SongRow>
    ensures { option_copied result ≡ current_row saved.now player.now }
{
    let entry = current_entry(saved.queue().entries(), player.current())?;
    saved.songs().row_of(entry.uri).ok()
}
