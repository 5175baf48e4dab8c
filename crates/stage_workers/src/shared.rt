// The stage that threads share.
ghost use Rattle.std.specs.Prelude.{◌≡◌, ◌≢◌, ◌+◌, ◌*◌, ◌<◌, ◌≤◌, [], length, sum_by, Bool, None, IfOk, IfErr, IfSome};
ghost use Rattle.daemon_core.specs.declared.event.Event.TheVariants as events;
ghost use Rattle.live_stage.specs.Group.{AreParted, answer_looks};
ghost use Rattle.machine_core.specs.Looks.{max_looks};
ghost use Rattle.stage_workers.specs.PassState.{new_pass};
ghost use Rattle.stage_workers.specs.Entry.{TellsRewound};
ghost use Rattle.stage_workers.specs.Group.{RefusesFront, passed_by};
ghost use Rattle.stage_workers.specs.Settling.{AllAgree, IsReceiptsReason, shares_in};

use crate::{
    Blanks, Kind, Locked, Outbox, Pass, PassesSpent, Served, ServedGroup, SettleError, StageError,
    Way, laws,
};
use daemon_core::Event;
use disk_model::Disk;
use live_stage::{Live, LiveError, Receipt};
use player_core::Order;
use profile::Profile;
use song_db::{RowChange, ScanOrder};
use std::alloc::Global;
use std::io;
use std::sync::ledger::Ledger;
use std::sync::{Condvar, Mutex, Wait};

/// A stage that threads share: each event is one holding of its lock.
///
/// Each of its calls but `new` and `settle` may wait for the lock. What a call does while it holds the lock is what the function of `laws`
/// that it runs promises.
#[derive(Drop)]
pub struct SharedStage<D: Disk, C: Ledger, P: Ledger, S: Ledger> {
    pub(crate) locked: Mutex<Locked<D, C, P, S>>,
    pub(crate) changed: Condvar,
}

impl<D: Disk, C: Ledger, P: Ledger, S: Ledger> SharedStage<D, C, P, S> {
    /// Shares a stage that has had no event. What lies under the lock then is `laws::locked`.
    pub fn new(alloc: Global, live: Live<D>, blanks: Blanks) -> Self
        requires first { live.numbers.event ≡ 0 }
        requires clients { (blanks.clients.name ≡ C.name) × (blanks.clients.parts ≡ C.parts) × (blanks.clients.parts ≡ 65537) }
        requires player { (blanks.player.name ≡ P.name) × (blanks.player.parts ≡ P.parts) × (blanks.player.parts ≡ 65537) }
        requires scan { (blanks.scan.name ≡ S.name) × (blanks.scan.parts ≡ S.parts) × (blanks.scan.parts ≡ 65537) }
    {
        SharedStage {
            locked: Mutex::new(laws::locked(alloc, live, blanks)),
            changed: Condvar::new(),
        }
    }

    /// A pass of this kind, by `laws::passed`. It refuses `PassesSpent` after 65,536 of the kind.
    pub fn pass(&self, rt: &impl Wait, kind: Kind) -> Result<Pass<C, P, S>, PassesSpent>
        ensures { IfOk result (λ p. p ≡ new_pass kind) }
    {
        laws::passed(&mut *self.locked.lock(rt), kind)
    }

    /// Handles one event, and hands over its answer with all that was left in the outbox: `laws::enter` by `Way::Serve`, behind
    /// `laws::put_off_due`.
    ///
    /// It refuses in the order `Broken` (from before), `Rewound`, `NumbersSpent`, `NoMemory`, `Broken` (by a disk fault now), and then
    /// hands the pass back as it was.
    pub fn serve(
        &self,
        rt: &impl Wait,
        alloc: Global,
        pass: Pass<C, P, S>,
        event: Event,
    ) -> Result<(Served<D>, Pass<C, P, S>), (StageError, Pass<C, P, S>)>
        ensures asked { IfOk result (λ r. r.0.turn.asked ≡ event) }
        ensures passed { IfOk result (λ r. r.1 ≡ record { kind = pass.kind; seen = r.0.turn.event; share = pass.share + 1 }) }
        ensures later { IfOk result (λ r. pass.seen < r.0.turn.event) }
        ensures refused { IfErr result (λ e. e.1 ≡ pass) }
        ensures rewound { IfErr result (λ e. TellsRewound pass e.0) }
    {
        let mut pass = pass;
        let mut guard = self.locked.lock(rt);
        laws::put_off_due(&mut *guard);
        let entered = laws::enter(&mut *guard, alloc, &mut pass, event, Way::Serve);
        let is_playing = guard.live.is_playing();
        drop(guard);
        self.wake_player(is_playing);
        match entered {
            Ok(Some(served)) => Ok((served, pass)),
            Ok(None) => unreachable!(),
            Err(error) => Err((error, pass)),
        }
    }

    /// Makes room on the disk for the records of what comes next (`laws::made_room`, behind `laws::gave_room`), and tells the stage where
    /// that has changed: one event then, whose answer is handed over with all that was left in the outbox. Under the first profile nothing
    /// is done.
    ///
    /// It refuses as `made_room`, and then as `serve`.
    #[tactic(auto, using(crate::proofs::RoomLaws::refuses_unseen))]
    pub fn tell_room(
        &self,
        rt: &impl Wait,
        alloc: Global,
        pass: Pass<C, P, S>,
        is_again: bool,
    ) -> Result<(Option<Served<D>>, Pass<C, P, S>), (StageError, Pass<C, P, S>)>
        ensures none { IfOk result (λ r. r.0 ≡ None → r.1 ≡ pass) }
        ensures told { IfOk result (λ r. IfSome r.0 (λ served. (answer_looks served.turn ≡ 0)
            × (r.1 ≡ record { kind = pass.kind; seen = served.turn.event; share = pass.share + 1 }))) }
        ensures room { IfOk result (λ r. IfSome r.0 (λ served. (is_there : Bool) × (served.turn.asked ≡ events.Room is_there))) }
        ensures later { IfOk result (λ r. pass.seen ≤ r.1.seen) }
        ensures refused { IfErr result (λ e. e.1 ≡ pass) }
        ensures rewound { IfErr result (λ e. TellsRewound pass e.0) }
    {
        let mut pass = pass;
        let mut guard = self.locked.lock(rt);
        if let Err(error) = laws::gave_room(&mut *guard) {
            return Err((error, pass));
        }
        let is_there = match laws::made_room(&mut *guard, is_again) {
            Ok(Some(is_there)) => is_there,
            Ok(None) => return Ok((None, pass)),
            Err(error) => return Err((error, pass)),
        };
        match laws::enter(
            &mut *guard,
            alloc,
            &mut pass,
            Event::Room { is_there },
            Way::Serve,
        ) {
            Ok(served) => Ok((served, pass)),
            Err(error) => Err((error, pass)),
        }
    }

    /// For which file room was refused last, whether file b, at which call, and what the system said, if any was. It is no event.
    pub fn room_refusal(&self, rt: &impl Wait) -> Option<(bool, &'static str, io::Error)> {
        self.locked.lock(rt).live.room_refusal()
    }

    /// Whether room is made on the disk before records need it, as with the wide profile. It is no event.
    pub fn makes_room(&self, rt: &impl Wait) -> bool {
        match self.locked.lock(rt).live.profile() {
            Profile::Named => false,
            Profile::Wide => true,
        }
    }

    /// Whether what is saved can't change, since the disk has no room. It is no event.
    pub fn lacks_room(&self, rt: &impl Wait) -> bool {
        self.locked.lock(rt).live.lacks_room()
    }

    /// Handles events in order as a group, whose records reach the disk together, and hands over their answers with all that was left in
    /// the outbox: `laws::put_off_due` and `laws::enter_group`, in one holding of the lock.
    ///
    /// It refuses as `serve` does. What is refused is the first event alone, or, by a disk fault now, all that were begun; the others are
    /// handed back, and the pass as it was.
    pub fn serve_group(
        &self,
        rt: &impl Wait,
        alloc: Global,
        pass: Pass<C, P, S>,
        events: Vec<Event>,
    ) -> Result<(ServedGroup<D>, Pass<C, P, S>), (StageError, Vec<Event>, Pass<C, P, S>)>
        ensures asked { IfOk result (λ r. AreParted events.items r.0.turns.items r.0.is_refused r.0.rest.items) }
        ensures some { IfOk result (λ r. events.items ≢ [] → r.0.turns.items ≢ []) }
        ensures passed { IfOk result (λ r. r.1 ≡ passed_by pass r.0.turns.items) }
        ensures later { IfOk result (λ r. pass.seen + length r.0.turns.items ≤ r.1.seen) }
        ensures looks { IfOk result (λ r. sum_by answer_looks r.0.turns.items ≤ 2 * max_looks) }
        ensures front { IfErr result (λ e. RefusesFront events.items e.0 e.1.items) }
        ensures refused { IfErr result (λ e. e.2 ≡ pass) }
        ensures rewound { IfErr result (λ e. TellsRewound pass e.0) }
    {
        let mut pass = pass;
        let mut guard = self.locked.lock(rt);
        laws::put_off_due(&mut *guard);
        let entered = laws::enter_group(&mut *guard, alloc, &mut pass, events);
        let is_playing = guard.live.is_playing();
        drop(guard);
        self.wake_player(is_playing);
        match entered {
            Ok(group) => Ok((group, pass)),
            Err((error, rest)) => Err((error, rest, pass)),
        }
    }

    /// Handles one event, and leaves its outputs in the outbox: `laws::enter` by `Way::Report`, behind `laws::put_off_due`.
    ///
    /// It refuses as `serve` does, and by `NoMemory` also what waits for room on the disk, by `laws::waits_for_room`.
    pub fn report(
        &self,
        rt: &impl Wait,
        alloc: Global,
        pass: Pass<C, P, S>,
        event: Event,
    ) -> Result<Pass<C, P, S>, (StageError, Pass<C, P, S>)>
        ensures kind { IfOk result (λ r. r.kind ≡ pass.kind) }
        ensures share { IfOk result (λ r. r.share ≡ pass.share + 1) }
        ensures later { IfOk result (λ r. pass.seen < r.seen) }
        ensures refused { IfErr result (λ e. e.1 ≡ pass) }
        ensures rewound { IfErr result (λ e. TellsRewound pass e.0) }
    {
        let mut pass = pass;
        let mut guard = self.locked.lock(rt);
        if laws::waits_for_room(&*guard, &event) {
            return Err((StageError::NoMemory, pass));
        }
        laws::put_off_due(&mut *guard);
        let entered = laws::enter(&mut *guard, alloc, &mut pass, event, Way::Report);
        let is_playing = guard.live.is_playing();
        drop(guard);
        self.wake_player(is_playing);
        match entered {
            Ok(_) => Ok(pass),
            Err(error) => Err((error, pass)),
        }
    }

    // A player that waits has something to do only where a song plays.
    fn wake_player(&self, is_playing: bool) {
        if is_playing {
            self.changed.notify_all();
        }
    }

    /// All that was left in the outbox, in order, by `laws::taken`. It is no event.
    pub fn collect(&self, rt: &impl Wait, alloc: Global) -> Outbox {
        laws::taken(&mut *self.locked.lock(rt), alloc)
    }

    /// What the output is to do, by `laws::ordered`. It is no event. It refuses `Broken` and `NoMemory` alone.
    pub fn order(&self, rt: &impl Wait, alloc: Global) -> Result<Order, LiveError>
        ensures { IfErr result (λ e. e ≢ LiveError.NumbersSpent) }
    {
        laws::ordered(&*self.locked.lock(rt), alloc)
    }

    /// What a scan is to read for the job that runs, if one does, by `laws::scan_ordered`. It is no event. It refuses `Broken` and
    /// `NoMemory` alone.
    pub fn scan_order(&self, rt: &impl Wait, alloc: Global) -> Result<Option<ScanOrder>, LiveError>
        ensures { IfErr result (λ e. e ≢ LiveError.NumbersSpent) }
    {
        laws::scan_ordered(&*self.locked.lock(rt), alloc)
    }

    /// The number of the job that runs, if one does, by `laws::running_job`: that of `scan_order`, of which it copies nothing. It is no
    /// event. It refuses `Broken` alone.
    pub fn running_job(&self, rt: &impl Wait) -> Result<Option<u32>, LiveError>
        ensures { IfErr result (λ e. e ≡ LiveError.Broken) }
    {
        laws::running_job(&*self.locked.lock(rt))
    }

    /// How many bytes of a picture an answer to a client may have, by `laws::chunk_limit`. It is no event. It refuses `Broken` alone.
    pub fn chunk_limit(&self, rt: &impl Wait, client: u64) -> Result<u32, LiveError>
        ensures { IfErr result (λ e. e ≡ LiveError.Broken) }
    {
        laws::chunk_limit(&*self.locked.lock(rt), client)
    }

    /// How many of these changes put another row in the place of a song's, by `laws::count_replaced`. It is no event.
    pub fn count_replaced(&self, rt: &impl Wait, changes: &[RowChange]) -> usize {
        laws::count_replaced(&*self.locked.lock(rt), changes)
    }

    /// How many songs there are, by `laws::count_songs`. It is no event.
    pub fn count_songs(&self, rt: &impl Wait) -> usize {
        laws::count_songs(&*self.locked.lock(rt))
    }

    /// How many songs this job missed, and of how many, where it dropped none because they were too many, by `laws::withheld`. It is no
    /// event.
    pub fn withheld(&self, rt: &impl Wait, job: u32) -> Option<(usize, usize)> {
        laws::withheld(&*self.locked.lock(rt), job)
    }

    /// Tells the workers to end, by `laws::closed`, and wakes the player. It is no event.
    pub fn close(&self, rt: &impl Wait) {
        laws::closed(&mut *self.locked.lock(rt));
        self.changed.notify_all();
    }

    /// Whether the workers are to end. It is no event.
    pub fn is_closed(&self, rt: &impl Wait) -> bool {
        self.locked.lock(rt).is_closed
    }

    /// Ends the sharing, by `laws::settled`: all passes come back, and receipts that were given out are compared with the stage, which is
    /// handed back either way. It takes no memory, and waits for nothing.
    pub fn settle(
        self,
        passes: Vec<Pass<C, P, S>>,
        receipts: &[Receipt],
    ) -> Result<Live<D>, (SettleError, Live<D>)>
        ensures shares { IfOk result (λ live. shares_in passes.items ≡ live.numbers.event) }
        ensures receipts { IfOk result (λ live. AllAgree live receipts.now) }
        ensures foreign { IfErr result (λ e. IsReceiptsReason e.1 receipts.now e.0) }
    {
        let SharedStage { locked, changed: _ } = self;
        laws::settled(locked.into_inner(), passes, receipts)
    }
}
