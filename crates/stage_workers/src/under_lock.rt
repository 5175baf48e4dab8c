// What the calls of a shared stage do while they hold the lock.
ghost use Rattle.std.specs.Prelude.{◌≡◌, ◌⊎◌, ◌↔◌, ◌+◌, ◌<◌, ◌≤◌, true, false, List, [], length};
ghost use Rattle.std.specs.Prelude.{IsErr, IfOk, IfErr, OnErr, OnOk, Ok, None, MatchResult, option_map};
ghost use Rattle.disk_model.specs.Later.{AreLater};
ghost use Rattle.daemon_core.specs.Orders.{play_order, scan_order};
ghost use Rattle.daemon_core.specs.Replay.{Entry};
ghost use Rattle.daemon_core.specs.Seen.{view_of};
ghost use Rattle.live_stage.specs.Group.{EndsThere, IsOfFront, history_in};
ghost use Rattle.live_stage.specs.Turns.{CallsDisksAlone, HasBehind, HasNoneBehind, LooksForRoom, RefusesToTell, gives_room};
ghost use Rattle.live_stage.specs.Turns.{room_enough};
ghost use Rattle.stage_workers.specs.declared.kind.Kind.{Kind};
ghost use Rattle.stage_workers.specs.PassState.{new_pass};
ghost use Rattle.stage_workers.specs.Books.{events_of, left_of, with_pass};
ghost use Rattle.stage_workers.specs.LockState.{first_lock, FindsItsState};
ghost use Rattle.stage_workers.specs.Entry.{IsEntered, IsCounted, AnyMoment, TellsFaults, RefusesInOrder};
ghost use Rattle.stage_workers.specs.Group.{AreCounted, FindsNoneOrAll, IsGroupEntered, RefusesFrontOf, as_an_event};
ghost use Rattle.profile.specs.declared.profile.Profile.TheVariants.{Named, Wide};
ghost use Rattle.stage_workers.specs.Replacing.{count_replaced, missed_by};
ghost use Rattle.machine_core.specs.State.{lacks_room};
ghost use Rattle.live_stage.specs.Numbers.{is_due, put_off};
ghost use Rattle.stage_workers.specs.Room.{FindsRoomFor, FindsTheSame, IsRestKept, TellsRoom, WaitsWhereDue};
ghost use Rattle.stage_workers.specs.Room.{is_batch, is_resume, may_record};
ghost use Rattle.stage_workers.specs.Settling.{AddsUp, AllAgree, IsReason, shares_in};

use crate::books::Books;
use crate::grouping::{behind_first, counted_group};
use crate::locked::counted_turn;
use crate::refusal::refusal_of;
use crate::replacing::count_in;
use crate::settling::{ReturnedBooks, first_foreign};
use crate::{
    Blanks, Kind, Locked, Outbox, Outputs, Pass, PassesSpent, Served, ServedGroup, SettleError,
    StageError, Way,
};
use daemon_core::Event;
use disk_model::Disk;
use live_stage::{Live, LiveError, Receipt, Turns};
use player_core::Order;
use profile::Profile;
use song_db::{RowChange, ScanOrder};
use std::alloc::Global;
use std::mem;
use std::sync::ledger::Ledger;

/// Where there is no room, it is looked for once in so many seconds.
const ROOM_EVERY: u64 = 5;

/// What is put under the lock: a stage that has had no event.
pub fn locked<D: Disk, C: Ledger, P: Ledger, S: Ledger>(
    alloc: Global,
    live: Live<D>,
    blanks: Blanks,
) -> Locked<D, C, P, S>
    requires first { live.numbers.event ≡ 0 }
    requires clients { (blanks.clients.name ≡ C.name) × (blanks.clients.parts ≡ C.parts) × (blanks.clients.parts ≡ 65537) }
    requires player { (blanks.player.name ≡ P.name) × (blanks.player.parts ≡ P.parts) × (blanks.player.parts ≡ 65537) }
    requires scan { (blanks.scan.name ≡ S.name) × (blanks.scan.parts ≡ S.parts) × (blanks.scan.parts ≡ 65537) }
    ensures { result ≡ first_lock live }
{
    // As long as it isn't broken, the files give its state.
    let _broken = live.is_broken();
    Locked {
        live,
        outbox: Vec::new(alloc),
        books: Books::open(blanks),
        is_closed: false,
    }
}

/// What holds each time the lock is taken.
pub fn keeps<D: Disk, C: Ledger, P: Ledger, S: Ledger>(locked: &Locked<D, C, P, S>)
    ensures counted { locked.now.live.numbers.event ≡ events_of locked.now.books }
    ensures kept { FindsItsState D.honest D.history locked.now.live }
{
    let _event = locked.live.last_event();
}

/// A pass of this kind. There are 65,536 of each.
pub fn passed<D: Disk, C: Ledger, P: Ledger, S: Ledger>(
    locked: &mut Locked<D, C, P, S>,
    kind: Kind,
) -> Result<Pass<C, P, S>, PassesSpent>
    ensures pass { IfOk result (λ p. p ≡ new_pass kind) }
    ensures books { OnOk result (with_pass kind locked.new.books ≡ locked.old.books) }
    ensures live { locked.new.live ≡ locked.old.live }
    ensures rest { (locked.new.outbox ≡ locked.old.outbox) × (locked.new.is_closed ≡ locked.old.is_closed) }
    ensures spent { IsErr result ↔ (left_of kind locked.old.books ≡ 0) }
    ensures stays { OnErr result (locked.new ≡ locked.old) }
{
    match locked.books.pass(kind) {
        Some(pass) => Ok(pass),
        None => Err(PassesSpent),
    }
}

/// Handles one event: one turn of the stage, which the pass has made and its book counts. By `Way::Serve` its answer is handed over with
/// all that was left in the outbox, and by `Way::Report`, which answers none, its outputs are left there.
///
/// It refuses in the order `Broken` (from before), `Rewound`, `NumbersSpent`, `NoMemory`, `Broken` (by a disk fault now). A refusal leaves
/// books, outbox and pass as they were.
pub fn enter<D: Disk, C: Ledger, P: Ledger, S: Ledger>(
    locked: &mut Locked<D, C, P, S>,
    alloc: Global,
    pass: &mut Pass<C, P, S>,
    event: Event,
    way: Way,
) -> Result<Option<Served<D>>, StageError>
    ensures entered { IfOk result (λ r. IsEntered D.honest D.history way locked.old locked.new event r) }
    ensures counted { OnOk result (IsCounted locked.old locked.new pass.old pass.new) }
    ensures later { OnOk result (pass.old.seen < pass.new.seen) }

    // Stopped at any moment, a restart finds the saved state from before or from after the event; from then on, the stage's own.
    ensures any_moment { AnyMoment D.honest D.history locked.old.live locked.new.live event }
    ensures kept { FindsItsState D.honest D.history locked.new.live }
    ensures sum { locked.new.live.numbers.event ≡ events_of locked.new.books }

    ensures refuses { RefusesInOrder locked.old locked.new pass.old result }
    ensures pass { OnErr result (pass.new ≡ pass.old) }
    ensures fault { TellsFaults D.honest D.faults locked.old.live locked.new.live result }
    ensures disks { AreLater D.honest D.history D.faults locked.old.live.a locked.old.live.b locked.new.live.a locked.new.live.b }
{
    if locked.live.is_broken() {
        return Err(StageError::Broken);
    }
    rewound(pass.seen, locked.live.last_event())?;
    if locked.live.are_numbers_spent() {
        return Err(StageError::NumbersSpent);
    }
    match way {
        Way::Serve => {
            let turn = counted_turn(&mut locked.live, &mut locked.books, alloc, pass, event)?;
            let before = taken(locked, alloc);
            Ok(Some(Served { before, turn }))
        }
        Way::Report => {
            if locked.outbox.reserve(1).is_err() {
                return Err(StageError::NoMemory);
            }
            let turn = counted_turn(&mut locked.live, &mut locked.books, alloc, pass, event)?;
            locked
                .outbox
                .push_reserved(Outputs::new(turn.into_outputs()));
            Ok(None)
        }
    }
}

/// Handles events in order as a group, whose records reach the disk together: each that is answered is a turn of the stage, which the pass
/// has made and its book counts. Their answers are handed over with all that was left in the outbox, also where there is no event.
///
/// It refuses in the order `Broken` (from before), `Rewound`, `NumbersSpent`, `NoMemory`, `Broken` (by a disk fault now). A refusal leaves
/// books, outbox and pass as they were, and hands the events back that were not begun.
pub fn enter_group<D: Disk, C: Ledger, P: Ledger, S: Ledger>(
    locked: &mut Locked<D, C, P, S>,
    alloc: Global,
    pass: &mut Pass<C, P, S>,
    events: Vec<Event>,
) -> Result<ServedGroup<D>, (StageError, Vec<Event>)>
    // Events are taken in order as long as they may be. Each is answered, refused or handed back.
    ensures events { MatchResult result (λ g. EndsThere locked.old.live events.items g.turns.items g.is_refused g.rest.items)
        (λ e. RefusesFrontOf locked.old.live events.items e.0 e.1.items) }
    ensures entered { IfOk result (λ g. IsGroupEntered D.honest D.history locked.old locked.new g.before g.turns.items) }
    ensures counted { IfOk result (λ g. AreCounted locked.old locked.new pass.old pass.new g.turns.items) }

    // Stopped at any moment, a restart finds the saved state from before or the one behind the last event, with one history throughout,
    // which is that of the answers; from then on, the stage's own.
    ensures any_moment { D.honest locked.old.live.a → D.honest locked.old.live.b → locked.old.live.is_broken ≡ false
        → (whole : List Entry)
        × MatchResult result (λ g. whole ≡ history_in g.turns.items) (λ e. IsOfFront whole events.items e.1.items)
        × FindsNoneOrAll D.history locked.old.live locked.new.live whole }
    ensures kept { FindsItsState D.honest D.history locked.new.live }
    ensures sum { locked.new.live.numbers.event ≡ events_of locked.new.books }

    ensures refuses { RefusesInOrder locked.old locked.new pass.old (as_an_event result) }
    ensures pass { OnErr result (pass.new ≡ pass.old) }
    ensures fault { TellsFaults D.honest D.faults locked.old.live locked.new.live (as_an_event result) }
    ensures disks { AreLater D.honest D.history D.faults locked.old.live.a locked.old.live.b locked.new.live.a locked.new.live.b }
{
    if locked.live.is_broken() {
        return Err((StageError::Broken, behind_first(events)));
    }
    if let Err(error) = rewound(pass.seen, locked.live.last_event()) {
        return Err((error, behind_first(events)));
    }
    if locked.live.are_numbers_spent() {
        return Err((StageError::NumbersSpent, behind_first(events)));
    }
    let group = match counted_group(&mut locked.live, &mut locked.books, alloc, pass, events) {
        Ok(group) => group,
        Err(refused) => return Err(refused),
    };
    let Turns {
        turns,
        is_refused,
        rest,
    } = group;
    Ok(ServedGroup {
        before: taken(locked, alloc),
        turns,
        is_refused,
        rest,
    })
}

/// The next turn makes no checkpoint that is due: that is made once there is room for it, by `made_room`. Under the first profile nothing
/// is done.
pub fn put_off_due<D: Disk, C: Ledger, P: Ledger, S: Ledger>(locked: &mut Locked<D, C, P, S>)
    ensures named { locked.old.live.state.machine.saved.profile ≡ Named → locked.new ≡ locked.old }
    ensures wide { locked.old.live.state.machine.saved.profile ≡ Wide
        → locked.new ≡ record locked.old { live = record locked.old.live { file = put_off locked.old.live.file } } }
{
    locked.live.put_off_due();
}

/// Gives back the room in the file in use, where a checkpoint is due or put off, so that its disk may have room for that. Under the first
/// profile nothing is done.
///
/// It refuses `Broken`: from before, or by a disk fault now. It takes no memory.
pub fn gave_room<D: Disk, C: Ledger, P: Ledger, S: Ledger>(
    locked: &mut Locked<D, C, P, S>,
) -> Result<(), StageError>
    ensures named { locked.old.live.state.machine.saved.profile ≡ Named → (result ≡ Ok tt) × (locked.new ≡ locked.old) }
    ensures same { OnOk result ((locked.new.live ≡ locked.old.live) ⊎ CallsDisksAlone locked.old.live locked.new.live) }
    ensures given { D.honest locked.old.live.a → D.honest locked.old.live.b → locked.old.live.is_broken ≡ false
        → gives_room locked.old.live.state.machine.saved.profile locked.old.live.file locked.old.live.work ≡ true
        → OnOk result (HasNoneBehind D.content locked.old.live locked.new.live) }
    ensures rest { IsRestKept locked.old locked.new }
    ensures refuses { IfErr result (λ e. e ≡ StageError.Broken) }

    // Stopped at any moment, a restart finds the same saved state; from then on, the stage's own.
    ensures any_moment { D.honest locked.old.live.a → D.honest locked.old.live.b → locked.old.live.is_broken ≡ false
        → FindsTheSame D.history locked.old.live locked.new.live }
    ensures kept { FindsItsState D.honest D.history locked.new.live }
    ensures sum { locked.new.live.numbers.event ≡ events_of locked.new.books }
    ensures fault { TellsFaults D.honest D.faults locked.old.live locked.new.live result }
    ensures disks { AreLater D.honest D.history D.faults locked.old.live.a locked.old.live.b locked.new.live.a locked.new.live.b }
{
    if let Profile::Named = locked.live.profile() {
        return Ok(());
    }
    match locked.live.give_room() {
        Ok(()) => Ok(()),
        Err(error) => Err(refusal_of(error)),
    }
}

/// Makes room for the records of what comes next, and says whether there is any, where the stage was told otherwise: that is to be told it
/// then. Where it was told that there is none, it is looked for again only where that is asked for, once in five seconds by its clock. Under
/// the first profile nothing is done.
///
/// It refuses in the order `Broken` (from before), `NumbersSpent` (a checkpoint is due, and the last generation is 2^64 - 1), `Broken` (by a
/// disk fault now). It takes no memory.
pub fn made_room<D: Disk, C: Ledger, P: Ledger, S: Ledger>(
    locked: &mut Locked<D, C, P, S>,
    is_again: bool,
) -> Result<Option<bool>, StageError>
    ensures named { locked.old.live.state.machine.saved.profile ≡ Named → (result ≡ Ok None) × (locked.new ≡ locked.old) }
    ensures told { IfOk result (λ told. TellsRoom D.honest D.content locked.old.live locked.new.live told) }
    ensures looks { OnOk result ((locked.new.live ≡ locked.old.live) ⊎ LooksForRoom locked.old.live locked.new.live) }
    ensures rest { IsRestKept locked.old locked.new }
    ensures refuses { IfErr result (λ e. (e ≡ StageError.Broken) ⊎ (e ≡ StageError.NumbersSpent)) }

    // Stopped at any moment, a restart finds the same saved state; from then on, the stage's own.
    ensures any_moment { D.honest locked.old.live.a → D.honest locked.old.live.b → locked.old.live.is_broken ≡ false
        → FindsTheSame D.history locked.old.live locked.new.live }
    ensures kept { FindsItsState D.honest D.history locked.new.live }
    ensures sum { locked.new.live.numbers.event ≡ events_of locked.new.books }
    // That there is no room is no fault.
    ensures fault { TellsFaults D.honest D.faults locked.old.live locked.new.live result }
    ensures disks { AreLater D.honest D.history D.faults locked.old.live.a locked.old.live.b locked.new.live.a locked.new.live.b }
{
    if let Profile::Named = locked.live.profile() {
        return Ok(None);
    }
    let lacks = locked.live.lacks_room();
    if lacks && is_too_early(locked, is_again) {
        return Ok(None);
    }
    let is_there = match locked.live.make_room() {
        Ok(is_there) => is_there,
        Err(error) => return Err(refusal_of(error)),
    };
    if is_there != lacks {
        return Ok(None);
    }
    Ok(Some(is_there))
}

// Where there is no room, it isn't looked for again yet.
fn is_too_early<D: Disk, C: Ledger, P: Ledger, S: Ledger>(
    locked: &Locked<D, C, P, S>,
    is_again: bool,
) -> bool {
    !is_again || locked.live.clock().uptime % ROOM_EVERY != 0
}

/// Whether an event of a worker waits for the disk: while a checkpoint is due, for which room is made first, and until there is room for its
/// record, and for a group behind it. While what is saved can't change, what a scan found waits, and nothing else. None waits once the
/// workers are to end, or the stage is broken, nor does the event with which a life begins.
#[tactic(auto, using(crate::proofs::RoomLaws::resume_apart))]
pub fn waits_for_room<D: Disk, C: Ledger, P: Ledger, S: Ledger>(
    locked: &Locked<D, C, P, S>,
    event: &Event,
) -> bool
    ensures closed { locked.now.is_closed ≡ true → result ≡ false }
    ensures first { is_resume event.now ≡ true → result ≡ false }
    ensures named { locked.now.live.state.machine.saved.profile ≡ Named → result ≡ false }
    ensures due { WaitsWhereDue event.now result locked.now.live locked.now.is_closed }
    ensures without_record { is_due locked.now.live.file ≡ false → may_record event.now ≡ false → result ≡ false }
    ensures full { is_due locked.now.live.file ≡ false → lacks_room locked.now.live.state.machine ≡ true
        → locked.now.live.is_broken ≡ false → locked.now.is_closed ≡ false → result ≡ is_batch event.now }
    ensures room { D.honest locked.now.live.a → D.honest locked.now.live.b
        → FindsRoomFor D.content event.now result locked.now.live locked.now.is_closed }
    ensures enough { D.honest locked.now.live.a → D.honest locked.now.live.b → is_due locked.now.live.file ≡ false
        → lacks_room locked.now.live.state.machine ≡ false → HasBehind D.content room_enough locked.now.live → result ≡ false }
{
    if locked.is_closed || locked.live.is_broken() || is_resume(event) {
        return false;
    }
    if let Profile::Named = locked.live.profile() {
        return false;
    }
    if locked.live.is_checkpoint_due() {
        return true;
    }
    lacks_room_for(locked, event)
}

// Where no checkpoint is due.
fn lacks_room_for<D: Disk, C: Ledger, P: Ledger, S: Ledger>(
    locked: &Locked<D, C, P, S>,
    event: &Event,
) -> bool
    ensures without_record { may_record event.now ≡ false → result ≡ false }
    ensures full { lacks_room locked.now.live.state.machine ≡ true → result ≡ is_batch event.now }
    ensures room { D.honest locked.now.live.a → D.honest locked.now.live.b
        → FindsRoomFor D.content event.now result locked.now.live locked.now.is_closed }
    ensures enough { D.honest locked.now.live.a → D.honest locked.now.live.b → locked.now.live.is_broken ≡ false
        → lacks_room locked.now.live.state.machine ≡ false → HasBehind D.content room_enough locked.now.live → result ≡ false }
{
    if !may_record(event) {
        return false;
    }
    if locked.live.lacks_room() {
        return is_batch(event);
    }
    !locked.live.has_enough_room()
}

// Whether a life begins with it.
fn is_resume(event: &Event) -> bool
    ensures { result ≡ is_resume event.now }
{
    match event {
        Event::Resume { .. } => true,
        _ => false,
    }
}

// Whether an event of a worker may make a record.
fn may_record(event: &Event) -> bool
    ensures { result ≡ may_record event.now }
{
    match event {
        Event::Ended { .. } | Event::Broken { .. } | Event::Batch { .. } | Event::Keep { .. } =>
            true,
        _ => false,
    }
}

// Whether it is what a scan found.
fn is_batch(event: &Event) -> bool
    ensures { result ≡ is_batch event.now }
{
    match event {
        Event::Batch { .. } => true,
        _ => false,
    }
}

/// Refuses a pass that has seen more events than there were.
pub fn rewound(seen: u64, found: u64) -> Result<(), StageError>
    ensures { MatchResult result (λ _. seen ≤ found) (λ e. (e ≡ StageError.Rewound seen found) × (found < seen)) }
{
    if seen > found {
        return Err(StageError::Rewound { seen, found });
    }
    Ok(())
}

/// All that was left in the outbox, in order, which is empty then.
pub fn taken<D: Disk, C: Ledger, P: Ledger, S: Ledger>(
    locked: &mut Locked<D, C, P, S>,
    alloc: Global,
) -> Outbox
    ensures taken { result ≡ locked.old.outbox }
    ensures after { locked.new ≡ record locked.old { outbox = [] } }
{
    Outbox::new(mem::replace(&mut locked.outbox, Vec::new(alloc)))
}

/// What the output is to do. It refuses `Broken` where a disk failed, and else want of memory alone.
pub fn ordered<D: Disk, C: Ledger, P: Ledger, S: Ledger>(
    locked: &Locked<D, C, P, S>,
    alloc: Global,
) -> Result<Order, LiveError>
    ensures order { IfOk result (λ order. order ≡ play_order locked.now.live.state.machine) }
    ensures refuses { RefusesToTell locked.now.live result }
{
    locked.live.order(alloc)
}

/// What a scan is to read for the job that runs, if one does; where none does, it takes no memory. It refuses `Broken` where a disk failed,
/// and else want of memory alone.
pub fn scan_ordered<D: Disk, C: Ledger, P: Ledger, S: Ledger>(
    locked: &Locked<D, C, P, S>,
    alloc: Global,
) -> Result<Option<ScanOrder>, LiveError>
    ensures order { IfOk result (λ order. order ≡ scan_order locked.now.live.state.machine) }
    ensures refuses { RefusesToTell locked.now.live result }
{
    locked.live.scan_order(alloc)
}

/// The number of the job that runs, if one does. It takes no memory, and refuses `Broken` alone, where a disk failed.
pub fn running_job<D: Disk, C: Ledger, P: Ledger, S: Ledger>(
    locked: &Locked<D, C, P, S>,
) -> Result<Option<u32>, LiveError>
    ensures job { IfOk result (λ job. job ≡ option_map (λ order. order.job) (scan_order locked.now.live.state.machine)) }
    ensures refuses { IsErr result ↔ (locked.now.live.is_broken ≡ true) }
    ensures nothing_else { IfErr result (λ e. e ≡ LiveError.Broken) }
{
    let live = &locked.live;
    if live.is_broken() {
        return Err(LiveError::Broken);
    }
    Ok(live.running_job())
}

/// How many bytes of a picture an answer to a client may have. It takes no memory, and refuses `Broken` alone, where a disk failed.
pub fn chunk_limit<D: Disk, C: Ledger, P: Ledger, S: Ledger>(
    locked: &Locked<D, C, P, S>,
    client: u64,
) -> Result<u32, LiveError>
    ensures limit { IfOk result (λ limit. limit ≡ (view_of locked.now.live.state.views client).limit) }
    ensures refuses { IsErr result ↔ (locked.now.live.is_broken ≡ true) }
    ensures nothing_else { IfErr result (λ e. e ≡ LiveError.Broken) }
{
    let live = &locked.live;
    if live.is_broken() {
        Err(LiveError::Broken)
    } else {
        Ok(live.chunk_limit(client))
    }
}

/// How many of these changes put another row in the place of a song's. It takes no memory.
pub fn count_replaced<D: Disk, C: Ledger, P: Ledger, S: Ledger>(
    locked: &Locked<D, C, P, S>,
    changes: &[RowChange],
) -> usize
    ensures { result ≡ count_replaced locked.now.live.state.machine.saved.songs changes.now }
{
    count_in(locked.live.songs(), changes)
}

/// How many songs there are. It takes no memory.
pub fn count_songs<D: Disk, C: Ledger, P: Ledger, S: Ledger>(locked: &Locked<D, C, P, S>) -> usize
    ensures { result ≡ length locked.now.live.state.machine.saved.songs }
{
    locked.live.songs().len()
}

/// How many songs this job missed, and of how many, where it dropped none because they were too many. It takes no memory.
pub fn withheld<D: Disk, C: Ledger, P: Ledger, S: Ledger>(
    locked: &Locked<D, C, P, S>,
    job: u32,
) -> Option<(usize, usize)>
    ensures { result ≡ missed_by job locked.now.live.state.machine.withheld }
{
    match locked.live.withheld() {
        Some(withheld) if withheld.number == job => Some((withheld.missing, withheld.songs)),
        Some(_) | None => None,
    }
}

/// Tells the workers to end.
pub fn closed<D: Disk, C: Ledger, P: Ledger, S: Ledger>(locked: &mut Locked<D, C, P, S>)
    ensures { locked.new ≡ record locked.old { is_closed = true } }
{
    locked.is_closed = true;
}

/// Ends a stage: its passes come back, and receipts that were given out are compared with it. Either way the stage is handed back.
///
/// It takes no memory. It refuses in the order `ShareMismatch`, `ReceiptMismatch`; receipts are compared where the stage isn't broken.
pub fn settled<D: Disk, C: Ledger, P: Ledger, S: Ledger>(
    locked: Locked<D, C, P, S>,
    passes: Vec<Pass<C, P, S>>,
    receipts: &[Receipt],
) -> Result<Live<D>, (SettleError, Live<D>)>
    ensures shares { OnOk result ((kind : Kind) → AddsUp locked.books passes.items kind) }
    ensures all { OnOk result (shares_in passes.items ≡ locked.live.numbers.event) }
    ensures receipts { OnOk result (AllAgree locked.live receipts.now) }
    ensures reason { IfErr result (λ e. IsReason locked.live locked.books passes.items receipts.now e.0) }
    ensures live { MatchResult result (λ live. live ≡ locked.live) (λ e. e.1 ≡ locked.live) }
{
    let Locked {
        live,
        outbox: _,
        books,
        is_closed: _,
    } = locked;
    let mut returned = ReturnedBooks::new(books);
    returned.take_all(passes);
    if let Some(kind) = returned.first_short() {
        return Err((SettleError::ShareMismatch(kind), live));
    }
    if !live.is_broken() {
        if let Some(event) = first_foreign(&live, receipts) {
            return Err((SettleError::ReceiptMismatch(event), live));
        }
    }
    Ok(live)
}
