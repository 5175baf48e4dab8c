// The loop, in the thread that began the daemon.
ghost use Rattle.std.specs.Prelude.{◌≡◌, [], IfOk};
ghost use Rattle.std.specs.List.{AllByRecursion};
ghost use Rattle.mio_clients.specs.Events.{asked_in};
ghost use Rattle.mio_clients.specs.Parts.{looks_in, IsServedAll, IsWithin};
ghost use Rattle.mpd_server.specs.Turns.{turn_bound};

use crate::jobs::Jobs;
use crate::room_lines::RoomLines;
use disk_model::Disk;
use live_stage::Receipt;
use log::{Log, info, warn};
use mio_clients::{Clients, Listener, Part, Ready, Stream, TURN_LOOKS};
use profile::Profile;
use stage_workers::{Pass, SharedStage, StageError};
use std::alloc::Global;
use std::sync::Wait;
use std::sync::ledger::Ledger;

/// What the turns of a loop came to so far.
#[derive(Clone, Copy, Debug)]
pub(crate) struct Turns {
    /// The receipt that was given out last, if one was.
    pub(crate) receipt: Option<Receipt>,
    /// The daemon ends: a client asked for that, or an event was refused by anything but want of memory or a disk fault.
    pub(crate) is_ended: bool,
    // A disk has failed.
    is_faulted: bool,
}

impl Turns {
    pub(crate) fn none() -> Turns {
        Turns {
            receipt: None,
            is_ended: false,
            is_faulted: false,
        }
    }

    // Whether no further turn is made.
    fn is_over(&self) -> bool {
        self.is_ended || self.is_faulted
    }

    // Looks at what one turn of the loop answered.
    fn take<D, R: Log>(&mut self, rt: &R, parts: &[Part<D>]) {
        for part in parts {
            match part {
                Part::Served(served) => {
                    self.receipt = Some(served.turn.receipt());
                    self.look_for_end(rt, served.turn.ended());
                }
                Part::Collected(_) => {}
                Part::Refused(error) => self.refused(rt, *error),
            }
        }
    }

    // A client's kill that was kept is told, as the end has no other reason in the log.
    fn look_for_end<R: Log>(&mut self, rt: &R, ends: bool) {
        if ends {
            info!(rt; "ended by a client's kill");
            self.is_ended = true;
        }
    }

    // An event was refused: for want of memory it is served by a later turn, else the loop ends. A disk fault is told later.
    fn refused<R: Log>(&mut self, rt: &R, error: StageError) {
        match error {
            StageError::NoMemory => {}
            StageError::Broken => self.is_faulted = true,
            StageError::Rewound { .. } | StageError::NumbersSpent => {
                warn!(rt; "event refused: {}", error.number());
                self.is_ended = true;
            }
        }
    }
}

// How much a turn looks at before it ends: under the first profile it serves all that was gathered.
fn turn_bound(profile: Profile) -> Option<u64>
    ensures { result ≡ turn_bound profile }
{
    match profile {
        Profile::Named => None,
        Profile::Wide => Some(TURN_LOOKS),
    }
}

// The parts of a turn and the pass, or why nothing was done.
type Turned<D, C, P, S> = Result<(Vec<Part<D>>, Pass<C, P, S>), (StageError, Pass<C, P, S>)>;

// One turn, by the bound of a profile.
fn turn_under<
    D: Disk,
    C: Ledger,
    P: Ledger,
    S: Ledger,
    T: Stream,
    L: Listener<T>,
    Y: Ready<T>,
    R: Wait,
>(
    rt: &R,
    alloc: Global,
    profile: Profile,
    stage: &SharedStage<D, C, P, S>,
    pass: Pass<C, P, S>,
    clients: &mut Clients<T, L, Y>,
) -> Turned<D, C, P, S>
    ensures all { IfOk result (λ r. IsWithin (turn_bound profile) (looks_in r.0.items) →
        IsServedAll (turn_bound profile) r.0.items clients.new.events) }
    // Under the wide profile no request stays of those that were let go of.
    ensures closed { IfOk result (λ r. profile ≡ Profile.Wide →
        AllByRecursion (λ last. asked_in last.id clients.new.events ≡ []) clients.new.gone) }
{
    clients.turn_within(rt, alloc, stage, pass, turn_bound(profile))
}

/// Serves clients until one of them ends the daemon, or an event is refused by anything but want of memory. It hands the pass back.
pub(crate) fn run_loop<
    D: Disk,
    C: Ledger,
    P: Ledger,
    S: Ledger,
    T: Stream,
    L: Listener<T>,
    Y: Ready<T>,
    R: Wait + Log,
>(
    rt: &R,
    alloc: Global,
    profile: Profile,
    stage: &SharedStage<D, C, P, S>,
    pass: Pass<C, P, S>,
    clients: &mut Clients<T, L, Y>,
    mut jobs: Jobs,
) -> (Turns, Pass<C, P, S>) {
    let mut pass = pass;
    let mut turns = Turns::none();
    let mut room = RoomLines::new();
    for _ in rt.forever() {
        match turn_under(rt, alloc, profile, stage, pass, clients) {
            Ok((parts, back)) => {
                pass = back;
                turns.take(rt, &parts);
            }
            // There was no memory for its answer, so that nothing was done.
            Err((_, back)) => pass = back,
        }
        room.look(rt, profile, stage);
        if turns.is_over() || jobs.send_new(rt, alloc, stage).is_err() {
            break;
        }
    }
    (turns, pass)
}
