// What lies under the lock.
ghost use Rattle.std.specs.Prelude.{◌≡◌, IfOk, IfErr, OnOk};
ghost use Rattle.disk_model.specs.Later.{AreLater};
ghost use Rattle.stage_workers.specs.Books.{events_of};
ghost use Rattle.stage_workers.specs.LockState.{FindsItsState};
ghost use Rattle.stage_workers.specs.Entry.{TakesEvent, IsOneTurn, IsTurnCounted, AnyMoment, IsTurnRefused, TellsFaults};

use crate::books::Books;
use crate::refusal::refusal_of;
use crate::{Outputs, Pass, StageError};
use daemon_core::Event;
use disk_model::Disk;
use live_stage::{Live, Turn};
use std::alloc::Global;
use std::marker::Model;
use std::sync::ledger::Ledger;

/// What lies under the lock of a shared stage: the stage, what was not handed over yet, a book of the events of each kind, and whether
/// the workers are to end.
///
/// It keeps two facts: the stage has had as many events as the books count, and whatever a crash leaves of its files gives its saved
/// state, or it is broken.
#[derive(Drop)]
pub struct Locked<D: Disk, C: Ledger, P: Ledger, S: Ledger> {
    pub(crate) live: Live<D>,
    pub(crate) outbox: Vec<Outputs>,
    pub(crate) books: Books<C, P, S>,
    pub(crate) is_closed: bool,
}

impl<D: Disk, C: Ledger, P: Ledger, S: Ledger> Model for Locked<D, C, P, S> {
    ghost use Rattle.std.specs.Prelude.{◌≡◌};
    ghost use Rattle.stage_workers.specs.LockState.{LockState};

    ghost Value = { LockState D };

    ghost use Rattle.stage_workers.specs.Books.{events_of};
    ghost use Rattle.stage_workers.specs.LockState.{FindsItsState};

    ghost view = { λ l. record { live = l.live; outbox = l.outbox.items; books = l.books; is_closed = l.is_closed } };

    ghost invariant = { λ l. (l.live.numbers.event ≡ events_of l.books) × FindsItsState D.honest D.history l.live };
}

// Makes one turn, and counts it for the pass and in its book.
#[tactic(auto, using(crate::proofs::EntryLaws::turn_counts, crate::proofs::EntryLaws::turn_is_last, crate::proofs::EntryLaws::one_counted))]
pub(crate) fn counted_turn<D: Disk, C: Ledger, P: Ledger, S: Ledger>(
    live: &mut Live<D>,
    books: &mut Books<C, P, S>,
    alloc: Global,
    pass: &mut Pass<C, P, S>,
    event: Event,
) -> Result<Turn<D>, StageError>
    requires takes { TakesEvent live.old }
    requires counted { live.old.numbers.event ≡ events_of books.old }
    ensures turn { IfOk result (λ t. IsOneTurn D.honest D.history live.old live.new event t) }
    ensures passed { OnOk result (IsTurnCounted live.new books.old books.new pass.old pass.new) }
    ensures counted { live.new.numbers.event ≡ events_of books.new }
    ensures any_moment { AnyMoment D.honest D.history live.old live.new event }
    ensures kept { FindsItsState D.honest D.history live.new }
    ensures refuses { IfErr result (λ e. IsTurnRefused e live.old live.new books.old books.new pass.old pass.new) }
    ensures fault { TellsFaults D.honest D.faults live.old live.new result }
    ensures disks { AreLater D.honest D.history D.faults live.old.a live.old.b live.new.a live.new.b }
{
    let turn = match live.turn(alloc, event) {
        Ok(turn) => turn,
        Err(error) => return Err(refusal_of(error)),
    };
    books.count(pass, turn.event());
    Ok(turn)
}
