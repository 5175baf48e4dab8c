// A group of events, which are counted when all are answered.
ghost use Rattle.std.specs.Prelude.{◌≡◌, ◌+◌, ◌<◌, ◌^◌, List, length, drop, IfOk, IfErr, MatchResult};
ghost use Rattle.disk_model.specs.Later.{AreLater};
ghost use Rattle.daemon_core.specs.Replay.{Entry};
ghost use Rattle.live_stage.specs.Group.{EndsThere, IsOfFront, history_in};
ghost use Rattle.stage_workers.specs.Books.{counted_by, events_of};
ghost use Rattle.stage_workers.specs.LockState.{FindsItsState};
ghost use Rattle.stage_workers.specs.Entry.{IsTurnRefused, TakesEvent, TellsFaults};
ghost use Rattle.stage_workers.specs.Group.{FindsNoneOrAll, IsGroupCounted, IsOneGroup, RefusesFront, as_an_event, passed_by};

use crate::books::Books;
use crate::refusal::refusal_of;
use crate::{Pass, StageError};
use daemon_core::Event;
use disk_model::Disk;
use live_stage::{Live, Turn, Turns};
use std::alloc::Global;
use std::sync::ledger::Ledger;

// Makes the turns of a group, and counts them for the pass and in its book.
pub(crate) fn counted_group<D: Disk, C: Ledger, P: Ledger, S: Ledger>(
    live: &mut Live<D>,
    books: &mut Books<C, P, S>,
    alloc: Global,
    pass: &mut Pass<C, P, S>,
    events: Vec<Event>,
) -> Result<Turns<D>, (StageError, Vec<Event>)>
    requires takes { TakesEvent live.old }
    requires counted { live.old.numbers.event ≡ events_of books.old }
    ensures events { MatchResult result (λ g. EndsThere live.old events.items g.turns.items g.is_refused g.rest.items)
        (λ e. RefusesFront events.items e.0 e.1.items) }
    ensures group { IfOk result (λ g. IsOneGroup D.honest D.history live.old live.new g.turns.items) }
    ensures passed { IfOk result (λ g. IsGroupCounted live.new books.old books.new pass.old pass.new g.turns.items) }
    ensures counted { live.new.numbers.event ≡ events_of books.new }
    ensures any_moment { D.honest live.old.a → D.honest live.old.b → (whole : List Entry)
        × MatchResult result (λ g. whole ≡ history_in g.turns.items) (λ e. IsOfFront whole events.items e.1.items)
        × FindsNoneOrAll D.history live.old live.new whole }
    ensures kept { FindsItsState D.honest D.history live.new }
    ensures refuses { IfErr result (λ e. IsTurnRefused e.0 live.old live.new books.old books.new pass.old pass.new) }
    ensures fault { TellsFaults D.honest D.faults live.old live.new (as_an_event result) }
    ensures disks { AreLater D.honest D.history D.faults live.old.a live.old.b live.new.a live.new.b }
{
    let group = match live.turn_group(alloc, events) {
        Ok(group) => group,
        Err(refused) => return Err((refusal_of(refused.error), refused.rest)),
    };
    // Events are counted up to the greatest number.
    let _last = live.last_event();
    count_each(books, pass, group.turns.as_slice());
    Ok(group)
}

// Counts the events of these answers, which the pass has made.
fn count_each<D: Disk, C: Ledger, P: Ledger, S: Ledger>(
    books: &mut Books<C, P, S>,
    pass: &mut Pass<C, P, S>,
    turns: &[Turn<D>],
)
    requires fits { events_of books.old + length turns.now < 2 ^ 64 }
    ensures book { books.new ≡ counted_by (length turns.now) pass.old.kind books.old }
    ensures pass { pass.new ≡ passed_by pass.old turns.now }
{
    let mut rest = turns;
    while let Some((turn, after)) = rest.split_first() {
        books.count(pass, turn.event());
        rest = after;
    }
}

// The events behind the first one.
pub(crate) fn behind_first(events: Vec<Event>) -> Vec<Event>
    ensures { result.items ≡ drop 1 events.items }
{
    let mut rest = events;
    if !rest.is_empty() {
        let _first = rest.remove(0);
    }
    rest
}
