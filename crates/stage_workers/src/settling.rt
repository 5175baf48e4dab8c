// The end of a stage: the passes come back, and receipts are compared.
ghost use Rattle.std.specs.Prelude.{◌≡◌, ◌+◌, MatchOption};
ghost use Rattle.stage_workers.specs.declared.kind.Kind.{Kind};
ghost use Rattle.stage_workers.specs.Books.{total_of};
ghost use Rattle.stage_workers.specs.Settling.{back_of, full_of, share_in, shares_of, agrees, first_foreign};
ghost use Rattle.stage_workers.specs.Settling.{IsFirstShort, AreWhole};

use crate::Kind;
use crate::account::Closing;
use crate::books::Books;
use crate::pass::{Holding, Pass};
use disk_model::Disk;
use live_stage::{Live, Receipt};
use std::marker::Model;
use std::sync::ledger::Ledger;

// The three books, and the shares that came back.
#[derive(Drop)]
pub(crate) struct ReturnedBooks<C: Ledger, P: Ledger, S: Ledger> {
    clients: Closing<C>,
    player: Closing<P>,
    scan: Closing<S>,
}

impl<C: Ledger, P: Ledger, S: Ledger> Model for ReturnedBooks<C, P, S> {
    ghost use Rattle.stage_workers.specs.Settling.{ClosingBooks};

    ghost Value = { ClosingBooks };

    ghost view = { λ b. record { clients = b.clients; player = b.player; scan = b.scan } };
}

impl<C: Ledger, P: Ledger, S: Ledger> ReturnedBooks<C, P, S> {
    // No pass has come back yet.
    pub fn new(books: Books<C, P, S>) -> Self
        ensures back { (kind : Kind) → back_of kind result ≡ 0 }
        ensures full { (kind : Kind) → full_of kind result ≡ total_of kind books }
    {
        let Books {
            clients,
            player,
            scan,
        } = books;
        ReturnedBooks {
            clients: clients.closing(),
            player: player.closing(),
            scan: scan.closing(),
        }
    }

    // A pass comes back.
    pub fn take_back(&mut self, pass: Pass<C, P, S>)
        ensures back { (kind : Kind) → back_of kind self.new ≡ back_of kind self.old + share_in kind pass }
        ensures full { (kind : Kind) → full_of kind self.new ≡ full_of kind self.old }
    {
        let Pass {
            seen: _,
            events,
            holding,
        } = pass;
        match holding {
            Holding::Clients(share) => self.clients.take_back(share, events),
            Holding::Player(share) => self.player.take_back(share, events),
            Holding::Scan(share) => self.scan.take_back(share, events),
        }
    }

    // These passes come back.
    pub fn take_all(&mut self, passes: Vec<Pass<C, P, S>>)
        ensures back { (kind : Kind) → back_of kind self.new ≡ back_of kind self.old + shares_of kind passes.items }
        ensures full { (kind : Kind) → full_of kind self.new ≡ full_of kind self.old }
    {
        for pass in passes {
            self.take_back(pass);
        }
    }

    // The first kind whose shares do not make its book.
    pub fn first_short(&self) -> Option<Kind>
        ensures { MatchOption result (AreWhole self.now) (λ kind. IsFirstShort self.now kind) }
    {
        if !self.clients.is_whole() {
            Some(Kind::Clients)
        } else if !self.player.is_whole() {
            Some(Kind::Player)
        } else if !self.scan.is_whole() {
            Some(Kind::Scan)
        } else {
            None
        }
    }
}

// Whether a receipt is of an event and of a record that the stage has.
fn agrees<D: Disk>(live: &Live<D>, receipt: Receipt) -> bool
    ensures { result ≡ agrees live.now receipt }
{
    match receipt.number {
        Some(number) => receipt.event <= live.last_event() && number <= live.last_record(),
        None => receipt.event <= live.last_event(),
    }
}

// The event of the first receipt that is of no event or record of the stage.
pub(crate) fn first_foreign<D: Disk>(live: &Live<D>, receipts: &[Receipt]) -> Option<u64>
    ensures { result ≡ first_foreign live.now receipts.now }
{
    for receipt in receipts {
        if !agrees(live, *receipt) {
            return Some(receipt.event);
        }
    }
    None
}
