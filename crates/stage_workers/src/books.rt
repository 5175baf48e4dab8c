// The three books of a stage.
ghost use Rattle.std.specs.Prelude.{◌≡◌, ◌+◌, ◌-◌, ◌<◌, ◌^◌, ◌↔◌, None, IfSome};
ghost use Rattle.stage_workers.specs.PassState.{new_pass};
ghost use Rattle.stage_workers.specs.Books.{left_of, events_of, counted, with_pass, empty_books};

use crate::Kind;
use crate::account::Account;
use crate::pass::{Holding, Pass};
use std::marker::Model;
use std::sync::ledger::{Blank, Ledger};

/// The blanks of a stage's three books, of 65,537 parts each: one for each pass, and one that stays with the book.
#[derive(Drop)]
pub struct Blanks {
    pub clients: Blank,
    pub player: Blank,
    pub scan: Blank,
}

// How many events there were of each kind.
#[derive(Drop)]
pub(crate) struct Books<C: Ledger, P: Ledger, S: Ledger> {
    pub(crate) clients: Account<C>,
    pub(crate) player: Account<P>,
    pub(crate) scan: Account<S>,
}

impl<C: Ledger, P: Ledger, S: Ledger> Model for Books<C, P, S> {
    ghost use Rattle.stage_workers.specs.PassState.{BooksState};

    ghost Value = { BooksState };

    ghost view = { λ b. record { clients = b.clients; player = b.player; scan = b.scan } };
}

impl<C: Ledger, P: Ledger, S: Ledger> Books<C, P, S> {
    pub fn open(blanks: Blanks) -> Self
        requires clients { (blanks.clients.name ≡ C.name) × (blanks.clients.parts ≡ C.parts) × (blanks.clients.parts ≡ 65537) }
        requires player { (blanks.player.name ≡ P.name) × (blanks.player.parts ≡ P.parts) × (blanks.player.parts ≡ 65537) }
        requires scan { (blanks.scan.name ≡ S.name) × (blanks.scan.parts ≡ S.parts) × (blanks.scan.parts ≡ 65537) }
        ensures { result ≡ empty_books }
    {
        let Blanks {
            clients,
            player,
            scan,
        } = blanks;
        Books {
            clients: Account::open(clients),
            player: Account::open(player),
            scan: Account::open(scan),
        }
    }

    // A pass of this kind, or none where all are given out.
    pub fn pass(&mut self, kind: Kind) -> Option<Pass<C, P, S>>
        ensures some { IfSome result (λ p. (p ≡ new_pass kind) × (with_pass kind self.new ≡ self.old)) }
        ensures none { (result ≡ None) ↔ (left_of kind self.old ≡ 0) }
        ensures stays { result ≡ None → self.new ≡ self.old }
    {
        let holding = match kind {
            Kind::Clients => Holding::Clients(self.clients.split()?),
            Kind::Player => Holding::Player(self.player.split()?),
            Kind::Scan => Holding::Scan(self.scan.split()?),
        };
        Some(Pass::new(holding))
    }

    // One event more, which the pass has made.
    pub fn count(&mut self, pass: &mut Pass<C, P, S>, event: u64)
        requires { events_of self.old < 2 ^ 64 - 1 }
        ensures counted { self.new ≡ counted pass.old.kind self.old }
        ensures pass { pass.new ≡ record { kind = pass.old.kind; seen = event; share = pass.old.share + 1 } }
    {
        match &mut pass.holding {
            Holding::Clients(share) => self.clients.add(share),
            Holding::Player(share) => self.player.add(share),
            Holding::Scan(share) => self.scan.add(share),
        }
        pass.seen = event;
        pass.events += 1;
    }
}
