// The book of the events of one kind, and the parts of its ledger that no pass has yet.
ghost use Rattle.std.specs.Prelude.{◌≡◌, ◌+◌, ◌<◌, ◌≤◌, ◌-◌, ◌^◌, ◌↔◌, true, None, IfSome, IsSome};
ghost use Rattle.stage_workers.specs.Books.{empty_account, one_pass_more, one_more};

use std::marker::Model;
use std::sync::ledger::{Blank, Book, Ledger, Share};

pub(crate) const MOST_PASSES: u64 = 65_536;

// The book of one kind's events, how many these are, and the parts that no pass has yet: one for each, and one that stays.
#[derive(Drop)]
pub(crate) struct Account<L: Ledger> {
    events: u64,
    left: u64,
    book: Book<L>,
    rest: Share<L>,
}

impl<L: Ledger> Model for Account<L> {
    ghost use Rattle.std.specs.Prelude.{◌≡◌, ◌+◌, ◌≤◌};
    ghost use Rattle.stage_workers.specs.PassState.{AccountState};

    ghost Value = { AccountState };

    ghost view = { λ a. record { total = a.book.total; passes_left = a.left } };

    ghost invariant = { λ a. (a.book.total ≡ a.events) × (a.rest.parts ≡ a.left + 1) × (a.rest.amount ≡ 0) };
}

impl<L: Ledger> Account<L> {
    // An empty book, and all passes left.
    pub fn open(blank: Blank) -> Account<L>
        requires { (blank.name ≡ L.name) × (blank.parts ≡ L.parts) × (blank.parts ≡ 65537) }
        ensures { result ≡ empty_account }
    {
        let (book, rest) = blank.open::<L>();
        Account {
            events: 0,
            left: MOST_PASSES,
            book,
            rest,
        }
    }

    // A share without an event, or none where all are given out.
    pub fn split(&mut self) -> Option<Share<L>>
        ensures some { IfSome result (λ s. (s.parts ≡ 1) × (s.amount ≡ 0)) }
        ensures left { IsSome result → one_pass_more self.new ≡ self.old }
        ensures none { (result ≡ None) ↔ (self.old.passes_left ≡ 0) }
        ensures stays { result ≡ None → self.new ≡ self.old }
    {
        if self.left == 0 {
            return None;
        }
        self.left -= 1;
        Some(self.rest.split_off(1, 0))
    }

    // One event more.
    pub fn add(&mut self, share: &mut Share<L>)
        requires part { share.old.parts ≡ 1 }
        requires fits { self.old.total < 2 ^ 64 - 1 }
        ensures counted { self.new ≡ one_more self.old }
        ensures bound { share.old.amount ≤ self.old.total }
        ensures share { (share.new.amount ≡ share.old.amount + 1) × (share.new.parts ≡ 1) }
    {
        self.book.audit(share);
        self.book.add(share, 1);
        self.events += 1;
    }

    // The book, to which shares come back.
    pub fn closing(self) -> Closing<L>
        ensures { result ≡ record { total = self.total; back = 0 } }
    {
        let Account {
            events,
            left: _,
            book,
            rest,
        } = self;
        Closing {
            events,
            back: 0,
            book,
            rest,
        }
    }
}

// The book of one kind's events, and the shares of those passes that came back.
#[derive(Drop)]
pub(crate) struct Closing<L: Ledger> {
    events: u64,
    back: u64,
    book: Book<L>,
    rest: Share<L>,
}

impl<L: Ledger> Model for Closing<L> {
    ghost use Rattle.std.specs.Prelude.{◌≡◌};
    ghost use Rattle.stage_workers.specs.PassState.{ClosingState};

    ghost Value = { ClosingState };

    ghost view = { λ a. record { total = a.book.total; back = a.rest.amount } };

    ghost invariant = { λ a. (a.book.total ≡ a.events) × (a.rest.amount ≡ a.back) };
}

impl<L: Ledger> Closing<L> {
    // A share comes back, with this many events.
    pub fn take_back(&mut self, share: Share<L>, events: u64)
        requires { share.amount ≡ events }
        ensures { self.new ≡ record { total = self.old.total; back = self.old.back + events } }
    {
        self.rest.merge(share);
        self.book.audit(&mut self.rest);
        self.back += events;
    }

    // Whether the shares that came back made all events.
    pub fn is_whole(&self) -> bool
        ensures { (result ≡ true) ↔ (self.now.back ≡ self.now.total) }
    {
        self.back == self.events
    }
}
