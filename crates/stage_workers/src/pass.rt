// The right to make events of one kind, with the count of those that it made.
ghost use Rattle.std.specs.Prelude.{◌≡◌};

use crate::Kind;
use std::marker::Model;
use std::sync::ledger::{Ledger, Share};

// The share, in the book of its kind.
#[derive(Drop)]
pub(crate) enum Holding<C: Ledger, P: Ledger, S: Ledger> {
    Clients(Share<C>),
    Player(Share<P>),
    Scan(Share<S>),
}

/// The right to make events of one kind on one stage. It knows the number of the last event that it saw, and how many it made.
///
/// It is of the stage whose ledgers it has, and goes into its calls and comes back from them, by a refusal too. A pass that is let go takes
/// its events along: the stage is then not settled, if it made any.
#[derive(Drop)]
pub struct Pass<C: Ledger, P: Ledger, S: Ledger> {
    pub(crate) seen: u64,
    pub(crate) events: u64,
    pub(crate) holding: Holding<C, P, S>,
}

impl<C: Ledger, P: Ledger, S: Ledger> Model for Pass<C, P, S> {
    ghost use Rattle.std.specs.Prelude.{◌≡◌};
    ghost use Rattle.stage_workers.specs.PassState.{PassState};

    ghost Value = { PassState };

    ghost use Rattle.stage_workers.specs.Holding.{kind_of, amount_of, parts_of};

    ghost view = { λ p. record { kind = kind_of p.holding; seen = p.seen; share = amount_of p.holding } };

    ghost invariant = { λ p. (amount_of p.holding ≡ p.events) × (parts_of p.holding ≡ 1) };
}

impl<C: Ledger, P: Ledger, S: Ledger> Pass<C, P, S> {
    ghost use Rattle.std.specs.Prelude.{◌≡◌};
    ghost use Rattle.stage_workers.specs.Holding.{kind_of, amount_of, parts_of};
    ghost use Rattle.stage_workers.specs.PassState.{new_pass};

    pub(crate) fn new(holding: Holding<C, P, S>) -> Self
        requires { (amount_of holding ≡ 0) × (parts_of holding ≡ 1) }
        ensures { result ≡ new_pass (kind_of holding) }
    {
        Pass {
            seen: 0,
            events: 0,
            holding,
        }
    }

    /// Whose events it makes.
    pub fn kind(&self) -> Kind
        ensures { result ≡ self.now.kind }
    {
        match &self.holding {
            Holding::Clients(_) => Kind::Clients,
            Holding::Player(_) => Kind::Player,
            Holding::Scan(_) => Kind::Scan,
        }
    }

    /// The number of the last event that it saw, 0 where it saw none.
    pub fn seen(&self) -> u64
        ensures { result ≡ self.now.seen }
    {
        self.seen
    }

    /// How many events it made.
    pub fn share(&self) -> u64
        ensures { result ≡ self.now.share }
    {
        self.events
    }
}
