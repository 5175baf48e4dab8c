// What the changes of a batch did, each at its turn.
ghost use Rattle.std.specs.Prelude.{◌≡◌, ◌+◌, ◌<◌, ◌≤◌, ◌^◌};
ghost use Rattle.std.specs.List.{list_any};
ghost use Rattle.song_db.specs.Effect.{is_left_out, loss_of, total_after};
ghost use Rattle.song_db.specs.Refusal.{refusal_of};

use crate::refusal::SongDbError;
use crate::row::SongRow;
use std::marker::Model;

/// What a change of a batch did at its turn.
#[derive(Debug, Drop)]
pub enum Effect {
    /// The very row stood there already, or there was none to go.
    Nothing,
    /// A row came under a URI that had none.
    Came,
    /// A row took the place of this one, which had its URI.
    Replaced(SongRow),
    /// This row went.
    Went(SongRow),
    /// This row was new and the database full: it was left out.
    LeftOut(SongRow),
}

impl Effect {
    fn is_left_out(&self) -> bool
        ensures { result ≡ is_left_out self.now }
    {
        match self {
            Effect::LeftOut(_) => true,
            _ => false,
        }
    }
}

// The milliseconds of all songs after a change that brings so many.
pub(crate) fn total_after(total: u128, gain: u128, effect: &Effect) -> u128
    requires lost { loss_of effect.now ≤ total }
    requires fits { total + gain < 2 ^ 128 }
    ensures { result ≡ total_after total gain effect.now }
{
    match effect {
        Effect::Nothing => total,
        Effect::Came => total + gain,
        Effect::Replaced(old) => total - old.milliseconds() + gain,
        Effect::Went(old) => total - old.milliseconds(),
        Effect::LeftOut(_) => total,
    }
}

/// What the changes of a batch did, in their order.
#[derive(Debug, Drop)]
pub struct Effects {
    pub(crate) effects: Vec<Effect>,
}

impl Model for Effects {
    ghost use Rattle.std.specs.Prelude.{List};
    ghost use Rattle.song_db.specs.declared.effect.Effect.{Effect};

    ghost Value = { List Effect };

    ghost view = { λ e. e.effects.items };
}

impl Effects {
    /// One for each change.
    pub fn as_slice(&self) -> &[Effect]
        ensures { result.now ≡ self.now }
    {
        self.effects.as_slice()
    }

    /// Why changes were left out, if any were: `DbFull`.
    pub fn refusal(&self) -> Option<SongDbError>
        ensures { result ≡ refusal_of self.now }
    {
        if self.leave_out() {
            return Some(SongDbError::DbFull);
        }
        None
    }

    fn leave_out(&self) -> bool
        ensures { result ≡ list_any is_left_out self.now }
    {
        self.effects.iter().any(|effect| effect.is_left_out())
    }
}
