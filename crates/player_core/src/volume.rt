// The volume of the output.
ghost use Rattle.std.specs.Prelude.{◌≡◌, ℕ, ◌≤◌, ◌↔◌, IsSome, IfSome};

use std::marker::Model;

/// How loud the output plays, from 0 to 100, as `setvol` of the MPD protocol reference 0.23 ("Playback
/// options") sets it.
#[derive(Clone, Copy, Debug, PartialEq, Eq)]
pub struct Volume {
    percent: u8,
}

impl Model for Volume {
    ghost Value = { ℕ };

    ghost view = { λ v. v.percent };

    ghost invariant = { λ v. v.percent ≤ 100 };

    ghost inverse = { λ n. record { percent = n } };
}

impl Volume {
    /// The volume of so many percent; none above 100.
    pub fn new(percent: u8) -> Option<Self>
        ensures valid { IsSome result ↔ (percent ≤ 100) }
        ensures value { IfSome result (λ volume. volume ≡ percent) }
    {
        if percent <= 100 {
            Some(Volume { percent })
        } else {
            None
        }
    }

    pub fn percent(self) -> u8
        ensures value { result ≡ self }
        ensures within { result ≤ 100 }
    {
        self.percent
    }
}

/// A player that was never told otherwise plays at full volume.
impl Default for Volume {
    ghost is_default = { λ v. v ≡ 100 };

    fn default() -> Self {
        Volume { percent: 100 }
    }
}
