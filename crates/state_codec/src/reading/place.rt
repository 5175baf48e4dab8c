// The reading of the player's place, in ops and in the fields behind the parts of a snapshot.
ghost use Rattle.std.specs.Prelude.{◌≡◌, ◌≤◌, ◌*◌, ◌/◌, [], drop, IsTrue, if◌then◌else◌};
ghost use Rattle.std.specs.Int.{is_in_range};
ghost use Rattle.player_core.specs.Place.{longest_round};
ghost use Rattle.state_codec.specs.Fields.{such, u32_at};
ghost use Rattle.state_codec.specs.Given.{Gives};
ghost use Rattle.state_codec.specs.Items.{items_at};
ghost use Rattle.state_codec.specs.ReadingPlace.{is_next, is_place_kind, is_spot, measured, place_op_at, round_field_at};
ghost use Rattle.state_codec.specs.ReadingPlace.{spot_at, spot_field_at, state_at};

use crate::fields::{ReadError, Reader};
use crate::op::PlaceOp;
use crate::saved::is_start;
use player_core::{KeptRound, LONGEST_ROUND, PlayState};
use profile::Profile;
use std::alloc::Global;

// Where the player was: state, the id of the song and the frame position.
pub(super) type Spot = (PlayState, (u32, u64));

/// Whether this is the number of an op on the place, which the wide profile alone has.
pub(crate) fn is_place_kind(profile: Profile, kind: u8) -> bool
    ensures { result ≡ is_place_kind profile kind }
{
    match profile {
        Profile::Named => false,
        Profile::Wide => 22 <= kind && kind <= 25,
    }
}

// Whether it says anything.
fn is_spot(spot: Spot) -> bool
    ensures { result ≡ is_spot spot }
{
    !is_start(spot.0, spot.1.0, spot.1.1)
}

impl Reader<'_> {
    #[tactic(auto, unfolding(crate::specs::ReadingPlace::state_at))]
    fn play_state(&mut self) -> Result<PlayState, ReadError>
        ensures { Gives result self.new.rest.now (state_at self.old.rest.now) }
    {
        let (state, rest) = match self.rest {
            [0, rest @ ..] => (PlayState::Stop, rest),
            [1, rest @ ..] => (PlayState::Pause, rest),
            [2, rest @ ..] => (PlayState::Play, rest),
            _ => return Err(self.fault()),
        };
        self.rest = rest;
        Ok(state)
    }

    #[tactic(auto, unfolding(crate::specs::Fields::both))]
    fn spot(&mut self) -> Result<Spot, ReadError>
        ensures { Gives result self.new.rest.now (spot_at self.old.rest.now) }
    {
        let state = self.play_state()?;
        let song = self.u32()?;
        let frame = self.u64()?;
        Ok((state, (song, frame)))
    }

    #[tactic(auto, unfolding(crate::specs::ReadingPlace::place_op_at))]
    pub(crate) fn place_op(&mut self, kind: u8) -> Result<PlaceOp, ReadError>
        ensures { Gives result self.new.rest.now (place_op_at kind self.old.rest.now) }
    {
        match kind {
            22 => {
                let (state, (song, frame)) = self.spot()?;
                Ok(PlaceOp::Put { state, song, frame })
            }
            23 => Ok(PlaceOp::Played(self.u32()?)),
            24 => Ok(PlaceOp::Begins),
            _ => Ok(PlaceOp::Leaves(self.u32()?)),
        }
    }

    // Takes the number of the next field, of so many that are left, if it is this one.
    pub(super) fn takes_number(&mut self, number: u8, left: u8) -> bool
        ensures told { result ≡ is_next number left self.old.rest.now }
        ensures rest { self.new.rest.now ≡ if result then drop 1 self.old.rest.now else self.old.rest.now }
        ensures some { IsTrue result → 1 ≤ left }
    {
        if left == 0 {
            return false;
        }
        match self.rest {
            [] => false,
            [byte, rest @ ..] => {
                if *byte != number {
                    return false;
                }
                self.rest = rest;
                true
            }
        }
    }

    // A spot that says something.
    #[tactic(auto, unfolding(crate::specs::Fields::such))]
    fn told_spot(&mut self) -> Result<Spot, ReadError>
        ensures { Gives result self.new.rest.now (such is_spot spot_at self.old.rest.now) }
    {
        let fault = self.fault();
        let spot = self.spot()?;
        if !is_spot(spot) {
            return Err(fault);
        }
        Ok(spot)
    }

    // The value of field 2 behind its number.
    #[tactic(auto, unfolding(crate::specs::ReadingPlace::measured))]
    fn spot_value(&mut self) -> Result<Spot, ReadError>
        ensures { Gives result self.new.rest.now (measured (is_in_range 13 13) (λ len. such is_spot spot_at) self.old.rest.now) }
    {
        let fault = self.fault();
        let len = self.u32_within(13, 13)?;
        let before = self.rest.len();
        let spot = self.told_spot()?;
        if before != len as usize + self.rest.len() {
            return Err(fault);
        }
        Ok(spot)
    }

    // So many ids.
    fn ids(&mut self, alloc: Global, count: u32) -> Result<KeptRound, ReadError>
        requires { count ≤ longest_round }
        ensures { Gives result self.new.rest.now (items_at (λ known. u32_at) count [] self.old.rest.now) }
    {
        let mut ids = KeptRound::new(alloc)?;
        for _i in 0..count {
            let id = self.u32()?;
            let _ = ids.add_last(id);
        }
        Ok(ids)
    }

    // The value of field 3 behind its number.
    #[tactic(auto, unfolding(crate::specs::ReadingPlace::measured))]
    fn round_value(&mut self, alloc: Global) -> Result<KeptRound, ReadError>
        ensures { Gives result self.new.rest.now (measured (is_in_range 4 (4 * longest_round))
            (λ len. items_at (λ known. u32_at) (len / 4) [])
            self.old.rest.now) }
    {
        let fault = self.fault();
        let len = self.u32_within(4, 4 * LONGEST_ROUND as u32)?;
        let before = self.rest.len();
        let ids = self.ids(alloc, len / 4)?;
        if before != len as usize + self.rest.len() {
            return Err(fault);
        }
        Ok(ids)
    }

    // Field 2, if it comes next, and how many fields are then left.
    #[tactic(auto, unfolding(crate::specs::ReadingPlace::field_at))]
    pub(super) fn spot_field(&mut self, left: u8) -> Result<(Spot, u8), ReadError>
        ensures { Gives result self.new.rest.now (spot_field_at left self.old.rest.now) }
    {
        if !self.takes_number(2, left) {
            return Ok(((PlayState::Stop, (0, 0)), left));
        }
        let spot = self.spot_value()?;
        Ok((spot, left - 1))
    }

    // Field 3, if it comes next, and how many fields are then left.
    #[tactic(auto, unfolding(crate::specs::ReadingPlace::field_at))]
    pub(super) fn round_field(
        &mut self,
        alloc: Global,
        left: u8,
    ) -> Result<(KeptRound, u8), ReadError>
        ensures { Gives result self.new.rest.now (round_field_at left self.old.rest.now) }
    {
        if !self.takes_number(3, left) {
            return Ok((KeptRound::new(alloc)?, left));
        }
        let ids = self.round_value(alloc)?;
        Ok((ids, left - 1))
    }
}
