// The fields of the player's place, item by item: what stands in front of the ids of the round, and each of them.
ghost use Rattle.std.specs.Prelude.{◌≡◌, []};
ghost use Rattle.std.specs.List.{flat_map};
ghost use Rattle.std.specs.Option.{option_map_or, option_copied};
ghost use Rattle.state_codec.specs.SpellingFields.{u32_bytes};
ghost use Rattle.state_codec.specs.SpellingPlace.{place_head};

use crate::pieces::part::Part;
use crate::writing::{put_place_head, put_u32};
use player_core::Place;
use std::marker::Model;
use std::slice;

/// What stands in front of the ids, if anything does.
#[derive(Drop)]
pub(crate) struct PlaceHeadLeft<'a> {
    place: Option<&'a Place>,
}

impl<'a> Model for PlaceHeadLeft<'a> {
    ghost use Rattle.std.specs.Prelude.{List, ℕ, []};
    ghost use Rattle.std.specs.Option.{option_map_or, option_copied};
    ghost use Rattle.state_codec.specs.SpellingPlace.{place_head};

    ghost Value = { List ℕ };

    ghost view = { λ p. option_map_or place_head (option_copied p.place) [] };
}

impl<'a> PlaceHeadLeft<'a> {
    pub(crate) fn new(place: Option<&'a Place>) -> Self
        ensures { result ≡ option_map_or place_head (option_copied place.entry) [] }
    {
        PlaceHeadLeft { place }
    }
}

impl<'a> Part for PlaceHeadLeft<'a> {
    ghost left = { λ bytes. bytes };

    fn put_next(&mut self, out: &mut Vec<u8>) -> bool {
        match self.place {
            Some(place) => {
                let before = out.len();
                let _played = place.played();
                put_place_head(out, place);
                self.place = None;
                before < out.len()
            }
            None => false,
        }
    }
}

/// The ids of a round.
#[derive(Drop)]
pub(crate) struct RoundLeft<'a> {
    ids: slice::Iter<'a, u32>,
}

impl<'a> Model for RoundLeft<'a> {
    ghost use Rattle.std.specs.Prelude.{List, ℕ};
    ghost use Rattle.std.specs.List.{flat_map};
    ghost use Rattle.std.specs.Slice.Iter.{iter_rest};
    ghost use Rattle.state_codec.specs.SpellingFields.{u32_bytes};

    ghost Value = { List ℕ };

    ghost view = { λ r. flat_map u32_bytes (iter_rest r.ids) };
}

impl<'a> RoundLeft<'a> {
    pub(crate) fn new(place: Option<&'a Place>) -> Self
        ensures { result ≡ option_map_or (λ place. flat_map u32_bytes place.played) (option_copied place.entry) [] }
    {
        match place {
            Some(place) => RoundLeft {
                ids: place.played().iter(),
            },
            None => RoundLeft { ids: [].iter() },
        }
    }
}

impl<'a> Part for RoundLeft<'a> {
    ghost left = { λ bytes. bytes };

    fn put_next(&mut self, out: &mut Vec<u8>) -> bool {
        match self.ids.next() {
            Some(id) => {
                put_u32(out, *id);
                true
            }
            None => false,
        }
    }
}
