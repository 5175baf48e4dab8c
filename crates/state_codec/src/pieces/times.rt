// The times of the playlists' last change, item by item: the number of fields with what stands in front of the times, and each of them.
ghost use Rattle.std.specs.Prelude.{◌≡◌, []};
ghost use Rattle.std.specs.List.{flat_map};
ghost use Rattle.std.specs.Option.{option_map_or, option_copied};
ghost use Rattle.state_codec.specs.Pieces.{front_of_fields};
ghost use Rattle.state_codec.specs.SpellingTimes.{time_bytes};

use crate::pieces::part::Part;
use crate::writing::{put_time, put_times_head};
use player_core::Place;
use std::marker::Model;
use std::slice;
use stored_lists::{ListTime, ListTimes};

/// The number of fields, and what stands in front of the times.
#[derive(Drop)]
pub(crate) struct TimesHeadLeft<'a> {
    times: Option<&'a ListTimes>,
    place: Option<&'a Place>,
}

impl<'a> Model for TimesHeadLeft<'a> {
    ghost use Rattle.std.specs.Prelude.{List, ℕ};
    ghost use Rattle.std.specs.Option.{option_copied};
    ghost use Rattle.state_codec.specs.Pieces.{front_of_fields};

    ghost Value = { List ℕ };

    ghost view = { λ p. front_of_fields (option_copied p.times) (option_copied p.place) };
}

impl<'a> TimesHeadLeft<'a> {
    pub(crate) fn new(times: Option<&'a ListTimes>, place: Option<&'a Place>) -> Self
        ensures { result ≡ front_of_fields (option_copied times.entry) (option_copied place.entry) }
    {
        TimesHeadLeft { times, place }
    }
}

impl<'a> Part for TimesHeadLeft<'a> {
    ghost left = { λ bytes. bytes };

    fn put_next(&mut self, out: &mut Vec<u8>) -> bool {
        let Some(times) = self.times else {
            return false;
        };
        let Some(place) = self.place else {
            return false;
        };
        put_times_head(out, times, place);
        self.times = None;
        true
    }
}

/// The times.
#[derive(Drop)]
pub(crate) struct TimesLeft<'a> {
    times: slice::Iter<'a, ListTime>,
}

impl<'a> Model for TimesLeft<'a> {
    ghost use Rattle.std.specs.Prelude.{List, ℕ};
    ghost use Rattle.std.specs.List.{flat_map};
    ghost use Rattle.std.specs.Slice.Iter.{iter_rest};
    ghost use Rattle.state_codec.specs.SpellingTimes.{time_bytes};

    ghost Value = { List ℕ };

    ghost view = { λ t. flat_map time_bytes (iter_rest t.times) };
}

impl<'a> TimesLeft<'a> {
    pub(crate) fn new(times: Option<&'a ListTimes>) -> Self
        ensures { result ≡ option_map_or (flat_map time_bytes) (option_copied times.entry) [] }
    {
        match times {
            Some(times) => TimesLeft {
                times: times.as_slice().iter(),
            },
            None => TimesLeft { times: [].iter() },
        }
    }
}

impl<'a> Part for TimesLeft<'a> {
    ghost left = { λ bytes. bytes };

    fn put_next(&mut self, out: &mut Vec<u8>) -> bool {
        match self.times.next() {
            Some(time) => {
                let _name = time.name.as_str();
                put_time(out, time);
                true
            }
            None => false,
        }
    }
}
