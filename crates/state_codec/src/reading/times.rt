// The reading of the times of the playlists' last change, and of all fields behind the parts of a snapshot.
ghost use Rattle.std.specs.Prelude.{◌≡◌, ◌≤◌, []};
ghost use Rattle.std.specs.Int.{is_in_range};
ghost use Rattle.stored_lists.specs.Limits.{MAX_LISTS};
ghost use Rattle.stored_lists.specs.Name.{is_good_name};
ghost use Rattle.state_codec.specs.Fields.{such, text_at};
ghost use Rattle.state_codec.specs.Given.{Gives};
ghost use Rattle.state_codec.specs.Items.{items_at};
ghost use Rattle.state_codec.specs.Longest.{longest_times};
ghost use Rattle.state_codec.specs.ReadingPlace.{measured};
ghost use Rattle.state_codec.specs.ReadingTimes.{fields_at, is_time_kind, time_at, times_at, times_field_at};

use crate::fields::{ReadError, Reader};
use player_core::Place;
use profile::Profile;
use std::alloc::Global;
use stored_lists::{ListName, ListTime, ListTimes, MAX_LISTS};

/// How many bytes the value of field 1 has at most.
const LONGEST_TIMES: u32 = 272_388;

/// Whether this is the number of the op that tells a time, which the wide profile alone has.
pub(crate) fn is_time_kind(profile: Profile, kind: u8) -> bool
    ensures { result ≡ is_time_kind profile kind }
{
    match profile {
        Profile::Named => false,
        Profile::Wide => kind == 21,
    }
}

impl Reader<'_> {
    #[tactic(auto, unfolding(crate::specs::Fields::such))]
    fn time_name(&mut self, alloc: Global) -> Result<ListName, ReadError>
        ensures { Gives result self.new.rest.now (such is_good_name text_at self.old.rest.now) }
    {
        let fault = self.fault();
        let name = self.text()?;
        match ListName::read(alloc, name)? {
            Some(name) => Ok(name),
            None => Err(fault),
        }
    }

    #[tactic(auto, unfolding(crate::specs::ReadingTimes::time_at))]
    fn list_time(&mut self, alloc: Global) -> Result<ListTime, ReadError>
        ensures { Gives result self.new.rest.now (time_at self.old.rest.now) }
    {
        let name = self.time_name(alloc)?;
        let seconds = self.u64()?;
        Ok(ListTime { name, seconds })
    }

    // So many times.
    fn list_times(&mut self, alloc: Global, count: u32) -> Result<ListTimes, ReadError>
        requires { count ≤ MAX_LISTS }
        ensures { Gives result self.new.rest.now (items_at (λ known. time_at) count [] self.old.rest.now) }
    {
        let mut times = ListTimes::new(alloc)?;
        for _i in 0..count {
            let time = self.list_time(alloc)?;
            let _ = times.add_last(time);
        }
        Ok(times)
    }

    #[tactic(auto, unfolding(crate::specs::Items::counted_at))]
    fn counted_times(&mut self, alloc: Global) -> Result<ListTimes, ReadError>
        ensures { Gives result self.new.rest.now (times_at self.old.rest.now) }
    {
        let count = self.u32_within(1, MAX_LISTS as u32)?;
        self.list_times(alloc, count)
    }

    // The value of field 1 behind its number.
    #[tactic(auto, unfolding(crate::specs::ReadingPlace::measured))]
    fn times_value(&mut self, alloc: Global) -> Result<ListTimes, ReadError>
        ensures { Gives result self.new.rest.now (measured (is_in_range 4 longest_times) (λ len. times_at) self.old.rest.now) }
    {
        let fault = self.fault();
        let len = self.u32_within(4, LONGEST_TIMES)?;
        let before = self.rest.len();
        let times = self.counted_times(alloc)?;
        if before != len as usize + self.rest.len() {
            return Err(fault);
        }
        Ok(times)
    }

    // Field 1, if it comes next, and how many fields are then left.
    #[tactic(auto, unfolding(crate::specs::ReadingPlace::field_at))]
    fn times_field(&mut self, alloc: Global, left: u8) -> Result<(ListTimes, u8), ReadError>
        ensures { Gives result self.new.rest.now (times_field_at left self.old.rest.now) }
    {
        if !self.takes_number(1, left) {
            return Ok((ListTimes::new(alloc)?, left));
        }
        let times = self.times_value(alloc)?;
        Ok((times, left - 1))
    }

    /// The fields behind the parts.
    #[tactic(auto, unfolding(crate::specs::ReadingTimes::fields_at))]
    pub(crate) fn fields(&mut self, alloc: Global) -> Result<(ListTimes, Place), ReadError>
        ensures { Gives result self.new.rest.now (fields_at self.old.rest.now) }
    {
        let count = self.byte()?;
        let (times, left) = self.times_field(alloc, count)?;
        let (spot, left) = self.spot_field(left)?;
        let (played, left) = self.round_field(alloc, left)?;
        if left != 0 {
            return Err(self.fault());
        }
        Ok((times, Place::at(spot.0, spot.1.0, spot.1.1, played)))
    }
}
