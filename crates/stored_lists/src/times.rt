// When stored playlists were last changed. There is room for all times that there may be, so that no change of them takes memory but that
// for a name.
ghost use Rattle.std.specs.Prelude.{◌≡◌, [], nat_lt, length, IfOk};
ghost use Rattle.std.specs.Str.{bytes_eq};
ghost use Rattle.stored_lists.specs.Limits.{MAX_LISTS};
ghost use Rattle.stored_lists.specs.Times.{are_timed, has_time, renamed_time, time_of, timed, timed_one, with_last_time, with_time, without_time};
ghost use Rattle.stored_lists.specs.Times.{AreTimes};

use crate::limits::MAX_LISTS;
use crate::name::ListName;
use std::alloc::{AllocError, Global};
use std::marker::Model;

/// When a playlist was last changed: seconds since the beginning of 1970, or 0 where no clock has told them yet.
#[derive(Debug, Drop)]
pub struct ListTime {
    pub name: ListName,
    pub seconds: u64,
}

/// The times of playlists, by their last change: at most 1,024.
#[derive(Debug, Drop)]
pub struct ListTimes {
    times: Vec<ListTime>,
}

impl Model for ListTimes {
    ghost use Rattle.std.specs.Prelude.{◌≤◌, vec_capacity};
    ghost use Rattle.stored_lists.specs.Times.{AreTimes, Times};

    ghost Value = { Times };

    ghost view = { λ t. t.times.items };

    ghost invariant = { λ t. AreTimes t.times.items × (1024 ≤ vec_capacity t.times) };
}

impl ListTime {
    fn is_of(&self, name: &str) -> bool
        ensures { result ≡ bytes_eq self.now.name name.now }
    {
        self.name.as_str() == name
    }

    // A change that no clock has timed was made at this time.
    fn tell(&mut self, seconds: u64)
        ensures { self.new ≡ timed_one seconds self.old }
    {
        if self.seconds == 0 {
            self.seconds = seconds;
        }
    }
}

impl ListTimes {
    /// No time yet. It takes all the memory that they may need, but for the names.
    pub fn new(alloc: Global) -> Result<ListTimes, AllocError>
        ensures { IfOk result (λ times. times ≡ []) }
    {
        Ok(ListTimes {
            times: Vec::with_capacity(alloc, MAX_LISTS)?,
        })
    }

    /// The times, by their playlists' last change.
    pub fn as_slice(&self) -> &[ListTime]
        ensures times { result.now ≡ self.now }
        ensures within { AreTimes self.now }
    {
        self.times.as_slice()
    }

    /// A time comes behind the others; `false` where there are as many as there may be.
    pub fn add_last(&mut self, time: ListTime) -> bool
        ensures told { result ≡ nat_lt (length self.old) MAX_LISTS }
        ensures times { self.new ≡ with_last_time time self.old }
    {
        if self.times.len() < MAX_LISTS {
            self.times.push_reserved(time);
            return true;
        }
        false
    }

    /// A playlist was changed: its name goes to the end, with these seconds.
    pub fn put(&mut self, name: ListName, seconds: u64)
        ensures { self.new ≡ with_time name seconds self.old }
    {
        self.forget(name.as_str());
        let _ = self.add_last(ListTime { name, seconds });
    }

    /// A playlist is gone, and its time with it.
    pub fn forget(&mut self, name: &str)
        ensures { self.new ≡ without_time name.now self.old }
    {
        self.times.retain(|time| !time.is_of(name));
    }

    /// A playlist goes on under another name, and keeps its time; one whose last change isn't known goes on so.
    pub fn rename(&mut self, from: &str, to: ListName)
        ensures { self.new ≡ renamed_time from.now to self.old }
    {
        if !self.has(from) {
            self.forget(to.as_str());
            return;
        }
        let seconds = self.seconds_of(from);
        self.forget(from);
        self.put(to, seconds);
    }

    // Whether a playlist's last change is among them.
    fn has(&self, name: &str) -> bool
        ensures { result ≡ has_time name.now self.now }
    {
        self.times.iter().any(|time| time.is_of(name))
    }

    /// A clock tells the time of what was changed and isn't timed yet.
    pub fn tell(&mut self, seconds: u64)
        ensures { self.new ≡ timed seconds self.old }
    {
        for at in 0..self.times.len() {
            self.times[at].tell(seconds);
        }
    }

    /// When a playlist was last changed; 0 where that isn't known. It looks at the names up to this one.
    pub fn seconds_of(&self, name: &str) -> u64
        ensures { result ≡ time_of name.now self.now }
    {
        for time in self.times.as_slice() {
            if time.is_of(name) {
                return time.seconds;
            }
        }
        0
    }

    /// Whether a clock has told the time of each.
    pub fn are_timed(&self) -> bool
        ensures { result ≡ are_timed self.now }
    {
        self.times.iter().all(|time| time.seconds != 0)
    }

    /// The same times once more, in memory of their own.
    pub fn try_clone(&self, alloc: Global) -> Result<ListTimes, AllocError>
        ensures { IfOk result (λ times. times ≡ self.now) }
    {
        let mut copy = ListTimes::new(alloc)?;
        for time in self.times.as_slice() {
            let name = time.name.try_clone(alloc)?;
            let seconds = time.seconds;
            let _ = copy.add_last(ListTime { name, seconds });
        }
        Ok(copy)
    }
}
