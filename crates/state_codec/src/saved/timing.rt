// The times of the playlists' last change.
ghost use Rattle.std.specs.Prelude.{◌≡◌, ◌<◌, ◌^◌, not, option_map, IfOk, IsOkUnless, IsTrue};
ghost use Rattle.std.specs.Option.{option_copied};
ghost use Rattle.stored_lists.specs.Name.{is_good_name};
ghost use Rattle.stored_lists.specs.Times.{Times, timed, with_time};
ghost use Rattle.state_codec.specs.Applied.{after, changes_nothing};
ghost use Rattle.state_codec.specs.OpsTimes.{leaves_times, named_by, times_after, untimed};
ghost use Rattle.state_codec.specs.declared.op.Op.TheVariants.{Timed};

use super::Saved;
use crate::op::{ListOp, Text};
use crate::refusal::ApplyError;
use no_memory::NoMemory;
use std::alloc::Global;
use stored_lists::{ListName, ListTimes};

impl Saved {
    /// Whether a playlist was changed that isn't timed yet, and this is a time. It looks at each time once.
    pub fn would_time(&self, seconds: u64) -> bool
        ensures { result ≡ not (changes_nothing (Timed seconds) self.now) }
    {
        !leaves_times(seconds, self.parts.changed.as_ref())
    }

    /// Tells when the playlists were changed that aren't timed yet, as the op does. It takes no memory.
    pub fn time_lists(&mut self, seconds: u64)
        ensures { self.new ≡ after (Timed seconds) self.old }
    {
        tell_times(&mut self.parts.changed, seconds);
    }

    /// A playlist's name in memory of its own, where the times of playlists are kept.
    pub fn timed_name(&self, alloc: Global, name: &Text) -> Result<Option<ListName>, NoMemory>
        requires { IsTrue (is_good_name name.now) }
        ensures { IfOk result (λ made. made ≡ option_map (λ (times : Times). name.now) self.now.changed) }
    {
        timed_name(alloc, self.parts.changed.as_ref(), name.as_str()).map_err(|_| NoMemory)
    }

    /// A playlist was changed, and no clock has told when yet. It takes no memory but its name.
    pub fn put_untimed(&mut self, of: &Text, name: Option<ListName>)
        requires good { IsTrue (is_good_name of.now) }
        requires name { name ≡ option_map (λ (times : Times). of.now) self.old.changed }
        ensures { self.new ≡ untimed of.now self.old }
    {
        put_untimed(&mut self.parts.changed, name, of.as_str());
    }
}

// What a clock that tells the time does to the times, if they are kept.
pub(super) fn tell_times(times: &mut Option<ListTimes>, seconds: u64)
    ensures times { times.new ≡ option_map (timed seconds) times.old }
    ensures form { seconds < 2 ^ 64 }
{
    if let Some(times) = times {
        times.tell(seconds);
    }
}

// Whether that changes nothing.
pub(super) fn leaves_times(seconds: u64, times: Option<&ListTimes>) -> bool
    ensures { result ≡ leaves_times seconds (option_copied times.entry) }
{
    match times {
        Some(times) => seconds == 0 || times.are_timed(),
        None => true,
    }
}

// The playlist that an op leaves changed, or takes out.
pub(super) fn named_by(op: &ListOp) -> &str
    ensures { result.now ≡ named_by op.now }
{
    match op {
        ListOp::Save { name } => name.as_str(),
        ListOp::Add { name, .. } => name.as_str(),
        ListOp::Remove { name, .. } => name.as_str(),
        ListOp::Move { name, .. } => name.as_str(),
        ListOp::Clear { name } => name.as_str(),
        ListOp::Rename { to, .. } => to.as_str(),
        ListOp::Drop { name } => name.as_str(),
    }
}

// A playlist's name in memory of its own, where times are kept.
pub(super) fn timed_name(
    alloc: Global,
    times: Option<&ListTimes>,
    name: &str,
) -> Result<Option<ListName>, ApplyError>
    requires { IsTrue (is_good_name name.now) }
    ensures name { IfOk result (λ made. made ≡ option_map (λ (times : Times). name.now) (option_copied times.entry)) }
    ensures only { IsOkUnless result ApplyError.NoMemory }
{
    match times {
        Some(_) => Ok(ListName::read(alloc, name).map_err(|_| ApplyError::NoMemory)?),
        None => Ok(None),
    }
}

// What an op that changes something does to the times, if they are kept: with its playlist's name in memory of its own.
pub(super) fn change_times(times: &mut Option<ListTimes>, op: &ListOp, name: Option<ListName>)
    requires { name ≡ option_map (λ (times : Times). named_by op.now) times.old }
    ensures { times.new ≡ option_map (times_after op.now) times.old }
{
    if let Some(times) = times {
        if let Some(name) = name {
            change(times, op, name);
        }
    }
}

fn change(times: &mut ListTimes, op: &ListOp, name: ListName)
    requires { name ≡ named_by op.now }
    ensures { times.new ≡ times_after op.now times.old }
{
    match op {
        ListOp::Save { .. } => times.put(name, 0),
        ListOp::Add { .. } => times.put(name, 0),
        ListOp::Remove { .. } => times.put(name, 0),
        ListOp::Move { .. } => times.put(name, 0),
        ListOp::Clear { .. } => times.put(name, 0),
        ListOp::Rename { from, .. } => times.rename(from.as_str(), name),
        ListOp::Drop { .. } => times.forget(name.as_str()),
    }
}

// A playlist has other songs, if times are kept.
pub(super) fn put_untimed(times: &mut Option<ListTimes>, name: Option<ListName>, of: &str)
    requires { name ≡ option_map (λ (times : Times). of.now) times.old }
    ensures { times.new ≡ option_map (with_time of.now 0) times.old }
{
    if let Some(times) = times {
        if let Some(name) = name {
            times.put(name, 0);
        }
    }
}
