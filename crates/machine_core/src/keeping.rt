// What is kept of the player: behind each change of what plays, and as a song plays on; and how a life goes on from it. And when playlists
// were changed, behind a command that changes them.
ghost use Rattle.std.specs.Prelude.{◌≡◌, ◌+◌, ◌≤◌, ◌++◌, ◌∷◌, ◌==◌, [], drop, length, vec_len, vec_capacity, IfOk, OnErr, not};
ghost use Rattle.std.specs.List.{list_any};
ghost use Rattle.std.specs.Option.{option_to_list};
ghost use Rattle.profile.specs.declared.profile.Profile.{Profile as AProfile};
ghost use Rattle.state_codec.specs.OpsPlace.{stands_in};
ghost use Rattle.state_codec.specs.Spelling.{ops_bytes};
ghost use Rattle.machine_core.specs.Happening.{HasHappened};
ghost use Rattle.machine_core.specs.Keeping.{goes_on_since, if_kept, keep_ops_since, leave_ops, place_ops, put_op, round_ops, telling_ops};
ghost use Rattle.machine_core.specs.Keeping.{telling_time, time_ops, when_kept, when_resumed, with_ops};
ghost use Rattle.machine_core.specs.Size.{longest_place};
ghost use Rattle.machine_core.specs.Work.{keep_count};

use crate::changed::{Before, have_list_op};
use crate::happened::Happened;
use crate::machine::Machine;
use crate::scanning::nothing;
use crate::work::{KEEP_COUNT, Work};
use idle_masks::Subsystems;
use no_memory::NoMemory;
use player_core::{Player, Selector};
use profile::Profile;
use state_codec::{Op, PlaceOp};
use std::alloc::Global;

fn stands_in(id: u32, ids: &[u32]) -> bool
    ensures { result ≡ stands_in id ids.now }
{
    ids.iter().any(|other| id == *other)
}

// Whether the ids have another one than this.
fn has_another(id: u32, ids: &[u32]) -> bool
    ensures { result ≡ list_any (λ other. not (id == other)) ids.now }
{
    ids.iter().any(|other| id != *other)
}

// The song that was current leaves the round, where the player's has it no more.
fn leave_op(before: Option<u32>, played: &[u32]) -> Option<PlaceOp>
    ensures { option_to_list result ≡ leave_ops before played.now }
{
    let id = before?;
    if stands_in(id, played) {
        return None;
    }
    Some(PlaceOp::Leaves(id))
}

// The step of the round from the kept one to the player's: what comes first, if anything does, and what comes last.
fn round_step(before: Option<u32>, kept: &[u32], played: &[u32]) -> (Option<PlaceOp>, PlaceOp)
    ensures { option_to_list result.0 ++ result.1 ∷ [] ≡ round_ops before kept.now played.now }
{
    match played {
        [] => (None, PlaceOp::Begins),
        [id] => {
            let first = if has_another(*id, kept) {
                Some(PlaceOp::Begins)
            } else {
                None
            };
            (first, PlaceOp::Played(*id))
        }
        [.., last] => (leave_op(before, played), PlaceOp::Played(*last)),
    }
}

impl Machine {
    // Makes an op of the place, where it changes something. It answers how many bytes it takes.
    fn make_place(&mut self, op: PlaceOp, ops: &mut Vec<Op>) -> usize
        requires { vec_len ops.old + 1 ≤ vec_capacity ops.old }
        ensures ops { ops.new.items ≡ ops.old.items ++ telling_ops (op ∷ []) self.old.saved }
        ensures room { vec_capacity ops.new ≡ vec_capacity ops.old }
        ensures more { vec_len ops.new ≤ vec_len ops.old + 1 }
        ensures machine { self.new ≡ with_ops (telling_ops (op ∷ []) self.old.saved) self.old }
        ensures bytes { (profile : AProfile) → result ≡ length (ops_bytes profile (telling_ops (op ∷ []) self.old.saved)) }
        ensures within { result ≤ 14 }
    {
        if !self.saved.would_keep(op) {
            return 0;
        }
        let made = Op::Place(op);
        let bytes = made.spelled_len(self.saved.profile());
        self.saved.keep(op);
        ops.push_reserved(made);
        bytes
    }

    // Makes an op of the place, if there is one, where it changes something. It answers how many bytes that takes.
    fn make_if_any(&mut self, op: Option<PlaceOp>, ops: &mut Vec<Op>) -> usize
        requires { vec_len ops.old + 1 ≤ vec_capacity ops.old }
        ensures ops { ops.new.items ≡ ops.old.items ++ telling_ops (option_to_list op) self.old.saved }
        ensures room { vec_capacity ops.new ≡ vec_capacity ops.old }
        ensures more { vec_len ops.new ≤ vec_len ops.old + 1 }
        ensures machine { self.new ≡ with_ops (telling_ops (option_to_list op) self.old.saved) self.old }
        ensures bytes { (profile : AProfile) → result ≡ length (ops_bytes profile (telling_ops (option_to_list op) self.old.saved)) }
        ensures within { result ≤ 14 }
    {
        match op {
            Some(op) => self.make_place(op, ops),
            None => 0,
        }
    }

    // Makes the ops that bring the kept place to where the player is, with this song current before. It answers how many bytes they take.
    pub(crate) fn put_place(&mut self, before: Option<u32>, ops: &mut Vec<Op>) -> usize
        requires { vec_len ops.old + keep_count ≤ vec_capacity ops.old }
        ensures ops { ops.new.items ≡ ops.old.items ++ place_ops before self.old.player self.old.saved self.old.saved.place }
        ensures machine { self.new ≡ with_ops (place_ops before self.old.player self.old.saved self.old.saved.place) self.old }
        ensures bytes { (profile : AProfile) → result
            ≡ length (ops_bytes profile (place_ops before self.old.player self.old.saved self.old.saved.place)) }
        ensures room { vec_capacity ops.new ≡ vec_capacity ops.old }
        ensures more { vec_len ops.new ≤ vec_len ops.old + 3 }
        ensures within { result ≤ longest_place }
    {
        let Some(place) = self.saved.place() else {
            return 0;
        };
        let (first, last) = round_step(before, place.played(), self.player.played());
        let put = self.put_op();
        let one = self.make_if_any(first, ops);
        let two = self.make_place(last, ops);
        let three = self.make_place(put, ops);
        one + two + three
    }

    // Where the player is.
    fn put_op(&self) -> PlaceOp
        ensures { result ≡ put_op self.now.player }
    {
        PlaceOp::Put {
            state: self.player.state(),
            song: self.player.current().unwrap_or(0),
            frame: self.player.frame(),
        }
    }

    // Whether what plays, and whether at random, is as before.
    fn goes_on_since(&self, before: &Before) -> bool
        ensures { result ≡ goes_on_since before.now self.now }
    {
        self.plays_on(before) && before.random() == self.saved.options().random
    }

    // The same where the profile keeps a place.
    fn put_by(&mut self, profile: Profile, before: Option<u32>, ops: &mut Vec<Op>) -> usize
        requires { profile ≡ Profile.Wide → vec_len ops.old + keep_count ≤ vec_capacity ops.old }
        ensures ops { ops.new.items ≡ ops.old.items
            ++ if_kept profile (place_ops before self.old.player self.old.saved self.old.saved.place) }
        ensures machine { self.new ≡ with_ops (if_kept profile
            (place_ops before self.old.player self.old.saved self.old.saved.place)) self.old }
        ensures bytes { (any : AProfile) → result
            ≡ length (ops_bytes any (if_kept profile (place_ops before self.old.player self.old.saved self.old.saved.place))) }
        ensures room { vec_capacity ops.new ≡ vec_capacity ops.old }
        ensures more { vec_len ops.new ≤ vec_len ops.old + 3 }
        ensures within { result ≤ longest_place }
    {
        match profile {
            Profile::Named => 0,
            Profile::Wide => self.put_place(before, ops),
        }
    }

    // Keeps where the player is, where the profile keeps a place and what plays has changed. It answers how many bytes that takes.
    pub(crate) fn keep_since(
        &mut self,
        profile: Profile,
        before: &Before,
        ops: &mut Vec<Op>,
    ) -> usize
        requires { profile ≡ Profile.Wide → vec_len ops.old + keep_count ≤ vec_capacity ops.old }
        ensures ops { ops.new.items ≡ ops.old.items ++ if_kept profile (keep_ops_since before.now self.old) }
        ensures machine { self.new ≡ with_ops (if_kept profile (keep_ops_since before.now self.old)) self.old }
        ensures bytes { (any : AProfile) → result ≡ length (ops_bytes any (if_kept profile (keep_ops_since before.now self.old))) }
        ensures room { vec_capacity ops.new ≡ vec_capacity ops.old }
        ensures more { vec_len ops.new ≤ vec_len ops.old + 3 }
        ensures within { result ≤ longest_place }
    {
        if self.goes_on_since(before) {
            return 0;
        }
        self.put_by(profile, before.current(), ops)
    }

    // Tells the time of the playlists that were changed and aren't timed yet. It answers how many bytes that takes.
    fn tell_time(&mut self, ops: &mut Vec<Op>) -> usize
        requires { vec_len ops.old + 1 ≤ vec_capacity ops.old }
        ensures ops { ops.new.items ≡ ops.old.items ++ telling_time self.old }
        ensures machine { self.new ≡ with_ops (telling_time self.old) self.old }
        ensures bytes { (any : AProfile) → result ≡ length (ops_bytes any (telling_time self.old)) }
        ensures within { result ≤ 9 }
    {
        let now = self.clock.now;
        if !self.saved.would_time(now) {
            return 0;
        }
        self.saved.time_lists(now);
        ops.push_reserved(Op::Timed(now));
        9
    }

    // The same behind ops of which one changed a playlist, where the profile keeps times; the ops of the command begin at this one.
    pub(crate) fn time_since(&mut self, profile: Profile, made: usize, ops: &mut Vec<Op>) -> usize
        requires in_range { made ≤ vec_len ops.old }
        requires room { profile ≡ Profile.Wide → vec_len ops.old + 1 ≤ vec_capacity ops.old }
        ensures ops { ops.new.items ≡ ops.old.items ++ if_kept profile (time_ops (drop made ops.old.items) self.old) }
        ensures machine { self.new ≡ with_ops (if_kept profile (time_ops (drop made ops.old.items) self.old)) self.old }
        ensures bytes { (any : AProfile) → result
            ≡ length (ops_bytes any (if_kept profile (time_ops (drop made ops.old.items) self.old))) }
        ensures within { result ≤ 9 }
    {
        match profile {
            Profile::Named => 0,
            Profile::Wide => {
                if !have_list_op(&ops[made..]) {
                    return 0;
                }
                self.tell_time(ops)
            }
        }
    }

    // Keeps where the player is, where this ticket counts.
    fn keep_here(&mut self, ticket: u64, ops: &mut Vec<Op>)
        requires { vec_len ops.old + keep_count ≤ vec_capacity ops.old }
        ensures ops { ops.new.items ≡ ops.old.items ++ (when_kept ticket self.old).ops }
        ensures machine { self.new ≡ (when_kept ticket self.old).after }
    {
        if !self.player.counts(ticket) {
            return;
        }
        let profile = self.keeping();
        let current = self.player.current();
        let _ = self.put_by(profile, current, ops);
    }

    /// The output has played the song that was started under this ticket for a while: where it is now is kept. Without memory the machine
    /// stays as it was.
    pub fn keep(&mut self, alloc: Global, ticket: u64) -> Result<Happened, NoMemory>
        ensures ok { IfOk result (HasHappened (when_kept ticket self.old) self.old self.new) }
        ensures err { OnErr result (self.new ≡ self.old) }
    {
        let mut ops = Vec::with_capacity(alloc, KEEP_COUNT)?;
        self.keep_here(ticket, &mut ops);
        Ok(Happened {
            ops,
            changed: Subsystems::none(),
        })
    }

    /// The player goes on from where it was kept, a song that played also playing if it is to; where something was started in this life, or
    /// nothing is kept, nothing happens. Without memory the machine stays as it was.
    pub fn resume(&mut self, alloc: Global, plays: bool) -> Result<Happened, NoMemory>
        ensures ok { IfOk result (HasHappened (when_resumed plays self.old) self.old self.new) }
        ensures err { OnErr result (self.new ≡ self.old) }
    {
        if self.player.ticket() != 0 {
            return Ok(nothing(alloc));
        }
        let Some(place) = self.saved.place() else {
            return Ok(nothing(alloc));
        };
        let before = self.before();
        let frames = self.named_length(Selector::Id(place.song())).frames;
        let entries = self.saved.queue().entries();
        let random = self.saved.options().random;
        self.player = Player::resumed(alloc, place, entries, plays, random, frames)?;
        self.kept.forget();
        let changed = self.changed_since(&before, &[]);
        Ok(Happened {
            ops: Vec::new(alloc),
            changed,
        })
    }
}

impl Work {
    ghost use Rattle.std.specs.Prelude.{◌≡◌, ◌+◌, ◌≤◌, ◌++◌, drop, length, vec_len};
    ghost use Rattle.state_codec.specs.Spelling.{ops_bytes};
    ghost use Rattle.machine_core.specs.Keeping.{if_kept, keep_ops_since, time_ops, with_ops};
    ghost use Rattle.machine_core.specs.Size.{longest_keep, max_request_bytes};
    ghost use Rattle.machine_core.specs.Work.{AddsOps, CanKeepBy, CanTime};

    // Adds what is kept of the player behind a command, which has left the room for it: under the named profile nothing is.
    pub(crate) fn keep_place(&mut self, machine: &mut Machine, profile: Profile, before: &Before)
        requires keeps { CanKeepBy profile self.old }
        requires room { profile ≡ Profile.Wide → self.old.size + longest_keep ≤ max_request_bytes }
        ensures ops { let ops = if_kept profile (keep_ops_since before.now machine.old) in
            AddsOps ops (length (ops_bytes profile ops)) self.old self.new }
        ensures machine { machine.new ≡ with_ops (if_kept profile (keep_ops_since before.now machine.old)) machine.old }
        ensures text { self.new.text ≡ self.old.text }
        ensures leaves { profile ≡ Profile.Wide → CanTime self.new }
    {
        let bytes = machine.keep_since(profile, before, &mut self.ops);
        self.size += bytes;
    }

    // Adds when the command changed playlists, whose ops begin at this one, if it did; the place, kept in front of it, has left the room.
    pub(crate) fn keep_time(&mut self, machine: &mut Machine, profile: Profile, made: usize)
        requires in_range { made ≤ vec_len self.old.ops }
        requires room { profile ≡ Profile.Wide → CanTime self.old }
        ensures ops { let ops = if_kept profile (time_ops (drop made self.old.ops.items) machine.old) in
            AddsOps ops (length (ops_bytes profile ops)) self.old self.new }
        ensures machine { machine.new ≡ with_ops (if_kept profile (time_ops (drop made self.old.ops.items) machine.old)) machine.old }
        ensures text { self.new.text ≡ self.old.text }
    {
        let bytes = machine.time_since(profile, made, &mut self.ops);
        self.size += bytes;
    }
}
