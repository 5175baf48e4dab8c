// Ops of the player's place. None of them takes memory.
ghost use Rattle.std.specs.Prelude.{◌≡◌, not, ◌||◌, option_map};
ghost use Rattle.std.specs.Option.{option_copied};
ghost use Rattle.player_core.specs.Place.{no_place, place_left};
ghost use Rattle.state_codec.specs.Applied.{after, changes_nothing};
ghost use Rattle.state_codec.specs.Editing.{AnswersCheck};
ghost use Rattle.state_codec.specs.Ops.{IsPlaceOp};
ghost use Rattle.state_codec.specs.OpsPlace.{place_refusal, ends_in, is_empty, is_full, leaves_place, place_after, stands_in, stays_by};
ghost use Rattle.state_codec.specs.declared.op.Op.TheVariants.{Place as OfPlace};

use super::Saved;
use crate::op::PlaceOp;
use crate::refusal::OpRefusal;
use play_queue::Entries;
use player_core::{Block, LONGEST_ROUND, Place, PlayState};
use profile::Profile;
use song_db::{SongDbError, Uri};

impl Saved {
    /// Whether the op would change anything of what is kept of the player. It looks at the round once.
    pub fn would_keep(&self, op: PlaceOp) -> bool
        ensures { result ≡ not (changes_nothing (OfPlace op) self.now) }
    {
        !leaves_place(op, self.parts.place.as_ref())
    }

    /// Keeps something of the player, as the op does. It takes no memory.
    pub fn keep(&mut self, op: PlaceOp)
        ensures { self.new ≡ after (OfPlace op) self.old }
    {
        change_place(&mut self.parts.place, op);
    }
}

// Refused where the profile keeps no place.
pub(super) fn check_place(profile: Profile) -> Result<(), OpRefusal>
    ensures { AnswersCheck (place_refusal profile) result }
{
    match profile {
        Profile::Named => Err(OpRefusal::Songs(SongDbError::DbFull)),
        Profile::Wide => Ok(()),
    }
}

// What an op does to the place, if one is kept.
pub(super) fn change_place(place: &mut Option<Place>, op: PlaceOp)
    ensures place { place.new ≡ option_map (place_after op) place.old }
    ensures form { IsPlaceOp op }
{
    are_in_range(op);
    if let Some(place) = place {
        change(place, op);
    }
}

fn are_in_range(op: PlaceOp)
    ensures { IsPlaceOp op }
{
    match op {
        PlaceOp::Put { .. } => {}
        PlaceOp::Played(_) => {}
        PlaceOp::Begins => {}
        PlaceOp::Leaves(_) => {}
    }
}

fn change(place: &mut Place, op: PlaceOp)
    ensures { place.new ≡ place_after op place.old }
{
    match op {
        PlaceOp::Put { state, song, frame } => place.put(state, song, frame),
        PlaceOp::Played(id) => place.note(id),
        PlaceOp::Begins => place.begin_round(),
        PlaceOp::Leaves(id) => place.leave_round(id),
    }
}

// Entries leave the queue; `entries` is the queue before.
pub(super) fn leave_place(
    place: &mut Option<Place>,
    entries: &Entries,
    block: Block,
    dropped: &[Uri],
)
    ensures { place.new ≡ option_map (place_left block dropped.now entries.now) place.old }
{
    if let Some(place) = place {
        place.follow_removal(entries, block, dropped);
    }
}

// Whether an op changes nothing. It looks at the round once.
pub(super) fn leaves_place(op: PlaceOp, place: Option<&Place>) -> bool
    ensures { result ≡ leaves_place op (option_copied place.entry) }
{
    match place {
        Some(place) => stays_by(op, place),
        None => true,
    }
}

// Whether an op leaves the place as it is.
fn stays_by(op: PlaceOp, place: &Place) -> bool
    ensures { result ≡ stays_by op place.now }
{
    match op {
        PlaceOp::Put { state, song, frame } => { is_here(place, state, song, frame) }
        PlaceOp::Played(id) => {
            let played = place.played();
            ends_in(id, played) || (is_full(played) && !stands_in(id, played))
        }
        PlaceOp::Begins => has_no_ids(place.played()),
        PlaceOp::Leaves(id) => !stands_in(id, place.played()),
    }
}

fn is_here(place: &Place, state: PlayState, song: u32, frame: u64) -> bool
    ensures { result ≡ stays_by (PlaceOp.Put state song frame) place.now }
{
    state == place.state() && song == place.song() && frame == place.frame()
}

/// Whether this is the beginning: stopped, without a song.
pub(crate) fn is_start(state: PlayState, song: u32, frame: u64) -> bool
    ensures { result ≡ stays_by (PlaceOp.Put state song frame) no_place }
{
    state == PlayState::Stop && song == 0 && frame == 0
}

/// Whether a round has begun with no id yet.
pub(crate) fn has_no_ids(ids: &[u32]) -> bool
    ensures { result ≡ is_empty ids.now }
{
    match ids {
        [] => true,
        [_, ..] => false,
    }
}

fn stands_in(id: u32, ids: &[u32]) -> bool
    ensures { result ≡ stands_in id ids.now }
{
    ids.iter().any(|other| id == *other)
}

// Whether an id is the last one, and stands nowhere else.
fn ends_in(id: u32, ids: &[u32]) -> bool
    ensures { result ≡ ends_in id ids.now }
{
    match ids {
        [] => false,
        [front @ .., last] => id == *last && !stands_in(id, front),
    }
}

fn is_full(ids: &[u32]) -> bool
    ensures { result ≡ is_full ids.now }
{
    LONGEST_ROUND <= ids.len()
}
