// The player's place, as an op has it and as the fields behind the parts of a snapshot, appended to room that was taken before.
ghost use Rattle.std.specs.Prelude.{◌≡◌, ◌≤◌, length, if◌then◌else◌};
ghost use Rattle.player_core.specs.Place.{longest_round, no_place};
ghost use Rattle.state_codec.specs.Appended.{HasRoom, Appends};
ghost use Rattle.state_codec.specs.Ops.{IsPlaceOp};
ghost use Rattle.state_codec.specs.SpellingFields.{state_number};
ghost use Rattle.state_codec.specs.SpellingOps.{place_fields, place_kind};
ghost use Rattle.state_codec.specs.OpsPlace.{stays_by};
ghost use Rattle.state_codec.specs.SpellingPlace.{field_count, place_bytes, place_head, round_head, spot_field, told_spot};

use super::bytes::{put_byte, put_u32, put_u64};
use super::ops::put_numbers;
use crate::op::PlaceOp;
use crate::saved::{has_no_ids, is_start};
use player_core::{Place, PlayState};

fn state_number(state: PlayState) -> u8
    ensures { result ≡ state_number state }
{
    match state {
        PlayState::Stop => 0,
        PlayState::Pause => 1,
        PlayState::Play => 2,
    }
}

fn put_spot(out: &mut Vec<u8>, state: PlayState, song: u32, frame: u64)
    requires { HasRoom out.old 13 }
    ensures { Appends out.old out.new (place_fields (PlaceOp.Put state song frame)) }
{
    put_byte(out, state_number(state));
    put_u32(out, song);
    put_u64(out, frame);
}

pub(crate) fn place_kind(op: PlaceOp) -> u8
    ensures { result ≡ place_kind op }
{
    match op {
        PlaceOp::Put { .. } => 22,
        PlaceOp::Played(_) => 23,
        PlaceOp::Begins => 24,
        PlaceOp::Leaves(_) => 25,
    }
}

pub(crate) fn place_op_len(op: PlaceOp) -> usize
    ensures len { result ≡ length (place_fields op) }
    ensures within { result ≤ 13 }
{
    match op {
        PlaceOp::Put { .. } => 13,
        PlaceOp::Played(_) => 4,
        PlaceOp::Begins => 0,
        PlaceOp::Leaves(_) => 4,
    }
}

pub(crate) fn put_place_fields(out: &mut Vec<u8>, op: PlaceOp)
    requires { HasRoom out.old (length (place_fields op)) }
    ensures appended { Appends out.old out.new (place_fields op) }
    ensures form { IsPlaceOp op }
{
    match op {
        PlaceOp::Put { state, song, frame } => put_spot(out, state, song, frame),
        PlaceOp::Played(id) => put_u32(out, id),
        PlaceOp::Begins => {}
        PlaceOp::Leaves(id) => put_u32(out, id),
    }
}

// Whether field 2 has nothing to say.
fn has_no_spot(place: &Place) -> bool
    ensures { result ≡ stays_by (PlaceOp.Put place.now.state place.now.song place.now.frame) no_place }
{
    is_start(place.state(), place.song(), place.frame())
}

// How many bytes field 2 takes.
fn spot_len(place: &Place) -> usize
    ensures len { result ≡ length (spot_field place.now) }
    ensures within { result ≤ 18 }
{
    if has_no_spot(place) {
        return 0;
    }
    18
}

// How many bytes stand in front of the ids of field 3.
fn round_head_len(ids: &[u32]) -> usize
    ensures len { result ≡ length (round_head ids.now) }
    ensures within { result ≤ 5 }
{
    match ids {
        [] => 0,
        [_, ..] => 5,
    }
}

// How many bytes stand in front of the ids of the round.
fn place_head_len(place: &Place) -> usize
    ensures len { result ≡ length (place_head place.now) }
    ensures within { result ≤ 23 }
{
    spot_len(place) + round_head_len(place.played())
}

/// How many bytes the fields take.
pub(crate) fn place_len(place: &Place) -> usize
    ensures len { result ≡ length (place_bytes place.now) }
    ensures within { result ≤ 262167 }
{
    place_head_len(place) + 4 * place.played().len()
}

// How many fields it takes to tell something: none where there is nothing to tell.
pub(super) fn told_count(is_nothing: bool) -> u8
    ensures count { result ≡ if is_nothing then 0 else 1 }
    ensures within { result ≤ 1 }
{
    if is_nothing { 0 } else { 1 }
}

// How many fields the place takes.
pub(super) fn field_count(place: &Place) -> u8
    ensures count { result ≡ field_count place.now }
    ensures within { result ≤ 2 }
{
    let spot = told_count(has_no_spot(place));
    let round = told_count(has_no_ids(place.played()));
    spot + round
}

// Appends field 2 of a place that has one.
fn put_told_spot(out: &mut Vec<u8>, place: &Place)
    requires { HasRoom out.old 18 }
    ensures { Appends out.old out.new (told_spot place.now) }
{
    put_byte(out, 2);
    put_u32(out, 13);
    put_spot(out, place.state(), place.song(), place.frame());
}

fn put_spot_field(out: &mut Vec<u8>, place: &Place)
    requires { HasRoom out.old (length (spot_field place.now)) }
    ensures { Appends out.old out.new (spot_field place.now) }
{
    if has_no_spot(place) {
        return;
    }
    put_told_spot(out, place);
}

fn put_round_head(out: &mut Vec<u8>, ids: &[u32])
    requires few { length ids.now ≤ longest_round }
    requires room { HasRoom out.old (length (round_head ids.now)) }
    ensures { Appends out.old out.new (round_head ids.now) }
{
    match ids {
        [] => {}
        [_, ..] => {
            put_byte(out, 3);
            put_u32(out, 4 * ids.len() as u32);
        }
    }
}

/// Appends what stands in front of the ids of the round.
pub(crate) fn put_place_head(out: &mut Vec<u8>, place: &Place)
    requires { HasRoom out.old (length (place_head place.now)) }
    ensures { Appends out.old out.new (place_head place.now) }
{
    put_spot_field(out, place);
    put_round_head(out, place.played());
}

/// Appends the fields.
pub(crate) fn put_place(out: &mut Vec<u8>, place: &Place)
    requires { HasRoom out.old (length (place_bytes place.now)) }
    ensures { Appends out.old out.new (place_bytes place.now) }
{
    put_place_head(out, place);
    put_numbers(out, place.played());
}
