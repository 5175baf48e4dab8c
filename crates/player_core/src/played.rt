// The played list, and how a song is started or the player stops.
ghost use Rattle.std.specs.Prelude.{◌≡◌, ◌<◌, ◌≤◌, [], IsTrue, OnOk};
ghost use Rattle.indexmap.specs.IndexSet.{spare};
ghost use Rattle.player_core.specs.Player.{player_of, noted, without, started, stopped_without_song, gone_on, next_ticket};

use crate::choice::Choice;
use crate::playing::{PlayState, Playing};
use indexmap::IndexSet;
use std::alloc::AllocError;

// Makes room for one more id, where songs that start are noted.
pub(crate) fn make_room(played: &mut IndexSet<u32>, random: bool) -> Result<(), AllocError>
    ensures kept { played.new.keys ≡ played.old.keys }
    ensures room { OnOk result (IsTrue random → 0 < spare played.new) }
{
    if random {
        played.reserve(1)?;
    }
    Ok(())
}

// An id leaves the list.
pub(crate) fn remove(played: &mut IndexSet<u32>, id: u32)
    ensures ids { played.new.keys ≡ without id played.old.keys }
    ensures room { spare played.old ≤ spare played.new }
{
    played.shift_remove(&id);
}

// In random mode an id goes to the end of the list.
pub(crate) fn note(played: &mut IndexSet<u32>, random: bool, id: u32)
    requires { IsTrue random → 0 < spare played.old }
    ensures { played.new.keys ≡ noted random id played.old.keys }
{
    if random {
        played.shift_remove(&id);
        let _ = played.insert(id);
    }
}

pub(crate) fn next_ticket(ticket: u64) -> u64
    ensures { result ≡ next_ticket ticket }
{
    if ticket == u64::MAX { 1 } else { ticket + 1 }
}

// Starts a song.
pub(crate) fn start(playing: &mut Playing, played: &mut IndexSet<u32>, random: bool, id: u32)
    requires { IsTrue random → 0 < spare played.old }
    ensures { player_of playing.new played.new.keys ≡ started random (player_of playing.old played.old.keys) id }
{
    note(played, random, id);
    playing.state = PlayState::Play;
    playing.current = Some(id);
    playing.ticket = next_ticket(playing.ticket);
    playing.frame = 0;
    playing.error = None;
    playing.failures = 0;
}

// Stops without a current song.
pub(crate) fn stop_without_song(playing: &mut Playing)
    ensures { player_of playing.new [] ≡ stopped_without_song (player_of playing.old []) }
{
    playing.state = PlayState::Stop;
    playing.current = None;
    playing.frame = 0;
}

// Starts what was chosen, or stops where that is nothing.
pub(crate) fn go_on(playing: &mut Playing, played: &mut IndexSet<u32>, random: bool, choice: Choice)
    requires { IsTrue random → 0 < spare played.old }
    ensures { player_of playing.new played.new.keys ≡ gone_on random (player_of playing.old played.old.keys) choice }
{
    if choice.order.is_some() {
        played.clear();
    }
    match choice.id {
        Some(id) => start(playing, played, random, id),
        None => stop_without_song(playing),
    }
}
