// What is kept of the player: where it was.
ghost use Rattle.std.specs.Prelude.{◌≡◌, [], ◌∷◌, Some, IfOk, OnOk};
ghost use Rattle.player_core.specs.Place.{found_ids, no_place, place_left, resumed, resumed_round, resumed_state, with_id};
ghost use Rattle.player_core.specs.Place.{without_id, IsPlace};

use crate::block::Block;
use crate::kept_round::{KeptRound, id_leaves};
use crate::played::{make_room, note};
use crate::player::Player;
use crate::playing::PlayState;
use indexmap::IndexSet;
use play_queue::Entries;
use song_db::Uri;
use std::alloc::{AllocError, Global};
use std::marker::Model;

/// Where the player was: whether it played, the current song, the frame position, and what the random round has played.
#[derive(Debug, Drop)]
pub struct Place {
    state: PlayState,
    song: u32,
    frame: u64,
    played: KeptRound,
}

impl Model for Place {
    ghost use Rattle.player_core.specs.Place.{PlaceState};

    ghost Value = { PlaceState };

    ghost view = { λ p. record { state = p.state; song = p.song; frame = p.frame; played = p.played } };
}

impl Place {
    /// Stopped, with no current song, and nothing played. All the memory that a place may need is taken now.
    pub fn new(alloc: Global) -> Result<Place, AllocError>
        ensures { IfOk result (λ place. place ≡ no_place) }
    {
        Ok(Place {
            state: PlayState::Stop,
            song: 0,
            frame: 0,
            played: KeptRound::new(alloc)?,
        })
    }

    /// The place with this round.
    pub fn at(state: PlayState, song: u32, frame: u64, played: KeptRound) -> Place
        ensures { result ≡ record { state = state; song = song; frame = frame; played = played } }
    {
        Place {
            state,
            song,
            frame,
            played,
        }
    }

    pub fn state(&self) -> PlayState
        ensures { result ≡ self.now.state }
    {
        self.state
    }

    /// The id of the current entry; 0 where there is none.
    pub fn song(&self) -> u32
        ensures { result ≡ self.now.song }
    {
        self.song
    }

    /// The position in the current song, in frames.
    pub fn frame(&self) -> u64
        ensures { result ≡ self.now.frame }
    {
        self.frame
    }

    /// The ids that were started in this random round, by their last start.
    pub fn played(&self) -> &[u32]
        ensures ids { result.now ≡ self.now.played }
        ensures within { IsPlace self.now }
    {
        let _song = self.song;
        let _frame = self.frame;
        self.played.as_slice()
    }

    /// The player is here now.
    pub fn put(&mut self, state: PlayState, song: u32, frame: u64)
        ensures { self.new ≡ record self.old { state = state; song = song; frame = frame } }
    {
        self.state = state;
        self.song = song;
        self.frame = frame;
    }

    /// The song of an id was started: it is the last one of the round, unless that is full.
    pub fn note(&mut self, id: u32)
        ensures { self.new ≡ record self.old { played = with_id id self.old.played } }
    {
        self.played.note(id);
    }

    /// A random round begins.
    pub fn begin_round(&mut self)
        ensures { self.new ≡ record self.old { played = [] } }
    {
        self.played.clear();
    }

    /// An id leaves the round.
    pub fn leave_round(&mut self, id: u32)
        ensures { self.new ≡ record self.old { played = without_id id self.old.played } }
    {
        self.played.leave(id);
    }

    /// Entries leave the queue: those of a block, and those of dropped URIs; `entries` is the queue before.
    pub fn follow_removal(&mut self, entries: &Entries, block: Block, dropped: &[Uri])
        ensures { self.new ≡ place_left block dropped.now entries.now self.old }
    {
        self.played.follow_removal(entries, block, dropped);
        if id_leaves(entries, block, dropped, self.song) {
            self.put(PlayState::Stop, 0, 0);
        }
    }

    /// The same place once more, in memory of its own.
    pub fn try_clone(&self, alloc: Global) -> Result<Place, AllocError>
        ensures { IfOk result (λ place. place ≡ self.now) }
    {
        Ok(Place {
            state: self.state,
            song: self.song,
            frame: self.frame,
            played: self.played.try_clone(alloc)?,
        })
    }
}

fn resumed_state(plays: bool, state: PlayState) -> PlayState
    ensures { result ≡ resumed_state plays state }
{
    match state {
        PlayState::Stop => PlayState::Stop,
        PlayState::Play => {
            if plays {
                PlayState::Play
            } else {
                PlayState::Pause
            }
        }
        PlayState::Pause => PlayState::Pause,
    }
}

// An id that is still in the queue comes behind the others.
fn add_found(known: &mut IndexSet<u32>, entries: &Entries, id: u32) -> Result<(), AllocError>
    ensures { OnOk result (known.new.keys ≡ found_ids entries.now (id ∷ []) known.old.keys) }
{
    let is_found = entries.pos_of(id).is_some();
    make_room(known, is_found)?;
    note(known, is_found, id);
    Ok(())
}

// The round that goes on.
fn resumed_round(
    alloc: Global,
    entries: &Entries,
    random: bool,
    played: &[u32],
) -> Result<IndexSet<u32>, AllocError>
    ensures { IfOk result (λ known. known.keys ≡ resumed_round random entries.now played.now) }
{
    let mut known = IndexSet::new(alloc);
    if !random {
        return Ok(known);
    }
    for id in played {
        add_found(&mut known, entries, *id)?;
    }
    Ok(known)
}

impl Player {
    /// The player that goes on from a place, whose song has so many frames: paused where it played, unless it is to play on.
    pub fn resumed(
        alloc: Global,
        place: &Place,
        entries: &Entries,
        plays: bool,
        random: bool,
        frames: u64,
    ) -> Result<Player, AllocError>
        ensures { IfOk result (λ player. player ≡ resumed plays random frames entries.now place.now) }
    {
        let played = resumed_round(alloc, entries, random, place.played())?;
        match entries.pos_of(place.song) {
            Some(_) => {
                let state = resumed_state(plays, place.state);
                let frame = place.frame.min(frames);
                Ok(Player::at(alloc, state, Some(place.song), frame, played))
            }
            None => Ok(Player::at(alloc, PlayState::Stop, None, 0, played)),
        }
    }
}
