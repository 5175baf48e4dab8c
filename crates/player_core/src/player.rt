// The player: what it keeps, how it begins, and its copy.
ghost use Rattle.std.specs.Prelude.{◌≡◌, [], None, IfOk};
ghost use Rattle.player_core.specs.Player.{PlayerState};
ghost use Rattle.player_core.specs.declared.playing.PlayState.TheVariants.{Stop};

use crate::playing::{PlayState, Playing};
use crate::round_words::WordTable;
use indexmap::IndexSet;
use std::alloc::{AllocError, Global};
use std::marker::Model;

mod ending;
mod failing;
mod following;
mod ordering;
mod reading;
mod reports;
mod seeking;
mod showing;
mod starting;

/// What plays: the state, the current song, the ticket of its start, the frame position, the songs that this
/// random round has played, and the error.
///
/// A ticket names one start, seek or stop of a song; it counts from 1, and 1 follows 2^64-1. Calls that read the
/// queue are given its entries, and answer what they change of the saved half as data. A refused call leaves
/// the player as it was.
#[derive(Drop)]
pub struct Player {
    playing: Playing,
    played: IndexSet<u32>,
    // What is kept of the words of the random round. No contract sees it.
    words: WordTable,
}

impl Model for Player {
    ghost use Rattle.player_core.specs.Player.{PlayerState, player_of};

    ghost Value = { PlayerState };

    ghost view = { λ p. player_of p.playing p.played.keys };
}

impl Player {
    /// Stopped, with no current song, and nothing played. It takes no memory yet.
    pub fn new(alloc: Global) -> Player
        ensures { result ≡ record { state = Stop; current = None; ticket = 0; frame = 0; played = []; error = None; failures = 0 } }
    {
        Player {
            playing: Playing {
                state: PlayState::Stop,
                current: None,
                ticket: 0,
                frame: 0,
                error: None,
                failures: 0,
            },
            played: IndexSet::new(alloc),
            words: WordTable::new(alloc, [0; 32], 0),
        }
    }

    // With a song current at a frame, started under the first ticket, after these ones in its round.
    pub(crate) fn at(
        alloc: Global,
        state: PlayState,
        current: Option<u32>,
        frame: u64,
        played: IndexSet<u32>,
    ) -> Player
        ensures { result ≡ record {
          state = state;
          current = current;
          ticket = 1;
          frame = frame;
          played = played.keys;
          error = None;
          failures = 0;
        } }
    {
        Player {
            playing: Playing {
                state,
                current,
                ticket: 1,
                frame,
                error: None,
                failures: 0,
            },
            played,
            words: WordTable::new(alloc, [0; 32], 0),
        }
    }

    /// The same player once more, in memory of its own.
    pub fn try_clone(&self, alloc: Global) -> Result<Player, AllocError>
        ensures { IfOk result (λ player. player ≡ self.now) }
    {
        let error = match &self.playing.error {
            Some(error) => Some(error.try_clone(alloc)?),
            None => None,
        };
        Ok(Player {
            playing: Playing {
                state: self.playing.state,
                current: self.playing.current,
                ticket: self.playing.ticket,
                frame: self.playing.frame,
                error,
                failures: self.playing.failures,
            },
            played: self.played.clone()?,
            words: WordTable::new(alloc, [0; 32], 0),
        })
    }
}
