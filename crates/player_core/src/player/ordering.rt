// What the output is to do.
ghost use Rattle.std.specs.Prelude.{◌≡◌, IfOk};
ghost use Rattle.std.specs.Option.{option_map};
ghost use Rattle.play_queue.specs.Shown.{shown};
ghost use Rattle.player_core.specs.Order.{current_entry, order_of};

use super::Player;
use crate::order::{Order, PlayOrder};
use crate::playing::PlayState;
use crate::volume::Volume;
use play_queue::{Entries, EntryRef};
use std::alloc::{AllocError, Global};

pub(super) fn current_entry(entries: &Entries, current: Option<u32>) -> Option<EntryRef<'_>>
    ensures { option_map shown result ≡ current_entry entries.now current }
{
    match current {
        Some(id) => entries.with_id(id),
        None => None,
    }
}

impl Player {
    /// In play, to play the current song from its frame position on under the present ticket; else to wait.
    pub fn order(
        &self,
        alloc: Global,
        entries: &Entries,
        volume: Volume,
    ) -> Result<Order, AllocError>
        ensures { IfOk result (λ order. order ≡ order_of entries.now volume self.now) }
    {
        if self.playing.state != PlayState::Play {
            return Ok(Order::Wait);
        }
        match current_entry(entries, self.playing.current) {
            Some(entry) => Ok(Order::Play(PlayOrder {
                ticket: self.playing.ticket,
                uri: entry.uri.as_uri().try_clone(alloc)?,
                first_frame: self.playing.frame,
                volume,
            })),
            None => Ok(Order::Wait),
        }
    }
}
