// The current entry, its row, and how long songs are.
ghost use Rattle.std.specs.Prelude.{◌≡◌, option_and_then, option_map};
ghost use Rattle.std.specs.Option.{option_copied};
ghost use Rattle.play_queue.specs.Shown.{shown};
ghost use Rattle.player_core.specs.Order.{current_entry};
ghost use Rattle.machine_core.specs.Followed.{current_row, entry_row};
ghost use Rattle.machine_core.specs.Steps.{current_length, length_of, named_entry, named_length};

use crate::machine::Machine;
use play_queue::{Entries, EntryRef};
use player_core::{Selector, SongLength};
use song_db::SongRow;

pub(crate) fn current_entry(entries: &Entries, current: Option<u32>) -> Option<EntryRef<'_>>
    ensures { option_map shown result ≡ current_entry entries.now current }
{
    match current {
        Some(id) => entries.with_id(id),
        None => None,
    }
}

fn named_entry(entries: &Entries, selector: Selector) -> Option<EntryRef<'_>>
    ensures { option_map shown result ≡ named_entry selector entries.now }
{
    match selector {
        Selector::Position(position) => entries.get(position as usize),
        Selector::Id(id) => entries.with_id(id),
    }
}

// How long the song of a row is.
fn length_of(row: Option<&SongRow>) -> SongLength
    ensures { result ≡ length_of (option_copied row.entry) }
{
    match row {
        Some(row) => {
            let info = row.info();
            SongLength {
                rate: info.rate,
                frames: info.frames,
            }
        }
        None => SongLength { rate: 0, frames: 0 },
    }
}

impl Machine {
    // The row of an entry's song.
    fn entry_row(&self, entry: Option<EntryRef<'_>>) -> Option<&SongRow>
        ensures { option_copied result ≡ option_and_then (entry_row self.now.saved.songs) (option_map shown entry.entry) }
    {
        let entry = entry?;
        match self.saved.songs().row_of(entry.uri) {
            Ok(row) => Some(row),
            Err(_) => None,
        }
    }

    // The row of the current song.
    pub(crate) fn current_row(&self) -> Option<&SongRow>
        ensures { option_copied result ≡ current_row self.now.saved self.now.player }
    {
        let entries = self.saved.queue().entries();
        self.entry_row(current_entry(entries, self.player.current()))
    }

    pub(crate) fn current_length(&self) -> SongLength
        ensures { result ≡ current_length self.now }
    {
        length_of(self.current_row())
    }

    // How long the song of the named entry is.
    pub(crate) fn named_length(&self, selector: Selector) -> SongLength
        ensures { result ≡ named_length selector self.now }
    {
        let entries = self.saved.queue().entries();
        length_of(self.entry_row(named_entry(entries, selector)))
    }
}
