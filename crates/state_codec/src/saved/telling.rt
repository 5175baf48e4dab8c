// Whether what an op that isn't refused says stands already. No call takes memory.
ghost use Rattle.std.specs.Prelude.{◌≡◌, ◌==◌, ◌&&◌, length, is_some, None};
ghost use Rattle.std.specs.List.{list_any};
ghost use Rattle.song_db.specs.Effect.{effect_of, put_effect, effects_of, changes_a_row};
ghost use Rattle.song_db.specs.Row.{row_at};
ghost use Rattle.stickers.specs.Sticker.{value_at, find_refusal};
ghost use Rattle.stored_lists.specs.Lists.{songs_of, songs_or_none, name_refusal, add_refusal};
ghost use Rattle.state_codec.specs.OpsSettings.{is_set};
ghost use Rattle.state_codec.specs.OpsStickers.{is_value};

use crate::op::Setting;
use player_core::Options;
use song_db::{MAX_ROWS, RowChange, SongDb, SongRow};
use stickers::Stickers;
use stored_lists::Lists;

// Whether an option has the value already.
pub(super) fn is_set(setting: Setting, options: Options) -> bool
    ensures { result ≡ is_set setting options }
{
    match setting {
        Setting::Repeat(on) => on == options.repeat,
        Setting::Random(on) => on == options.random,
        Setting::Single(single) => single == options.single,
        Setting::Consume(consume) => consume == options.consume,
    }
}

// Whether no song is added, and the playlist is there already.
pub(super) fn adds_nothing(lists: &Lists, name: &str, count: usize) -> bool
    ensures { add_refusal lists.now name.now count ≡ None → result ≡ (is_some (songs_of lists.now name.now) && count == 0) }
{
    lists.get(name).is_ok() && count == 0
}

pub(super) fn has_no_songs(lists: &Lists, name: &str) -> bool
    ensures { name_refusal lists.now name.now ≡ None → result ≡ (length (songs_or_none lists.now name.now) == 0) }
{
    match lists.get(name) {
        Ok(songs) => songs.len() == 0,
        Err(_) => false,
    }
}

// Whether a sticker has the value already.
pub(super) fn has_value(stickers: &Stickers, uri: &str, name: &str, value: &str) -> bool
    ensures { find_refusal name.now ≡ None → result ≡ is_value value.now (value_at stickers.now uri.now name.now) }
{
    match stickers.get(uri, name) {
        Ok(old) => value == old.as_str(),
        Err(_) => false,
    }
}

// Whether some change changes a row at its turn. As long as none does, each finds the rows as they are.
pub(super) fn changes_rows(songs: &SongDb, changes: &[RowChange]) -> bool
    ensures { result ≡ list_any changes_a_row (effects_of songs.now changes.now) }
{
    let _rows = songs.len();
    some_would_change(songs, changes)
}

// Whether some change would change a row, if it were the first.
fn some_would_change(songs: &SongDb, changes: &[RowChange]) -> bool
    ensures { result ≡ list_any (λ change. changes_a_row (effect_of songs.now change)) changes.now }
{
    changes.iter().any(|change| changes_a_row(songs, change))
}

fn changes_a_row(songs: &SongDb, change: &RowChange) -> bool
    ensures { result ≡ changes_a_row (effect_of songs.now change.now) }
{
    match change {
        RowChange::Put(row) => puts_another(songs, row),
        RowChange::Drop(uri) => songs.row_number(uri.as_str()).is_ok(),
    }
}

// Whether a row would come, or take the place of another.
fn puts_another(songs: &SongDb, row: &SongRow) -> bool
    ensures { result ≡ changes_a_row (put_effect songs.now row.now (row_at songs.now row.now.uri)) }
{
    match songs.get(row.uri()) {
        Ok(old) => !old.is_same(row),
        Err(_) => songs.len() < MAX_ROWS,
    }
}
