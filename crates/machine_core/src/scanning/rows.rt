// Which changes of a batch change a row at their turn, told before any of them is made. Rows that the profile doesn't keep are left out.
ghost use Rattle.std.specs.Prelude.{◌≡◌, ◌<◌, ◌≤◌, ◌+◌, ◌++◌, ◌∷◌, [], false, vec_len, vec_capacity, IfOk};
ghost use Rattle.std.specs.List.{list_any};
ghost use Rattle.std.specs.Option.{option_copied};
ghost use Rattle.song_db.specs.Change.{after_batch};
ghost use Rattle.song_db.specs.Effect.{effects_of, is_left_out};
ghost use Rattle.song_db.specs.declared.change.RowChange.TheVariants.{Put};
ghost use Rattle.state_codec.specs.Changes.{is_kept_change};
ghost use Rattle.machine_core.specs.Scanning.{kept_changes, telling};
ghost use Rattle.machine_core.specs.ScanningRows.{AreTold, count_told};

use profile::Profile;
use song_db::{MAX_ROWS, RowChange, SongDb, SongRow};
use state_codec::row_behind;
use std::alloc::{AllocError, Global};

// Those that do, in their order. Each is looked up among the rows and among those before it.
pub(super) fn telling(
    alloc: Global,
    profile: Profile,
    songs: &SongDb,
    changes: Vec<RowChange>,
) -> Result<Vec<RowChange>, AllocError>
    ensures told { IfOk result (λ told. told.items ≡ telling songs.now (kept_changes profile changes.items)) }
    ensures fit { IfOk result (λ told. list_any is_left_out (effects_of songs.now told.items) ≡ false) }
{
    let mut count = songs.len();
    let mut told = Vec::with_capacity(alloc, changes.len())?;
    for change in changes {
        take_kept(profile, songs, change, &mut told, &mut count);
    }
    Ok(told)
}

// Adds a change to those before it, where it changes a row behind them and the profile keeps what it puts.
fn take_kept(
    profile: Profile,
    songs: &SongDb,
    change: RowChange,
    told: &mut Vec<RowChange>,
    count: &mut usize,
)
    requires told { AreTold songs.now told.old.items count.old }
    requires room { vec_len told.old < vec_capacity told.old }
    ensures told { AreTold songs.now told.new.items count.new }
    ensures items { told.new.items
        ≡ told.old.items ++ telling (after_batch songs.now told.old.items) (kept_changes profile (change ∷ [])) }
    ensures len { vec_len told.new ≤ vec_len told.old + 1 }
    ensures capacity { vec_capacity told.new ≡ vec_capacity told.old }
{
    if is_kept(profile, &change) {
        keep_telling(songs, change, told, count);
    }
}

// Whether a change puts no row that the profile doesn't keep.
fn is_kept(profile: Profile, change: &RowChange) -> bool
    ensures { result ≡ is_kept_change profile change.now }
{
    match change {
        RowChange::Put(row) => row.is_kept_by(profile),
        RowChange::Drop(_) => true,
    }
}

// Adds a change to those before it, where it changes a row behind them.
fn keep_telling(songs: &SongDb, change: RowChange, told: &mut Vec<RowChange>, count: &mut usize)
    requires told { AreTold songs.now told.old.items count.old }
    requires room { vec_len told.old < vec_capacity told.old }
    ensures told { AreTold songs.now told.new.items count.new }
    ensures items { told.new.items ≡ told.old.items ++ telling (after_batch songs.now told.old.items) (change ∷ []) }
    ensures len { vec_len told.new ≤ vec_len told.old + 1 }
    ensures capacity { vec_capacity told.new ≡ vec_capacity told.old }
{
    let _rows = songs.len();
    let row = row_behind(songs, told, change.uri());
    if let Some(after) = count_told(*count, &change, row) {
        *count = after;
        told.push_reserved(change);
    }
}

fn count_told(count: usize, change: &RowChange, row: Option<&SongRow>) -> Option<usize>
    requires { count ≤ MAX_ROWS }
    ensures { result ≡ count_told count change.now (option_copied row.entry) }
{
    match change {
        RowChange::Put(new) => count_put(count, new, row),
        RowChange::Drop(_) => row.map(|_row| count.saturating_sub(1)),
    }
}

fn count_put(count: usize, new: &SongRow, row: Option<&SongRow>) -> Option<usize>
    requires { count ≤ MAX_ROWS }
    ensures { result ≡ count_told count (Put new.now) (option_copied row.entry) }
{
    match row {
        Some(old) if old.is_same(new) => None,
        Some(_) => Some(count),
        None if count < MAX_ROWS => Some(count + 1),
        None => None,
    }
}
