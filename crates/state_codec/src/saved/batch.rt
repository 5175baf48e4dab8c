// What a batch does, told before any of it is made.
ghost use Rattle.std.specs.Prelude.{◌≡◌, ◌≤◌, false, [], ◌∷◌, ◌++◌, option_map, IfOk, OnOk};
ghost use Rattle.std.specs.Option.{option_to_list, option_copied};
ghost use Rattle.std.specs.List.{list_any};
ghost use Rattle.song_db.specs.Change.{after_batch};
ghost use Rattle.song_db.specs.Effect.{effects_of, is_left_out};
ghost use Rattle.song_db.specs.Refusal.{refusal_of as batch_refusal};
ghost use Rattle.song_db.specs.Row.{row_at};
ghost use Rattle.song_db.specs.Scan.{drops_of};
ghost use Rattle.state_codec.specs.Changes.{is_kept_change, are_kept};
ghost use Rattle.state_codec.specs.Editing.{AnswersCheck};
ghost use Rattle.state_codec.specs.OpsRows.{if_kept};
ghost use Rattle.state_codec.specs.RowSteps.{row_left, count_after, is_named, says_other, changed_first, changed_by};
ghost use Rattle.state_codec.specs.declared.refusal.OpRefusal.TheVariants.{Songs};

use crate::refusal::OpRefusal;
use profile::Profile;
use song_db::{MAX_ROWS, RowChange, SongDb, SongDbError, SongRow, Uri};
use std::alloc::{AllocError, Global};

// Refused where a row is put that the profile doesn't keep, or a new row finds the database full at its turn.
pub(super) fn check_changes(
    profile: Profile,
    songs: &SongDb,
    changes: &[RowChange],
) -> Result<(), OpRefusal>
    ensures { AnswersCheck (if_kept (are_kept profile changes.now) (option_map Songs (batch_refusal (effects_of songs.now changes.now))))
        result }
{
    if !are_kept(profile, changes) {
        return Err(OpRefusal::Songs(SongDbError::DbFull));
    }
    check_rows(songs, changes)
}

// Whether the profile keeps each row that is put.
fn are_kept(profile: Profile, changes: &[RowChange]) -> bool
    ensures { result ≡ are_kept profile changes.now }
{
    changes.iter().all(|change| is_kept(profile, change))
}

fn is_kept(profile: Profile, change: &RowChange) -> bool
    ensures { result ≡ is_kept_change profile change.now }
{
    match change {
        RowChange::Put(row) => row.is_kept_by(profile),
        RowChange::Drop(_) => true,
    }
}

// Refused where a new row finds the database full at its turn.
fn check_rows(songs: &SongDb, changes: &[RowChange]) -> Result<(), OpRefusal>
    ensures { AnswersCheck (option_map Songs (batch_refusal (effects_of songs.now changes.now))) result }
{
    let mut count = songs.len();
    for (at, change) in changes.iter().enumerate() {
        let behind = row_behind(songs, &changes[..at], change.uri());
        let there = behind.is_some();
        match count_after(count, there, change) {
            Some(after) => count = after,
            None => return Err(OpRefusal::Songs(SongDbError::DbFull)),
        }
    }
    Ok(())
}

/// The row that a URI has behind changes none of which is left out, without making them; `None` where it has none there.
pub fn row_behind<'a>(songs: &'a SongDb, changes: &'a [RowChange], uri: &str) -> Option<&'a SongRow>
    requires { list_any is_left_out (effects_of songs.now changes.now) ≡ false }
    ensures { option_copied result ≡ row_at (after_batch songs.now changes.now) uri.now }
{
    let mut row = songs.get(uri).ok();
    for change in changes {
        if uri == change.uri() {
            row = row_left(change);
        }
    }
    row
}

fn row_left(change: &RowChange) -> Option<&SongRow>
    ensures { option_copied result ≡ row_left change.now }
{
    match change {
        RowChange::Put(row) => Some(row),
        RowChange::Drop(_) => None,
    }
}

// How many rows there are after a change of a URI that has a row or none, of so many; none where the database is full.
fn count_after(count: usize, there: bool, change: &RowChange) -> Option<usize>
    requires { count ≤ MAX_ROWS }
    ensures { result ≡ count_after count there change.now }
{
    match change {
        RowChange::Put(_) if there => Some(count),
        RowChange::Put(_) if count < MAX_ROWS => Some(count + 1),
        RowChange::Put(_) => None,
        RowChange::Drop(_) if there => Some(count.saturating_sub(1)),
        RowChange::Drop(_) => Some(count),
    }
}

/// The URIs that changes drop, in their order, in memory of their own. Without memory nothing is left of them.
pub fn dropped_by(alloc: Global, changes: &[RowChange]) -> Result<Vec<Uri>, AllocError>
    ensures { IfOk result (λ uris. uris.items ≡ drops_of changes.now) }
{
    let mut uris = Vec::new(alloc);
    for change in changes {
        push_dropped(alloc, change, &mut uris)?;
    }
    Ok(uris)
}

fn push_dropped(alloc: Global, change: &RowChange, uris: &mut Vec<Uri>) -> Result<(), AllocError>
    ensures { OnOk result (uris.new.items ≡ uris.old.items ++ drops_of (change.now ∷ [])) }
{
    if let RowChange::Drop(uri) = change {
        uris.push(uri.try_clone(alloc)?)?;
    }
    Ok(())
}

// The URIs that a batch leaves with another row than before it, in memory of their own.
pub(super) fn changed_by(
    alloc: Global,
    songs: &SongDb,
    changes: &[RowChange],
) -> Result<Vec<Uri>, AllocError>
    ensures { IfOk result (λ uris. uris.items ≡ changed_by songs.now changes.now) }
{
    let mut uris = Vec::new(alloc);
    for (at, change) in changes.iter().enumerate() {
        let uri = changed_first(songs, change, &changes[at + 1..]);
        push_some(alloc, uri, &mut uris)?;
    }
    Ok(uris)
}

fn push_some(alloc: Global, uri: Option<&Uri>, uris: &mut Vec<Uri>) -> Result<(), AllocError>
    ensures { OnOk result (uris.new.items ≡ uris.old.items ++ option_to_list (option_map (λ uri. uri.now) uri.entry)) }
{
    if let Some(uri) = uri {
        uris.push(uri.try_clone(alloc)?)?;
    }
    Ok(())
}

// The URI of a change that leaves it with another row than before the batch, where no later one is of that URI.
fn changed_first<'a>(songs: &SongDb, change: &'a RowChange, more: &[RowChange]) -> Option<&'a Uri>
    ensures { option_map (λ uri. uri.now) result ≡ changed_first songs.now change.now more.now }
{
    match change {
        RowChange::Put(row) if !is_named(more, row.uri()) && says_other(songs, row) => Some(
            row.as_uri(),
        ),
        _ => None,
    }
}

fn is_named(changes: &[RowChange], uri: &str) -> bool
    ensures { result ≡ is_named changes.now uri.now }
{
    changes.iter().any(|change| uri == change.uri())
}

// Whether a row's URI has another row.
fn says_other(songs: &SongDb, row: &SongRow) -> bool
    ensures { result ≡ says_other row.now (row_at songs.now row.now.uri) }
{
    match songs.get(row.uri()) {
        Ok(old) => !old.is_same(row),
        Err(_) => false,
    }
}
