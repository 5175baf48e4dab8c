// Which changes of a batch put another row in the place of a song's, or drop one.
ghost use Rattle.std.specs.Prelude.{◌≡◌, ◌≤◌, length};
ghost use Rattle.stage_workers.specs.Replacing.{count_dropped, count_replaced, drops, replaces};

use song_db::{RowChange, SongDb};

/// How many do.
pub(crate) fn count_in(songs: &SongDb, changes: &[RowChange]) -> usize
    ensures { result ≡ count_replaced songs.now changes.now }
{
    changes
        .iter()
        .filter(|change| is_replacing(songs, change))
        .count()
}

fn is_replacing(songs: &SongDb, change: &RowChange) -> bool
    ensures { result ≡ replaces songs.now change.now }
{
    match change {
        RowChange::Put(row) => match songs.get(row.uri()) {
            Ok(old) => !old.is_same(row),
            Err(_) => false,
        },
        RowChange::Drop(_) => false,
    }
}

/// How many drop one.
pub(crate) fn count_dropped(changes: &[RowChange]) -> usize
    ensures { result ≡ count_dropped changes.now }
{
    changes.iter().filter(|change| is_dropping(change)).count()
}

fn is_dropping(change: &RowChange) -> bool
    ensures { result ≡ drops change.now }
{
    match change {
        RowChange::Put(_) => false,
        RowChange::Drop(_) => true,
    }
}
