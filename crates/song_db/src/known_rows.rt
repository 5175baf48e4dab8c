// The songs in the place of a job, as a scan is told of them.
ghost use Rattle.std.specs.Prelude.{◌≡◌, ◌++◌, length, map, option_map, option_to_list, IfOk, OnOk};
ghost use Rattle.song_db.specs.Known.{known_in, known_song};
ghost use Rattle.song_db.specs.Music.{uris_of};
ghost use Rattle.song_db.specs.Order.{AreKnown};
ghost use Rattle.song_db.specs.Replaced.{IsRising};
ghost use Rattle.song_db.specs.Row.{row_uri, row_at};

use crate::folder_rows::rows_below;
use crate::known_song::KnownSong;
use crate::row::SongRow;
use crate::rows::position;
use crate::rules::LibraryRules;
use crate::uri::Uri;
use std::alloc::{AllocError, Global};

// The songs in the place of a job.
pub(crate) fn known_in(
    alloc: Global,
    rows: &[SongRow],
    place: Option<&Uri>,
    rules: LibraryRules,
) -> Result<Vec<KnownSong>, AllocError>
    requires { IsRising row_uri rows.now }
    ensures songs { IfOk result (λ known. known.items ≡ known_in rules rows.now (option_map (λ uri. uri.now) place.entry)) }
    ensures rising { IfOk result (λ known. AreKnown (uris_of known.items)) }
{
    let mut known = Vec::new(alloc);
    match place {
        None => push_songs(alloc, &mut known, rows, rules)?,
        Some(uri) => {
            push_songs(alloc, &mut known, own_row(rows, uri.as_str()), rules)?;
            push_songs(alloc, &mut known, rows_below(rows, uri.as_str()), rules)?;
        }
    }
    Ok(known)
}

fn push_songs(
    alloc: Global,
    known: &mut Vec<KnownSong>,
    rows: &[SongRow],
    rules: LibraryRules,
) -> Result<(), AllocError>
    ensures { OnOk result (known.new.items ≡ known.old.items ++ map (known_song rules) rows.now) }
{
    for row in rows {
        known.push(known_song(alloc, row, rules)?)?;
    }
    Ok(())
}

// A song by its URI, with its stamp where the rules keep them.
fn known_song(alloc: Global, row: &SongRow, rules: LibraryRules) -> Result<KnownSong, AllocError>
    ensures { IfOk result (λ song. song ≡ known_song rules row.now) }
{
    let uri = row.as_uri().try_clone(alloc)?;
    let stamp = if rules.keeps_stamps {
        row.stamp()
    } else {
        None
    };
    Ok(KnownSong { uri, stamp })
}

// The row of a URI alone, if there is one.
fn own_row<'a>(rows: &'a [SongRow], uri: &str) -> &'a [SongRow]
    requires { IsRising row_uri rows.now }
    ensures { result.now ≡ option_to_list (row_at rows.now uri.now) }
{
    match position(rows, uri) {
        Some(at) => &rows[at..at + 1],
        None => &[],
    }
}
