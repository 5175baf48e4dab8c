// What leaves the queue in one edit, and what stays.
ghost use Rattle.std.specs.Prelude.{◌≡◌, ◌≤◌, length, drop};
ghost use Rattle.play_queue.specs.Entries.{is_among};
ghost use Rattle.play_queue.specs.Shown.{shown};
ghost use Rattle.player_core.specs.Reports.{takes_at};
ghost use Rattle.player_core.specs.Staying.{takes, staying, first_id};

use crate::block::Block;
use play_queue::{Entries, EntryRef};
use song_db::Uri;

fn is_among(uris: &[Uri], uri: &Uri) -> bool
    ensures { result ≡ is_among uris.now uri.now }
{
    uris.iter().any(|other| other.as_str() == uri.as_str())
}

// Whether the entry at a position leaves: it stands in the block, or its URI is dropped.
pub(crate) fn takes(block: Block, dropped: &[Uri], at: usize, entry: &EntryRef<'_>) -> bool
    ensures { result ≡ takes block dropped.now at (shown entry.now) }
{
    (block.start <= at && at < block.end) || is_among(dropped, entry.uri.as_uri())
}

// The id of the first entry from a position on that stays.
pub(crate) fn first_staying(
    entries: &Entries,
    block: Block,
    dropped: &[Uri],
    from: usize,
) -> Option<u32>
    requires { from ≤ length entries.now }
    ensures { result ≡ first_id (staying block dropped.now from (drop from entries.now)) }
{
    for at in from..entries.len() {
        let entry = entries.at(at);
        if !takes(block, dropped, at, &entry) {
            return Some(entry.id);
        }
    }
    None
}

// Whether the entry at a position, if there is one, leaves.
pub(crate) fn takes_at(block: Block, dropped: &[Uri], entries: &Entries, at: usize) -> bool
    ensures { result ≡ takes_at block dropped.now entries.now at }
{
    match entries.get(at) {
        Some(entry) => takes(block, dropped, at, &entry),
        None => false,
    }
}
