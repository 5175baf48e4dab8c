// Where the current song stands.
ghost use Rattle.std.specs.Prelude.{◌≡◌, ◌+◌, ◌<◌, length, IfSome};
ghost use Rattle.player_core.specs.Choice.{placed};

use play_queue::Entries;

// The position and the id of the entry with an id.
pub(crate) fn placed(entries: &Entries, current: Option<u32>) -> Option<(usize, u32)>
    ensures found { result ≡ placed entries.now current }
    ensures within { IfSome result (λ place. place.0 < length entries.now) }
{
    match current {
        Some(id) => match entries.pos_of(id) {
            Some(at) => Some((at, id)),
            None => None,
        },
        None => None,
    }
}

// The position behind that of an entry.
pub(crate) fn behind(entries: &Entries, at: usize) -> usize
    requires { at < length entries.now }
    ensures { result ≡ at + 1 }
{
    let end = entries.len();
    if at < end { at + 1 } else { end }
}
