// Changes of what is kept of the player.
use player_core::PlayState;

/// A change of what is kept of the player. Under the named profile, which keeps nothing of it, it is refused, as a row without a place.
#[derive(Clone, Copy, Debug, PartialEq, Eq)]
pub enum PlaceOp {
    /// The player is here: the id of the current entry, 0 for none, and the position in frames.
    Put {
        state: PlayState,
        song: u32,
        frame: u64,
    },
    /// The song of this id was started: it is the last one of the random round.
    Played(u32),
    /// A random round begins.
    Begins,
    /// The id leaves the random round.
    Leaves(u32),
}
