// Changes of the playback options.
use player_core::Single;

/// A playback option with the value that it is set to.
#[derive(Clone, Copy, Debug, PartialEq, Eq)]
pub enum Setting {
    Repeat(bool),
    Random(bool),
    Single(Single),
    Consume(Single),
}
