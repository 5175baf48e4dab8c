/// The value of `single` and of `consume`, two options of the MPD protocol reference 0.23 ("Playback options"); `oneshot` of `consume` is
/// past 0.23.
#[derive(Clone, Copy, Debug, PartialEq, Eq, Default)]
pub enum Single {
    #[default]
    Off,
    On,
    /// As `On`, for one song: then the option is off.
    Oneshot,
}

/// The four playback options of the MPD protocol reference 0.23 ("Playback options"); all are off by default.
#[derive(Clone, Copy, Debug, PartialEq, Eq, Default)]
pub struct Options {
    /// The queue starts again after its last song.
    pub repeat: bool,
    /// Songs are played in a random order.
    pub random: bool,
    /// After a song the player stops, or under `repeat` plays the same song again. Off, it goes on with the next song.
    pub single: Single,
    /// A song that was played leaves the queue; `oneshot` is off once one has left it.
    pub consume: Single,
}
