/// How the player goes on where the named subset of the MPD protocol and MPD 0.23.12 differ.
#[derive(Clone, Copy, Debug, PartialEq, Eq, Default)]
pub enum Manners {
    /// As the named subset has it.
    #[default]
    Named,
    /// As MPD has it. A song that can't be read while it plays is passed by. Behind a song that ends under `single`, the next one is
    /// paused at its first frame; with `repeat` too, the same song plays again, or under `consume` the next one. Where the current song
    /// leaves the queue in pause, the next song that stays is current then, in stop. What is shown as the next song goes by the order of
    /// songs.
    Mpd,
}
