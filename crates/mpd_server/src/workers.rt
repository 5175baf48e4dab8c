// What a daemon's threads work on besides its journal.
use song_db::LibraryRules;
use song_output::SoundOutput;

/// Ends what the workers wait for.
pub trait Stop {
    /// From now on each call of the output and of the folders returns soon, by a fault where it would wait.
    fn stop(&self);

    /// From now on they work again: a further life begins.
    fn resume(&self);
}

/// For an output and folders that never wait.
#[derive(Clone, Copy, Debug)]
pub struct NothingWaits;

impl Stop for NothingWaits {
    fn stop(&self) {}

    fn resume(&self) {}
}

/// What becomes of the player at the beginning of a life, and how often its place is kept as it plays.
#[derive(Clone, Copy, Debug)]
pub struct Resuming {
    /// Whether it goes on from where it was kept; a song that played then plays on, or is paused.
    pub plays: Option<bool>,
    /// The place is kept each so many seconds of play, never where that is 0.
    pub place_every: u32,
}

impl Resuming {
    /// It stays stopped, and its place is kept by what changes it alone.
    pub const NEVER: Resuming = Resuming {
        plays: None,
        place_every: 0,
    };
}

/// What the threads of the player, of the scan and of the pictures work on.
#[derive(Drop)]
pub struct Workers<F, G, W, H, K> {
    /// The songs that the player reads.
    pub sources: F,
    /// The songs that the scan reads.
    pub folder: G,
    /// The songs and albums whose pictures are read, under the wide profile; without them none is.
    pub pictures: Option<G>,
    /// By which rules it finds and reads them.
    pub rules: LibraryRules,
    /// Where the sound goes, and in which form.
    pub output: SoundOutput<W>,
    /// How the player goes on.
    pub resuming: Resuming,
    /// What ends the waits of these.
    pub stop: H,
    /// What ends a wait of the loop, behind each report.
    pub wake: K,
}

// What the threads take with them, and hand back at their end.
#[derive(Drop)]
pub(crate) struct Tools<F, G, W> {
    pub(crate) sources: F,
    pub(crate) folder: G,
    pub(crate) pictures: Option<G>,
    pub(crate) output: SoundOutput<W>,
}

// What stays in the thread of the loop: what ends waits, of the threads and of the loop, the rules that jobs are given, and
// how the player goes on.
#[derive(Drop)]
pub(crate) struct Signals<H, K> {
    pub(crate) rules: LibraryRules,
    pub(crate) resuming: Resuming,
    pub(crate) stop: H,
    pub(crate) wake: K,
}

impl<F, G, W, H, K> Workers<F, G, W, H, K> {
    // What the threads take with them, and what stays in the thread of the loop.
    pub(crate) fn divided(self) -> (Tools<F, G, W>, Signals<H, K>) {
        let Workers {
            sources,
            folder,
            pictures,
            rules,
            output,
            resuming,
            stop,
            wake,
        } = self;
        (
            Tools {
                sources,
                folder,
                pictures,
                output,
            },
            Signals {
                rules,
                resuming,
                stop,
                wake,
            },
        )
    }
}
