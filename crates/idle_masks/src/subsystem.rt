// The subsystems, and sets of them.
ghost use Rattle.std.specs.Prelude.{◌≡◌, Some};
ghost use Rattle.idle_masks.specs.Subsystem.{name_of, subsystem_named};
ghost use Rattle.idle_masks.specs.Subsystems.{none, every, only, contains, union, intersection, difference, is_empty, mask_named};
ghost use Rattle.idle_masks.specs.Subsystems.{is_unreported_name};

/// A part of the daemon's state whose changes `idle` reports (MPD protocol reference 0.23, "Querying MPD's status"), in the order in which
/// they are printed.
#[derive(Clone, Copy, Debug, PartialEq, Eq)]
pub enum Subsystem {
    /// The song database, after an update that changed it.
    Database,
    /// A database update has started or finished.
    Update,
    /// A stored playlist was changed, made, renamed or removed.
    StoredPlaylist,
    /// The queue.
    Playlist,
    /// The player was started, stopped or seeked, or plays another song.
    Player,
    /// The volume.
    Mixer,
    /// The playback options.
    Options,
    /// The sticker database.
    Sticker,
    /// A client subscribed to a channel, or unsubscribed.
    Subscription,
    /// A message came for a client that had read all.
    Message,
}

impl Subsystem {
    /// All of them, in printed order.
    pub const ALL: [Subsystem; 10] = [
        Subsystem::Database,
        Subsystem::Update,
        Subsystem::StoredPlaylist,
        Subsystem::Playlist,
        Subsystem::Player,
        Subsystem::Mixer,
        Subsystem::Options,
        Subsystem::Sticker,
        Subsystem::Subscription,
        Subsystem::Message,
    ];

    /// The name in `idle` and after `changed: `.
    pub fn name(self) -> &'static str
        ensures { result.now ≡ name_of self }
    {
        match self {
            Subsystem::Database => "database",
            Subsystem::Update => "update",
            Subsystem::StoredPlaylist => "stored_playlist",
            Subsystem::Playlist => "playlist",
            Subsystem::Player => "player",
            Subsystem::Mixer => "mixer",
            Subsystem::Options => "options",
            Subsystem::Sticker => "sticker",
            Subsystem::Subscription => "subscription",
            Subsystem::Message => "message",
        }
    }

    /// The subsystem of that name, if there is one.
    pub fn named(word: &[u8]) -> Option<Subsystem>
        ensures { result ≡ subsystem_named word.now }
    {
        Subsystem::ALL
            .iter()
            .copied()
            .find(|s| s.name().as_bytes() == word)
    }
}

/// A set of subsystems.
#[derive(Clone, Copy, Debug, PartialEq, Eq, Default)]
pub struct Subsystems {
    pub database: bool,
    pub update: bool,
    pub stored_playlist: bool,
    pub playlist: bool,
    pub player: bool,
    pub mixer: bool,
    pub options: bool,
    pub sticker: bool,
    pub subscription: bool,
    pub message: bool,
}

impl Subsystems {
    /// The empty set.
    pub fn none() -> Self
        ensures { result ≡ none }
    {
        Subsystems {
            database: false,
            update: false,
            stored_playlist: false,
            playlist: false,
            player: false,
            mixer: false,
            options: false,
            sticker: false,
            subscription: false,
            message: false,
        }
    }

    /// The set of all ten, as `idle` without a name asks for.
    pub fn all() -> Self
        ensures { result ≡ every }
    {
        Subsystems {
            database: true,
            update: true,
            stored_playlist: true,
            playlist: true,
            player: true,
            mixer: true,
            options: true,
            sticker: true,
            subscription: true,
            message: true,
        }
    }

    /// The set of this one.
    pub fn only(subsystem: Subsystem) -> Self
        ensures { result ≡ only subsystem }
    {
        let mut set = Subsystems::none();
        match subsystem {
            Subsystem::Database => set.database = true,
            Subsystem::Update => set.update = true,
            Subsystem::StoredPlaylist => set.stored_playlist = true,
            Subsystem::Playlist => set.playlist = true,
            Subsystem::Player => set.player = true,
            Subsystem::Mixer => set.mixer = true,
            Subsystem::Options => set.options = true,
            Subsystem::Sticker => set.sticker = true,
            Subsystem::Subscription => set.subscription = true,
            Subsystem::Message => set.message = true,
        }
        set
    }

    /// What a word of `idle` asks for: its subsystem, or nothing for `output`, `partition`, `neighbor` and `mount`, which
    /// `idle` takes and which are never reported. `None` for any other word.
    pub fn named(word: &[u8]) -> Option<Self>
        ensures { result ≡ mask_named word.now }
    {
        if is_unreported_name(word) {
            return Some(Subsystems::none());
        }
        match Subsystem::named(word) {
            Some(subsystem) => Some(Subsystems::only(subsystem)),
            None => None,
        }
    }

    pub fn contains(self, subsystem: Subsystem) -> bool
        ensures { result ≡ contains self subsystem }
    {
        match subsystem {
            Subsystem::Database => self.database,
            Subsystem::Update => self.update,
            Subsystem::StoredPlaylist => self.stored_playlist,
            Subsystem::Playlist => self.playlist,
            Subsystem::Player => self.player,
            Subsystem::Mixer => self.mixer,
            Subsystem::Options => self.options,
            Subsystem::Sticker => self.sticker,
            Subsystem::Subscription => self.subscription,
            Subsystem::Message => self.message,
        }
    }

    pub fn is_empty(self) -> bool
        ensures { result ≡ is_empty self }
    {
        !(self.database
            || self.update
            || self.stored_playlist
            || self.playlist
            || self.player
            || self.mixer
            || self.options
            || self.sticker
            || self.subscription
            || self.message)
    }

    /// What either set has.
    pub fn union(self, other: Self) -> Self
        ensures { result ≡ union self other }
    {
        Subsystems {
            database: self.database | other.database,
            update: self.update | other.update,
            stored_playlist: self.stored_playlist | other.stored_playlist,
            playlist: self.playlist | other.playlist,
            player: self.player | other.player,
            mixer: self.mixer | other.mixer,
            options: self.options | other.options,
            sticker: self.sticker | other.sticker,
            subscription: self.subscription | other.subscription,
            message: self.message | other.message,
        }
    }

    /// What both sets have.
    pub fn intersection(self, other: Self) -> Self
        ensures { result ≡ intersection self other }
    {
        Subsystems {
            database: self.database & other.database,
            update: self.update & other.update,
            stored_playlist: self.stored_playlist & other.stored_playlist,
            playlist: self.playlist & other.playlist,
            player: self.player & other.player,
            mixer: self.mixer & other.mixer,
            options: self.options & other.options,
            sticker: self.sticker & other.sticker,
            subscription: self.subscription & other.subscription,
            message: self.message & other.message,
        }
    }

    /// What this set has and the other has not.
    pub fn difference(self, other: Self) -> Self
        ensures { result ≡ difference self other }
    {
        Subsystems {
            database: self.database & !other.database,
            update: self.update & !other.update,
            stored_playlist: self.stored_playlist & !other.stored_playlist,
            playlist: self.playlist & !other.playlist,
            player: self.player & !other.player,
            mixer: self.mixer & !other.mixer,
            options: self.options & !other.options,
            sticker: self.sticker & !other.sticker,
            subscription: self.subscription & !other.subscription,
            message: self.message & !other.message,
        }
    }
}

// Whether the word is one of the further names, which `idle` takes and never reports.
fn is_unreported_name(word: &[u8]) -> bool
    ensures { result ≡ is_unreported_name word.now }
{
    let is = |name: &str| name.as_bytes() == word;
    is("output") || is("partition") || is("neighbor") || is("mount")
}
