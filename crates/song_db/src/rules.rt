// What a library takes for its songs.
ghost use Rattle.std.specs.Prelude.{◌≡◌};
ghost use Rattle.song_db.specs.Rules.{rules_of};

use profile::Profile;
use song_files::TagSet;
use song_head::ReadingRules;

/// Which endings the names of songs have beside `.wav`, in any ASCII case.
#[derive(Clone, Copy, Debug, PartialEq, Eq)]
pub struct Endings {
    /// `.wave`, too.
    pub wave: bool,
    /// `.flac`, too.
    pub flac: bool,
    /// Those of the files that a decoder beside the daemon reads, too.
    pub decoded: bool,
}

impl Endings {
    /// `.wav` alone.
    pub const WAV: Endings = Endings {
        wave: false,
        flac: false,
        decoded: false,
    };
}

/// What a library takes for its songs: which files they are, and what is read of them.
#[derive(Clone, Copy, Debug, PartialEq, Eq)]
pub struct LibraryRules {
    pub endings: Endings,
    pub reading: ReadingRules,
    /// Whether a row has the stamp of its file, so that a scan passes by the files that haven't changed.
    pub keeps_stamps: bool,
}

impl LibraryRules {
    /// The files whose names end in `.wav`; of them title, artist, album, date, genre and comment in their list INFO. Without stamps.
    pub const NAMED: LibraryRules = LibraryRules {
        endings: Endings::WAV,
        reading: ReadingRules::NAMED,
        keeps_stamps: false,
    };

    /// The files whose names end in `.wav`; of them all tags, those of the chunk `id3 ` too. With stamps.
    pub const WIDE: LibraryRules = LibraryRules {
        endings: Endings::WAV,
        reading: ReadingRules {
            tags: TagSet::ALL,
            id3: true,
            several: true,
        },
        keeps_stamps: true,
    };

    /// The rules of a profile.
    pub fn of(profile: Profile) -> LibraryRules
        ensures { result ≡ rules_of profile }
    {
        match profile {
            Profile::Named => LibraryRules::NAMED,
            Profile::Wide => LibraryRules::WIDE,
        }
    }
}
