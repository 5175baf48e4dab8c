// What the daemon knows of MPD.
ghost use Rattle.std.specs.Prelude.{◌≡◌};
ghost use Rattle.profile.specs.Profile.{tags_of};

use song_files::TagSet;

/// What the daemon knows of MPD. It is decided when a journal is created or opened, and stays.
#[derive(Clone, Copy, Debug, PartialEq, Eq)]
pub enum Profile {
    /// The named subset.
    Named,
    /// What clients written for MPD ask for.
    Wide,
}

impl Profile {
    /// The tags that are read, told and asked for.
    pub fn tags(self) -> TagSet
        ensures { result ≡ tags_of self }
    {
        match self {
            Profile::Named => TagSet::SIX,
            Profile::Wide => TagSet::ALL,
        }
    }
}
