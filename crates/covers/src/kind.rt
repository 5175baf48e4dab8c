// Which picture of a song is meant.
ghost use Rattle.std.specs.Prelude.{◌≡◌};
ghost use Rattle.covers.specs.Asked.{same_kind};

/// Which picture of a song is meant.
#[derive(Clone, Copy, Debug, PartialEq, Eq)]
pub enum PictureKind {
    /// That of its album, a file in its folder.
    Album,
    /// The one inside its file.
    Inside,
}

impl PictureKind {
    /// Whether both mean the same one.
    pub fn is(self, other: PictureKind) -> bool
        ensures { result ≡ same_kind self other }
    {
        match (self, other) {
            (PictureKind::Album, PictureKind::Album) | (PictureKind::Inside, PictureKind::Inside) =>
                true,
            _ => false,
        }
    }
}
