// A place where songs are looked for: the root, or a folder.
ghost use Rattle.std.specs.Prelude.{◌≡◌, option_copied};
ghost use Rattle.song_db.specs.Place.{place_of, is_under, is_below};
ghost use Rattle.song_db.specs.Query.{folder_of};

use crate::values::folder_of;

/// Where songs are looked for: everywhere, or below a folder.
#[derive(Clone, Copy, Debug)]
pub enum Place<'a> {
    /// The root, which is over every song.
    Root,
    /// What a path names. Where it doesn't have the form of a URI, no song stands below it.
    At(&'a str),
}

impl<'a> Place<'a> {
    /// The place that a command's argument names: the empty text and `/` are the root.
    pub fn read(text: &'a str) -> Self
        ensures { result ≡ place_of text.entry }
    {
        match text {
            "" | "/" => Place::Root,
            path => Place::At(path),
        }
    }

    /// The folder directly in the place that a path of a song under it stands below; `None` where the song stands right in the place.
    pub fn folder_of(self, path: &'a str) -> Option<&'a str>
        ensures { option_copied result ≡ folder_of self.entry path.entry.now }
    {
        folder_of(self, path)
    }

    /// Whether a path stands below the place, by whole parts: `a` is over `a/b`, and neither over `ab` nor over `a`.
    pub fn is_over(self, path: &str) -> bool
        ensures { result ≡ is_under self.entry path.now }
    {
        match self {
            Place::Root => true,
            Place::At(folder) => is_below(folder.as_bytes(), path.as_bytes()),
        }
    }
}

// Whether a path begins with the folder and a slash.
pub(crate) fn is_below(folder: &[u8], path: &[u8]) -> bool
    ensures { result ≡ is_below folder.now path.now }
{
    if path.len() <= folder.len() {
        return false;
    }
    &path[..folder.len()] == folder && path[folder.len()] == b'/'
}
