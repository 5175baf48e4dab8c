// Which file of a folder is the album's picture.
ghost use Rattle.std.specs.Prelude.{◌≡◌, option_copied};
ghost use Rattle.std.specs.List.{find};
ghost use Rattle.std.specs.Str.{str_eq_ignore_ascii_case};
ghost use Rattle.covers.specs.AlbumNames.{album_names, album_picture, first_named, is_named, is_named_like, names_of};

use song_files::FolderEntry;

// The names that it may have, the first in front.
const ALBUM_NAMES: &[&str] = &[
    "cover.png",
    "cover.jpg",
    "cover.webp",
    "cover.jpeg",
    "cover.gif",
    "folder.png",
    "folder.jpg",
    "folder.webp",
    "folder.jpeg",
    "folder.gif",
    "front.png",
    "front.jpg",
    "front.webp",
    "front.jpeg",
    "front.gif",
];

fn album_names() -> &'static [&'static str]
    ensures { names_of result.now ≡ album_names }
{
    ALBUM_NAMES
}

// Whether two texts are the same but for the case of ASCII's letters.
fn is_like(text: &str, name: &str) -> bool
    ensures { result ≡ str_eq_ignore_ascii_case text.now name.now }
{
    text.eq_ignore_ascii_case(name)
}

// Whether it is a file with this name.
fn is_named(name: &str, entry: &FolderEntry) -> bool
    ensures { result ≡ is_named name.now entry.now }
{
    !entry.is_folder && entry.name.as_str() == name
}

// Whether it is one with this name but for the case of its letters.
fn is_named_like(name: &str, entry: &FolderEntry) -> bool
    ensures { result ≡ is_named_like name.now entry.now }
{
    !entry.is_folder && is_like(entry.name.as_str(), name)
}

// The first file with this name.
fn named<'e>(entries: &'e [FolderEntry], name: &str) -> Option<&'e FolderEntry>
    ensures { option_copied result ≡ find (is_named name.now) entries.now }
{
    for entry in entries {
        if is_named(name, entry) {
            return Some(entry);
        }
    }
    None
}

// The first with this name but for the case of its letters.
fn named_like<'e>(entries: &'e [FolderEntry], name: &str) -> Option<&'e FolderEntry>
    ensures { option_copied result ≡ find (is_named_like name.now) entries.now }
{
    for entry in entries {
        if is_named_like(name, entry) {
            return Some(entry);
        }
    }
    None
}

// The first file with the first of the names for which there is one.
fn first_named(entries: &[FolderEntry]) -> Option<&FolderEntry>
    ensures { option_copied result ≡ first_named is_named entries.now album_names }
{
    for name in album_names() {
        let found = named(entries, name);
        if found.is_some() {
            return found;
        }
    }
    None
}

// The same, whatever the case of the letters.
fn first_named_like(entries: &[FolderEntry]) -> Option<&FolderEntry>
    ensures { option_copied result ≡ first_named is_named_like entries.now album_names }
{
    for name in album_names() {
        let found = named_like(entries, name);
        if found.is_some() {
            return found;
        }
    }
    None
}

/// Which of what stands in a folder is the picture of the songs in it: `cover`, else `folder`, else `front`, of each the endings `.png`,
/// `.jpg`, `.webp`, `.jpeg`, `.gif` in this order; names in small letters come before all others. Of names that differ by the case of
/// their letters alone the first in the listing counts.
pub fn album_picture(entries: &[FolderEntry]) -> Option<&FolderEntry>
    ensures { option_copied result ≡ album_picture entries.now }
{
    match first_named(entries) {
        Some(entry) => Some(entry),
        None => first_named_like(entries),
    }
}
