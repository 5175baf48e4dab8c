// What a scan does at a path: it reads a song, goes into a folder, or passes by.
ghost use Rattle.std.specs.Prelude.{◌≡◌, codes};
ghost use Rattle.song_db.specs.Endings.{has_ending, is_named};
ghost use Rattle.song_db.specs.Found.{visit_of};
ghost use Rattle.song_db.specs.Name.{folders_over, is_song};

use crate::decoded::is_decoded;
use crate::limits::MAX_FOLDERS;
use crate::rules::{Endings, LibraryRules};
use crate::uri::Uri;

// What a scan does at a path.
#[derive(Debug, Drop)]
pub(crate) enum Visit {
    // It reads the song.
    File(Uri),
    // It goes into the folder.
    Folder(Uri),
    Nothing,
}

// What is done at a path that a folder lists, or at the job's own.
pub(crate) fn visit_of(rules: LibraryRules, uri: Uri, is_folder: bool) -> Visit
    ensures { result ≡ visit_of rules uri is_folder }
{
    if is_folder {
        if folders_over(uri.as_str()) < MAX_FOLDERS {
            return Visit::Folder(uri);
        }
        return Visit::Nothing;
    }
    if is_song(rules, uri.as_str()) {
        return Visit::File(uri);
    }
    Visit::Nothing
}

fn is_song(rules: LibraryRules, path: &str) -> bool
    ensures { result ≡ is_song rules path.now }
{
    is_named(rules.endings, path.as_bytes()) && folders_over(path) <= MAX_FOLDERS
}

/// Whether a path has one of these endings, in any ASCII case: of a library that takes them, the others are no songs.
pub fn is_named(endings: Endings, path: &[u8]) -> bool
    ensures { result ≡ is_named endings path.now }
{
    ends_as_wav(path)
        || endings.wave && ends_as_wave(path)
        || endings.flac && ends_as_flac(path)
        || endings.decoded && is_decoded(path)
}

fn ends_as_wav(path: &[u8]) -> bool
    ensures { result ≡ has_ending path.now (codes ".wav") }
{
    path[path.len().saturating_sub(4)..].eq_ignore_ascii_case(b".wav")
}

fn ends_as_wave(path: &[u8]) -> bool
    ensures { result ≡ has_ending path.now (codes ".wave") }
{
    path[path.len().saturating_sub(5)..].eq_ignore_ascii_case(b".wave")
}

fn ends_as_flac(path: &[u8]) -> bool
    ensures { result ≡ has_ending path.now (codes ".flac") }
{
    path[path.len().saturating_sub(5)..].eq_ignore_ascii_case(b".flac")
}

// Each slash ends the name of a folder.
fn folders_over(path: &str) -> usize
    ensures { result ≡ folders_over path.now }
{
    path.as_bytes().iter().filter(|b| **b == b'/').count()
}
