// The form of a URI, and a URI in memory of its own.
ghost use Rattle.std.specs.Prelude.{◌≡◌, IfOk, IsTrue, Some, None, if◌then◌else◌, string_bytes};
ghost use Rattle.std.specs.List.{list_all};
ghost use Rattle.std.specs.Ordering.{nat_cmp};
ghost use Rattle.std.specs.Cmp.Lexicographic.{slice_cmp};
ghost use Rattle.song_db.specs.Uri.{parts, is_good_part, is_uri};

use crate::limits::MAX_URI_BYTES;
use song_files::has_control;
use std::alloc::{AllocError, Global};
use std::cmp::Ordering;
use std::marker::Model;

/// The name of a song, or of a folder that songs stand in: a path from the root of the music, with slashes between its parts.
///
/// It has 1 to 1,024 bytes of UTF-8, no control character (Unicode's category Cc), and no part that is empty, `.` or
/// `..`. Contracts see its bytes.
#[derive(Debug, Drop)]
pub struct Uri {
    text: String,
}

impl Model for Uri {
    ghost use Rattle.std.specs.Prelude.{ℕ, List, IsTrue, string_bytes};
    ghost use Rattle.song_db.specs.Uri.{is_uri};

    ghost Value = { List ℕ };

    ghost view = { λ u. string_bytes u.text };

    ghost invariant = { λ u. IsTrue (is_uri (string_bytes u.text)) };
}

impl Uri {
    /// The URI of a text; `None` where the text doesn't have the form of one.
    pub fn read(alloc: Global, text: &str) -> Result<Option<Uri>, AllocError>
        ensures { IfOk result (λ uri. uri ≡ (if is_uri text.now then Some text.now else None)) }
    {
        if !is_uri(text) {
            return Ok(None);
        }
        let text = String::from_str(alloc, text)?;
        Ok(Some(Uri { text }))
    }

    // The URI of a text, in the text's own memory.
    pub(crate) fn from_string(text: String) -> Option<Uri>
        ensures { result ≡ (if is_uri (string_bytes text) then Some (string_bytes text) else None) }
    {
        if !is_uri(text.as_str()) {
            return None;
        }
        Some(Uri { text })
    }

    pub fn as_str(&self) -> &str
        ensures text { result.now ≡ self.now }
        ensures form { IsTrue (is_uri self.now) }
    {
        self.text.as_str()
    }

    /// The same URI once more, in memory of its own.
    pub fn try_clone(&self, alloc: Global) -> Result<Uri, AllocError>
        ensures { IfOk result (λ uri. uri ≡ self.now) }
    {
        Ok(Uri {
            text: String::from_str(alloc, self.text.as_str())?,
        })
    }

    /// Its place among texts, by their bytes.
    pub fn compare(&self, text: &str) -> Ordering
        ensures { result ≡ slice_cmp nat_cmp self.now text.now }
    {
        self.text.as_str().cmp(text)
    }
}

/// Whether a text has the form of a URI.
pub fn is_uri(text: &str) -> bool
    ensures { result ≡ is_uri text.now }
{
    text.len() <= MAX_URI_BYTES && !has_control(text) && has_good_parts(text)
}

fn has_good_parts(path: &str) -> bool
    ensures { result ≡ list_all is_good_part (parts path.now) }
{
    path.split('/').all(|part| is_good_part(part.as_bytes()))
}

// Whether a part names something below its folder.
fn is_good_part(part: &[u8]) -> bool
    ensures { result ≡ is_good_part part.now }
{
    !part.is_empty() && part != b".".as_slice() && part != b"..".as_slice()
}
