// The names that playlists may have.
ghost use Rattle.std.specs.Prelude.{◌≡◌, ◌==◌, IfOk, Some, None, if◌then◌else◌};
ghost use Rattle.std.specs.List.{list_any};
ghost use Rattle.stored_lists.specs.Name.{is_good_name, IsListName};

use crate::limits::MAX_NAME_BYTES;
use song_files::has_control;
use std::alloc::{AllocError, Global};
use std::marker::Model;

/// Whether a playlist may have the name: 1 to 256 bytes of UTF-8, no `/` and no control character (Unicode's category Cc).
pub fn is_good_name(name: &str) -> bool
    ensures { result ≡ is_good_name name.now }
{
    !name.is_empty() && name.len() <= MAX_NAME_BYTES && !has_slash(name) && !has_control(name)
}

fn has_slash(text: &str) -> bool
    ensures { result ≡ list_any (λ b. b == 47) text.now }
{
    text.bytes().any(|b| b == b'/')
}

/// A name that a playlist may have. Contracts see its bytes.
#[derive(Debug, Drop)]
pub struct ListName {
    text: String,
}

impl Model for ListName {
    ghost use Rattle.std.specs.Prelude.{ℕ, List, string_bytes};
    ghost use Rattle.stored_lists.specs.Name.{IsListName};

    ghost Value = { List ℕ };

    ghost view = { λ n. string_bytes n.text };

    ghost invariant = { λ n. IsListName (string_bytes n.text) };
}

impl ListName {
    /// A name in memory of its own; `None` where no playlist may have it.
    pub fn read(alloc: Global, name: &str) -> Result<Option<ListName>, AllocError>
        ensures { IfOk result (λ made. made ≡ (if is_good_name name.now then Some name.now else None)) }
    {
        if !is_good_name(name) {
            return Ok(None);
        }
        let text = String::from_str(alloc, name)?;
        Ok(Some(ListName { text }))
    }

    pub fn as_str(&self) -> &str
        ensures text { result.now ≡ self.now }
        ensures form { IsListName self.now }
    {
        self.text.as_str()
    }

    /// The same name once more, in memory of its own.
    pub fn try_clone(&self, alloc: Global) -> Result<ListName, AllocError>
        ensures { IfOk result (λ name. name ≡ self.now) }
    {
        Ok(ListName {
            text: String::from_str(alloc, self.text.as_str())?,
        })
    }
}
