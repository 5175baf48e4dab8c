// Names that a listing had as files.
ghost use Rattle.std.specs.Prelude.{◌≡◌, ℕ, List, false, string_bytes, IfOk};
ghost use Rattle.std.specs.HashSet.{contains_text};
ghost use Rattle.std.specs.List.{list_any};
ghost use Rattle.std.specs.Option.{option_map_or};
ghost use Rattle.song_files.specs.Listing.{behind, is_entry};

use crate::FolderEntry;
use crate::memory_folder::rest_below;
use std::alloc::{AllocError, Global};
use std::collections::HashSet;

/// The files right in a folder, as a listing told them.
#[derive(Drop)]
pub(crate) struct KnownFiles {
    folder: String,
    names: HashSet<String>,
}

impl KnownFiles {
    /// Those among the entries of a folder.
    pub(crate) fn of(
        alloc: Global,
        folder: &str,
        entries: &[FolderEntry],
    ) -> Result<Self, AllocError>
        ensures folder { IfOk result (λ known. string_bytes known.folder ≡ folder.now) }
        ensures names { IfOk result (λ k. (name : List ℕ) → contains_text k.names name ≡ list_any (is_entry name false) entries.now) }
    {
        let folder = String::from_str(alloc, folder)?;
        let mut names = HashSet::with_capacity(alloc, entries.len())?;
        for entry in entries {
            if !entry.is_folder {
                names.insert(entry.name.clone()?)?;
            }
        }
        Ok(KnownFiles { folder, names })
    }

    /// Whether a path is that of one of them.
    pub(crate) fn has(&self, path: &str) -> bool
        ensures { result ≡ option_map_or (contains_text self.now.names) (behind (string_bytes self.now.folder) path.now) false }
    {
        match rest_below(self.folder.as_str(), path) {
            Some(name) => self.names.contains(name),
            None => false,
        }
    }
}
