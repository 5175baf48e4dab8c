// A folder that fails on purpose, for tests.
ghost use Rattle.std.specs.Prelude.{List};
ghost use Rattle.song_files.specs.Folder.{File};

use crate::{FileStamp, Folder, FolderEntry, FolderFault};
use std::alloc::Global;

/// A folder of which one call fails: the one after `calls_before` others.
#[derive(Debug, Drop)]
pub struct FaultyFolder<F: Folder + Drop> {
    pub folder: F,
    pub calls_before: u64,
    /// How many calls there were.
    pub calls: u64,
}

impl<F: Folder + Drop> Folder for FaultyFolder<F> {
    type File = F::File;

    ghost files = { λ f. F.files f.folder };

    ghost honest = { λ f. F.honest f.folder };

    ghost steady = { λ _. ⊥ };

    fn list(&mut self, alloc: Global, path: &str) -> Result<Option<Vec<FolderEntry>>, FolderFault> {
        let now = self.calls == self.calls_before;
        self.calls = self.calls.saturating_add(1);
        if now {
            return Err(FolderFault::Source);
        }
        self.folder.list(alloc, path)
    }

    fn look(&mut self, alloc: Global, path: &str) -> Result<Option<FileStamp>, FolderFault> {
        let now = self.calls == self.calls_before;
        self.calls = self.calls.saturating_add(1);
        if now {
            return Err(FolderFault::Source);
        }
        self.folder.look(alloc, path)
    }

    fn open(&mut self, alloc: Global, path: &str) -> Result<Option<F::File>, FolderFault> {
        let now = self.calls == self.calls_before;
        self.calls = self.calls.saturating_add(1);
        if now {
            return Err(FolderFault::Source);
        }
        self.folder.open(alloc, path)
    }
}
