// Folders that can be stopped.
ghost use Rattle.std.specs.Prelude.{[]};

use crate::stop_flag::StopFlag;
use song_files::{FileStamp, Folder, FolderEntry, FolderFault};
use std::alloc::Global;

/// A folder of which nothing more is listed or opened once the flag is set: each call fails then, so that a scan is soon over and keeps
/// the songs that it has not read.
///
/// As of the folder below it, no contract says what it holds.
#[derive(Drop)]
pub struct StoppingFolder<F> {
    files: F,
    stop: StopFlag,
}

impl<F> StoppingFolder<F> {
    pub fn new(files: F, stop: StopFlag) -> Self {
        StoppingFolder { files, stop }
    }
}

impl<F: Folder> Folder for StoppingFolder<F> {
    type File = F::File;

    ghost files = { λ _. [] };

    ghost honest = { λ _. ⊥ };

    ghost steady = { λ _. ⊥ };

    fn list(&mut self, alloc: Global, path: &str) -> Result<Option<Vec<FolderEntry>>, FolderFault> {
        if self.stop.is_set() {
            return Err(FolderFault::Source);
        }
        self.files.list(alloc, path)
    }

    fn look(&mut self, alloc: Global, path: &str) -> Result<Option<FileStamp>, FolderFault> {
        if self.stop.is_set() {
            return Err(FolderFault::Source);
        }
        self.files.look(alloc, path)
    }

    fn open(&mut self, alloc: Global, path: &str) -> Result<Option<F::File>, FolderFault> {
        if self.stop.is_set() {
            return Err(FolderFault::Source);
        }
        self.files.open(alloc, path)
    }
}
