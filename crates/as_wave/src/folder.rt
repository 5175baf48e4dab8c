// A folder whose files are what they stand for.
ghost use Rattle.as_wave.specs.Forms.{waves_of, ArePlain};

use crate::{Forms, WaveSource};
use song_files::{FileStamp, Folder, FolderEntry, FolderFault};
use std::alloc::Global;
use wave_pcm::WaveError;

/// A folder with the same paths, whose file at a path is the WAVE file of 16-bit PCM that the file there stands for.
#[derive(Drop)]
pub struct AsWave<F> {
    pub folder: F,
    pub forms: Forms,
}

impl<F: Folder> Folder for AsWave<F> {
    type File = WaveSource<F::File>;

    ghost files = { λ f. waves_of f.forms (F.files f.folder) };

    ghost honest = { λ f. F.honest f.folder };

    ghost steady = { λ f. F.steady f.folder × F.honest f.folder × ArePlain f.forms (F.files f.folder) };

    fn list(&mut self, alloc: Global, path: &str) -> Result<Option<Vec<FolderEntry>>, FolderFault> {
        self.folder.list(alloc, path)
    }

    fn look(&mut self, alloc: Global, path: &str) -> Result<Option<FileStamp>, FolderFault> {
        self.folder.look(alloc, path)
    }

    fn open(&mut self, alloc: Global, path: &str) -> Result<Option<Self::File>, FolderFault> {
        let Some(source) = self.folder.open(alloc, path)? else {
            return Ok(None);
        };
        match WaveSource::new(alloc, source, self.forms) {
            Ok(file) => Ok(Some(file)),
            Err(WaveError::NoMemory) => Err(FolderFault::NoMemory),
            Err(_) => Err(FolderFault::Source),
        }
    }
}
