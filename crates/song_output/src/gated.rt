// Files whose reads a gate is told of.
use crate::gate::{Gate, Point};
use song_files::{FileStamp, Folder, FolderEntry, FolderFault, Source, SourceFault};
use std::alloc::Global;

/// A file of whose reads a gate is told, before each and after it. It is what the file is: as honest, and as steady.
#[derive(Drop)]
pub struct GatedSource<'g, S, G> {
    pub source: S,
    pub gate: &'g G,
}

impl<'g, S: Source, G: Gate> Source for GatedSource<'g, S, G> {
    ghost bytes = { λ s. S.bytes s.source };

    ghost honest = { λ s. S.honest s.source };

    ghost faults = { λ s. S.faults s.source };

    ghost steady = { λ s. S.steady s.source };

    ghost none_failed = { λ s steady. S.none_failed s.source steady };

    fn len(&self) -> u64 {
        self.source.len()
    }

    fn read_at(&mut self, at: u64, buffer: &mut [u8]) -> Result<usize, SourceFault> {
        self.gate.at(Point::BeforeRead);
        let read = self.source.read_at(at, buffer);
        self.gate.at(Point::AfterRead);
        read
    }
}

/// A folder whose files tell a gate of their reads; listings, looks and openings are not told. It is what the folder is: as
/// honest, and as steady.
#[derive(Drop)]
pub struct GatedFolder<'g, F, G> {
    pub folder: F,
    pub gate: &'g G,
}

impl<'g, F: Folder, G: Gate> Folder for GatedFolder<'g, F, G> {
    type File = GatedSource<'g, F::File, G>;

    ghost files = { λ f. F.files f.folder };

    ghost honest = { λ f. F.honest f.folder };

    ghost steady = { λ f. F.steady f.folder };

    fn list(&mut self, alloc: Global, path: &str) -> Result<Option<Vec<FolderEntry>>, FolderFault> {
        self.folder.list(alloc, path)
    }

    fn look(&mut self, alloc: Global, path: &str) -> Result<Option<FileStamp>, FolderFault> {
        self.folder.look(alloc, path)
    }

    fn open(&mut self, alloc: Global, path: &str) -> Result<Option<Self::File>, FolderFault> {
        match self.folder.open(alloc, path) {
            Ok(Some(source)) => Ok(Some(GatedSource {
                source,
                gate: self.gate,
            })),
            Ok(None) => Ok(None),
            Err(fault) => Err(fault),
        }
    }
}
