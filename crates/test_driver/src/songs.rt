//! The files of the present folder, and an output, whose calls go past a worker's stand.
ghost use Rattle.std.specs.Prelude.{[]};

use crate::stand::{Passage, Place, Stand};
use song_files::{
    FileFolder, FileSource, FileStamp, Folder, FolderEntry, FolderFault, Source, SourceFault,
};
use song_output::{GatedFolder, GatedSource, OpenSong, SoundOutput};
use stage_workers::ScanFolder;
use std::alloc::Global;
use std::io::{self, ErrorKind, Write};
use std::sync::Wait;

#[derive(Drop)]
pub struct Song<'s, R> {
    source: FileSource,
    stand: &'s Stand<'s, R>,
}

impl<R: Wait> Source for Song<'_, R> {
    ghost bytes = { λ _. [] };

    ghost honest = { λ _. ⊥ };

    ghost faults = { λ _. 0 };

    ghost steady = { λ _. ⊥ };

    ghost none_failed = { λ source steady. absurd steady };

    fn len(&self) -> u64 {
        self.source.len()
    }

    fn read_at(&mut self, at: u64, buffer: &mut [u8]) -> Result<usize, SourceFault> {
        match self.stand.pass(Place::Read) {
            Passage::Fails => Err(SourceFault),
            Passage::Empty => Ok(0),
            _ => self.source.read_at(at, buffer),
        }
    }
}

#[derive(Drop)]
pub struct Songs<'s, R> {
    folder: FileFolder<'s>,
    stand: &'s Stand<'s, R>,
}

impl<'s, R: Wait> Folder for Songs<'s, R> {
    type File = Song<'s, R>;

    ghost files = { λ _. [] };

    ghost honest = { λ _. ⊥ };

    ghost steady = { λ _. ⊥ };

    fn list(&mut self, alloc: Global, path: &str) -> Result<Option<Vec<FolderEntry>>, FolderFault> {
        match self.stand.pass(Place::List) {
            Passage::Fails => Err(FolderFault::Source),
            Passage::Empty => Ok(None),
            _ => self.folder.list(alloc, path),
        }
    }

    fn look(&mut self, alloc: Global, path: &str) -> Result<Option<FileStamp>, FolderFault> {
        self.folder.look(alloc, path)
    }

    fn open(&mut self, alloc: Global, path: &str) -> Result<Option<Self::File>, FolderFault> {
        match self.stand.pass(Place::Open) {
            Passage::Fails => return Err(FolderFault::Source),
            Passage::Empty => return Ok(None),
            _ => {}
        }
        match self.folder.open(alloc, path)? {
            Some(source) => Ok(Some(Song {
                source,
                stand: self.stand,
            })),
            None => Ok(None),
        }
    }
}

impl<R: Wait> ScanFolder for Songs<'_, R> {}

/// The folder of a worker, whose gate is its stand.
pub type Music<'s, R> = GatedFolder<'s, Songs<'s, R>, Stand<'s, R>>;

/// The song that stays open between two orders.
pub type OpenMusic<'s, R> = OpenSong<GatedSource<'s, Song<'s, R>, Stand<'s, R>>>;

pub fn music<'s, R: Wait>(
    host: &'s HostRuntime,
    alloc: Global,
    stand: &'s Stand<'s, R>,
) -> Music<'s, R> {
    GatedFolder {
        folder: Songs {
            folder: FileFolder::new(host, String::new(alloc)),
            stand,
        },
        gate: stand,
    }
}

#[derive(Drop)]
pub struct Output<'s, R> {
    stand: &'s Stand<'s, R>,
}

impl<R: Wait> Write for Output<'_, R> {
    fn write(&mut self, buf: &[u8]) -> io::Result<usize> {
        match self.stand.pass(Place::Write) {
            Passage::Fails => Err(ErrorKind::Other.into()),
            Passage::Empty => Ok(0),
            _ => Ok(self.stand.take(buf).min(buf.len())),
        }
    }

    fn flush(&mut self) -> io::Result<()> {
        Ok(())
    }
}

/// The output of a worker, in the form that its stand tells.
pub fn output_of<'s, R: Wait>(stand: &'s Stand<'s, R>) -> SoundOutput<Output<'s, R>> {
    SoundOutput {
        writer: Output { stand },
        form: stand.form(),
    }
}
