// The folder of one job, of which no more than so much is read.
ghost use Rattle.std.specs.Prelude.{◌≡◌, ◌+◌, ◌<◌, ◌≤◌, Ok, Err, Some, None, IfOk, IfSome, IsOkUnless, MatchOption};
ghost use Rattle.song_files.specs.Folder.{bytes_at, stamp_at};
ghost use Rattle.song_files.specs.Listing.{AreStamped, IsListing, IsNoFile, entries_of};

use song_files::{FileStamp, Folder, FolderEntry, FolderFault};
use std::alloc::Global;

/// How many folders a job reads at most: as many as there may be songs.
pub const MAX_LISTINGS: u32 = 65_536;

/// How many files a job opens at most.
pub const MAX_OPENINGS: u32 = 1_048_576;

/// How many folders and files a job has read so far.
#[derive(Clone, Copy, Debug, PartialEq, Eq)]
pub struct Visits {
    pub folders: u32,
    pub files: u32,
}

impl Visits {
    /// Of a job that has read nothing yet.
    pub const NONE: Visits = Visits {
        folders: 0,
        files: 0,
    };

    /// Counts a folder that is to be listed; a fault where the job has listed as many as it may.
    pub fn count_folder(&mut self) -> Result<(), FolderFault>
        ensures full { MAX_LISTINGS ≤ self.old.folders → (result ≡ Err FolderFault.Source) × (self.new ≡ self.old) }
        ensures counted { self.old.folders < MAX_LISTINGS →
            (result ≡ Ok tt) × (self.new ≡ record self.old { folders = self.old.folders + 1 }) }
    {
        if self.folders >= MAX_LISTINGS {
            return Err(FolderFault::Source);
        }
        self.folders += 1;
        Ok(())
    }

    /// Counts a file that is to be opened; a fault where the job has opened as many as it may.
    pub fn count_file(&mut self) -> Result<(), FolderFault>
        ensures full { MAX_OPENINGS ≤ self.old.files → (result ≡ Err FolderFault.Source) × (self.new ≡ self.old) }
        ensures counted { self.old.files < MAX_OPENINGS →
            (result ≡ Ok tt) × (self.new ≡ record self.old { files = self.old.files + 1 }) }
    {
        if self.files >= MAX_OPENINGS {
            return Err(FolderFault::Source);
        }
        self.files += 1;
        Ok(())
    }
}

/// The folder that one job reads. Where the job has listed as many folders as it may, each further one is a fault, and so is a file behind
/// as many as it may open: what is known there is kept. So a job ends, however often links lead from folder to folder.
#[derive(Drop)]
pub struct JobFolder<'a, F> {
    /// What is read.
    pub files: &'a mut F,
    /// What was read by this job.
    pub visits: Visits,
}

impl<F: Folder> Folder for JobFolder<'_, F> {
    type File = F::File;

    ghost files = { λ f. F.files f.files.now };

    ghost honest = { λ f. F.honest f.files.now };

    ghost steady = { λ _. ⊥ };

    fn list(&mut self, alloc: Global, path: &str) -> Result<Option<Vec<FolderEntry>>, FolderFault>
        ensures full { MAX_LISTINGS ≤ self.old.visits.folders → (result ≡ Err FolderFault.Source) × (self.new ≡ self.old) }
        ensures counted { self.old.visits.folders < MAX_LISTINGS →
            self.new.visits ≡ record self.old.visits { folders = self.old.visits.folders + 1 } }
        ensures listed { F.honest self.old.files.now →
            IfOk result (λ listing. IsListing (F.files self.old.files.now) path.now (entries_of listing)) }
        ensures stamps { F.honest self.old.files.now →
            IfOk result (λ listing. AreStamped (F.files self.old.files.now) path.now (entries_of listing)) }
        ensures no_file { F.honest self.old.files.now → IfOk result (IsNoFile (F.files self.old.files.now) path.now) }
        ensures steady { ⊥ → IsOkUnless result FolderFault.NoMemory × ⊥ }
        ensures honest { F.honest self.old.files.now → F.honest self.new.files.now }
        ensures files { F.honest self.old.files.now → F.files self.new.files.now ≡ F.files self.old.files.now }
    {
        match self.visits.count_folder() {
            Ok(()) => self.files.list(alloc, path),
            Err(fault) => Err(fault),
        }
    }

    fn look(&mut self, alloc: Global, path: &str) -> Result<Option<FileStamp>, FolderFault>
        ensures uncounted { self.new.visits ≡ self.old.visits }
        ensures stamp { F.honest self.old.files.now →
            IfOk result (λ stamp. stamp ≡ stamp_at (F.files self.old.files.now) path.now) }
        ensures steady { ⊥ → IsOkUnless result FolderFault.NoMemory × ⊥ }
        ensures honest { F.honest self.old.files.now → F.honest self.new.files.now }
        ensures files { F.honest self.old.files.now → F.files self.new.files.now ≡ F.files self.old.files.now }
    {
        self.files.look(alloc, path)
    }

    fn open(&mut self, alloc: Global, path: &str) -> Result<Option<F::File>, FolderFault>
        ensures full { MAX_OPENINGS ≤ self.old.visits.files → (result ≡ Err FolderFault.Source) × (self.new ≡ self.old) }
        ensures counted { self.old.visits.files < MAX_OPENINGS →
            self.new.visits ≡ record self.old.visits { files = self.old.visits.files + 1 } }
        ensures opened { F.honest self.old.files.now →
            IfOk result (λ file. MatchOption file (bytes_at (F.files self.old.files.now) path.now ≡ None)
            (λ source. (bytes_at (F.files self.old.files.now) path.now ≡ Some (F.File.bytes source)) × F.File.honest source)) }
        ensures unfailing { ⊥ → IfOk result (λ file. IfSome file F.File.steady) }
        ensures steady { ⊥ → IsOkUnless result FolderFault.NoMemory × ⊥ }
        ensures honest { F.honest self.old.files.now → F.honest self.new.files.now }
        ensures files { F.honest self.old.files.now → F.files self.new.files.now ≡ F.files self.old.files.now }
    {
        match self.visits.count_file() {
            Ok(()) => self.files.open(alloc, path),
            Err(fault) => Err(fault),
        }
    }
}
