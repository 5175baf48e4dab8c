// The reading of a scan: batch after batch, from the listings on the present path.
ghost use Rattle.std.specs.Prelude.{◌≡◌, ◌↔◌, ℕ, ◌+◌, ◌<◌, ◌≤◌, true, false, List, [], ◌∷◌, ◌++◌, length, vec_len, vec_capacity, Err};
ghost use Rattle.std.specs.Prelude.{IfOk, OnOk, IsOkUnless, IsTrue};
ghost use Rattle.song_db.specs.Batch.{IsBatch, IsRead, after_listing, after_own, visit_after};
ghost use Rattle.song_db.specs.Found.{IsVisitIn, IsVisitTold, visited};
ghost use Rattle.song_db.specs.Pending.{AreEntriesTold, AreTold, listed_pending, own_pending, own_prefix, still_pending, times_pending};
ghost use Rattle.song_db.specs.Music.{music_of};
ghost use Rattle.song_db.specs.Reader.{IsFilled, IsReadOn, IsSameOrderRead, IsSameScan};
ghost use Rattle.song_db.specs.SameFolder.{IsSameFolder};
ghost use Rattle.song_db.specs.Scan.{is_in, IsHonestRead, IsWholeRead};
ghost use Rattle.song_files.specs.Folder.{File};
ghost use Rattle.song_files.specs.Listing.{entries_of};

use crate::change::RowChange;
use crate::limits::MAX_CHANGES;
use crate::refusal::SongDbError;
use crate::scan::droppable::Droppable;
use crate::scan::found::{found_at, settle};
use crate::scan::visit::{Visit, visit_of};
use crate::scan::walk::{FolderWalk, prefix_of};
use crate::uri::Uri;
use song_files::{FileStamp, Folder, FolderEntry, FolderFault};
use std::alloc::Global;

// What a scan has still to read, and what it may still drop.
#[derive(Debug, Drop)]
pub(crate) struct Reader {
    pub(crate) walk: FolderWalk,
    pub(crate) droppable: Droppable,
    // Whether the job's own folder or song was looked at.
    pub(crate) is_begun: bool,
}

impl Reader {
    // Nothing is still to be read, and nothing may be dropped any more.
    pub(crate) fn is_at_end(&mut self) -> bool
        ensures same { self.new ≡ self.old }
        ensures end { IsTrue result
            ↔ ((self.old.is_begun ≡ true) × (self.old.walk.pending ≡ []) × (self.old.droppable.left ≡ [])) }
    {
        self.is_begun && self.walk.is_at_end() && self.droppable.is_at_end()
    }

    // The changes of a batch; none at the end, and fewer than a batch may have right before it.
    pub(crate) fn batch<F: Folder>(
        &mut self,
        alloc: Global,
        folder: &mut F,
    ) -> Result<Vec<RowChange>, SongDbError>
        requires { self.old.is_begun ≡ false → self.old.walk.pending ≡ [] }
        ensures order { IsSameOrderRead self.old self.new }
        ensures few { IfOk result (λ changes. length changes.items ≤ MAX_CHANGES) }
        ensures read { IfOk result (λ changes. IsRead self.old.walk.rules self.old.walk.place self.old.droppable.left
            self.new.droppable.left changes.items) }
        ensures last { IfOk result (λ changes. length changes.items < MAX_CHANGES →
            (self.new.walk.pending ≡ []) × (self.new.droppable.left ≡ [])) }
        ensures begun { IfOk result (λ changes. self.new.is_begun ≡ true) }
        ensures listed { F.honest folder.old → AreTold (F.files folder.old) self.old.walk.listed →
            IfOk result (λ changes. AreTold (F.files folder.old) self.new.walk.listed) }
        ensures honest_read { F.honest folder.old → AreTold (F.files folder.old) self.old.walk.listed → IfOk result (λ changes. IsHonestRead
            (music_of self.old.walk.rules self.old.droppable.known (F.files folder.old)) self.old.walk.place
            (still_pending self.old.is_begun self.old.walk) self.new.walk.pending
            self.old.droppable.left self.new.droppable.left changes.items) }
        ensures whole_read { F.honest folder.old → F.steady folder.old → AreTold (F.files folder.old) self.old.walk.listed →
            IfOk result (λ changes. IsWholeRead
            (music_of self.old.walk.rules self.old.droppable.known (F.files folder.old)) self.old.walk.place
            (still_pending self.old.is_begun self.old.walk) self.new.walk.pending
            self.old.droppable.left self.new.droppable.left changes.items) }
        ensures folder { IsSameFolder F.honest F.steady F.files folder.old folder.new }
        ensures only { IsOkUnless result SongDbError.NoMemory }
    {
        let mut changes = Vec::with_capacity(alloc, MAX_CHANGES)?;
        if !self.is_begun {
            self.is_begun = true;
            self.begin(alloc, folder, &mut changes)?;
        }
        let is_full = self.fill(alloc, folder, &mut changes)?;
        if !is_full {
            self.droppable.drop_rest(alloc, &mut changes)?;
        }
        Ok(changes)
    }

    // Looks at the job's own folder or song.
    fn begin<F: Folder>(
        &mut self,
        alloc: Global,
        folder: &mut F,
        changes: &mut Vec<RowChange>,
    ) -> Result<(), SongDbError>
        requires room { vec_len changes.old < vec_capacity changes.old }
        requires pending { self.old.walk.pending ≡ [] }
        ensures scan { IsSameScan self.old self.new }
        ensures capacity { vec_capacity changes.new ≡ vec_capacity changes.old }
        ensures few { vec_len changes.new ≤ vec_len changes.old + 1 }
        ensures batch { (start : List (List ℕ)) →
            IsBatch self.old.walk.rules self.old.walk.place start self.old.droppable.left changes.old.items →
            OnOk result (IsBatch self.old.walk.rules self.old.walk.place start self.new.droppable.left changes.new.items) }
        ensures read { F.honest folder.old → OnOk result (IsReadOn
            (music_of self.old.walk.rules self.old.droppable.known (F.files folder.old)) (F.steady folder.old) self.old.walk.place
            (own_pending self.old.walk.place) self.old.droppable.left changes.old.items
            self.new.walk.pending self.new.droppable.left changes.new.items) }
        ensures listed { F.honest folder.old → AreTold (F.files folder.old) self.old.walk.listed →
            OnOk result (AreTold (F.files folder.old) self.new.walk.listed) }
        ensures folder { IsSameFolder F.honest F.steady F.files folder.old folder.new }
        ensures only { IsOkUnless result SongDbError.NoMemory }
    {
        let listing = folder.list(alloc, self.walk.path());
        let visit = self.take_own(alloc, listing)?;
        self.make(alloc, folder, changes, visit, None)
    }

    // Reads on until the batch is full or the walk at its end, and says whether it is full.
    fn fill<F: Folder>(
        &mut self,
        alloc: Global,
        folder: &mut F,
        changes: &mut Vec<RowChange>,
    ) -> Result<bool, SongDbError>
        requires room { MAX_CHANGES ≤ vec_capacity changes.old }
        requires few { vec_len changes.old ≤ MAX_CHANGES }
        ensures scan { IsSameScan self.old self.new }
        ensures capacity { vec_capacity changes.new ≡ vec_capacity changes.old }
        ensures few { vec_len changes.new ≤ MAX_CHANGES }
        ensures filled { IfOk result (λ is_full. IsFilled is_full (vec_len changes.new) self.new.walk.pending) }
        ensures batch { (start : List (List ℕ)) →
            IsBatch self.old.walk.rules self.old.walk.place start self.old.droppable.left changes.old.items →
            OnOk result (IsBatch self.old.walk.rules self.old.walk.place start self.new.droppable.left changes.new.items) }
        ensures read { F.honest folder.old → AreTold (F.files folder.old) self.old.walk.listed → OnOk result (IsReadOn
            (music_of self.old.walk.rules self.old.droppable.known (F.files folder.old)) (F.steady folder.old) self.old.walk.place
            self.old.walk.pending self.old.droppable.left changes.old.items
            self.new.walk.pending self.new.droppable.left changes.new.items) }
        ensures listed { F.honest folder.old → AreTold (F.files folder.old) self.old.walk.listed →
            OnOk result (AreTold (F.files folder.old) self.new.walk.listed) }
        ensures folder { IsSameFolder F.honest F.steady F.files folder.old folder.new }
        ensures only { IsOkUnless result SongDbError.NoMemory }
    {
        // A folder may list new folders for ever: then the scan is given up, and the rows that were not read stay.
        for _ in 0..u64::MAX {
            if changes.len() == MAX_CHANGES {
                return Ok(true);
            }
            if self.walk.is_at_end() {
                return Ok(false);
            }
            let next = self.walk.next(alloc)?;
            self.make(alloc, folder, changes, next.0, next.1)?;
        }
        Err(SongDbError::NoMemory)
    }

    // Nothing more is read or dropped.
    pub(crate) fn give_up(&mut self)
        ensures order { IsSameOrderRead self.old self.new }
        ensures pending { self.new.walk.pending ≡ [] }
        ensures droppable { self.new.droppable.left ≡ [] }
        ensures begun { self.new.is_begun ≡ true }
    {
        self.is_begun = true;
        self.walk.stop();
        self.droppable.keep_all();
    }

    // Makes a visit, of a file with what a listing told of it. There is room for its change.
    fn make<F: Folder>(
        &mut self,
        alloc: Global,
        folder: &mut F,
        changes: &mut Vec<RowChange>,
        visit: Visit,
        stamp: Option<FileStamp>,
    ) -> Result<(), SongDbError>
        requires visit { IsVisitIn self.old.walk.rules self.old.walk.place visit }
        requires room { vec_len changes.old < vec_capacity changes.old }
        ensures scan { IsSameScan self.old self.new }
        ensures capacity { vec_capacity changes.new ≡ vec_capacity changes.old }
        ensures few { vec_len changes.new ≤ vec_len changes.old + 1 }
        ensures batch { (start : List (List ℕ)) →
            IsBatch self.old.walk.rules self.old.walk.place start self.old.droppable.left changes.old.items →
            OnOk result (IsBatch self.old.walk.rules self.old.walk.place start self.new.droppable.left changes.new.items) }
        ensures read { F.honest folder.old → IsVisitTold (F.files folder.old) visit stamp → OnOk result (IsReadOn
            (music_of self.old.walk.rules self.old.droppable.known (F.files folder.old)) (F.steady folder.old) self.old.walk.place
            (visited visit ++ self.old.walk.pending) self.old.droppable.left changes.old.items
            self.new.walk.pending self.new.droppable.left changes.new.items) }
        ensures listed { F.honest folder.old → AreTold (F.files folder.old) self.old.walk.listed →
            OnOk result (AreTold (F.files folder.old) self.new.walk.listed) }
        ensures folder { IsSameFolder F.honest F.steady F.files folder.old folder.new }
        ensures only { IsOkUnless result SongDbError.NoMemory }
    {
        match visit {
            Visit::File(uri) => {
                let found = found_at(
                    alloc,
                    folder,
                    self.walk.rules(),
                    &self.droppable,
                    uri,
                    stamp,
                )?;
                settle(&mut self.droppable, changes, found);
                Ok(())
            }
            Visit::Folder(uri) => {
                let listing = folder.list(alloc, uri.as_str());
                self.take_listing(alloc, &uri, listing)
            }
            Visit::Nothing => Ok(()),
        }
    }

    // Takes what the listing of a folder gave: entries, or that it is there no more, or a fault.
    fn take_listing(
        &mut self,
        alloc: Global,
        uri: &Uri,
        listing: Result<Option<Vec<FolderEntry>>, FolderFault>,
    ) -> Result<(), SongDbError>
        requires { is_in self.old.walk.place uri.now ≡ true }
        ensures scan { IsSameScan self.old self.new }
        ensures droppable { OnOk result (self.new.droppable.left ≡ after_listing uri.now listing self.old.droppable.left) }
        ensures pending { OnOk result ((path : List ℕ) → times_pending self.new.walk.pending path
            ≡ times_pending (listed_pending (uri.now ++ 47 ∷ []) listing) path + times_pending self.old.walk.pending path) }
        ensures listed { OnOk result ((files : List File) →
            IfOk listing (λ found. AreEntriesTold files (uri.now ++ 47 ∷ []) (entries_of found)) →
            AreTold files self.old.walk.listed → AreTold files self.new.walk.listed) }
        ensures memory { listing ≡ Err FolderFault.NoMemory → result ≡ Err SongDbError.NoMemory }
        ensures only { IsOkUnless result SongDbError.NoMemory }
    {
        match listing {
            Ok(Some(entries)) => Ok(self.walk.enter(prefix_of(alloc, uri)?, entries)?),
            Ok(None) => Ok(()),
            Err(FolderFault::Source) => {
                self.droppable.keep_below(uri.as_str());
                Ok(())
            }
            Err(FolderFault::NoMemory) => Err(SongDbError::NoMemory),
        }
    }

    // Takes what the listing of the job's own folder gave, and says what is done next: where there is no such folder,
    // its URI may be a song's.
    fn take_own(
        &mut self,
        alloc: Global,
        listing: Result<Option<Vec<FolderEntry>>, FolderFault>,
    ) -> Result<Visit, SongDbError>
        ensures scan { IsSameScan self.old self.new }
        ensures droppable { OnOk result (self.new.droppable.left ≡ after_own listing self.old.droppable.left) }
        ensures pending { OnOk result ((path : List ℕ) → times_pending self.new.walk.pending path
            ≡ times_pending (listed_pending (own_prefix self.old.walk.place) listing) path + times_pending self.old.walk.pending path) }
        ensures listed { OnOk result ((files : List File) →
            IfOk listing (λ found. AreEntriesTold files (own_prefix self.old.walk.place) (entries_of found)) →
            AreTold files self.old.walk.listed → AreTold files self.new.walk.listed) }
        ensures memory { listing ≡ Err FolderFault.NoMemory → result ≡ Err SongDbError.NoMemory }
        ensures next { IfOk result (λ visit. visit ≡ visit_after self.old.walk.rules self.old.walk.place listing) }
        ensures visit { IfOk result (IsVisitIn self.old.walk.rules self.old.walk.place) }
        ensures only { IsOkUnless result SongDbError.NoMemory }
    {
        match listing {
            Ok(Some(entries)) => {
                let prefix = match self.walk.place() {
                    None => String::new(alloc),
                    Some(uri) => prefix_of(alloc, uri)?,
                };
                self.walk.enter(prefix, entries)?;
                Ok(Visit::Nothing)
            }
            Ok(None) => match self.walk.place() {
                None => Ok(Visit::Nothing),
                Some(uri) => Ok(visit_of(self.walk.rules(), uri.try_clone(alloc)?, false)),
            },
            Err(FolderFault::Source) => {
                self.droppable.keep_all();
                Ok(Visit::Nothing)
            }
            Err(FolderFault::NoMemory) => Err(SongDbError::NoMemory),
        }
    }
}
