// The folders that a scan is in, with what is left of their listings.
ghost use Rattle.std.specs.Prelude.{◌≡◌, ◌↔◌, ◌==◌, ℕ, ◌+◌, true, List, [], ◌∷◌, ◌++◌, length, IfOk, OnOk, IfSome, IsTrue, option_map};
ghost use Rattle.std.specs.Prelude.{unwrap_or};
ghost use Rattle.std.specs.List.{list_all};
ghost use Rattle.std.specs.String.{string_bytes};
ghost use Rattle.song_db.specs.Found.{IsPrefixIn, IsTaken, IsVisitIn, IsVisitTold, visit_at};
ghost use Rattle.song_db.specs.Pending.{AreEntriesTold, AreTold, entries_pending, times_pending};
ghost use Rattle.song_db.specs.Uri.{is_uri};
ghost use Rattle.song_files.specs.Folder.{File};

use crate::rules::LibraryRules;
use crate::scan::visit::{Visit, visit_of};
use crate::uri::Uri;
use song_files::{FileStamp, FolderEntry};
use std::alloc::{AllocError, Global};
use std::cmp::Ordering;
use std::marker::Model;

// A folder on the present path.
#[derive(Debug, Drop)]
struct Level {
    // What the paths of its entries begin with: its own and a slash, or nothing for the root.
    prefix: String,
    // What is left of its listing, from the last to the next.
    entries: Vec<FolderEntry>,
}

// The walk of a scan through the folders of its place. It holds what is left of the listings on the present path: 33 at
// most, since no folder is entered below the 32nd.
#[derive(Debug, Drop)]
pub(crate) struct FolderWalk {
    rules: LibraryRules,
    place: Option<Uri>,
    levels: Vec<Level>,
}

impl Model for FolderWalk {
    ghost use Rattle.std.specs.Prelude.{ℕ, List, Option, map, string_bytes};
    ghost use Rattle.std.specs.List.{All, flat_map};
    ghost use Rattle.song_db.specs.Found.{IsPrefixIn};
    ghost use Rattle.song_db.specs.Pending.{Walked, entries_pending};

    ghost Value = { Walked };

    ghost view = { λ w. record {
      rules = w.rules;
      place = w.place;
      pending = flat_map (λ level. entries_pending (string_bytes level.prefix) level.entries.items) w.levels.items;
      listed = map (λ level. record { prefix = string_bytes level.prefix; entries = level.entries.items }) w.levels.items;
    } };

    ghost invariant = { λ w. All (λ level. IsPrefixIn w.place (string_bytes level.prefix)) w.levels.items };
}

impl FolderWalk {
    pub(crate) fn new(alloc: Global, rules: LibraryRules, place: Option<Uri>) -> FolderWalk
        ensures { result ≡ record { rules = rules; place = place; pending = []; listed = [] } }
    {
        FolderWalk {
            rules,
            place,
            levels: Vec::new(alloc),
        }
    }

    pub(crate) fn rules(&self) -> LibraryRules
        ensures { result ≡ self.now.rules }
    {
        self.rules
    }

    // The folder or song of the job; `None` is the root.
    pub(crate) fn place(&self) -> Option<&Uri>
        ensures { option_map (λ uri. uri.now) result ≡ self.now.place }
    {
        self.place.as_ref()
    }

    // The path of the job's folder or song, which is empty for the root.
    pub(crate) fn path(&self) -> &str
        ensures text { result.now ≡ unwrap_or self.now.place [] }
        ensures form { IfSome self.now.place (λ uri. is_uri uri ≡ true) }
    {
        match &self.place {
            None => "",
            Some(uri) => uri.as_str(),
        }
    }

    // Nothing that was entered is still to be read.
    pub(crate) fn is_at_end(&self) -> bool
        ensures { IsTrue result ↔ (self.now.pending ≡ []) }
    {
        have_no_entry(&self.levels)
    }

    // Goes into a folder whose entries' paths have the prefix.
    pub(crate) fn enter(
        &mut self,
        prefix: String,
        mut entries: Vec<FolderEntry>,
    ) -> Result<(), AllocError>
        requires { IsPrefixIn self.old.place (string_bytes prefix) }
        ensures rules { self.new.rules ≡ self.old.rules }
        ensures place { self.new.place ≡ self.old.place }
        ensures pending { OnOk result ((uri : List ℕ) → times_pending self.new.pending uri
            ≡ times_pending (entries_pending (string_bytes prefix) entries.items) uri + times_pending self.old.pending uri) }
        ensures listed { OnOk result ((files : List File) → AreEntriesTold files (string_bytes prefix) entries.items →
            AreTold files self.old.listed → AreTold files self.new.listed) }
    {
        entries.sort_unstable_by(|a, b| falling(a, b));
        self.levels.push(Level { prefix, entries })?;
        Ok(())
    }

    // What is done at the next entry, and what the listing told of the file; `Nothing` where a folder is done with, too.
    pub(crate) fn next(&mut self, alloc: Global) -> Result<(Visit, Option<FileStamp>), AllocError>
        ensures rules { self.new.rules ≡ self.old.rules }
        ensures place { self.new.place ≡ self.old.place }
        ensures visit { IfOk result (λ next. IsVisitIn self.old.rules self.old.place next.0) }
        ensures taken { IfOk result (λ next. IsTaken self.old.rules self.old.pending next.0 self.new.pending) }
        ensures listed { IfOk result (λ next. (files : List File) → AreTold files self.old.listed →
            AreTold files self.new.listed × IsVisitTold files next.0 next.1) }
    {
        let Some(mut level) = self.levels.pop() else {
            return Ok((Visit::Nothing, None));
        };
        let Some(entry) = level.entries.pop() else {
            return Ok((Visit::Nothing, None));
        };
        let visit = visit_at(alloc, self.rules, level.prefix.as_str(), &entry)?;
        self.levels.push_reserved(level);
        Ok((visit, entry.stamp))
    }

    // Leaves all folders.
    pub(crate) fn stop(&mut self)
        ensures { self.new ≡ record { rules = self.old.rules; place = self.old.place; pending = []; listed = [] } }
    {
        self.levels.clear();
    }
}

// Nothing is left of any listing.
fn have_no_entry(levels: &[Level]) -> bool
    ensures { result ≡ list_all (λ level. length level.entries.items == 0) levels.now }
{
    levels.iter().all(|level| level.entries.is_empty())
}

// From the last name to the first; of the same name a folder comes before a file.
fn falling(entry: &FolderEntry, other: &FolderEntry) -> Ordering {
    match other.name.as_str().cmp(entry.name.as_str()) {
        Ordering::Equal => entry.is_folder.cmp(&other.is_folder),
        order => order,
    }
}

// What is done at an entry of a folder.
fn visit_at(
    alloc: Global,
    rules: LibraryRules,
    prefix: &str,
    entry: &FolderEntry,
) -> Result<Visit, AllocError>
    ensures { IfOk result (λ visit. visit ≡ visit_at rules (prefix.now ++ string_bytes entry.now.name) entry.now.is_folder) }
{
    let len = prefix.len().saturating_add(entry.name.len());
    let mut path = String::with_capacity(alloc, len)?;
    path.push_str(prefix)?;
    path.push_str(entry.name.as_str())?;
    match Uri::from_string(path) {
        Some(uri) => Ok(visit_of(rules, uri, entry.is_folder)),
        None => Ok(Visit::Nothing),
    }
}

// What the paths of a folder's entries begin with.
pub(crate) fn prefix_of(alloc: Global, folder: &Uri) -> Result<String, AllocError>
    ensures { IfOk result (λ prefix. string_bytes prefix ≡ folder.now ++ 47 ∷ []) }
{
    let mut prefix = String::from_str(alloc, folder.as_str())?;
    prefix.push_str("/")?;
    Ok(prefix)
}
