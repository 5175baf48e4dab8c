// The songs of one playlist.
ghost use Rattle.std.specs.Prelude.{◌≡◌, ◌≢◌, ◌<◌, ◌≤◌, ◌↔◌, [], ◌∷◌, ◌++◌, length, take, drop, slice_range};
ghost use Rattle.std.specs.Prelude.{not, IsTrue, IfOk, IsOkUnless, OnOk, OnErr};
ghost use Rattle.std.specs.Bool.{OnTrue, OnFalse};
ghost use Rattle.std.specs.Str.{bytes_eq};
ghost use Rattle.stored_lists.specs.Songs.{AreUris, without_range, moved};

use crate::refusal::ListsError;
use song_db::Uri;
use std::alloc::{AllocError, Global};
use std::marker::Model;

/// The URIs of a playlist, in order. That each names a song is not known here.
#[derive(Debug, Drop)]
pub struct Songs {
    uris: Vec<Uri>,
}

impl Model for Songs {
    ghost use Rattle.stored_lists.specs.Songs.{Uris, AreUris};

    ghost Value = { Uris };

    ghost view = { λ s. s.uris.items };

    ghost invariant = { λ s. AreUris s.uris.items };
}

impl Songs {
    /// No song. It takes no memory yet.
    pub fn new(alloc: Global) -> Self
        ensures { result ≡ [] }
    {
        Songs {
            uris: Vec::new(alloc),
        }
    }

    /// Adds a song at the end.
    pub fn push(&mut self, uri: Uri) -> Result<(), ListsError>
        ensures ok { OnOk result (self.new ≡ self.old ++ uri ∷ []) }
        ensures err { OnErr result (self.new ≡ self.old) }
        ensures only_memory { IsOkUnless result ListsError.NoMemory }
    {
        let _text = uri.as_str();
        self.uris.push(uri)?;
        Ok(())
    }

    pub fn len(&self) -> usize
        ensures count { result ≡ length self.now }
        ensures form { AreUris self.now }
    {
        self.uris.len()
    }

    pub fn is_empty(&self) -> bool
        ensures { IsTrue result ↔ (self.now ≡ []) }
    {
        self.uris.is_empty()
    }

    /// The URIs in order.
    pub fn as_slice(&self) -> &[Uri]
        ensures { result.now ≡ self.now }
    {
        self.uris.as_slice()
    }

    /// The same songs once more, in memory of their own.
    pub fn try_clone(&self, alloc: Global) -> Result<Songs, AllocError>
        ensures { IfOk result (λ copy. copy ≡ self.now) }
    {
        let mut uris = Vec::with_capacity(alloc, self.uris.len())?;
        clone_all(alloc, &self.uris, &mut uris)?;
        Ok(Songs { uris })
    }

    // Whether `move_one` would change anything: not where all songs from the one place to the other are equal.
    pub(crate) fn would_move(&self, from: usize, to: usize) -> bool
        requires from_in_range { from < length self.now }
        requires to_in_range { to < length self.now }
        ensures changes { OnTrue result (moved self.now from to ≢ self.now) }
        ensures stays { OnFalse result (moved self.now from to ≡ self.now) }
    {
        for at in from.min(to)..from.max(to) {
            if differ(&self.uris[at], &self.uris[at + 1]) {
                return true;
            }
        }
        false
    }

    // Adds the others at the end.
    pub(crate) fn append(&mut self, mut others: Songs) -> Result<(), AllocError>
        ensures ok { OnOk result (self.new ≡ self.old ++ others) }
        ensures err { OnErr result (self.new ≡ self.old) }
    {
        self.uris.append(&mut others.uris)
    }

    // Takes out the songs from `start` up to, but not including, `end`. Those in front of them aren't touched.
    pub(crate) fn remove_range(&mut self, start: usize, end: usize)
        requires forward { start ≤ end }
        requires in_range { end ≤ length self.old }
        ensures { self.new ≡ without_range self.old start end }
    {
        let kept = self.uris.len() - (end - start);
        turn(&mut self.uris, start, end);
        self.uris.truncate(kept);
    }

    // Takes out the song at `from`, and puts it back so that it stands at `to`. Only those between are touched.
    pub(crate) fn move_one(&mut self, from: usize, to: usize)
        requires from_in_range { from < length self.old }
        requires to_in_range { to < length self.old }
        ensures { self.new ≡ moved self.old from to }
    {
        move_uri(&mut self.uris, from, to);
    }

    pub(crate) fn clear(&mut self)
        ensures { self.new ≡ [] }
    {
        self.uris.clear();
    }
}

fn differ(one: &Uri, other: &Uri) -> bool
    ensures { result ≡ not (bytes_eq one.now other.now) }
{
    one.as_str() != other.as_str()
}

// Takes the URI at `from` out, and puts it back so that it stands at `to`.
fn move_uri(uris: &mut Vec<Uri>, from: usize, to: usize)
    requires from_in_range { from < length uris.old.items }
    requires to_in_range { to < length uris.old.items }
    ensures { uris.new.items ≡ moved uris.old.items from to }
{
    if from < to {
        take_on(uris, from, to);
    } else {
        take_back(uris, from, to);
    }
}

// Adds a copy of each URI at the end.
fn clone_all(alloc: Global, uris: &[Uri], copies: &mut Vec<Uri>) -> Result<(), AllocError>
    ensures { OnOk result (copies.new.items ≡ copies.old.items ++ uris.now) }
{
    for uri in uris {
        let copy = uri.try_clone(alloc)?;
        copies.push(copy)?;
    }
    Ok(())
}

// Brings the URIs from `start` up to `middle` behind all that follow.
fn turn(uris: &mut [Uri], start: usize, middle: usize)
    requires forward { start ≤ middle }
    requires in_range { middle ≤ length uris.old }
    ensures { uris.new ≡ take start uris.old ++ (drop middle uris.old ++ slice_range uris.old start middle) }
{
    uris[start..].rotate_left(middle - start);
}

// Takes the URI at `from` on to `to`; those between move up by one.
fn take_on(uris: &mut [Uri], from: usize, to: usize)
    requires forward { from < to }
    requires in_range { to < length uris.old }
    ensures { uris.new ≡ moved uris.old from to }
{
    uris[from..to + 1].rotate_left(1);
}

// Takes the URI at `from` back to `to`; those between move down by one.
fn take_back(uris: &mut [Uri], from: usize, to: usize)
    requires back { to ≤ from }
    requires in_range { from < length uris.old }
    ensures { uris.new ≡ moved uris.old from to }
{
    uris[to..from + 1].rotate_left(from - to);
}
