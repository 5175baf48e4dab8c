// The order of a job: what a scan is to read, and the URIs that it knows.
ghost use Rattle.std.specs.Prelude.{◌≡◌, ◌↔◌, IsTrue, MatchOption, map, option_map};
ghost use Rattle.std.specs.Ordering.{nat_cmp, is_lt};
ghost use Rattle.std.specs.Cmp.Lexicographic.{slice_cmp};
ghost use Rattle.song_db.specs.Music.{uris_of};
ghost use Rattle.song_db.specs.Order.{AreKnown, without_stamp};

use crate::known_song::KnownSong;
use crate::rules::LibraryRules;
use crate::uri::Uri;
use std::marker::Model;

/// What a scan is to read: a folder or a song, by which rules, and the songs that had rows there when the job was taken, the
/// song itself included. Their URIs rise by their bytes.
#[derive(Debug, Drop)]
pub struct ScanOrder {
    job: u32,
    uri: Option<Uri>,
    rules: LibraryRules,
    known: Vec<KnownSong>,
}

impl Model for ScanOrder {
    ghost use Rattle.song_db.specs.Music.{uris_of};
    ghost use Rattle.song_db.specs.Order.{Order, AreKnown};

    ghost Value = { Order };

    ghost view = { λ o. record { job = o.job; uri = o.uri; rules = o.rules; known = o.known.items } };

    ghost invariant = { λ o. AreKnown (uris_of o.known.items) };
}

impl ScanOrder {
    /// The order of a job for a folder or a song, or for the root; `None` where the known URIs don't rise.
    pub fn new(
        job: u32,
        uri: Option<Uri>,
        rules: LibraryRules,
        known: Vec<KnownSong>,
    ) -> Option<ScanOrder>
        ensures { MatchOption result (AreKnown (uris_of known.items) → ⊥) (λ order. (order
            ≡ record { job = job; uri = uri; rules = rules; known = known.items }) × AreKnown (uris_of known.items)) }
    {
        if !are_rising(&known) {
            return None;
        }
        Some(ScanOrder {
            job,
            uri,
            rules,
            known,
        })
    }

    // The order of a job that knows these, which rise.
    pub(crate) fn of_known(
        job: u32,
        uri: Option<Uri>,
        rules: LibraryRules,
        known: Vec<KnownSong>,
    ) -> ScanOrder
        requires { AreKnown (uris_of known.items) }
        ensures { result ≡ record { job = job; uri = uri; rules = rules; known = known.items } }
    {
        ScanOrder {
            job,
            uri,
            rules,
            known,
        }
    }

    /// The same order by other rules.
    pub fn with_rules(self, rules: LibraryRules) -> ScanOrder
        ensures { result ≡ record { job = self.job; uri = self.uri; rules = rules; known = self.known } }
    {
        ScanOrder { rules, ..self }
    }

    /// The same order, by which each file is opened, whatever its stamp is.
    pub fn without_stamps(mut self) -> ScanOrder
        ensures { result ≡ record self { known = map without_stamp self.known } }
    {
        forget_stamps(&mut self.known);
        self
    }

    /// The number of the job.
    pub fn job(&self) -> u32
        ensures { result ≡ self.now.job }
    {
        self.job
    }

    /// The folder or the song; `None` is the root.
    pub fn uri(&self) -> Option<&Uri>
        ensures { option_map (λ uri. uri.now) result ≡ self.now.uri }
    {
        self.uri.as_ref()
    }

    /// The rules by which songs are found and read.
    pub fn rules(&self) -> LibraryRules
        ensures { result ≡ self.now.rules }
    {
        self.rules
    }

    /// The songs that had rows there, their URIs rising.
    pub fn known(&self) -> &[KnownSong]
        ensures songs { result.now ≡ self.now.known }
        ensures rising { AreKnown (uris_of result.now) }
    {
        self.known.as_slice()
    }

    pub(crate) fn into_parts(self) -> (u32, Option<Uri>, LibraryRules, Vec<KnownSong>)
        ensures job { result.0 ≡ self.job }
        ensures uri { result.1 ≡ self.uri }
        ensures rules { result.2 ≡ self.rules }
        ensures known { result.3.items ≡ self.known }
        ensures rising { AreKnown (uris_of result.3.items) }
    {
        (self.job, self.uri, self.rules, self.known)
    }
}

fn forget_stamps(known: &mut [KnownSong])
    ensures { known.new ≡ map without_stamp known.old }
{
    for song in known.iter_mut() {
        song.stamp = None;
    }
}

// Whether each URI stands before the next.
fn are_rising(known: &[KnownSong]) -> bool
    ensures { IsTrue result ↔ AreKnown (uris_of known.now) }
{
    for at in 1..known.len() {
        if !is_before(&known[at - 1].uri, &known[at].uri) {
            return false;
        }
    }
    true
}

fn is_before(uri: &Uri, other: &Uri) -> bool
    ensures { result ≡ is_lt (slice_cmp nat_cmp uri.now other.now) }
{
    uri.as_str() < other.as_str()
}
