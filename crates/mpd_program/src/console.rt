//! One client on a reader and a writer, over the journal on two disks.
ghost use Rattle.std.specs.Prelude.{◌≡◌, ◌≢◌, ◌⊎◌, ◌↔◌, ◌≤◌, ℕ, Ok, IsTrue, IsSome};
ghost use Rattle.disk_model.specs.Later.{AreLater, HasFailed};
ghost use Rattle.play_journal.specs.Calls.{SameFaults};
ghost use Rattle.live_stage.specs.Found.{AllOpenNow};
ghost use Rattle.mpd_program.specs.Lives.{moment_of, IsLife, IsConsole, refusal_of, status_of, ending_of};
ghost use Rattle.mpd_program.specs.Status.{code_of};

mod scanning;
mod sending;
mod serving;

use crate::daemon_clock::DaemonClock;
use client_session::Session;
use disk_model::Disk;
use live_stage::{Live, Refused, laws};
use mpd_server::refusal_number;
use profile::Profile;
use serving::{Service, ending_with};
use song_db::LibraryRules;
use song_files::Folder;
use std::alloc::Global;
use std::fmt;
use std::io::{Read, Write};

/// The number of the first client.
const FIRST_CLIENT: u64 = 1;

/// The number of the client that is served after a disk fault.
const SECOND_CLIENT: u64 = 2;

/// With which status a console ends.
#[derive(Clone, Copy, Debug, PartialEq, Eq)]
pub enum Status {
    /// The client was served.
    Done,
    /// The journal was refused, with the number of the refusal: 3 where one is made, 4, 5, 7 or 49.
    JournalRefused(u8),
    /// A second disk fault.
    DiskFault,
}

impl Status {
    /// The exit status of the program.
    pub fn code(self) -> u8
        ensures { result ≡ code_of self }
    {
        match self {
            Status::Done => 0,
            Status::JournalRefused(_) => 2,
            Status::DiskFault => 3,
        }
    }
}

/// The line that the program writes to standard error. For `Done` it writes none.
impl fmt::Display for Status {
    fn fmt<W: fmt::Write>(&self, f: &mut fmt::Formatter<W>) -> fmt::Result {
        match self {
            Status::Done => f.write_str("done"),
            Status::JournalRefused(number) => write!(f, "journal refused: {number}"),
            Status::DiskFault => f.write_str("disk fault"),
        }
    }
}

/// How much a console's client was given.
#[derive(Clone, Copy, Debug, PartialEq, Eq)]
pub enum Ending {
    /// All requests of its input were answered, or those up to the first that closed it.
    Whole,
    /// Memory, a read, a write or a request was refused, or a line or an answer was too long: it was given a front of that.
    Cut,
    /// A disk failed, or the journal was refused.
    Faulted,
}

/// What a console came to, and both disks.
#[derive(Debug, Drop)]
pub struct ConsoleEnd<D> {
    pub status: Status,
    pub ending: Ending,
    /// Whether the journal had an old layout, and was brought to the one that is written: a program of before can't read it then.
    pub migrated: bool,
    /// The disk of file a.
    pub a: D,
    /// The disk of file b.
    pub b: D,
}

// What came of a client, whose life begins with an opening of the journal: how its serving ended, or the number with which the journal was
// refused; whether the journal was brought to the layout that is written; and both disks.
struct ClientEnd<D> {
    came_to: Result<Ending, u8>,
    migrated: bool,
    a: D,
    b: D,
}

impl<D> ClientEnd<D> {
    // Whether a disk fault ended it.
    fn is_faulted(&self) -> bool
        ensures { IsTrue result ↔ (self.now.came_to ≡ Ok Ending.Faulted) }
    {
        matches!(self.came_to, Ok(Ending::Faulted))
    }

    // The ending of a console that had no other.
    fn ending(&self) -> Ending
        ensures { result ≡ ending_of self.now.came_to }
    {
        self.came_to.unwrap_or(Ending::Faulted)
    }
}

// Opens the journal under a profile, and serves one client.
fn serve_life<D: Disk, F: Folder, R: Read, W: Write>(
    alloc: Global,
    profile: Profile,
    a: D,
    b: D,
    client: u64,
    folder: &mut F,
    rules: LibraryRules,
    clock: Option<&DaemonClock<'_>>,
    reader: &mut R,
    writer: &mut W,
) -> ClientEnd<D>
    ensures life { IsLife profile (D.honest a × D.honest b) client result.came_to
        (moment_of D.content D.history D.faults a b (R.remaining reader.old) (W.contents writer.old))
        (moment_of D.content D.history D.faults result.a result.b (R.remaining reader.new) (W.contents writer.new)) }
    ensures unfailed { (ending : Ending) → result.came_to ≡ Ok ending → ending ≢ Ending.Faulted
        → SameFaults D.faults a b result.a result.b }
    ensures later { AreLater D.honest D.history D.faults a b result.a result.b }
{
    let live = match Live::open(alloc, profile, a, b) {
        Ok(live) => live,
        Err(refused) => return refused_life(refused),
    };
    let migrated = live.was_migrated();
    let mut service = Service {
        alloc,
        live,
        session: Session::new(alloc),
        client,
        folder,
        rules,
        clock,
        writer,
    };
    let served = service.serve_client(reader);
    let Service {
        alloc: _alloc,
        live,
        session: _session,
        client: _client,
        folder: _folder,
        rules: _rules,
        clock: _clock,
        writer: _writer,
    } = service;
    // As long as no disk failed, the files give its state.
    let _broken = live.is_broken();
    let (a, b) = live.into_disks();
    ClientEnd {
        came_to: Ok(ending_with(served)),
        migrated,
        a,
        b,
    }
}

// A journal that was not opened.
fn refused_life<D>(refused: Refused<D>) -> ClientEnd<D>
    ensures came_to { result.came_to ≡ refusal_of refused.error }
    ensures a { result.a ≡ refused.a }
    ensures b { result.b ≡ refused.b }
{
    let Refused { error, a, b } = refused;
    let came_to = match refusal_number(error) {
        None => Ok(Ending::Faulted),
        Some(number) => Err(number),
    };
    ClientEnd {
        came_to,
        migrated: false,
        a,
        b,
    }
}

// The end of a console whose last life was this one.
fn ended<D>(ending: Ending, migrated: bool, last: ClientEnd<D>) -> ConsoleEnd<D>
    ensures { result ≡ record { status = status_of last.came_to; ending = ending; migrated = migrated; a = last.a; b = last.b } }
{
    let ClientEnd {
        came_to,
        migrated: _,
        a,
        b,
    } = last;
    let status = match came_to {
        Ok(Ending::Whole | Ending::Cut) => Status::Done,
        Ok(Ending::Faulted) => Status::DiskFault,
        Err(number) => Status::JournalRefused(number),
    };
    ConsoleEnd {
        status,
        ending,
        migrated,
        a,
        b,
    }
}

/// Opens the journal on the disks of files a and b under a profile, and serves one client from its connect to the end of its input, or
/// until a request closes it.
///
/// Where a request began jobs of the database, their scans over the folder follow at once: before the next request all of the folder, or
/// of the part that was asked for, is read for each, by these rules, and the jobs are over. Where a clock is given, it tells the time
/// before each request.
///
/// After a disk fault that client is closed, the journal is opened again, and a new client is served with what is left of the
/// input. After a second one it gives up.
pub fn run_console<D: Disk, F: Folder, R: Read, W: Write>(
    alloc: Global,
    profile: Profile,
    a: D,
    b: D,
    folder: &mut F,
    rules: LibraryRules,
    clock: Option<&DaemonClock<'_>>,
    reader: &mut R,
    writer: &mut W,
) -> ConsoleEnd<D>
    // What was read, written and kept: in one life, or in one that a disk fault ended and one after it.
    ensures transcript { IsConsole profile (D.honest a × D.honest b) result.status result.ending
        (moment_of D.content D.history D.faults a b (R.remaining reader.old) (W.contents writer.old))
        (moment_of D.content D.history D.faults result.a result.b (R.remaining reader.new) (W.contents writer.new)) }

    // Only a disk fault or a refused journal is answered as such, and each disk fault is.
    ensures served { result.ending ≢ Ending.Faulted → result.status ≡ Status.Done }
    ensures faulted { D.honest a → D.honest b → result.ending ≡ Ending.Faulted
        → HasFailed D.faults a b result.a result.b
        ⊎ ((number : ℕ) × (result.status ≡ Status.JournalRefused number)) }
    ensures unfailed { result.ending ≢ Ending.Faulted → SameFaults D.faults a b result.a result.b }
    ensures refused { (number : ℕ) → result.status ≡ Status.JournalRefused number
        → (number ≡ 4) ⊎ (number ≡ 5) ⊎ (number ≡ 7) ⊎ (number ≡ 49) }

    // Where a restart finds a state in each pair of images that a crash may have left, the journal is refused for want of memory alone, or
    // since it has an old layout and the last generation.
    ensures opens { D.honest a → D.honest b → AllOpenNow profile (λ f. IsSome f) (D.history a) (D.history b)
        → (number : ℕ) → result.status ≡ Status.JournalRefused number → (number ≡ 7) ⊎ (number ≡ 49) }

    ensures later { AreLater D.honest D.history D.faults a b result.a result.b }
{
    laws::history_keeps_the_profile();
    let first = serve_life(
        alloc,
        profile,
        a,
        b,
        FIRST_CLIENT,
        folder,
        rules,
        clock,
        reader,
        writer,
    );
    if !first.is_faulted() {
        let ending = first.ending();
        let migrated = first.migrated;
        return ended(ending, migrated, first);
    }
    let ClientEnd {
        came_to: _,
        migrated,
        a,
        b,
    } = first;
    let second = serve_life(
        alloc,
        profile,
        a,
        b,
        SECOND_CLIENT,
        folder,
        rules,
        clock,
        reader,
        writer,
    );
    let migrated = migrated || second.migrated;
    ended(Ending::Faulted, migrated, second)
}
