// The number of the last scan, the place that it looks at, and what became of it.
ghost use Rattle.std.specs.Prelude.{◌≡◌};
ghost use Rattle.machine_core.specs.Database.{next_job};

use song_db::Uri;

/// Numbers are shown as 31 bits.
const LAST_NUMBER: u32 = 2_147_483_647;

/// The last job of the database.
#[derive(Debug, Drop)]
pub struct Job {
    /// Its number, from 1 on; 0 before the first.
    pub number: u32,
    /// The song or folder that it reads; none, the whole database.
    pub place: Option<Uri>,
    /// It opens every file that it meets; any other job passes by those that have the stamp of their row.
    pub opens_all: bool,
    pub runs: bool,
    /// A change of one of its batches changed a row at its turn.
    pub has_changed_a_row: bool,
    /// When its songs were read, as a clock told: at its beginning, then at its end. Seconds since the beginning of 1970.
    pub read: u64,
}

/// As many jobs wait at most.
pub(crate) const MAX_WAITING_JOBS: usize = 32;

/// A job that was asked for while another ran, and begins behind those before it.
#[derive(Debug, Drop)]
pub struct WaitingJob {
    pub number: u32,
    /// Its place; none is all.
    pub place: Option<Uri>,
    pub opens_all: bool,
}

/// A job that missed too many songs, and dropped none of them.
#[derive(Debug, Drop)]
pub struct WithheldJob {
    pub number: u32,
    /// Its place; none is all.
    pub place: Option<Uri>,
    /// How many songs it missed.
    pub missing: usize,
    /// Of how many that there were.
    pub songs: usize,
    /// When, as a clock told: seconds since the beginning of 1970.
    pub at: u64,
}

/// The number of the job that comes after one of this number: jobs count from 1, and begin again behind the last number.
pub(crate) fn next_job(number: u32) -> u32
    ensures { result ≡ next_job number }
{
    if number < LAST_NUMBER { number + 1 } else { 1 }
}

impl Job {
    ghost use Rattle.std.specs.Prelude.{◌≡◌};
    ghost use Rattle.std.specs.Prelude.{option_map};
    ghost use Rattle.machine_core.specs.Database.{begun};
    ghost use Rattle.machine_core.specs.State.{no_job};

    /// No job has begun yet.
    pub(crate) fn none() -> Job
        ensures { result ≡ no_job }
    {
        Job {
            number: 0,
            place: None,
            opens_all: false,
            runs: false,
            has_changed_a_row: false,
            read: 0,
        }
    }

    /// A job of this number that has just begun, at this time.
    pub(crate) fn begun(number: u32, place: Option<Uri>, opens_all: bool, now: u64) -> Job
        ensures { result ≡ begun number place opens_all now }
    {
        Job {
            number,
            place,
            opens_all,
            runs: true,
            has_changed_a_row: false,
            read: now,
        }
    }
}
