// A scan that has read its place and misses songs: whether its job goes on, or is over before it drops one.
ghost use Rattle.std.specs.Prelude.{◌≡◌, IfOk, OnErr};
ghost use Rattle.std.specs.Option.{option_copied, option_eq};
ghost use Rattle.std.specs.Str.{bytes_eq};
ghost use Rattle.machine_core.specs.Happening.{HasHappened};
ghost use Rattle.machine_core.specs.Missing.{goes_ahead, is_again, is_of_withheld, is_withheld, may_withhold, too_many};
ghost use Rattle.machine_core.specs.Missing.{was_asked, when_missed, withheld_job, withholds, without_withheld};

use super::nothing;
use crate::happened::Happened;
use crate::job::{Job, WithheldJob};
use crate::machine::Machine;
use idle_masks::Subsystems;
use no_memory::NoMemory;
use player_core::{PlayFailure, Player};
use profile::Profile;
use song_db::Uri;
use std::alloc::{AllocError, Global};

// So many songs at most are dropped where they are more than half of all.
const MOST_OF_HALF: usize = 100;

// For so many seconds a job is asked for again.
const AGAIN_SECONDS: u64 = 600;

impl Machine {
    /// A scan has read its place, and misses so many songs that were known. Where they are too many, its job is over before it drops one,
    /// and `status` shows it; the same job, asked for again within ten minutes, goes on, and so does one that opens every file. Nothing
    /// happens where the job of this number doesn't run. Without memory the machine stays as it was.
    pub fn missed(&mut self, alloc: Global, job: u32, missing: usize) -> Result<Happened, NoMemory>
        ensures ok { IfOk result (λ happened. HasHappened (when_missed job missing self.old) self.old self.new happened) }
        ensures err { OnErr result (self.new ≡ self.old) }
    {
        if !self.runs_job(job) {
            return Ok(nothing(alloc));
        }
        if !self.is_withheld(missing) {
            return Ok(self.go_ahead(alloc));
        }
        let withheld = self.withheld_job(alloc, missing)?;
        Ok(self.withhold(alloc, withheld))
    }

    // Whether the songs that the job misses are not dropped.
    fn is_withheld(&self, missing: usize) -> bool
        ensures { result ≡ is_withheld missing self.now }
    {
        may_withhold(self.saved.profile())
            && !self.job.opens_all
            && is_too_many(missing, self.saved.songs().len())
            && !was_asked(&self.job, missing, self.clock.now, self.withheld.as_ref())
    }

    // What is kept of the job that runs, which withholds so many.
    fn withheld_job(&self, alloc: Global, missing: usize) -> Result<WithheldJob, AllocError>
        ensures { IfOk result (λ withheld. withheld ≡ withheld_job missing self.now) }
    {
        let place = match &self.job.place {
            Some(uri) => Some(uri.try_clone(alloc)?),
            None => None,
        };
        Ok(WithheldJob {
            number: self.job.number,
            place,
            missing,
            songs: self.saved.songs().len(),
            at: self.clock.now,
        })
    }

    // The job is over, and the player shows why.
    fn withhold(&mut self, alloc: Global, withheld: WithheldJob) -> Happened
        requires { withheld ≡ withheld_job withheld.missing self.old }
        ensures { HasHappened (withholds withheld.missing self.old) self.old self.new result }
    {
        let database = self.job.has_changed_a_row;
        self.end_job();
        self.player.show(PlayFailure::Withheld {
            missing: withheld.missing,
            songs: withheld.songs,
        });
        self.withheld = Some(withheld);
        let mut changed = Subsystems::none();
        changed.update = true;
        changed.player = true;
        changed.database = database;
        Happened {
            ops: Vec::new(alloc),
            changed,
        }
    }

    // The job goes on, and what was withheld before is forgotten.
    fn go_ahead(&mut self, alloc: Global) -> Happened
        ensures { HasHappened (goes_ahead self.old) self.old self.new result }
    {
        let shown = hide_withheld(&mut self.player);
        self.withheld = None;
        let mut changed = Subsystems::none();
        changed.player = shown;
        Happened {
            ops: Vec::new(alloc),
            changed,
        }
    }
}

// The named profile withholds nothing.
fn may_withhold(profile: Profile) -> bool
    ensures { result ≡ may_withhold profile }
{
    match profile {
        Profile::Named => false,
        Profile::Wide => true,
    }
}

// All of so many songs, or more than half of them and more than a hundred. There are never so many that twice as many don't count.
fn is_too_many(missing: usize, songs: usize) -> bool
    ensures { result ≡ too_many missing songs }
{
    if missing == 0 {
        return false;
    }
    songs <= missing || (MOST_OF_HALF < missing && songs - missing < missing)
}

// Whether a job of the same place missed as many songs a short time ago, and dropped none.
fn was_asked(job: &Job, missing: usize, now: u64, withheld: Option<&WithheldJob>) -> bool
    ensures { result ≡ was_asked job.now missing now (option_copied withheld.entry) }
{
    match withheld {
        Some(withheld) => is_again(job, missing, now, withheld),
        None => false,
    }
}

fn is_again(job: &Job, missing: usize, now: u64, withheld: &WithheldJob) -> bool
    ensures { result ≡ is_again job.now missing now withheld.now }
{
    is_same_place(withheld.place.as_ref(), job.place.as_ref())
        && withheld.missing == missing
        && now.saturating_sub(withheld.at) <= AGAIN_SECONDS
}

fn is_same_place(a: Option<&Uri>, b: Option<&Uri>) -> bool
    ensures { result ≡ option_eq bytes_eq (option_copied a.entry) (option_copied b.entry) }
{
    match (a, b) {
        (Some(a), Some(b)) => a.as_str() == b.as_str(),
        (None, None) => true,
        (Some(_), None) | (None, Some(_)) => false,
    }
}

// The error of a job that dropped nothing is shown no more, and whether it was.
fn hide_withheld(player: &mut Player) -> bool
    ensures player { player.new ≡ without_withheld player.old }
    ensures shown { result ≡ is_of_withheld player.old.error }
{
    if !is_of_withheld(player.error()) {
        return false;
    }
    player.clear_error();
    true
}

// Whether the error is of a job that dropped nothing.
fn is_of_withheld(error: Option<&PlayFailure>) -> bool
    ensures { result ≡ is_of_withheld (option_copied error.entry) }
{
    match error {
        Some(PlayFailure::Withheld { .. }) => true,
        Some(PlayFailure::CannotPlay(_)) | Some(PlayFailure::OutputFailed) | None => false,
    }
}
