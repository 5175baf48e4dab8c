// A machine: the saved half of the state, the player over it, the scan that runs, and the time.
ghost use Rattle.std.specs.Prelude.{◌≡◌};
ghost use Rattle.machine_core.specs.State.{manners_of, started};

use crate::clock::ClockTime;
use crate::job::{Job, WaitingJob, WithheldJob};
use player_core::{KeptNext, Manners, PlaySettings, Player};
use profile::Profile;
use state_codec::Saved;
use std::alloc::Global;
use std::marker::Model;

// How the player goes on under a profile.
fn manners_of(profile: Profile) -> Manners
    ensures { result ≡ manners_of profile }
{
    match profile {
        Profile::Named => Manners::Named,
        Profile::Wide => Manners::Mpd,
    }
}

/// The daemon without its clients: the half that is saved, the player, the job of the database with those that wait, what a clock told,
/// and whether the journal's disk has room.
#[derive(Drop)]
pub struct Machine {
    pub(crate) saved: Saved,
    pub(crate) player: Player,
    pub(crate) job: Job,
    // The jobs that were asked for while it ran, in their order.
    pub(crate) waiting: Vec<WaitingJob>,
    // The last job that dropped nothing because it missed too many songs, until another goes on.
    pub(crate) withheld: Option<WithheldJob>,
    pub(crate) clock: ClockTime,
    // Whether the journal's disk has room for what changes.
    pub(crate) has_room: bool,
    // What `status` shows of the current song and the next one, until something of it changes.
    pub(crate) kept: KeptNext,
}

impl Model for Machine {
    ghost use Rattle.machine_core.specs.State.{MachineState};
    ghost use Rattle.machine_core.specs.Held.{held, IsRight};

    ghost Value = { MachineState };

    ghost view = { held };

    ghost invariant = { IsRight };
}

impl Machine {
    ghost use Rattle.std.specs.Prelude.{option_copied};
    ghost use Rattle.machine_core.specs.State.{settings_of};

    /// A machine that begins with what was saved: the player is stopped without a current song, no job runs, no clock has told anything,
    /// and there is room.
    pub fn new(alloc: Global, saved: Saved) -> Machine
        ensures { result ≡ started saved }
    {
        Machine {
            saved,
            player: Player::new(alloc),
            job: Job::none(),
            waiting: Vec::new(alloc),
            withheld: None,
            clock: ClockTime::untold(),
            has_room: true,
            kept: KeptNext::new(),
        }
    }

    /// The half that is saved.
    pub fn saved(&self) -> &Saved
        ensures { result.now ≡ self.now.saved }
    {
        &self.saved
    }

    pub fn player(&self) -> &Player
        ensures { result.now ≡ self.now.player }
    {
        &self.player
    }

    /// The last job of the database.
    pub fn job(&self) -> &Job
        ensures { result.now ≡ self.now.job }
    {
        &self.job
    }

    /// The last job that dropped nothing because it missed too many songs, until another goes on.
    pub fn withheld(&self) -> Option<&WithheldJob>
        ensures { option_copied result ≡ self.now.withheld }
    {
        self.withheld.as_ref()
    }

    // What of the saved half the player goes by.
    pub(crate) fn settings(&self) -> PlaySettings
        ensures { result ≡ settings_of self.now.saved }
    {
        PlaySettings {
            options: self.saved.options(),
            manners: manners_of(self.saved.profile()),
            key: self.saved.key(),
            order: self.saved.order(),
        }
    }
}
