// Which subsystems a command or an event changed, told by values of before it. Nothing is copied for it but numbers, and no list is
// walked but that of the ops that were made.
ghost use Rattle.std.specs.Prelude.{◌≡◌};
ghost use Rattle.std.specs.List.{list_any};
ghost use Rattle.state_codec.specs.SavedState.{IsSavedState};
ghost use Rattle.machine_core.specs.Before.{before_of, changed_since, is_of_lists, is_of_stickers, keeps_job, plays_on};
ghost use Rattle.machine_core.specs.Changed.{same_options};

use crate::machine::Machine;
use idle_masks::Subsystems;
use player_core::{Options, PlayState, Volume};
use state_codec::Op;

// What is kept of a machine before a command or an event, to be compared behind it.
#[derive(Drop)]
pub(crate) struct Before {
    version: u32,
    volume: Volume,
    options: Options,
    state: PlayState,
    current: Option<u32>,
    ticket: u64,
    // The number of the last job: a job has one place, so the place isn't kept.
    job: u32,
    runs: bool,
}

impl Before {
    // Whether songs were played at random.
    pub(crate) fn random(&self) -> bool
        ensures { result ≡ self.now.options.random }
    {
        self.options.random
    }

    // The song that was current.
    pub(crate) fn current(&self) -> Option<u32>
        ensures { result ≡ self.now.current }
    {
        self.current
    }
}

impl Machine {
    // What is kept of the machine before a command or an event.
    pub(crate) fn before(&self) -> Before
        ensures value { result ≡ before_of self.now }
        ensures kept { IsSavedState self.now.saved }
    {
        let _key = self.saved.key();
        Before {
            version: self.saved.queue().version(),
            volume: self.saved.volume(),
            options: self.saved.options(),
            state: self.player.state(),
            current: self.player.current(),
            ticket: self.player.ticket(),
            job: self.job.number,
            runs: self.job.runs,
        }
    }

    // The subsystems that differ from before, where the ops made since tell of playlists and stickers.
    pub(crate) fn changed_since(&self, before: &Before, made: &[Op]) -> Subsystems
        ensures { result ≡ changed_since before.now made.now self.now }
    {
        Subsystems {
            database: false,
            update: !self.keeps_job(before),
            stored_playlist: have_list_op(made),
            playlist: before.version != self.saved.queue().version(),
            player: !self.plays_on(before),
            mixer: before.volume.percent() != self.saved.volume().percent(),
            options: !same_options(before.options, self.saved.options()),
            sticker: have_sticker_op(made),
            // The daemon tells these itself.
            subscription: false,
            message: false,
        }
    }

    // The last job is the one of before, and it runs where it ran.
    fn keeps_job(&self, before: &Before) -> bool
        ensures { result ≡ keeps_job before.now self.now }
    {
        before.job == self.job.number && before.runs == self.job.runs
    }

    // The player's state, song and ticket are those of before.
    pub(crate) fn plays_on(&self, before: &Before) -> bool
        ensures { result ≡ plays_on before.now self.now }
    {
        before.state == self.player.state()
            && before.current == self.player.current()
            && before.ticket == self.player.ticket()
    }
}

pub(crate) fn have_list_op(ops: &[Op]) -> bool
    ensures { result ≡ list_any is_of_lists ops.now }
{
    ops.iter().any(|op| matches!(op, Op::List(_)))
}

fn have_sticker_op(ops: &[Op]) -> bool
    ensures { result ≡ list_any is_of_stickers ops.now }
{
    ops.iter().any(|op| matches!(op, Op::Sticker(_)))
}

fn same_options(one: Options, other: Options) -> bool
    ensures { result ≡ same_options one other }
{
    one.repeat == other.repeat
        && one.random == other.random
        && one.single == other.single
        && one.consume == other.consume
}
