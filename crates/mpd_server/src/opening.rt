// The journal at the beginning of a life.
ghost use Rattle.std.specs.Prelude.{◌≡◌, ◌⊎◌, ◌+◌, true, false, Ok, Err, IsSome, IfOk, IfErr, MatchResult};
ghost use Rattle.disk_model.specs.Later.{AreLater, HasFailed};
ghost use Rattle.live_stage.specs.Found.{AllOpenNow};
ghost use Rattle.live_stage.specs.Numbers.{most_work};
ghost use Rattle.live_stage.specs.Turns.{IsBegun};
ghost use Rattle.mpd_server.specs.declared.ending.ServeStatus.{ServeStatus};
ghost use Rattle.mpd_server.specs.Ends.{IsRefusalOfStart};
ghost use Rattle.mpd_server.specs.Openings.{IsOpening, IsOpenedAgain, IsNotOpened, IsNotBegun, RefusesOnceOrAgain};

use crate::ending::{Life, ServeEnd};
use disk_model::Disk;
use live_stage::Live;
use profile::Profile;
use std::alloc::Global;
use std::marker::Model;

/// A stage that has had no event, and whether a disk failed before it was opened.
#[derive(Drop)]
pub struct Opened<D: Disk> {
    live: Live<D>,
    is_second: bool,
}

impl<D: Disk> Model for Opened<D> {
    ghost use Rattle.mpd_server.specs.Openings.{OpenedState};

    ghost Value = { OpenedState D };

    ghost view = { λ o. record { live = o.live; is_second = o.is_second } };
}

impl<D: Disk> Opened<D> {
    /// Whether the journal had an older layout, and was brought to the one that is written.
    pub fn was_migrated(&self) -> bool
        ensures { result ≡ self.now.live.was_migrated }
    {
        self.live.was_migrated()
    }

    /// The records that were found took long to apply: once room is made for others, a checkpoint is.
    pub fn count_as_much(&mut self)
        ensures { self.new ≡ record self.old { live = record self.old.live { work = most_work + 1 } } }
    {
        self.live.count_as_much();
    }

    // The stage, and whether a disk failed before it was opened.
    pub(crate) fn into_parts(self) -> (Live<D>, bool)
        ensures { (result.0 ≡ self.live) × (result.1 ≡ self.is_second) }
    {
        let Opened { live, is_second } = self;
        (live, is_second)
    }
}

/// Opens the journal on the disks of files a and b under a profile. Where it isn't opened, the life that was to begin has ended so.
pub(crate) fn open_life<D: Disk>(
    alloc: Global,
    profile: Profile,
    a: D,
    b: D,
) -> Result<Live<D>, Life<D>>
    ensures begun { IfOk result (λ live. IsBegun live.state.machine.saved live × (live.state.machine.saved.profile ≡ profile)) }
    ensures opened { D.honest a → D.honest b
        → IfOk result (λ live. IsOpening profile D.content D.history D.faults a b (Ok live) live.a live.b) }
    ensures refused { IfErr result (λ life. IsNotOpened (λ error. D.honest a → D.honest b
        → IsOpening profile D.content D.history D.faults a b (Err error) life.a life.b) life.ending) }
    ensures later { MatchResult result (λ live. AreLater D.honest D.history D.faults a b live.a live.b)
        (λ life. AreLater D.honest D.history D.faults a b life.a life.b) }
{
    match Live::open(alloc, profile, a, b) {
        Ok(live) => Ok(live),
        Err(refused) => Err(Life::refused(refused)),
    }
}

/// Opens the journal on the disks of files a and b under a profile, and after a disk fault once more.
///
/// The journal's refusal hands both disks back: 4, 5, 7 or 49, or a disk fault where both openings met one.
pub fn open_journal<D: Disk>(
    alloc: Global,
    profile: Profile,
    a: D,
    b: D,
) -> Result<Opened<D>, ServeEnd<D>>
    ensures begun { IfOk result (λ opened. IsBegun opened.live.state.machine.saved opened.live
        × (opened.live.state.machine.saved.profile ≡ profile)) }

    // It goes on from what the files give, and a start that is stopped at any moment loses nothing of it.
    ensures once { D.honest a → D.honest b → IfOk result (λ opened. opened.is_second ≡ false
        → IsOpening profile D.content D.history D.faults a b (Ok opened.live) opened.live.a opened.live.b) }
    ensures again { D.honest a → D.honest b → IfOk result (λ opened. opened.is_second ≡ true
        → IsOpenedAgain profile D.content D.history D.faults a b (Ok opened.live) opened.live.a opened.live.b) }

    // So does one that is refused, which names what is wrong with the files.
    ensures refused { IfErr result (λ e. IsNotBegun (λ error. D.honest a → D.honest b
        → RefusesOnceOrAgain profile D.content D.history D.faults a b error e.a e.b) e.status) }
    ensures ended { IfErr result (λ e. IsRefusalOfStart e.status) }

    // Where a restart finds a state in each pair that a crash may have left, it opens, unless memory is wanting, numbers are spent or a disk
    // fails twice.
    ensures opens { D.honest a → D.honest b → AllOpenNow profile (λ f. IsSome f) (D.history a) (D.history b)
        → IfErr result (λ e. (e.status ≡ ServeStatus.JournalRefused 7) ⊎ (e.status ≡ ServeStatus.JournalRefused 49)
        ⊎ (e.status ≡ ServeStatus.DiskFault)) }
    ensures fault { D.honest a → D.honest b → IfErr result (λ e. e.status ≡ ServeStatus.DiskFault
        → HasFailed D.faults a b e.a e.b) }
    ensures later { MatchResult result (λ opened. AreLater D.honest D.history D.faults a b opened.live.a opened.live.b)
        (λ e. AreLater D.honest D.history D.faults a b e.a e.b) }
{
    let first = match open_life(alloc, profile, a, b) {
        Ok(live) => {
            return Ok(Opened {
                live,
                is_second: false,
            });
        }
        Err(first) => first,
    };
    if !first.is_faulted() {
        return Err(first.last());
    }
    let Life { ending: _, a, b } = first;
    match open_life(alloc, profile, a, b) {
        Ok(live) => Ok(Opened {
            live,
            is_second: true,
        }),
        Err(second) => Err(second.last()),
    }
}
