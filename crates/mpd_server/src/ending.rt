// How a daemon ends.
ghost use Rattle.std.specs.Prelude.{◌≡◌, ◌↔◌, IsTrue};
ghost use Rattle.mpd_server.specs.Ends.{ending_of, refusal_number, refusal_of, status_of};

use disk_model::Disk;
use live_stage::{Live, Refused, StartError};

/// How a daemon ended.
#[derive(Clone, Copy, Debug, PartialEq, Eq)]
pub enum ServeStatus {
    /// A client asked for its end.
    Killed,
    /// The journal was refused, with the number of the refusal: 4, 5, 7 or 49.
    JournalRefused(u8),
    /// A thread could not be made.
    NoThread,
    /// A second disk fault, or a first one where no further life can be had or the daemon was ended already.
    DiskFault,
}

/// What a daemon came to, and both disks.
#[derive(Debug, Drop)]
pub struct ServeEnd<D> {
    pub status: ServeStatus,
    /// The disk of file a.
    pub a: D,
    /// The disk of file b.
    pub b: D,
}

/// The number with which a journal is refused, opened or made; none where a disk failed.
pub fn refusal_number(error: StartError) -> Option<u8>
    ensures { result ≡ refusal_number error }
{
    match error {
        StartError::Broken => None,
        other => Some(other.number()),
    }
}

/// What came of the time from one opening of the journal on.
#[derive(Clone, Copy, Debug, PartialEq, Eq)]
pub(crate) enum LifeEnding {
    /// A disk fault ended it.
    Faulted,
    /// It ended the daemon.
    Ended(ServeStatus),
}

/// The end of a life, and both disks.
#[derive(Drop)]
pub(crate) struct Life<D> {
    pub(crate) ending: LifeEnding,
    pub(crate) a: D,
    pub(crate) b: D,
}

impl<D> Life<D> {
    /// Whether a disk fault ended it.
    pub(crate) fn is_faulted(&self) -> bool
        ensures { IsTrue result ↔ (self.now.ending ≡ LifeEnding.Faulted) }
    {
        matches!(self.ending, LifeEnding::Faulted)
    }
}

impl<D: Disk> Life<D> {
    /// A life in which the journal was not opened.
    pub(crate) fn refused(refused: Refused<D>) -> Life<D>
        ensures ending { result.ending ≡ refusal_of refused.error }
        ensures a { result.a ≡ refused.a }
        ensures b { result.b ≡ refused.b }
    {
        let Refused { error, a, b } = refused;
        let ending = match refusal_number(error) {
            None => LifeEnding::Faulted,
            Some(number) => LifeEnding::Ended(ServeStatus::JournalRefused(number)),
        };
        Life { ending, a, b }
    }

    /// The end of a stage: of the daemon with this status, unless a disk failed. Where the daemon was ended already, a disk fault doesn't
    /// undo that.
    pub(crate) fn ended(live: Live<D>, status: ServeStatus, is_ended: bool) -> Life<D>
        ensures ending { result.ending ≡ ending_of live.is_broken is_ended status }
        ensures disks { (result.a ≡ live.a) × (result.b ≡ live.b) }
    {
        let ending = match (live.is_broken(), is_ended) {
            (false, _) => LifeEnding::Ended(status),
            (true, false) => LifeEnding::Faulted,
            (true, true) => LifeEnding::Ended(ServeStatus::DiskFault),
        };
        let (a, b) = live.into_disks();
        Life { ending, a, b }
    }

    /// The daemon's end, where this was its last life.
    pub(crate) fn last(self) -> ServeEnd<D>
        ensures { result ≡ record { status = status_of self.ending; a = self.a; b = self.b } }
    {
        let Life { ending, a, b } = self;
        let status = match ending {
            LifeEnding::Faulted => ServeStatus::DiskFault,
            LifeEnding::Ended(status) => status,
        };
        ServeEnd { status, a, b }
    }
}
