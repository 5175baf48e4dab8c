// What the log is told of songs that can't be played on.
use crate::line_limit::TimedLimit;
use log::{Log, warn};
use player_core::BrokenCause;
use profile::Profile;
use song_files::{FileStamp, Folder, FolderEntry, FolderFault};
use stage_workers::Wake;
use std::alloc::Global;
use std::cell::Cell;
use std::time::Clock;

/// How many songs are named at most within ten seconds.
const MOST_TOLD: u32 = 10;

const TEN_SECONDS: u64 = 10_000;

/// How a song's file was opened last.
#[derive(Clone, Copy, Debug, PartialEq, Eq)]
pub(crate) enum Opening {
    Opened,
    /// There was no such file.
    Missing,
    /// It could not be opened.
    Refused,
}

/// The folder that the player reads. It notes how a file was opened.
#[derive(Drop)]
pub(crate) struct NotedFolder<'a, F> {
    pub(crate) files: F,
    pub(crate) opening: &'a Cell<Opening>,
}

impl<F: Folder> Folder for NotedFolder<'_, F> {
    type File = F::File;

    ghost files = { λ f. F.files f.files };

    ghost honest = { λ f. F.honest f.files };

    ghost steady = { λ f. F.steady f.files };

    fn list(&mut self, alloc: Global, path: &str) -> Result<Option<Vec<FolderEntry>>, FolderFault> {
        self.files.list(alloc, path)
    }

    fn look(&mut self, alloc: Global, path: &str) -> Result<Option<FileStamp>, FolderFault> {
        self.files.look(alloc, path)
    }

    fn open(&mut self, alloc: Global, path: &str) -> Result<Option<F::File>, FolderFault> {
        let opened = self.files.open(alloc, path);
        match &opened {
            Ok(Some(_)) => self.opening.set(Opening::Opened),
            Ok(None) => self.opening.set(Opening::Missing),
            Err(_) => self.opening.set(Opening::Refused),
        }
        opened
    }
}

/// Wakes the loop, and under the wide profile tells the log which songs could not be played on, and why.
#[derive(Drop)]
pub(crate) struct ToldWake<'a, R, K> {
    pub(crate) rt: &'a R,
    pub(crate) wake: &'a K,
    pub(crate) profile: Profile,
    pub(crate) opening: &'a Cell<Opening>,
    pub(crate) limit: Cell<TimedLimit>,
}

impl<'a, R: Clock, K> ToldWake<'a, R, K> {
    pub(crate) fn new(
        rt: &'a R,
        wake: &'a K,
        profile: Profile,
        opening: &'a Cell<Opening>,
    ) -> Self {
        ToldWake {
            rt,
            wake,
            profile,
            opening,
            limit: Cell::new(TimedLimit::new(rt, MOST_TOLD, TEN_SECONDS)),
        }
    }

    // Why the song that is played can't be played on.
    fn why(&self, cause: BrokenCause) -> &'static str {
        match cause {
            BrokenCause::Output => "the output takes nothing more",
            BrokenCause::Source => match self.opening.get() {
                Opening::Opened => {
                    "its file can't be read on, or is no song of a kind that is played"
                }
                Opening::Missing => "there is no such file",
                Opening::Refused => "its file can't be opened",
            },
        }
    }
}

impl<R: Log + Clock, K: Wake> Wake for ToldWake<'_, R, K> {
    fn wake(&self) {
        self.wake.wake();
    }

    fn cannot_play(&self, uri: &str, cause: BrokenCause) {
        if let Profile::Named = self.profile {
            return;
        }
        let mut limit = self.limit.get();
        let taken = limit.take(self.rt);
        self.limit.set(limit);
        let Some(left_out) = taken else {
            return;
        };
        if left_out > 0 {
            warn!(self.rt; "{left_out} songs before it could not be played: ten within ten seconds have a line");
        }
        let why = self.why(cause);
        warn!(self.rt; "cannot play {uri}: {why}");
    }
}
