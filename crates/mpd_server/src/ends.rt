// The end of the threads, which may take its time.
use log::{Log, warn};
use std::sync::{Condvar, Mutex, Wait};
use std::time::{Clock, Duration};

// How many milliseconds it is waited for before a line says so.
const PATIENCE: u64 = 500;

// Which of the threads have ended.
#[derive(Clone, Copy, Debug)]
struct Ended {
    player: bool,
    scan: bool,
    pictures: bool,
}

impl Ended {
    // What is still waited for.
    fn late(self) -> Option<&'static str> {
        match (self.player, self.scan, self.pictures) {
            (true, true, true) => None,
            (true, false, true) => Some("the scan, which reads the music"),
            (false, true, true) => Some("the player, which reads a song or writes sound"),
            (false, false, true) => Some("the player and the scan, which read the music"),
            (true, true, false) => Some("the reader of pictures"),
            (true, false, false) => Some("the scan and the reader of pictures"),
            (false, true, false) => Some("the player and the reader of pictures"),
            (false, false, false) => Some("the player, the scan and the reader of pictures"),
        }
    }
}

/// The ends of the threads of the player, of the scan and of the pictures, which the thread of the loop waits for.
#[derive(Drop)]
pub(crate) struct Ends {
    ended: Mutex<Ended>,
    changed: Condvar,
}

impl Ends {
    /// Neither the player nor the scan has; no thread of the pictures is begun yet.
    pub(crate) fn none() -> Ends {
        let ended = Ended {
            player: false,
            scan: false,
            pictures: true,
        };
        Ends {
            ended: Mutex::new(ended),
            changed: Condvar::new(),
        }
    }

    /// Takes a thread that was not made for one that has ended.
    pub(crate) fn none_begun(&self, rt: &impl Wait, is_no_player: bool, is_no_scan: bool) {
        if is_no_player {
            self.player_ended(rt);
        }
        if is_no_scan {
            self.scan_ended(rt);
        }
    }

    pub(crate) fn player_ended(&self, rt: &impl Wait) {
        self.ended.lock(rt).player = true;
        self.changed.notify_all();
    }

    pub(crate) fn scan_ended(&self, rt: &impl Wait) {
        self.ended.lock(rt).scan = true;
        self.changed.notify_all();
    }

    /// The thread of the pictures begins.
    pub(crate) fn pictures_begin(&self, rt: &impl Wait) {
        self.ended.lock(rt).pictures = false;
    }

    /// It has ended, or was not made.
    pub(crate) fn pictures_ended(&self, rt: &impl Wait) {
        self.ended.lock(rt).pictures = true;
        self.changed.notify_all();
    }

    /// Returns once all have ended, or behind a line of the log that says which has not: a thread can't be left behind.
    pub(crate) fn tell_late<R: Wait + Clock + Log>(&self, rt: &R) {
        let patience = Duration::from_millis(PATIENCE);
        let guard = self.ended.lock(rt);
        let (guard, _) = self
            .changed
            .wait_timeout_while(rt, guard, patience, |ended| ended.late().is_some());
        let late = guard.late();
        drop(guard);
        if let Some(late) = late {
            warn!(rt;
                "the end waits for {late}, which has not come back from the system so far; what was answered is kept, and a signal ends it"
            );
        }
    }
}
