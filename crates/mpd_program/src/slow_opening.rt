// Lines where the opening of a journal takes its time.
use crate::error_lines::LoopLog;
use crate::serve_config::ServeConfig;
use log::{Log, info};
use std::fs;
use std::sync::{Condvar, Mutex, Wait};
use std::thread::{JoinHandle, Scope};
use std::time::{Clock, Duration, Instant};

/// A journal of so many bytes, both files together, has a line before it is opened.
const LARGE: u64 = 16_777_216;

/// An opening that takes so many milliseconds has a line behind it, and one meanwhile.
const SLOW: u64 = 1_000;

/// Behind one that takes so many a checkpoint is made, so that the next one doesn't.
const LONG: u64 = 5_000;

/// So many seconds behind a line meanwhile there is another one.
const PAUSE: u64 = 5;

/// The opening of a journal: how large its files are, and when it began.
#[derive(Drop)]
pub(crate) struct Opening<'a> {
    rt: &'a HostRuntime,
    bytes: u64,
    begun: Option<Instant>,
}

impl<'a> Opening<'a> {
    /// It begins now. Of large files a line says so.
    pub(crate) fn begin<R: Clock>(rt: &'a HostRuntime, clock: &R, config: &ServeConfig) -> Self {
        let a = length_of(rt, config.journal_a.as_str());
        let b = length_of(rt, config.journal_b.as_str());
        let bytes = a.saturating_add(b);
        if bytes >= LARGE {
            info!(LoopLog::new(rt); "the journal is opened, both files have {bytes} bytes");
        }
        Opening {
            rt,
            bytes,
            begun: Instant::now(clock).ok(),
        }
    }

    /// It is over. Of a slow one a line says so; whether it took so long that a checkpoint is wanted.
    pub(crate) fn end<R: Clock>(&self, clock: &R) -> bool {
        let Some(begun) = self.begun else {
            return false;
        };
        let Ok(taken) = begun.elapsed(clock) else {
            return false;
        };
        if taken < Duration::from_millis(SLOW) {
            return false;
        }
        let (bytes, seconds) = (self.bytes, taken.as_secs());
        let tenths = taken.subsec_millis() / 100;
        info!(LoopLog::new(self.rt);
            "the journal was opened in {seconds}.{tenths} seconds, both files have {bytes} bytes"
        );
        taken >= Duration::from_millis(LONG)
    }
}

/// Lines that are told by a thread of their own while a journal is opened, until that is over.
#[derive(Drop)]
pub(crate) struct MeanwhileLines {
    is_over: Mutex<bool>,
    changed: Condvar,
}

impl MeanwhileLines {
    pub(crate) fn new() -> Self {
        MeanwhileLines {
            is_over: Mutex::new(false),
            changed: Condvar::new(),
        }
    }

    /// It is opened, or refused.
    pub(crate) fn end<R: Wait>(&self, threads: &R) {
        *self.is_over.lock(threads) = true;
        self.changed.notify_all();
    }

    // Waits for its end, for at most so many milliseconds; whether it came to that.
    fn is_over_within<R: Wait + Clock>(&self, threads: &R, limit: u64) -> bool {
        let guard = self.is_over.lock(threads);
        let limit = Duration::from_millis(limit);
        let (guard, _) = self
            .changed
            .wait_timeout_while(threads, guard, limit, |is_over| !*is_over);
        let is_over = *guard;
        drop(guard);
        is_over
    }

    // Tells a line after a second, and another one each five seconds, until it is over.
    fn tell<R: Wait + Clock>(&self, rt: &HostRuntime, threads: &R) {
        let mut limit = SLOW;
        for line in 0..u64::MAX {
            if self.is_over_within(threads, limit) {
                return;
            }
            let seconds = line.saturating_mul(PAUSE).saturating_add(1);
            info!(LoopLog::new(rt); "the journal is being opened, for {seconds} seconds so far");
            limit = PAUSE * 1_000;
        }
    }
}

/// Starts the thread that tells these lines; none where it can't be made.
pub(crate) fn start_lines<'s, E: 's, R: Wait + Clock + Sync + 's>(
    scope: &Scope<'s, E>,
    rt: &'s HostRuntime,
    threads: &'s R,
    lines: &'s MeanwhileLines,
) -> Option<JoinHandle<()>> {
    let thread = move || lines.tell(rt, threads);
    scope.spawn(thread).ok()
}

// How many bytes a file has; none where that can't be told.
fn length_of(rt: &HostRuntime, path: &str) -> u64 {
    match fs::metadata(rt, path) {
        Ok(found) => found.len(),
        Err(_) => 0,
    }
}
