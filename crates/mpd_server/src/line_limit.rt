// How many lines of one kind the log has.
ghost use Rattle.std.specs.Prelude.{◌≡◌, ◌+◌, nat_le};
ghost use Rattle.mpd_server.specs.Lines.{answer_at, limit_behind, IsTakenSometime};

use std::time::{Clock, Duration, Instant};

/// Lines of one kind, of which within a span of time no more than so many are written. The others are counted.
#[derive(Clone, Copy, Debug, PartialEq, Eq)]
pub struct LineLimit {
    /// How many lines a span has at most.
    pub most: u32,
    /// How many milliseconds a span lasts.
    pub span: u64,
    /// When the present one began, in milliseconds.
    pub since: u64,
    /// How many lines were written in it.
    pub told: u32,
    /// How many lines were left out since the last one that was written.
    pub left_out: u64,
}

impl LineLimit {
    // Whether the present span is over at this time.
    fn is_over(&self, now: u64) -> bool
        ensures { result ≡ nat_le (self.now.since + self.now.span) now }
    {
        match self.since.checked_add(self.span) {
            Some(end) => end <= now,
            None => false,
        }
    }

    /// Takes a line at this time, in milliseconds: how many were left out before it; none where it is left out itself.
    pub fn take(&mut self, now: u64) -> Option<u64>
        ensures answer { result ≡ answer_at now self.old }
        ensures behind { self.new ≡ limit_behind now self.old }
    {
        let left_out = self.left_out;
        if self.is_over(now) {
            self.since = now;
            self.told = 1;
            self.left_out = 0;
            return Some(left_out);
        }
        if self.told < self.most {
            self.told += 1;
            self.left_out = 0;
            return Some(left_out);
        }
        self.left_out = left_out.saturating_add(1);
        None
    }
}

/// The same by a clock. Where that can't be read, it stands at the beginning.
#[derive(Clone, Copy, Debug)]
pub struct TimedLimit {
    /// When it was made.
    pub begun: Option<Instant>,
    /// The limit, whose time begins then.
    pub limit: LineLimit,
}

impl TimedLimit {
    /// At most so many lines within so many milliseconds.
    pub fn new<R: Clock>(rt: &R, most: u32, span: u64) -> Self
        ensures { result.limit ≡ record { most = most; span = span; since = 0; told = 0; left_out = 0 } }
    {
        TimedLimit {
            begun: Instant::now(rt).ok(),
            limit: LineLimit {
                most,
                span,
                since: 0,
                told: 0,
                left_out: 0,
            },
        }
    }

    /// Takes a line now, as `LineLimit::take` does.
    pub fn take<R: Clock>(&mut self, rt: &R) -> Option<u64>
        ensures taken { IsTakenSometime self.old.limit self.new.limit result }
        ensures begun { self.new.begun ≡ self.old.begun }
    {
        let now = self.passed(rt);
        self.limit.take(now)
    }

    // How many milliseconds have passed since it was made.
    fn passed<R: Clock>(&self, rt: &R) -> u64 {
        let Some(begun) = self.begun else {
            return 0;
        };
        match begun.elapsed(rt) {
            Ok(passed) => milliseconds(passed),
            Err(_) => 0,
        }
    }

    /// How many lines were left out since the last one that was written.
    pub fn left_out(&self) -> u64
        ensures { result ≡ self.now.limit.left_out }
    {
        self.limit.left_out
    }
}

// A duration in milliseconds.
fn milliseconds(passed: Duration) -> u64 {
    let seconds = passed.as_secs().saturating_mul(1_000);
    seconds.saturating_add(u64::from(passed.subsec_millis()))
}
