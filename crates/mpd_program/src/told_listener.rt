// Where clients connect, with a line on standard error where they can't.
use crate::calls::CallWatch;
use crate::daemon_clock::DaemonClock;
use crate::error_lines::{TakenLog, WatchedLines};
use log::{Log, warn};
use mio_clients::{ClockTime, Listener, Socket, SocketListener};
use mpd_server::TimedLimit;
use std::io::{self, ErrorKind};
use std::time::{Duration, Instant};

/// How many lines there are at most within a minute.
const MOST_LINES: u32 = 10;

const MINUTE: u64 = 60_000;

/// The calls of the system for the music that the player, the scan and the reader of pictures make, and the waits for the output.
#[derive(Drop)]
pub struct MusicCalls {
    pub player: CallWatch,
    pub scan: CallWatch,
    pub pictures: CallWatch,
    pub output: CallWatch,
}

/// Listening sockets that say why a client can't be accepted: once, until no client waits any more. Whoever wants to connect waits
/// meanwhile. They say too which client gave way to another, and where a call of the system for the music takes ten seconds.
#[derive(Drop)]
pub struct ToldListener<'a> {
    log: TakenLog<'a>,
    lines: WatchedLines,
    sockets: SocketListener,
    is_told: bool,
    // Of each of both lines, so that none uses up what the other may have.
    waiting: TimedLimit,
    giving_way: TimedLimit,
    standing: TimedLimit,
    calls: MusicCalls,
    // The daemon's clock, if it goes by one.
    clock: Option<&'a DaemonClock<'a>>,
    // When they were made, and how many milliseconds had passed since when that was last asked.
    began: Option<Instant>,
    now: u64,
}

// A time in milliseconds, as it is told.
fn told_time(passed: u64) -> (u64, &'static str) {
    if passed < MINUTE {
        (passed / 1_000, "seconds")
    } else {
        (passed / MINUTE, "minutes")
    }
}

// A duration in milliseconds.
fn milliseconds(passed: Duration) -> u64 {
    let seconds = passed.as_secs().saturating_mul(1_000);
    seconds.saturating_add(u64::from(passed.subsec_millis()))
}

impl<'a> ToldListener<'a> {
    pub fn new(
        rt: &'a HostRuntime,
        sockets: SocketListener,
        calls: MusicCalls,
        clock: Option<&'a DaemonClock<'a>>,
    ) -> Self {
        ToldListener {
            log: TakenLog { rt },
            lines: WatchedLines::new(rt),
            sockets,
            is_told: false,
            waiting: TimedLimit::new(rt, MOST_LINES, MINUTE),
            giving_way: TimedLimit::new(rt, MOST_LINES, MINUTE),
            standing: TimedLimit::new(rt, MOST_LINES, MINUTE),
            calls,
            clock,
            began: Instant::now(rt).ok(),
            now: 0,
        }
    }

    // Says which thread has stood in one call for ten seconds now.
    fn tell_standing(&mut self) {
        let now = self.now;
        let calls = &mut self.calls;
        let threads = [
            ("player", calls.player.is_late(now)),
            ("scan", calls.scan.is_late(now)),
            ("reader of pictures", calls.pictures.is_late(now)),
        ];
        for (thread, is_late) in threads {
            if is_late && is_written(&mut self.lines, &mut self.standing, self.log) {
                warn!(self.log;
                    "the {thread} has waited for ten seconds for one call of the system for the music: is its drive there?"
                );
            }
        }
        if calls.output.is_late(now) && is_written(&mut self.lines, &mut self.standing, self.log) {
            warn!(self.log; "nobody has read the output for ten seconds");
        }
    }
}

// Whether a line is written. Where others like it were left out before it, another one says how many.
fn is_written(lines: &mut WatchedLines, limit: &mut TimedLimit, log: TakenLog<'_>) -> bool {
    if !lines.takes_line() {
        return false;
    }
    let Some(left_out) = limit.take(log.rt) else {
        return false;
    };
    if left_out > 0 {
        warn!(log; "{left_out} lines like the next one were left out: ten of a kind within a minute are written");
    }
    true
}

impl Listener<Socket> for ToldListener<'_> {
    fn accept(&mut self) -> io::Result<Socket> {
        let accepted = self.sockets.accept();
        if let Err(error) = &accepted {
            match error.kind() {
                ErrorKind::WouldBlock => self.is_told = false,
                ErrorKind::Interrupted => {}
                _ if self.is_told => {}
                _ => {
                    self.is_told = true;
                    if is_written(&mut self.lines, &mut self.waiting, self.log) {
                        warn!(self.log; "clients wait, none can be accepted: {error}");
                    }
                }
            }
        }
        accepted
    }

    fn now(&mut self) -> u64 {
        // Where the clock can't be read, the last time stands.
        if let Some(began) = &self.began {
            if let Ok(passed) = began.elapsed(self.log.rt) {
                self.now = milliseconds(passed);
            }
        }
        self.tell_standing();
        self.now
    }

    fn clock(&mut self) -> Option<ClockTime> {
        match &self.clock {
            Some(clock) => {
                let mut time = clock.time();
                time.is_unread = self.calls.output.is_standing(self.now);
                Some(time)
            }
            None => None,
        }
    }

    fn gave_way(&mut self, client: u64, silence: u64) {
        if is_written(&mut self.lines, &mut self.giving_way, self.log) {
            let (time, unit) = told_time(silence);
            warn!(self.log; "client {client} gave its place to another: nothing came of it for {time} {unit}");
        }
    }
}
