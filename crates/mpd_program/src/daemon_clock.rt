// What a clock tells of the daemon.
use mio_clients::ClockTime;
use std::time::{Instant, SystemTime, UNIX_EPOCH};

/// Since when the daemon runs. A clock that fails tells 0.
#[derive(Drop)]
pub struct DaemonClock<'a> {
    rt: &'a HostRuntime,
    began: Option<Instant>,
    // Seconds since the beginning of 1970.
    began_at: u64,
}

// How many seconds have passed since the beginning of 1970.
fn seconds_now(rt: &HostRuntime) -> u64 {
    match SystemTime::now(rt) {
        Ok(now) => match now.duration_since(UNIX_EPOCH) {
            Ok(passed) => passed.as_secs(),
            Err(_) => 0,
        },
        Err(_) => 0,
    }
}

impl<'a> DaemonClock<'a> {
    /// The daemon begins.
    pub fn new(rt: &'a HostRuntime) -> Self {
        DaemonClock {
            rt,
            began: Instant::now(rt).ok(),
            began_at: seconds_now(rt),
        }
    }

    /// What the time is now.
    pub fn time(&self) -> ClockTime {
        let uptime = match &self.began {
            None => 0,
            Some(began) => match began.elapsed(self.rt) {
                Ok(passed) => passed.as_secs(),
                Err(_) => 0,
            },
        };
        ClockTime {
            began: self.began_at,
            uptime,
            now: seconds_now(self.rt),
            is_unread: false,
        }
    }
}
