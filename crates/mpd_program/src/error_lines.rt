// Lines on standard error that nobody needs to read.
use crate::limited_files::room_at;
use crate::process_limits::longest_file;
use crate::readiness::{Readiness, STEP};
use crate::stop_flag::StopFlag;
use log::kv::Source;
use log::span::Spans;
use log::{Level, Line, Log, Metadata, Record};
use std::fmt::Display;
use std::fs::{self, File, OpenOptions};
use std::io::{self, ErrorKind, Write};
use std::os::fd::{OwnedFd, RawFd};
use std::os::unix::fs::FileTypeExt;
use std::os::unix::net::UnixStream;
use std::sync::atomic::{AtomicBool, AtomicU64, Ordering};
use std::thread;
use std::time::{Duration, Instant};

/// The descriptor of standard error.
const STANDARD_ERROR: RawFd = 2;

/// By which path it is opened once more.
const ITS_PATH: &str = "/proc/self/fd/2";

/// How many milliseconds a line waits at most for a reader.
const PATIENCE: u64 = 1_000;

/// How many lines of `debug` there are at most within a minute, of so many seconds.
const MOST_OF_DEBUG: u64 = 1_000;

const MINUTE: u64 = 60;

/// How long a line waits: not at all behind one that was not taken.
fn patience(is_full: bool) -> u64 {
    if is_full { 0 } else { PATIENCE }
}

/// What is known of standard error.
#[derive(Drop)]
enum Watch {
    /// It takes any line, as a file does.
    Always,
    /// The system tells when it takes one.
    Told(Readiness),
    /// Nothing: the system has no descriptor or no memory for telling it.
    Unknown,
}

impl Watch {
    fn new(rt: &HostRuntime) -> Self {
        match Readiness::of(rt, STANDARD_ERROR) {
            Ok(Some(readiness)) => Watch::Told(readiness),
            Ok(None) => Watch::Always,
            Err(_) => Watch::Unknown,
        }
    }

    // Whether a line is taken within so many milliseconds; none where the system can't tell, and hasn't waited.
    fn answer(&mut self, limit: u64) -> Option<bool> {
        match self {
            Watch::Always => Some(true),
            Watch::Told(readiness) => readiness.wait(limit).ok(),
            Watch::Unknown => None,
        }
    }

    // The same. Where it isn't known the line would wait for a reader, who may never come: so it counts as not taken.
    fn takes_line(&mut self, limit: u64) -> bool {
        self.answer(limit).unwrap_or(false)
    }
}

/// Whether standard error takes a line now, or within a second: where nobody reads a pipe, it doesn't, nor where the system can't tell.
pub fn takes_line(rt: &HostRuntime) -> bool {
    Watch::new(rt).takes_line(PATIENCE)
}

/// What standard error is.
#[derive(Drop)]
enum Stream {
    /// A terminal, opened once more, so that a write to it never waits, and others' do as before.
    Terminal(File),
    /// A regular file of so many bytes.
    File(u64),
    /// Anything else, and what can't be looked at or opened.
    Other,
}

impl Stream {
    fn of(rt: &HostRuntime) -> Stream {
        let Ok(found) = fs::metadata(rt, ITS_PATH) else {
            return Stream::Other;
        };
        if found.is_file() {
            return Stream::File(found.len());
        }
        if found.file_type().is_char_device() {
            if let Ok(terminal) = own_terminal(rt) {
                return Stream::Terminal(terminal);
            }
        }
        Stream::Other
    }
}

// Standard error, opened once more, so that a write to it never waits.
fn own_terminal(rt: &HostRuntime) -> io::Result<File> {
    let file = OpenOptions::new().write(true).open(rt, ITS_PATH)?;
    keep_from_waiting(&file)?;
    Ok(file)
}

/// Writes a line on standard error, of which it is known that it takes one. A terminal that is full takes a part of it, and says only that
/// it takes some: so what goes to one doesn't wait for its reader for more than a second, and the rest of the line is dropped. So is a line
/// by which a regular file would become longer than it may.
pub fn put_line<D: Display + Drop>(rt: &HostRuntime, line: D) {
    match Stream::of(rt) {
        Stream::Terminal(terminal) => put_on(rt, terminal, line),
        Stream::File(bytes) if !has_room(rt, bytes, &line) => {}
        Stream::File(_) | Stream::Other => {
            let _printed = eprintln!(rt; "{line}");
        }
    }
}

// Whether a regular file of so many bytes may have a line more. Where memory for that line is refused, it has none.
fn has_room<D: Display>(rt: &HostRuntime, bytes: u64, line: &D) -> bool {
    let Some(limit) = longest_file(rt) else {
        return true;
    };
    let Ok(text) = format!(in rt.alloc(); "{line}\n") else {
        return false;
    };
    matches!(room_at(limit, bytes, text.len()), Ok(room) if room == text.len())
}

/// From now on a write that would wait is refused by `WouldBlock`, as where others have filled the pipe behind the look at it.
pub(crate) fn keep_from_waiting(file: &File) -> io::Result<()> {
    // The two descriptors are of one opened file, to which this is said. That it is no socket doesn't matter.
    let other = OwnedFd::from(file.try_clone()?);
    UnixStream::from(other).set_nonblocking(true)
}

// Writes a line on a terminal, or as much of it as that takes within a second.
fn put_on<D: Display + Drop>(rt: &HostRuntime, mut terminal: File, line: D) {
    let Ok(text) = format!(in rt.alloc(); "{line}\n") else {
        // Where memory is refused, it is written in pieces, of which none waits.
        let _printed = writeln!(terminal, "{line}");
        return;
    };
    let mut rest = text.as_bytes();
    for _ in 0..PATIENCE / STEP {
        match terminal.write(rest) {
            Ok(count) => rest = &rest[count.min(rest.len())..],
            Err(error) if error.kind() == ErrorKind::WouldBlock => {
                thread::sleep(rt, Duration::from_millis(STEP));
            }
            Err(_) => return,
        }
        if rest.is_empty() {
            return;
        }
    }
}

/// Writes a line of a start on standard error, unless nobody takes it within a second. Where the system can't tell that, as without a free
/// descriptor, it is written all the same: why nothing is begun is to be known.
pub(crate) fn say<D: Display + Drop>(rt: &HostRuntime, line: D) {
    if Watch::new(rt).answer(PATIENCE).unwrap_or(true) {
        put_line(rt, line);
    }
}

/// Lines of `debug`, of which a minute has so many at most.
#[derive(Drop)]
struct MinuteCount {
    begun: Option<Instant>,
    minute: AtomicU64,
    told: AtomicU64,
}

impl MinuteCount {
    fn new(rt: &HostRuntime) -> Self {
        MinuteCount {
            begun: Instant::now(rt).ok(),
            minute: AtomicU64::new(0),
            told: AtomicU64::new(0),
        }
    }

    // How many seconds have passed since it was made.
    fn passed(&self, rt: &HostRuntime) -> u64 {
        let Some(begun) = self.begun else {
            return 0;
        };
        match begun.elapsed(rt) {
            Ok(passed) => passed.as_secs(),
            Err(_) => 0,
        }
    }

    // How many lines this minute had before this one.
    fn before(&self, rt: &HostRuntime) -> u64 {
        let minute = self.passed(rt) / MINUTE;
        if self.minute.swap(minute, Ordering::SeqCst) != minute {
            self.told.store(0, Ordering::SeqCst);
        }
        self.told.fetch_add(1, Ordering::SeqCst)
    }
}

/// Lines of the loop's thread that are told also where descriptors are used up: what watches standard error was made before that.
#[derive(Drop)]
pub struct WatchedLines {
    watch: Watch,
    // The line before was not taken.
    is_full: bool,
}

impl WatchedLines {
    pub fn new(rt: &HostRuntime) -> Self {
        WatchedLines {
            watch: Watch::new(rt),
            is_full: false,
        }
    }

    /// Whether a line is taken now, or within a second if the one before it was.
    pub fn takes_line(&mut self) -> bool {
        let is_taken = self.watch.takes_line(patience(self.is_full));
        self.is_full = !is_taken;
        is_taken
    }
}

/// Lines of a thread that ends with the daemon's life: each waits until it is taken, but not once the flag is set.
#[derive(Drop)]
pub struct ErrorLines {
    watch: Watch,
    stop: StopFlag,
}

impl ErrorLines {
    pub fn new(rt: &HostRuntime, stop: StopFlag) -> Self {
        ErrorLines {
            watch: Watch::new(rt),
            stop,
        }
    }

    /// Waits until a line is taken; `false` where the flag is set before that, or the system can't tell.
    pub fn is_ready(&mut self) -> bool {
        for _ in 0..u64::MAX {
            if self.stop.is_set() {
                return false;
            }
            match self.watch.answer(STEP) {
                Some(true) => return true,
                Some(false) => {}
                None => return false,
            }
        }
        false
    }
}

/// Log lines of the daemon: one that isn't taken within a second is dropped, and behind it each that isn't taken at once. Of those of
/// `debug` a minute has a thousand at most, and then one that says so.
#[derive(Drop)]
pub struct LoopLog<'a> {
    lines: TakenLog<'a>,
    // The line before was not taken.
    is_full: AtomicBool,
    of_debug: MinuteCount,
}

impl<'a> LoopLog<'a> {
    pub fn new(rt: &'a HostRuntime) -> Self {
        LoopLog {
            lines: TakenLog { rt },
            is_full: AtomicBool::new(false),
            of_debug: MinuteCount::new(rt),
        }
    }

    // Whether a line is taken.
    fn is_taken(&self) -> bool {
        let limit = patience(self.is_full.load(Ordering::SeqCst));
        let is_taken = Watch::new(self.lines.rt).takes_line(limit);
        self.is_full.store(!is_taken, Ordering::SeqCst);
        is_taken
    }

    // Whether a line of `debug` is one that its minute has.
    fn is_within(&self) -> bool {
        let rt = self.lines.rt;
        let before = self.of_debug.before(rt);
        if before == MOST_OF_DEBUG && self.is_taken() {
            put_line(
                rt,
                "[DEBUG mpd_program::error_lines] what else there is of these lines within this minute is left out",
            );
        }
        before < MOST_OF_DEBUG
    }
}

impl Log for LoopLog<'_> {
    ghost use Rattle.std.specs.Prelude.{true, Some, []};

    ghost enables = { λ _ _ _. Some true };

    ghost target_of = { λ _. Some [] };

    fn enabled(&self, _metadata: &Metadata<'_>) -> bool {
        true
    }

    fn log<D: Display, K: Source, S: Spans>(&self, record: &Record<'_, D, K, S>) {
        let is_of_debug = matches!(record.level(), Level::Debug | Level::Trace);
        if (!is_of_debug || self.is_within()) && self.is_taken() {
            self.lines.log(record);
        }
    }

    fn flush(&self) {}

    fn target(&self) -> &str {
        ""
    }
}

/// Log lines of which it is known that standard error takes them.
#[derive(Clone, Copy)]
pub struct TakenLog<'a> {
    pub rt: &'a HostRuntime,
}

impl Log for TakenLog<'_> {
    ghost use Rattle.std.specs.Prelude.{true, Some, []};

    ghost enables = { λ _ _ _. Some true };

    ghost target_of = { λ _. Some [] };

    fn enabled(&self, _metadata: &Metadata<'_>) -> bool {
        true
    }

    fn log<D: Display, K: Source, S: Spans>(&self, record: &Record<'_, D, K, S>) {
        put_line(self.rt, Line::new(record));
    }

    fn flush(&self) {}

    fn target(&self) -> &str {
        ""
    }
}
