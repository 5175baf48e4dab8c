//! The daemon over the files, the sockets and the output of its configuration.
ghost use Rattle.std.specs.Prelude.{◌≡◌, IfOk};
ghost use Rattle.std.specs.Thread.{IsSync};
ghost use Rattle.mpd_program.specs.Daemon.{exit_of_daemon};

use crate::calls::{CallWatch, Calls};
use crate::config::Config;
use crate::config_key::ConfigKey;
use crate::config_lines::ConfigText;
use crate::console::Status;
use crate::daemon_clock::DaemonClock;
use crate::daemon_decoder::DaemonDecoder;
use crate::error_lines::{ErrorLines, LoopLog, say};
use crate::exit::Exit;
use crate::library::rules_of;
use crate::limited_files::JournalDisk;
use crate::listening::{listen_on_address, listen_on_path};
use crate::music::Music;
use crate::output::Output;
use crate::process_limits::most_descriptors;
use crate::serve_config::ServeConfig;
use crate::slow_opening::{MeanwhileLines, Opening, start_lines};
use crate::stop_flag::StopFlag;
use crate::stopping_folder::StoppingFolder;
use crate::tasks::{JournalFiles, open_made_files, tell_fault, tell_migration, tell_refusal, told};
use crate::told_listener::{MusicCalls, ToldListener};
use as_wave::AsWave;
use decoded_files::Decoded;
use http_guard::{Guarded, GuardedListener, GuardedReady};
use log::{Level, Log, Logged, warn};
use mio::Waker;
use mio::net::{TcpListener, UnixListener};
use mio_clients::{Clients, Socket, SocketListener, SocketReady};
use mpd_server::{Opened, Resuming, ServeEnd, ServeStatus, Stop, Workers, open_journal};
use profile::Profile;
use song_output::SoundOutput;
use stage_workers::Wake;
use std::alloc::AllocError;
use std::io::{self, ErrorKind};
use std::net::SocketAddr;
use std::sync::Wait;
use std::thread::{self, Threads};
use std::time::Clock;

/// Ends a wait of the loop.
#[derive(Drop)]
struct LoopWaker {
    waker: Waker,
}

impl Wake for LoopWaker {
    fn wake(&self) {
        // Unwoken, the loop looks within 100 milliseconds.
        let _woken = self.waker.wake();
    }
}

impl Stop for StopFlag {
    fn stop(&self) {
        self.set(true);
    }

    fn resume(&self) {
        self.set(false);
    }
}

/// The address to listen on; a text of another form makes the configuration a bad one.
fn address_of(
    rt: &HostRuntime,
    tcp: &Option<String>,
    text: &ConfigText,
) -> Result<Option<SocketAddr>, Exit> {
    match tcp {
        None => Ok(None),
        Some(address) => match address.as_str().parse::<SocketAddr>() {
            Ok(address) => Ok(Some(address)),
            Err(_) => {
                text.tell_key(rt, ConfigKey::Tcp);
                Err(Exit::BadConfiguration)
            }
        },
    }
}

/// Says on standard error what can't be listened on.
fn cannot_listen(rt: &HostRuntime, at: &str, error: io::Error) -> Exit {
    told(rt, at, &error, Exit::CannotListen)
}

/// Listens on the address and at the path.
fn sockets(
    rt: &HostRuntime,
    config: &ServeConfig,
    address: Option<SocketAddr>,
) -> Result<(Option<TcpListener>, Option<UnixListener>), Exit> {
    let mut tcp = None;
    if let (Some(address), Some(text)) = (address, &config.tcp) {
        match listen_on_address(rt, address) {
            Ok(listener) => tcp = Some(listener),
            Err(error) => return Err(cannot_listen(rt, text.as_str(), error)),
        }
    }
    let mut unix = None;
    if let Some(path) = &config.unix {
        match listen_on_path(rt, path.as_str()) {
            Ok(listener) => unix = Some(listener),
            Err(error) => return Err(cannot_listen(rt, path.as_str(), error)),
        }
    }
    Ok((tcp, unix))
}

/// What tells of clients on these sockets, and what ends its waits.
fn readiness(
    rt: &HostRuntime,
    sockets: &mut SocketListener,
) -> io::Result<(SocketReady, LoopWaker)> {
    let ready = SocketReady::new(rt, rt.alloc(), sockets)?;
    let waker = ready.waker()?;
    Ok((ready, LoopWaker { waker }))
}

/// The clock, if the daemon goes by one.
fn told_clock<'a>(config: &ServeConfig, clock: &'a DaemonClock<'a>) -> Option<&'a DaemonClock<'a>> {
    match config.profile() {
        Profile::Named => None,
        Profile::Wide => Some(clock),
    }
}

/// Listens, with no client yet.
fn listen<'a>(
    rt: &'a HostRuntime,
    config: &ServeConfig,
    address: Option<SocketAddr>,
    clock: &'a DaemonClock<'a>,
    calls: MusicCalls,
) -> Result<(DaemonClients<'a>, LoopWaker), Exit> {
    let (tcp, unix) = sockets(rt, config, address)?;
    let mut listener = SocketListener::new(tcp, unix);
    match readiness(rt, &mut listener) {
        Ok((ready, wake)) => {
            let alloc = rt.alloc();
            let told = ToldListener::new(rt, listener, calls, told_clock(config, clock));
            let guarded = GuardedListener::new(alloc, told);
            let clients = Clients::new(alloc, guarded, GuardedReady::new(ready))?;
            Ok((clients, wake))
        }
        Err(error) => Err(cannot_listen(rt, "epoll", error)),
    }
}

/// Opens the output. Where it is a regular file, that is told: nothing paces the songs then.
fn open_output<'a>(rt: &'a HostRuntime, path: &str, stop: &StopFlag) -> Result<Output<'a>, Exit> {
    match Output::open(rt, path, stop.again()?) {
        Ok(output) => {
            if output.is_regular_file() {
                warn!(LoopLog::new(rt); "{path}: a file, no pipe: songs are written as fast as it takes them");
            }
            Ok(output)
        }
        Err(error) if error.kind() == ErrorKind::WouldBlock => {
            say(
                rt,
                format_args!(
                    "{path}: in use already, as the output or a journal file of another daemon"
                ),
            );
            Err(Exit::BadConfiguration)
        }
        Err(error) => Err(told(rt, path, &error, Exit::BadConfiguration)),
    }
}

/// How the program ends after the daemon.
fn exit_of(status: ServeStatus) -> Result<(), Exit>
    ensures { result ≡ exit_of_daemon status }
{
    match status {
        ServeStatus::Killed => Ok(()),
        ServeStatus::NoThread => Err(Exit::CannotListen),
        ServeStatus::JournalRefused(number) => Err(Exit::Ended(Status::JournalRefused(number))),
        ServeStatus::DiskFault => Err(Exit::Ended(Status::DiskFault)),
    }
}

/// What the daemon ended with; which journal file the system failed, how, and what can be done, goes to standard error.
fn ended(rt: &HostRuntime, config: &ServeConfig, end: ServeEnd<JournalDisk>) -> Result<(), Exit> {
    tell_fault(rt, config.journal_a.as_str(), &end.a);
    tell_fault(rt, config.journal_b.as_str(), &end.b);
    if let ServeStatus::JournalRefused(number) = end.status {
        let (a, b) = (config.journal_a.as_str(), config.journal_b.as_str());
        tell_refusal(rt, config.profile(), a, b, number);
    }
    exit_of(end.status)
}

/// The songs of the configuration, as the WAVE files that they stand for.
type Songs<'a> = Decoded<AsWave<StoppingFolder<Music<'a>>>, DaemonDecoder<'a>>;

/// The decoder of the configuration, if it has one, whose lines are written until the flag is set.
fn decoder<'a>(
    rt: &'a HostRuntime,
    config: &ServeConfig,
    stop: &StopFlag,
) -> Result<Option<DaemonDecoder<'a>>, AllocError> {
    match &config.decoder {
        Some(socket) => {
            let lines = ErrorLines::new(rt, stop.again()?);
            Ok(Some(DaemonDecoder::new(rt, socket.as_str(), Some(lines))?))
        }
        None => Ok(None),
    }
}

/// The songs of a folder, as they are read by this decoder, until the flag is set.
fn songs_by<'a>(
    config: &ServeConfig,
    stop: &StopFlag,
    music: Music<'a>,
    decoder: Option<DaemonDecoder<'a>>,
) -> Result<Songs<'a>, AllocError> {
    Ok(Decoded {
        folder: AsWave {
            folder: StoppingFolder::new(music, stop.again()?),
            forms: config.formats,
        },
        decoder,
    })
}

/// The songs of the configuration, until the flag is set; the calls for them are counted.
fn songs<'a>(
    rt: &'a HostRuntime,
    config: &ServeConfig,
    stop: &StopFlag,
    calls: Calls,
) -> Result<Songs<'a>, AllocError> {
    let lines = ErrorLines::new(rt, stop.again()?);
    let music = Music::new(
        rt,
        config.profile(),
        config.music.as_str(),
        Some(lines),
        calls,
    )?;
    songs_by(config, stop, music, decoder(rt, config, stop)?)
}

/// The songs and albums whose pictures are read, where the profile has any. What can't be read is told to the client that asks, and not in
/// the log.
fn pictures<'a>(
    rt: &'a HostRuntime,
    config: &ServeConfig,
    stop: &StopFlag,
    calls: Calls,
) -> Result<Option<Songs<'a>>, AllocError> {
    if config.profile() == Profile::Named {
        return Ok(None);
    }
    let music = Music::silent(rt, config.music.as_str(), calls)?;
    let decoder = match &config.decoder {
        Some(socket) => Some(DaemonDecoder::silent(rt, socket.as_str())?),
        None => None,
    };
    Ok(Some(songs_by(config, stop, music, decoder)?))
}

/// What the daemon's threads work on.
type DaemonWorkers<'a> = Workers<Songs<'a>, Songs<'a>, Output<'a>, StopFlag, LoopWaker>;

/// The clients of a daemon that listens: of what speaks HTTP nothing is served.
type DaemonClients<'a> = Clients<
    Guarded<Socket>,
    GuardedListener<ToldListener<'a>>,
    GuardedReady<SocketReady>,
>;

/// So many descriptors take a hundred clients, and what is open beside them: of pictures up to 16, and those that are looked for.
fn wanted_descriptors(profile: Profile) -> u64 {
    match profile {
        Profile::Named => 115,
        Profile::Wide => 135,
    }
}

/// Says where the system gives fewer.
fn tell_descriptors(rt: &HostRuntime, wanted: u64) {
    if let Some(most) = most_descriptors(rt) {
        if most < wanted {
            warn!(LoopLog::new(rt);
                "{most} descriptors at most (ulimit -n), of {wanted} that a hundred clients want: fewer are accepted at once, and songs may not be opened"
            );
        }
    }
}

/// How the player goes on: as the configuration says, where the profile keeps its place.
fn resuming(config: &ServeConfig) -> Resuming {
    match config.profile() {
        Profile::Named => Resuming::NEVER,
        Profile::Wide => Resuming {
            plays: config.resume,
            place_every: config.place_every,
        },
    }
}

/// Calls that one thread counts, and the loop's watch over them.
fn watched(rt: &HostRuntime) -> Result<(Calls, CallWatch), AllocError> {
    let calls = Calls::new(rt.alloc())?;
    let watch = CallWatch::new(calls.again()?);
    Ok((calls, watch))
}

/// Counts the waits of the output for a reader, under the wide profile.
fn counted<'a>(config: &ServeConfig, output: Output<'a>, waits: Calls) -> Output<'a> {
    let mut output = output;
    if let Profile::Wide = config.profile() {
        output.count(waits);
    }
    output
}

/// Listens, and only then empties the output.
fn begin<'a>(
    rt: &'a HostRuntime,
    config: &ServeConfig,
    address: Option<SocketAddr>,
    output: Output<'a>,
    stop: StopFlag,
    clock: &'a DaemonClock<'a>,
) -> Result<(DaemonClients<'a>, DaemonWorkers<'a>), Exit> {
    tell_descriptors(rt, wanted_descriptors(config.profile()));
    let (player, player_watch) = watched(rt)?;
    let (scan, scan_watch) = watched(rt)?;
    let (reader, reader_watch) = watched(rt)?;
    let (waits, output_watch) = watched(rt)?;
    let calls = MusicCalls {
        player: player_watch,
        scan: scan_watch,
        pictures: reader_watch,
        output: output_watch,
    };
    let (clients, wake) = listen(rt, config, address, clock, calls)?;
    let _cleared = output.clear();
    let output = counted(config, output, waits);
    let workers = Workers {
        sources: songs(rt, config, &stop, player)?,
        folder: songs(rt, config, &stop, scan)?,
        pictures: pictures(rt, config, &stop, reader)?,
        rules: rules_of(config.profile(), config.formats, config.decoder.is_some()),
        output: SoundOutput {
            writer: output,
            form: config.form,
        },
        resuming: resuming(config),
        stop,
        wake,
    };
    Ok((clients, workers))
}

/// Opens the journal on these files. Where that takes its time, lines say so meanwhile.
fn open_told<R: Threads + Wait + Clock + Sync>(
    rt: &HostRuntime,
    threads: &R,
    config: &ServeConfig,
    a: JournalDisk,
    b: JournalDisk,
) -> Result<Opened<JournalDisk>, ServeEnd<JournalDisk>>
    ensures { IfOk result (λ opened. opened.live.numbers.event ≡ 0) }
{
    let opening = Opening::begin(rt, threads, config);
    let lines = MeanwhileLines::new();
    let profile = config.profile();
    let told = &lines;
    let opened = thread::scope(
        thread::scope_env(),
        threads,
        move |scope| -> Result<Opened<JournalDisk>, ServeEnd<JournalDisk>>
            requires threads { IsSync R.row }
            ensures begun { IfOk result (λ opened. opened.live.numbers.event ≡ 0) }
        {
            let thread = start_lines(scope, rt, threads, told);
            let opened = open_journal(rt.alloc(), profile, a, b);
            told.end(threads);
            if let Some(thread) = thread {
                thread.join(threads);
            }
            opened
        },
    );
    let opened = match opened {
        Ok(opened) => opened,
        Err(end) => return Err(end),
    };
    if !opening.end(threads) {
        return Ok(opened);
    }
    let mut opened = opened;
    opened.count_as_much();
    Ok(opened)
}

/// Serves clients over the journal's files, which are locked meanwhile.
fn serve_over<R: Threads + Wait + Clock + Log + Sync>(
    rt: &HostRuntime,
    threads: &R,
    config: &ServeConfig,
    address: Option<SocketAddr>,
    output: Output<'_>,
    stop: StopFlag,
) -> Result<(), Exit> {
    let JournalFiles {
        a,
        b,
        locks: _locks,
    } = open_made_files(rt, config.journal_a.as_str(), config.journal_b.as_str())?;
    let opened = match open_told(rt, threads, config, a, b) {
        Ok(opened) => opened,
        Err(end) => return ended(rt, config, end),
    };
    if opened.was_migrated() {
        tell_migration(rt, config.profile());
    }
    let clock = DaemonClock::new(rt);
    let (mut clients, workers) = begin(rt, config, address, output, stop, &clock)?;
    let level = if config.debug {
        Level::Debug
    } else {
        Level::Info
    };
    let threads = Logged::new(threads, level, LoopLog::new(rt));
    let end = mpd_server::serve(&threads, rt.alloc(), opened, &mut clients, workers);
    ended(rt, config, end)
}

/// Serves clients until one of them asks for the daemon's end, or a fault ends it. Faults are found in the order configuration, journal
/// files, journal, listeners, threads. The text is the configuration's.
pub fn serve<R: Threads + Wait + Clock + Log + Sync>(
    rt: &HostRuntime,
    threads: &R,
    config: Config,
    text: &ConfigText,
) -> Result<(), Exit> {
    let Some(config) = ServeConfig::of(config) else {
        text.tell_unserved(rt);
        return Err(Exit::BadConfiguration);
    };
    let address = address_of(rt, &config.tcp, text)?;
    text.tell_unused(rt, config.profile());
    let stop = StopFlag::new(rt.alloc())?;
    let output = open_output(rt, config.output.as_str(), &stop)?;
    serve_over(rt, threads, &config, address, output, stop)
}
