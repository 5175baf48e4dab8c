//! The tasks of the program. Faults are found in the order configuration, journal files, journal.
ghost use Rattle.std.specs.Prelude.{◌≡◌};
ghost use Rattle.mpd_program.specs.Lives.{refusal_of, status_of};

use crate::arguments::Task;
use crate::calls::Calls;
use crate::config::{Config, ConfigError};
use crate::config_lines::ConfigText;
use crate::console::{ConsoleEnd, Status, run_console};
use crate::daemon;
use crate::daemon_clock::DaemonClock;
use crate::daemon_decoder::DaemonDecoder;
use crate::error_lines::{put_line, say, takes_line};
use crate::exit::Exit;
use crate::file_lock::FileLock;
use crate::journal_head::{HEAD, JournalHead};
use crate::library::rules_of;
use crate::limited_files::{JournalDisk, LimitedFiles};
use crate::look::{look, salvage};
use crate::lost_file::tell_lost;
use crate::music::Music;
use crate::program_words::{TASKS, tell_help, tell_version};
use as_wave::AsWave;
use decoded_files::Decoded;
use disk_model::{Disk, FileDisk, MemDisk};
use live_stage::{Live, Refused};
use log::Log;
use mpd_server::refusal_number;
use profile::Profile;
use song_db::LibraryRules;
use song_files::{Folder, MemFolder};
use state_codec::layout_number;
use std::fs::{self, File};
use std::io::{self, ErrorKind, Read};
use std::sync::Wait;
use std::thread::Threads;
use std::time::Clock;

/// Does what the command line asks for, and says how the program ends.
///
/// The daemon starts its threads by the second handle, the same runtime: what waits for others takes a handle of a type parameter.
pub fn run_command_line<R: Threads + Wait + Clock + Log + Sync>(
    rt: &HostRuntime,
    threads: &R,
) -> Exit {
    let done = match Task::from_args(rt) {
        Ok(Some(task)) => run(rt, threads, task),
        Ok(None) => {
            say(rt, format_args!("usage: {TASKS}"));
            Err(Exit::BadArguments)
        }
        Err(error) => Err(Exit::BadArguments.unless_memory(&error)),
    };
    match done {
        Ok(()) => Exit::Ended(Status::Done),
        Err(exit) => exit,
    }
}

/// Does what was asked.
fn run<R: Threads + Wait + Clock + Log + Sync>(
    rt: &HostRuntime,
    threads: &R,
    task: Task,
) -> Result<(), Exit> {
    match task {
        Task::Help => {
            tell_help(rt);
            Ok(())
        }
        Task::Version => {
            tell_version(rt);
            Ok(())
        }
        Task::ConsoleInMemory => console_in_memory(rt),
        Task::Console(path) => console(rt, read_config(rt, path)?),
        Task::Create(path) => create(rt, &read_config(rt, path)?),
        Task::Look(path) => look(rt, &read_config(rt, path)?),
        Task::Salvage(to, path) => salvage(rt, &read_config(rt, path)?, to.as_str()),
        Task::Serve(path) => serve_config(rt, threads, path),
    }
}

/// How many bytes a configuration may have. What is longer, as a device that never ends, is none.
const CONFIG_LIMIT: u64 = 1_048_576;

/// Reads the text of the configuration at this path.
fn read_config_text(rt: &HostRuntime, path: String) -> Result<ConfigText, Exit> {
    let text = match read_text(rt, path.as_str()) {
        Ok(text) => text,
        Err(error) => return Err(told(rt, path.as_str(), &error, Exit::BadConfiguration)),
    };
    if text.len() as u64 > CONFIG_LIMIT {
        say(rt, format_args!("{path}: more than {CONFIG_LIMIT} bytes"));
        return Err(Exit::BadConfiguration);
    }
    Ok(ConfigText { path, text })
}

/// The configuration that this text is; where it is none, what is wrong with it is told.
fn config_of(rt: &HostRuntime, text: &ConfigText) -> Result<Config, Exit> {
    match Config::read(rt.alloc(), text.text.as_str()) {
        Ok(config) => Ok(config),
        Err(ConfigError::NoMemory) => Err(Exit::NO_MEMORY),
        Err(ConfigError::Bad) => {
            text.tell_wrong(rt);
            Err(Exit::BadConfiguration)
        }
    }
}

/// Reads the configuration at this path.
fn read_config(rt: &HostRuntime, path: String) -> Result<Config, Exit> {
    config_of(rt, &read_config_text(rt, path)?)
}

/// Is the daemon of the configuration at this path.
fn serve_config<R: Threads + Wait + Clock + Log + Sync>(
    rt: &HostRuntime,
    threads: &R,
    path: String,
) -> Result<(), Exit> {
    let text = read_config_text(rt, path)?;
    let config = config_of(rt, &text)?;
    daemon::serve(rt, threads, config, &text)
}

/// Says on standard error what the system refused at this path, and how the program ends.
pub(crate) fn told(rt: &HostRuntime, path: &str, error: &io::Error, exit: Exit) -> Exit {
    say(rt, format_args!("{path}: {error}"));
    exit.unless_memory(error)
}

/// Reads the text at this path, as far as it is a byte longer than a configuration may be.
fn read_text(rt: &HostRuntime, path: &str) -> io::Result<String> {
    let file = File::open(rt, path)?;
    io::read_to_string(rt.alloc(), file.take(CONFIG_LIMIT + 1))
}

/// Both files of a journal, and the locks by which no other program has them open meanwhile.
#[derive(Drop)]
pub(crate) struct JournalFiles {
    pub(crate) a: JournalDisk,
    pub(crate) b: JournalDisk,
    pub(crate) locks: (FileLock, FileLock),
}

/// Opens the files of a journal, each of which is made, empty, where it is missing.
fn open_files(rt: &HostRuntime, a: &str, b: &str) -> Result<JournalFiles, Exit> {
    let (a, a_lock) = open_file(rt, a)?;
    let (b, b_lock) = open_file(rt, b)?;
    Ok(JournalFiles {
        a,
        b,
        locks: (a_lock, b_lock),
    })
}

/// Opens the files of a journal that was made before, as `open_files` does, and says which of them is missing or has lost its bytes, where
/// one has. It refuses where that was the one in use.
pub(crate) fn open_made_files(rt: &HostRuntime, a: &str, b: &str) -> Result<JournalFiles, Exit> {
    tell_lost(rt, a, b)?;
    open_files(rt, a, b)
}

/// Where a link stands at the path of a journal file: syncs the folder of the file that it leads to, as its opening does the link's, so
/// that a file that was made there outlives a power cut too.
fn sync_behind_link(rt: &HostRuntime, path: &str) -> io::Result<()> {
    if !fs::symlink_metadata(rt, path)?.is_symlink() {
        return Ok(());
    }
    match fs::canonicalize(rt, path)?.parent() {
        Some(folder) => File::open(rt, folder)?.sync_all(),
        None => Ok(()),
    }
}

/// Opens a journal file, which is made, empty, where it is missing, and syncs the folder in which it stands.
fn open_disk(rt: &HostRuntime, path: &str) -> io::Result<JournalDisk> {
    let disk = FileDisk::open(&LimitedFiles::new(rt), path)?;
    sync_behind_link(rt, path)?;
    Ok(disk)
}

/// Locks a journal file, and opens it behind that: its length is measured once nobody else writes it. It is made, empty, where it is
/// missing.
fn lock_and_open(rt: &HostRuntime, path: &str) -> io::Result<(JournalDisk, FileLock)> {
    let lock = FileLock::take(rt, path)?;
    let disk = open_disk(rt, path)?;
    Ok((disk, lock))
}

/// Opens and locks a journal file. Where the file system knows no locks, that is said, and it is served all the same.
fn open_file(rt: &HostRuntime, path: &str) -> Result<(JournalDisk, FileLock), Exit> {
    let fault = Exit::Ended(Status::DiskFault);
    match lock_and_open(rt, path) {
        Ok((disk, lock)) => {
            if !lock.is_known() {
                say(
                    rt,
                    format_args!(
                        "{path}: its file system knows no locks: nothing keeps a second daemon from it"
                    ),
                );
            }
            Ok((disk, lock))
        }
        Err(error) if error.kind() == ErrorKind::WouldBlock => {
            say(
                rt,
                format_args!(
                    "{path}: in use already, by another program, as the journal's other file or as the output"
                ),
            );
            Err(fault)
        }
        Err(error) => Err(told(rt, path, &error, fault)),
    }
}

/// The head of the file at this path, if it is one that counts.
fn head_at(rt: &HostRuntime, path: &str) -> Option<JournalHead> {
    let mut head = [0; HEAD];
    File::open(rt, path).ok()?.read_exact(&mut head).ok()?;
    JournalHead::of(&head)
}

/// The layout of the file in use, of these two the one that counts, or of both the later one; none where neither counts.
fn layout_in_use(rt: &HostRuntime, a: &str, b: &str) -> Option<u32> {
    match (head_at(rt, a), head_at(rt, b)) {
        (Some(a), Some(b)) if a.generation < b.generation => Some(b.layout),
        (Some(head), _) | (None, Some(head)) => Some(head.layout),
        (None, None) => None,
    }
}

/// Says on standard error that the configuration lacks what the journal needs, where its file in use has the layout that the wide profile
/// writes, and the configuration has the named subset. It answers whether it is so.
pub(crate) fn tell_wide_layout(rt: &HostRuntime, profile: Profile, a: &str, b: &str) -> bool {
    let layout = layout_number(Profile::Wide);
    let is_wide = matches!(profile, Profile::Named) && layout_in_use(rt, a, b) == Some(layout);
    if is_wide {
        say(
            rt,
            format_args!("{a}, {b}: the journal has layout {layout}: set stock_clients = true"),
        );
    }
    is_wide
}

/// Says on standard error what can be done where a journal was refused with this number.
pub(crate) fn tell_refusal(rt: &HostRuntime, profile: Profile, a: &str, b: &str, number: u8) {
    if number == 5 && tell_wide_layout(rt, profile, a, b) {
        return;
    }
    let advice = match number {
        3 => "not both are empty; a journal is made of empty or missing files alone",
        4 => "no journal; `mpd_daemon create CONFIG` makes one",
        5 => "damaged, or of a later layout",
        49 =>
            "of an old layout, and with the last generation: no checkpoint can bring it to the present layout",
        _ => return,
    };
    if takes_line(rt) {
        put_line(rt, format_args!("{a}, {b}: {advice}"));
    }
}

/// Why no journal was made.
fn refused<D: Disk + Drop>(refused: Refused<D>) -> Exit
    ensures { result ≡ Exit.Ended (status_of (refusal_of refused.error)) }
{
    match refusal_number(refused.error) {
        None => Exit::Ended(Status::DiskFault),
        Some(number) => Exit::Ended(Status::JournalRefused(number)),
    }
}

/// Serves one client on standard input and output over these disks and this folder.
fn serve<D: Disk + Drop, F: Folder>(
    rt: &HostRuntime,
    profile: Profile,
    a: D,
    b: D,
    folder: &mut F,
    rules: LibraryRules,
) -> ConsoleEnd<D> {
    let (mut reader, mut writer) = (rt.reader(), io::writer(rt));
    let clock = DaemonClock::new(rt);
    let told = match profile {
        Profile::Named => None,
        Profile::Wide => Some(&clock),
    };
    run_console(
        rt.alloc(),
        profile,
        a,
        b,
        folder,
        rules,
        told,
        &mut reader,
        &mut writer,
    )
}

/// How the program ends after a console.
fn exit_of(status: Status) -> Result<(), Exit> {
    match status {
        Status::Done => Ok(()),
        status => Err(Exit::Ended(status)),
    }
}

/// Says on standard error which journal file the system failed, how, and what can be done.
pub(crate) fn tell_fault(rt: &HostRuntime, path: &str, disk: &JournalDisk) {
    let Some(error) = disk.error() else {
        return;
    };
    if takes_line(rt) {
        put_line(
            rt,
            format_args!(
                "{path}: {error}: what was answered is kept; free space or check the device, then start again"
            ),
        );
    }
}

/// Says on standard error that the journal has the layout that the profile writes, from now on.
pub(crate) fn tell_migration(rt: &HostRuntime, profile: Profile) {
    let layout = layout_number(profile);
    say(
        rt,
        format_args!(
            "the journal was brought to layout {layout}: an older program can't read it any more"
        ),
    );
}

/// Serves one client over a fresh journal in memory, with a key of zeros, and over a folder without songs. Nothing keeps it.
fn console_in_memory(rt: &HostRuntime) -> Result<(), Exit> {
    let alloc = rt.alloc();
    let (a, b) = (MemDisk::new(alloc), MemDisk::new(alloc));
    match Live::create(alloc, Profile::Named, a, b, [0; 32]) {
        Ok(live) => {
            let (a, b) = live.into_disks();
            let mut none = MemFolder::new(alloc);
            exit_of(serve(rt, Profile::Named, a, b, &mut none, LibraryRules::NAMED).status)
        }
        Err(error) => Err(refused(error)),
    }
}

/// Serves one client over the journal and the songs of the configuration.
fn console(rt: &HostRuntime, config: Config) -> Result<(), Exit> {
    let profile = config.profile();
    let Config {
        music,
        journal_a,
        journal_b,
        formats: forms,
        decoder: socket,
        ..
    } = config;
    let JournalFiles {
        a,
        b,
        locks: _locks,
    } = open_made_files(rt, journal_a.as_str(), journal_b.as_str())?;
    let folder = Music::new(rt, profile, music.as_str(), None, Calls::new(rt.alloc())?)?;
    let rules = rules_of(profile, forms, socket.is_some());
    let decoder = match socket {
        Some(socket) => Some(DaemonDecoder::new(rt, socket.as_str(), None)?),
        None => None,
    };
    let folder = AsWave { folder, forms };
    let mut songs = Decoded { folder, decoder };
    let end = serve(rt, profile, a, b, &mut songs, rules);
    if end.migrated {
        tell_migration(rt, profile);
    }
    tell_fault(rt, journal_a.as_str(), &end.a);
    tell_fault(rt, journal_b.as_str(), &end.b);
    if let Status::JournalRefused(number) = end.status {
        let (a, b) = (journal_a.as_str(), journal_b.as_str());
        tell_refusal(rt, profile, a, b, number);
    }
    exit_of(end.status)
}

/// Makes the journal of the configuration, and says so on standard output.
fn create(rt: &HostRuntime, config: &Config) -> Result<(), Exit> {
    let JournalFiles {
        a,
        b,
        locks: _locks,
    } = open_files(rt, config.journal_a.as_str(), config.journal_b.as_str())?;
    let profile = config.profile();
    match Live::create(rt.alloc(), profile, a, b, config.key) {
        Ok(_) => {
            // It is made, whether or not somebody reads this.
            let _printed = println!(rt; "created");
            Ok(())
        }
        Err(error) => {
            tell_fault(rt, config.journal_a.as_str(), &error.a);
            tell_fault(rt, config.journal_b.as_str(), &error.b);
            let (a, b) = (config.journal_a.as_str(), config.journal_b.as_str());
            tell_refusal(rt, profile, a, b, error.error.number());
            Err(refused(error))
        }
    }
}
