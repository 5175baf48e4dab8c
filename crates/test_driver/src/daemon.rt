//! The lives of a daemon over files in memory.
ghost use Rattle.std.specs.Prelude.{◌≡◌};

use crate::arrivals::Arrivals;
use crate::beside::Beside;
use crate::wires::TestStream;
use disk_model::Disk;
use driver_base::words::{first_word, number};
use driver_base::{DaemonDisk, Desk, Fault, Lines, Printer, write_out};
use log::sink::Discard;
use log::{Level, Logged};
use mio_clients::{Clients, MemReady};
use mpd_server::{NothingWaits, Opened, Resuming, ServeEnd, ServeStatus, Workers, open_journal};
use profile::Profile;
use song_db::LibraryRules;
use song_files::MemFolder;
use song_output::{Form, SoundOutput};
use stage_workers::NoWake;
use std::alloc::{AllocError, Global};
use std::io::BufRead;
use std::sync::Wait;
use std::thread::Threads;
use std::time::Clock;

/// The clients of a daemon.
type DaemonClients = Clients<TestStream, Arrivals, MemReady>;

// Serves clients over a journal that was opened, without a line of the log.
fn serve_opened<W: Threads + Wait + Clock + Sync>(
    waits: &W,
    alloc: Global,
    opened: Opened<DaemonDisk>,
    clients: &mut DaemonClients,
) -> ServeEnd<DaemonDisk>
    requires { opened.live.numbers.event ≡ 0 }
{
    let workers = Workers {
        sources: MemFolder::new(alloc),
        folder: MemFolder::new(alloc),
        pictures: None,
        rules: LibraryRules::NAMED,
        output: SoundOutput {
            writer: Vec::new(alloc),
            form: Form::Bare,
        },
        resuming: Resuming::NEVER,
        stop: NothingWaits,
        wake: NoWake,
    };
    let quiet = Logged::new(waits, Level::Error, Discard);
    mpd_server::serve(&quiet, alloc, opened, clients, workers)
}

// Opens the journal, and serves clients over it.
fn serve<W: Threads + Wait + Clock + Sync>(
    waits: &W,
    alloc: Global,
    (a, b): (DaemonDisk, DaemonDisk),
    clients: &mut DaemonClients,
) -> ServeEnd<DaemonDisk> {
    match open_journal(alloc, Profile::Named, a, b) {
        Ok(opened) => serve_opened(waits, alloc, opened, clients),
        Err(end) => end,
    }
}

fn tell_status(printer: &mut Printer, status: ServeStatus) {
    match status {
        ServeStatus::Killed => printer.line("killed"),
        ServeStatus::JournalRefused(number) => printer.count("journal refused", u64::from(number)),
        ServeStatus::NoThread => printer.line("no thread"),
        ServeStatus::DiskFault => printer.line("disk fault"),
    }
}

// Prints how a daemon ended, and how often its disks failed.
fn tell_end(desk: &mut Desk, end: ServeEnd<DaemonDisk>) {
    let ServeEnd { status, a, b } = end;
    tell_status(&mut desk.printer, status);
    desk.printer.count("faults of a", a.faults());
    desk.printer.count("faults of b", b.faults());
    desk.put_back(a.into_inner(), b.into_inner());
}

// Serves the clients that come. They are all let go of then.
fn run<W: Threads + Wait + Clock + Sync>(
    waits: &W,
    alloc: Global,
    disks: (DaemonDisk, DaemonDisk),
    arrivals: Arrivals,
) -> Result<ServeEnd<DaemonDisk>, AllocError> {
    let ready = MemReady::new();
    let mut clients = Clients::new(alloc, arrivals, ready)?;
    Ok(serve(waits, alloc, disks, &mut clients))
}

fn take_line(beside: &mut Beside, arrivals: &mut Arrivals, line: &str) -> Result<(), Fault> {
    let (word, rest) = first_word(line);
    match word {
        "connect" => {
            let stream = beside.wires.add(number(rest)?, false)?;
            arrivals.add(Some(stream))
        }
        "nobody" => arrivals.add(None),
        _ => beside.take(word, rest),
    }
}

// Takes the lines before `serve`; `false` where the input ends before.
fn prepare<R: BufRead>(
    rt: &HostRuntime,
    beside: &mut Beside,
    arrivals: &mut Arrivals,
    lines: &mut Lines<R>,
) -> Result<bool, Fault> {
    for _ in 0..u64::MAX {
        write_out(rt, &mut beside.printer)?;
        if !lines.next()? {
            break;
        }
        if lines.line() == "serve" {
            return Ok(true);
        }
        take_line(beside, arrivals, lines.line())?;
    }
    Ok(false)
}

/// Runs a daemon over the files, for the clients of the lines up to `serve`; `false` where the input ends before.
pub fn run_daemon<R: BufRead, W: Threads + Wait + Clock + Sync>(
    rt: &HostRuntime,
    waits: &W,
    desk: &mut Desk,
    lines: &mut Lines<R>,
) -> Result<bool, Fault> {
    let alloc = rt.alloc();
    let mut beside = Beside::new(alloc);
    let mut arrivals = Arrivals::new(alloc);
    if !prepare(rt, &mut beside, &mut arrivals, lines)? {
        return Ok(false);
    }
    let end = run(waits, alloc, desk.take_for_daemon(), arrivals)?;
    beside.wires.tell(&mut desk.printer);
    tell_end(desk, end);
    Ok(true)
}
