// A look at the files of a journal, which changes nothing of them.
use crate::error_lines::say;
use crate::exit::Exit;
use crate::journal_file::JournalFile;
use crate::journal_head::{CLOSED, GENERATION_AT, HEAD, JournalHead, LAYOUT_AT, OPEN};
use crate::limited_files::LimitedFiles;
use crate::lost_file::{Lost, lost_beside, tell_in_use};
use crate::tasks::{tell_wide_layout, told};
use crate::{Config, Status};
use disk_model::MemDisk;
use live_stage::StartError;
use play_journal::{Journal, JournalError, Stored};
use profile::Profile;
use state_codec::{BodyError, CodecError, Saved, layout_number, take_saved};
use std::alloc::Global;
use std::fs::{OpenFile, OpenOptions};
use std::io::{self, ErrorKind, Write};
use std::os::unix::fs::OpenOptionsExt;

/// How often the files are read where they give no state, since a daemon may write them meanwhile.
const READINGS: u32 = 3;

/// The offset of a snapshot in its file.
const SNAPSHOT_AT: u64 = 32;

/// What a record takes beside its body.
const RECORD_HEAD: u64 = 5;

/// What stands in the files of a journal.
#[derive(Clone, Copy, Debug)]
struct Contents {
    layout: u32,
    generation: u64,
    /// Records go to file b.
    is_in_b: bool,
    /// The records behind the snapshot, and the bytes that they take.
    records: usize,
    bytes: u64,
    songs: usize,
    entries: usize,
    playlists: usize,
    stickers: usize,
}

// The state that a snapshot and its records give, and how many bytes these take; or what is wrong, and at which byte of its file.
fn state_of(alloc: Global, layout: u32, stored: &Stored) -> Result<(Saved, u64), StartError> {
    let snapshot = stored.snapshot();
    let mut saved = match take_saved(alloc, layout, snapshot) {
        Ok(saved) => saved,
        Err(CodecError::NoMemory) => return Err(StartError::NoMemory),
        Err(_) => return Err(StartError::Damaged(SNAPSHOT_AT)),
    };
    let first = SNAPSHOT_AT.saturating_add(snapshot.len() as u64);
    let mut gate = first;
    for place in 0..stored.record_count() {
        let body = stored.record(place);
        match saved.apply_body(alloc, layout, body) {
            Ok(()) => {}
            Err(BodyError::NoMemory) => return Err(StartError::NoMemory),
            Err(_) => return Err(StartError::Damaged(gate)),
        }
        gate = gate
            .saturating_add(RECORD_HEAD)
            .saturating_add(body.len() as u64);
    }
    Ok((saved, gate.saturating_sub(first)))
}

// Why two files are no journal.
fn start_error(error: JournalError) -> StartError {
    match error {
        JournalError::NoJournal => StartError::NoJournal,
        JournalError::Damaged(offset) => StartError::Damaged(offset),
        JournalError::NoMemory => StartError::NoMemory,
        _ => StartError::Broken,
    }
}

// What stands in these files, for who opens them under a profile.
fn contents_of(
    alloc: Global,
    profile: Profile,
    a: Vec<u8>,
    b: Vec<u8>,
) -> Result<Contents, StartError> {
    let head_of_b = JournalHead::of(&b);
    let Ok(a) = MemDisk::from_bytes(alloc, a) else {
        return Err(StartError::NoMemory);
    };
    let Ok(b) = MemDisk::from_bytes(alloc, b) else {
        return Err(StartError::NoMemory);
    };
    let (journal, stored) = match Journal::open(alloc, a, b) {
        Ok(opened) => opened,
        Err(refused) => return Err(start_error(refused.error)),
    };
    if journal.layout() > layout_number(profile) {
        return Err(StartError::Damaged(LAYOUT_AT));
    }
    let (saved, bytes) = state_of(alloc, journal.layout(), &stored)?;
    Ok(Contents {
        layout: journal.layout(),
        generation: journal.generation(),
        is_in_b: head_of_b.is_some_and(|head| head.generation == journal.generation()),
        records: stored.record_count(),
        bytes,
        songs: saved.songs().len(),
        entries: saved.queue().len(),
        playlists: saved.lists().len(),
        stickers: saved.stickers().len(),
    })
}

// A file, which is opened for reading alone and not locked.
fn read_file(rt: &HostRuntime, path: &str) -> Result<JournalFile, Exit> {
    match JournalFile::read(rt, path) {
        Ok(file) => Ok(file),
        Err(error) if error.kind() == ErrorKind::NotFound && !path.starts_with('/') => {
            say(
                rt,
                format_args!("{path}: {error}; it is taken from the folder in which `look` is run"),
            );
            Err(Exit::Ended(Status::DiskFault))
        }
        Err(error) => Err(told(rt, path, &error, Exit::Ended(Status::DiskFault))),
    }
}

// What one of these files has lost, by the other one, and whether that is the second.
fn lost_of(a: &JournalFile, b: &JournalFile) -> (Lost, bool) {
    match (a.bytes.len() < HEAD, b.bytes.len() < HEAD) {
        (true, false) => (lost_beside(b), false),
        (false, true) => (lost_beside(a), true),
        _ => (Lost::Nothing, false),
    }
}

// Reads both files. What one of them has lost is told.
fn read_contents(
    rt: &HostRuntime,
    config: &Config,
    is_last: bool,
) -> Result<Result<Contents, StartError>, Exit> {
    let a = read_file(rt, config.journal_a.as_str())?;
    let b = read_file(rt, config.journal_b.as_str())?;
    let (lost, is_b) = lost_of(&a, &b);
    let path = if is_b {
        config.journal_b.as_str()
    } else {
        config.journal_a.as_str()
    };
    match lost {
        Lost::InUse | Lost::InUseAlone if is_last => {
            tell_in_use(rt, path, lost);
            return Err(Exit::NotWhole);
        }
        Lost::InUse | Lost::InUseAlone => return Ok(Err(StartError::NoJournal)),
        _ => {}
    }
    let found = contents_of(rt.alloc(), config.profile(), a.bytes, b.bytes);
    if lost == Lost::Older && found.is_ok() {
        say(
            rt,
            format_args!(
                "{path}: it has fewer bytes than a head: where it had more, that may be a later state"
            ),
        );
    }
    Ok(found)
}

// Prints what stands there; nobody needs to read it.
fn print(rt: &HostRuntime, config: &Config, found: Contents) {
    let used = if found.is_in_b {
        config.journal_b.as_str()
    } else {
        config.journal_a.as_str()
    };
    let _printed = println!(rt; "whole: yes");
    let _printed = println!(rt; "layout: {}", found.layout);
    let _printed = println!(rt; "file: {used}");
    let _printed = println!(rt; "generation: {}", found.generation);
    let _printed = println!(rt; "records: {}", found.records);
    let _printed = println!(rt; "bytes of records: {}", found.bytes);
    let _printed = println!(rt; "songs: {}", found.songs);
    let _printed = println!(rt; "entries: {}", found.entries);
    let _printed = println!(rt; "playlists: {}", found.playlists);
    let _printed = println!(rt; "stickers: {}", found.stickers);
}

// Says what is wrong with the files.
fn tell(rt: &HostRuntime, config: &Config, error: StartError) -> Exit {
    let Config {
        journal_a: a,
        journal_b: b,
        ..
    } = config;
    match error {
        StartError::NoMemory => return Exit::NO_MEMORY,
        StartError::Damaged(LAYOUT_AT)
            if tell_wide_layout(rt, config.profile(), a.as_str(), b.as_str()) => {}
        StartError::Damaged(offset) => {
            say(
                rt,
                format_args!("{a}, {b}: damaged at byte {offset} of the file in use"),
            );
        }
        _ => {
            say(rt, format_args!("{a}, {b}: no journal"));
        }
    }
    Exit::NotWhole
}

/// Prints what stands in the files of the journal, also beside a daemon that has them open: they are read alone. Where they are no whole
/// journal, it says at which byte; where one has lost its bytes, which.
pub(crate) fn look(rt: &HostRuntime, config: &Config) -> Result<(), Exit> {
    let mut found = read_contents(rt, config, false)?;
    for again in 1..READINGS {
        if found.is_ok() {
            break;
        }
        found = read_contents(rt, config, again.saturating_add(1) == READINGS)?;
    }
    match found {
        Ok(found) => {
            print(rt, config, found);
            Ok(())
        }
        Err(error) => Err(tell(rt, config, error)),
    }
}

// How often a file is cut before its damage: a record that isn't whole, then the first that says nothing.
const CUTS: u32 = 3;

// What stands in a file before its damage: the file, cut there, and where that was.
#[derive(Drop)]
struct Salvaged {
    bytes: Vec<u8>,
    found: Contents,
    damaged_at: Option<u64>,
}

// A copy of bytes.
fn copy_of(alloc: Global, bytes: &[u8]) -> Result<Vec<u8>, StartError> {
    let mut copy = Vec::new(alloc);
    match copy.extend_from_slice(bytes) {
        Ok(()) => Ok(copy),
        Err(_) => Err(StartError::NoMemory),
    }
}

// Cuts a file before its damage, as often as there is any behind its snapshot.
fn salvaged_of(
    alloc: Global,
    profile: Profile,
    file: &JournalFile,
) -> Result<Salvaged, StartError> {
    let mut bytes = copy_of(alloc, &file.bytes)?;
    let mut damaged_at = None;
    for _ in 0..CUTS {
        let copy = copy_of(alloc, &bytes)?;
        match contents_of(alloc, profile, copy, Vec::new(alloc)) {
            Ok(found) => {
                return Ok(Salvaged {
                    bytes,
                    found,
                    damaged_at,
                });
            }
            Err(StartError::Damaged(gate)) if gate > SNAPSHOT_AT => {
                bytes.truncate(gate as usize);
                if bytes.push(CLOSED).is_err() {
                    return Err(StartError::NoMemory);
                }
                damaged_at = Some(gate);
            }
            Err(error) => return Err(error),
        }
    }
    Err(StartError::Damaged(SNAPSHOT_AT))
}

// Gives a file that counts this generation.
fn number_file(bytes: &mut [u8], generation: u64) {
    if bytes.len() >= HEAD {
        bytes[0] = OPEN;
        bytes[GENERATION_AT..GENERATION_AT + 8].copy_from_slice(&generation.to_le_bytes());
    }
}

// Writes a file that isn't there yet, for its owner alone, and has it on the disk.
fn write_new(rt: &HostRuntime, path: &str, bytes: &[u8]) -> io::Result<()> {
    let mut file = OpenOptions::new()
        .write(true)
        .create_new(true)
        .mode(0o600)
        .open(&LimitedFiles::new(rt), path)?;
    file.write_all(bytes)?;
    file.sync_all()
}

// The generation of a file that counts, 0 of any other.
fn counted(file: &JournalFile) -> u64 {
    match file.head() {
        Some(head) => head.generation,
        None => 0,
    }
}

/// Writes at this path, where nothing may stand, a journal file of what stands before the damage of the file in use, or where nothing does,
/// of what the other file has. It is to take the place of the file in use; where the other file has lost its bytes, it is a journal by
/// itself.
pub(crate) fn salvage(rt: &HostRuntime, config: &Config, to: &str) -> Result<(), Exit> {
    let (a, b) = (config.journal_a.as_str(), config.journal_b.as_str());
    let (first, second) = (read_file(rt, a)?, read_file(rt, b)?);
    let is_second = counted(&second) > counted(&first);
    let generation = counted(&first).max(counted(&second));
    let is_alone = lost_of(&first, &second).0 != Lost::Nothing;
    let (used, path, other, other_path) = if is_second {
        (second, b, first, a)
    } else {
        (first, a, second, b)
    };
    let alloc = rt.alloc();
    let (salvaged, from) = match salvaged_of(alloc, config.profile(), &used) {
        Ok(salvaged) => (salvaged, path),
        Err(StartError::NoMemory) => return Err(Exit::NO_MEMORY),
        Err(error) => match salvaged_of(alloc, config.profile(), &other) {
            Ok(salvaged) => (salvaged, other_path),
            Err(_) => return Err(tell(rt, config, error)),
        },
    };
    let Salvaged {
        mut bytes,
        found,
        damaged_at,
    } = salvaged;
    number_file(&mut bytes, if is_alone { 1 } else { generation });
    if let Err(error) = write_new(rt, to, &bytes) {
        return Err(told(rt, to, &error, Exit::Ended(Status::DiskFault)));
    }
    tell_salvaged(rt, to, from, found.records, damaged_at);
    let _printed = if is_alone {
        println!(rt; "put it in the place of {path}, and remove the other file")
    } else {
        println!(rt; "put it in the place of {path}")
    };
    Ok(())
}

// Prints what was written.
fn tell_salvaged(rt: &HostRuntime, to: &str, from: &str, records: usize, damaged_at: Option<u64>) {
    let _printed = match damaged_at {
        Some(at) => println!(rt;
            "{to}: {records} records of {from}, which is damaged at byte {at}"
        ),
        None => println!(rt; "{to}: all {records} records of {from}"),
    };
}
