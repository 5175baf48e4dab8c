// A journal file that is missing, or has lost its bytes, as one that was put back onto a full disk.
//
// Where the head of a file has generation 2 or more, the other file was in use before it, and has never had fewer bytes than a head since:
// the next checkpoint shuts it by one byte, writes behind that, and cuts behind what it wrote. So no crash leaves it shorter.
use crate::console::Status;
use crate::error_lines::say;
use crate::exit::Exit;
use crate::journal_file::JournalFile;
use crate::journal_head::{HEAD, generation_of, number_at};
use std::fs;
use std::io::ErrorKind;

/// A file with so many records, in layout 3 with as many as a longer snapshot has KiB, or with more bytes of them than these and than its
/// snapshot, isn't in use for long, unless the disk has no room: the next event makes a checkpoint to the other one.
const MOST_RECORDS: u64 = 4_096;

const MOST_BYTES: u64 = 4_194_304;

/// What became of a file.
#[derive(Clone, Copy, Debug, PartialEq, Eq)]
enum Loss {
    Missing,
    /// It has so many bytes.
    Emptied(u64),
}

/// What is known of a file that lost its bytes, by the other one.
#[derive(Clone, Copy, Debug, PartialEq, Eq)]
pub(crate) enum Lost {
    /// It may never have had any.
    Nothing,
    /// What the other one doesn't have, if it was a copy of another moment.
    Older,
    /// It was the one in use: of the two the other one doesn't count.
    InUseAlone,
    /// It was the one in use, behind the other one, which is full.
    InUse,
}

// Whether the next event makes a checkpoint to the other file.
fn is_full(file: &JournalFile) -> bool {
    let snapshot = u64::from(number_at(&file.bytes, HEAD - 4).unwrap_or(0));
    let most_records = match file.head() {
        Some(head) if head.layout == 3 => MOST_RECORDS.max(snapshot / 1_024),
        _ => MOST_RECORDS,
    };
    let most_bytes = snapshot.max(MOST_BYTES);
    file.records >= most_records || file.record_bytes > most_bytes
}

/// What a file has lost that has fewer bytes than a head, by its other file.
pub(crate) fn lost_beside(other: &JournalFile) -> Lost {
    let generation = generation_of(&other.bytes).unwrap_or(0);
    let counts = other.head().is_some();
    let is_full = counts && is_full(other);
    match generation {
        0 => Lost::Nothing,
        // A crash before the first checkpoint leaves it so too.
        1 => { if is_full { Lost::Older } else { Lost::Nothing } }
        _ if !counts => Lost::InUseAlone,
        _ if is_full => Lost::InUse,
        _ => Lost::Older,
    }
}

// What became of the file at this path; none where it has a head, or that can't be told.
fn loss_of(rt: &HostRuntime, path: &str) -> Option<Loss> {
    match fs::metadata(rt, path) {
        Ok(found) if found.is_file() && found.len() < HEAD as u64 => {
            Some(Loss::Emptied(found.len()))
        }
        Ok(_) => None,
        Err(error) if error.kind() == ErrorKind::NotFound => Some(Loss::Missing),
        Err(_) => None,
    }
}

// Says what a file lost whose other one has an older state.
fn tell_older(rt: &HostRuntime, path: &str, loss: Loss) {
    match loss {
        Loss::Missing => say(
            rt,
            format_args!(
                "{path}: missing, and made empty: the other file may have an older state; if it stands elsewhere, end this at once and put it back"
            ),
        ),
        Loss::Emptied(bytes) => say(
            rt,
            format_args!(
                "{path}: it has {bytes} bytes: where it had more, the other file may have an older state; if a copy has them, end this at once and put both back"
            ),
        ),
    }
}

/// Says that the file in use has lost its bytes, and what can be done: where the other one counts, that has an older state.
pub(crate) fn tell_in_use(rt: &HostRuntime, path: &str, lost: Lost) {
    let advice = if lost == Lost::InUse {
        "; `look --salvage` writes what the other one has, an older state"
    } else {
        ""
    };
    say(
        rt,
        format_args!(
            "{path}: it was the file in use, and has lost what it had: put both files of a copy back{advice}"
        ),
    );
}

// Says what a file has lost, by its other one, and refuses where it was the one in use.
fn tell_beside(rt: &HostRuntime, path: &str, loss: Loss, other: &str) -> Result<(), Exit> {
    let lost = match JournalFile::read(rt, other) {
        Ok(file) => lost_beside(&file),
        // The opening says what is wrong with it.
        Err(_) => Lost::Nothing,
    };
    let number = match lost {
        Lost::InUseAlone => 4,
        Lost::InUse => 5,
        Lost::Nothing if loss != Loss::Missing => return Ok(()),
        Lost::Nothing | Lost::Older => {
            tell_older(rt, path, loss);
            return Ok(());
        }
    };
    tell_in_use(rt, path, lost);
    Err(Exit::Ended(Status::JournalRefused(number)))
}

/// Says which file of a journal is missing or has lost its bytes, where one of them is or has: what the other has may be an older state. It
/// is refused where that was the file in use.
pub(crate) fn tell_lost(rt: &HostRuntime, a: &str, b: &str) -> Result<(), Exit> {
    match (loss_of(rt, a), loss_of(rt, b)) {
        (Some(loss), None) => tell_beside(rt, a, loss, b),
        (None, Some(loss)) => tell_beside(rt, b, loss, a),
        _ => Ok(()),
    }
}
