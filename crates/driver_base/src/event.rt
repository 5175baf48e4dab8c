//! The events of a state, as lines of the input say them.
use crate::fault::Fault;
use crate::picture::picture_of;
use crate::rows::batch_of;
use crate::words::{first_number, first_word, number};
use command_text::{Line, Lines, Request};
use daemon_core::{ClockTime, Event};
use player_core::BrokenCause;
use song_db::RowChange;
use std::alloc::{AllocError, Global};

fn line_of(alloc: Global, text: &str) -> Result<Request, AllocError> {
    Ok(Request::Single(Line::from_bytes(alloc, text.as_bytes())?))
}

fn list_of(alloc: Global, text: &str) -> Result<Request, AllocError> {
    let mut lines = Lines::new(alloc);
    for line in text.split(" & ") {
        lines.push(line.as_bytes())?;
    }
    Ok(Request::List(lines))
}

fn cause_of(word: &str) -> Result<BrokenCause, Fault> {
    match word {
        "source" => Ok(BrokenCause::Source),
        "output" => Ok(BrokenCause::Output),
        _ => Err(Fault::NoDirective),
    }
}

// A clock that tells when the daemon began, for how long it has run, the time of day, and maybe that nobody reads the output.
fn clock_of(began: u64, rest: &str) -> Result<ClockTime, Fault> {
    let (uptime, rest) = first_number(rest)?;
    let (now, rest) = first_number(rest)?;
    let is_unread = match rest {
        "" => false,
        "unread" => true,
        _ => return Err(Fault::NoDirective),
    };
    Ok(ClockTime {
        began,
        uptime,
        now,
        is_unread,
    })
}

fn job_of(number: u64) -> u32 {
    u32::try_from(number).unwrap_or(u32::MAX)
}

/// The event that a text says. A batch has the first of what was collected.
pub fn event_of(alloc: Global, collected: &mut Vec<RowChange>, text: &str) -> Result<Event, Fault> {
    let (word, rest) = first_word(text);
    let (first, rest) = first_number(rest)?;
    match word {
        "connect" => Ok(Event::Connect(first)),
        "gone" => Ok(Event::Gone(first)),
        "line" => Ok(Event::Request(first, line_of(alloc, rest)?)),
        "list" => Ok(Event::Request(first, list_of(alloc, rest)?)),
        "fed" => Ok(Event::Fed {
            ticket: first,
            frames: number(rest)?,
        }),
        "ended" => Ok(Event::Ended { ticket: first }),
        "broken" => Ok(Event::Broken {
            ticket: first,
            cause: cause_of(rest)?,
        }),
        "batch" => Ok(Event::Batch {
            job: job_of(first),
            changes: batch_of(collected)?,
        }),
        "missing" => Ok(Event::Missing {
            job: job_of(first),
            songs: number(rest)?,
        }),
        "scanned" => Ok(Event::ScanDone { job: job_of(first) }),
        "clock" => Ok(Event::Clock(clock_of(first, rest)?)),
        "keep" => Ok(Event::Keep { ticket: first }),
        "resume" => Ok(Event::Resume { plays: first == 1 }),
        "room" => Ok(Event::Room {
            is_there: first == 1,
        }),
        "picture" => Ok(Event::Picture(first, picture_of(alloc, rest)?)),
        _ => Err(Fault::NoDirective),
    }
}
