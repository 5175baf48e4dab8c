// What a journal file has, as far as its closing gate.
use crate::journal_head::{HEAD, JournalHead, OPEN, number_at};
use std::fs::{self, File};
use std::io::{self, ErrorKind};
use std::os::unix::fs::FileExt;

/// How many bytes are read at once.
const PIECE: usize = 65_536;

/// What a record takes beside its body, and how long that is at most.
const RECORD_HEAD: usize = 5;

const LONGEST_BODY: usize = 2_097_152;

/// The bytes of a journal file from its front on: all, or as many as a reader of the whole file looks at. Behind the closing gate there may
/// be any number, as in a file with a hole.
#[derive(Drop)]
pub(crate) struct JournalFile {
    pub(crate) bytes: Vec<u8>,
    /// The records of one that counts, and how many bytes they take.
    pub(crate) records: u64,
    pub(crate) record_bytes: u64,
}

impl JournalFile {
    /// Reads the file at this path, which is opened for reading alone and not locked. Only a regular one: anything else may have no end,
    /// or wait for its other end.
    pub(crate) fn read(rt: &HostRuntime, path: &str) -> io::Result<JournalFile> {
        if !fs::metadata(rt, path)?.is_file() {
            return Err(io::Error::other("no regular file"));
        }
        let reading = Reading {
            file: File::open(rt, path)?,
            piece: vec![in rt.alloc(); 0u8; PIECE]?,
            bytes: Vec::new(rt.alloc()),
        };
        reading.whole()
    }

    /// The head of one that counts.
    pub(crate) fn head(&self) -> Option<JournalHead> {
        JournalHead::of(&self.bytes)
    }
}

// A file that is read from its front on.
#[derive(Drop)]
struct Reading {
    file: File,
    piece: Vec<u8>,
    bytes: Vec<u8>,
}

impl Reading {
    // Reads on until so many bytes are there; `false` where the file has fewer.
    fn reach(&mut self, count: usize) -> io::Result<bool> {
        for _ in 0..u64::MAX {
            if self.bytes.len() >= count {
                return Ok(true);
            }
            match self.file.read_at(&mut self.piece, self.bytes.len() as u64) {
                Ok(0) => return Ok(false),
                Ok(read) => {
                    let read = read.min(self.piece.len());
                    self.bytes.extend_from_slice(&self.piece[..read])?;
                }
                Err(error) if error.kind() == ErrorKind::Interrupted => {}
                Err(error) => return Err(error),
            }
        }
        Ok(false)
    }

    // Where the record ends whose gate has this offset; none where no whole one begins there.
    fn end_of_record(&mut self, gate: usize) -> io::Result<Option<usize>> {
        let body = gate.saturating_add(RECORD_HEAD);
        if !self.reach(body)? || self.bytes.get(gate) != Some(&OPEN) {
            return Ok(None);
        }
        let Some(len) = number_at(&self.bytes, gate.saturating_add(1)) else {
            return Ok(None);
        };
        let end = body.saturating_add(len as usize);
        if len as usize > LONGEST_BODY || !self.reach(end.saturating_add(1))? {
            return Ok(None);
        }
        Ok(Some(end))
    }

    // Reads all that a reader of the whole file looks at.
    fn whole(mut self) -> io::Result<JournalFile> {
        let (mut records, mut first, mut gate) = (0_u64, 0, 0);
        if self.reach(HEAD)? && JournalHead::of(&self.bytes).is_some() {
            let snapshot = number_at(&self.bytes, HEAD - 4).unwrap_or(0);
            first = HEAD.saturating_add(snapshot as usize);
            gate = first;
            if self.reach(first)? {
                for _ in 0..u64::MAX {
                    let Some(end) = self.end_of_record(gate)? else {
                        break;
                    };
                    gate = end;
                    records = records.saturating_add(1);
                }
            }
        }
        Ok(JournalFile {
            bytes: self.bytes,
            records,
            record_bytes: gate.saturating_sub(first) as u64,
        })
    }
}
