// The journal.
ghost use Rattle.std.specs.Prelude.{◌≡◌, ◌≢◌, ◌⊎◌, ◌↔◌, ◌+◌, ◌-◌, ◌^◌, ◌<◌, ◌≤◌, Bool, true, false, List, [], ◌∷◌, length, vec_capacity};
ghost use Rattle.std.specs.Prelude.{Err, Some, None, IsTrue, IsSome, IfOk, IfErr, OnOk, OnErr, IsOk, IsErrAnd, MatchResult, MatchBool, Ok};
ghost use Rattle.disk_model.specs.Later.{AreLater, HasFailed};
ghost use Rattle.play_journal.specs.Calls.{Holds, IsNew, IsOpened, IsNextRecord, StaysInFile, IsNextGeneration, RefusesInOrder, SameFaults};
ghost use Rattle.play_journal.specs.Calls.{AreItsNumbers, RefusesRecord};
ghost use Rattle.play_journal.specs.Content.{fresh, with_record, with_snapshot, IsBeforeOrAfter, IsOldOrNew, IsWrittenLayout};
ghost use Rattle.play_journal.specs.Errors.{IsRefusalOfCreate, IsRefusalOfOpen, IsRefusalOfAppend, IsRefusalOfCheckpoint};
ghost use Rattle.play_journal.specs.File.{records_len};
ghost use Rattle.play_journal.specs.FileRead.{content_read};
ghost use Rattle.play_journal.specs.JournalState.{at_place, content_in, IsKept};
ghost use Rattle.play_journal.specs.Opening.{IsCause};
ghost use Rattle.play_journal.specs.Pair.{reading, AllPairsNow, AllPairsSince, KeepsFound};
ghost use Rattle.play_journal.specs.Pieces.{most_pieces};
ghost use Rattle.play_journal.specs.Room.{room};
ghost use Rattle.play_journal.specs.Steps.{IsReady, HasNumbersOf};

use crate::appending::{RECORD_HEAD, append_at, put_record};
use crate::creating::{LONGEST_SNAPSHOT, fresh_journal};
use crate::laying::{Head, lay_down};
use crate::opening::{Opened, open_files};
use crate::reading::{FileRead, HEAD_LEN, LONGEST_BODY, is_written};
use crate::{JournalError, Pieces, Refused, Stored};
use disk_model::Disk;
use std::alloc::Global;
use std::marker::Model;
use std::mem;

mod ahead;
mod groups;

/// A journal over two files: a snapshot, and records behind it, each of which was on the disk when the call that added it returned.
///
/// All that is said of bytes is said of two honest disks.
#[derive(Debug, Drop)]
pub struct Journal<D: Disk> {
    here: D,
    there: D,
    swapped: bool,
    end: u64,
    layout: u32,
    generation: u64,
    base: u64,
    snapshot_len: u64,
    count: u64,
    bytes: u64,
    buffer: Vec<u8>,
    spent: bool,
}

impl<D: Disk> Model for Journal<D> {
    ghost use Rattle.std.specs.Prelude.{◌≡◌, ◌+◌, ◌^◌, ◌<◌, ◌≤◌, false, vec_capacity};
    ghost use Rattle.play_journal.specs.JournalState.{JournalState, content_in, at_place, IsKept, IsMeasured};
    ghost use Rattle.play_journal.specs.Room.{room};

    ghost Value = { JournalState D };

    ghost view = { λ j. record {
      a = at_place j.swapped j.here j.there;
      b = at_place j.swapped j.there j.here;
      layout = j.layout;
      generation = j.generation;
      base = j.base;
      snapshot_len = j.snapshot_len;
      count = j.count;
      bytes = j.bytes;
      content = content_in (D.content j.here);
      is_spent = j.spent;
      is_in_b = j.swapped;
    } };

    ghost invariant = { λ j. (room ≤ vec_capacity j.buffer) × (j.base + j.count < 2 ^ 64)
        × (j.spent ≡ false → D.honest j.here → D.honest j.there → IsKept (D.content j.here) (D.content j.there) (D.history j.here)
        (D.history j.there) j.end j.layout j.generation j.base j.count)
        × (j.spent ≡ false → D.honest j.here → D.honest j.there → IsMeasured (content_in (D.content j.here)) j.snapshot_len j.bytes) };
}

impl<D: Disk> Journal<D> {
    /// Makes a journal of two empty files in layout 2 or 3, with a snapshot of at most 4,294,967,295 bytes and no records.
    ///
    /// It refuses in the order `NotEmpty`, `TooLong`, `NoMemory`, `DiskFault`. A crash inside the call may leave files that
    /// are neither empty nor a journal.
    pub fn create<P: Pieces>(
        alloc: Global,
        a: D,
        b: D,
        layout: u32,
        snapshot: P,
    ) -> Result<Journal<D>, Refused<D>>
        requires written { IsWrittenLayout layout }

        // From `Ok` on the files give the snapshot without records: file a is in use, and file b is empty.
        ensures kept { D.honest a → D.honest b → IfOk result (λ j. Holds D.history j (fresh layout (P.left snapshot))) }
        ensures new { IfOk result (λ j. IsNew D.faults a b j layout (length (P.left snapshot))) }
        ensures empty { D.honest a → D.honest b → IfOk result (λ j. D.content j.b ≡ []) }

        ensures not_empty { D.honest a → D.honest b
            → (IsErrAnd result (λ e. e.error ≡ JournalError.NotEmpty) ↔ ((D.content a ≢ []) ⊎ (D.content b ≢ []))) }
        ensures too_long { D.honest a → D.honest b → D.content a ≡ [] → D.content b ≡ []
            → (IsErrAnd result (λ e. e.error ≡ JournalError.TooLong) ↔ (4294967295 < length (P.left snapshot))) }
        ensures fault { D.honest a → D.honest b
            → IfErr result (λ e. e.error ≡ JournalError.DiskFault → HasFailed D.faults a b e.a e.b) }
        ensures nothing_else { IfErr result (λ e. IsRefusalOfCreate e.error) }

        // Another refusal than a disk fault hands the disks back as they were.
        ensures stays { IfErr result (λ e. e.error ≢ JournalError.DiskFault → (e.a ≡ a) × (e.b ≡ b)) }
        ensures later { MatchResult result (λ j. AreLater D.honest D.history D.faults a b j.a j.b)
            (λ e. AreLater D.honest D.history D.faults a b e.a e.b) }
    {
        let (mut a, mut b) = (a, b);
        let len = snapshot.len();
        if !a.is_empty() || !b.is_empty() {
            return Err(Refused {
                error: JournalError::NotEmpty,
                a,
                b,
            });
        }
        match fresh_journal(alloc, &mut a, &mut b, layout, snapshot) {
            Ok((buffer, end)) => Ok(Journal {
                here: a,
                there: b,
                swapped: false,
                end,
                layout,
                generation: 1,
                base: 0,
                snapshot_len: len as u64,
                count: 0,
                bytes: 0,
                buffer,
                spent: false,
            }),
            Err(error) => Err(Refused { error, a, b }),
        }
    }

    /// Opens two files that a crash may have left: the journal, its snapshot, and the records behind it in order.
    ///
    /// Both files are synced, and what stands behind the last record is cut off. A refusal hands both disks back.
    pub fn open(alloc: Global, a: D, b: D) -> Result<(Journal<D>, Stored), Refused<D>>
        // It answers what the files give, and names what is wrong with them.
        ensures read { D.honest a → D.honest b → IfOk result (λ r. reading (D.content a) (D.content b) ≡ Ok r.0.content) }
        ensures opened { IfOk result (λ r. IsOpened (D.honest a × D.honest b) D.content D.faults a b r.0 r.1) }
        ensures cause { D.honest a → D.honest b → IfErr result (λ e. IsCause (reading (D.content a) (D.content b)) e.error) }

        // Stopped at any moment, the files give what they might have given before, and from `Ok` on what is answered.
        ensures any_moment { D.honest a → D.honest b → MatchResult result
            (λ r. KeepsFound (D.history a) (D.history b) (D.history r.0.a) (D.history r.0.b))
            (λ e. KeepsFound (D.history a) (D.history b) (D.history e.a) (D.history e.b)) }
        ensures kept { D.honest a → D.honest b → IfOk result (λ r. AllPairsNow (λ f. f ≡ Some r.0.content) (D.history r.0.a)
            (D.history r.0.b)) }

        // Where each pair that a crash may have left is a journal, it opens, unless memory is wanting or a disk fails.
        ensures opens { D.honest a → D.honest b → AllPairsNow (λ f. IsSome f) (D.history a) (D.history b)
            → IfErr result (λ e. (e.error ≡ JournalError.NoMemory) ⊎ (e.error ≡ JournalError.DiskFault)) }
        ensures fault { D.honest a → D.honest b
            → IfErr result (λ e. e.error ≡ JournalError.DiskFault → HasFailed D.faults a b e.a e.b) }
        ensures nothing_else { IfErr result (λ e. IsRefusalOfOpen e.error) }

        // Another refusal than a disk fault leaves the bytes as they were.
        ensures stays { D.honest a → D.honest b → IfErr result (λ e. e.error ≢ JournalError.DiskFault
            → (D.content e.a ≡ D.content a) × (D.content e.b ≡ D.content b)) }
        ensures later { MatchResult result (λ r. AreLater D.honest D.history D.faults a b r.0.a r.0.b)
            (λ e. AreLater D.honest D.history D.faults a b e.a e.b) }
    {
        let (mut a, mut b) = (a, b);
        match open_files(alloc, &mut a, &mut b) {
            Ok((swapped, opened)) => Ok(opened_journal(opened, swapped, a, b)),
            Err(error) => Err(Refused { error, a, b }),
        }
    }

    /// Adds a record, and answers its number. A record is at most 2,097,152 bytes long.
    ///
    /// It refuses in the order `DiskFault` (spent), `OldLayout`, `TooLong`, `NumbersSpent` (the last record has the number 2^64 - 1),
    /// `DiskFault` (now).
    ///
    /// After `DiskFault` the journal is spent, and the record may be there or not: open the files again.
    pub fn append(&mut self, body: &[u8]) -> Result<u64, JournalError>
        // Stopped at any moment, the files give what they gave before, or this with the new record, which they give from `Ok` on.
        ensures any_moment { D.honest self.old.a → D.honest self.old.b → self.old.is_spent ≡ false
            → AllPairsSince (IsBeforeOrAfter self.old.content body.now)
            (D.history self.new.a) (length (D.history self.old.a)) (D.history self.new.b) (length (D.history self.old.b)) }
        ensures kept { D.honest self.old.a → D.honest self.old.b
            → OnOk result (Holds D.history self.new (with_record self.old.content body.now)) }
        ensures number { IfOk result (λ number. IsNextRecord self.old self.new (length body.now) number) }

        ensures refuses { RefusesRecord self.old self.new (length body.now) result }
        ensures nothing_else { IfErr result IsRefusalOfAppend }
        ensures met_none { OnOk result (SameFaults D.faults self.old.a self.old.b self.new.a self.new.b) }
        ensures fault { D.honest self.old.a → D.honest self.old.b → self.old.is_spent ≡ false → result ≡ Err JournalError.DiskFault
            → HasFailed D.faults self.old.a self.old.b self.new.a self.new.b }

        // The other file isn't touched, and the one in use by four calls of its disk.
        ensures file { StaysInFile self.old self.new }
        ensures calls { D.honest self.old.a → D.honest self.old.b → OnOk result (length (D.history self.new.a) + length
            (D.history self.new.b)
            ≡ length (D.history self.old.a) + length (D.history self.old.b) + 4) }
        ensures later { AreLater D.honest D.history D.faults self.old.a self.old.b self.new.a self.new.b }
    {
        if self.spent {
            return Err(JournalError::DiskFault);
        }
        if !is_written(self.layout) {
            return Err(JournalError::OldLayout);
        }
        let len = body.len();
        if len > LONGEST_BODY {
            return Err(JournalError::TooLong);
        }
        let number = self.base + self.count;
        if number == u64::MAX {
            return Err(JournalError::NumbersSpent);
        }
        put_record(&mut self.buffer, body);
        match append_at(&mut self.here, self.end, &self.buffer) {
            Ok(()) => {
                let added = RECORD_HEAD + len as u64;
                self.end = self.end.saturating_add(added);
                self.count += 1;
                self.bytes = self.bytes.saturating_add(added);
                Ok(number + 1)
            }
            Err(error) => {
                self.spent = true;
                Err(error)
            }
        }
    }

    /// Makes a new snapshot: it is laid down in the other file in layout 2 or 3, to which records go from then on. The file from before
    /// isn't touched. A snapshot is at most 4,294,967,295 bytes long.
    ///
    /// It takes no memory, and refuses in the order `DiskFault` (spent), `TooLong`, `NumbersSpent` (the last generation is 2^64 - 1),
    /// `DiskFault` (now). After the last the journal is spent, and the snapshot may be there or not: open the files again.
    pub fn checkpoint<P: Pieces>(&mut self, layout: u32, snapshot: P) -> Result<(), JournalError>
        requires written { IsWrittenLayout layout }

        // Stopped at any moment, the files give what they gave before, or the new snapshot without records, which they give from
        // `Ok` on.
        ensures any_moment { D.honest self.old.a → D.honest self.old.b → self.old.is_spent ≡ false
            → AllPairsSince (IsOldOrNew self.old.content layout (P.left snapshot))
            (D.history self.new.a) (length (D.history self.old.a)) (D.history self.new.b) (length (D.history self.old.b)) }
        ensures kept { D.honest self.old.a → D.honest self.old.b
            → OnOk result (Holds D.history self.new (with_snapshot self.old.content layout (P.left snapshot))) }
        ensures next { OnOk result (IsNextGeneration D.faults self.old self.new layout (length (P.left snapshot))) }

        ensures refuses { RefusesInOrder self.old self.new 4294967295 (length (P.left snapshot)) self.old.generation result }
        ensures nothing_else { IfErr result IsRefusalOfCheckpoint }
        ensures fault { D.honest self.old.a → D.honest self.old.b → self.old.is_spent ≡ false → result ≡ Err JournalError.DiskFault
            → HasFailed D.faults self.old.a self.old.b self.new.a self.new.b }

        // The file that was in use isn't touched, and the other by eight calls of its disk and one for each piece at most.
        ensures calls { D.honest self.old.a → D.honest self.old.b → OnOk result (length (D.history self.new.a) + length
            (D.history self.new.b)
            ≤ length (D.history self.old.a) + length (D.history self.old.b)
            + (8 + most_pieces (length (P.left snapshot)))) }
        ensures old_file { MatchBool self.old.is_in_b (self.new.b ≡ self.old.b) (self.new.a ≡ self.old.a) }
        ensures later { AreLater D.honest D.history D.faults self.old.a self.old.b self.new.a self.new.b }
    {
        if self.spent {
            return Err(JournalError::DiskFault);
        }
        let mut snapshot = snapshot;
        let len = snapshot.len();
        if len > LONGEST_SNAPSHOT {
            return Err(JournalError::TooLong);
        }
        if self.generation == u64::MAX {
            return Err(JournalError::NumbersSpent);
        }
        let says = Head {
            layout,
            generation: self.generation + 1,
            base: self.base + self.count,
            size: len as u32,
        };
        if let Err(error) = lay_down(&mut self.there, &mut self.buffer, says, &mut snapshot) {
            self.spent = true;
            return Err(error);
        }
        mem::swap(&mut self.here, &mut self.there);
        self.swapped = !self.swapped;
        self.end = (HEAD_LEN + len) as u64;
        self.layout = layout;
        self.generation += 1;
        self.base += self.count;
        self.snapshot_len = len as u64;
        self.count = 0;
        self.bytes = 0;
        Ok(())
    }

    /// How many records went before the snapshot.
    pub fn base(&self) -> u64
        ensures value { result ≡ self.now.base }
        ensures content { D.honest self.now.a → D.honest self.now.b → self.now.is_spent ≡ false → self.now.content.base ≡ result }
    {
        self.base
    }

    /// The layout of the file in use: 2 or 3, or 1 in a journal of before, to which a checkpoint must be made before a record is added.
    pub fn layout(&self) -> u32
        ensures value { result ≡ self.now.layout }
        ensures content { D.honest self.now.a → D.honest self.now.b → self.now.is_spent ≡ false → self.now.content.layout ≡ result }
    {
        self.layout
    }

    /// The generation of the file in use. A checkpoint makes the next one, unless it is 2^64 - 1.
    pub fn generation(&self) -> u64
        ensures value { result ≡ self.now.generation }
        ensures content { D.honest self.now.a → D.honest self.now.b → self.now.is_spent ≡ false → self.now.content.generation ≡ result }
    {
        self.generation
    }

    /// How many records stand behind the snapshot.
    pub fn records_since_checkpoint(&self) -> u64
        ensures value { result ≡ self.now.count }
        ensures content { D.honest self.now.a → D.honest self.now.b → self.now.is_spent ≡ false → length self.now.content.records ≡ result }
    {
        self.count
    }

    /// How many bytes the records behind the snapshot take in the file in use: of each its gate, its length and its body. They are counted
    /// up to 2^64 - 1.
    pub fn bytes_since_checkpoint(&self) -> u64
        ensures value { result ≡ self.now.bytes }
        ensures content { D.honest self.now.a → D.honest self.now.b → self.now.is_spent ≡ false
            → records_len self.now.content.records ≡ result }
    {
        self.bytes
    }

    /// The length of the snapshot in the file in use, in bytes.
    pub fn snapshot_len(&self) -> u64
        ensures value { result ≡ self.now.snapshot_len }
        ensures content { D.honest self.now.a → D.honest self.now.b → self.now.is_spent ≡ false
            → length self.now.content.snapshot ≡ result }
    {
        self.snapshot_len
    }

    /// Whether a disk failed. Every later `append`, `append_all` and `checkpoint` then answers `DiskFault`: open the files again.
    pub fn is_spent(&self) -> bool
        ensures value { result ≡ self.now.is_spent }
        ensures kept { D.honest self.now.a → D.honest self.now.b → self.now.is_spent ≡ false
            → AllPairsNow (λ f. f ≡ Some self.now.content) (D.history self.now.a) (D.history self.now.b) }
        ensures numbers { D.honest self.now.a → D.honest self.now.b → self.now.is_spent ≡ false → AreItsNumbers self.now }
    {
        self.spent
    }

    /// The disks of files a and b.
    pub fn into_disks(self) -> (D, D)
        ensures { result ≡ (self.a, self.b) }
    {
        let Journal {
            here,
            there,
            swapped,
            end: _,
            layout: _,
            generation: _,
            base: _,
            snapshot_len: _,
            count: _,
            bytes: _,
            buffer: _,
            spent: _,
        } = self;
        placed(swapped, here, there)
    }
}

// The disk in use and the other one, or the disks of files a and b, whichever is given.
fn placed<D>(swapped: bool, first: D, second: D) -> (D, D)
    ensures { result ≡ (at_place swapped first second, at_place swapped second first) }
{
    if swapped {
        (second, first)
    } else {
        (first, second)
    }
}

// The journal over a file that was opened, and what stands in it.
fn opened_journal<D: Disk>(opened: Opened, swapped: bool, a: D, b: D) -> (Journal<D>, Stored)
    requires ready { IsReady (vec_capacity opened.buffer) opened.file }
    requires in_use { D.honest a → D.honest b → IsKept (D.content (at_place swapped a b)) (D.content (at_place swapped b a))
        (D.history (at_place swapped a b)) (D.history (at_place swapped b a)) opened.file.end opened.file.layout opened.file.generation
        opened.file.base (length opened.file.stored.records) }
    requires says { D.honest a → D.honest b → content_in (D.content (at_place swapped a b)) ≡ content_read opened.file }
    ensures a { result.0.a ≡ a }
    ensures b { result.0.b ≡ b }
    ensures numbers { HasNumbersOf opened.file result.0 }
    ensures content { result.0.content ≡ content_in (D.content (at_place swapped a b)) }
    ensures usable { result.0.is_spent ≡ false }
    ensures in_b { result.0.is_in_b ≡ swapped }
    ensures stored { result.1 ≡ opened.file.stored }
{
    let Opened { file, buffer } = opened;
    let FileRead {
        layout,
        generation,
        base,
        stored,
        end,
    } = file;
    let (here, there) = placed(swapped, a, b);
    let snapshot_len = stored.snapshot().len();
    let journal = Journal {
        here,
        there,
        swapped,
        end: end as u64,
        layout,
        generation,
        base,
        snapshot_len: snapshot_len as u64,
        count: stored.record_count() as u64,
        bytes: (end - HEAD_LEN - snapshot_len) as u64,
        buffer,
        spent: false,
    };
    (journal, stored)
}
