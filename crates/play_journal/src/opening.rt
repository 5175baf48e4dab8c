// Opening two files that a crash may have left.
ghost use Rattle.std.specs.Prelude.{◌≡◌, ◌≢◌, ◌⊎◌, ◌↔◌, ◌+◌, ◌-◌, ◌^◌, ◌<◌, ◌≤◌, Bool, List, ◌++◌, length, take, vec_capacity};
ghost use Rattle.std.specs.Prelude.{Err, OnOk, OnErr, IfOk, IfErr, Ok};
ghost use Rattle.disk_model.specs.Faults.{HasGrown};
ghost use Rattle.disk_model.specs.Images.{window, settled};
ghost use Rattle.disk_model.specs.Later.{IsLater, AreLater, HasFailed};
ghost use Rattle.disk_model.specs.Moments.{AllSince};
ghost use Rattle.play_journal.specs.Calls.{SameFaults};
ghost use Rattle.play_journal.specs.Errors.{IsRefusalOfOpen};
ghost use Rattle.play_journal.specs.Opening.{told_front, chosen_file, ReadsSame, KeepsFile, IsCause};
ghost use Rattle.play_journal.specs.Pair.{told, reading};
ghost use Rattle.play_journal.specs.Reading.{Open, front, read};
ghost use Rattle.play_journal.specs.Room.{room};
ghost use Rattle.play_journal.specs.Steps.{IsSyncedOrNot, AreSettled, KeepBytes, IsReady, IsReadAndCut, IsInUseOf};

use crate::JournalError;
use crate::reading::{FileRead, HEAD_LEN, LONGEST_BODY, file_of, generation_of, second_is_newer};
use disk_model::Disk;
use std::alloc::{AllocError, Global};

// Room for one record with its length field, and for the closed gate behind it.
const ROOM: usize = LONGEST_BODY + 5;

// The buffer for one record: room alone, no byte of which is touched before the first record is put into it.
pub(crate) fn record_room(alloc: Global) -> Result<Vec<u8>, AllocError>
    ensures { IfOk result (λ v. room ≤ vec_capacity v) }
{
    Vec::with_capacity(alloc, ROOM)
}

// The generation of a file that is open, or none.
fn generation_on<D: Disk>(disk: &mut D) -> Result<Option<u64>, JournalError>
    ensures later { IsLater D.honest D.history D.faults disk.old disk.new }
    ensures content { D.honest disk.old → D.content disk.new ≡ D.content disk.old }
    ensures history { D.honest disk.old → D.history disk.new ≡ D.history disk.old }
    ensures told { D.honest disk.old → (result ≡ Err JournalError.DiskFault) ⊎ (result ≡ told_front (front (D.content disk.old))) }
    ensures refusal { IfErr result IsRefusalOfOpen }
    ensures fault { D.honest disk.old → result ≡ Err JournalError.DiskFault → HasGrown (D.faults disk.old) (D.faults disk.new) }
    ensures met_none { OnOk result (D.faults disk.new ≡ D.faults disk.old) }
{
    if disk.len() < HEAD_LEN as u64 {
        return Ok(None);
    }
    let mut head = [0; HEAD_LEN];
    disk.read_at(0, &mut head)?;
    generation_of(&head)
}

// All the bytes of a file.
fn bytes_of<D: Disk>(alloc: Global, disk: &mut D) -> Result<Vec<u8>, JournalError>
    ensures later { IsLater D.honest D.history D.faults disk.old disk.new }
    ensures content { D.honest disk.old → D.content disk.new ≡ D.content disk.old }
    ensures history { D.honest disk.old → D.history disk.new ≡ D.history disk.old }
    ensures bytes { D.honest disk.old → IfOk result (λ v. v.items ≡ D.content disk.old) }
    ensures error { IfErr result (λ e. (e ≡ JournalError.NoMemory) ⊎ (e ≡ JournalError.DiskFault)) }
    ensures fault { D.honest disk.old → result ≡ Err JournalError.DiskFault → HasGrown (D.faults disk.old) (D.faults disk.new) }
    ensures met_none { OnOk result (D.faults disk.new ≡ D.faults disk.old) }
{
    let len = disk.len() as usize;
    let mut bytes = vec![in alloc; 0; len]?;
    disk.read_at(0, &mut bytes)?;
    Ok(bytes)
}

// Cuts a settled file to a length within it.
pub(crate) fn cut_to<D: Disk>(disk: &mut D, len: u64) -> Result<(), JournalError>
    ensures later { IsLater D.honest D.history D.faults disk.old disk.new }
    ensures any_moment { D.honest disk.old → window (D.history disk.old) ≡ settled (D.content disk.old) → len ≤ length (D.content disk.old)
        → AllSince (λ x. (rest : List _) × (x ≡ take len (D.content disk.old) ++ rest)) (D.history disk.new) (length (D.history disk.old)) }
    ensures settled { D.honest disk.old → OnOk result (window (D.history disk.new) ≡ settled (D.content disk.new)) }
    ensures cut { D.honest disk.old → OnOk result (D.content disk.new ≡ take len (D.content disk.old)) }
    ensures error { OnErr result (result ≡ Err JournalError.DiskFault) }
    ensures fault { D.honest disk.old → len ≤ length (D.content disk.old)
        → OnErr result (HasGrown (D.faults disk.old) (D.faults disk.new)) }
    ensures met_none { OnOk result (D.faults disk.new ≡ D.faults disk.old) }
{
    disk.cut(len)?;
    disk.sync()?;
    Ok(())
}

// What opening found: the file in use, cut behind its closing gate.
#[derive(Drop)]
pub(crate) struct Opened {
    pub(crate) file: FileRead,
    pub(crate) buffer: Vec<u8>,
}

// Reads a settled file whose head is right, and cuts off what follows its closing gate.
fn open_file<D: Disk>(alloc: Global, disk: &mut D) -> Result<Opened, JournalError>
    ensures later { IsLater D.honest D.history D.faults disk.old disk.new }
    ensures ready { IfOk result (λ r. IsReady (vec_capacity r.buffer) r.file) }
    ensures opened { D.honest disk.old
        → IfOk result (λ r. IsReadAndCut (D.content disk.old) (D.content disk.new) (D.history disk.new) r.file) }
    ensures cause { D.honest disk.old → IfErr result (IsCause (told (read (D.content disk.old)))) }
    ensures refusal { IfErr result IsRefusalOfOpen }
    ensures any_moment { D.honest disk.old → window (D.history disk.old) ≡ settled (D.content disk.old) → (generation : _)
        → front (D.content disk.old) ≡ Open generation
        → AllSince (λ x. ReadsSame x (D.content disk.old)) (D.history disk.new) (length (D.history disk.old)) }
    ensures uncut { D.honest disk.old → IfErr result (λ e. e ≢ JournalError.DiskFault → D.content disk.new ≡ D.content disk.old) }
    ensures fault { D.honest disk.old → (generation : _) → front (D.content disk.old) ≡ Open generation
        → result ≡ Err JournalError.DiskFault → HasGrown (D.faults disk.old) (D.faults disk.new) }
    ensures met_none { OnOk result (D.faults disk.new ≡ D.faults disk.old) }
{
    let bytes = bytes_of(alloc, disk)?;
    let file = file_of(alloc, bytes)?;
    let buffer = record_room(alloc)?;
    cut_to(disk, (file.end as u64).saturating_add(1))?;
    Ok(Opened { file, buffer })
}

// Which file is in use, after both are settled: the second, or the first.
fn file_in_use<D: Disk>(a: &mut D, b: &mut D) -> Result<bool, JournalError>
    ensures synced_a { IsSyncedOrNot D.honest D.history D.content D.faults a.old a.new }
    ensures synced_b { IsSyncedOrNot D.honest D.history D.content D.faults b.old b.new }
    ensures settled { OnOk result (AreSettled D.honest D.history D.content a.old b.old a.new b.new) }
    ensures content { OnOk result (KeepBytes D.honest D.content a.old b.old a.new b.new) }
    ensures uncut { IfErr result (λ e. e ≢ JournalError.DiskFault → KeepBytes D.honest D.content a.old b.old a.new b.new) }
    ensures chosen { D.honest a.old → D.honest b.old → (result ≡ Err JournalError.DiskFault)
        ⊎ (result ≡ chosen_file (front (D.content a.old)) (front (D.content b.old))) }
    ensures refusal { IfErr result IsRefusalOfOpen }
    ensures fault { D.honest a.old → D.honest b.old → result ≡ Err JournalError.DiskFault
        → HasFailed D.faults a.old b.old a.new b.new }
    ensures met_none { OnOk result (SameFaults D.faults a.old b.old a.new b.new) }
{
    a.sync()?;
    b.sync()?;
    let first = generation_on(a)?;
    let second = generation_on(b)?;
    second_is_newer(first, second)
}

// Settles both files, and opens the one in use: the second, or the first.
pub(crate) fn open_files<D: Disk>(
    alloc: Global,
    a: &mut D,
    b: &mut D,
) -> Result<(bool, Opened), JournalError>
    ensures later { AreLater D.honest D.history D.faults a.old b.old a.new b.new }
    ensures kept_a { D.honest a.old → D.honest b.old → KeepsFile (D.history a.old) (D.history a.new) }
    ensures kept_b { D.honest a.old → D.honest b.old → KeepsFile (D.history b.old) (D.history b.new) }
    ensures ready { IfOk result (λ r. IsReady (vec_capacity r.1.buffer) r.1.file) }
    ensures opened { D.honest a.old → D.honest b.old
        → IfOk result (λ r. IsInUseOf D.history D.content a.old b.old a.new b.new r.0 r.1.file) }
    ensures cause { D.honest a.old → D.honest b.old → IfErr result (IsCause (reading (D.content a.old) (D.content b.old))) }
    ensures refusal { IfErr result IsRefusalOfOpen }
    ensures uncut { IfErr result (λ e. e ≢ JournalError.DiskFault → KeepBytes D.honest D.content a.old b.old a.new b.new) }
    ensures fault { D.honest a.old → D.honest b.old → result ≡ Err JournalError.DiskFault
        → HasFailed D.faults a.old b.old a.new b.new }
    ensures met_none { OnOk result (SameFaults D.faults a.old b.old a.new b.new) }
{
    if file_in_use(a, b)? {
        Ok((true, open_file(alloc, b)?))
    } else {
        Ok((false, open_file(alloc, a)?))
    }
}
