// A disk over a real file.
ghost use Rattle.std.specs.Prelude.{◌≡◌, ◌≢◌, ◌+◌, ◌-◌, ◌^◌, ◌<◌, ◌≤◌, ◌↔◌, true, false, min, max, ℕ, List, [], length, IfOk, OnOk};
ghost use Rattle.std.specs.Prelude.{OnErr, IsErrOf, Err};
ghost use Rattle.disk_model.specs.Faults.{IsCounted};
ghost use Rattle.disk_model.specs.FileLength.{length_of, file_faults, is_lost};

use crate::disk::{PIECE, count_fault};
use crate::{Disk, DiskError};
use std::fs::{File, OpenFile, OpenOptions};
use std::io;
use std::os::unix::fs::FileExt;
use std::path::Path;
use std::rt::Files;

const MAX_LEN: u64 = 0x7fff_ffff_ffff_ffff;

/// A file of the operating system, which nobody else may write meanwhile.
///
/// No contract can say what a file holds, so its honesty is a premise that no code supplies: what is promised of an
/// honest disk holds of a file where the file system and the device keep it.
#[derive(Drop)]
pub struct FileDisk<F> {
    file: F,
    len: u64,
    faults: u64,
    // A sync failed, or the length could not be measured behind a write or a cut that failed: from then on each call fails.
    is_lost: bool,
    // What the system said of the last call that failed.
    error: Option<io::Error>,
    // The call that was refused room when the file was to be lengthened last, and what the system said.
    no_room: Option<(&'static str, io::Error)>,
}

impl<F: OpenFile + FileExt> FileDisk<F> {
    /// Opens a file for reading and writing, and makes it, empty, where it is missing.
    /// Its folder is synced, so that the file itself outlives a power cut.
    pub fn open<R: Files<File = F>>(rt: &R, path: &str) -> io::Result<FileDisk<F>>
    where
        F: Drop,
        ensures { IfOk result (λ disk. file_faults disk ≡ 0) }
    {
        let file = OpenOptions::new()
            .read(true)
            .write(true)
            .create(true)
            .open(rt, path)?;
        sync_folder(rt, path)?;
        let len = file.metadata()?.len();
        Ok(FileDisk {
            file,
            len,
            faults: 0,
            is_lost: false,
            error: None,
            no_room: None,
        })
    }

    /// What the operating system said of the last call that it failed, if it failed one.
    pub fn error(&self) -> Option<io::Error> {
        self.error
    }

    // Counts a fault that the system told.
    fn failed(&mut self, error: io::Error) -> DiskError
        ensures counted { self.new.faults ≡ min (self.old.faults + 1) (2 ^ 64 - 1) }
        ensures later { self.old.faults ≤ self.new.faults }
        ensures length_stays { self.new.len ≡ self.old.len }
        ensures lost { self.new.is_lost ≡ self.old.is_lost }
        ensures fault { result ≡ DiskError.DiskFault }
    {
        self.error = Some(error);
        count_fault(&mut self.faults)
    }

    // Puts zero bytes behind the end up to this length, and syncs.
    fn put_zeros(&self, len: u64) -> Result<(), (&'static str, io::Error)> {
        let zeros = [0; PIECE];
        let mut at = self.len;
        while at < len {
            let count = (len - at).min(PIECE as u64);
            if let Err(error) = self.file.write_all_at(&zeros[..count as usize], at) {
                return Err(("write", error));
            }
            at += count;
        }
        if let Err(error) = self.file.sync_data() {
            return Err(("sync", error));
        }
        Ok(())
    }

    // Cuts off what was put behind the end, for which there was no room, and syncs. That the sync before it failed says nothing of the
    // bytes in front: they were synced before.
    fn give_back(&mut self, call: &'static str, error: io::Error) -> Result<bool, DiskError>
        ensures ok { IfOk result (λ is_there. is_there ≡ false) }
        ensures length_stays { self.new.len ≡ self.old.len }
        ensures counted { IsCounted self.old.faults self.new.faults result }
        ensures fault { OnErr result (result ≡ Err DiskError.DiskFault) }
        ensures stays { OnOk result (self.new.is_lost ≡ self.old.is_lost) }
        ensures loses { OnErr result (self.new.is_lost ≡ true) }
    {
        let cut = match self.file.set_len(self.len) {
            Ok(()) => self.file.sync_data(),
            Err(error) => Err(error),
        };
        match cut {
            Ok(()) => {
                self.no_room = Some((call, error));
                Ok(false)
            }
            Err(error) => {
                self.is_lost = true;
                Err(self.failed(error))
            }
        }
    }

    // Counts a fault of a call that may have been done in part, and measures the file again.
    fn changed_in_part(&mut self, error: io::Error) -> DiskError
        ensures counted { self.new.faults ≡ min (self.old.faults + 1) (2 ^ 64 - 1) }
        ensures later { self.old.faults ≤ self.new.faults }
        ensures fault { result ≡ DiskError.DiskFault }
    {
        match self.file.metadata() {
            Ok(metadata) => self.len = metadata.len(),
            Err(_) => self.is_lost = true,
        }
        self.failed(error)
    }
}

// The disk is full, the user's part of it, or the file is as long as it may be: ENOSPC, EDQUOT, EFBIG.
fn is_of_room(error: &io::Error) -> bool {
    match error.raw_os_error() {
        Some(code) => code == 28 || code == 122 || code == 27,
        None => false,
    }
}

// Syncs the folder that a file stands in.
fn sync_folder<R: Files>(rt: &R, path: &str) -> io::Result<()> {
    let folder = match Path::new(path).parent() {
        Some(parent) if !parent.as_str().is_empty() => parent.as_str(),
        _ => ".",
    };
    File::open(rt, folder)?.sync_all()
}

impl<F: OpenFile + FileExt> Disk for FileDisk<F> {
    ghost honest = { λ _. ⊥ };

    ghost content = { λ _. [] };

    ghost history = { λ _. [] };

    ghost faults = { file_faults };

    ghost content_is_image = { λ disk honest. absurd honest };

    ghost length_fits = { λ disk honest. absurd honest };

    fn len(&self) -> u64
        ensures { result ≡ length_of self.now }
    {
        self.len
    }

    fn read_at(&mut self, at: u64, buffer: &mut [u8]) -> Result<(), DiskError>
        ensures out_of_range { IsErrOf result DiskError.OutOfRange ↔ (length_of self.old < at + length buffer.old) }
        ensures buffer_stays { IsErrOf result DiskError.OutOfRange → buffer.new ≡ buffer.old }
        ensures length_stays { length_of self.new ≡ length_of self.old }
        ensures counted { IsCounted (file_faults self.old) (file_faults self.new) result }
        ensures lost { OnOk result (is_lost self.old ≡ false) }
        ensures stays_lost { is_lost self.old ≡ true → is_lost self.new ≡ true }
    {
        if at > self.len || buffer.len() as u64 > self.len - at {
            return Err(DiskError::OutOfRange);
        }
        if self.is_lost {
            return Err(count_fault(&mut self.faults));
        }
        match self.file.read_exact_at(buffer, at) {
            Ok(()) => Ok(()),
            Err(error) => Err(self.failed(error)),
        }
    }

    fn write_at(&mut self, at: u64, bytes: &[u8]) -> Result<(), DiskError>
        ensures written { OnOk result (length_of self.new ≡ max (length_of self.old) (at + length bytes.now)) }
        ensures too_long { OnOk result (at + length bytes.now < 2 ^ 63) }
        ensures out_of_range { IsErrOf result DiskError.OutOfRange ↔ (length_of self.old < at) }
        ensures length_stays { IsErrOf result DiskError.OutOfRange → length_of self.new ≡ length_of self.old }
        ensures counted { IsCounted (file_faults self.old) (file_faults self.new) result }
        ensures lost { OnOk result (is_lost self.old ≡ false) }
        ensures stays_lost { is_lost self.old ≡ true → is_lost self.new ≡ true }
    {
        if at > self.len {
            return Err(DiskError::OutOfRange);
        }
        if self.is_lost || at > MAX_LEN || bytes.len() as u64 > MAX_LEN - at {
            return Err(count_fault(&mut self.faults));
        }
        match self.file.write_all_at(bytes, at) {
            Ok(()) => {
                self.len = self.len.max(at + bytes.len() as u64);
                Ok(())
            }
            Err(error) => Err(self.changed_in_part(error)),
        }
    }

    fn cut(&mut self, len: u64) -> Result<(), DiskError>
        ensures cut { OnOk result (length_of self.new ≡ len) }
        ensures out_of_range { IsErrOf result DiskError.OutOfRange ↔ (length_of self.old < len) }
        ensures length_stays { IsErrOf result DiskError.OutOfRange → length_of self.new ≡ length_of self.old }
        ensures counted { IsCounted (file_faults self.old) (file_faults self.new) result }
        ensures lost { OnOk result (is_lost self.old ≡ false) }
        ensures stays_lost { is_lost self.old ≡ true → is_lost self.new ≡ true }
    {
        if len > self.len {
            return Err(DiskError::OutOfRange);
        }
        if self.is_lost {
            return Err(count_fault(&mut self.faults));
        }
        match self.file.set_len(len) {
            Ok(()) => {
                self.len = len;
                Ok(())
            }
            Err(error) => Err(self.changed_in_part(error)),
        }
    }

    fn sync(&mut self) -> Result<(), DiskError>
        ensures in_range { result ≢ Err DiskError.OutOfRange }
        ensures length_stays { length_of self.new ≡ length_of self.old }
        ensures counted { IsCounted (file_faults self.old) (file_faults self.new) result }
        ensures lost { OnOk result (is_lost self.old ≡ false) }
        ensures stays_lost { is_lost self.old ≡ true → is_lost self.new ≡ true }
        ensures loses { OnErr result (is_lost self.new ≡ true) }
    {
        if self.is_lost {
            return Err(count_fault(&mut self.faults));
        }
        // The data alone is enough: fdatasync also writes a length that has changed, by a write past the end or by
        // ftruncate, since the data can't be read back without it. Only times and the like may be lost.
        match self.file.sync_data() {
            Ok(()) => Ok(()),
            Err(error) => {
                // Linux may mark the pages of a failed write clean: a later sync that succeeds then says nothing of them.
                self.is_lost = true;
                Err(self.failed(error))
            }
        }
    }

    fn lengthen(&mut self, len: u64) -> Result<bool, DiskError>
        ensures counted { IsCounted (file_faults self.old) (file_faults self.new) result }
        ensures in_range { result ≢ Err DiskError.OutOfRange }
        ensures there { IfOk result (λ is_there. is_there ≡ true → length_of self.new ≡ max (length_of self.old) len) }
        ensures not_there { IfOk result (λ is_there. is_there ≡ false → length_of self.new ≡ length_of self.old) }
        ensures lost { OnOk result (is_lost self.old ≡ false) }
        ensures stays_lost { is_lost self.old ≡ true → is_lost self.new ≡ true }
        ensures loses { OnErr result (is_lost self.new ≡ true) }
    {
        if self.is_lost || len > MAX_LEN {
            self.is_lost = true;
            return Err(count_fault(&mut self.faults));
        }
        match self.put_zeros(len) {
            Ok(()) => {
                self.len = self.len.max(len);
                self.no_room = None;
                Ok(true)
            }
            Err((call, error)) if is_of_room(&error) => self.give_back(call, error),
            Err((_, error)) => {
                // What a sync left undone of this can't be told from what it did.
                self.is_lost = true;
                Err(self.failed(error))
            }
        }
    }

    fn room_refusal(&self) -> Option<(&'static str, io::Error)> {
        self.no_room
    }

    fn faults(&self) -> u64
        ensures { result ≡ file_faults self.now }
    {
        self.faults
    }
}
