// A disk in memory. It keeps a record of each write, cut and sync that it made, from which its history follows.
ghost use Rattle.std.specs.Prelude.{◌≡◌, ◌≤◌, ◌^◌, ◌<◌, [], ◌∷◌, ◌++◌, length, take, vec_len, ◌↔◌, IsTrue, All, IfOk, OnOk, OnErr};
ghost use Rattle.std.specs.Prelude.{IsErrOf, slice_range, ◌+◌, ◌≢◌};
ghost use Rattle.disk_model.specs.Calls.{overwritten};
ghost use Rattle.disk_model.specs.History.{Synced};
ghost use Rattle.disk_model.specs.Images.{window, IsImage};
ghost use Rattle.disk_model.specs.Memory.{IsHonest};
ghost use Rattle.disk_model.specs.Moments.{LeftSince};

use crate::call::{Call, overwrite};
use crate::disk::count_fault;
use crate::window::left_since;
use crate::{Disk, DiskError};
use std::alloc::{AllocError, Global};
use std::marker::Model;

const MAX_LEN: usize = 0x7fff_ffff_ffff_ffff;

/// A file in memory, which is honest. Contracts see the bytes that a read gives, the history and the count of faults.
///
/// A growth that finds no memory is a fault.
#[derive(Debug, Drop)]
pub struct MemDisk {
    alloc: Global,
    first: Vec<u8>,
    calls: Vec<Call>,
    bytes: Vec<u8>,
    faults: u64,
}

impl Model for MemDisk {
    ghost use Rattle.disk_model.specs.Memory.{DiskState};
    ghost use Rattle.disk_model.specs.CallsMade.{history_of, IsKept};

    ghost Value = { DiskState };

    ghost view = { λ m. record { content = m.bytes.items; history = history_of m.first.items m.calls.items; faults = m.faults } };

    ghost invariant = { λ m. IsKept m.first.items m.calls.items m.bytes.items };
}

impl MemDisk {
    /// An empty file.
    pub fn new(alloc: Global) -> Self
        ensures content { result.content ≡ [] }
        ensures history { result.history ≡ Synced [] ∷ [] }
        ensures faults { result.faults ≡ 0 }
        ensures honest { IsHonest result }
    {
        MemDisk {
            alloc,
            first: Vec::new(alloc),
            calls: Vec::new(alloc),
            bytes: Vec::new(alloc),
            faults: 0,
        }
    }

    /// A file with these bytes, all of them synced. An image that a crash left is opened in this way.
    pub fn from_bytes(alloc: Global, bytes: Vec<u8>) -> Result<Self, AllocError>
        ensures content { IfOk result (λ disk. disk.content ≡ bytes.items) }
        ensures history { IfOk result (λ disk. disk.history ≡ Synced bytes.items ∷ []) }
        ensures faults { IfOk result (λ disk. disk.faults ≡ 0) }
        ensures honest { IfOk result (λ disk. IsHonest disk) }
    {
        let first = Vec::from_slice(alloc, &bytes)?;
        Ok(MemDisk {
            alloc,
            first,
            calls: Vec::new(alloc),
            bytes,
            faults: 0,
        })
    }

    /// The bytes that a read gives.
    pub fn as_bytes(&self) -> &[u8]
        ensures value { result.now ≡ self.now.content }
        ensures honest { IsHonest self.now }
    {
        &self.bytes
    }

    /// The present moment: the length of the history.
    pub fn moment(&self) -> usize
        ensures { result ≡ length self.now.history }
    {
        self.calls.len() + 1
    }

    /// Whether a crash now may leave this image.
    pub fn is_image(&self, alloc: Global, image: &[u8]) -> Result<bool, AllocError>
        ensures { IfOk result (λ allowed. IsTrue allowed ↔ IsImage (window self.now.history) image.now) }
    {
        self.is_image_since(alloc, self.moment(), image)
    }

    /// Whether a crash at some moment from this one on might have left this image. It goes over the whole record.
    pub fn is_image_since(
        &self,
        alloc: Global,
        moment: usize,
        image: &[u8],
    ) -> Result<bool, AllocError>
        ensures { IfOk result (λ allowed. IsTrue allowed ↔ LeftSince self.now.history moment image.now) }
    {
        left_since(alloc, &self.first, &self.calls, moment, image)
    }
}

// Writes, and keeps a record of it. A refused growth leaves both as they were.
fn write(
    alloc: Global,
    calls: &mut Vec<Call>,
    target: &mut Vec<u8>,
    at: u64,
    bytes: &[u8],
) -> Result<(), AllocError>
    requires { at ≤ vec_len target.old }
    ensures written { OnOk result (target.new.items ≡ overwritten target.old.items at bytes.now) }
    ensures recorded { OnOk result ((kept : _) × (kept.items ≡ bytes.now)
        × (calls.new.items ≡ calls.old.items ++ Call.Write at kept ∷ [])) }
    ensures bytes { OnOk result (All (λ b. b < 256) target.new.items) }
    ensures bytes_stay { OnErr result (target.new.items ≡ target.old.items) }
    ensures calls_stay { OnErr result (calls.new.items ≡ calls.old.items) }
{
    let kept = Vec::from_slice(alloc, bytes)?;
    calls.reserve(1)?;
    overwrite(target, at as usize, bytes)?;
    calls.push_reserved(Call::Write(at, kept));
    Ok(())
}

impl Disk for MemDisk {
    ghost use Rattle.disk_model.specs.Memory.{IsHonest};

    ghost honest = { IsHonest };

    ghost content = { λ disk. disk.content };

    ghost history = { λ disk. disk.history };

    ghost faults = { λ disk. disk.faults };

    ghost content_is_image = { λ disk honest. honest.image };

    ghost length_fits = { λ disk honest. honest.fits };

    fn len(&self) -> u64 {
        self.bytes.len() as u64
    }

    fn read_at(&mut self, at: u64, buffer: &mut [u8]) -> Result<(), DiskError>
        ensures read { OnOk result (buffer.new ≡ slice_range self.old.content at (at + length buffer.old)) }
        ensures out_of_range { IsErrOf result DiskError.OutOfRange ↔ (length self.old.content < at + length buffer.old) }
        ensures buffer_stays { IsErrOf result DiskError.OutOfRange → buffer.new ≡ buffer.old }
        ensures no_fault { result ≢ Err DiskError.DiskFault }
        ensures disk_stays { self.new ≡ self.old }
    {
        let start = at as usize;
        let bytes = &self.bytes;
        if start > bytes.len() || buffer.len() > bytes.len() - start {
            return Err(DiskError::OutOfRange);
        }
        buffer.copy_from_slice(&bytes[start..start + buffer.len()]);
        Ok(())
    }

    fn write_at(&mut self, at: u64, bytes: &[u8]) -> Result<(), DiskError> {
        let start = at as usize;
        if start > self.bytes.len() {
            return Err(DiskError::OutOfRange);
        }
        if bytes.len() > MAX_LEN - start {
            return Err(count_fault(&mut self.faults));
        }
        match write(self.alloc, &mut self.calls, &mut self.bytes, at, bytes) {
            Ok(()) => Ok(()),
            Err(_) => Err(count_fault(&mut self.faults)),
        }
    }

    fn cut(&mut self, len: u64) -> Result<(), DiskError> {
        if len as usize > self.bytes.len() {
            return Err(DiskError::OutOfRange);
        }
        if self.calls.reserve(1).is_err() {
            return Err(count_fault(&mut self.faults));
        }
        self.calls.push_reserved(Call::Cut(len));
        self.bytes.truncate(len as usize);
        Ok(())
    }

    fn sync(&mut self) -> Result<(), DiskError> {
        if self.calls.reserve(1).is_err() {
            return Err(count_fault(&mut self.faults));
        }
        self.calls.push_reserved(Call::Sync);
        Ok(())
    }

    fn faults(&self) -> u64 {
        self.faults
    }
}
