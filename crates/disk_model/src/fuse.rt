// A disk that fails when a test wants it to.
ghost use Rattle.std.specs.Prelude.{◌≡◌, ◌+◌, ◌-◌, ◌^◌, ◌<◌, ◌↔◌, ◌≢◌, ◌≤◌, ⊤, ℕ, min, [], ◌∷◌, length, take, slice_range, OnOk, OnErr};
ghost use Rattle.std.specs.Prelude.{IsErrOf, IsTrue};
ghost use Rattle.disk_model.specs.Calls.{overwritten, IsMadeOrNothing};
ghost use Rattle.disk_model.specs.Faults.{IsCounted};
ghost use Rattle.disk_model.specs.Fuse.{IsBlown, ObeysFuse, IsHeldBack, IsMadeBlown, inner_of, fuse_of, calls_of, next_call, faults_of};
ghost use Rattle.disk_model.specs.History.{Wrote, CutTo, Synced};

use crate::disk::count_fault;
use crate::{Disk, DiskError};

/// Which calls fail. Reads, writes, cuts and syncs are counted from 1, and the count stops at 2^64 - 1.
#[derive(Clone, Copy, Debug, PartialEq, Eq)]
pub enum Fuse {
    /// This call and all after it.
    Stop(u64),
    /// This call alone.
    Fail(u64),
}

/// A disk that fails by a fuse, and is as honest as the disk in it.
///
/// A write or a cut that the fuse fails is made in the disk in it all the same, so that a crash may leave it, in part or in whole, or not;
/// a read or a sync that it fails isn't made. A call out of range is counted, and refused by the disk in it.
#[derive(Debug, Drop)]
pub struct FuseDisk<D> {
    inner: D,
    fuse: Fuse,
    calls: u64,
    faults: u64,
}

impl<D> FuseDisk<D> {
    /// A disk whose next call is call 1.
    pub fn new(inner: D, fuse: Fuse) -> Self
        ensures inner { inner_of result ≡ inner }
        ensures fuse { fuse_of result ≡ fuse }
        ensures calls { calls_of result ≡ 0 }
        ensures faults { (faults : D → ℕ) → faults_of faults result ≡ min (faults inner) (2 ^ 64 - 1) }
    {
        FuseDisk {
            inner,
            fuse,
            calls: 0,
            faults: 0,
        }
    }

    /// The disk without its fuse.
    pub fn into_inner(self) -> D
        ensures { result ≡ inner_of self }
    {
        let FuseDisk {
            inner,
            fuse: _,
            calls: _,
            faults: _,
        } = self;
        inner
    }

    /// How many calls were made.
    pub fn calls(&self) -> u64
        ensures { result ≡ calls_of self.now }
    {
        self.calls
    }

    // Counts a call, and fails one in range where the fuse does.
    fn burn(&mut self, in_range: bool) -> Result<(), DiskError>
        ensures inner { inner_of self.new ≡ inner_of self.old }
        ensures fuse { fuse_of self.new ≡ fuse_of self.old }
        ensures calls { calls_of self.new ≡ next_call self.old }
        ensures ok { OnOk result (self.new.faults ≡ self.old.faults) }
        ensures passes { OnOk result (IsTrue in_range → ¬ (IsBlown (fuse_of self.old) (next_call self.old))) }
        ensures fails { OnErr result (IsTrue in_range × IsBlown (fuse_of self.old) (next_call self.old)) }
        ensures fault { OnErr result (result ≡ Err DiskError.DiskFault) }
        ensures counted { OnErr result (self.new.faults ≡ min (self.old.faults + 1) (2 ^ 64 - 1)) }
    {
        self.calls = self.calls.saturating_add(1);
        let blown = match self.fuse {
            Fuse::Stop(k) => self.calls >= k,
            Fuse::Fail(k) => self.calls == k,
        };
        if in_range && blown {
            return Err(count_fault(&mut self.faults));
        }
        Ok(())
    }
}

impl<D: Disk> Disk for FuseDisk<D> {
    ghost honest = { λ disk. D.honest (inner_of disk) };

    ghost content = { λ disk. D.content (inner_of disk) };

    ghost history = { λ disk. D.history (inner_of disk) };

    ghost faults = { λ disk. faults_of D.faults disk };

    ghost content_is_image = { λ disk honest. D.content_is_image (inner_of disk) honest };

    ghost length_fits = { λ disk honest. D.length_fits (inner_of disk) honest };

    fn len(&self) -> u64 {
        self.inner.len()
    }

    fn read_at(&mut self, at: u64, buffer: &mut [u8]) -> Result<(), DiskError>
        ensures honest { D.honest (inner_of self.old) ↔ D.honest (inner_of self.new) }
        ensures read { D.honest (inner_of self.old) →
            OnOk result (buffer.new ≡
            slice_range (D.content (inner_of self.old)) at (at + length buffer.old)) }
        ensures out_of_range { D.honest (inner_of self.old) →
            (IsErrOf result DiskError.OutOfRange ↔ (length (D.content (inner_of self.old)) < at + length buffer.old)) }
        ensures buffer_stays { D.honest (inner_of self.old) →
            IsErrOf result DiskError.OutOfRange → buffer.new ≡ buffer.old }
        ensures content_stays { D.honest (inner_of self.old) →
            D.content (inner_of self.new) ≡ D.content (inner_of self.old) }
        ensures history_stays { D.honest (inner_of self.old) →
            D.history (inner_of self.new) ≡ D.history (inner_of self.old) }
        ensures counted { IsCounted (faults_of D.faults self.old) (faults_of D.faults self.new) result }
        ensures fuse { ObeysFuse (D.honest (inner_of self.old) × (at + length buffer.old ≤ length (D.content (inner_of self.old))))
            D.faults self.old self.new result }
        ensures held_back { IsHeldBack (D.honest (inner_of self.old) × (at + length buffer.old ≤ length (D.content (inner_of self.old))))
            self.old self.new }
    {
        let len = self.inner.len();
        self.burn(at <= len && buffer.len() as u64 <= len - at)?;
        self.inner.read_at(at, buffer)
    }

    fn write_at(&mut self, at: u64, bytes: &[u8]) -> Result<(), DiskError>
        ensures honest { D.honest (inner_of self.old) ↔ D.honest (inner_of self.new) }
        ensures written { D.honest (inner_of self.old) →
            OnOk result (D.content (inner_of self.new) ≡
            overwritten (D.content (inner_of self.old)) at bytes.now) }
        ensures made { D.honest (inner_of self.old) →
            OnOk result (D.history (inner_of self.new) ≡
            Wrote at (length bytes.now) ∷ D.history (inner_of self.old)) }
        ensures in_part { D.honest (inner_of self.old) →
            OnErr result (IsMadeOrNothing (Wrote at (length bytes.now)) (D.history (inner_of self.old)) (D.history (inner_of self.new))
            (D.content (inner_of self.old)) (D.content (inner_of self.new))) }
        ensures too_long { D.honest (inner_of self.old) → OnOk result (at + length bytes.now < 2 ^ 63) }
        ensures out_of_range { D.honest (inner_of self.old) →
            (IsErrOf result DiskError.OutOfRange ↔ (length (D.content (inner_of self.old)) < at)) }
        ensures content_stays { D.honest (inner_of self.old) →
            IsErrOf result DiskError.OutOfRange →
            D.content (inner_of self.new) ≡ D.content (inner_of self.old) }
        ensures history_stays { D.honest (inner_of self.old) →
            IsErrOf result DiskError.OutOfRange →
            D.history (inner_of self.new) ≡ D.history (inner_of self.old) }
        ensures counted { IsCounted (faults_of D.faults self.old) (faults_of D.faults self.new) result }
        ensures fuse { ObeysFuse (D.honest (inner_of self.old) × (at ≤ length (D.content (inner_of self.old))))
            D.faults self.old self.new result }
        ensures through { IsMadeBlown (D.honest (inner_of self.old) × (at ≤ length (D.content (inner_of self.old))))
            (Wrote at (length bytes.now)) D.history D.faults self.old self.new }
    {
        let in_range = at <= self.inner.len();
        let burnt = self.burn(in_range);
        let done = self.inner.write_at(at, bytes);
        burnt?;
        done
    }

    fn cut(&mut self, len: u64) -> Result<(), DiskError>
        ensures honest { D.honest (inner_of self.old) ↔ D.honest (inner_of self.new) }
        ensures cut { D.honest (inner_of self.old) →
            OnOk result (D.content (inner_of self.new) ≡ take len (D.content (inner_of self.old))) }
        ensures made { D.honest (inner_of self.old) →
            OnOk result (D.history (inner_of self.new) ≡ CutTo len ∷ D.history (inner_of self.old)) }
        ensures in_part { D.honest (inner_of self.old) →
            OnErr result (IsMadeOrNothing (CutTo len) (D.history (inner_of self.old)) (D.history (inner_of self.new))
            (D.content (inner_of self.old)) (D.content (inner_of self.new))) }
        ensures out_of_range { D.honest (inner_of self.old) →
            (IsErrOf result DiskError.OutOfRange ↔ (length (D.content (inner_of self.old)) < len)) }
        ensures content_stays { D.honest (inner_of self.old) →
            IsErrOf result DiskError.OutOfRange →
            D.content (inner_of self.new) ≡ D.content (inner_of self.old) }
        ensures history_stays { D.honest (inner_of self.old) →
            IsErrOf result DiskError.OutOfRange →
            D.history (inner_of self.new) ≡ D.history (inner_of self.old) }
        ensures counted { IsCounted (faults_of D.faults self.old) (faults_of D.faults self.new) result }
        ensures fuse { ObeysFuse (D.honest (inner_of self.old) × (len ≤ length (D.content (inner_of self.old))))
            D.faults self.old self.new result }
        ensures through { IsMadeBlown (D.honest (inner_of self.old) × (len ≤ length (D.content (inner_of self.old))))
            (CutTo len) D.history D.faults self.old self.new }
    {
        let in_range = len <= self.inner.len();
        let burnt = self.burn(in_range);
        let done = self.inner.cut(len);
        burnt?;
        done
    }

    fn sync(&mut self) -> Result<(), DiskError>
        ensures honest { D.honest (inner_of self.old) ↔ D.honest (inner_of self.new) }
        ensures made { D.honest (inner_of self.old) →
            OnOk result (D.history (inner_of self.new) ≡
            Synced (D.content (inner_of self.old)) ∷ D.history (inner_of self.old)) }
        ensures content_stays { D.honest (inner_of self.old) →
            OnOk result (D.content (inner_of self.new) ≡ D.content (inner_of self.old)) }
        ensures not_made { D.honest (inner_of self.old) →
            OnErr result (D.history (inner_of self.new) ≡ D.history (inner_of self.old)) }
        ensures in_range { D.honest (inner_of self.old) → result ≢ Err DiskError.OutOfRange }
        ensures counted { IsCounted (faults_of D.faults self.old) (faults_of D.faults self.new) result }
        ensures fuse { ObeysFuse ⊤ D.faults self.old self.new result }
        ensures held_back { IsHeldBack ⊤ self.old self.new }
    {
        self.burn(true)?;
        self.inner.sync()
    }

    fn faults(&self) -> u64 {
        self.faults.saturating_add(self.inner.faults())
    }
}
