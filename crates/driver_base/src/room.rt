//! A disk whose room is a number.
ghost use Rattle.std.specs.Prelude.{[]};

use disk_model::{Disk, DiskError};

/// A disk on which room that is made for records takes no memory: the zero bytes behind the end are counted, and nothing more, so that a
/// file stays as short as what is written. What a crash leaves has none of them, so nothing is promised of it.
#[derive(Debug, Drop)]
pub struct RoomDisk<D> {
    inner: D,
    /// The length with these bytes, where there are some.
    len: u64,
}

impl<D: Disk> RoomDisk<D> {
    pub fn new(inner: D) -> Self {
        RoomDisk { inner, len: 0 }
    }
}

impl<D> RoomDisk<D> {
    /// The disk without them.
    pub fn into_inner(self) -> D {
        let RoomDisk { inner, len: _ } = self;
        inner
    }
}

impl<D: Disk> Disk for RoomDisk<D> {
    ghost honest = { λ _. ⊥ };

    ghost content = { λ _. [] };

    ghost history = { λ _. [] };

    ghost faults = { λ disk. D.faults disk.inner };

    ghost content_is_image = { λ disk honest. absurd honest };

    ghost length_fits = { λ disk honest. absurd honest };

    fn len(&self) -> u64 {
        self.inner.len().max(self.len)
    }

    fn read_at(&mut self, at: u64, buffer: &mut [u8]) -> Result<(), DiskError> {
        self.inner.read_at(at, buffer)
    }

    fn write_at(&mut self, at: u64, bytes: &[u8]) -> Result<(), DiskError> {
        self.inner.write_at(at, bytes)
    }

    fn cut(&mut self, len: u64) -> Result<(), DiskError> {
        if self.inner.len() < len && len <= self.len {
            self.len = len;
            return Ok(());
        }
        self.inner.cut(len)?;
        self.len = self.len.min(len);
        Ok(())
    }

    fn sync(&mut self) -> Result<(), DiskError> {
        self.inner.sync()
    }

    /// The first byte of a file is written: it is a journal's commit byte.
    fn lengthen(&mut self, len: u64) -> Result<bool, DiskError> {
        if self.inner.is_empty() {
            self.inner.write_at(0, &[0])?;
        }
        self.inner.sync()?;
        self.len = self.len.max(len);
        Ok(true)
    }

    fn faults(&self) -> u64 {
        self.inner.faults()
    }
}
