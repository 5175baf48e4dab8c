// The interface of a disk, and all that is promised of an honest one.
ghost use Rattle.std.specs.Prelude.{◌≡◌, ◌+◌, ◌-◌, ◌^◌, ◌<◌, ◌≤◌, min, ◌↔◌, List, ℕ, [], ◌∷◌, length, take, slice_range, OnOk, OnErr};
ghost use Rattle.std.specs.Prelude.{IfOk, IsErrOf, IsTrue, true, ◌≢◌};
ghost use Rattle.disk_model.specs.Calls.{overwritten, IsMadeOrNothing};
ghost use Rattle.disk_model.specs.Faults.{IsCounted};
ghost use Rattle.disk_model.specs.History.{Change, Wrote, CutTo, Synced};
ghost use Rattle.disk_model.specs.Images.{window, IsImage};
ghost use Rattle.disk_model.specs.Lengthened.{IsBegunBehind, IsLengthened};

use crate::DiskError;
use std::io;

// So many zero bytes are put behind a file at a time.
pub(crate) const PIECE: usize = 65_536;

/// One file on a disk. Offsets and lengths are in bytes, and a length is at most 2^63 - 1.
///
/// What is said of bytes and of crashes is said of an honest disk; any disk may fail, and counts its faults.
pub trait Disk {
    /// The disk keeps its promises. Each call keeps this, in both directions.
    ghost honest: { Self → Type 0 };

    /// The bytes that a read gives.
    ghost content: { Self → List ℕ };

    /// What was done to the disk, the newest first. What a crash may leave follows from it.
    ghost history: { Self → List Change };

    /// How often the disk has failed, up to 2^64 - 1.
    ghost faults: { Self → ℕ };

    /// The length of the file.
    fn len(&self) -> u64
        ensures { honest self.now → result ≡ length (content self.now) };

    /// Whether the file has no byte.
    fn is_empty(&self) -> bool
        ensures { honest self.now → (IsTrue result ↔ (content self.now ≡ [])) }
    {
        self.len() == 0
    }

    /// Fills the buffer with the bytes from an offset on. It takes the disk by `&mut`, since it may fail and counts that.
    fn read_at(&mut self, at: u64, buffer: &mut [u8]) -> Result<(), DiskError>
        ensures honest { honest self.old ↔ honest self.new }
        ensures read { honest self.old →
            OnOk result (buffer.new ≡ slice_range (content self.old) at (at + length buffer.old)) }
        ensures out_of_range { honest self.old →
            (IsErrOf result DiskError.OutOfRange ↔ (length (content self.old) < at + length buffer.old)) }
        ensures buffer_stays { honest self.old →
            IsErrOf result DiskError.OutOfRange → buffer.new ≡ buffer.old }
        ensures content_stays { honest self.old → content self.new ≡ content self.old }
        ensures history_stays { honest self.old → history self.new ≡ history self.old }
        ensures counted { IsCounted (faults self.old) (faults self.new) result };

    /// Writes over what is there, and past the end. A write that would pass 2^63 - 1 is a fault.
    /// Until a sync, a crash may leave any bytes in the range. One that fails counts as made, if it did anything, and a read then gives
    /// one of the images.
    fn write_at(&mut self, at: u64, bytes: &[u8]) -> Result<(), DiskError>
        ensures honest { honest self.old ↔ honest self.new }
        ensures written { honest self.old →
            OnOk result (content self.new ≡ overwritten (content self.old) at bytes.now) }
        ensures made { honest self.old →
            OnOk result (history self.new ≡ Wrote at (length bytes.now) ∷ history self.old) }
        ensures in_part { honest self.old →
            OnErr result (IsMadeOrNothing (Wrote at (length bytes.now)) (history self.old) (history self.new)
            (content self.old) (content self.new)) }
        ensures too_long { honest self.old → OnOk result (at + length bytes.now < 2 ^ 63) }
        ensures out_of_range { honest self.old →
            (IsErrOf result DiskError.OutOfRange ↔ (length (content self.old) < at)) }
        ensures content_stays { honest self.old →
            IsErrOf result DiskError.OutOfRange → content self.new ≡ content self.old }
        ensures history_stays { honest self.old →
            IsErrOf result DiskError.OutOfRange → history self.new ≡ history self.old }
        ensures counted { IsCounted (faults self.old) (faults self.new) result };

    /// Cuts the file to a length. Until a sync, a crash may leave any length between, and any bytes behind the cut. One that
    /// fails counts as made.
    fn cut(&mut self, len: u64) -> Result<(), DiskError>
        ensures honest { honest self.old ↔ honest self.new }
        ensures cut { honest self.old → OnOk result (content self.new ≡ take len (content self.old)) }
        ensures made { honest self.old → OnOk result (history self.new ≡ CutTo len ∷ history self.old) }
        ensures in_part { honest self.old →
            OnErr result (IsMadeOrNothing (CutTo len) (history self.old) (history self.new)
            (content self.old) (content self.new)) }
        ensures out_of_range { honest self.old →
            (IsErrOf result DiskError.OutOfRange ↔ (length (content self.old) < len)) }
        ensures content_stays { honest self.old →
            IsErrOf result DiskError.OutOfRange → content self.new ≡ content self.old }
        ensures history_stays { honest self.old →
            IsErrOf result DiskError.OutOfRange → history self.new ≡ history self.old }
        ensures counted { IsCounted (faults self.old) (faults self.new) result };

    /// After it, a crash leaves what a read gives. One that fails counts as not made, and a read may then give another image.
    fn sync(&mut self) -> Result<(), DiskError>
        ensures honest { honest self.old ↔ honest self.new }
        ensures made { honest self.old →
            OnOk result (history self.new ≡ Synced (content self.old) ∷ history self.old) }
        ensures content_stays { honest self.old → OnOk result (content self.new ≡ content self.old) }
        ensures not_made { honest self.old → OnErr result (history self.new ≡ history self.old) }
        ensures in_range { honest self.old → result ≢ Err DiskError.OutOfRange }
        ensures counted { IsCounted (faults self.old) (faults self.new) result };

    /// Puts zero bytes behind the end of a file up to this length, piece by piece, and syncs; `false` where the disk has no room for them:
    /// then what was put there is cut off again, and that is synced. What stands in the file stays, whatever comes of it.
    fn lengthen(&mut self, len: u64) -> Result<bool, DiskError>
        ensures honest { honest self.old ↔ honest self.new }
        ensures lengthened { honest self.old → OnOk result (IsLengthened len (content self.old) (content self.new) (history self.old)
            (history self.new)) }
        ensures long { honest self.old → IfOk result (λ is_there. is_there ≡ true → len ≤ length (content self.new)) }
        ensures in_part { honest self.old → OnErr result (IsBegunBehind len (content self.old) (history self.old) (history self.new)) }
        ensures in_range { honest self.old → result ≢ Err DiskError.OutOfRange }
        ensures counted { IsCounted (faults self.old) (faults self.new) result }
    {
        let zeros = [0; PIECE];
        let mut at = self.len();
        while at < len {
            let count = (len - at).min(PIECE as u64);
            self.write_at(at, &zeros[..count as usize])?;
            at += count;
        }
        self.sync()?;
        Ok(true)
    }

    /// Which call was refused room when the file was to be lengthened last, and what the system said; none where it was lengthened, or
    /// where no system is asked.
    fn room_refusal(&self) -> Option<(&'static str, io::Error)> {
        None
    }

    /// How often the disk has failed. The count stops at 2^64 - 1.
    fn faults(&self) -> u64
        ensures { result ≡ faults self.now };

    /// What a read gives is one of the images.
    ghost content_is_image: { (disk : Self) → honest disk → IsImage (window (history disk)) (content disk) };

    /// A length is at most 2^63 - 1.
    ghost length_fits: { (disk : Self) → honest disk → length (content disk) < 2 ^ 63 };
}

// Counts a fault.
pub(crate) fn count_fault(faults: &mut u64) -> DiskError
    ensures counted { faults.new ≡ min (faults.old + 1) (2 ^ 64 - 1) }
    ensures later { faults.old ≤ faults.new }
    ensures fault { result ≡ DiskError.DiskFault }
{
    *faults = faults.saturating_add(1);
    DiskError::DiskFault
}
