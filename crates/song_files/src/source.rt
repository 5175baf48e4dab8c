// Bytes that are read at offsets.
ghost use Rattle.std.specs.Prelude.{◌≡◌, ℕ, ◌+◌, ◌-◌, ◌<◌, ◌≤◌, List, length, take, drop, min, slice_range};
ghost use Rattle.std.specs.Prelude.{Ok, IfOk, OnErr, refl};
ghost use Rattle.song_files.specs.Source.{Grows, Keeps};

use std::error::Error;
use std::fmt;
use std::marker::Model;

/// A source could not be read.
#[derive(Clone, Copy, Debug, PartialEq, Eq)]
pub struct SourceFault;

impl fmt::Display for SourceFault {
    fn fmt<W: fmt::Write>(&self, f: &mut fmt::Formatter<W>) -> fmt::Result {
        f.write_str("the source could not be read")
    }
}

impl Error for SourceFault {}

/// Bytes that are read at offsets, as those of a file.
pub trait Source {
    /// The bytes.
    ghost bytes: { Self → List ℕ };

    /// The source tells its bytes and keeps them. It may fail all the same.
    ghost honest: { Self → Type 0 };

    /// How often a read has failed or given no byte before the end, up to 2^64-1.
    ghost faults: { Self → ℕ };

    /// No read has failed or given no byte before the end, and none will.
    ghost steady: { Self → Type 0 };

    /// How many bytes there are.
    fn len(&self) -> u64
        ensures { honest self.now → result ≡ length (bytes self.now) };

    /// Reads bytes from the offset `at` on to the front of the buffer, and says how many. They may be
    /// fewer than the buffer has room for; 0 bytes before the end count as a fault.
    fn read_at(&mut self, at: u64, buffer: &mut [u8]) -> Result<usize, SourceFault>
        ensures count { IfOk result (λ n. n ≤ length buffer.old) }
        ensures read { honest self.old → IfOk result (λ n. take n buffer.new ≡ slice_range (bytes self.old) at (at + n)) }
        ensures failed { honest self.old → OnErr result (Grows (faults self.old) (faults self.new)) }
        ensures no_byte { honest self.old → result ≡ Ok 0 → 0 < length buffer.old → at < length (bytes self.old) →
            Grows (faults self.old) (faults self.new) }
        ensures kept { honest self.old → Keeps bytes honest faults steady self.old self.new };

    ghost none_failed: { (source : Self) → steady source → faults source ≡ 0 };
}

/// Bytes in memory, which never fail.
#[derive(Debug, Drop)]
pub struct MemSource<'a> {
    bytes: &'a [u8],
}

impl<'a> Model for MemSource<'a> {
    ghost Value = { List ℕ };

    ghost view = { λ s. s.bytes.now };
}

impl<'a> MemSource<'a> {
    pub fn new(bytes: &'a [u8]) -> Self
        ensures { result ≡ bytes.now }
    {
        MemSource { bytes }
    }
}

impl Source for MemSource<'_> {
    ghost bytes = { λ s. s };

    ghost honest = { λ _. Unit {0} };

    ghost faults = { λ _. 0 };

    ghost steady = { λ _. Unit {0} };

    ghost none_failed = { λ source steady. refl };

    fn len(&self) -> u64 {
        self.bytes.len() as u64
    }

    fn read_at(&mut self, at: u64, buffer: &mut [u8]) -> Result<usize, SourceFault> {
        Ok(copy_from(self.bytes, at, buffer))
    }
}

/// Copies bytes from an offset on to the front of the buffer, as many as there are and fit.
fn copy_from(bytes: &[u8], at: u64, buffer: &mut [u8]) -> usize
    ensures count { result ≡ min (length bytes.now - at) (length buffer.old) }
    ensures copied { take result buffer.new ≡ slice_range bytes.now at (at + result) }
{
    let rest = bytes_from(bytes, at);
    let count = rest.len().min(buffer.len());
    buffer[..count].copy_from_slice(&rest[..count]);
    count
}

/// The bytes from an offset on: none past the end.
fn bytes_from(bytes: &[u8], at: u64) -> &[u8]
    ensures { result.now ≡ drop at bytes.now }
{
    match usize::try_from(at) {
        Ok(at) if at <= bytes.len() => &bytes[at..],
        _ => &[],
    }
}
