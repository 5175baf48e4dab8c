// Sets of bytes.
ghost use Rattle.std.specs.Prelude.{◌≡◌, true, false, [], ◌∷◌, ◌++◌, length, min, IfOk, OnOk};
ghost use Rattle.regular_expr.specs.Sets.{is_within, is_in_some, is_in_ranges, is_in};
ghost use Rattle.regular_expr.specs.Shape.{bytes_of};

use std::alloc::{AllocError, Global};

/// The bytes from one on to another.
#[derive(Clone, Copy, Debug, PartialEq, Eq)]
pub(crate) struct ByteRange {
    pub(crate) first: u8,
    pub(crate) last: u8,
}

/// The bytes in some ranges, or all others.
#[derive(Debug, Drop)]
pub(crate) struct ByteSet {
    pub(crate) negated: bool,
    pub(crate) ranges: Vec<ByteRange>,
}

impl ByteRange {
    fn has(self, byte: u8) -> bool
        ensures { result ≡ is_within byte self }
    {
        self.first <= byte && byte <= self.last
    }
}

fn is_in_some(ranges: &[ByteRange], byte: u8) -> bool
    ensures { result ≡ is_in_some ranges.now byte }
{
    ranges.iter().any(|range| range.has(byte))
}

fn is_in_ranges(fold: bool, ranges: &[ByteRange], byte: u8) -> bool
    ensures { result ≡ is_in_ranges fold ranges.now byte }
{
    if is_in_some(ranges, byte) {
        return true;
    }
    fold && (is_in_some(ranges, byte.to_ascii_lowercase())
        || is_in_some(ranges, byte.to_ascii_uppercase()))
}

impl ByteSet {
    /// One byte alone.
    pub(crate) fn of_byte(alloc: Global, byte: u8) -> Result<ByteSet, AllocError>
        ensures { IfOk result (λ set. bytes_of set ≡ (record { negated = false; ranges = (record { first = byte; last = byte }) ∷ [] })) }
    {
        ByteSet::of_range(
            alloc,
            ByteRange {
                first: byte,
                last: byte,
            },
        )
    }

    pub(crate) fn of_range(alloc: Global, range: ByteRange) -> Result<ByteSet, AllocError>
        ensures { IfOk result (λ set. bytes_of set ≡ (record { negated = false; ranges = range ∷ [] })) }
    {
        let mut ranges = Vec::new(alloc);
        ranges.push(range)?;
        Ok(ByteSet {
            negated: false,
            ranges,
        })
    }

    /// The bytes in these ranges.
    pub(crate) fn of_ranges(alloc: Global, listed: &[ByteRange]) -> Result<ByteSet, AllocError>
        ensures { IfOk result (λ set. bytes_of set ≡ (record { negated = false; ranges = listed.now })) }
    {
        let mut ranges = Vec::new(alloc);
        ranges.extend_from_slice(listed)?;
        Ok(ByteSet {
            negated: false,
            ranges,
        })
    }

    /// How many ranges it has, counted up to 65535.
    pub(crate) fn count(&self) -> u32
        ensures { result ≡ min (length (bytes_of self.now).ranges) 65535 }
    {
        self.ranges.len().min(65_535) as u32
    }

    pub(crate) fn has(&self, fold: bool, byte: u8) -> bool
        ensures { result ≡ is_in fold (bytes_of self.now) byte }
    {
        if self.negated {
            return !is_in_ranges(fold, &self.ranges, byte);
        }
        is_in_ranges(fold, &self.ranges, byte)
    }
}
