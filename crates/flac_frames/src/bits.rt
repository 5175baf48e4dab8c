// Bits from bytes, the most significant first.
ghost use Rattle.std.specs.Prelude.{◌^◌, ◌<◌, length};

use crate::refusal::FrameError;
use crate::signed::signed_number;

/// The bits of bytes that are not read yet: the lowest `count` bits of a word, and the bytes behind them.
#[derive(Drop)]
pub(crate) struct BitReader<'a> {
    rest: &'a [u8],
    word: u64,
    count: u32,
    ghost few: { count < 64 },
    ghost small: { word < 2 ^ count },
    ghost short: { length rest.now < 2 ^ 60 },
}

impl<'a> BitReader<'a> {
    ghost use Rattle.std.specs.Prelude.{◌≡◌, ◌≤◌, ◌%◌, ◌/◌, ◌-◌, ◌+◌, [], OnOk, OnErr, IfOk, IsNone, true};
    ghost use Rattle.flac_frames.specs.Bits.{bits_of, fits};
    ghost use Rattle.flac_frames.specs.Reading.{Reads, unsigned, signed, unary};
    ghost use Rattle.flac_frames.specs.Left.{left};

    pub(crate) fn new(bytes: &'a [u8]) -> BitReader<'a>
        requires { length bytes.now < 2 ^ 60 }
        ensures { left result ≡ bits_of bytes.now }
    {
        BitReader {
            rest: bytes,
            word: 0,
            count: 0,
        }
    }

    /// How many whole bytes are left.
    pub(crate) fn whole_bytes(&self) -> usize
        ensures { result ≡ length (left self.now) / 8 }
    {
        self.rest.len() + (self.count / 8) as usize
    }

    /// How many bits are left in front of those.
    pub(crate) fn odd_bits(&self) -> u32
        ensures value { result ≡ length (left self.now) % 8 }
        ensures few { result < 8 }
    {
        self.count % 8
    }

    /// Brings 32 bits into the word, or all that are left.
    fn refill(&mut self)
        requires { self.old.count < 32 }
        ensures same { left self.new ≡ left self.old }
        ensures filled { self.new.count < 32 → self.new.rest.now ≡ [] }
        ensures grown { self.old.count ≤ self.new.count }
    {
        let bytes = self.rest;
        if bytes.len() < 4 {
            self.refill_end();
            return;
        }
        let high = u64::from(bytes[0]) * 256 + u64::from(bytes[1]);
        let low = u64::from(bytes[2]) * 256 + u64::from(bytes[3]);
        self.rest = &bytes[4..];
        self.word = self.word * 4294967296 + (high * 65536 + low);
        self.count += 32;
    }

    fn refill_end(&mut self)
        requires few { self.old.count < 32 }
        requires end { length self.old.rest.now < 4 }
        ensures same { left self.new ≡ left self.old }
        ensures all { self.new.rest.now ≡ [] }
        ensures grown { self.old.count ≤ self.new.count }
    {
        let bytes = self.rest;
        let mut word = self.word;
        let mut count = self.count;
        for byte in bytes {
            word = word * 256 + u64::from(*byte);
            count += 8;
        }
        self.rest = &bytes[bytes.len()..];
        self.word = word;
        self.count = count;
    }

    /// A number of so many bits, up to 32.
    #[inline]
    pub(crate) fn unsigned(&mut self, n: u32) -> Result<u64, FrameError>
        requires { n ≤ 32 }
        ensures reads { Reads (unsigned n) (left self.old) result (left self.new) }
        ensures small { IfOk result (λ number. number < 2 ^ n) }
    {
        if n <= self.count {
            Ok(self.take(n))
        } else {
            self.unsigned_refilled(n)
        }
    }

    fn unsigned_refilled(&mut self, n: u32) -> Result<u64, FrameError>
        requires most { n ≤ 32 }
        requires few { self.old.count < n }
        ensures reads { Reads (unsigned n) (left self.old) result (left self.new) }
        ensures small { IfOk result (λ number. number < 2 ^ n) }
    {
        self.refill();
        if n <= self.count {
            Ok(self.take(n))
        } else {
            Err(FrameError::Ended)
        }
    }

    /// The same, where the word has them.
    #[inline]
    fn take(&mut self, n: u32) -> u64
        requires { n ≤ self.old.count }
        ensures reads { unsigned n (left self.old) ≡ Ok (record { value = result; rest = left self.new }) }
        ensures small { result < 2 ^ n }
    {
        let keep = self.count - n;
        let number = self.word >> keep;
        self.word &= (1 << keep) - 1;
        self.count = keep;
        number
    }

    /// How many zeros stand before the next one, which is read too.
    #[inline]
    pub(crate) fn unary(&mut self) -> Result<u64, FrameError>
        ensures reads { Reads unary (left self.old) result (left self.new) }
        ensures small { IfOk result (λ zeros. zeros + 1 < 2 ^ 64) }
    {
        if self.word != 0 {
            Ok(self.take_zeros())
        } else {
            self.unary_refilled()
        }
    }

    fn unary_refilled(&mut self) -> Result<u64, FrameError>
        ensures reads { Reads unary (left self.old) result (left self.new) }
        ensures small { IfOk result (λ zeros. zeros + 1 < 2 ^ 64) }
    {
        let mut zeros = 0u64;
        while self.word == 0 {
            zeros += u64::from(self.count);
            self.count = 0;
            if self.rest.is_empty() {
                return Err(FrameError::Ended);
            }
            self.refill();
        }
        Ok(zeros + self.take_zeros())
    }

    /// The same, where a one is in the word.
    #[inline]
    fn take_zeros(&mut self) -> u64
        requires { 0 < self.old.word }
        ensures reads { unary (left self.old) ≡ Ok (record { value = result; rest = left self.new }) }
        ensures few { result < 64 }
    {
        let keep = 63 - self.word.leading_zeros();
        let zeros = self.count - keep - 1;
        self.word -= 1 << keep;
        self.count = keep;
        u64::from(zeros)
    }

    /// A number in two's complement of so many bits, up to 33.
    pub(crate) fn signed(&mut self, n: u32) -> Result<i64, FrameError>
        requires { n ≤ 33 }
        ensures reads { Reads (signed n) (left self.old) result (left self.new) }
        ensures in_range { IfOk result (λ number. fits n number ≡ true) }
    {
        if n == 0 {
            return Ok(0);
        }
        let sign = self.unsigned(1)?;
        let low = self.unsigned(n - 1)?;
        Ok(signed_number(n - 1, sign, low))
    }
}
