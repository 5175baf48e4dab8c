// The numbers of a tag.
ghost use Rattle.std.specs.Prelude.{◌≡◌, ◌+◌, ◌<◌, ◌≤◌, ◌^◌, length};
ghost use Rattle.id3_tags.specs.Numbers.{plain_at, short_at, synchsafe_at, has_flag};

/// 32 bits from this byte on, the most significant first.
pub fn plain_at(at: usize, bytes: &[u8]) -> u64
    requires { at + 4 ≤ length bytes.now }
    ensures value { result ≡ plain_at at bytes.now }
    ensures bound { result < 2 ^ 32 }
{
    let a = u64::from(bytes[at]);
    let b = u64::from(bytes[at + 1]);
    let c = u64::from(bytes[at + 2]);
    let d = u64::from(bytes[at + 3]);
    ((a * 256 + b) * 256 + c) * 256 + d
}

/// 24 bits from this byte on.
pub fn short_at(at: usize, bytes: &[u8]) -> u64
    requires { at + 3 ≤ length bytes.now }
    ensures value { result ≡ short_at at bytes.now }
    ensures bound { result < 2 ^ 32 }
{
    let a = u64::from(bytes[at]);
    let b = u64::from(bytes[at + 1]);
    let c = u64::from(bytes[at + 2]);
    (a * 256 + b) * 256 + c
}

/// A synchsafe number, seven bits a byte, in the four bytes from this one on.
pub fn synchsafe_at(at: usize, bytes: &[u8]) -> u64
    requires { at + 4 ≤ length bytes.now }
    ensures value { result ≡ synchsafe_at at bytes.now }
    ensures bound { result < 2 ^ 32 }
{
    let a = u64::from(bytes[at]);
    let b = u64::from(bytes[at + 1]);
    let c = u64::from(bytes[at + 2]);
    let d = u64::from(bytes[at + 3]);
    ((a * 128 + b) * 128 + c) * 128 + d
}

/// Whether the flag is set whose bit counts so much.
pub fn has_flag(flags: u8, bit: u8) -> bool
    requires { 0 < bit }
    ensures { result ≡ has_flag flags bit }
{
    flags / bit % 2 == 1
}
