// Numbers among some bytes.
ghost use Rattle.std.specs.Prelude.{◌≡◌, ◌+◌, ◌<◌, ◌≤◌, ◌^◌, length, drop};
ghost use Rattle.flac.specs.Numbers.{be16, be24, be32, be64};

/// The number of two bytes at a place, the highest first.
pub fn be16_at(bytes: &[u8], at: usize) -> u16
    requires { at + 2 ≤ length bytes.now }
    ensures { result ≡ be16 (drop at bytes.now) }
{
    u16::from_be_bytes([bytes[at], bytes[at + 1]])
}

/// The same of three bytes.
pub fn be24_at(bytes: &[u8], at: usize) -> u32
    requires { at + 3 ≤ length bytes.now }
    ensures { result ≡ be24 (drop at bytes.now) }
{
    u32::from_be_bytes([0, bytes[at], bytes[at + 1], bytes[at + 2]])
}

/// The same of eight bytes.
pub fn be64_at(bytes: &[u8], at: usize) -> u64
    requires { at + 8 ≤ length bytes.now }
    ensures { result ≡ be64 (drop at bytes.now) }
{
    u64::from_be_bytes([
        bytes[at],
        bytes[at + 1],
        bytes[at + 2],
        bytes[at + 3],
        bytes[at + 4],
        bytes[at + 5],
        bytes[at + 6],
        bytes[at + 7],
    ])
}
