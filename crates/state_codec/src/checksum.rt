// The checksum of a record's body and of a snapshot: CRC-32C (RFC 3720, section 12.1), a byte at a time.
ghost use Rattle.std.specs.Prelude.{◌≡◌, ◌<◌, fold};
ghost use Rattle.state_codec.specs.Checksum.{with_bit, with_bits, with_byte, checksum_of, IsTable};

// Castagnoli's polynomial, its bits from low to high.
const POLYNOMIAL: u32 = 0x82f6_3b78;

// One bit goes.
fn with_bit(sum: u32) -> u32
    ensures { result ≡ with_bit sum }
{
    if sum % 2 == 1 {
        (sum / 2) ^ POLYNOMIAL
    } else {
        sum / 2
    }
}

// Eight bits go.
fn with_eight(number: u32) -> u32
    ensures { result ≡ with_bits 8 number }
{
    let mut sum = number;
    for _bit in 0..8u32 {
        sum = with_bit(sum);
    }
    sum
}

// What eight bits become, by their number.
fn table() -> [u32; 256]
    ensures { IsTable result }
{
    let mut table = [0u32; 256];
    for number in 0..256 {
        table[number] = with_eight(number as u32);
    }
    table
}

// One byte more.
fn with_byte(table: &[u32; 256], sum: u32, byte: u8) -> u32
    requires { IsTable table.now }
    ensures { result ≡ with_byte sum byte }
{
    let low = (sum % 256) as u8 ^ byte;
    let eight = row_of(table, low);
    (sum / 256) ^ eight
}

fn row_of(table: &[u32; 256], number: u8) -> u32
    requires { IsTable table.now }
    ensures { result ≡ with_bits 8 number }
{
    table[usize::from(number)]
}

/// The sum behind bytes, where it has come so far in front of them.
pub(crate) fn with_bytes(start: u32, bytes: &[u8]) -> u32
    ensures { result ≡ fold with_byte start bytes.now }
{
    let table = table();
    let mut sum = start;
    for &byte in bytes {
        sum = with_byte(&table, sum, byte);
    }
    sum
}

/// The checksum of bytes.
pub(crate) fn checksum_of(bytes: &[u8]) -> u32
    ensures { result ≡ checksum_of bytes.now }
{
    with_bytes(u32::MAX, bytes) ^ u32::MAX
}
