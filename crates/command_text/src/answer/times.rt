//! Times: milliseconds from frames, and their texts in seconds.
ghost use Rattle.std.specs.Prelude.{◌≡◌, ◌<◌, ◌++◌, ◌%◌, codes};
ghost use Rattle.command_text.specs.Answer.{Adds, pair};
ghost use Rattle.command_text.specs.AnswerTimes.{milliseconds_at, three_digits, whole_seconds, exact_seconds};

use crate::answer::pairs::{append, write_joined, write_pair};
use itoa::Buffer;
use no_memory::NoMemory;

/// The milliseconds that so many frames take at a rate of frames a second, rounded down.
pub(crate) fn milliseconds_at(rate: u32, frames: u64) -> u128
    requires { 0 < rate }
    ensures { result ≡ milliseconds_at rate frames }
{
    u128::from(frames) * 1_000 / u128::from(rate)
}

/// The digits of a number below 1000.
fn three_digits(number: u16) -> [u8; 3]
    requires { number < 1000 }
    ensures { result ≡ three_digits number }
{
    [
        b'0' + (number / 100) as u8,
        b'0' + (number / 10 % 10) as u8,
        b'0' + (number % 10) as u8,
    ]
}

/// The digits of so many milliseconds in whole seconds, rounded down. Numbers of 64 bits are divided in a tenth of the time.
fn seconds_in(buffer: &mut Buffer, milliseconds: u128) -> &str
    ensures { result.now ≡ whole_seconds milliseconds }
{
    if milliseconds <= u128::from(u64::MAX) {
        buffer.format(milliseconds as u64 / 1_000)
    } else {
        buffer.format(milliseconds / 1_000)
    }
}

/// The thousandths of a second that stand behind the whole ones.
fn thousandths(milliseconds: u128) -> u16
    ensures value { result ≡ milliseconds % 1000 }
    ensures bound { result < 1000 }
{
    if milliseconds <= u128::from(u64::MAX) {
        (milliseconds as u64 % 1_000) as u16
    } else {
        (milliseconds % 1_000) as u16
    }
}

/// Adds the line of a time in whole seconds, rounded down.
pub(crate) fn write_whole_seconds(
    out: &mut Vec<u8>,
    key: &str,
    milliseconds: u128,
) -> Result<(), NoMemory>
    ensures { Adds (pair key.now (whole_seconds milliseconds)) result out.old out.new }
{
    let mut buffer = Buffer::new();
    write_pair(out, key, seconds_in(&mut buffer, milliseconds).as_bytes())
}

/// Adds the line of a time in seconds with three decimals.
pub(crate) fn write_exact_seconds(
    out: &mut Vec<u8>,
    key: &str,
    milliseconds: u128,
) -> Result<(), NoMemory>
    ensures { Adds (pair key.now (exact_seconds milliseconds)) result out.old out.new }
{
    let mut buffer = Buffer::new();
    let seconds = seconds_in(&mut buffer, milliseconds).as_bytes();
    let thousandths = three_digits(thousandths(milliseconds));
    write_joined(out, key, seconds, b".", &thousandths)
}

/// Adds the line `time: ELAPSED:TOTAL`, in whole seconds, rounded down.
pub(crate) fn write_elapsed_of_total(
    out: &mut Vec<u8>,
    elapsed: u128,
    total: u128,
) -> Result<(), NoMemory>
    ensures { Adds (pair (codes "time") (whole_seconds elapsed ++ (codes ":" ++ whole_seconds total))) result out.old out.new }
{
    let mut first = Buffer::new();
    let mut second = Buffer::new();
    append(
        out,
        &[
            b"time: ",
            first.format(elapsed / 1_000).as_bytes(),
            b":",
            second.format(total / 1_000).as_bytes(),
            b"\n",
        ],
    )
}
