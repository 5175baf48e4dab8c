//! Times as dates in UTC.
ghost use Rattle.std.specs.Prelude.{◌≡◌, ◌<◌, ◌++◌, codes};
ghost use Rattle.command_text.specs.Answer.{Adds, pair};
ghost use Rattle.command_text.specs.AnswerDates.{clock_text, two_digits, time_text};

use crate::answer::pairs::write_joined;
use filter_expr::{EPOCH, date_of};
use itoa::Buffer;
use no_memory::NoMemory;

/// A month and a day in it, as they stand behind the year.
fn month_and_day(month: u8, day: u8) -> [u8; 6]
    requires month { month < 100 }
    requires day { day < 100 }
    ensures { result ≡ codes "-" ++ (two_digits month ++ (codes "-" ++ two_digits day)) }
{
    [
        b'-',
        b'0' + month / 10,
        b'0' + month % 10,
        b'-',
        b'0' + day / 10,
        b'0' + day % 10,
    ]
}

/// A second of a day, as it stands behind the day.
fn clock(second: u32) -> [u8; 10]
    requires { second < 86400 }
    ensures { result ≡ codes "T" ++ (clock_text second ++ codes "Z") }
{
    let minute = second / 60;
    [
        b'T',
        b'0' + (second / 3_600 / 10) as u8,
        b'0' + (second / 3_600 % 10) as u8,
        b':',
        b'0' + (minute % 60 / 10) as u8,
        b'0' + (minute % 60 % 10) as u8,
        b':',
        b'0' + (second % 60 / 10) as u8,
        b'0' + (second % 60 % 10) as u8,
        b'Z',
    ]
}

/// Adds the line of a time in UTC, `key: YYYY-MM-DDThh:mm:ssZ`, in seconds since the beginning of 1970.
pub(crate) fn write_time(out: &mut Vec<u8>, key: &str, time: u64) -> Result<(), NoMemory>
    ensures { Adds (pair key.now (time_text time)) result out.old out.new }
{
    let date = date_of(EPOCH + time / 86_400);
    let mut year = Buffer::new();
    write_joined(
        out,
        key,
        year.format(date.year).as_bytes(),
        &month_and_day(date.month, date.day),
        &clock((time % 86_400) as u32),
    )
}
