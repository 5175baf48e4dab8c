// Times: that of a song's file, and those that texts give.
ghost use Rattle.std.specs.Prelude.{◌≡◌, ◌<◌, ◌≤◌, ◌*◌, ◌+◌, length, IfSome};
ghost use Rattle.std.specs.Option.{option_map};
ghost use Rattle.filter_expr.specs.Times.{number_at, front_of, short_at, part_at, parted_date, joined_date, date_at, month_in};
ghost use Rattle.filter_expr.specs.Times.{parted_second, joined_second, parted_minute, joined_minute, hour_at, clock_at};
ghost use Rattle.filter_expr.specs.Times.{offset_minutes, offset_in, time_of, time_in_zone, time_on, dated_time, iso_time, time_in};
ghost use Rattle.filter_expr.specs.Times.{known_time, is_since};

use crate::calendar::day_of;
use song_files::FileStamp;
use song_head::{are_digits, digits, digits_in_front};

/// The day 1970-01-01, counted from the first of the year 0.
pub const EPOCH: u64 = 719_528;

/// When a song's file was changed last, in seconds since the beginning of 1970, where that is known.
pub fn known_time(stamp: Option<FileStamp>) -> Option<u64>
    ensures { result ≡ known_time stamp }
{
    let stamp = stamp?;
    if stamp.modified == 0 {
        return None;
    }
    Some(stamp.modified)
}

/// Whether it was changed then or later.
pub(crate) fn is_since(time: u64, modified: Option<u64>) -> bool
    ensures { result ≡ is_since time modified }
{
    match modified {
        None => false,
        Some(modified) => time <= modified,
    }
}

/// A number of so many digits in front, from one to another, and what stands behind it.
#[tactic(auto, unfolding(crate::specs::Times::number_at))]
fn number_at(count: usize, least: u64, most: u64, text: &[u8]) -> Option<(u64, &[u8])>
    ensures value { option_map (λ x. (x.0, x.1.now)) result ≡ number_at count least most text.now }
    ensures bounds { IfSome result (λ x. (least ≤ x.0) × (x.0 ≤ most)) }
{
    if count > text.len() {
        return None;
    }
    let (front, behind) = text.split_at(count);
    let number = digits(front)?;
    if least <= number && number <= most {
        Some((number, behind))
    } else {
        None
    }
}

/// How many digits stand in front, and at most so many.
fn front_of(most: usize, text: &[u8]) -> usize
    ensures count { result ≡ front_of most text.now }
    ensures within { result ≤ length text.now }
{
    digits_in_front(text).len().min(most)
}

/// A number of one digit to so many, as many as there are.
pub(crate) fn short_at(count: usize, least: u64, most: u64, text: &[u8]) -> Option<(u64, &[u8])>
    ensures value { option_map (λ x. (x.0, x.1.now)) result ≡ short_at count least most text.now }
    ensures bounds { IfSome result (λ x. (least ≤ x.0) × (x.0 ≤ most)) }
{
    number_at(front_of(count, text), least, most, text)
}

/// Such a number of two digits at most behind a byte.
#[tactic(auto, unfolding(crate::specs::Times::part_at))]
fn part_at(byte: u8, least: u64, most: u64, text: &[u8]) -> Option<(u64, &[u8])>
    ensures value { option_map (λ x. (x.0, x.1.now)) result ≡ part_at byte least most text.now }
    ensures bounds { IfSome result (λ x. (least ≤ x.0) × (x.0 ≤ most)) }
{
    match text {
        [first, digits @ ..] if *first == byte => short_at(2, least, most, digits),
        _ => None,
    }
}

/// The day of `YYYY-MM-DD`, and what stands behind it; numbers may be shorter.
#[tactic(auto, unfolding(crate::specs::Times::parted_date))]
fn parted_date(text: &[u8]) -> Option<(u64, &[u8])>
    ensures value { option_map (λ x. (x.0, x.1.now)) result ≡ parted_date text.now }
    ensures most { IfSome result (λ x. x.0 ≤ 3660037) }
{
    let (year, behind) = short_at(4, 0, 9999, text)?;
    let (month, behind) = part_at(b'-', 1, 12, behind)?;
    let (day, behind) = part_at(b'-', 1, 31, behind)?;
    Some((day_of(year, month, day), behind))
}

/// The day of `YYYYMMDD`, and what stands behind it.
#[tactic(auto, unfolding(crate::specs::Times::joined_date))]
fn joined_date(text: &[u8]) -> Option<(u64, &[u8])>
    ensures value { option_map (λ x. (x.0, x.1.now)) result ≡ joined_date text.now }
    ensures most { IfSome result (λ x. x.0 ≤ 3660037) }
{
    let (year, behind) = number_at(4, 0, 9999, text)?;
    let (month, behind) = number_at(2, 1, 12, behind)?;
    let (day, behind) = number_at(2, 1, 31, behind)?;
    Some((day_of(year, month, day), behind))
}

#[tactic(auto, unfolding(crate::specs::Times::date_at))]
fn date_at(text: &[u8]) -> Option<(u64, &[u8])>
    ensures value { option_map (λ x. (x.0, x.1.now)) result ≡ date_at text.now }
    ensures most { IfSome result (λ x. x.0 ≤ 3660037) }
{
    match parted_date(text) {
        Some(date) => Some(date),
        None => joined_date(text),
    }
}

/// The first day of `YYYY-MM`, with nothing behind it.
#[tactic(auto, unfolding(crate::specs::Times::month_in))]
fn month_in(text: &[u8]) -> Option<u64>
    ensures value { result ≡ month_in text.now }
    ensures most { IfSome result (λ day. day ≤ 3660037) }
{
    let (year, behind) = short_at(4, 0, 9999, text)?;
    let (month, behind) = part_at(b'-', 1, 12, behind)?;
    if behind.is_empty() {
        Some(day_of(year, month, 1))
    } else {
        None
    }
}

/// The second of the day of `h:m:s`, and what stands behind it.
#[tactic(auto, unfolding(crate::specs::Times::parted_second))]
fn parted_second(text: &[u8]) -> Option<(u64, &[u8])>
    ensures value { option_map (λ x. (x.0, x.1.now)) result ≡ parted_second text.now }
    ensures most { IfSome result (λ x. x.0 ≤ 86400) }
{
    let (hour, behind) = short_at(2, 0, 23, text)?;
    let (minute, behind) = part_at(b':', 0, 59, behind)?;
    let (second, behind) = part_at(b':', 0, 60, behind)?;
    Some((hour * 3_600 + minute * 60 + second, behind))
}

/// The same of `hhmmss`.
#[tactic(auto, unfolding(crate::specs::Times::joined_second))]
fn joined_second(text: &[u8]) -> Option<(u64, &[u8])>
    ensures value { option_map (λ x. (x.0, x.1.now)) result ≡ joined_second text.now }
    ensures most { IfSome result (λ x. x.0 ≤ 86400) }
{
    let (hour, behind) = number_at(2, 0, 23, text)?;
    let (minute, behind) = number_at(2, 0, 59, behind)?;
    let (second, behind) = number_at(2, 0, 60, behind)?;
    Some((hour * 3_600 + minute * 60 + second, behind))
}

/// The same of `h:m`.
#[tactic(auto, unfolding(crate::specs::Times::parted_minute))]
fn parted_minute(text: &[u8]) -> Option<(u64, &[u8])>
    ensures value { option_map (λ x. (x.0, x.1.now)) result ≡ parted_minute text.now }
    ensures most { IfSome result (λ x. x.0 ≤ 86400) }
{
    let (hour, behind) = short_at(2, 0, 23, text)?;
    let (minute, behind) = part_at(b':', 0, 59, behind)?;
    Some((hour * 3_600 + minute * 60, behind))
}

/// The same of `hhmm`.
#[tactic(auto, unfolding(crate::specs::Times::joined_minute))]
fn joined_minute(text: &[u8]) -> Option<(u64, &[u8])>
    ensures value { option_map (λ x. (x.0, x.1.now)) result ≡ joined_minute text.now }
    ensures most { IfSome result (λ x. x.0 ≤ 86400) }
{
    let (hour, behind) = number_at(2, 0, 23, text)?;
    let (minute, behind) = number_at(2, 0, 59, behind)?;
    Some((hour * 3_600 + minute * 60, behind))
}

/// The same of `h`.
#[tactic(auto, unfolding(crate::specs::Times::hour_at))]
fn hour_at(text: &[u8]) -> Option<(u64, &[u8])>
    ensures value { option_map (λ x. (x.0, x.1.now)) result ≡ hour_at text.now }
    ensures most { IfSome result (λ x. x.0 ≤ 86400) }
{
    let (hour, behind) = short_at(2, 0, 23, text)?;
    Some((hour * 3_600, behind))
}

/// The second of the day, in the first of these forms that stands there, and what stands behind it.
#[tactic(auto, unfolding(crate::specs::Times::clock_at))]
fn clock_at(text: &[u8]) -> Option<(u64, &[u8])>
    ensures value { option_map (λ x. (x.0, x.1.now)) result ≡ clock_at text.now }
    ensures most { IfSome result (λ x. x.0 ≤ 86400) }
{
    if let Some(clock) = parted_second(text) {
        return Some(clock);
    }
    if let Some(clock) = joined_second(text) {
        return Some(clock);
    }
    if let Some(clock) = parted_minute(text) {
        return Some(clock);
    }
    match joined_minute(text) {
        Some(clock) => Some(clock),
        None => hour_at(text),
    }
}

/// The minutes of an offset, behind a colon or not, and nothing behind them.
#[tactic(auto, unfolding(crate::specs::Times::offset_minutes))]
fn offset_minutes(text: &[u8]) -> Option<u64>
    ensures value { result ≡ offset_minutes text.now }
    ensures most { IfSome result (λ minute. minute ≤ 59) }
{
    let digits = match text {
        [] => return Some(0),
        [b':', digits @ ..] => digits,
        digits => digits,
    };
    let (minute, behind) = number_at(2, 0, 59, digits)?;
    if behind.is_empty() {
        Some(minute)
    } else {
        None
    }
}

/// The seconds of `hh`, `hhmm` or `hh:mm`, with nothing behind it.
#[tactic(auto, unfolding(crate::specs::Times::offset_in))]
fn offset_in(text: &[u8]) -> Option<u64>
    ensures value { result ≡ offset_in text.now }
    ensures most { IfSome result (λ offset. offset ≤ 86400) }
{
    let (hour, behind) = number_at(2, 0, 13, text)?;
    let minute = offset_minutes(behind)?;
    Some(hour * 3_600 + minute * 60)
}

/// The time of a second of a day, which begins so many seconds earlier in the east, or later in the west; what is before 1970 is its
/// beginning.
fn time_of(day: u64, second: u64, east: u64, west: u64) -> u64
    requires day { day ≤ 3660037 }
    requires second { second ≤ 86400 }
    requires east { east ≤ 86400 }
    requires west { west ≤ 86400 }
    ensures { result ≡ time_of day second east west }
{
    (day * 86_400 + second + west).saturating_sub(EPOCH * 86_400 + east)
}

/// A time with what stands behind it: nothing, `Z`, or an offset.
#[tactic(auto, unfolding(crate::specs::Times::time_in_zone))]
fn time_in_zone(day: u64, second: u64, text: &[u8]) -> Option<u64>
    requires day { day ≤ 3660037 }
    requires second { second ≤ 86400 }
    ensures { result ≡ time_in_zone day second text.now }
{
    match text {
        [] | [b'Z'] => Some(time_of(day, second, 0, 0)),
        [b'+', offset @ ..] => Some(time_of(day, second, offset_in(offset)?, 0)),
        [b'-', offset @ ..] => Some(time_of(day, second, 0, offset_in(offset)?)),
        _ => None,
    }
}

/// The time of a day, or of a time of that day behind `T`.
#[tactic(auto, unfolding(crate::specs::Times::time_on))]
fn time_on(day: u64, text: &[u8]) -> Option<u64>
    requires { day ≤ 3660037 }
    ensures { result ≡ time_on day text.now }
{
    match text {
        [b'T', clock @ ..] => {
            let (second, behind) = clock_at(clock)?;
            time_in_zone(day, second, behind)
        }
        _ => time_in_zone(day, 0, text),
    }
}

#[tactic(auto, unfolding(crate::specs::Times::dated_time))]
fn dated_time(text: &[u8]) -> Option<u64>
    ensures { result ≡ dated_time text.now }
{
    let (day, behind) = date_at(text)?;
    time_on(day, behind)
}

/// A time of ISO 8601: a day, a time of it, or a month.
#[tactic(auto, unfolding(crate::specs::Times::iso_time))]
fn iso_time(text: &[u8]) -> Option<u64>
    ensures { result ≡ iso_time text.now }
{
    if let Some(time) = dated_time(text) {
        return Some(time);
    }
    Some(time_of(month_in(text)?, 0, 0, 0))
}

/// Seconds since the beginning of 1970 from a text: so many, but of eight digits a date; or a date or a time of ISO 8601, in UTC or at an
/// offset from it.
#[tactic(auto, unfolding(crate::specs::Times::time_in))]
pub(crate) fn time_in(text: &[u8]) -> Option<u64>
    ensures { result ≡ time_in text.now }
{
    if are_digits(text) && text.len() != 8 {
        return digits(text);
    }
    match iso_time(text) {
        Some(time) => Some(time),
        None => digits(text),
    }
}
