// Days and dates.
ghost use Rattle.std.specs.Prelude.{◌≡◌, ◌<◌, ◌≤◌, ◌+◌, ◌*◌, ◌^◌, suc, take, sum};
ghost use Rattle.filter_expr.specs.Calendar.{is_leap, months, days_before, day_of, year_of, month_and_day, date_of};

/// A date of the calendar of ISO 8601.
#[derive(Clone, Copy, Debug, PartialEq, Eq)]
pub struct Date {
    pub year: u64,
    /// From 1 on.
    pub month: u8,
    /// From 1 on.
    pub day: u8,
}

fn is_leap(year: u64) -> bool
    ensures { result ≡ is_leap year }
{
    year % 4 == 0 && (year % 100 != 0 || year % 400 == 0)
}

/// The lengths of a year's months.
fn months(year: u64) -> [u64; 12]
    ensures { result ≡ months year }
{
    let february = if is_leap(year) { 29 } else { 28 };
    [31, february, 31, 30, 31, 30, 31, 31, 30, 31, 30, 31]
}

/// How many days went before a year.
fn days_before(year: u64) -> u64
    requires { year < 2 ^ 50 }
    ensures days { result ≡ days_before year }
    ensures most { result ≤ 366 * year }
{
    year * 365 + (year + 3) / 4 - (year + 99) / 100 + (year + 399) / 400
}

/// The day of a date, counted from the first of the year 0; a day behind the last of its month is as many days later.
#[tactic(auto, unfolding(crate::specs::Calendar::day_of))]
pub(crate) fn day_of(year: u64, month: u64, day: u64) -> u64
    requires year { year < 2 ^ 50 }
    requires month { (1 ≤ month) × (month ≤ 12) }
    requires day { (1 ≤ day) × (day ≤ 31) }
    ensures day { result ≡ day_of year month day }
    ensures most { result ≤ 366 * year + 403 }
{
    days_before(year) + days_of_months(year, month - 1) + (day - 1)
}

/// How many days the first months of a year have.
fn days_of_months(year: u64, count: u64) -> u64
    requires { count ≤ 12 }
    ensures days { result ≡ sum (take count (months year)) }
    ensures most { result ≤ 31 * count }
{
    let lengths = months(year);
    let mut days = 0;
    for at in 0..count as usize {
        days += lengths[at];
    }
    days
}

/// The year of a day.
fn year_of(day: u64) -> u64
    requires { day < 2 ^ 50 }
    ensures year { result ≡ year_of day }
    ensures begun { days_before result ≤ day }
    ensures lasts { day < days_before (suc result) }
    ensures most { result ≤ day }
{
    // 400 years have 146,097 days, and no year has more than 366: no later year than this one began before the day's.
    let mut year = day / 146_097 * 400 + day % 146_097 / 366;
    'years: while days_before(year + 1) <= day {
        year += 1;
    }
    year
}

/// The month and the day in it of the day of a year, which counts from 0.
fn month_and_day(year: u64, day: u64) -> (u8, u8)
    requires { day < sum (months year) }
    ensures value { result ≡ month_and_day 1 (months year) day }
    ensures month { result.0 ≤ 12 }
    ensures day { result.1 ≤ 31 }
{
    let lengths = months(year);
    let mut left = day;
    for at in 0..12 {
        if left < lengths[at] {
            return (at as u8 + 1, left as u8 + 1);
        }
        left -= lengths[at];
    }
    unreachable!()
}

/// The date of a day, which counts from the first of the year 0.
pub fn date_of(day: u64) -> Date
    requires { day < 2 ^ 50 }
    ensures date { result ≡ date_of day }
    ensures month { result.month ≤ 12 }
    ensures day { result.day ≤ 31 }
{
    let year = year_of(day);
    let (month, day) = month_and_day(year, day - days_before(year));
    Date { year, month, day }
}
