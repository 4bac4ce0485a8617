// From a date and time to its instant, and back. An instant is the number of milliseconds since 1970 began.
ghost use Rattle.std.specs.Prelude.{◌≡◌, ◌≤◌, true};
ghost use Rattle.calendar.specs.Calendar.{date_time_of, instant_at, last_instant, valid_date, valid_time};

use crate::civil::DateTime;
use crate::months::{days_before_month, month_and_day, month_length};
use crate::years::{days_before_year, year_and_day};

// how long each is, in milliseconds
const SECOND: u64 = 1_000;

const MINUTE: u64 = 60_000;

const HOUR: u64 = 3_600_000;

const DAY: u64 = 86_400_000;

/// Whether the date is one of the calendar, from 1970 to 9999.
pub(crate) fn valid_date(at: DateTime) -> bool
    ensures { result ≡ valid_date at }
{
    1970 <= at.year
        && at.year <= 9999
        && 1 <= at.month
        && at.month <= 12
        && 1 <= at.day
        && at.day <= month_length(at.year, at.month)
}

/// Whether the time is one of a day. There are no leap seconds.
pub(crate) fn valid_time(at: DateTime) -> bool
    ensures { result ≡ valid_time at }
{
    at.hour <= 23 && at.minute <= 59 && at.second <= 59 && at.millisecond <= 999
}

/// The instant of a date and time, whose date is one of the calendar.
pub(crate) fn instant_at(at: DateTime) -> u64
    requires { valid_date at ≡ true }
    ensures { result ≡ instant_at at }
{
    let days = u64::from(days_before_year(at.year))
        + u64::from(days_before_month(at.year, at.month))
        + u64::from(at.day - 1);
    days * DAY
        + u64::from(at.hour) * HOUR
        + u64::from(at.minute) * MINUTE
        + u64::from(at.second) * SECOND
        + u64::from(at.millisecond)
}

/// The date and time of an instant up to the last one.
pub(crate) fn date_time_at(instant: u64) -> DateTime
    requires { instant ≤ last_instant }
    ensures { result ≡ date_time_of instant }
{
    let (year, day_of_year) = year_and_day((instant / DAY) as u32);
    let (month, day) = month_and_day(year, day_of_year);
    DateTime {
        year,
        month,
        day: day + 1,
        hour: (instant / HOUR % 24) as u32,
        minute: (instant / MINUTE % 60) as u32,
        second: (instant / SECOND % 60) as u32,
        millisecond: (instant % SECOND) as u32,
    }
}
