// The months of a year and their days. Months are counted from 1.
ghost use Rattle.std.specs.Prelude.{◌≡◌, ◌<◌, ◌≤◌};
ghost use Rattle.calendar.specs.Calendar.{days_before_month, month_and_day, month_length, month_lengths, year_length};

use crate::years::is_leap;

/// From January to December, in days.
fn month_lengths(year: u32) -> [u32; 12]
    ensures { result ≡ month_lengths year }
{
    let february = if is_leap(year) { 29 } else { 28 };
    [31, february, 31, 30, 31, 30, 31, 31, 30, 31, 30, 31]
}

pub(crate) fn month_length(year: u32, month: u32) -> u32
    requires first { 1 ≤ month }
    requires last { month ≤ 12 }
    ensures { result ≡ month_length year month }
{
    let lengths = month_lengths(year);
    lengths[(month - 1) as usize]
}

/// From the first day of the year to the first of the month.
pub(crate) fn days_before_month(year: u32, month: u32) -> u32
    requires first { 1 ≤ month }
    requires last { month ≤ 12 }
    ensures { result ≡ days_before_month year month }
{
    let mut days = 0;
    for past in 1..month {
        days += month_length(year, past);
    }
    days
}

/// The month that a day of the year falls in, and which day of that month it is; both days are counted from 0.
pub(crate) fn month_and_day(year: u32, day: u32) -> (u32, u32)
    requires { day < year_length year }
    ensures { result ≡ month_and_day year day }
{
    let mut rest = day;
    for month in 1..12 {
        let length = month_length(year, month);
        if rest < length {
            return (month, rest);
        }
        rest -= length;
    }
    // what is left after November is in December, since the day is one of the year
    (12, rest)
}
