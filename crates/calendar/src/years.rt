// Years and their days. A day is counted from 0, which is 1970-01-01.
ghost use Rattle.std.specs.Prelude.{◌≡◌, ◌+◌, ◌-◌, ◌*◌, ◌/◌, ◌<◌, ◌≤◌};
ghost use Rattle.calendar.specs.Calendar.{days_before_year, leap, year_and_day, year_length};

/// Every fourth year, but of the years that end a century only every fourth.
pub(crate) fn is_leap(year: u32) -> bool
    ensures { result ≡ leap year }
{
    year % 4 == 0 && (year % 100 != 0 || year % 400 == 0)
}

/// From 1970-01-01 to the first day of the year: 365 days for each year, and one more for each leap year. Of those
/// there were 477 before 1970.
pub(crate) fn days_before_year(year: u32) -> u32
    requires first { 1970 ≤ year }
    requires last { year ≤ 10000 }
    ensures { result ≡ days_before_year year }
{
    let past = year - 1;
    365 * (year - 1970) + (past / 4 + past / 400 - past / 100 - 477)
}

/// The year of the day, or one of the two years before it: 400 years have 146,097 days.
fn estimated_year(days: u32) -> u32
    requires { days < 2932897 }
    ensures value { result ≡ 1970 + (days * 400 / 146097 - 1) }
    ensures begun { days_before_year result ≤ days }
    ensures near { days < days_before_year (result + 3) }
{
    1970 + (days * 400 / 146_097).saturating_sub(1)
}

/// The year that a day falls in, and which day of that year it is, from 0. The years end with 9999.
pub(crate) fn year_and_day(days: u32) -> (u32, u32)
    requires { days < 2932897 }
    ensures value { result ≡ year_and_day days }
    ensures within { result.1 < year_length result.0 }
{
    // the estimate is never past the year, so this goes up, and at most twice; no list stands behind it
    let mut year = estimated_year(days);
    while days_before_year(year + 1) <= days {
        year += 1;
    }
    (year, days - days_before_year(year))
}
