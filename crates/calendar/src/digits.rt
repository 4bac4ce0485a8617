// The 17 digits YYYYMMDDHHmmSSfff, read and written without asking whether they say a day of the calendar.
ghost use Rattle.std.specs.Prelude.{◌≡◌, ◌+◌, ◌≤◌, length};
ghost use Rattle.calendar.specs.Calendar.{all_digits, digit_byte, fields_of, number_at, written};

use crate::civil::DateTime;

pub(crate) fn all_digits(digits: &[u8]) -> bool
    ensures { result ≡ all_digits digits.now }
{
    digits.iter().all(u8::is_ascii_digit)
}

/// The number that `count` digits say from the place `at` on. Its bounds are those of any bytes, so that no sum wraps.
fn number_at(digits: &[u8], at: usize, count: usize) -> u32
    requires few { count ≤ 4 }
    requires there { at + count ≤ length digits.now }
    ensures { result ≡ number_at digits.now at count }
{
    let mut number = 0;
    for digit in &digits[at..at + count] {
        number = number * 10 + u32::from(digit.saturating_sub(b'0'));
    }
    number
}

/// What the digits say, field by field.
pub(crate) fn fields_of(digits: &[u8]) -> DateTime
    requires { length digits.now ≡ 17 }
    ensures { result ≡ fields_of digits.now }
{
    DateTime {
        year: number_at(digits, 0, 4),
        month: number_at(digits, 4, 2),
        day: number_at(digits, 6, 2),
        hour: number_at(digits, 8, 2),
        minute: number_at(digits, 10, 2),
        second: number_at(digits, 12, 2),
        millisecond: number_at(digits, 14, 3),
    }
}

/// The byte of the last digit of `n`.
fn last_digit(n: u32) -> u8
    ensures { result ≡ digit_byte n }
{
    b'0' + (n % 10) as u8
}

/// The 17 digits of a date and time.
pub(crate) fn written_digits(at: DateTime) -> [u8; 17]
    ensures { result ≡ written at }
{
    [
        last_digit(at.year / 1000),
        last_digit(at.year / 100),
        last_digit(at.year / 10),
        last_digit(at.year),
        last_digit(at.month / 10),
        last_digit(at.month),
        last_digit(at.day / 10),
        last_digit(at.day),
        last_digit(at.hour / 10),
        last_digit(at.hour),
        last_digit(at.minute / 10),
        last_digit(at.minute),
        last_digit(at.second / 10),
        last_digit(at.second),
        last_digit(at.millisecond / 100),
        last_digit(at.millisecond / 10),
        last_digit(at.millisecond),
    ]
}
