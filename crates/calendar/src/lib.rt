// Timestamps of 17 digits, YYYYMMDDHHmmSSfff: UTC, Gregorian, from 1970 to 9999, with no leap seconds; and the instants
// that they say, which are milliseconds since 1970 began.
#![tactic(auto)]

ghost use Rattle.std.specs.Prelude.{◌≡◌, ℕ, ◌≤◌, if◌then◌else◌, Some, None, MatchOption, nat_le};
ghost use Rattle.calendar.specs.Calendar.{date_time_of, digits_of, instant_of, last_instant, SaysAlone, Unsaid};

mod civil;
mod digits;
mod instants;
mod months;
mod years;

pub use civil::DateTime;

/// 9999-12-31 23:59:59.999
pub const LAST_INSTANT: u64 = 253_402_300_799_999;

/// The instant that the bytes say, if they are a timestamp.
fn instant_said(digits: &[u8]) -> Option<u64>
    ensures { result ≡ instant_of digits.now }
{
    if digits.len() != 17 || !digits::all_digits(digits) {
        return None;
    }
    let at = digits::fields_of(digits);
    if instants::valid_date(at) && instants::valid_time(at) {
        Some(instants::instant_at(at))
    } else {
        None
    }
}

/// Reads a timestamp, and refuses all other bytes. No two timestamps are read as one instant.
pub fn read_timestamp(digits: &[u8]) -> Option<u64>
    ensures value { result ≡ instant_of digits.now }
    ensures only { (i : ℕ) → result ≡ Some i → (digits.now ≡ digits_of i) × (i ≤ last_instant) }
{
    instant_said(digits)
}

/// The date and time of an instant, if it is one of the years up to 9999.
pub fn date_time(instant: u64) -> Option<DateTime>
    ensures { result ≡ (if nat_le instant last_instant then Some (date_time_of instant) else None) }
{
    if instant <= LAST_INSTANT {
        Some(instants::date_time_at(instant))
    } else {
        None
    }
}

/// The timestamp of an instant, if it has one.
fn timestamp_of(instant: u64) -> Option<[u8; 17]>
    ensures { result ≡ (if nat_le instant last_instant then Some (digits_of instant) else None) }
{
    let at = date_time(instant)?;
    Some(digits::written_digits(at))
}

/// Writes the timestamp of an instant, if it is one of the years up to 9999. What is written is read as the instant
/// again, and nothing else is; where nothing is written, no bytes are read as the instant.
pub fn write_timestamp(instant: u64) -> Option<[u8; 17]>
    ensures value { result ≡ (if nat_le instant last_instant then Some (digits_of instant) else None) }
    ensures back { MatchOption result (Unsaid instant) (λ digits. SaysAlone digits instant) }
{
    timestamp_of(instant)
}
