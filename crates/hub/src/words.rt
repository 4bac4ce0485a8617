// Bytes and times in words.
use calendar::date_time;
use std::fmt;

// How many bytes are put into digits at a time.
const PART: usize = 32;

// The digit of the low half of a byte.
fn digit(byte: u8) -> u8 {
    b"0123456789abcdef"[(byte % 16) as usize]
}

// Two hexadecimal digits for each byte: those of whole parts are written together, which takes less time.
#[derive(Clone, Copy)]
pub(crate) struct Hex<'a>(pub(crate) &'a [u8]);

impl fmt::Display for Hex<'_> {
    fn fmt<W: fmt::Write>(&self, f: &mut fmt::Formatter<W>) -> fmt::Result {
        let (parts, rest) = self.0.as_chunks::<PART>();
        for part in parts {
            let mut digits = [[0; 2]; PART];
            for (pair, byte) in digits.iter_mut().zip(part) {
                *pair = [digit(*byte / 16), digit(*byte)];
            }
            f.write_str(str::from_utf8(digits.as_flattened()).map_err(|_| fmt::Error)?)?;
        }
        for byte in rest {
            write!(f, "{byte:02x}")?;
        }
        Ok(())
    }
}

// Bytes that are letters, digits and the like.
#[derive(Clone, Copy)]
pub(crate) struct Ascii<'a>(pub(crate) &'a [u8]);

impl fmt::Display for Ascii<'_> {
    fn fmt<W: fmt::Write>(&self, f: &mut fmt::Formatter<W>) -> fmt::Result {
        for byte in self.0 {
            f.write_char(char::from(*byte))?;
        }
        Ok(())
    }
}

// Such bytes, and how many they are.
#[derive(Clone, Copy)]
pub(crate) struct Measured<'a>(pub(crate) &'a [u8]);

impl fmt::Display for Measured<'_> {
    fn fmt<W: fmt::Write>(&self, f: &mut fmt::Formatter<W>) -> fmt::Result {
        write!(f, "{} ({} bytes)", Ascii(self.0), self.0.len())
    }
}

// An instant as a date and a time of day.
#[derive(Clone, Copy)]
pub(crate) struct Expiry(pub(crate) u64);

impl fmt::Display for Expiry {
    fn fmt<W: fmt::Write>(&self, f: &mut fmt::Formatter<W>) -> fmt::Result {
        let Some(at) = date_time(self.0) else {
            return f.write_str("after the year 9999");
        };
        write!(f, "{:04}-{:02}-{:02} ", at.year, at.month, at.day)?;
        write!(f, "{:02}:{:02}:{:02}", at.hour, at.minute, at.second)?;
        write!(f, ".{:03} UTC, instant {}", at.millisecond, self.0)
    }
}
