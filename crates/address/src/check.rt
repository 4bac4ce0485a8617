// Whether bytes are an address or a prefix. The check goes over the bytes by a reader, part by part.
ghost use Rattle.std.specs.Prelude.{◌≡◌};
ghost use Rattle.wire.specs.Reading.{standing};
ghost use Rattle.address.specs.Addresses.{is_scheme, is_symbol, is_segment, rest_segments, is_address, is_prefix};

use wire::compare::same_bytes;
use wire::reader::Reader;

// The longest address.
pub const MOST: usize = 1023;

const SCHEMES: [&'static [u8]; 10] = [
    b"g", b"private", b"example", b"peer", b"self", b"test", b"test1", b"test2", b"test3", b"local",
];

fn is_symbol(b: u8) -> bool
    ensures { result ≡ is_symbol b }
{
    matches!(b, b'A'..=b'Z' | b'a'..=b'z' | b'0'..=b'9' | b'_' | b'~' | b'-')
}

fn is_segment(part: &[u8]) -> bool
    ensures { result ≡ is_segment part.now }
{
    !part.is_empty() && part.iter().all(|b| is_symbol(*b))
}

fn is_scheme(part: &[u8]) -> bool
    ensures { result ≡ is_scheme part.now }
{
    SCHEMES.iter().any(|scheme| same_bytes(part, scheme))
}

// Zero or more segments, each behind its dot, up to the end.
fn has_segments(reader: &mut Reader<'_>) -> bool
    ensures { result ≡ rest_segments (standing reader.old).rest }
{
    while reader.skip(b'.') {
        if !is_segment(reader.until(b'.')) {
            return false;
        }
    }
    reader.left() == 0
}

pub fn is_address(bytes: &[u8]) -> bool
    ensures { result ≡ is_address bytes.now }
{
    let mut reader = Reader::new(bytes);
    let scheme = reader.until(b'.');
    bytes.len() <= MOST && is_scheme(scheme) && reader.left() > 0 && has_segments(&mut reader)
}

pub fn is_prefix(bytes: &[u8]) -> bool
    ensures { result ≡ is_prefix bytes.now }
{
    let mut reader = Reader::new(bytes);
    let scheme = reader.until(b'.');
    bytes.is_empty() || is_scheme(scheme) && has_segments(&mut reader)
}
