// Writing into a buffer that the caller lends, from a place on: each function answers the place after what it wrote, as a
// `Writer` that is over the buffer at that place. And how long a field will be, for the length that stands before it.
ghost use Rattle.std.specs.Prelude.{◌≡◌, ◌+◌, ◌<◌, ◌≤◌, length};
ghost use Rattle.wire.specs.Writing.{Wrote, determinant_of, field_bytes};

use crate::writer::Writer;

pub fn put(out: &mut [u8], at: usize, bytes: &[u8]) -> usize
    requires { at + length bytes.now ≤ length out.old }
    ensures wrote { Wrote out.old at bytes.now out.new result }
    ensures place { result ≡ at + length bytes.now }
{
    let mut writer = Writer::at(out, at);
    writer.put(bytes);
    writer.place()
}

// The shortest determinant of n.
pub fn put_determinant(out: &mut [u8], at: usize, n: usize) -> usize
    requires { (n < 65536) × (at + 3 ≤ length out.old) }
    ensures wrote { Wrote out.old at (determinant_of n) out.new result }
    ensures place { result ≤ at + 3 }
{
    let mut writer = Writer::at(out, at);
    writer.determinant(n);
    writer.place()
}

// The bytes behind their determinant.
pub fn put_field(out: &mut [u8], at: usize, bytes: &[u8]) -> usize
    requires { (length bytes.now < 65536) × (at + length bytes.now + 3 ≤ length out.old) }
    ensures wrote { Wrote out.old at (field_bytes bytes.now) out.new result }
    ensures place { result ≤ at + length bytes.now + 3 }
{
    let mut writer = Writer::at(out, at);
    writer.field(bytes);
    writer.place()
}

// How many bytes a field of n bytes takes with its determinant.
pub fn field_size(n: usize) -> usize
    requires { n < 65536 }
    ensures value { result ≡ length (determinant_of n) + n }
    ensures bound { result ≤ n + 3 }
{
    if n < 0x80 {
        n + 1
    } else if n < 0x100 {
        n + 2
    } else {
        n + 3
    }
}
