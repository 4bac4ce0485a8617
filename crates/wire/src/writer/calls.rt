// How a writer goes on over its buffer. It stays over the one that it was made over.
ghost use Rattle.std.specs.Prelude.{◌≡◌, ◌+◌, ◌<◌, ◌≤◌, length};
ghost use Rattle.wire.specs.Writing.{Wrote, determinant_of, field_bytes};

use crate::writer::Writer;

impl<'a> Writer<'a> {
    pub fn new(out: &'a mut [u8]) -> Writer<'a>
        ensures over { result.out.ghost_name ≡ out.entry.ghost_name }
        ensures buffer { result.out.now ≡ out.old }
        ensures size { length result.out.now ≡ length out.old }
        ensures place { result.place ≡ 0 }
    {
        Writer { out, place: 0 }
    }

    // A writer that goes on from a place.
    pub(crate) fn at(out: &'a mut [u8], place: usize) -> Writer<'a>
        ensures over { result.out.ghost_name ≡ out.entry.ghost_name }
        ensures buffer { result.out.now ≡ out.old }
        ensures size { length result.out.now ≡ length out.old }
        ensures place { result.place ≡ place }
    {
        Writer { out, place }
    }

    // How many bytes were written.
    pub fn place(&self) -> usize
        ensures { result ≡ self.now.place }
    {
        self.place
    }

    pub fn put(&mut self, bytes: &[u8])
        requires { self.old.place + length bytes.now ≤ length self.old.out.now }
        ensures over { self.new.out.ghost_name ≡ self.old.out.ghost_name }
        ensures size { length self.new.out.now ≡ length self.old.out.now }
        ensures wrote { Wrote self.old.out.now self.old.place bytes.now self.new.out.now self.new.place }
    {
        let Writer { out, place } = self;
        let end = *place + bytes.len();
        out[*place..end].copy_from_slice(bytes);
        *place = end;
    }

    // The shortest determinant of n.
    pub fn determinant(&mut self, n: usize)
        requires small { n < 65536 }
        requires room { self.old.place + 3 ≤ length self.old.out.now }
        ensures over { self.new.out.ghost_name ≡ self.old.out.ghost_name }
        ensures size { length self.new.out.now ≡ length self.old.out.now }
        ensures wrote { Wrote self.old.out.now self.old.place (determinant_of n) self.new.out.now self.new.place }
        ensures place { self.new.place ≤ self.old.place + 3 }
    {
        if n < 0x80 {
            self.put(&[n as u8]);
        } else if n < 0x100 {
            self.put(&[0x81, n as u8]);
        } else {
            let [high, low] = (n as u16).to_be_bytes();
            self.put(&[0x82, high, low]);
        }
    }

    // The bytes behind their determinant.
    pub fn field(&mut self, bytes: &[u8])
        requires small { length bytes.now < 65536 }
        requires room { self.old.place + length bytes.now + 3 ≤ length self.old.out.now }
        ensures over { self.new.out.ghost_name ≡ self.old.out.ghost_name }
        ensures size { length self.new.out.now ≡ length self.old.out.now }
        ensures wrote { Wrote self.old.out.now self.old.place (field_bytes bytes.now) self.new.out.now self.new.place }
        ensures place { self.new.place ≤ self.old.place + length bytes.now + 3 }
    {
        self.determinant(bytes.len());
        self.put(bytes);
    }
}
