// How a reader goes on over the packet: each method's meaning is a definition on the bytes that are left.
ghost use Rattle.std.specs.Prelude.{◌≡◌, ◌≤◌, length, take, if◌then◌else◌};
ghost use Rattle.wire.specs.Reading.{at, standing, forward, Reads, fault_at, next_bytes, fixed, determinant, field, before, begins_with};

use crate::fault::{Cause, Fault, Layer};
use crate::reader::Reader;

impl<'a> Reader<'a> {
    pub fn new(bytes: &'a [u8]) -> Reader<'a>
        ensures { standing result ≡ at 0 bytes.now }
    {
        Reader { bytes, place: 0 }
    }

    // How many bytes are left.
    pub fn left(&self) -> usize
        ensures { result ≡ length (standing self.now).rest }
    {
        self.bytes.len() - self.place
    }

    // The fault that is told at the place.
    pub fn fault(&self, layer: Layer, cause: Cause) -> Fault
        ensures { result ≡ fault_at layer cause (standing self.now) }
    {
        Fault {
            layer,
            cause,
            offset: self.place,
        }
    }

    // The next n bytes, or the fault that is given where there are fewer.
    fn next_bytes(&mut self, n: usize, cut: Fault) -> Result<&'a [u8], Fault>
        ensures { Reads (λ x. x.now) result (next_bytes cut n (standing self.old)) (standing self.new) }
    {
        let bytes = self.bytes[self.place..].get(..n).ok_or(cut)?;
        self.place += n;
        Ok(bytes)
    }

    // A field of n bytes with no determinant.
    pub fn fixed(&mut self, n: usize) -> Result<&'a [u8], Fault>
        ensures { Reads (λ x. x.now) result (fixed n (standing self.old)) (standing self.new) }
    {
        let short = self.fault(Layer::Field, Cause::CutShort);
        self.next_bytes(n, short)
    }

    // The same with the number of bytes in the type.
    pub fn array<const N: usize>(&mut self) -> Result<&'a [u8; N], Fault>
        ensures { Reads (λ x. x.now) result (fixed N (standing self.old)) (standing self.new) }
    {
        let short = self.fault(Layer::Field, Cause::CutShort);
        let array = self.bytes[self.place..].first_chunk().ok_or(short)?;
        self.place += N;
        Ok(array)
    }

    // The length that a determinant says. The layer has its own name for one whose bytes are not all there.
    pub fn determinant(&mut self, layer: Layer, cut: Cause) -> Result<usize, Fault>
        ensures { Reads (λ n. n) result (determinant layer cut (standing self.old)) (standing self.new) }
    {
        match &self.bytes[self.place..] {
            [length @ 0..=0x7F, ..] => {
                self.place += 1;
                Ok(usize::from(*length))
            }
            [0x81, length @ 0x80.., ..] => {
                self.place += 2;
                Ok(usize::from(*length))
            }
            [0x82, high @ 1.., low, ..] => {
                self.place += 3;
                Ok(usize::from(u16::from_be_bytes([*high, *low])))
            }
            [] | [0x81] | [0x82] | [0x82, _] => Err(self.fault(layer, cut)),
            _ => Err(self.fault(layer, Cause::BadDeterminant)),
        }
    }

    // A field with a determinant, of at most max bytes.
    pub fn field(&mut self, max: usize) -> Result<&'a [u8], Fault>
        ensures { Reads (λ x. x.now) result (field max (standing self.old)) (standing self.new) }
    {
        let long = self.fault(Layer::Field, Cause::TooLong);
        let cut = self.fault(Layer::Field, Cause::CutShort);
        let n = self.determinant(Layer::Field, Cause::CutShort)?;
        if n > max {
            return Err(long);
        }
        self.next_bytes(n, cut)
    }

    // The bytes up to the next stop byte, which is left to read, or up to the end.
    pub fn until(&mut self, stop: u8) -> &'a [u8]
        ensures value { result.now ≡ take (before stop (standing self.old).rest) (standing self.old).rest }
        ensures place { standing self.new ≡ forward (before stop (standing self.old).rest) (standing self.old) }
    {
        let rest = &self.bytes[self.place..];
        let n = rest
            .iter()
            .position(|byte| *byte == stop)
            .unwrap_or(rest.len());
        self.place += n;
        &rest[..n]
    }

    // Goes over the next byte if it is this one, and says whether it was.
    pub fn skip(&mut self, byte: u8) -> bool
        ensures value { result ≡ begins_with byte (standing self.old).rest }
        ensures place { standing self.new ≡ (if result then forward 1 (standing self.old) else standing self.old) }
    {
        if self.bytes.get(self.place) != Some(&byte) {
            return false;
        }
        self.place += 1;
        true
    }
}
