// A few bytes that a value owns: the first `length` of a fixed array, so that nothing is allocated, and the value is `Copy`.
ghost use Rattle.std.specs.Prelude.{◌≡◌, ◌≤◌, length, take, nat_le};
ghost use Rattle.std.specs.Bool.{then_some};

#[derive(Clone, Copy)]
pub struct ShortBytes<const N: usize> {
    bytes: [u8; N],
    length: usize,
    ghost few: { length ≤ N },
}

impl<const N: usize> ShortBytes<N> {
    ghost use Rattle.wire.specs.Short.{short_bytes, shown_short};

    // A copy of the bytes, or none where they are more than N.
    pub fn new(bytes: &[u8]) -> Option<ShortBytes<N>>
        ensures { shown_short result ≡ then_some (nat_le (length bytes.now) N) bytes.now }
    {
        let length = bytes.len();
        if length > N {
            return None;
        }
        let mut own = [0; N];
        own[..length].copy_from_slice(bytes);
        Some(ShortBytes { bytes: own, length })
    }

    pub fn as_slice(&self) -> &[u8]
        ensures { result.now ≡ short_bytes self.now }
    {
        &self.bytes[..self.length]
    }
}
