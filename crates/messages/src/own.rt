// Our own address: a valid one, of at most 64 bytes.
ghost use Rattle.std.specs.Prelude.{◌≡◌, true};
ghost use Rattle.std.specs.Bool.{then_some};
ghost use Rattle.wire.specs.Short.{short_bytes};
ghost use Rattle.address.specs.Addresses.{is_address};

use address::check::is_address;
use wire::short::ShortBytes;

// The most bytes of our own address.
pub const LONGEST: usize = 64;

#[derive(Clone, Copy)]
pub struct OwnAddress {
    bytes: ShortBytes<LONGEST>,
    ghost valid: { is_address (short_bytes bytes) ≡ true },
}

impl OwnAddress {
    ghost use Rattle.messages.specs.Own.{own_fits, own_bytes, shown_bytes};

    // The address, or none where the bytes are no address or more than 64.
    pub fn new(address: &[u8]) -> Option<OwnAddress>
        ensures { shown_bytes result ≡ then_some (own_fits address.now) address.now }
    {
        let bytes = ShortBytes::new(address)?;
        if !is_address(address) {
            return None;
        }
        Some(OwnAddress { bytes })
    }

    pub fn bytes(&self) -> &[u8]
        ensures value { result.now ≡ own_bytes self.now }
        ensures valid { is_address result.now ≡ true }
    {
        self.bytes.as_slice()
    }
}
