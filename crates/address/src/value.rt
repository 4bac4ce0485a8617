// An address that is valid by its type.
ghost use Rattle.std.specs.Prelude.{◌≡◌, true};
ghost use Rattle.address.specs.Addresses.{is_address};

#[derive(Clone, Copy)]
pub struct Address<'a> {
    bytes: &'a [u8],
    ghost valid: { is_address bytes.now ≡ true },
}

impl<'a> Address<'a> {
    // An address from bytes that were checked before: it cannot refuse.
    pub fn made(bytes: &'a [u8]) -> Address<'a>
        requires { is_address bytes.now ≡ true }
        ensures { result.bytes.now ≡ bytes.now }
    {
        Address { bytes }
    }

    pub fn bytes(&self) -> &'a [u8]
        ensures value { result.now ≡ self.now.bytes.now }
        ensures valid { is_address result.now ≡ true }
    {
        self.bytes
    }
}
