// The kinds of packets, by their type byte.
ghost use Rattle.std.specs.Prelude.{◌≡◌};
ghost use Rattle.packet.specs.Encoding.{type_byte, SaysKind};

#[derive(Clone, Copy, Debug, PartialEq, Eq)]
pub enum Kind {
    Prepare = 0x0C,
    Fulfill = 0x0D,
    Reject = 0x0E,
}

impl Kind {
    // The first byte of a packet of this kind.
    pub fn type_byte(self) -> u8
        ensures { result ≡ type_byte self }
    {
        self as u8
    }
}

// A byte that is no type byte.
#[derive(Clone, Copy, Debug, PartialEq, Eq)]
pub struct UnknownKind;

impl TryFrom<u8> for Kind {
    type Error = UnknownKind;

    ghost try_from_gives = { SaysKind };

    fn try_from(byte: u8) -> Result<Self, UnknownKind> {
        match byte {
            0x0C => Ok(Kind::Prepare),
            0x0D => Ok(Kind::Fulfill),
            0x0E => Ok(Kind::Reject),
            _ => Err(UnknownKind),
        }
    }
}
