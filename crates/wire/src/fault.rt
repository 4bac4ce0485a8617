// The first fault of a packet: which layer found it, what is wrong, and at which byte.

// The layers, from the outside in.
#[derive(Clone, Copy, Debug, PartialEq, Eq)]
pub enum Layer {
    Wrapper,
    Field,
    Address,
    Calendar,
}

#[derive(Clone, Copy, Debug, PartialEq, Eq)]
pub enum Cause {
    // wrapper: there is no byte at all
    NoBytes,
    // wrapper: the type byte is not one that is asked for
    WrongType,
    // wrapper and field: the first byte of the determinant has no meaning, or a shorter determinant says the length
    BadDeterminant,
    // wrapper: the determinant's own bytes are not all there
    CutDeterminant,
    // wrapper: the content is not as long as the determinant says
    WrongLength,
    // field: the determinant says more than the field may have
    TooLong,
    // field: the packet ends before the field does
    CutShort,
    // field: a reject code that is not F, T or R and two digits
    BadCode,
    // field: bytes after the last field
    LeftOver,
    // address: no scheme and segments
    InvalidAddress,
    // calendar: no 17 digits of a date and a time
    InvalidInstant,
}

// The offset counts from the packet's type byte.
#[derive(Clone, Copy, Debug, PartialEq, Eq)]
pub struct Fault {
    pub layer: Layer,
    pub cause: Cause,
    pub offset: usize,
}
