// The packets, whose parts are borrowed from the bytes that they were read from.

pub const LONGEST_DATA: usize = 32_767;

pub const LONGEST_MESSAGE: usize = 8_191;

// The expiry is an instant: milliseconds since 1970 began.
#[derive(Clone, Copy, Debug, PartialEq, Eq)]
pub struct Prepare<'a> {
    pub amount: u64,
    pub expiry: u64,
    pub condition: &'a [u8],
    pub destination: &'a [u8],
    pub data: &'a [u8],
}

#[derive(Clone, Copy, Debug, PartialEq, Eq)]
pub struct Fulfill<'a> {
    pub fulfilment: &'a [u8],
    pub data: &'a [u8],
}

// A code read may be any letter F, T or R with two digits, so it stays the three bytes that it is.
#[derive(Clone, Copy, Debug, PartialEq, Eq)]
pub struct Reject<'a> {
    pub code: &'a [u8],
    pub triggered_by: &'a [u8],
    pub message: &'a [u8],
    pub data: &'a [u8],
}

#[derive(Clone, Copy, Debug, PartialEq, Eq)]
pub enum Packet<'a> {
    Prepare(Prepare<'a>),
    Fulfill(Fulfill<'a>),
    Reject(Reject<'a>),
}

// What may come back for a Prepare. No Result, since a Reject is a packet as a Fulfill is.
#[derive(Clone, Copy, Debug, PartialEq, Eq)]
pub enum Answer<'a> {
    Fulfill(Fulfill<'a>),
    Reject(Reject<'a>),
}
