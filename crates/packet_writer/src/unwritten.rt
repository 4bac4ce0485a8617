// Why a packet was not written. The buffer is then as it was.
#[derive(Clone, Copy, Debug, PartialEq, Eq)]
pub enum Unwritten {
    // the buffer is shorter than the longest packet
    ShortBuffer,
    // a field is longer than it may be, or is no code, address or instant
    NoEncoding,
}
