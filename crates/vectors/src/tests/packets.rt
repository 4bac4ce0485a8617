// Three packets, byte by byte, and what they are to be read as.
use packet::value::{Fulfill, Prepare, Reject};

// Type 0C and 74 bytes of content: the amount at 2, the expiry at 10, the condition at 27, the destination's determinant
// at 59 and the data's at 70; the packet ends at 76.
pub(crate) const PREPARE: &[u8] = b"\x0C\x4A\
\x01\x02\x03\x04\x05\x06\x07\x08\
20300615123456789\
\x63\x0D\xCD\x29\x66\xC4\x33\x66\x91\x12\x54\x48\xBB\xB2\x5B\x4F\
\xF4\x12\xA4\x9C\x73\x2D\xB2\xC8\xAB\xC1\xB8\x58\x1B\xD7\x10\xDD\
\x0Ag.eu.alice\
\x05hello";

// the SHA-256 of the fulfilment below
pub(crate) const CONDITION: &[u8] =
    b"\x63\x0D\xCD\x29\x66\xC4\x33\x66\x91\x12\x54\x48\xBB\xB2\x5B\x4F\
\xF4\x12\xA4\x9C\x73\x2D\xB2\xC8\xAB\xC1\xB8\x58\x1B\xD7\x10\xDD";

pub(crate) const READ_PREPARE: Prepare<'static> = Prepare {
    amount: 0x0102_0304_0506_0708,
    // 2030-06-15 12:34:56.789
    expiry: 1_907_757_296_789,
    condition: CONDITION,
    destination: b"g.eu.alice",
    data: b"hello",
};

// Type 0D and 38 bytes of content: the fulfilment at 2 and the data's determinant at 34; the packet ends at 40.
pub(crate) const FULFILL: &[u8] = b"\x0D\x26\
\x00\x01\x02\x03\x04\x05\x06\x07\x08\x09\x0A\x0B\x0C\x0D\x0E\x0F\
\x10\x11\x12\x13\x14\x15\x16\x17\x18\x19\x1A\x1B\x1C\x1D\x1E\x1F\
\x05thank";

pub(crate) const FULFILMENT: &[u8] =
    b"\x00\x01\x02\x03\x04\x05\x06\x07\x08\x09\x0A\x0B\x0C\x0D\x0E\x0F\
\x10\x11\x12\x13\x14\x15\x16\x17\x18\x19\x1A\x1B\x1C\x1D\x1E\x1F";

pub(crate) const READ_FULFILL: Fulfill<'static> = Fulfill {
    fulfilment: FULFILMENT,
    data: b"thank",
};

// Type 0E and 29 bytes of content: the code at 2, the determinants of triggeredBy at 5, of the message at 16 and of the
// data at 26; the packet ends at 31.
pub(crate) const REJECT: &[u8] = b"\x0E\x1D\
F02\
\x0Atest.hub-1\
\x09no route!\
\x04\xDE\xAD\xBE\xEF";

pub(crate) const READ_REJECT: Reject<'static> = Reject {
    code: b"F02",
    triggered_by: b"test.hub-1",
    message: b"no route!",
    data: b"\xDE\xAD\xBE\xEF",
};
