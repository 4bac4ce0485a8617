// What the tests share.
use packet::reading::{read_answer, read_packet, read_prepare};
use packet::value::{Answer, Packet, Prepare};
use std::alloc::{AllocError, Global};
use std::fmt::Display;
use std::process::Abort;
use wire::fault::{Cause, Fault, Layer};

// How long a buffer the tests write into, more than the longest packet.
pub(crate) const ROOM: usize = 42_100;

pub(crate) const WRONG_TYPE: Fault = Fault {
    layer: Layer::Wrapper,
    cause: Cause::WrongType,
    offset: 0,
};

// Each of the three readers refuses the bytes: with the fault if it reads their kind, and else with a wrong type.
pub(crate) fn check_fault(rt: &impl Abort, bytes: &[u8], fault: Fault, name: &impl Display) {
    let (of_prepare, of_answer) = match bytes {
        [0x0C, ..] => (fault, WRONG_TYPE),
        [0x0D | 0x0E, ..] => (WRONG_TYPE, fault),
        _ => (fault, fault),
    };
    assert_eq!(rt; read_packet(bytes), Err(fault), "{name}");
    assert_eq!(rt; read_prepare(bytes), Err(of_prepare), "{name}");
    assert_eq!(rt; read_answer(bytes), Err(of_answer), "{name}");
}

// The reader of any packet, and that of the packet's kind, read the bytes as this packet; the other one refuses them.
pub(crate) fn check_read(
    rt: &impl Abort,
    bytes: &[u8],
    expected: &Packet<'_>,
    name: &impl Display,
) {
    let (prepare, answer): (Result<Prepare<'_>, Fault>, Result<Answer<'_>, Fault>) =
        match expected {
            Packet::Prepare(p) => (Ok(*p), Err(WRONG_TYPE)),
            Packet::Fulfill(f) => (Err(WRONG_TYPE), Ok(Answer::Fulfill(*f))),
            Packet::Reject(r) => (Err(WRONG_TYPE), Ok(Answer::Reject(*r))),
        };
    assert_eq!(rt; read_packet(bytes), Ok(*expected), "{name}: read_packet");
    assert_eq!(rt; read_prepare(bytes), prepare, "{name}: read_prepare");
    assert_eq!(rt; read_answer(bytes), answer, "{name}: read_answer");
}

// Bytes that differ from their neighbours, so that a byte out of place shows.
pub(crate) fn pattern(heap: Global, n: usize) -> Result<Vec<u8>, AllocError> {
    let mut bytes = Vec::new(heap);
    let mut next = 7u8;
    for _ in 0..n {
        bytes.push(next)?;
        next = next.wrapping_mul(5).wrapping_add(3);
    }
    Ok(bytes)
}
