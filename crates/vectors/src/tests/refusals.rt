// When a writer refuses, and that the buffer is then as it was.
use crate::tests::packets::{CONDITION, FULFILMENT, READ_FULFILL, READ_PREPARE, READ_REJECT};
use crate::tests::round_trips::longest_address;
use crate::tests::support::pattern;
use packet::value::{Fulfill, Packet, Prepare, Reject};
use packet_writer::unwritten::Unwritten;
use packet_writer::writing::write_packet;
use std::process::Abort;
use std::test::Fail;

fn check_refused(
    rt: &(impl Abort + AllocGlobal),
    size: usize,
    packet: &Packet<'_>,
    why: Unwritten,
    name: &str,
) -> Result<(), Fail> {
    let before = pattern(rt.alloc(), size)?;
    let mut out = pattern(rt.alloc(), size)?;
    assert_eq!(rt; write_packet(&mut out, packet), Err(why), "{name}");
    assert!(rt; out.as_slice() == before.as_slice(), "{name}");
    Ok(())
}

fn check_no_encoding(
    rt: &(impl Abort + AllocGlobal),
    packet: &Packet<'_>,
    name: &str,
) -> Result<(), Fail> {
    check_refused(rt, 41_997, packet, Unwritten::NoEncoding, name)?;
    check_refused(rt, 41_996, packet, Unwritten::ShortBuffer, name)
}

#[test]
fn a_buffer_one_byte_too_short(rt: HostRuntime) -> Result<(), Fail> {
    check_refused(
        &rt,
        41_996,
        &Packet::Prepare(READ_PREPARE),
        Unwritten::ShortBuffer,
        "Prepare",
    )?;
    check_refused(
        &rt,
        41_996,
        &Packet::Fulfill(READ_FULFILL),
        Unwritten::ShortBuffer,
        "Fulfill",
    )?;
    check_refused(
        &rt,
        0,
        &Packet::Reject(READ_REJECT),
        Unwritten::ShortBuffer,
        "Reject",
    )
}

fn check_prepare<'a>(
    rt: &(impl Abort + AllocGlobal),
    expiry: u64,
    destination: &'a [u8],
    condition: &'a [u8],
    data: &'a [u8],
    name: &str,
) -> Result<(), Fail> {
    let prepare = Prepare {
        amount: 1,
        expiry,
        condition,
        destination,
        data,
    };
    check_no_encoding(rt, &Packet::Prepare(prepare), name)
}

fn check_fulfill<'a>(
    rt: &(impl Abort + AllocGlobal),
    fulfilment: &'a [u8],
    data: &'a [u8],
    name: &str,
) -> Result<(), Fail> {
    let fulfill = Fulfill { fulfilment, data };
    check_no_encoding(rt, &Packet::Fulfill(fulfill), name)
}

fn check_reject<'a>(
    rt: &(impl Abort + AllocGlobal),
    code: &'a [u8],
    triggered_by: &'a [u8],
    message: &'a [u8],
    name: &str,
) -> Result<(), Fail> {
    let reject = Reject {
        code,
        triggered_by,
        message,
        data: b"",
    };
    check_no_encoding(rt, &Packet::Reject(reject), name)
}

#[test]
fn prepares_with_no_encoding(rt: HostRuntime) -> Result<(), Fail> {
    let long = pattern(rt.alloc(), 32_768)?;
    assert!(rt; long.len() == 32_768);
    check_prepare(
        &rt,
        253_402_300_800_000,
        b"g.a",
        CONDITION,
        b"",
        "the year 10000",
    )?;
    check_prepare(&rt, 0, b"g.a", &long[0..31], b"", "a condition of 31 bytes")?;
    check_prepare(&rt, 0, b"g", CONDITION, b"", "no destination")?;
    check_prepare(&rt, 0, b"g.a", CONDITION, &long, "data of 32,768 bytes")
}

#[test]
fn answers_with_no_encoding(rt: HostRuntime) -> Result<(), Fail> {
    let long = pattern(rt.alloc(), 32_768)?;
    assert!(rt; long.len() == 32_768);
    check_fulfill(&rt, &long[0..33], b"", "a fulfilment of 33 bytes")?;
    check_fulfill(&rt, FULFILMENT, &long, "data of 32,768 bytes")?;
    check_reject(&rt, b"X00", b"", b"", "code X00")?;
    check_reject(
        &rt,
        b"F00",
        b"",
        &long[0..8_192],
        "a message of 8,192 bytes",
    )?;
    let mut by = longest_address(rt.alloc())?;
    by.push(b'z')?;
    check_reject(&rt, b"F00", &by, b"", "triggeredBy of 1,024 bytes")
}
