// The three packets are read as what they are, and written as what they were.
use crate::tests::packets::{FULFILL, PREPARE, READ_FULFILL, READ_PREPARE, READ_REJECT, REJECT};
use crate::tests::round_trips::check_written;
use crate::tests::support::check_read;
use packet::value::{Packet, Reject};
use std::process::Abort;
use std::test::Fail;

fn check_example(
    rt: &(impl Abort + AllocGlobal),
    bytes: &[u8],
    packet: &Packet<'_>,
    name: &str,
) -> Result<(), Fail> {
    check_read(rt, bytes, packet, &name);
    check_written(rt, packet, bytes, name)
}

#[test]
fn packets_written_down_by_hand(rt: HostRuntime) -> Result<(), Fail> {
    check_example(&rt, PREPARE, &Packet::Prepare(READ_PREPARE), "Prepare")?;
    check_example(&rt, FULFILL, &Packet::Fulfill(READ_FULFILL), "Fulfill")?;
    check_example(&rt, REJECT, &Packet::Reject(READ_REJECT), "Reject")
}

// Nobody in particular rejects, with nothing to say.
const SHORTEST_REJECT: Reject<'static> = Reject {
    code: b"R99",
    triggered_by: b"",
    message: b"",
    data: b"",
};

#[test]
fn the_shortest_reject(rt: HostRuntime) -> Result<(), Fail> {
    check_example(
        &rt,
        b"\x0E\x06R99\x00\x00\x00",
        &Packet::Reject(SHORTEST_REJECT),
        "shortest Reject",
    )
}
