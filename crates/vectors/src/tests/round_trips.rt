// What is written is read again, at the edges of the determinant and at the greatest lengths; and a writer leaves the rest
// of its buffer alone.
use crate::tests::packets::{CONDITION, FULFILMENT};
use crate::tests::support::{ROOM, check_read, pattern};
use packet::value::{Fulfill, Packet, Prepare, Reject};
use packet_writer::writing::write_packet;
use std::alloc::Global;
use std::fmt::Display;
use std::process::Abort;
use std::test::Fail;

// Written as a packet of its own kind, which is what it is written as as a packet of any kind.
fn write_by_kind(out: &mut [u8], packet: &Packet<'_>) -> Option<usize> {
    let written = match packet {
        Packet::Prepare(p) => write_packet(out, p),
        Packet::Fulfill(f) => write_packet(out, f),
        Packet::Reject(r) => write_packet(out, r),
    };
    written.ok()
}

// Both writers write these bytes, and nothing behind them.
pub(crate) fn check_written(
    rt: &(impl Abort + AllocGlobal),
    packet: &Packet<'_>,
    expected: &[u8],
    name: &str,
) -> Result<(), Fail> {
    let before = pattern(rt.alloc(), ROOM)?;
    let mut out = pattern(rt.alloc(), ROOM)?;
    let Ok(n) = write_packet(&mut out, packet) else {
        panic!(rt; "{name}: not written");
    };
    check_front(rt, &before, &out, n, expected, name);
    let mut again = pattern(rt.alloc(), ROOM)?;
    assert_eq!(rt; write_by_kind(&mut again, packet), Some(n), "{name}");
    assert!(rt;
        again.as_slice() == out.as_slice(),
        "{name}: the two writers differ"
    );
    Ok(())
}

fn check_front(rt: &impl Abort, before: &[u8], out: &[u8], n: usize, expected: &[u8], name: &str) {
    assert!(rt; n <= out.len() && n <= before.len(), "{name}");
    assert!(rt; &out[0..n] == expected, "{name}: other bytes");
    assert!(rt;
        &out[n..] == &before[n..],
        "{name}: bytes behind the packet changed"
    );
}

// The packet is written in this many bytes, which are read as the packet again.
fn check_round_trip(
    rt: &(impl Abort + AllocGlobal),
    packet: &Packet<'_>,
    size: usize,
    name: &impl Display,
) -> Result<(), Fail> {
    let before = pattern(rt.alloc(), ROOM)?;
    let mut out = pattern(rt.alloc(), ROOM)?;
    let Ok(n) = write_packet(&mut out, packet) else {
        panic!(rt; "{name}: not written");
    };
    assert_eq!(rt; n, size, "{name}");
    assert!(rt; n <= out.len() && n <= before.len(), "{name}");
    check_read(rt, &out[0..n], packet, &format_args!("{name}: read again"));
    assert!(rt;
        &out[n..] == &before[n..],
        "{name}: bytes behind the packet changed"
    );
    Ok(())
}

// A length of data, how many bytes it takes with its determinant, and the sizes of a Prepare, a Fulfill and a Reject with
// it: the other fields take 68, 32 and 24 bytes, and the type byte and the content's determinant come on top.
const EDGES: [(usize, usize, usize, usize); 6] = [
    (0, 1 + 1 + 69, 1 + 1 + 33, 1 + 1 + 25),
    (127, 1 + 2 + 68 + 128, 1 + 2 + 32 + 128, 1 + 2 + 24 + 128),
    (128, 1 + 2 + 68 + 130, 1 + 2 + 32 + 130, 1 + 2 + 24 + 130),
    (255, 1 + 3 + 68 + 257, 1 + 3 + 32 + 257, 1 + 3 + 24 + 257),
    (256, 1 + 3 + 68 + 259, 1 + 3 + 32 + 259, 1 + 3 + 24 + 259),
    (
        32_767,
        1 + 3 + 68 + 32_770,
        1 + 3 + 32 + 32_770,
        1 + 3 + 24 + 32_770,
    ),
];

fn check_prepare_trip<'a>(
    rt: &(impl Abort + AllocGlobal),
    destination: &'a [u8],
    data: &'a [u8],
    size: usize,
) -> Result<(), Fail> {
    let prepare = Prepare {
        amount: u64::MAX,
        expiry: 253_402_300_799_999,
        condition: CONDITION,
        destination,
        data,
    };
    let length = data.len();
    let name = format_args!("{length}: Prepare");
    check_round_trip(rt, &Packet::Prepare(prepare), size, &name)
}

fn check_fulfill_trip<'a>(
    rt: &(impl Abort + AllocGlobal),
    data: &'a [u8],
    size: usize,
) -> Result<(), Fail> {
    let fulfill = Fulfill {
        fulfilment: FULFILMENT,
        data,
    };
    let length = data.len();
    let name = format_args!("{length}: Fulfill");
    check_round_trip(rt, &Packet::Fulfill(fulfill), size, &name)
}

fn check_reject_trip<'a>(
    rt: &(impl Abort + AllocGlobal),
    triggered_by: &'a [u8],
    message: &'a [u8],
    data: &'a [u8],
    size: usize,
) -> Result<(), Fail> {
    let reject = Reject {
        code: b"T99",
        triggered_by,
        message,
        data,
    };
    let length = data.len();
    let name = format_args!("{length}: Reject");
    check_round_trip(rt, &Packet::Reject(reject), size, &name)
}

#[test]
fn data_at_the_edges_of_the_determinant(rt: HostRuntime) -> Result<(), Fail> {
    for (length, of_prepare, of_fulfill, of_reject) in &EDGES {
        let data = pattern(rt.alloc(), *length)?;
        check_prepare_trip(&rt, b"g.eu.alice", &data, *of_prepare)?;
        check_fulfill_trip(&rt, &data, *of_fulfill)?;
        check_reject_trip(&rt, b"test.hub-1", b"no route!", &data, *of_reject)?;
    }
    Ok(())
}

// A scheme and one segment of 1,021 letters.
pub(crate) fn longest_address(heap: Global) -> Result<Vec<u8>, Fail> {
    let mut address = b"g.".to_vec(heap)?;
    address.resize(1_023, b'z')?;
    Ok(address)
}

// A Prepare has at most 1 + 3 bytes before its content of 8 + 17 + 32 + (3 + 1,023) + (3 + 32,767): 33,857 in all. A Reject
// has at most 1 + 3 before 3 + (3 + 1,023) + (3 + 8,191) + (3 + 32,767): 41,997 in all, and no packet is longer.
#[test]
fn the_longest_packets(rt: HostRuntime) -> Result<(), Fail> {
    let address = longest_address(rt.alloc())?;
    let message = pattern(rt.alloc(), 8_191)?;
    let data = pattern(rt.alloc(), 32_767)?;
    check_prepare_trip(&rt, &address, &data, 33_857)?;
    check_reject_trip(&rt, &address, &message, &data, 41_997)
}
