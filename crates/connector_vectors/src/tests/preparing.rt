// What prepare refuses and rejects, each case with later reasons beside its own.
use super::peers::{Came, little_room, peers, prepare_bytes, prepared, room};
use calendar::LAST_INSTANT;
use condition::interface::ConditionHash;
use condition::practice::Practice;
use condition::sha256::Sha256;
use packet::reading::read_prepare;
use packet::value::Prepare;
use std::process::Abort;
use std::test::Fail;

// An account, a time, an amount, an expiry, a destination, and what it comes to, in turn on one connector.
const PREPARES: [(u8, u64, u64, u64, &'static [u8], Came); 15] = [
    (3, LAST_INSTANT + 1, 9999, 0, b"g.x", Came::Refused(2)),
    (0, LAST_INSTANT + 1, 9999, 0, b"g.x", Came::Refused(3)),
    (0, 5000, 9999, 5000, b"g.x", Came::Rejected(*b"R00")),
    // an earlier time does not take the connector's back
    (0, 4000, 9999, 5000, b"g.x", Came::Rejected(*b"R00")),
    (0, 5000, 9999, 5001, b"g.x", Came::Rejected(*b"F02")),
    (0, 5000, 9999, 5001, b"g.a.x", Came::Rejected(*b"F02")),
    (0, 5000, 1001, 5001, b"g.b", Came::Rejected(*b"T04")),
    (0, 5000, 601, 5001, b"g.b", Came::Rejected(*b"F08")),
    (0, 5000, 600, 6000, b"g.b", Came::Rejected(*b"R02")),
    (0, 5000, 600, 60_000, b"g.b", Came::Sent(1, 1)),
    (0, 5000, 401, 60_000, b"g.b", Came::Rejected(*b"T04")),
    (0, 5000, 400, 60_000, b"g.b", Came::Sent(2, 1)),
    // the other side: nothing more can be held out
    (2, 5000, 1, 60_000, b"g.b", Came::Rejected(*b"T04")),
    (2, 5000, 0, 60_000, b"g.b", Came::Sent(3, 1)),
    (2, 5000, 600, 60_000, b"g.a", Came::Sent(4, 0)),
];

fn check_prepares(
    rt: &(impl Abort + AllocGlobal),
    hash: impl ConditionHash + Copy,
) -> Result<(), Fail> {
    let mut peers = peers(rt.alloc(), hash)?;
    let mut buffer = room(rt.alloc())?;
    for (i, (account, time, amount, expiry, destination, came)) in PREPARES.iter().enumerate() {
        let bytes = prepare_bytes(rt.alloc(), &hash, *amount, *expiry, destination)?;
        let got = prepared(&mut peers, *account, *time, &bytes, &mut buffer);
        assert_eq!(rt; got, *came, "case {i}");
    }
    Ok(())
}

#[test]
fn refused_and_rejected_in_order(rt: HostRuntime) -> Result<(), Fail> {
    check_prepares(&rt, Sha256)?;
    check_prepares(&rt, Practice)
}

#[test]
fn room_first_and_readable_before_all_codes(rt: HostRuntime) -> Result<(), Fail> {
    let mut peers = peers(rt.alloc(), Practice)?;
    let mut buffer = room(rt.alloc())?;
    let mut little = little_room(rt.alloc())?;
    let got = prepared(&mut peers, 3, LAST_INSTANT + 1, b"junk", &mut little);
    assert_eq!(rt; got, Came::Refused(1));
    let got = prepared(&mut peers, 0, LAST_INSTANT, b"junk", &mut buffer);
    assert_eq!(rt; got, Came::Rejected(*b"F01"));
    Ok(())
}

// The packet as it goes on: the amount as the stack passes it, the expiry 30 seconds from now, and all else as it came.
#[test]
fn goes_on_as_passed(rt: HostRuntime) -> Result<(), Fail> {
    let mut peers = peers(rt.alloc(), Practice)?;
    let mut buffer = room(rt.alloc())?;
    let bytes = prepare_bytes(rt.alloc(), &Practice, 10, 60_000, b"g.b.c")?;
    let came = read_prepare(&bytes).map_err(|_| Fail::new("no Prepare"))?;
    assert_eq!(rt;
        prepared(&mut peers, 0, 5000, &bytes, &mut buffer),
        Came::Sent(1, 1)
    );
    let on = buffer.get(..bytes.len()).map(read_prepare);
    assert_eq!(rt;
        on,
        Some(Ok(Prepare {
            expiry: 35_000,
            ..came
        }))
    );
    Ok(())
}

// One more than may be pending.
#[test]
fn sixty_four_at_most(rt: HostRuntime) -> Result<(), Fail> {
    let mut peers = peers(rt.alloc(), Practice)?;
    let mut buffer = room(rt.alloc())?;
    let bytes = prepare_bytes(rt.alloc(), &Practice, 1, 60_000, b"g.b")?;
    for n in 1..65 {
        let got = prepared(&mut peers, 0, 5000, &bytes, &mut buffer);
        assert_eq!(rt; got, Came::Sent(n, 1));
    }
    // T03 goes before R00
    let got = prepared(&mut peers, 0, 60_000, &bytes, &mut buffer);
    assert_eq!(rt; got, Came::Rejected(*b"T03"));
    Ok(())
}
