// Addresses and route prefixes, valid and not.
use crate::tests::round_trips::longest_address;
use address::check::{is_address, is_prefix};
use std::test::Fail;

// Each of the ten schemes, and the bytes at the ends of what a segment may have.
const ADDRESSES: [&'static [u8]; 14] = [
    b"g.a",
    b"private.a",
    b"example.a",
    b"peer.a",
    b"self.a",
    b"test.a",
    b"test1.a",
    b"test2.a",
    b"test3.a",
    b"local.a",
    b"g.AZaz09_~-",
    b"g.eu.alice.~ipr.0042",
    b"g.g.g.g",
    b"test.test",
];

const NEITHER: [&'static [u8]; 18] = [
    b".", b".a", b"g.", b"g..", b"g..a", b"g.a.", b"h.a", b"G.a", b"gg.a", b"tes.a", b"test4.a",
    b"Test.a", b"g a.b", b"g.a b", b"g.a@b", b"g.[", b"g.`", b"g.\x80",
];

// A prefix need not have a segment, and may be empty.
const PREFIXES_ONLY: [&'static [u8]; 4] = [b"", b"g", b"test1", b"private"];

#[test]
fn addresses_and_prefixes(rt: HostRuntime) {
    for (i, bytes) in ADDRESSES.iter().enumerate() {
        assert!(rt; is_address(bytes) && is_prefix(bytes), "{i}");
    }
    for (i, bytes) in NEITHER.iter().enumerate() {
        assert!(rt; !is_address(bytes) && !is_prefix(bytes), "{i}");
    }
    for (i, bytes) in PREFIXES_ONLY.iter().enumerate() {
        assert!(rt; !is_address(bytes) && is_prefix(bytes), "{i}");
    }
}

#[test]
fn the_longest_address(rt: HostRuntime) -> Result<(), Fail> {
    let mut bytes = longest_address(rt.alloc())?;
    assert_eq!(rt; bytes.len(), 1_023);
    assert!(rt; is_address(&bytes));
    bytes.push(b'z')?;
    assert!(rt; !is_address(&bytes), "1,024 bytes");
    Ok(())
}
