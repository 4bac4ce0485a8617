// Each packet damaged in each field. What any field's determinant may have wrong is in determinants.rt.
// A table's row is short where it can be, so that a case is a line.
use crate::tests::packets::{FULFILL, PREPARE, REJECT};
use crate::tests::support::check_fault;
use std::alloc::AllocError;
use std::fmt::Display;
use std::process::Abort;
use std::test::Fail;
use wire::fault::Cause::{BadCode, CutShort, InvalidAddress, InvalidInstant, LeftOver, TooLong};
use wire::fault::Layer::{Address, Calendar, Field};
use wire::fault::{Cause, Fault, Layer};

// The name of the case; from where, up to where and by which bytes the good packet is replaced, counted from its type byte;
// and the fault that is expected: its layer, its cause and its offset.
type Damage = (
    &'static str,
    usize,
    usize,
    &'static [u8],
    Layer,
    Cause,
    usize,
);

// The good packet with a part replaced, and with its length made right again.
pub(crate) fn damaged(
    rt: &(impl Abort + AllocGlobal),
    good: &[u8],
    from: usize,
    to: usize,
    with: &[u8],
    name: &impl Display,
) -> Result<Vec<u8>, AllocError> {
    assert!(rt;
        2 <= from && from <= to && to <= good.len(),
        "{name}: the part does not lie in the content"
    );
    let mut bytes = good[0..from].to_vec(rt.alloc())?;
    bytes.extend_from_slice(with)?;
    bytes.extend_from_slice(&good[to..])?;
    let n = bytes.len();
    assert!(rt;
        2 <= n && n <= 129,
        "{name}: the packet is too long for a determinant of one byte"
    );
    bytes[1] = (n - 2) as u8;
    Ok(bytes)
}

fn check_damages(
    rt: &(impl Abort + AllocGlobal),
    good: &[u8],
    cases: &[Damage],
    packet: &str,
) -> Result<(), AllocError> {
    for (name, from, to, with, layer, cause, offset) in cases {
        let name = format_args!("{packet}: {name}");
        let bytes = damaged(rt, good, *from, *to, with, &name)?;
        let fault = Fault {
            layer: *layer,
            cause: *cause,
            offset: *offset,
        };
        check_fault(rt, &bytes, fault, &name);
    }
    Ok(())
}

// A Prepare that ends early, has too much, or is too long by a determinant.
const PREPARE_LENGTHS: [Damage; 16] = [
    ("no amount", 2, 76, b"", Field, CutShort, 2),
    ("seven of amount", 9, 76, b"", Field, CutShort, 2),
    ("no expiry", 10, 76, b"", Field, CutShort, 10),
    ("16 digits", 26, 76, b"", Field, CutShort, 10),
    ("no condition", 27, 76, b"", Field, CutShort, 27),
    ("31 of condition", 58, 76, b"", Field, CutShort, 27),
    ("no destination", 59, 76, b"", Field, CutShort, 59),
    ("determinant only", 60, 76, b"", Field, CutShort, 59),
    ("destination cut", 69, 76, b"", Field, CutShort, 59),
    ("1,023", 59, 60, b"\x82\x03\xFF", Field, CutShort, 59),
    ("1,024", 59, 60, b"\x82\x04\x00", Field, TooLong, 59),
    ("no data", 70, 76, b"", Field, CutShort, 70),
    ("data cut", 75, 76, b"", Field, CutShort, 70),
    ("32,768", 70, 71, b"\x82\x80\x00", Field, TooLong, 70),
    ("a byte more", 76, 76, b"\x00", Field, LeftOver, 76),
    ("data one less", 70, 71, b"\x04", Field, LeftOver, 75),
];

const FULFILL_LENGTHS: [Damage; 9] = [
    ("no fulfilment", 2, 40, b"", Field, CutShort, 2),
    ("one byte of it", 3, 40, b"", Field, CutShort, 2),
    ("31 bytes of it", 33, 40, b"", Field, CutShort, 2),
    ("no data", 34, 40, b"", Field, CutShort, 34),
    ("data cut", 39, 40, b"", Field, CutShort, 34),
    ("32,767", 34, 35, b"\x82\x7F\xFF", Field, CutShort, 34),
    ("32,768", 34, 35, b"\x82\x80\x00", Field, TooLong, 34),
    ("a byte more", 40, 40, b"\x00", Field, LeftOver, 40),
    ("empty data", 34, 35, b"\x00", Field, LeftOver, 35),
];

const REJECT_LENGTHS: [Damage; 14] = [
    ("no code", 2, 31, b"", Field, CutShort, 2),
    ("two of the code", 4, 31, b"", Field, CutShort, 2),
    ("no triggeredBy", 5, 31, b"", Field, CutShort, 5),
    ("triggeredBy cut", 15, 31, b"", Field, CutShort, 5),
    ("1,024", 5, 6, b"\x82\x04\x00", Field, TooLong, 5),
    ("no message", 16, 31, b"", Field, CutShort, 16),
    ("message cut", 25, 31, b"", Field, CutShort, 16),
    ("8,191", 16, 17, b"\x82\x1F\xFF", Field, CutShort, 16),
    ("8,192", 16, 17, b"\x82\x20\x00", Field, TooLong, 16),
    ("no data", 26, 31, b"", Field, CutShort, 26),
    ("data cut", 30, 31, b"", Field, CutShort, 26),
    ("32,768", 26, 27, b"\x82\x80\x00", Field, TooLong, 26),
    ("a byte more", 31, 31, b"\xFF", Field, LeftOver, 31),
    ("data two less", 26, 27, b"\x02", Field, LeftOver, 29),
];

#[test]
fn packets_of_a_wrong_length(rt: HostRuntime) -> Result<(), Fail> {
    check_damages(&rt, PREPARE, &PREPARE_LENGTHS, "Prepare")?;
    check_damages(&rt, FULFILL, &FULFILL_LENGTHS, "Fulfill")?;
    check_damages(&rt, REJECT, &REJECT_LENGTHS, "Reject")?;
    Ok(())
}

// A field in whose place these bytes are put one after another, each with the same fault; and again with nothing behind
// them, which is a second fault that must not be told.
#[derive(Clone, Copy)]
struct Place<'a> {
    packet: &'a [u8],
    from: usize,
    to: usize,
    fault: Fault,
}

fn check_meanings(
    rt: &(impl Abort + AllocGlobal),
    place: &Place<'_>,
    cases: &[&[u8]],
    field: &str,
) -> Result<(), AllocError> {
    let ends = [
        (place.to, "whole"),
        (place.packet.len(), "and nothing behind it"),
    ];
    for (i, bytes) in cases.iter().enumerate() {
        for (to, what) in &ends {
            let name = format_args!("{field}: {i}: {what}");
            let packet = damaged(rt, place.packet, place.from, *to, bytes, &name)?;
            check_fault(rt, &packet, place.fault, &name);
        }
    }
    Ok(())
}

// 2001-02-29, month 13, month 0, day 0, the 31st of June, hour 24, minute 60, second 60, a letter, and 1969
const NO_INSTANTS: [&'static [u8]; 10] = [
    b"20010229000000000",
    b"20301315123456789",
    b"20300015123456789",
    b"20300600123456789",
    b"20300631123456789",
    b"20300615243456789",
    b"20300615126056789",
    b"20300615123460789",
    b"2030061512345678O",
    b"19691231235959999",
];

// Behind their determinants: a scheme alone, a scheme and a dot, an empty segment inside and at the end, a blank, a byte
// above 127, an unknown scheme, another, and a scheme in capitals
const NO_ADDRESSES: [&'static [u8]; 9] = [
    b"\x01g",
    b"\x02g.",
    b"\x04g..a",
    b"\x04g.a.",
    b"\x05g.a b",
    b"\x04g.\xC3\xA9",
    b"\x03h.a",
    b"\x07test4.a",
    b"\x03G.a",
];

const NO_CODES: [&'static [u8]; 6] = [b"X00", b"F0A", b"f00", b"F/0", b"F:0", b"00F"];

fn field_at<'a>(packet: &'a [u8], from: usize, to: usize, layer: Layer, cause: Cause) -> Place<'a> {
    let fault = Fault {
        layer,
        cause,
        offset: from,
    };
    Place {
        packet,
        from,
        to,
        fault,
    }
}

#[test]
fn fields_that_mean_nothing(rt: HostRuntime) -> Result<(), Fail> {
    let expiry = field_at(PREPARE, 10, 27, Calendar, InvalidInstant);
    check_meanings(&rt, &expiry, &NO_INSTANTS, "expiry")?;
    let destination = field_at(PREPARE, 59, 70, Address, InvalidAddress);
    check_meanings(&rt, &destination, &NO_ADDRESSES, "destination")?;
    check_meanings(&rt, &destination, &[b"\x00"], "an empty destination")?;
    let code = field_at(REJECT, 2, 5, Layer::Field, BadCode);
    check_meanings(&rt, &code, &NO_CODES, "code")?;
    let triggered_by = field_at(REJECT, 5, 16, Address, InvalidAddress);
    check_meanings(&rt, &triggered_by, &NO_ADDRESSES, "triggeredBy")?;
    Ok(())
}
