// What may be wrong with a field's determinant, at every field that has one.
use crate::tests::damage::damaged;
use crate::tests::packets::{FULFILL, PREPARE, REJECT};
use crate::tests::support::check_fault;
use std::alloc::AllocError;
use std::process::Abort;
use std::test::Fail;
use wire::fault::Cause::{BadDeterminant, CutShort, TooLong};
use wire::fault::Layer::Field;
use wire::fault::{Cause, Fault, Layer};

// The bytes that stand in the determinant's place, whether the packet ends after them, and the cause. The layer is always
// the field's, and the offset that of the determinant.
type Lead = (&'static str, &'static [u8], bool, Cause);

const LEADS: [Lead; 21] = [
    ("nothing", b"", true, CutShort),
    ("81 at the end", b"\x81", true, CutShort),
    ("82 at the end", b"\x82", true, CutShort),
    ("82 01 at the end", b"\x82\x01", true, CutShort),
    (
        "82 00 at the end, cut and not bad",
        b"\x82\x00",
        true,
        CutShort,
    ),
    ("80", b"\x80", false, BadDeterminant),
    ("80 at the end", b"\x80", true, BadDeterminant),
    ("83", b"\x83\x00\x00\x05", false, BadDeterminant),
    ("83 at the end", b"\x83", true, BadDeterminant),
    ("FF", b"\xFF", false, BadDeterminant),
    ("FF at the end", b"\xFF", true, BadDeterminant),
    ("0 in two bytes", b"\x81\x00", false, BadDeterminant),
    ("127 in two bytes", b"\x81\x7F", false, BadDeterminant),
    ("0 in three bytes", b"\x82\x00\x00", false, BadDeterminant),
    ("255 in three bytes", b"\x82\x00\xFF", false, BadDeterminant),
    (
        "255 in three bytes, at the end",
        b"\x82\x00\xFF",
        true,
        BadDeterminant,
    ),
    ("127, and fewer there", b"\x7F", false, CutShort),
    ("128, and fewer there", b"\x81\x80", false, CutShort),
    ("256, and fewer there", b"\x82\x01\x00", false, CutShort),
    ("65,535", b"\x82\xFF\xFF", false, TooLong),
    ("65,535 at the end", b"\x82\xFF\xFF", true, TooLong),
];

fn check_leads(
    rt: &(impl Abort + AllocGlobal),
    good: &[u8],
    at: usize,
    field: &str,
) -> Result<(), AllocError> {
    assert!(rt; at < good.len(), "{field}: no determinant there");
    for (name, bytes, ends, cause) in &LEADS {
        let to = if *ends { good.len() } else { at + 1 };
        let name = format_args!("{field}: {name}");
        let packet = damaged(rt, good, at, to, bytes, &name)?;
        let fault = Fault {
            layer: Field,
            cause: *cause,
            offset: at,
        };
        check_fault(rt, &packet, fault, &name);
    }
    Ok(())
}

#[test]
fn wrong_determinants_in_a_prepare(rt: HostRuntime) -> Result<(), Fail> {
    check_leads(&rt, PREPARE, 59, "destination")?;
    check_leads(&rt, PREPARE, 70, "data")?;
    Ok(())
}

#[test]
fn wrong_determinants_in_a_fulfill(rt: HostRuntime) -> Result<(), Fail> {
    check_leads(&rt, FULFILL, 34, "data")?;
    Ok(())
}

#[test]
fn wrong_determinants_in_a_reject(rt: HostRuntime) -> Result<(), Fail> {
    check_leads(&rt, REJECT, 5, "triggeredBy")?;
    check_leads(&rt, REJECT, 16, "message")?;
    check_leads(&rt, REJECT, 26, "data")?;
    Ok(())
}
