// Faults of the type byte and of the content's length.
use crate::tests::packets::{FULFILL, PREPARE, REJECT};
use crate::tests::support::{WRONG_TYPE, check_fault};
use std::alloc::AllocError;
use std::process::Abort;
use std::test::Fail;
use wire::fault::Cause::{BadDeterminant, CutDeterminant, WrongLength};
use wire::fault::{Cause, Fault, Layer};

// The bytes after the type byte, and the cause of the fault, which is the wrapper's and told at 1.
type Wrapped = (&'static str, &'static [u8], Cause);

const WRAPPED: [Wrapped; 3] = [
    ("80", b"\x80", BadDeterminant),
    ("83", b"\x83", BadDeterminant),
    ("FF", b"\xFF", BadDeterminant),
];

fn at_one(cause: Cause) -> Fault {
    Fault {
        layer: Layer::Wrapper,
        cause,
        offset: 1,
    }
}

fn check_wrapped(
    rt: &(impl Abort + AllocGlobal),
    kind: u8,
    packet: &str,
) -> Result<(), AllocError> {
    for (name, rest, cause) in &WRAPPED {
        let mut bytes = Vec::new(rt.alloc());
        bytes.push(kind)?;
        bytes.extend_from_slice(rest)?;
        check_fault(
            rt,
            &bytes,
            at_one(*cause),
            &format_args!("{packet}: {name}"),
        );
    }
    let mut bytes = Vec::new(rt.alloc());
    bytes.push(kind)?;
    bytes.push(0)?;
    let missing = Fault {
        layer: Layer::Field,
        cause: Cause::CutShort,
        offset: 2,
    };
    check_fault(rt, &bytes, missing, &format_args!("{packet}: no content"));
    Ok(())
}

#[test]
fn wrong_determinants_of_a_packet(rt: HostRuntime) -> Result<(), Fail> {
    check_wrapped(&rt, 0x0C, "Prepare")?;
    check_wrapped(&rt, 0x0D, "Fulfill")?;
    check_wrapped(&rt, 0x0E, "Reject")?;
    Ok(())
}

#[test]
fn no_bytes_and_wrong_types(rt: HostRuntime) -> Result<(), Fail> {
    let none = Fault {
        layer: Layer::Wrapper,
        cause: Cause::NoBytes,
        offset: 0,
    };
    check_fault(&rt, b"", none, &"no bytes");
    let mut bytes = FULFILL.to_vec(rt.alloc())?;
    for kind in 0..=255u8 {
        if !matches!(kind, 0x0C..=0x0E) {
            let alone = format_args!("{kind}: a wrong type alone");
            check_fault(&rt, &[kind], WRONG_TYPE, &alone);
            assert!(rt; bytes.len() > 0);
            bytes[0] = kind;
            let before = format_args!("{kind}: a wrong type before a Fulfill's content");
            check_fault(&rt, &bytes, WRONG_TYPE, &before);
        }
    }
    Ok(())
}

// The packet cut after each of its bytes but the last, and with a byte more, its determinant as it was.
fn check_cut_anywhere(
    rt: &(impl Abort + AllocGlobal),
    good: &[u8],
    packet: &str,
) -> Result<(), AllocError> {
    for n in 1..good.len() {
        let cause = if n == 1 {
            Cause::CutDeterminant
        } else {
            Cause::WrongLength
        };
        let name = format_args!("{packet}: {n}: a packet cut");
        check_fault(rt, &good[0..n], at_one(cause), &name);
    }
    let mut bytes = good.to_vec(rt.alloc())?;
    bytes.push(0)?;
    let name = format_args!("{packet}: a byte too many");
    check_fault(rt, &bytes, at_one(Cause::WrongLength), &name);
    Ok(())
}

#[test]
fn packets_cut_anywhere(rt: HostRuntime) -> Result<(), Fail> {
    check_cut_anywhere(&rt, PREPARE, "Prepare")?;
    check_cut_anywhere(&rt, FULFILL, "Fulfill")?;
    check_cut_anywhere(&rt, REJECT, "Reject")?;
    Ok(())
}
