// Fields that are there in full, and longer than they may be.
use crate::tests::packets::{PREPARE, REJECT};
use crate::tests::support::{check_fault, pattern};
use std::process::Abort;
use std::test::Fail;
use wire::fault::{Cause, Fault, Layer};

// The packet's front up to a field, and in that field's place `size` bytes behind their determinant. The content's own
// determinant takes two bytes more than it did.
fn check_too_long(
    rt: &(impl Abort + AllocGlobal),
    good: &[u8],
    at: usize,
    size: usize,
    name: &str,
) -> Result<(), Fail> {
    if at < 2 || at > good.len() || size > 60_000 {
        return Err(Fail::new("no field there"));
    }
    let content = at - 2 + 3 + size;
    if content > 65_535 {
        return Err(Fail::new("too long for a packet"));
    }
    let mut bytes = good[0..1].to_vec(rt.alloc())?;
    bytes.extend_from_slice(&[0x82, (content / 256) as u8, (content % 256) as u8])?;
    bytes.extend_from_slice(&good[2..at])?;
    bytes.extend_from_slice(&[0x82, (size / 256) as u8, (size % 256) as u8])?;
    bytes.extend_from_slice(&pattern(rt.alloc(), size)?)?;
    let fault = Fault {
        layer: Layer::Field,
        cause: Cause::TooLong,
        offset: at + 2,
    };
    check_fault(rt, &bytes, fault, &name);
    Ok(())
}

#[test]
fn fields_one_byte_too_long(rt: HostRuntime) -> Result<(), Fail> {
    check_too_long(&rt, PREPARE, 59, 1_024, "destination")?;
    check_too_long(&rt, PREPARE, 70, 32_768, "data of a Prepare")?;
    check_too_long(&rt, REJECT, 5, 1_024, "triggeredBy")?;
    check_too_long(&rt, REJECT, 16, 8_192, "message")?;
    check_too_long(&rt, REJECT, 26, 32_768, "data of a Reject")
}
