// The fields and the contents of packets. A reader goes over them in order, and the first fault ends it.
ghost use Rattle.std.specs.Prelude.{◌≡◌};
ghost use Rattle.wire.specs.Reading.{standing, Reads};
ghost use Rattle.packet.specs.Values.{PrepareValue, FulfillValue, RejectValue, prepare_of, fulfill_of, reject_of};
ghost use Rattle.packet.specs.Fields.{read_amount, read_expiry, read_code, read_destination, read_trigger, read_prepare, read_fulfill, read_reject};

use crate::content::Content;
use crate::value::{Fulfill, LONGEST_DATA, LONGEST_MESSAGE, Prepare, Reject};
use address::check::{MOST as LONGEST_ADDRESS, is_address};
use calendar::read_timestamp;
use wire::code::is_code;
use wire::fault::{Cause, Fault, Layer};
use wire::reader::Reader;

fn amount(reader: &mut Reader<'_>) -> Result<u64, Fault>
    ensures { Reads (λ n. n) result (read_amount (standing reader.old)) (standing reader.new) }
{
    let bytes = reader.array()?;
    Ok(u64::from_be_bytes(*bytes))
}

fn expiry(reader: &mut Reader<'_>) -> Result<u64, Fault>
    ensures { Reads (λ n. n) result (read_expiry (standing reader.old)) (standing reader.new) }
{
    let invalid = reader.fault(Layer::Calendar, Cause::InvalidInstant);
    let digits = reader.fixed(17)?;
    read_timestamp(digits).ok_or(invalid)
}

fn code<'a>(reader: &mut Reader<'a>) -> Result<&'a [u8], Fault>
    ensures { Reads (λ x. x.now) result (read_code (standing reader.old)) (standing reader.new) }
{
    let bad = reader.fault(Layer::Field, Cause::BadCode);
    let bytes = reader.fixed(3)?;
    is_code(bytes).then_some(bytes).ok_or(bad)
}

// This field and the next differ in their test: handed in as a closure, each would still be spelled by its caller.
fn destination<'a>(reader: &mut Reader<'a>) -> Result<&'a [u8], Fault>
    ensures { Reads (λ x. x.now) result (read_destination (standing reader.old)) (standing reader.new) }
{
    let invalid = reader.fault(Layer::Address, Cause::InvalidAddress);
    let bytes = reader.field(LONGEST_ADDRESS)?;
    is_address(bytes).then_some(bytes).ok_or(invalid)
}

// Who rejected: an address, or nothing.
fn triggered_by<'a>(reader: &mut Reader<'a>) -> Result<&'a [u8], Fault>
    ensures { Reads (λ x. x.now) result (read_trigger (standing reader.old)) (standing reader.new) }
{
    let invalid = reader.fault(Layer::Address, Cause::InvalidAddress);
    let bytes = reader.field(LONGEST_ADDRESS)?;
    let valid = bytes.is_empty() || is_address(bytes);
    valid.then_some(bytes).ok_or(invalid)
}

impl<'a> Content<'a> for Prepare<'a> {
    ghost Value = { PrepareValue };

    ghost value = { prepare_of };

    ghost reading = { read_prepare };

    fn read(reader: &mut Reader<'a>) -> Result<Self, Fault> {
        Ok(Prepare {
            amount: amount(reader)?,
            expiry: expiry(reader)?,
            condition: reader.fixed(32)?,
            destination: destination(reader)?,
            data: reader.field(LONGEST_DATA)?,
        })
    }
}

impl<'a> Content<'a> for Fulfill<'a> {
    ghost Value = { FulfillValue };

    ghost value = { fulfill_of };

    ghost reading = { read_fulfill };

    fn read(reader: &mut Reader<'a>) -> Result<Self, Fault> {
        Ok(Fulfill {
            fulfilment: reader.fixed(32)?,
            data: reader.field(LONGEST_DATA)?,
        })
    }
}

impl<'a> Content<'a> for Reject<'a> {
    ghost Value = { RejectValue };

    ghost value = { reject_of };

    ghost reading = { read_reject };

    fn read(reader: &mut Reader<'a>) -> Result<Self, Fault> {
        Ok(Reject {
            code: code(reader)?,
            triggered_by: triggered_by(reader)?,
            message: reader.field(LONGEST_MESSAGE)?,
            data: reader.field(LONGEST_DATA)?,
        })
    }
}
