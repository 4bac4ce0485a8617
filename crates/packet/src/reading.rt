// Reading a whole packet. A packet is a type byte, a determinant and exactly as many bytes of content as that says.
ghost use Rattle.std.specs.Prelude.{◌≡◌, IfOk};
ghost use Rattle.wire.specs.Reading.{at, standing, Reads};
ghost use Rattle.packet.specs.Values.{prepare_of, fulfill_of, reject_of, packet_of, answer_of};
ghost use Rattle.packet.specs.Encoding.{packet_bytes, WellFormed};
ghost use Rattle.packet.specs.Fields.{read_prepare, read_fulfill, read_reject};
ghost use Rattle.packet.specs.Readers.{read_kind, read_length, read_end, wholly, read_result, asked, read_as, any_kind, prepare_kind, answer_kind, valued, prepare_value};
ghost use Rattle.packet.specs.OneEncoding.{OneEncoding};

use crate::content::Content;
use crate::kind::Kind;
use crate::value::{Answer, Fulfill, Packet, Prepare, Reject};
use wire::fault::{Cause, Fault, Layer};
use wire::reader::Reader;

const WRONG_TYPE: Fault = Fault {
    layer: Layer::Wrapper,
    cause: Cause::WrongType,
    offset: 0,
};

fn kind(reader: &mut Reader<'_>) -> Result<Kind, Fault>
    ensures { Reads (λ k. k) result (read_kind (standing reader.old)) (standing reader.new) }
{
    let none = reader.fault(Layer::Wrapper, Cause::NoBytes);
    let wrong = reader.fault(Layer::Wrapper, Cause::WrongType);
    let [byte] = reader.array::<1>().or(Err(none))?;
    Kind::try_from(*byte).or(Err(wrong))
}

// The determinant of the content, which is to be as long as all that is left.
fn content_length(reader: &mut Reader<'_>) -> Result<(), Fault>
    ensures { Reads (λ u. u) result (read_length (standing reader.old)) (standing reader.new) }
{
    let wrong = reader.fault(Layer::Wrapper, Cause::WrongLength);
    let n = reader.determinant(Layer::Wrapper, Cause::CutDeterminant)?;
    if n != reader.left() {
        return Err(wrong);
    }
    Ok(())
}

fn end(reader: &Reader<'_>) -> Result<(), Fault>
    ensures { Reads (λ u. u) result (read_end (standing reader.now)) (standing reader.now) }
{
    if reader.left() > 0 {
        return Err(reader.fault(Layer::Field, Cause::LeftOver));
    }
    Ok(())
}

// A content behind its length, with nothing left over.
fn whole<'a, C: Content<'a>>(reader: &mut Reader<'a>) -> Result<C, Fault>
    ensures { Reads C.value result (wholly C.reading (standing reader.old)) (standing reader.new) }
{
    content_length(reader)?;
    let content = C::read(reader)?;
    end(reader)?;
    Ok(content)
}

fn parse_packet(bytes: &[u8]) -> Result<Packet<'_>, Fault>
    ensures { valued packet_of result ≡ read_result (asked any_kind (at 0 bytes.now)) }
{
    let mut reader = Reader::new(bytes);
    match kind(&mut reader)? {
        Kind::Prepare => Ok(Packet::Prepare(whole(&mut reader)?)),
        Kind::Fulfill => Ok(Packet::Fulfill(whole(&mut reader)?)),
        Kind::Reject => Ok(Packet::Reject(whole(&mut reader)?)),
    }
}

fn parse_prepare(bytes: &[u8]) -> Result<Prepare<'_>, Fault>
    ensures { valued prepare_value result ≡ read_result (asked prepare_kind (at 0 bytes.now)) }
{
    let mut reader = Reader::new(bytes);
    match kind(&mut reader)? {
        Kind::Prepare => whole(&mut reader),
        Kind::Fulfill | Kind::Reject => Err(WRONG_TYPE),
    }
}

fn parse_answer(bytes: &[u8]) -> Result<Answer<'_>, Fault>
    ensures { valued answer_of result ≡ read_result (asked answer_kind (at 0 bytes.now)) }
{
    let mut reader = Reader::new(bytes);
    match kind(&mut reader)? {
        Kind::Prepare => Err(WRONG_TYPE),
        Kind::Fulfill => Ok(Answer::Fulfill(whole(&mut reader)?)),
        Kind::Reject => Ok(Answer::Reject(whole(&mut reader)?)),
    }
}

// The three readers ask for different kinds and give different types, each in a line of its own.
// A packet of any kind, or the first fault.
pub fn read_packet(bytes: &[u8]) -> Result<Packet<'_>, Fault>
    ensures value { valued packet_of result ≡ read_as any_kind bytes.now }
    ensures encoding { IfOk result (λ p. bytes.now ≡ packet_bytes (packet_of p)) }
    ensures fits { IfOk result (λ p. WellFormed (packet_of p)) }
    ensures one_encoding { OneEncoding }
{
    parse_packet(bytes)
}

// A Prepare, or the first fault: a packet of another kind is of a wrong type.
pub fn read_prepare(bytes: &[u8]) -> Result<Prepare<'_>, Fault>
    ensures value { valued prepare_value result ≡ read_as prepare_kind bytes.now }
    ensures encoding { IfOk result (λ p. bytes.now ≡ packet_bytes (prepare_value p)) }
    ensures fits { IfOk result (λ p. WellFormed (prepare_value p)) }
    ensures one_encoding { OneEncoding }
{
    parse_prepare(bytes)
}

// A Fulfill or a Reject, or the first fault.
pub fn read_answer(bytes: &[u8]) -> Result<Answer<'_>, Fault>
    ensures value { valued answer_of result ≡ read_as answer_kind bytes.now }
    ensures encoding { IfOk result (λ p. bytes.now ≡ packet_bytes (answer_of p)) }
    ensures fits { IfOk result (λ p. WellFormed (answer_of p)) }
    ensures one_encoding { OneEncoding }
{
    parse_answer(bytes)
}
