// What is written into the buffer of a call, and how long it is. The buffer takes any packet, so nothing here is refused.
// That is asked, and no type of its own: a struct round a `&mut` would want a clause of each function that it stays over
// the same buffer, one for each that it saves.
ghost use Rattle.std.specs.Prelude.{◌≡◌, ◌≤◌, ◌++◌, length, if◌then◌else◌, codes};
ghost use Rattle.std.specs.Str.{bytes_eq};
ghost use Rattle.wire.specs.Codes.{code_bytes};
ghost use Rattle.wire.specs.Writing.{Written};
ghost use Rattle.packet.specs.Encoding.{amount_bytes, PrepareFits};
ghost use Rattle.packet.specs.Values.{prepare_of};
ghost use Rattle.protocol.specs.Calls.{room_needed};
ghost use Rattle.protocol.specs.Messages.{onward, forwarded_bytes, our_bytes};
ghost use Rattle.messages.specs.Own.{own_bytes};

use crate::own::OwnAddress;
use packet::value::{Prepare, Reject};
use packet_writer::writing::write_packet;
use stage::transfer::{Passed, Rejected};
use wire::code::RejectCode;
use wire::writer::Writer;

// The two numbers of a reject, 8 bytes each, the high one first.
fn two_numbers(first: u64, second: u64) -> [u8; 16]
    ensures { result ≡ amount_bytes first ++ amount_bytes second }
{
    let mut bytes = [0; 16];
    let mut writer = Writer::new(&mut bytes);
    writer.put(&first.to_be_bytes());
    writer.put(&second.to_be_bytes());
    bytes
}

// How much of the two numbers stands in a Reject as its data.
fn data_size(code: RejectCode) -> usize
    ensures { result ≡ (if bytes_eq (code_bytes code) (codes "F08") then 16 else 0) }
{
    match code {
        RejectCode::AmountTooLarge => 16,
        _ => 0,
    }
}

// A Reject of our own: our address, no message, and no data but the two numbers of F08.
pub fn write_our_reject(own: &OwnAddress, rejected: Rejected, buffer: &mut [u8]) -> usize
    requires { room_needed ≤ length buffer.old }
    ensures { Written buffer.old (our_bytes (own_bytes own.now) rejected.code rejected.first rejected.second) buffer.new result }
{
    let code = rejected.code.bytes();
    let numbers = two_numbers(rejected.first, rejected.second);
    let packet = Reject {
        code: &code,
        triggered_by: own.bytes(),
        message: &[],
        data: &numbers[..data_size(rejected.code)],
    };
    let Ok(n) = write_packet(buffer, &packet) else {
        unreachable!();
    };
    n
}

// A Prepare as it goes on: with the amount and the expiry that passed, and all else as it came.
#[tactic(auto, unfolding(protocol::specs::Messages::forwarded_bytes))]
pub fn write_onward(prepare: &Prepare<'_>, passed: Passed, buffer: &mut [u8]) -> usize
    requires room { room_needed ≤ length buffer.old }
    requires fits { PrepareFits (prepare_of prepare.now) }
    requires later { passed.expiry ≤ prepare.now.expiry }
    ensures { Written buffer.old (forwarded_bytes (onward (prepare_of prepare.now) passed.amount passed.expiry)) buffer.new result }
{
    let packet = Prepare {
        amount: passed.amount,
        expiry: passed.expiry,
        ..*prepare
    };
    let Ok(n) = write_packet(buffer, &packet) else {
        unreachable!();
    };
    n
}

// The peer's own bytes.
pub fn pass_on(bytes: &[u8], buffer: &mut [u8]) -> usize
    requires { length bytes.now ≤ length buffer.old }
    ensures { Written buffer.old bytes.now buffer.new result }
{
    let mut writer = Writer::new(buffer);
    writer.put(bytes);
    writer.place()
}
