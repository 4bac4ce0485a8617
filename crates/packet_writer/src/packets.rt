// How each packet is written: its type byte, the length of its content, and its fields in their order.
ghost use Rattle.packet.specs.Values.{fulfill_of, packet_of, reject_of, fulfill, reject};
ghost use Rattle.packet.specs.Readers.{any_kind, answer_kind, prepare_kind, prepare_value};
ghost use Rattle.std.proofs.Common.{rules, refl};

use crate::encode::Encode;
use address::check::is_address;
use calendar::{LAST_INSTANT, write_timestamp};
use packet::kind::Kind;
use packet::value::{Fulfill, LONGEST_DATA, LONGEST_MESSAGE, Packet, Prepare, Reject};
use wire::code::is_code;
use wire::writer::Writer;
use wire::writing::field_size;

impl Encode for Prepare<'_> {
    ghost value = { prepare_value };

    ghost asked_by = { prepare_kind };

    ghost asked = { λ p. refl };

    fn fits(&self) -> bool {
        self.expiry <= LAST_INSTANT
            && self.condition.len() == 32
            && self.data.len() <= LONGEST_DATA
            && is_address(self.destination)
    }

    fn put(&self, out: &mut [u8]) -> usize {
        let Some(digits) = write_timestamp(self.expiry) else {
            unreachable!();
        };
        let content = 57 + field_size(self.destination.len()) + field_size(self.data.len());
        let mut writer = Writer::new(out);
        writer.put(&[Kind::Prepare.type_byte()]);
        writer.determinant(content);
        writer.put(&self.amount.to_be_bytes());
        writer.put(&digits);
        writer.put(self.condition);
        writer.field(self.destination);
        writer.field(self.data);
        writer.place()
    }
}

impl Encode for Fulfill<'_> {
    ghost value = { λ f. fulfill (fulfill_of f) };

    ghost asked_by = { answer_kind };

    ghost asked = { λ f. refl };

    fn fits(&self) -> bool {
        self.fulfilment.len() == 32 && self.data.len() <= LONGEST_DATA
    }

    fn put(&self, out: &mut [u8]) -> usize {
        let mut writer = Writer::new(out);
        writer.put(&[Kind::Fulfill.type_byte()]);
        writer.determinant(32 + field_size(self.data.len()));
        writer.put(self.fulfilment);
        writer.field(self.data);
        writer.place()
    }
}

impl Encode for Reject<'_> {
    ghost value = { λ r. reject (reject_of r) };

    ghost asked_by = { answer_kind };

    ghost asked = { λ r. refl };

    fn fits(&self) -> bool {
        self.message.len() <= LONGEST_MESSAGE
            && self.data.len() <= LONGEST_DATA
            && is_code(self.code)
            && (self.triggered_by.is_empty() || is_address(self.triggered_by))
    }

    fn put(&self, out: &mut [u8]) -> usize {
        let content = 3
            + field_size(self.triggered_by.len())
            + field_size(self.message.len())
            + field_size(self.data.len());
        let mut writer = Writer::new(out);
        writer.put(&[Kind::Reject.type_byte()]);
        writer.determinant(content);
        writer.put(self.code);
        writer.field(self.triggered_by);
        writer.field(self.message);
        writer.field(self.data);
        writer.place()
    }
}

impl Encode for Packet<'_> {
    ghost value = { packet_of };

    ghost asked_by = { any_kind };

    ghost asked = { λ p. refl };

    fn fits(&self) -> bool {
        match self {
            Packet::Prepare(p) => p.fits(),
            Packet::Fulfill(f) => f.fits(),
            Packet::Reject(r) => r.fits(),
        }
    }

    fn put(&self, out: &mut [u8]) -> usize {
        match self {
            Packet::Prepare(p) => p.put(out),
            Packet::Fulfill(f) => f.put(out),
            Packet::Reject(r) => r.put(out),
        }
    }
}
