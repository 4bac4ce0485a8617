// What stands in a packet behind its type byte and its length.
ghost use Rattle.wire.specs.Reading.{At, Read, Reads, standing};

use wire::fault::Fault;
use wire::reader::Reader;

pub(crate) trait Content<'a>: Drop {
    // What contents of this kind stand for: numbers and lists of bytes.
    ghost Value: { Type 0 };

    ghost value: { Self → Value };

    // What a reading of one gives.
    ghost reading: { At → Read Value };

    // The fields in their order; the first fault ends it.
    fn read(reader: &mut Reader<'a>) -> Result<Self, Fault>
        ensures { Reads value result (reading (standing reader.old)) (standing reader.new) };
}
