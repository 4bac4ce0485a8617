// Writing a packet into a buffer that the caller lends.
ghost use Rattle.std.specs.Prelude.{◌≡◌, take, IfOk, Ok};
ghost use Rattle.packet.specs.Readers.{read_as};
ghost use Rattle.packet_writer.specs.Writers.{Writes};

use crate::encode::Encode;
use crate::unwritten::Unwritten;

// A buffer this long takes any packet.
pub const LONGEST_PACKET: usize = 41_997;

// The packet's encoding in front of the buffer, and how long it is. Its reader reads it as the packet again.
pub fn write_packet<P: Encode>(out: &mut [u8], packet: &P) -> Result<usize, Unwritten>
    ensures writes { Writes (P.value packet.now) out.old out.new result }
    ensures back { IfOk result (λ n. read_as P.asked_by (take n out.new) ≡ Ok (P.value packet.now)) }
{
    if out.len() < LONGEST_PACKET {
        return Err(Unwritten::ShortBuffer);
    }
    if !packet.fits() {
        return Err(Unwritten::NoEncoding);
    }
    Ok(packet.put(out))
}
