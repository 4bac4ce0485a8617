// The statement of one packet: its kind and every field, or the first fault; and the packet written again.
use crate::passage::pass_through;
use crate::words::{Ascii, Expiry, Hex, Measured};
use condition::sha256::digest;
use packet::reading::read_packet;
use packet::value::{Fulfill, Packet, Prepare, Reject};
use packet_writer::writing::{LONGEST_PACKET, write_packet};
use std::alloc::{AllocError, Global};
use std::fmt;
use wire::code::RejectCode;
use wire::compare::same_bytes;

// How many bytes of a packet written again stand in one line.
const LINE: usize = 32;

pub(crate) fn statement(heap: Global, input: &[u8]) -> Result<String, AllocError> {
    match read_packet(input) {
        Ok(packet) => {
            let mut out = vec![in heap; 0u8; LONGEST_PACKET]?;
            let Ok(n) = write_packet(&mut out, &packet) else {
                return format!(in heap; "{}not written again\n", Fields(&packet));
            };
            out.truncate(n);
            let again = Again { bytes: &out, input };
            match packet {
                Packet::Prepare(p) => {
                    let passage = pass_through(heap, input, p.expiry)?;
                    format!(in heap; "{}{again}{passage}", Fields(&packet))
                }
                _ => format!(in heap; "{}{again}", Fields(&packet)),
            }
        }
        Err(fault) => format!(in heap; "no packet: {fault}\n"),
    }
}

// A packet's kind and its fields, a line each.
#[derive(Clone, Copy)]
struct Fields<'a>(&'a Packet<'a>);

impl fmt::Display for Fields<'_> {
    fn fmt<W: fmt::Write>(&self, f: &mut fmt::Formatter<W>) -> fmt::Result {
        match self.0 {
            Packet::Prepare(p) => write_prepare(f, p),
            Packet::Fulfill(p) => write_fulfill(f, p),
            Packet::Reject(p) => write_reject(f, p),
        }
    }
}

fn write_prepare<W: fmt::Write>(f: &mut fmt::Formatter<W>, p: &Prepare<'_>) -> fmt::Result {
    writeln!(f, "Prepare\namount: {}", p.amount)?;
    writeln!(f, "expiry: {}", Expiry(p.expiry))?;
    writeln!(f, "condition: {}", Hex(p.condition))?;
    writeln!(f, "destination: {}", Measured(p.destination))?;
    writeln!(f, "data: {} bytes", p.data.len())
}

fn write_fulfill<W: fmt::Write>(f: &mut fmt::Formatter<W>, p: &Fulfill<'_>) -> fmt::Result {
    writeln!(f, "Fulfill\nfulfilment: {}", Hex(p.fulfilment))?;
    if let Ok(fulfilment) = <&[u8; 32]>::try_from(p.fulfilment) {
        writeln!(f, "its SHA-256: {}", Hex(&digest(fulfilment)))?;
    }
    writeln!(f, "data: {} bytes", p.data.len())
}

fn write_reject<W: fmt::Write>(f: &mut fmt::Formatter<W>, p: &Reject<'_>) -> fmt::Result {
    write!(f, "Reject\ncode: {} (", Ascii(p.code))?;
    match RejectCode::try_from(p.code) {
        Ok(code) => writeln!(f, "{code})")?,
        Err(_) => writeln!(f, "a code with no name)")?,
    }
    writeln!(f, "triggered by: {}", Measured(p.triggered_by))?;
    writeln!(f, "message: {} bytes", p.message.len())?;
    writeln!(f, "data: {} bytes", p.data.len())
}

// The packet written again: its bytes, how many they are, and whether they are the input.
#[derive(Clone, Copy)]
struct Again<'a> {
    bytes: &'a [u8],
    input: &'a [u8],
}

impl fmt::Display for Again<'_> {
    fn fmt<W: fmt::Write>(&self, f: &mut fmt::Formatter<W>) -> fmt::Result {
        writeln!(f, "written again:")?;
        for line in self.bytes.chunks(LINE) {
            writeln!(f, "  {}", Hex(line))?;
        }
        let equal = if same_bytes(self.bytes, self.input) {
            "yes"
        } else {
            "no"
        };
        writeln!(f, "{} bytes; equal to the input: {equal}", self.bytes.len())
    }
}

#[cfg(test)]
mod tests {
    use super::*;
    use std::process::Abort;
    use std::test::Fail;

    fn check_statement(
        rt: &(impl Abort + AllocGlobal),
        input: &[u8],
        expected: &str,
    ) -> Result<(), Fail> {
        let text = statement(rt.alloc(), input)?;
        assert!(rt; text.as_str() == expected);
        Ok(())
    }

    #[test]
    fn faults_in_words(rt: HostRuntime) -> Result<(), Fail> {
        check_statement(
            &rt,
            b"",
            "no packet: wrapper fault at byte 0: there are no bytes\n",
        )?;
        check_statement(
            &rt,
            b"junk",
            "no packet: wrapper fault at byte 0: the type byte is not 0C, 0D or 0E\n",
        )?;
        let oversized = vec![in rt.alloc(); 0x0Eu8; 65_540]?;
        check_statement(
            &rt,
            &oversized,
            "no packet: wrapper fault at byte 1: the content is not as long as its determinant says\n",
        )
    }

    #[test]
    fn a_reject(rt: HostRuntime) -> Result<(), Fail> {
        check_statement(
            &rt,
            b"\x0E\x0CF02\x05g.hub\x01!\x00",
            "Reject\ncode: F02 (unreachable)\ntriggered by: g.hub (5 bytes)\nmessage: 1 bytes\ndata: 0 bytes\nwritten again:\n  0e0c46303205672e687562012100\n14 bytes; equal to the input: yes\n",
        )
    }

    #[test]
    fn a_fulfill(rt: HostRuntime) -> Result<(), Fail> {
        check_statement(
            &rt,
            b"\x0D\x23abcdefghijklmnopqrstuvwxyz012345\x02ok",
            "Fulfill\nfulfilment: 6162636465666768696a6b6c6d6e6f707172737475767778797a303132333435\nits SHA-256: 653bb1245e828fcda4fa53fcd5a3def5bd7654e651f54b4132b73d74e64435c4\ndata: 2 bytes\nwritten again:\n  0d236162636465666768696a6b6c6d6e6f707172737475767778797a30313233\n  3435026f6b\n37 bytes; equal to the input: yes\n",
        )
    }

    #[test]
    fn a_prepare_with_no_route(rt: HostRuntime) -> Result<(), Fail> {
        check_statement(
            &rt,
            b"\x0CA\x00\x00\x00\x00\x00\x00\x00\x0020261117123045250abcdefghijklmnopqrstuvwxyz012345\x06test.x\x00",
            "Prepare\namount: 0\nexpiry: 2026-11-17 12:30:45.250 UTC, instant 1794918645250\ncondition: 6162636465666768696a6b6c6d6e6f707172737475767778797a303132333435\ndestination: test.x (6 bytes)\ndata: 0 bytes\nwritten again:\n  0c41000000000000000032303236313131373132333034353235306162636465\n  666768696a6b6c6d6e6f707172737475767778797a3031323334350674657374\n  2e7800\n67 bytes; equal to the input: yes\nat a connector of two peers, from peer 0 a minute before its expiry:\n  rejected by F02 (unreachable), 19 bytes\n",
        )
    }
}
