// What becomes of a Prepare at a connector with two peers.
use crate::words::{Ascii, Expiry};
use accounts::limits::Limits;
use condition::sha256::Sha256;
use connector::connector::Connector;
use connector::prepared::{Forwarded, Prepared};
use connector::set_up::SetUp;
use layers::stack::{StackFigures, stack};
use packet::reading::{read_answer, read_prepare};
use packet::value::Answer;
use packet_writer::writing::LONGEST_PACKET;
use routing::route::Route;
use stage::transfer::Passed;
use std::alloc::{AllocError, Global};
use std::fmt;
use wire::code::RejectCode;

// Each peer has a credit line of a million both ways, and the second one has all addresses that begin with these.
const SET_UP: SetUp<'static> = SetUp {
    accounts: &[Limits {
        ceiling: 1_000_000,
        floor: 1_000_000,
    }; 2],
    routes: &[
        Route {
            prefix: b"example",
            account: 1,
        },
        Route {
            prefix: b"g",
            account: 1,
        },
    ],
    address: b"example.hub",
};

const FIGURES: StackFigures = StackFigures {
    most: [500_000; 8],
    prices: [3, 7, 1, 1, 1, 1, 1, 1],
    margin: 1000,
    hold: 30_000,
};

// How long before its expiry the packet comes in.
const BEFORE: u64 = 60_000;

// What a call came to, with what can be read in the packet that it wrote.
#[derive(Clone, Copy)]
pub(crate) enum Passage {
    Forwarded {
        number: u32,
        account: u8,
        length: usize,
        passed: Option<Passed>,
    },
    Rejected {
        length: usize,
        code: Option<RejectCode>,
    },
    Refused(u8),
}

// The first peer sends the packet a minute before its expiry, and what goes on is sent.
pub(crate) fn pass_through(heap: Global, bytes: &[u8], expiry: u64) -> Result<Passage, AllocError> {
    let Ok(stages) = stack(FIGURES) else {
        return Ok(Passage::Refused(8));
    };
    let mut connector = match Connector::new(heap, SET_UP, stages, Sha256) {
        Ok(connector) => connector,
        Err(unmade) => return Ok(Passage::Refused(unmade.number())),
    };
    let mut buffer = vec![in heap; 0u8; LONGEST_PACKET]?;
    let time = expiry.saturating_sub(BEFORE);
    match connector.prepare(0, 1, time, bytes, &mut buffer) {
        Err(why) => Ok(Passage::Refused(why.number())),
        Ok(Prepared::Rejected(rejected)) => {
            let length = rejected.ended.length;
            let code = written_code(&buffer, length);
            Ok(Passage::Rejected { length, code })
        }
        Ok(
            Prepared::Forwarded(
                Forwarded {
                    number,
                    account,
                    length,
                    duty,
                },
            ),
        ) => {
            if let Err(why) = connector.sent(duty) {
                return Ok(Passage::Refused(why.number()));
            }
            Ok(Passage::Forwarded {
                number,
                account,
                length,
                passed: written_form(&buffer, length),
            })
        }
    }
}

// The code of the Reject that was written.
fn written_code(buffer: &[u8], length: usize) -> Option<RejectCode> {
    match read_answer(buffer.get(..length)?) {
        Ok(Answer::Reject(reject)) => RejectCode::try_from(reject.code).ok(),
        _ => None,
    }
}

// The amount and the expiry of the Prepare that was written.
fn written_form(buffer: &[u8], length: usize) -> Option<Passed> {
    let prepare = read_prepare(buffer.get(..length)?).ok()?;
    Some(Passed {
        amount: prepare.amount,
        expiry: prepare.expiry,
    })
}

impl fmt::Display for Passage {
    fn fmt<W: fmt::Write>(&self, f: &mut fmt::Formatter<W>) -> fmt::Result {
        writeln!(
            f,
            "at a connector of two peers, from peer 0 a minute before its expiry:"
        )?;
        match self {
            Passage::Forwarded {
                number,
                account,
                length,
                passed,
            } => {
                writeln!(
                    f,
                    "  forwarded to peer {account} as packet {number}, {length} bytes"
                )?;
                let Some(passed) = passed else {
                    return Ok(());
                };
                writeln!(f, "  amount: {}", passed.amount)?;
                writeln!(f, "  expiry: {}", Expiry(passed.expiry))
            }
            Passage::Rejected { length, code } => {
                write!(f, "  rejected")?;
                if let Some(code) = code {
                    write!(f, " by {} ({code})", Ascii(&code.bytes()))?;
                }
                writeln!(f, ", {length} bytes")
            }
            Passage::Refused(number) => writeln!(f, "  refused by number {number}"),
        }
    }
}
