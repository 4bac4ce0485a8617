// Three peers over the product's stack, and what a call came to in a form that tests compare.
use accounts::limits::Limits;
use condition::interface::ConditionHash;
use connector::connector::Connector;
use connector::prepared::{Forwarded, Prepared};
use connector::set_up::SetUp;
use layers::stack::{Stack, StackFigures, stack};
use packet::reading::read_answer;
use packet::value::{Answer, Fulfill, Packet, Prepare, Reject};
use packet_writer::writing::{LONGEST_PACKET, write_packet};
use protocol::ended::Ended;
use protocol::refusal::Refusal;
use routing::route::Route;
use std::alloc::Global;
use std::test::Fail;

pub(crate) type Peers<H> = Connector<Stack, H>;

pub(crate) const SECRET: [u8; 32] = [7; 32];

const SET_UP: SetUp<'static> = SetUp {
    accounts: &[Limits {
        ceiling: 1000,
        floor: 1000,
    }; 3],
    routes: &[
        Route {
            prefix: b"g.a",
            account: 0,
        },
        Route {
            prefix: b"g.b",
            account: 1,
        },
    ],
    address: b"g.us",
};

pub(crate) const FIGURES: StackFigures = StackFigures {
    most: [600; 8],
    prices: [1; 8],
    margin: 1000,
    hold: 30_000,
};

// What a call came to: the number of its refusal; the code of the Reject that was written; a Fulfill that was written; a packet
// that went on under a number to an account; or nothing.
#[derive(Clone, Copy, Debug, PartialEq, Eq)]
pub(crate) enum Came {
    Refused(u8),
    Rejected([u8; 3]),
    Fulfilled,
    Sent(u32, u8),
    Nothing,
}

pub(crate) fn peers<H: ConditionHash + Drop>(heap: Global, hash: H) -> Result<Peers<H>, Fail> {
    let stages = stack(FIGURES).map_err(|_| Fail::new("no stack"))?;
    Connector::new(heap, SET_UP, stages, hash).map_err(|_| Fail::new("not made"))
}

fn zeros(heap: Global, n: usize) -> Result<Vec<u8>, Fail> {
    let mut buffer = Vec::new(heap);
    buffer.resize(n, 0)?;
    Ok(buffer)
}

pub(crate) fn room(heap: Global) -> Result<Vec<u8>, Fail> {
    zeros(heap, LONGEST_PACKET)
}

// A buffer that is one byte too short.
pub(crate) fn little_room(heap: Global) -> Result<Vec<u8>, Fail> {
    zeros(heap, LONGEST_PACKET - 1)
}

fn bytes_of(heap: Global, packet: &Packet<'_>) -> Result<Vec<u8>, Fail> {
    let mut bytes = room(heap)?;
    let n = write_packet(&mut bytes, packet).map_err(|_| Fail::new("not written"))?;
    bytes.truncate(n);
    Ok(bytes)
}

pub(crate) fn prepare_bytes(
    heap: Global,
    hash: &impl ConditionHash,
    amount: u64,
    expiry: u64,
    destination: &[u8],
) -> Result<Vec<u8>, Fail> {
    let prepare = Prepare {
        amount,
        expiry,
        condition: &hash.hash(&SECRET),
        destination,
        data: b"data",
    };
    bytes_of(heap, &Packet::Prepare(prepare))
}

pub(crate) fn fulfill_bytes(heap: Global, fulfilment: &[u8; 32]) -> Result<Vec<u8>, Fail> {
    let fulfill = Fulfill {
        fulfilment,
        data: b"",
    };
    bytes_of(heap, &Packet::Fulfill(fulfill))
}

pub(crate) fn reject_bytes(heap: Global) -> Result<Vec<u8>, Fail> {
    let reject = Reject {
        code: b"F99",
        triggered_by: b"g.b.c",
        message: b"no",
        data: b"",
    };
    bytes_of(heap, &Packet::Reject(reject))
}

fn written(buffer: &[u8], ended: Ended) -> Came {
    let Some(bytes) = buffer.get(..ended.length) else {
        return Came::Nothing;
    };
    match read_answer(bytes) {
        Ok(Answer::Fulfill(_)) => Came::Fulfilled,
        Ok(Answer::Reject(reject)) => match reject.code {
            [a, b, c] => Came::Rejected([*a, *b, *c]),
            _ => Came::Nothing,
        },
        Err(_) => Came::Nothing,
    }
}

pub(crate) fn ending(answer: Result<Ended, Refusal>, buffer: &[u8]) -> Came {
    match answer {
        Ok(ended) => written(buffer, ended),
        Err(why) => Came::Refused(why.number()),
    }
}

// A Prepare comes in; where it goes on the host says at once that it was sent.
pub(crate) fn prepared<H: ConditionHash>(
    peers: &mut Peers<H>,
    account: u8,
    time: u64,
    bytes: &[u8],
    buffer: &mut [u8],
) -> Came {
    match peers.prepare(account, 77, time, bytes, buffer) {
        Err(why) => Came::Refused(why.number()),
        Ok(Prepared::Rejected(rejected)) => written(buffer, rejected.ended),
        Ok(
            Prepared::Forwarded(
                Forwarded {
                    number,
                    account,
                    length: _length,
                    duty,
                },
            ),
        ) => match peers.sent(duty) {
            Ok(()) => Came::Sent(number, account),
            Err(why) => Came::Refused(why.number()),
        },
    }
}

pub(crate) fn answered<H: ConditionHash>(
    peers: &mut Peers<H>,
    account: u8,
    number: u32,
    time: u64,
    bytes: &[u8],
    buffer: &mut [u8],
) -> Came {
    let answer = peers.answer(account, number, time, bytes, buffer);
    ending(answer, buffer)
}

pub(crate) fn ticked<H: ConditionHash>(peers: &mut Peers<H>, time: u64, buffer: &mut [u8]) -> Came {
    match peers.tick(time, buffer) {
        Ok(None) => Came::Nothing,
        Ok(Some(ended)) => written(buffer, ended),
        Err(why) => Came::Refused(why.number()),
    }
}
