// Duties that are spent by unsent, and at another connector.
use super::peers::{
    Came, Peers, answered, ending, little_room, peers, prepare_bytes, reject_bytes, room, ticked,
};
use condition::practice::Practice;
use connector::duty::SendDuty;
use connector::prepared::{Forwarded, Prepared};
use std::alloc::Global;
use std::process::Abort;
use std::test::Fail;

// The duty of a packet that goes on.
fn duty(heap: Global, peers: &mut Peers<Practice>, buffer: &mut [u8]) -> Result<SendDuty, Fail> {
    let bytes = prepare_bytes(heap, &Practice, 10, 60_000, b"g.b")?;
    match peers.prepare(0, 77, 5000, &bytes, buffer) {
        Err(_refusal) => Err(Fail::new("refused")),
        Ok(Prepared::Rejected(_rejected)) => Err(Fail::new("rejected")),
        Ok(
            Prepared::Forwarded(
                Forwarded {
                    number: _number,
                    account: _account,
                    length: _length,
                    duty,
                },
            ),
        ) => Ok(duty),
    }
}

#[test]
fn unsent_by_its_code(rt: HostRuntime) -> Result<(), Fail> {
    let mut peers = peers(rt.alloc(), Practice)?;
    let mut buffer = room(rt.alloc())?;
    let duty = duty(rt.alloc(), &mut peers, &mut buffer)?;
    let answer = peers.unsent(duty, &mut buffer);
    assert_eq!(rt; ending(answer, &buffer), Came::Rejected(*b"T01"));
    Ok(())
}

// A refused call spends the duty too, so the packet stands until it is due.
#[test]
fn spent_where_the_buffer_is_short(rt: HostRuntime) -> Result<(), Fail> {
    let mut peers = peers(rt.alloc(), Practice)?;
    let mut buffer = room(rt.alloc())?;
    let mut little = little_room(rt.alloc())?;
    let duty = duty(rt.alloc(), &mut peers, &mut buffer)?;
    let answer = peers.unsent(duty, &mut little);
    assert_eq!(rt; ending(answer, &little), Came::Refused(1));
    assert_eq!(rt; ticked(&mut peers, 34_999, &mut buffer), Came::Nothing);
    assert_eq!(rt;
        ticked(&mut peers, 35_000, &mut buffer),
        Came::Rejected(*b"R00")
    );
    Ok(())
}

#[test]
fn a_duty_of_one_connector_meets_another(rt: HostRuntime) -> Result<(), Fail> {
    let mut one = peers(rt.alloc(), Practice)?;
    let mut other = peers(rt.alloc(), Practice)?;
    let mut buffer = room(rt.alloc())?;
    let first = duty(rt.alloc(), &mut one, &mut buffer)?;
    // the other has nothing pending, and the duty is spent all the same
    let refused = other.sent(first).err();
    assert_eq!(rt; refused.map(|why| why.number()), Some(4));
    // so the packet stays unsent, and no answer to it is taken
    let bytes = reject_bytes(rt.alloc())?;
    assert_eq!(rt;
        answered(&mut one, 1, 1, 5000, &bytes, &mut buffer),
        Came::Refused(4)
    );
    let second = duty(rt.alloc(), &mut one, &mut buffer)?;
    assert_eq!(rt; second.number(), 2);
    let answer = other.unsent(second, &mut buffer);
    assert_eq!(rt; ending(answer, &buffer), Came::Refused(4));
    // by its number the other takes a duty of the first for its own
    let third = duty(rt.alloc(), &mut other, &mut buffer)?;
    assert_eq!(rt; third.number(), 1);
    assert!(rt; one.sent(third).is_ok());
    // a packet that was sent is neither sent again nor ended as not sent
    let mut another = peers(rt.alloc(), Practice)?;
    let fourth = duty(rt.alloc(), &mut another, &mut buffer)?;
    let answer = one.unsent(fourth, &mut buffer);
    assert_eq!(rt; ending(answer, &buffer), Came::Refused(4));
    assert_eq!(rt;
        answered(&mut one, 1, 1, 5000, &bytes, &mut buffer),
        Came::Rejected(*b"F99")
    );
    Ok(())
}
