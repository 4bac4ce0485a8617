// What answer and tick refuse, reject and pass on.
use super::peers::{
    Came, SECRET, answered, fulfill_bytes, little_room, peers, prepare_bytes, prepared,
    reject_bytes, room, ticked,
};
use calendar::LAST_INSTANT;
use condition::interface::ConditionHash;
use condition::practice::Practice;
use condition::sha256::Sha256;
use std::alloc::Global;
use std::process::Abort;
use std::test::Fail;

// What a peer brings.
#[derive(Clone, Copy)]
enum Brings {
    Secret,
    WrongSecret,
    Reject,
    Junk,
}

// An account, a number, a time, what it brings, and what it comes to. Five packets went to account 1, until 35,000.
const ANSWERS: [(u8, u32, u64, Brings, Came); 13] = [
    (3, 9, LAST_INSTANT + 1, Brings::Junk, Came::Refused(2)),
    (1, 9, LAST_INSTANT + 1, Brings::Junk, Came::Refused(3)),
    (1, 9, 5000, Brings::Junk, Came::Refused(4)),
    (0, 1, 5000, Brings::Junk, Came::Refused(4)),
    (1, 1, 5000, Brings::Junk, Came::Refused(5)),
    // what is refused does not move the time
    (1, 1, 99_000, Brings::Junk, Came::Refused(5)),
    (1, 1, 34_999, Brings::Secret, Came::Fulfilled),
    (1, 1, 34_999, Brings::Secret, Came::Refused(4)),
    (1, 2, 34_999, Brings::WrongSecret, Came::Rejected(*b"F05")),
    (1, 3, 34_999, Brings::Reject, Came::Rejected(*b"F99")),
    // too late, which is judged before the hash
    (1, 4, 35_000, Brings::WrongSecret, Came::Rejected(*b"R00")),
    (1, 5, 35_000, Brings::Secret, Came::Rejected(*b"R00")),
    (1, 6, 0, Brings::Reject, Came::Rejected(*b"R00")),
];

fn brought(heap: Global, brings: Brings) -> Result<Vec<u8>, Fail> {
    match brings {
        Brings::Secret => fulfill_bytes(heap, &SECRET),
        Brings::WrongSecret => fulfill_bytes(heap, &[8; 32]),
        Brings::Reject => reject_bytes(heap),
        Brings::Junk => Ok(Vec::new(heap)),
    }
}

fn check_answers(
    rt: &(impl Abort + AllocGlobal),
    hash: impl ConditionHash + Copy,
) -> Result<(), Fail> {
    let mut peers = peers(rt.alloc(), hash)?;
    let mut buffer = room(rt.alloc())?;
    let bytes = prepare_bytes(rt.alloc(), &hash, 10, 60_000, b"g.b")?;
    for n in 1..7 {
        let got = prepared(&mut peers, 0, 5000, &bytes, &mut buffer);
        assert_eq!(rt; got, Came::Sent(n, 1));
    }
    for (i, (account, number, time, brings, came)) in ANSWERS.iter().enumerate() {
        let bytes = brought(rt.alloc(), *brings)?;
        let got = answered(&mut peers, *account, *number, *time, &bytes, &mut buffer);
        assert_eq!(rt; got, *came, "case {i}");
    }
    Ok(())
}

#[test]
fn answered_in_order(rt: HostRuntime) -> Result<(), Fail> {
    check_answers(&rt, Sha256)?;
    check_answers(&rt, Practice)
}

#[test]
fn due_where_the_expiry_is_reached(rt: HostRuntime) -> Result<(), Fail> {
    let mut peers = peers(rt.alloc(), Practice)?;
    let mut buffer = room(rt.alloc())?;
    let bytes = prepare_bytes(rt.alloc(), &Practice, 10, 60_000, b"g.b")?;
    let mut little = little_room(rt.alloc())?;
    let got = answered(&mut peers, 3, 9, LAST_INSTANT + 1, b"", &mut little);
    assert_eq!(rt; got, Came::Refused(1));
    assert_eq!(rt;
        prepared(&mut peers, 0, 5000, &bytes, &mut buffer),
        Came::Sent(1, 1)
    );
    assert_eq!(rt;
        ticked(&mut peers, LAST_INSTANT + 1, &mut buffer),
        Came::Refused(3)
    );
    assert_eq!(rt;
        ticked(&mut peers, LAST_INSTANT + 1, &mut little),
        Came::Refused(1)
    );
    assert_eq!(rt; ticked(&mut peers, 34_999, &mut buffer), Came::Nothing);
    assert_eq!(rt;
        ticked(&mut peers, 35_000, &mut buffer),
        Came::Rejected(*b"R00")
    );
    assert_eq!(rt; ticked(&mut peers, 35_000, &mut buffer), Came::Nothing);
    Ok(())
}
