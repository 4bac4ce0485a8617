// The ledger: what a reservation holds, what its end books, and what is refused.
use super::support::{check_figures, some};
use accounts::hold::Hold;
use accounts::limits::Limits;
use ledger::ledger::Ledger;
use ledger::refusal::NotSettled;
use ledger::reservation::Reservation;
use std::process::Abort;
use std::test::Fail;

// Two accounts that may owe and be owed 1,000.
fn two() -> Result<Ledger, Fail> {
    some(Ledger::new(&[Limits {
        ceiling: 1000,
        floor: 1000,
    }; 2]))
}

fn reservation(amount_in: u64, amount_out: u64, expiry: u64) -> Reservation {
    Reservation {
        hold: Hold {
            sender: 0,
            outgoing: 1,
            amount_in,
            amount_out,
        },
        request: 77,
        expiry,
        condition: [3; 32],
    }
}

fn check_account(
    rt: &impl Abort,
    ledger: &Ledger,
    account: u8,
    balance: i64,
    held_in: u64,
    held_out: u64,
) -> Result<(), Fail> {
    check_figures(
        rt,
        some(ledger.figures(account))?,
        balance,
        held_in,
        held_out,
    );
    Ok(())
}

#[test]
fn reserved_and_fulfilled(rt: HostRuntime) -> Result<(), Fail> {
    let mut ledger = two()?;
    assert_eq!(rt; ledger.reserve(reservation(1000, 900, 50)), Some(1));
    check_account(&rt, &ledger, 0, 0, 1000, 0)?;
    check_account(&rt, &ledger, 1, 0, 0, 900)?;
    assert!(rt;
        !ledger.can_hold_in(0, 1) && ledger.can_hold_out(1, 100) && !ledger.can_hold_out(1, 101)
    );
    let row = some(ledger.end(1, true))?;
    assert!(rt;
        row.request == 77 && row.amount_in == 1000 && row.amount_out == 900 && row.expiry == 50
    );
    check_account(&rt, &ledger, 0, 1000, 0, 0)?;
    check_account(&rt, &ledger, 1, -900, 0, 0)?;
    assert!(rt; ledger.end(1, true).is_none());
    Ok(())
}

#[test]
fn freed_where_not_fulfilled(rt: HostRuntime) -> Result<(), Fail> {
    let mut ledger = two()?;
    assert_eq!(rt; ledger.reserve(reservation(600, 500, 50)), Some(1));
    assert_eq!(rt; ledger.reserve(reservation(300, 400, 60)), Some(2));
    check_account(&rt, &ledger, 0, 0, 900, 0)?;
    assert!(rt; ledger.end(1, false).is_some());
    check_account(&rt, &ledger, 0, 0, 300, 0)?;
    check_account(&rt, &ledger, 1, 0, 0, 400)
}

#[test]
fn nothing_reserved_over_a_limit(rt: HostRuntime) -> Result<(), Fail> {
    let mut ledger = two()?;
    for (amount_in, amount_out) in [(1001, 0), (0, 1001), (u64::MAX, 0), (0, u64::MAX)] {
        assert_eq!(rt; ledger.reserve(reservation(amount_in, amount_out, 9)), None);
    }
    assert_eq!(rt; ledger.next_number(), Some(1));
    assert_eq!(rt; ledger.reserve(reservation(0, 0, 9)), Some(1));
    check_account(&rt, &ledger, 0, 0, 0, 0)
}

#[test]
fn at_most_64_pending(rt: HostRuntime) -> Result<(), Fail> {
    let mut ledger = two()?;
    for n in 1..65 {
        assert!(rt; !ledger.is_full());
        assert_eq!(rt; ledger.reserve(reservation(1, 1, 9)), Some(n));
    }
    assert!(rt; ledger.is_full());
    assert_eq!(rt; ledger.reserve(reservation(1, 1, 9)), None);
    assert!(rt; ledger.end(30, false).is_some());
    assert_eq!(rt; ledger.reserve(reservation(1, 1, 9)), Some(65));
    check_account(&rt, &ledger, 0, 0, 64, 0)
}

#[test]
fn expired_by_the_time_of_the_ledger(rt: HostRuntime) -> Result<(), Fail> {
    let mut ledger = two()?;
    ledger.reserve(reservation(1, 1, 20));
    ledger.reserve(reservation(1, 1, 10));
    assert!(rt; ledger.first_expired().is_none());
    ledger.advance(10);
    ledger.advance(9);
    assert_eq!(rt; ledger.time(), 10);
    assert_eq!(rt; some(ledger.first_expired())?.number, 2);
    assert!(rt; ledger.mark(2) && !ledger.mark(3));
    assert!(rt; some(ledger.lookup(2))?.sent);
    assert!(rt; !some(ledger.lookup(1))?.sent);
    Ok(())
}

// An account, a way, an amount, and the number of the refusal, in turn on one ledger.
const SETTLEMENTS: [(u8, u8, u64, Option<u8>); 10] = [
    (2, 0, 1, Some(2)),
    (2, 2, 1, Some(2)),
    (0, 2, 1, Some(6)),
    (0, 255, u64::MAX, Some(6)),
    (0, 0, 1001, Some(7)),
    (0, 1, 1001, Some(7)),
    (0, 1, 1 << 63, Some(7)),
    (0, 0, u64::MAX, Some(7)),
    (0, 0, 1000, None),
    (0, 1, 2000, None),
];

#[test]
fn settled_or_refused(rt: HostRuntime) -> Result<(), Fail> {
    let mut ledger = two()?;
    for (account, way, amount, number) in SETTLEMENTS {
        let refused = ledger.settle(account, way, amount).err();
        assert_eq!(rt; refused.map(|why| why.number()), number);
    }
    check_account(&rt, &ledger, 0, 1000, 0, 0)?;
    check_account(&rt, &ledger, 1, 0, 0, 0)?;
    assert_eq!(rt; NotSettled::LimitWouldBreak.number(), 7);
    Ok(())
}
