// Accounts at their limits: what may be held, booked and settled exactly up to them, and what one more gives.
use super::support::{check_figures, some};
use accounts::account::Account;
use accounts::hold::Hold;
use accounts::limits::Limits;
use accounts::table::Accounts;
use accounts::way::Way;
use std::test::Fail;

const MOST: u64 = 4_000_000_000_000_000_000;

fn account(ceiling: u64, floor: u64) -> Result<Account, Fail> {
    some(Account::new(ceiling, floor))
}

#[test]
fn limits_in_bounds(rt: HostRuntime) -> Result<(), Fail> {
    check_figures(&rt, account(MOST, MOST)?.figures(), 0, 0, 0);
    assert!(rt; Account::new(0, 0).is_some());
    assert!(rt; Account::new(MOST + 1, 0).is_none() && Account::new(0, MOST + 1).is_none());
    Ok(())
}

#[test]
fn held_in_up_to_the_ceiling(rt: HostRuntime) -> Result<(), Fail> {
    let full = some(account(100, 0)?.hold_in(100))?;
    check_figures(&rt, full.figures(), 0, 100, 0);
    assert!(rt; full.hold_in(0).is_some() && full.hold_in(1).is_none());
    assert!(rt; full.hold_in(u64::MAX).is_none());
    // what is held is not freed by a balance of 0
    assert!(rt; full.settle(Way::WePaid, 1).is_none());
    let booked = some(full.end_in(100, true))?;
    check_figures(&rt, booked.figures(), 100, 0, 0);
    assert!(rt; booked.hold_in(1).is_none());
    Ok(())
}

#[test]
fn held_out_down_to_the_floor(rt: HostRuntime) -> Result<(), Fail> {
    let full = some(account(0, 100)?.hold_out(100))?;
    check_figures(&rt, full.figures(), 0, 0, 100);
    assert!(rt; full.hold_out(0).is_some() && full.hold_out(1).is_none());
    assert!(rt; full.settle(Way::TheyPaid, 1).is_none());
    let booked = some(full.end_out(100, true))?;
    check_figures(&rt, booked.figures(), -100, 0, 0);
    check_figures(&rt, some(full.end_out(40, false))?.figures(), 0, 0, 60);
    assert!(rt; full.end_out(101, false).is_none());
    Ok(())
}

#[test]
fn settled_up_to_both_limits(rt: HostRuntime) -> Result<(), Fail> {
    let top = some(account(MOST, MOST)?.settle(Way::WePaid, MOST))?;
    check_figures(&rt, top.figures(), 4_000_000_000_000_000_000, 0, 0);
    assert!(rt; top.settle(Way::WePaid, 1).is_none());
    let bottom = some(top.settle(Way::TheyPaid, 2 * MOST))?;
    check_figures(&rt, bottom.figures(), -4_000_000_000_000_000_000, 0, 0);
    assert!(rt; bottom.settle(Way::TheyPaid, 1).is_none());
    assert!(rt;
        bottom.settle(Way::WePaid, 1 << 63).is_none()
            && bottom.settle(Way::WePaid, u64::MAX).is_none()
    );
    assert!(rt;
        top.settle(Way::TheyPaid, 1 << 63).is_none()
            && top.settle(Way::TheyPaid, u64::MAX).is_none()
    );
    Ok(())
}

#[test]
fn one_to_eight_accounts(rt: HostRuntime) -> Result<(), Fail> {
    let limits = [Limits {
        ceiling: 1,
        floor: 2,
    }; 9];
    assert!(rt; Accounts::new(&limits[..0]).is_none() && Accounts::new(&limits[..9]).is_none());
    let table = some(Accounts::new(&limits[..8]))?;
    assert!(rt; table.has(7) && !table.has(8) && !table.has(255));
    assert_eq!(rt; some(table.figures(7))?.floor, 2);
    Ok(())
}

#[test]
fn both_amounts_or_none(rt: HostRuntime) -> Result<(), Fail> {
    let mut table = some(Accounts::new(&[Limits {
        ceiling: 10,
        floor: 10,
    }; 2]))?;
    let hold = Hold {
        sender: 0,
        outgoing: 1,
        amount_in: 10,
        amount_out: 9,
    };
    assert!(rt;
        !table.hold(Hold {
            outgoing: 0,
            ..hold
        }) && !table.hold(Hold {
            outgoing: 2,
            ..hold
        })
    );
    assert!(rt;
        !table.hold(Hold {
            amount_in: 11,
            ..hold
        }) && !table.hold(Hold {
            amount_out: 11,
            ..hold
        })
    );
    check_figures(&rt, some(table.figures(0))?, 0, 0, 0);
    assert!(rt; table.hold(hold));
    check_figures(&rt, some(table.figures(0))?, 0, 10, 0);
    check_figures(&rt, some(table.figures(1))?, 0, 0, 9);
    assert!(rt; table.end(hold, true) && !table.end(hold, true));
    check_figures(&rt, some(table.figures(0))?, 10, 0, 0);
    check_figures(&rt, some(table.figures(1))?, -9, 0, 0);
    Ok(())
}
