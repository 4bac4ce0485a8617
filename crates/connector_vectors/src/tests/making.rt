// Which set-ups are refused, and that the stack and the hash come back.
use super::peers::FIGURES;
use accounts::limits::Limits;
use condition::practice::Practice;
use connector::connector::Connector;
use connector::set_up::SetUp;
use layers::stack::{Stack, stack};
use routing::route::Route;
use stage::accounts::AccountPair;
use stage::interface::Stage;
use stage::transfer::Transfer;
use std::alloc::Global;
use std::process::Abort;
use std::test::Fail;

const LIMIT: Limits = Limits {
    ceiling: 1000,
    floor: 1000,
};

const TOO_MUCH: Limits = Limits {
    ceiling: 4_000_000_000_000_000_001,
    floor: 0,
};

const ROUTE: Route<'static> = Route {
    prefix: b"g.a",
    account: 0,
};

const FITS: SetUp<'static> = SetUp {
    accounts: &[LIMIT],
    routes: &[ROUTE],
    address: b"g.us",
};

// Each has one thing that is out of bounds.
const REFUSED: [SetUp<'static>; 7] = [
    SetUp {
        accounts: &[],
        routes: &[],
        ..FITS
    },
    SetUp {
        accounts: &[LIMIT; 9],
        ..FITS
    },
    SetUp {
        accounts: &[TOO_MUCH],
        ..FITS
    },
    SetUp {
        routes: &[ROUTE, ROUTE],
        ..FITS
    },
    SetUp {
        routes: &[Route {
            account: 1,
            ..ROUTE
        }],
        ..FITS
    },
    SetUp {
        address: b"us",
        ..FITS
    },
    SetUp {
        address: b"",
        ..FITS
    },
];

fn stages() -> Result<Stack, Fail> {
    stack(FIGURES).map_err(|_| Fail::new("no stack"))
}

fn check_refused(
    rt: &impl Abort,
    heap: Global,
    set_up: SetUp<'_>,
    stages: Stack,
    idle: bool,
) -> Result<(), Fail> {
    let unmade = Connector::new(heap, set_up, stages, Practice)
        .err()
        .ok_or_else(|| Fail::new("made"))?;
    assert_eq!(rt; unmade.number(), 8);
    assert_eq!(rt; unmade.stages.idle(), idle);
    Ok(())
}

#[test]
fn refused_by_number_8(rt: HostRuntime) -> Result<(), Fail> {
    for set_up in REFUSED {
        check_refused(&rt, rt.alloc(), set_up, stages()?, true)?;
    }
    assert!(rt; Connector::new(rt.alloc(), FITS, stages()?, Practice).is_ok());
    Ok(())
}

#[test]
fn refused_over_a_stack_that_is_not_idle(rt: HostRuntime) -> Result<(), Fail> {
    let accounts = AccountPair::new(0, 1).ok_or_else(|| Fail::new("no pair"))?;
    let mut stages = stages()?;
    stages.take(Transfer {
        number: 1,
        accounts,
        amount: 1,
        expiry: 60_000,
        time: 0,
    });
    check_refused(&rt, rt.alloc(), FITS, stages, false)
}
