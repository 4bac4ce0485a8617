// The edges of each stage: what it passes, what it rejects and by which code, and how many numbers it holds open.
use layers::expiry::Expiry;
use layers::maximum::Maximum;
use layers::rate::Rate;
use layers::stack::{StackFigures, stack};
use stage::accounts::AccountPair;
use stage::end::End;
use stage::interface::Stage;
use stage::transfer::{Passed, Transfer, Verdict};
use std::fmt::Display;
use std::process::Abort;
use std::test::Fail;

fn transfer(number: u32, amount: u64, expiry: u64, time: u64) -> Result<Transfer, Fail> {
    let accounts = AccountPair::new(0, 1).ok_or_else(|| Fail::new("no pair"))?;
    Ok(Transfer {
        number,
        accounts,
        amount,
        expiry,
        time,
    })
}

// Passed with this amount and this expiry.
fn check_passed(rt: &impl Abort, verdict: Verdict, amount: u64, expiry: u64, name: &impl Display) {
    assert_eq!(rt; verdict, Ok(Passed { amount, expiry }), "{name}");
}

fn check_rejected(
    rt: &impl Abort,
    verdict: Verdict,
    code: &[u8],
    first: u64,
    second: u64,
    name: &impl Display,
) {
    match verdict {
        Ok(_) => panic!(rt; "{name}: passed"),
        Err(rejected) => {
            assert!(rt; &rejected.code.bytes()[..] == code, "{name}: code");
            assert_eq!(rt; rejected.first, first, "{name}: first");
            assert_eq!(rt; rejected.second, second, "{name}: second");
        }
    }
}

#[test]
fn pairs_of_accounts(rt: HostRuntime) {
    assert!(rt; AccountPair::new(0, 7).is_some() && AccountPair::new(7, 0).is_some());
    assert!(rt; AccountPair::new(0, 8).is_none() && AccountPair::new(8, 0).is_none());
    assert!(rt; AccountPair::new(3, 3).is_none() && AccountPair::new(255, 255).is_none());
}

// The maximum of the incoming account 0, an amount, and whether it passes.
const MAXIMA: [(u64, u64, bool); 6] = [
    (500, 500, true),
    (500, 501, false),
    (0, 0, true),
    (0, 1, false),
    (u64::MAX, u64::MAX, true),
    (u64::MAX - 1, u64::MAX, false),
];

#[test]
fn the_maximum_and_one_more(rt: HostRuntime) -> Result<(), Fail> {
    for (most, amount, passes) in &MAXIMA {
        let layer = Maximum::new([*most, 0, 0, 0, 0, 0, 0, 0], End::new()).map_err(|_| Fail::new(
            "not made",
        ))?;
        let verdict = layer.look(transfer(1, *amount, 10, 0)?);
        if *passes {
            check_passed(&rt, verdict, *amount, 10, amount);
        } else {
            check_rejected(&rt, verdict, b"F08", *amount, *most, amount);
        }
    }
    Ok(())
}

// The two prices, an amount, and what it becomes or the code that it gets.
const RATES: [(u32, u32, u64, Result<u64, &'static [u8]>); 10] = [
    (3, 7, 10, Ok(4)),
    (1, 3, 2, Err(b"R01")),
    (1, 3, 3, Ok(1)),
    (1, 3, 0, Ok(0)),
    (7, 7, u64::MAX / 2, Ok(u64::MAX / 2)),
    (1, 1, u64::MAX / 2 + 1, Err(b"T04")),
    (1, 2, u64::MAX, Ok(u64::MAX / 2)),
    (u32::MAX, 1, u64::MAX, Err(b"T04")),
    (1, u32::MAX, u64::MAX, Ok(4_294_967_297)),
    (u32::MAX, u32::MAX, 5, Ok(5)),
];

#[test]
fn conversions_at_their_edges(rt: HostRuntime) -> Result<(), Fail> {
    for (incoming, outgoing, amount, expected) in &RATES {
        let layer = Rate::new([*incoming, *outgoing, 1, 1, 1, 1, 1, 1], End::new()).map_err(
            |_| Fail::new("not made"),
        )?;
        let verdict = layer.look(transfer(1, *amount, 10, 0)?);
        match expected {
            Ok(result) => check_passed(&rt, verdict, *result, 10, amount),
            Err(code) => check_rejected(&rt, verdict, code, 0, 0, amount),
        }
    }
    Ok(())
}

// Margin, hold, the transfer's expiry, the time, and the passed expiry; none for R02.
const EXPIRIES: [(u64, u64, u64, u64, Option<u64>); 12] = [
    (0, 1, 100, 99, Some(100)),
    (0, 1, 100, 100, None),
    (0, 1, 100, 50, Some(51)),
    (1, 1, 100, 98, Some(99)),
    (1, 1, 100, 99, None),
    (1_000, 30_000, 999, 0, None),
    (1_000, 30_000, 1_000, 0, None),
    (1_000, 30_000, 1_001, 0, Some(1)),
    (60_000, 3_600_000, 60_001, 0, Some(1)),
    (60_000, 3_600_000, 3_660_000, 0, Some(3_600_000)),
    (60_000, 3_600_000, 3_660_001, 0, Some(3_600_000)),
    (0, 3_600_000, u64::MAX, u64::MAX - 1, Some(u64::MAX)),
];

#[test]
fn margins_and_holds(rt: HostRuntime) -> Result<(), Fail> {
    for (margin, hold, expiry, time, expected) in &EXPIRIES {
        let layer = Expiry::new(*margin, *hold, End::new()).map_err(|_| Fail::new("not made"))?;
        let verdict = layer.look(transfer(1, 7, *expiry, *time)?);
        match expected {
            Some(passed) => check_passed(&rt, verdict, 7, *passed, expiry),
            None => check_rejected(&rt, verdict, b"R02", 0, 0, expiry),
        }
    }
    Ok(())
}

#[test]
fn sixty_four_numbers_are_open_at_most(rt: HostRuntime) -> Result<(), Fail> {
    let mut end = End::new();
    for number in 1..65u32 {
        check_passed(&rt, end.look(transfer(number, 5, 9, 0)?), 5, 9, &number);
        end.take(transfer(number, 5, 9, 0)?);
    }
    assert!(rt; !end.idle());
    let again = end.look(transfer(64, 5, 9, 0)?);
    check_rejected(&rt, again, b"T00", 0, 0, &"open already");
    let another = end.look(transfer(65, 5, 9, 0)?);
    check_rejected(&rt, another, b"T03", 0, 0, &"the 65th");
    end.close(65);
    let another = end.look(transfer(65, 5, 9, 0)?);
    check_rejected(&rt, another, b"T03", 0, 0, &"closed what was not open");
    end.close(30);
    let another = end.look(transfer(65, 5, 9, 0)?);
    check_passed(&rt, another, 5, 9, &"one was closed");
    for number in 1..65u32 {
        end.close(number);
    }
    assert!(rt; end.idle(), "all closed");
    Ok(())
}

#[test]
fn figures_that_are_refused(rt: HostRuntime) -> Result<(), Fail> {
    assert!(rt; Expiry::new(60_001, 1, End::new()).is_err(), "margin");
    assert!(rt;
        Expiry::new(0, 0, End::new()).is_err() && Expiry::new(0, 3_600_001, End::new()).is_err(),
        "hold"
    );
    assert!(rt;
        Rate::new([1, 1, 1, 1, 1, 1, 1, 0], End::new()).is_err(),
        "the eighth price"
    );
    let mut busy = End::new();
    busy.take(transfer(1, 1, 1, 0)?);
    assert!(rt;
        Maximum::new([1; 8], busy).is_err() && Rate::new([1; 8], busy).is_err(),
        "not idle"
    );
    match Expiry::new(0, 1, busy) {
        Ok(_) => Err(Fail::new("made over a stage that is not idle")),
        Err(refused) => {
            assert_eq!(rt; refused.number(), 8);
            assert!(rt; !refused.passed_in.idle(), "what was passed in comes back");
            Ok(())
        }
    }
}

const FIGURES: StackFigures = StackFigures {
    most: [500; 8],
    prices: [2, 1, 1, 1, 1, 1, 1, 1],
    margin: 1_000,
    hold: 30_000,
};

#[test]
fn the_whole_stack(rt: HostRuntime) -> Result<(), Fail> {
    let mut whole = stack(FIGURES).map_err(|_| Fail::new("not made"))?;
    let converted = whole.look(transfer(1, 250, 50_000, 10_000)?);
    check_passed(&rt, converted, 500, 40_000, &"all layers pass");
    let too_much = whole.look(transfer(1, 501, 50_000, 10_000)?);
    check_rejected(&rt, too_much, b"F08", 501, 500, &"above the maximum");
    let too_late = whole.look(transfer(1, 250, 11_000, 10_000)?);
    check_rejected(&rt, too_late, b"R02", 0, 0, &"no time left");
    whole.take(transfer(1, 250, 50_000, 10_000)?);
    let again = whole.look(transfer(1, 250, 50_000, 10_000)?);
    check_rejected(&rt, again, b"T00", 0, 0, &"open already");
    whole.close(1);
    assert!(rt; whole.idle());
    Ok(())
}
