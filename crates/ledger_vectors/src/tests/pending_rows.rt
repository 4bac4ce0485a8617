// The table of what is pending: its order, its bound, and what is due.
use super::support::some;
use pending::row::Pending;
use pending::table::PendingTable;
use std::process::Abort;
use std::test::Fail;

fn row(number: u32, expiry: u64) -> Pending {
    Pending {
        number,
        sender: 0,
        request: 7,
        outgoing: 1,
        amount_in: 5,
        amount_out: 4,
        expiry,
        condition: [9; 32],
        sent: false,
    }
}

// A table with the numbers 1 to 4.
fn four() -> PendingTable {
    let mut table = PendingTable::new();
    for n in 1..5 {
        table.add(row(n, 100));
    }
    table
}

fn check_numbers(rt: &impl Abort, table: &PendingTable, numbers: &[u32]) -> Result<(), Fail> {
    for (i, n) in numbers.iter().enumerate() {
        assert_eq!(rt; some(table.at(i))?.number, *n);
    }
    assert!(rt; table.at(numbers.len()).is_none());
    Ok(())
}

#[test]
fn removed_in_order(rt: HostRuntime) -> Result<(), Fail> {
    for (number, left) in [(1, [2, 3, 4]), (2, [1, 3, 4]), (4, [1, 2, 3])] {
        let mut table = four();
        assert!(rt; table.remove(number) && !table.remove(number));
        check_numbers(&rt, &table, &left)?;
    }
    Ok(())
}

#[test]
fn marked_alone(rt: HostRuntime) -> Result<(), Fail> {
    let mut table = four();
    assert!(rt; !table.mark(5) && table.mark(3));
    for n in 1..5 {
        assert_eq!(rt; some(table.lookup(n))?.sent, n == 3);
    }
    assert!(rt; table.lookup(5).is_none());
    Ok(())
}

#[test]
fn at_most_64(rt: HostRuntime) {
    let mut table = PendingTable::new();
    for n in 0..64 {
        assert!(rt; !table.is_full() && table.add(row(n, 0)));
    }
    assert!(rt; table.is_full() && !table.add(row(64, 0)));
    assert!(rt; table.lookup(64).is_none() && table.lookup(63).is_some());
}

// The expiries of the numbers 1 to 3, a time, and the number that is due.
const DUE: [([u64; 3], u64, Option<u32>); 7] = [
    ([5, 6, 7], 4, None),
    ([5, 6, 7], 5, Some(1)),
    ([7, 6, 5], 5, Some(3)),
    ([7, 5, 5], 9, Some(2)),
    ([5, 5, 5], 5, Some(1)),
    ([6, 5, 6], 6, Some(2)),
    ([0, 0, 1], 0, Some(1)),
];

#[test]
fn due_first(rt: HostRuntime) {
    assert!(rt; PendingTable::new().first_expired(u64::MAX).is_none());
    for (expiries, time, number) in DUE {
        let mut table = PendingTable::new();
        for (n, expiry) in (1..4).zip(expiries) {
            table.add(row(n, expiry));
        }
        let due = table.first_expired(time).and_then(|place| table.at(place));
        assert_eq!(rt; due.map(|row| row.number), number);
    }
}
