// The calls of the table.
ghost use Rattle.std.specs.Prelude.{◌≡◌, not, [], ◌∷◌, ◌++◌, if◌then◌else◌};
ghost use Rattle.pending.specs.Rows.{is_pending, lookup, dropped, marked, FirstExpired};
ghost use Rattle.pending.specs.Tables.{is_full, rows_of, place, row_at, DueAt, EarliestAt, SameUnless};

use super::PendingTable;
use crate::row::{Pending, ends_before};

const UNUSED: Pending = Pending {
    number: 0,
    sender: 0,
    request: 0,
    outgoing: 0,
    amount_in: 0,
    amount_out: 0,
    expiry: 0,
    condition: [0; 32],
    sent: false,
};

impl PendingTable {
    pub fn new() -> PendingTable
        ensures { rows_of result ≡ [] }
    {
        PendingTable {
            places: [UNUSED; 64],
            len: 0,
        }
    }

    // The rows in use.
    fn rows(&self) -> &[Pending]
        ensures { result.now ≡ rows_of self.now }
    {
        &self.places[..self.len]
    }

    // Whether 64 are pending.
    pub fn is_full(&self) -> bool
        ensures { result ≡ is_full (rows_of self.now) }
    {
        self.len == 64
    }

    // Adds a row behind the others; not where 64 are pending.
    pub fn add(&mut self, row: Pending) -> bool
        ensures value { result ≡ not (is_full (rows_of self.old)) }
        ensures rows { rows_of self.new ≡ (if result then rows_of self.old ++ row ∷ [] else rows_of self.old) }
        ensures unchanged { SameUnless result self.old self.new }
    {
        if self.is_full() {
            return false;
        }
        self.places[self.len] = row;
        self.len += 1;
        true
    }

    // The place of the row with a number.
    pub fn find(&self, number: u32) -> Option<usize>
        ensures { result ≡ place number (rows_of self.now) }
    {
        self.rows().iter().position(|row| row.number == number)
    }

    // The row at a place.
    pub fn at(&self, place: usize) -> Option<Pending>
        ensures { result ≡ row_at (rows_of self.now) place }
    {
        self.rows().get(place).copied()
    }

    pub fn lookup(&self, number: u32) -> Option<Pending>
        ensures { result ≡ lookup number (rows_of self.now) }
    {
        self.at(self.find(number)?)
    }

    // Marks the row with a number as sent, and touches no other.
    pub fn mark(&mut self, number: u32) -> bool
        ensures value { result ≡ is_pending number (rows_of self.old) }
        ensures rows { rows_of self.new ≡ marked number (rows_of self.old) }
        ensures unchanged { SameUnless result self.old self.new }
    {
        let Some(place) = self.find(number) else {
            return false;
        };
        self.places[place].sent = true;
        true
    }

    // Removes the row with a number, and keeps the order of the others.
    pub fn remove(&mut self, number: u32) -> bool
        ensures value { result ≡ is_pending number (rows_of self.old) }
        ensures rows { rows_of self.new ≡ dropped number (rows_of self.old) }
        ensures unchanged { SameUnless result self.old self.new }
    {
        let Some(place) = self.find(number) else {
            return false;
        };
        self.places.copy_within(place + 1..self.len, place);
        self.len -= 1;
        true
    }

    // The place of the row that ends first. By places, and no chain over the rows: `min_by_key` and `reduce` took two to
    // four times as long.
    fn earliest(&self) -> Option<usize>
        ensures { EarliestAt (rows_of self.now) result }
    {
        if self.len == 0 {
            return None;
        }
        let mut best = 0;
        for i in 1..self.len {
            if ends_before(&self.places[i], &self.places[best]) {
                best = i;
            }
        }
        Some(best)
    }

    // The place of the row that ends first, where its expiry has been reached.
    pub fn first_expired(&self, time: u64) -> Option<usize>
        ensures value { DueAt (rows_of self.now) time result }
        ensures soonest { FirstExpired (rows_of self.now) time result }
    {
        let place = self.earliest()?;
        if self.rows()[place].expiry > time {
            return None;
        }
        Some(place)
    }
}
